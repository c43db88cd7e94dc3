use crate::lists::{names_of, publisher_journal, script_of, text_of};
use mama_check::{
    Actor, Verdict, check, clock_lines_of, first_of_lines, first_of_moments, has_sent_all, sends_of,
};
use mama_log_line::Names;
use mama_log_read::{LogFault, parse_log};
use mama_memory::OutOfMemory;
use mama_record::RunRecord;
use mama_script::Script;
use std::alloc::Global;
use std::test::Fail;

const SCRIPT: &str =
    "mama script 1|queues 1|topic \"A\"|publisher 0 1:p:u32:5|pause 9|update 1:p:u32:6|recap|recap|client|now clock|now 5|pause 2|now clock|client|sub 0 basic 0 0 0|";

// Whether a publisher's journal has sent so many lines, and ended. In order: three that have; then no entry, no done, no
// settle and no fin; a line too few and one too many; and what stands before or behind where it may not.
const SENT: &str = "yes 0 done|settle|fin|
yes 2 send|want s1.0 initial|send|done|settle|fin|
yes 1 want s1.0 initial|send|done|want s1.0 recap|want s1.0 recap|settle|fin|
no 1 
no 1 send|
no 1 send|settle|fin|
no 1 send|done|
no 1 send|done|fin|
no 1 send|done|settle|
no 1 send|done|fin|settle|
no 1 done|settle|fin|
no 1 send|send|done|settle|fin|
no 1 done|send|settle|fin|
no 1 send|done|done|settle|fin|
no 1 send|settle|done|settle|fin|
no 1 send|done|settle|fin|want s1.0 initial|
no 1 send|done|settle|want s1.0 initial|fin|";

// Whether a journal has sent all, or not, as its row says.
fn has_sent(alloc: Global, names: &Names, row: &str) -> Result<bool, Fail> {
    let (want, rest) = row.split_once(' ').unwrap_or((row, ""));
    let (sends, lines) = rest.split_once(' ').unwrap_or((rest, ""));
    let journal = publisher_journal(alloc, names, lines)?;
    let sends = sends.parse::<usize>().unwrap_or(0);
    Ok(has_sent_all(sends, &journal) == (want == "yes"))
}

#[test]
fn a_publisher_has_sent_all_or_not(rt: HostRuntime) -> Result<(), Fail> {
    let names = names(rt.alloc())?;
    for row in SENT.lines() {
        assert!(rt; has_sent(rt.alloc(), &names, row)?, "{row}");
    }
    Ok(())
}

fn names(alloc: Global) -> Result<Names, Fail> {
    let script = script_of(alloc, SCRIPT)?;
    Ok(names_of(alloc, &script)?)
}

// How many lines of the client of this number read the clock.
fn clock_lines(script: &Script, client: usize) -> Option<usize> {
    Some(clock_lines_of(script.clients().get(client)?.as_slice()))
}

// How many lines of the first publisher send.
fn sends(script: &Script) -> Option<usize> {
    Some(sends_of(script.publishers().first()?.lines.as_slice()))
}

#[test]
fn lines_are_counted(rt: HostRuntime) -> Result<(), Fail> {
    let script = script_of(rt.alloc(), SCRIPT)?;
    assert!(rt; clock_lines(&script, 0) == Some(2));
    assert!(rt; clock_lines(&script, 1) == Some(0));
    assert!(rt; sends(&script) == Some(3));
    Ok(())
}

// The first client that read too little, and the first publisher that did, of a record with a list for each.
fn firsts(script: &Script, run: &RunRecord) -> Option<(Option<usize>, Option<usize>)> {
    if script.clients().len() != run.clients().len() {
        return None;
    }
    if script.publishers().len() != run.publishers().len() {
        return None;
    }
    Some((first_of_moments(script, run), first_of_lines(script, run)))
}

// The first client and the first publisher that did too little or too much, if there are any, and their sections.
const SECTIONS: &str =
    "- -@client 0|clock 7|clock 7|client 1|publisher 0|send|send|send|done|settle|fin|
0 0@client 0|clock 7|client 1|publisher 0|send|send|done|settle|fin|
1 -@client 0|clock 7|clock 7|client 1|clock 7|publisher 0|send|send|send|done|settle|fin|
0 0@client 0|client 1|clock 7|publisher 0|";

fn place(found: Option<usize>) -> char {
    match found {
        None => '-',
        Some(0) => '0',
        Some(1) => '1',
        Some(_) => '?',
    }
}

fn read(alloc: Global, script: &Script, log: &[u8]) -> Result<RunRecord, LogFault> {
    parse_log(alloc, script, log)
}

fn run_of(alloc: Global, script: &Script, log: &str) -> Result<RunRecord, Fail> {
    let text = text_of(alloc, log)?;
    Ok(read(alloc, script, &text)?)
}

fn run_with(alloc: Global, script: &Script, sections: &str) -> Result<RunRecord, Fail> {
    let rest = "bridge|timers|queue 0|on s1.0|images|end|";
    let log = format!(in alloc; "mama log 1|{sections}{rest}")?;
    run_of(alloc, script, log.as_str())
}

// Whether the first ones of a record are as its row says.
fn are_firsts(alloc: Global, script: &Script, row: &str) -> Result<bool, Fail> {
    let (want, sections) = row.split_once('@').unwrap_or((row, ""));
    let run = run_with(alloc, script, sections)?;
    let (client, publisher) = firsts(script, &run).ok_or("a list for each")?;
    let client = place(client);
    let publisher = place(publisher);
    Ok(format!(in alloc; "{client} {publisher}")?.as_str() == want)
}

#[test]
fn the_first_that_did_too_little_is_found(rt: HostRuntime) -> Result<(), Fail> {
    let script = script_of(rt.alloc(), SCRIPT)?;
    for row in SECTIONS.lines() {
        assert!(rt; are_firsts(rt.alloc(), &script, row)?, "{row}");
    }
    Ok(())
}

// A verdict in words, and the log of a script with one client.
const VERDICTS: &str =
    "causal@client 0|bridge|c0 done|q0 bye|timers|c0 done|b fin|q0 bye|queue 0|b fin|t fin|images|end|
causal@client 0|bridge|c0 done|q0 bye|timers|b fin|c0 done|q0 bye|queue 0|t fin|b fin|images|end|
1 client@client 0|clock 5|bridge|c0 done|q0 bye|timers|c0 done|b fin|q0 bye|queue 0|b fin|t fin|images|end|
3 bridge@client 0|bridge|q0 bye|timers|c0 done|b fin|q0 bye|queue 0|b fin|t fin|images|end|
3 timers@client 0|bridge|c0 done|q0 bye|timers|c0 done|q0 bye|queue 0|b fin|t fin|images|end|
3 queue@client 0|bridge|c0 done|q0 bye|timers|c0 done|b fin|q0 bye|queue 0|t fin|b fin|b fin|images|end|
not causal@client 0|bridge|q0 bye|c0 done|timers|c0 done|b fin|q0 bye|queue 0|b fin|t fin|images|end|";

fn actor_word(actor: Actor) -> &'static str {
    match actor {
        Actor::Client(_) => "client",
        Actor::Publisher(_) => "publisher",
        Actor::Bridge => "bridge",
        Actor::Timers => "timers",
        Actor::Queue(_) => "queue",
        Actor::Object(_) => "object",
        Actor::Group(_) => "group",
        Actor::Watch(_) => "watch",
    }
}

fn verdict_text(alloc: Global, verdict: Verdict) -> Result<String, Fail> {
    Ok(match verdict {
        Verdict::Legal { causal: true } => format!(in alloc; "causal")?,
        Verdict::Legal { causal: false } => format!(in alloc; "not causal")?,
        Verdict::NotLegal { rule, actor } => {
            let word = actor_word(actor);
            format!(in alloc; "{rule} {word}")?
        }
    })
}

// The verdict on a log that fits its script; where it does not fit, this answers want of memory.
fn judged(alloc: Global, script: &Script, log: &[u8]) -> Result<Verdict, OutOfMemory> {
    match parse_log(alloc, script, log) {
        Ok(run) => check(alloc, script, &run),
        Err(_) => Err(OutOfMemory),
    }
}

// Whether this is the verdict on a log.
fn is_verdict(alloc: Global, script: &Script, log: &str, want: &str) -> Result<bool, Fail> {
    let text = text_of(alloc, log)?;
    let verdict = judged(alloc, script, &text)?;
    Ok(verdict_text(alloc, verdict)?.as_str() == want)
}

// Whether the verdict on a row's log is that of the row.
fn is_judged(alloc: Global, script: &Script, row: &str) -> Result<bool, Fail> {
    let (want, sections) = row.split_once('@').unwrap_or((row, ""));
    let log = format!(in alloc; "mama log 1|{sections}")?;
    is_verdict(alloc, script, log.as_str(), want)
}

#[test]
fn small_records_are_judged(rt: HostRuntime) -> Result<(), Fail> {
    let script = script_of(rt.alloc(), "mama script 1|queues 1|client|")?;
    for row in VERDICTS.lines() {
        assert!(rt; is_judged(rt.alloc(), &script, row)?, "{row}");
    }
    Ok(())
}

// Two subscriptions in a group, of which the second loses its first image and is watched: the first tick finds no image, and
// the second finds that of the recap.
const GROUPED: &str =
    "mama script 2|strategy 1|queues 1|topic \"EQ.ABC\"|topic \"EQ.XYZ\"|publisher 0 22:bid:u32:100|update 22:bid:u32:101|publisher 1 22:bid:u32:200|client|sub 0 market 0 10 1000|sub 1 market 0 10 1000|fault lose 1|timer 0 10|now 10|now 20|group s0.0 s0.1|watch s0.1 t0.0 2|";

// Its log before the queue takes the first tick and the recap, behind that, and behind the lists of the group and the watch.
const BEFORE: &str =
    "mama log 2|strategy 1|client 0 0|publisher 0 5|want s0.0 initial|send|done|settle|fin|publisher 1 5|done|want s0.1 initial|want s0.1 recap|settle|fin|bridge 13|c0 join s0.0|p0 image s0.0 initial 1 0 22:bid:u32:100|p0 publish update 1 1 22:bid:u32:101|p1 done|c0 join s0.1|p1 image s0.1 initial 2 0 22:bid:u32:200|p0 done|q0 recap s0.1 2|p1 image s0.1 recap 2 0 22:bid:u32:200|c0 done|p0 settled|p1 settled|q0 bye|timers 6|c0 arm t0.0|c0 now 10|c0 now 20|c0 done|b fin|q0 bye|queue 0 13|b create 0 s0.0|b data 0 s0.0 initial 1 0 22:bid:u32:100|b data 0 s0.0 update 1 1 22:bid:u32:101|b create 1 s0.1|t create 0 t0.0|";

const BEHIND: &str =
    "t tick 0 t0.0 20|b gone 0 s0.0|b gone 1 s0.1|b fin|t gone 0 t0.0|t fin|on s0.0 4|create|msg initial 1 0 ok 22:bid:u32:100|msg update 1 1 ok 22:bid:u32:101|destroy|on s0.1 3|create|msg recap 2 0 ok 22:bid:u32:200|destroy|on t0.0 4|create|tick 10|tick 20|destroy|";

const IMAGES: &str = "images 2|s0.0 ok 1 1 22:bid:u32:101|s0.1 ok 2 0 22:bid:u32:200|end|";

// A verdict in words, what the queue took there, and what the group heard and the watch noted. In order: as it was; the recap
// before the tick, so that the bridge took a wish that no watch made; a state that is told at first, left out, told before its
// callback, another, told twice, and told before all members are ended; a callback that is left out, and two in another
// order; a retry that is left out, one more, one at another tick, and a timeout in its place; and both wrong.
const LISTS: &str =
    "causal@t tick 0 t0.0 10|b data 1 s0.1 recap 2 0 22:bid:u32:200|@group 0 9|s0.0 create|s0.0 msg initial 1 0 ok 22:bid:u32:100|s0.0 msg update 1 1 ok 22:bid:u32:101|s0.1 create|s0.1 msg recap 2 0 ok 22:bid:u32:200|state fresh|s0.0 destroy|s0.1 destroy|state ended|watch 0 1|retry 1 10|
3 bridge@b data 1 s0.1 recap 2 0 22:bid:u32:200|t tick 0 t0.0 10|@group 0 9|s0.0 create|s0.0 msg initial 1 0 ok 22:bid:u32:100|s0.0 msg update 1 1 ok 22:bid:u32:101|s0.1 create|s0.1 msg recap 2 0 ok 22:bid:u32:200|state fresh|s0.0 destroy|s0.1 destroy|state ended|watch 0 1|retry 1 10|
10 group@t tick 0 t0.0 10|b data 1 s0.1 recap 2 0 22:bid:u32:200|@group 0 10|state waiting|s0.0 create|s0.0 msg initial 1 0 ok 22:bid:u32:100|s0.0 msg update 1 1 ok 22:bid:u32:101|s0.1 create|s0.1 msg recap 2 0 ok 22:bid:u32:200|state fresh|s0.0 destroy|s0.1 destroy|state ended|watch 0 1|retry 1 10|
10 group@t tick 0 t0.0 10|b data 1 s0.1 recap 2 0 22:bid:u32:200|@group 0 8|s0.0 create|s0.0 msg initial 1 0 ok 22:bid:u32:100|s0.0 msg update 1 1 ok 22:bid:u32:101|s0.1 create|s0.1 msg recap 2 0 ok 22:bid:u32:200|s0.0 destroy|s0.1 destroy|state ended|watch 0 1|retry 1 10|
10 group@t tick 0 t0.0 10|b data 1 s0.1 recap 2 0 22:bid:u32:200|@group 0 9|s0.0 create|s0.0 msg initial 1 0 ok 22:bid:u32:100|s0.0 msg update 1 1 ok 22:bid:u32:101|s0.1 create|state fresh|s0.1 msg recap 2 0 ok 22:bid:u32:200|s0.0 destroy|s0.1 destroy|state ended|watch 0 1|retry 1 10|
10 group@t tick 0 t0.0 10|b data 1 s0.1 recap 2 0 22:bid:u32:200|@group 0 9|s0.0 create|s0.0 msg initial 1 0 ok 22:bid:u32:100|s0.0 msg update 1 1 ok 22:bid:u32:101|s0.1 create|s0.1 msg recap 2 0 ok 22:bid:u32:200|state stale|s0.0 destroy|s0.1 destroy|state ended|watch 0 1|retry 1 10|
10 group@t tick 0 t0.0 10|b data 1 s0.1 recap 2 0 22:bid:u32:200|@group 0 10|s0.0 create|s0.0 msg initial 1 0 ok 22:bid:u32:100|s0.0 msg update 1 1 ok 22:bid:u32:101|s0.1 create|s0.1 msg recap 2 0 ok 22:bid:u32:200|state fresh|state fresh|s0.0 destroy|s0.1 destroy|state ended|watch 0 1|retry 1 10|
10 group@t tick 0 t0.0 10|b data 1 s0.1 recap 2 0 22:bid:u32:200|@group 0 10|s0.0 create|s0.0 msg initial 1 0 ok 22:bid:u32:100|s0.0 msg update 1 1 ok 22:bid:u32:101|s0.1 create|s0.1 msg recap 2 0 ok 22:bid:u32:200|state fresh|s0.0 destroy|state ended|s0.1 destroy|state ended|watch 0 1|retry 1 10|
10 group@t tick 0 t0.0 10|b data 1 s0.1 recap 2 0 22:bid:u32:200|@group 0 8|s0.0 create|s0.0 msg initial 1 0 ok 22:bid:u32:100|s0.0 msg update 1 1 ok 22:bid:u32:101|s0.1 msg recap 2 0 ok 22:bid:u32:200|state fresh|s0.0 destroy|s0.1 destroy|state ended|watch 0 1|retry 1 10|
10 group@t tick 0 t0.0 10|b data 1 s0.1 recap 2 0 22:bid:u32:200|@group 0 9|s0.0 create|s0.0 msg initial 1 0 ok 22:bid:u32:100|s0.1 create|s0.0 msg update 1 1 ok 22:bid:u32:101|s0.1 msg recap 2 0 ok 22:bid:u32:200|state fresh|s0.0 destroy|s0.1 destroy|state ended|watch 0 1|retry 1 10|
11 watch@t tick 0 t0.0 10|b data 1 s0.1 recap 2 0 22:bid:u32:200|@group 0 9|s0.0 create|s0.0 msg initial 1 0 ok 22:bid:u32:100|s0.0 msg update 1 1 ok 22:bid:u32:101|s0.1 create|s0.1 msg recap 2 0 ok 22:bid:u32:200|state fresh|s0.0 destroy|s0.1 destroy|state ended|watch 0 0|
11 watch@t tick 0 t0.0 10|b data 1 s0.1 recap 2 0 22:bid:u32:200|@group 0 9|s0.0 create|s0.0 msg initial 1 0 ok 22:bid:u32:100|s0.0 msg update 1 1 ok 22:bid:u32:101|s0.1 create|s0.1 msg recap 2 0 ok 22:bid:u32:200|state fresh|s0.0 destroy|s0.1 destroy|state ended|watch 0 2|retry 1 10|retry 2 20|
11 watch@t tick 0 t0.0 10|b data 1 s0.1 recap 2 0 22:bid:u32:200|@group 0 9|s0.0 create|s0.0 msg initial 1 0 ok 22:bid:u32:100|s0.0 msg update 1 1 ok 22:bid:u32:101|s0.1 create|s0.1 msg recap 2 0 ok 22:bid:u32:200|state fresh|s0.0 destroy|s0.1 destroy|state ended|watch 0 1|retry 1 20|
11 watch@t tick 0 t0.0 10|b data 1 s0.1 recap 2 0 22:bid:u32:200|@group 0 9|s0.0 create|s0.0 msg initial 1 0 ok 22:bid:u32:100|s0.0 msg update 1 1 ok 22:bid:u32:101|s0.1 create|s0.1 msg recap 2 0 ok 22:bid:u32:200|state fresh|s0.0 destroy|s0.1 destroy|state ended|watch 0 1|timeout 10|
10 group@t tick 0 t0.0 10|b data 1 s0.1 recap 2 0 22:bid:u32:200|@group 0 0|watch 0 0|";

// Whether the verdict on the log with a row's lists is that of the row.
fn is_listed(alloc: Global, script: &Script, row: &str) -> Result<bool, Fail> {
    let (want, rest) = row.split_once('@').unwrap_or((row, ""));
    let (took, lists) = rest.split_once('@').unwrap_or((rest, ""));
    let log = format!(in alloc; "{BEFORE}{took}{BEHIND}{lists}{IMAGES}")?;
    is_verdict(alloc, script, log.as_str(), want)
}

#[test]
fn lists_of_groups_and_watches_are_judged(rt: HostRuntime) -> Result<(), Fail> {
    let script = script_of(rt.alloc(), GROUPED)?;
    for row in LISTS.lines() {
        assert!(rt; is_listed(rt.alloc(), &script, row)?, "{row}");
    }
    Ok(())
}
