//! Refusals, each with what is looked at before it and behind it.

use crate::played::{Answer, add_row, sink_of, source_of, told};
use mama_plain::Status;
use std::alloc::Global;
use std::process::ExitCode;
use std::test::Fail;

// A row has the answer, the exit status, how many bytes are left and written, and then the words, the number of the read
// that fails, the room and the input. Words that are no command are told before anything is read, a read that fails before what
// was read; a fault of the script before one of the log, a line that does not fit before a rule, and an object that is
// not there last of a script's faults, with groups and watches that may not be; a topic that is not declared has any number. A write
// fails last of all. A log of version 1 does not fit a script with a group.
const REFUSALS: &str = r#"bad words@2 23 0=@1@0@mama script 1|client|x|
bad words@2 23 0=play@0@100@mama script 1|client|x|
bad words@2 23 0=play 0@0@100@mama script 1|client|x|
bad words@2 23 0=serial x@0@100@mama script 1|client|x|
bad words@2 23 0=check check@0@100@mama script 1|client|x|
bad words@2 23 0=rewrite rewrite@0@100@mama script 1|client|x|
bad words@2 23 0=replay replay@0@100@mama script 1|client|x|
bad words@2 23 0=gen -1@0@100@mama script 1|client|x|
read fault@5 23 0=serial@1@0@mama script 1|client|x|
read fault@5 23 0=check@1@0@mama script 1|client|x|
read fault@5 23 0=rewrite@1@0@mama script 1|client|x|
read fault@5 23 0=replay@1@0@mama script 1|client|x|
read fault@5 0 0=serial@2@0@mama script 1|client|x|
bad script, line 2, fault 3@3 0 0=serial@3@0@mama script 1|client|x|
bad script, line 1, fault 1@3 0 0=serial@0@0@
bad script, line 1, fault 1@3 0 0=serial@0@0@mama script 3|queues 1|client|
bad script, line 2, fault 3@3 0 0=serial@0@0@mama script 1|strategy 1|queues 1|client|
bad script, line 2, fault 3@3 0 0=serial@0@0@mama script 2|queues 1|client|
bad script, line 2, fault 3@3 0 0=serial@0@0@mama script 2|
bad script, line 2, fault 4@3 0 0=serial@0@0@mama script 2|strategy|
bad script, line 2, fault 5@3 0 0=serial@0@0@mama script 2|strategy 3|queues 1|client|
bad script, line 3, fault 3@3 0 0=serial@0@0@mama script 2|strategy 2|strategy 2|queues 1|client|
bad script, line 3, fault 3@3 0 0=serial@0@0@mama script 1|queues 1|
bad script, line 4, fault 10@3 0 0=serial@0@0@mama script 1|queues 1|client|stop s0.5|
bad script, line 5, fault 5@3 0 0=serial@0@0@mama script 1|queues 1|client|stop s0.5|now x|
bad script, line 5, fault 9@3 0 0=serial@0@0@mama script 1|queues 1|topic "T"|client|sub 1 market 0 10 1000|
bad script, line 5, fault 9@3 0 0=serial@0@0@mama script 1|queues 1|topic "T"|client|sub 5000000000 market 0 10 1000|
over limit 2, line 2@4 0 0=serial@0@0@mama script 1|queues 65|client|x|
bad script, line 2, fault 5@3 0 0=check@0@0@mama script 1|queues 0|log|mama log 2|
over limit 2, line 2@4 0 0=check@0@0@mama script 1|queues 65|log|mama log 2|
bad script, line 4, fault 7@3 0 0=serial@0@0@mama script 1|queues 1|topic "T"|publisher 0 5:dp:nums:[1,-2]|
bad script, line 6, fault 3@3 0 0=serial@0@0@mama script 1|queues 1|topic "T"|client|sub 0 market 0 10 1000|group s0.0|
bad script, line 7, fault 13@3 0 0=serial@0@0@mama script 2|strategy 1|queues 1|topic "T"|client|sub 0 market 0 10 1000|group s0.0 s0.0|
bad script, line 8, fault 14@3 0 0=serial@0@0@mama script 2|strategy 1|queues 1|topic "T"|client|sub 0 basic 0 0 0|timer 0 10|watch s0.0 t0.0 1|
bad log, line 9@7 0 0=check@0@0@mama script 2|strategy 1|queues 1|topic "T"|client|sub 0 market 0 10 1000|group s0.0|log|mama log 1|
bad script, line 2, fault 3@3 0 0=rewrite@0@0@mama script 1|client|x|
bad log, line 5@7 0 0=rewrite@0@0@mama script 1|queues 1|client|log|mama log 2|
bad log, line 7@7 0 0=rewrite@0@0@mama script 2|strategy 2|queues 1|client|log|mama log 2|strategy 1|
bad log, line 8@7 0 0=rewrite@0@0@mama script 2|strategy 1|queues 1|client|log|mama log 2|strategy 1|client 0|
bad log, line 12@7 0 0=check@0@0@mama script 2|strategy 1|queues 1|client|log|mama log 2|strategy 1|client 0 0|bridge 3|c0 done|q0 bye|timers 3|c0 done|b fin|q0 bye|queue 0 2|b fin|t fin|images 0|end|
bad log, line 11@7 0 0=check@0@0@mama script 2|strategy 1|queues 1|client|log|mama log 2|strategy 1|client 0 0|bridge 1|c0 done|q0 bye|timers 3|c0 done|b fin|q0 bye|queue 0 2|b fin|t fin|images 0|end|
ok@0 0 17=check@0@100@mama script 2|strategy 1|queues 1|client|log|mama log 2|strategy 1|client 0 0|bridge 2|c0 done|q0 bye|timers 3|c0 done|b fin|q0 bye|queue 0 2|b fin|t fin|images 0|end|
write fault@6 0 20=rewrite@0@20@mama script 1|queues 1|client|
ok@0 0 41=rewrite@0@100@mama script 1|queues 1|client|
bad log, line 5@7 0 0=check@0@0@mama script 1|queues 1|client|log|
bad script, line 2, fault 3@3 0 0=replay@0@0@mama script 1|client|x|
bad log, line 4@7 0 0=replay@0@0@mama script 1|queues 1|client|
bad log, line 5@7 0 0=replay@0@0@mama script 1|queues 1|client|log|mama log 2|
not legal@1 0 0=replay@0@100@mama script 1|queues 1|client|log|mama log 1|client 0|bridge|timers|queue 0|images|end|
ok@0 0 178=replay@0@300@mama script 1|queues 1|client|log|mama log 1|client 0|bridge|c0 done|q0 bye|timers|c0 done|b fin|q0 bye|queue 0|b fin|t fin|images|end|
not causal@10 0 0=replay@0@0@mama script 1|queues 1|topic "EQ.ABC"|publisher 0 22:bid:u32:100|client|sub 0 market 0 10 1000|at 2 stop s0.0|log|mama log 1|client 0|publisher 0|want s0.0 initial|done|settle|fin|bridge|c0 join s0.0|q0 leave s0.0|p0 image s0.0 initial 1 0 22:bid:u32:100|c0 done|p0 done|p0 settled|q0 bye|timers|c0 done|b fin|q0 bye|queue 0|b create 0 s0.0|b gone 0 s0.0|b fin|t fin|on s0.0|create|destroy|order stop s0.0|images|end|
write fault@6 0 20=replay@0@20@mama script 1|queues 1|client|log|mama log 1|client 0|bridge|c0 done|q0 bye|timers|c0 done|b fin|q0 bye|queue 0|b fin|t fin|images|end|
bad log, line 5@7 0 0=check@0@0@mama script 1|queues 1|client|log|mama log 2|
bad log, line 4@7 0 0=check@0@0@mama script 1|queues 1|client|
bad script, line 4, fault 2@3 0 0=check@0@0@mama script 1|queues 1|client|log
bad log, line 13@7 0 0=check@0@0@mama script 1|queues 1|client|log|mama log 1|client 0|clock 1|bridge|timers|queue 0|images|end|x|
not legal@1 0 16=check@0@100@mama script 1|queues 1|client|log|mama log 1|client 0|clock 1|bridge|timers|queue 0|images|end|
not legal@1 0 15=check@0@100@mama script 1|queues 1|client|log|mama log 1|client 0|bridge|timers|queue 0|images|end|
write fault@6 0 3=check@0@3@mama script 1|queues 1|client|log|mama log 1|client 0|bridge|timers|queue 0|images|end|
ok@0 0 17=check@0@100@mama script 1|queues 1|client|log|mama log 1|client 0|bridge|c0 done|q0 bye|timers|c0 done|b fin|q0 bye|queue 0|b fin|t fin|images|end|
write fault@6 0 10=check@0@10@mama script 1|queues 1|client|log|mama log 1|client 0|bridge|c0 done|q0 bye|timers|c0 done|b fin|q0 bye|queue 0|b fin|t fin|images|end|
write fault@6 0 0=serial@0@0@mama script 1|queues 1|client|
write fault@6 0 100=serial@0@100@mama script 1|queues 1|client|
ok@0 0 101=serial@0@101@mama script 1|queues 1|client|"#;

// The part of a row before a sign, and the part behind it.
fn parted(row: &str) -> Result<(&str, &str), Fail> {
    Ok(row.split_once('@').ok_or("a part")?)
}

fn number(word: &str) -> u64 {
    word.parse::<u64>().unwrap_or(0)
}

// What a command answers to the input of a row.
fn tell(alloc: Global, words: &str, failing: &str, rest: &str) -> Result<Answer, Fail> {
    let (room, row) = parted(rest)?;
    let mut input = Vec::new(alloc);
    add_row(&mut input, row)?;
    let source = source_of(alloc, input, 1000, number(failing))?;
    let sink = sink_of(alloc, room.parse::<usize>().unwrap_or(0), 100, 0)?;
    told(alloc, words, source, sink, Vec::new(alloc))
}

// Whether a status has this text and this exit status.
fn is_status(alloc: Global, status: Status, text: &str, exit: &str) -> Result<bool, Fail> {
    let said = format!(in alloc; "{status}")?;
    let exit = ExitCode::from(exit.parse::<u8>().unwrap_or(255));
    Ok(said.as_str() == text && status.exit() == exit)
}

// Whether so many bytes are left and written.
fn has_counts(alloc: Global, answer: &Answer, counts: &str) -> Result<bool, Fail> {
    let left = answer.left;
    let written = answer.written.len();
    Ok(format!(in alloc; "{left} {written}")?.as_str() == counts)
}

// Whether an answer is that of its row: the text, the exit status and the counts.
fn is_so(alloc: Global, answer: &Answer, row: &str) -> Result<bool, Fail> {
    let (text, numbers) = parted(row)?;
    let (exit, counts) = numbers.split_once(' ').ok_or("counts")?;
    Ok(is_status(alloc, answer.status, text, exit)? && has_counts(alloc, answer, counts)?)
}

// Whether a row is answered so.
fn is_answered(alloc: Global, row: &str) -> Result<bool, Fail> {
    let (want, rest) = row.split_once('=').ok_or("a command")?;
    let (words, rest) = parted(rest)?;
    let (failing, rest) = parted(rest)?;
    let answer = tell(alloc, words, failing, rest)?;
    is_so(alloc, &answer, want)
}

#[test]
fn refusals_come_in_their_order(rt: HostRuntime) -> Result<(), Fail> {
    for row in REFUSALS.lines() {
        assert!(rt; is_answered(rt.alloc(), row)?, "{row}");
    }
    Ok(())
}
