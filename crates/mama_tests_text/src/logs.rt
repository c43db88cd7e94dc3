use crate::log_lines::SCRIPT;
use crate::rows::{numbered, text_of};
use mama_log_read::{LogFault, parse_log};
use mama_record::print_log;
use mama_script::{Script, parse};
use std::alloc::Global;
use std::test::Fail;

// A log of the script, of no run, in which each kind of line stands once at least.
const LOG: &str = r#"mama log 1
client 0
clock 10
clock 18446744073709551615
client 1
publisher 0
want s0.0 initial
send
want s1.0 recap
ask i1.0 1 65535
done
settle
fin
bridge
c0 join s1.0
c1 leave s0.0
c1 open i1.0
c0 ask i1.0 0 1
c0 close i1.0
c1 done
p0 image s0.0 initial 1 0
p0 publish update 1 1 1:p:u32:6
p0 reply i1.0 1:p:u32:6 2:q:text:"a b"
p0 done
p0 settled
q0 recap s1.0 4294967295
q0 ask i1.0 0 7 8
q1 leave s1.0
q1 close i1.0
q1 bye
timers
c1 arm t0.0
c1 disarm t0.0
c0 now 7
c0 done
b fin
q0 disarm t0.0
q1 bye
queue 0
b create 0 s0.0
b data 0 s0.0 update 1 1 1:p:u32:6
b bad 0 s0.0 update 1 2 x0101090019
b gone 0 s0.0
b fin
queue 1
b create 4294967295 i1.0
b reply 1 i1.0 1:p:u32:6
b badreply 1 i1.0 x0141
t create 0 t0.0
t tick 0 t0.0 5
t gone 0 t0.0
t fin
on s0.0
create
msg initial 1 0 ok 1:p:u32:5
gap 2 3
quality stale 3
request 1
order stop s1.0
order ask i1.0 0 1
error 255
destroy
on s1.0
on t0.0
create
tick 5
order disarm t0.0
destroy
on i1.0
create
reply 1:p:u32:6
order close i1.0
error 1
destroy
images
s0.0 ok 1 4 22:bid:u32:102 25:ask:u32:104
s1.0 stale 1 0
end
"#;

fn script_of(alloc: Global, row: &str) -> Result<Script, Fail> {
    Ok(parse(alloc, &text_of(alloc, row)?)?)
}

#[test]
fn a_log_is_printed_as_it_was_read(rt: HostRuntime) -> Result<(), Fail> {
    let script = script_of(rt.alloc(), SCRIPT)?;
    let run = parse_log(rt.alloc(), &script, LOG.as_bytes())?;
    let printed = print_log(rt.alloc(), script.shape(), &run, script.version())?;
    assert_eq!(rt; printed.as_slice(), LOG.as_bytes());
    assert!(rt; parse_log(rt.alloc(), &script, &printed)? == run);
    Ok(())
}

const SMALL: &str =
    r#"mama script 1|queues 1|topic "A"|client|sub 0 market 0 10 1000|sub 0 market 0 10 1000|"#;

// The first line that does not fit a log of the small script, or 0: a log of nothing; one without its end, with a last
// line that is not ended, with a line behind the end; an order before any callback, and a ninth; images that do not
// ascend, and one that stands twice; an object and a client that are not declared; sections that are missing; and a line
// in a wrong spelling.
const LOGS: &str = "0 mama log 1|client 0|bridge|timers|queue 0|on s0.0|on s0.1|images|end|
9 mama log 1|client 0|bridge|timers|queue 0|on s0.0|on s0.1|images|
9 mama log 1|client 0|bridge|timers|queue 0|on s0.0|on s0.1|images|end
10 mama log 1|client 0|bridge|timers|queue 0|on s0.0|on s0.1|images|end|end|
10 mama log 1|client 0|bridge|timers|queue 0|on s0.0|on s0.1|images|end||
1 
7 mama log 1|client 0|bridge|timers|queue 0|on s0.0|order stop s0.0|
16 mama log 1|client 0|bridge|timers|queue 0|on s0.0|create|order stop s0.0|order stop s0.0|order stop s0.0|order stop s0.0|order stop s0.0|order stop s0.0|order stop s0.0|order stop s0.0|order stop s0.0|
10 mama log 1|client 0|bridge|timers|queue 0|on s0.0|on s0.1|images|s0.1 ok 1 0 1:a:u32:1|s0.0 ok 1 0 1:a:u32:1|end|
10 mama log 1|client 0|bridge|timers|queue 0|on s0.0|on s0.1|images|s0.1 ok 1 0 1:a:u32:1|s0.1 ok 1 0 1:a:u32:1|end|
4 mama log 1|client 0|bridge|c0 join s0.2|
2 mama log 1|client 1|bridge|
3 mama log 1|client 0|timers|
6 mama log 1|client 0|bridge|timers|queue 0|on s0.1|
3 mama log 1|client 0|clock x|bridge|";

// A script with a group and a watch, and its log, of no run.
const GROUPED: &str =
    r#"mama script 2|strategy 1|queues 1|topic "A"|client|sub 0 market 0 10 1000|timer 0 10|group s0.0|watch s0.0 t0.0 1|"#;

const GROUPED_LOG: &str = "mama log 2
strategy 1
client 0 0
bridge 0
timers 0
queue 0 0
on s0.0 0
on t0.0 0
group 0 4
s0.0 create
state fresh
s0.0 destroy
state ended
watch 0 2
retry 1 10
timeout 20
images 0
end
";

// The first line that does not fit a log of that script, or 0. In order: nothing heard and noted; a group's section
// that is missing, of another number, and without its number of lines; a watch's that is missing; a state and a member that
// are not there; a line too few and one too many in a group's section; a callback of no member, and lines of another kind of
// section; and a line too few in a watch's.
const GROUPED_LOGS: &str = "0 group 0 0|watch 0 0|images 0|end|
9 watch 0 0|images 0|end|
9 group 1 0|watch 0 0|images 0|end|
9 group 0|watch 0 0|images 0|end|
10 group 0 0|images 0|end|
10 group 0 1|state gone|
10 group 0 1|s0.1 create|
10 group 0 1|watch 0 0|images 0|end|
11 group 0 1|s0.0 create|state ended|watch 0 0|images 0|end|
10 group 0 1|create|
10 group 0 1|retry 1 10|
11 group 0 0|watch 0 1|tick 10|
11 group 0 0|watch 0 1|state ended|
12 group 0 0|watch 0 2|timeout 10|images 0|end|";

const GROUPED_HEAD: &str =
    "mama log 2|strategy 1|client 0 0|bridge 0|timers 0|queue 0 0|on s0.0 0|on t0.0 0|";

fn told(alloc: Global, script: &Script, text: &[u8]) -> Result<u64, Fail> {
    match parse_log(alloc, script, text) {
        Ok(_run) => Ok(0),
        Err(LogFault::Bad { line }) => Ok(line),
        Err(fault) => Err(Fail::from(fault)),
    }
}

#[test]
fn the_first_line_that_does_not_fit(rt: HostRuntime) -> Result<(), Fail> {
    let script = script_of(rt.alloc(), SMALL)?;
    for row in LOGS.lines() {
        let (line, lines) = numbered(row);
        let text = text_of(rt.alloc(), lines)?;
        assert_eq!(rt; told(rt.alloc(), &script, &text)?, line, "{row}");
    }
    Ok(())
}

#[test]
fn a_log_with_lists_is_printed_as_it_was_read(rt: HostRuntime) -> Result<(), Fail> {
    let script = script_of(rt.alloc(), GROUPED)?;
    let run = parse_log(rt.alloc(), &script, GROUPED_LOG.as_bytes())?;
    let printed = print_log(rt.alloc(), script.shape(), &run, script.version())?;
    assert_eq!(rt; printed.as_slice(), GROUPED_LOG.as_bytes());
    Ok(())
}

#[test]
fn the_first_line_that_does_not_fit_a_log_with_lists(rt: HostRuntime) -> Result<(), Fail> {
    let script = script_of(rt.alloc(), GROUPED)?;
    for row in GROUPED_LOGS.lines() {
        let (line, lines) = numbered(row);
        let log = format!(in rt.alloc(); "{GROUPED_HEAD}{lines}")?;
        let text = text_of(rt.alloc(), log.as_str())?;
        assert_eq!(rt; told(rt.alloc(), &script, &text)?, line, "{row}");
    }
    let first = b"mama log 1\n".as_slice();
    assert_eq!(rt; told(rt.alloc(), &script, first)?, 1);
    Ok(())
}
