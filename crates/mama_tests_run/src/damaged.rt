//! Logs, damaged in one line at a time: which rule is broken first, and by whom.

use crate::played::{ROOM, add_row, is_causal, is_judged, log_of};
use mama_check::Actor;
use mama_event::{InboxId, ObjectId, SubId, TimerId};
use mama_plain::Status;
use std::alloc::{AllocError, Global};
use std::test::Fail;

const SCRIPT: &str = r#"mama script 1
queues 1
topic "T"
publisher 0 1:a:u32:5
update 1:a:u32:6
client
sub 0 market 0 10 1000
timer 0 10
now clock
inbox 0
ask i0.0 0 1
"#;

// A log of it, whose clock told 12.
const LOG: &str = r#"mama log 1
client 0
clock 12
publisher 0
want s0.0 initial
send
done
ask i0.0 1
settle
fin
bridge
c0 join s0.0
p0 image s0.0 initial 1 0 1:a:u32:5
p0 publish update 1 1 1:a:u32:6
p0 done
c0 open i0.0
c0 ask i0.0 0 1
p0 reply i0.0 1:a:u32:6
c0 done
p0 settled
q0 bye
timers
c0 arm t0.0
c0 now 12
c0 done
b fin
q0 bye
queue 0
b create 0 s0.0
b data 0 s0.0 initial 1 0 1:a:u32:5
b data 0 s0.0 update 1 1 1:a:u32:6
t create 0 t0.0
t tick 0 t0.0 12
b create 1 i0.0
b reply 1 i0.0 1:a:u32:6
b gone 0 s0.0
b gone 1 i0.0
b fin
t gone 0 t0.0
t fin
on s0.0
create
msg initial 1 0 ok 1:a:u32:5
msg update 1 1 ok 1:a:u32:6
destroy
on t0.0
create
tick 12
destroy
on i0.0
create
reply 1:a:u32:6
destroy
images
s0.0 ok 1 1 1:a:u32:6
end"#;

// The number of a line, the rule that is broken first and by whom, and what stands in its place, which may be nothing or
// several lines. In order: a moment too few, and one too many; a line that was not sent, done twice, no Fin; what was put
// was not taken, by each kind of taker; a slot that is not the least; an event twice, and one before its object came;
// callbacks left out, and with an order that no plan has; another image, and none.
const DAMAGES: &str = r#"3 1 c0@
3 1 c0@clock 12|clock 13|
6 2 p0@
8 2 p0@done|ask i0.0 1|
10 2 p0@
5 3 p0@
14 3 b@p0 publish update 1 1 1:a:u32:7|
21 3 b@
24 3 t@c0 now 13|
27 3 t@
33 3 q0@t tick 0 t0.0 13|
34 3 q0@b create 2 i0.0|
31 3 q0@b data 0 s0.0 update 1 1 1:a:u32:6|b data 0 s0.0 update 1 1 1:a:u32:6|
28 3 q0@queue 0|b data 0 s0.0 initial 1 0 1:a:u32:5|
44 5 s0.0@
43 5 s0.0@msg initial 1 0 ok 1:a:u32:5|order stop s0.0|
48 6 t0.0@
49 6 t0.0@
52 7 i0.0@
53 7 i0.0@destroy|reply 1:a:u32:6|
55 8 s0.0@s0.0 stale 1 1 1:a:u32:6|
55 8 s0.0@"#;

const SUB: ObjectId = ObjectId::Sub(SubId {
    client: 0,
    number: 0,
});

const TIMER: ObjectId = ObjectId::Timer(TimerId {
    client: 0,
    number: 0,
});

const INBOX: ObjectId = ObjectId::Inbox(InboxId {
    client: 0,
    number: 0,
});

// The object that a verdict names so.
fn object_of(word: &str) -> Option<Actor> {
    if word == "s0.0" {
        Some(Actor::Object(SUB))
    } else if word == "t0.0" {
        Some(Actor::Object(TIMER))
    } else if word == "i0.0" {
        Some(Actor::Object(INBOX))
    } else {
        None
    }
}

// The group or the watch that a verdict names so, or the object.
fn listed_of(word: &str) -> Option<Actor> {
    if word == "g0" {
        Some(Actor::Group(0))
    } else if word == "w0" {
        Some(Actor::Watch(0))
    } else {
        object_of(word)
    }
}

// The actor that a verdict names so.
fn actor_of(word: &str) -> Option<Actor> {
    if word == "c0" {
        Some(Actor::Client(0))
    } else if word == "p0" {
        Some(Actor::Publisher(0))
    } else if word == "b" {
        Some(Actor::Bridge)
    } else if word == "t" {
        Some(Actor::Timers)
    } else if word == "q0" {
        Some(Actor::Queue(0))
    } else {
        listed_of(word)
    }
}

fn add_line(log: &mut Vec<u8>, line: &str) -> Result<(), AllocError> {
    log.extend_from_slice(line.as_bytes())?;
    Ok(log.push(b'\n')?)
}

// The log with another text in place of the line of this number, from 1; 0 is no line.
fn log_with(alloc: Global, place: usize, row: &str) -> Result<Vec<u8>, Fail> {
    let mut log = Vec::new(alloc);
    for (before, line) in LOG.lines().enumerate() {
        if before.saturating_add(1) == place {
            add_row(&mut log, row)?;
        } else {
            add_line(&mut log, line)?;
        }
    }
    Ok(log)
}

// What a verdict says of a rule, by its number, and an actor.
fn status_of(rule: &str, word: &str) -> Result<Status, Fail> {
    Ok(Status::NotLegal {
        rule: rule.parse::<u8>().unwrap_or(0),
        actor: actor_of(word).ok_or("an actor")?,
    })
}

// Whether a log of a script is told to break this rule first, by this actor.
fn breaks(alloc: Global, script: &[u8], log: &[u8], rule: &str, word: &str) -> Result<bool, Fail> {
    let verdict = format!(in alloc; "not legal L{rule} {word}\n")?;
    let status = status_of(rule, word)?;
    is_judged(alloc, script, log, status, verdict.as_str())
}

// Whether a damage is told with its rule and its actor.
fn is_told(alloc: Global, row: &str) -> Result<bool, Fail> {
    let (head, lines) = row.split_once('@').ok_or("lines")?;
    let (place, rest) = head.split_once(' ').ok_or("a place")?;
    let (rule, word) = rest.split_once(' ').ok_or("a rule")?;
    let log = log_with(alloc, place.parse::<usize>().unwrap_or(0), lines)?;
    breaks(alloc, SCRIPT.as_bytes(), &log, rule, word)
}

fn is_whole(alloc: Global) -> Result<bool, Fail> {
    let log = log_with(alloc, 0, "")?;
    is_causal(alloc, SCRIPT.as_bytes(), &log)
}

#[test]
fn each_damage_is_told_with_its_rule_and_its_actor(rt: HostRuntime) -> Result<(), Fail> {
    assert!(rt; is_whole(rt.alloc())?);
    for row in DAMAGES.lines() {
        assert!(rt; is_told(rt.alloc(), row)?, "{row}");
    }
    Ok(())
}

// A subscription whose link cuts an update, and an inbox whose link cuts a reply.
const CUT_SUB: &str =
    r#"mama script 1|queues 1|topic "T"|publisher 0 22:bid:u32:100|update 22:bid:u32:101|update 25:ask:u32:103|update 22:bid:u32:102|client|sub 0 market 0 10 1000|fault cut 3 5|"#;

const CUT_INBOX: &str =
    r#"mama script 1|queues 1|topic "T"|publisher 0 22:bid:u32:100|client|inbox 0|fault cut 1 2|ask i0.0 0 22|"#;

// The rule that is broken first and by whom, a line that the log has once, and what stands in its place, which may be
// nothing or several lines. In order: an error with another code, none, and one that is told twice; bytes that another cut
// leaves, and the message whole, behind which no queue asks for the recap that the bridge took.
const SUB_DAMAGES: &str = "5 s0.0@error 1@error 2|
5 s0.0@error 1@
5 s0.0@error 1@error 1|error 1|
3 q0@b bad 0 s0.0 update 1 2 x0101090019@b bad 0 s0.0 update 1 2 x01010900|
3 b@b bad 0 s0.0 update 1 2 x0101090019@b data 0 s0.0 update 1 2 25:ask:u32:103|";

// The same of the inbox.
const INBOX_DAMAGES: &str = "7 i0.0@error 1@error 2|
7 i0.0@error 1@
7 i0.0@error 1@reply|
3 q0@b badreply 0 i0.0 x0101@b badreply 0 i0.0 x01|
3 q0@b badreply 0 i0.0 x0101@b reply 0 i0.0 22:bid:u32:100|";

// A group, and a watch whose first retry brings the image that its link lost.
const LISTS: &str =
    r#"mama script 2|strategy 1|queues 1|topic "T"|publisher 0 22:bid:u32:100|client|sub 0 market 0 10 1000|fault lose 1|timer 0 10|now 10|now 20|group s0.0|watch s0.0 t0.0 1|"#;

// The same of it. In order: a state of the group, and a callback of its member, that it did not hear; a retry of the watch at
// another tick, and a timeout in its place.
const LIST_DAMAGES: &str = "10 g0@state fresh@state stale|
10 g0@s0.0 destroy@s0.0 create|
11 w0@retry 1 10@retry 1 20|
11 w0@retry 1 10@timeout 10|";

// A log with another text in place of each line like this.
fn log_damaged(alloc: Global, whole: &[u8], damaged: &str, row: &str) -> Result<Vec<u8>, Fail> {
    let mut log = Vec::new(alloc);
    for line in str::from_utf8(whole).ok().ok_or("a text")?.lines() {
        if line == damaged {
            add_row(&mut log, row)?;
        } else {
            add_line(&mut log, line)?;
        }
    }
    Ok(log)
}

// Whether a damage of what a script writes is told with its rule and its actor. That is legal where nothing is damaged.
fn is_told_of(alloc: Global, lines: &str, row: &str) -> Result<bool, Fail> {
    let (head, rest) = row.split_once('@').ok_or("a line")?;
    let (rule, word) = head.split_once(' ').ok_or("a rule")?;
    let (damaged, other) = rest.split_once('@').ok_or("another line")?;
    let mut script = Vec::new(alloc);
    add_row(&mut script, lines)?;
    let whole = log_of(alloc, &script, Vec::new(alloc), ROOM)?;
    let log = log_damaged(alloc, &whole, damaged, other)?;
    Ok(is_causal(alloc, &script, &whole)? && breaks(alloc, &script, &log, rule, word)?)
}

#[test]
fn each_damage_of_what_was_cut_is_told(rt: HostRuntime) -> Result<(), Fail> {
    for row in SUB_DAMAGES.lines() {
        assert!(rt; is_told_of(rt.alloc(), CUT_SUB, row)?, "{row}");
    }
    for row in INBOX_DAMAGES.lines() {
        assert!(rt; is_told_of(rt.alloc(), CUT_INBOX, row)?, "{row}");
    }
    Ok(())
}

#[test]
fn each_damage_of_a_group_or_a_watch_is_told(rt: HostRuntime) -> Result<(), Fail> {
    for row in LIST_DAMAGES.lines() {
        assert!(rt; is_told_of(rt.alloc(), LISTS, row)?, "{row}");
    }
    Ok(())
}
