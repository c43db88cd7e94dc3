use crate::played::{ROOM, add_row, is_causal, log_of};
use crate::worlds::{FIRST, FIRST_LOG, GAP, GAP_LOG};
use std::alloc::{AllocError, Global};
use std::test::Fail;

fn is_played_whole(alloc: Global, script: &str, log: &str) -> Result<bool, Fail> {
    let written = log_of(alloc, script.as_bytes(), Vec::new(alloc), ROOM)?;
    Ok(written.as_slice() == log.as_bytes() && is_causal(alloc, script.as_bytes(), &written)?)
}

#[test]
fn a_first_script_is_played_whole(rt: HostRuntime) -> Result<(), Fail> {
    assert!(rt; is_played_whole(rt.alloc(), FIRST, FIRST_LOG)?);
    Ok(())
}

#[test]
fn a_script_with_a_gap_is_played_whole(rt: HostRuntime) -> Result<(), Fail> {
    assert!(rt; is_played_whole(rt.alloc(), GAP, GAP_LOG)?);
    Ok(())
}

// Scripts of each kind, a row each: the moments of the clock, the lines behind the first, and parts of the log, which come
// in this order with anything between. In order: Two gaps; the recap that the first asked for did not reach the second. Two publishers of one topic. What a
// link still holds comes before the notice, and the slot is given to the next. A subscription that was stopped in
// its own callback hears nothing but its notice. Three stops of one subscription give one notice. A moment that is
// earlier than the clock changes nothing. The first moment is the clock's. Clients read the clock in the order of
// the rounds. A clock gives its last moment again, and 0 where it has none. Timers that are due at one moment tick
// in the order of their numbers, and the earlier due first. Questions to inboxes: one that is closed in the same
// callback, and one whose reply comes twice. One that joins late gets the record as it then is. A message that comes
// twice is called back once. A message that is held back is missing until a recap comes. A full cache drops its
// lowest numbers, which are then missing. Without its first image a subscription is told nothing. A cache of no
// updates. No recap may be asked for, so the image stays stale. A snapshot takes the first image alone. Nobody but a
// client. Orders of one queue mute: what the link still held is not told. Those of another queue do not. An inbox
// that is closed in a callback hears no second reply. Version 2 with the first strategy: a message that comes twice is
// called back once. With the second: it is told as late. Updates that come before the first image are used at the first gap,
// and where there is none they are not used; one that was cut is an error and is not used. Version 2 knows lists of numbers. A
// group of one subscription; the same with a gap. A watch whose first retry brings the image; one whose retries bring none. At
// the head: payloads that are cut, of updates and of replies: what is cut short is an error, and its update a gap; one that
// is muted is told nothing of it.
const WORKED: &str =
    r#"@queues 1|topic "EQ.ABC"|publisher 0 22:bid:u32:100|update 22:bid:u32:101|update 25:ask:u32:103|update 22:bid:u32:102|client|sub 0 market 0 10 1000|fault cut 3 5|@queue 0|~b data 0 s0.0 update 1 1 22:bid:u32:101|b bad 0 s0.0 update 1 2 x0101090019|b data 0 s0.0 update 1 3 22:bid:u32:102|~on s0.0|create|msg initial 1 0 ok 22:bid:u32:100|msg update 1 1 ok 22:bid:u32:101|error 1|gap 2 2|quality stale 1|request 1|msg update 1 3 stale 22:bid:u32:102|msg recap 1 3 ok 22:bid:u32:102 25:ask:u32:103|quality ok 3|destroy|
@queues 1|topic "EQ.ABC"|publisher 0 22:bid:u32:100|pause 3|update 22:bid:u32:101|client|sub 0 market 0 10 1000|fault cut 1 65535|fault cut 2 0|sub 0 basic 0 0 0|fault cut 1 4|at 2 stop s0.1|@queue 0|~b bad 0 s0.0 update 1 1 x|b bad 1 s0.1 update 1 1 x01010900|~on s0.0|create|msg initial 1 0 ok 22:bid:u32:100|error 1|destroy|on s0.1|create|error 1|order stop s0.1|destroy|images|s0.0 ok 1 0 22:bid:u32:100|
@queues 1|topic "EQ.ABC"|publisher 0 22:bid:u32:100|client|inbox 0|fault cut 1 2|inbox 0|fault cut 1 300|ask i0.0 0 22|ask i0.1 0 22|@b badreply 0 i0.0 x0101|~on i0.0|create|error 1|destroy|on i0.1|create|reply 22:bid:u32:100|destroy|
@queues 1|topic "EQ.ABC"|publisher 0 22:bid:u32:100|update 22:bid:u32:101|update 22:bid:u32:102|client|sub 0 basic 0 0 0|at 3 stop s0.1|sub 0 basic 0 0 0|fault cut 1 3|@b data 0 s0.0 update 1 2 22:bid:u32:102|b bad 1 s0.1 update 1 2 x010109|b gone 1 s0.1|~on s0.0|create|msg update 1 1 ok 22:bid:u32:101|msg update 1 2 ok 22:bid:u32:102|order stop s0.1|destroy|on s0.1|create|destroy|images|
@queues 1|topic "EQ.ABC"|publisher 0 22:bid:u32:100|update 22:bid:u32:101|update 25:ask:u32:103|update 22:bid:u32:102|update 25:ask:u32:104|update 22:bid:u32:105|client|sub 0 market 0 10 1000|fault lose 3|fault hold 5 2|fault lose 6|@on s0.0|create|msg initial 1 0 ok 22:bid:u32:100|msg update 1 1 ok 22:bid:u32:101|gap 2 2|quality stale 1|request 1|msg update 1 3 stale 22:bid:u32:102|gap 4 4|msg update 1 5 stale 22:bid:u32:105|request 1|msg recap 1 5 ok 22:bid:u32:105 25:ask:u32:104|quality ok 5|destroy|
@queues 1|topic "EQ.ABC"|publisher 0 22:bid:u32:100|pause 1|recap|publisher 0 22:bid:u32:200|update 22:bid:u32:201|client|sub 0 market 0 10 1000|@on s0.0|create|msg initial 1 0 ok 22:bid:u32:100|quality stale 0|request 2|msg update 2 1 stale 22:bid:u32:201|msg recap 2 1 ok 22:bid:u32:201|quality ok 1|msg recap 1 0 ok 22:bid:u32:100|destroy|
@queues 1|topic "EQ.ABC"|publisher 0 22:bid:u32:100|update 22:bid:u32:101|client|sub 0 market 0 10 1000|fault hold 2 5|stop s0.0|sub 0 market 0 10 1000|@queue 0|b create 0 s0.0|b data 0 s0.0 initial 1 0 22:bid:u32:100|b data 0 s0.0 update 1 1 22:bid:u32:101|b gone 0 s0.0|b create 0 s0.1|b data 0 s0.1 initial 1 1 22:bid:u32:101|b gone 0 s0.1|b fin|t fin|~on s0.0|create|msg initial 1 0 ok 22:bid:u32:100|msg update 1 1 ok 22:bid:u32:101|destroy|on s0.1|create|msg initial 1 1 ok 22:bid:u32:101|destroy|images|
@queues 1|topic "EQ.ABC"|publisher 0 22:bid:u32:100|update 22:bid:u32:101|update 25:ask:u32:103|update 22:bid:u32:102|update 25:ask:u32:104|update 22:bid:u32:105|client|sub 0 basic 0 10 1000|fault hold 1 4|fault hold 2 3|fault hold 3 2|fault hold 4 1|at 2 stop s0.0|@queue 0|b create 0 s0.0|b data 0 s0.0 update 1 5 22:bid:u32:105|b data 0 s0.0 update 1 1 22:bid:u32:101|b data 0 s0.0 update 1 2 25:ask:u32:103|b data 0 s0.0 update 1 3 22:bid:u32:102|b data 0 s0.0 update 1 4 25:ask:u32:104|b gone 0 s0.0|~on s0.0|create|msg update 1 5 ok 22:bid:u32:105|order stop s0.0|destroy|images|
@queues 1|topic "EQ.ABC"|publisher 0 22:bid:u32:100|update 22:bid:u32:101|update 25:ask:u32:103|update 22:bid:u32:102|client|sub 0 market 0 10 1000|at 2 stop s0.0|stop s0.0|client|pause 1|stop s0.0|@bridge|~q0 leave s0.0|~c0 leave s0.0|~c1 leave s0.0|~timers|~queue 0|b create 0 s0.0|~b gone 0 s0.0|b fin|t fin|on s0.0|create|msg initial 1 0 ok 22:bid:u32:100|order stop s0.0|destroy|
@queues 1|client|timer 0 10|at 3 disarm t0.0|now 10|now 10|now 7|now 35|@on t0.0|create|tick 10|tick 35|order disarm t0.0|destroy|
10@queues 1|client|timer 0 10|at 3 disarm t0.0|now clock|now 10|now 7|now 35|@client 0|clock 10|bridge|c0 done|q0 bye|timers|c0 arm t0.0|c0 now 10|c0 now 10|c0 now 7|c0 now 35|q0 disarm t0.0|c0 done|b fin|q0 bye|
10 20 30@queues 1|client|now clock|now clock|client|now clock|@client 0|clock 10|clock 30|client 1|clock 20|bridge|
10 20@queues 1|client|now clock|now clock|now clock|@client 0|clock 10|clock 20|clock 20|bridge|
@queues 1|client|now clock|@client 0|clock 0|bridge|
@queues 1|client|timer 0 10|timer 0 10|timer 0 5|now 10|@t create 2 t0.2|t tick 2 t0.2 10|t tick 0 t0.0 10|t tick 1 t0.1 10|
@queues 1|topic "EQ.ABC"|publisher 0 22:bid:u32:100|client|inbox 0|at 1 ask i0.0 0 22|at 1 close i0.0|inbox 0|fault dup 1|ask i0.1 0 22|@queue 0|b create 0 i0.0|~b gone 0 i0.0|~b fin|t fin|on i0.0|create|order ask i0.0 0 22|order close i0.0|destroy|on i0.1|create|reply 22:bid:u32:100|reply 22:bid:u32:100|destroy|
@queues 1|topic "EQ.ABC"|publisher 0 22:bid:u32:100|update 22:bid:u32:101|update 25:ask:u32:103|update 22:bid:u32:102|client|pause 4|sub 0 market 0 10 1000|@on s0.0|create|msg initial 1 3 ok 22:bid:u32:102 25:ask:u32:103|destroy|images|s0.0 ok 1 3 22:bid:u32:102 25:ask:u32:103|end|
@queues 1|topic "EQ.ABC"|publisher 0 22:bid:u32:100|update 22:bid:u32:101|update 25:ask:u32:103|update 22:bid:u32:102|client|sub 0 market 0 10 1000|fault dup 2|@b data 0 s0.0 update 1 1 22:bid:u32:101|b data 0 s0.0 update 1 1 22:bid:u32:101|b data 0 s0.0 update 1 2 25:ask:u32:103|b data 0 s0.0 update 1 3 22:bid:u32:102|b gone 0 s0.0|b fin|t fin|on s0.0|create|msg initial 1 0 ok 22:bid:u32:100|msg update 1 1 ok 22:bid:u32:101|msg update 1 2 ok 25:ask:u32:103|msg update 1 3 ok 22:bid:u32:102|destroy|images|s0.0 ok 1 3 22:bid:u32:102 25:ask:u32:103|end|
@queues 1|topic "EQ.ABC"|publisher 0 22:bid:u32:100|update 22:bid:u32:101|update 25:ask:u32:103|update 22:bid:u32:102|client|sub 0 market 0 10 1000|fault hold 2 1|@on s0.0|create|msg initial 1 0 ok 22:bid:u32:100|gap 1 1|quality stale 0|request 1|msg update 1 2 stale 25:ask:u32:103|msg recap 1 2 ok 22:bid:u32:101 25:ask:u32:103|quality ok 2|msg update 1 3 ok 22:bid:u32:102|destroy|
@queues 1|topic "EQ.ABC"|publisher 0 22:bid:u32:100|update 22:bid:u32:1|update 22:bid:u32:2|update 22:bid:u32:3|update 22:bid:u32:4|update 22:bid:u32:5|update 22:bid:u32:6|update 22:bid:u32:7|update 22:bid:u32:8|update 22:bid:u32:9|update 22:bid:u32:10|update 22:bid:u32:11|update 22:bid:u32:12|update 22:bid:u32:13|update 22:bid:u32:14|update 22:bid:u32:15|update 22:bid:u32:16|update 22:bid:u32:17|update 22:bid:u32:18|update 22:bid:u32:19|update 22:bid:u32:20|update 22:bid:u32:21|update 22:bid:u32:22|update 22:bid:u32:23|update 22:bid:u32:24|update 22:bid:u32:25|client|pause 10|sub 0 market 0 10 1000|fault hold 1 15|@on s0.0|create|msg initial 1 10 ok 22:bid:u32:10|gap 11 15|quality stale 10|request 1|msg update 1 16 stale 22:bid:u32:16|msg update 1 17 stale 22:bid:u32:17|msg update 1 18 stale 22:bid:u32:18|msg update 1 19 stale 22:bid:u32:19|msg update 1 20 stale 22:bid:u32:20|msg update 1 21 stale 22:bid:u32:21|msg update 1 22 stale 22:bid:u32:22|msg update 1 23 stale 22:bid:u32:23|msg update 1 24 stale 22:bid:u32:24|msg update 1 25 stale 22:bid:u32:25|msg recap 1 25 ok 22:bid:u32:25|quality ok 25|destroy|
@queues 1|topic "EQ.ABC"|publisher 0 22:bid:u32:100|update 22:bid:u32:101|update 25:ask:u32:103|update 22:bid:u32:102|client|sub 0 market 0 10 1000|fault lose 1|@on s0.0|create|destroy|images|end|
@queues 1|topic "EQ.ABC"|publisher 0 22:bid:u32:100|update 22:bid:u32:101|update 25:ask:u32:103|update 22:bid:u32:102|client|sub 0 market 0 0 1000|fault hold 1 2|@on s0.0|create|msg initial 1 0 ok 22:bid:u32:100|gap 1 2|quality stale 0|request 1|msg update 1 3 stale 22:bid:u32:102|msg recap 1 3 ok 22:bid:u32:102 25:ask:u32:103|quality ok 3|destroy|
@queues 1|topic "EQ.ABC"|publisher 0 22:bid:u32:100|update 22:bid:u32:101|update 25:ask:u32:103|update 22:bid:u32:102|update 25:ask:u32:104|client|sub 0 market 0 10 0|fault lose 3|@gap 2 2|quality stale 1|request 1|msg update 1 3 stale 22:bid:u32:102|msg update 1 4 stale 25:ask:u32:104|destroy|images|s0.0 stale 1 4 22:bid:u32:102 25:ask:u32:104|end|
@queues 1|topic "EQ.ABC"|publisher 0 22:bid:u32:100|update 22:bid:u32:101|update 25:ask:u32:103|update 22:bid:u32:102|client|sub 0 snapshot 0 10 1000|@on s0.0|create|msg initial 1 0 ok 22:bid:u32:100|destroy|images|s0.0 ok 1 0 22:bid:u32:100|end|
@queues 1|client|@mama log 1|client 0|bridge|c0 done|q0 bye|timers|c0 done|b fin|q0 bye|queue 0|b fin|t fin|images|end|
@queues 1|topic "EQ.ABC"|publisher 0 22:bid:u32:100|pause 3|update 22:bid:u32:101|client|sub 0 market 0 10 1000|fault hold 2 5|sub 0 market 0 10 1000|at 3 stop s0.0|@on s0.0|create|msg initial 1 0 ok 22:bid:u32:100|destroy|on s0.1|create|msg initial 1 0 ok 22:bid:u32:100|msg update 1 1 ok 22:bid:u32:101|order stop s0.0|destroy|
@queues 2|topic "EQ.ABC"|publisher 0 22:bid:u32:100|pause 3|update 22:bid:u32:101|client|sub 0 market 0 10 1000|fault hold 2 5|sub 0 market 1 10 1000|at 3 stop s0.0|@on s0.0|create|msg initial 1 0 ok 22:bid:u32:100|msg update 1 1 ok 22:bid:u32:101|destroy|on s0.1|create|msg initial 1 0 ok 22:bid:u32:100|msg update 1 1 ok 22:bid:u32:101|order stop s0.0|destroy|
@queues 1|topic "EQ.ABC"|publisher 0 22:bid:u32:100|client|inbox 0|fault dup 1|at 2 close i0.0|ask i0.0 0 22|@q0 close i0.0|~queue 0|b create 0 i0.0|b reply 0 i0.0 22:bid:u32:100|b reply 0 i0.0 22:bid:u32:100|b gone 0 i0.0|b fin|t fin|on i0.0|create|reply 22:bid:u32:100|order close i0.0|destroy|images|end|
@strategy 1|queues 1|topic "EQ.ABC"|publisher 0 22:bid:u32:100|update 22:bid:u32:101|update 25:ask:u32:103|update 22:bid:u32:102|client|sub 0 market 0 10 1000|fault dup 2|@mama log 2|strategy 1|~on s0.0 6|create|msg initial 1 0 ok 22:bid:u32:100|msg update 1 1 ok 22:bid:u32:101|msg update 1 2 ok 25:ask:u32:103|msg update 1 3 ok 22:bid:u32:102|destroy|images 1|s0.0 ok 1 3 22:bid:u32:102 25:ask:u32:103|end|
@strategy 2|queues 1|topic "EQ.ABC"|publisher 0 22:bid:u32:100|update 22:bid:u32:101|update 25:ask:u32:103|update 22:bid:u32:102|client|sub 0 market 0 10 1000|fault dup 2|@on s0.0 7|create|msg initial 1 0 ok 22:bid:u32:100|msg update 1 1 ok 22:bid:u32:101|late 1 1|msg update 1 2 ok 25:ask:u32:103|msg update 1 3 ok 22:bid:u32:102|destroy|images 1|s0.0 ok 1 3 22:bid:u32:102 25:ask:u32:103|end|
@strategy 2|queues 1|topic "EQ.ABC"|publisher 0 22:bid:u32:100|update 22:bid:u32:101|update 25:ask:u32:103|update 22:bid:u32:102|client|sub 0 market 0 10 1000|fault hold 1 2|@b data 0 s0.0 update 1 2 25:ask:u32:103|b data 0 s0.0 initial 1 0 22:bid:u32:100|b data 0 s0.0 update 1 3 22:bid:u32:102|b gone 0 s0.0|b fin|t fin|on s0.0 6|create|msg initial 1 0 ok 22:bid:u32:100|msg update 1 1 ok 22:bid:u32:101|msg update 1 2 ok 25:ask:u32:103|msg update 1 3 ok 22:bid:u32:102|destroy|images 1|s0.0 ok 1 3 22:bid:u32:102 25:ask:u32:103|end|
@strategy 2|queues 1|topic "EQ.ABC"|publisher 0 22:bid:u32:100|update 22:bid:u32:101|update 25:ask:u32:103|update 22:bid:u32:102|client|sub 0 market 0 10 1000|fault hold 1 2|fault lose 4|@on s0.0 3|create|msg initial 1 0 ok 22:bid:u32:100|destroy|images 1|s0.0 ok 1 0 22:bid:u32:100|end|
@strategy 2|queues 1|topic "EQ.ABC"|publisher 0 22:bid:u32:100|update 22:bid:u32:101|update 25:ask:u32:103|update 22:bid:u32:102|client|sub 0 market 0 10 1000|fault hold 1 2|fault cut 2 7|@b bad 0 s0.0 update 1 1 x01010900160362|b data 0 s0.0 update 1 2 25:ask:u32:103|b data 0 s0.0 initial 1 0 22:bid:u32:100|b data 0 s0.0 update 1 3 22:bid:u32:102|~on s0.0 11|create|error 1|msg initial 1 0 ok 22:bid:u32:100|gap 1 1|quality stale 0|request 1|msg update 1 2 stale 25:ask:u32:103|msg update 1 3 stale 22:bid:u32:102|msg recap 1 3 ok 22:bid:u32:102 25:ask:u32:103|quality ok 3|destroy|images 1|s0.0 ok 1 3 22:bid:u32:102 25:ask:u32:103|end|
@strategy 1|queues 1|topic "EQ.ABC"|publisher 0 5:dp:nums:[1,-2]|update 5:dp:nums:[]|client|sub 0 market 0 10 1000|@on s0.0 4|create|msg initial 1 0 ok 5:dp:nums:[1,-2]|msg update 1 1 ok 5:dp:nums:[]|destroy|images 1|s0.0 ok 1 1 5:dp:nums:[]|end|
@strategy 1|queues 1|topic "EQ.ABC"|publisher 0 22:bid:u32:100|update 22:bid:u32:101|update 25:ask:u32:103|update 22:bid:u32:102|client|sub 0 market 0 10 1000|group s0.0|@destroy|group 0 8|s0.0 create|s0.0 msg initial 1 0 ok 22:bid:u32:100|state fresh|s0.0 msg update 1 1 ok 22:bid:u32:101|s0.0 msg update 1 2 ok 25:ask:u32:103|s0.0 msg update 1 3 ok 22:bid:u32:102|s0.0 destroy|state ended|images 1|
@strategy 1|queues 1|topic "EQ.ABC"|publisher 0 22:bid:u32:100|update 22:bid:u32:101|update 25:ask:u32:103|update 22:bid:u32:102|update 25:ask:u32:104|client|sub 0 market 0 10 1000|fault lose 3|group s0.0|@s0.0 msg update 1 3 stale 22:bid:u32:102|state stale|~s0.0 quality ok 3|state fresh|~s0.0 destroy|state ended|images 1|
@strategy 1|queues 1|topic "EQ.ABC"|publisher 0 22:bid:u32:100|client|sub 0 market 0 10 1000|fault lose 1|timer 0 10|now 10|now 20|watch s0.0 t0.0 1|@on s0.0 3|create|msg recap 1 0 ok 22:bid:u32:100|destroy|~watch 0 1|retry 1 10|images 1|
@strategy 1|queues 1|topic "EQ.ABC"|publisher 0 22:bid:u32:100|client|sub 0 market 0 10 1000|fault lose 1|fault lose 2|timer 0 10|now 10|now 20|watch s0.0 t0.0 1|@on s0.0 2|create|destroy|~watch 0 2|retry 1 10|timeout 20|images 0|"#;

fn moments_of(alloc: Global, text: &str) -> Result<Vec<u64>, AllocError> {
    let mut moments = Vec::new(alloc);
    for word in text.split(' ') {
        if let Ok(moment) = word.parse::<u64>() {
            moments.push(moment)?;
        }
    }
    Ok(moments)
}

// The place behind the first part like this, from a place on.
fn place_behind(text: &str, from: usize, part: &str) -> Option<usize> {
    let place = text.get(from..)?.find(part)?;
    Some(from.saturating_add(place).saturating_add(part.len()))
}

// Whether a text has these parts in turn, with a wave between two.
fn has_in_turn(text: &str, parts: &str) -> bool {
    let mut from = 0usize;
    for part in parts.split('~') {
        match place_behind(text, from, part) {
            Some(behind) => from = behind,
            None => return false,
        }
    }
    true
}

fn has_parts(alloc: Global, log: &[u8], row: &str) -> Result<bool, Fail> {
    let mut parts = Vec::new(alloc);
    add_row(&mut parts, row)?;
    let parts = str::from_utf8(&parts).ok().ok_or("a text")?;
    Ok(has_in_turn(str::from_utf8(log).ok().ok_or("a text")?, parts))
}

fn script_of(alloc: Global, lines: &str) -> Result<Vec<u8>, AllocError> {
    let head = if lines.starts_with("strategy") {
        "mama script 2\n"
    } else {
        "mama script 1\n"
    };
    let mut script = Vec::from_slice(alloc, head.as_bytes())?;
    add_row(&mut script, lines)?;
    Ok(script)
}

// Whether the log of a row's script has the row's parts, and is that of a legal and causal run.
fn is_played(alloc: Global, row: &str) -> Result<bool, Fail> {
    let (moments, rest) = row.split_once('@').ok_or("moments")?;
    let (lines, parts) = rest.split_once('@').ok_or("parts")?;
    let script = script_of(alloc, lines)?;
    let log = log_of(alloc, &script, moments_of(alloc, moments)?, ROOM)?;
    Ok(has_parts(alloc, &log, parts)? && is_causal(alloc, &script, &log)?)
}

#[test]
fn scripts_of_each_kind_are_played(rt: HostRuntime) -> Result<(), Fail> {
    for row in WORKED.lines() {
        assert!(rt; is_played(rt.alloc(), row)?, "{row}");
    }
    Ok(())
}
