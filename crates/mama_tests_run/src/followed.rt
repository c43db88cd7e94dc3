//! Logs that are followed again on one thread.

use crate::played::{Answer, ROOM, answered};
use crate::worlds::{FIRST, FIRST_LOG, GAP, GAP_LATE_LOG, STOP, STOP_EARLY_LOG};
use mama_check::Actor;
use mama_plain::Status;
use std::alloc::Global;
use std::test::Fail;

// The steps of the worked log, pass by pass. The publisher waits in the first, for what the bridge asks it there; the
// bridge takes that the client is done only behind the first update, as the log has it.
const FIRST_STEPS: &str = r#"step c0
step b c0
step q0 b
step c0
step p0 b
step b p0
step t c0
step q0 b
step p0
step b p0
step q0 b
step p0
step b c0
step p0
step b p0
step q0 b
step p0
step b p0
step q0 b
step b p0
step p0 b
step b p0
step t b
step q0 b
step p0 b
step q0 b
step q0 t
step b q0
step t q0
"#;

// What replay answers to a log behind its script.
fn replayed(alloc: Global, script: &str, log: &str) -> Result<Answer, Fail> {
    let mut input = Vec::from_slice(alloc, script.as_bytes())?;
    input.extend_from_slice(b"log\n")?;
    input.extend_from_slice(log.as_bytes())?;
    answered(alloc, "replay", input, Vec::new(alloc), ROOM)
}

#[test]
fn a_worked_log_is_followed_step_by_step(rt: HostRuntime) -> Result<(), Fail> {
    let mut wanted = Vec::from_slice(rt.alloc(), FIRST_STEPS.as_bytes())?;
    wanted.extend_from_slice(FIRST_LOG.as_bytes())?;
    let answer = replayed(rt.alloc(), FIRST, FIRST_LOG)?;
    assert!(rt; answer.status == Status::Ok);
    assert!(rt; answer.written.as_slice() == wanted.as_slice());
    Ok(())
}

// The bridge waits at its second entry for a Leave that no step puts, and the publisher, who comes before it, for the bridge.
#[test]
fn who_waits_first_is_named_where_a_log_is_not_causal(rt: HostRuntime) -> Result<(), Fail> {
    let answer = replayed(rt.alloc(), STOP, STOP_EARLY_LOG)?;
    let wanted = Status::NotCausal {
        actor: Actor::Publisher(0),
        entry: 3,
    };
    assert!(rt; answer.status == wanted);
    assert!(rt; answer.written.is_empty());
    Ok(())
}

#[test]
fn nothing_is_written_of_a_log_that_is_not_legal(rt: HostRuntime) -> Result<(), Fail> {
    let answer = replayed(rt.alloc(), GAP, GAP_LATE_LOG)?;
    assert!(rt; matches!(answer.status, Status::NotLegal { rule: 5, actor: _ }));
    assert!(rt; answer.written.is_empty());
    Ok(())
}
