use crate::played::is_judged;
use crate::worlds::{FIRST, FIRST_LOG, GAP, GAP_LATE_LOG, STOP, STOP_EARLY_LOG};
use mama_check::Actor;
use mama_event::{ObjectId, SubId};
use mama_plain::Status;
use std::alloc::Global;
use std::test::Fail;

const LATE: Status = Status::NotLegal {
    rule: 5,
    actor: Actor::Object(ObjectId::Sub(SubId {
        client: 0,
        number: 0,
    })),
};

fn is_said(alloc: Global, script: &str, log: &str, verdict: &str) -> Result<bool, Fail> {
    is_judged(
        alloc,
        script.as_bytes(),
        log.as_bytes(),
        Status::Ok,
        verdict,
    )
}

#[test]
fn a_worked_log_is_legal(rt: HostRuntime) -> Result<(), Fail> {
    assert!(rt; is_said(rt.alloc(), FIRST, FIRST_LOG, "legal\ncausal yes\n")?);
    Ok(())
}

#[test]
fn a_leave_that_was_taken_early_is_legal_and_not_causal(rt: HostRuntime) -> Result<(), Fail> {
    assert!(rt; is_said(rt.alloc(), STOP, STOP_EARLY_LOG, "legal\ncausal no\n")?);
    Ok(())
}

// Whether a log breaks rule 5, by its first subscription.
fn is_late(alloc: Global, script: &str, log: &str) -> Result<bool, Fail> {
    is_judged(
        alloc,
        script.as_bytes(),
        log.as_bytes(),
        LATE,
        "not legal L5 s0.0\n",
    )
}

#[test]
fn an_update_that_was_told_before_its_gap_is_not_legal(rt: HostRuntime) -> Result<(), Fail> {
    assert!(rt; is_late(rt.alloc(), GAP, GAP_LATE_LOG)?);
    Ok(())
}

// Whether the line behind the first log's last is the first that does not fit, where its line `end` is not there.
fn ends_early(alloc: Global) -> Result<bool, Fail> {
    let log = FIRST_LOG.strip_suffix("end\n").unwrap_or(FIRST_LOG);
    let bad = Status::BadLog { line: 53 };
    is_judged(alloc, FIRST.as_bytes(), log.as_bytes(), bad, "")
}

#[test]
fn a_log_without_its_end_is_bad_behind_its_last_line(rt: HostRuntime) -> Result<(), Fail> {
    assert!(rt; ends_early(rt.alloc())?);
    Ok(())
}
