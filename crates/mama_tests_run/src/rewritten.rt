//! Scripts and logs that are written in version 2.

use crate::played::{ROOM, add_row, answered};
use mama_plain::Status;
use std::alloc::Global;
use std::test::Fail;

const SMALLEST: &str =
    "mama script 1|queues 1|client|log|mama log 1|client 0|bridge|c0 done|q0 bye|timers|c0 done|b fin|q0 bye|queue 0|b fin|t fin|images|end|";

const IN_TWO: &str =
    "mama script 2|strategy 1|queues 1|client|log|mama log 2|strategy 1|client 0 0|bridge 2|c0 done|q0 bye|timers 3|c0 done|b fin|q0 bye|queue 0 2|b fin|t fin|images 0|end|";

const ONE_IN_TWO: &str =
    "mama script 2|strategy 2|queues 1|client|log|mama log 1|client 0|bridge|c0 done|q0 bye|timers|c0 done|b fin|q0 bye|queue 0|b fin|t fin|images|end|";

const SECOND_IN_TWO: &str =
    "mama script 2|strategy 2|queues 1|client|log|mama log 2|strategy 2|client 0 0|bridge 2|c0 done|q0 bye|timers 3|c0 done|b fin|q0 bye|queue 0 2|b fin|t fin|images 0|end|";

// Whether rewrite makes the one row of the other.
fn is_rewritten(alloc: Global, from: &str, to: &str) -> Result<bool, Fail> {
    let mut input = Vec::new(alloc);
    add_row(&mut input, from)?;
    let mut wanted = Vec::new(alloc);
    add_row(&mut wanted, to)?;
    let answer = answered(alloc, "rewrite", input, Vec::new(alloc), ROOM)?;
    Ok(answer.status == Status::Ok && answer.written.as_slice() == wanted.as_slice())
}

#[test]
fn a_script_and_its_log_are_written_in_version_2(rt: HostRuntime) -> Result<(), Fail> {
    assert!(rt; is_rewritten(rt.alloc(), SMALLEST, IN_TWO)?);
    Ok(())
}

#[test]
fn a_script_of_version_2_keeps_its_strategy(rt: HostRuntime) -> Result<(), Fail> {
    assert!(rt; is_rewritten(rt.alloc(), ONE_IN_TWO, SECOND_IN_TWO)?);
    Ok(())
}

#[test]
fn what_was_written_stays_as_it_is(rt: HostRuntime) -> Result<(), Fail> {
    assert!(rt; is_rewritten(rt.alloc(), IN_TWO, IN_TWO)?);
    Ok(())
}

#[test]
fn a_script_alone_is_written_in_version_2(rt: HostRuntime) -> Result<(), Fail> {
    assert!(rt;
        is_rewritten(
            rt.alloc(),
            "mama script 1|queues 1|client|",
            "mama script 2|strategy 1|queues 1|client|"
        )?
    );
    Ok(())
}
