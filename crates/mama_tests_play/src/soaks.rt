//! The top call with the words of soak.

use crate::roll::Roll;
use crate::words::answered;
use mama_plain::Status;
use std::alloc::Global;
use std::sync::Wait;
use std::test::Fail;
use std::thread::Threads;

const LINES: &str = "sends 4000\nsubscriptions 64\nnotices 64\nlegal\n";

// Whether a soak by these words tells the lines of every seed, and turned each actor.
fn is_soaked<R: Threads + Wait + Copy + Drop + Send + Sync>(
    rt: &R,
    alloc: Global,
    words: &str,
) -> Result<bool, Fail> {
    let roll = Roll::new();
    let (status, written) = answered(rt, alloc, words, Vec::new(alloc), &roll)?;
    Ok(status == Status::Ok && written.as_slice() == LINES.as_bytes() && roll.is_of(15, 65_535, 15))
}

#[test]
fn each_number_of_workers_turns_all_actors(rt: HostRuntime) -> Result<(), Fail> {
    for words in ["soak 7 1", "soak 7 4", "soak 7 64"] {
        assert!(rt; is_soaked(&rt, rt.alloc(), words)?, "{words}");
    }
    Ok(())
}
