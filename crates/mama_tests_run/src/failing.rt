//! A worked script is played while one read or one write of it fails, each in turn.

use crate::played::{Answer, ROOM, sink_of, source_of, told};
use crate::worlds::{FIRST, FIRST_LOG};
use mama_plain::Status;
use std::alloc::Global;
use std::test::Fail;

// The script is read in pieces of 7 bytes, and its log written in pieces of 100. 0 is no call.
fn played(alloc: Global, read: u64, write: u64) -> Result<Answer, Fail> {
    let script = Vec::from_slice(alloc, FIRST.as_bytes())?;
    let source = source_of(alloc, script, 7, read)?;
    let sink = sink_of(alloc, ROOM, 100, write)?;
    told(alloc, "serial", source, sink, Vec::new(alloc))
}

// Whether the log is written whole where these calls fail.
fn is_whole(alloc: Global, read: u64, write: u64) -> Result<bool, Fail> {
    let answer = played(alloc, read, write)?;
    Ok(answer.status == Status::Ok && answer.written.as_slice() == FIRST_LOG.as_bytes())
}

// Whether nothing is written where this read fails.
fn is_unread(alloc: Global, read: u64) -> Result<bool, Fail> {
    let answer = played(alloc, read, 0)?;
    Ok(answer.status == Status::ReadFault && answer.written.is_empty())
}

// A script of 161 bytes takes 23 reads, and one more to see its end.
#[test]
fn a_read_that_fails_writes_nothing(rt: HostRuntime) -> Result<(), Fail> {
    for read in 1..=24u64 {
        assert!(rt; is_unread(rt.alloc(), read)?, "{read}");
    }
    assert!(rt; is_whole(rt.alloc(), 25, 0)?);
    Ok(())
}

// Whether a write that fails leaves the pieces before it in the sink, and tells how many bytes those are.
fn is_cut_off(alloc: Global, write: u64) -> Result<bool, Fail> {
    let answer = played(alloc, 0, write)?;
    let written = write.saturating_sub(1).saturating_mul(100);
    let front = FIRST_LOG.as_bytes().get(..written as usize);
    Ok(answer.status == Status::WriteFault { written } && front == Some(answer.written.as_slice()))
}

// A log of 735 bytes takes 8 writes.
#[test]
fn a_write_that_fails_leaves_the_pieces_before_it(rt: HostRuntime) -> Result<(), Fail> {
    for write in 1..=8u64 {
        assert!(rt; is_cut_off(rt.alloc(), write)?, "{write}");
    }
    assert!(rt; is_whole(rt.alloc(), 0, 9)?);
    Ok(())
}
