ghost use Rattle.std.specs.Prelude.{◌≡◌, ◌+◌, ◌≤◌, [], Some, IfOk, IfSome, IsErrOf, vec_len};
ghost use Rattle.mama_edge.specs.Count.{Rose};
ghost use Rattle.mama_edge.specs.Told.{Lost, LostAtMost};

use crate::room::append_reserved;
use crate::source::Source;
use std::alloc::Global;
use std::error::Error;
use std::fmt;

/// Why a source was not read to its end.
#[derive(Clone, Copy, Debug, PartialEq, Eq)]
pub enum ReadAll {
    /// A read failed.
    ReadFault,
    /// There are more bytes than the limit.
    TooLong,
    /// There is no memory for the bytes.
    OutOfMemory,
}

impl fmt::Display for ReadAll {
    fn fmt<W: fmt::Write>(&self, f: &mut fmt::Formatter<W>) -> fmt::Result {
        match self {
            ReadAll::ReadFault => write!(f, "a read failed"),
            ReadAll::TooLong => write!(f, "too many bytes"),
            ReadAll::OutOfMemory => write!(f, "out of memory"),
        }
    }
}

impl Error for ReadAll {}

/// The most bytes that one read is asked for.
const PIECE: usize = 4096;

/// All bytes of a source, which is read up to the first read that gives none. It takes at most `limit + 1` bytes.
///
/// Memory for `limit` bytes is taken before the first read, so after want of memory the source is as before. After any
/// other error the bytes that were taken are gone.
pub fn read_all<S: Source>(alloc: Global, source: &mut S, limit: usize) -> Result<Vec<u8>, ReadAll>
    // The bytes are all that were left, and none is left now.
    ensures whole { IfOk result (λ bytes. IfSome (S.left source.old) (λ left.
        (bytes.items ≡ left) × (S.left source.new ≡ Some []))) }
    ensures within { IfOk result (λ bytes. vec_len bytes ≤ limit) }

    ensures fault { IsErrOf result ReadAll.ReadFault → Rose (S.faults source.old) (S.faults source.new) }
    // One byte more than the limit was taken exactly where that is the answer.
    ensures too_long { IsErrOf result ReadAll.TooLong →
        Lost (S.left source.old) (S.left source.new) (limit + 1) }
    ensures partly { IsErrOf result ReadAll.ReadFault →
        LostAtMost (S.left source.old) (S.left source.new) limit }
    ensures no_memory { IsErrOf result ReadAll.OutOfMemory → source.new ≡ source.old }

    ensures never_falls { S.faults source.old ≤ S.faults source.new }
{
    let Ok(mut bytes) = Vec::with_capacity(alloc, limit) else {
        return Err(ReadAll::OutOfMemory);
    };
    let mut piece = [0u8; PIECE];
    'pieces: loop {
        let room = limit - bytes.len();
        let most = room.min(PIECE - 1) + 1;
        let count = match source.read(&mut piece[..most]) {
            Ok(count) => count,
            Err(_) => return Err(ReadAll::ReadFault),
        };
        if count == 0 {
            return Ok(bytes);
        }
        if count > room {
            return Err(ReadAll::TooLong);
        }
        append_reserved(&mut bytes, &piece[..count]);
    }
}
