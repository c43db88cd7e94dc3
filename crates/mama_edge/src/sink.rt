ghost use Rattle.std.specs.Prelude.{◌≡◌, ℕ, ◌<◌, ◌≤◌, List, Option, length, take, IfOk, OnErr};
ghost use Rattle.mama_edge.specs.Count.{Rose};
ghost use Rattle.mama_edge.specs.Told.{Appended, Kept};

use std::error::Error;
use std::fmt;

/// The answer of a write that failed.
#[derive(Clone, Copy, Debug, PartialEq, Eq)]
pub struct WriteFailed;

impl fmt::Display for WriteFailed {
    fn fmt<W: fmt::Write>(&self, f: &mut fmt::Formatter<W>) -> fmt::Result {
        write!(f, "a write failed")
    }
}

impl Error for WriteFailed {}

/// Where bytes go.
///
/// `written` is the bytes that were written, where the sink tells them. `faults` is a count that rises with each
/// write that fails.
pub trait Sink {
    ghost written: { Self → Option (List ℕ) };

    ghost faults: { Self → ℕ };

    /// Writes some bytes of the front of `buf`, and answers how many, at least one.
    fn write(&mut self, buf: &[u8]) -> Result<usize, WriteFailed>
        requires { 0 < length buf.now }
        ensures some { IfOk result (λ n. 0 < n) }
        ensures bound { IfOk result (λ n. n ≤ length buf.now) }
        ensures appended { IfOk result (λ n. Appended (written self.old) (written self.new) (take n buf.now)) }

        ensures failed { OnErr result (Rose (faults self.old) (faults self.new)) }
        ensures unchanged { OnErr result (Kept (written self.old) (written self.new)) }
        ensures never_falls { faults self.old ≤ faults self.new };
}
