ghost use Rattle.std.specs.Prelude.{◌≡◌, ◌↔◌, ℕ, ◌<◌, ◌≤◌, List, [], Option, length, take, IfOk, IfSome, OnErr};
ghost use Rattle.mama_edge.specs.Count.{Rose};
ghost use Rattle.mama_edge.specs.Told.{Gave, Kept};

use std::error::Error;
use std::fmt;

/// The answer of a read that failed.
#[derive(Clone, Copy, Debug, PartialEq, Eq)]
pub struct ReadFailed;

impl fmt::Display for ReadFailed {
    fn fmt<W: fmt::Write>(&self, f: &mut fmt::Formatter<W>) -> fmt::Result {
        write!(f, "a read failed")
    }
}

impl Error for ReadFailed {}

/// Where bytes come from.
///
/// `left` is the bytes that are not yet read, where the source tells them. `faults` is a count that rises with each
/// read that fails.
pub trait Source {
    ghost left: { Self → Option (List ℕ) };

    ghost faults: { Self → ℕ };

    /// Reads some bytes into the front of `buf`, and answers how many. What stands in `buf` behind them is open.
    fn read(&mut self, buf: &mut [u8]) -> Result<usize, ReadFailed>
        requires { 0 < length buf.old }
        ensures bound { IfOk result (λ n. n ≤ length buf.new) }
        // The bytes are the first that were left, and they are gone.
        ensures given { IfOk result (λ n. Gave (left self.old) (left self.new) (take n buf.new)) }
        // There are none exactly where none were left.
        ensures end { IfOk result (λ n. IfSome (left self.old) (λ bytes. (n ≡ 0) ↔ (bytes ≡ []))) }

        ensures failed { OnErr result (Rose (faults self.old) (faults self.new)) }
        ensures unchanged { OnErr result (Kept (left self.old) (left self.new)) }
        ensures never_falls { faults self.old ≤ faults self.new };
}
