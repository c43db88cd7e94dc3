//! What every layer says of memory: the answer of a call that found none, copies that may be refused, and a list that
//! knows how much room it has ([`Outbox`]).
//!
//! No clause of this repository ties an [`OutOfMemory`] to its cause. Contracts say what stands after that
//! answer, and tests show that it is not given where there is ample memory.
#![tactic(auto)]

ghost use Rattle.std.specs.Prelude.{◌≡◌, IfOk};

mod outbox;

pub use outbox::Outbox;
use std::alloc::{AllocError, AllocFailed};
use std::error::Error;
use std::fmt;

/// The answer of a call that could find no memory.
#[derive(Clone, Copy, Debug, PartialEq, Eq)]
pub struct OutOfMemory;

impl fmt::Display for OutOfMemory {
    fn fmt<W: fmt::Write>(&self, f: &mut fmt::Formatter<W>) -> fmt::Result {
        write!(f, "out of memory")
    }
}

impl Error for OutOfMemory {}

impl From<AllocError> for OutOfMemory {
    fn from(_error: AllocError) -> OutOfMemory {
        OutOfMemory
    }
}

impl<T: Drop> From<AllocFailed<T>> for OutOfMemory {
    fn from(_error: AllocFailed<T>) -> OutOfMemory {
        OutOfMemory
    }
}

/// A value that can be copied, if memory is found for the copy.
pub trait Duplicate: Drop + Sized {
    /// An equal value.
    fn try_clone(&self) -> Result<Self, OutOfMemory>
        ensures equal { IfOk result (λ copy. copy ≡ self.now) };
}

impl Duplicate for u32 {
    fn try_clone(&self) -> Result<u32, OutOfMemory> {
        Ok(*self)
    }
}
