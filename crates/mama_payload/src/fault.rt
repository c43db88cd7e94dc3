//! Why a message was not written, and why bytes were not read.
ghost use Rattle.std.specs.Prelude.{◌≡◌, []};

use mama_memory::OutOfMemory;
use std::error::Error;
use std::fmt;

/// A rule of the payload that bytes can break.
#[derive(Clone, Copy)]
pub enum Rule {
    Truncated,
    BadTag,
    BadText,
    Repeated,
    TooMany,
    OldForm,
    Trailing,
}

/// A broken rule, and how many bytes are left from the place on at which it is broken.
#[derive(Clone, Copy)]
pub struct Fault {
    pub rule: Rule,
    pub left: usize,
}

/// Why reading stopped.
#[derive(Clone, Copy)]
pub enum Stop {
    OutOfMemory,
    Fault(Fault),
}

impl Stop {
    ghost use Rattle.mama_payload.specs.Giving.{stop_at};

    /// A rule is broken at the first of these bytes.
    pub fn at(rule: Rule, bytes: &[u8]) -> Stop
        ensures { result ≡ stop_at rule bytes.now }
    {
        Stop::Fault(Fault {
            rule,
            left: bytes.len(),
        })
    }

    /// A byte is needed where the bytes end.
    pub fn at_end() -> Stop
        ensures { result ≡ stop_at Rule.Truncated [] }
    {
        Stop::at(Rule::Truncated, &[])
    }
}

impl From<OutOfMemory> for Stop {
    ghost use Rattle.mama_payload.specs.declared.fault.Stop.TheVariants as stops;

    ghost from_gives = { λ _ e. e ≡ stops.OutOfMemory };

    fn from(_error: OutOfMemory) -> Stop {
        Stop::OutOfMemory
    }
}
/// Why a message was not written.
#[derive(Clone, Copy, Debug, PartialEq, Eq)]
pub enum EncodeFault {
    /// The message has more than 64 fields.
    TooMany,
    /// There was no memory for the bytes.
    OutOfMemory,
}

impl fmt::Display for EncodeFault {
    fn fmt<W: fmt::Write>(&self, f: &mut fmt::Formatter<W>) -> fmt::Result {
        match self {
            EncodeFault::TooMany => write!(f, "the message has more than 64 fields"),
            EncodeFault::OutOfMemory => write!(f, "out of memory"),
        }
    }
}

impl Error for EncodeFault {}

/// Why bytes were not read. Places count from 0.
#[derive(Clone, Copy, Debug, PartialEq, Eq)]
pub enum DecodeFault {
    /// A byte is needed where the bytes end: `at` is their number.
    Truncated { at: usize },
    /// The first byte is neither 1 nor 2, a tag is unknown in that version, or the byte of a Bool is neither 0 nor 1.
    BadTag { at: usize },
    /// A byte that may not stand in a name or in a text, or the length byte of a name that is empty where the fid is 0.
    BadText { at: usize },
    /// The tag of a field whose key an earlier field has.
    Repeated { at: usize },
    /// The number of fields is above 64, the length of a name above 32, the decimals of a price above 18, or the count of
    /// a list of numbers above 24.
    TooMany { at: usize },
    /// The version is 2, and no field is a list of numbers: `at` is 0. It is found after the last field.
    OldForm { at: usize },
    /// The first byte after the last field.
    Trailing { at: usize },
    /// There was no memory for the message.
    OutOfMemory,
}

impl fmt::Display for DecodeFault {
    fn fmt<W: fmt::Write>(&self, f: &mut fmt::Formatter<W>) -> fmt::Result {
        match self {
            DecodeFault::Truncated { at } => write!(f, "the payload ends early at byte {at}"),
            DecodeFault::BadTag { at } => write!(f, "an unknown tag at byte {at}"),
            DecodeFault::BadText { at } => write!(f, "a bad letter at byte {at}"),
            DecodeFault::Repeated { at } => write!(f, "a repeated key at byte {at}"),
            DecodeFault::TooMany { at } => write!(f, "a number above its limit at byte {at}"),
            DecodeFault::OldForm { at } => write!(f, "version 2 without numbers at byte {at}"),
            DecodeFault::Trailing { at } => write!(f, "a byte after the payload at byte {at}"),
            DecodeFault::OutOfMemory => write!(f, "out of memory"),
        }
    }
}

impl Error for DecodeFault {}
