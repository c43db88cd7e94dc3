ghost use Rattle.std.specs.Prelude.{◌≡◌};
ghost use Rattle.mama_script.specs.declared.fault.ScriptFault.TheVariants as script;
ghost use Rattle.mama_script.specs.declared.fault.Refused.TheVariants as refused;
ghost use Rattle.mama_script.specs.Reading.{at_line};

use mama_memory::OutOfMemory;
use std::alloc::{AllocError, AllocFailed};
use std::error::Error;
use std::fmt;

/// Why a text is no script. Lines are counted from 1.
#[derive(Clone, Copy, Debug, PartialEq, Eq)]
pub enum ScriptFault {
    /// The first line that has a fault, and the lowest number among its faults.
    Bad { line: u64, fault: u8 },
    /// The first line that passes a limit, and the limit's number.
    OverLimit { line: u64, limit: u8 },
    /// No memory was found.
    OutOfMemory,
}

impl fmt::Display for ScriptFault {
    fn fmt<W: fmt::Write>(&self, f: &mut fmt::Formatter<W>) -> fmt::Result {
        match self {
            ScriptFault::Bad { line, fault } => write!(f, "line {line} has fault {fault}"),
            ScriptFault::OverLimit { line, limit } => write!(f, "line {line} passes limit {limit}"),
            ScriptFault::OutOfMemory => write!(f, "out of memory"),
        }
    }
}

impl Error for ScriptFault {}

impl From<OutOfMemory> for ScriptFault {
    ghost from_gives = { λ _ e. e ≡ script.OutOfMemory };

    fn from(_error: OutOfMemory) -> ScriptFault {
        ScriptFault::OutOfMemory
    }
}

impl From<AllocError> for ScriptFault {
    ghost from_gives = { λ _ e. e ≡ script.OutOfMemory };

    fn from(_error: AllocError) -> ScriptFault {
        ScriptFault::OutOfMemory
    }
}

impl<T: Drop> From<AllocFailed<T>> for ScriptFault {
    ghost from_gives = { λ _ e. e ≡ script.OutOfMemory };

    fn from(_error: AllocFailed<T>) -> ScriptFault {
        ScriptFault::OutOfMemory
    }
}

/// What is wrong with a line, beside its number.
#[derive(Clone, Copy, Debug, PartialEq, Eq)]
pub enum Flaw {
    /// The line has this fault.
    Fault(u8),
    /// The line passes this limit.
    Limit(u8),
}

impl Flaw {
    /// The flaw, at its line.
    pub fn at(self, line: u64) -> ScriptFault
        ensures { result ≡ at_line line self }
    {
        match self {
            Flaw::Fault(fault) => ScriptFault::Bad { line, fault },
            Flaw::Limit(limit) => ScriptFault::OverLimit { line, limit },
        }
    }
}

/// Why a line that has its form was not taken.
#[derive(Clone, Copy, Debug, PartialEq, Eq)]
pub enum Refused {
    /// No memory was found.
    Memory,
    /// The line does not fit those before it.
    Flawed(Flaw),
}

impl fmt::Display for Refused {
    fn fmt<W: fmt::Write>(&self, f: &mut fmt::Formatter<W>) -> fmt::Result {
        match self {
            Refused::Memory => write!(f, "out of memory"),
            Refused::Flawed(Flaw::Fault(fault)) => write!(f, "fault {fault}"),
            Refused::Flawed(Flaw::Limit(limit)) => write!(f, "limit {limit}"),
        }
    }
}

impl Error for Refused {}

impl From<Flaw> for Refused {
    ghost from_gives = { λ flaw e. e ≡ refused.Flawed flaw };

    fn from(flaw: Flaw) -> Refused {
        Refused::Flawed(flaw)
    }
}

impl From<OutOfMemory> for Refused {
    ghost from_gives = { λ _ e. e ≡ refused.Memory };

    fn from(_error: OutOfMemory) -> Refused {
        Refused::Memory
    }
}

impl From<AllocError> for Refused {
    ghost from_gives = { λ _ e. e ≡ refused.Memory };

    fn from(_error: AllocError) -> Refused {
        Refused::Memory
    }
}

impl<T: Drop> From<AllocFailed<T>> for Refused {
    ghost from_gives = { λ _ e. e ≡ refused.Memory };

    fn from(_error: AllocFailed<T>) -> Refused {
        Refused::Memory
    }
}
