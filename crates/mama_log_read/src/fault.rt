use mama_memory::OutOfMemory;

/// Why a text is no log of a script.
#[derive(Clone, Copy, Debug, PartialEq, Eq)]
pub enum LogFault {
    /// The first line that does not fit, counted from 1 with the log's first line. Where the text ends too early it is one
    /// more than there are lines, and a last line without its line feed does not fit.
    Bad { line: u64 },
    /// No memory was found.
    OutOfMemory,
}

impl From<OutOfMemory> for LogFault {
    ghost use Rattle.std.specs.Prelude.{◌≡◌};
    ghost use Rattle.mama_log_read.specs.declared.fault.LogFault.TheVariants as fault;

    ghost from_gives = { λ _ e. e ≡ fault.OutOfMemory };

    fn from(_error: OutOfMemory) -> LogFault {
        LogFault::OutOfMemory
    }
}
