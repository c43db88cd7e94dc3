ghost use Rattle.std.specs.Prelude.{ℕ, ◌≡◌, ◌≢◌};
ghost use Rattle.std.specs.Process.{exit_status};
ghost use Rattle.mama_script.specs.declared.fault.ScriptFault.TheVariants as script;
ghost use Rattle.mama_plain.specs.Status.{exit_number};
ghost use Rattle.mama_check.specs.declared.verdict.Actor.{Actor};

use mama_check::Actor;
use mama_script::ScriptFault;
use std::fmt;
use std::process::ExitCode;

/// How a command ended. Lines are counted from 1.
#[derive(Clone, Copy, Debug, PartialEq, Eq)]
pub enum Status {
    /// The command did what it says, and read its input to the end.
    Ok,
    /// The words are no command.
    BadWords,
    /// The first line that has a fault, and the lowest number among its faults.
    BadScript { line: u64, fault: u8 },
    /// The first line that passes a limit, and the limit's number. Line 0 is the whole input.
    OverLimit { line: u64, limit: u8 },
    /// A read failed.
    ReadFault,
    /// A write failed, after so many bytes.
    WriteFault { written: u64 },
    /// The script is accepted, and this is the first line behind it that does not fit. Lines are counted from the script's
    /// first.
    BadLog { line: u64 },
    /// The log is not that of a legal run: the first rule that is broken, and the first actor that breaks it. `check` wrote
    /// its verdict, and `replay` nothing.
    NotLegal { rule: u8, actor: Actor },
    /// The log is that of a legal run, and cannot be followed again on one thread: the first actor, in the order of the passes,
    /// that has an entry left where no step can be made, and the number of that entry in its journal, from 1.
    NotCausal { actor: Actor, entry: u32 },
    /// No memory was found.
    OutOfMemory,
}

impl Status {
    /// The exit status of the program.
    pub fn exit(self) -> ExitCode
        ensures { exit_status result ≡ exit_number self }
    {
        match self {
            Status::Ok => ExitCode::from(0),
            Status::BadWords => ExitCode::from(2),
            Status::BadScript { line: _, fault: _ } => ExitCode::from(3),
            Status::OverLimit { line: _, limit: _ } => ExitCode::from(4),
            Status::ReadFault => ExitCode::from(5),
            Status::WriteFault { written: _ } => ExitCode::from(6),
            Status::BadLog { line: _ } => ExitCode::from(7),
            Status::NotLegal { rule: _, actor: _ } => ExitCode::from(1),
            Status::NotCausal { actor: _, entry: _ } => ExitCode::from(10),
            Status::OutOfMemory => ExitCode::from(8),
        }
    }
}

impl fmt::Display for Status {
    fn fmt<W: fmt::Write>(&self, f: &mut fmt::Formatter<W>) -> fmt::Result {
        match self {
            Status::Ok => write!(f, "ok"),
            Status::BadWords => write!(f, "bad words"),
            Status::BadScript { line, fault } => write!(
                f,
                "bad script, line {line}, fault {fault}"
            ),
            Status::OverLimit { line, limit } => write!(f, "over limit {limit}, line {line}"),
            Status::ReadFault => write!(f, "read fault"),
            Status::WriteFault { written: _ } => write!(f, "write fault"),
            Status::BadLog { line } => write!(f, "bad log, line {line}"),
            Status::NotLegal { rule: _, actor: _ } => write!(f, "not legal"),
            Status::NotCausal { actor: _, entry: _ } => write!(f, "not causal"),
            Status::OutOfMemory => write!(f, "out of memory"),
        }
    }
}

/// The answer where a text is no script. Only the input as a whole has line 0.
pub(crate) fn script_status(fault: ScriptFault) -> Status
    requires { (line limit : ℕ) → fault ≡ script.OverLimit line limit → line ≢ 0 }
    ensures words { result ≢ Status.BadWords }
    ensures read { result ≢ Status.ReadFault }
    ensures ok { result ≢ Status.Ok }
    ensures written { (written : ℕ) → result ≢ Status.WriteFault written }
    ensures log { (line : ℕ) → result ≢ Status.BadLog line }
    ensures legal { (rule : ℕ) (actor : Actor) → result ≢ Status.NotLegal rule actor }
    ensures causal { (actor : Actor) (entry : ℕ) → result ≢ Status.NotCausal actor entry }
    ensures bad { (line number : ℕ) → result ≡ Status.BadScript line number → fault ≡ script.Bad line number }
    ensures over { (line limit : ℕ) → result ≡ Status.OverLimit line limit → (line ≢ 0) × (fault ≡ script.OverLimit line limit) }
{
    match fault {
        ScriptFault::Bad { line, fault } => Status::BadScript { line, fault },
        ScriptFault::OverLimit { line, limit } => Status::OverLimit { line, limit },
        ScriptFault::OutOfMemory => Status::OutOfMemory,
    }
}
