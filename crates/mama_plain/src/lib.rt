//! The program's command over a source of bytes, a sink of bytes and a clock.
//!
//! [`run_plain`] plays a script and writes its log, judges a log and writes the verdict, follows it again on one thread, writes
//! both in version 2, or writes the script of a seed. What it promises stands in six files: `specs/Answers.antt` says what a log
//! tells, `specs/Verdict.antt` what a verdict says, `specs/Replayed.antt` what is written of a log that is followed,
//! `specs/Rewritten.antt` what version 2 of a text is, `specs/Promises.antt` lists what holds of each run, and `specs/Own.antt` what
//! is found of a log or a script that [`run_plain`] wrote. [`Status`] is how it ended, and gives the exit status of a program.
#![tactic(auto)]

mod check;
mod command;
mod laws;
mod parts;
mod replay;
mod rewrite;
mod run;
mod seed;
mod status;
mod steps;

pub use check::NoVerdict;
pub use command::Command;
pub use laws::{
    legal_records_keep_promises, logs_of_serial_are_lawful, logs_of_serial_are_legal,
    rewritten_is_kept, scripts_of_seeds_are_accepted,
};
pub use replay::NoReplay;
pub use run::{MOST_INPUT, NoLog, run_plain};
pub use status::Status;
