//! Plays scripts of publishers, subscribers and link faults, on one thread or on many, and writes what every actor took and
//! called back; judges whether such a log is that of a legal run, and follows it again on one thread; writes scripts and logs in
//! version 2; writes the scripts of seeds, and plays and judges them at once.
//!
//! The program is [`run`] over standard input and output, the clock and an open gate; it tells on standard error how it ended,
//! and by its exit status.
#![tactic(auto)]

ghost use Rattle.std.specs.Prelude.{◌≡◌};
ghost use Rattle.std.specs.Process.{exit_status};
ghost use Rattle.mama_plain.specs.Status.{exit_number};

use mama_commands::run;
use mama_edge::{OpenGate, RealClock, StdSink, StdSource};
use mama_plain::Status;
use std::process::ExitCode;
use std::{env, io};

const HELP: &str = "usage: mama_run serial
       mama_run play W
       mama_run check
       mama_run rewrite
       mama_run replay
       mama_run gen SEED
       mama_run soak SEED W

serial     reads a script from standard input, plays it on one thread, and writes its log to standard output
play       does the same on threads, so that each run may have another log: one for the bridge, one for the timer service, at
           most W for the queues, and at most W for the clients and publishers; W is a decimal number from 1 to 64
check      reads a script, a line that is just log, and a log from standard input, and writes to standard output whether
           the log is that of a legal run of the script: 'legal' and a line 'causal yes' or 'causal no', or
           'not legal L', the number of the first rule that is broken, and the first actor that breaks it
rewrite    reads a script, or a script, a line that is just log, and a log, each of either version, and writes the same in
           version 2 to standard output
replay     reads what check reads; where the log is that of a legal run and causal, follows it again on one thread, and writes
           to standard output a line for each step, 'step', who makes it, and who put what it takes, and then the log
gen        reads nothing, and writes to standard output the script of a seed, a decimal number from 0 to 2^64 - 1
soak       plays the script of a seed on threads, as play does, judges its record, and writes what that counts: 'sends N',
           'subscriptions N', 'notices N', and 'legal'
--help     writes this text
--version  writes the version

exit status:
  0  all was done
  1  the log is not that of a legal run
  2  the words are no command
  3  the script has a fault
  4  the input or the script passes a limit
  5  a read failed
  6  a write failed
  7  the log does not fit its script's form of a log
  8  no memory was found
 10  the log cannot be followed again on one thread
Each but 0 comes with one line on standard error.
";

fn main(rt: HostRuntime) -> io::Result<ExitCode> {
    let mut words = Vec::new(rt.alloc());
    match env::args(&rt) {
        Ok(args) => {
            for word in args {
                if words.push(word).is_err() {
                    return Ok(end(&rt, Status::OutOfMemory));
                }
            }
        }
        Err(fault) => return Ok(end(&rt, without_words(fault.kind()))),
    }
    let words = if words.is_empty() {
        words.as_slice()
    } else {
        &words.as_slice()[1..]
    };
    if let [word] = words {
        if word.as_str() == "--help" {
            return Ok(end(&rt, written(print!(rt; "{HELP}").is_ok())));
        }
        if word.as_str() == "--version" {
            return Ok(end(&rt, written(println!(rt; "mama_run 1").is_ok())));
        }
    }
    let mut source = StdSource::new(rt.stdin());
    let mut sink = StdSink::new(rt.stdout());
    let mut clock = RealClock::new(&rt);
    let status = run(
        &rt,
        rt.alloc(),
        words,
        &mut source,
        &mut sink,
        &mut clock,
        &OpenGate,
    );
    Ok(end(&rt, status))
}

/// The answer where the words could not be had. Words that are no text are no command.
fn without_words(kind: io::ErrorKind) -> Status {
    if kind == io::ErrorKind::OutOfMemory {
        Status::OutOfMemory
    } else {
        Status::BadWords
    }
}

/// How a call ended that only writes.
fn written(whole: bool) -> Status {
    if whole {
        Status::Ok
    } else {
        Status::WriteFault { written: 0 }
    }
}

/// Tells any status but Ok on standard error, and gives the exit status.
fn end(rt: &HostRuntime, status: Status) -> ExitCode
    ensures { exit_status result ≡ exit_number status }
{
    if status != Status::Ok {
        let _ = eprintln!(rt; "mama_run: {status}");
    }
    status.exit()
}
