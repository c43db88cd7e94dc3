ghost use Rattle.std.specs.Prelude.{List, ℕ, ◌≡◌, ◌≢◌, ◌<◌, ◌≤◌, ◌↔◌, ◌⊎◌, Some, Bool, true, false, map, take, length, string_bytes, Err, IfOk, IfErr};
ghost use Rattle.mama_edge.specs.Count.{Rose};
ghost use Rattle.mama_edge.specs.Told.{Appended, Lost, LostAtMost};
ghost use Rattle.mama_script.specs.Reading.{script_in};
ghost use Rattle.mama_script.specs.Tree.{script_text};
ghost use Rattle.mama_script.specs.declared.fault.ScriptFault.{ScriptFault};
ghost use Rattle.mama_script.specs.declared.fault.ScriptFault.TheVariants as script;
ghost use Rattle.mama_seats.specs.Moments.{AreHeard};
ghost use Rattle.mama_log_read.specs.Logged.{IsLogged};
ghost use Rattle.mama_rules_rounds.specs.Round.{IsRound};
ghost use Rattle.mama_check.specs.declared.verdict.Actor.{Actor};
ghost use Rattle.mama_check.specs.declared.verdict.Verdict.{Verdict};
ghost use Rattle.mama_check.specs.declared.verdict.Verdict.TheVariants as verdicts;
ghost use Rattle.mama_gen.specs.Generated.{generated};
ghost use Rattle.mama_plain.specs.Command.{is_serial, is_check, is_rewrite, is_replay, is_command, seed_in};
ghost use Rattle.mama_plain.specs.Parts.{script_part, log_part};
ghost use Rattle.mama_plain.specs.Verdict.{IsChecked, IsVerdictOf, IsRefusalBy, IsBadLog};
ghost use Rattle.mama_plain.specs.Answers.{GaveAll, IsAccepted, IsLogOf, IsEndOfGen, OnUnplayed, OnSilent, OnUnwritten};
ghost use Rattle.mama_plain.specs.Causes.{IsCause};
ghost use Rattle.mama_plain.specs.Rewritten.{IsInTwo, IsTaken};
ghost use Rattle.mama_plain.specs.Replayed.{IsReplayed, IsUnfollowed};
ghost use Rattle.mama_plain.specs.Promises.{KeepsPromises};
ghost use Rattle.mama_plain.specs.LawfulRun.{IsLawfulRun};

use crate::check::judge_input;
use crate::command::{Command, command_of};
use crate::laws::{legal_records_keep_promises, logs_of_serial_are_lawful};
use crate::replay::replay_input;
use crate::rewrite::rewrite_input;
use crate::seed::write_script;
use crate::status::{Status, script_status};
use mama_check::legal_records_are_formed;
use mama_drive::serial;
use mama_edge::{Clock, ReadAll, Sink, Source, read_all, write_all_counted};
use mama_laws_legal::round_is_legal;
use mama_laws_logged::{legal_records_are_logged, log_fits, logs_tell_one_record, moments_fit};
use mama_memory::OutOfMemory;
use mama_record::{RunRecord, print_log};
use mama_script::{Script, ScriptFault, first_fault_is_told, parse};
use std::alloc::Global;

/// The most bytes of input.
pub const MOST_INPUT: usize = 67_108_864;

/// Why there is no log.
#[derive(Clone, Copy, Debug, PartialEq, Eq)]
pub enum NoLog {
    /// The script has a fault, or passes a limit.
    Script(ScriptFault),
    /// No memory was found.
    Memory,
}

/// Serves the command that the words name. `serial` reads a script from the source, plays it on one thread and writes
/// its log to the sink. `check` reads a script, a line `log`, and a log, and writes whether the log is that of a legal run
/// of the script. `rewrite` reads a script, or a script, a line `log`, and a log, and writes the same in version 2. `replay` reads
/// what `check` reads, follows the run again on one thread, and writes the steps and the log of the record that they lead to.
/// `gen` with a seed reads nothing, and writes the script of that seed. It always returns.
///
/// At `Ok` of `serial` the log is that of the record that the script has where its clients read the moments of that record:
/// `IsLogOf`; and that record keeps all promises of a run: `IsLawfulRun`. Where the clock tells its moments, those of the
/// record are its answers to one call for each line `now clock`, in the order of the rounds: `AreHeard`. At `Ok` of `check`
/// the log is legal, and at `NotLegal` it is not; `IsVerdictOf` says what was judged. At `Ok` of `replay` the log that was written
/// is the log that was read: `IsReplayed`. No clause ties want of memory to its cause.
pub fn run_plain<S: Source, K: Sink, C: Clock>(
    alloc: Global,
    words: &[String],
    source: &mut S,
    sink: &mut K,
    clock: &mut C,
) -> Status
    // The words are no command exactly where that is the answer, and then nothing was read.
    ensures bad_words { (result ≡ Status.BadWords) ↔ (is_command (map string_bytes words.now) ≡ false) }
    ensures unread { result ≡ Status.BadWords → source.new ≡ source.old }

    // A read fault and a write fault come only where the count of that object rose.
    ensures read_fault { result ≡ Status.ReadFault → Rose (S.faults source.old) (S.faults source.new) }
    ensures write_fault { (written : ℕ) → result ≡ Status.WriteFault written → Rose (K.faults sink.old) (K.faults sink.new) }

    // At a read fault and at want of memory no more than the limit was taken. The input is too long only where one byte
    // more was.
    ensures read_part { result ≡ Status.ReadFault → LostAtMost (S.left source.old) (S.left source.new) 67108864 }
    ensures memory_part { result ≡ Status.OutOfMemory → LostAtMost (S.left source.old) (S.left source.new) 67108864 }
    ensures too_long { (limit : ℕ) → result ≡ Status.OverLimit 0 limit → (limit ≡ 1) × Lost (S.left source.old) (S.left source.new) 67108865 }

    // At every answer but Ok, that a log is not legal, and a write fault, nothing was written.
    ensures silent { OnSilent result (sink.new ≡ sink.old) }

    // Only serial calls the clock, and only for a script that it plays: whatever the answer is, the clock is as it was, or
    // the source gave the text of an accepted script.
    ensures still { is_serial (map string_bytes words.now) ≡ false → clock.new ≡ clock.old }
    ensures unplayed { OnUnplayed result (clock.new ≡ clock.old) }
    ensures called { (clock.new ≡ clock.old) ⊎ ((text : List ℕ) × GaveAll (S.left source.old) (S.left source.new) text × IsAccepted text) }

    // SERIAL

    // A fault or a limit is that of the text that the source gave: its first line that has one, where an object that is
    // not there is looked for last. An accepted script has neither, and is refused only where the input is too long.
    ensures bad_script { is_serial (map string_bytes words.now) ≡ true → (line fault : ℕ) → result ≡ Status.BadScript line fault
        → (text : List ℕ) × GaveAll (S.left source.old) (S.left source.new) text × (script_in text ≡ Err (script.Bad line fault)) }
    ensures over_limit { is_serial (map string_bytes words.now) ≡ true → (line limit : ℕ) → result ≡ Status.OverLimit line limit → line ≢ 0
        → (text : List ℕ) × GaveAll (S.left source.old) (S.left source.new) text × (script_in text ≡ Err (script.OverLimit line limit)) }
    ensures accepted { is_serial (map string_bytes words.now) ≡ true → (text : List ℕ) → S.left source.old ≡ Some text → IsAccepted text
        → ((line fault : ℕ) → result ≢ Status.BadScript line fault) × ((line limit : ℕ) → result ≡ Status.OverLimit line limit → line ≡ 0) }

    // At Ok the source gave the text of an accepted script and no more, and the log of a run of it was written whole. At
    // a write fault a part of one was written, which is not the whole. The run of such a log keeps all promises.
    ensures ok { is_serial (map string_bytes words.now) ≡ true → result ≡ Status.Ok → (text log : List ℕ) × GaveAll (S.left source.old) (S.left source.new) text
        × IsLogOf (C.left clock.old) (C.left clock.new) text log × Appended (K.written sink.old) (K.written sink.new) log }
    ensures part { is_serial (map string_bytes words.now) ≡ true → (written : ℕ) → result ≡ Status.WriteFault written
        → (text log : List ℕ) × GaveAll (S.left source.old) (S.left source.new) text × IsLogOf (C.left clock.old) (C.left clock.new) text log
        × (written < length log) × Appended (K.written sink.old) (K.written sink.new) (take written log) }
    ensures promises { (text log : List ℕ) (l : IsLogOf (C.left clock.old) (C.left clock.new) text log) → IsLawfulRun l.script l.run }

    // CHECK

    // A fault or a limit is that of the script, which is what stands before the first line `log`.
    ensures bad_script_part { is_check (map string_bytes words.now) ≡ true → (line fault : ℕ) → result ≡ Status.BadScript line fault
        → (text : List ℕ) × GaveAll (S.left source.old) (S.left source.new) text × (script_in (script_part text) ≡ Err (script.Bad line fault)) }
    ensures over_limit_part { is_check (map string_bytes words.now) ≡ true → (line limit : ℕ) → result ≡ Status.OverLimit line limit → line ≢ 0
        → (text : List ℕ) × GaveAll (S.left source.old) (S.left source.new) text × (script_in (script_part text) ≡ Err (script.OverLimit line limit)) }

    // A log is bad only for check, rewrite and replay. For check it is where the script is accepted, and the line is the first behind it
    // that does not fit. It never is where the source tells an accepted script, the line `log`, and a log that the script can
    // have; nor is that script refused by check then.
    ensures bad_log_only { (line : ℕ) → result ≡ Status.BadLog line → (is_check (map string_bytes words.now) ≡ true) ⊎ ((is_rewrite (map string_bytes words.now) ≡ true) ⊎ (is_replay (map string_bytes words.now) ≡ true)) }
    ensures bad_log { is_check (map string_bytes words.now) ≡ true → (line : ℕ) → result ≡ Status.BadLog line
        → (text : List ℕ) × GaveAll (S.left source.old) (S.left source.new) text × IsBadLog (script_part text) (log_part text) line }
    ensures fitting { (text : List ℕ) → S.left source.old ≡ Some text → IsChecked text → (line : ℕ) → result ≢ Status.BadLog line }
    ensures fitting_script { is_check (map string_bytes words.now) ≡ true → (text : List ℕ) → S.left source.old ≡ Some text → IsChecked text
        → ((line fault : ℕ) → result ≢ Status.BadScript line fault) × ((line limit : ℕ) → result ≡ Status.OverLimit line limit → line ≡ 0) }

    // A log that is found legal by check keeps all promises, and its verdict was written whole. One that is not legal is told by
    // check, which wrote its verdict whole, and by replay, which wrote nothing: the first rule that is broken, and by whom. At a write
    // fault of check a part of a verdict was written, which is not the whole.
    ensures legal { is_check (map string_bytes words.now) ≡ true → result ≡ Status.Ok → (causal : Bool) × (text : List ℕ) × (out : List ℕ)
        × GaveAll (S.left source.old) (S.left source.new) text × IsVerdictOf text (verdicts.Legal causal) out × Appended (K.written sink.old) (K.written sink.new) out }
    ensures not_legal { (rule : ℕ) (actor : Actor) → result ≡ Status.NotLegal rule actor → (text : List ℕ) × (out : List ℕ)
        × GaveAll (S.left source.old) (S.left source.new) text × IsVerdictOf text (verdicts.NotLegal rule actor) out × IsRefusalBy (map string_bytes words.now) (K.written sink.old) (K.written sink.new) out }
    ensures verdict_part { is_check (map string_bytes words.now) ≡ true → (written : ℕ) → result ≡ Status.WriteFault written → (verdict : Verdict) × (text : List ℕ) × (out : List ℕ)
        × GaveAll (S.left source.old) (S.left source.new) text × IsVerdictOf text verdict out × (written < length out) × Appended (K.written sink.old) (K.written sink.new) (take written out) }
    ensures legal_promises { (causal : Bool) (text out : List ℕ) (v : IsVerdictOf text (verdicts.Legal causal) out) → KeepsPromises v.script v.run }

    // REWRITE

    // A fault or a limit is that of the script, as for check. A log is bad where there is a line `log`, the script is accepted,
    // and the line is the first behind it that does not fit. None of these comes where the source tells an accepted script
    // alone, or one with the line `log` and a log that it can have.
    ensures rewrite_bad_script { is_rewrite (map string_bytes words.now) ≡ true → (line fault : ℕ) → result ≡ Status.BadScript line fault
        → (text : List ℕ) × GaveAll (S.left source.old) (S.left source.new) text × (script_in (script_part text) ≡ Err (script.Bad line fault)) }
    ensures rewrite_over_limit { is_rewrite (map string_bytes words.now) ≡ true → (line limit : ℕ) → result ≡ Status.OverLimit line limit → line ≢ 0
        → (text : List ℕ) × GaveAll (S.left source.old) (S.left source.new) text × (script_in (script_part text) ≡ Err (script.OverLimit line limit)) }
    ensures rewrite_bad_log { is_rewrite (map string_bytes words.now) ≡ true → (line : ℕ) → result ≡ Status.BadLog line
        → (text log : List ℕ) × GaveAll (S.left source.old) (S.left source.new) text × (log_part text ≡ Some log) × IsBadLog (script_part text) (Some log) line }
    ensures rewrite_fitting { is_rewrite (map string_bytes words.now) ≡ true → (text : List ℕ) → S.left source.old ≡ Some text → IsTaken text
        → ((line : ℕ) → result ≢ Status.BadLog line) × ((line fault : ℕ) → result ≢ Status.BadScript line fault) × ((line limit : ℕ) → result ≡ Status.OverLimit line limit → line ≡ 0) }

    // What was written is the text of the same script and record in version 2, and at a write fault a part of it, which is not
    // the whole.
    ensures rewritten { is_rewrite (map string_bytes words.now) ≡ true → result ≡ Status.Ok → (text out : List ℕ)
        × GaveAll (S.left source.old) (S.left source.new) text × IsInTwo text out × Appended (K.written sink.old) (K.written sink.new) out }
    ensures rewritten_part { is_rewrite (map string_bytes words.now) ≡ true → (written : ℕ) → result ≡ Status.WriteFault written → (text out : List ℕ)
        × GaveAll (S.left source.old) (S.left source.new) text × IsInTwo text out × (written < length out) × Appended (K.written sink.old) (K.written sink.new) (take written out) }

    // REPLAY

    // A fault or a limit is that of the script, and a log is bad, as for check. None of these comes where the source tells an
    // accepted script, the line `log`, and a log that the script can have.
    ensures replay_bad_script { is_replay (map string_bytes words.now) ≡ true → (line fault : ℕ) → result ≡ Status.BadScript line fault
        → (text : List ℕ) × GaveAll (S.left source.old) (S.left source.new) text × (script_in (script_part text) ≡ Err (script.Bad line fault)) }
    ensures replay_over_limit { is_replay (map string_bytes words.now) ≡ true → (line limit : ℕ) → result ≡ Status.OverLimit line limit → line ≢ 0
        → (text : List ℕ) × GaveAll (S.left source.old) (S.left source.new) text × (script_in (script_part text) ≡ Err (script.OverLimit line limit)) }
    ensures replay_bad_log { is_replay (map string_bytes words.now) ≡ true → (line : ℕ) → result ≡ Status.BadLog line
        → (text : List ℕ) × GaveAll (S.left source.old) (S.left source.new) text × IsBadLog (script_part text) (log_part text) line }
    ensures replay_fitting { is_replay (map string_bytes words.now) ≡ true → (text : List ℕ) → S.left source.old ≡ Some text → IsChecked text
        → ((line fault : ℕ) → result ≢ Status.BadScript line fault) × ((line limit : ℕ) → result ≡ Status.OverLimit line limit → line ≡ 0) }

    // At every answer but Ok and a write fault nothing was written. A log is not causal where it is legal and its entries have no
    // causal order; then the actor is the first that cannot go on, and the entry its next.
    ensures replay_silent { is_replay (map string_bytes words.now) ≡ true → OnUnwritten result (sink.new ≡ sink.old) }
    ensures not_causal { (actor : Actor) (entry : ℕ) → result ≡ Status.NotCausal actor entry → (is_replay (map string_bytes words.now) ≡ true) × (text : List ℕ)
        × GaveAll (S.left source.old) (S.left source.new) text × IsUnfollowed text actor entry }

    // What was written are the steps that lead to the record that was read, and the log of the record that they lead to, in the
    // version that was read: it is the log that was read, byte for byte. At a write fault a part was written, which is not the whole.
    ensures replayed { is_replay (map string_bytes words.now) ≡ true → result ≡ Status.Ok → (text out : List ℕ)
        × GaveAll (S.left source.old) (S.left source.new) text × IsReplayed text out × Appended (K.written sink.old) (K.written sink.new) out }
    ensures replayed_part { is_replay (map string_bytes words.now) ≡ true → (written : ℕ) → result ≡ Status.WriteFault written → (text out : List ℕ)
        × GaveAll (S.left source.old) (S.left source.new) text × IsReplayed text out × (written < length out) × Appended (K.written sink.old) (K.written sink.new) (take written out) }

    // GEN

    // Nothing is read, and no answer comes but that all was written, that a part was, or want of memory. What is written
    // is the text of the script of the seed, and at a write fault a part of it, which is not the whole.
    ensures seed_only { (seed : ℕ) → seed_in (map string_bytes words.now) ≡ Some seed → (source.new ≡ source.old) × IsEndOfGen result }
    ensures seed_ok { (seed : ℕ) → seed_in (map string_bytes words.now) ≡ Some seed → result ≡ Status.Ok
        → Appended (K.written sink.old) (K.written sink.new) (generated seed) }
    ensures seed_part { (seed : ℕ) → seed_in (map string_bytes words.now) ≡ Some seed → (written : ℕ) → result ≡ Status.WriteFault written
        → (written < length (generated seed)) × Appended (K.written sink.old) (K.written sink.new) (take written (generated seed)) }
{
    legal_records_keep_promises();
    logs_of_serial_are_lawful();
    match command_of(words) {
        Some(Command::Serial) => play_input(alloc, source, sink, clock),
        Some(Command::Check) => judge_input(alloc, source, sink),
        Some(Command::Rewrite) => rewrite_input(alloc, source, sink),
        Some(Command::Replay) => replay_input(alloc, source, sink),
        Some(Command::Gen { seed }) => write_script(alloc, seed, sink),
        None => Status::BadWords,
    }
}

/// Plays the script that the source gives, and writes its log.
fn play_input<S: Source, K: Sink, C: Clock>(
    alloc: Global,
    source: &mut S,
    sink: &mut K,
    clock: &mut C,
) -> Status
    ensures words { result ≢ Status.BadWords }
    ensures read_fault { result ≡ Status.ReadFault → Rose (S.faults source.old) (S.faults source.new) }
    ensures write_fault { (written : ℕ) → result ≡ Status.WriteFault written → Rose (K.faults sink.old) (K.faults sink.new) }
    ensures read_part { result ≡ Status.ReadFault → LostAtMost (S.left source.old) (S.left source.new) 67108864 }
    ensures memory_part { result ≡ Status.OutOfMemory → LostAtMost (S.left source.old) (S.left source.new) 67108864 }
    ensures too_long { (limit : ℕ) → result ≡ Status.OverLimit 0 limit → (limit ≡ 1) × Lost (S.left source.old) (S.left source.new) 67108865 }
    ensures silent { OnSilent result (sink.new ≡ sink.old) }
    ensures unplayed { OnUnplayed result (clock.new ≡ clock.old) }
    ensures called { (clock.new ≡ clock.old) ⊎ ((text : List ℕ) × GaveAll (S.left source.old) (S.left source.new) text × IsAccepted text) }
    ensures bad_log { (line : ℕ) → result ≢ Status.BadLog line }
    ensures not_legal { (rule : ℕ) (actor : Actor) → result ≢ Status.NotLegal rule actor }
    ensures causal { (actor : Actor) (entry : ℕ) → result ≢ Status.NotCausal actor entry }
    ensures bad_script { (line fault : ℕ) → result ≡ Status.BadScript line fault
        → (text : List ℕ) × GaveAll (S.left source.old) (S.left source.new) text × (script_in text ≡ Err (script.Bad line fault)) }
    ensures over_limit { (line limit : ℕ) → result ≡ Status.OverLimit line limit → line ≢ 0
        → (text : List ℕ) × GaveAll (S.left source.old) (S.left source.new) text × (script_in text ≡ Err (script.OverLimit line limit)) }
    ensures accepted { (text : List ℕ) → S.left source.old ≡ Some text → IsAccepted text
        → ((line fault : ℕ) → result ≢ Status.BadScript line fault) × ((line limit : ℕ) → result ≡ Status.OverLimit line limit → line ≡ 0) }
    ensures ok { result ≡ Status.Ok → (text log : List ℕ) × GaveAll (S.left source.old) (S.left source.new) text
        × IsLogOf (C.left clock.old) (C.left clock.new) text log × Appended (K.written sink.old) (K.written sink.new) log }
    ensures part { (written : ℕ) → result ≡ Status.WriteFault written
        → (text log : List ℕ) × GaveAll (S.left source.old) (S.left source.new) text × IsLogOf (C.left clock.old) (C.left clock.new) text log
        × (written < length log) × Appended (K.written sink.old) (K.written sink.new) (take written log) }
{
    let text = match read_all(alloc, source, MOST_INPUT) {
        Ok(text) => text,
        Err(ReadAll::ReadFault) => return Status::ReadFault,
        Err(ReadAll::TooLong) => return Status::OverLimit { line: 0, limit: 1 },
        Err(ReadAll::OutOfMemory) => return Status::OutOfMemory,
    };
    write_log(alloc, text, sink, clock)
}

/// Plays the script that a text spells, and writes its log.
fn write_log<K: Sink, C: Clock>(alloc: Global, text: Vec<u8>, sink: &mut K, clock: &mut C) -> Status
    requires { length text.items ≤ 67108864 }
    ensures words { result ≢ Status.BadWords }
    ensures read { result ≢ Status.ReadFault }
    ensures write_fault { (written : ℕ) → result ≡ Status.WriteFault written → Rose (K.faults sink.old) (K.faults sink.new) }
    ensures bad_script { (line fault : ℕ) → result ≡ Status.BadScript line fault → script_in text.items ≡ Err (script.Bad line fault) }
    ensures over_limit { (line limit : ℕ) → result ≡ Status.OverLimit line limit → (line ≢ 0) × (script_in text.items ≡ Err (script.OverLimit line limit)) }
    ensures bad_log { (line : ℕ) → result ≢ Status.BadLog line }
    ensures not_legal { (rule : ℕ) (actor : Actor) → result ≢ Status.NotLegal rule actor }
    ensures causal { (actor : Actor) (entry : ℕ) → result ≢ Status.NotCausal actor entry }
    ensures ok { result ≡ Status.Ok → (log : List ℕ) × IsLogOf (C.left clock.old) (C.left clock.new) text.items log
        × Appended (K.written sink.old) (K.written sink.new) log }
    ensures part { (written : ℕ) → result ≡ Status.WriteFault written → (log : List ℕ) × IsLogOf (C.left clock.old) (C.left clock.new) text.items log
        × (written < length log) × Appended (K.written sink.old) (K.written sink.new) (take written log) }
    ensures silent { OnSilent result (sink.new ≡ sink.old) }
    ensures unplayed { OnUnplayed result (clock.new ≡ clock.old) }
    ensures called { (clock.new ≡ clock.old) ⊎ IsAccepted text.items }
{
    let log = match log_of(alloc, text, clock) {
        Ok(log) => log,
        Err(fault) => {
            first_fault_is_told();
            return status_of(fault);
        }
    };
    match write_all_counted(sink, log.as_slice()) {
        Ok(()) => Status::Ok,
        Err(fault) => Status::WriteFault {
            written: fault.written,
        },
    }
}

/// The log of the script that the text spells, or why there is none. The text is let go before the script is played.
fn log_of<C: Clock>(alloc: Global, text: Vec<u8>, clock: &mut C) -> Result<Vec<u8>, NoLog>
    requires { length text.items ≤ 67108864 }
    ensures log { IfOk result (λ log. IsLogOf (C.left clock.old) (C.left clock.new) text.items log.items) }
    ensures cause { IfErr result (λ cause. IsCause text.items cause) }
    ensures unplayed { (fault : ScriptFault) → result ≡ Err (NoLog.Script fault) → clock.new ≡ clock.old }
    ensures called { (clock.new ≡ clock.old) ⊎ IsAccepted text.items }
{
    let script = match parse(alloc, text.as_slice()) {
        Ok(script) => script,
        Err(fault) => return Err(NoLog::Script(fault)),
    };
    drop(text);
    let run = match play(alloc, &script, clock) {
        Ok(run) => run,
        Err(OutOfMemory) => return Err(NoLog::Memory),
    };
    let _shape = script.shape();
    logs_tell_one_record();
    match print_log(alloc, script.shape(), &run, script.version()) {
        Ok(log) => {
            log_fits(log.as_slice());
            Ok(log)
        }
        Err(OutOfMemory) => Err(NoLog::Memory),
    }
}

/// Plays the script on one thread. A log of the script can tell the record.
fn play<C: Clock>(alloc: Global, script: &Script, clock: &mut C) -> Result<RunRecord, OutOfMemory>
    requires { length (script_text script.now) ≤ 67108864 }
    ensures round { IfOk result (λ run. IsRound script.now run) }
    ensures logged { IfOk result (λ run. IsLogged script.now run) }
    ensures clock { IfOk result (λ run. AreHeard (C.left clock.old) (C.left clock.new) script.now.clients run.clients) }
{
    let _shape = script.shape();
    round_is_legal();
    legal_records_are_formed();
    legal_records_are_logged();
    let played = serial(alloc, script, clock)?;
    moments_fit(played.clients());
    Ok(played)
}

/// The answer where there is no log.
fn status_of(fault: NoLog) -> Status
    requires { (line limit : ℕ) → fault ≡ NoLog.Script (script.OverLimit line limit) → line ≢ 0 }
    ensures words { result ≢ Status.BadWords }
    ensures read { result ≢ Status.ReadFault }
    ensures ok { result ≢ Status.Ok }
    ensures written { (written : ℕ) → result ≢ Status.WriteFault written }
    ensures log { (line : ℕ) → result ≢ Status.BadLog line }
    ensures legal { (rule : ℕ) (actor : Actor) → result ≢ Status.NotLegal rule actor }
    ensures causal { (actor : Actor) (entry : ℕ) → result ≢ Status.NotCausal actor entry }
    ensures bad { (line number : ℕ) → result ≡ Status.BadScript line number → fault ≡ NoLog.Script (script.Bad line number) }
    ensures over { (line limit : ℕ) → result ≡ Status.OverLimit line limit → (line ≢ 0) × (fault ≡ NoLog.Script (script.OverLimit line limit)) }
    ensures memory { fault ≡ NoLog.Memory → result ≡ Status.OutOfMemory }
{
    match fault {
        NoLog::Script(fault) => script_status(fault),
        NoLog::Memory => Status::OutOfMemory,
    }
}
