ghost use Rattle.std.specs.Prelude.{List, ℕ, ◌≡◌, ◌≢◌, ◌<◌, ◌↔◌, ◌⊎◌, Some, Bool, true, false, map, take, length, string_bytes, Err};
ghost use Rattle.mama_edge.specs.Count.{Rose};
ghost use Rattle.mama_edge.specs.Told.{Appended, Lost, LostAtMost};
ghost use Rattle.mama_script.specs.Reading.{script_in};
ghost use Rattle.mama_script.specs.declared.fault.ScriptFault.TheVariants as script;
ghost use Rattle.mama_check.specs.declared.verdict.Actor.{Actor};
ghost use Rattle.mama_check.specs.declared.verdict.Verdict.{Verdict};
ghost use Rattle.mama_check.specs.declared.verdict.Verdict.TheVariants as verdicts;
ghost use Rattle.mama_gen.specs.Generated.{generated};
ghost use Rattle.mama_plain.specs.Command.{is_serial, is_check, is_rewrite, is_replay, seed_in};
ghost use Rattle.mama_plain.specs.Parts.{script_part, log_part};
ghost use Rattle.mama_plain.specs.Verdict.{IsChecked, IsVerdictOf, IsRefusalBy, IsBadLog};
ghost use Rattle.mama_plain.specs.Answers.{GaveAll, IsAccepted, IsLogOf, IsEndOfGen, OnUnplayed, OnSilent, OnUnwritten};
ghost use Rattle.mama_plain.specs.Rewritten.{IsInTwo, IsTaken};
ghost use Rattle.mama_plain.specs.Replayed.{IsReplayed, IsUnfollowed};
ghost use Rattle.mama_plain.specs.Promises.{KeepsPromises};
ghost use Rattle.mama_plain.specs.LawfulRun.{IsLawfulRun};
ghost use Rattle.mama_soak.specs.Soak.{IsSoak};
ghost use Rattle.mama_commands.specs.Words.{is_play, soak_in, is_form};
ghost use Rattle.mama_commands.specs.Played.{IsPlayLogOf};

use crate::play::play_input;
use crate::soak::write_soak;
use crate::words::{soak_of, workers_of};
use mama_edge::{Clock, Gate, Sink, Source};
use mama_plain::{Status, legal_records_keep_promises, logs_of_serial_are_lawful, run_plain};
use std::alloc::Global;
use std::sync::Wait;
use std::thread::Threads;

/// Serves the command that the words name. `play W`, with a number from 1 to 64, reads a script from the source, plays it on
/// threads and writes its log to the sink: one thread turns the bridge, one the timer service, at most W the queues, and at
/// most W the clients and publishers. `soak SEED W` reads nothing, plays the script of the seed in the same way, judges its
/// record, and writes what that counts. All other words are those of `run_plain`, which serves them.
///
/// At `Ok` of `play W` the log is that of a legal record that keeps all promises of a run, and tells no other: `IsPlayLogOf`.
/// At `Ok` of `soak SEED W` the counts are those of a legal record of the seed's script: `IsSoak`. Both hold whichever thread
/// turned which actor when. That it returns is not promised of these two; of the other commands it always does. The gate is called before each turn of an actor, which no clause says; the moments of such a record are the
/// clock's, and no clause says that either. No clause ties want of memory to its cause.
pub fn run<
    S: Source,
    K: Sink,
    C: Clock + Send,
    G: Gate + Sync,
    Rt: Threads + Wait + Copy + Drop + Send + Sync,
>(
    rt: &Rt,
    alloc: Global,
    words: &[String],
    source: &mut S,
    sink: &mut K,
    clock: &mut C,
    gate: &G,
) -> Status
    // The words are no command exactly where that is the answer, and then nothing was read.
    ensures bad_words { (result ≡ Status.BadWords) ↔ (is_form (map string_bytes words.now) ≡ false) }
    ensures unread { result ≡ Status.BadWords → source.new ≡ source.old }

    // A read fault and a write fault come only where the count of that object rose.
    ensures read_fault { result ≡ Status.ReadFault → Rose (S.faults source.old) (S.faults source.new) }
    ensures write_fault { (written : ℕ) → result ≡ Status.WriteFault written → Rose (K.faults sink.old) (K.faults sink.new) }

    // At a read fault and at want of memory no more than the limit was taken. The input is too long only where one byte
    // more was.
    ensures read_part { result ≡ Status.ReadFault → LostAtMost (S.left source.old) (S.left source.new) 67108864 }
    ensures memory_part { result ≡ Status.OutOfMemory → LostAtMost (S.left source.old) (S.left source.new) 67108864 }
    ensures too_long { (limit : ℕ) → result ≡ Status.OverLimit 0 limit → (limit ≡ 1) × Lost (S.left source.old) (S.left source.new) 67108865 }

    // At every answer but Ok, that a log is not legal, and a write fault, nothing was written.
    ensures silent { OnSilent result (sink.new ≡ sink.old) }

    // Only play and serial call the clock, and only for a script that they play: whatever the answer is, the clock is as it was,
    // or the source gave the text of an accepted script.
    ensures still { is_play (map string_bytes words.now) ≡ false → is_serial (map string_bytes words.now) ≡ false → clock.new ≡ clock.old }
    ensures unplayed { OnUnplayed result (clock.new ≡ clock.old) }
    ensures called { (clock.new ≡ clock.old) ⊎ ((text : List ℕ) × GaveAll (S.left source.old) (S.left source.new) text × IsAccepted text) }

    // PLAY

    // A fault or a limit is that of the text that the source gave: its first line that has one, where an object that is
    // not there is looked for last. An accepted script has neither, and is refused only where the input is too long.
    ensures play_bad_script { is_play (map string_bytes words.now) ≡ true → (line fault : ℕ) → result ≡ Status.BadScript line fault
        → (text : List ℕ) × GaveAll (S.left source.old) (S.left source.new) text × (script_in text ≡ Err (script.Bad line fault)) }
    ensures play_over_limit { is_play (map string_bytes words.now) ≡ true → (line limit : ℕ) → result ≡ Status.OverLimit line limit → line ≢ 0
        → (text : List ℕ) × GaveAll (S.left source.old) (S.left source.new) text × (script_in text ≡ Err (script.OverLimit line limit)) }
    ensures play_accepted { is_play (map string_bytes words.now) ≡ true → (text : List ℕ) → S.left source.old ≡ Some text → IsAccepted text
        → ((line fault : ℕ) → result ≢ Status.BadScript line fault) × ((line limit : ℕ) → result ≡ Status.OverLimit line limit → line ≡ 0) }

    // At Ok the source gave the text of an accepted script and no more, and the log of a run of it was written whole. At
    // a write fault a part of one was written, which is not the whole.
    ensures play { is_play (map string_bytes words.now) ≡ true → result ≡ Status.Ok → (text log : List ℕ) × GaveAll (S.left source.old) (S.left source.new) text
        × IsPlayLogOf text log × Appended (K.written sink.old) (K.written sink.new) log }
    ensures play_part { is_play (map string_bytes words.now) ≡ true → (written : ℕ) → result ≡ Status.WriteFault written
        → (text log : List ℕ) × GaveAll (S.left source.old) (S.left source.new) text × IsPlayLogOf text log
        × (written < length log) × Appended (K.written sink.old) (K.written sink.new) (take written log) }

    // SOAK

    // Nothing is read, and no answer comes but that all was written, that a part was, or want of memory. What is written
    // are the counts of a legal run of the script of the seed, and at a write fault a part of them, which is not the whole.
    ensures soak_only { (seed workers : ℕ) → soak_in (map string_bytes words.now) ≡ Some (seed, workers) → (source.new ≡ source.old) × IsEndOfGen result }
    ensures soak_ok { (seed workers : ℕ) → soak_in (map string_bytes words.now) ≡ Some (seed, workers) → result ≡ Status.Ok
        → (out : List ℕ) × IsSoak seed out × Appended (K.written sink.old) (K.written sink.new) out }
    ensures soak_part { (seed workers : ℕ) → soak_in (map string_bytes words.now) ≡ Some (seed, workers) → (written : ℕ) → result ≡ Status.WriteFault written
        → (out : List ℕ) × IsSoak seed out × (written < length out) × Appended (K.written sink.old) (K.written sink.new) (take written out) }

    // SERIAL

    // A fault or a limit is that of the text that the source gave: its first line that has one, where an object that is
    // not there is looked for last. An accepted script has neither, and is refused only where the input is too long.
    ensures bad_script { is_serial (map string_bytes words.now) ≡ true → (line fault : ℕ) → result ≡ Status.BadScript line fault
        → (text : List ℕ) × GaveAll (S.left source.old) (S.left source.new) text × (script_in text ≡ Err (script.Bad line fault)) }
    ensures over_limit { is_serial (map string_bytes words.now) ≡ true → (line limit : ℕ) → result ≡ Status.OverLimit line limit → line ≢ 0
        → (text : List ℕ) × GaveAll (S.left source.old) (S.left source.new) text × (script_in text ≡ Err (script.OverLimit line limit)) }
    ensures accepted { is_serial (map string_bytes words.now) ≡ true → (text : List ℕ) → S.left source.old ≡ Some text → IsAccepted text
        → ((line fault : ℕ) → result ≢ Status.BadScript line fault) × ((line limit : ℕ) → result ≡ Status.OverLimit line limit → line ≡ 0) }

    // At Ok the source gave the text of an accepted script and no more, and the log of a run of it was written whole. At
    // a write fault a part of one was written, which is not the whole. The run of such a log keeps all promises.
    ensures ok { is_serial (map string_bytes words.now) ≡ true → result ≡ Status.Ok → (text log : List ℕ) × GaveAll (S.left source.old) (S.left source.new) text
        × IsLogOf (C.left clock.old) (C.left clock.new) text log × Appended (K.written sink.old) (K.written sink.new) log }
    ensures part { is_serial (map string_bytes words.now) ≡ true → (written : ℕ) → result ≡ Status.WriteFault written
        → (text log : List ℕ) × GaveAll (S.left source.old) (S.left source.new) text × IsLogOf (C.left clock.old) (C.left clock.new) text log
        × (written < length log) × Appended (K.written sink.old) (K.written sink.new) (take written log) }
    ensures promises { (text log : List ℕ) (l : IsLogOf (C.left clock.old) (C.left clock.new) text log) → IsLawfulRun l.script l.run }

    // CHECK

    // A fault or a limit is that of the script, which is what stands before the first line `log`.
    ensures bad_script_part { is_check (map string_bytes words.now) ≡ true → (line fault : ℕ) → result ≡ Status.BadScript line fault
        → (text : List ℕ) × GaveAll (S.left source.old) (S.left source.new) text × (script_in (script_part text) ≡ Err (script.Bad line fault)) }
    ensures over_limit_part { is_check (map string_bytes words.now) ≡ true → (line limit : ℕ) → result ≡ Status.OverLimit line limit → line ≢ 0
        → (text : List ℕ) × GaveAll (S.left source.old) (S.left source.new) text × (script_in (script_part text) ≡ Err (script.OverLimit line limit)) }

    // A log is bad only for check, rewrite and replay. For check it is where the script is accepted, and the line is the first behind it
    // that does not fit. It never is where the source tells an accepted script, the line `log`, and a log that the script can
    // have; nor is that script refused by check then.
    ensures bad_log_only { (line : ℕ) → result ≡ Status.BadLog line → (is_check (map string_bytes words.now) ≡ true) ⊎ ((is_rewrite (map string_bytes words.now) ≡ true) ⊎ (is_replay (map string_bytes words.now) ≡ true)) }
    ensures bad_log { is_check (map string_bytes words.now) ≡ true → (line : ℕ) → result ≡ Status.BadLog line
        → (text : List ℕ) × GaveAll (S.left source.old) (S.left source.new) text × IsBadLog (script_part text) (log_part text) line }
    ensures fitting { (text : List ℕ) → S.left source.old ≡ Some text → IsChecked text → (line : ℕ) → result ≢ Status.BadLog line }
    ensures fitting_script { is_check (map string_bytes words.now) ≡ true → (text : List ℕ) → S.left source.old ≡ Some text → IsChecked text
        → ((line fault : ℕ) → result ≢ Status.BadScript line fault) × ((line limit : ℕ) → result ≡ Status.OverLimit line limit → line ≡ 0) }

    // A log that is found legal by check keeps all promises, and its verdict was written whole. One that is not legal is told by
    // check, which wrote its verdict whole, and by replay, which wrote nothing: the first rule that is broken, and by whom. At a write
    // fault of check a part of a verdict was written, which is not the whole.
    ensures legal { is_check (map string_bytes words.now) ≡ true → result ≡ Status.Ok → (causal : Bool) × (text : List ℕ) × (out : List ℕ)
        × GaveAll (S.left source.old) (S.left source.new) text × IsVerdictOf text (verdicts.Legal causal) out × Appended (K.written sink.old) (K.written sink.new) out }
    ensures not_legal { (rule : ℕ) (actor : Actor) → result ≡ Status.NotLegal rule actor → (text : List ℕ) × (out : List ℕ)
        × GaveAll (S.left source.old) (S.left source.new) text × IsVerdictOf text (verdicts.NotLegal rule actor) out × IsRefusalBy (map string_bytes words.now) (K.written sink.old) (K.written sink.new) out }
    ensures verdict_part { is_check (map string_bytes words.now) ≡ true → (written : ℕ) → result ≡ Status.WriteFault written → (verdict : Verdict) × (text : List ℕ) × (out : List ℕ)
        × GaveAll (S.left source.old) (S.left source.new) text × IsVerdictOf text verdict out × (written < length out) × Appended (K.written sink.old) (K.written sink.new) (take written out) }
    ensures legal_promises { (causal : Bool) (text out : List ℕ) (v : IsVerdictOf text (verdicts.Legal causal) out) → KeepsPromises v.script v.run }

    // REWRITE

    // A fault or a limit is that of the script, as for check. A log is bad where there is a line `log`, the script is accepted,
    // and the line is the first behind it that does not fit. None of these comes where the source tells an accepted script
    // alone, or one with the line `log` and a log that it can have.
    ensures rewrite_bad_script { is_rewrite (map string_bytes words.now) ≡ true → (line fault : ℕ) → result ≡ Status.BadScript line fault
        → (text : List ℕ) × GaveAll (S.left source.old) (S.left source.new) text × (script_in (script_part text) ≡ Err (script.Bad line fault)) }
    ensures rewrite_over_limit { is_rewrite (map string_bytes words.now) ≡ true → (line limit : ℕ) → result ≡ Status.OverLimit line limit → line ≢ 0
        → (text : List ℕ) × GaveAll (S.left source.old) (S.left source.new) text × (script_in (script_part text) ≡ Err (script.OverLimit line limit)) }
    ensures rewrite_bad_log { is_rewrite (map string_bytes words.now) ≡ true → (line : ℕ) → result ≡ Status.BadLog line
        → (text log : List ℕ) × GaveAll (S.left source.old) (S.left source.new) text × (log_part text ≡ Some log) × IsBadLog (script_part text) (Some log) line }
    ensures rewrite_fitting { is_rewrite (map string_bytes words.now) ≡ true → (text : List ℕ) → S.left source.old ≡ Some text → IsTaken text
        → ((line : ℕ) → result ≢ Status.BadLog line) × ((line fault : ℕ) → result ≢ Status.BadScript line fault) × ((line limit : ℕ) → result ≡ Status.OverLimit line limit → line ≡ 0) }

    // What was written is the text of the same script and record in version 2, and at a write fault a part of it, which is not
    // the whole.
    ensures rewritten { is_rewrite (map string_bytes words.now) ≡ true → result ≡ Status.Ok → (text out : List ℕ)
        × GaveAll (S.left source.old) (S.left source.new) text × IsInTwo text out × Appended (K.written sink.old) (K.written sink.new) out }
    ensures rewritten_part { is_rewrite (map string_bytes words.now) ≡ true → (written : ℕ) → result ≡ Status.WriteFault written → (text out : List ℕ)
        × GaveAll (S.left source.old) (S.left source.new) text × IsInTwo text out × (written < length out) × Appended (K.written sink.old) (K.written sink.new) (take written out) }

    // REPLAY

    // A fault or a limit is that of the script, and a log is bad, as for check. None of these comes where the source tells an
    // accepted script, the line `log`, and a log that the script can have.
    ensures replay_bad_script { is_replay (map string_bytes words.now) ≡ true → (line fault : ℕ) → result ≡ Status.BadScript line fault
        → (text : List ℕ) × GaveAll (S.left source.old) (S.left source.new) text × (script_in (script_part text) ≡ Err (script.Bad line fault)) }
    ensures replay_over_limit { is_replay (map string_bytes words.now) ≡ true → (line limit : ℕ) → result ≡ Status.OverLimit line limit → line ≢ 0
        → (text : List ℕ) × GaveAll (S.left source.old) (S.left source.new) text × (script_in (script_part text) ≡ Err (script.OverLimit line limit)) }
    ensures replay_bad_log { is_replay (map string_bytes words.now) ≡ true → (line : ℕ) → result ≡ Status.BadLog line
        → (text : List ℕ) × GaveAll (S.left source.old) (S.left source.new) text × IsBadLog (script_part text) (log_part text) line }
    ensures replay_fitting { is_replay (map string_bytes words.now) ≡ true → (text : List ℕ) → S.left source.old ≡ Some text → IsChecked text
        → ((line fault : ℕ) → result ≢ Status.BadScript line fault) × ((line limit : ℕ) → result ≡ Status.OverLimit line limit → line ≡ 0) }

    // At every answer but Ok and a write fault nothing was written. A log is not causal where it is legal and its entries have no
    // causal order; then the actor is the first that cannot go on, and the entry its next.
    ensures replay_silent { is_replay (map string_bytes words.now) ≡ true → OnUnwritten result (sink.new ≡ sink.old) }
    ensures not_causal { (actor : Actor) (entry : ℕ) → result ≡ Status.NotCausal actor entry → (is_replay (map string_bytes words.now) ≡ true) × (text : List ℕ)
        × GaveAll (S.left source.old) (S.left source.new) text × IsUnfollowed text actor entry }

    // What was written are the steps that lead to the record that was read, and the log of the record that they lead to, in the
    // version that was read: it is the log that was read, byte for byte. At a write fault a part was written, which is not the whole.
    ensures replayed { is_replay (map string_bytes words.now) ≡ true → result ≡ Status.Ok → (text out : List ℕ)
        × GaveAll (S.left source.old) (S.left source.new) text × IsReplayed text out × Appended (K.written sink.old) (K.written sink.new) out }
    ensures replayed_part { is_replay (map string_bytes words.now) ≡ true → (written : ℕ) → result ≡ Status.WriteFault written → (text out : List ℕ)
        × GaveAll (S.left source.old) (S.left source.new) text × IsReplayed text out × (written < length out) × Appended (K.written sink.old) (K.written sink.new) (take written out) }

    // GEN

    // Nothing is read, and no answer comes but that all was written, that a part was, or want of memory. What is written
    // is the text of the script of the seed, and at a write fault a part of it, which is not the whole.
    ensures seed_only { (seed : ℕ) → seed_in (map string_bytes words.now) ≡ Some seed → (source.new ≡ source.old) × IsEndOfGen result }
    ensures seed_ok { (seed : ℕ) → seed_in (map string_bytes words.now) ≡ Some seed → result ≡ Status.Ok
        → Appended (K.written sink.old) (K.written sink.new) (generated seed) }
    ensures seed_part { (seed : ℕ) → seed_in (map string_bytes words.now) ≡ Some seed → (written : ℕ) → result ≡ Status.WriteFault written
        → (written < length (generated seed)) × Appended (K.written sink.old) (K.written sink.new) (take written (generated seed)) }
{
    legal_records_keep_promises();
    logs_of_serial_are_lawful();
    match workers_of(words) {
        Some(workers) => play_input(rt, alloc, workers, source, sink, clock, gate),
        None => match soak_of(words) {
            Some((seed, workers)) => write_soak(rt, alloc, seed, workers, sink, gate),
            None => run_plain(alloc, words, source, sink, clock),
        },
    }
}
