ghost use Rattle.std.specs.Prelude.{◌≡◌, ◌≢◌, ◌+◌, ◌^◌, ◌<◌, ℕ, List, ◌++◌, Some, None, Err, IfOk, IfErr, length, take, codes};
ghost use Rattle.mama_edge.specs.Count.{Rose};
ghost use Rattle.mama_edge.specs.Told.{Appended, Lost, LostAtMost};
ghost use Rattle.mama_script.specs.Script.{ScriptData};
ghost use Rattle.mama_script.specs.Reading.{script_in};
ghost use Rattle.mama_script.specs.Tree.{IsScript, script_text, in_two};
ghost use Rattle.mama_script.specs.declared.fault.ScriptFault.TheVariants as script_fault;
ghost use Rattle.mama_words.specs.declared.version.Version.{Version};
ghost use Rattle.mama_words.specs.declared.version.Version.TheVariants.{Two};
ghost use Rattle.mama_record.specs.RunData.{RunData};
ghost use Rattle.mama_record.specs.LogText as texts;
ghost use Rattle.mama_log_read.specs.Logged.{HasLog, IsLogged};
ghost use Rattle.mama_log_read.specs.Unfit.{IsFirstUnfit, IfBad, OnlyMemory};
ghost use Rattle.mama_check.specs.declared.verdict.Actor.{Actor};
ghost use Rattle.mama_plain.specs.Parts as parts;
ghost use Rattle.mama_plain.specs.Verdict.{IsBadLog};
ghost use Rattle.mama_plain.specs.Judging.{IsNoVerdict};
ghost use Rattle.mama_plain.specs.Answers.{GaveAll, OnSilent};
ghost use Rattle.mama_plain.specs.Rewritten.{IsInTwo, IsTaken};

use crate::check::{NoVerdict, status_of};
use crate::parts::{cut_at_log, line_count};
use crate::run::MOST_INPUT;
use crate::status::Status;
use mama_edge::{ReadAll, Sink, Source, read_all, write_all_counted};
use mama_log_read::{LogFault, parse_log};
use mama_memory::OutOfMemory;
use mama_record::{RunRecord, print_log};
use mama_script::{Script, first_fault_is_told, parse, print};
use mama_words::Version;
use std::alloc::Global;

/// Writes in version 2 what the source gives, which is a script, or a script, a line `log`, and a log.
pub(crate) fn rewrite_input<S: Source, K: Sink>(
    alloc: Global,
    source: &mut S,
    sink: &mut K,
) -> Status
    ensures words { result ≢ Status.BadWords }
    ensures read_fault { result ≡ Status.ReadFault → Rose (S.faults source.old) (S.faults source.new) }
    ensures write_fault { (written : ℕ) → result ≡ Status.WriteFault written → Rose (K.faults sink.old) (K.faults sink.new) }
    ensures read_part { result ≡ Status.ReadFault → LostAtMost (S.left source.old) (S.left source.new) 67108864 }
    ensures memory_part { result ≡ Status.OutOfMemory → LostAtMost (S.left source.old) (S.left source.new) 67108864 }
    ensures too_long { (limit : ℕ) → result ≡ Status.OverLimit 0 limit → (limit ≡ 1) × Lost (S.left source.old) (S.left source.new) 67108865 }
    ensures silent { OnSilent result (sink.new ≡ sink.old) }
    ensures not_legal { (rule : ℕ) (actor : Actor) → result ≢ Status.NotLegal rule actor }
    ensures causal { (actor : Actor) (entry : ℕ) → result ≢ Status.NotCausal actor entry }
    ensures bad_script { (line fault : ℕ) → result ≡ Status.BadScript line fault
        → (text : List ℕ) × GaveAll (S.left source.old) (S.left source.new) text × (script_in (parts.script_part text) ≡ Err (script_fault.Bad line fault)) }
    ensures over_limit { (line limit : ℕ) → result ≡ Status.OverLimit line limit → line ≢ 0
        → (text : List ℕ) × GaveAll (S.left source.old) (S.left source.new) text × (script_in (parts.script_part text) ≡ Err (script_fault.OverLimit line limit)) }
    ensures bad_log { (line : ℕ) → result ≡ Status.BadLog line → (text log : List ℕ) × GaveAll (S.left source.old) (S.left source.new) text
        × (parts.log_part text ≡ Some log) × IsBadLog (parts.script_part text) (Some log) line }
    ensures fitting { (text : List ℕ) → S.left source.old ≡ Some text → IsTaken text → (line : ℕ) → result ≢ Status.BadLog line }
    ensures fitting_script { (text : List ℕ) → S.left source.old ≡ Some text → IsTaken text
        → ((line fault : ℕ) → result ≢ Status.BadScript line fault) × ((line limit : ℕ) → result ≡ Status.OverLimit line limit → line ≡ 0) }
    ensures ok { result ≡ Status.Ok → (text out : List ℕ) × GaveAll (S.left source.old) (S.left source.new) text × IsInTwo text out
        × Appended (K.written sink.old) (K.written sink.new) out }
    ensures part { (written : ℕ) → result ≡ Status.WriteFault written → (text out : List ℕ) × GaveAll (S.left source.old) (S.left source.new) text
        × IsInTwo text out × (written < length out) × Appended (K.written sink.old) (K.written sink.new) (take written out) }
{
    let text = match read_all(alloc, source, MOST_INPUT) {
        Ok(text) => text,
        Err(ReadAll::ReadFault) => return Status::ReadFault,
        Err(ReadAll::TooLong) => return Status::OverLimit { line: 0, limit: 1 },
        Err(ReadAll::OutOfMemory) => return Status::OutOfMemory,
    };
    write_in_two(alloc, text.as_slice(), sink)
}

/// Writes a text in version 2.
fn write_in_two<K: Sink>(alloc: Global, text: &[u8], sink: &mut K) -> Status
    ensures words { result ≢ Status.BadWords }
    ensures read { result ≢ Status.ReadFault }
    ensures write_fault { (written : ℕ) → result ≡ Status.WriteFault written → Rose (K.faults sink.old) (K.faults sink.new) }
    ensures silent { OnSilent result (sink.new ≡ sink.old) }
    ensures not_legal { (rule : ℕ) (actor : Actor) → result ≢ Status.NotLegal rule actor }
    ensures causal { (actor : Actor) (entry : ℕ) → result ≢ Status.NotCausal actor entry }
    ensures bad_script { (line fault : ℕ) → result ≡ Status.BadScript line fault → script_in (parts.script_part text.now) ≡ Err (script_fault.Bad line fault) }
    ensures over_limit { (line limit : ℕ) → result ≡ Status.OverLimit line limit → (line ≢ 0) × (script_in (parts.script_part text.now) ≡ Err (script_fault.OverLimit line limit)) }
    ensures bad_log { (line : ℕ) → result ≡ Status.BadLog line → (log : List ℕ) × (parts.log_part text.now ≡ Some log) × IsBadLog (parts.script_part text.now) (Some log) line }
    ensures fitting { IsTaken text.now → (line : ℕ) → result ≢ Status.BadLog line }
    ensures ok { result ≡ Status.Ok → (out : List ℕ) × IsInTwo text.now out × Appended (K.written sink.old) (K.written sink.new) out }
    ensures part { (written : ℕ) → result ≡ Status.WriteFault written → (out : List ℕ) × IsInTwo text.now out × (written < length out)
        × Appended (K.written sink.old) (K.written sink.new) (take written out) }
{
    let out = match text_in_two(alloc, text) {
        Ok(out) => out,
        Err(cause) => {
            first_fault_is_told();
            return status_of(cause);
        }
    };
    match write_all_counted(sink, out.as_slice()) {
        Ok(()) => Status::Ok,
        Err(fault) => Status::WriteFault {
            written: fault.written,
        },
    }
}

/// A text in version 2, or why there is none.
fn text_in_two(alloc: Global, text: &[u8]) -> Result<Vec<u8>, NoVerdict>
    ensures written { IfOk result (λ out. IsInTwo text.now out.items) }
    ensures cause { IfErr result (λ cause. IsNoVerdict (parts.script_part text.now) (parts.log_part text.now) cause) }
    ensures alone { parts.log_part text.now ≡ None → (line : ℕ) → result ≢ Err (NoVerdict.Log line) }
    ensures fitting { IsTaken text.now → (line : ℕ) → result ≢ Err (NoVerdict.Log line) }
{
    match cut_at_log(text) {
        Some((front, log)) => both_in_two(alloc, front, log),
        None => script_in_two(alloc, text),
    }
}

/// The text of a script in version 2.
fn script_in_two(alloc: Global, text: &[u8]) -> Result<Vec<u8>, NoVerdict>
    ensures written { IfOk result (λ out. (script : ScriptData) × IsScript script × (text.now ≡ script_text script) × (out.items ≡ script_text (in_two script))) }
    ensures cause { IfErr result (λ cause. IsNoVerdict text.now None cause) }
    ensures alone { (line : ℕ) → result ≢ Err (NoVerdict.Log line) }
{
    let script = match parse(alloc, text) {
        Ok(script) => script.into_two(),
        Err(fault) => return Err(NoVerdict::Script(fault)),
    };
    match print(alloc, &script) {
        Ok(out) => Ok(out),
        Err(OutOfMemory) => Err(NoVerdict::Memory),
    }
}

/// A script and its log in version 2, with the line `log` between them.
fn both_in_two(alloc: Global, front: &[u8], log: &[u8]) -> Result<Vec<u8>, NoVerdict>
    requires { length front.now + length log.now + 2 < 2 ^ 64 }
    ensures written { IfOk result (λ out. (script : ScriptData) × IsScript script × (front.now ≡ script_text script) × (run : RunData) × IsLogged script run
        × (v : Version) × HasLog script v × (log.now ≡ texts.log_text v script.shape run)
        × (out.items ≡ script_text (in_two script) ++ (texts.line (codes "log") ++ texts.log_text Two script.shape run))) }
    ensures cause { IfErr result (λ cause. IsNoVerdict front.now (Some log.now) cause) }
    ensures fitting { (script : ScriptData) (run : RunData) → IsScript script → front.now ≡ script_text script → IsLogged script run
        → (v : Version) → HasLog script v → log.now ≡ texts.log_text v script.shape run → (line : ℕ) → result ≢ Err (NoVerdict.Log line) }
{
    let script = match parse(alloc, front) {
        Ok(script) => script,
        Err(fault) => return Err(NoVerdict::Script(fault)),
    };
    match log_in_two(alloc, script, log) {
        Ok(out) => Ok(out),
        Err(LogFault::Bad { line }) => Err(NoVerdict::Log {
            line: line_count(front) + 1 + line,
        }),
        Err(LogFault::OutOfMemory) => Err(NoVerdict::Memory),
    }
}

/// A script and the record of its log in version 2, or the first line of the log that does not fit.
fn log_in_two(alloc: Global, script: Script, log: &[u8]) -> Result<Vec<u8>, LogFault>
    ensures written { IfOk result (λ out. (run : RunData) × IsLogged script run × (v : Version) × HasLog script v × (log.now ≡ texts.log_text v script.shape run)
        × (out.items ≡ script_text (in_two script) ++ (texts.line (codes "log") ++ texts.log_text Two script.shape run))) }
    ensures unfit { IfErr result (λ fault. IfBad fault (IsFirstUnfit script log.now)) }
    ensures fitting { (v : Version) (run : RunData) → HasLog script v → IsLogged script run → log.now ≡ texts.log_text v script.shape run → IfErr result OnlyMemory }
{
    let run = match parse_log(alloc, &script, log) {
        Ok(run) => run,
        Err(fault) => return Err(fault),
    };
    match print_both(alloc, &script.into_two(), &run) {
        Ok(out) => Ok(out),
        Err(OutOfMemory) => Err(LogFault::OutOfMemory),
    }
}

/// The text of a script, the line `log`, and the log of a record in version 2.
fn print_both(alloc: Global, script: &Script, run: &RunRecord) -> Result<Vec<u8>, OutOfMemory>
    ensures { IfOk result (λ out. out.items ≡ script_text script.now ++ (texts.line (codes "log") ++ texts.log_text Two script.now.shape run.now)) }
{
    let mut out = print(alloc, script)?;
    let log = print_log(alloc, script.shape(), run, Version::Two)?;
    out.extend_from_slice(b"log\n")?;
    out.extend_from_slice(&log)?;
    Ok(out)
}
