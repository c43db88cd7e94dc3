ghost use Rattle.std.specs.Prelude.{◌≡◌, ◌≢◌, ◌+◌, ◌^◌, ◌<◌, ℕ, List, ◌∷◌, ◌++◌, None, Some, Bool, Err, IfOk, IfErr, OnOk, length, take, codes};
ghost use Rattle.mama_edge.specs.Count.{Rose};
ghost use Rattle.mama_edge.specs.Decimal.{decimal};
ghost use Rattle.mama_edge.specs.Told.{Appended, Lost, LostAtMost};
ghost use Rattle.mama_script.specs.Script.{ScriptData};
ghost use Rattle.mama_script.specs.Reading.{script_in};
ghost use Rattle.mama_script.specs.Tree.{IsScript, script_text};
ghost use Rattle.mama_script.specs.declared.fault.ScriptFault.TheVariants as script_fault;
ghost use Rattle.mama_record.specs.RunData.{RunData};
ghost use Rattle.mama_record.specs.LogText as texts;
ghost use Rattle.mama_log_read.specs.Logged.{HasLog, IsLogged};
ghost use Rattle.mama_words.specs.declared.version.Version.{Version};
ghost use Rattle.mama_log_read.specs.Unfit.{IsFirstUnfit, IfBad, OnlyMemory};
ghost use Rattle.mama_check.specs.declared.verdict.Actor.{Actor};
ghost use Rattle.mama_check.specs.declared.verdict.Verdict.{Verdict};
ghost use Rattle.mama_check.specs.declared.verdict.Verdict.TheVariants as verdicts;
ghost use Rattle.mama_plain.specs.Parts as parts;
ghost use Rattle.mama_plain.specs.Verdict.{IsChecked, IsVerdictOf, IsBadLog};
ghost use Rattle.mama_plain.specs.Verdict as said;
ghost use Rattle.mama_plain.specs.Judging.{IsToldBy, IsNoVerdict};
ghost use Rattle.mama_plain.specs.Unreplayed.{IsRead};
ghost use Rattle.mama_plain.specs.Causes.{answer_in};
ghost use Rattle.mama_plain.specs.Answers.{GaveAll, OnSilent};

use crate::parts::{cut_at_log, line_count};
use crate::run::MOST_INPUT;
use crate::status::{Status, script_status};
use mama_check::{Actor, Verdict, check};
use mama_edge::{ReadAll, Sink, Source, print_u64, read_all, write_all_counted};
use mama_log_read::{LogFault, parse_log};
use mama_memory::OutOfMemory;
use mama_record::RunRecord;
use mama_script::{Script, ScriptFault, first_fault_is_told, parse};
use mama_words::print_object_id;
use std::alloc::Global;

/// Why there is no verdict.
#[derive(Clone, Copy, Debug, PartialEq, Eq)]
pub enum NoVerdict {
    /// The script has a fault, or passes a limit.
    Script(ScriptFault),
    /// The first line that does not fit behind an accepted script, counted from the script's first.
    Log { line: u64 },
    /// No memory was found.
    Memory,
}

/// Judges what the source gives, which is a script, a line `log`, and a log, and writes the verdict.
pub(crate) fn judge_input<S: Source, K: Sink>(alloc: Global, source: &mut S, sink: &mut K) -> Status
    ensures words { result ≢ Status.BadWords }
    ensures read_fault { result ≡ Status.ReadFault → Rose (S.faults source.old) (S.faults source.new) }
    ensures write_fault { (written : ℕ) → result ≡ Status.WriteFault written → Rose (K.faults sink.old) (K.faults sink.new) }
    ensures read_part { result ≡ Status.ReadFault → LostAtMost (S.left source.old) (S.left source.new) 67108864 }
    ensures memory_part { result ≡ Status.OutOfMemory → LostAtMost (S.left source.old) (S.left source.new) 67108864 }
    ensures too_long { (limit : ℕ) → result ≡ Status.OverLimit 0 limit → (limit ≡ 1) × Lost (S.left source.old) (S.left source.new) 67108865 }
    ensures silent { OnSilent result (sink.new ≡ sink.old) }
    ensures causal { (actor : Actor) (entry : ℕ) → result ≢ Status.NotCausal actor entry }
    ensures bad_script { (line fault : ℕ) → result ≡ Status.BadScript line fault
        → (text : List ℕ) × GaveAll (S.left source.old) (S.left source.new) text × (script_in (parts.script_part text) ≡ Err (script_fault.Bad line fault)) }
    ensures over_limit { (line limit : ℕ) → result ≡ Status.OverLimit line limit → line ≢ 0
        → (text : List ℕ) × GaveAll (S.left source.old) (S.left source.new) text × (script_in (parts.script_part text) ≡ Err (script_fault.OverLimit line limit)) }
    ensures bad_log { (line : ℕ) → result ≡ Status.BadLog line
        → (text : List ℕ) × GaveAll (S.left source.old) (S.left source.new) text × IsBadLog (parts.script_part text) (parts.log_part text) line }
    ensures fitting { (text : List ℕ) → S.left source.old ≡ Some text → IsChecked text → (line : ℕ) → result ≢ Status.BadLog line }
    ensures fitting_script { (text : List ℕ) → S.left source.old ≡ Some text → IsChecked text
        → ((line fault : ℕ) → result ≢ Status.BadScript line fault) × ((line limit : ℕ) → result ≡ Status.OverLimit line limit → line ≡ 0) }
    ensures legal { result ≡ Status.Ok → (causal : Bool) × (text : List ℕ) × (out : List ℕ)
        × GaveAll (S.left source.old) (S.left source.new) text × IsVerdictOf text (verdicts.Legal causal) out × Appended (K.written sink.old) (K.written sink.new) out }
    ensures not_legal { (rule : ℕ) (actor : Actor) → result ≡ Status.NotLegal rule actor → (text : List ℕ) × (out : List ℕ)
        × GaveAll (S.left source.old) (S.left source.new) text × IsVerdictOf text (verdicts.NotLegal rule actor) out × Appended (K.written sink.old) (K.written sink.new) out }
    ensures part { (written : ℕ) → result ≡ Status.WriteFault written → (verdict : Verdict) × (text : List ℕ) × (out : List ℕ)
        × GaveAll (S.left source.old) (S.left source.new) text × IsVerdictOf text verdict out × (written < length out) × Appended (K.written sink.old) (K.written sink.new) (take written out) }
{
    let text = match read_all(alloc, source, MOST_INPUT) {
        Ok(text) => text,
        Err(ReadAll::ReadFault) => return Status::ReadFault,
        Err(ReadAll::TooLong) => return Status::OverLimit { line: 0, limit: 1 },
        Err(ReadAll::OutOfMemory) => return Status::OutOfMemory,
    };
    write_verdict(alloc, text, sink)
}

/// Writes the verdict on a text, which is a script, a line `log`, and a log.
fn write_verdict<K: Sink>(alloc: Global, text: Vec<u8>, sink: &mut K) -> Status
    ensures words { result ≢ Status.BadWords }
    ensures read { result ≢ Status.ReadFault }
    ensures write_fault { (written : ℕ) → result ≡ Status.WriteFault written → Rose (K.faults sink.old) (K.faults sink.new) }
    ensures bad_script { (line fault : ℕ) → result ≡ Status.BadScript line fault → script_in (parts.script_part text.items) ≡ Err (script_fault.Bad line fault) }
    ensures over_limit { (line limit : ℕ) → result ≡ Status.OverLimit line limit → (line ≢ 0) × (script_in (parts.script_part text.items) ≡ Err (script_fault.OverLimit line limit)) }
    ensures bad_log { (line : ℕ) → result ≡ Status.BadLog line → IsBadLog (parts.script_part text.items) (parts.log_part text.items) line }
    ensures fitting { IsChecked text.items → (line : ℕ) → result ≢ Status.BadLog line }
    ensures legal { result ≡ Status.Ok → (causal : Bool) × (out : List ℕ) × IsVerdictOf text.items (verdicts.Legal causal) out × Appended (K.written sink.old) (K.written sink.new) out }
    ensures not_legal { (rule : ℕ) (actor : Actor) → result ≡ Status.NotLegal rule actor → (out : List ℕ) × IsVerdictOf text.items (verdicts.NotLegal rule actor) out
        × Appended (K.written sink.old) (K.written sink.new) out }
    ensures part { (written : ℕ) → result ≡ Status.WriteFault written → (verdict : Verdict) × (out : List ℕ) × IsVerdictOf text.items verdict out
        × (written < length out) × Appended (K.written sink.old) (K.written sink.new) (take written out) }
    ensures silent { OnSilent result (sink.new ≡ sink.old) }
    ensures causal { (actor : Actor) (entry : ℕ) → result ≢ Status.NotCausal actor entry }
{
    let verdict = match verdict_of(alloc, text) {
        Ok(verdict) => verdict,
        Err(cause) => {
            first_fault_is_told();
            return status_of(cause);
        }
    };
    let out = match lines_of(alloc, verdict) {
        Ok(out) => out,
        Err(OutOfMemory) => return Status::OutOfMemory,
    };
    match write_all_counted(sink, out.as_slice()) {
        Ok(()) => answer_of(verdict),
        Err(fault) => Status::WriteFault {
            written: fault.written,
        },
    }
}

/// The answer where there is no verdict.
pub(crate) fn status_of(cause: NoVerdict) -> Status
    requires { (line limit : ℕ) → cause ≡ NoVerdict.Script (script_fault.OverLimit line limit) → line ≢ 0 }
    ensures words { result ≢ Status.BadWords }
    ensures read { result ≢ Status.ReadFault }
    ensures ok { result ≢ Status.Ok }
    ensures written { (written : ℕ) → result ≢ Status.WriteFault written }
    ensures legal { (rule : ℕ) (actor : Actor) → result ≢ Status.NotLegal rule actor }
    ensures causal { (actor : Actor) (entry : ℕ) → result ≢ Status.NotCausal actor entry }
    ensures bad { (line fault : ℕ) → result ≡ Status.BadScript line fault → cause ≡ NoVerdict.Script (script_fault.Bad line fault) }
    ensures over { (line limit : ℕ) → result ≡ Status.OverLimit line limit → (line ≢ 0) × (cause ≡ NoVerdict.Script (script_fault.OverLimit line limit)) }
    ensures log { (line : ℕ) → result ≡ Status.BadLog line → cause ≡ NoVerdict.Log line }
{
    match cause {
        NoVerdict::Script(fault) => script_status(fault),
        NoVerdict::Log { line } => Status::BadLog { line },
        NoVerdict::Memory => Status::OutOfMemory,
    }
}

/// The answer where the verdict was written.
fn answer_of(verdict: Verdict) -> Status
    ensures { result ≡ answer_in verdict }
{
    match verdict {
        Verdict::Legal { causal: _ } => Status::Ok,
        Verdict::NotLegal { rule, actor } => Status::NotLegal { rule, actor },
    }
}

/// The verdict on a text, or why there is none. The text is let go before the record is judged, which wants the most memory.
fn verdict_of(alloc: Global, text: Vec<u8>) -> Result<Verdict, NoVerdict>
    ensures verdict { IfOk result (λ verdict. IsVerdictOf text.items verdict (said.verdict_text verdict)) }
    ensures cause { IfErr result (λ cause. IsNoVerdict (parts.script_part text.items) (parts.log_part text.items) cause) }
    ensures fitting { IsChecked text.items → (line : ℕ) → result ≢ Err (NoVerdict.Log line) }
{
    let (script, run) = match read_text(alloc, text.as_slice()) {
        Ok(read) => read,
        Err(cause) => return Err(cause),
    };
    drop(text);
    match check(alloc, &script, &run) {
        Ok(verdict) => Ok(verdict),
        Err(OutOfMemory) => Err(NoVerdict::Memory),
    }
}

/// The script and the record that a text tells, or why it tells none.
fn read_text(alloc: Global, text: &[u8]) -> Result<(Script, RunRecord), NoVerdict>
    ensures read { IfOk result (λ read. IsToldBy text.now read.0 read.1) }
    ensures cause { IfErr result (λ cause. IsNoVerdict (parts.script_part text.now) (parts.log_part text.now) cause) }
    ensures fitting { IsChecked text.now → (line : ℕ) → result ≢ Err (NoVerdict.Log line) }
{
    match cut_at_log(text) {
        Some((front, log)) => read_parts(alloc, front, log),
        None => Err(without_log(alloc, text)),
    }
}

/// Why there is no verdict on a text that has no line `log`.
pub(crate) fn without_log(alloc: Global, text: &[u8]) -> NoVerdict
    ensures { IsNoVerdict text.now None result }
{
    match parse(alloc, text) {
        Ok(_) => NoVerdict::Log {
            line: line_count(text) + 1,
        },
        Err(fault) => NoVerdict::Script(fault),
    }
}

/// The script and the record, where a log stands behind the lines of a script.
fn read_parts(alloc: Global, front: &[u8], log: &[u8]) -> Result<(Script, RunRecord), NoVerdict>
    requires { length front.now + length log.now + 2 < 2 ^ 64 }
    ensures read { IfOk result (λ read. IsToldBy (front.now ++ (texts.line (codes "log") ++ log.now)) read.0 read.1) }
    ensures cause { IfErr result (λ cause. IsNoVerdict front.now (Some log.now) cause) }
    ensures fitting { (script : ScriptData) (run : RunData) → IsScript script → front.now ≡ script_text script → IsLogged script run
        → (v : Version) → HasLog script v → log.now ≡ texts.log_text v script.shape run → (line : ℕ) → result ≢ Err (NoVerdict.Log line) }
{
    let script = match parse(alloc, front) {
        Ok(script) => script,
        Err(fault) => return Err(NoVerdict::Script(fault)),
    };
    match told_by(alloc, &script, log) {
        Ok(run) => Ok((script, run)),
        Err(LogFault::Bad { line }) => Err(NoVerdict::Log {
            line: line_count(front) + 1 + line,
        }),
        Err(LogFault::OutOfMemory) => Err(NoVerdict::Memory),
    }
}

/// The record that a log of a script tells, or the first line of the log that does not fit.
pub(crate) fn told_by(alloc: Global, script: &Script, log: &[u8]) -> Result<RunRecord, LogFault>
    ensures read { IfOk result (IsRead script.now log.now) }
    ensures unfit { IfErr result (λ fault. IfBad fault (IsFirstUnfit script.now log.now)) }
    ensures fitting { (v : Version) (run : RunData) → HasLog script.now v → IsLogged script.now run → log.now ≡ texts.log_text v script.now.shape run → IfErr result OnlyMemory }
{
    match parse_log(alloc, script, log) {
        Ok(run) => Ok(run),
        Err(fault) => Err(fault),
    }
}

/// The lines of a verdict.
fn lines_of(alloc: Global, verdict: Verdict) -> Result<Vec<u8>, OutOfMemory>
    ensures { IfOk result (λ out. out.items ≡ said.verdict_text verdict) }
{
    match verdict {
        Verdict::Legal { causal: true } => Ok(Vec::from_slice(alloc, b"legal\ncausal yes\n")?),
        Verdict::Legal { causal: false } => Ok(Vec::from_slice(alloc, b"legal\ncausal no\n")?),
        Verdict::NotLegal { rule, actor } => line_of_breach(alloc, rule, actor),
    }
}

/// The line that names the rule that is broken, and who breaks it.
fn line_of_breach(alloc: Global, rule: u8, actor: Actor) -> Result<Vec<u8>, OutOfMemory>
    ensures { IfOk result (λ out. out.items ≡ said.verdict_text (verdicts.NotLegal rule actor)) }
{
    let mut out = Vec::from_slice(alloc, b"not legal L")?;
    print_u64(u64::from(rule), &mut out)?;
    out.push(b' ')?;
    put_actor(actor, &mut out)?;
    out.push(b'\n')?;
    Ok(out)
}

/// Appends the name of an actor.
pub(crate) fn put_actor(actor: Actor, out: &mut Vec<u8>) -> Result<(), OutOfMemory>
    ensures { OnOk result (out.new.items ≡ out.old.items ++ said.actor_text actor) }
{
    match actor {
        Actor::Client(number) => put_numbered(b'c', number, out),
        Actor::Publisher(number) => put_numbered(b'p', number, out),
        Actor::Bridge => Ok(out.push(b'b')?),
        Actor::Timers => Ok(out.push(b't')?),
        Actor::Queue(number) => put_numbered(b'q', number, out),
        Actor::Object(object) => print_object_id(object, out),
        Actor::Group(number) => put_numbered(b'g', number, out),
        Actor::Watch(number) => put_numbered(b'w', number, out),
    }
}

/// Appends a letter and a number.
fn put_numbered(letter: u8, number: u32, out: &mut Vec<u8>) -> Result<(), OutOfMemory>
    ensures { OnOk result (out.new.items ≡ out.old.items ++ letter ∷ decimal number) }
{
    out.push(letter)?;
    print_u64(u64::from(number), out)
}
