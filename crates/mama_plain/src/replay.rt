ghost use Rattle.std.specs.Prelude.{◌≡◌, ◌≢◌, ◌+◌, ◌^◌, ◌<◌, ℕ, List, ◌++◌, Some, None, Err, IfOk, IfErr, length, take, codes};
ghost use Rattle.mama_edge.specs.Count.{Rose};
ghost use Rattle.mama_edge.specs.Told.{Appended, Lost, LostAtMost};
ghost use Rattle.mama_event.specs.declared.shape.Shape.{Shape as ShapeData};
ghost use Rattle.mama_words.specs.declared.version.Version.{Version};
ghost use Rattle.mama_script.specs.Script.{ScriptData};
ghost use Rattle.mama_script.specs.Tree.{IsScript, script_text};
ghost use Rattle.mama_script.specs.Reading.{script_in};
ghost use Rattle.mama_script.specs.declared.fault.ScriptFault.TheVariants as script_fault;
ghost use Rattle.mama_record.specs.RunData.{RunData};
ghost use Rattle.mama_record.specs.LogText as texts;
ghost use Rattle.mama_log_read.specs.Logged.{HasLog, IsLogged};
ghost use Rattle.mama_rules_legal.specs.Form.{IsFormed};
ghost use Rattle.mama_rules_legal.specs.Legal.{IsLegal};
ghost use Rattle.mama_check.specs.declared.verdict.Actor.{Actor};
ghost use Rattle.mama_check.specs.declared.verdict.Verdict.TheVariants as verdicts;
ghost use Rattle.mama_plain.specs.Parts as parts;
ghost use Rattle.mama_plain.specs.Verdict.{IsChecked, IsVerdictOf, IsBadLog};
ghost use Rattle.mama_plain.specs.Answers.{GaveAll, OnUnwritten};
ghost use Rattle.mama_plain.specs.Replayed.{IsReplayed, IsUnfollowed, steps_text};
ghost use Rattle.mama_plain.specs.Unreplayed.{begins_in_two, IsFollowed, IsFollowedBy, IsNotFollowed, IsNoReplay};

use crate::check::{NoVerdict, status_of, told_by, without_log};
use crate::parts::{cut_at_log, line_count};
use crate::run::MOST_INPUT;
use crate::status::Status;
use crate::steps::put_steps;
use mama_check::{Actor, Verdict, check};
use mama_edge::{ReadAll, Sink, Source, read_all, write_all_counted};
use mama_log_read::LogFault;
use mama_memory::OutOfMemory;
use mama_record::{RunRecord, print_log};
use mama_replay::{ReplayFault, Step, replay};
use mama_script::{Script, first_fault_is_told, parse};
use mama_words::Version;
use std::alloc::Global;

/// Why there is nothing to write of a log that was to be followed.
#[derive(Clone, Copy, Debug, PartialEq, Eq)]
pub enum NoReplay {
    /// There is no verdict on it.
    Text(NoVerdict),
    /// It is not legal: the first rule that is broken, and the first actor that breaks it.
    NotLegal { rule: u8, actor: Actor },
    /// Its entries have no causal order: the first actor that cannot go on, and its next entry.
    NotCausal { actor: Actor, entry: u32 },
}

/// Follows what the source gives, which is a script, a line `log`, and a log, and writes the steps and the log.
pub(crate) fn replay_input<S: Source, K: Sink>(
    alloc: Global,
    source: &mut S,
    sink: &mut K,
) -> Status
    ensures words { result ≢ Status.BadWords }
    ensures read_fault { result ≡ Status.ReadFault → Rose (S.faults source.old) (S.faults source.new) }
    ensures write_fault { (written : ℕ) → result ≡ Status.WriteFault written → Rose (K.faults sink.old) (K.faults sink.new) }
    ensures read_part { result ≡ Status.ReadFault → LostAtMost (S.left source.old) (S.left source.new) 67108864 }
    ensures memory_part { result ≡ Status.OutOfMemory → LostAtMost (S.left source.old) (S.left source.new) 67108864 }
    ensures too_long { (limit : ℕ) → result ≡ Status.OverLimit 0 limit → (limit ≡ 1) × Lost (S.left source.old) (S.left source.new) 67108865 }
    ensures silent { OnUnwritten result (sink.new ≡ sink.old) }
    ensures bad_script { (line fault : ℕ) → result ≡ Status.BadScript line fault
        → (text : List ℕ) × GaveAll (S.left source.old) (S.left source.new) text × (script_in (parts.script_part text) ≡ Err (script_fault.Bad line fault)) }
    ensures over_limit { (line limit : ℕ) → result ≡ Status.OverLimit line limit → line ≢ 0
        → (text : List ℕ) × GaveAll (S.left source.old) (S.left source.new) text × (script_in (parts.script_part text) ≡ Err (script_fault.OverLimit line limit)) }
    ensures bad_log { (line : ℕ) → result ≡ Status.BadLog line
        → (text : List ℕ) × GaveAll (S.left source.old) (S.left source.new) text × IsBadLog (parts.script_part text) (parts.log_part text) line }
    ensures fitting { (text : List ℕ) → S.left source.old ≡ Some text → IsChecked text → (line : ℕ) → result ≢ Status.BadLog line }
    ensures fitting_script { (text : List ℕ) → S.left source.old ≡ Some text → IsChecked text
        → ((line fault : ℕ) → result ≢ Status.BadScript line fault) × ((line limit : ℕ) → result ≡ Status.OverLimit line limit → line ≡ 0) }
    ensures not_legal { (rule : ℕ) (actor : Actor) → result ≡ Status.NotLegal rule actor → (text out : List ℕ)
        × GaveAll (S.left source.old) (S.left source.new) text × IsVerdictOf text (verdicts.NotLegal rule actor) out }
    ensures not_causal { (actor : Actor) (entry : ℕ) → result ≡ Status.NotCausal actor entry → (text : List ℕ)
        × GaveAll (S.left source.old) (S.left source.new) text × IsUnfollowed text actor entry }
    ensures ok { result ≡ Status.Ok → (text out : List ℕ) × GaveAll (S.left source.old) (S.left source.new) text × IsReplayed text out
        × Appended (K.written sink.old) (K.written sink.new) out }
    ensures part { (written : ℕ) → result ≡ Status.WriteFault written → (text out : List ℕ) × GaveAll (S.left source.old) (S.left source.new) text
        × IsReplayed text out × (written < length out) × Appended (K.written sink.old) (K.written sink.new) (take written out) }
{
    let text = match read_all(alloc, source, MOST_INPUT) {
        Ok(text) => text,
        Err(ReadAll::ReadFault) => return Status::ReadFault,
        Err(ReadAll::TooLong) => return Status::OverLimit { line: 0, limit: 1 },
        Err(ReadAll::OutOfMemory) => return Status::OutOfMemory,
    };
    write_replay(alloc, text.as_slice(), sink)
}

/// Follows a text, and writes the steps and the log.
fn write_replay<K: Sink>(alloc: Global, text: &[u8], sink: &mut K) -> Status
    ensures words { result ≢ Status.BadWords }
    ensures read { result ≢ Status.ReadFault }
    ensures write_fault { (written : ℕ) → result ≡ Status.WriteFault written → Rose (K.faults sink.old) (K.faults sink.new) }
    ensures silent { OnUnwritten result (sink.new ≡ sink.old) }
    ensures bad_script { (line fault : ℕ) → result ≡ Status.BadScript line fault → script_in (parts.script_part text.now) ≡ Err (script_fault.Bad line fault) }
    ensures over_limit { (line limit : ℕ) → result ≡ Status.OverLimit line limit → (line ≢ 0) × (script_in (parts.script_part text.now) ≡ Err (script_fault.OverLimit line limit)) }
    ensures bad_log { (line : ℕ) → result ≡ Status.BadLog line → IsBadLog (parts.script_part text.now) (parts.log_part text.now) line }
    ensures fitting { IsChecked text.now → (line : ℕ) → result ≢ Status.BadLog line }
    ensures not_legal { (rule : ℕ) (actor : Actor) → result ≡ Status.NotLegal rule actor → (out : List ℕ) × IsVerdictOf text.now (verdicts.NotLegal rule actor) out }
    ensures not_causal { (actor : Actor) (entry : ℕ) → result ≡ Status.NotCausal actor entry → IsUnfollowed text.now actor entry }
    ensures ok { result ≡ Status.Ok → (out : List ℕ) × IsReplayed text.now out × Appended (K.written sink.old) (K.written sink.new) out }
    ensures part { (written : ℕ) → result ≡ Status.WriteFault written → (out : List ℕ) × IsReplayed text.now out × (written < length out)
        × Appended (K.written sink.old) (K.written sink.new) (take written out) }
{
    let out = match text_replayed(alloc, text) {
        Ok(out) => out,
        Err(cause) => {
            first_fault_is_told();
            return status_without(cause);
        }
    };
    match write_all_counted(sink, out.as_slice()) {
        Ok(()) => Status::Ok,
        Err(fault) => Status::WriteFault {
            written: fault.written,
        },
    }
}

/// The answer where there is nothing to write.
fn status_without(cause: NoReplay) -> Status
    requires { (line limit : ℕ) → cause ≡ NoReplay.Text (NoVerdict.Script (script_fault.OverLimit line limit)) → line ≢ 0 }
    ensures words { result ≢ Status.BadWords }
    ensures read { result ≢ Status.ReadFault }
    ensures ok { result ≢ Status.Ok }
    ensures written { (written : ℕ) → result ≢ Status.WriteFault written }
    ensures bad { (line fault : ℕ) → result ≡ Status.BadScript line fault → cause ≡ NoReplay.Text (NoVerdict.Script (script_fault.Bad line fault)) }
    ensures over { (line limit : ℕ) → result ≡ Status.OverLimit line limit → (line ≢ 0) × (cause ≡ NoReplay.Text (NoVerdict.Script (script_fault.OverLimit line limit))) }
    ensures log { (line : ℕ) → result ≡ Status.BadLog line → cause ≡ NoReplay.Text (NoVerdict.Log line) }
    ensures legal { (rule : ℕ) (actor : Actor) → result ≡ Status.NotLegal rule actor → cause ≡ NoReplay.NotLegal rule actor }
    ensures causal { (actor : Actor) (entry : ℕ) → result ≡ Status.NotCausal actor entry → cause ≡ NoReplay.NotCausal actor entry }
{
    match cause {
        NoReplay::Text(cause) => status_of(cause),
        NoReplay::NotLegal { rule, actor } => Status::NotLegal { rule, actor },
        NoReplay::NotCausal { actor, entry } => Status::NotCausal { actor, entry },
    }
}

/// The steps and the log of a text, or why there are none.
fn text_replayed(alloc: Global, text: &[u8]) -> Result<Vec<u8>, NoReplay>
    ensures out { IfOk result (λ out. IsReplayed text.now out.items) }
    ensures cause { IfErr result (λ cause. IsNoReplay text.now (parts.script_part text.now) (parts.log_part text.now) cause) }
    ensures fitting { IsChecked text.now → (line : ℕ) → result ≢ Err (NoReplay.Text (NoVerdict.Log line)) }
{
    match cut_at_log(text) {
        Some((front, log)) => log_replayed(alloc, front, log),
        None => Err(NoReplay::Text(without_log(alloc, text))),
    }
}

/// The steps and the log, where a log stands behind the lines of a script.
fn log_replayed(alloc: Global, front: &[u8], log: &[u8]) -> Result<Vec<u8>, NoReplay>
    requires { length front.now + length log.now + 2 < 2 ^ 64 }
    ensures out { IfOk result (λ out. IsReplayed (front.now ++ (texts.line (codes "log") ++ log.now)) out.items) }
    ensures cause { IfErr result (λ cause. IsNoReplay (front.now ++ (texts.line (codes "log") ++ log.now)) front.now (Some log.now) cause) }
    ensures fitting { (script : ScriptData) (run : RunData) → IsScript script → front.now ≡ script_text script → IsLogged script run
        → (v : Version) → HasLog script v → log.now ≡ texts.log_text v script.shape run → (line : ℕ) → result ≢ Err (NoReplay.Text (NoVerdict.Log line)) }
{
    let script = match parse(alloc, front) {
        Ok(script) => script,
        Err(fault) => return Err(NoReplay::Text(NoVerdict::Script(fault))),
    };
    match told_by(alloc, &script, log) {
        Ok(run) => run_replayed(alloc, &script, &run, version_of(log)),
        Err(LogFault::Bad { line }) => Err(NoReplay::Text(NoVerdict::Log {
            line: line_count(front) + 1 + line,
        })),
        Err(LogFault::OutOfMemory) => Err(NoReplay::Text(NoVerdict::Memory)),
    }
}

/// The steps that lead to a record, and the log of the record that they lead to in a version, or why there are none.
fn run_replayed(
    alloc: Global,
    script: &Script,
    run: &RunRecord,
    version: Version,
) -> Result<Vec<u8>, NoReplay>
    requires { IsFormed script.now run.now }
    ensures out { IfOk result (λ out. IsFollowedBy script.now run.now version out.items) }
    ensures cause { IfErr result (λ cause. IsNotFollowed script.now run.now cause) }
{
    let (steps, record) = match follow(alloc, script, run) {
        Ok(made) => made,
        Err(cause) => return Err(cause),
    };
    match print_replay(alloc, script, steps.as_slice(), &record, version) {
        Ok(out) => Ok(out),
        Err(OutOfMemory) => Err(NoReplay::Text(NoVerdict::Memory)),
    }
}

/// The steps that lead to a record, and the record that they lead to, where it is legal and has a causal order.
fn follow(
    alloc: Global,
    script: &Script,
    run: &RunRecord,
) -> Result<(Vec<Step>, RunRecord), NoReplay>
    requires { IsFormed script.now run.now }
    ensures made { IfOk result (λ made. IsFollowed script.now run.now made.0.items made.1) }
    ensures cause { IfErr result (λ cause. IsNotFollowed script.now run.now cause) }
{
    match check(alloc, script, run) {
        Ok(Verdict::Legal { causal: _ }) => follow_legal(alloc, script, run),
        Ok(Verdict::NotLegal { rule, actor }) => Err(NoReplay::NotLegal { rule, actor }),
        Err(OutOfMemory) => Err(NoReplay::Text(NoVerdict::Memory)),
    }
}

/// The same of a legal record.
fn follow_legal(
    alloc: Global,
    script: &Script,
    run: &RunRecord,
) -> Result<(Vec<Step>, RunRecord), NoReplay>
    requires { IsLegal script.now run.now }
    ensures made { IfOk result (λ made. IsFollowed script.now run.now made.0.items made.1) }
    ensures cause { IfErr result (λ cause. IsNotFollowed script.now run.now cause) }
{
    match replay(alloc, script, run) {
        Ok(made) => Ok(made),
        Err(ReplayFault::NotCausal { actor, entry }) => Err(NoReplay::NotCausal { actor, entry }),
        Err(ReplayFault::OutOfMemory) => Err(NoReplay::Text(NoVerdict::Memory)),
    }
}

/// The version of a log, which its first line tells.
#[tactic(auto, using(crate::proofs::ReplayLemmas::one_told, crate::proofs::ReplayLemmas::two_told))]
fn version_of(log: &[u8]) -> Version
    ensures { (v : Version) (shape : ShapeData) (run : RunData) → log.now ≡ texts.log_text v shape run → result ≡ v }
{
    if is_in_two(log) {
        Version::Two
    } else {
        Version::One
    }
}

/// Whether a log begins as those of version 2.
fn is_in_two(log: &[u8]) -> bool
    ensures { result ≡ begins_in_two log.now }
{
    log.starts_with(b"mama log 2")
}

/// A line for each step, and the log of a record.
fn print_replay(
    alloc: Global,
    script: &Script,
    steps: &[Step],
    run: &RunRecord,
    version: Version,
) -> Result<Vec<u8>, OutOfMemory>
    ensures { IfOk result (λ out. out.items ≡ steps_text script.now.shape steps.now ++ texts.log_text version script.now.shape run.now) }
{
    let mut out = Vec::new(alloc);
    put_steps(script.shape(), steps, &mut out)?;
    let log = print_log(alloc, script.shape(), run, version)?;
    out.extend_from_slice(&log)?;
    Ok(out)
}
