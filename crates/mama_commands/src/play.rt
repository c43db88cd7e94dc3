ghost use Rattle.std.specs.Prelude.{List, ℕ, ◌≡◌, ◌≤◌, ◌⊎◌, length, Err, IfOk, IfErr};
ghost use Rattle.mama_edge.specs.Count.{Rose};
ghost use Rattle.mama_script.specs.Tree.{IsScript, script_text};
ghost use Rattle.mama_plain.specs.Answers.{GaveAll, IsAccepted, OnUnplayed, OnSilent};
ghost use Rattle.mama_commands.specs.Played.{IsPlay, IsPlayLogOf};
ghost use Rattle.mama_commands.specs.Ending.{IsFaulty, IsRefusal, IsEndOfPlay};

use mama_carry::PlanMaker;
use mama_check::legal_records_are_formed;
use mama_edge::{Clock, Gate, ReadAll, Sink, Source, read_all, write_all_counted};
use mama_laws_logged::{legal_records_are_logged, log_fits, logs_tell_one_record, moments_fit};
use mama_memory::OutOfMemory;
use mama_plain::{MOST_INPUT, Status, legal_records_keep_promises};
use mama_record::{RunRecord, print_log};
use mama_script::{Script, ScriptFault, first_fault_is_told, parse};
use std::alloc::Global;
use std::sync::Wait;
use std::thread::Threads;

/// Plays the script that the source gives on threads, and writes its log.
pub(crate) fn play_input<
    S: Source,
    K: Sink,
    C: Clock + Send,
    G: Gate + Sync,
    Rt: Threads + Wait + Copy + Drop + Send + Sync,
>(
    rt: &Rt,
    alloc: Global,
    workers: u32,
    source: &mut S,
    sink: &mut K,
    clock: &mut C,
    gate: &G,
) -> Status
    requires { (1 ≤ workers) × (workers ≤ 64) }
    ensures end { IsEndOfPlay (S.left source.old) (S.left source.new) (K.written sink.old) (K.written sink.new) result }
    ensures read_fault { result ≡ Status.ReadFault → Rose (S.faults source.old) (S.faults source.new) }
    ensures write_fault { (written : ℕ) → result ≡ Status.WriteFault written → Rose (K.faults sink.old) (K.faults sink.new) }
    ensures silent { OnSilent result (sink.new ≡ sink.old) }
    ensures unplayed { OnUnplayed result (clock.new ≡ clock.old) }
    ensures called { (clock.new ≡ clock.old) ⊎ ((text : List ℕ) × GaveAll (S.left source.old) (S.left source.new) text × IsAccepted text) }
{
    let script = match script_of(alloc, source) {
        Ok(script) => script,
        Err(status) => return status,
    };
    let log = match log_of(rt, alloc, &script, clock, gate, workers) {
        Ok(log) => log,
        Err(OutOfMemory) => return Status::OutOfMemory,
    };
    match write_all_counted(sink, log.as_slice()) {
        Ok(()) => Status::Ok,
        Err(fault) => Status::WriteFault {
            written: fault.written,
        },
    }
}

/// The script that the source gives, or the answer where there is none.
fn script_of<S: Source>(alloc: Global, source: &mut S) -> Result<Script, Status>
    ensures accepted { IfOk result (λ script. IsScript script) }
    ensures given { IfOk result (λ script. GaveAll (S.left source.old) (S.left source.new) (script_text script)) }
    ensures refusal { IfErr result (λ status. IsRefusal (S.left source.old) (S.left source.new) status) }
    ensures read_fault { result ≡ Err Status.ReadFault → Rose (S.faults source.old) (S.faults source.new) }
{
    let text = match read_all(alloc, source, MOST_INPUT) {
        Ok(text) => text,
        Err(ReadAll::ReadFault) => return Err(Status::ReadFault),
        Err(ReadAll::TooLong) => return Err(Status::OverLimit { line: 0, limit: 1 }),
        Err(ReadAll::OutOfMemory) => return Err(Status::OutOfMemory),
    };
    match read_script(alloc, text.as_slice()) {
        Ok(script) => Ok(script),
        Err(status) => Err(status),
    }
}

/// The script that a text spells, or the answer where there is none. Only the input as a whole has line 0.
fn read_script(alloc: Global, text: &[u8]) -> Result<Script, Status>
    ensures accepted { IfOk result (λ script. IsScript script) }
    ensures spelled { IfOk result (λ script. text.now ≡ script_text script) }
    ensures faulty { IfErr result (λ status. IsFaulty text.now status) }
{
    match parse(alloc, text) {
        Ok(script) => Ok(script),
        Err(ScriptFault::Bad { line, fault }) => Err(Status::BadScript { line, fault }),
        Err(ScriptFault::OverLimit { line, limit }) => {
            first_fault_is_told();
            Err(Status::OverLimit { line, limit })
        }
        Err(ScriptFault::OutOfMemory) => Err(Status::OutOfMemory),
    }
}

/// The log of a run of the script on threads. The error is want of memory.
fn log_of<C: Clock + Send, G: Gate + Sync, Rt: Threads + Wait + Copy + Drop + Send + Sync>(
    rt: &Rt,
    alloc: Global,
    script: &Script,
    clock: &mut C,
    gate: &G,
    workers: u32,
) -> Result<Vec<u8>, OutOfMemory>
    requires workers { (1 ≤ workers) × (workers ≤ 64) }
    requires short { length (script_text script.now) ≤ 67108864 }
    ensures { IfOk result (λ log. IsPlayLogOf (script_text script.now) log.items) }
{
    let run = play(rt, alloc, script, clock, gate, workers)?;
    let shape = script.shape();
    logs_tell_one_record();
    let log = print_log(alloc, shape, &run, script.version())?;
    log_fits(log.as_slice());
    Ok(log)
}

/// Plays the script on threads. A log of the script can tell the record, which keeps the promises.
fn play<C: Clock + Send, G: Gate + Sync, Rt: Threads + Wait + Copy + Drop + Send + Sync>(
    rt: &Rt,
    alloc: Global,
    script: &Script,
    clock: &mut C,
    gate: &G,
    workers: u32,
) -> Result<RunRecord, OutOfMemory>
    requires workers { (1 ≤ workers) × (workers ≤ 64) }
    requires short { length (script_text script.now) ≤ 67108864 }
    ensures { IfOk result (λ run. IsPlay script.now run) }
{
    let _shape = script.shape();
    legal_records_are_formed();
    legal_records_are_logged();
    legal_records_keep_promises();
    let mut maker = PlanMaker::new();
    let (played, _listeners) = mama_play::play(
        rt, alloc, script, &mut maker, clock, gate, workers,
    )?;
    moments_fit(played.clients());
    Ok(played)
}
