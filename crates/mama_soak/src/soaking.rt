ghost use Rattle.std.specs.Prelude.{◌≡◌, ◌≤◌, string_bytes, option_map, IfOk};
ghost use Rattle.mama_rules_legal.specs.Legal.{IsLegal};
ghost use Rattle.mama_rules_legal.specs.Form.{IsFormed};
ghost use Rattle.mama_gen.specs.Generated.{script_of_seed};
ghost use Rattle.mama_soak.specs.Soak.{IsSoak, IsTold};

use crate::text::lines_of;
use mama_carry::PlanMaker;
use mama_check::{Verdict, check, legal_records_are_formed};
use mama_edge::{Gate, MemoryClock};
use mama_gen::generate;
use mama_memory::OutOfMemory;
use mama_play::play;
use mama_record::RunRecord;
use mama_script::Script;
use std::alloc::Global;
use std::sync::Wait;
use std::thread::Threads;

/// Plays the script of this seed on threads, as [`mama_play::play`] does, judges its record, and tells in lines what it
/// counts: `sends`, the updates that were sent, `subscriptions`, those that joined at the bridge, `notices`, those that heard
/// their end, and `legal`. Such a script reads no clock. `workers` is from 1 to 64.
///
/// The counts are those of the record that was played, which is legal: `IsSoak`. That they are the same whichever thread
/// turned which actor when is not promised, and not that it returns. The error is want of memory, or a count of 2^64.
pub fn soak<G: Gate + Sync, Rt: Threads + Wait + Copy + Drop + Send + Sync>(
    rt: &Rt,
    alloc: Global,
    seed: u64,
    workers: u32,
    gate: &G,
) -> Result<String, OutOfMemory>
    requires { (1 ≤ workers) × (workers ≤ 64) }
    ensures { IfOk result (λ out. IsSoak seed (string_bytes out)) }
{
    let script = generate(alloc, seed)?;
    let run = played(rt, alloc, &script, workers, gate)?;
    match told(alloc, &script, &run)? {
        Some(out) => Ok(out),
        None => unreachable!(),
    }
}

/// Plays the script. No script of a seed reads the clock, so this one has no moments.
fn played<G: Gate + Sync, Rt: Threads + Wait + Copy + Drop + Send + Sync>(
    rt: &Rt,
    alloc: Global,
    script: &Script,
    workers: u32,
    gate: &G,
) -> Result<RunRecord, OutOfMemory>
    requires { (1 ≤ workers) × (workers ≤ 64) }
    ensures legal { IfOk result (IsLegal script.now) }
    ensures formed { IfOk result (IsFormed script.now) }
{
    legal_records_are_formed();
    let mut maker = PlanMaker::new();
    let mut clock = MemoryClock::new(Vec::new(alloc));
    let (run, _listeners) = play(rt, alloc, script, &mut maker, &mut clock, gate, workers)?;
    Ok(run)
}

/// Judges a record and tells what it counts. None: it is not legal.
fn told(alloc: Global, script: &Script, run: &RunRecord) -> Result<Option<String>, OutOfMemory>
    requires { IsFormed script.now run.now }
    ensures { IfOk result (λ told. IsTold script.now run.now (option_map string_bytes told)) }
{
    match check(alloc, script, run)? {
        Verdict::Legal { .. } => {
            let out = lines_of(alloc, run)?;
            Ok(Some(out))
        }
        Verdict::NotLegal { .. } => Ok(None),
    }
}
