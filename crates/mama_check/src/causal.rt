ghost use Rattle.std.specs.Prelude.{◌≡◌, ◌↔◌, true, map, IfOk};
ghost use Rattle.mama_rules_legal.specs.Form.{IsCounted};
ghost use Rattle.mama_rules_legal.specs.Legal.{IsLegal};
ghost use Rattle.mama_check.specs.Verdict.{KeepEdges};
ghost use Rattle.mama_check.specs.Causal.{all_needs, NeedsAreByNumber, ActorsAreByPort, IsCausal};

use crate::all::all_puts;
use crate::broken::first_broken_edge;
use crate::laws::{kept_rules_are_legal, legal_records_are_formed};
use mama_check_order::{Need, has_order};
use mama_memory::OutOfMemory;
use mama_plans::{groups_by_queue, plans_of, watches_by_queue};
use mama_record::RunRecord;
use mama_script::Script;
use std::alloc::Global;

/// Whether one order of all entries and client lines keeps each actor's own order and has each event taken after it was
/// put. All edges are whole, so that whatever was taken was put, and these are the needs of all entries.
///
/// It takes time and memory by the length of the script and of the record. The error is want of memory.
pub fn is_causal(
    alloc: Global,
    script: &Script,
    run: &RunRecord,
    needs: &[Vec<Option<Need>>],
) -> Result<bool, OutOfMemory>
    requires counted { IsCounted script.now run.now }
    requires edges { KeepEdges script.now run.now }
    requires needs { map (λ actor. actor.items) needs.now ≡ all_needs script.now run.now }
    ensures { IfOk result (λ causal. (causal ≡ true) ↔ IsCausal script.now run.now) }
{
    has_order(alloc, needs)
}

/// What the entries of all actors of a legal record need, in the order of the actors' numbers: clients, publishers, the
/// bridge, the timer service, queues. An entry that takes an event needs the entry that put it. A client's lines stand for
/// its entries, a pause among them, and one more stands for that it is done.
///
/// It takes time and memory by the length of the script and of the record. The error is want of memory.
pub fn needs_of_run(
    alloc: Global,
    script: &Script,
    run: &RunRecord,
) -> Result<Vec<Vec<Option<Need>>>, OutOfMemory>
    requires { IsLegal script.now run.now }
    ensures { IfOk result (λ needs. map (λ actor. actor.items) needs.items ≡ all_needs script.now run.now) }
{
    let _shape = script.shape();
    legal_records_are_formed();
    kept_rules_are_legal();
    let plans = plans_of(alloc, script)?;
    let groups = groups_by_queue(alloc, script, &plans)?;
    let watches = watches_by_queue(alloc, script, &plans)?;
    let puts = all_puts(alloc, script, run, &plans, &groups, &watches)?;
    let mut needs = Vec::new(alloc);
    let _broken = first_broken_edge(alloc, script, run, &puts, &mut needs)?;
    Ok(needs)
}

/// Laws: what the entries of each actor need stands at its number, and behind each port of a lane stands whose port it is.
pub fn actors_have_their_numbers()
    ensures needs { NeedsAreByNumber }
    ensures ports { ActorsAreByPort }
{}
