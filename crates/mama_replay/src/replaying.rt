ghost use Rattle.std.specs.Prelude.{◌≡◌, ◌≢◌, ◌<◌, ◌^◌, ℕ, suc, Err, Some, IfOk, length, map, slice_get};
ghost use Rattle.mama_event.specs.Ports.{publishers_of};
ghost use Rattle.mama_rules_legal.specs.Legal.{IsLegal};
ghost use Rattle.mama_check.specs.Causal.{all_needs, IsCausal};
ghost use Rattle.mama_check.specs.declared.verdict.Actor.{Actor};
ghost use Rattle.mama_replay.specs.Followed.{followed};
ghost use Rattle.mama_replay.specs.Needs.{step_needs};
ghost use Rattle.mama_check_order.specs.Turns.{IsWhole, IsStop};
ghost use Rattle.mama_replay.specs.Passes.{in_order, ArePassSteps, IsStuck};

use crate::copies::copy_of;
use crate::needs::needs_of_steps;
use crate::passes::steps_of;
use crate::ranks::ranks_of;
use crate::step::{ReplayFault, Step};
use mama_check::{Actor, needs_of_run};
use mama_check_order::{Need, Stuck, order_of};
use mama_event::Shape;
use mama_memory::OutOfMemory;
use mama_record::RunRecord;
use mama_script::Script;
use std::alloc::Global;

/// The most entries of a journal that a number can tell.
const MOST_ENTRIES: usize = 4_294_967_295;

/// Follows a legal record again on one thread: the steps of the passes, and the record that they lead to, which is the same.
/// Where the entries of the record have no causal order, it tells who is the first, in the order of the passes, that cannot go
/// on, and at which entry.
///
/// It takes time and memory by the length of the script and of the record. The error is `NotCausal`, or want of memory, which
/// is also the answer where the number of the entry would be above 4,294,967,295.
pub fn replay(
    alloc: Global,
    script: &Script,
    run: &RunRecord,
) -> Result<(Vec<Step>, RunRecord), ReplayFault>
    requires { IsLegal script.now run.now }
    ensures followed { IfOk result (λ made. made.1 ≡ followed script.now run.now.clients made.0.items) }
    ensures same { IfOk result (λ made. made.1 ≡ run.now) }
    ensures steps { IfOk result (λ made. ArePassSteps script.now run.now made.0.items) }
    ensures causal { IfOk result (λ made. IsCausal script.now run.now) }
    ensures not_causal { (actor : Actor) (entry : ℕ) → result ≡ Err (ReplayFault.NotCausal actor entry) → (IsCausal script.now run.now → ⊥) × IsStuck script.now run.now actor entry }
{
    let needs = all_steps_need(alloc, script, run)?;
    match order_of(alloc, &needs)? {
        Ok(turns) => follow(alloc, script, run, &needs, &turns),
        Err(stuck) => Err(where_stuck(script, run, &needs, stuck)),
    }
}

/// What all steps of a legal record need.
fn all_steps_need(
    alloc: Global,
    script: &Script,
    run: &RunRecord,
) -> Result<Vec<Vec<Option<Need>>>, OutOfMemory>
    requires { IsLegal script.now run.now }
    ensures { IfOk result (λ needs. map (λ actor. actor.items) needs.items ≡ step_needs script.now.clients (all_needs script.now run.now)) }
{
    let entries = needs_of_run(alloc, script, run)?;
    needs_of_steps(alloc, script.clients(), &entries)
}

/// The steps of a record and the record that they lead to, where its steps have an order.
fn follow(
    alloc: Global,
    script: &Script,
    run: &RunRecord,
    needs: &[Vec<Option<Need>>],
    turns: &[usize],
) -> Result<(Vec<Step>, RunRecord), ReplayFault>
    requires legal { IsLegal script.now run.now }
    requires needs { map (λ actor. actor.items) needs.now ≡ step_needs script.now.clients (all_needs script.now run.now) }
    requires turns { IsWhole (map (λ actor. actor.items) needs.now) turns.now }
    ensures followed { IfOk result (λ made. made.1 ≡ followed script.now run.now.clients made.0.items) }
    ensures same { IfOk result (λ made. made.1 ≡ run.now) }
    ensures steps { IfOk result (λ made. ArePassSteps script.now run.now made.0.items) }
    ensures causal { IfOk result (λ made. IsCausal script.now run.now) }
    ensures not_causal { (actor : Actor) (entry : ℕ) → result ≢ Err (ReplayFault.NotCausal actor entry) }
{
    let shape = script.shape();
    let ranks = ranks_of(alloc, needs, turns)?;
    let steps = steps_of(alloc, shape.clients, run, &ranks)?;
    let record = copy_of(alloc, run)?;
    Ok((steps, record))
}

/// Who cannot go on, and at which entry, where the search for an order of all steps stopped.
fn where_stuck(
    script: &Script,
    run: &RunRecord,
    needs: &[Vec<Option<Need>>],
    stuck: Stuck,
) -> ReplayFault
    requires legal { IsLegal script.now run.now }
    requires needs { map (λ actor. actor.items) needs.now ≡ step_needs script.now.clients (all_needs script.now run.now) }
    requires stop { IsStop (map (λ actor. actor.items) needs.now) stuck.actor stuck.entry }
    ensures { (actor : Actor) (entry : ℕ) → result ≡ ReplayFault.NotCausal actor entry → (IsCausal script.now run.now → ⊥) × IsStuck script.now run.now actor entry }
{
    let _shape = script.shape();
    not_causal(script, stuck)
}

/// Who cannot go on, and at which entry, from 1. Where a journal is too long to tell the entry, that is want of memory.
fn not_causal(script: &Script, stuck: Stuck) -> ReplayFault
    requires actor { stuck.actor < length (in_order script.now.shape) }
    requires publishers { publishers_of script.now.shape < 2 ^ 32 }
    ensures { (actor : Actor) (entry : ℕ) → result ≡ ReplayFault.NotCausal actor entry → (slice_get (in_order script.now.shape) stuck.actor ≡ Some actor) × (entry ≡ suc stuck.entry) }
{
    let actor = actor_of(script.shape(), stuck.actor);
    if stuck.entry < MOST_ENTRIES {
        let entry = stuck.entry as u32 + 1;
        ReplayFault::NotCausal { actor, entry }
    } else {
        ReplayFault::OutOfMemory
    }
}

/// The actor of a number.
#[tactic(auto, using(crate::proofs::Actors::is_client, crate::proofs::Actors::is_bridge, crate::proofs::Actors::is_timers))]
fn actor_of(shape: &Shape, number: usize) -> Actor
    requires number { number < length (in_order shape.now) }
    requires publishers { publishers_of shape.now < 2 ^ 32 }
    ensures { slice_get (in_order shape.now) number ≡ Some result }
{
    let _queues = shape.bounds.queues;
    let clients = shape.clients as usize;
    let publishers = clients + shape.publisher_topics.len();
    if number < clients {
        Actor::Client(number as u32)
    } else if number < publishers {
        Actor::Publisher((number - clients) as u32)
    } else if number == publishers {
        Actor::Bridge
    } else if number == publishers + 1 {
        Actor::Timers
    } else {
        Actor::Queue((number - publishers - 2) as u32)
    }
}
