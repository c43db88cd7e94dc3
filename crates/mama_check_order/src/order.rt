ghost use Rattle.std.specs.Prelude.{◌≡◌, ◌↔◌, ◌<◌, ◌≤◌, ◌≢◌, ◌⊎◌, true, map, length, slice_index, slice_index_or, None, IfOk, IfSome, IfNone};
ghost use Rattle.std.specs.Bool.{OnTrue, OnFalse};
ghost use Rattle.mama_check_order.specs.Order.{HasOrder};
ghost use Rattle.mama_check_order.specs.Search.{entries_of, IsReached, IsReady, Lacks, NoneIsAsked, GoesOn, CannotCome};
ghost use Rattle.mama_check_order.specs.Turns.{IsMost, IsWhole, IsStop, IsOrderOf};

use mama_memory::OutOfMemory;
use std::alloc::Global;

/// The entry that has to come before another: the actor's number, and the entry's number in that actor's journal, both
/// from 0.
#[derive(Clone, Copy, Debug, PartialEq, Eq)]
pub struct Need {
    pub actor: usize,
    pub entry: usize,
}

/// The actor whose next entry can never come, and that entry's number, from 0.
#[derive(Clone, Copy, Debug, PartialEq, Eq)]
pub struct Stuck {
    pub actor: usize,
    pub entry: usize,
}

/// Whether the entries of several actors can be put into one order, in which each actor's own order is kept and each
/// entry comes after the one that it needs. The actors are numbered from 0; for each there is what its entries need.
///
/// It takes time and memory by the number of entries.
#[tactic(auto, using(crate::proofs::Stops::whole_is_order, crate::proofs::Stops::stop_is_none))]
pub fn has_order(alloc: Global, needs: &[Vec<Option<Need>>]) -> Result<bool, OutOfMemory>
    ensures { IfOk result (λ found. (found ≡ true) ↔ HasOrder (map (λ actor. actor.items) needs.now)) }
{
    match order_of(alloc, needs)? {
        Ok(_) => Ok(true),
        Err(_) => Ok(false),
    }
}

/// The actors of all entries in an order in which each actor's own order is kept and each entry comes after the one that it
/// needs. Or else, as the error, the first actor that cannot make all its entries, and the first of them that cannot come.
///
/// It takes time and memory by the number of entries.
#[tactic(auto, using(crate::proofs::Orders::reached_first, crate::proofs::Orders::none_first))]
pub fn order_of(
    alloc: Global,
    needs: &[Vec<Option<Need>>],
) -> Result<Result<Vec<usize>, Stuck>, OutOfMemory>
    ensures { IfOk result (IsOrderOf (map (λ actor. actor.items) needs.now)) }
{
    let mut made: Vec<usize> = vec![in alloc; 0; needs.len()]?;
    let mut askers: Vec<Option<usize>> = vec![in alloc; None; needs.len()]?;
    let mut turns = Vec::new(alloc);
    match first_stuck(needs, &mut made, &mut askers, &mut turns)? {
        None => Ok(Ok(turns)),
        Some(stuck) => Ok(Err(stuck)),
    }
}

// Lets all actors make all their entries, or tells the first that cannot.
fn first_stuck(
    needs: &[Vec<Option<Need>>],
    made: &mut [usize],
    askers: &mut [Option<usize>],
    turns: &mut Vec<usize>,
) -> Result<Option<Stuck>, OutOfMemory>
    requires made { length made.old ≡ length needs.now }
    requires askers { length askers.old ≡ length needs.now }
    requires reached { IsReached (map (λ actor. actor.items) needs.now) made.old turns.old.items }
    requires none { NoneIsAsked askers.old }
    ensures whole { IfOk result (λ stuck. IfNone stuck (IsWhole (map (λ actor. actor.items) needs.now) turns.new.items)) }
    ensures stop { IfOk result (λ stuck. IfSome stuck (λ s. IsStop (map (λ actor. actor.items) needs.now) s.actor s.entry)) }
{
    for actor in 0..needs.len() {
        if !actor_comes(needs, made, askers, turns, actor)? {
            let entry = made[actor];
            return Ok(Some(Stuck { actor, entry }));
        }
    }
    Ok(None)
}

// Lets an actor make all its entries, and others what it needs of them, as far as they can come. Whether all came.
fn actor_comes(
    needs: &[Vec<Option<Need>>],
    made: &mut [usize],
    askers: &mut [Option<usize>],
    turns: &mut Vec<usize>,
    actor: usize,
) -> Result<bool, OutOfMemory>
    requires actor { actor < length needs.now }
    requires made { length made.old ≡ length needs.now }
    requires askers { length askers.old ≡ length needs.now }
    requires reached { IsReached (map (λ actor. actor.items) needs.now) made.old turns.old.items }
    requires none { NoneIsAsked askers.old }
    ensures reached { IfOk result (λ came. IsReached (map (λ actor. actor.items) needs.now) made.new turns.new.items) }
    ensures none { IfOk result (λ came. OnTrue came (NoneIsAsked askers.new)) }
    ensures whole { IfOk result (λ came. OnTrue came (length (entries_of (map (λ actor. actor.items) needs.now) actor) ≤ slice_index made.new actor)) }
    ensures goes_on { IfOk result (λ came. GoesOn made.old made.new) }
    ensures inside { IfOk result (λ came. OnFalse came (slice_index made.new actor < length (entries_of (map (λ actor. actor.items) needs.now) actor))) }
    ensures stuck { IfOk result (λ came. OnFalse came (IsMost (map (λ actor. actor.items) needs.now) actor (slice_index made.new actor))) }
{
    while made[actor] < needs[actor].len() {
        if !next_comes(needs, made, askers, turns, actor)? {
            return Ok(false);
        }
    }
    Ok(true)
}

// Lets an actor make its next entry. Where that lacks an entry of another actor, the other is asked to go on by one entry,
// and so on. Each entry that is made sets the one going on that asked for it, so no entry is looked at more often than
// there are turns. Where an actor that waits is asked, or an entry that does not exist is lacked, the entry cannot come.
fn next_comes(
    needs: &[Vec<Option<Need>>],
    made: &mut [usize],
    askers: &mut [Option<usize>],
    turns: &mut Vec<usize>,
    wanted: usize,
) -> Result<bool, OutOfMemory>
    requires wanted { wanted < length needs.now }
    requires next { slice_index made.old wanted < length (entries_of (map (λ actor. actor.items) needs.now) wanted) }
    requires made { length made.old ≡ length needs.now }
    requires askers { length askers.old ≡ length needs.now }
    requires reached { IsReached (map (λ actor. actor.items) needs.now) made.old turns.old.items }
    requires none { NoneIsAsked askers.old }
    ensures reached { IfOk result (λ came. IsReached (map (λ actor. actor.items) needs.now) made.new turns.new.items) }
    ensures none { IfOk result (λ came. OnTrue came (NoneIsAsked askers.new)) }
    ensures comes { IfOk result (λ came. OnTrue came (slice_index made.old wanted < slice_index made.new wanted)) }
    ensures goes_on { IfOk result (λ came. GoesOn made.old made.new) }
    ensures inside { IfOk result (λ came. OnFalse came (slice_index made.new wanted < length (entries_of (map (λ actor. actor.items) needs.now) wanted))) }
    ensures stuck { IfOk result (λ came. OnFalse came (IsMost (map (λ actor. actor.items) needs.now) wanted (slice_index made.new wanted))) }
{
    let mut actor = wanted;
    loop {
        match lacking(needs, made, actor) {
            None => {
                made[actor] += 1;
                turns.push(actor)?;
                match askers[actor].take() {
                    None => return Ok(true),
                    Some(asker) => actor = asker,
                }
            }
            Some(need) => {
                if !may_ask(needs, askers, wanted, need) {
                    return Ok(false);
                }
                askers[need.actor] = Some(actor);
                actor = need.actor;
            }
        }
    }
}

// What the next entry of an actor needs and has not had its turn.
fn lacking(needs: &[Vec<Option<Need>>], made: &[usize], actor: usize) -> Option<Need>
    requires actor { actor < length needs.now }
    requires made { length made.now ≡ length needs.now }
    requires next { slice_index made.now actor < length (entries_of (map (λ actor. actor.items) needs.now) actor) }
    ensures none { IfNone result (IsReady (map (λ actor. actor.items) needs.now) made.now actor) }
    ensures some { IfSome result (λ need. Lacks (map (λ actor. actor.items) needs.now) made.now actor need) }
{
    match needs[actor][made[actor]] {
        None => None,
        Some(need) => {
            if is_made(made, need) {
                None
            } else {
                Some(need)
            }
        }
    }
}

// Whether the entry had its turn.
fn is_made(made: &[usize], need: Need) -> bool
    ensures { (result ≡ true) ↔ (need.entry < slice_index made.now need.actor) }
{
    match made.get(need.actor) {
        None => false,
        Some(count) => need.entry < *count,
    }
}

// Whether there is such an entry.
fn is_there(needs: &[Vec<Option<Need>>], need: Need) -> bool
    ensures { (result ≡ true) ↔ (need.entry < length (entries_of (map (λ actor. actor.items) needs.now) need.actor)) }
{
    match needs.get(need.actor) {
        None => false,
        Some(entries) => need.entry < entries.len(),
    }
}

// Whether an entry that is lacked may come: it exists, and its actor does not wait.
fn may_ask(needs: &[Vec<Option<Need>>], askers: &[Option<usize>], wanted: usize, need: Need) -> bool
    requires { length askers.now ≡ length needs.now }
    ensures actor { OnTrue result (need.actor < length needs.now) }
    ensures entry { OnTrue result (need.entry < length (entries_of (map (λ actor. actor.items) needs.now) need.actor)) }
    ensures other { OnTrue result (need.actor ≢ wanted) }
    ensures free { OnTrue result (slice_index_or askers.now need.actor None ≡ None) }
    ensures not { OnFalse result (CannotCome (map (λ actor. actor.items) needs.now) askers.now wanted need) }
{
    is_there(needs, need) && need.actor != wanted && askers[need.actor].is_none()
}
