ghost use Rattle.std.specs.Prelude.{◌≡◌, ◌<◌, ◌^◌, ℕ, [], map, length, slice_get, slice_index_or, Option, Some, IfOk};
ghost use Rattle.mama_check_order.specs.Search.{entries_of};
ghost use Rattle.mama_check_order.specs.declared.order.Need.{Need};
ghost use Rattle.mama_check_order.specs.Turns.{IsWhole};
ghost use Rattle.mama_replay.specs.Ranks as ranking;
ghost use Rattle.mama_replay.specs.Ranks.{AreRanks, IsRanked, ranks_at, rank_at, later};

use mama_check_order::Need;
use mama_memory::OutOfMemory;
use std::alloc::Global;

/// In which pass each step of each actor comes, where the turns are an order of all steps in which each comes after the one
/// that it needs. Passes are numbered from 0.
pub(crate) fn ranks_of(
    alloc: Global,
    needs: &[Vec<Option<Need>>],
    turns: &[usize],
) -> Result<Vec<Vec<usize>>, OutOfMemory>
    requires { IsWhole (map (λ actor. actor.items) needs.now) turns.now }
    ensures { IfOk result (λ ranks. AreRanks (map (λ actor. actor.items) needs.now) turns.now (map (λ own. own.items) ranks.items)) }
{
    let mut ranks = no_ranks(alloc, needs.len())?;
    for actor in turns {
        let rank = next_rank(needs, &ranks, *actor);
        let own = &mut ranks[*actor];
        own.push(rank)?;
    }
    Ok(ranks)
}

/// So many lists with nothing in them.
fn no_ranks(alloc: Global, count: usize) -> Result<Vec<Vec<usize>>, OutOfMemory>
    ensures count { IfOk result (λ ranks. length ranks.items ≡ count) }
    ensures none { IfOk result (λ ranks. (actor : ℕ) → ranks_at (map (λ own. own.items) ranks.items) actor ≡ []) }
{
    let mut ranks = Vec::new(alloc);
    for _ in 0..count {
        ranks.push(Vec::new(alloc))?;
    }
    Ok(ranks)
}

/// The pass of the next step of an actor: the first in which the step before it was made earlier, and what it needs was
/// made earlier or, by an actor before this one, in the same pass.
fn next_rank(needs: &[Vec<Option<Need>>], ranks: &[Vec<usize>], actor: usize) -> usize
    requires actor { actor < length needs.now }
    requires as_many { length ranks.now ≡ length needs.now }
    requires next { length (ranks_at (map (λ own. own.items) ranks.now) actor) < length (entries_of (map (λ actor. actor.items) needs.now) actor) }
    requires needed { (need : Option Need) → slice_get (entries_of (map (λ actor. actor.items) needs.now) actor) (length (ranks_at (map (λ own. own.items) ranks.now) actor)) ≡ Some need
        → IsRanked (map (λ own. own.items) ranks.now) need }
    requires low { (a k : ℕ) → k < length (ranks_at (map (λ own. own.items) ranks.now) a) → rank_at (map (λ own. own.items) ranks.now) a k < 2 ^ 63 }
    ensures { (need : Option Need) → slice_get (entries_of (map (λ actor. actor.items) needs.now) actor) (length (ranks_at (map (λ own. own.items) ranks.now) actor)) ≡ Some need
        → result ≡ later (ranking.after_need (map (λ own. own.items) ranks.now) actor need)
        (ranking.after_own (ranks_at (map (λ own. own.items) ranks.now) actor) (length (ranks_at (map (λ own. own.items) ranks.now) actor))) }
{
    let own = &ranks[actor];
    let after = after_own(own);
    let need = needs[actor][own.len()];
    let met = after_need(ranks, actor, need);
    later_of(met, after)
}

/// The later of two passes.
fn later_of(met: usize, own: usize) -> usize
    ensures { result ≡ later met own }
{
    if met < own { own } else { met }
}

/// The first pass after those of an actor's steps so far.
fn after_own(ranks: &[usize]) -> usize
    requires { (k : ℕ) → k < length ranks.now → slice_index_or ranks.now k 0 < 2 ^ 63 }
    ensures { result ≡ ranking.after_own ranks.now (length ranks.now) }
{
    if ranks.is_empty() {
        return 0;
    }
    ranks[ranks.len() - 1] + 1
}

/// The first pass in which an actor finds what another step put.
fn after_need(ranks: &[Vec<usize>], actor: usize, need: Option<Need>) -> usize
    requires needed { IsRanked (map (λ own. own.items) ranks.now) need }
    requires low { (a k : ℕ) → k < length (ranks_at (map (λ own. own.items) ranks.now) a) → rank_at (map (λ own. own.items) ranks.now) a k < 2 ^ 63 }
    ensures { result ≡ ranking.after_need (map (λ own. own.items) ranks.now) actor need }
{
    match need {
        None => 0,
        Some(need) => after_step(ranks, actor, need),
    }
}

/// The first pass in which an actor finds what this step put.
fn after_step(ranks: &[Vec<usize>], actor: usize, need: Need) -> usize
    requires needed { IsRanked (map (λ own. own.items) ranks.now) (Some need) }
    requires low { (a k : ℕ) → k < length (ranks_at (map (λ own. own.items) ranks.now) a) → rank_at (map (λ own. own.items) ranks.now) a k < 2 ^ 63 }
    ensures { result ≡ ranking.after_need (map (λ own. own.items) ranks.now) actor (Some need) }
{
    let rank = ranks[need.actor][need.entry];
    if need.actor < actor { rank } else { rank + 1 }
}
