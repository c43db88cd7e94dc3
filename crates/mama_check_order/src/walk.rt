ghost use Rattle.std.specs.Prelude.{◌≡◌, ◌≢◌, ◌↔◌, ◌<◌, ℕ, true, List, [], ◌∷◌, length, is_some, map, slice_index_or, IfOk, IfSome, IfNone};
ghost use Rattle.mama_check_order.specs.Taken.{AreWhole, needs_of};

use crate::Need;
use crate::exact::Exact;
use mama_memory::OutOfMemory;
use std::alloc::Global;

/// The entry that put a note and what was put after it, if the note is the next of what was put.
pub fn next_of<'a, N: Exact>(left: &'a [(usize, N)], note: &N) -> Option<(usize, &'a [(usize, N)])>
    ensures next { IfSome result (λ found. left.now ≡ (found.0, note.now) ∷ found.1.now) }
    ensures none { IfNone result ((entry : ℕ) (rest : List (ℕ × N)) → left.now ≢ (entry, note.now) ∷ rest) }
{
    match left.split_first() {
        Some(((entry, put), rest)) => if put.is_same(note) {
            Some((*entry, rest))
        } else {
            None
        },
        None => None,
    }
}

// The same of what is left of what a port put.
fn next_by<'a, N: Exact>(
    left: &[&'a [(usize, N)]],
    port: usize,
    note: &N,
) -> Option<(usize, &'a [(usize, N)])>
    ensures next { IfSome result (λ found. slice_index_or (map (λ list. list.now) left.now) port [] ≡ (found.0, note.now) ∷ found.1.now) }
    ensures within { IfSome result (λ found. port < length left.now) }
    ensures none { IfNone result ((entry : ℕ) (rest : List (ℕ × N)) → slice_index_or (map (λ list. list.now) left.now) port [] ≢ (entry, note.now) ∷ rest) }
{
    match left.get(port) {
        Some(list) => next_of(*list, note),
        None => None,
    }
}

// Whether nothing is left of what any port put.
fn are_empty<N>(left: &[&[(usize, N)]]) -> bool
    ensures { (result ≡ true) ↔ ((port : ℕ) → slice_index_or (map (λ list. list.now) left.now) port [] ≡ []) }
{
    for list in left {
        if !list.is_empty() {
            return false;
        }
    }
    true
}

// The actor behind a port.
fn actor_of(actors: &[usize], port: usize) -> usize
    ensures { result ≡ slice_index_or actors.now port 0 }
{
    match actors.get(port) {
        Some(actor) => *actor,
        None => 0,
    }
}

/// What each entry of a lane's journal needs, if on every edge what it took is all that was put.
pub fn walk<N: Exact>(
    alloc: Global,
    actors: &[usize],
    lists: &[&[(usize, N)]],
    journal: &[(u32, N)],
) -> Result<Option<Vec<Option<Need>>>, OutOfMemory>
    ensures whole { IfOk result (λ found. (is_some found ≡ true) ↔ AreWhole (map (λ list. list.now) lists.now) journal.now) }
    ensures needs { IfOk result (λ found. IfSome found (λ needs. needs.items ≡ needs_of actors.now (map (λ list. list.now) lists.now) journal.now)) }
{
    let mut left = Vec::from_slice(alloc, lists)?;
    let mut needs = Vec::with_capacity(alloc, journal.len())?;
    for (port, note) in journal {
        let port = *port as usize;
        match next_by(&left, port, note) {
            Some((entry, rest)) => {
                left[port] = rest;
                let actor = actor_of(actors, port);
                needs.push(Some(Need { actor, entry }))?;
            }
            None => return Ok(None),
        }
    }
    if are_empty(&left) {
        Ok(Some(needs))
    } else {
        Ok(None)
    }
}
