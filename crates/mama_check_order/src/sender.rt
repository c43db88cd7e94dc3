ghost use Rattle.std.specs.Prelude.{◌≡◌, ◌↔◌, true, is_some, map, IfOk, IfSome, IfNone};
ghost use Rattle.std.specs.List.{flat_map};
ghost use Rattle.mama_check_order.specs.Taken.{taken_in, sender_needs_of};
ghost use Rattle.mama_check_order.specs.Step.{Takes, IsStuck};

use crate::Need;
use crate::walk::next_of;
use mama_event::{PublisherEntry, PublisherNote};
use mama_memory::OutOfMemory;
use std::alloc::Global;

// What an entry needs, and what is left after it of what was put, if what it takes is the next.
fn step<'a>(
    actor: usize,
    left: &'a [(usize, PublisherNote)],
    entry: &PublisherEntry,
) -> Option<(Option<Need>, &'a [(usize, PublisherNote)])>
    ensures next { IfSome result (λ found. Takes actor entry.now left.now found.0 found.1.now) }
    ensures none { IfNone result (IsStuck entry.now left.now) }
{
    match entry {
        PublisherEntry::Took(note) => match next_of(left, note) {
            Some((entry, rest)) => Some((Some(Need { actor, entry }), rest)),
            None => None,
        },
        PublisherEntry::Send | PublisherEntry::Done => Some((None, left)),
    }
}

/// What each entry of a publisher's journal needs, if what it took is all that was put to it by this actor, each event
/// with the number of the entry that put it. An entry that takes no event needs none. The answer is `None` where what was
/// taken is not all that was put; the error is want of memory.
pub fn needs_of_sender(
    alloc: Global,
    actor: usize,
    list: &[(usize, PublisherNote)],
    journal: &[PublisherEntry],
) -> Result<Option<Vec<Option<Need>>>, OutOfMemory>
    ensures whole { IfOk result (λ found. (is_some found ≡ true) ↔ (flat_map taken_in journal.now ≡ map (λ x. x.1) list.now)) }
    ensures needs { IfOk result (λ found. IfSome found (λ needs. needs.items ≡ sender_needs_of actor list.now journal.now)) }
{
    let mut left = list;
    let mut needs = Vec::with_capacity(alloc, journal.len())?;
    for entry in journal {
        match step(actor, left, entry) {
            Some((need, rest)) => {
                left = rest;
                needs.push(need)?;
            }
            None => return Ok(None),
        }
    }
    if left.is_empty() {
        Ok(Some(needs))
    } else {
        Ok(None)
    }
}
