// Events that the taker takes ahead.
ghost use Rattle.std.specs.Prelude.{◌≡◌, ℕ, ◌<◌, ◌≤◌, [], ◌∷◌, ◌++◌, List, IfSome, IfNone};
ghost use Rattle.std.specs.List.{All, AllByRecursion};
ghost use Rattle.std.specs.VecDeque.{deque_capacity};
ghost use mathlib.Core.List.{IsPrefix};
ghost use Rattle.mama_journal.specs.Lane.{by_port};
ghost use Rattle.mama_lane.specs.Rule.{notes_of};

use crate::lane::Lane;
use crate::looker::Looker;
use mama_event::Stream;
use std::collections::VecDeque;
use std::sync::Wait;

/// How many events a taker takes ahead at most: those of a block of the queue, which one step can claim.
pub const AHEAD: usize = 31;

/// The first event of the buffer, which is filled before where it is empty.
pub fn next<E: Stream, R: Wait>(
    rt: &R,
    lane: &Lane<E>,
    looker: &mut Looker<E>,
    buffer: &mut VecDeque<(u32, E)>,
) -> Option<(u32, E)>
    requires lane { looker.old.lane ≡ lane.now.id }
    requires room { AHEAD ≤ deque_capacity buffer.old }
    requires ports { AllByRecursion (λ x. x.0 < looker.old.ports) buffer.old.items }
    ensures room { deque_capacity buffer.new ≡ deque_capacity buffer.old }
    ensures port { IfSome result (λ x. (x.0 < looker.old.ports) × AllByRecursion (λ y. y.0 < looker.old.ports) buffer.new.items) }
    ensures some { IfSome result (λ x. (front : List (ℕ × E.Note)) → looker.old.taken ≡ front ++ notes_of E.noted buffer.old.items → looker.new ≡ record looker.old { taken = front ++ (x.0, E.noted x.1) ∷ notes_of E.noted buffer.new.items }) }
    ensures none { IfNone result ((looker.new ≡ looker.old) × (buffer.old.items ≡ []) × (buffer.new.items ≡ [])) }
    ensures caught_up { IfNone result (All (λ note. IsPrefix note.1 (by_port note.0 looker.old.taken)) looker.old.learnt) }
{
    if let Some(event) = buffer.pop_front() {
        return Some(event);
    }
    looker.take(rt, lane, buffer);
    buffer.pop_front()
}
