ghost use Rattle.std.specs.Prelude.{◌≡◌, ℕ, ◌<◌, IfSome, IfNone, vec_len, slice_set, true, if◌then◌else◌};
ghost use Rattle.std.specs.List.{All, list_any};
ghost use mathlib.Core.List.{IsPrefix};
ghost use Rattle.mama_journal.specs.Lane.{by_port};
ghost use Rattle.mama_lane.specs.Values.{after_take, after_learn};

use crate::ahead::next;
use crate::lane::Lane;
use crate::looker::Looker;
use crate::note::PutNote;
use mama_event::Stream;
use std::collections::VecDeque;
use std::marker::Model;
use std::sync::Wait;

/// The end of a lane by which events are taken. It may go to another thread.
///
/// In a clause a taker is a record of its lane, the bounds within which the ports put, how many ports there are, what
/// it took, and the notes that it learnt, each with the number of its port. What it took from the lane ahead of its
/// calls and has not answered yet is not among what it took.
#[derive(Drop)]
pub struct Taker<E: Stream> {
    pub(crate) looker: Looker<E>,
    /// For each port, whether its last event was answered.
    pub(crate) ended: Vec<bool>,
    /// What was taken ahead, first to last.
    pub(crate) buffer: VecDeque<(u32, E)>,
}

impl<E: Stream> Model for Taker<E> {
    ghost use Rattle.std.specs.Prelude.{◌≤◌};
    ghost use Rattle.std.specs.VecDeque.{deque_capacity};
    ghost use Rattle.mama_lane.specs.Values.{TakerValue};

    ghost Value = { TakerValue E.Note };

    ghost use Rattle.mama_lane.specs.declared.ahead.TheConstants.{AHEAD};
    ghost use Rattle.mama_lane.specs.Taker.{without, IsTaker};

    ghost view = { λ t. without t.looker t.buffer.items };

    ghost invariant = { λ t. IsTaker E.noted E.last t.looker t.ended.items t.buffer.items × (AHEAD ≤ deque_capacity t.buffer) };
}

impl<E: Stream> Taker<E> {
    /// Takes the next event, with the number of its port. The answer is `None` only where all that the notes which this
    /// taker learnt name was taken: what was put and not learnt of may be in the lane. It takes no memory.
    pub fn take<Rt: Wait + Copy>(&mut self, rt: Rt, lane: &Lane<E>) -> Option<(u32, E)>
        requires { self.old.lane ≡ lane.now.id }
        ensures some { IfSome result (λ x. self.new ≡ after_take self.old x.0 (E.noted x.1)) }
        ensures port { IfSome result (λ x. x.0 < self.old.ports) }
        ensures lawful { (port : ℕ) → E.lawful self.new.bounds port (by_port port self.new.taken) }
        ensures none { IfNone result (self.new ≡ self.old) }
        // All that is named by the notes which this taker learnt was taken.
        ensures caught_up { IfNone result (All (λ note. IsPrefix note.1 (by_port note.0 self.old.taken)) self.old.learnt) }
    {
        let taken = next(&rt, lane, &mut self.looker, &mut self.buffer);
        self.looker.is_lawful();
        let (port, event) = taken?;
        mark_ended(&mut self.ended, port, event.is_last());
        Some((port, event))
    }

    /// From now on this taker knows that the note's port has put what the note names. It takes no memory.
    pub fn learn<Rt: Copy>(&mut self, _rt: Rt, lane: &Lane<E>, note: PutNote<E>)
        requires taker { self.old.lane ≡ lane.now.id }
        requires note { note.lane ≡ lane.now.id }
        ensures { self.new ≡ after_learn self.old note }
    {
        self.looker.learn(lane, note);
    }

    /// Whether the last event of this port was taken. It takes no memory, and is false for a port that is not there.
    pub fn ended(&self, port: u32) -> bool
        ensures { result ≡ list_any E.last (by_port port self.now.taken) }
    {
        match self.ended.get(port as usize) {
            Some(ended) => *ended,
            None => false,
        }
    }
}

// Sets the flag of this port, if its last event was taken.
fn mark_ended(ended: &mut Vec<bool>, port: u32, last: bool)
    requires { port < vec_len ended.old }
    ensures { ended.new.items ≡ (if last then slice_set ended.old.items port true else ended.old.items) }
{
    if last {
        ended[port as usize] = true;
    }
}
