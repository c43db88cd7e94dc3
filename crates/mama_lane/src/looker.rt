ghost use Rattle.std.specs.Prelude.{◌≡◌, ℕ, ◌<◌, ◌≤◌, []};
ghost use Rattle.std.specs.List.{All, AllByRecursion};
ghost use Rattle.std.specs.VecDeque.{deque_capacity};
ghost use mathlib.Core.List.{IsPrefix};
ghost use Rattle.mama_journal.specs.Lane.{by_port};
ghost use Rattle.mama_lane.specs.declared.ahead.TheConstants.{AHEAD};
ghost use Rattle.mama_lane.specs.Rule.{notes_of};
ghost use Rattle.mama_lane.specs.Taker.{after_takes};
ghost use Rattle.mama_lane.specs.Values.{after_learn};

use crate::lane::Lane;
use crate::note::PutNote;
use crate::rule::Pass;
use crate::steps;
use mama_event::Stream;
use std::collections::VecDeque;
use std::marker::Model;
use std::sync::Wait;

/// The taker's pass, by which events leave the lane. In a clause it is seen as a taker is.
#[derive(Drop)]
pub struct Looker<E: Stream> {
    pub(crate) pass: Pass<E>,
}

impl<E: Stream> Model for Looker<E> {
    ghost use Rattle.std.specs.Prelude.{◌≡◌, None};
    ghost use Rattle.mama_lane.specs.Values.{TakerValue};

    ghost Value = { TakerValue E.Note };

    ghost use Rattle.mama_lane.specs.Taker.{IsTakerPass};

    ghost view = { λ t. record { lane = record { web = t.pass.web; heap = t.pass.heap }; bounds = t.pass.me.view.client.bounds; ports = t.pass.me.view.client.made; taken = t.pass.me.view.client.taken; learnt = t.pass.me.view.client.learnt } };

    ghost invariant = { λ t. IsTakerPass E.lawful t.pass.me.view.client × (t.pass.id ≡ 0) × (t.pass.me.hand ≡ None) × (t.pass.me.spare ≡ None) };
}

impl<E: Stream> Looker<E> {
    /// Takes events into an empty buffer, as many as leave the lane in one step, or looks at a lane that holds none.
    pub fn take<Rt: Wait>(&mut self, rt: &Rt, lane: &Lane<E>, buffer: &mut VecDeque<(u32, E)>)
        requires lane { self.old.lane ≡ lane.now.id }
        requires room { AHEAD ≤ deque_capacity buffer.old }
        requires empty { buffer.old.items ≡ [] }
        ensures room { deque_capacity buffer.new ≡ deque_capacity buffer.old }
        ensures taken { self.new ≡ after_takes self.old (notes_of E.noted buffer.new.items) }
        ensures ports { AllByRecursion (λ x. x.0 < self.old.ports) buffer.new.items }
        ensures caught_up { buffer.new.items ≡ [] → All (λ note. IsPrefix note.1 (by_port note.0 self.old.taken)) self.old.learnt }
    {
        steps::take(rt, &lane.queue, &mut self.pass, buffer);
    }

    /// What was taken from each port is lawful.
    pub fn is_lawful(&self)
        ensures { (port : ℕ) → E.lawful self.now.bounds port (by_port port self.now.taken) }
    {
        let _pass = &self.pass;
    }

    /// From now on the port of the note is known to have put what the note names.
    pub fn learn(&mut self, lane: &Lane<E>, note: PutNote<E>)
        requires taker { self.old.lane ≡ lane.now.id }
        requires note { note.lane ≡ lane.now.id }
        ensures { self.new ≡ after_learn self.old note }
    {
        let PutNote { number: _, pass } = note;
        steps::learn(&lane.queue, &mut self.pass, pass);
    }
}
