ghost use Rattle.std.specs.Prelude.{◌≡◌, ◌↔◌, ℕ, List, [], ◌∷◌, ◌++◌, IsTrue, IfSome, IfNone};
ghost use Rattle.std.specs.List.{All, list_any};
ghost use mathlib.Core.List.{IsPrefix};
ghost use Rattle.mama_journal.specs.Lane.{by_port};
ghost use Rattle.mama_lane.specs.Values.{after_learn};
ghost use Rattle.mama_ends.specs.Inlet.{AreLawful};

use mama_event::Stream;
use mama_lane::{Lane, PutNote, Taker};
use std::marker::Model;
use std::sync::Wait;

/// A taker, beside the event that it took last where its actor has not done it yet.
///
/// In a clause an inlet is a record of its taker, and of the event that is kept, with its port, as a list of one at most.
#[derive(Drop)]
pub struct Inlet<E: Stream> {
    taker: Taker<E>,
    kept: Option<(u32, E)>,
}

impl<E: Stream> Model for Inlet<E> {
    ghost use Rattle.mama_ends.specs.Inlet.{InletValue, kept_notes, AreLawful};

    ghost Value = { InletValue E.Note };

    ghost view = { λ i. record { taker = i.taker; kept = kept_notes E.noted i.kept } };

    ghost invariant = { λ i. AreLawful E.lawful i.taker };
}

impl<E: Stream> Inlet<E> {
    /// The inlet of a taker that has taken nothing.
    pub fn new(taker: Taker<E>) -> Inlet<E>
        requires { taker.taken ≡ [] }
        ensures { result ≡ record { taker = taker; kept = [] } }
    {
        Inlet { taker, kept: None }
    }

    /// The event that is kept, or else the next of the lane, with its port. Then none is kept. The answer is `None` only
    /// where none was kept, and where all was taken that the notes name which the taker learnt. It takes no memory.
    pub fn fetch<Rt: Wait + Copy>(&mut self, rt: Rt, lane: &Lane<E>) -> Option<(u32, E)>
        requires { self.old.taker.lane ≡ lane.now.id }
        ensures next { IfSome result (λ x. (done : List (ℕ × E.Note)) → self.old.taker.taken ≡ done ++ self.old.kept → self.new.taker.taken ≡ done ++ (x.0, E.noted x.1) ∷ []) }
        ensures kept { self.new.kept ≡ [] }
        ensures others { self.new.taker ≡ record self.old.taker { taken = self.new.taker.taken } }
        ensures lawful { AreLawful E.lawful self.new.taker }
        ensures none { IfNone result (self.new ≡ self.old) }
        ensures caught_up { IfNone result (All (λ note. IsPrefix note.1 (by_port note.0 self.old.taker.taken)) self.old.taker.learnt) }
    {
        if let Some(event) = self.kept.take() {
            return Some(event);
        }
        let (port, event) = self.taker.take(rt, lane)?;
        Some((port, event))
    }

    /// Keeps an event that was fetched and could not be done. It takes no memory.
    pub fn keep(&mut self, port: u32, event: E)
        requires { self.old.kept ≡ [] }
        ensures { self.new ≡ record self.old { kept = (port, E.noted event) ∷ [] } }
    {
        self.kept = Some((port, event));
    }

    /// From now on the taker knows that the note's port has put what the note names. It takes no memory.
    pub fn learn<Rt: Copy>(&mut self, rt: Rt, lane: &Lane<E>, note: PutNote<E>)
        requires taker { self.old.taker.lane ≡ lane.now.id }
        requires note { note.lane ≡ lane.now.id }
        ensures { self.new ≡ record self.old { taker = after_learn self.old.taker note } }
    {
        self.taker.learn(rt, lane, note);
    }

    /// Whether no event is kept.
    pub fn is_clear(&self) -> bool
        ensures { IsTrue result ↔ (self.now.kept ≡ []) }
    {
        self.kept.is_none()
    }

    /// Whether the last event of this port was taken, be it done or kept.
    pub fn ended(&self, port: u32) -> bool
        ensures { result ≡ list_any E.last (by_port port self.now.taker.taken) }
    {
        self.taker.ended(port)
    }

    /// The taker. An event that is kept is dropped.
    pub fn into_taker(self) -> Taker<E>
        ensures taker { result ≡ self.taker }
        ensures lawful { AreLawful E.lawful result }
    {
        let Inlet { taker, kept: _ } = self;
        taker
    }
}
