ghost use Rattle.std.specs.Prelude.{◌≡◌, ◌++◌, ◌∷◌, [], OnOk, OnErr, IfErr, IfOk, IsOk};
ghost use Rattle.mama_lane.specs.Values.{after_put, note_of_port};

use crate::lane::Lane;
use crate::note::PutNote;
use crate::rule::Pass;
use crate::steps;
use mama_event::{OutOfMemory, Stream};
use std::marker::Model;
use std::sync::Wait;

/// One of the numbered ends of a lane by which events are put. It may go to another thread.
///
/// In a clause a port is a record of its lane, the bounds within which it puts, its number, and the notes of the
/// events that it put.
#[derive(Drop)]
pub struct Port<E: Stream> {
    pub(crate) number: u32,
    pub(crate) pass: Pass<E>,
}

impl<E: Stream> Model for Port<E> {
    ghost use Rattle.std.specs.Prelude.{◌≡◌, None};
    ghost use Rattle.mama_lane.specs.Values.{PortValue};
    ghost use Rattle.mama_lane.specs.declared.view.Role.TheVariants.{Port as PortRole};

    ghost Value = { PortValue E.Note };

    ghost view = { λ p. record { lane = record { web = p.pass.web; heap = p.pass.heap }; bounds = p.pass.me.view.client.bounds; number = p.number; put = p.pass.me.view.client.put } };

    ghost invariant = { λ p. (p.pass.me.view.client.role ≡ PortRole) × (p.pass.me.view.client.number ≡ p.number) × (p.pass.me.hand ≡ None) × (p.pass.me.spare ≡ None) };
}

impl<E: Stream> Port<E> {
    /// Puts an event. Where memory runs out the event comes back, and may be put again.
    pub fn put<Rt: Wait + Copy>(&mut self, rt: Rt, lane: &Lane<E>, event: E) -> Result<(), E>
        requires lane { self.old.lane ≡ lane.now.id }
        requires lawful { E.lawful self.old.bounds self.old.number (self.old.put ++ E.noted event ∷ []) }
        ensures ok { OnOk result (self.new ≡ after_put self.old (E.noted event)) }
        ensures err { OnErr result (self.new ≡ self.old) }
        ensures back { IfErr result (λ back. back ≡ event) }
    {
        steps::put(&rt, &lane.queue, &mut self.pass, self.number, event)
    }

    /// A note of what this port has put so far. It takes no memory, and always succeeds.
    pub fn tell<Rt: Copy>(&mut self, _rt: Rt, lane: &Lane<E>) -> Result<PutNote<E>, OutOfMemory>
        requires { self.old.lane ≡ lane.now.id }
        ensures ok { IsOk result }
        ensures note { IfOk result (λ note. note ≡ note_of_port self.old) }
        ensures same { self.new ≡ self.old }
    {
        let pass = steps::tell(&lane.queue, &mut self.pass);
        Ok(PutNote {
            number: self.number,
            pass,
        })
    }
}
