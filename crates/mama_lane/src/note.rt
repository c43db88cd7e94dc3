use crate::rule::Pass;
use mama_event::Stream;
use std::marker::Model;

/// A note that names what a port had put when it was made. A taker learns it, in whatever thread.
///
/// In a clause a note is a record of its lane, the port's number, and the notes of the events that the port had put.
#[derive(Drop)]
pub struct PutNote<E: Stream> {
    pub(crate) number: u32,
    pub(crate) pass: Pass<E>,
}

impl<E: Stream> Model for PutNote<E> {
    ghost use Rattle.std.specs.Prelude.{◌≡◌, None};
    ghost use Rattle.mama_lane.specs.Values.{NoteValue};
    ghost use Rattle.mama_lane.specs.declared.view.Role.TheVariants.{Note as NoteRole};

    ghost Value = { NoteValue E.Note };

    ghost view = { λ n. record { lane = record { web = n.pass.web; heap = n.pass.heap }; number = n.number; put = n.pass.me.view.client.put } };

    ghost invariant = { λ n. (n.pass.me.view.client.role ≡ NoteRole) × (n.pass.me.view.client.number ≡ n.number) × (n.pass.me.hand ≡ None) × (n.pass.me.spare ≡ None) };
}
