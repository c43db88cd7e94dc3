// The rule of a lane's queue, and what each kind of step does to the view of the pass that makes it.
ghost use Rattle.std.specs.Prelude.{◌≡◌};
ghost use Rattle.mama_event.specs.declared.shape.Bounds.{Bounds as BoundsRecord};
ghost use Rattle.mama_lane.specs.Rule.{notes_of, IsKept, CameFromPorts, IsCaughtUp, AreBegun};
ghost use Rattle.mama_lane.specs.Steps.{opener, spent, bound, with_port, next_port, with_put, with_taken, noted_port, with_learnt, with_closed};

use crate::view::View;
use crossbeam_queue::protocol::{Join, Lesson, Outcome, Outcomes, Protocol, Split};
use crossbeam_queue::{RuledSegQueue, SegBatch, SegPass};
use mama_event::Stream;
use std::alloc::Global;
use std::marker::{Brand, PhantomData};

/// The queue of a lane: events with the numbers of their ports.
pub type Queue<E> = RuledSegQueue<(u32, E), View<<E as Stream>::Note>, Rule>;

/// The value by which the opener, a port, the taker or a note makes its steps. It has no bytes.
pub type Pass<E> = SegPass<(u32, E), View<<E as Stream>::Note>>;

/// Events that the taker took in one step, and that lie where they were put.
pub type Batch<E> = SegBatch<(u32, E), View<<E as Stream>::Note>, Global>;

/// The rule of a lane.
pub struct Rule;

impl<E: Stream> Protocol<(u32, E), View<E::Note>> for Rule {
    ghost holds = { IsKept E.noted E.lawful };

    ghost first = { opener };
}

/// Bounds that are known when a lane is opened.
pub trait Given {
    ghost bounds: { BoundsRecord };
}

impl Given for Brand {
    ghost bounds = { record { topics = 0; queues = 0 } };
}

/// The step bind: the opener is told the bounds of its lane.
pub struct Bind<G> {
    of: PhantomData<G>,
}

impl<N, G: Given> Split<View<N>> for Bind<G> {
    ghost left = { bound G.bounds };

    ghost right = { λ v. spent };
}

/// The step split: the opener makes the next port.
pub struct MakePort;

impl<N> Split<View<N>> for MakePort {
    ghost left = { with_port };

    ghost right = { next_port };
}

/// The step put: the event goes last in the lane, and the port's put list grows.
pub struct Put;

impl<E: Stream> Outcome<(u32, E), View<E::Note>> for Put {
    ghost then = { λ v x w. w ≡ with_put v (E.noted x.1) };
}

/// The step take: some of the first events leave the lane, and the taken list grows. Where it finds no event it is an
/// empty look, which shows that all that was learnt was taken.
pub struct Take;

impl<E: Stream> Outcomes<(u32, E), View<E::Note>> for Take {
    ghost then_all = { λ v xs w. (w ≡ with_taken v (notes_of E.noted xs)) × CameFromPorts E.noted E.lawful v xs w };
}

impl<E: Stream> Lesson<(u32, E), View<E::Note>> for Take {
    ghost fact = { IsCaughtUp E.noted E.lawful };
}

/// The step tell: a note gets a copy of the port's put list.
pub struct Tell;

impl<N> Split<View<N>> for Tell {
    ghost left = { λ v. v };

    ghost right = { noted_port };
}

/// The step learn: the taker keeps what the note names.
pub struct Learn;

impl<N> Join<View<N>> for Learn {
    ghost both = { with_learnt };

    ghost spent = { spent };
}

/// The step join: the taker keeps the port's put list as ended. A look at the end shows that what was taken from such
/// a port begins what it put.
pub struct End;

impl<N> Join<View<N>> for End {
    ghost both = { with_closed };

    ghost spent = { spent };
}

impl<E: Stream> Lesson<(u32, E), View<E::Note>> for End {
    ghost fact = { AreBegun E.noted E.lawful };
}
