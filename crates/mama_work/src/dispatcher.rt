// The seats of queues, which move between threads.
ghost use Rattle.std.specs.Prelude.{◌≡◌, ⊤};
ghost use Rattle.mama_work.specs.Dispatcher.{queue_number};

use crate::seat::Seat;
use crate::worker::{Shared, steps};
use mama_edge::{Clock, Gate, GateActor};
use mama_memory::OutOfMemory;
use mama_pool::Numbered;
use std::marker::{Brand, Model, PhantomData};
use std::sync::Wait;

/// Which seats sit by the script and in the hall of a crew. It stands for that crew in the type of its dispatchers.
pub trait Crew<S> {
    ghost has: { S → Type 0 };
}

impl<S> Crew<S> for Brand {
    ghost has = { λ seat. ⊤ };
}

/// The seat of a queue of a crew, as a value that moves between hands. In a clause it is the seat; its number is the queue's.
#[derive(Drop)]
pub struct Dispatcher<S: Seat, K: Crew<S>> {
    seat: S,
    crew: PhantomData<K>,
}

impl<S: Seat, K: Crew<S>> Model for Dispatcher<S, K> {
    ghost Value = { S };

    ghost view = { λ d. d.seat };

    ghost invariant = { λ d. K.has d.seat };
}

impl<S: Seat, K: Crew<S>> Numbered for Dispatcher<S, K> {
    ghost numbered = { λ d. queue_number (S.acts d) };

    fn number(&self) -> u32 {
        number_of(self.seat.actor())
    }
}

/// The number of a queue, or 0 where it is none.
pub fn number_of(actor: GateActor) -> u32
    ensures { result ≡ queue_number actor }
{
    match actor {
        GateActor::Queue(number) => number,
        _ => 0,
    }
}

impl<S: Seat, K: Crew<S>> Dispatcher<S, K> {
    pub fn new(seat: S) -> Self
        requires { K.has seat }
        ensures { result ≡ seat }
    {
        Dispatcher {
            seat,
            crew: PhantomData,
        }
    }

    pub fn into_seat(self) -> S
        ensures seat { result ≡ self }
        ensures crew { K.has result }
    {
        let Dispatcher { seat, crew: _ } = self;
        seat
    }

    /// Whether its seat has ended.
    pub fn ended(&self) -> bool {
        self.seat.ended()
    }

    /// Gives its seat turns until it has ended or one makes no step, 64 at most, and says whether one made a step.
    pub fn turns<C: Clock, G: Gate, Rt: Wait + Copy>(
        &mut self,
        rt: Rt,
        shared: &Shared<'_, '_, S, C, G>,
    ) -> Result<bool, OutOfMemory>
        requires from { (seat : S) → K.has seat → S.sits shared.now.script.now shared.now.hall.now seat }
        requires to { (seat : S) → S.sits shared.now.script.now shared.now.hall.now seat → K.has seat }
        ensures { S.acts self.new ≡ S.acts self.old }
    {
        steps(rt, shared, &mut self.seat)
    }
}
