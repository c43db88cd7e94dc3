//! The seats of a crew in the order of their actors.
ghost use Rattle.std.specs.Prelude.{◌≡◌, ◌∷◌, [], length, map, true, IfOk};
ghost use Rattle.std.specs.List.{All};
ghost use Rattle.mama_journal.specs.Journal.{numbers_below};
ghost use Rattle.mama_edge.specs.declared.gate.GateActor.TheVariants as gate;
ghost use Rattle.mama_shown.specs.Seat.{actor_of, IsSeatOf, HasEnded};
ghost use Rattle.mama_crew.specs.Crew.{actors_of};
ghost use Rattle.mama_play.specs.Kinds.{numbered};

use mama_carry::Listener;
use mama_crew::{GateActor, Hall, Script};
use mama_event::Shape;
use mama_memory::OutOfMemory;
use mama_shown::{GroupListener, ShownSeat};
use std::sync::Wait;

/// The kinds of actors that have numbers.
#[derive(Clone, Copy)]
pub(crate) enum Kind {
    Client,
    Publisher,
    Queue,
}

// The place of an actor: clients, publishers, the bridge, the timer service, and queues, each kind by its numbers.
fn place_of(actor: GateActor) -> (u8, u32) {
    match actor {
        GateActor::Client(number) => (0, number),
        GateActor::Publisher(number) => (1, number),
        GateActor::Bridge => (2, 0),
        GateActor::Timers => (3, 0),
        GateActor::Queue(number) => (4, number),
    }
}

// Whether this is the actor of this kind and number.
fn is_numbered(actor: GateActor, kind: Kind, number: usize) -> bool
    ensures { result ≡ true → actor ≡ numbered kind number }
{
    match (kind, actor) {
        (Kind::Client, GateActor::Client(n)) => n as usize == number,
        (Kind::Publisher, GateActor::Publisher(n)) => n as usize == number,
        (Kind::Queue, GateActor::Queue(n)) => n as usize == number,
        _ => false,
    }
}

// Whether these are the seats of the actors of a kind, in the order of their numbers from 0 on.
fn are_numbered<L: Listener, H: GroupListener, Rt: Wait + Drop>(
    kind: Kind,
    seats: &[ShownSeat<L, H, Rt>],
) -> bool
    ensures { result ≡ true → map actor_of seats.now ≡ map (numbered kind) (numbers_below (length seats.now)) }
{
    for i in 0..seats.len() {
        if !is_numbered(seats[i].actor(), kind, i) {
            return false;
        }
    }
    true
}

fn is_bridge(actor: GateActor) -> bool
    ensures { result ≡ true → actor ≡ gate.Bridge }
{
    matches!(actor, GateActor::Bridge)
}

fn is_timers(actor: GateActor) -> bool
    ensures { result ≡ true → actor ≡ gate.Timers }
{
    matches!(actor, GateActor::Timers)
}

// Whether these are the seats of the bridge and the timer service.
fn are_services<L: Listener, H: GroupListener, Rt: Wait + Drop>(
    seats: &[ShownSeat<L, H, Rt>],
) -> bool
    ensures { result ≡ true → map actor_of seats.now ≡ gate.Bridge ∷ gate.Timers ∷ [] }
{
    if seats.len() != 2 {
        return false;
    }
    if !is_bridge(seats[0].actor()) {
        return false;
    }
    is_timers(seats[1].actor())
}

// Whether these are the seats of all actors of a shape, in the order of the actors.
fn are_all<L: Listener, H: GroupListener, Rt: Wait + Drop>(
    shape: &Shape,
    seats: &[ShownSeat<L, H, Rt>],
) -> bool
    ensures { result ≡ true → map actor_of seats.now ≡ actors_of shape.now }
{
    let Some((clients, rest)) = seats.split_at_checked(shape.clients as usize) else {
        return false;
    };
    let Some((publishers, rest)) = rest.split_at_checked(shape.publisher_topics.len()) else {
        return false;
    };
    let Some((services, queues)) = rest.split_at_checked(2) else {
        return false;
    };
    if queues.len() != shape.bounds.queues as usize {
        return false;
    }
    if !are_numbered(Kind::Client, clients) {
        return false;
    }
    if !are_numbered(Kind::Publisher, publishers) {
        return false;
    }
    if !are_numbered(Kind::Queue, queues) {
        return false;
    }
    are_services(services)
}

/// The seats of a crew in the order of their actors. The error is that some actor's seat is not there, or there twice, which no
/// crew has that was opened and turned.
pub fn in_order<L: Listener, H: GroupListener, Rt: Wait + Drop>(
    script: &Script,
    _hall: &Hall<L>,
    mut seats: Vec<ShownSeat<L, H, Rt>>,
) -> Result<Vec<ShownSeat<L, H, Rt>>, OutOfMemory>
    requires seats { All (IsSeatOf script.now _hall.now) seats.items }
    requires ended { All HasEnded seats.items }
    ensures actors { IfOk result (λ r. map actor_of r.items ≡ actors_of script.now.shape) }
    ensures seats { IfOk result (λ r. All (IsSeatOf script.now _hall.now) r.items) }
    ensures ended { IfOk result (λ r. All HasEnded r.items) }
{
    seats.sort_unstable_by_key(|seat| place_of(seat.actor()));
    if are_all(script.shape(), &seats) {
        Ok(seats)
    } else {
        Err(OutOfMemory)
    }
}
