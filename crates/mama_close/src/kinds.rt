ghost use Rattle.std.specs.Prelude.{◌≡◌, [], ◌++◌, IsOk, OnOk, IfOk};
ghost use Rattle.std.specs.List.{All, flat_map};
ghost use Rattle.mama_crew.specs.Crew.{IsCrew};
ghost use Rattle.mama_crew.specs.Seat.{HasEnded};
ghost use Rattle.mama_crew.specs.Journals.{AreJournalsOf};
ghost use Rattle.mama_close.specs.Kinds.{client_in, publisher_in, bridge_in, timers_in, queue_in, AreKindsOf, record_of};
ghost use Rattle.mama_close.specs.InKinds.{kinds_in};

use mama_carry::Listener;
use mama_crew::{BridgeSeat, ClientSeat, Hall, PublisherSeat, Script, Seat, TimersSeat};
use mama_memory::OutOfMemory;
use mama_posts_clients::QueuePost;
use std::alloc::Global;

/// The seats of a crew, kind by kind, those of clients, publishers and queues with their numbers.
#[derive(Drop)]
pub(crate) struct SeatsByKind<L: Listener> {
    pub(crate) clients: Vec<(u32, ClientSeat<L>)>,
    pub(crate) publishers: Vec<(u32, PublisherSeat<L>)>,
    pub(crate) bridge: BridgeSeat<L>,
    pub(crate) timers: TimersSeat<L>,
    pub(crate) queues: Vec<(u32, QueuePost<L>)>,
}

// The same of any seats.
#[derive(Drop)]
struct Sorted<L: Listener> {
    clients: Vec<(u32, ClientSeat<L>)>,
    publishers: Vec<(u32, PublisherSeat<L>)>,
    bridges: Vec<BridgeSeat<L>>,
    services: Vec<TimersSeat<L>>,
    queues: Vec<(u32, QueuePost<L>)>,
}

/// The seats of a crew, kind by kind, in the order of their numbers. Script and hall say whose crew it is.
pub(crate) fn by_kind<L: Listener>(
    alloc: Global,
    _script: &Script,
    _hall: &Hall<L>,
    seats: Vec<Seat<L>>,
) -> Result<SeatsByKind<L>, OutOfMemory>
    requires crew { IsCrew _script.now _hall.now seats.items }
    requires ended { All HasEnded seats.items }
    ensures kinds { IfOk result (λ kinds. AreKindsOf _script.now _hall.now (kinds_in kinds)) }
    ensures journals { IfOk result (λ kinds. AreJournalsOf seats.items (record_of _script.now (kinds_in kinds))) }
{
    let Sorted {
        clients,
        publishers,
        mut bridges,
        mut services,
        queues,
    } = sort_seats(alloc, seats)?;
    let Some(bridge) = bridges.pop() else {
        unreachable!()
    };
    let Some(timers) = services.pop() else {
        unreachable!()
    };
    Ok(SeatsByKind {
        clients,
        publishers,
        bridge,
        timers,
        queues,
    })
}

// The seats, kind by kind, each kind in their order.
fn sort_seats<L: Listener>(alloc: Global, seats: Vec<Seat<L>>) -> Result<Sorted<L>, OutOfMemory>
    ensures clients { IfOk result (λ r. r.clients.items ≡ flat_map client_in seats.items) }
    ensures publishers { IfOk result (λ r. r.publishers.items ≡ flat_map publisher_in seats.items) }
    ensures bridges { IfOk result (λ r. r.bridges.items ≡ flat_map bridge_in seats.items) }
    ensures services { IfOk result (λ r. r.services.items ≡ flat_map timers_in seats.items) }
    ensures queues { IfOk result (λ r. r.queues.items ≡ flat_map queue_in seats.items) }
{
    let mut kinds = Sorted::none(alloc);
    let added = kinds.add_all(seats);
    if_done(kinds, added)
}

// A value, if what was to be done to it was done. It is let go here alone, where its type is any.
fn if_done<T: Drop>(value: T, done: Result<(), OutOfMemory>) -> Result<T, OutOfMemory>
    ensures value { IfOk result (λ r. r ≡ value) }
    ensures done { OnOk result (IsOk done) }
{
    match done {
        Ok(()) => Ok(value),
        Err(OutOfMemory) => Err(OutOfMemory),
    }
}

impl<L: Listener> Sorted<L> {
    // No seats.
    fn none(alloc: Global) -> Sorted<L>
        ensures clients { result.clients.items ≡ [] }
        ensures publishers { result.publishers.items ≡ [] }
        ensures bridges { result.bridges.items ≡ [] }
        ensures services { result.services.items ≡ [] }
        ensures queues { result.queues.items ≡ [] }
    {
        Sorted {
            clients: Vec::new(alloc),
            publishers: Vec::new(alloc),
            bridges: Vec::new(alloc),
            services: Vec::new(alloc),
            queues: Vec::new(alloc),
        }
    }

    // Adds seats, each to those of its kind, where there were none.
    fn add_all(&mut self, seats: Vec<Seat<L>>) -> Result<(), OutOfMemory>
        requires clients { self.old.clients.items ≡ [] }
        requires publishers { self.old.publishers.items ≡ [] }
        requires bridges { self.old.bridges.items ≡ [] }
        requires services { self.old.services.items ≡ [] }
        requires queues { self.old.queues.items ≡ [] }
        ensures clients { OnOk result (self.new.clients.items ≡ flat_map client_in seats.items) }
        ensures publishers { OnOk result (self.new.publishers.items ≡ flat_map publisher_in seats.items) }
        ensures bridges { OnOk result (self.new.bridges.items ≡ flat_map bridge_in seats.items) }
        ensures services { OnOk result (self.new.services.items ≡ flat_map timers_in seats.items) }
        ensures queues { OnOk result (self.new.queues.items ≡ flat_map queue_in seats.items) }
    {
        for seat in seats {
            self.add(seat)?;
        }
        Ok(())
    }

    // Adds a seat to those of its kind, behind the others.
    #[tactic(auto, using(mama_gather::proofs::Lists::append_none))]
    fn add(&mut self, seat: Seat<L>) -> Result<(), OutOfMemory>
        ensures clients { OnOk result (self.new.clients.items ≡ self.old.clients.items ++ client_in seat) }
        ensures publishers { OnOk result (self.new.publishers.items ≡ self.old.publishers.items ++ publisher_in seat) }
        ensures bridges { OnOk result (self.new.bridges.items ≡ self.old.bridges.items ++ bridge_in seat) }
        ensures services { OnOk result (self.new.services.items ≡ self.old.services.items ++ timers_in seat) }
        ensures queues { OnOk result (self.new.queues.items ≡ self.old.queues.items ++ queue_in seat) }
    {
        match seat {
            Seat::Client(number, seat) => {
                self.clients.push((number, seat))?;
                Ok(())
            }
            Seat::Publisher(number, seat) => {
                self.publishers.push((number, seat))?;
                Ok(())
            }
            Seat::Bridge(seat) => {
                self.bridges.push(seat)?;
                Ok(())
            }
            Seat::Timers(seat) => {
                self.services.push(seat)?;
                Ok(())
            }
            Seat::Queue(number, post) => {
                self.queues.push((number, post))?;
                Ok(())
            }
        }
    }
}
