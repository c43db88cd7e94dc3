ghost use Rattle.std.specs.Prelude.{◌≡◌, [], ◌∷◌, ◌++◌, map, OnOk, IfOk};
ghost use Rattle.mama_record.specs.RunView.{entries_of};
ghost use Rattle.mama_close.specs.Kinds.{entries_by};

use mama_carry::{Carried, Listener, ToBridge};
use mama_crew::PublisherSeat;
use mama_event::{PublisherEntry, ToPublisher};
use mama_lane::{Port, Taker};
use mama_memory::OutOfMemory;
use mama_posts_services::PublisherParts;
use std::alloc::Global;

/// The publishers' takers, their ports on the bridge's lane, and the journal of each.
#[derive(Drop)]
pub(crate) struct PublisherEnds<L: Listener> {
    pub(crate) takers: Vec<Taker<ToPublisher>>,
    pub(crate) to_bridge: Vec<Port<ToBridge<Carried<L>>>>,
    pub(crate) journals: Vec<Vec<PublisherEntry>>,
}

impl<L: Listener> PublisherEnds<L> {
    /// Takes the seats of the publishers apart.
    pub(crate) fn of(
        alloc: Global,
        seats: Vec<(u32, PublisherSeat<L>)>,
    ) -> Result<PublisherEnds<L>, OutOfMemory>
        ensures takers { IfOk result (λ ends. ends.takers.items ≡ map (λ s. s.1.inlet.taker) seats.items) }
        ensures to_bridge { IfOk result (λ ends. ends.to_bridge.items ≡ map (λ s. s.1.port) seats.items) }
        ensures journals { IfOk result (λ ends. entries_of ends.journals.items ≡ map entries_by seats.items) }
    {
        let mut ends = PublisherEnds {
            takers: Vec::with_capacity(alloc, seats.len())?,
            to_bridge: Vec::with_capacity(alloc, seats.len())?,
            journals: Vec::with_capacity(alloc, seats.len())?,
        };
        for seat in seats {
            ends.add(seat)?;
        }
        Ok(ends)
    }

    // Adds what the seat of the next publisher gives up.
    fn add(&mut self, seat: (u32, PublisherSeat<L>)) -> Result<(), OutOfMemory>
        ensures takers { OnOk result (self.new.takers.items ≡ self.old.takers.items ++ seat.1.inlet.taker ∷ []) }
        ensures to_bridge { OnOk result (self.new.to_bridge.items ≡ self.old.to_bridge.items ++ seat.1.port ∷ []) }
        ensures journals { OnOk result (entries_of self.new.journals.items ≡ entries_of self.old.journals.items ++ entries_by seat ∷ []) }
    {
        let (_, seat) = seat;
        let PublisherParts {
            taker,
            port,
            journal,
        } = seat.into_post().into_parts();
        self.takers.push(taker)?;
        self.to_bridge.push(port)?;
        self.journals.push(journal)?;
        Ok(())
    }
}
