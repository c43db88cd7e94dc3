ghost use Rattle.std.specs.Prelude.{◌≡◌, [], ◌∷◌, ◌++◌, map, OnOk, IfOk};
ghost use Rattle.mama_record.specs.RunView.{moments_of};
ghost use Rattle.mama_close.specs.Kinds.{read_by};

use mama_carry::{Carried, Listener, ToBridge, ToTimers};
use mama_crew::ClientSeat;
use mama_lane::Port;
use mama_memory::OutOfMemory;
use mama_posts_clients::ClientParts;
use std::alloc::Global;

/// The clients' ports on the lanes of both services, and the moments that each client has read.
#[derive(Drop)]
pub(crate) struct ClientEnds<L: Listener> {
    pub(crate) to_bridge: Vec<Port<ToBridge<Carried<L>>>>,
    pub(crate) to_timers: Vec<Port<ToTimers<Carried<L>>>>,
    pub(crate) moments: Vec<Vec<u64>>,
}

impl<L: Listener> ClientEnds<L> {
    /// Takes the seats of the clients apart.
    pub(crate) fn of(
        alloc: Global,
        seats: Vec<(u32, ClientSeat<L>)>,
    ) -> Result<ClientEnds<L>, OutOfMemory>
        ensures to_bridge { IfOk result (λ ends. ends.to_bridge.items ≡ map (λ s. s.1.post.ports.to_bridge) seats.items) }
        ensures to_timers { IfOk result (λ ends. ends.to_timers.items ≡ map (λ s. s.1.post.ports.to_timers) seats.items) }
        ensures moments { IfOk result (λ ends. moments_of ends.moments.items ≡ map read_by seats.items) }
    {
        let mut ends = ClientEnds {
            to_bridge: Vec::with_capacity(alloc, seats.len())?,
            to_timers: Vec::with_capacity(alloc, seats.len())?,
            moments: Vec::with_capacity(alloc, seats.len())?,
        };
        for seat in seats {
            ends.add(seat)?;
        }
        Ok(ends)
    }

    // Adds what the seat of the next client gives up.
    fn add(&mut self, seat: (u32, ClientSeat<L>)) -> Result<(), OutOfMemory>
        ensures to_bridge { OnOk result (self.new.to_bridge.items ≡ self.old.to_bridge.items ++ seat.1.post.ports.to_bridge ∷ []) }
        ensures to_timers { OnOk result (self.new.to_timers.items ≡ self.old.to_timers.items ++ seat.1.post.ports.to_timers ∷ []) }
        ensures moments { OnOk result (moments_of self.new.moments.items ≡ moments_of self.old.moments.items ++ read_by seat ∷ []) }
    {
        let (_, seat) = seat;
        let ClientParts {
            to_bridge,
            to_timers,
            moments,
        } = seat.into_post().into_parts();
        self.to_bridge.push(to_bridge)?;
        self.to_timers.push(to_timers)?;
        self.moments.push(moments)?;
        Ok(())
    }
}
