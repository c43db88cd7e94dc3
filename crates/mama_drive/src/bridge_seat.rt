ghost use Rattle.std.specs.Prelude.{◌≡◌, [], ◌∷◌, ◌++◌, map, OnOk, OnErr, IfOk, IfErr};
ghost use Rattle.mama_event.specs.ToBridge.{note_of};
ghost use Rattle.mama_rules_services.specs.Bridge.{bridge_puts_at};
ghost use Rattle.mama_rules_rounds.specs.World.{is_empty};
ghost use Rattle.mama_bridge.specs.Outs.{put_note};
ghost use Rattle.mama_plans.specs.Put.{own_tag};
ghost use Rattle.mama_drive.specs.Seat.{took, took_puts};

use mama_bridge::{Bridge, BridgeOut, MemoryBridge};
use mama_event::{BridgeNote, ObjectId, Shape, ToBridge};
use mama_memory::{OutOfMemory, Outbox};
use std::alloc::Global;
use std::collections::VecDeque;
use std::marker::Model;

/// The bridge with its journal, and what waits on its lane.
#[derive(Drop)]
pub struct BridgeSeat {
    alloc: Global,
    bridge: MemoryBridge<ObjectId>,
    lane: VecDeque<(u32, ToBridge<ObjectId>)>,
}

impl Model for BridgeSeat {
    ghost use Rattle.std.specs.Prelude.{map};
    ghost use Rattle.mama_event.specs.declared.to_bridge.BridgeNote.{BridgeNote};
    ghost use Rattle.mama_drive.specs.Seat.{ServiceSeat};

    ghost Value = { ServiceSeat BridgeNote };

    ghost use Rattle.mama_drive.specs.Entry.{bridge_entry};

    ghost view = { λ s. record { shape = s.bridge.shape; journal = s.bridge.journal; lane = map bridge_entry s.lane.items } };
}

impl BridgeSeat {
    /// A bridge of this shape that has done nothing yet.
    pub(crate) fn new(alloc: Global, shape: &Shape) -> Result<BridgeSeat, OutOfMemory>
        ensures { IfOk result (λ seat. seat ≡ record { shape = shape.now; journal = []; lane = [] }) }
    {
        Ok(BridgeSeat {
            alloc,
            bridge: MemoryBridge::new(alloc, shape)?,
            lane: VecDeque::new(alloc),
        })
    }

    /// Whether nothing waits on its lane.
    pub(crate) fn is_quiet(&self) -> bool
        ensures { result ≡ is_empty self.now.lane }
    {
        self.lane.is_empty()
    }

    /// Puts an event of a port at the end of the lane. Where no memory is found the event is given back, and all is as
    /// before.
    pub(crate) fn put(
        &mut self,
        port: u32,
        event: ToBridge<ObjectId>,
    ) -> Result<(), ToBridge<ObjectId>>
        ensures lane { OnOk result (self.new ≡ record self.old { lane = self.old.lane ++ (port, note_of own_tag event) ∷ [] }) }
        ensures shape { self.new.shape ≡ self.old.shape }
        ensures back { IfErr result (λ given. given ≡ event) }
        ensures err { OnErr result (self.new ≡ self.old) }
    {
        match self.lane.push_back((port, event)) {
            Ok(()) => Ok(()),
            Err(failed) => Err(failed.value.1),
        }
    }

    /// Takes the first event of the lane, if there is one, and gives what it puts. Where no memory is found all is as
    /// before.
    pub(crate) fn turn(&mut self) -> Result<Outbox<BridgeOut<ObjectId>>, OutOfMemory>
        ensures seat { OnOk result (self.new ≡ took self.old self.old.lane) }
        ensures puts { IfOk result (λ out. map (put_note own_tag) out.items ≡ took_puts bridge_puts_at self.old self.old.lane) }
        ensures shape { self.new.shape ≡ self.old.shape }
        ensures err { OnErr result (self.new ≡ self.old) }
    {
        let mut out = Outbox::new(self.alloc);
        let Some((port, event)) = self.lane.pop_front() else {
            return Ok(out);
        };
        match self.bridge.take(port, event, &mut out) {
            Ok(_) => Ok(out),
            Err(event) => {
                // There is room for it since it was taken.
                self.lane.push_front_reserved((port, event));
                Err(OutOfMemory)
            }
        }
    }

    /// The journal.
    pub(crate) fn into_journal(self) -> Vec<(u32, BridgeNote)>
        ensures { result.items ≡ self.journal }
    {
        let BridgeSeat {
            alloc: _,
            bridge,
            lane: _,
        } = self;
        bridge.into_journal()
    }
}
