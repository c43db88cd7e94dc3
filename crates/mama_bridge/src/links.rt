ghost use Rattle.std.specs.Prelude.{◌≡◌, ◌<◌, ◌≤◌, ◌++◌, [], ◌∷◌, ℕ, ◌==◌, ◌&&◌, not, true, false, map, sum_by, option_to_list, slice_index_or, None, Some, IfOk, IfNone, OnOk, OnErr, if◌then◌else◌};
ghost use Rattle.std.specs.List.{list_any};
ghost use Rattle.std.specs.BTreeMap.{get, is_at};
ghost use Rattle.mama_slots.specs.Slots.{in_use};
ghost use Rattle.mama_event.specs.declared.ids.SubId.{SubId as Sub};
ghost use Rattle.mama_event.specs.Arrival.{piece_of};
ghost use Rattle.mama_event.specs.declared.market.MarketMsg.{MarketMsg};
ghost use Rattle.mama_laws_bridge.specs.Table.{of_sub};
ghost use Rattle.mama_bridge.specs.Ids.{sub_cmp};
ghost use Rattle.mama_bridge.specs.Links.{sub_seen, sub_held, row_is_on, SubsPass, SubLeaves, SubWishes};
ghost use Rattle.mama_bridge.specs.Linked.{is_link_of, subs_in};
ghost use Rattle.mama_bridge.specs.Placed.{IndexedBy, IsAt, entry_passes, present};

use crate::entry::{
    first_from, held_by_all, leave_entry, pass_all, prepare_all, put_at, send_entry, wish_entry,
};
use crate::numbers::{forget, index_of};
use crate::out::BridgeOut;
use crate::places::Place;
use crate::subs::SubLink;
use mama_event::{PieceMsg, SubId};
use mama_memory::{OutOfMemory, Outbox};
use mama_slots::Slots;
use std::alloc::Global;
use std::collections::BTreeMap;
use std::marker::Model;

/// The links of one topic, in order of joining.
///
/// An entry is empty where a subscription left, or where one is to join. Where more than half of them are empty after a
/// Leave, the others move together. So a look costs a logarithm, and so does a Leave in the long run.
#[derive(Drop)]
pub(crate) struct Links {
    indexes: BTreeMap<SubId, usize>,
    entries: Vec<Option<SubLink>>,
    /// No entry before this one has a link.
    first: usize,
    /// The subscription whose link is to stand in the last entry.
    awaited: Option<SubId>,
}

impl Model for Links {
    ghost use Rattle.mama_bridge.specs.Placed.{present};
    ghost use Rattle.mama_bridge.specs.Linked.{Linked, IsNoted, subs_in};

    ghost Value = { Linked };

    ghost view = { λ p. record { links = present p.entries.items; awaited = p.awaited } };

    ghost invariant = { λ p. IsNoted p.indexes (subs_in p.entries.items) p.first p.awaited };
}

/// Whether it is a subscription's link that is to come.
fn is_awaited(awaited: Option<SubId>, sub: SubId) -> bool
    ensures yes { result ≡ true → awaited ≡ Some sub }
    ensures no { awaited ≡ Some sub → result ≡ true }
{
    match awaited {
        Some(other) => other == sub,
        None => false,
    }
}

impl Links {
    pub(crate) fn new(alloc: Global) -> Links
        ensures { result ≡ record { links = []; awaited = None } }
    {
        Links {
            indexes: BTreeMap::new(alloc),
            entries: Vec::new(alloc),
            first: 0,
            awaited: None,
        }
    }

    /// Makes room for the link of a subscription, unless it has one.
    pub(crate) fn ready(&mut self, sub: SubId) -> Result<(), OutOfMemory>
        ensures awaited { OnOk result (list_any (is_link_of sub) self.old.links ≡ false → self.new.awaited ≡ Some sub) }
        ensures links { self.new.links ≡ self.old.links }
    {
        if index_of(&self.indexes, &self.entries, sub).is_some() {
            return Ok(());
        }
        self.entries.reserve(1)?;
        self.indexes.insert(sub, self.entries.len())?;
        self.entries.push_reserved(None);
        self.awaited = Some(sub);
        Ok(())
    }

    /// Adds the link of a subscription after the others, if there is room for it. It takes no memory.
    pub(crate) fn add(&mut self, link: SubLink)
        ensures { self.old.awaited ≡ Some link.sub → self.new.links ≡ self.old.links ++ link ∷ [] }
    {
        if is_awaited(self.awaited, link.sub) {
            self.awaited = None;
            let last = self.entries.len() - 1;
            put_at(&mut self.entries, last, link);
        }
    }

    /// Passes a message through all links on a topic, in order.
    pub(crate) fn publish<L>(
        &mut self,
        alloc: Global,
        topic: u32,
        msg: &PieceMsg,
        out: &mut Outbox<BridgeOut<L>>,
    ) -> Result<(), OutOfMemory>
        ensures ok { OnOk result ((m : MarketMsg) → msg.now ≡ piece_of m → SubsPass (row_is_on topic) m self.old.links self.new.links out.old.items out.new.items) }
        ensures seen { OnErr result (map sub_seen self.new.links ≡ map sub_seen self.old.links) }
        ensures err { OnErr result (out.new.items ≡ out.old.items) }
    {
        let total = prepare_all(&mut self.entries, topic, msg)?;
        out.reserve(total)?;
        let mut msgs = Outbox::new(alloc);
        msgs.reserve(total)?;
        pass_all(&mut self.entries, topic, &mut msgs, out);
        Ok(())
    }

    /// Passes a message through a subscription's link, if it is live.
    pub(crate) fn image<L>(
        &mut self,
        alloc: Global,
        sub: SubId,
        msg: &PieceMsg,
        out: &mut Outbox<BridgeOut<L>>,
    ) -> Result<(), OutOfMemory>
        ensures ok { OnOk result ((m : MarketMsg) → msg.now ≡ piece_of m → SubsPass (of_sub sub) m self.old.links self.new.links out.old.items out.new.items) }
        ensures seen { OnErr result (map sub_seen self.new.links ≡ map sub_seen self.old.links) }
        ensures err { OnErr result (out.new.items ≡ out.old.items) }
    {
        match index_of(&self.indexes, &self.entries, sub) {
            Some(i) => send_entry(alloc, &mut self.entries[i], msg, out),
            None => Ok(()),
        }
    }

    /// Forwards a wish of a subscription, if it is live and its terms allow one more.
    pub(crate) fn wish<L>(
        &mut self,
        sub: SubId,
        sender: u32,
        out: &mut Outbox<BridgeOut<L>>,
    ) -> Result<(), OutOfMemory>
        requires { 0 < sender }
        ensures ok { OnOk result (SubWishes sender sub self.old.links self.new.links out.old.items out.new.items) }
        ensures seen { OnErr result (map sub_seen self.new.links ≡ map sub_seen self.old.links) }
        ensures err { OnErr result (out.new.items ≡ out.old.items) }
    {
        match index_of(&self.indexes, &self.entries, sub) {
            Some(i) => wish_entry(&mut self.entries[i], sender, out),
            None => Ok(()),
        }
    }

    /// Ends a subscription's link, if it is live, and lets its place go.
    pub(crate) fn leave<L>(
        &mut self,
        alloc: Global,
        sub: SubId,
        place: Place,
        slots: &mut Slots,
        out: &mut Outbox<BridgeOut<L>>,
    ) -> Result<(), OutOfMemory>
        ensures ok { OnOk result (SubLeaves sub self.old.links self.new.links out.old.items out.new.items) }
        ensures frees { OnOk result ((of k : ℕ) → in_use slots.new of k ≡ (in_use slots.old of k && not (of == place.queue && k == place.slot))) }
        ensures same { OnErr result (self.new.links ≡ self.old.links) }
        ensures held { OnErr result (slots.new ≡ slots.old) }
        ensures err { OnErr result (out.new.items ≡ out.old.items) }
    {
        match index_of(&self.indexes, &self.entries, sub) {
            Some(i) => {
                leave_entry(alloc, &mut self.entries[i], place, slots, out)?;
                self.first = 0;
                self.awaited = None;
                forget(&mut self.indexes, &mut self.entries, sub);
                Ok(())
            }
            None => slots.release(place.queue, place.slot),
        }
    }

    /// Takes the first link out, if there is one.
    pub(crate) fn take_first(&mut self) -> Option<SubLink>
        ensures links { self.old.links ≡ option_to_list result ++ self.new.links }
        ensures none { IfNone result (self.old.links ≡ []) }
    {
        match first_from(&self.entries, self.first) {
            Some(i) => {
                self.awaited = None;
                self.first = i + 1;
                self.entries[i].take()
            }
            None => None,
        }
    }

    /// How many messages all links hold.
    pub(crate) fn held(&self) -> Result<usize, OutOfMemory>
        ensures { IfOk result (λ n. n ≡ sum_by sub_held self.now.links) }
    {
        held_by_all(&self.entries)
    }
}
