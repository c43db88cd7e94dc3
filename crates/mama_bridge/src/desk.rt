ghost use Rattle.std.specs.Prelude.{◌≡◌, ◌+◌, ◌<◌, ◌≤◌, ◌^◌, ◌==◌, ◌&&◌, ◌||◌, ◌++◌, [], ◌∷◌, List, ℕ, not, nat_lt, nat_le, slice_set, true, false, length, position, sum_by, vec_len, IfOk, IfErr, OnOk, OnErr, if◌then◌else◌};
ghost use Rattle.std.specs.List.{list_any};
ghost use Rattle.std.specs.Vec.{vec_capacity};
ghost use Rattle.mama_journal.specs.Journal.{least_free};
ghost use Rattle.mama_link.specs.Standing.{standing_after};
ghost use Rattle.mama_event.specs.Object.{same_inbox};
ghost use Rattle.mama_event.specs.declared.ids.InboxId.{InboxId as Inbox};
ghost use Rattle.mama_event.specs.declared.shape.Shape.{Shape};
ghost use Rattle.mama_rules_services.specs.Bridge.{joins, leaves, opens, closes, asks, publishes, images, replies, wishes, put_by};
ghost use Rattle.mama_laws_bridge.specs.Table.{empty_table, all_set, marked, client_in, sender_in, settler_in, leaver_in, is_settling_by, is_ended_by, kept};
ghost use Rattle.mama_bridge.specs.Desk.{Stands, Hears, AsBefore, AllBut, AllButInboxes, AllButLinks, AllButByes};
ghost use Rattle.mama_bridge.specs.Done.{said_by, HasFlag, Marks};
ghost use Rattle.mama_bridge.specs.Ids.{is_sub_among, is_inbox_among};
ghost use Rattle.mama_bridge.specs.Putters.{actor_of, HasFlags};
ghost use Rattle.mama_msg.specs.Field.{FieldData};
ghost use Rattle.mama_packet.specs.Packet.{Spells};
ghost use Rattle.mama_event.specs.declared.market.MarketMsg.{MarketMsg};
ghost use Rattle.mama_bridge.specs.Links.{IsPieceOf, sub_seen, inbox_seen, first_outs, image_outs, settle_outs, inbox_held};
ghost use Rattle.mama_slots.specs.Slots.{in_use, IsNext};
ghost use Rattle.mama_bridge.specs.Held.{StayHeld, KeepsHeld};
ghost use Rattle.mama_bridge.specs.Live.{all_held, StaysLive, Awaits, Gains, KeepsLive, EndsLive};

use crate::chart::Chart;
use crate::done::Done;
use crate::ending::{end_all, room, settle_if};
use crate::flags::Flags;
use crate::inboxes::Inboxes;
use crate::live::Live;
use crate::out::BridgeOut;
use crate::places::Place;
use crate::putter::Putter;
use crate::subs::SubLink;
use mama_event::{
    BridgeNote, Fids, InboxId, InboxTerms, Make, MsgKind, ObjectId, Piece, PieceMsg, Shape, SubId,
    SubKind, SubTerms, Tagged, ToPublisher, ToQueue, packed_messages_arrive,
};
use mama_link::{Faults, Link};
use mama_memory::{OutOfMemory, Outbox};
use mama_slots::Slots;
use std::alloc::Global;

/// What a bridge keeps: who joined and opened, the links in order, and who is done.
#[derive(Drop)]
pub(crate) struct Desk {
    alloc: Global,
    subs: Live,
    inboxes: Inboxes,
    slots: Slots,
    clients: Flags,
    sends: Flags,
    settled: Flags,
    byes: Flags,
}

impl Desk {
    pub(crate) fn new(alloc: Global, shape: &Shape) -> Result<Desk, OutOfMemory>
        ensures { IfOk result (λ desk. Stands (empty_table shape.now) desk) }
    {
        let publishers = shape.publisher_topics.len();
        Ok(Desk {
            alloc,
            subs: Live::new(alloc),
            inboxes: Inboxes::new(alloc),
            slots: Slots::new(alloc),
            clients: Flags::new(alloc, shape.clients as usize)?,
            sends: Flags::new(alloc, publishers)?,
            settled: Flags::new(alloc, publishers)?,
            byes: Flags::new(alloc, shape.bounds.queues as usize)?,
        })
    }

    /// Whether settling has begun.
    pub(crate) fn is_settling(&self) -> bool
        ensures { result ≡ is_settling_by self.now.clients self.now.sends }
    {
        self.clients.all() && self.sends.all()
    }

    /// Whether the ending has come.
    pub(crate) fn is_ended(&self) -> bool
        ensures { result ≡ is_ended_by self.now.clients self.now.sends self.now.settled }
    {
        self.is_settling() && self.settled.all()
    }

    pub(crate) fn leave<L: Tagged>(
        &mut self,
        sub: SubId,
        out: &mut Outbox<BridgeOut<L>>,
    ) -> Result<(), OutOfMemory>
        ensures ok { OnOk result ((shape : Shape) → Hears L.tagged shape (leaves sub) self.old self.new out.old.items out.new.items []) }
        ensures same { OnErr result (AsBefore self.old self.new) }
        ensures err { OnErr result (out.new.items ≡ out.old.items) }
    {
        packed_messages_arrive();
        self.subs.leave(self.alloc, sub, &mut self.slots, out)
    }

    pub(crate) fn close<L: Tagged>(
        &mut self,
        inbox: InboxId,
        out: &mut Outbox<BridgeOut<L>>,
    ) -> Result<(), OutOfMemory>
        ensures ok { OnOk result ((shape : Shape) → Hears L.tagged shape (closes inbox) self.old self.new out.old.items out.new.items []) }
        ensures same { OnErr result (AsBefore self.old self.new) }
        ensures err { OnErr result (out.new.items ≡ out.old.items) }
    {
        packed_messages_arrive();
        self.inboxes.close(self.alloc, inbox, &mut self.slots, out)
    }

    pub(crate) fn image<L: Tagged>(
        &mut self,
        sub: SubId,
        msg: &PieceMsg,
        out: &mut Outbox<BridgeOut<L>>,
    ) -> Result<(), OutOfMemory>
        ensures ok { OnOk result ((shape : Shape) (m : MarketMsg) → IsPieceOf m msg.now → Hears L.tagged shape (images sub m) self.old self.new out.old.items out.new.items []) }
        ensures same { OnErr result (AsBefore self.old self.new) }
        ensures err { OnErr result (out.new.items ≡ out.old.items) }
    {
        packed_messages_arrive();
        self.subs.image(self.alloc, sub, msg, out)
    }

    pub(crate) fn reply<L: Tagged>(
        &mut self,
        inbox: InboxId,
        body: &Piece,
        out: &mut Outbox<BridgeOut<L>>,
    ) -> Result<(), OutOfMemory>
        ensures ok { OnOk result ((shape : Shape) (fields : List FieldData) → Spells body.now fields → Hears L.tagged shape (replies inbox fields) self.old self.new out.old.items out.new.items []) }
        ensures same { OnErr result (AsBefore self.old self.new) }
        ensures err { OnErr result (out.new.items ≡ out.old.items) }
    {
        packed_messages_arrive();
        self.inboxes.reply(self.alloc, inbox, body, out)
    }

    pub(crate) fn publish<L: Tagged>(
        &mut self,
        shape: &Chart,
        publisher: u32,
        msg: &PieceMsg,
        out: &mut Outbox<BridgeOut<L>>,
    ) -> Result<(), OutOfMemory>
        requires { publisher < length shape.now.publisher_topics }
        ensures ok { OnOk result ((m : MarketMsg) → IsPieceOf m msg.now → Hears L.tagged shape.now (publishes publisher m) self.old self.new out.old.items out.new.items []) }
        ensures same { OnErr result (AsBefore self.old self.new) }
        ensures err { OnErr result (out.new.items ≡ out.old.items) }
    {
        packed_messages_arrive();
        let topic = shape.at(publisher as usize);
        self.subs.publish(self.alloc, topic, msg, out)
    }

    pub(crate) fn wish<L: Tagged>(
        &mut self,
        shape: &Chart,
        sub: SubId,
        sender: u32,
        out: &mut Outbox<BridgeOut<L>>,
    ) -> Result<(), OutOfMemory>
        ensures ok { OnOk result (Hears L.tagged shape.now (wishes sub sender) self.old self.new out.old.items out.new.items []) }
        ensures same { OnErr result (AsBefore self.old self.new) }
        ensures err { OnErr result (out.new.items ≡ out.old.items) }
    {
        if !may_forward(self.is_settling(), sender, shape.len()) {
            return Ok(());
        }
        self.subs.wish(sub, sender, out)
    }

    pub(crate) fn ask<L: Tagged>(
        &mut self,
        shape: &Chart,
        inbox: InboxId,
        topic: u32,
        fids: Fids,
        out: &mut Outbox<BridgeOut<L>>,
    ) -> Result<(), OutOfMemory>
        requires { length shape.now.publisher_topics < 2 ^ 32 }
        ensures ok { OnOk result (Hears L.tagged shape.now (asks inbox topic fids) self.old self.new out.old.items out.new.items []) }
        ensures same { OnErr result (AsBefore self.old self.new) }
        ensures err { OnErr result (out.new.items ≡ out.old.items) }
    {
        out.reserve(1)?;
        let may = may_ask(self.inboxes.is_open(inbox), self.is_settling());
        put_first_if(may, shape, topic, ToPublisher::Ask { inbox, fids }, out);
        Ok(())
    }

    /// Notes that a subscription joined, makes the room that it takes, and tells its slot.
    fn ready_sub<L>(
        &mut self,
        ended: bool,
        sub: SubId,
        topic: u32,
        queue: u32,
        out: &mut Outbox<BridgeOut<L>>,
    ) -> Result<u32, OutOfMemory>
        requires { is_sub_among self.old.subs.places.joined sub ≡ false }
        ensures next { IfOk result (λ slot. IsNext self.new.slots queue slot) }
        ensures least { IfOk result (λ slot. (used : List ℕ) → ((k : ℕ) → in_use self.old.slots queue k ≡ list_any (λ n. n == k) used) → slot ≡ least_free used) }
        ensures held { StayHeld self.old.slots self.new.slots }
        ensures room_out { OnOk result (1 < out.new.spare) }
        ensures subs { IfOk result (λ slot. Awaits ended (record { sub = sub; topic = topic; queue = queue; slot = slot }) self.old.subs self.new.subs) }
        ensures same_subs { OnErr result (StaysLive self.old.subs self.new.subs) }
        ensures rest { AllBut self.old self.new }
        ensures out { out.new.items ≡ out.old.items }
    {
        let slot = self.slots.next(queue)?;
        out.reserve(2)?;
        let place = Place {
            sub,
            topic,
            queue,
            slot,
        };
        self.subs.ready(self.alloc, ended, place)?;
        Ok(slot)
    }

    pub(crate) fn join<L: Tagged>(
        &mut self,
        shape: &Chart,
        sub: SubId,
        terms: SubTerms,
        listener: L,
        out: &mut Outbox<BridgeOut<L>>,
    ) -> Result<(), (SubTerms, L)>
        requires { length shape.now.publisher_topics < 2 ^ 32 }
        ensures ok { OnOk result (Hears L.tagged shape.now (joins sub terms (L.tagged listener)) self.old self.new out.old.items out.new.items (if is_sub_among self.old.subs.places.joined sub then [] else listener ∷ [])) }
        ensures back { IfErr result (λ given. given ≡ (terms, listener)) }
        ensures same { OnErr result (AsBefore self.old self.new) }
        ensures err { OnErr result (out.new.items ≡ out.old.items) }
    {
        if self.subs.has_joined(sub) {
            return Ok(());
        }
        let ended = self.is_ended();
        let slot = match self.ready_sub(ended, sub, terms.topic, terms.queue, out) {
            Ok(slot) => slot,
            Err(_) => return Err((terms, listener)),
        };
        let SubTerms {
            topic,
            kind,
            queue,
            cache,
            recaps,
            faults,
        } = terms;
        let link = new_link(self.alloc, sub, topic, queue, slot, recaps, faults);
        self.add_sub(ended, link);
        hold_unless(ended, &mut self.slots, queue, slot);
        let object = ObjectId::Sub(sub);
        let strategy = shape.strategy();
        let make = Make::Sub {
            kind,
            cache,
            strategy,
        };
        out.push_reserved(BridgeOut::Queue(
            queue,
            ToQueue::Create {
                slot,
                object,
                make,
                listener,
            },
        ));
        want_image(shape, sub, kind, topic, out);
        Ok(())
    }

    /// Whether settling has begun once this is said.
    fn is_settling_with(&self, who: Done) -> bool
        requires { HasFlag self.now who }
        ensures { result ≡ is_settling_by (marked self.now.clients (client_in (said_by who))) (marked self.now.sends (sender_in (said_by who))) }
    {
        match who {
            Done::Client(client) => both(self.clients.all_with(client as usize), self.sends.all()),
            Done::Sends(publisher) => {
                both(self.clients.all(), self.sends.all_with(publisher as usize))
            }
            Done::Settled(_) => self.is_settling(),
        }
    }

    /// Whether every publisher has settled once this is said.
    fn is_settled_with(&self, who: Done) -> bool
        requires { HasFlag self.now who }
        ensures { result ≡ all_set (marked self.now.settled (settler_in (said_by who))) }
    {
        match who {
            Done::Settled(publisher) => self.settled.all_with(publisher as usize),
            _ => self.settled.all(),
        }
    }

    /// Marks that this is said.
    fn mark(&mut self, who: Done)
        requires { HasFlag self.old who }
        ensures { Marks who self.old self.new }
    {
        match who {
            Done::Client(client) => self.clients.set(client as usize),
            Done::Sends(publisher) => self.sends.set(publisher as usize),
            Done::Settled(publisher) => self.settled.set(publisher as usize),
        }
    }

    /// Notes that an actor is done, and settles and ends, where either comes with it.
    pub(crate) fn done<L: Tagged>(
        &mut self,
        shape: &Chart,
        who: Done,
        publishers: u32,
        out: &mut Outbox<BridgeOut<L>>,
    ) -> Result<(), OutOfMemory>
        requires who { HasFlag self.old who }
        requires publishers { publishers ≡ length shape.now.publisher_topics }
        ensures ok { OnOk result (Hears L.tagged shape.now (said_by who) self.old self.new out.old.items out.new.items []) }
        ensures same { OnErr result (AsBefore self.old self.new) }
        ensures err { OnErr result (out.new.items ≡ out.old.items) }
    {
        packed_messages_arrive();
        let settling = self.is_settling_with(who);
        let ending = both(settling, self.is_settled_with(who));
        let settles = begins(settling, self.is_settling());
        let ends = begins(ending, self.is_ended());
        self.turn(settles, ends, publishers, shape.queues(), out)?;
        self.mark(who);
        Ok(())
    }

    /// Whether an actor's Bye is the last queue's.
    pub(crate) fn ends_with_bye(&self, putter: Putter) -> bool
        requires { HasFlags self.now putter }
        ensures { result ≡ (all_set (marked self.now.byes (leaver_in (put_by (actor_of putter) BridgeNote.Bye))) && not (all_set self.now.byes)) }
    {
        match putter {
            Putter::Queue(queue) => begins(self.byes.all_with(queue as usize), self.byes.all()),
            _ => false,
        }
    }

    /// Hears an actor's Bye. It takes no memory.
    pub(crate) fn hear_bye(&mut self, putter: Putter)
        requires { HasFlags self.old putter }
        ensures byes { self.new.byes ≡ marked self.old.byes (leaver_in (put_by (actor_of putter) BridgeNote.Bye)) }
        ensures rest { AllButByes self.old self.new }
    {
        if let Putter::Queue(queue) = putter {
            self.byes.set(queue as usize);
        }
    }

    /// Ends all links, if the ending comes, into a list and outboxes with room.
    fn end_if<L>(
        &mut self,
        ends: bool,
        publishers: u32,
        queues: u32,
        mut links: Vec<SubLink>,
        msgs: &mut Outbox<PieceMsg>,
        bodies: &mut Outbox<Piece>,
        out: &mut Outbox<BridgeOut<L>>,
    )
        requires no_links { links.items ≡ [] }
        requires links { length self.old.subs.places.live ≤ vec_capacity links }
        requires msgs { all_held self.old.subs.topics ≤ msgs.old.spare }
        requires bodies { sum_by inbox_held self.old.inboxes.links ≤ bodies.old.spare }
        requires out { all_held self.old.subs.topics + length self.old.subs.places.live + (sum_by inbox_held self.old.inboxes.links + length self.old.inboxes.links) + (queues + publishers + 1) ≤ out.old.spare }
        requires no_msgs { msgs.old.items ≡ [] }
        requires no_bodies { bodies.old.items ≡ [] }
        ensures subs { KeepsLive ends self.old.subs self.new.subs }
        ensures inboxes { self.new.inboxes.links ≡ kept ends self.old.inboxes.links }
        ensures slots { KeepsHeld ends self.old.slots self.new.slots }
        ensures out { EndsLive ends publishers queues self.old.subs self.old.inboxes.links out.old.items out.new.items }
        ensures rest { AllButLinks self.old self.new }
    {
        if ends {
            self.subs.take_all(&mut links);
            let inboxes = self.inboxes.take_all(self.alloc);
            self.slots = Slots::new(self.alloc);
            end_all(links, inboxes, publishers, queues, msgs, bodies, out);
        }
    }

    /// Settles and ends, where either comes. Where neither does, no link is looked at.
    fn turn<L>(
        &mut self,
        settles: bool,
        ends: bool,
        publishers: u32,
        queues: u32,
        out: &mut Outbox<BridgeOut<L>>,
    ) -> Result<(), OutOfMemory>
        ensures subs { OnOk result (KeepsLive ends self.old.subs self.new.subs) }
        ensures inboxes { OnOk result (self.new.inboxes.links ≡ kept ends self.old.inboxes.links) }
        ensures slots { OnOk result (KeepsHeld ends self.old.slots self.new.slots) }
        ensures out { OnOk result (EndsLive ends publishers queues self.old.subs self.old.inboxes.links (out.old.items ++ (if settles then settle_outs publishers else [])) out.new.items) }
        ensures rest { AllButLinks self.old self.new }
        ensures same_subs { OnErr result (self.new.subs ≡ self.old.subs) }
        ensures same_inboxes { OnErr result (self.new.inboxes.links ≡ self.old.inboxes.links) }
        ensures same_slots { OnErr result (self.new.slots ≡ self.old.slots) }
        ensures err { OnErr result (out.new.items ≡ out.old.items) }
    {
        if !settles && !ends {
            return Ok(());
        }
        let held = self.subs.held()?;
        let count = self.subs.count();
        let replies = self.inboxes.held()?;
        let opened = self.inboxes.count();
        let more = room(held, count, replies, opened, publishers, queues)?;
        out.reserve(more)?;
        let mut links = Vec::new(self.alloc);
        links.reserve(count)?;
        let mut msgs = Outbox::new(self.alloc);
        msgs.reserve(held)?;
        let mut bodies = Outbox::new(self.alloc);
        bodies.reserve(replies)?;
        settle_if(settles, publishers, out);
        self.end_if(ends, publishers, queues, links, &mut msgs, &mut bodies, out);
        Ok(())
    }

    pub(crate) fn open_inbox<L: Tagged>(
        &mut self,
        inbox: InboxId,
        terms: InboxTerms,
        listener: L,
        out: &mut Outbox<BridgeOut<L>>,
    ) -> Result<(), (InboxTerms, L)>
        ensures ok { OnOk result ((shape : Shape) → Hears L.tagged shape (opens inbox terms (L.tagged listener)) self.old self.new out.old.items out.new.items (if is_inbox_among self.old.inboxes.opened inbox then [] else listener ∷ [])) }
        ensures back { IfErr result (λ given. given ≡ (terms, listener)) }
        ensures same { OnErr result (AsBefore self.old self.new) }
        ensures err { OnErr result (out.new.items ≡ out.old.items) }
    {
        if self.inboxes.has_opened(inbox) {
            return Ok(());
        }
        let queue = terms.queue;
        let slot = match ready_slot(&mut self.slots, queue, out) {
            Ok(slot) => slot,
            Err(_) => return Err((terms, listener)),
        };
        let ended = self.is_ended();
        match self.inboxes.open(self.alloc, ended, inbox, slot, terms) {
            Ok(()) => {}
            Err(terms) => return Err((terms, listener)),
        }
        hold_unless(ended, &mut self.slots, queue, slot);
        let object = ObjectId::Inbox(inbox);
        let make = Make::Inbox;
        out.push_reserved(BridgeOut::Queue(
            queue,
            ToQueue::Create {
                slot,
                object,
                make,
                listener,
            },
        ));
        Ok(())
    }

    /// Keeps the link of a new subscription, unless the ending has come.
    fn add_sub(&mut self, ended: bool, link: SubLink)
        ensures subs { Gains ended link self.old.subs self.new.subs }
        ensures slots { self.new.slots ≡ self.old.slots }
        ensures rest { AllBut self.old self.new }
    {
        if !ended {
            self.subs.add(link);
        }
    }
}

/// Tells the next slot of a queue, and makes room to hold it and for a Create.
fn ready_slot<L>(
    slots: &mut Slots,
    queue: u32,
    out: &mut Outbox<BridgeOut<L>>,
) -> Result<u32, OutOfMemory>
    ensures next { IfOk result (λ slot. IsNext slots.new queue slot) }
    ensures least { IfOk result (λ slot. (used : List ℕ) → ((k : ℕ) → in_use slots.old queue k ≡ list_any (λ n. n == k) used) → slot ≡ least_free used) }
    ensures held { StayHeld slots.old slots.new }
    ensures room { OnOk result (0 < out.new.spare) }
    ensures out { out.new.items ≡ out.old.items }
{
    let slot = slots.next(queue)?;
    out.reserve(1)?;
    Ok(slot)
}

/// Holds the next slot of a queue, unless the ending has come.
fn hold_unless(ended: bool, slots: &mut Slots, queue: u32, slot: u32)
    requires { IsNext slots.old queue slot }
    ensures { (of k : ℕ) → in_use slots.new of k ≡ (in_use slots.old of k || (not ended && (of == queue && k == slot))) }
{
    if !ended {
        slots.hold(queue, slot);
    }
}

/// Whether a wish for a recap of this sender is forwarded, if a link's terms allow one more.
fn may_forward(settling: bool, sender: u32, publishers: usize) -> bool
    ensures { result ≡ (not settling && (nat_lt 0 sender && nat_le sender publishers)) }
{
    !settling && sender > 0 && sender as usize <= publishers
}

/// Whether an ask is forwarded.
fn may_ask(is_open: bool, settling: bool) -> bool
    ensures { result ≡ (is_open && not settling) }
{
    is_open && !settling
}

/// Puts an event to the first publisher of a topic, if it may and there is one, into an outbox with room.
fn put_first_if<L>(
    may: bool,
    shape: &Chart,
    topic: u32,
    event: ToPublisher,
    out: &mut Outbox<BridgeOut<L>>,
)
    requires few { length shape.now.publisher_topics < 2 ^ 32 }
    requires room { 0 < out.old.spare }
    ensures { out.new.items ≡ out.old.items ++ (if may then first_outs (position (λ t. t == topic) shape.now.publisher_topics) event else []) }
{
    if may {
        put_first(shape, topic, event, out);
    }
}

/// Puts an event to the first publisher of a topic, if it has one, into an outbox with room.
fn put_first<L>(shape: &Chart, topic: u32, event: ToPublisher, out: &mut Outbox<BridgeOut<L>>)
    requires few { length shape.now.publisher_topics < 2 ^ 32 }
    requires room { 0 < out.old.spare }
    ensures { out.new.items ≡ out.old.items ++ first_outs (position (λ t. t == topic) shape.now.publisher_topics) event }
{
    if let Some(number) = shape.first_publisher(topic) {
        out.push_reserved(BridgeOut::Publisher(number as u32, event));
    }
}

/// A link that no message has passed.
fn new_link(
    alloc: Global,
    sub: SubId,
    topic: u32,
    queue: u32,
    slot: u32,
    recaps: u32,
    faults: Faults,
) -> SubLink
    ensures { sub_seen result ≡ record { sub = sub; topic = topic; queue = queue; slot = slot; recaps = recaps; wished = 0; link = standing_after faults [] } }
{
    SubLink {
        sub,
        topic,
        queue,
        slot,
        recaps,
        wished: 0,
        link: Link::new(alloc, faults),
        ready: None,
    }
}

/// Asks for the first image of a subscription, unless it is basic, into an outbox with room.
fn want_image<L>(
    shape: &Chart,
    sub: SubId,
    kind: SubKind,
    topic: u32,
    out: &mut Outbox<BridgeOut<L>>,
)
    requires few { length shape.now.publisher_topics < 2 ^ 32 }
    requires room { 0 < out.old.spare }
    ensures { out.new.items ≡ out.old.items ++ image_outs kind (first_outs (position (λ t. t == topic) shape.now.publisher_topics) (ToPublisher.Want sub MsgKind.Initial)) }
{
    match kind {
        SubKind::Basic => {}
        SubKind::Market => want_first(shape, sub, topic, out),
        SubKind::Snapshot => want_first(shape, sub, topic, out),
    }
}

fn want_first<L>(shape: &Chart, sub: SubId, topic: u32, out: &mut Outbox<BridgeOut<L>>)
    requires few { length shape.now.publisher_topics < 2 ^ 32 }
    requires room { 0 < out.old.spare }
    ensures { out.new.items ≡ out.old.items ++ first_outs (position (λ t. t == topic) shape.now.publisher_topics) (ToPublisher.Want sub MsgKind.Initial) }
{
    let kind = MsgKind::Initial;
    put_first(shape, topic, ToPublisher::Want { sub, kind }, out);
}

/// Whether both hold.
fn both(a: bool, b: bool) -> bool
    ensures { result ≡ (a && b) }
{
    a && b
}

/// Whether something holds that did not hold before.
fn begins(now: bool, before: bool) -> bool
    ensures { result ≡ (now && not before) }
{
    now && !before
}
