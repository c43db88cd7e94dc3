ghost use Rattle.std.specs.Prelude.{◌≡◌, ◌+◌, ◌<◌, ◌≤◌, ◌++◌, [], ◌∷◌, List, ℕ, false, map, filter, length, sum_by, vec_len, option_to_list, take, drop, IfOk, IfNone, OnOk, OnErr, ◌==◌, ◌&&◌, not, if◌then◌else◌};
ghost use Rattle.std.specs.Vec.{vec_capacity};
ghost use Rattle.mama_slots.specs.Slots.{in_use};
ghost use Rattle.mama_event.specs.declared.ids.SubId.{SubId as Sub};
ghost use Rattle.mama_event.specs.declared.market.MarketMsg.{MarketMsg};
ghost use Rattle.mama_event.specs.Arrival.{piece_of};
ghost use Rattle.mama_laws_bridge.specs.Table.{SubRow, of_sub, sub_passed};
ghost use Rattle.mama_bridge.specs.Links.{sub_seen, sub_view, sub_held, row_is_on, emit_outs, end_outs, wish_outs, wished_once, SubsPass, SubLeaves, SubWishes};
ghost use Rattle.mama_bridge.specs.Ids.{is_sub_among};
ghost use Rattle.std.specs.List.{list_any};
ghost use Rattle.mama_bridge.specs.Linked.{is_link_of};
ghost use Rattle.mama_bridge.specs.Placed.{present};
ghost use Rattle.mama_bridge.specs.Live.{links_on, links_held, all_held, place_of, HasRoomOn, OnTopic, IsLive, StaysLive, LiveDoes, LiveLeaves, LiveFrees, Awaits, TakesNext, IsTaken};

use crate::ends::plus;
use crate::links::Links;
use crate::out::BridgeOut;
use crate::places::{Place, Places};
use crate::subs::SubLink;
use mama_event::{PieceMsg, SubId};
use mama_memory::{OutOfMemory, Outbox};
use mama_slots::Slots;
use std::alloc::Global;
use std::collections::BTreeMap;

/// Links by topic.
type ByTopic = BTreeMap<u32, Links>;

/// The live subscriptions: their places in order of joining, and their links by topic. Beside the places stands who joined.
#[derive(Drop)]
pub(crate) struct Live {
    pub(crate) places: Places,
    pub(crate) topics: ByTopic,
}

/// Passes a message through the links of a topic, in order.
fn publish_on<L>(
    alloc: Global,
    topics: &mut ByTopic,
    topic: u32,
    msg: &PieceMsg,
    out: &mut Outbox<BridgeOut<L>>,
) -> Result<(), OutOfMemory>
    ensures ok { OnOk result ((m : MarketMsg) → msg.now ≡ piece_of m → OnTopic topic (λ old new. SubsPass (row_is_on topic) m old new out.old.items out.new.items) topics.old topics.new) }
    ensures seen { OnErr result (OnTopic topic (λ old new. map sub_seen new ≡ map sub_seen old) topics.old topics.new) }
    ensures err { OnErr result (out.new.items ≡ out.old.items) }
{
    match topics.get_mut(&topic) {
        Some(links) => links.publish(alloc, topic, msg, out),
        None => Ok(()),
    }
}

/// Passes a message through a subscription's link, if it is on the topic.
fn image_on<L>(
    alloc: Global,
    topics: &mut ByTopic,
    topic: u32,
    sub: SubId,
    msg: &PieceMsg,
    out: &mut Outbox<BridgeOut<L>>,
) -> Result<(), OutOfMemory>
    ensures ok { OnOk result ((m : MarketMsg) → msg.now ≡ piece_of m → OnTopic topic (λ old new. SubsPass (of_sub sub) m old new out.old.items out.new.items) topics.old topics.new) }
    ensures seen { OnErr result (OnTopic topic (λ old new. map sub_seen new ≡ map sub_seen old) topics.old topics.new) }
    ensures err { OnErr result (out.new.items ≡ out.old.items) }
{
    match topics.get_mut(&topic) {
        Some(links) => links.image(alloc, sub, msg, out),
        None => Ok(()),
    }
}

/// Forwards a wish of a subscription, if it is on the topic and its terms allow one more.
fn wish_on<L>(
    topics: &mut ByTopic,
    topic: u32,
    sub: SubId,
    sender: u32,
    out: &mut Outbox<BridgeOut<L>>,
) -> Result<(), OutOfMemory>
    requires { 0 < sender }
    ensures ok { OnOk result (OnTopic topic (λ old new. SubWishes sender sub old new out.old.items out.new.items) topics.old topics.new) }
    ensures seen { OnErr result (OnTopic topic (λ old new. map sub_seen new ≡ map sub_seen old) topics.old topics.new) }
    ensures err { OnErr result (out.new.items ≡ out.old.items) }
{
    match topics.get_mut(&topic) {
        Some(links) => links.wish(sub, sender, out),
        None => Ok(()),
    }
}

/// Ends a subscription's link, if it is on the topic of its place, and lets the place go.
fn leave_on<L>(
    alloc: Global,
    topics: &mut ByTopic,
    sub: SubId,
    place: Place,
    slots: &mut Slots,
    out: &mut Outbox<BridgeOut<L>>,
) -> Result<(), OutOfMemory>
    ensures ok { OnOk result (OnTopic place.topic (λ old new. SubLeaves sub old new out.old.items out.new.items) topics.old topics.new) }
    ensures frees { OnOk result ((of k : ℕ) → in_use slots.new of k ≡ (in_use slots.old of k && not (of == place.queue && k == place.slot))) }
    ensures seen { OnErr result (OnTopic place.topic (λ old new. map sub_seen new ≡ map sub_seen old) topics.old topics.new) }
    ensures held { OnErr result (slots.new ≡ slots.old) }
    ensures err { OnErr result (out.new.items ≡ out.old.items) }
{
    match topics.get_mut(&place.topic) {
        Some(links) => links.leave(alloc, sub, place, slots, out),
        None => slots.release(place.queue, place.slot),
    }
}

/// Makes room for the link of a subscription on a topic, unless it has one there.
fn reserve_on(
    alloc: Global,
    topics: &mut ByTopic,
    topic: u32,
    sub: SubId,
) -> Result<(), OutOfMemory>
    ensures room { OnOk result (list_any (is_link_of sub) (links_on topics.old topic) ≡ false → HasRoomOn topics.new topic sub) }
    ensures same { (q : ℕ) → links_on topics.new q ≡ links_on topics.old q }
{
    match topics.get_mut(&topic) {
        Some(links) => links.ready(sub)?,
        None => {
            let mut links = Links::new(alloc);
            links.ready(sub)?;
            topics.insert(topic, links)?;
        }
    }
    Ok(())
}

/// Makes room for the link of a subscription on a topic, unless the ending has come.
fn reserve_unless(
    ended: bool,
    alloc: Global,
    topics: &mut ByTopic,
    topic: u32,
    sub: SubId,
) -> Result<(), OutOfMemory>
    ensures room { OnOk result (ended ≡ false → list_any (is_link_of sub) (links_on topics.old topic) ≡ false → HasRoomOn topics.new topic sub) }
    ensures same { (q : ℕ) → links_on topics.new q ≡ links_on topics.old q }
{
    if ended {
        Ok(())
    } else {
        reserve_on(alloc, topics, topic, sub)
    }
}

/// Adds a link after those of its topic, if there is room for it.
fn add_on(topics: &mut ByTopic, topic: u32, link: SubLink)
    ensures { HasRoomOn topics.old topic link.sub → OnTopic topic (λ old new. new ≡ old ++ link ∷ []) topics.old topics.new }
{
    match topics.get_mut(&topic) {
        Some(links) => links.add(link),
        None => {}
    }
}

/// Takes the first link of a topic out, if there is one.
fn next_on(topics: &mut ByTopic, topic: u32) -> Option<SubLink>
    ensures links { OnTopic topic (λ old new. old ≡ option_to_list result ++ new) topics.old topics.new }
    ensures none { IfNone result (links_on topics.old topic ≡ []) }
    ensures held { all_held topics.new + sum_by sub_held (option_to_list result) ≡ all_held topics.old }
{
    match topics.get_mut(&topic) {
        Some(links) => links.take_first(),
        None => None,
    }
}

/// Adds a link to a list with room, if there is one.
fn put_next(links: &mut Vec<SubLink>, link: Option<SubLink>)
    requires { vec_len links.old < vec_capacity links.old }
    ensures items { links.new.items ≡ links.old.items ++ option_to_list link }
    ensures len { vec_len links.new ≤ vec_len links.old + 1 }
    ensures capacity { vec_capacity links.new ≡ vec_capacity links.old }
{
    if let Some(link) = link {
        links.push_reserved(link);
    }
}

/// Moves the next link of a place's topic to a list with room, if there is a place.
fn take_next(place: Option<Place>, topics: &mut ByTopic, links: &mut Vec<SubLink>)
    requires { vec_len links.old + length (option_to_list place) ≤ vec_capacity links.old }
    ensures taken { TakesNext place topics.old topics.new links.old.items links.new.items }
    ensures held { all_held topics.new + sum_by sub_held links.new.items ≡ all_held topics.old + sum_by sub_held links.old.items }
    ensures len { vec_len links.new ≤ vec_len links.old + length (option_to_list place) }
    ensures capacity { vec_capacity links.new ≡ vec_capacity links.old }
{
    if let Some(place) = place {
        let link = next_on(topics, place.topic);
        put_next(links, link);
    }
}

/// Moves all links to a list with room, in the order of their places.
fn take_in_order(places: &Vec<Option<Place>>, topics: &mut ByTopic, links: &mut Vec<SubLink>)
    requires none { links.old.items ≡ [] }
    requires room { length (present places.now.items) ≤ vec_capacity links.old }
    ensures taken { IsTaken (present places.now.items) topics.old links.new.items }
    ensures held { sum_by sub_held links.new.items ≤ all_held topics.old }
    ensures len { vec_len links.new ≤ length (present places.now.items) }
{
    for i in 0..places.len() {
        take_next(places[i], topics, links);
    }
}

/// How many messages the links of all topics hold.
fn held_by_all(topics: &ByTopic) -> Result<usize, OutOfMemory>
    ensures { IfOk result (λ n. n ≡ all_held topics.now) }
{
    let mut total: usize = 0;
    for links in topics.values() {
        total = plus(total, links.held()?)?;
    }
    Ok(total)
}

impl Live {
    pub(crate) fn new(alloc: Global) -> Live
        ensures { IsLive [] [] result }
    {
        Live {
            places: Places::new(alloc),
            topics: BTreeMap::new(alloc),
        }
    }

    /// Whether a subscription joined before.
    pub(crate) fn has_joined(&self, sub: SubId) -> bool
        ensures { result ≡ is_sub_among self.now.places.joined sub }
    {
        self.places.has_joined(sub)
    }

    /// How many subscriptions are live. It looks at each that ever was.
    pub(crate) fn count(&self) -> usize
        ensures { result ≡ length self.now.places.live }
    {
        self.places.count()
    }

    /// How many messages all links hold.
    pub(crate) fn held(&self) -> Result<usize, OutOfMemory>
        ensures { IfOk result (λ n. n ≡ all_held self.now.topics) }
    {
        held_by_all(&self.topics)
    }

    /// Passes a message through all links on a topic, in order.
    pub(crate) fn publish<L>(
        &mut self,
        alloc: Global,
        topic: u32,
        msg: &PieceMsg,
        out: &mut Outbox<BridgeOut<L>>,
    ) -> Result<(), OutOfMemory>
        ensures ok { OnOk result ((m : MarketMsg) → msg.now ≡ piece_of m → LiveDoes (row_is_on topic) (sub_passed m) (emit_outs m) self.old self.new out.old.items out.new.items) }
        ensures same { OnErr result (StaysLive self.old self.new) }
        ensures err { OnErr result (out.new.items ≡ out.old.items) }
    {
        publish_on(alloc, &mut self.topics, topic, msg, out)
    }

    /// The place of a subscription, if it is live.
    pub(crate) fn find(&self, sub: SubId) -> Option<Place>
        ensures { (joined : List Sub) (rows : List SubRow) → IsLive joined rows self.now → option_to_list result ≡ map place_of (filter (of_sub sub) rows) }
    {
        self.places.find(sub)
    }

    /// Passes a message through a subscription's link, if it is live.
    pub(crate) fn image<L>(
        &mut self,
        alloc: Global,
        sub: SubId,
        msg: &PieceMsg,
        out: &mut Outbox<BridgeOut<L>>,
    ) -> Result<(), OutOfMemory>
        ensures ok { OnOk result ((m : MarketMsg) → msg.now ≡ piece_of m → LiveDoes (of_sub sub) (sub_passed m) (emit_outs m) self.old self.new out.old.items out.new.items) }
        ensures same { OnErr result (StaysLive self.old self.new) }
        ensures err { OnErr result (out.new.items ≡ out.old.items) }
    {
        match self.find(sub) {
            Some(place) => image_on(alloc, &mut self.topics, place.topic, sub, msg, out),
            None => Ok(()),
        }
    }

    /// Forwards a wish of a subscription, if it is live and its terms allow one more.
    pub(crate) fn wish<L>(
        &mut self,
        sub: SubId,
        sender: u32,
        out: &mut Outbox<BridgeOut<L>>,
    ) -> Result<(), OutOfMemory>
        requires { 0 < sender }
        ensures ok { OnOk result (LiveDoes (of_sub sub) wished_once (wish_outs sender) self.old self.new out.old.items out.new.items) }
        ensures same { OnErr result (StaysLive self.old self.new) }
        ensures err { OnErr result (out.new.items ≡ out.old.items) }
    {
        match self.find(sub) {
            Some(place) => wish_on(&mut self.topics, place.topic, sub, sender, out),
            None => Ok(()),
        }
    }

    /// Ends a subscription's link and lets its slot go, if it is live.
    pub(crate) fn leave<L>(
        &mut self,
        alloc: Global,
        sub: SubId,
        slots: &mut Slots,
        out: &mut Outbox<BridgeOut<L>>,
    ) -> Result<(), OutOfMemory>
        ensures ok { OnOk result (LiveLeaves sub self.old self.new out.old.items out.new.items) }
        ensures frees { OnOk result (LiveFrees sub self.old slots.old slots.new) }
        ensures same { OnErr result (StaysLive self.old self.new) }
        ensures held { OnErr result (slots.new ≡ slots.old) }
        ensures err { OnErr result (out.new.items ≡ out.old.items) }
    {
        match self.find(sub) {
            Some(place) => {
                leave_on(alloc, &mut self.topics, sub, place, slots, out)?;
                self.places.leave(sub);
                Ok(())
            }
            None => Ok(()),
        }
    }

    /// Notes that a subscription joined, and, unless the ending has come, its place, and makes room for its link.
    pub(crate) fn ready(
        &mut self,
        alloc: Global,
        ended: bool,
        place: Place,
    ) -> Result<(), OutOfMemory>
        requires { is_sub_among self.old.places.joined place.sub ≡ false }
        ensures awaits { OnOk result (Awaits ended place self.old self.new) }
        ensures same { OnErr result (StaysLive self.old self.new) }
    {
        reserve_unless(ended, alloc, &mut self.topics, place.topic, place.sub)?;
        self.places.join(ended, place)
    }

    /// Adds the link of a subscription, if there is room for it.
    pub(crate) fn add(&mut self, link: SubLink)
        ensures links { HasRoomOn self.old.topics link.topic link.sub → OnTopic link.topic (λ old new. new ≡ old ++ link ∷ []) self.old.topics self.new.topics }
        ensures places { self.new.places ≡ self.old.places }
    {
        let topic = link.topic;
        add_on(&mut self.topics, topic, link);
    }

    /// Moves all links to a list with room, in order of joining. None is live then.
    pub(crate) fn take_all(&mut self, links: &mut Vec<SubLink>)
        requires none { links.old.items ≡ [] }
        requires room { length self.old.places.live ≤ vec_capacity links.old }
        ensures seen { (joined : List Sub) (rows : List SubRow) → IsLive joined rows self.old → map sub_seen links.new.items ≡ map sub_view rows }
        ensures held { sum_by sub_held links.new.items ≤ all_held self.old.topics }
        ensures len { vec_len links.new ≤ length self.old.places.live }
        ensures empty { (joined : List Sub) (rows : List SubRow) → IsLive joined rows self.old → IsLive joined [] self.new }
    {
        take_in_order(self.places.entries(), &mut self.topics, links);
        self.places.clear();
        self.topics.clear();
    }
}
