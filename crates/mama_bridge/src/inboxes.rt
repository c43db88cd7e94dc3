ghost use Rattle.std.specs.Prelude.{◌≡◌, ◌+◌, ◌<◌, ◌≤◌, ◌||◌, ◌++◌, [], ◌∷◌, List, ℕ, false, map, length, sum_by, vec_len, option_to_list, slice_index_or, None, Some, IfOk, IfErr, OnOk, OnErr, if◌then◌else◌};
ghost use Rattle.std.specs.List.{list_any, flat_map};
ghost use Rattle.std.specs.BTreeMap.{get, is_at};
ghost use Rattle.std.specs.Vec.{vec_capacity};
ghost use Rattle.mama_link.specs.Standing.{standing_after};
ghost use Rattle.mama_link.specs.Prepared.{IsPreparedFor};
ghost use Rattle.mama_msg.specs.Field.{FieldData};
ghost use Rattle.mama_payload.specs.Spelling.{spelling};
ghost use Rattle.mama_event.specs.Object.{same_inbox};
ghost use Rattle.mama_event.specs.declared.ids.InboxId.{InboxId as Inbox};
ghost use Rattle.mama_laws_bridge.specs.Table.{InboxRow, inbox_passed, kept};
ghost use Rattle.mama_bridge.specs.Ids.{inbox_cmp, is_inbox_among};
ghost use Rattle.mama_bridge.specs.Links.{inbox_seen, inbox_view, InboxReadyFor, inbox_emit_outs, inbox_end_outs, InboxEndStep, InboxEndSteps, inbox_held, InboxPass, InboxCloses, InboxFrees, inbox_link_slots, EntryAnswers, EntryCloses};
ghost use Rattle.mama_bridge.specs.Held.{Frees};
ghost use Rattle.mama_bridge.specs.Placed.{IsAt, entry_passes, present};
ghost use Rattle.mama_bridge.specs.Opened.{LinksIndexed, is_link_of, new_inbox_view};

use crate::ends::{finish, plus};
use crate::out::{BridgeOut, gone, reply};
use crate::tally::count;
use mama_event::{InboxId, InboxTerms, ObjectId, Piece};
use mama_link::{Faults, Link, Prepared};
use mama_memory::{OutOfMemory, Outbox};
use mama_slots::Slots;
use std::alloc::Global;
use std::collections::BTreeMap;
use std::marker::Model;

/// The link of an open inbox, and its place.
#[derive(Drop)]
pub(crate) struct InboxLink {
    pub(crate) inbox: InboxId,
    pub(crate) queue: u32,
    pub(crate) slot: u32,
    pub(crate) link: Link<Piece>,
}

/// Who opened an inbox, and the links of those that are open, in order of opening.
///
/// There is an entry for each that was opened before the ending, empty once it was closed, so that an index never
/// changes. An index says nothing of who opened one after the ending, which gets no entry.
#[derive(Drop)]
pub(crate) struct Inboxes {
    indexes: BTreeMap<InboxId, usize>,
    entries: Vec<Option<InboxLink>>,
}

impl Model for Inboxes {
    ghost use Rattle.std.specs.BTreeMap.{keys};
    ghost use Rattle.mama_bridge.specs.Placed.{present};
    ghost use Rattle.mama_bridge.specs.Opened.{Opened, LinksIndexed};

    ghost Value = { Opened };

    ghost view = { λ p. record { opened = keys p.indexes; links = present p.entries.items } };

    ghost invariant = { λ p. LinksIndexed p.indexes p.entries.items };
}

/// Passes the reply that is prepared for a link, and puts out what comes out.
fn pass<L>(
    link: &mut InboxLink,
    prepared: Prepared<Piece>,
    bodies: &mut Outbox<Piece>,
    out: &mut Outbox<BridgeOut<L>>,
)
    requires ready { InboxReadyFor link.old prepared }
    requires bodies { prepared.len ≤ bodies.old.spare }
    requires out { prepared.len ≤ out.old.spare }
    ensures named { link.new.inbox ≡ link.old.inbox }
    ensures passed { (body : List FieldData) (row : InboxRow) → prepared.message ≡ spelling body → inbox_seen link.old ≡ inbox_view row → inbox_seen link.new ≡ inbox_view (inbox_passed body row) }
    ensures out { (body : List FieldData) (row : InboxRow) → prepared.message ≡ spelling body → inbox_seen link.old ≡ inbox_view row → bodies.old.items ≡ [] → out.new.items ≡ out.old.items ++ inbox_emit_outs body row }
{
    let len = prepared.len();
    link.link.pass_prepared(prepared, bodies);
    reply(link.inbox, link.queue, link.slot, len, bodies, out);
}

/// Ends a link: puts out the replies that it still holds, and then the notice.
fn end<L>(link: InboxLink, bodies: &mut Outbox<Piece>, out: &mut Outbox<BridgeOut<L>>)
    requires bodies { inbox_held link ≤ bodies.old.spare }
    requires out { inbox_held link + 1 ≤ out.old.spare }
    ensures step { InboxEndStep link bodies.old.items bodies.new.items out.old.items out.new.items }
    ensures bodies_spare { bodies.old.spare ≤ bodies.new.spare + inbox_held link }
    ensures out_spare { out.old.spare ≤ out.new.spare + (inbox_held link + 1) }
{
    let InboxLink {
        inbox,
        queue,
        slot,
        link,
    } = link;
    let held = link.held();
    finish(link, bodies);
    reply(inbox, queue, slot, held, bodies, out);
    gone(ObjectId::Inbox(inbox), queue, slot, out);
}

/// Passes a reply through a link.
fn answer<L>(
    alloc: Global,
    link: &mut InboxLink,
    body: &Piece,
    out: &mut Outbox<BridgeOut<L>>,
) -> Result<(), OutOfMemory>
    ensures named { link.new.inbox ≡ link.old.inbox }
    ensures ok { OnOk result ((fields : List FieldData) (row : InboxRow) → body.now ≡ spelling fields → inbox_seen link.old ≡ inbox_view row → (inbox_seen link.new ≡ inbox_view (inbox_passed fields row)) × (out.new.items ≡ out.old.items ++ inbox_emit_outs fields row)) }
    ensures seen { OnErr result (inbox_seen link.new ≡ inbox_seen link.old) }
    ensures err { OnErr result (out.new.items ≡ out.old.items) }
{
    let prepared = link.link.prepare(body)?;
    let total = prepared.len();
    out.reserve(total)?;
    let mut bodies = Outbox::new(alloc);
    bodies.reserve(total)?;
    pass(link, prepared, &mut bodies, out);
    Ok(())
}

/// Passes a reply through the link of an entry, if it is not empty.
fn answer_entry<L>(
    alloc: Global,
    entry: &mut Option<InboxLink>,
    body: &Piece,
    out: &mut Outbox<BridgeOut<L>>,
) -> Result<(), OutOfMemory>
    ensures named { map (λ link. link.inbox) (option_to_list entry.new) ≡ map (λ link. link.inbox) (option_to_list entry.old) }
    ensures ok { OnOk result ((fields : List FieldData) → body.now ≡ spelling fields → EntryAnswers fields entry.old entry.new out.old.items out.new.items) }
    ensures seen { OnErr result (map inbox_seen (option_to_list entry.new) ≡ map inbox_seen (option_to_list entry.old)) }
    ensures err { OnErr result (out.new.items ≡ out.old.items) }
{
    match entry {
        Some(link) => answer(alloc, link, body, out),
        None => Ok(()),
    }
}

/// How many replies the link of an entry holds, which are none where it is empty.
fn held(entry: &Option<InboxLink>) -> usize
    ensures { result ≡ sum_by inbox_held (option_to_list entry.now) }
{
    match entry {
        Some(link) => link.link.held(),
        None => 0,
    }
}

/// Ends the link of an entry, if it is not empty, into outboxes with room.
pub(crate) fn end_entry<L>(
    entry: Option<InboxLink>,
    bodies: &mut Outbox<Piece>,
    out: &mut Outbox<BridgeOut<L>>,
)
    requires bodies { sum_by inbox_held (option_to_list entry) ≤ bodies.old.spare }
    requires out { sum_by inbox_held (option_to_list entry) + length (option_to_list entry) ≤ out.old.spare }
    ensures ends { InboxEndSteps (option_to_list entry) bodies.old.items bodies.new.items out.old.items out.new.items }
    ensures bodies_spare { bodies.old.spare ≤ bodies.new.spare + sum_by inbox_held (option_to_list entry) }
    ensures out_spare { out.old.spare ≤ out.new.spare + (sum_by inbox_held (option_to_list entry) + length (option_to_list entry)) }
{
    if let Some(link) = entry {
        end(link, bodies, out);
    }
}

/// Lets the slot of an entry go, if it is not empty.
fn release_of(entry: &Option<InboxLink>, slots: &mut Slots) -> Result<(), OutOfMemory>
    ensures ok { OnOk result (Frees (λ queue. inbox_link_slots queue (option_to_list entry.now)) slots.old slots.new) }
    ensures err { OnErr result (slots.new ≡ slots.old) }
{
    match entry {
        Some(link) => slots.release(link.queue, link.slot),
        None => Ok(()),
    }
}

/// Empties an entry, lets its slot go, and ends the link that was there.
fn close_entry<L>(
    alloc: Global,
    entry: &mut Option<InboxLink>,
    slots: &mut Slots,
    out: &mut Outbox<BridgeOut<L>>,
) -> Result<(), OutOfMemory>
    ensures less { (link : InboxLink) → entry.new ≡ Some link → entry.old ≡ Some link }
    ensures ok { OnOk result (EntryCloses entry.old entry.new out.old.items out.new.items) }
    ensures frees { OnOk result (Frees (λ queue. inbox_link_slots queue (option_to_list entry.old)) slots.old slots.new) }
    ensures same { OnErr result (entry.new ≡ entry.old) }
    ensures held { OnErr result (slots.new ≡ slots.old) }
    ensures err { OnErr result (out.new.items ≡ out.old.items) }
{
    let held = held(entry);
    out.reserve(plus(held, 1)?)?;
    let mut bodies = Outbox::new(alloc);
    bodies.reserve(held)?;
    release_of(entry, slots)?;
    end_entry(entry.take(), &mut bodies, out);
    Ok(())
}

/// A link that no reply has passed.
fn new_link(alloc: Global, inbox: InboxId, queue: u32, slot: u32, faults: Faults) -> InboxLink
    ensures seen { inbox_seen result ≡ new_inbox_view inbox queue slot faults }
    ensures named { result.inbox ≡ inbox }
{
    InboxLink {
        inbox,
        queue,
        slot,
        link: Link::new(alloc, faults),
    }
}

/// Whether an entry is the link of an inbox.
fn is_of(entry: &Option<InboxLink>, inbox: InboxId) -> bool
    ensures { result ≡ entry_passes (is_link_of inbox) entry.now }
{
    match entry {
        Some(link) => link.inbox == inbox,
        None => false,
    }
}

/// The index, if the entry there is the link of an inbox.
fn own_index(entries: &Vec<Option<InboxLink>>, i: usize, inbox: InboxId) -> Option<usize>
    ensures { result ≡ (if entry_passes (is_link_of inbox) (slice_index_or entries.now.items i None) then Some i else None) }
{
    if i < entries.len() && is_of(&entries[i], inbox) {
        Some(i)
    } else {
        None
    }
}

/// The index of an inbox's link, if it is open.
fn index_of(
    indexes: &BTreeMap<InboxId, usize>,
    entries: &Vec<Option<InboxLink>>,
    inbox: InboxId,
) -> Option<usize>
    requires { LinksIndexed indexes.now entries.now.items }
    ensures { IsAt (is_link_of inbox) entries.now.items result }
{
    match indexes.get(&inbox) {
        Some(i) => own_index(entries, *i, inbox),
        None => None,
    }
}

/// Notes the index that the next entry has for an inbox, and makes room for that entry.
fn note(
    indexes: &mut BTreeMap<InboxId, usize>,
    entries: &mut Vec<Option<InboxLink>>,
    inbox: InboxId,
) -> Result<(), OutOfMemory>
    ensures room { OnOk result (vec_len entries.new < vec_capacity entries.new) }
    ensures noted { OnOk result ((q : Inbox) → get inbox_cmp indexes.new q ≡ (if is_at (inbox_cmp inbox) q then Some (length entries.old.items) else get inbox_cmp indexes.old q)) }
    ensures entries { entries.new.items ≡ entries.old.items }
    ensures err { OnErr result (indexes.new.entries ≡ indexes.old.entries) }
{
    entries.reserve(1)?;
    indexes.insert(inbox, entries.len())?;
    Ok(())
}

/// How many replies the links of all entries hold.
fn held_by_all(entries: &Vec<Option<InboxLink>>) -> Result<usize, OutOfMemory>
    ensures { IfOk result (λ n. n ≡ sum_by inbox_held (present entries.now.items)) }
{
    let mut total: usize = 0;
    for i in 0..entries.len() {
        total = plus(total, held(&entries[i]))?;
    }
    Ok(total)
}

impl Inboxes {
    pub(crate) fn new(alloc: Global) -> Inboxes
        ensures { result ≡ record { opened = []; links = [] } }
    {
        Inboxes {
            indexes: BTreeMap::new(alloc),
            entries: Vec::new(alloc),
        }
    }

    /// Whether an inbox was opened before.
    pub(crate) fn has_opened(&self, inbox: InboxId) -> bool
        ensures { result ≡ is_inbox_among self.now.opened inbox }
    {
        self.indexes.contains_key(&inbox)
    }

    /// Whether an inbox is open.
    pub(crate) fn is_open(&self, inbox: InboxId) -> bool
        ensures { result ≡ list_any (is_link_of inbox) self.now.links }
    {
        index_of(&self.indexes, &self.entries, inbox).is_some()
    }

    /// Notes that an inbox was opened, and keeps a link of it unless the ending has come. The error gives the terms back.
    pub(crate) fn open(
        &mut self,
        alloc: Global,
        ended: bool,
        inbox: InboxId,
        slot: u32,
        terms: InboxTerms,
    ) -> Result<(), InboxTerms>
        requires { is_inbox_among self.old.opened inbox ≡ false }
        ensures opened { OnOk result ((one : Inbox) → is_inbox_among self.new.opened one ≡ (is_inbox_among self.old.opened one || same_inbox inbox one)) }
        ensures links { OnOk result (map inbox_seen self.new.links ≡ map inbox_seen self.old.links ++ kept ended (new_inbox_view inbox terms.queue slot terms.faults ∷ [])) }
        ensures back { IfErr result (λ given. given ≡ terms) }
        ensures err { OnErr result (self.new ≡ self.old) }
    {
        match note(&mut self.indexes, &mut self.entries, inbox) {
            Ok(()) => {}
            Err(_) => return Err(terms),
        }
        if ended {
            return Ok(());
        }
        let InboxTerms { queue, faults } = terms;
        let link = new_link(alloc, inbox, queue, slot, faults);
        self.entries.push_reserved(Some(link));
        Ok(())
    }

    /// Passes a reply through an inbox's link, if it is open.
    pub(crate) fn reply<L>(
        &mut self,
        alloc: Global,
        inbox: InboxId,
        body: &Piece,
        out: &mut Outbox<BridgeOut<L>>,
    ) -> Result<(), OutOfMemory>
        ensures opened { self.new.opened ≡ self.old.opened }
        ensures ok { OnOk result ((fields : List FieldData) → body.now ≡ spelling fields → InboxPass inbox fields self.old.links self.new.links out.old.items out.new.items) }
        ensures seen { OnErr result (map inbox_seen self.new.links ≡ map inbox_seen self.old.links) }
        ensures err { OnErr result (out.new.items ≡ out.old.items) }
    {
        match index_of(&self.indexes, &self.entries, inbox) {
            Some(i) => answer_entry(alloc, &mut self.entries[i], body, out),
            None => Ok(()),
        }
    }

    /// Ends an inbox's link and lets its slot go, if it is open.
    pub(crate) fn close<L>(
        &mut self,
        alloc: Global,
        inbox: InboxId,
        slots: &mut Slots,
        out: &mut Outbox<BridgeOut<L>>,
    ) -> Result<(), OutOfMemory>
        ensures opened { self.new.opened ≡ self.old.opened }
        ensures ok { OnOk result (InboxCloses inbox self.old.links self.new.links out.old.items out.new.items) }
        ensures frees { OnOk result (InboxFrees inbox self.old.links slots.old slots.new) }
        ensures same { OnErr result (self.new.links ≡ self.old.links) }
        ensures held { OnErr result (slots.new ≡ slots.old) }
        ensures err { OnErr result (out.new.items ≡ out.old.items) }
    {
        match index_of(&self.indexes, &self.entries, inbox) {
            Some(i) => close_entry(alloc, &mut self.entries[i], slots, out),
            None => Ok(()),
        }
    }

    /// How many inboxes are open. It looks at each that ever was.
    pub(crate) fn count(&self) -> usize
        ensures { result ≡ length self.now.links }
    {
        count(&self.entries)
    }

    /// How many replies all links hold.
    pub(crate) fn held(&self) -> Result<usize, OutOfMemory>
        ensures { IfOk result (λ n. n ≡ sum_by inbox_held self.now.links) }
    {
        held_by_all(&self.entries)
    }

    /// Takes all links out, in order, among them an empty entry for each inbox that was closed. It takes no memory.
    pub(crate) fn take_all(&mut self, alloc: Global) -> Vec<Option<InboxLink>>
        ensures links { present result.items ≡ self.old.links }
        ensures opened { self.new.opened ≡ self.old.opened }
        ensures none { self.new.links ≡ [] }
    {
        std::mem::replace(&mut self.entries, Vec::new(alloc))
    }
}
