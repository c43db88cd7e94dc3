ghost use Rattle.std.specs.Prelude.{◌≡◌, ◌+◌, ◌<◌, ◌≤◌, ◌++◌, [], ℕ, ◌==◌, ◌&&◌, not, length, sum_by, map, option_to_list, slice_set, None, Some, IfOk, OnOk, OnErr, if◌then◌else◌};
ghost use Rattle.mama_slots.specs.Slots.{in_use};
ghost use Rattle.mama_event.specs.Arrival.{piece_of};
ghost use Rattle.mama_event.specs.declared.market.MarketMsg.{MarketMsg};
ghost use Rattle.mama_laws_bridge.specs.Table.{sub_passed};
ghost use Rattle.mama_bridge.specs.Links.{Each, ReadyIf, HoldsIf, weights, PassSteps, sub_held, emit_outs, wish_outs, wished_once};
ghost use Rattle.mama_bridge.specs.Linked.{entry_seen, entry_sub, subs_in, PassEntry, EntryDoes, EntryEnds, IsFirst};
ghost use Rattle.mama_bridge.specs.Placed.{present};

use crate::ends::plus;
use crate::out::BridgeOut;
use crate::places::Place;
use crate::routes;
use crate::subs::{self, SubLink};
use mama_event::PieceMsg;
use mama_memory::{OutOfMemory, Outbox};
use mama_slots::Slots;
use std::alloc::Global;

/// Puts a link into an entry.
pub(crate) fn put_at(entries: &mut Vec<Option<SubLink>>, i: usize, link: SubLink)
    requires { i < length entries.old.items }
    ensures { entries.new.items ≡ slice_set entries.old.items i (Some link) }
{
    entries[i] = Some(link);
}

/// Prepares the next pass of an entry's link, if there is one and it is on a topic.
fn prepare_entry(
    entry: &mut Option<SubLink>,
    topic: u32,
    msg: &PieceMsg,
) -> Result<usize, OutOfMemory>
    ensures seen { entry_seen entry.new ≡ entry_seen entry.old }
    ensures ready { OnOk result (Each (ReadyIf topic) (option_to_list entry.new)) }
    ensures holds { OnOk result (Each (HoldsIf topic msg.now) (option_to_list entry.new)) }
    ensures len { IfOk result (λ n. n ≡ weights topic (option_to_list entry.new)) }
{
    match entry {
        Some(link) => subs::prepare_if(link, topic, msg),
        None => Ok(0),
    }
}

/// Prepares the next pass of all links on a topic, and tells how many messages they will put out.
pub(crate) fn prepare_all(
    entries: &mut Vec<Option<SubLink>>,
    topic: u32,
    msg: &PieceMsg,
) -> Result<usize, OutOfMemory>
    ensures seen { map entry_seen entries.new.items ≡ map entry_seen entries.old.items }
    ensures ready { OnOk result (Each (ReadyIf topic) (present entries.new.items)) }
    ensures holds { OnOk result (Each (HoldsIf topic msg.now) (present entries.new.items)) }
    ensures total { IfOk result (λ n. n ≡ weights topic (present entries.new.items)) }
{
    let mut total: usize = 0;
    for i in 0..entries.len() {
        let len = prepare_entry(&mut entries[i], topic, msg)?;
        total = plus(total, len)?;
    }
    Ok(total)
}

/// Passes what is prepared for an entry's link, if there is one and it is on a topic.
fn pass_entry<L>(
    entry: &mut Option<SubLink>,
    topic: u32,
    msgs: &mut Outbox<PieceMsg>,
    out: &mut Outbox<BridgeOut<L>>,
)
    requires ready { Each (ReadyIf topic) (option_to_list entry.old) }
    requires msgs { weights topic (option_to_list entry.old) ≤ msgs.old.spare }
    requires out { weights topic (option_to_list entry.old) ≤ out.old.spare }
    ensures step { PassEntry topic entry.old entry.new msgs.old.items msgs.new.items out.old.items out.new.items }
    ensures msgs_spare { msgs.old.spare ≤ msgs.new.spare + weights topic (option_to_list entry.old) }
    ensures out_spare { out.old.spare ≤ out.new.spare + weights topic (option_to_list entry.old) }
{
    if let Some(link) = entry {
        subs::pass_if(link, topic, msgs, out);
    }
}

/// Passes what is prepared through all links on a topic, in order.
pub(crate) fn pass_all<L>(
    entries: &mut Vec<Option<SubLink>>,
    topic: u32,
    msgs: &mut Outbox<PieceMsg>,
    out: &mut Outbox<BridgeOut<L>>,
)
    requires ready { Each (ReadyIf topic) (present entries.old.items) }
    requires msgs { weights topic (present entries.old.items) ≤ msgs.old.spare }
    requires out { weights topic (present entries.old.items) ≤ out.old.spare }
    ensures subs { subs_in entries.new.items ≡ subs_in entries.old.items }
    ensures steps { PassSteps topic (present entries.old.items) (present entries.new.items) msgs.old.items msgs.new.items out.old.items out.new.items }
{
    for i in 0..entries.len() {
        pass_entry(&mut entries[i], topic, msgs, out);
    }
}

/// Passes a message through the link of an entry, if there is one.
pub(crate) fn send_entry<L>(
    alloc: Global,
    entry: &mut Option<SubLink>,
    msg: &PieceMsg,
    out: &mut Outbox<BridgeOut<L>>,
) -> Result<(), OutOfMemory>
    ensures sub { entry_sub entry.new ≡ entry_sub entry.old }
    ensures ok { OnOk result ((m : MarketMsg) → msg.now ≡ piece_of m → EntryDoes (sub_passed m) (emit_outs m) entry.old entry.new out.old.items out.new.items) }
    ensures seen { OnErr result (entry_seen entry.new ≡ entry_seen entry.old) }
    ensures err { OnErr result (out.new.items ≡ out.old.items) }
{
    match entry {
        Some(link) => routes::send(alloc, link, msg, out),
        None => Ok(()),
    }
}

/// Forwards a wish of the link of an entry, if there is one and its terms allow one more.
pub(crate) fn wish_entry<L>(
    entry: &mut Option<SubLink>,
    sender: u32,
    out: &mut Outbox<BridgeOut<L>>,
) -> Result<(), OutOfMemory>
    requires { 0 < sender }
    ensures sub { entry_sub entry.new ≡ entry_sub entry.old }
    ensures ok { OnOk result (EntryDoes wished_once (wish_outs sender) entry.old entry.new out.old.items out.new.items) }
    ensures seen { OnErr result (entry_seen entry.new ≡ entry_seen entry.old) }
    ensures err { OnErr result (out.new.items ≡ out.old.items) }
{
    match entry {
        Some(link) => routes::wish_one(link, sender, out),
        None => Ok(()),
    }
}

/// How many messages the link of an entry holds, which are none where it is empty.
fn held(entry: &Option<SubLink>) -> usize
    ensures { result ≡ sum_by sub_held (option_to_list entry.now) }
{
    match entry {
        Some(link) => link.link.held(),
        None => 0,
    }
}

/// How many messages the links of all entries hold.
pub(crate) fn held_by_all(entries: &Vec<Option<SubLink>>) -> Result<usize, OutOfMemory>
    ensures { IfOk result (λ n. n ≡ sum_by sub_held (present entries.now.items)) }
{
    let mut total: usize = 0;
    for i in 0..entries.len() {
        total = plus(total, held(&entries[i]))?;
    }
    Ok(total)
}

/// Ends the link of an entry, if it is not empty, into outboxes with room.
fn end_entry<L>(entry: Option<SubLink>, msgs: &mut Outbox<PieceMsg>, out: &mut Outbox<BridgeOut<L>>)
    requires msgs { sum_by sub_held (option_to_list entry) ≤ msgs.old.spare }
    requires out { sum_by sub_held (option_to_list entry) + 1 ≤ out.old.spare }
    requires none { msgs.old.items ≡ [] }
    ensures ends { EntryEnds entry out.old.items out.new.items }
{
    if let Some(link) = entry {
        subs::end(link, msgs, out);
    }
}

/// Empties an entry, lets its place go, and ends the link that was there.
pub(crate) fn leave_entry<L>(
    alloc: Global,
    entry: &mut Option<SubLink>,
    place: Place,
    slots: &mut Slots,
    out: &mut Outbox<BridgeOut<L>>,
) -> Result<(), OutOfMemory>
    ensures gone { OnOk result (entry.new ≡ None) }
    ensures ends { OnOk result (EntryEnds entry.old out.old.items out.new.items) }
    ensures frees { OnOk result ((of k : ℕ) → in_use slots.new of k ≡ (in_use slots.old of k && not (of == place.queue && k == place.slot))) }
    ensures same { OnErr result (entry.new ≡ entry.old) }
    ensures held { OnErr result (slots.new ≡ slots.old) }
    ensures err { OnErr result (out.new.items ≡ out.old.items) }
{
    let held = held(entry);
    out.reserve(plus(held, 1)?)?;
    let mut msgs = Outbox::new(alloc);
    msgs.reserve(held)?;
    slots.release(place.queue, place.slot)?;
    end_entry(entry.take(), &mut msgs, out);
    Ok(())
}

/// The first entry from an index on that is not empty.
pub(crate) fn first_from(entries: &Vec<Option<SubLink>>, from: usize) -> Option<usize>
    ensures { IsFirst entries.now.items from result }
{
    for i in from..entries.len() {
        if entries[i].is_some() {
            return Some(i);
        }
    }
    None
}
