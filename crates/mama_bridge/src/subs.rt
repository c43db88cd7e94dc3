ghost use Rattle.std.specs.Prelude.{◌≡◌, ◌+◌, ◌≤◌, ◌++◌, [], IfOk, OnOk};
ghost use Rattle.mama_link.specs.Link.{emit};
ghost use Rattle.mama_event.specs.declared.market.MarketMsg.{MarketMsg};
ghost use Rattle.mama_event.specs.Arrival.{piece_of};
ghost use Rattle.mama_laws_bridge.specs.Table.{SubRow, sub_passed};
ghost use Rattle.mama_bridge.specs.Links.{sub_seen, sub_view, ready_len, Holds, IsReady, ReadyIf, HoldsIf, weight, emit_outs, PassStep, EndStep, sub_held};

use crate::ends::finish;
use crate::out::{BridgeOut, deliver, gone};
use mama_event::{ObjectId, PieceMsg, SubId};
use mama_link::{Link, Prepared};
use mama_memory::{OutOfMemory, Outbox};

/// The link of a live subscription: its topic, its place, how many recaps may be asked for it and how many were, and
/// the pass that is prepared, if one is.
#[derive(Drop)]
pub(crate) struct SubLink {
    pub(crate) sub: SubId,
    pub(crate) topic: u32,
    pub(crate) queue: u32,
    pub(crate) slot: u32,
    pub(crate) recaps: u32,
    pub(crate) wished: u32,
    pub(crate) link: Link<PieceMsg>,
    pub(crate) ready: Option<Prepared<PieceMsg>>,
}

/// Prepares the next pass of a link, and tells how many messages it will put out.
pub(crate) fn prepare(link: &mut SubLink, msg: &PieceMsg) -> Result<usize, OutOfMemory>
    ensures seen { sub_seen link.new ≡ sub_seen link.old }
    ensures ready { OnOk result (IsReady link.new) }
    ensures holds { OnOk result (Holds msg.now link.new.ready) }
    ensures len { IfOk result (λ n. n ≡ ready_len link.new.ready) }
{
    let prepared = link.link.prepare(msg)?;
    let len = prepared.len();
    link.ready = Some(prepared);
    Ok(len)
}

/// Prepares the next pass of a link on a topic, and nothing of another link.
pub(crate) fn prepare_if(
    link: &mut SubLink,
    topic: u32,
    msg: &PieceMsg,
) -> Result<usize, OutOfMemory>
    ensures seen { sub_seen link.new ≡ sub_seen link.old }
    ensures ready { OnOk result (ReadyIf topic link.new) }
    ensures holds { OnOk result (HoldsIf topic msg.now link.new) }
    ensures len { IfOk result (λ n. n ≡ weight topic link.new) }
{
    if link.topic == topic {
        prepare(link, msg)
    } else {
        Ok(0)
    }
}

/// Passes the message that is prepared for a link, and delivers what comes out.
pub(crate) fn pass<L>(
    link: &mut SubLink,
    msgs: &mut Outbox<PieceMsg>,
    out: &mut Outbox<BridgeOut<L>>,
)
    requires ready { IsReady link.old }
    requires msgs { ready_len link.old.ready ≤ msgs.old.spare }
    requires out { ready_len link.old.ready ≤ out.old.spare }
    ensures sub { link.new.sub ≡ link.old.sub }
    ensures passed { (row : SubRow) (m : MarketMsg) → sub_seen link.old ≡ sub_view row → Holds (piece_of m) link.old.ready → sub_seen link.new ≡ sub_view (sub_passed m row) }
    ensures out { (row : SubRow) (m : MarketMsg) → sub_seen link.old ≡ sub_view row → Holds (piece_of m) link.old.ready → msgs.old.items ≡ [] → out.new.items ≡ out.old.items ++ emit_outs m row }
    ensures msgs { (row : SubRow) (m : MarketMsg) → sub_seen link.old ≡ sub_view row → Holds (piece_of m) link.old.ready → msgs.old.items ≡ [] → msgs.new.items ≡ [] }
    ensures msgs_spare { msgs.old.spare ≤ msgs.new.spare + ready_len link.old.ready }
    ensures out_spare { out.old.spare ≤ out.new.spare + ready_len link.old.ready }
{
    if let Some(prepared) = link.ready.take() {
        let len = prepared.len();
        link.link.pass_prepared(prepared, msgs);
        deliver(link.sub, link.queue, link.slot, len, msgs, out);
    }
}

/// Passes what is prepared for a link on a topic, and nothing through another link.
pub(crate) fn pass_if<L>(
    link: &mut SubLink,
    topic: u32,
    msgs: &mut Outbox<PieceMsg>,
    out: &mut Outbox<BridgeOut<L>>,
)
    requires ready { ReadyIf topic link.old }
    requires msgs { weight topic link.old ≤ msgs.old.spare }
    requires out { weight topic link.old ≤ out.old.spare }
    ensures sub { link.new.sub ≡ link.old.sub }
    ensures step { PassStep topic link.old link.new msgs.old.items msgs.new.items out.old.items out.new.items }
    ensures msgs_spare { msgs.old.spare ≤ msgs.new.spare + weight topic link.old }
    ensures out_spare { out.old.spare ≤ out.new.spare + weight topic link.old }
{
    if link.topic == topic {
        pass(link, msgs, out);
    }
}

/// Ends a link: delivers what it still holds, and then the notice.
pub(crate) fn end<L>(link: SubLink, msgs: &mut Outbox<PieceMsg>, out: &mut Outbox<BridgeOut<L>>)
    requires msgs { sub_held link ≤ msgs.old.spare }
    requires out { sub_held link + 1 ≤ out.old.spare }
    ensures step { EndStep link msgs.old.items msgs.new.items out.old.items out.new.items }
    ensures msgs_spare { msgs.old.spare ≤ msgs.new.spare + sub_held link }
    ensures out_spare { out.old.spare ≤ out.new.spare + (sub_held link + 1) }
{
    let SubLink {
        sub,
        topic: _,
        queue,
        slot,
        recaps: _,
        wished: _,
        link,
        ready: _,
    } = link;
    let held = link.held();
    finish(link, msgs);
    deliver(sub, queue, slot, held, msgs, out);
    gone(ObjectId::Sub(sub), queue, slot, out);
}
