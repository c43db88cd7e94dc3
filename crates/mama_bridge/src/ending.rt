ghost use Rattle.std.specs.Prelude.{◌≡◌, ◌+◌, ◌≤◌, ◌++◌, [], map, length, sum_by, IfOk, if◌then◌else◌};
ghost use Rattle.mama_journal.specs.Journal.{numbers_below};
ghost use Rattle.mama_bridge.specs.Placed.{present};
ghost use Rattle.mama_bridge.specs.Links.{sub_held, inbox_held, EndSteps, InboxEndSteps, Ends, settle_outs};

use crate::ends::plus;
use crate::inboxes::{InboxLink, end_entry};
use crate::out::BridgeOut;
use crate::subs::{self, SubLink};
use mama_event::{Piece, PieceMsg, ToPublisher, ToQueue, ToTimers};
use mama_memory::{OutOfMemory, Outbox};

/// Ends the links of subscriptions in order, into outboxes with room.
pub(crate) fn end_subs<L>(
    links: Vec<SubLink>,
    msgs: &mut Outbox<PieceMsg>,
    out: &mut Outbox<BridgeOut<L>>,
)
    requires msgs { sum_by sub_held links.items ≤ msgs.old.spare }
    requires out { sum_by sub_held links.items + length links.items ≤ out.old.spare }
    ensures ends { EndSteps links.items msgs.old.items msgs.new.items out.old.items out.new.items }
    ensures spare { out.old.spare ≤ out.new.spare + (sum_by sub_held links.items + length links.items) }
{
    for link in links {
        subs::end(link, msgs, out);
    }
}

/// Ends the links of inboxes in order, into outboxes with room.
pub(crate) fn end_inboxes<L>(
    entries: Vec<Option<InboxLink>>,
    bodies: &mut Outbox<Piece>,
    out: &mut Outbox<BridgeOut<L>>,
)
    requires bodies { sum_by inbox_held (present entries.items) ≤ bodies.old.spare }
    requires out { sum_by inbox_held (present entries.items) + length (present entries.items) ≤ out.old.spare }
    ensures ends { InboxEndSteps (present entries.items) bodies.old.items bodies.new.items out.old.items out.new.items }
    ensures spare { out.old.spare ≤ out.new.spare + (sum_by inbox_held (present entries.items) + length (present entries.items)) }
{
    for entry in entries {
        end_entry(entry, bodies, out);
    }
}

/// Asks every publisher to settle, into an outbox with room.
#[tactic(auto, using(crate::proofs::Stepping::numbers_more))]
pub(crate) fn settle_publishers<L>(publishers: u32, out: &mut Outbox<BridgeOut<L>>)
    requires { publishers ≤ out.old.spare }
    ensures out { out.new.items ≡ out.old.items ++ map (λ r. BridgeOut.Publisher r ToPublisher.Settle) (numbers_below publishers) }
    ensures spare { out.old.spare ≤ out.new.spare + publishers }
{
    for number in 0..publishers {
        out.push_reserved(BridgeOut::Publisher(number, ToPublisher::Settle));
    }
}

/// Says the end to every publisher, into an outbox with room.
#[tactic(auto, using(crate::proofs::Stepping::numbers_more))]
pub(crate) fn finish_publishers<L>(publishers: u32, out: &mut Outbox<BridgeOut<L>>)
    requires { publishers ≤ out.old.spare }
    ensures out { out.new.items ≡ out.old.items ++ map (λ r. BridgeOut.Publisher r ToPublisher.Fin) (numbers_below publishers) }
    ensures spare { out.old.spare ≤ out.new.spare + publishers }
{
    for number in 0..publishers {
        out.push_reserved(BridgeOut::Publisher(number, ToPublisher::Fin));
    }
}

/// Says the end to every queue, into an outbox with room.
#[tactic(auto, using(crate::proofs::Stepping::numbers_more))]
pub(crate) fn finish_queues<L>(queues: u32, out: &mut Outbox<BridgeOut<L>>)
    requires { queues ≤ out.old.spare }
    ensures out { out.new.items ≡ out.old.items ++ map (λ k. BridgeOut.Queue k ToQueue.Fin) (numbers_below queues) }
    ensures spare { out.old.spare ≤ out.new.spare + queues }
{
    for number in 0..queues {
        out.push_reserved(BridgeOut::Queue(number, ToQueue::Fin));
    }
}

/// Asks every publisher to settle, if settling begins.
pub(crate) fn settle_if<L>(settles: bool, publishers: u32, out: &mut Outbox<BridgeOut<L>>)
    requires { publishers ≤ out.old.spare }
    ensures out { out.new.items ≡ out.old.items ++ (if settles then settle_outs publishers else []) }
    ensures spare { out.old.spare ≤ out.new.spare + publishers }
{
    if settles {
        settle_publishers(publishers, out);
    }
}

/// Ends all links, subscriptions first, and then says the end to all, into outboxes with room.
pub(crate) fn end_all<L>(
    links: Vec<SubLink>,
    inboxes: Vec<Option<InboxLink>>,
    publishers: u32,
    queues: u32,
    msgs: &mut Outbox<PieceMsg>,
    bodies: &mut Outbox<Piece>,
    out: &mut Outbox<BridgeOut<L>>,
)
    requires msgs { sum_by sub_held links.items ≤ msgs.old.spare }
    requires bodies { sum_by inbox_held (present inboxes.items) ≤ bodies.old.spare }
    requires out { sum_by sub_held links.items + length links.items + (sum_by inbox_held (present inboxes.items) + length (present inboxes.items)) + (queues + publishers + 1) ≤ out.old.spare }
    requires no_msgs { msgs.old.items ≡ [] }
    requires no_bodies { bodies.old.items ≡ [] }
    ensures { Ends publishers queues links.items (present inboxes.items) out.old.items out.new.items }
{
    end_subs(links, msgs, out);
    end_inboxes(inboxes, bodies, out);
    out.push_reserved(BridgeOut::Timers(ToTimers::Fin));
    finish_queues(queues, out);
    finish_publishers(publishers, out);
}

/// The sum of two rooms for each kind of link, and of what the ending says besides. The error is want of memory.
pub(crate) fn room(
    msgs: usize,
    subs: usize,
    bodies: usize,
    inboxes: usize,
    publishers: u32,
    queues: u32,
) -> Result<usize, OutOfMemory>
    ensures { IfOk result (λ n. n ≡ publishers + (msgs + subs + (bodies + inboxes) + (queues + publishers + 1))) }
{
    let links = plus(plus(msgs, subs)?, plus(bodies, inboxes)?)?;
    let rest = plus(plus(queues as usize, publishers as usize)?, 1)?;
    plus(publishers as usize, plus(links, rest)?)
}
