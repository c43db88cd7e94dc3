ghost use Rattle.std.specs.Prelude.{◌≡◌, ◌+◌, ◌<◌, ◌≤◌, [], ◌∷◌, ◌++◌, map, take, drop, length, option_to_list, IfNone};

use mama_event::{InboxId, ObjectId, Piece, PieceMsg, SubId, ToPublisher, ToQueue, ToTimers};
use mama_memory::Outbox;

/// What the bridge puts, and on whose lane: a publisher's or a queue's, by its number, or the timer service's.
#[derive(Debug, Drop)]
pub enum BridgeOut<L> {
    Publisher(u32, ToPublisher),
    Queue(u32, ToQueue<L>),
    Timers(ToTimers<L>),
}

/// Takes the first item out, if there is one.
fn next<T>(items: &mut Outbox<T>) -> Option<T>
    ensures items { items.old.items ≡ option_to_list result ++ items.new.items }
    ensures none { IfNone result (items.new.items ≡ []) }
    ensures spare { items.old.spare ≤ items.new.spare }
{
    items.take_first()
}

/// Puts a message out, if there is one, into an outbox with room.
fn deliver_one<L>(
    sub: SubId,
    queue: u32,
    slot: u32,
    msg: Option<PieceMsg>,
    out: &mut Outbox<BridgeOut<L>>,
)
    requires { 0 < out.old.spare }
    ensures out { out.new.items ≡ out.old.items ++ map (λ m. BridgeOut.Queue queue (ToQueue.Deliver slot sub m)) (option_to_list msg) }
    ensures spare { out.old.spare ≤ out.new.spare + 1 }
{
    if let Some(msg) = msg {
        out.push_reserved(BridgeOut::Queue(queue, ToQueue::Deliver { slot, sub, msg }));
    }
}

/// Puts the first `count` messages out for a subscription, into an outbox with room.
pub(crate) fn deliver<L>(
    sub: SubId,
    queue: u32,
    slot: u32,
    count: usize,
    msgs: &mut Outbox<PieceMsg>,
    out: &mut Outbox<BridgeOut<L>>,
)
    requires { count ≤ out.old.spare }
    ensures out { out.new.items ≡ out.old.items ++ map (λ m. BridgeOut.Queue queue (ToQueue.Deliver slot sub m)) (take count msgs.old.items) }
    ensures msgs { msgs.new.items ≡ drop count msgs.old.items }
    ensures spare { out.old.spare ≤ out.new.spare + count }
    ensures msgs_spare { msgs.old.spare ≤ msgs.new.spare }
{
    for _ in 0..count {
        let msg = next(msgs);
        deliver_one(sub, queue, slot, msg, out);
    }
}

/// Puts a reply out, if there is one, into an outbox with room.
fn reply_one<L>(
    inbox: InboxId,
    queue: u32,
    slot: u32,
    body: Option<Piece>,
    out: &mut Outbox<BridgeOut<L>>,
)
    requires { 0 < out.old.spare }
    ensures out { out.new.items ≡ out.old.items ++ map (λ b. BridgeOut.Queue queue (ToQueue.Reply slot inbox b)) (option_to_list body) }
    ensures spare { out.old.spare ≤ out.new.spare + 1 }
{
    if let Some(body) = body {
        out.push_reserved(BridgeOut::Queue(queue, ToQueue::Reply { slot, inbox, body }));
    }
}

/// Puts the first `count` replies out for an inbox, into an outbox with room.
pub(crate) fn reply<L>(
    inbox: InboxId,
    queue: u32,
    slot: u32,
    count: usize,
    bodies: &mut Outbox<Piece>,
    out: &mut Outbox<BridgeOut<L>>,
)
    requires { count ≤ out.old.spare }
    ensures out { out.new.items ≡ out.old.items ++ map (λ body. BridgeOut.Queue queue (ToQueue.Reply slot inbox body)) (take count bodies.old.items) }
    ensures bodies { bodies.new.items ≡ drop count bodies.old.items }
    ensures spare { out.old.spare ≤ out.new.spare + count }
    ensures bodies_spare { bodies.old.spare ≤ bodies.new.spare }
{
    for _ in 0..count {
        let body = next(bodies);
        reply_one(inbox, queue, slot, body, out);
    }
}

/// Puts the notice of an object's end out, into an outbox with room.
pub(crate) fn gone<L>(object: ObjectId, queue: u32, slot: u32, out: &mut Outbox<BridgeOut<L>>)
    requires { 0 < out.old.spare }
    ensures out { out.new.items ≡ out.old.items ++ BridgeOut.Queue queue (ToQueue.Gone slot object) ∷ [] }
    ensures spare { out.old.spare ≤ out.new.spare + 1 }
{
    out.push_reserved(BridgeOut::Queue(queue, ToQueue::Gone { slot, object }));
}
