ghost use Rattle.std.specs.Prelude.{◌≡◌, ◌+◌, ◌<◌, ◌≤◌, [], ◌∷◌, ◌++◌, map, length};
ghost use Rattle.mama_rules_queue.specs.Queue.{order_put, wish_put};
ghost use Rattle.mama_event.specs.ToService.{service_of};
ghost use Rattle.mama_dispatch.specs.Turns.{put_note, wished, IsAppended};

use mama_event::{Callback, ObjectId, Orders, SubId, Tagged, ToBridge, ToService};
use mama_memory::Outbox;

/// Puts what a listener ordered, in order.
pub(crate) fn put_orders<M: Tagged>(orders: &Orders, out: &mut Outbox<ToService<M>>)
    requires { length orders.now ≤ out.old.spare }
    ensures puts { map (put_note M.tagged) out.new.items ≡ map (put_note M.tagged) out.old.items ++ map order_put orders.now }
    ensures items { out.new.items ≡ out.old.items ++ map service_of orders.now }
    ensures spare { out.new.spare + length orders.now ≡ out.old.spare }
{
    for order in orders.as_slice() {
        out.push_reserved(ToService::of_order(order));
    }
}

/// The wish for a recap that a callback makes.
fn wish_of(object: &ObjectId, call: &Callback) -> Option<(SubId, u32)>
    ensures { wished result ≡ wish_put object.now call.now }
{
    match (object, call) {
        (ObjectId::Sub(sub), Callback::RecapRequest { sender }) => Some((*sub, *sender)),
        _ => None,
    }
}

/// Puts the wish for a recap that a callback makes, if it makes one.
#[tactic(auto, using(crate::proofs::AppendLemmas::appended_by, crate::proofs::AppendLemmas::appended_same))]
pub(crate) fn put_wish<M: Tagged>(
    object: &ObjectId,
    call: &Callback,
    out: &mut Outbox<ToService<M>>,
)
    requires { 0 < out.old.spare }
    ensures puts { map (put_note M.tagged) out.new.items ≡ map (put_note M.tagged) out.old.items ++ wish_put object.now call.now }
    ensures appended { IsAppended out.old.items out.new.items }
    ensures spare { out.old.spare ≤ out.new.spare + 1 }
{
    if let Some((sub, sender)) = wish_of(object, call) {
        out.push_reserved(ToService::Bridge(ToBridge::RecapWish { sub, sender }));
    }
}
