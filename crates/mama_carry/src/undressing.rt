ghost use Rattle.std.specs.Prelude.{◌≡◌, ◌↔◌, IsOk, IfOk, IfErr, IfSome};
ghost use Rattle.std.specs.Bool.{Decides};
ghost use Rattle.mama_event.specs.Listener.{told};
ghost use Rattle.mama_event.specs.ToQueue.{note_of};
ghost use Rattle.mama_carry.specs.Fresh.{IsFresh};
ghost use Rattle.mama_carry.specs.Brought.{brought_to_queue, with_listener};

use crate::carried::Carried;
use mama_event::{Listener, ObjectId, PlanRow, Tagged, ToQueue};

/// The event with the listener alone, where a listener that comes is as it was made for the event's object with this plan.
/// Else the event is given back. It takes no memory.
pub fn undress<L: Listener>(
    event: ToQueue<Carried<L>>,
    plan: &[PlanRow],
) -> Result<ToQueue<L>, ToQueue<Carried<L>>>
    ensures alone { IfOk result (λ given. given ≡ with_listener (λ c. c.listener) event) }
    ensures noted { IfOk result (λ given. note_of L.tagged given ≡ note_of (λ c. L.tagged c.listener) event) }
    ensures fresh { IfOk result (λ given. IfSome (brought_to_queue given) (λ b. IsFresh b.0 plan.now (told L.tagged L.calls L.heard L.given L.plan b.1))) }
    ensures exact { IfSome (brought_to_queue event) (λ b. IsFresh b.0 plan.now (told L.tagged L.calls L.heard L.given L.plan b.1.listener)) → IsOk result }
    ensures back { IfErr result (λ given. given ≡ event) }
{
    match event {
        ToQueue::Create {
            slot,
            object,
            make,
            listener,
        } => {
            if !is_fresh(&listener, &object, plan) {
                return Err(ToQueue::Create {
                    slot,
                    object,
                    make,
                    listener,
                });
            }
            let Carried { listener, plan: _ } = listener;
            Ok(ToQueue::Create {
                slot,
                object,
                make,
                listener,
            })
        }
        ToQueue::Deliver { slot, sub, msg } => Ok(ToQueue::Deliver { slot, sub, msg }),
        ToQueue::Reply { slot, inbox, body } => Ok(ToQueue::Reply { slot, inbox, body }),
        ToQueue::Tick {
            slot,
            timer,
            moment,
        } => Ok(ToQueue::Tick {
            slot,
            timer,
            moment,
        }),
        ToQueue::Gone { slot, object } => Ok(ToQueue::Gone { slot, object }),
        ToQueue::Fin => Ok(ToQueue::Fin),
    }
}

/// Whether a listener is as it was made for this object with this plan.
fn is_fresh<L: Listener>(carried: &Carried<L>, object: &ObjectId, plan: &[PlanRow]) -> bool
    ensures { Decides result (IsFresh object.now plan.now (told L.tagged L.calls L.heard L.given L.plan carried.now.listener)) }
{
    let own = is_same(carried.listener.tag(), object);
    let uncalled = carried.listener.count() == 0;
    let planned = is_same_plan(carried.plan.as_slice(), plan);
    own && uncalled && planned
}

fn is_same(tag: ObjectId, object: &ObjectId) -> bool
    ensures { Decides result (tag ≡ object.now) }
{
    tag == *object
}

fn is_same_plan(rows: &[PlanRow], plan: &[PlanRow]) -> bool
    ensures { Decides result (rows.now ≡ plan.now) }
{
    rows == plan
}
