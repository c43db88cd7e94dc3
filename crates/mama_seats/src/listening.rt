ghost use Rattle.std.specs.Prelude.{◌≡◌, Some, IfOk, IfErr};
ghost use Rattle.mama_event.specs.declared.to_queue.ToQueue.TheVariants as event;
ghost use Rattle.mama_event.specs.declared.to_queue.QueueNote.TheVariants as note;
ghost use Rattle.mama_event.specs.ToQueue.{note_of};
ghost use Rattle.mama_dispatch.specs.Hearing.{brought, ListensAs, ComesPlanned};
ghost use Rattle.mama_plans.specs.Put.{own_tag};
ghost use Rattle.mama_plans.specs.Orders.{orders_in};
ghost use Rattle.mama_seats.specs.Listening.{tag_of, data_of};

use mama_event::{Make, ObjectId, Tagged, ToQueue};
use mama_listener::{PlanListener, order_rows};
use mama_memory::OutOfMemory;
use mama_plans::Plans;
use std::alloc::Global;

/// The listener of an object, which gives the orders of the object's plan.
fn listener_of(
    alloc: Global,
    plans: &Plans,
    object: &ObjectId,
    tag: ObjectId,
) -> Result<PlanListener, OutOfMemory>
    ensures tag { IfOk result (λ listener. tag_of listener ≡ tag) }
    ensures planned { IfOk result (λ listener. ListensAs (orders_in plans.now object.now) 0 (Some (data_of listener))) }
{
    plans.are_few();
    let mut plan = Vec::from_slice(alloc, plans.plan(object))?;
    // In order or not, the plan has the same orders for each call.
    let _ordered = order_rows(&mut plan);
    Ok(PlanListener::new(alloc, tag, plan))
}

/// The event of a created object with the listener that gives the orders of its plan, or the tag that came.
fn created(
    alloc: Global,
    plans: &Plans,
    slot: u32,
    object: ObjectId,
    make: Make,
    tag: ObjectId,
) -> Result<ToQueue<PlanListener>, ToQueue<ObjectId>>
    ensures noted { IfOk result (λ given. note_of tag_of given ≡ note.Create slot object make tag) }
    ensures planned { IfOk result (λ given. ComesPlanned (orders_in plans.now) (brought data_of given)) }
    ensures back { IfErr result (λ given. given ≡ event.Create slot object make tag) }
{
    match listener_of(alloc, plans, &object, tag) {
        Ok(listener) => Ok(ToQueue::Create {
            slot,
            object,
            make,
            listener,
        }),
        Err(_) => Err(ToQueue::Create {
            slot,
            object,
            make,
            listener: tag,
        }),
    }
}

/// The same event, where a listener that comes gives the orders of its object's plan; or the event, where no memory is
/// found for the listener.
pub(crate) fn with_plan(
    alloc: Global,
    plans: &Plans,
    event: ToQueue<ObjectId>,
) -> Result<ToQueue<PlanListener>, ToQueue<ObjectId>>
    ensures noted { IfOk result (λ given. note_of tag_of given ≡ note_of own_tag event) }
    ensures planned { IfOk result (λ given. ComesPlanned (orders_in plans.now) (brought data_of given)) }
    ensures back { IfErr result (λ given. given ≡ event) }
{
    match event {
        ToQueue::Create {
            slot,
            object,
            make,
            listener,
        } => created(alloc, plans, slot, object, make, listener),
        ToQueue::Deliver { slot, sub, msg } => Ok(ToQueue::Deliver { slot, sub, msg }),
        ToQueue::Reply { slot, inbox, body } => Ok(ToQueue::Reply { slot, inbox, body }),
        ToQueue::Tick {
            slot,
            timer,
            moment,
        } => Ok(ToQueue::Tick {
            slot,
            timer,
            moment,
        }),
        ToQueue::Gone { slot, object } => Ok(ToQueue::Gone { slot, object }),
        ToQueue::Fin => Ok(ToQueue::Fin),
    }
}

/// The same event, where a listener that came is its tag again.
pub(crate) fn without_plan(event: ToQueue<PlanListener>) -> ToQueue<ObjectId>
    ensures { note_of own_tag result ≡ note_of tag_of event }
{
    match event {
        ToQueue::Create {
            slot,
            object,
            make,
            listener,
        } => ToQueue::Create {
            slot,
            object,
            make,
            listener: listener.tag(),
        },
        ToQueue::Deliver { slot, sub, msg } => ToQueue::Deliver { slot, sub, msg },
        ToQueue::Reply { slot, inbox, body } => ToQueue::Reply { slot, inbox, body },
        ToQueue::Tick {
            slot,
            timer,
            moment,
        } => ToQueue::Tick {
            slot,
            timer,
            moment,
        },
        ToQueue::Gone { slot, object } => ToQueue::Gone { slot, object },
        ToQueue::Fin => ToQueue::Fin,
    }
}
