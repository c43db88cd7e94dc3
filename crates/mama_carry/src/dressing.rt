ghost use Rattle.std.specs.Prelude.{◌≡◌, ◌↔◌, [], ◌++◌, ◌∷◌, true, map, IsOk, IsSome, OnErr, IfOk, IfErr, IfSome, IfNone};
ghost use Rattle.mama_event.specs.ToBridge.{note_of};
ghost use Rattle.mama_event.specs.ToTimers.{note_of as timers_note_of};
ghost use Rattle.mama_carry.specs.Brought.{brought_to_bridge, brought_to_timers, begins_with};

use crate::carried::Carried;
use mama_event::{Listener, ObjectId, Tagged, ToBridge, ToTimers};
use std::collections::VecDeque;

/// The event with the first of the listeners in the place of the object that it names. An event that makes no object
/// stays as it is. Where the object's listener is not the first, the event is given back and no listener is taken. It
/// takes no memory.
pub fn dress_for_bridge<L: Listener>(
    event: ToBridge<ObjectId>,
    listeners: &mut VecDeque<Carried<L>>,
) -> Result<ToBridge<Carried<L>>, ToBridge<ObjectId>>
    ensures noted { IfOk result (λ given. note_of (λ c. L.tagged c.listener) given ≡ note_of (λ object. object) event) }
    ensures taken { IfOk result (λ given. listeners.old.items ≡ brought_to_bridge given ++ listeners.new.items) }
    ensures exact { IsOk result ↔ (begins_with (map (λ c. L.tagged c.listener) listeners.old.items) (brought_to_bridge event) ≡ true) }
    ensures back { IfErr result (λ given. given ≡ event) }
    ensures unchanged { OnErr result (listeners.new.items ≡ listeners.old.items) }
{
    match event {
        ToBridge::Join {
            sub,
            terms,
            listener: object,
        } => match take_for(&object, listeners) {
            Some(listener) => Ok(ToBridge::Join {
                sub,
                terms,
                listener,
            }),
            None => Err(ToBridge::Join {
                sub,
                terms,
                listener: object,
            }),
        },
        ToBridge::OpenInbox {
            inbox,
            terms,
            listener: object,
        } => match take_for(&object, listeners) {
            Some(listener) => Ok(ToBridge::OpenInbox {
                inbox,
                terms,
                listener,
            }),
            None => Err(ToBridge::OpenInbox {
                inbox,
                terms,
                listener: object,
            }),
        },
        ToBridge::Leave { sub } => Ok(ToBridge::Leave { sub }),
        ToBridge::CloseInbox { inbox } => Ok(ToBridge::CloseInbox { inbox }),
        ToBridge::Ask { inbox, topic, fids } => Ok(ToBridge::Ask { inbox, topic, fids }),
        ToBridge::Publish { msg } => Ok(ToBridge::Publish { msg }),
        ToBridge::Image { sub, msg } => Ok(ToBridge::Image { sub, msg }),
        ToBridge::Reply { inbox, body } => Ok(ToBridge::Reply { inbox, body }),
        ToBridge::RecapWish { sub, sender } => Ok(ToBridge::RecapWish { sub, sender }),
        ToBridge::ClientDone => Ok(ToBridge::ClientDone),
        ToBridge::SendsDone => Ok(ToBridge::SendsDone),
        ToBridge::Settled => Ok(ToBridge::Settled),
        ToBridge::Bye => Ok(ToBridge::Bye),
    }
}

/// The event with the first of the listeners in the place of the timer that it arms. Any other event stays as it is.
/// Where the timer's listener is not the first, the event is given back and no listener is taken. It takes no memory.
pub fn dress_for_timers<L: Listener>(
    event: ToTimers<ObjectId>,
    listeners: &mut VecDeque<Carried<L>>,
) -> Result<ToTimers<Carried<L>>, ToTimers<ObjectId>>
    ensures noted { IfOk result (λ given. timers_note_of (λ c. L.tagged c.listener) given ≡ timers_note_of (λ object. object) event) }
    ensures taken { IfOk result (λ given. listeners.old.items ≡ brought_to_timers given ++ listeners.new.items) }
    ensures exact { IsOk result ↔ (begins_with (map (λ c. L.tagged c.listener) listeners.old.items) (brought_to_timers event) ≡ true) }
    ensures back { IfErr result (λ given. given ≡ event) }
    ensures unchanged { OnErr result (listeners.new.items ≡ listeners.old.items) }
{
    match event {
        ToTimers::Arm {
            timer,
            queue,
            interval,
            listener: object,
        } => match take_for(&object, listeners) {
            Some(listener) => Ok(ToTimers::Arm {
                timer,
                queue,
                interval,
                listener,
            }),
            None => Err(ToTimers::Arm {
                timer,
                queue,
                interval,
                listener: object,
            }),
        },
        ToTimers::Disarm { timer } => Ok(ToTimers::Disarm { timer }),
        ToTimers::Now { moment } => Ok(ToTimers::Now { moment }),
        ToTimers::ClientDone => Ok(ToTimers::ClientDone),
        ToTimers::Bye => Ok(ToTimers::Bye),
        ToTimers::Fin => Ok(ToTimers::Fin),
    }
}

/// Takes the first of the listeners, if it is this object's.
fn take_for<L: Listener>(
    object: &ObjectId,
    listeners: &mut VecDeque<Carried<L>>,
) -> Option<Carried<L>>
    ensures taken { IfSome result (λ first. listeners.old.items ≡ first ∷ listeners.new.items) }
    ensures its_own { IfSome result (λ first. L.tagged first.listener ≡ object.now) }
    ensures unchanged { IfNone result (listeners.new.items ≡ listeners.old.items) }
    ensures exact { IsSome result ↔ (begins_with (map (λ c. L.tagged c.listener) listeners.old.items) (object.now ∷ []) ≡ true) }
{
    if is_first(object, listeners) {
        listeners.pop_front()
    } else {
        None
    }
}

/// Whether the first of the listeners is this object's.
fn is_first<L: Listener>(object: &ObjectId, listeners: &VecDeque<Carried<L>>) -> bool
    ensures { result ≡ begins_with (map (λ c. L.tagged c.listener) listeners.now.items) (object.now ∷ []) }
{
    match listeners.front() {
        Some(first) => first.tag() == *object,
        None => false,
    }
}
