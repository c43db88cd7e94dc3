ghost use Rattle.std.specs.Prelude.{◌≡◌, [], None};
ghost use Rattle.mama_event.specs.ToQueue.{note_of};
ghost use Rattle.mama_plans.specs.Put.{own_tag};
ghost use Rattle.mama_seats.specs.Behind.{sub_of, sub_in, called_in};

use mama_dispatch::Turn;
use mama_event::{ObjectId, SubId, ToBridge, ToQueue, ToService};
use mama_memory::Outbox;
use std::alloc::Global;

/// What a turn of a queue puts: first by serving, then what a watch wishes for.
#[derive(Drop)]
pub struct ServedTurn {
    pub outs: Outbox<ToService<ObjectId>>,
    pub wish: Option<ToBridge<ObjectId>>,
}

impl ServedTurn {
    /// Of a turn in which nothing came.
    pub(crate) fn nothing(alloc: Global) -> ServedTurn
        ensures outs { result.outs.items ≡ [] }
        ensures wish { result.wish ≡ None }
    {
        ServedTurn {
            outs: Outbox::new(alloc),
            wish: None,
        }
    }
}

/// The subscription that an object is, if it is one.
fn sub_of(object: ObjectId) -> Option<SubId>
    ensures { result ≡ sub_of object }
{
    match object {
        ObjectId::Sub(sub) => Some(sub),
        ObjectId::Timer(_) | ObjectId::Inbox(_) => None,
    }
}

/// The subscription that an event is for, if it is for one.
pub(crate) fn sub_for(event: &ToQueue<ObjectId>) -> Option<SubId>
    ensures { result ≡ sub_in (note_of own_tag event.now) }
{
    match event {
        ToQueue::Create {
            slot: _,
            object,
            make: _,
            listener: _,
        } => sub_of(*object),
        ToQueue::Deliver {
            slot: _,
            sub,
            msg: _,
        } => Some(*sub),
        ToQueue::Reply {
            slot: _,
            inbox: _,
            body: _,
        } => None,
        ToQueue::Tick {
            slot: _,
            timer: _,
            moment: _,
        } => None,
        ToQueue::Gone { slot: _, object } => sub_of(*object),
        ToQueue::Fin => None,
    }
}

/// How many callbacks a turn made of the event's object.
pub(crate) fn calls_in<L>(turn: &Turn<L>) -> u64
    ensures { result ≡ called_in turn.now }
{
    match turn {
        Turn::Called { count } => *count,
        Turn::Muted { object: _ } => 0,
        Turn::Ended {
            object: _,
            listener: _,
        } => 1,
        Turn::Running => 0,
        Turn::Finished => 0,
    }
}
