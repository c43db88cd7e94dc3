//! What is asked of the seat of a queue.
ghost use Rattle.std.specs.Prelude.{◌≡◌};
ghost use Rattle.mama_event.specs.declared.ids.ObjectId.TheVariants.{Sub};
ghost use Rattle.mama_script.specs.Script.{ScriptData};
ghost use Rattle.mama_rules_queue.specs.Queue.{deeds};
ghost use Rattle.mama_dispatch.specs.Journals as dispatch;
ghost use Rattle.mama_plans.specs.Orders.{orders_in};
ghost use Rattle.mama_crew.specs.Hall.{HallValue};
ghost use Rattle.mama_crew.specs.Seat.{IsSeatOf, journal_in};
ghost use Rattle.mama_grouped.specs.Seat.{sub_of_object, sub_in};

use mama_carry::Listener;
use mama_crew::Seat;
use mama_event::{CallNote, ObjectId, QueueNote, SubId};

/// What the queue of this seat took so far, each event with its port; nothing for the seat of another actor.
pub fn journal_of<L: Listener>(seat: &Seat<L>) -> &[(u32, QueueNote)]
    ensures { result.now ≡ journal_in seat.now }
{
    match seat {
        Seat::Queue(_, post) => post.journal(),
        Seat::Client(_, _) => &[],
        Seat::Publisher(_, _) => &[],
        Seat::Bridge(_) => &[],
        Seat::Timers(_) => &[],
    }
}

/// The callbacks of a subscription that a queue made so far; none where the seat is no queue's.
pub(crate) fn notes_of<L: Listener>(seat: &Seat<L>, sub: SubId) -> &[CallNote]
    ensures { (script : ScriptData) (hall : HallValue) → IsSeatOf script hall seat.now → result.now ≡ dispatch.notes_of (Sub sub) (deeds (orders_in hall.objects) (journal_in seat.now)) }
{
    match seat {
        Seat::Queue(_, post) => post.notes(ObjectId::Sub(sub)),
        Seat::Client(_, _) => &[],
        Seat::Publisher(_, _) => &[],
        Seat::Bridge(_) => &[],
        Seat::Timers(_) => &[],
    }
}

fn sub_of(object: &ObjectId) -> Option<SubId>
    ensures { result ≡ sub_of_object object.now }
{
    match object {
        ObjectId::Sub(sub) => Some(*sub),
        ObjectId::Timer(_) | ObjectId::Inbox(_) => None,
    }
}

/// The subscription that an entry calls back, if it may.
pub(crate) fn called_by(note: &QueueNote) -> Option<SubId>
    ensures { result ≡ sub_in note.now }
{
    match note {
        QueueNote::Create { object, .. } => sub_of(object),
        QueueNote::Deliver { sub, .. } => Some(*sub),
        QueueNote::Bad { sub, .. } => Some(*sub),
        QueueNote::Gone { object, .. } => sub_of(object),
        QueueNote::Tick { .. }
        | QueueNote::Reply { .. }
        | QueueNote::BadReply { .. }
        | QueueNote::Fin => None,
    }
}
