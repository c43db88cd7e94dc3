//! What is asked of the seat of a queue, and of an event that it took.
ghost use Rattle.std.specs.Prelude.{◌≡◌, [], ◌∷◌, Option, Some, None, IfOk};
ghost use Rattle.std.specs.Option.{option_map_or};
ghost use Rattle.mama_crew.specs.Seat as crew;
ghost use Rattle.mama_crew.specs.Seat.{journal_in};
ghost use Rattle.mama_grouped.specs.Seat.{sub_of_object};
ghost use Rattle.mama_shown.specs.Images.{own_image, named_in};
ghost use Rattle.mama_shown.specs.Seat.{queue_in};

use mama_carry::Listener;
use mama_crew::{Hall, Script, Seat};
use mama_edge::GateActor;
use mama_event::{ImageHead, ObjectId, QueueNote, SubId};
use mama_memory::OutOfMemory;
use mama_msg::Msg;

/// A copy of the image of a subscription of this seat's queue, if it has one. Script and hall say whose seat it is.
pub(crate) fn image_of<L: Listener>(
    _script: &Script,
    _hall: &Hall<L>,
    seat: &Seat<L>,
    sub: SubId,
) -> Result<Option<(ImageHead, Msg)>, OutOfMemory>
    requires { crew.IsSeatOf _script.now _hall.now seat.now }
    ensures { IfOk result (λ image. image ≡ own_image _hall.now.objects (journal_in seat.now) sub) }
{
    match seat {
        Seat::Queue(_, post) => post.image_of(sub),
        Seat::Client(_, _) => Ok(None),
        Seat::Publisher(_, _) => Ok(None),
        Seat::Bridge(_) => Ok(None),
        Seat::Timers(_) => Ok(None),
    }
}

/// The number of a queue, if the actor is one.
pub(crate) fn queue_of(actor: GateActor) -> Option<u32>
    ensures { option_map_or (λ q. q ∷ []) result [] ≡ queue_in actor }
{
    match actor {
        GateActor::Queue(number) => Some(number),
        GateActor::Client(_) | GateActor::Publisher(_) | GateActor::Bridge | GateActor::Timers => {
            None
        }
    }
}

// The subscription, if the object is one.
fn sub_of(object: ObjectId) -> Option<SubId>
    ensures { result ≡ sub_of_object object }
{
    match object {
        ObjectId::Sub(sub) => Some(sub),
        ObjectId::Timer(_) => None,
        ObjectId::Inbox(_) => None,
    }
}

/// The subscription whose image an event may change.
pub(crate) fn named_by(note: &QueueNote) -> Option<SubId>
    ensures { result ≡ named_in note.now }
{
    match note {
        QueueNote::Create {
            slot: _,
            object,
            make: _,
            tag: _,
        } => sub_of(*object),
        QueueNote::Deliver {
            slot: _,
            sub,
            msg: _,
        } => Some(*sub),
        _ => None,
    }
}
