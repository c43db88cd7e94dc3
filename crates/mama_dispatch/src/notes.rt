ghost use Rattle.std.specs.Prelude.{◌≡◌, ◌+◌, ◌≤◌, [], ◌∷◌, ◌++◌, length, map, OnOk, IfOk, vec_len, vec_capacity};
ghost use Rattle.std.specs.Option.{option_to_list};
ghost use Rattle.mama_event.specs.declared.ids.ObjectId.TheVariants.{Sub};
ghost use Rattle.mama_event.specs.Listener.{told};
ghost use Rattle.mama_dispatch.specs.Journals.{born_in, left_by, left_in};
ghost use Rattle.mama_dispatch.specs.Seats.{context_in};
ghost use Rattle.mama_dispatch.specs.Rows.{row_data};
ghost use Rattle.std.specs.Cmp.Lexicographic.{pointwise};
ghost use Rattle.mama_dispatch.specs.Notes.{lists_of};
ghost use Rattle.mama_dispatch.specs.SameNotes.{same_calls, same_image};
ghost use Rattle.mama_dispatch.specs.Noted.{lists_in};

use crate::row::Row;
use crate::seats::Seats;
use mama_event::{CallNote, ImageHead, Listener, ObjectId, QueueNote, SubId};
use mama_memory::OutOfMemory;
use mama_msg::Msg;

/// What a queue took, and what came of it.
#[derive(Debug, Drop)]
pub struct ServingNotes {
    /// What it took, each event with its port.
    pub taken: Vec<(u32, QueueNote)>,
    /// The callbacks of each object with the orders given in them, in the order of the Creates.
    pub calls: Vec<(ObjectId, Vec<CallNote>)>,
    /// The image of each subscription that had one when its Gone was taken, in the order of the Gones.
    pub images: Vec<(SubId, ImageHead, Msg)>,
}

impl PartialEq for ServingNotes {
    ghost use Rattle.std.specs.Prelude.{◌≡◌};
    ghost use Rattle.std.specs.Cmp.{partial_equiv_from_equiv};
    ghost use Rattle.mama_dispatch.specs.SameNotes.{same_notes};
    ghost use Rattle.mama_dispatch.specs.SameNotesLaws.{same_notes_equivalence};

    ghost eq = { same_notes };

    ghost laws = { partial_equiv_from_equiv same_notes_equivalence };

    fn eq(&self, other: &ServingNotes) -> bool
        ensures { result ≡ same_notes self.now other.now }
    {
        self.taken == other.taken
            && are_same_lists(&self.calls, &other.calls)
            && are_same_images(&self.images, &other.images)
    }
}

impl Eq for ServingNotes {
    ghost use Rattle.mama_dispatch.specs.SameNotesLaws.{same_notes_equivalence};

    ghost laws = { same_notes_equivalence };
}

/// Whether two objects' lists of callbacks are the same data, one after another.
fn are_same_lists(a: &[(ObjectId, Vec<CallNote>)], b: &[(ObjectId, Vec<CallNote>)]) -> bool
    ensures { result ≡ pointwise same_calls (lists_of a.now) (lists_of b.now) }
{
    a == b
}

/// Whether two lists of images are the same data.
fn are_same_images(a: &[(SubId, ImageHead, Msg)], b: &[(SubId, ImageHead, Msg)]) -> bool
    ensures { result ≡ pointwise same_image a.now b.now }
{
    a == b
}

/// Makes room for one list of notes more than there are objects.
fn room_for_list<L: Listener>(
    seats: &Seats<L>,
    room: &mut Vec<(ObjectId, Vec<CallNote>)>,
) -> Result<(), OutOfMemory>
    requires { room.old.items ≡ [] }
    ensures items { room.new.items ≡ [] }
    ensures ok { OnOk result (length seats.now + 1 ≤ vec_capacity room.new) }
    ensures capacity { vec_capacity room.old ≤ vec_capacity room.new }
{
    Ok(room.reserve(seats.len() + 1)?)
}

/// A copy of the image that an object leaves, if it is a subscription that has one, with room for it among the images
/// that were left.
fn image_left<L: Listener>(
    seats: &Seats<L>,
    object: &ObjectId,
    images: &mut Vec<(SubId, ImageHead, Msg)>,
) -> Result<Option<(SubId, ImageHead, Msg)>, OutOfMemory>
    ensures left { IfOk result (λ left. option_to_list left ≡ left_by (λ s. context_in (Sub s) seats.now) object.now) }
    ensures items { images.new.items ≡ images.old.items }
    ensures room { OnOk result (vec_len images.new + 1 ≤ vec_capacity images.new) }
{
    images.reserve(1)?;
    let ObjectId::Sub(sub) = object else {
        return Ok(None);
    };
    match seats.image(object)? {
        Some((head, body)) => Ok(Some((*sub, head, body))),
        None => Ok(None),
    }
}

/// Makes room for what an entry adds to the notes. The answer is a copy of the image that the entry leaves, if it
/// leaves one. After want of memory there may be more room, and nothing else has changed.
pub(crate) fn prepare<L: Listener>(
    seats: &Seats<L>,
    note: &QueueNote,
    room: &mut Vec<(ObjectId, Vec<CallNote>)>,
    images: &mut Vec<(SubId, ImageHead, Msg)>,
) -> Result<Option<(SubId, ImageHead, Msg)>, OutOfMemory>
    requires none { room.old.items ≡ [] }
    requires enough { length seats.now ≤ vec_capacity room.old }
    ensures left { IfOk result (λ left. option_to_list left ≡ left_in (λ s. context_in (Sub s) seats.now) note.now) }
    ensures images { images.new.items ≡ images.old.items }
    ensures spare { IfOk result (λ left. vec_len images.new + length (option_to_list left) ≤ vec_capacity images.new) }
    ensures none { room.new.items ≡ [] }
    ensures capacity { vec_capacity room.old ≤ vec_capacity room.new }
    ensures enough { OnOk result (length seats.now + length (born_in note.now) ≤ vec_capacity room.new) }
{
    match note {
        QueueNote::Create {
            slot: _,
            object: _,
            make: _,
            tag: _,
        } => {
            room_for_list(seats, room)?;
            Ok(None)
        }
        QueueNote::Gone { slot: _, object } => image_left(seats, object, images),
        _ => Ok(None),
    }
}

/// Adds an image to those that were left, if there is one.
pub(crate) fn add_image(
    images: &mut Vec<(SubId, ImageHead, Msg)>,
    left: Option<(SubId, ImageHead, Msg)>,
)
    requires { vec_len images.old + length (option_to_list left) ≤ vec_capacity images.old }
    ensures { images.new.items ≡ images.old.items ++ option_to_list left }
{
    if let Some(image) = left {
        images.push_reserved(image);
    }
}

/// The callbacks of each row, moved out of it into a list that has room for them.
pub(crate) fn calls_of_rows<L: Listener>(
    rows: Vec<Row<L>>,
    room: Vec<(ObjectId, Vec<CallNote>)>,
) -> Vec<(ObjectId, Vec<CallNote>)>
    requires none { room.items ≡ [] }
    requires enough { length rows.items ≤ vec_capacity room }
    ensures { lists_of result.items ≡ lists_in (map (row_data (told L.tagged L.calls L.heard L.given L.plan)) rows.items) }
{
    let mut calls = room;
    for row in rows {
        let Row {
            object,
            listener: _,
            muted: _,
            context: _,
            calls: noted,
        } = row;
        calls.push_reserved((object, noted.into_notes()));
    }
    calls
}
