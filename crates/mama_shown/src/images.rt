//! The last images, as the readers of the boards read them once they have learnt of the seals.
ghost use Rattle.std.specs.Prelude.{◌≡◌, ℕ, true, List, [], ◌++◌, slice_index_or, IfOk, OnOk};
ghost use Rattle.std.specs.List.{All, flat_map};
ghost use Rattle.mama_event.specs.declared.to_queue.QueueNote.{QueueNote};
ghost use Rattle.mama_event.specs.declared.ids.ObjectId.TheVariants.{Sub};
ghost use Rattle.mama_record.specs.RunView.{images_of};
ghost use Rattle.mama_plans.specs.Plans.{planned_object};
ghost use Rattle.mama_plans.specs.Image.{found_image};
ghost use Rattle.mama_gather.specs.Places.{image_by, images_by};
ghost use Rattle.mama_shown.specs.Images.{own_image};
ghost use Rattle.mama_shown.specs.Last.{ReadsLast};

use mama_board::ImageReader;
use mama_event::{ImageHead, ObjectId, SubId};
use mama_memory::OutOfMemory;
use mama_msg::Msg;
use mama_plans::{PlannedObject, Plans};
use std::alloc::Global;

/// A copy of the last image of each subscription that has one, in the order of the objects. The error is want of memory, or a
/// reader that is not there, which no crew has.
pub(crate) fn all_images<R: Copy>(
    rt: R,
    alloc: Global,
    plans: &Plans,
    readers: &mut Vec<ImageReader>,
) -> Result<Vec<(SubId, ImageHead, Msg)>, OutOfMemory>
    ensures { IfOk result (λ found. (journals : List (List (ℕ × QueueNote))) → All (ReadsLast plans.now journals) readers.old.items → images_of found.items ≡ flat_map (images_by plans.now journals) plans.now) }
{
    let mut found = Vec::new(alloc);
    let objects = plans.objects();
    for planned in objects {
        add_image_of(rt, &mut found, plans, readers, planned)?;
    }
    Ok(found)
}

// Adds the last image of an object, if it is a subscription and has one.
fn add_image_of<R: Copy>(
    rt: R,
    found: &mut Vec<(SubId, ImageHead, Msg)>,
    plans: &Plans,
    readers: &mut Vec<ImageReader>,
    planned: &PlannedObject,
) -> Result<(), OutOfMemory>
    ensures readers { OnOk result ((journals : List (List (ℕ × QueueNote))) → All (ReadsLast plans.now journals) readers.old.items → All (ReadsLast plans.now journals) readers.new.items) }
    ensures found { OnOk result ((journals : List (List (ℕ × QueueNote))) → All (ReadsLast plans.now journals) readers.old.items → images_of found.new.items ≡ images_of found.old.items ++ images_by plans.now journals (planned_object planned.now)) }
{
    match planned.object {
        ObjectId::Sub(sub) => add_image(rt, found, plans, readers, planned.queue, sub),
        ObjectId::Timer(_) => Ok(()),
        ObjectId::Inbox(_) => Ok(()),
    }
}

// Adds the last image of a subscription of a queue, if it has one.
fn add_image<R: Copy>(
    rt: R,
    found: &mut Vec<(SubId, ImageHead, Msg)>,
    plans: &Plans,
    readers: &mut Vec<ImageReader>,
    queue: u32,
    sub: SubId,
) -> Result<(), OutOfMemory>
    ensures readers { OnOk result ((journals : List (List (ℕ × QueueNote))) → All (ReadsLast plans.now journals) readers.old.items → All (ReadsLast plans.now journals) readers.new.items) }
    ensures found { OnOk result ((journals : List (List (ℕ × QueueNote))) → All (ReadsLast plans.now journals) readers.old.items → images_of found.new.items ≡ images_of found.old.items ++ image_by plans.now (slice_index_or journals queue []) (Sub sub)) }
{
    let image = image_on(rt, plans, readers, queue, sub)?;
    add_found(found, sub, image)
}

// The last image of a subscription of a queue, as the queue's reader reads it.
fn image_on<R: Copy>(
    rt: R,
    plans: &Plans,
    readers: &mut Vec<ImageReader>,
    queue: u32,
    sub: SubId,
) -> Result<Option<(ImageHead, Msg)>, OutOfMemory>
    ensures readers { OnOk result ((journals : List (List (ℕ × QueueNote))) → All (ReadsLast plans.now journals) readers.old.items → All (ReadsLast plans.now journals) readers.new.items) }
    ensures image { IfOk result (λ image. (journals : List (List (ℕ × QueueNote))) → All (ReadsLast plans.now journals) readers.old.items → image ≡ own_image plans.now (slice_index_or journals queue []) sub) }
{
    match readers.get_mut(queue as usize) {
        Some(reader) => read_of(rt, plans, reader, queue, sub),
        None => Err(OutOfMemory),
    }
}

// The image of a subscription of a queue, if this is the queue's reader.
fn read_of<R: Copy>(
    rt: R,
    _plans: &Plans,
    reader: &mut ImageReader,
    queue: u32,
    sub: SubId,
) -> Result<Option<(ImageHead, Msg)>, OutOfMemory>
    ensures reader { OnOk result ((journals : List (List (ℕ × QueueNote))) → ReadsLast _plans.now journals reader.old → ReadsLast _plans.now journals reader.new) }
    ensures image { IfOk result (λ image. (journals : List (List (ℕ × QueueNote))) → ReadsLast _plans.now journals reader.old → image ≡ own_image _plans.now (slice_index_or journals queue []) sub) }
{
    if !is_of(reader, queue) {
        return Err(OutOfMemory);
    }
    reader.read(rt, sub)
}

// Whether it reads the images of this queue.
fn is_of(reader: &ImageReader, queue: u32) -> bool
    ensures { result ≡ true → reader.now.queue ≡ queue }
{
    reader.queue() == queue
}

// Adds an image of a subscription, if there is one.
fn add_found(
    found: &mut Vec<(SubId, ImageHead, Msg)>,
    sub: SubId,
    image: Option<(ImageHead, Msg)>,
) -> Result<(), OutOfMemory>
    ensures { OnOk result (images_of found.new.items ≡ images_of found.old.items ++ found_image sub image) }
{
    match image {
        Some((head, body)) => {
            found.push((sub, head, body))?;
            Ok(())
        }
        None => Ok(()),
    }
}
