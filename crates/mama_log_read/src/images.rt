//! The images at the head of a text, which stand in the order of the objects.
ghost use Rattle.std.specs.Prelude.{◌≡◌, map, IfOk};
ghost use Rattle.std.specs.Option.{option_map};
ghost use Rattle.mama_event.specs.Object.{same_object};
ghost use Rattle.mama_event.specs.declared.ids.ObjectId.TheVariants.{Sub};
ghost use Rattle.mama_record.specs.RunView as view;
ghost use Rattle.mama_log_read.specs.Part as part;
ghost use Rattle.mama_log_read.specs.Reading as reading;

use mama_event::{ImageHead, ObjectId, SubId};
use mama_log_line::{Names, image_in};
use mama_memory::OutOfMemory;
use mama_msg::Msg;
use mama_words::cut_at;
use std::alloc::Global;

fn is_sub(object: ObjectId, sub: SubId) -> bool
    ensures { result ≡ same_object object (Sub sub) }
{
    match object {
        ObjectId::Sub(id) => id.client == sub.client && id.number == sub.number,
        ObjectId::Timer(_) => false,
        ObjectId::Inbox(_) => false,
    }
}

// The objects behind a subscription. None where it is none of these.
fn behind(objects: &[ObjectId], sub: SubId) -> Option<&[ObjectId]>
    ensures { option_map (λ left. left.now) result ≡ part.behind objects.now sub }
{
    for (i, object) in objects.iter().enumerate() {
        if is_sub(*object, sub) {
            return Some(&objects[i + 1..]);
        }
    }
    None
}

fn next_image<'a, 'b>(
    alloc: Global,
    names: &Names,
    objects: &'b [ObjectId],
    words: &mut Vec<&'a [u8]>,
    text: &'a [u8],
) -> Result<Option<((SubId, ImageHead, Msg), &'b [ObjectId], &'a [u8])>, OutOfMemory>
    ensures { IfOk result (λ o. reading.IsNextImage names.now objects.now text.now (option_map (λ next. (view.image_in next.0, next.1.now, next.2.now)) o)) }
{
    match cut_at(b'\n', text) {
        Some((line, after)) => match image_in(alloc, names, words, line)? {
            Some(image) => match behind(objects, image.0) {
                Some(left) => Ok(Some((image, left, after))),
                None => Ok(None),
            },
            None => Ok(None),
        },
        None => Ok(None),
    }
}

/// Reads the last images of some objects, in their order and each at most once, and says what follows them.
pub fn read_images<'a>(
    alloc: Global,
    names: &Names,
    objects: &[ObjectId],
    text: &'a [u8],
) -> Result<(Vec<(SubId, ImageHead, Msg)>, &'a [u8]), OutOfMemory>
    ensures { IfOk result (λ read. reading.AreImagesTaken names.now objects.now text.now (view.images_of read.0.items) read.1.now) }
{
    let mut images = Vec::new(alloc);
    let mut words = Vec::new(alloc);
    let mut left = objects;
    let mut rest = text;
    while let Some((image, later, after)) = next_image(alloc, names, left, &mut words, rest)? {
        images.push(image)?;
        left = later;
        rest = after;
    }
    Ok((images, rest))
}
