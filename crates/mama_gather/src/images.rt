ghost use Rattle.std.specs.Prelude.{◌≡◌, [], ◌++◌, map, slice_index_or, IfOk, OnOk};
ghost use Rattle.std.specs.List.{All, flat_map};
ghost use Rattle.mama_event.specs.declared.ids.ObjectId.TheVariants.{Sub};
ghost use Rattle.mama_record.specs.RunView.{images_of};
ghost use Rattle.mama_plans.specs.Orders.{orders_in};
ghost use Rattle.mama_plans.specs.Plans.{planned_object};
ghost use Rattle.mama_plans.specs.Image.{found_image};
ghost use Rattle.mama_dispatch.specs.Hearing.{ArePlanned};
ghost use Rattle.mama_gather.specs.Left.{events_by};
ghost use Rattle.mama_gather.specs.Places.{image_by, images_by};

use mama_carry::Listener;
use mama_event::{ImageHead, ObjectId, SubId};
use mama_memory::OutOfMemory;
use mama_msg::Msg;
use mama_plans::{PlannedObject, Plans};
use mama_posts_clients::QueuePost;
use std::alloc::Global;

/// A copy of the last image of each subscription that has one, in the order of the objects. The error is want of memory.
pub fn all_images<L: Listener>(
    alloc: Global,
    plans: &Plans,
    queues: &[(u32, QueuePost<L>)],
) -> Result<Vec<(SubId, ImageHead, Msg)>, OutOfMemory>
    requires { All (λ s. ArePlanned (orders_in plans.now) s.1.served.seats) queues.now }
    ensures { IfOk result (λ found. images_of found.items ≡ flat_map (images_by plans.now (map events_by queues.now)) plans.now) }
{
    let mut found = Vec::new(alloc);
    let objects = plans.objects();
    for planned in objects {
        add_image_of(&mut found, plans, queues, planned)?;
    }
    Ok(found)
}

// Adds the last image of an object, if it is a subscription and has one.
fn add_image_of<L: Listener>(
    found: &mut Vec<(SubId, ImageHead, Msg)>,
    plans: &Plans,
    queues: &[(u32, QueuePost<L>)],
    planned: &PlannedObject,
) -> Result<(), OutOfMemory>
    requires { All (λ s. ArePlanned (orders_in plans.now) s.1.served.seats) queues.now }
    ensures { OnOk result (images_of found.new.items ≡ images_of found.old.items ++ images_by plans.now (map events_by queues.now) (planned_object planned.now)) }
{
    match planned.object {
        ObjectId::Sub(sub) => add_image(found, plans, queues, planned.queue, sub),
        ObjectId::Timer(_) => Ok(()),
        ObjectId::Inbox(_) => Ok(()),
    }
}

// Adds the last image of a subscription, if it has one.
fn add_image<L: Listener>(
    found: &mut Vec<(SubId, ImageHead, Msg)>,
    plans: &Plans,
    queues: &[(u32, QueuePost<L>)],
    queue: u32,
    sub: SubId,
) -> Result<(), OutOfMemory>
    requires { All (λ s. ArePlanned (orders_in plans.now) s.1.served.seats) queues.now }
    ensures { OnOk result (images_of found.new.items ≡ images_of found.old.items ++ image_by plans.now (slice_index_or (map events_by queues.now) queue []) (Sub sub)) }
{
    let image = image_on(plans, queues, queue, sub)?;
    add_found(found, sub, image)
}

// A copy of the last image of a subscription, if the queue of this number is there and has one. The queues follow these plans.
fn image_on<L: Listener>(
    _plans: &Plans,
    queues: &[(u32, QueuePost<L>)],
    queue: u32,
    sub: SubId,
) -> Result<Option<(ImageHead, Msg)>, OutOfMemory>
    requires { All (λ s. ArePlanned (orders_in _plans.now) s.1.served.seats) queues.now }
    ensures { IfOk result (λ found. found_image sub found ≡ image_by _plans.now (slice_index_or (map events_by queues.now) queue []) (Sub sub)) }
{
    let queue = queue as usize;
    if queue < queues.len() {
        return queues[queue].1.image_of(sub);
    }
    Ok(None)
}

// Adds an image of a subscription, if there is one.
fn add_found(
    found: &mut Vec<(SubId, ImageHead, Msg)>,
    sub: SubId,
    image: Option<(ImageHead, Msg)>,
) -> Result<(), OutOfMemory>
    ensures { OnOk result (images_of found.new.items ≡ images_of found.old.items ++ found_image sub image) }
{
    match image {
        Some((head, body)) => {
            found.push((sub, head, body))?;
            Ok(())
        }
        None => Ok(()),
    }
}
