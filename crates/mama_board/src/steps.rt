// The steps of a board's ends, as their views see them.
ghost use Rattle.std.specs.Prelude.{◌≡◌, [], drop, fold, length, false, IfOk, OnErr, OnOk};
ghost use Rattle.std.specs.Option.{option_map};
ghost use Rattle.left_right.specs.Sides.{view};
ghost use Rattle.mama_board.specs.Images.{after_change, sets_in};
ghost use Rattle.mama_board.specs.Rows.{row};
ghost use Rattle.mama_board.specs.Rule.{IsOnward, MayPublish, published};

use crate::rule::{Enter, Given, Learn, Place, Publish, Tell, Writer};
use core::mem::replace_with;
use mama_event::{ImageHead, SubId};
use mama_memory::OutOfMemory;
use mama_msg::Msg;
use std::alloc::AllocError;
use std::marker::Brand;
use std::sync::Wait;
use std::thread;

/// Shows what is logged, at one step, of a board that is not sealed. It waits for readers that still look at the copy
/// from before the last such step. At `Err` nothing is shown, and the log is as before.
pub fn show<R: Wait>(rt: &R, writer: &mut Writer) -> Result<(), AllocError>
    requires whole { length (view writer.old.desk.place).seen ≡ writer.old.desk.shown.value.version }
    requires unsealed { writer.old.desk.shown.value.sealed ≡ false }
    ensures value { OnOk result (writer.new.desk.shown.value ≡ fold after_change writer.old.desk.shown.value (drop writer.old.behind writer.old.log.items)) }
    ensures known { OnOk result (view writer.new.desk.place ≡ published (sets_in (drop writer.old.behind writer.old.log.items)) (fold after_change writer.old.desk.shown.value (drop writer.old.behind writer.old.log.items)).sealed (view writer.old.desk.place)) }
    ensures none { OnOk result (drop writer.new.behind writer.new.log.items ≡ []) }
    ensures err_value { OnErr result (writer.new.desk.shown.value ≡ writer.old.desk.shown.value) }
    ensures err_known { OnErr result (view writer.new.desk.place ≡ view writer.old.desk.place) }
    ensures err_log { OnErr result (drop writer.new.behind writer.new.log.items ≡ drop writer.old.behind writer.old.log.items) }
{
    publish::<Brand, R>(rt, writer)
}

// Shows what is logged, where that is what is given.
fn publish<G: Given, R: Wait>(rt: &R, writer: &mut Writer) -> Result<(), AllocError>
    requires { MayPublish G.sets G.sealed writer.old.desk.shown.value (drop writer.old.behind writer.old.log.items) (view writer.old.desk.place) }
    ensures value { OnOk result (writer.new.desk.shown.value ≡ fold after_change writer.old.desk.shown.value (drop writer.old.behind writer.old.log.items)) }
    ensures known { OnOk result (view writer.new.desk.place ≡ published G.sets G.sealed (view writer.old.desk.place)) }
    ensures none { OnOk result (drop writer.new.behind writer.new.log.items ≡ []) }
    ensures err_value { OnErr result (writer.new.desk.shown.value ≡ writer.old.desk.shown.value) }
    ensures err_known { OnErr result (view writer.new.desk.place ≡ view writer.old.desk.place) }
    ensures err_log { OnErr result (drop writer.new.behind writer.new.log.items ≡ drop writer.old.behind writer.old.log.items) }
{
    replace_with(
        writer,
        rt,
        |writer: Writer, rt: &R| -> (Writer, Result<(), AllocError>)
            requires { MayPublish G.sets G.sealed writer.desk.shown.value (drop writer.behind writer.log.items) (view writer.desk.place) }
            ensures value { OnOk result.1 (result.0.desk.shown.value ≡ fold after_change writer.desk.shown.value (drop writer.behind writer.log.items)) }
            ensures known { OnOk result.1 (view result.0.desk.place ≡ published G.sets G.sealed (view writer.desk.place)) }
            ensures none { OnOk result.1 (drop result.0.behind result.0.log.items ≡ []) }
            ensures err_value { OnErr result.1 (result.0.desk.shown.value ≡ writer.desk.shown.value) }
            ensures err_known { OnErr result.1 (view result.0.desk.place ≡ view writer.desk.place) }
            ensures err_log { OnErr result.1 (drop result.0.behind result.0.log.items ≡ drop writer.behind writer.log.items) }
        { writer.publish_as::<Publish<G>, R>(rt) },
    )
}

/// Finds a place that is free, and leaves it free.
pub fn find_place(writer: &Writer) -> Result<(), OutOfMemory> {
    let _free = writer.factory().reader()?;
    Ok(())
}

// A place that knows nothing yet. It waits until one is free.
fn await_place<R: Wait>(rt: &R, writer: &Writer) -> Place
    ensures { result.place.table_id ≡ writer.now.desk.place.table_id }
{
    for _ in rt.forever() {
        if let Ok(place) = writer.factory().reader() {
            return place;
        }
        thread::yield_now();
    }
    unreachable!()
}

/// A place that knows what the writer knows. It waits until one is free: where the writer alone makes places, and found
/// one free, that is at once.
pub fn tell<R: Wait>(rt: &R, writer: &mut Writer) -> Place
    ensures value { writer.new.desk.shown.value ≡ writer.old.desk.shown.value }
    ensures known { view writer.new.desk.place ≡ view writer.old.desk.place }
    ensures log { drop writer.new.behind writer.new.log.items ≡ drop writer.old.behind writer.old.log.items }
    ensures told { view result.place ≡ view writer.old.desk.place }
{
    let mut place = await_place(rt, writer);
    place.learn::<Learn>(writer.tell::<Tell>());
    place
}

/// Looks up the head of a subscription's image, and answers the number of sets that are shown with it. At `Err` the
/// board is gone.
pub fn look_head(place: Place, sub: SubId) -> (Place, Result<(u64, Option<ImageHead>), OutOfMemory>)
    ensures onward { IsOnward (view place.place) (view result.0.place) }
    ensures version { IfOk result.1 (λ found. found.0 ≡ length (view result.0.place).seen) }
    ensures head { IfOk result.1 (λ found. found.1 ≡ option_map (λ r. r.head) (row sub (view result.0.place).seen)) }
{
    match place.enter_as::<Enter>() {
        Ok(reading) => {
            let images = reading.get();
            let found = (images.version(), images.head_of(sub));
            (reading.leave(), Ok(found))
        }
        Err(place) => (place, Err(OutOfMemory)),
    }
}

/// Looks up a subscription's image, and answers the number of sets that are shown with a copy of it. At `Err` the board
/// is gone, or memory ran out.
pub fn look_image(
    place: Place,
    sub: SubId,
) -> (Place, Result<(u64, Option<(ImageHead, Msg)>), OutOfMemory>)
    ensures onward { IsOnward (view place.place) (view result.0.place) }
    ensures version { IfOk result.1 (λ found. found.0 ≡ length (view result.0.place).seen) }
    ensures image { IfOk result.1 (λ found. found.1 ≡ option_map (λ r. (r.head, r.body)) (row sub (view result.0.place).seen)) }
{
    match place.enter_as::<Enter>() {
        Ok(reading) => {
            let images = reading.get();
            let (version, image) = (images.version(), images.image_of(sub));
            let place = reading.leave();
            match image {
                Ok(image) => (place, Ok((version, image))),
                Err(error) => (place, Err(error)),
            }
        }
        Err(place) => (place, Err(OutOfMemory)),
    }
}
