ghost use Rattle.std.specs.Prelude.{◌≡◌, ◌+◌, ◌<◌, ◌||◌, [], ◌∷◌, ◌++◌, true, is_some, ◌≤◌, ◌*◌, ◌^◌, length, Some, None, OnOk, OnErr, IfOk};
ghost use Rattle.std.specs.Option.{option_map};
ghost use Rattle.mama_dq.specs.Strategy.{callbacks_of};
ghost use Rattle.mama_event.specs.Listener.{told};
ghost use Rattle.mama_dispatch.specs.Seats.{HeardIn, called_with, muted_where_live, with_listener, stepped, with_context, with_room, new_seat};
ghost use Rattle.mama_rules_queue.specs.Queue.{context_of};
ghost use Rattle.mama_event.specs.declared.market.MarketMsg.{MarketMsg};
ghost use Rattle.mama_dispatch.specs.Rows.{row_data, IsSmall};
ghost use Rattle.mama_dispatch.specs.Images.{lent, image_at};
ghost use Rattle.mama_dispatch.specs.Journals.{image_in};

use crate::blocks::Blocks;
use crate::calling::make;
use crate::noted_calls::NotedCalls;
use mama_dq::{Calls, DqContext};
use mama_event::{
    Callback, ImageHead, Listener, Make, MarketMsg, ObjectId, Orders, Quality, Strategy, SubKind,
};
use mama_memory::{Duplicate, OutOfMemory};
use mama_msg::Msg;
use std::alloc::Global;

/// An object that was made on a queue: its listener until that is handed back, whether it is muted, what it knows of
/// its image, and its callbacks.
#[derive(Drop)]
pub(crate) struct Row<L> {
    pub(crate) object: ObjectId,
    pub(crate) listener: Option<L>,
    pub(crate) muted: bool,
    pub(crate) context: DqContext,
    pub(crate) calls: NotedCalls,
}

/// Makes a callback of the object's listener, which is there. The answer is what it ordered.
pub(crate) fn hear<L: Listener>(listener: &mut Option<L>, call: &Callback) -> Orders
    requires { is_some listener.old ≡ true }
    ensures { HeardIn call.now (option_map (told L.tagged L.calls L.heard L.given L.plan) listener.old) (option_map (told L.tagged L.calls L.heard L.given L.plan) listener.new) result }
{
    match listener {
        Some(listener) => make(listener, call),
        None => unreachable!(),
    }
}

/// Makes a callback of a row, which was promised a block for its orders, and notes it. The answer is what was ordered.
pub(crate) fn make_at<L: Listener>(row: &mut Row<L>, call: Callback, blocks: &mut Blocks) -> Orders
    requires here { is_some row.old.listener ≡ true }
    requires room { 0 < row.old.calls.room }
    requires promised { 0 < blocks.old.promised }
    ensures heard { HeardIn call (option_map (told L.tagged L.calls L.heard L.given L.plan) row.old.listener) (option_map (told L.tagged L.calls L.heard L.given L.plan) row.new.listener) result }
    ensures row { row_data (told L.tagged L.calls L.heard L.given L.plan) row.new ≡ called_with call result (option_map (told L.tagged L.calls L.heard L.given L.plan) row.new.listener) (row_data (told L.tagged L.calls L.heard L.given L.plan) row.old) }
    ensures promised { blocks.new.promised + 1 ≡ blocks.old.promised }
{
    let orders = hear(&mut row.listener, &call);
    row.calls.push(call, blocks.keep(&orders));
    orders
}

/// Mutes the object of a row, if it is live.
pub(crate) fn mute_at<L: Listener>(row: &mut Row<L>)
    ensures { row_data (told L.tagged L.calls L.heard L.given L.plan) row.new ≡ muted_where_live (row_data (told L.tagged L.calls L.heard L.given L.plan) row.old) }
{
    row.muted = row.muted || row.listener.is_some();
}

/// Takes the listener of a row out, which is there.
pub(crate) fn take_at<L: Listener>(row: &mut Row<L>) -> L
    requires { is_some row.old.listener ≡ true }
    ensures listener { row.old.listener ≡ Some result }
    ensures row { row_data (told L.tagged L.calls L.heard L.given L.plan) row.new ≡ with_listener None (row_data (told L.tagged L.calls L.heard L.given L.plan) row.old) }
{
    row.listener.take().unwrap()
}

/// Takes a message at a row: its context changes, and the callbacks of the message are added. After want of memory
/// nothing has changed.
pub(crate) fn step_at<L: Listener>(
    row: &mut Row<L>,
    msg: &MarketMsg,
    pending: &mut Calls,
) -> Result<(), OutOfMemory>
    ensures row { OnOk result (row_data (told L.tagged L.calls L.heard L.given L.plan) row.new ≡ stepped msg.now (row_data (told L.tagged L.calls L.heard L.given L.plan) row.old)) }
    ensures pending { OnOk result (pending.new ≡ pending.old ++ callbacks_of row.old.context msg.now) }
    ensures err { OnErr result (row.new ≡ row.old) }
    ensures small { IsSmall row.old.context.cache → IsSmall row.new.context.cache }
    ensures others { row_data (told L.tagged L.calls L.heard L.given L.plan) row.new ≡ with_context row.new.context (row_data (told L.tagged L.calls L.heard L.given L.plan) row.old) }
{
    row.context.step(msg, pending)
}

/// Makes room for more callbacks at a row, each of which is promised a block for its orders.
pub(crate) fn reserve_at<L: Listener>(
    row: &mut Row<L>,
    more: usize,
    blocks: &mut Blocks,
) -> Result<(), OutOfMemory>
    ensures row { row_data (told L.tagged L.calls L.heard L.given L.plan) row.new ≡ with_room row.new.calls.room (row_data (told L.tagged L.calls L.heard L.given L.plan) row.old) }
    ensures ok { OnOk result (more ≤ row.new.calls.room) }
    ensures promised { blocks.new.promised + row.old.calls.room ≡ blocks.old.promised + row.new.calls.room }
{
    let room = row.calls.room;
    if more <= room {
        return Ok(());
    }
    blocks.stock(more - room)?;
    row.calls.reserve(more)?;
    blocks.promise(more - room);
    Ok(())
}

/// Gives the room up that a row has for more callbacks. The answer is for how many it was.
pub(crate) fn settle_at<L: Listener>(row: &mut Row<L>) -> usize
    ensures row { row_data (told L.tagged L.calls L.heard L.given L.plan) row.new ≡ with_room 0 (row_data (told L.tagged L.calls L.heard L.given L.plan) row.old) }
    ensures room { result ≡ row.old.calls.room }
{
    row.calls.give_up()
}

/// The context of a new object.
fn context_for(alloc: Global, make: Make) -> DqContext
    ensures context { result ≡ context_of (Some make) [] }
    ensures small { IsSmall result.cache }
{
    match make {
        Make::Sub {
            kind,
            cache,
            strategy,
        } => DqContext::new(alloc, kind, cache, strategy),
        Make::Timer | Make::Inbox => DqContext::new(alloc, SubKind::Basic, 0, Strategy::One),
    }
}

/// The row of a new object.
pub(crate) fn new_row<L: Listener>(
    alloc: Global,
    object: ObjectId,
    make: Make,
    listener: L,
    calls: NotedCalls,
) -> Row<L>
    requires { calls.notes.items ≡ [] }
    ensures row { row_data (told L.tagged L.calls L.heard L.given L.plan) result ≡ new_seat object make (told L.tagged L.calls L.heard L.given L.plan listener) calls.room }
    ensures small { IsSmall result.context.cache }
{
    Row {
        object,
        listener: Some(listener),
        muted: false,
        context: context_for(alloc, make),
        calls,
    }
}

/// The most callbacks that the next message of a context can make.
pub(crate) fn most_calls(context: &DqContext) -> usize
    requires { IsSmall context.now.cache }
    ensures calls { (msg : MarketMsg) → length (callbacks_of context.now msg) ≤ result }
    ensures few { result ≤ 4 * 2 ^ 32 }
{
    match (context.image(), context.quality()) {
        // While an image may lack updates, no message has the cached ones handled.
        (Some(_), Quality::Stale) => 4,
        _ => (context.cached() + 1) * 4,
    }
}

/// The image of a context, if it has one.
pub(crate) fn image_of(context: &DqContext) -> Result<Option<(ImageHead, Msg)>, OutOfMemory>
    ensures { IfOk result (λ found. found ≡ image_in context.now) }
{
    let Some(image) = context.image() else {
        return Ok(None);
    };
    let body = image.try_clone()?;
    let head = ImageHead {
        sender: context.sender(),
        last: context.last(),
        quality: context.quality(),
    };
    Ok(Some((head, body)))
}

/// An image that is lent: whose record it is, up to which number, how good it is, and the record itself.
#[derive(Debug, Drop)]
pub struct ImageRow<'a> {
    pub head: ImageHead,
    pub body: &'a Msg,
}

/// The image of a context, lent, if it has one.
fn lend(context: &DqContext) -> Option<ImageRow<'_>>
    ensures { lent result ≡ image_in context.now }
{
    let body = context.image()?;
    let head = ImageHead {
        sender: context.sender(),
        last: context.last(),
        quality: context.quality(),
    };
    Some(ImageRow { head, body })
}

/// The image of a row whose object is live, lent, if it has one.
pub(crate) fn live_image<L: Listener>(row: &Row<L>) -> Option<ImageRow<'_>>
    ensures { lent result ≡ image_at (row_data (told L.tagged L.calls L.heard L.given L.plan) row.now) }
{
    if row.listener.is_none() {
        return None;
    }
    lend(&row.context)
}
