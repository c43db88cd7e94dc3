ghost use Rattle.std.specs.Prelude.{◌≡◌, ◌++◌, ◌&&◌, not, [], Some, IfOk, OnOk};
ghost use Rattle.mama_dq.specs.Strategy.{callbacks_of};
ghost use Rattle.mama_dispatch.specs.Images.{lent};
ghost use Rattle.mama_dispatch.specs.Journals.{image_in};
ghost use Rattle.mama_rules_queue.specs.Queue.{is_create as creates, is_destroy as destroys, context_of};
ghost use Rattle.mama_check_queue.specs.Seen.{unseen, begun, silenced, called_so, kept_more, handling, made_as};
ghost use Rattle.mama_rules_queue.specs.Watch.{lacks_image};
ghost use Rattle.mama_check_queue.specs.Rows.{seen_data};
ghost use Rattle.mama_check_queue.specs.Lists.{is_missed_row};

use mama_dispatch::ImageRow;
use mama_dq::{Calls, DqContext};
use mama_event::{
    CallNote, Callback, GivenOrders, ImageHead, Make, MarketMsg, Orders, Strategy, SubKind,
};
use mama_memory::{Duplicate, OutOfMemory};
use std::alloc::Global;

/// What the journal of a queue tells of one object.
#[derive(Drop)]
pub(crate) struct Seen {
    pub(crate) make: Option<Make>,
    pub(crate) live: bool,
    pub(crate) muted: bool,
    pub(crate) calls: Vec<CallNote>,
    pub(crate) context: DqContext,
    // The messages that were handled while no `Create` had come.
    pub(crate) waiting: Vec<MarketMsg>,
}

/// Whether a callback is the first of an object.
pub(crate) fn is_create(call: &Callback) -> bool
    ensures { result ≡ creates call.now }
{
    match call {
        Callback::Create => true,
        _ => false,
    }
}

/// Whether a callback is the last of an object.
pub(crate) fn is_destroy(call: &Callback) -> bool
    ensures { result ≡ destroys call.now }
{
    match call {
        Callback::Destroy => true,
        _ => false,
    }
}

/// An object of which nothing came. It takes no memory.
pub(crate) fn new_seen(alloc: Global) -> Seen
    ensures { seen_data result ≡ unseen }
{
    Seen {
        make: None,
        live: false,
        muted: false,
        calls: Vec::new(alloc),
        context: DqContext::new(alloc, SubKind::Basic, 0, Strategy::One),
        waiting: Vec::new(alloc),
    }
}

/// A callback of the object begins: with its first the object is live.
pub(crate) fn begin_at(row: &mut Seen, call: &Callback)
    ensures { seen_data row.new ≡ begun call.now (seen_data row.old) }
{
    row.live = row.live || is_create(call);
}

/// An order ends the object: that mutes it where it is live.
pub(crate) fn silence_at(row: &mut Seen)
    ensures { seen_data row.new ≡ silenced (seen_data row.old) }
{
    row.muted = row.muted || row.live;
}

/// A callback of the object was made, with these orders: after its last the object is not live.
pub(crate) fn note_at(row: &mut Seen, call: Callback, orders: Orders) -> Result<(), OutOfMemory>
    ensures { OnOk result (seen_data row.new ≡ called_so call orders (seen_data row.old)) }
{
    let orders = GivenOrders::new(*row.calls.allocator(), &orders)?;
    row.live = row.live && !is_destroy(&call);
    row.calls.push(CallNote { call, orders })?;
    Ok(())
}

/// Keeps a message while no `Create` has come.
fn keep(
    make: &Option<Make>,
    waiting: &mut Vec<MarketMsg>,
    msg: &MarketMsg,
) -> Result<(), OutOfMemory>
    ensures { OnOk result (waiting.new.items ≡ kept_more make.now waiting.old.items msg.now) }
{
    match make {
        Some(_) => Ok(()),
        None => {
            waiting.push(msg.try_clone()?)?;
            Ok(())
        }
    }
}

/// The context of the object handles a message, and the callbacks of the message are added.
pub(crate) fn handle_at(
    row: &mut Seen,
    msg: &MarketMsg,
    calls: &mut Calls,
) -> Result<(), OutOfMemory>
    ensures row { OnOk result (seen_data row.new ≡ handling msg.now (seen_data row.old)) }
    ensures calls { OnOk result (calls.new ≡ calls.old ++ callbacks_of row.old.context msg.now) }
{
    keep(&row.make, &mut row.waiting, msg)?;
    row.context.step(msg, calls)?;
    Ok(())
}

/// A `Create` makes the object, if it is the first: messages that were handled before are folded anew.
pub(crate) fn make_at(alloc: Global, row: &mut Seen, make: Make) -> Result<(), OutOfMemory>
    ensures { OnOk result (seen_data row.new ≡ made_as make (seen_data row.old)) }
{
    if row.make.is_some() {
        return Ok(());
    }
    row.context = folded(alloc, make, &row.waiting)?;
    row.waiting = Vec::new(alloc);
    row.make = Some(make);
    Ok(())
}

/// The context of a new object.
fn context_for(alloc: Global, make: Make) -> DqContext
    ensures { result ≡ context_of (Some make) [] }
{
    match make {
        Make::Sub {
            kind,
            cache,
            strategy,
        } => DqContext::new(alloc, kind, cache, strategy),
        Make::Timer | Make::Inbox => DqContext::new(alloc, SubKind::Basic, 0, Strategy::One),
    }
}

/// The context of an object that has handled some messages.
fn folded(alloc: Global, make: Make, messages: &[MarketMsg]) -> Result<DqContext, OutOfMemory>
    ensures { IfOk result (λ context. context ≡ context_of (Some make) messages.now) }
{
    let mut context = context_for(alloc, make);
    for msg in messages {
        let mut calls = Calls::new(alloc);
        context.step(msg, &mut calls)?;
    }
    Ok(context)
}

/// The image of a context, lent, if it has one.
pub(crate) fn image_of(context: &DqContext) -> Option<ImageRow<'_>>
    ensures { lent result ≡ image_in context.now }
{
    let body = context.image()?;
    let head = ImageHead {
        sender: context.sender(),
        last: context.last(),
        quality: context.quality(),
    };
    Some(ImageRow { head, body })
}

/// Whether a context has no image.
fn is_imageless(context: &DqContext) -> bool
    ensures { result ≡ lacks_image context.now }
{
    match context.image() {
        Some(_) => false,
        None => true,
    }
}

/// Whether an object is live and not muted.
fn is_heard(row: &Seen) -> bool
    ensures { result ≡ (row.now.live && not row.now.muted) }
{
    row.live && !row.muted
}

/// Whether a subscription is live, is not muted, and has no image.
pub(crate) fn is_missed_at(row: &Seen) -> bool
    ensures { result ≡ is_missed_row (seen_data row.now) }
{
    is_heard(row) && is_imageless(&row.context)
}
