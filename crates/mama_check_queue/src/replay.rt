ghost use Rattle.std.specs.Prelude.{◌≡◌, ℕ, ◌&&◌, not, ◌∷◌, [], OnOk};
ghost use Rattle.mama_plans.specs.Orders.{orders_in};
ghost use Rattle.mama_event.specs.declared.ids.ObjectId.{ObjectId as AnyObject};
ghost use Rattle.mama_event.specs.Arrival as wire;
ghost use Rattle.mama_event.specs.declared.callback.Callback.TheVariants as on;
ghost use Rattle.mama_event.specs.declared.to_queue.QueueNote.TheVariants as note;
ghost use Rattle.mama_rules_queue.specs.Queue.{is_destroy as destroys};
ghost use Rattle.mama_check_queue.specs.Rows.{seen_in};
ghost use Rattle.mama_check_queue.specs.Replay.{Makes, Serves};

use crate::objects::Objects;
use crate::orders::OrderBook;
use crate::puts::Puts;
use crate::seen::is_destroy;
use mama_dq::Calls;
use mama_event::{Callback, Make, MarketMsg, ObjectId, Piece, QueueNote, SubId, code_of};
use mama_memory::{Duplicate, OutOfMemory};
use std::alloc::Global;

/// A queue whose journal is served again, as far as it was.
#[derive(Drop)]
pub(crate) struct Replay {
    pub(crate) objects: Objects,
    pub(crate) puts: Puts,
}

/// Whether a callback is not made, since its object is muted.
fn is_left_out(objects: &Objects, object: &ObjectId, call: &Callback) -> bool
    ensures { result ≡ ((seen_in objects.now object.now).muted && not (destroys call.now)) }
{
    objects.is_muted(object) && !is_destroy(call)
}

impl Replay {
    /// Makes a callback of an object, unless the object is muted.
    fn call(
        &mut self,
        book: &OrderBook,
        entry: usize,
        object: &ObjectId,
        call: Callback,
    ) -> Result<(), OutOfMemory>
        ensures { OnOk result (Makes (orders_in book.now) object.now (call ∷ []) entry self.old.objects self.new.objects self.old.puts self.new.puts) }
    {
        if is_left_out(&self.objects, object, &call) {
            return Ok(());
        }
        let number = self.objects.calls(object).len() as u64 + 1;
        let orders = book.orders(object, number);
        self.puts.put_call(entry, object, &call, orders.as_slice())?;
        self.objects.call(object, call, orders)
    }

    /// Makes some callbacks of an object, one by one.
    fn call_all(
        &mut self,
        book: &OrderBook,
        entry: usize,
        object: &ObjectId,
        calls: Calls,
    ) -> Result<(), OutOfMemory>
        ensures { OnOk result (Makes (orders_in book.now) object.now calls entry self.old.objects self.new.objects self.old.puts self.new.puts) }
    {
        let mut rest = calls;
        while let Some(call) = rest.take_first() {
            self.call(book, entry, object, call)?;
        }
        Ok(())
    }

    /// Serves a `Create`.
    fn create(
        &mut self,
        book: &OrderBook,
        entry: usize,
        object: &ObjectId,
        make: Make,
    ) -> Result<(), OutOfMemory>
        ensures { OnOk result ((slot : ℕ) (tag : AnyObject) → Serves (orders_in book.now) (note.Create slot object.now make tag) entry self.old.objects self.new.objects self.old.puts self.new.puts) }
    {
        self.objects.make(object, make)?;
        self.call(book, entry, object, Callback::Create)
    }

    /// Serves a message of a subscription.
    fn deliver(
        &mut self,
        alloc: Global,
        book: &OrderBook,
        entry: usize,
        sub: SubId,
        msg: &MarketMsg,
    ) -> Result<(), OutOfMemory>
        ensures { OnOk result ((slot : ℕ) → Serves (orders_in book.now) (note.Deliver slot sub msg.now) entry self.old.objects self.new.objects self.old.puts self.new.puts) }
    {
        let object = ObjectId::Sub(sub);
        if self.objects.is_muted(&object) {
            return Ok(());
        }
        let mut calls = Calls::new(alloc);
        self.objects.handle(sub, msg, &mut calls)?;
        self.call_all(book, entry, &object, calls)
    }

    /// Serves bytes for an object that spell no message.
    fn fail(
        &mut self,
        book: &OrderBook,
        entry: usize,
        object: &ObjectId,
        bytes: &Piece,
    ) -> Result<(), OutOfMemory>
        ensures { OnOk result (Makes (orders_in book.now) object.now (on.Error (wire.code_of bytes.now) ∷ []) entry self.old.objects self.new.objects self.old.puts self.new.puts) }
    {
        if self.objects.is_muted(object) {
            return Ok(());
        }
        let code = code_of(bytes)?;
        self.call(book, entry, object, Callback::Error { code })
    }

    /// Serves an entry, but for the Byes that the second `Fin` puts.
    pub(crate) fn serve(
        &mut self,
        alloc: Global,
        book: &OrderBook,
        entry: usize,
        noted: &QueueNote,
    ) -> Result<(), OutOfMemory>
        ensures { OnOk result (Serves (orders_in book.now) noted.now entry self.old.objects self.new.objects self.old.puts self.new.puts) }
    {
        match noted {
            QueueNote::Create {
                slot: _,
                object,
                make,
                tag: _,
            } => self.create(book, entry, object, *make),
            QueueNote::Deliver { slot: _, sub, msg } => self.deliver(alloc, book, entry, *sub, msg),
            QueueNote::Reply {
                slot: _,
                inbox,
                body,
            } => {
                let body = body.try_clone()?;
                self.call(
                    book,
                    entry,
                    &ObjectId::Inbox(*inbox),
                    Callback::Reply { body },
                )
            }
            QueueNote::Bad {
                slot: _,
                sub,
                kind: _,
                sender: _,
                seq: _,
                bytes,
            } => self.fail(book, entry, &ObjectId::Sub(*sub), bytes),
            QueueNote::BadReply {
                slot: _,
                inbox,
                bytes,
            } => self.fail(book, entry, &ObjectId::Inbox(*inbox), bytes),
            QueueNote::Tick {
                slot: _,
                timer,
                moment,
            } => {
                let moment = *moment;
                self.call(
                    book,
                    entry,
                    &ObjectId::Timer(*timer),
                    Callback::Tick { moment },
                )
            }
            QueueNote::Gone { slot: _, object } => {
                self.call(book, entry, object, Callback::Destroy)
            }
            QueueNote::Fin => Ok(()),
        }
    }
}
