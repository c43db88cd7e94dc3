ghost use Rattle.std.specs.Prelude.{◌≡◌, ◌<◌, ◌++◌, ◌∷◌, [], true, false, map, length, position, Some, IfOk, OnOk, OnErr, IfSome, IfNone};
ghost use Rattle.std.specs.List.{list_any};
ghost use Rattle.mama_event.specs.Object.{same_object};
ghost use Rattle.mama_event.specs.declared.ids.ObjectId.{ObjectId as AnyObject};
ghost use Rattle.mama_event.specs.declared.ids.ObjectId.TheVariants.{Sub as OfSub};
ghost use Rattle.mama_dq.specs.Strategy.{callbacks_of};
ghost use Rattle.mama_rules_queue.specs.Queue.{called, handled};
ghost use Rattle.mama_dispatch.specs.Images.{lent};
ghost use Rattle.mama_dispatch.specs.Journals.{image_in};
ghost use Rattle.mama_check_queue.specs.Seen.{at, begun, silenced, muted_by, called_so, handling, made_as, after_deed};
ghost use Rattle.mama_check_queue.specs.Rows.{seen_in};
ghost use Rattle.mama_check_queue.specs.Lists.{is_missed_row};

use crate::seen::{
    Seen, begin_at, handle_at, image_of, is_missed_at, make_at, new_seen, note_at, silence_at,
};
use indexmap::IndexSet;
use mama_dispatch::ImageRow;
use mama_dq::Calls;
use mama_event::{CallNote, Callback, Make, MarketMsg, ObjectId, Order, Orders, SubId};
use mama_memory::OutOfMemory;
use std::alloc::Global;
use std::marker::Model;

/// The objects that a journal told of. Each is found by its id.
#[derive(Drop)]
pub(crate) struct Objects {
    alloc: Global,
    places: IndexSet<ObjectId>,
    rows: Vec<Seen>,
}

impl Model for Objects {
    ghost use Rattle.mama_check_queue.specs.Rows.{SeenObjects};

    ghost Value = { SeenObjects };

    ghost use Rattle.std.specs.Prelude.{◌≡◌, map, length};
    ghost use Rattle.mama_check_queue.specs.Rows.{seen_data};

    ghost view = { λ s. record { ids = s.places.keys; rows = map seen_data s.rows.items } };

    ghost invariant = { λ s. length s.places.keys ≡ length s.rows.items };
}

impl Objects {
    /// No objects. It takes no memory.
    pub(crate) fn new(alloc: Global) -> Objects
        ensures { result ≡ record { ids = []; rows = [] } }
    {
        Objects {
            alloc,
            places: IndexSet::new(alloc),
            rows: Vec::new(alloc),
        }
    }

    /// The place of an object, if something came of it.
    fn place(&self, object: &ObjectId) -> Option<usize>
        ensures some { IfSome result (λ place. position (same_object object.now) self.now.ids ≡ Some place) }
        ensures within { IfSome result (λ place. place < length self.now.rows) }
        ensures none { IfNone result (list_any (same_object object.now) self.now.ids ≡ false) }
    {
        self.places.get_index_of(object)
    }

    /// The place of an object, which is new where nothing came of it before.
    fn open(&mut self, object: &ObjectId) -> Result<usize, OutOfMemory>
        ensures some { IfOk result (λ place. position (same_object object.now) self.new.ids ≡ Some place) }
        ensures within { IfOk result (λ place. place < length self.new.rows) }
        ensures same { OnOk result ((x : AnyObject) → seen_in self.new x ≡ seen_in self.old x) }
    {
        match self.place(object) {
            Some(place) => Ok(place),
            None => self.add(object),
        }
    }

    /// Makes a place for an object, of which nothing came before.
    fn add(&mut self, object: &ObjectId) -> Result<usize, OutOfMemory>
        requires { list_any (same_object object.now) self.old.ids ≡ false }
        ensures some { IfOk result (λ place. position (same_object object.now) self.new.ids ≡ Some place) }
        ensures within { IfOk result (λ place. place < length self.new.rows) }
        ensures same { OnOk result ((x : AnyObject) → seen_in self.new x ≡ seen_in self.old x) }
    {
        let place = self.rows.len();
        self.rows.reserve(1)?;
        add_place(&mut self.places, *object)?;
        self.rows.push_reserved(new_seen(self.alloc));
        Ok(place)
    }

    /// Whether an object is muted.
    pub(crate) fn is_muted(&self, object: &ObjectId) -> bool
        ensures { result ≡ (seen_in self.now object.now).muted }
    {
        match self.place(object) {
            Some(place) => self.rows[place].muted,
            None => false,
        }
    }

    /// The callbacks of an object so far.
    pub(crate) fn calls(&self, object: &ObjectId) -> &[CallNote]
        ensures { result.now ≡ (seen_in self.now object.now).calls }
    {
        match self.place(object) {
            Some(place) => self.rows[place].calls.as_slice(),
            None => &[],
        }
    }

    /// The image of a subscription, lent, if it has one.
    pub(crate) fn image(&self, sub: SubId) -> Option<ImageRow<'_>>
        ensures { lent result ≡ image_in (seen_in self.now (OfSub sub)).context }
    {
        match self.place(&ObjectId::Sub(sub)) {
            Some(place) => image_of(&self.rows[place].context),
            None => None,
        }
    }

    /// Whether a subscription is live, is not muted, and has no image.
    pub(crate) fn is_missed(&self, sub: SubId) -> bool
        ensures { result ≡ is_missed_row (seen_in self.now (OfSub sub)) }
    {
        match self.place(&ObjectId::Sub(sub)) {
            Some(place) => is_missed_at(&self.rows[place]),
            None => false,
        }
    }

    /// A `Create` makes an object, if it is the object's first.
    pub(crate) fn make(&mut self, object: &ObjectId, make: Make) -> Result<(), OutOfMemory>
        ensures { OnOk result ((x : AnyObject) → seen_in self.new x ≡ at object.now x (made_as make) (seen_in self.old x)) }
    {
        let place = self.open(object)?;
        make_at(self.alloc, &mut self.rows[place], make)
    }

    /// The context of a subscription handles a message, and the callbacks of the message are added.
    pub(crate) fn handle(
        &mut self,
        sub: SubId,
        msg: &MarketMsg,
        calls: &mut Calls,
    ) -> Result<(), OutOfMemory>
        ensures seen { OnOk result ((x : AnyObject) → seen_in self.new x ≡ after_deed x (handled sub msg.now) (seen_in self.old x)) }
        ensures calls { OnOk result (calls.new ≡ calls.old ++ callbacks_of (seen_in self.old (OfSub sub)).context msg.now) }
    {
        let place = self.open(&ObjectId::Sub(sub))?;
        handle_at(&mut self.rows[place], msg, calls)
    }

    /// A callback of an object begins.
    fn begin(&mut self, object: &ObjectId, call: &Callback) -> Result<(), OutOfMemory>
        ensures { OnOk result ((x : AnyObject) → seen_in self.new x ≡ at object.now x (begun call.now) (seen_in self.old x)) }
    {
        let place = self.open(object)?;
        begin_at(&mut self.rows[place], call);
        Ok(())
    }

    /// An object is muted, where it is live.
    fn silence(&mut self, object: &ObjectId)
        ensures { (x : AnyObject) → seen_in self.new x ≡ at object.now x silenced (seen_in self.old x) }
    {
        match self.place(object) {
            Some(place) => silence_at(&mut self.rows[place]),
            None => {}
        }
    }

    /// An order mutes what it ends, where that is live.
    fn mute(&mut self, order: &Order)
        ensures { (x : AnyObject) → seen_in self.new x ≡ muted_by x (order.now ∷ []) (seen_in self.old x) }
    {
        match order {
            Order::Stop(sub) => self.silence(&ObjectId::Sub(*sub)),
            Order::Disarm(timer) => self.silence(&ObjectId::Timer(*timer)),
            Order::Close(inbox) => self.silence(&ObjectId::Inbox(*inbox)),
            Order::Ask {
                inbox: _,
                topic: _,
                fids: _,
            } => {}
        }
    }

    /// A callback of an object was made with these orders.
    fn note(&mut self, object: &ObjectId, call: Callback, orders: Orders) -> Result<(), OutOfMemory>
        ensures { OnOk result ((x : AnyObject) → seen_in self.new x ≡ at object.now x (called_so call orders) (seen_in self.old x)) }
    {
        let place = self.open(object)?;
        note_at(&mut self.rows[place], call, orders)
    }

    /// A callback of an object is made, and its listener gives these orders, which mute what they end.
    pub(crate) fn call(
        &mut self,
        object: &ObjectId,
        call: Callback,
        orders: Orders,
    ) -> Result<(), OutOfMemory>
        ensures { OnOk result ((x : AnyObject) → seen_in self.new x ≡ after_deed x (called object.now call orders) (seen_in self.old x)) }
    {
        self.begin(object, &call)?;
        for order in orders.as_slice() {
            self.mute(order);
        }
        self.note(object, call, orders)
    }
}

/// Adds an object to the index.
fn add_place(places: &mut IndexSet<ObjectId>, object: ObjectId) -> Result<(), OutOfMemory>
    requires { list_any (same_object object) places.old.keys ≡ false }
    ensures ok { OnOk result (places.new.keys ≡ places.old.keys ++ object ∷ []) }
    ensures err { OnErr result (places.new.keys ≡ places.old.keys) }
{
    places.insert(object)?;
    Ok(())
}
