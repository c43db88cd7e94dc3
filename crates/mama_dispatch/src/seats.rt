ghost use Rattle.std.specs.Prelude.{◌≡◌, ◌*◌, ◌^◌, ◌<◌, ◌≤◌, true, false, [], ◌∷◌, ◌++◌, map, length, is_some, Some, None, OnOk, OnErr, IfOk, IfErr, IfSome, IfNone};
ghost use Rattle.std.specs.Bool.{OnTrue};
ghost use Rattle.std.specs.List.{list_any};
ghost use Rattle.mama_event.specs.Object.{same_object};
ghost use Rattle.mama_event.specs.declared.market.MarketMsg.{MarketMsg};
ghost use Rattle.std.specs.Option.{option_and_then};
ghost use Rattle.mama_event.specs.declared.ids.ObjectId.TheVariants.{Sub};
ghost use Rattle.mama_dq.specs.Strategy.{callbacks_of};
ghost use Rattle.mama_event.specs.Listener.{told};
ghost use Rattle.mama_dispatch.specs.Seats.{SeatData, has_seat, AreApart, seat_of, listener_in, is_muted_in, context_in, room_in, at, muted_by, muted_by_all, muted_where_live, called_with, with_listener, stepped, with_room, HeardIn};
ghost use Rattle.mama_dispatch.specs.Places.{IsPlace, IsSeatOf, IsEnded, IsOpened};
ghost use Rattle.mama_dispatch.specs.Journals.{image_in};
ghost use Rattle.mama_dispatch.specs.Keeping.{AreFew};
ghost use Rattle.mama_dispatch.specs.Served.{calls_at};
ghost use Rattle.mama_dispatch.specs.Images.{lent, image_at};
ghost use Rattle.mama_dispatch.specs.Rows.{row_data};

use crate::blocks::Blocks;
use crate::noted_calls::NotedCalls;
use crate::row::{
    ImageRow, Row, image_of, live_image, make_at, most_calls, mute_at, new_row, reserve_at,
    settle_at, step_at, take_at,
};
use indexmap::IndexSet;
use mama_dq::{Calls, DqContext};
use mama_event::{
    CallNote, Callback, ImageHead, Listener, Make, MarketMsg, ObjectId, Order, Orders, QueueNote,
    SubId, SubKind,
};
use mama_memory::OutOfMemory;
use mama_msg::Msg;
use std::alloc::Global;
use std::marker::Model;

/// The objects that were made on a queue, in the order in which they were made. Each is found by its id.
#[derive(Drop)]
pub(crate) struct Seats<L: Listener> {
    places: IndexSet<ObjectId>,
    rows: Vec<Row<L>>,
    // Where an object was found last. It is looked for there first: an event asks for its object many times.
    last: usize,
    // The blocks that the room of all rows is promised.
    blocks: Blocks,
}

impl<L: Listener> Model for Seats<L> {
    ghost use Rattle.std.specs.Prelude.{List};
    ghost use Rattle.mama_dispatch.specs.Seats.{SeatData};

    ghost Value = { List SeatData };

    ghost use Rattle.std.specs.Prelude.{map};
    ghost use Rattle.mama_event.specs.Listener.{told};
    ghost use Rattle.mama_dispatch.specs.Rows.{row_data, AreHeld};

    ghost view = { λ s. map (row_data (told L.tagged L.calls L.heard L.given L.plan)) s.rows.items };

    ghost invariant = { λ s. AreHeld s.places.keys (map (row_data (told L.tagged L.calls L.heard L.given L.plan)) s.rows.items) s.blocks.promised };
}

/// Whether a place is that of a row, and that row is of this object.
fn is_row_of<L: Listener>(rows: &[Row<L>], place: usize, object: &ObjectId) -> bool
    ensures { OnTrue result (IsSeatOf object.now place (map (row_data (told L.tagged L.calls L.heard L.given L.plan)) rows.now)) }
{
    if place < rows.len() {
        return object == &rows[place].object;
    }
    false
}

/// The object that an order ends, if it ends one.
fn ended_by(order: &Order) -> Option<ObjectId>
    ensures { IsEnded order.now result }
{
    match order {
        Order::Stop(sub) => Some(ObjectId::Sub(*sub)),
        Order::Disarm(timer) => Some(ObjectId::Timer(*timer)),
        Order::Close(inbox) => Some(ObjectId::Inbox(*inbox)),
        Order::Ask {
            inbox: _,
            topic: _,
            fids: _,
        } => None,
    }
}

impl<L: Listener> Seats<L> {
    /// No objects. It takes no memory.
    pub(crate) fn new(alloc: Global) -> Seats<L>
        ensures { result ≡ [] }
    {
        Seats {
            places: IndexSet::new(alloc),
            rows: Vec::new(alloc),
            last: 0,
            blocks: Blocks::new(alloc),
        }
    }

    /// The place of an object, if it was made here.
    fn place(&self, object: &ObjectId) -> Option<usize>
        ensures some { IfSome result (λ place. IsPlace object.now place self.now) }
        ensures none { IfNone result (has_seat object.now self.now ≡ false) }
    {
        if is_row_of(self.rows.as_slice(), self.last, object) {
            return Some(self.last);
        }
        self.places.get_index_of(object)
    }

    /// Looks the object of an entry up, so that it is found at once while the entry is served.
    pub(crate) fn seek(&mut self, note: &QueueNote)
        ensures { self.new ≡ self.old }
    {
        let Some(object) = object_of(note) else {
            return;
        };
        if let Some(place) = self.place(&object) {
            self.last = place;
        }
    }

    /// The place of an object that is live here.
    fn live_place(&self, object: &ObjectId) -> usize
        requires { is_some (listener_in object.now self.now) ≡ true }
        ensures { IsPlace object.now result self.now }
    {
        match self.place(object) {
            Some(place) => place,
            None => unreachable!(),
        }
    }

    /// A fact about any seats: no two are of one object.
    pub(crate) fn apart(&self)
        ensures { AreApart self.now }
    {
        let _ = &self.places;
    }

    /// A fact about any seats: none has had more callbacks than a listener counts.
    pub(crate) fn few(&self)
        ensures { AreFew self.now }
    {
        let _ = &self.rows;
    }

    /// Gives the room up that the object of an entry has left, so that its blocks are there for others.
    pub(crate) fn settle(&mut self, note: &QueueNote)
        ensures { map (with_room 0) self.new ≡ map (with_room 0) self.old }
    {
        let Some(object) = object_of(note) else {
            return;
        };
        if let Some(place) = self.place(&object) {
            let left = settle_at(&mut self.rows[place]);
            self.blocks.release(left);
        }
    }

    /// How many objects were made here.
    pub(crate) fn len(&self) -> usize
        ensures len { result ≡ length self.now }
        ensures small { result < 2 ^ 63 }
    {
        self.rows.len()
    }

    /// The index of the objects, and the objects, in the order in which they were made.
    pub(crate) fn into_parts(self) -> (IndexSet<ObjectId>, Vec<Row<L>>)
        ensures index { result.0.keys ≡ map (λ (s : SeatData). s.object) self }
        ensures rows { map (row_data (told L.tagged L.calls L.heard L.given L.plan)) result.1.items ≡ self }
    {
        let Seats {
            places,
            rows,
            last: _,
            blocks: _,
        } = self;
        (places, rows)
    }

    /// Whether an object was made here.
    pub(crate) fn has(&self, object: &ObjectId) -> bool
        ensures { result ≡ has_seat object.now self.now }
    {
        self.place(object).is_some()
    }

    /// Whether an object is live here.
    pub(crate) fn is_here(&self, object: &ObjectId) -> bool
        ensures { result ≡ is_some (listener_in object.now self.now) }
    {
        match self.place(object) {
            Some(place) => self.rows[place].listener.is_some(),
            None => false,
        }
    }

    /// The callbacks of an object.
    pub(crate) fn calls(&self, object: &ObjectId) -> &[CallNote]
        ensures { result.now ≡ calls_at object.now self.now }
    {
        match self.place(object) {
            Some(place) => self.rows[place].calls.notes.as_slice(),
            None => &[],
        }
    }

    /// The image of a subscription, if it has one.
    pub(crate) fn image(&self, object: &ObjectId) -> Result<Option<(ImageHead, Msg)>, OutOfMemory>
        ensures { IfOk result (λ found. found ≡ image_in (context_in object.now self.now)) }
    {
        match self.place(object) {
            Some(place) => image_of(&self.rows[place].context),
            None => Ok(None),
        }
    }

    /// The image of a live subscription, lent, if it has one.
    pub(crate) fn row(&self, object: &ObjectId) -> Option<ImageRow<'_>>
        ensures { lent result ≡ option_and_then image_at (seat_of object.now self.now) }
    {
        match self.place(object) {
            Some(place) => live_image(&self.rows[place]),
            None => None,
        }
    }

    /// Whether an object is muted.
    pub(crate) fn is_muted(&self, object: &ObjectId) -> bool
        ensures { result ≡ is_muted_in object.now self.now }
    {
        match self.place(object) {
            Some(place) => self.rows[place].muted,
            None => false,
        }
    }

    /// Makes one callback of an object, and notes it. The answer is what was ordered.
    fn make(&mut self, object: &ObjectId, call: Callback) -> Orders
        requires here { is_some (listener_in object.now self.old) ≡ true }
        requires room { 0 < room_in object.now self.old }
        ensures heard { HeardIn call (listener_in object.now self.old) (listener_in object.now self.new) result }
        ensures seats { self.new ≡ map (at object.now (called_with call result (listener_in object.now self.new))) self.old }
    {
        let place = self.live_place(object);
        make_at(&mut self.rows[place], call, &mut self.blocks)
    }

    /// Mutes an object, if it is live here.
    fn silence(&mut self, object: &ObjectId)
        ensures { self.new ≡ map (at object.now muted_where_live) self.old }
    {
        match self.place(object) {
            Some(place) => mute_at(&mut self.rows[place]),
            None => {}
        }
    }

    /// Mutes the object that an order ends, if it ends one that is live here.
    fn mute(&mut self, order: &Order)
        ensures { self.new ≡ map (muted_by order.now) self.old }
    {
        match ended_by(order) {
            Some(object) => self.silence(&object),
            None => {}
        }
    }

    /// Makes one callback of an object, notes it, and mutes what the orders end that is live here. The answer is what
    /// was ordered.
    pub(crate) fn call(&mut self, object: &ObjectId, call: Callback) -> Orders
        requires here { is_some (listener_in object.now self.old) ≡ true }
        requires room { 0 < room_in object.now self.old }
        ensures heard { HeardIn call (listener_in object.now self.old) (listener_in object.now self.new) result }
        ensures seats { self.new ≡ map (muted_by_all result) (map (at object.now (called_with call result (listener_in object.now self.new))) self.old) }
    {
        let orders = self.make(object, call);
        for order in orders.as_slice() {
            self.mute(order);
        }
        orders
    }

    /// Takes the listener of an object that is live here out.
    pub(crate) fn close(&mut self, object: &ObjectId) -> L
        requires { is_some (listener_in object.now self.old) ≡ true }
        ensures listener { listener_in object.now self.old ≡ Some (told L.tagged L.calls L.heard L.given L.plan result) }
        ensures seats { self.new ≡ map (at object.now (with_listener None)) self.old }
    {
        let place = self.live_place(object);
        take_at(&mut self.rows[place])
    }

    /// Gives a new object its seat, with room for one callback or more. Where no memory is found the listener is given
    /// back, and nothing has changed.
    pub(crate) fn open(
        &mut self,
        alloc: Global,
        object: ObjectId,
        make: Make,
        listener: L,
    ) -> Result<(), L>
        requires { has_seat object self.old ≡ false }
        ensures ok { OnOk result (IsOpened object make (told L.tagged L.calls L.heard L.given L.plan listener) self.old self.new) }
        ensures err { OnErr result (self.new ≡ self.old) }
        ensures back { IfErr result (λ given. given ≡ listener) }
    {
        let Ok(calls) = NotedCalls::new(alloc) else {
            return Err(listener);
        };
        if self.rows.reserve(1).is_err()
            || self.blocks.stock(1).is_err()
            || add_place(&mut self.places, object).is_err()
        {
            return Err(listener);
        }
        self.last = self.rows.len();
        self.blocks.promise(1);
        self.rows
            .push_reserved(new_row(alloc, object, make, listener, calls));
        Ok(())
    }

    /// Makes room for more callbacks of an object that is live here.
    pub(crate) fn reserve(&mut self, object: &ObjectId, more: usize) -> Result<(), OutOfMemory>
        requires { is_some (listener_in object.now self.old) ≡ true }
        ensures seats { self.new ≡ map (at object.now (with_room (room_in object.now self.new))) self.old }
        ensures ok { OnOk result (more ≤ room_in object.now self.new) }
    {
        let place = self.live_place(object);
        reserve_at(&mut self.rows[place], more, &mut self.blocks)
    }

    /// Takes a message of a live subscription: its context changes, and the callbacks of the message are added. After want
    /// of memory nothing has changed.
    pub(crate) fn step(
        &mut self,
        object: &ObjectId,
        msg: &MarketMsg,
        pending: &mut Calls,
    ) -> Result<(), OutOfMemory>
        requires { is_some (listener_in object.now self.old) ≡ true }
        ensures ok { OnOk result (self.new ≡ map (at object.now (stepped msg.now)) self.old) }
        ensures pending { OnOk result (pending.new ≡ pending.old ++ callbacks_of (context_in object.now self.old) msg.now) }
        ensures err { OnErr result (self.new ≡ self.old) }
    {
        let place = self.live_place(object);
        step_at(&mut self.rows[place], msg, pending)
    }

    /// The most callbacks that the next message of a live subscription can make.
    pub(crate) fn most_calls(&self, object: &ObjectId) -> usize
        requires { is_some (listener_in object.now self.now) ≡ true }
        ensures calls { (msg : MarketMsg) → length (callbacks_of (context_in object.now self.now) msg) ≤ result }
        ensures few { result ≤ 4 * 2 ^ 32 }
    {
        let place = self.live_place(object);
        most_calls(&self.rows[place].context)
    }
}

/// Adds an object to the index.
fn add_place(places: &mut IndexSet<ObjectId>, object: ObjectId) -> Result<(), OutOfMemory>
    requires { list_any (same_object object) places.old.keys ≡ false }
    ensures ok { OnOk result (places.new.keys ≡ places.old.keys ++ object ∷ []) }
    ensures err { OnErr result (places.new.keys ≡ places.old.keys) }
{
    places.insert(object)?;
    Ok(())
}

/// The object that an entry is of, if it is of one that was made before. It only tells where to look first, so no clause says which.
fn object_of(note: &QueueNote) -> Option<ObjectId> {
    match note {
        QueueNote::Deliver {
            slot: _,
            sub,
            msg: _,
        }
        | QueueNote::Bad {
            slot: _,
            sub,
            kind: _,
            sender: _,
            seq: _,
            bytes: _,
        } => Some(ObjectId::Sub(*sub)),
        QueueNote::Reply {
            slot: _,
            inbox,
            body: _,
        }
        | QueueNote::BadReply {
            slot: _,
            inbox,
            bytes: _,
        } => Some(ObjectId::Inbox(*inbox)),
        QueueNote::Tick {
            slot: _,
            timer,
            moment: _,
        } => Some(ObjectId::Timer(*timer)),
        QueueNote::Gone { slot: _, object } => Some(*object),
        QueueNote::Create {
            slot: _,
            object: _,
            make: _,
            tag: _,
        }
        | QueueNote::Fin => None,
    }
}
