ghost use Rattle.std.specs.Prelude.{◌≡◌, true, false, [], ◌∷◌, map, is_some, OnOk, OnErr, IfOk, IfErr};
ghost use Rattle.mama_event.specs.declared.ids.ObjectId.TheVariants.{Sub};
ghost use Rattle.mama_event.specs.Listener.{told};
ghost use Rattle.mama_dispatch.specs.Seats.{has_seat, listener_in, is_muted_in, with_room};
ghost use Rattle.mama_dispatch.specs.Seating.{is_plain};
ghost use Rattle.mama_dispatch.specs.Making.{WereCalled, Created, Ended, Delivered};
ghost use Rattle.mama_dispatch.specs.Turns.{put_note, IsAppended};

use crate::seats::Seats;
use mama_dq::Calls;
use mama_event::{Callback, Listener, Make, MarketMsg, ObjectId, SubId, Tagged, ToService};
use mama_memory::{OutOfMemory, Outbox};
use std::alloc::Global;

/// The most events that one callback puts: a wish and 8 orders.
const MOST_PUTS: usize = 9;

impl<L: Listener> Seats<L> {
    /// Makes an object, and its first callback. Where no memory is found the listener is given back, and nothing has
    /// changed.
    pub(crate) fn create<M: Tagged>(
        &mut self,
        alloc: Global,
        object: ObjectId,
        make: Make,
        listener: L,
        out: &mut Outbox<ToService<M>>,
    ) -> Result<(), L>
        requires { has_seat object self.old ≡ false }
        ensures ok { OnOk result (Created object make (told L.tagged L.calls L.heard L.given L.plan listener) self.old self.new (map (put_note M.tagged) out.old.items) (map (put_note M.tagged) out.new.items)) }
        ensures err { OnErr result (self.new ≡ self.old) }
        ensures appended { OnOk result (IsAppended out.old.items out.new.items) }
        ensures puts_err { OnErr result (out.new.items ≡ out.old.items) }
        ensures back { IfErr result (λ given. given ≡ listener) }
    {
        if out.reserve(MOST_PUTS).is_err() {
            return Err(listener);
        }
        match self.open(alloc, object, make, listener) {
            Ok(()) => {
                self.call_put(&object, Callback::Create, out);
                Ok(())
            }
            Err(listener) => Err(listener),
        }
    }

    /// Makes the last callback of an object, and hands its listener back. Where no memory is found nothing has changed
    /// but the room.
    pub(crate) fn end<M: Tagged>(
        &mut self,
        object: &ObjectId,
        out: &mut Outbox<ToService<M>>,
    ) -> Result<L, OutOfMemory>
        requires { is_some (listener_in object.now self.old) ≡ true }
        ensures ok { IfOk result (λ l. Ended object.now (told L.tagged L.calls L.heard L.given L.plan l) self.old self.new (map (put_note M.tagged) out.old.items) (map (put_note M.tagged) out.new.items)) }
        ensures err { OnErr result (map (with_room 0) self.new ≡ map (with_room 0) self.old) }
        ensures appended { OnOk result (IsAppended out.old.items out.new.items) }
        ensures puts_err { OnErr result (out.new.items ≡ out.old.items) }
    {
        out.reserve(MOST_PUTS)?;
        self.reserve(object, 1)?;
        self.call_put(object, Callback::Destroy, out);
        Ok(self.close(object))
    }

    /// Takes a message of a subscription that is not muted, and makes its callbacks. The answer is how many were made.
    /// Where no memory is found nothing has changed but the room.
    pub(crate) fn deliver<M: Tagged>(
        &mut self,
        alloc: Global,
        sub: SubId,
        msg: &MarketMsg,
        out: &mut Outbox<ToService<M>>,
    ) -> Result<u64, OutOfMemory>
        requires { is_some (listener_in (Sub sub) self.old) ≡ true }
        ensures ok { IfOk result (λ count. Delivered sub msg.now self.old self.new (map (put_note M.tagged) out.old.items) (map (put_note M.tagged) out.new.items) count) }
        ensures err { OnErr result (map (with_room 0) self.new ≡ map (with_room 0) self.old) }
        ensures appended { OnOk result (IsAppended out.old.items out.new.items) }
        ensures puts_err { OnErr result (out.new.items ≡ out.old.items) }
    {
        let object = ObjectId::Sub(sub);
        let most = self.most_calls(&object);
        out.reserve(MOST_PUTS * most)?;
        self.reserve(&object, most)?;
        let mut pending = Calls::new(alloc);
        self.step(&object, msg, &mut pending)?;
        Ok(self.call_all(&object, &mut pending, out))
    }

    /// Makes one callback of an object that is not muted. The answer is how many were made. Where no memory is found
    /// nothing has changed but the room.
    pub(crate) fn tell<M: Tagged>(
        &mut self,
        object: &ObjectId,
        call: Callback,
        out: &mut Outbox<ToService<M>>,
    ) -> Result<(), Callback>
        requires here { is_some (listener_in object.now self.old) ≡ true }
        requires plain { is_plain call ≡ true }
        requires unmuted { is_muted_in object.now self.old ≡ false }
        ensures called { OnOk result (WereCalled object.now (call ∷ []) self.old self.new (map (put_note M.tagged) out.old.items) (map (put_note M.tagged) out.new.items) 1) }
        ensures err { OnErr result (map (with_room 0) self.new ≡ map (with_room 0) self.old) }
        ensures appended { OnOk result (IsAppended out.old.items out.new.items) }
        ensures puts_err { OnErr result (out.new.items ≡ out.old.items) }
        ensures back { IfErr result (λ given. given ≡ call) }
    {
        if out.reserve(MOST_PUTS).is_err() {
            return Err(call);
        }
        if self.reserve(object, 1).is_err() {
            return Err(call);
        }
        self.call_put(object, call, out);
        Ok(())
    }
}
