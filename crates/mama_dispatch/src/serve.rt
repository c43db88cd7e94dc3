ghost use Rattle.std.specs.Prelude.{◌≡◌, ◌+◌, ◌<◌, ◌≤◌, true, [], ◌∷◌, map, drop, take, is_some};
ghost use Rattle.mama_dispatch.specs.Seats.{listener_in, room_in};
ghost use Rattle.mama_dispatch.specs.Seating.{is_plain, CalledOnce};
ghost use Rattle.mama_dispatch.specs.Making.{MayCall, WereCalled};
ghost use Rattle.mama_dispatch.specs.Turns.{put_note, IsAppended};

use crate::puts::{put_orders, put_wish};
use crate::seats::Seats;
use mama_dq::Calls;
use mama_event::{Callback, Listener, ObjectId, Tagged, ToService};
use mama_memory::Outbox;

impl<L: Listener> Seats<L> {
    /// Makes one callback of an object, be it muted or not, and puts what follows from it.
    pub(crate) fn call_put<M: Tagged>(
        &mut self,
        object: &ObjectId,
        call: Callback,
        out: &mut Outbox<ToService<M>>,
    )
        requires here { is_some (listener_in object.now self.old) ≡ true }
        requires room { 0 < room_in object.now self.old }
        requires spare { 9 ≤ out.old.spare }
        ensures once { CalledOnce object.now call self.old self.new (map (put_note M.tagged) out.old.items) (map (put_note M.tagged) out.new.items) }
        ensures appended { IsAppended out.old.items out.new.items }
        ensures room { room_in object.now self.new + 1 ≡ room_in object.now self.old }
        ensures spare { out.old.spare ≤ out.new.spare + 9 }
    {
        put_wish(object, &call, out);
        let orders = self.call(object, call);
        let _most = orders.len();
        put_orders(&orders, out);
    }

    /// Makes a callback of an object unless that is muted, and puts what follows from it. The answer is how many were
    /// made.
    pub(crate) fn call_unmuted<M: Tagged>(
        &mut self,
        object: &ObjectId,
        call: Callback,
        out: &mut Outbox<ToService<M>>,
    ) -> u64
        requires here { is_some (listener_in object.now self.old) ≡ true }
        requires room { 0 < room_in object.now self.old }
        requires spare { 9 ≤ out.old.spare }
        requires plain { is_plain call ≡ true }
        ensures called { WereCalled object.now (call ∷ []) self.old self.new (map (put_note M.tagged) out.old.items) (map (put_note M.tagged) out.new.items) result }
        ensures appended { IsAppended out.old.items out.new.items }
        ensures here { is_some (listener_in object.now self.new) ≡ true }
        ensures room { room_in object.now self.old ≤ room_in object.now self.new + 1 }
        ensures spare { out.old.spare ≤ out.new.spare + 9 }
        ensures few { result ≤ 1 }
    {
        if self.is_muted(object) {
            return 0;
        }
        self.call_put(object, call, out);
        1
    }

    /// Makes the first of some callbacks of an object unless that is muted, and puts what follows from it. The answer
    /// is how many were made.
    fn call_next<M: Tagged>(
        &mut self,
        object: &ObjectId,
        pending: &mut Calls,
        out: &mut Outbox<ToService<M>>,
    ) -> u64
        requires { MayCall object.now pending.old self.old out.old.spare }
        ensures rest { pending.new ≡ drop 1 pending.old }
        ensures called { WereCalled object.now (take 1 pending.old) self.old self.new (map (put_note M.tagged) out.old.items) (map (put_note M.tagged) out.new.items) result }
        ensures appended { IsAppended out.old.items out.new.items }
        ensures may { MayCall object.now pending.new self.new out.new.spare }
        ensures few { result ≤ 1 }
    {
        match pending.take_first() {
            Some(call) => self.call_unmuted(object, call, out),
            None => 0,
        }
    }

    /// Makes the callbacks of a step of an object one by one, as long as that is not muted, and puts what follows from
    /// them. The answer is how many were made.
    pub(crate) fn call_all<M: Tagged>(
        &mut self,
        object: &ObjectId,
        pending: &mut Calls,
        out: &mut Outbox<ToService<M>>,
    ) -> u64
        requires { MayCall object.now pending.old self.old out.old.spare }
        ensures called { WereCalled object.now pending.old self.old self.new (map (put_note M.tagged) out.old.items) (map (put_note M.tagged) out.new.items) result }
        ensures appended { IsAppended out.old.items out.new.items }
    {
        let mut count = 0;
        for _i in 0..pending.len() {
            count += self.call_next(object, pending, out);
        }
        count
    }
}
