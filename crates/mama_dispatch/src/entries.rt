ghost use Rattle.std.specs.Prelude.{◌≡◌, ℕ, true, false, map, is_some, Some, None, OnOk, OnErr, IfOk, IfErr};
ghost use Rattle.mama_event.specs.declared.ids.ObjectId.TheVariants.{Sub, Timer, Inbox};
ghost use Rattle.mama_event.specs.declared.to_queue.ToQueue.TheVariants as event;
ghost use Rattle.mama_event.specs.declared.to_queue.QueueNote.TheVariants as q;
ghost use Rattle.mama_dispatch.specs.Seats.{has_seat, listener_in, is_muted_in, with_room};
ghost use Rattle.mama_event.specs.ToQueue.{note_of, note_code};
ghost use Rattle.mama_dispatch.specs.Standing.{Serves, MayServe, is_making};
ghost use Rattle.mama_dispatch.specs.Answering.{Answers};
ghost use Rattle.mama_event.specs.Listener.{told};
ghost use Rattle.mama_dispatch.specs.Hearing.{brought};
ghost use Rattle.mama_dispatch.specs.Keeping.{KeptWith};
ghost use Rattle.mama_dispatch.specs.Turns.{put_note, IsAppended};
ghost use Rattle.mama_dispatch.specs.Making.{WasTold};
ghost use Rattle.mama_dispatch.specs.Seating.{is_plain};
ghost use Rattle.mama_event.specs.declared.callback.Callback.TheVariants as on;

use crate::seats::Seats;
use crate::turn::Turn;
use mama_event::{
    Callback, InboxId, Listener, Make, MarketMsg, ObjectId, QueueNote, SubId, Tagged, TimerId,
    ToQueue, ToService,
};
use mama_memory::{Duplicate, OutOfMemory, Outbox};
use mama_msg::Msg;
use std::alloc::Global;

/// Serves a Create.
pub(crate) fn serve_create<L: Listener, M: Tagged>(
    alloc: Global,
    seats: &mut Seats<L>,
    slot: u32,
    object: ObjectId,
    make: Make,
    listener: L,
    out: &mut Outbox<ToService<M>>,
) -> Result<Turn<L>, ToQueue<L>>
    requires { has_seat object seats.old ≡ false }
    ensures ok { OnOk result (Serves (q.Create slot object make (L.tagged listener)) seats.old seats.new (map (put_note M.tagged) out.old.items) (map (put_note M.tagged) out.new.items)) }
    ensures kept { OnOk result (KeptWith (Some (object, told L.tagged L.calls L.heard L.given L.plan listener)) seats.old seats.new) }
    ensures answer { IfOk result (λ answer. Answers (told L.tagged L.calls L.heard L.given L.plan) (q.Create slot object make (L.tagged listener)) seats.old seats.new answer) }
    ensures err { OnErr result (seats.new ≡ seats.old) }
    ensures appended { OnOk result (IsAppended out.old.items out.new.items) }
    ensures puts_err { OnErr result (out.new.items ≡ out.old.items) }
    ensures back { IfErr result (λ given. given ≡ event.Create slot object make listener) }
{
    match seats.create(alloc, object, make, listener, out) {
        Ok(()) => Ok(Turn::Called { count: 1 }),
        Err(listener) => Err(ToQueue::Create {
            slot,
            object,
            make,
            listener,
        }),
    }
}

/// Serves a message of a subscription, be it muted or not.
fn serve_deliver<L: Listener, M: Tagged>(
    alloc: Global,
    seats: &mut Seats<L>,
    sub: SubId,
    msg: &MarketMsg,
    out: &mut Outbox<ToService<M>>,
) -> Result<Turn<L>, OutOfMemory>
    requires { is_some (listener_in (Sub sub) seats.old) ≡ true }
    ensures ok { OnOk result ((slot : ℕ) → Serves (q.Deliver slot sub msg.now) seats.old seats.new (map (put_note M.tagged) out.old.items) (map (put_note M.tagged) out.new.items)) }
    ensures kept { OnOk result (KeptWith None seats.old seats.new) }
    ensures answer { IfOk result (λ answer. (slot : ℕ) → Answers (told L.tagged L.calls L.heard L.given L.plan) (q.Deliver slot sub msg.now) seats.old seats.new answer) }
    ensures err { OnErr result (map (with_room 0) seats.new ≡ map (with_room 0) seats.old) }
    ensures appended { OnOk result (IsAppended out.old.items out.new.items) }
    ensures puts_err { OnErr result (out.new.items ≡ out.old.items) }
{
    let object = ObjectId::Sub(sub);
    if seats.is_muted(&object) {
        return Ok(Turn::Muted { object });
    }
    let count = seats.deliver(alloc, sub, msg, out)?;
    Ok(Turn::Called { count })
}

/// Makes one callback of an object that is not muted, or none of one that is.
fn tell_unmuted<L: Listener, M: Tagged>(
    seats: &mut Seats<L>,
    object: ObjectId,
    call: Callback,
    out: &mut Outbox<ToService<M>>,
) -> Result<Turn<L>, OutOfMemory>
    requires here { is_some (listener_in object seats.old) ≡ true }
    requires plain { is_plain call ≡ true }
    ensures ok { IfOk result (λ answer. WasTold object call seats.old seats.new (map (put_note M.tagged) out.old.items) (map (put_note M.tagged) out.new.items) answer) }
    ensures err { OnErr result (map (with_room 0) seats.new ≡ map (with_room 0) seats.old) }
    ensures appended { OnOk result (IsAppended out.old.items out.new.items) }
    ensures puts_err { OnErr result (out.new.items ≡ out.old.items) }
{
    if seats.is_muted(&object) {
        return Ok(Turn::Muted { object });
    }
    let told = seats.tell(&object, call, out);
    if told.is_ok() {
        return Ok(Turn::Called { count: 1 });
    }
    Err(OutOfMemory)
}

/// Serves a reply of an inbox, be it muted or not.
fn serve_reply<L: Listener, M: Tagged>(
    seats: &mut Seats<L>,
    inbox: InboxId,
    body: &Msg,
    out: &mut Outbox<ToService<M>>,
) -> Result<Turn<L>, OutOfMemory>
    requires { is_some (listener_in (Inbox inbox) seats.old) ≡ true }
    ensures ok { OnOk result ((slot : ℕ) → Serves (q.Reply slot inbox body.now) seats.old seats.new (map (put_note M.tagged) out.old.items) (map (put_note M.tagged) out.new.items)) }
    ensures kept { OnOk result (KeptWith None seats.old seats.new) }
    ensures answer { IfOk result (λ answer. (slot : ℕ) → Answers (told L.tagged L.calls L.heard L.given L.plan) (q.Reply slot inbox body.now) seats.old seats.new answer) }
    ensures err { OnErr result (map (with_room 0) seats.new ≡ map (with_room 0) seats.old) }
    ensures appended { OnOk result (IsAppended out.old.items out.new.items) }
    ensures puts_err { OnErr result (out.new.items ≡ out.old.items) }
{
    let body = body.try_clone()?;
    tell_unmuted(seats, ObjectId::Inbox(inbox), Callback::Reply { body }, out)
}

/// Serves a tick of a timer, be it muted or not.
fn serve_tick<L: Listener, M: Tagged>(
    seats: &mut Seats<L>,
    timer: TimerId,
    moment: u64,
    out: &mut Outbox<ToService<M>>,
) -> Result<Turn<L>, OutOfMemory>
    requires { is_some (listener_in (Timer timer) seats.old) ≡ true }
    ensures ok { OnOk result ((slot : ℕ) → Serves (q.Tick slot timer moment) seats.old seats.new (map (put_note M.tagged) out.old.items) (map (put_note M.tagged) out.new.items)) }
    ensures kept { OnOk result (KeptWith None seats.old seats.new) }
    ensures answer { IfOk result (λ answer. (slot : ℕ) → Answers (told L.tagged L.calls L.heard L.given L.plan) (q.Tick slot timer moment) seats.old seats.new answer) }
    ensures err { OnErr result (map (with_room 0) seats.new ≡ map (with_room 0) seats.old) }
    ensures appended { OnOk result (IsAppended out.old.items out.new.items) }
    ensures puts_err { OnErr result (out.new.items ≡ out.old.items) }
{
    tell_unmuted(
        seats,
        ObjectId::Timer(timer),
        Callback::Tick { moment },
        out,
    )
}

/// Serves bytes for an object that spell no message: its listener is told the code, unless it is muted.
fn serve_bad<L: Listener, M: Tagged>(
    seats: &mut Seats<L>,
    object: ObjectId,
    code: u8,
    out: &mut Outbox<ToService<M>>,
) -> Result<Turn<L>, OutOfMemory>
    requires { is_some (listener_in object seats.old) ≡ true }
    ensures ok { IfOk result (λ answer. WasTold object (on.Error code) seats.old seats.new (map (put_note M.tagged) out.old.items) (map (put_note M.tagged) out.new.items) answer) }
    ensures err { OnErr result (map (with_room 0) seats.new ≡ map (with_room 0) seats.old) }
    ensures appended { OnOk result (IsAppended out.old.items out.new.items) }
    ensures puts_err { OnErr result (out.new.items ≡ out.old.items) }
{
    tell_unmuted(seats, object, Callback::Error { code }, out)
}

/// Serves a Gone.
fn serve_gone<L: Listener, M: Tagged>(
    seats: &mut Seats<L>,
    object: ObjectId,
    out: &mut Outbox<ToService<M>>,
) -> Result<Turn<L>, OutOfMemory>
    requires { is_some (listener_in object seats.old) ≡ true }
    ensures ok { OnOk result ((slot : ℕ) → Serves (q.Gone slot object) seats.old seats.new (map (put_note M.tagged) out.old.items) (map (put_note M.tagged) out.new.items)) }
    ensures kept { OnOk result (KeptWith None seats.old seats.new) }
    ensures answer { IfOk result (λ answer. (slot : ℕ) → Answers (told L.tagged L.calls L.heard L.given L.plan) (q.Gone slot object) seats.old seats.new answer) }
    ensures err { OnErr result (map (with_room 0) seats.new ≡ map (with_room 0) seats.old) }
    ensures appended { OnOk result (IsAppended out.old.items out.new.items) }
    ensures puts_err { OnErr result (out.new.items ≡ out.old.items) }
{
    let listener = seats.end(&object, out)?;
    Ok(Turn::Ended { object, listener })
}

/// Serves what was read of an event that is no Create, by the kind of its note.
#[tactic(auto, using(crate::proofs::AppendLemmas::appended_same))]
fn serve_noted<L: Listener, M: Tagged>(
    alloc: Global,
    seats: &mut Seats<L>,
    note: &QueueNote,
    code: u8,
    out: &mut Outbox<ToService<M>>,
) -> Result<Turn<L>, OutOfMemory>
    requires may { MayServe note.now seats.old }
    requires no_create { is_making note.now ≡ false }
    requires code { code ≡ note_code note.now }
    ensures ok { OnOk result (Serves note.now seats.old seats.new (map (put_note M.tagged) out.old.items) (map (put_note M.tagged) out.new.items)) }
    ensures kept { OnOk result (KeptWith None seats.old seats.new) }
    ensures answer { IfOk result (λ answer. Answers (told L.tagged L.calls L.heard L.given L.plan) note.now seats.old seats.new answer) }
    ensures err { OnErr result (map (with_room 0) seats.new ≡ map (with_room 0) seats.old) }
    ensures appended { OnOk result (IsAppended out.old.items out.new.items) }
    ensures puts_err { OnErr result (out.new.items ≡ out.old.items) }
{
    match note {
        QueueNote::Create {
            slot: _,
            object: _,
            make: _,
            tag: _,
        } => unreachable!(),
        QueueNote::Deliver { slot: _, sub, msg } => serve_deliver(alloc, seats, *sub, msg, out),
        QueueNote::Reply {
            slot: _,
            inbox,
            body,
        } => serve_reply(seats, *inbox, body, out),
        QueueNote::Bad {
            slot: _,
            sub,
            kind: _,
            sender: _,
            seq: _,
            bytes: _,
        } => serve_bad(seats, ObjectId::Sub(*sub), code, out),
        QueueNote::BadReply {
            slot: _,
            inbox,
            bytes: _,
        } => serve_bad(seats, ObjectId::Inbox(*inbox), code, out),
        QueueNote::Tick {
            slot: _,
            timer,
            moment,
        } => serve_tick(seats, *timer, *moment, out),
        QueueNote::Gone { slot: _, object } => serve_gone(seats, *object, out),
        QueueNote::Fin => Ok(Turn::Running),
    }
}

/// Serves what was read of an event that is no Create. The code is that of the bytes, where they spell no message.
fn serve_read<L: Listener, M: Tagged>(
    alloc: Global,
    seats: &mut Seats<L>,
    note: &QueueNote,
    code: u8,
    out: &mut Outbox<ToService<M>>,
) -> Result<Turn<L>, OutOfMemory>
    requires may { MayServe note.now seats.old }
    requires no_create { is_making note.now ≡ false }
    requires code { code ≡ note_code note.now }
    ensures ok { OnOk result (Serves note.now seats.old seats.new (map (put_note M.tagged) out.old.items) (map (put_note M.tagged) out.new.items)) }
    ensures kept { OnOk result (KeptWith None seats.old seats.new) }
    ensures answer { IfOk result (λ answer. Answers (told L.tagged L.calls L.heard L.given L.plan) note.now seats.old seats.new answer) }
    ensures err { OnErr result (map (with_room 0) seats.new ≡ map (with_room 0) seats.old) }
    ensures appended { OnOk result (IsAppended out.old.items out.new.items) }
    ensures puts_err { OnErr result (out.new.items ≡ out.old.items) }
{
    seats.seek(note);
    let turn = serve_noted(alloc, seats, note, code, out);
    seats.settle(note);
    turn
}

impl<L: Listener> Seats<L> {
    /// Serves an event by what was read of it, its note and the code of its bytes: makes its callbacks one by one, and puts
    /// what follows from them. The second Fin's Byes are the caller's. Where no memory is found the event is given back, no
    /// callback was made, and nothing has changed but the room for callbacks.
    pub(crate) fn serve<M: Tagged>(
        &mut self,
        alloc: Global,
        event: ToQueue<L>,
        note: &QueueNote,
        code: u8,
        out: &mut Outbox<ToService<M>>,
    ) -> Result<Turn<L>, ToQueue<L>>
        requires may { MayServe (note_of L.tagged event) self.old }
        requires note { note.now ≡ note_of L.tagged event }
        requires code { code ≡ note_code note.now }
        ensures ok { OnOk result (Serves (note_of L.tagged event) self.old self.new (map (put_note M.tagged) out.old.items) (map (put_note M.tagged) out.new.items)) }
        ensures kept { OnOk result (KeptWith (brought (told L.tagged L.calls L.heard L.given L.plan) event) self.old self.new) }
        ensures answer { IfOk result (λ answer. Answers (told L.tagged L.calls L.heard L.given L.plan) (note_of L.tagged event) self.old self.new answer) }
        ensures err { OnErr result (map (with_room 0) self.new ≡ map (with_room 0) self.old) }
        ensures appended { OnOk result (IsAppended out.old.items out.new.items) }
        ensures puts_err { OnErr result (out.new.items ≡ out.old.items) }
        ensures back { IfErr result (λ given. given ≡ event) }
    {
        match event {
            ToQueue::Create {
                slot,
                object,
                make,
                listener,
            } => serve_create(alloc, self, slot, object, make, listener, out),
            event => match serve_read(alloc, self, note, code, out) {
                Ok(turn) => Ok(turn),
                Err(_) => Err(event),
            },
        }
    }
}
