ghost use Rattle.std.specs.Prelude.{◌≡◌, ℕ, ◌==◌, ◌≤◌, Bool, true, false, List, [], ◌∷◌, ◌++◌, map, None, OnOk, OnErr, IfOk, IfErr, IfSome, if◌then◌else◌};
ghost use Rattle.mama_event.specs.declared.ids.ObjectId.{ObjectId};
ghost use Rattle.mama_event.specs.declared.order.Order.{Order};
ghost use Rattle.mama_event.specs.declared.to_bridge.BridgeNote.TheVariants as bridge_note;
ghost use Rattle.mama_event.specs.declared.to_timers.TimersNote.TheVariants as timers_note;
ghost use Rattle.mama_event.specs.declared.to_queue.ToQueue.TheVariants as event;
ghost use Rattle.mama_event.specs.declared.to_queue.QueueNote.TheVariants as note;
ghost use Rattle.mama_event.specs.ToQueue.{note_of};
ghost use Rattle.mama_event.specs.Listener.{told};
ghost use Rattle.mama_dispatch.specs.State.{object_state};
ghost use Rattle.mama_rules_queue.specs.Queue.{deeds, is_live, is_muted, is_fin, messages_of, to_bridge, to_timers, queue_puts_at};
ghost use Rattle.mama_dispatch.specs.Journals.{is_live_here, may_come, notes_of, context_after, image_in, images_left};
ghost use Rattle.mama_dispatch.specs.Seats.{Fits};
ghost use Rattle.mama_dispatch.specs.Turns.{put_note, IsAppended};
ghost use Rattle.mama_journal.specs.Journal.{count_of};
ghost use Rattle.mama_event.specs.Listener.{ListenerData};
ghost use Rattle.mama_dispatch.specs.declared.turn.Turn.TheVariants as turn;
ghost use Rattle.mama_dispatch.specs.Served.{calls_at};
ghost use Rattle.mama_dispatch.specs.Hearing.{brought, ComesAs, ComesWith, HeardAt, PlannedAt, ArePlanned};
ghost use Rattle.mama_dispatch.specs.Answering.{AnswersTo};
ghost use Rattle.std.specs.List.{AllByRecursion};
ghost use Rattle.mama_msg.specs.Field.{FieldData};
ghost use Rattle.mama_event.specs.declared.ids.ObjectId.TheVariants.{Sub};
ghost use Rattle.mama_event.specs.Genuine.{IsGenuine};
ghost use Rattle.mama_dispatch.specs.Images.{lent, IsRecord};
ghost use Rattle.mama_dispatch.specs.Notes.{lists_of, calls_made};
ghost use Rattle.mama_dispatch.specs.Callbacks.{calls_to};

use crate::callbacks::Callbacks;
use crate::notes::{ServingNotes, add_image, calls_of_rows, prepare};
use crate::row::ImageRow;
use crate::seats::Seats;
use crate::state::ObjectState;
use crate::turn::Turn;
use mama_event::{
    CallNote, ImageHead, Listener, ObjectId, QueueNote, SubId, Tagged, ToBridge, ToQueue,
    ToService, ToTimers,
};
use mama_memory::{Duplicate, OutOfMemory, Outbox};
use mama_msg::Msg;
use std::alloc::Global;
use std::marker::Model;

/// A queue with its dispatcher: what it took, and its objects. Each turn serves one event.
#[derive(Drop)]
pub struct Serving<L: Listener> {
    alloc: Global,
    queue: u32,
    seats: Seats<L>,
    journal: Vec<(u32, QueueNote)>,
    fins: usize,
    // Nothing, with room for a list of notes of each object.
    room: Vec<(ObjectId, Vec<CallNote>)>,
    // The images that were left, in the order of the Gones.
    images: Vec<(SubId, ImageHead, Msg)>,
}

impl<L: Listener> Model for Serving<L> {
    ghost use Rattle.mama_dispatch.specs.Served.{Served};

    ghost Value = { Served };

    ghost use Rattle.mama_dispatch.specs.Served.{told_seats};
    ghost use Rattle.mama_dispatch.specs.Noted.{IsServing};

    ghost view = { λ s. record { queue = s.queue; journal = s.journal.items; seats = told_seats s.seats } };

    ghost invariant = { λ s. IsServing s.journal.items s.fins s.seats s.room s.images.items };
}

impl<L: Listener> Serving<L> {
    /// A queue of this number, which has taken nothing yet. It takes no memory.
    pub fn new(alloc: Global, queue: u32) -> Serving<L>
        ensures { result ≡ record { queue = queue; journal = []; seats = [] } }
    {
        Serving {
            alloc,
            queue,
            seats: Seats::new(alloc),
            journal: Vec::new(alloc),
            fins: 0,
            room: Vec::new(alloc),
            images: Vec::new(alloc),
        }
    }

    /// The queue's number.
    pub fn queue(&self) -> u32
        ensures { result ≡ self.now.queue }
    {
        self.queue
    }

    /// What it took so far, each event with its port.
    pub fn taken(&self) -> &[(u32, QueueNote)]
        ensures { result.now ≡ self.now.journal }
    {
        self.journal.as_slice()
    }

    /// Whether an event may come: a Create is the first of its object, and else the object is live here.
    pub fn may_take(&self, event: &ToQueue<L>) -> bool
        ensures { result ≡ may_come self.now.journal (note_of L.tagged event.now) }
    {
        self.seats.apart();
        match event {
            ToQueue::Create {
                slot: _,
                object,
                make: _,
                listener: _,
            } => !self.seats.has(object),
            ToQueue::Deliver {
                slot: _,
                sub,
                msg: _,
            } => self.seats.is_here(&ObjectId::Sub(*sub)),
            ToQueue::Reply {
                slot: _,
                inbox,
                body: _,
            } => self.seats.is_here(&ObjectId::Inbox(*inbox)),
            ToQueue::Tick {
                slot: _,
                timer,
                moment: _,
            } => self.seats.is_here(&ObjectId::Timer(*timer)),
            ToQueue::Gone { slot: _, object } => self.seats.is_here(object),
            ToQueue::Fin => true,
        }
    }

    /// Takes the next event of a port: makes its callbacks one by one, and puts what follows from them at the end of
    /// `out`. The second Fin says Bye to the bridge and to the timer service.
    ///
    /// Bytes that spell no message or no reply change nothing of what their object has: its listener is told the code of the
    /// fault, unless it is muted.
    ///
    /// The answer is how many callbacks were made of the event's object, or that it was muted before. A Gone hands the
    /// object's listener back, which has heard all callbacks of its object. A Fin is answered with Running, and the
    /// second with Finished.
    ///
    /// Of each object by itself: the callbacks that were made, and the orders that were noted with them, are those that
    /// its listener got and gave since it came, as far as it tells them; and where it tells a plan, the orders that were
    /// noted with its k-th callback are those that the plan has for k more than the count with which it came.
    ///
    /// All memory is taken before the first callback. Where none is found the event is given back, no callback was
    /// made, and all is as before. While a subscription has no image, its next message may make 4 callbacks for itself and
    /// for each cached message, and a callback may put 9 events: where more messages are cached than there can be room
    /// for, it is given back each time.
    pub fn turn<M: Tagged>(
        &mut self,
        port: u32,
        event: ToQueue<L>,
        out: &mut Outbox<ToService<M>>,
    ) -> Result<Turn<L>, ToQueue<L>>
        requires { may_come self.old.journal (note_of L.tagged event) ≡ true }
        ensures journal { OnOk result (self.new.journal ≡ self.old.journal ++ (port, note_of L.tagged event) ∷ []) }
        ensures queue { self.new.queue ≡ self.old.queue }
        ensures puts { OnOk result ((orders : ObjectId → ℕ → List Order) → Fits orders self.new.seats → map (put_note M.tagged) out.new.items ≡ map (put_note M.tagged) out.old.items ++ queue_puts_at orders self.old.journal (port, note_of L.tagged event)) }
        ensures fits { OnOk result ((orders : ObjectId → ℕ → List Order) → Fits orders self.new.seats → Fits orders self.old.seats) }
        ensures answer { IfOk result (λ answer. (orders : ObjectId → ℕ → List Order) → Fits orders self.new.seats → AnswersTo (told L.tagged L.calls L.heard L.given L.plan) orders self.old.seats self.old.journal (deeds orders self.old.journal) (note_of L.tagged event) answer) }
        ensures calls { OnOk result ((orders : ObjectId → ℕ → List Order) → Fits orders self.new.seats → (o : ObjectId) → calls_at o self.new.seats ≡ notes_of o (deeds orders self.new.journal)) }
        ensures heard { OnOk result ((object : ObjectId) (came : ListenerData) → ComesAs object came (brought (told L.tagged L.calls L.heard L.given L.plan) event) → HeardAt object came self.old.seats → HeardAt object came self.new.seats) }
        ensures planned { OnOk result ((object : ObjectId) (f : ℕ → List Order) (count : ℕ) → ComesWith object f count (brought (told L.tagged L.calls L.heard L.given L.plan) event) → PlannedAt object f count self.old.seats → PlannedAt object f count self.new.seats) }
        ensures err { OnErr result (self.new ≡ self.old) }
        ensures appended { OnOk result (IsAppended out.old.items out.new.items) }
        ensures puts_err { OnErr result (out.new.items ≡ out.old.items) }
        ensures back { IfErr result (λ given. given ≡ event) }
    {
        let Ok((note, code)) = event.read() else {
            return Err(event);
        };
        match event {
            ToQueue::Fin => self.finish(port, out),
            event => {
                if self.journal.reserve(1).is_err() {
                    return Err(event);
                }
                let Ok(left) = prepare(&self.seats, &note, &mut self.room, &mut self.images) else {
                    return Err(event);
                };
                self.seats.apart();
                match self.seats.serve(self.alloc, event, &note, code, out) {
                    Ok(turn) => {
                        self.seats.apart();
                        self.journal.push_reserved((port, note));
                        add_image(&mut self.images, left);
                        Ok(turn)
                    }
                    Err(event) => Err(event),
                }
            }
        }
    }

    /// Takes a Fin.
    #[tactic(auto, using(crate::proofs::AppendLemmas::appended_from))]
    fn finish<M: Tagged>(
        &mut self,
        port: u32,
        out: &mut Outbox<ToService<M>>,
    ) -> Result<Turn<L>, ToQueue<L>>
        ensures journal { OnOk result (self.new.journal ≡ self.old.journal ++ (port, note.Fin) ∷ []) }
        ensures queue { self.new.queue ≡ self.old.queue }
        ensures seats { self.new.seats ≡ self.old.seats }
        ensures answer { IfOk result (λ answer. answer ≡ (if count_of is_fin self.old.journal == 1 then turn.Finished else turn.Running)) }
        ensures calls { OnOk result ((orders : ObjectId → ℕ → List Order) → Fits orders self.new.seats → (o : ObjectId) → calls_at o self.new.seats ≡ notes_of o (deeds orders self.new.journal)) }
        ensures puts { OnOk result ((orders : ObjectId → ℕ → List Order) → map (put_note M.tagged) out.new.items ≡ map (put_note M.tagged) out.old.items ++ queue_puts_at orders self.old.journal (port, note.Fin)) }
        ensures err { OnErr result (self.new ≡ self.old) }
        ensures appended { OnOk result (IsAppended out.old.items out.new.items) }
        ensures puts_err { OnErr result (out.new.items ≡ out.old.items) }
        ensures back { IfErr result (λ given. given ≡ event.Fin) }
    {
        if self.journal.reserve(1).is_err() || out.reserve(2).is_err() {
            return Err(ToQueue::Fin);
        }
        let is_second = self.fins == 1;
        self.journal.push_reserved((port, QueueNote::Fin));
        self.fins += 1;
        put_byes(is_second, out);
        Ok(ended(is_second))
    }

    /// A fact about any queue: where each object's listener came with no callbacks and told a plan, the orders that were
    /// noted are those of the plans, as clauses that speak of orders ask.
    pub fn planned_orders_fit(&self)
        ensures { (orders : ObjectId → ℕ → List Order) → ArePlanned orders self.now.seats → Fits orders self.now.seats }
    {
        self.seats.few();
    }

    /// A fact about any queue: the orders that were noted with its callbacks are those of some function, as clauses that
    /// speak of orders ask, also where no listener tells its plan.
    pub fn orders_were_given(&self)
        ensures { (orders : ObjectId → ℕ → List Order) × Fits orders self.now.seats }
    {
        self.seats.apart();
    }

    /// A fact about any queue: an object is live by its callbacks exactly where it is live by what was taken.
    pub fn objects_live_by_callbacks(&self)
        ensures { (orders : ObjectId → ℕ → List Order) (object : ObjectId) → Fits orders self.now.seats → is_live (deeds orders self.now.journal) object ≡ is_live_here object self.now.journal }
    {
        self.seats.apart();
    }

    /// The callbacks that were made of an object, with the orders that its listener gave in them; none for an object
    /// that never came.
    pub fn calls_of(&self, object: &ObjectId) -> Result<Vec<CallNote>, OutOfMemory>
        ensures { IfOk result (λ calls. (orders : ObjectId → ℕ → List Order) → Fits orders self.now.seats → calls.items ≡ notes_of object.now (deeds orders self.now.journal)) }
    {
        copies_of(self.alloc, self.seats.calls(object))
    }

    /// The callbacks that were made of an object so far, with the orders that its listener gave in them, lent; none for an
    /// object that never came. It takes no memory.
    pub fn notes(&self, object: ObjectId) -> &[CallNote]
        ensures { (orders : ObjectId → ℕ → List Order) → Fits orders self.now.seats → result.now ≡ notes_of object (deeds orders self.now.journal) }
    {
        self.seats.calls(&object)
    }

    /// Whether an object is there: absent before its Create and after its Gone, and muted where it is live and an order ended
    /// it. It takes no memory.
    pub fn state(&self, object: ObjectId) -> ObjectState
        ensures { (orders : ObjectId → ℕ → List Order) → Fits orders self.now.seats → result ≡ object_state (is_live_here object self.now.journal) (is_muted object (deeds orders self.now.journal)) }
    {
        ObjectState::by(self.seats.is_here(&object), self.seats.is_muted(&object))
    }

    /// The image of a subscription, if it has one.
    pub fn image_of(&self, sub: SubId) -> Result<Option<(ImageHead, Msg)>, OutOfMemory>
        ensures { IfOk result (λ found. (orders : ObjectId → ℕ → List Order) → Fits orders self.now.seats → found ≡ image_in (context_after orders self.now.journal sub)) }
    {
        self.seats.image(&ObjectId::Sub(sub))
    }

    /// The image of a live subscription, lent. None where the subscription is not live here or has no image. It takes
    /// no memory.
    ///
    /// An image that is ok is its sender's record at its number, if all messages that the subscription handled are
    /// genuine.
    pub fn row(&self, sub: SubId) -> Option<ImageRow<'_>>
        ensures row { (orders : ObjectId → ℕ → List Order) → Fits orders self.now.seats → lent result ≡ (if is_live_here (Sub sub) self.now.journal then image_in (context_after orders self.now.journal sub) else None) }
        ensures record { (orders : ObjectId → ℕ → List Order) (bases : ℕ → List FieldData) (updates : ℕ → List (List FieldData)) → Fits orders self.now.seats → AllByRecursion (IsGenuine bases updates) (messages_of sub (deeds orders self.now.journal)) → IfSome (lent result) (λ image. IsRecord bases updates image) }
    {
        self.seats.row(&ObjectId::Sub(sub))
    }

    /// What it took, each event with its port.
    pub fn into_journal(self) -> Vec<(u32, QueueNote)>
        ensures { result.items ≡ self.journal }
    {
        let Serving {
            alloc: _,
            queue: _,
            seats: _,
            journal,
            fins: _,
            room: _,
            images: _,
        } = self;
        journal
    }

    /// What it took, each event with its port, and the callbacks of its objects, to be moved out object by object. It
    /// takes no memory: there is room since the turns of the Creates.
    pub fn into_callbacks(self) -> (Vec<(u32, QueueNote)>, Callbacks)
        ensures taken { result.0.items ≡ self.journal }
        ensures calls { (orders : ObjectId → ℕ → List Order) → Fits orders self.seats → (o : ObjectId) → calls_to o result.1 ≡ notes_of o (deeds orders self.journal) }
    {
        let Serving {
            alloc,
            queue: _,
            seats,
            journal,
            fins: _,
            room,
            images: _,
        } = self;
        (journal, Callbacks::of(alloc, seats, room))
    }

    /// What it took, each event with its port; the callbacks of each object, in the order of the Creates; and the image
    /// of each subscription that had one when its Gone was taken, in the order of the Gones. It takes no memory: there
    /// is room since the turns of the Creates, and the images were copied in the turns of the Gones.
    pub fn into_notes(self) -> ServingNotes
        ensures taken { result.taken.items ≡ self.journal }
        ensures calls { (orders : ObjectId → ℕ → List Order) → Fits orders self.seats → lists_of result.calls.items ≡ calls_made orders self.journal }
        ensures images { (orders : ObjectId → ℕ → List Order) → Fits orders self.seats → result.images.items ≡ images_left orders self.journal }
    {
        let Serving {
            alloc: _,
            queue: _,
            seats,
            journal,
            fins: _,
            room,
            images,
        } = self;
        let (_, rows) = seats.into_parts();
        ServingNotes {
            taken: journal,
            calls: calls_of_rows(rows, room),
            images,
        }
    }
}

/// Says Bye to the bridge, and then to the timer service, if it is time.
#[tactic(auto, using(crate::proofs::AppendLemmas::appended_by, crate::proofs::AppendLemmas::appended_same))]
fn put_byes<M: Tagged>(is_time: bool, out: &mut Outbox<ToService<M>>)
    requires { 2 ≤ out.old.spare }
    ensures appended { IsAppended out.old.items out.new.items }
    ensures puts { map (put_note M.tagged) out.new.items ≡ map (put_note M.tagged) out.old.items ++ (if is_time then to_bridge bridge_note.Bye ∷ to_timers timers_note.Bye ∷ [] else []) }
{
    if is_time {
        out.push_reserved(ToService::Bridge(ToBridge::Bye));
        out.push_reserved(ToService::Timers(ToTimers::Bye));
    }
}

/// What a turn with a Fin was.
fn ended<L>(is_second: bool) -> Turn<L>
    ensures { result ≡ (if is_second then turn.Finished else turn.Running) }
{
    if is_second {
        Turn::Finished
    } else {
        Turn::Running
    }
}

/// A copy of some notes.
fn copies_of(alloc: Global, notes: &[CallNote]) -> Result<Vec<CallNote>, OutOfMemory>
    ensures { IfOk result (λ copies. copies.items ≡ notes.now) }
{
    let mut copies = Vec::with_capacity(alloc, notes.len())?;
    for note in notes {
        copies.push(note.try_clone()?)?;
    }
    Ok(copies)
}
