ghost use Rattle.std.specs.Prelude.{◌≡◌, [], ◌∷◌, Some, None, IfOk};
ghost use Rattle.std.specs.Option.{option_copied};
ghost use Rattle.mama_event.specs.declared.callback.Callback.{Callback};
ghost use Rattle.mama_event.specs.declared.callback.Callback.TheVariants as on;
ghost use Rattle.mama_event.specs.Listener.{risen, Heard, HeardNext, IsPlanned};
ghost use Rattle.mama_listener.specs.Plan.{HasFewRows};
ghost use Rattle.mama_listener.specs.PlanListener.{heard_by};

use crate::planned::{are_in_order, give_by_look, give_from};
use mama_event::{
    Callback, Duplicate, Listener, MarketMsg, ObjectId, Orders, PlanRow, Quality, Tagged,
};
use mama_memory::OutOfMemory;
use mama_msg::Msg;
use std::alloc::Global;
use std::marker::Model;

/// The program's own listener: it gives the orders that were planned, and keeps the callbacks that it got.
#[derive(Debug, Drop)]
pub struct PlanListener {
    tag: ObjectId,
    count: u64,
    rows: Vec<PlanRow>,
    // Whether the rows ascend by their calls. Then those before `next` are of calls that were made.
    sorted: bool,
    next: usize,
    heard: Option<Vec<Callback>>,
}

impl Model for PlanListener {
    ghost use Rattle.mama_event.specs.Listener.{ListenerData};

    ghost Value = { ListenerData };

    ghost use Rattle.std.specs.Prelude.{Some, None};
    ghost use Rattle.mama_listener.specs.PlanListener.{heard_by, IsReady};

    ghost view = { λ l. record { tag = l.tag; calls = l.count; heard = heard_by l.heard; given = None; plan = Some l.rows.items } };

    ghost invariant = { λ l. IsReady l };
}

impl PlanListener {
    /// A listener for this object with this plan, which it tells, and which has had no calls yet. It takes no memory.
    ///
    /// Where the rows are in order of their calls, as `order_rows` leaves them, a callback costs the orders of its
    /// number alone; else it costs a look at each row.
    pub fn new(alloc: Global, tag: ObjectId, plan: Vec<PlanRow>) -> PlanListener
        requires { HasFewRows plan.items }
        ensures { result ≡ record { tag = tag; calls = 0; heard = Some []; given = None; plan = Some plan.items } }
    {
        PlanListener {
            tag,
            count: 0,
            sorted: are_in_order(&plan),
            rows: plan,
            next: 0,
            heard: Some(Vec::new(alloc)),
        }
    }

    /// The callbacks so far. None from the first callback on of which no memory was found to keep it.
    pub fn heard(&self) -> Option<&[Callback]>
        ensures { option_copied result ≡ self.now.heard }
    {
        match &self.heard {
            Some(calls) => Some(calls.as_slice()),
            None => None,
        }
    }

    // Counts a callback, and gives its orders.
    fn answer(&mut self, orders: &mut Orders)
        requires { orders.old ≡ [] }
        ensures tag { self.new.tag ≡ self.old.tag }
        ensures calls { self.new.calls ≡ risen self.old.calls }
        ensures heard { self.new.heard ≡ self.old.heard }
        ensures given { self.new.given ≡ None }
        ensures plan { self.new.plan ≡ self.old.plan }
        ensures orders { IsPlanned self.old.plan self.new.calls orders.new }
    {
        if self.count == u64::MAX {
            give_by_look(&self.rows, self.count, orders);
            return;
        }
        self.count += 1;
        if self.sorted {
            self.next = give_from(&self.rows, self.next, self.count, orders);
        } else {
            give_by_look(&self.rows, self.count, orders);
        }
    }

    // Gets a callback, of which there is a copy if memory was found for it.
    fn hear(&mut self, copy: Result<Callback, OutOfMemory>, orders: &mut Orders)
        requires { orders.old ≡ [] }
        ensures { (call : Callback) → IfOk copy (λ kept. kept ≡ call) → Heard call self.old self.new orders.new }
    {
        keep(&mut self.heard, copy);
        self.answer(orders);
    }
}

/// Adds a callback to those that were kept, or gives them all up for want of memory.
fn keep(heard: &mut Option<Vec<Callback>>, copy: Result<Callback, OutOfMemory>)
    ensures { (call : Callback) → IfOk copy (λ kept. kept ≡ call) → HeardNext call (heard_by heard.old) (heard_by heard.new) }
{
    let kept = match (&mut *heard, copy) {
        (Some(calls), Ok(call)) => calls.push(call).is_ok(),
        _ => false,
    };
    if !kept {
        *heard = None;
    }
}

/// A message as a callback.
fn copy_of_msg(msg: &MarketMsg, quality: Quality) -> Result<Callback, OutOfMemory>
    ensures { IfOk result (λ call. call ≡ on.Msg msg.now quality) }
{
    let msg = msg.try_clone()?;
    Ok(Callback::Msg { msg, quality })
}

/// A reply as a callback.
fn copy_of_reply(body: &Msg) -> Result<Callback, OutOfMemory>
    ensures { IfOk result (λ call. call ≡ on.Reply body.now) }
{
    let body = body.try_clone()?;
    Ok(Callback::Reply { body })
}

impl Tagged for PlanListener {
    ghost tagged = { λ l. l.tag };

    fn tag(&self) -> ObjectId {
        self.tag
    }
}

impl Listener for PlanListener {
    ghost calls = { λ l. l.calls };

    ghost heard = { λ l. l.heard };

    ghost given = { λ l. l.given };

    ghost plan = { λ l. l.plan };

    fn count(&self) -> u64 {
        self.count
    }

    fn on_create(&mut self, orders: &mut Orders) {
        self.hear(Ok(Callback::Create), orders);
    }

    fn on_msg(&mut self, msg: &MarketMsg, quality: Quality, orders: &mut Orders) {
        self.hear(copy_of_msg(msg, quality), orders);
    }

    fn on_quality(&mut self, quality: Quality, number: u32, orders: &mut Orders) {
        self.hear(Ok(Callback::Quality { quality, number }), orders);
    }

    fn on_gap(&mut self, first: u32, to: u32, orders: &mut Orders) {
        self.hear(Ok(Callback::Gap { first, to }), orders);
    }

    fn on_recap_request(&mut self, sender: u32, orders: &mut Orders) {
        self.hear(Ok(Callback::RecapRequest { sender }), orders);
    }

    fn on_late(&mut self, sender: u32, seq: u32, orders: &mut Orders) {
        self.hear(Ok(Callback::Late { sender, seq }), orders);
    }

    fn on_error(&mut self, code: u8, orders: &mut Orders) {
        self.hear(Ok(Callback::Error { code }), orders);
    }

    fn on_destroy(&mut self, orders: &mut Orders) {
        self.hear(Ok(Callback::Destroy), orders);
    }

    fn on_tick(&mut self, moment: u64, orders: &mut Orders) {
        self.hear(Ok(Callback::Tick { moment }), orders);
    }

    fn on_reply(&mut self, body: &Msg, orders: &mut Orders) {
        self.hear(copy_of_reply(body), orders);
    }
}
