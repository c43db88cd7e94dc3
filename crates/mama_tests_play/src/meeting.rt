//! Two that meet: each waits until the other has begun.

use mama_carry::{Maker, PlanListener};
use mama_edge::{Gate, GateActor};
use mama_event::{Listener, MarketMsg, ObjectId, Orders, PlanRow, Quality, SubId, Tagged};
use mama_memory::OutOfMemory;
use mama_msg::Msg;
use std::alloc::Global;
use std::sync::Arc;
use std::sync::atomic::AtomicBool;
use std::sync::atomic::Ordering::SeqCst;
use std::thread;

// The most looks at the other. After each, other threads may run.
const MOST_LOOKS: u32 = 1_000_000;

/// One of two: whether it has begun, and whether it saw that the other has.
#[derive(Drop)]
struct Side {
    begun: AtomicBool,
    met: AtomicBool,
}

impl Side {
    fn new() -> Side {
        Side {
            begun: AtomicBool::new(false),
            met: AtomicBool::new(false),
        }
    }

    // Begins, and waits until the other has begun. Only the first call of a side does.
    fn meet(&self, other: &Side) {
        if self.begun.swap(true, SeqCst) {
            return;
        }
        for _ in 0..MOST_LOOKS {
            if other.begun.load(SeqCst) {
                self.met.store(true, SeqCst);
                return;
            }
            thread::yield_now();
        }
    }
}

/// Two that meet, as the queues of these numbers do in their first turns. On one thread neither sees the other.
#[derive(Drop)]
pub struct Meeting {
    queues: (u32, u32),
    first: Side,
    second: Side,
}

impl Meeting {
    /// Two queues that are to meet.
    pub fn of(first: u32, second: u32) -> Meeting {
        Meeting {
            queues: (first, second),
            first: Side::new(),
            second: Side::new(),
        }
    }

    /// Whether each saw the other.
    pub fn is_held(&self) -> bool {
        self.first.met.load(SeqCst) && self.second.met.load(SeqCst)
    }
}

impl Gate for Meeting {
    fn turn(&self, actor: GateActor) {
        let GateActor::Queue(number) = actor else {
            return;
        };
        if number == self.queues.0 {
            self.first.meet(&self.second);
        } else if number == self.queues.1 {
            self.second.meet(&self.first);
        }
    }
}

/// The program's own listener, which meets another in its create notice.
#[derive(Drop)]
pub struct Guest {
    inner: PlanListener,
    meeting: Arc<Meeting, Global>,
}

/// Makes guests of one meeting.
#[derive(Drop)]
pub struct Host {
    pub meeting: Arc<Meeting, Global>,
}

impl Maker<Guest> for Host {
    fn make(
        &mut self,
        alloc: Global,
        object: ObjectId,
        plan: &[PlanRow],
    ) -> Result<Guest, OutOfMemory> {
        let rows = Vec::from_slice(alloc, plan)?;
        let meeting = Arc::try_clone(&self.meeting)?;
        Ok(Guest {
            inner: PlanListener::new(alloc, object, rows),
            meeting,
        })
    }
}

impl Tagged for Guest {
    ghost tagged = { λ g. g.inner.tag };

    fn tag(&self) -> ObjectId {
        self.inner.tag()
    }
}

impl Listener for Guest {
    ghost calls = { λ g. g.inner.calls };

    ghost heard = { λ g. g.inner.heard };

    ghost given = { λ g. g.inner.given };

    ghost plan = { λ g. g.inner.plan };

    fn count(&self) -> u64 {
        self.inner.count()
    }

    // The subscriptions of one client meet, the first and the second.
    fn on_create(&mut self, orders: &mut Orders) {
        match self.inner.tag() {
            ObjectId::Sub(
                SubId {
                    client: _,
                    number: 0,
                },
            ) => self.meeting.first.meet(&self.meeting.second),
            _ => self.meeting.second.meet(&self.meeting.first),
        }
        self.inner.on_create(orders)
    }

    fn on_msg(&mut self, msg: &MarketMsg, quality: Quality, orders: &mut Orders) {
        self.inner.on_msg(msg, quality, orders)
    }

    fn on_quality(&mut self, quality: Quality, number: u32, orders: &mut Orders) {
        self.inner.on_quality(quality, number, orders)
    }

    fn on_gap(&mut self, first: u32, to: u32, orders: &mut Orders) {
        self.inner.on_gap(first, to, orders)
    }

    fn on_recap_request(&mut self, sender: u32, orders: &mut Orders) {
        self.inner.on_recap_request(sender, orders)
    }

    fn on_late(&mut self, sender: u32, seq: u32, orders: &mut Orders) {
        self.inner.on_late(sender, seq, orders)
    }

    fn on_error(&mut self, code: u8, orders: &mut Orders) {
        self.inner.on_error(code, orders)
    }

    fn on_destroy(&mut self, orders: &mut Orders) {
        self.inner.on_destroy(orders)
    }

    fn on_tick(&mut self, moment: u64, orders: &mut Orders) {
        self.inner.on_tick(moment, orders)
    }

    fn on_reply(&mut self, body: &Msg, orders: &mut Orders) {
        self.inner.on_reply(body, orders)
    }
}
