ghost use Rattle.std.specs.Prelude.{◌≡◌, [], None, IfOk};
ghost use Rattle.mama_event.specs.declared.callback.Callback.{Callback};
ghost use Rattle.mama_event.specs.Listener.{Heard, GivenNext};
ghost use Rattle.mama_tests_queues.specs.Orderer.{given_by, orderer_data};

use mama_event::{Listener, MarketMsg, ObjectId, Order, Orders, Quality, Tagged};
use mama_msg::Msg;

/// A listener that gives one order so many times, in its callback of one number. It tells no plan, and not what it
/// heard; the orders that it gave it tells as long as it keeps them.
#[derive(Debug, Drop)]
pub(crate) struct Orderer {
    pub(crate) tag: ObjectId,
    pub(crate) count: u64,
    pub(crate) order: Order,
    pub(crate) call: u64,
    pub(crate) times: u32,
    pub(crate) given: Option<Vec<Orders>>,
}

/// Adds the orders of a callback to those that were kept, or gives them all up for want of memory.
fn keep(given: &mut Option<Vec<Orders>>, orders: &Orders)
    ensures { GivenNext orders.now (given_by given.old) (given_by given.new) }
{
    let kept = match &mut *given {
        Some(all) => all.push(orders.copied()).is_ok(),
        None => false,
    };
    if !kept {
        *given = None;
    }
}

impl Orderer {
    // Counts a callback, and gives its orders.
    fn answer(&mut self, orders: &mut Orders)
        requires { orders.old ≡ [] }
        ensures { (call : Callback) → Heard call (orderer_data self.old) (orderer_data self.new) orders.new }
    {
        if self.count < u64::MAX {
            self.count += 1;
        }
        if self.count == self.call {
            for _ in 0..self.times {
                let _more = orders.push(self.order);
            }
        }
        keep(&mut self.given, orders);
    }
}

impl Tagged for Orderer {
    ghost tagged = { λ l. l.tag };

    fn tag(&self) -> ObjectId {
        self.tag
    }
}

impl Listener for Orderer {
    ghost calls = { λ l. l.count };

    ghost heard = { λ l. None };

    ghost given = { λ l. given_by l.given };

    ghost plan = { λ l. None };

    fn count(&self) -> u64 {
        self.count
    }

    fn on_create(&mut self, orders: &mut Orders) {
        self.answer(orders);
    }

    fn on_msg(&mut self, msg: &MarketMsg, quality: Quality, orders: &mut Orders) {
        self.answer(orders);
    }

    fn on_quality(&mut self, quality: Quality, number: u32, orders: &mut Orders) {
        self.answer(orders);
    }

    fn on_gap(&mut self, first: u32, to: u32, orders: &mut Orders) {
        self.answer(orders);
    }

    fn on_recap_request(&mut self, sender: u32, orders: &mut Orders) {
        self.answer(orders);
    }

    fn on_late(&mut self, sender: u32, seq: u32, orders: &mut Orders) {
        self.answer(orders);
    }

    fn on_error(&mut self, code: u8, orders: &mut Orders) {
        self.answer(orders);
    }

    fn on_destroy(&mut self, orders: &mut Orders) {
        self.answer(orders);
    }

    fn on_tick(&mut self, moment: u64, orders: &mut Orders) {
        self.answer(orders);
    }

    fn on_reply(&mut self, body: &Msg, orders: &mut Orders) {
        self.answer(orders);
    }
}
