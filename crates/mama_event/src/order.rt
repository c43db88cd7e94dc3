ghost use Rattle.std.specs.Prelude.{◌≡◌, ◌↔◌, ◌<◌, ◌≤◌, ◌==◌, [], ◌∷◌, ◌++◌, length, IsOk, OnOk, OnErr, IfErr, Some, slice_get};

use crate::fids::Fids;
use crate::ids::{InboxId, SubId, TimerId};
use mama_memory::{Duplicate, OutOfMemory};
use std::marker::Model;

/// The most orders that one callback can give.
pub const MOST_ORDERS: usize = 8;

/// What a listener, or a line of a client, can order.
#[derive(Clone, Copy, Debug)]
pub enum Order {
    /// End a subscription.
    Stop(SubId),
    /// End a timer.
    Disarm(TimerId),
    /// Close an inbox.
    Close(InboxId),
    /// Ask the first publisher of a topic for fields, to be sent to an inbox.
    Ask {
        inbox: InboxId,
        topic: u32,
        fids: Fids,
    },
}

impl PartialEq for Order {
    ghost use Rattle.std.specs.Prelude.{◌≡◌};
    ghost use Rattle.std.specs.Cmp.{partial_equiv_from_equiv};
    ghost use Rattle.mama_event.specs.Equality.{same_order};
    ghost use Rattle.mama_event.specs.EqualityLaws.{same_order_equivalence};

    ghost eq = { same_order };

    ghost laws = { partial_equiv_from_equiv same_order_equivalence };

    fn eq(&self, other: &Order) -> bool
        ensures { result ≡ same_order self.now other.now }
    {
        match (self, other) {
            (Order::Stop(a), Order::Stop(b)) => a == b,
            (Order::Disarm(a), Order::Disarm(b)) => a == b,
            (Order::Close(a), Order::Close(b)) => a == b,
            (
                Order::Ask { inbox, topic, fids },
                Order::Ask {
                    inbox: other_inbox,
                    topic: other_topic,
                    fids: other_fids,
                },
            ) => inbox == other_inbox && topic == other_topic && fids == other_fids,
            _ => false,
        }
    }
}

impl Eq for Order {
    ghost use Rattle.mama_event.specs.EqualityLaws.{same_order_equivalence};

    ghost laws = { same_order_equivalence };
}

/// The orders of one callback, in the order in which they are given: at most 8. They lie in the value itself, so that a listener
/// wants no memory to give them; a note keeps them as [`GivenOrders`](crate::GivenOrders).
#[derive(Debug, Drop)]
pub struct Orders {
    count: u8,
    orders: [Order; MOST_ORDERS],
}

impl Model for Orders {
    ghost use Rattle.std.specs.Prelude.{List};
    ghost use Rattle.mama_event.specs.declared.order.Order.{Order};

    ghost Value = { List Order };

    ghost use Rattle.std.specs.Prelude.{◌≡◌, ◌≤◌, length, take};

    ghost view = { λ o. take o.count o.orders };

    ghost invariant = { λ o. (o.count ≤ 8) × (length o.orders ≡ 8) };
}

impl PartialEq for Orders {
    ghost use Rattle.std.specs.Prelude.{◌≡◌};
    ghost use Rattle.std.specs.Cmp.{partial_equiv_from_equiv};
    ghost use Rattle.mama_event.specs.Equality.{same_orders};
    ghost use Rattle.mama_event.specs.EqualityLaws.{same_orders_equivalence};

    ghost eq = { same_orders };

    ghost laws = { partial_equiv_from_equiv same_orders_equivalence };

    fn eq(&self, other: &Orders) -> bool
        ensures { result ≡ same_orders self.now other.now }
    {
        self.as_slice() == other.as_slice()
    }
}

impl Eq for Orders {
    ghost use Rattle.mama_event.specs.EqualityLaws.{same_orders_equivalence};

    ghost laws = { same_orders_equivalence };
}

impl Orders {
    /// No orders. It takes no memory, nor does any call of this type.
    pub fn new() -> Orders
        ensures { result ≡ [] }
    {
        let unused = Order::Stop(SubId {
            client: 0,
            number: 0,
        });
        Orders {
            count: 0,
            orders: [unused; MOST_ORDERS],
        }
    }

    /// Gives one more order, as the last. Where 8 are there, it is given back and nothing has changed.
    pub fn push(&mut self, order: Order) -> Result<(), Order>
        ensures room { IsOk result ↔ (length self.old < 8) }
        ensures ok { OnOk result (self.new ≡ self.old ++ order ∷ []) }
        ensures full { OnErr result (self.new ≡ self.old) }
        ensures back { IfErr result (λ given. given ≡ order) }
    {
        if self.len() >= MOST_ORDERS {
            return Err(order);
        }
        self.orders[self.count as usize] = order;
        self.count += 1;
        Ok(())
    }

    /// How many orders there are: at most 8.
    pub fn len(&self) -> usize
        ensures len { result ≡ length self.now }
        ensures most { result ≤ 8 }
    {
        self.count as usize
    }

    /// Whether there is none.
    pub fn is_empty(&self) -> bool
        ensures { result ≡ (length self.now == 0) }
    {
        self.count == 0
    }

    /// The order at a place, counted from 0.
    pub fn at(&self, i: usize) -> &Order
        requires { i < length self.now }
        ensures { slice_get self.now i ≡ Some result.now }
    {
        let orders = &self.orders;
        &orders[i]
    }

    /// The orders in the order in which they were given.
    pub fn as_slice(&self) -> &[Order]
        ensures { result.now ≡ self.now }
    {
        &self.orders[..self.count as usize]
    }

    /// The same orders once more.
    pub fn copied(&self) -> Orders
        ensures { result ≡ self.now }
    {
        let mut orders = Orders::new();
        for i in 0..self.count as usize {
            orders.orders[i] = self.orders[i];
        }
        orders.count = self.count;
        orders
    }
}

impl Duplicate for Orders {
    fn try_clone(&self) -> Result<Orders, OutOfMemory>
        ensures equal { result ≡ Ok self.now }
    {
        Ok(self.copied())
    }
}

/// A planned order: given in the object's callback of this number, which counts from 1 with the creation.
#[derive(Clone, Copy, Debug)]
pub struct PlanRow {
    pub call: u32,
    pub order: Order,
}

impl PartialEq for PlanRow {
    ghost use Rattle.std.specs.Prelude.{◌≡◌};
    ghost use Rattle.std.specs.Cmp.{partial_equiv_from_equiv};
    ghost use Rattle.mama_event.specs.Equality.{same_plan_row};
    ghost use Rattle.mama_event.specs.EqualityLaws.{same_plan_row_equivalence};

    ghost eq = { same_plan_row };

    ghost laws = { partial_equiv_from_equiv same_plan_row_equivalence };

    fn eq(&self, other: &PlanRow) -> bool
        ensures { result ≡ same_plan_row self.now other.now }
    {
        self.call == other.call && self.order == other.order
    }
}

impl Eq for PlanRow {
    ghost use Rattle.mama_event.specs.EqualityLaws.{same_plan_row_equivalence};

    ghost laws = { same_plan_row_equivalence };
}
