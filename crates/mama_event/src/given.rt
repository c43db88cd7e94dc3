ghost use Rattle.std.specs.Prelude.{◌≡◌, ◌==◌, ◌<◌, ◌≤◌, [], Some, length, slice_get, IfOk};

use crate::order::{Order, Orders};
use mama_memory::{Duplicate, OutOfMemory};
use std::alloc::Global;
use std::boxed::Box;
use std::marker::Model;

/// The orders that a listener gave in one callback, in order, at most 8, as a note keeps them: in a block of their own, and
/// in none where there are none, as in most callbacks.
#[derive(Debug, Drop)]
pub struct GivenOrders {
    block: Option<Box<Orders>>,
}

impl Model for GivenOrders {
    ghost use Rattle.std.specs.Prelude.{List};
    ghost use Rattle.mama_event.specs.declared.order.Order.{Order};

    ghost Value = { List Order };

    ghost use Rattle.mama_event.specs.Given.{orders_in};

    ghost view = { λ g. orders_in g.block };
}

impl PartialEq for GivenOrders {
    ghost use Rattle.std.specs.Prelude.{◌≡◌};
    ghost use Rattle.std.specs.Cmp.{partial_equiv_from_equiv};
    ghost use Rattle.mama_event.specs.Equality.{same_orders};
    ghost use Rattle.mama_event.specs.EqualityLaws.{same_orders_equivalence};

    ghost eq = { same_orders };

    ghost laws = { partial_equiv_from_equiv same_orders_equivalence };

    fn eq(&self, other: &GivenOrders) -> bool
        ensures { result ≡ same_orders self.now other.now }
    {
        self.as_slice() == other.as_slice()
    }
}

impl Eq for GivenOrders {
    ghost use Rattle.mama_event.specs.EqualityLaws.{same_orders_equivalence};

    ghost laws = { same_orders_equivalence };
}

impl GivenOrders {
    /// No orders. It takes no memory.
    pub fn none() -> GivenOrders
        ensures { result ≡ [] }
    {
        GivenOrders { block: None }
    }

    /// A copy of these orders. It takes memory only where there are some.
    pub fn new(alloc: Global, orders: &Orders) -> Result<GivenOrders, OutOfMemory>
        ensures { IfOk result (λ given. given ≡ orders.now) }
    {
        if orders.is_empty() {
            return Ok(GivenOrders::none());
        }
        Ok(GivenOrders::in_room(OrdersRoom::new(alloc)?, orders))
    }

    /// A copy of these orders, in room that was taken before. It takes no memory.
    pub fn in_room(room: OrdersRoom, orders: &Orders) -> GivenOrders
        ensures { result ≡ orders.now }
    {
        let OrdersRoom { mut block } = room;
        let _unused = Box::replace(&mut block, orders.copied());
        GivenOrders { block: Some(block) }
    }

    /// How many orders there are: at most 8.
    pub fn len(&self) -> usize
        ensures len { result ≡ length self.now }
        ensures most { result ≤ 8 }
    {
        match &self.block {
            Some(block) => block.len(),
            None => 0,
        }
    }

    /// Whether there is none.
    pub fn is_empty(&self) -> bool
        ensures { result ≡ (length self.now == 0) }
    {
        self.len() == 0
    }

    /// The order at a place, counted from 0.
    pub fn at(&self, i: usize) -> &Order
        requires { i < length self.now }
        ensures { slice_get self.now i ≡ Some result.now }
    {
        &self.as_slice()[i]
    }

    /// The orders in the order in which they were given.
    pub fn as_slice(&self) -> &[Order]
        ensures { result.now ≡ self.now }
    {
        match &self.block {
            Some(block) => block.as_slice(),
            None => &[],
        }
    }
}

impl Duplicate for GivenOrders {
    fn try_clone(&self) -> Result<GivenOrders, OutOfMemory> {
        match &self.block {
            Some(block) => GivenOrders::new(*Box::allocator(block), block),
            None => Ok(GivenOrders::none()),
        }
    }
}

/// Room for the orders of one callback, so that they can be kept where no memory may be wanted.
#[derive(Debug, Drop)]
pub struct OrdersRoom {
    block: Box<Orders>,
}

impl OrdersRoom {
    pub fn new(alloc: Global) -> Result<OrdersRoom, OutOfMemory> {
        Ok(OrdersRoom {
            block: Box::new(alloc, Orders::new())?,
        })
    }
}
