ghost use Rattle.std.specs.Prelude.{◌≡◌, ◌+◌, ◌<◌, ◌≤◌, OnOk, vec_len};

use mama_event::{GivenOrders, Orders, OrdersRoom};
use mama_memory::OutOfMemory;
use std::alloc::Global;

/// Blocks for the orders of callbacks that are still to be made. So many callbacks are promised one; those that give no
/// orders leave theirs.
#[derive(Drop)]
pub(crate) struct Blocks {
    alloc: Global,
    pub(crate) blocks: Vec<OrdersRoom>,
    pub(crate) promised: usize,
    ghost enough: { promised ≤ vec_len blocks },
}

impl Blocks {
    /// No blocks. It takes no memory.
    pub(crate) fn new(alloc: Global) -> Blocks
        ensures { result.promised ≡ 0 }
    {
        Blocks {
            alloc,
            blocks: Vec::new(alloc),
            promised: 0,
        }
    }

    /// Takes memory until so many blocks more can be promised.
    pub(crate) fn stock(&mut self, more: usize) -> Result<(), OutOfMemory>
        ensures promised { self.new.promised ≡ self.old.promised }
        ensures ok { OnOk result (self.new.promised + more ≤ vec_len self.new.blocks) }
    {
        let Some(wanted) = self.promised.checked_add(more) else {
            return Err(OutOfMemory);
        };
        add_blocks(self.alloc, &mut self.blocks, wanted)
    }

    /// Promises blocks that are there.
    pub(crate) fn promise(&mut self, more: usize)
        requires { self.old.promised + more ≤ vec_len self.old.blocks }
        ensures { self.new.promised ≡ self.old.promised + more }
    {
        self.promised += more;
    }

    /// Takes back what was promised and not used.
    pub(crate) fn release(&mut self, unused: usize)
        requires { unused ≤ self.old.promised }
        ensures { self.new.promised + unused ≡ self.old.promised }
    {
        self.promised -= unused;
    }

    /// A copy of the orders of a callback that was promised a block, which is used if there are some. It takes no memory.
    pub(crate) fn keep(&mut self, orders: &Orders) -> GivenOrders
        requires { 0 < self.old.promised }
        ensures orders { result ≡ orders.now }
        ensures promised { self.new.promised + 1 ≡ self.old.promised }
    {
        self.promised -= 1;
        keep_orders(&mut self.blocks, orders)
    }
}

/// Adds blocks until there are so many.
fn add_blocks(alloc: Global, blocks: &mut Vec<OrdersRoom>, wanted: usize) -> Result<(), OutOfMemory>
    ensures ok { OnOk result (wanted ≤ vec_len blocks.new) }
    ensures others { vec_len blocks.old ≤ vec_len blocks.new }
{
    for _i in blocks.len()..wanted {
        blocks.push(OrdersRoom::new(alloc)?)?;
    }
    Ok(())
}

/// A copy of these orders, in one of the blocks if there are some.
fn keep_orders(blocks: &mut Vec<OrdersRoom>, orders: &Orders) -> GivenOrders
    requires { 0 < vec_len blocks.old }
    ensures orders { result ≡ orders.now }
    ensures others { vec_len blocks.old ≤ vec_len blocks.new + 1 }
{
    if orders.is_empty() {
        return GivenOrders::none();
    }
    match blocks.pop() {
        Some(block) => GivenOrders::in_room(block, orders),
        None => unreachable!(),
    }
}
