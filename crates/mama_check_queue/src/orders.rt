ghost use Rattle.std.specs.Prelude.{◌≡◌, ℕ, nat_eq, unwrap_or, List, [], ◌∷◌, ◌++◌, ◌<◌, length, IfOk, OnOk};
ghost use Rattle.indexmap.specs.IndexMap.{get};
ghost use Rattle.mama_event.specs.Plan.{planned};
ghost use Rattle.mama_plans.specs.Orders.{orders_in};
ghost use Rattle.mama_plans.specs.Plans.{planned_object, planned_objects, IsFew, AreFew};
ghost use Rattle.mama_rules_rounds.specs.Client.{Planned};
ghost use Rattle.mama_check_queue.specs.Orders.{AreFound};

use indexmap::IndexMap;
use mama_event::{ObjectId, Order, Orders, PlanRow};
use mama_memory::OutOfMemory;
use mama_plans::{PlannedObject, Plans};
use std::alloc::Global;
use std::marker::Model;

/// The orders of all plans, each found by its object and the number of the call that it is for.
#[derive(Drop)]
pub(crate) struct OrderBook<'a> {
    plans: &'a Plans,
    by_object: IndexMap<ObjectId, IndexMap<u64, Orders>>,
}

impl<'a> Model for OrderBook<'a> {
    ghost use Rattle.std.specs.Prelude.{List};
    ghost use Rattle.mama_rules_rounds.specs.Client.{Planned};

    ghost Value = { List Planned };

    ghost use Rattle.mama_check_queue.specs.Orders.{AreFound};

    ghost view = { λ b. b.plans.now };

    ghost invariant = { λ b. AreFound b.by_object b.plans.now };
}

impl<'a> OrderBook<'a> {
    /// The orders of these plans.
    pub(crate) fn new(alloc: Global, plans: &'a Plans) -> Result<OrderBook<'a>, OutOfMemory>
        ensures { IfOk result (λ book. book ≡ plans.now) }
    {
        plans.are_few();
        let by_object = all_by_call(alloc, plans.objects())?;
        Ok(OrderBook { plans, by_object })
    }

    /// What the listener of an object orders in its call of this number.
    pub(crate) fn orders(&self, object: &ObjectId, call: u64) -> Orders
        ensures { result ≡ orders_in self.now object.now call }
    {
        match self.by_object.get(object) {
            Some(by_call) => orders_for(by_call, call),
            None => Orders::new(),
        }
    }
}

/// The orders for a call.
fn orders_for(by_call: &IndexMap<u64, Orders>, call: u64) -> Orders
    ensures { result ≡ unwrap_or (get nat_eq by_call.now call) [] }
{
    match by_call.get(&call) {
        Some(orders) => orders.copied(),
        None => Orders::new(),
    }
}

/// The orders of a call, with one more.
fn one_more(orders: Orders, order: Order) -> Orders
    requires { length orders < 8 }
    ensures { result ≡ orders ++ order ∷ [] }
{
    let mut orders = orders;
    let _full = orders.push(order);
    orders
}

/// The orders of a plan, by the numbers of the calls that they are for.
fn all_for(alloc: Global, rows: &[PlanRow]) -> Result<IndexMap<u64, Orders>, OutOfMemory>
    requires { IsFew rows.now }
    ensures { IfOk result (λ by_call. (call : ℕ) → unwrap_or (get nat_eq by_call call) [] ≡ planned rows.now call) }
{
    let mut by_call = IndexMap::new(alloc);
    for row in rows {
        let call = row.call as u64;
        let orders = one_more(orders_for(&by_call, call), row.order);
        by_call.insert(call, orders)?;
    }
    Ok(by_call)
}

/// Adds the orders of an object, if there are none of it yet.
fn add_plan(
    alloc: Global,
    by_object: &mut IndexMap<ObjectId, IndexMap<u64, Orders>>,
    planned: &PlannedObject,
) -> Result<(), OutOfMemory>
    requires { IsFew (planned_object planned.now).plan }
    ensures { OnOk result ((before : List Planned) → AreFound by_object.old before → AreFound by_object.new (before ++ planned_object planned.now ∷ [])) }
{
    if by_object.contains_key(&planned.object) {
        return Ok(());
    }
    by_object.insert(planned.object, all_for(alloc, &planned.plan)?)?;
    Ok(())
}

/// The orders of some objects, by their ids. Of objects that are one the first counts.
fn all_by_call(
    alloc: Global,
    objects: &[PlannedObject],
) -> Result<IndexMap<ObjectId, IndexMap<u64, Orders>>, OutOfMemory>
    requires { AreFew (planned_objects objects.now) }
    ensures { IfOk result (λ by_object. AreFound by_object (planned_objects objects.now)) }
{
    let mut by_object = IndexMap::new(alloc);
    for planned in objects {
        add_plan(alloc, &mut by_object, planned)?;
    }
    Ok(by_object)
}
