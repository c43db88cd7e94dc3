ghost use Rattle.std.specs.Prelude.{◌≡◌};
ghost use Rattle.mama_plans.specs.Put.{note_of};
ghost use Rattle.mama_rules_queue.specs.Queue.{order_put};

use mama_event::{ObjectId, Order, ToService};

/// What an order puts.
pub fn put_of(order: Order) -> ToService<ObjectId>
    ensures { note_of result ≡ order_put order }
{
    ToService::of_order(&order)
}
