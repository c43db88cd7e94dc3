ghost use Rattle.std.specs.Prelude.{◌≡◌, [], Some, IfOk};
ghost use Rattle.mama_event.specs.Listener.{told};
ghost use Rattle.mama_listener.specs.Plan.{HasFewRows};
ghost use Rattle.mama_carry.specs.Fresh.{told_calls, IsFresh};

use crate::maker::Maker;
use mama_event::{Listener, ObjectId, OutOfMemory, PlanRow, Tagged};
use std::alloc::Global;

/// A listener on its way to its queue, beside its plan.
#[derive(Drop)]
pub struct Carried<L: Listener> {
    pub listener: L,
    pub plan: Vec<PlanRow>,
    // The listener tells this plan.
    pub ghost tells: { L.plan listener ≡ Some plan.items },
    // Where it counts no callbacks, it tells none.
    pub ghost silent: { L.calls listener ≡ 0 → told_calls (L.heard listener) ≡ [] },
}

impl<L: Listener> Tagged for Carried<L> {
    ghost tagged = { λ c. L.tagged c.listener };

    fn tag(&self) -> ObjectId {
        self.listener.tag()
    }
}

/// The listener that a maker makes for an object with this plan, beside the plan. The error is want of memory.
pub fn carry<L: Listener, M: Maker<L>>(
    alloc: Global,
    maker: &mut M,
    object: ObjectId,
    plan: &[PlanRow],
) -> Result<Carried<L>, OutOfMemory>
    requires { HasFewRows plan.now }
    ensures fresh { IfOk result (λ made. IsFresh object plan.now (told L.tagged L.calls L.heard L.given L.plan made.listener)) }
    ensures plan { IfOk result (λ made. made.plan.items ≡ plan.now) }
{
    let rows = Vec::from_slice(alloc, plan)?;
    let listener = maker.make(alloc, object, plan)?;
    Ok(Carried {
        listener,
        plan: rows,
    })
}
