ghost use Rattle.std.specs.Prelude.{IfOk};
ghost use Rattle.mama_event.specs.Listener.{told};
ghost use Rattle.mama_listener.specs.Plan.{HasFewRows};
ghost use Rattle.mama_carry.specs.Fresh.{IsFresh};

use mama_event::{Listener, ObjectId, OutOfMemory, PlanRow};
use mama_listener::PlanListener;
use std::alloc::Global;

/// Makes the listener of each object of a script.
pub trait Maker<L: Listener> {
    /// A listener for this object with this plan, which it tells, and which has had no calls yet. A plan has at most 8
    /// rows for one call. The error is want of memory.
    fn make(&mut self, alloc: Global, object: ObjectId, plan: &[PlanRow]) -> Result<L, OutOfMemory>
        requires { HasFewRows plan.now }
        ensures { IfOk result (λ made. IsFresh object plan.now (told L.tagged L.calls L.heard L.given L.plan made)) };
}

/// Makes the program's own listeners, which give the orders of their plans and keep the callbacks that they got.
#[derive(Clone, Copy, Debug, Default)]
pub struct PlanMaker;

impl PlanMaker {
    /// The maker. It takes no memory.
    pub fn new() -> PlanMaker {
        PlanMaker
    }
}

impl Maker<PlanListener> for PlanMaker {
    fn make(
        &mut self,
        alloc: Global,
        object: ObjectId,
        plan: &[PlanRow],
    ) -> Result<PlanListener, OutOfMemory> {
        let rows = Vec::from_slice(alloc, plan)?;
        Ok(PlanListener::new(alloc, object, rows))
    }
}
