ghost use Rattle.std.specs.Prelude.{◌≡◌, ◌↔◌, ◌+◌, true, IfOk, nat_eq, unwrap_or};
ghost use Rattle.indexmap.specs.IndexMap.{get};
ghost use Rattle.mama_listener.specs.Plan.{HasFewRows};

use indexmap::IndexMap;
use mama_event::{MOST_ORDERS, PlanRow};
use mama_memory::OutOfMemory;
use std::alloc::Global;

/// The number that is counted for a call.
fn counted(counts: &IndexMap<u32, usize>, call: u32) -> usize
    ensures { result ≡ unwrap_or (get nat_eq counts.now call) 0 }
{
    match counts.get(&call) {
        Some(count) => *count,
        None => 0,
    }
}

/// Whether at most 8 rows of a plan are for one call, so that a listener can give all its orders. The error is want of
/// memory.
pub fn has_few_rows(alloc: Global, rows: &[PlanRow]) -> Result<bool, OutOfMemory>
    ensures { IfOk result (λ few. (few ≡ true) ↔ HasFewRows rows.now) }
{
    let mut counts: IndexMap<u32, usize> = IndexMap::new(alloc);
    for row in rows {
        let count = counted(&counts, row.call);
        if count >= MOST_ORDERS {
            return Ok(false);
        }
        counts.insert(row.call, count + 1)?;
    }
    Ok(true)
}
