ghost use Rattle.std.specs.Prelude.{◌≡◌, filter_map, Some, All, IfOk};
ghost use Rattle.std.specs.BTreeMap.{IsOrdered};
ghost use Rattle.mama_timer.specs.Order.{timer_cmp};
ghost use Rattle.mama_timer.specs.Rows.{row_of};
ghost use Rattle.mama_timer.specs.Leaving.{leaving_of};

use crate::table::Row;
use mama_event::TimerId;
use mama_memory::OutOfMemory;
use std::alloc::Global;
use std::collections::BTreeMap;

/// A timer that leaves its place.
#[derive(Clone, Copy)]
pub(crate) struct Leaving {
    pub(crate) timer: TimerId,
    pub(crate) queue: u32,
    pub(crate) slot: u32,
}

/// The place that an armed timer leaves.
fn leaving_at(timer: &TimerId, row: &Row) -> Option<Leaving>
    ensures { result ≡ leaving_of (timer.now, row.now) }
{
    if row.armed {
        Some(Leaving {
            timer: *timer,
            queue: row.queue,
            slot: row.slot,
        })
    } else {
        None
    }
}

/// The places that all armed timers leave, in order of the timers' ids.
pub(crate) fn all_leaving(
    alloc: Global,
    timers: &BTreeMap<TimerId, Row>,
) -> Result<Vec<Leaving>, OutOfMemory>
    ensures left { IfOk result (λ left. left.items ≡ filter_map leaving_of timers.now.entries) }
    ensures ordered { IsOrdered timer_cmp timers.now }
    ensures found { All (λ e. row_of timers.now.entries e.0 ≡ Some e.1) timers.now.entries }
{
    Ok(
        timers
            .iter()
            .filter_map(|(timer, row)| leaving_at(timer, row))
            .collect(alloc)?,
    )
}
