ghost use Rattle.std.specs.Prelude.{◌≡◌, ℕ, ◌<◌, ◌≤◌, ◌+◌, [], length, IsTrue};
ghost use Rattle.std.specs.List.Sorted.{IsNonDecreasingBy};
ghost use Rattle.mama_event.specs.Plan.{planned};
ghost use Rattle.mama_listener.specs.Passed.{IsPassed};
ghost use Rattle.mama_listener.specs.Plan.{call_of, HasFewRows, IsSameByCall};

use mama_event::{Orders, PlanRow};

/// Puts the rows of a plan in order of their calls, where memory is found for it: then the answer is true. Rows of one
/// call stay in their order, so that the plan has the same orders for each call, whatever the answer is.
pub fn order_rows(rows: &mut Vec<PlanRow>) -> bool
    ensures sorted { IsTrue result → IsNonDecreasingBy call_of rows.new.items }
    ensures same { IsSameByCall rows.old.items rows.new.items }
{
    rows.sort_by_key(|row| row.call).is_ok()
}

/// Whether the rows are in order of their calls.
pub(crate) fn are_in_order(rows: &[PlanRow]) -> bool
    ensures { IsTrue result → IsNonDecreasingBy call_of rows.now }
{
    rows.is_sorted_by_key(|row| row.call)
}

/// Gives the orders of the rows for a call, by a look at each row.
pub(crate) fn give_by_look(rows: &[PlanRow], call: u64, orders: &mut Orders)
    requires empty { orders.old ≡ [] }
    requires few { HasFewRows rows.now }
    ensures { orders.new ≡ planned rows.now call }
{
    for row in rows {
        if row.call as u64 == call {
            let _ = orders.push(row.order);
        }
    }
}

/// Gives the orders of the rows for a call, where the rows ascend and those before `from` are of earlier calls. The
/// answer is the place after the last row of this call.
pub(crate) fn give_from(rows: &[PlanRow], from: usize, call: u64, orders: &mut Orders) -> usize
    requires empty { orders.old ≡ [] }
    requires few { HasFewRows rows.now }
    requires ascend { IsNonDecreasingBy call_of rows.now }
    requires from { from ≤ length rows.now }
    requires passed { IsPassed rows.now from call }
    ensures given { orders.new ≡ planned rows.now call }
    ensures within { result ≤ length rows.now }
    ensures next { IsPassed rows.now result (call + 1) }
{
    let mut i = from;
    while i < rows.len() {
        let row = rows[i];
        if row.call as u64 > call {
            return i;
        }
        if row.call as u64 == call {
            let _ = orders.push(row.order);
        }
        i += 1;
    }
    i
}
