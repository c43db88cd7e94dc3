ghost use Rattle.std.specs.Prelude.{◌≡◌, ℕ, ◌||◌, ◌<◌, ◌^◌, true, nat_le, filter_map, take_while, map, length, IfOk, OnOk, Some, if◌then◌else◌};
ghost use Rattle.std.specs.List.{list_any};
ghost use Rattle.std.specs.Option.{option_map};
ghost use Rattle.mama_event.specs.Object.{same_timer};
ghost use Rattle.std.specs.BTreeMap.{is_at};
ghost use Rattle.std.specs.BTreeSet.{IsOrdered};
ghost use Rattle.mama_event.specs.declared.ids.TimerId.{TimerId as Id};
ghost use Rattle.mama_timer.specs.declared.table.Row.{Row as RowData};
ghost use Rattle.mama_timer.specs.Order.{due_cmp};
ghost use Rattle.mama_timer.specs.Rows.{row_of, is_listed};
ghost use Rattle.mama_timer.specs.Firing.{firing_of, is_due_at, next_key, row_after, due_then};

use crate::table::Row;
use mama_event::TimerId;
use mama_memory::OutOfMemory;
use std::alloc::Global;
use std::collections::{BTreeMap, BTreeSet};

/// A timer that a moment lets tick, its place, and when it is due next.
#[derive(Clone, Copy)]
pub(crate) struct Firing {
    pub(crate) timer: TimerId,
    pub(crate) queue: u32,
    pub(crate) slot: u32,
    pub(crate) due: u64,
}

/// The firing that a due moment stands for, if its timer is armed and due then.
fn firing_at(timers: &BTreeMap<TimerId, Row>, key: (u64, TimerId), clock: u64) -> Option<Firing>
    requires { clock < 2 ^ 63 }
    ensures { result ≡ firing_of (row_of timers.now.entries) clock key }
{
    match timers.get(&key.1) {
        Some(row) if row.armed && row.due == key.0 => Some(Firing {
            timer: key.1,
            queue: row.queue,
            slot: row.slot,
            due: clock + u64::from(row.interval),
        }),
        _ => None,
    }
}

/// The due moments that the clock has reached, in order.
pub(crate) fn reached(
    alloc: Global,
    dues: &BTreeSet<(u64, TimerId)>,
    clock: u64,
) -> Result<Vec<(u64, TimerId)>, OutOfMemory>
    ensures keys { IfOk result (λ keys. keys.items ≡ take_while (λ key. nat_le key.0 clock) dues.now.keys) }
    ensures ordered { IsOrdered due_cmp dues.now }
{
    Ok(
        dues.iter()
            .take_while(|key| key.0 <= clock)
            .copied()
            .collect(alloc)?,
    )
}

/// The firings of these due moments, in order.
pub(crate) fn firings(
    alloc: Global,
    timers: &BTreeMap<TimerId, Row>,
    keys: &[(u64, TimerId)],
    clock: u64,
) -> Result<Vec<Firing>, OutOfMemory>
    requires { clock < 2 ^ 63 }
    ensures { IfOk result (λ fs. fs.items ≡ filter_map (firing_of (row_of timers.now.entries) clock) keys.now) }
{
    Ok(
        keys.iter()
            .filter_map(|key| firing_at(timers, *key, clock))
            .collect(alloc)?,
    )
}

/// Writes down when each is due next. After want of memory some may be written down.
pub(crate) fn list_next(
    dues: &mut BTreeSet<(u64, TimerId)>,
    firings: &[Firing],
) -> Result<(), OutOfMemory>
    ensures kept { (key : ℕ × Id) → is_listed dues.old.keys key ≡ true → is_listed dues.new.keys key ≡ true }
    ensures listed { OnOk result ((key : ℕ × Id) → is_listed dues.new.keys key ≡ (is_listed dues.old.keys key || list_any (λ f. is_at (due_cmp key) (next_key f)) firings.now)) }
{
    for firing in firings {
        dues.insert((firing.due, firing.timer))?;
    }
    Ok(())
}

/// Makes each due when its firing says.
pub(crate) fn set_next(timers: &mut BTreeMap<TimerId, Row>, firings: &[Firing])
    ensures { (timer : Id) → row_of timers.new.entries timer ≡ row_after firings.now timer (row_of timers.old.entries timer) }
{
    for firing in firings {
        set_due(timers, firing.timer, firing.due);
    }
}

/// Makes a timer due at a moment.
fn set_due(timers: &mut BTreeMap<TimerId, Row>, timer: TimerId, due: u64)
    ensures { (one : Id) → row_of timers.new.entries one ≡ (if same_timer timer one then option_map (due_then due) (row_of timers.old.entries one) else row_of timers.old.entries one) }
{
    if let Some(row) = timers.get_mut(&timer) {
        row.due = due;
    }
}

/// Whether a timer is armed and due at this moment.
fn is_current(timers: &BTreeMap<TimerId, Row>, key: (u64, TimerId)) -> bool
    ensures { result ≡ is_due_at key.0 (row_of timers.now.entries key.1) }
{
    match timers.get(&key.1) {
        Some(row) => row.armed && row.due == key.0,
        None => false,
    }
}

/// Strikes out the due moments that are no timer's any more.
pub(crate) fn strike(
    dues: &mut BTreeSet<(u64, TimerId)>,
    timers: &BTreeMap<TimerId, Row>,
    keys: &[(u64, TimerId)],
)
    ensures { (key : ℕ × Id) → is_due_at key.0 (row_of timers.now.entries key.1) ≡ true → is_listed dues.old.keys key ≡ true → is_listed dues.new.keys key ≡ true }
{
    for key in keys {
        strike_one(dues, timers, *key);
    }
}

/// Strikes out a due moment that is no timer's any more.
fn strike_one(
    dues: &mut BTreeSet<(u64, TimerId)>,
    timers: &BTreeMap<TimerId, Row>,
    old: (u64, TimerId),
)
    ensures { (key : ℕ × Id) → is_due_at key.0 (row_of timers.now.entries key.1) ≡ true → is_listed dues.old.keys key ≡ true → is_listed dues.new.keys key ≡ true }
{
    if is_current(timers, old) {
        return;
    }
    dues.remove(&old);
}
