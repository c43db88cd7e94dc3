ghost use Rattle.std.specs.Prelude.{◌≡◌, [], map, IsOk, IfOk, OnOk};
ghost use Rattle.mama_check_order.specs.Numbered.{from_entry};
ghost use Rattle.mama_check_puts.specs.Puts.{AreLists, one_for};
ghost use Rattle.mama_check_puts.specs.Dealing.{Grow};

use mama_memory::OutOfMemory;
use std::alloc::Global;

/// So many lists with nothing in them.
pub(crate) fn empty_lists<N: Drop>(
    alloc: Global,
    count: usize,
) -> Result<Vec<Vec<(usize, N)>>, OutOfMemory>
    ensures { IfOk result (λ lists. AreLists (map (λ list. list.items) lists.items) count (λ n. [])) }
{
    let mut lists = Vec::new(alloc);
    for _ in 0..count {
        lists.push(Vec::new(alloc))?;
    }
    Ok(lists)
}

/// Puts an event, with the number of the entry that put it, last in the list of a number, if there is such a list.
pub(crate) fn deal<N: Drop>(
    lists: &mut Vec<Vec<(usize, N)>>,
    number: u32,
    entry: usize,
    note: N,
) -> Result<(), OutOfMemory>
    ensures { OnOk result (Grow (map (λ list. list.items) lists.old.items) (map (λ list. list.items) lists.new.items) (λ n. from_entry entry (one_for number note n))) }
{
    if (number as usize) < lists.len() {
        let list = &mut lists[number as usize];
        list.push((entry, note))?;
    }
    Ok(())
}

/// What an entry put, if its event was taken: it is given back for want of memory alone. Both are let go here alone, where
/// their types are any.
pub(crate) fn if_taken<T: Drop, A: Drop, E: Drop>(
    put: T,
    answer: Result<A, E>,
) -> Result<T, OutOfMemory>
    ensures put { IfOk result (λ r. r ≡ put) }
    ensures taken { OnOk result (IsOk answer) }
{
    match answer {
        Ok(_) => Ok(put),
        Err(_) => Err(OutOfMemory),
    }
}
