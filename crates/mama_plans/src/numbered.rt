//! Lists with numbers, each in the place of its number.
ghost use Rattle.std.specs.Prelude.{◌≡◌, ◌<◌, ◌^◌, [], map, IfOk};
ghost use Rattle.mama_journal.specs.Journal.{numbers_below};
ghost use Rattle.mama_plans.specs.Numbered.{numbered, list_put};

use mama_memory::OutOfMemory;
use std::alloc::Global;

/// A list, still empty, for each number below a count. The error is want of memory.
pub fn numbered_lists<T: Drop>(
    alloc: Global,
    count: usize,
) -> Result<Vec<(u32, Vec<T>)>, OutOfMemory>
    requires { count < 2 ^ 32 }
    ensures { IfOk result (λ lists. numbered lists.items ≡ map (λ n. (n, [])) (numbers_below count)) }
{
    let mut lists = Vec::with_capacity(alloc, count)?;
    for number in 0..count {
        lists.push((number as u32, Vec::new(alloc)))?;
    }
    Ok(lists)
}

/// Puts a list in the place of its number, if there is the place. It takes no memory.
pub fn put_list<T: Drop>(lists: &mut Vec<(u32, Vec<T>)>, number: u32, list: Vec<T>)
    ensures { numbered lists.new.items ≡ list_put number list.items (numbered lists.old.items) }
{
    let place = number as usize;
    if place < lists.len() {
        lists[place].1 = list;
    }
}
