//! The groups and the watches of a script, queue by queue.
ghost use Rattle.std.specs.Prelude.{◌≡◌, ◌++◌, ◌∷◌, [], map, slice_index_or, slice_set, IfOk, OnOk};
ghost use Rattle.mama_journal.specs.Journal.{numbers_below};
ghost use Rattle.mama_event.specs.Ports.{queues_of};
ghost use Rattle.mama_rules_rounds.specs.Sections.{setting_of, queue_of_members};
ghost use Rattle.mama_plans.specs.Lists.{groups_on_each, watches_on_each};

use crate::Plans;
use mama_event::{GroupRow, ObjectId, WatchRow};
use mama_memory::{Duplicate, OutOfMemory};
use mama_script::Script;
use std::alloc::Global;

/// So many lists, which are empty.
fn empty_lists<T: Drop>(alloc: Global, count: usize) -> Result<Vec<Vec<T>>, OutOfMemory>
    ensures { IfOk result (λ lists. map (λ list. list.items) lists.items ≡ map (λ n. []) (numbers_below count)) }
{
    let mut lists = Vec::with_capacity(alloc, count)?;
    for _queue in 0..count {
        lists.push(Vec::new(alloc))?;
    }
    Ok(lists)
}

/// Adds a value at the end of the list of a place, if there is one.
fn add_to<T: Drop>(lists: &mut Vec<Vec<T>>, place: usize, value: T) -> Result<(), OutOfMemory>
    ensures { OnOk result (map (λ list. list.items) lists.new.items ≡ slice_set (map (λ list. list.items) lists.old.items) place (slice_index_or (map (λ list. list.items) lists.old.items) place [] ++ value ∷ [])) }
{
    if place >= lists.len() {
        return Ok(());
    }
    lists[place].push(value)?;
    Ok(())
}

/// The queue of a group: that of its first member.
fn queue_of_members(plans: &Plans, row: &GroupRow) -> u32
    ensures { result ≡ queue_of_members plans.now row.now.members }
{
    match row.members.as_slice() {
        [] => 0,
        [first, ..] => plans.queue(&ObjectId::Sub(*first)),
    }
}

/// The groups on each queue of a script, each with its number. The plans are those of the script's objects.
pub fn groups_by_queue(
    alloc: Global,
    script: &Script,
    plans: &Plans,
) -> Result<Vec<Vec<(u32, GroupRow)>>, OutOfMemory>
    requires { plans.now ≡ (setting_of script.now).objects }
    ensures { IfOk result (λ lists. map (λ list. list.items) lists.items ≡ groups_on_each (queues_of script.now.shape) (setting_of script.now).groups) }
{
    let mut lists = empty_lists(alloc, script.shape().bounds.queues as usize)?;
    for (number, row) in script.groups().iter().enumerate() {
        let queue = queue_of_members(plans, row) as usize;
        let members = row.members.try_clone()?;
        add_to(&mut lists, queue, (number as u32, GroupRow { members }))?;
    }
    Ok(lists)
}

/// The watches on each queue of a script, each with its number. The plans are those of the script's objects.
pub fn watches_by_queue(
    alloc: Global,
    script: &Script,
    plans: &Plans,
) -> Result<Vec<Vec<(u32, WatchRow)>>, OutOfMemory>
    requires { plans.now ≡ (setting_of script.now).objects }
    ensures { IfOk result (λ lists. map (λ list. list.items) lists.items ≡ watches_on_each (queues_of script.now.shape) (setting_of script.now).watches) }
{
    let mut lists = empty_lists(alloc, script.shape().bounds.queues as usize)?;
    for (number, row) in script.watches().iter().enumerate() {
        let queue = plans.queue(&ObjectId::Timer(row.timer)) as usize;
        add_to(&mut lists, queue, (number as u32, *row))?;
    }
    Ok(lists)
}
