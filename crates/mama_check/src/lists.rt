//! What groups heard and watches noted, against what they do by their queues' journals.
ghost use Rattle.std.specs.Prelude.{◌≡◌, [], length, map, option_map, slice_get, slice_index_or, IfOk};
ghost use Rattle.mama_rules_rounds.specs.Sections.{setting_of, queue_of, queue_of_members as queue_of_group};
ghost use Rattle.mama_event.specs.declared.ids.ObjectId.TheVariants.{Timer};
ghost use Rattle.mama_rules_legal.specs.Form.{IsFormed};
ghost use Rattle.mama_check_queue.specs.Served.{groups_heard, watches_noted, group_given, watch_given};
ghost use Rattle.mama_check.specs.First.{IsFirst};
ghost use Rattle.mama_check.specs.Rules.{KeepsGroup, KeepsWatch};
ghost use Rattle.mama_check.specs.Puts.{AreServed};
ghost use Rattle.mama_check.specs.Lists.{without_first, first_heard, first_noted};

use mama_check_order::{are_same_group_notes, are_same_watch_notes};
use mama_check_queue::{ServedQueue, SilentGroup};
use mama_event::{GroupNote, GroupRow, ObjectId, WatchNote, WatchRow};
use mama_memory::OutOfMemory;
use mama_plans::Plans;
use mama_record::RunRecord;
use mama_script::Script;
use std::alloc::Global;

/// The queue of a group: that of its first member.
fn queue_of_members(plans: &Plans, row: &GroupRow) -> u32
    ensures { result ≡ queue_of_group plans.now row.now.members }
{
    match row.members.as_slice() {
        [] => 0,
        [first, ..] => plans.queue(&ObjectId::Sub(*first)),
    }
}

/// The queue of a watch: that of its timer.
fn queue_of_watch(plans: &Plans, row: &WatchRow) -> u32
    ensures { result ≡ queue_of plans.now (Timer row.now.timer) }
{
    plans.queue(&ObjectId::Timer(row.timer))
}

/// Takes the first item of the list of a number; none where that list is done, or there is no such list.
fn next_on<'s, T>(lists: &mut Vec<&'s [T]>, number: u32) -> Option<&'s T>
    ensures next { option_map (λ x. x.now) result ≡ slice_get (slice_index_or (map (λ list. list.now) lists.old.items) number []) 0 }
    ensures rest { map (λ list. list.now) lists.new.items ≡ without_first number (map (λ list. list.now) lists.old.items) }
{
    let place = number as usize;
    if place >= lists.len() {
        return None;
    }
    let Some((first, rest)) = lists[place].split_first() else {
        return None;
    };
    lists[place] = rest;
    Some(first)
}

/// What the groups of each queue heard.
fn all_heard<'s>(
    alloc: Global,
    served: &'s [ServedQueue],
) -> Result<Vec<&'s [(u32, Vec<GroupNote>, SilentGroup)]>, OutOfMemory>
    ensures { IfOk result (λ lists. map (λ list. map group_given list.now) lists.items ≡ map groups_heard served.now) }
{
    let mut lists = Vec::with_capacity(alloc, served.len())?;
    for queue in served {
        lists.push(queue.heard())?;
    }
    Ok(lists)
}

/// What the watches of each queue noted.
fn all_noted<'s>(
    alloc: Global,
    served: &'s [ServedQueue],
) -> Result<Vec<&'s [(u32, Vec<WatchNote>)]>, OutOfMemory>
    ensures { IfOk result (λ lists. map (λ list. map watch_given list.now) lists.items ≡ map watches_noted served.now) }
{
    let mut lists = Vec::with_capacity(alloc, served.len())?;
    for queue in served {
        lists.push(queue.noted())?;
    }
    Ok(lists)
}

/// Takes what the next group on a queue heard.
fn next_heard<'s>(
    lists: &mut Vec<&'s [(u32, Vec<GroupNote>, SilentGroup)]>,
    queue: u32,
) -> &'s [GroupNote]
    ensures next { result.now ≡ first_heard (map group_given (slice_index_or (map (λ list. list.now) lists.old.items) queue [])) }
    ensures rest { map (λ list. list.now) lists.new.items ≡ without_first queue (map (λ list. list.now) lists.old.items) }
{
    match next_on(lists, queue) {
        Some((_, notes, _)) => notes.as_slice(),
        None => &[],
    }
}

/// Takes what the next watch on a queue noted.
fn next_noted<'s>(lists: &mut Vec<&'s [(u32, Vec<WatchNote>)]>, queue: u32) -> &'s [WatchNote]
    ensures next { result.now ≡ first_noted (map watch_given (slice_index_or (map (λ list. list.now) lists.old.items) queue [])) }
    ensures rest { map (λ list. list.now) lists.new.items ≡ without_first queue (map (λ list. list.now) lists.old.items) }
{
    match next_on(lists, queue) {
        Some((_, notes)) => notes.as_slice(),
        None => &[],
    }
}

/// The first group that heard anything else than it hears by its queue's journal; None where there is none. The queues were
/// served by their journals. The error is want of memory.
pub fn first_of_groups(
    alloc: Global,
    script: &Script,
    run: &RunRecord,
    plans: &Plans,
    served: &[ServedQueue],
) -> Result<Option<usize>, OutOfMemory>
    requires formed { IsFormed script.now run.now }
    requires plans { plans.now ≡ (setting_of script.now).objects }
    requires served { AreServed script.now run.now served.now }
    ensures { IfOk result (λ first. IsFirst (KeepsGroup script.now run.now) (length script.now.groups) first) }
{
    let recorded = run.groups();
    let groups = script.groups();
    let mut lists = all_heard(alloc, served)?;
    for (k, row) in groups.iter().enumerate() {
        let heard = next_heard(&mut lists, queue_of_members(plans, row));
        let entry = &recorded[k];
        if !are_same_group_notes(&entry.1, heard) {
            return Ok(Some(k));
        }
    }
    Ok(None)
}

/// The first watch that noted anything else than it notes by its queue's journal; None where there is none. The queues were
/// served by their journals. The error is want of memory.
pub fn first_of_watches(
    alloc: Global,
    script: &Script,
    run: &RunRecord,
    plans: &Plans,
    served: &[ServedQueue],
) -> Result<Option<usize>, OutOfMemory>
    requires formed { IsFormed script.now run.now }
    requires plans { plans.now ≡ (setting_of script.now).objects }
    requires served { AreServed script.now run.now served.now }
    ensures { IfOk result (λ first. IsFirst (KeepsWatch script.now run.now) (length script.now.watches) first) }
{
    let recorded = run.watches();
    let watches = script.watches();
    let mut lists = all_noted(alloc, served)?;
    for (k, row) in watches.iter().enumerate() {
        let noted = next_noted(&mut lists, queue_of_watch(plans, row));
        let entry = &recorded[k];
        if !are_same_watch_notes(&entry.1, noted) {
            return Ok(Some(k));
        }
    }
    Ok(None)
}
