//! What the groups and the watches of a queue make of its journal, which is served again.
ghost use Rattle.std.specs.Prelude.{◌≡◌, [], length, map, drop, IfOk, OnOk};
ghost use Rattle.mama_event.specs.declared.ids.ObjectId.TheVariants.{Sub as OfSub};
ghost use Rattle.mama_group.specs.Table.{AllHeard};
ghost use Rattle.mama_timeout.specs.Table.{new_watch, wish_puts, first_sub};
ghost use Rattle.mama_check_queue.specs.Rows.{seen_in};
ghost use Rattle.mama_check_queue.specs.Served.{group_given, watch_given};
ghost use Rattle.mama_check_queue.specs.Listed.{AreListed};
ghost use Rattle.mama_check_queue.specs.Lists as lists;
ghost use Rattle.mama_check_queue.specs.Lists.{about_note, about_object, is_missed_in, watches_counted, wishes_counted, Follows, AreGroups, group_list, watch_list};

use crate::objects::Objects;
use mama_event::{GroupNote, GroupRow, ObjectId, QueueNote, SubId, TimerId, WatchNote, WatchRow};
use mama_group::{GroupMaker, GroupTable, SilentGroup, SilentGroups};
use mama_memory::{Duplicate, OutOfMemory};
use mama_timeout::WatchTable;
use std::alloc::Global;

/// The groups and the watches of a queue, as far as its journal was served.
#[derive(Drop)]
pub(crate) struct Lists {
    pub(crate) groups: GroupTable<SilentGroup>,
    pub(crate) watches: WatchTable,
}

/// What an entry is about, as far as groups and watches look at it.
#[derive(Clone, Copy)]
enum About {
    Sub(SubId),
    Tick(TimerId, u64),
    Other,
}

fn of_object(object: ObjectId) -> About
    ensures { result ≡ about_object object }
{
    match object {
        ObjectId::Sub(sub) => About::Sub(sub),
        ObjectId::Timer(_) | ObjectId::Inbox(_) => About::Other,
    }
}

fn subject_of(note: &QueueNote) -> About
    ensures { result ≡ about_note note.now }
{
    match note {
        QueueNote::Create { object, .. } => of_object(*object),
        QueueNote::Deliver { sub, .. } => About::Sub(*sub),
        QueueNote::Bad { sub, .. } => About::Sub(*sub),
        QueueNote::Tick { timer, moment, .. } => About::Tick(*timer, *moment),
        QueueNote::Gone { object, .. } => of_object(*object),
        QueueNote::Reply { .. } | QueueNote::BadReply { .. } | QueueNote::Fin => About::Other,
    }
}

/// How many callbacks there were so far of what an entry is about.
pub(crate) fn called(objects: &Objects, note: &QueueNote) -> usize
    ensures { result ≡ lists.calls_before (about_note note.now) objects.now }
{
    match subject_of(note) {
        About::Sub(sub) => objects.calls(&ObjectId::Sub(sub)).len(),
        About::Tick(timer, _) => objects.calls(&ObjectId::Timer(timer)).len(),
        About::Other => 0,
    }
}

/// A silent listener for each group.
fn listeners_of(alloc: Global, groups: &[(u32, GroupRow)]) -> Result<Vec<SilentGroup>, OutOfMemory>
    ensures { IfOk result (λ listeners. length listeners.items ≡ length groups.now) }
{
    let mut maker = SilentGroups::new();
    let mut listeners = Vec::with_capacity(alloc, groups.len())?;
    for group in groups {
        listeners.push(maker.make_group(group.0)?)?;
    }
    Ok(listeners)
}

/// Copies of groups with their numbers.
fn copies_of(alloc: Global, groups: &[(u32, GroupRow)]) -> Result<Vec<(u32, GroupRow)>, OutOfMemory>
    ensures { IfOk result (λ copies. copies.items ≡ groups.now) }
{
    let mut copies = Vec::with_capacity(alloc, groups.len())?;
    for group in groups {
        let members = group.1.members.try_clone()?;
        copies.push((group.0, GroupRow { members }))?;
    }
    Ok(copies)
}

/// A table of groups with these numbers, which have heard nothing yet.
fn table_of(
    alloc: Global,
    groups: &[(u32, GroupRow)],
    watches: &[(u32, WatchRow)],
) -> Result<GroupTable<SilentGroup>, OutOfMemory>
    requires { AreListed groups.now watches.now }
    ensures { IfOk result (λ table. AreGroups (λ row. []) groups.now table) }
{
    let listeners = listeners_of(alloc, groups)?;
    let rows = copies_of(alloc, groups)?;
    GroupTable::new(alloc, rows, listeners)
}

impl Lists {
    /// Groups and watches with these numbers, before the first entry.
    pub(crate) fn new(
        alloc: Global,
        groups: &[(u32, GroupRow)],
        watches: &[(u32, WatchRow)],
    ) -> Result<Lists, OutOfMemory>
        requires { AreListed groups.now watches.now }
        ensures groups { IfOk result (λ lists. AreGroups (λ row. []) groups.now lists.groups) }
        ensures watches { IfOk result (λ lists. lists.watches.watches ≡ map new_watch watches.now) }
    {
        let table = table_of(alloc, groups, watches)?;
        let rows = Vec::from_slice(alloc, watches)?;
        Ok(Lists {
            groups: table,
            watches: WatchTable::new(alloc, rows)?,
        })
    }

    /// Tells the group of a subscription what was called back since there were so many callbacks.
    fn tell(&mut self, objects: &Objects, sub: SubId, before: usize) -> Result<(), OutOfMemory>
        ensures groups { OnOk result (AllHeard sub (map (λ n. n.call) (drop before (seen_in objects.now (OfSub sub)).calls)) self.old.groups self.new.groups) }
        ensures watches { self.new.watches ≡ self.old.watches }
    {
        let calls = objects.calls(&ObjectId::Sub(sub));
        let first = before.min(calls.len());
        self.groups.after(sub, &calls[first..])
    }

    /// Whether the subscription of the watch of a timer is missed.
    fn is_missed_by(&self, objects: &Objects, timer: TimerId) -> bool
        ensures { result ≡ is_missed_in objects.now (first_sub timer self.now.watches.watches) }
    {
        match self.watches.sub_of(timer) {
            Some(sub) => objects.is_missed(sub),
            None => false,
        }
    }

    /// A tick of a timer was called back: its watch notes it if the subscription is missed. The answer is its wish.
    fn count(
        &mut self,
        objects: &Objects,
        timer: TimerId,
        moment: u64,
    ) -> Result<Option<(SubId, u32)>, OutOfMemory>
        ensures groups { self.new.groups ≡ self.old.groups }
        ensures watches { OnOk result (self.new.watches.watches ≡ watches_counted timer moment objects.now self.old.watches.watches) }
        ensures wish { IfOk result (λ wish. wish_puts wish ≡ wishes_counted timer moment objects.now self.old.watches.watches) }
    {
        if !self.is_missed_by(objects, timer) {
            return Ok(None);
        }
        self.watches.prepare()?;
        Ok(self.watches.count(timer, moment))
    }

    /// Follows an entry that was served: tells its group what was called back, or its watch that it ticked. The answer is the
    /// wish of the watch.
    pub(crate) fn follow(
        &mut self,
        objects: &Objects,
        note: &QueueNote,
        before: usize,
    ) -> Result<Option<(SubId, u32)>, OutOfMemory>
        ensures { IfOk result (λ wish. Follows (about_note note.now) before objects.now self.old.groups self.new.groups self.old.watches.watches self.new.watches.watches (wish_puts wish)) }
    {
        match subject_of(note) {
            About::Sub(sub) => {
                self.tell(objects, sub, before)?;
                Ok(None)
            }
            About::Tick(timer, moment) => {
                if before < objects.calls(&ObjectId::Timer(timer)).len() {
                    return self.count(objects, timer, moment);
                }
                Ok(None)
            }
            About::Other => Ok(None),
        }
    }

    /// What each group heard and what each watch noted.
    pub(crate) fn into_parts(
        self,
    ) -> (
        Vec<(u32, Vec<GroupNote>, SilentGroup)>,
        Vec<(u32, Vec<WatchNote>)>,
    )
        ensures groups { map group_given result.0.items ≡ map group_list self.groups }
        ensures watches { map watch_given result.1.items ≡ map watch_list self.watches.watches }
    {
        let Lists { groups, watches } = self;
        (groups.into_parts(), watches.into_notes())
    }
}
