ghost use Rattle.std.specs.Prelude.{◌≡◌, ◌≤◌, [], length, map, true, if◌then◌else◌, Some, IsSome, OnOk, OnErr, IfOk, vec_capacity};
ghost use Rattle.std.specs.List.{All, AllByRecursion, flat_map};
ghost use Rattle.indexmap.specs.IndexMap.{get};
ghost use Rattle.mama_event.specs.declared.ids.SubId.{SubId};
ghost use Rattle.mama_event.specs.Object.{same_sub};
ghost use Rattle.mama_rules_queue.specs.GroupTurns.{told_of};
ghost use Rattle.mama_group.specs.Listener.{told};
ghost use Rattle.mama_group.specs.Table.{AreApart, HaveMembers, AllHeard, are_distinct, all_members, has_member, new_groups, part_of, part_given, state_in, heard_in};
ghost use Rattle.mama_group.specs.Kept.{group_of, IsCounted};
ghost use Rattle.mama_group.specs.declared.member.Member.TheVariants as kept;

use crate::group::Group;
use crate::listener::GroupListener;
use crate::member::Member;
use indexmap::IndexMap;
use mama_event::{CallNote, GroupNote, GroupRow, GroupState, SubId};
use mama_memory::OutOfMemory;
use std::alloc::Global;
use std::marker::Model;

/// Where a member stands: the place of its group, what it is, and how many of its callbacks the group has heard.
#[derive(Clone, Copy, Debug)]
pub(crate) struct Place {
    pub(crate) group: usize,
    pub(crate) member: Member,
    pub(crate) heard: usize,
}

/// The groups of a queue, each with its listener.
#[derive(Drop)]
pub struct GroupTable<H: GroupListener> {
    alloc: Global,
    groups: Vec<Group<H>>,
    places: IndexMap<SubId, Place>,
    // Nothing, with room for what each group gives up.
    room: Vec<(u32, Vec<GroupNote>, H)>,
}

impl<H: GroupListener> Model for GroupTable<H> {
    ghost use Rattle.std.specs.Prelude.{List, map};
    ghost use Rattle.mama_group.specs.Table.{GroupData};

    ghost Value = { List GroupData };

    ghost use Rattle.mama_group.specs.Listener.{told};
    ghost use Rattle.mama_group.specs.Kept.{group_of, IsKept};

    ghost view = { λ t. map (group_of (told H.tagged H.calls H.heard)) t.groups.items };

    ghost invariant = { λ t. IsKept t.groups.items t.places t.room };
}

/// The place of a subscription, if it is a member.
fn place_of(places: &IndexMap<SubId, Place>, sub: SubId) -> Option<Place>
    ensures { result ≡ get same_sub places.now sub }
{
    match places.get(&sub) {
        Some(place) => Some(*place),
        None => None,
    }
}

/// Writes the place of a subscription that is a member. It takes no memory.
fn set_place(places: &mut IndexMap<SubId, Place>, sub: SubId, place: Place)
    requires { IsSome (get same_sub places.old sub) }
    ensures { (s : SubId) → get same_sub places.new s ≡ (if same_sub sub s then Some place else get same_sub places.old s) }
{
    match places.insert(sub, place) {
        Ok(_) => {}
        Err(_) => unreachable!(),
    }
}

/// Writes the places of the members of a group, which wait. The error is want of memory.
fn add_places(
    places: &mut IndexMap<SubId, Place>,
    group: usize,
    members: &[SubId],
) -> Result<(), OutOfMemory>
    ensures { OnOk result ((s : SubId) → get same_sub places.new s ≡ (if has_member s members.now then Some record { group = group; member = kept.Waiting; heard = 0 } else get same_sub places.old s)) }
{
    for sub in members {
        let place = Place {
            group,
            member: Member::Waiting,
            heard: 0,
        };
        places.insert(*sub, place)?;
    }
    Ok(())
}

/// The state of the group of a number.
fn state_of<H: GroupListener>(groups: &[Group<H>], number: u32) -> Option<GroupState>
    requires { All IsCounted groups.now }
    ensures { result ≡ state_in number (map (group_of (told H.tagged H.calls H.heard)) groups.now) }
{
    for group in groups {
        if group.number == number {
            return Some(group.counts.state());
        }
    }
    None
}

/// The number of each group, what it heard, and its listener. There is room for them.
fn parts_of<H: GroupListener>(
    groups: Vec<Group<H>>,
    room: Vec<(u32, Vec<GroupNote>, H)>,
) -> Vec<(u32, Vec<GroupNote>, H)>
    requires none { room.items ≡ [] }
    requires enough { length groups.items ≤ vec_capacity room }
    ensures { map (part_given (told H.tagged H.calls H.heard)) result.items ≡ map part_of (map (group_of (told H.tagged H.calls H.heard)) groups.items) }
{
    let mut parts = room;
    for group in groups {
        let Group {
            number,
            members: _,
            counts: _,
            notes,
            listener,
        } = group;
        parts.push_reserved((number, notes, listener));
    }
    parts
}

impl<H: GroupListener> GroupTable<H> {
    /// Groups with these numbers and listeners, which have heard nothing yet. The error is want of memory.
    pub fn new(
        alloc: Global,
        groups: Vec<(u32, GroupRow)>,
        listeners: Vec<H>,
    ) -> Result<GroupTable<H>, OutOfMemory>
        requires listeners { length groups.items ≡ length listeners.items }
        requires apart { AreApart groups.items }
        requires members { HaveMembers groups.items }
        requires distinct { are_distinct [] (all_members groups.items) ≡ true }
        ensures { IfOk result (λ table. table ≡ new_groups groups.items (map (told H.tagged H.calls H.heard) listeners.items)) }
    {
        let room = Vec::with_capacity(alloc, groups.len())?;
        let mut kept = Vec::with_capacity(alloc, groups.len())?;
        let mut places = IndexMap::new(alloc);
        let mut left = listeners.into_iter();
        for group in groups {
            let (number, GroupRow { members }) = group;
            let Some(listener) = left.next() else {
                unreachable!()
            };
            add_places(&mut places, kept.len(), members.as_slice())?;
            kept.push(Group::new(alloc, number, members, listener))?;
        }
        Ok(GroupTable {
            alloc,
            groups: kept,
            places,
            room,
        })
    }

    /// Tells the group of a subscription the callbacks of one turn, in order, and then its state where that changed. Where the
    /// subscription is in no group nothing happens. Where no memory is found no listener was called, and all is as before.
    ///
    /// It costs what the callbacks cost.
    pub fn after(&mut self, sub: SubId, notes: &[CallNote]) -> Result<(), OutOfMemory>
        ensures ok { OnOk result (AllHeard sub (map (λ n. n.call) notes.now) self.old self.new) }
        ensures err { OnErr result (self.new ≡ self.old) }
    {
        let Some(place) = place_of(&self.places, sub) else {
            return Ok(());
        };
        let group = &mut self.groups[place.group];
        let change = group.change(self.alloc, sub, place.member, notes)?;
        let member = group.hear(change);
        let heard = place.heard + notes.len();
        let place = Place {
            group: place.group,
            member,
            heard,
        };
        set_place(&mut self.places, sub, place);
        Ok(())
    }

    /// How many callbacks of a subscription its group has heard; 0 where it is in no group. It takes no memory.
    pub fn heard(&self, sub: SubId) -> usize
        ensures count { result ≡ heard_in sub self.now }
        ensures own { AllByRecursion (λ g. has_member sub g.members ≡ true → result ≡ length (flat_map (told_of sub) g.notes)) self.now }
    {
        match place_of(&self.places, sub) {
            Some(place) => place.heard,
            None => 0,
        }
    }

    /// The state of the group of a number. None exactly where it is not in the table. It takes no memory.
    pub fn state(&self, group: u32) -> Option<GroupState>
        ensures { result ≡ state_in group self.now }
    {
        state_of(self.groups.as_slice(), group)
    }

    /// The number of each group, what it heard, and its listener, in the order of the groups. It takes no memory.
    pub fn into_parts(self) -> Vec<(u32, Vec<GroupNote>, H)>
        ensures { map (part_given (told H.tagged H.calls H.heard)) result.items ≡ map part_of self }
    {
        let GroupTable {
            alloc: _,
            groups,
            places: _,
            room,
        } = self;
        parts_of(groups, room)
    }
}
