ghost use Rattle.std.specs.Prelude.{◌≡◌, ◌≤◌, true, [], ◌++◌, map, length, vec_capacity, IfOk, OnOk, OnErr};
ghost use Rattle.std.specs.List.{flat_map};
ghost use Rattle.mama_record.specs.RunView.{moments_of, entries_of, events_of, calls_of, images_of, calls_in};
ghost use Rattle.mama_plans.specs.Plans.{planned_object, planned_objects, AreApart};
ghost use Rattle.mama_seats.specs.Server.{Server};
ghost use Rattle.mama_seats.specs.Heard.{heard_in as list_heard, noted_in};
ghost use Rattle.mama_drive.specs.Scene.{journal_in, entries_in, objects_in};
ghost use Rattle.mama_drive.specs.Record.{read_in, recorded, image_by, images_by, journal_at};
ghost use Rattle.mama_drive.specs.Given.{calls_given, less, HaveGiven};
ghost use Rattle.mama_plans.specs.Numbered.{numbered, lists_put};
ghost use Rattle.mama_drive.specs.Numbered.{groups_given, watches_given};
ghost use Rattle.mama_drive.specs.Parts.{ArePartsOf};

use crate::held::settle;
use crate::run::Run;
use crate::system::System;
use mama_dispatch::Callbacks;
use mama_event::{
    CallNote, GroupNote, ImageHead, ObjectId, PublisherEntry, QueueNote, SubId, WatchNote,
};
use mama_group::SilentGroup;
use mama_memory::OutOfMemory;
use mama_msg::Msg;
use mama_plans::{PlannedObject, Plans, numbered_lists, put_list};
use mama_record::RunRecord;
use mama_seats::{ClientSeat, PublisherSeat, QueueParts, QueueSeat};
use std::alloc::Global;

/// The images of a record, and empty lists with room for its callbacks, journals and moments, and for the callbacks of
/// each queue.
#[derive(Drop)]
pub(crate) struct Parts {
    pub(crate) calls: Vec<(ObjectId, Vec<CallNote>)>,
    pub(crate) given: Vec<Callbacks>,
    pub(crate) images: Vec<(SubId, ImageHead, Msg)>,
    pub(crate) moments: Vec<Vec<u64>>,
    pub(crate) entries: Vec<Vec<PublisherEntry>>,
    pub(crate) events: Vec<Vec<(u32, QueueNote)>>,
    // A list, still empty, for each group and each watch, in the order of their numbers.
    pub(crate) groups: Vec<(u32, Vec<GroupNote>)>,
    pub(crate) watches: Vec<(u32, Vec<WatchNote>)>,
}

impl<'a> Run<'a> {
    /// The images of its record, and room for all callbacks, journals and moments. The groups are told what they were not
    /// told yet, and marked so.
    pub(crate) fn parts(&mut self) -> Result<Parts, OutOfMemory>
        ensures parts { IfOk result (ArePartsOf self.new) }
        ensures ok { OnOk result (self.new ≡ record self.old { ready = true }) }
        ensures err { OnErr result (self.new ≡ self.old) }
    {
        settle(&mut self.system, &mut self.held)?;
        let parts = self.system.parts()?;
        self.system.make_ready();
        Ok(parts)
    }

    /// The record of what was done, with these parts. It takes no memory.
    pub(crate) fn record_with(self, parts: Parts) -> RunRecord
        requires parts { ArePartsOf self parts }
        requires ready { self.ready ≡ true }
        ensures { result ≡ recorded self.entry }
    {
        let Run { system, held: _ } = self;
        system.record_with(parts)
    }
}

impl<'a> System<'a> {
    /// The images of its record, and room for all callbacks, journals and moments.
    fn parts(&self) -> Result<Parts, OutOfMemory>
        ensures { IfOk result (ArePartsOf self.now) }
    {
        let images = self.images()?;
        let calls = Vec::with_capacity(self.alloc, self.plans.objects().len())?;
        let given = Vec::with_capacity(self.alloc, self.queues.len())?;
        let moments = Vec::with_capacity(self.alloc, self.clients.len())?;
        let entries = Vec::with_capacity(self.alloc, self.publishers.len())?;
        let events = Vec::with_capacity(self.alloc, self.queues.len())?;
        // A script has few groups and watches.
        let _shape = self.script.shape();
        let groups = numbered_lists(self.alloc, self.script.groups().len())?;
        let watches = numbered_lists(self.alloc, self.script.watches().len())?;
        Ok(Parts {
            calls,
            given,
            images,
            moments,
            entries,
            events,
            groups,
            watches,
        })
    }

    /// The record of what was done, with these parts. It takes no memory.
    fn record_with(self, parts: Parts) -> RunRecord
        requires parts { ArePartsOf self parts }
        requires ready { self.ready ≡ true }
        ensures { result ≡ recorded self.entry }
    {
        let System {
            alloc,
            shape: _,
            plans,
            clients,
            publishers,
            queues,
            bridge,
            timers,
            marked_publishers: _,
            marked_queues: _,
            script: _,
            ready: _,
        } = self;
        let Parts {
            calls,
            given,
            images,
            moments,
            entries,
            events,
            groups,
            watches,
        } = parts;
        plans.are_apart();
        let (events, given, groups, watches) = all_events(queues, events, given, groups, watches);
        RunRecord::new(
            all_moments(clients, moments),
            all_entries(publishers, entries),
            bridge.into_journal(),
            timers.into_journal(),
            events,
            all_calls(alloc, plans.objects(), given, calls),
            images,
            groups,
            watches,
        )
    }

    /// The last images, in the order of the objects.
    fn images(&self) -> Result<Vec<(SubId, ImageHead, Msg)>, OutOfMemory>
        ensures { IfOk result (λ found. images_of found.items ≡ flat_map (images_by self.now.objects (map journal_in self.now.servers)) self.now.objects) }
    {
        all_images(self.alloc, &self.plans, self.queues.as_slice())
    }
}

/// What each client has read, moved into a list that has room for it.
fn all_moments(seats: Vec<ClientSeat>, room: Vec<Vec<u64>>) -> Vec<Vec<u64>>
    requires none { room.items ≡ [] }
    requires enough { length seats.items ≤ vec_capacity room }
    ensures { moments_of result.items ≡ map read_in seats.entry.items }
{
    let mut found = room;
    for seat in seats {
        found.push_reserved(seat.into_moments());
    }
    found
}

/// The journal of each publisher, moved likewise.
fn all_entries(
    seats: Vec<PublisherSeat>,
    room: Vec<Vec<PublisherEntry>>,
) -> Vec<Vec<PublisherEntry>>
    requires none { room.items ≡ [] }
    requires enough { length seats.items ≤ vec_capacity room }
    ensures { entries_of result.items ≡ map entries_in seats.entry.items }
{
    let mut found = room;
    for seat in seats {
        found.push_reserved(seat.into_journal());
    }
    found
}

/// The journal of each queue, and the callbacks of its objects, moved likewise.
fn all_events(
    seats: Vec<QueueSeat>,
    room: Vec<Vec<(u32, QueueNote)>>,
    room_for_calls: Vec<Callbacks>,
    room_for_groups: Vec<(u32, Vec<GroupNote>)>,
    room_for_watches: Vec<(u32, Vec<WatchNote>)>,
) -> (
    Vec<Vec<(u32, QueueNote)>>,
    Vec<Callbacks>,
    Vec<(u32, Vec<GroupNote>)>,
    Vec<(u32, Vec<WatchNote>)>,
)
    requires none { room.items ≡ [] }
    requires enough { length seats.items ≤ vec_capacity room }
    requires no_calls { room_for_calls.items ≡ [] }
    requires enough_calls { length seats.items ≤ vec_capacity room_for_calls }
    ensures journals { events_of result.0.items ≡ map journal_in seats.items }
    ensures calls { HaveGiven seats.items result.1.items }
    ensures groups { numbered result.2.items ≡ lists_put (groups_given seats.items) (numbered room_for_groups.items) }
    ensures watches { numbered result.3.items ≡ lists_put (watches_given seats.items) (numbered room_for_watches.items) }
{
    let mut events = room;
    let mut given = room_for_calls;
    let mut heard = room_for_groups;
    let mut noted = room_for_watches;
    for seat in seats {
        let QueueParts {
            journal,
            calls,
            groups,
            watches,
        } = seat.into_parts();
        events.push_reserved(journal);
        given.push_reserved(calls);
        put_groups(groups, &mut heard);
        put_watches(watches, &mut noted);
    }
    (events, given, heard, noted)
}

/// What the groups of a queue heard, each list in the place of its number.
fn put_groups(
    groups: Vec<(u32, Vec<GroupNote>, SilentGroup)>,
    lists: &mut Vec<(u32, Vec<GroupNote>)>,
)
    ensures { numbered lists.new.items ≡ lists_put (map list_heard groups.items) (numbered lists.old.items) }
{
    for (number, notes, _) in groups {
        put_list(lists, number, notes);
    }
}

/// What the watches of a queue noted, likewise.
fn put_watches(watches: Vec<(u32, Vec<WatchNote>)>, lists: &mut Vec<(u32, Vec<WatchNote>)>)
    ensures { numbered lists.new.items ≡ lists_put (map noted_in watches.items) (numbered lists.old.items) }
{
    for (number, notes) in watches {
        put_list(lists, number, notes);
    }
}

/// The callbacks of each object, moved out of what the queues gave up into a list that has room for them.
fn all_calls(
    alloc: Global,
    objects: &[PlannedObject],
    given: Vec<Callbacks>,
    room: Vec<(ObjectId, Vec<CallNote>)>,
) -> Vec<(ObjectId, Vec<CallNote>)>
    requires none { room.items ≡ [] }
    requires enough { length objects.now ≤ vec_capacity room }
    requires apart { AreApart (planned_objects objects.now) }
    ensures { calls_of result.items ≡ map (calls_given given.items) (planned_objects objects.now) }
{
    let mut left = given;
    let mut calls = room;
    for planned in objects {
        let notes = take_calls(alloc, &mut left, planned);
        calls.push_reserved((planned.object, notes));
    }
    calls
}

/// Moves the callbacks of one object out of what its queue gave up.
fn take_calls(alloc: Global, given: &mut Vec<Callbacks>, planned: &PlannedObject) -> Vec<CallNote>
    ensures calls { result.items ≡ (calls_given given.old.items (planned_object planned.now)).calls }
    ensures rest { given.new.items ≡ less (planned_object planned.now) given.old.items }
{
    let queue = planned.queue as usize;
    if queue < given.len() {
        let lists = &mut given[queue];
        return lists.take(&planned.object);
    }
    Vec::new(alloc)
}

/// The last images, in the order of the objects. The queues know the plans of these objects.
fn all_images(
    alloc: Global,
    plans: &Plans,
    seats: &[QueueSeat],
) -> Result<Vec<(SubId, ImageHead, Msg)>, OutOfMemory>
    requires { map objects_in seats.now ≡ map (λ (s : Server). plans.now) seats.now }
    ensures { IfOk result (λ found. images_of found.items ≡ flat_map (images_by plans.now (map journal_in seats.now)) plans.now) }
{
    let mut found = Vec::new(alloc);
    let objects = plans.objects();
    for planned in objects {
        add_image_of(&mut found, plans, seats, planned)?;
    }
    Ok(found)
}

/// Adds the last image of an object, if it is a subscription and has one.
fn add_image_of(
    found: &mut Vec<(SubId, ImageHead, Msg)>,
    plans: &Plans,
    seats: &[QueueSeat],
    planned: &PlannedObject,
) -> Result<(), OutOfMemory>
    requires { map objects_in seats.now ≡ map (λ (s : Server). plans.now) seats.now }
    ensures { OnOk result (images_of found.new.items ≡ images_of found.old.items ++ images_by plans.now (map journal_in seats.now) (planned_object planned.now)) }
{
    match planned.object {
        ObjectId::Sub(sub) => add_image(found, plans, seats, planned.queue, sub),
        ObjectId::Timer(_) => Ok(()),
        ObjectId::Inbox(_) => Ok(()),
    }
}

/// Adds the last image of a subscription, if it has one.
fn add_image(
    found: &mut Vec<(SubId, ImageHead, Msg)>,
    plans: &Plans,
    seats: &[QueueSeat],
    queue: u32,
    sub: SubId,
) -> Result<(), OutOfMemory>
    requires { map objects_in seats.now ≡ map (λ (s : Server). plans.now) seats.now }
    ensures { OnOk result (images_of found.new.items ≡ images_of found.old.items ++ image_by plans.now (journal_at (map journal_in seats.now) queue) (ObjectId.Sub sub)) }
{
    let queue = queue as usize;
    if queue < seats.len() {
        match seats[queue].image(sub)? {
            Some((head, body)) => found.push((sub, head, body))?,
            None => {}
        }
    }
    Ok(())
}
