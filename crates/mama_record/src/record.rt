ghost use Rattle.std.specs.Prelude.{◌≡◌, ◌↔◌, IsTrue};

use crate::compared::{
    same_calls, same_clients, same_groups, same_images, same_publishers, same_queues, same_timers,
    same_watches,
};
use mama_event::{
    BridgeNote, CallNote, GroupNote, ImageHead, ObjectId, PublisherEntry, QueueNote, SubId,
    TimersNote, WatchNote,
};
use mama_msg::Msg;
use std::marker::Model;

/// The record of a run: the moments that each client read, the journals of all other actors, the callbacks of each
/// object, the last images, and what each group heard and each watch noted. Objects and images stand in the order of the
/// log: subscriptions, timers and inboxes, each kind by client and number; groups and watches stand by number.
#[derive(Drop)]
pub struct RunRecord {
    clients: Vec<Vec<u64>>,
    publishers: Vec<Vec<PublisherEntry>>,
    bridge: Vec<(u32, BridgeNote)>,
    timers: Vec<(u32, TimersNote)>,
    queues: Vec<Vec<(u32, QueueNote)>>,
    calls: Vec<(ObjectId, Vec<CallNote>)>,
    images: Vec<(SubId, ImageHead, Msg)>,
    groups: Vec<(u32, Vec<GroupNote>)>,
    watches: Vec<(u32, Vec<WatchNote>)>,
}

impl Model for RunRecord {
    ghost use Rattle.mama_record.specs.RunData.{RunData};

    ghost Value = { RunData };

    ghost use Rattle.mama_record.specs.RunView.{run_of};

    ghost view = { run_of };
}

impl PartialEq for RunRecord {
    ghost use Rattle.std.specs.Cmp.{partial_equiv_from_equiv};
    ghost use Rattle.mama_record.specs.Equality.{same_run};
    ghost use Rattle.mama_record.specs.EqualityLaws.{same_run_equivalence};

    ghost eq = { same_run };

    ghost laws = { partial_equiv_from_equiv same_run_equivalence };

    fn eq(&self, other: &RunRecord) -> bool
        ensures value { result ≡ same_run self.now other.now }
        ensures exact { IsTrue result ↔ (self.now ≡ other.now) }
    {
        self.has_parts_of(other)
    }
}

impl Eq for RunRecord {
    ghost use Rattle.mama_record.specs.EqualityLaws.{same_run_equivalence};

    ghost laws = { same_run_equivalence };
}

impl RunRecord {
    ghost use Rattle.mama_record.specs.RunView.{moments_of, entries_of, events_of, calls_of, images_of, groups_of, watches_of};
    ghost use Rattle.mama_record.specs.Equality.{same_run};

    /// A record of these parts. It takes no memory.
    pub fn new(
        clients: Vec<Vec<u64>>,
        publishers: Vec<Vec<PublisherEntry>>,
        bridge: Vec<(u32, BridgeNote)>,
        timers: Vec<(u32, TimersNote)>,
        queues: Vec<Vec<(u32, QueueNote)>>,
        calls: Vec<(ObjectId, Vec<CallNote>)>,
        images: Vec<(SubId, ImageHead, Msg)>,
        groups: Vec<(u32, Vec<GroupNote>)>,
        watches: Vec<(u32, Vec<WatchNote>)>,
    ) -> RunRecord
        ensures { result ≡ record {
          clients = moments_of clients.items;
          publishers = entries_of publishers.items;
          bridge = bridge.items;
          timers = timers.items;
          queues = events_of queues.items;
          calls = calls_of calls.items;
          images = images_of images.items;
          groups = groups_of groups.items;
          watches = watches_of watches.items;
        } }
    {
        RunRecord {
            clients,
            publishers,
            bridge,
            timers,
            queues,
            calls,
            images,
            groups,
            watches,
        }
    }

    /// The moments that each client read.
    pub fn clients(&self) -> &[Vec<u64>]
        ensures { moments_of result.now ≡ self.now.clients }
    {
        self.clients.as_slice()
    }

    /// The journal of each publisher.
    pub fn publishers(&self) -> &[Vec<PublisherEntry>]
        ensures { entries_of result.now ≡ self.now.publishers }
    {
        self.publishers.as_slice()
    }

    /// The bridge's journal: ports and notes.
    pub fn bridge(&self) -> &[(u32, BridgeNote)]
        ensures { result.now ≡ self.now.bridge }
    {
        self.bridge.as_slice()
    }

    /// The timer service's journal: ports and notes.
    pub fn timers(&self) -> &[(u32, TimersNote)]
        ensures { result.now ≡ self.now.timers }
    {
        self.timers.as_slice()
    }

    /// The journal of each queue: ports and notes.
    pub fn queues(&self) -> &[Vec<(u32, QueueNote)>]
        ensures { events_of result.now ≡ self.now.queues }
    {
        self.queues.as_slice()
    }

    /// The callbacks of each object.
    pub fn calls(&self) -> &[(ObjectId, Vec<CallNote>)]
        ensures { calls_of result.now ≡ self.now.calls }
    {
        self.calls.as_slice()
    }

    /// The image of each subscription that had one at its end.
    pub fn images(&self) -> &[(SubId, ImageHead, Msg)]
        ensures { images_of result.now ≡ self.now.images }
    {
        self.images.as_slice()
    }

    /// What each group heard.
    pub fn groups(&self) -> &[(u32, Vec<GroupNote>)]
        ensures { groups_of result.now ≡ self.now.groups }
    {
        self.groups.as_slice()
    }

    /// What each watch noted.
    pub fn watches(&self) -> &[(u32, Vec<WatchNote>)]
        ensures { watches_of result.now ≡ self.now.watches }
    {
        self.watches.as_slice()
    }

    fn has_parts_of(&self, other: &RunRecord) -> bool
        ensures { result ≡ same_run self.now other.now }
    {
        same_clients(self.clients.as_slice(), other.clients.as_slice())
            && same_publishers(self.publishers.as_slice(), other.publishers.as_slice())
            && self.bridge == other.bridge
            && same_timers(self.timers.as_slice(), other.timers.as_slice())
            && same_queues(self.queues.as_slice(), other.queues.as_slice())
            && same_calls(self.calls.as_slice(), other.calls.as_slice())
            && same_images(self.images.as_slice(), other.images.as_slice())
            && same_groups(self.groups.as_slice(), other.groups.as_slice())
            && same_watches(self.watches.as_slice(), other.watches.as_slice())
    }
}
