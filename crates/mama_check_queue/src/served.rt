ghost use Rattle.std.specs.Prelude.{◌≡◌, map};
ghost use Rattle.mama_rules_queue.specs.Queue.{deeds, calls_of};
ghost use Rattle.mama_rules_rounds.specs.Told.{noted};
ghost use Rattle.mama_plans.specs.Orders.{orders_in};
ghost use Rattle.mama_check_queue.specs.Served.{bridge_puts, timers_puts, last_image_of, image_given, groups_heard, watches_noted, group_given, watch_given};

use crate::objects::Objects;
use crate::puts::Puts;
use mama_dispatch::ImageRow;
use mama_event::{
    BridgeNote, CallNote, GroupNote, GroupRow, ObjectId, QueueNote, SubId, TimersNote, WatchNote,
    WatchRow,
};
use mama_group::SilentGroup;
use mama_plans::Plans;
use std::marker::Model;

/// A queue whose journal was served again, by the plans of its objects.
#[derive(Drop)]
pub struct ServedQueue<'a> {
    pub(crate) plans: &'a Plans,
    pub(crate) journal: &'a [(u32, QueueNote)],
    pub(crate) objects: Objects,
    pub(crate) puts: Puts,
    pub(crate) groups: &'a [(u32, GroupRow)],
    pub(crate) watches: &'a [(u32, WatchRow)],
    pub(crate) heard: Vec<(u32, Vec<GroupNote>, SilentGroup)>,
    pub(crate) noted: Vec<(u32, Vec<WatchNote>)>,
}

impl<'a> Model for ServedQueue<'a> {
    ghost use Rattle.mama_check_queue.specs.Served.{ServedData};

    ghost Value = { ServedData };

    ghost view = { λ s. record { objects = s.plans.now; groups = s.groups.now; watches = s.watches.now; journal = s.journal.now } };

    ghost use Rattle.mama_check_queue.specs.Kept.{IsKept};

    ghost invariant = { λ s. IsKept (record { objects = s.plans.now; groups = s.groups.now; watches = s.watches.now; journal = s.journal.now }) s.objects s.puts s.heard.items s.noted.items };
}

impl<'a> ServedQueue<'a> {
    /// What it put to the bridge, each event with the number of the entry that put it, from 0.
    pub fn to_bridge(&self) -> &[(usize, BridgeNote)]
        ensures { result.now ≡ bridge_puts self.now }
    {
        self.puts.to_bridge()
    }

    /// What it put to the timer service, in the same way.
    pub fn to_timers(&self) -> &[(usize, TimersNote)]
        ensures { result.now ≡ timers_puts self.now }
    {
        self.puts.to_timers()
    }

    /// What each of its groups heard, with the group's number.
    pub fn heard(&self) -> &[(u32, Vec<GroupNote>, SilentGroup)]
        ensures { map group_given result.now ≡ groups_heard self.now }
    {
        self.heard.as_slice()
    }

    /// What each of its watches noted, with the watch's number.
    pub fn noted(&self) -> &[(u32, Vec<WatchNote>)]
        ensures { map watch_given result.now ≡ watches_noted self.now }
    {
        self.noted.as_slice()
    }

    /// The callbacks of an object.
    pub fn calls(&self, object: &ObjectId) -> &[CallNote]
        ensures { result.now ≡ map noted (calls_of object.now (deeds (orders_in self.now.objects) self.now.journal)) }
    {
        self.objects.calls(object)
    }

    /// The last image of a subscription, lent, or `None` where it has none, as a basic one.
    pub fn image(&self, sub: SubId) -> Option<ImageRow<'_>>
        ensures { image_given sub result ≡ last_image_of self.now sub }
    {
        self.objects.image(sub)
    }
}
