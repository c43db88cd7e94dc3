ghost use Rattle.std.specs.Prelude.{◌≡◌, ◌+◌, ◌^◌, ◌<◌, map, length, true, IfSome};
ghost use Rattle.mama_event.specs.Ports.{clients_of, publishers_of, queues_of};
ghost use Rattle.mama_rules_rounds.specs.World as world;
ghost use Rattle.mama_drive.specs.Marks.{IsNextOf};
ghost use Rattle.mama_drive.specs.Scene.{world_in, lane_in, waiting_in, AreTold};

use crate::bridge_seat::BridgeSeat;
use crate::marks::{is_none_marked, next_marked};
use crate::timers_seat::TimersSeat;
use mama_event::Shape;
use mama_plans::Plans;
use mama_script::Script;
use mama_seats::{ClientSeat, PublisherSeat, QueueSeat};
use std::alloc::Global;
use std::collections::BTreeSet;
use std::marker::Model;
use std::sync::Arc;

/// All actors of a script on one thread, with what waits on the lanes between them. The marks are the numbers of the
/// publishers, and of the queues, on whose lanes an event may wait: a pass looks at none but those.
#[derive(Drop)]
pub struct System<'a> {
    pub(crate) alloc: Global,
    pub(crate) shape: &'a Shape,
    pub(crate) plans: Arc<Plans>,
    pub(crate) clients: Vec<ClientSeat<'a>>,
    pub(crate) publishers: Vec<PublisherSeat<'a>>,
    pub(crate) queues: Vec<QueueSeat>,
    pub(crate) bridge: BridgeSeat,
    pub(crate) timers: TimersSeat,
    pub(crate) marked_publishers: BTreeSet<u32>,
    pub(crate) marked_queues: BTreeSet<u32>,
    // The script, which names the groups and the watches.
    pub(crate) script: &'a Script,
    // Whether the groups of all queues surely were told all that was done.
    pub(crate) ready: bool,
}

impl<'a> Model for System<'a> {
    ghost use Rattle.std.specs.Arc.{arc_value};
    ghost use Rattle.mama_rules_rounds.specs.Sections.{groups_from, watches_from};
    ghost use Rattle.mama_drive.specs.Scene.{Scene, IsSystem};

    ghost Value = { Scene };

    ghost view = { λ s. record { shape = s.shape.now; objects = arc_value s.plans; groups = groups_from (arc_value s.plans) 0 s.script.now.groups; watches = watches_from (arc_value s.plans) 0 s.script.now.watches; clients = s.clients.items; senders = s.publishers.items; servers = s.queues.items; bridge = s.bridge.journal; timers = s.timers.journal; to_bridge = s.bridge.lane; to_timers = s.timers.lane; ready = s.ready } };

    ghost invariant = { λ s. IsSystem s.shape.now s.bridge.shape s.timers.shape (arc_value s.plans) (groups_from (arc_value s.plans) 0 s.script.now.groups) (watches_from (arc_value s.plans) 0 s.script.now.watches) s.clients.items s.publishers.items s.queues.items s.marked_publishers s.marked_queues s.ready };
}

impl<'a> System<'a> {
    /// How many clients there are.
    pub(crate) fn client_count(&self) -> u32
        ensures number { result ≡ length self.now.clients }
        ensures shape { result ≡ clients_of self.now.shape }
    {
        self.shape.clients
    }

    /// How many publishers there are.
    pub(crate) fn publisher_count(&self) -> u32
        ensures number { result ≡ length self.now.senders }
        ensures shape { result ≡ publishers_of self.now.shape }
    {
        publishers_in(self.shape)
    }

    /// How many queues there are.
    pub(crate) fn queue_count(&self) -> u32
        ensures number { result ≡ length self.now.servers }
        ensures shape { result ≡ queues_of self.now.shape }
    {
        self.shape.bounds.queues
    }

    /// Marks that the groups of all queues were told all that was done.
    pub(crate) fn make_ready(&mut self)
        requires { AreTold self.old }
        ensures { self.new ≡ record self.old { ready = true } }
    {
        self.ready = true;
    }

    /// The next publisher from this number on for whom an event may wait.
    pub(crate) fn next_publisher(&self, from: u32) -> Option<u32>
        ensures next { IsNextOf (map lane_in self.now.senders) from result }
        ensures within { IfSome result (λ next. (next < publishers_of self.now.shape) × (next + 1 < 2 ^ 32)) }
    {
        let count = self.publisher_count();
        next_marked(&self.marked_publishers, from, count)
    }

    /// The next queue from this number on for which an event may wait.
    pub(crate) fn next_queue(&self, from: u32) -> Option<u32>
        ensures next { IsNextOf (map waiting_in self.now.servers) from result }
        ensures within { IfSome result (λ next. (next < queues_of self.now.shape) × (next + 1 < 2 ^ 32)) }
    {
        let count = self.queue_count();
        next_marked(&self.marked_queues, from, count)
    }

    /// Whether nothing waits on any lane.
    pub(crate) fn is_quiet(&self) -> bool
        ensures { result ≡ true → world.IsQuiet (world_in self.now) }
    {
        if !is_none_marked(&self.marked_publishers) {
            return false;
        }
        if !is_none_marked(&self.marked_queues) {
            return false;
        }
        if !self.bridge.is_quiet() {
            return false;
        }
        self.timers.is_quiet()
    }
}

/// The number of publishers.
pub(crate) fn publishers_in(shape: &Shape) -> u32
    requires { publishers_of shape.now < 2 ^ 32 }
    ensures { result ≡ publishers_of shape.now }
{
    shape.publisher_topics.len() as u32
}
