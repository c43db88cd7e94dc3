ghost use Rattle.std.specs.Prelude.{◌≡◌, ◌<◌, Some, length};
ghost use Rattle.std.specs.List.{slice_get};

use mama_carry::{Carried, Listener, ToBridge, ToQueue, ToTimers};
use mama_ends::Lane;
use mama_event::ToPublisher;
use mama_plans::Plans;
use std::marker::Model;

/// What the seats of a crew share: the lanes, and the plans of the script's objects.
#[derive(Drop)]
pub struct Hall<L: Listener> {
    plans: Plans,
    to_bridge: Lane<ToBridge<Carried<L>>>,
    to_timers: Lane<ToTimers<Carried<L>>>,
    to_publishers: Vec<Lane<ToPublisher>>,
    to_queues: Vec<Lane<ToQueue<Carried<L>>>>,
}

impl<L: Listener> Model for Hall<L> {
    ghost use Rattle.mama_crew.specs.Hall.{HallValue};

    ghost Value = { HallValue };

    ghost view = { λ h. record { objects = h.plans; to_bridge = h.to_bridge; to_timers = h.to_timers; to_publishers = h.to_publishers.items; to_queues = h.to_queues.items } };
}

/// What a hall has where it is taken apart: the plans, and the lanes of publishers and queues in the order of their numbers.
#[derive(Drop)]
pub struct HallParts<L: Listener> {
    pub plans: Plans,
    pub to_bridge: Lane<ToBridge<Carried<L>>>,
    pub to_timers: Lane<ToTimers<Carried<L>>>,
    pub to_publishers: Vec<Lane<ToPublisher>>,
    pub to_queues: Vec<Lane<ToQueue<Carried<L>>>>,
}

impl<L: Listener> Hall<L> {
    // The hall with these plans and lanes.
    pub(crate) fn new(
        plans: Plans,
        to_bridge: Lane<ToBridge<Carried<L>>>,
        to_timers: Lane<ToTimers<Carried<L>>>,
        to_publishers: Vec<Lane<ToPublisher>>,
        to_queues: Vec<Lane<ToQueue<Carried<L>>>>,
    ) -> Hall<L>
        ensures { result ≡ record { objects = plans; to_bridge = to_bridge; to_timers = to_timers; to_publishers = to_publishers.items; to_queues = to_queues.items } }
    {
        Hall {
            plans,
            to_bridge,
            to_timers,
            to_publishers,
            to_queues,
        }
    }

    /// The plans of the script's objects.
    pub fn plans(&self) -> &Plans
        ensures { result.now ≡ self.now.objects }
    {
        &self.plans
    }

    // The bridge's lane.
    pub(crate) fn to_bridge(&self) -> &Lane<ToBridge<Carried<L>>>
        ensures { result.now ≡ self.now.to_bridge }
    {
        &self.to_bridge
    }

    // The timer service's lane.
    pub(crate) fn to_timers(&self) -> &Lane<ToTimers<Carried<L>>>
        ensures { result.now ≡ self.now.to_timers }
    {
        &self.to_timers
    }

    // The lanes of the publishers, in the order of their numbers.
    pub(crate) fn to_publishers(&self) -> &[Lane<ToPublisher>]
        ensures { result.now ≡ self.now.to_publishers }
    {
        self.to_publishers.as_slice()
    }

    // The lanes of the queues, in the order of their numbers.
    pub(crate) fn to_queues(&self) -> &[Lane<ToQueue<Carried<L>>>]
        ensures { result.now ≡ self.now.to_queues }
    {
        self.to_queues.as_slice()
    }

    // The lane of the publisher of this number.
    pub(crate) fn to_publisher(&self, number: u32) -> &Lane<ToPublisher>
        requires { number < length self.now.to_publishers }
        ensures { slice_get self.now.to_publishers number ≡ Some result.now }
    {
        &self.to_publishers()[number as usize]
    }

    // The lane of the queue of this number.
    pub(crate) fn to_queue(&self, number: u32) -> &Lane<ToQueue<Carried<L>>>
        requires { number < length self.now.to_queues }
        ensures { slice_get self.now.to_queues number ≡ Some result.now }
    {
        &self.to_queues()[number as usize]
    }

    /// The plans and the lanes. It takes no memory.
    pub fn into_parts(self) -> HallParts<L>
        ensures { self ≡ record { objects = result.plans; to_bridge = result.to_bridge; to_timers = result.to_timers; to_publishers = result.to_publishers.items; to_queues = result.to_queues.items } }
    {
        let Hall {
            plans,
            to_bridge,
            to_timers,
            to_publishers,
            to_queues,
        } = self;
        HallParts {
            plans,
            to_bridge,
            to_timers,
            to_publishers,
            to_queues,
        }
    }
}
