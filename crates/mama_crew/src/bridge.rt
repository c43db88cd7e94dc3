ghost use Rattle.std.specs.Prelude.{◌≡◌, ◌↔◌, ◌<◌, true, [], length, map, Some, Ok, IsOk, IfOk, IfSome};
ghost use Rattle.std.specs.List.{slice_get};
ghost use mathlib.Core.List.{IsPrefix};
ghost use Rattle.mama_event.specs.Ports.{timers_port_of_bridge, queue_port_of_bridge};
ghost use Rattle.mama_script.specs.Script.{ScriptData};
ghost use Rattle.mama_lane.specs.Values.{new_port, new_taker, note_of_port};
ghost use Rattle.mama_posts_services.specs.Ports.{lanes_of, ids_of};
ghost use Rattle.mama_posts_services.specs.Bridge.{is_over};
ghost use Rattle.mama_posts_services.specs.Service.{HasEnded, IsIdle, MadeStep};
ghost use Rattle.mama_crew.specs.Hall.{AreLanesOf};
ghost use Rattle.mama_crew.specs.Seat.{IsBridgeIn};
ghost use Rattle.mama_crew.specs.New.{HasNotBridged};
ghost use Rattle.mama_crew.specs.Informed.{bridge_told};

use crate::ends::BridgeEnds;
use crate::hall::Hall;
use mama_carry::{Carried, Listener, ToBridge, ToQueue, ToTimers};
use mama_ends::{Pace, PutNote};
use mama_event::ToPublisher;
use mama_memory::OutOfMemory;
use mama_posts_services::BridgePost;
use mama_script::Script;
use std::alloc::Global;
use std::marker::Model;
use std::sync::Wait;

/// The bridge's seat in a crew.
#[derive(Drop)]
pub struct BridgeSeat<L: Listener> {
    post: BridgePost<L>,
    // Whether it has ended.
    ended: bool,
}

impl<L: Listener> Model for BridgeSeat<L> {
    ghost use Rattle.std.specs.Prelude.{◌≡◌, ◌↔◌, true};
    ghost use Rattle.mama_posts_services.specs.Bridge.{BridgePostValue, is_over};
    ghost use Rattle.mama_posts_services.specs.Service.{HasEnded};

    ghost Value = { BridgePostValue };

    ghost view = { λ s. s.post };

    ghost invariant = { λ s. (s.ended ≡ true) ↔ HasEnded (is_over s.post.service.shape) s.post.service };
}

impl<L: Listener> BridgeSeat<L> {
    // The bridge's seat, with the ends of its lanes, by which nothing was taken or put. The error is want of memory.
    pub(crate) fn new(
        alloc: Global,
        script: &Script,
        _hall: &Hall<L>,
        ends: BridgeEnds<L>,
    ) -> Result<BridgeSeat<L>, OutOfMemory>
        requires lanes { AreLanesOf script.now.shape _hall.now }
        requires taker { ends.taker ≡ new_taker _hall.now.to_bridge }
        requires publishers { ends.to_publishers.items ≡ map (λ lane. new_port lane 0) _hall.now.to_publishers }
        requires queues { ends.to_queues.items ≡ map (λ lane. new_port lane queue_port_of_bridge) _hall.now.to_queues }
        requires timers { ends.to_timers ≡ new_port _hall.now.to_timers (timers_port_of_bridge script.now.shape) }
        ensures seat { IfOk result (λ seat. IsBridgeIn script.now _hall.now seat) }
        ensures new { IfOk result (λ seat. HasNotBridged seat) }
    {
        let shape = script.shape();
        let mut post = BridgePost::new(
            alloc,
            shape,
            ends.taker,
            ends.to_publishers,
            ends.to_queues,
            ends.to_timers,
        )?;
        let ended = post.ended();
        Ok(BridgeSeat { post, ended })
    }

    // Whether it has ended.
    pub(crate) fn ended(&self) -> bool
        ensures { (result ≡ true) ↔ HasEnded (is_over self.now.service.shape) self.now.service }
    {
        self.ended
    }

    // From now on the bridge knows what the note names. It takes no memory.
    pub(crate) fn learn<Rt: Copy>(
        &mut self,
        rt: Rt,
        hall: &Hall<L>,
        told: Option<PutNote<ToBridge<Carried<L>>>>,
    )
        requires lane { self.old.service.inlet.taker.lane ≡ hall.now.to_bridge.id }
        requires note { IfSome told (λ note. note.lane ≡ hall.now.to_bridge.id) }
        ensures seat { (script : ScriptData) → IsBridgeIn script hall.now self.old → IsBridgeIn script hall.now self.new }
        ensures told { self.new ≡ bridge_told told self.old }
    {
        if let Some(note) = told {
            self.post.learn(rt, hall.to_bridge(), note);
        }
    }

    // A note of what it has put to the timer service so far. It takes no memory, and always succeeds.
    pub(crate) fn tell_timers<Rt: Copy>(
        &mut self,
        rt: Rt,
        hall: &Hall<L>,
    ) -> Result<PutNote<ToTimers<Carried<L>>>, OutOfMemory>
        requires { self.old.ports.timers.lane ≡ hall.now.to_timers.id }
        ensures ok { IsOk result }
        ensures note { IfOk result (λ note. note ≡ note_of_port self.old.ports.timers) }
        ensures same { self.new ≡ self.old }
    {
        self.post.tell_timers(rt, hall.to_timers())
    }

    // The same of the publisher of this number.
    pub(crate) fn tell_publisher<Rt: Copy>(
        &mut self,
        rt: Rt,
        hall: &Hall<L>,
        number: u32,
    ) -> Result<PutNote<ToPublisher>, OutOfMemory>
        requires lanes { lanes_of self.old.ports.publishers ≡ ids_of hall.now.to_publishers }
        requires there { number < length hall.now.to_publishers }
        ensures ok { IsOk result }
        ensures note { IfOk result (λ note. slice_get (map note_of_port self.old.ports.publishers) number ≡ Some note) }
        ensures same { self.new ≡ self.old }
    {
        self.post.tell_publisher(rt, hall.to_publishers(), number)
    }

    // The same of the queue of this number.
    pub(crate) fn tell_queue<Rt: Copy>(
        &mut self,
        rt: Rt,
        hall: &Hall<L>,
        number: u32,
    ) -> Result<PutNote<ToQueue<Carried<L>>>, OutOfMemory>
        requires lanes { lanes_of self.old.ports.queues ≡ ids_of hall.now.to_queues }
        requires there { number < length hall.now.to_queues }
        ensures ok { IsOk result }
        ensures note { IfOk result (λ note. slice_get (map note_of_port self.old.ports.queues) number ≡ Some note) }
        ensures same { self.new ≡ self.old }
    {
        self.post.tell_queue(rt, hall.to_queues(), number)
    }

    // A turn of the bridge's seat.
    pub(crate) fn turn<Rt: Wait + Copy>(
        &mut self,
        rt: Rt,
        _script: &Script,
        hall: &Hall<L>,
    ) -> Result<Pace, OutOfMemory>
        requires { IsBridgeIn _script.now hall.now self.old }
        ensures seat { IsBridgeIn _script.now hall.now self.new }
        ensures grows { IsPrefix self.old.service.journal self.new.service.journal }
        ensures waiting { result ≡ Ok Pace.Waiting → (self.new ≡ self.old) × IsIdle self.old.service }
        ensures ended { (result ≡ Ok Pace.Ended) ↔ HasEnded (is_over self.old.service.shape) self.old.service }
        ensures over { result ≡ Ok Pace.Ended → self.new ≡ self.old }
        ensures moved { result ≡ Ok Pace.Moved → MadeStep self.old.service self.new.service × (self.new.service.left ≡ []) }
    {
        let lane = hall.to_bridge();
        let publishers = hall.to_publishers();
        let queues = hall.to_queues();
        let timers = hall.to_timers();
        let pace = self.post.turn(rt, lane, publishers, queues, timers);
        let ended = self.post.ended();
        self.ended = ended;
        pace
    }

    /// The bridge with the ends of its lanes. It takes no memory.
    pub fn into_post(self) -> BridgePost<L>
        ensures { result ≡ self }
    {
        let BridgeSeat { post, ended: _ } = self;
        post
    }
}
