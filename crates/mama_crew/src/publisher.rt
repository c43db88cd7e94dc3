ghost use Rattle.std.specs.Prelude.{◌≡◌, ◌↔◌, ◌<◌, true, [], length, map, Some, Ok, IsOk, IfOk, IfSome};
ghost use Rattle.std.specs.List.{slice_get};
ghost use mathlib.Core.List.{IsPrefix};
ghost use Rattle.mama_event.specs.Ports.{publishers_of, bridge_port_of_publisher};
ghost use Rattle.mama_lane.specs.Values.{new_port, new_taker, note_of_port};
ghost use Rattle.mama_script.specs.Script.{ScriptData};
ghost use Rattle.mama_script.specs.declared.publisher.PublisherPart.{PublisherPart as PublisherPartData};
ghost use Rattle.mama_posts_services.specs.Publisher.{HasEnded, MadeStep, IsCaughtUp};
ghost use Rattle.mama_crew.specs.Hall.{AreLanesOf, IsLaneAt};
ghost use Rattle.mama_crew.specs.Seat.{IsPublisherIn};
ghost use Rattle.mama_crew.specs.New.{HasNotSent};
ghost use Rattle.mama_crew.specs.Informed.{publisher_told};

use crate::hall::Hall;
use mama_carry::{Carried, Listener, ToBridge};
use mama_ends::{Pace, Port, PutNote, Taker};
use mama_event::ToPublisher;
use mama_memory::OutOfMemory;
use mama_posts_services::PublisherPost;
use mama_script::{PublisherPart, Script};
use std::alloc::Global;
use std::marker::Model;
use std::sync::Wait;

/// A publisher's seat in a crew.
#[derive(Drop)]
pub struct PublisherSeat<L: Listener> {
    post: PublisherPost<L>,
    // Whether it has ended.
    ended: bool,
}

impl<L: Listener> Model for PublisherSeat<L> {
    ghost use Rattle.std.specs.Prelude.{◌≡◌, ◌↔◌, true};
    ghost use Rattle.mama_posts_services.specs.Publisher.{PublisherPostValue, HasEnded};

    ghost Value = { PublisherPostValue };

    ghost view = { λ s. s.post };

    ghost invariant = { λ s. (s.ended ≡ true) ↔ HasEnded s.post };
}

// The section of the publisher of this number.
fn section(script: &Script, number: u32) -> &PublisherPart
    requires { number < length script.now.publishers }
    ensures { slice_get script.now.publishers number ≡ Some result.now }
{
    &script.publishers()[number as usize]
}

impl<L: Listener> PublisherSeat<L> {
    // The seat of the publisher of this number, with the ends of its lanes, by which nothing was taken or put. The error is
    // want of memory.
    pub(crate) fn new(
        alloc: Global,
        script: &Script,
        _hall: &Hall<L>,
        number: u32,
        taker: Taker<ToPublisher>,
        port: Port<ToBridge<Carried<L>>>,
    ) -> Result<PublisherSeat<L>, OutOfMemory>
        requires lanes { AreLanesOf script.now.shape _hall.now }
        requires there { number < publishers_of script.now.shape }
        requires taker { slice_get (map new_taker _hall.now.to_publishers) number ≡ Some taker }
        requires port { port ≡ new_port _hall.now.to_bridge (bridge_port_of_publisher script.now.shape number) }
        ensures seat { IfOk result (λ seat. IsPublisherIn script.now _hall.now number seat) }
        ensures new { IfOk result (λ seat. HasNotSent seat) }
    {
        let _shape = script.shape();
        let part = section(script, number);
        let mut post = PublisherPost::new(alloc, number, part, taker, port)?;
        let ended = post.ended();
        Ok(PublisherSeat { post, ended })
    }

    // Whether it has ended.
    pub(crate) fn ended(&self) -> bool
        ensures { (result ≡ true) ↔ HasEnded self.now }
    {
        self.ended
    }

    // A note of what it has put to the bridge so far. It takes no memory, and always succeeds.
    pub(crate) fn tell_bridge<Rt: Copy>(
        &mut self,
        rt: Rt,
        hall: &Hall<L>,
    ) -> Result<PutNote<ToBridge<Carried<L>>>, OutOfMemory>
        requires { self.old.port.lane ≡ hall.now.to_bridge.id }
        ensures ok { IsOk result }
        ensures note { IfOk result (λ note. note ≡ note_of_port self.old.port) }
        ensures same { self.new ≡ self.old }
    {
        self.post.tell_bridge(rt, hall.to_bridge())
    }

    // From now on the publisher of this number knows what the note names. It takes no memory.
    pub(crate) fn learn<Rt: Copy>(
        &mut self,
        rt: Rt,
        hall: &Hall<L>,
        number: u32,
        told: Option<PutNote<ToPublisher>>,
    )
        requires lane { IsLaneAt hall.now.to_publishers number self.old.inlet.taker.lane }
        requires note { IfSome told (λ note. IsLaneAt hall.now.to_publishers number note.lane) }
        ensures seat { (script : ScriptData) → IsPublisherIn script hall.now number self.old → IsPublisherIn script hall.now number self.new }
        ensures told { self.new ≡ publisher_told told self.old }
    {
        if let Some(note) = told {
            self.post.learn(rt, hall.to_publisher(number), note);
        }
    }

    // A turn of the seat of the publisher of this number.
    pub(crate) fn turn<Rt: Wait + Copy>(
        &mut self,
        rt: Rt,
        script: &Script,
        hall: &Hall<L>,
        number: u32,
    ) -> Result<Pace, OutOfMemory>
        requires { IsPublisherIn script.now hall.now number self.old }
        ensures seat { IsPublisherIn script.now hall.now number self.new }
        ensures grows { IsPrefix self.old.progress.journal self.new.progress.journal }
        ensures waiting { result ≡ Ok Pace.Waiting → (self.new ≡ self.old) × ((self.old.progress.over ≡ true) × (self.old.left ≡ []) × IsCaughtUp self.old.inlet) }
        ensures ended { (result ≡ Ok Pace.Ended) ↔ HasEnded self.old }
        ensures over { result ≡ Ok Pace.Ended → self.new ≡ self.old }
        ensures moved { result ≡ Ok Pace.Moved → ((part : PublisherPartData) → slice_get script.now.publishers number ≡ Some part → MadeStep part self.old self.new) × (self.new.left ≡ []) }
    {
        let part = section(script, number);
        let lane = hall.to_publisher(number);
        let bridge = hall.to_bridge();
        let pace = self.post.turn(rt, lane, bridge, part, number);
        let ended = self.post.ended();
        self.ended = ended;
        pace
    }

    /// The publisher with the ends of its lanes. It takes no memory.
    pub fn into_post(self) -> PublisherPost<L>
        ensures { result ≡ self }
    {
        let PublisherSeat { post, ended: _ } = self;
        post
    }
}
