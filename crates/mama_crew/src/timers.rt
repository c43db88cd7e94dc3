ghost use Rattle.std.specs.Prelude.{◌≡◌, ◌↔◌, ◌<◌, true, [], length, map, Some, Ok, IsOk, IfOk, IfSome};
ghost use Rattle.std.specs.List.{slice_get};
ghost use mathlib.Core.List.{IsPrefix};
ghost use Rattle.mama_event.specs.Ports.{queue_port_of_timers};
ghost use Rattle.mama_script.specs.Script.{ScriptData};
ghost use Rattle.mama_lane.specs.Values.{new_port, new_taker, note_of_port};
ghost use Rattle.mama_posts_services.specs.Ports.{lanes_of, ids_of};
ghost use Rattle.mama_posts_services.specs.Timers.{is_over};
ghost use Rattle.mama_posts_services.specs.Service.{HasEnded, IsIdle, MadeStep};
ghost use Rattle.mama_crew.specs.Hall.{AreLanesOf};
ghost use Rattle.mama_crew.specs.Seat.{IsTimersIn};
ghost use Rattle.mama_crew.specs.New.{HasNotFired};
ghost use Rattle.mama_crew.specs.Informed.{timers_told};

use crate::ends::TimersEnds;
use crate::hall::Hall;
use mama_carry::{Carried, Listener, ToQueue, ToTimers};
use mama_ends::{Pace, PutNote};
use mama_memory::OutOfMemory;
use mama_posts_services::TimersPost;
use mama_script::Script;
use std::alloc::Global;
use std::marker::Model;
use std::sync::Wait;

/// The timer service's seat in a crew.
#[derive(Drop)]
pub struct TimersSeat<L: Listener> {
    post: TimersPost<L>,
    // Whether it has ended.
    ended: bool,
}

impl<L: Listener> Model for TimersSeat<L> {
    ghost use Rattle.std.specs.Prelude.{◌≡◌, ◌↔◌, true};
    ghost use Rattle.mama_posts_services.specs.Timers.{TimersPostValue, is_over};
    ghost use Rattle.mama_posts_services.specs.Service.{HasEnded};

    ghost Value = { TimersPostValue };

    ghost view = { λ s. s.post };

    ghost invariant = { λ s. (s.ended ≡ true) ↔ HasEnded (is_over s.post.service.shape) s.post.service };
}

impl<L: Listener> TimersSeat<L> {
    // The timer service's seat, with the ends of its lanes, by which nothing was taken or put. The error is want of memory.
    pub(crate) fn new(
        alloc: Global,
        script: &Script,
        _hall: &Hall<L>,
        ends: TimersEnds<L>,
    ) -> Result<TimersSeat<L>, OutOfMemory>
        requires lanes { AreLanesOf script.now.shape _hall.now }
        requires taker { ends.taker ≡ new_taker _hall.now.to_timers }
        requires queues { ends.to_queues.items ≡ map (λ lane. new_port lane queue_port_of_timers) _hall.now.to_queues }
        ensures seat { IfOk result (λ seat. IsTimersIn script.now _hall.now seat) }
        ensures new { IfOk result (λ seat. HasNotFired seat) }
    {
        let shape = script.shape();
        let mut post = TimersPost::new(alloc, shape, ends.taker, ends.to_queues)?;
        let ended = post.ended();
        Ok(TimersSeat { post, ended })
    }

    // Whether it has ended.
    pub(crate) fn ended(&self) -> bool
        ensures { (result ≡ true) ↔ HasEnded (is_over self.now.service.shape) self.now.service }
    {
        self.ended
    }

    // From now on the service knows what the note names. It takes no memory.
    pub(crate) fn learn<Rt: Copy>(
        &mut self,
        rt: Rt,
        hall: &Hall<L>,
        told: Option<PutNote<ToTimers<Carried<L>>>>,
    )
        requires lane { self.old.service.inlet.taker.lane ≡ hall.now.to_timers.id }
        requires note { IfSome told (λ note. note.lane ≡ hall.now.to_timers.id) }
        ensures seat { (script : ScriptData) → IsTimersIn script hall.now self.old → IsTimersIn script hall.now self.new }
        ensures told { self.new ≡ timers_told told self.old }
    {
        if let Some(note) = told {
            self.post.learn(rt, hall.to_timers(), note);
        }
    }

    // A note of what it has put to the queue of this number so far. It takes no memory, and always succeeds.
    pub(crate) fn tell_queue<Rt: Copy>(
        &mut self,
        rt: Rt,
        hall: &Hall<L>,
        number: u32,
    ) -> Result<PutNote<ToQueue<Carried<L>>>, OutOfMemory>
        requires lanes { lanes_of self.old.queues ≡ ids_of hall.now.to_queues }
        requires there { number < length hall.now.to_queues }
        ensures ok { IsOk result }
        ensures note { IfOk result (λ note. slice_get (map note_of_port self.old.queues) number ≡ Some note) }
        ensures same { self.new ≡ self.old }
    {
        self.post.tell_queue(rt, hall.to_queues(), number)
    }

    // A turn of the timer service's seat.
    pub(crate) fn turn<Rt: Wait + Copy>(
        &mut self,
        rt: Rt,
        _script: &Script,
        hall: &Hall<L>,
    ) -> Result<Pace, OutOfMemory>
        requires { IsTimersIn _script.now hall.now self.old }
        ensures seat { IsTimersIn _script.now hall.now self.new }
        ensures grows { IsPrefix self.old.service.journal self.new.service.journal }
        ensures waiting { result ≡ Ok Pace.Waiting → (self.new ≡ self.old) × IsIdle self.old.service }
        ensures ended { (result ≡ Ok Pace.Ended) ↔ HasEnded (is_over self.old.service.shape) self.old.service }
        ensures over { result ≡ Ok Pace.Ended → self.new ≡ self.old }
        ensures moved { result ≡ Ok Pace.Moved → MadeStep self.old.service self.new.service × (self.new.service.left ≡ []) }
    {
        let lane = hall.to_timers();
        let queues = hall.to_queues();
        let pace = self.post.turn(rt, lane, queues);
        let ended = self.post.ended();
        self.ended = ended;
        pace
    }

    /// The timer service with the ends of its lanes. It takes no memory.
    pub fn into_post(self) -> TimersPost<L>
        ensures { result ≡ self }
    {
        let TimersSeat { post, ended: _ } = self;
        post
    }
}
