// A seat tells another what it has put to it.
ghost use Rattle.std.specs.Prelude.{◌≡◌, ◌<◌, length, IsOk, IfOk, IfSome};
ghost use Rattle.mama_script.specs.Script.{ScriptData};
ghost use Rattle.mama_crew.specs.Hall.{IsLaneAt};
ghost use Rattle.mama_crew.specs.Seat.{IsSeatOf};
ghost use Rattle.mama_crew.specs.Placed.{HasPortsIn};
ghost use Rattle.mama_crew.specs.Informed.{AreOfOneCrew, put_to_bridge, put_to_timers, put_to_publisher, put_to_queue, informed};

use crate::hall::Hall;
use crate::queue::queue_learns;
use crate::seat::Seat;
use mama_carry::{Carried, Listener, ToBridge, ToQueue, ToTimers};
use mama_ends::PutNote;
use mama_event::ToPublisher;
use mama_memory::OutOfMemory;

impl<L: Listener> Seat<L> {
    /// Lets the other seat know all that this seat has put to it so far. So the other's next turn waits only where it has taken
    /// that. Where this seat puts nothing to the other, nothing changes. It takes no memory, and always succeeds.
    pub fn inform<Rt: Copy>(
        &mut self,
        rt: Rt,
        hall: &Hall<L>,
        other: &mut Seat<L>,
    ) -> Result<(), OutOfMemory>
        requires { AreOfOneCrew hall.now self.old other.old }
        ensures ok { IsOk result }
        ensures informed { other.new ≡ informed self.old other.old }
        ensures seat { (script : ScriptData) → IsSeatOf script hall.now other.old → IsSeatOf script hall.now other.new }
        ensures same { self.new ≡ self.old }
    {
        match other {
            Seat::Client(_, _) => Ok(()),
            Seat::Publisher(number, seat) => {
                let note = self.tell_publisher(rt, hall, *number)?;
                seat.learn(rt, hall, *number, note);
                Ok(())
            }
            Seat::Bridge(seat) => {
                let note = self.tell_bridge(rt, hall)?;
                seat.learn(rt, hall, note);
                Ok(())
            }
            Seat::Timers(seat) => {
                let note = self.tell_timers(rt, hall)?;
                seat.learn(rt, hall, note);
                Ok(())
            }
            Seat::Queue(number, post) => {
                let note = self.tell_queue(rt, hall, *number)?;
                queue_learns(post, rt, hall, *number, note);
                Ok(())
            }
        }
    }

    // A note of what it has put to the bridge so far, if it puts to the bridge. It takes no memory, and always succeeds.
    fn tell_bridge<Rt: Copy>(
        &mut self,
        rt: Rt,
        hall: &Hall<L>,
    ) -> Result<Option<PutNote<ToBridge<Carried<L>>>>, OutOfMemory>
        requires { HasPortsIn hall.now self.old }
        ensures ok { IsOk result }
        ensures note { IfOk result (λ note. note ≡ put_to_bridge self.old) }
        ensures lane { IfOk result (λ told. IfSome told (λ note. note.lane ≡ hall.now.to_bridge.id)) }
        ensures same { self.new ≡ self.old }
    {
        match self {
            Seat::Client(_, seat) => Ok(Some(seat.tell_bridge(rt, hall)?)),
            Seat::Publisher(_, seat) => Ok(Some(seat.tell_bridge(rt, hall)?)),
            Seat::Queue(_, post) => Ok(Some(post.tell_bridge(rt, hall.to_bridge())?)),
            Seat::Bridge(_) | Seat::Timers(_) => Ok(None),
        }
    }

    // The same of the timer service.
    fn tell_timers<Rt: Copy>(
        &mut self,
        rt: Rt,
        hall: &Hall<L>,
    ) -> Result<Option<PutNote<ToTimers<Carried<L>>>>, OutOfMemory>
        requires { HasPortsIn hall.now self.old }
        ensures ok { IsOk result }
        ensures note { IfOk result (λ note. note ≡ put_to_timers self.old) }
        ensures lane { IfOk result (λ told. IfSome told (λ note. note.lane ≡ hall.now.to_timers.id)) }
        ensures same { self.new ≡ self.old }
    {
        match self {
            Seat::Client(_, seat) => Ok(Some(seat.tell_timers(rt, hall)?)),
            Seat::Bridge(seat) => Ok(Some(seat.tell_timers(rt, hall)?)),
            Seat::Queue(_, post) => Ok(Some(post.tell_timers(rt, hall.to_timers())?)),
            Seat::Publisher(_, _) | Seat::Timers(_) => Ok(None),
        }
    }

    // The same of the publisher of this number.
    fn tell_publisher<Rt: Copy>(
        &mut self,
        rt: Rt,
        hall: &Hall<L>,
        number: u32,
    ) -> Result<Option<PutNote<ToPublisher>>, OutOfMemory>
        requires ports { HasPortsIn hall.now self.old }
        requires there { number < length hall.now.to_publishers }
        ensures ok { IsOk result }
        ensures note { IfOk result (λ note. note ≡ put_to_publisher number self.old) }
        ensures lane { IfOk result (λ told. IfSome told (λ note. IsLaneAt hall.now.to_publishers number note.lane)) }
        ensures same { self.new ≡ self.old }
    {
        match self {
            Seat::Bridge(seat) => Ok(Some(seat.tell_publisher(rt, hall, number)?)),
            Seat::Client(_, _) | Seat::Publisher(_, _) | Seat::Timers(_) | Seat::Queue(_, _) => Ok(
                None,
            ),
        }
    }

    // The same of the queue of this number.
    fn tell_queue<Rt: Copy>(
        &mut self,
        rt: Rt,
        hall: &Hall<L>,
        number: u32,
    ) -> Result<Option<PutNote<ToQueue<Carried<L>>>>, OutOfMemory>
        requires ports { HasPortsIn hall.now self.old }
        requires there { number < length hall.now.to_queues }
        ensures ok { IsOk result }
        ensures note { IfOk result (λ note. note ≡ put_to_queue number self.old) }
        ensures lane { IfOk result (λ told. IfSome told (λ note. IsLaneAt hall.now.to_queues number note.lane)) }
        ensures same { self.new ≡ self.old }
    {
        match self {
            Seat::Bridge(seat) => Ok(Some(seat.tell_queue(rt, hall, number)?)),
            Seat::Timers(seat) => Ok(Some(seat.tell_queue(rt, hall, number)?)),
            Seat::Client(_, _) | Seat::Publisher(_, _) | Seat::Queue(_, _) => Ok(None),
        }
    }
}
