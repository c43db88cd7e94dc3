ghost use Rattle.std.specs.Prelude.{◌≡◌, ◌↔◌, ◌<◌, ◌≤◌, ◌+◌, [], length, map, Some, Ok, IfOk, IfSome};
ghost use Rattle.std.specs.List.{slice_get};
ghost use mathlib.Core.List.{IsPrefix};
ghost use Rattle.mama_event.specs.Ports.{queues_of, bridge_port_of_queue, timers_port_of_queue};
ghost use Rattle.mama_script.specs.Script.{ScriptData};
ghost use Rattle.mama_rules_rounds.specs.Sections.{setting_of};
ghost use Rattle.mama_plans.specs.Lists.{watches_on};
ghost use Rattle.mama_lane.specs.Values.{new_port, new_taker};
ghost use Rattle.mama_posts_clients.specs.Queue.{HasEnded, MadeStep, IsCaughtUp};
ghost use Rattle.mama_crew.specs.Hall.{AreLanesOf, IsLaneAt};
ghost use Rattle.mama_crew.specs.Seat.{IsQueueIn};
ghost use Rattle.mama_crew.specs.New.{HasNotDispatched};
ghost use Rattle.mama_crew.specs.Informed.{queue_told};

use crate::hall::Hall;
use mama_carry::{Carried, Listener, ToBridge, ToQueue, ToTimers};
use mama_ends::{Pace, Port, PutNote, Taker};
use mama_event::WatchRow;
use mama_memory::OutOfMemory;
use mama_posts_clients::QueuePost;
use mama_script::Script;
use std::alloc::Global;
use std::sync::Wait;

/// The seat of the queue of this number, with its watches and the ends of its lanes, by which nothing was taken or put. The
/// error is want of memory.
pub(crate) fn new_queue<L: Listener>(
    alloc: Global,
    script: &Script,
    _hall: &Hall<L>,
    number: u32,
    watches: Vec<(u32, WatchRow)>,
    taker: Taker<ToQueue<Carried<L>>>,
    to_bridge: Port<ToBridge<Carried<L>>>,
    to_timers: Port<ToTimers<Carried<L>>>,
) -> Result<QueuePost<L>, OutOfMemory>
    requires watches { watches.items ≡ watches_on (setting_of script.now).watches number }
    requires lanes { AreLanesOf script.now.shape _hall.now }
    requires there { number < queues_of script.now.shape }
    requires taker { slice_get (map new_taker _hall.now.to_queues) number ≡ Some taker }
    requires bridge { to_bridge ≡ new_port _hall.now.to_bridge (bridge_port_of_queue script.now.shape number) }
    requires timers { to_timers ≡ new_port _hall.now.to_timers (timers_port_of_queue script.now.shape number) }
    ensures seat { IfOk result (λ post. IsQueueIn script.now _hall.now number post) }
    ensures new { IfOk result (λ post. HasNotDispatched post) }
{
    // Its watches are apart, since the script is within its limits.
    let _shape = script.shape();
    let post = QueuePost::new(alloc, number, watches, taker, to_bridge, to_timers)?;
    Ok(post)
}

/// A turn of the seat of the queue of this number.
pub(crate) fn turn_queue<L: Listener, Rt: Wait + Copy>(
    post: &mut QueuePost<L>,
    rt: Rt,
    _script: &Script,
    hall: &Hall<L>,
    number: u32,
) -> Result<Pace, OutOfMemory>
    requires { IsQueueIn _script.now hall.now number post.old }
    ensures seat { IsQueueIn _script.now hall.now number post.new }
    ensures grows { IsPrefix post.old.served.journal post.new.served.journal }
    ensures few { length post.new.served.journal ≤ length post.old.served.journal + 1 }
    ensures waiting { result ≡ Ok Pace.Waiting → (post.new ≡ post.old) × ((post.old.left ≡ []) × (post.old.inlet.kept ≡ []) × IsCaughtUp post.old.inlet) }
    ensures ended { (result ≡ Ok Pace.Ended) ↔ HasEnded post.old }
    ensures over { result ≡ Ok Pace.Ended → post.new ≡ post.old }
    ensures moved { result ≡ Ok Pace.Moved → MadeStep post.old post.new × (post.new.left ≡ []) }
{
    let lane = hall.to_queue(number);
    let bridge = hall.to_bridge();
    let timers = hall.to_timers();
    let plans = hall.plans();
    post.turn(rt, lane, bridge, timers, plans, number)
}

/// From now on the queue of this number knows what the note names. It takes no memory.
pub(crate) fn queue_learns<L: Listener, Rt: Copy>(
    post: &mut QueuePost<L>,
    rt: Rt,
    hall: &Hall<L>,
    number: u32,
    told: Option<PutNote<ToQueue<Carried<L>>>>,
)
    requires lane { IsLaneAt hall.now.to_queues number post.old.inlet.taker.lane }
    requires note { IfSome told (λ note. IsLaneAt hall.now.to_queues number note.lane) }
    ensures seat { (script : ScriptData) → IsQueueIn script hall.now number post.old → IsQueueIn script hall.now number post.new }
    ensures told { post.new ≡ queue_told told post.old }
{
    if let Some(note) = told {
        post.learn(rt, hall.to_queue(number), note);
    }
}
