ghost use Rattle.std.specs.Prelude.{◌≡◌, ℕ, ◌+◌, ◌<◌, ◌≤◌, ◌++◌, [], ◌∷◌, length, map, option_to_list, IsOk, OnOk};
ghost use Rattle.mama_journal.specs.Journal.{numbers_below};
ghost use Rattle.mama_timer.specs.Putting.{create_of, create_if, tick_out, gone_out, fin_out};

use crate::ending::Leaving;
use crate::firing::Firing;
use mama_event::{Make, ObjectId, Tagged, ToQueue, ToTimers};
use mama_memory::{OutOfMemory, Outbox};

/// An event to a queue.
#[derive(Drop)]
pub struct TimerOut<L> {
    pub queue: u32,
    pub event: ToQueue<L>,
}

/// Puts the Create that an Arm asks for, with the listener that it brings. It takes no memory.
pub(crate) fn put_create<L: Tagged>(event: ToTimers<L>, slot: u32, out: &mut Outbox<TimerOut<L>>)
    requires { 0 < out.old.spare }
    ensures { out.new.items ≡ out.old.items ++ create_of event slot }
{
    if let ToTimers::Arm {
        timer,
        queue,
        listener,
        ..
    } = event
    {
        out.push_reserved(TimerOut {
            queue,
            event: ToQueue::Create {
                slot,
                object: ObjectId::Timer(timer),
                make: Make::Timer,
                listener,
            },
        });
    }
}

/// Puts that a timer is gone. It takes no memory.
pub(crate) fn put_gone<L>(leaving: Leaving, out: &mut Outbox<TimerOut<L>>)
    requires { 0 < out.old.spare }
    ensures items { out.new.items ≡ out.old.items ++ gone_out leaving ∷ [] }
    ensures spare { out.new.spare + 1 ≡ out.old.spare }
{
    out.push_reserved(TimerOut {
        queue: leaving.queue,
        event: ToQueue::Gone {
            slot: leaving.slot,
            object: ObjectId::Timer(leaving.timer),
        },
    });
}

/// Puts that a timer is gone, if one is. It takes no memory.
pub(crate) fn put_if_gone<L>(left: Option<Leaving>, out: &mut Outbox<TimerOut<L>>)
    requires { 0 < out.old.spare }
    ensures { out.new.items ≡ out.old.items ++ map gone_out (option_to_list left) }
{
    if let Some(leaving) = left {
        put_gone(leaving, out);
    }
}

/// Puts the Create that an Arm asks for, if it gets a slot. It takes no memory.
pub(crate) fn put_if_created<L: Tagged>(
    event: ToTimers<L>,
    slot: Option<u32>,
    out: &mut Outbox<TimerOut<L>>,
)
    requires { 0 < out.old.spare }
    ensures { out.new.items ≡ out.old.items ++ create_if event slot }
{
    if let Some(slot) = slot {
        put_create(event, slot, out);
    }
}

/// Puts the ticks of a moment. It takes no memory.
pub(crate) fn put_ticks<L>(moment: u64, firings: &[Firing], out: &mut Outbox<TimerOut<L>>)
    requires { length firings.now ≤ out.old.spare }
    ensures { out.new.items ≡ out.old.items ++ map (tick_out moment) firings.now }
{
    for firing in firings {
        out.push_reserved(TimerOut {
            queue: firing.queue,
            event: ToQueue::Tick {
                slot: firing.slot,
                timer: firing.timer,
                moment,
            },
        });
    }
}

/// Puts that timers are gone. It takes no memory.
fn put_all_gone<L>(leaving: &[Leaving], out: &mut Outbox<TimerOut<L>>)
    requires { length leaving.now ≤ out.old.spare }
    ensures items { out.new.items ≡ out.old.items ++ map gone_out leaving.now }
    ensures spare { out.new.spare + length leaving.now ≡ out.old.spare }
{
    for one in leaving {
        put_gone(*one, out);
    }
}

/// Puts Fin to each queue. It takes no memory.
fn put_fins<L>(queues: u32, out: &mut Outbox<TimerOut<L>>)
    requires { queues ≤ out.old.spare }
    ensures items { out.new.items ≡ out.old.items ++ map fin_out (numbers_below queues) }
    ensures spare { out.new.spare + queues ≡ out.old.spare }
{
    for queue in 0..queues {
        out.push_reserved(TimerOut {
            queue,
            event: ToQueue::Fin,
        });
    }
}

/// Puts what the ending puts. It takes no memory.
pub(crate) fn put_ending<L>(leaving: &[Leaving], queues: u32, out: &mut Outbox<TimerOut<L>>)
    requires { length leaving.now + queues ≤ out.old.spare }
    ensures { out.new.items ≡ out.old.items ++ map gone_out leaving.now ++ map fin_out (numbers_below queues) }
{
    put_all_gone(leaving, out);
    put_fins(queues, out);
}

/// Makes room for the ending's events.
pub(crate) fn reserve_ending<L>(
    leaving: &[Leaving],
    queues: u32,
    out: &mut Outbox<TimerOut<L>>,
) -> Result<(), OutOfMemory>
    ensures items { out.new.items ≡ out.old.items }
    ensures ok { OnOk result (length leaving.now + queues ≤ out.new.spare) }
{
    out.reserve(leaving.len() + queues as usize)
}
