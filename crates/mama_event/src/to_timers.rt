ghost use Rattle.std.specs.Prelude.{◌≡◌};

use crate::ids::{ObjectId, TimerId};
use crate::stream::{Stream, Tagged};
use mama_memory::OutOfMemory;

/// What the timer service takes: from clients, from queues, and from the bridge.
#[derive(Debug, Drop)]
pub enum ToTimers<L> {
    /// A client arms a timer on a queue. It ticks at the first moment that is `interval` milliseconds or more after the
    /// clock at its last tick, at first after the clock when this is taken.
    Arm {
        timer: TimerId,
        queue: u32,
        interval: u32,
        listener: L,
    },
    /// A client or a queue ends a timer.
    Disarm {
        timer: TimerId,
    },
    /// A client tells the time, in milliseconds.
    Now {
        moment: u64,
    },
    /// A client puts nothing more.
    ClientDone,
    /// A queue puts nothing more.
    Bye,
    /// The bridge puts nothing more: the ending has come.
    Fin,
}

/// A `ToTimers` as plain data.
#[derive(Clone, Copy, Debug, PartialEq, Eq)]
pub enum TimersNote {
    Arm {
        timer: TimerId,
        queue: u32,
        interval: u32,
        tag: ObjectId,
    },
    Disarm {
        timer: TimerId,
    },
    Now {
        moment: u64,
    },
    ClientDone,
    Bye,
    Fin,
}

impl<L: Tagged> Stream for ToTimers<L> {
    ghost use Rattle.mama_event.specs.Lawful.{IsLawful};
    ghost use Rattle.mama_event.specs.LawfulLaws.{IsLawful-start, IsLawful-prefix, IsLawful-end};
    ghost use Rattle.mama_event.specs.ToTimers.{note_of, is_last, fits};

    type Note = TimersNote;

    ghost noted = { note_of L.tagged };

    ghost last = { is_last };

    ghost lawful = { λ bounds port. IsLawful is_last (fits bounds) };

    ghost lawful_start = { λ bounds port. IsLawful-start is_last (fits bounds) };

    ghost lawful_prefix = { λ bounds port. IsLawful-prefix is_last (fits bounds) };

    ghost lawful_end = { λ bounds port. IsLawful-end is_last (fits bounds) };

    fn note(&self) -> Result<TimersNote, OutOfMemory>
        ensures { result ≡ Ok (note_of L.tagged self.now) }
    {
        match self {
            ToTimers::Arm {
                timer,
                queue,
                interval,
                listener,
            } => Ok(TimersNote::Arm {
                timer: *timer,
                queue: *queue,
                interval: *interval,
                tag: listener.tag(),
            }),
            ToTimers::Disarm { timer } => Ok(TimersNote::Disarm { timer: *timer }),
            ToTimers::Now { moment } => Ok(TimersNote::Now { moment: *moment }),
            ToTimers::ClientDone => Ok(TimersNote::ClientDone),
            ToTimers::Bye => Ok(TimersNote::Bye),
            ToTimers::Fin => Ok(TimersNote::Fin),
        }
    }

    fn is_last(&self) -> bool {
        matches!(self, ToTimers::ClientDone | ToTimers::Bye | ToTimers::Fin)
    }
}
