//! What a turn of a queue makes of its watches.
ghost use Rattle.std.specs.Prelude.{◌≡◌, ℕ, List, true};
ghost use Rattle.mama_event.specs.ToQueue.{note_of};
ghost use Rattle.mama_event.specs.declared.ids.ObjectId.{ObjectId};
ghost use Rattle.mama_event.specs.declared.order.Order.{Order};
ghost use Rattle.mama_rules_queue.specs.Queue.{deeds};
ghost use Rattle.mama_rules_queue.specs.Watch.{is_missed};
ghost use Rattle.mama_dispatch.specs.Seats.{Fits};
ghost use Rattle.mama_timeout.specs.Table.{event_puts};
ghost use Rattle.mama_timeout.specs.Turns as turns;
ghost use Rattle.mama_timeout.specs.Turns.{tick_in, watches_after, wishes_after, TurnsAreWatched};

use crate::table::WatchTable;
use mama_dispatch::{Listener, ObjectId, Serving, Turn};
use mama_event::{TimerId, ToBridge, ToQueue};

/// The timer and the moment, in milliseconds, of a tick; None where the event is none.
pub fn tick_of<L>(event: &ToQueue<L>) -> Option<(TimerId, u64)>
    ensures { (tagged : L → ObjectId) → result ≡ tick_in (note_of tagged event.now) }
{
    match event {
        ToQueue::Tick {
            slot: _,
            timer,
            moment,
        } => Some((*timer, *moment)),
        ToQueue::Create {
            slot: _,
            object: _,
            make: _,
            listener: _,
        } => None,
        ToQueue::Deliver {
            slot: _,
            sub: _,
            msg: _,
        } => None,
        ToQueue::Reply {
            slot: _,
            inbox: _,
            body: _,
        } => None,
        ToQueue::Gone { slot: _, object: _ } => None,
        ToQueue::Fin => None,
    }
}

/// Whether a turn made a callback of an object that was not muted.
fn has_called<L>(turn: &Turn<L>) -> bool
    ensures { result ≡ turns.has_called turn.now }
{
    match turn {
        Turn::Called { count } => *count > 0,
        Turn::Muted { object: _ } => false,
        Turn::Ended {
            object: _,
            listener: _,
        } => false,
        Turn::Running => false,
        Turn::Finished => false,
    }
}

impl WatchTable {
    /// Notes what a turn that has just been made of its event makes of the watches, where this is the event's tick, if it is one.
    /// The answer is the wish of a watch, if one wishes. It takes no memory: there is room for the note.
    ///
    /// By [`turns_are_watched`] this is what the rules say of the queue's journal.
    pub fn behind<L: Listener, M>(
        &mut self,
        tick: Option<(TimerId, u64)>,
        turn: &Turn<L>,
        serving: &Serving<L>,
    ) -> Option<ToBridge<M>>
        requires { self.old.ready ≡ true }
        ensures notes { (orders : ObjectId → ℕ → List Order) → Fits orders serving.now.seats → self.new.watches ≡ watches_after tick turn.now (λ s. is_missed s serving.now.journal (deeds orders serving.now.journal)) self.old.watches }
        ensures wish { (tagged : M → ObjectId) (orders : ObjectId → ℕ → List Order) → Fits orders serving.now.seats → event_puts tagged result ≡ wishes_after tick turn.now (λ s. is_missed s serving.now.journal (deeds orders serving.now.journal)) self.old.watches }
    {
        match tick {
            Some((timer, moment)) => {
                if has_called(turn) {
                    self.after(timer, moment, serving)
                } else {
                    None
                }
            }
            None => None,
        }
    }
}

/// What watches note and wish for behind a turn, by its event and its answer, is what their rules say of the queue's journal.
pub fn turns_are_watched<L>()
    ensures { TurnsAreWatched L }
{}
