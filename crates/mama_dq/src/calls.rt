ghost use Rattle.std.specs.Prelude.{◌≡◌, ◌↔◌, [], ◌∷◌, length, IsTrue, IfSome, IsSome, MatchOption};

use mama_event::Callback;
use std::alloc::Global;
use std::collections::VecDeque;
use std::marker::Model;

/// Callbacks that wait to be made, in order.
#[derive(Debug, Drop)]
pub struct Calls {
    pub(crate) queue: VecDeque<Callback>,
}

impl Model for Calls {
    ghost use Rattle.std.specs.Prelude.{List};
    ghost use Rattle.mama_event.specs.declared.callback.Callback.{Callback};

    ghost Value = { List Callback };

    ghost view = { λ c. c.queue.items };
}

impl Calls {
    /// No callbacks. It takes no memory.
    pub fn new(alloc: Global) -> Calls
        ensures { result ≡ [] }
    {
        Calls {
            queue: VecDeque::new(alloc),
        }
    }

    /// The first callback, which leaves. None where there is none.
    pub fn take_first(&mut self) -> Option<Callback>
        ensures taken { MatchOption result (self.old ≡ []) (λ call. self.old ≡ call ∷ self.new) }
        ensures none { result ≡ None → self.new ≡ [] }
    {
        self.queue.pop_front()
    }

    /// How many there are.
    pub fn len(&self) -> usize
        ensures { result ≡ length self.now }
    {
        self.queue.len()
    }

    /// Whether there is none.
    pub fn is_empty(&self) -> bool
        ensures { IsTrue result ↔ (self.now ≡ []) }
    {
        self.queue.is_empty()
    }
}
