ghost use Rattle.std.specs.Prelude.{◌≡◌, Some, slice_index};
ghost use Rattle.mama_edge.specs.Told.{after_first};

use crate::clock::Clock;
use std::marker::Model;

/// A clock over memory, which tells its moments: it gives them in turn, then the last one again, and 0 if there are
/// none. Contracts see the moments that are left.
#[derive(Debug, Drop)]
pub struct MemoryClock {
    moments: Vec<u64>,
    place: usize,
}

impl Model for MemoryClock {
    ghost use Rattle.std.specs.Prelude.{ℕ, List, ◌-◌, ◌≤◌, drop, vec_len};

    ghost Value = { List ℕ };

    ghost view = { λ c. drop c.place c.moments.items };

    ghost invariant = { λ c. c.place ≤ vec_len c.moments - 1 };
}

impl MemoryClock {
    /// A clock that gives these moments.
    pub fn new(moments: Vec<u64>) -> MemoryClock
        ensures { result ≡ moments.items }
    {
        MemoryClock { moments, place: 0 }
    }
}

impl Clock for MemoryClock {
    ghost left = { λ c. Some c };

    fn now(&mut self) -> u64
        ensures first { result ≡ slice_index self.old 0 }
        ensures rest { self.new ≡ after_first self.old }
    {
        if self.place >= self.moments.len() {
            return 0;
        }
        let moment = self.moments[self.place];
        if self.place + 1 < self.moments.len() {
            self.place += 1;
        }
        moment
    }
}
