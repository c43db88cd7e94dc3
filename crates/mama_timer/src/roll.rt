ghost use Rattle.std.specs.Prelude.{◌≡◌, ◌<◌, true, false, length, replicate, slice_set, IfOk};
ghost use Rattle.std.specs.List.{list_all};

use mama_memory::OutOfMemory;
use std::alloc::Global;
use std::marker::Model;

/// Which of some numbered actors have said their last word.
#[derive(Drop)]
pub(crate) struct Roll {
    said: Vec<bool>,
    left: usize,
}

impl Model for Roll {
    ghost use Rattle.std.specs.Prelude.{◌≡◌, List, Bool, not, count_by};

    ghost Value = { List Bool };

    ghost view = { λ r. r.said.items };

    ghost invariant = { λ r. r.left ≡ count_by not r.said.items };
}

impl Roll {
    /// A roll of this many actors, none of which has said its last word.
    pub(crate) fn new(alloc: Global, count: u32) -> Result<Roll, OutOfMemory>
        ensures { IfOk result (λ r. r ≡ replicate count false) }
    {
        let left = count as usize;
        let said = vec![in alloc; false; left]?;
        Ok(Roll { said, left })
    }

    /// Notes that one has said it.
    pub(crate) fn mark(&mut self, one: u32)
        requires { one < length self.old }
        ensures { self.new ≡ slice_set self.old one true }
    {
        let one = one as usize;
        if !self.said[one] {
            self.said[one] = true;
            self.left -= 1;
        }
    }

    /// Whether all have said it.
    pub(crate) fn is_full(&self) -> bool
        ensures { result ≡ list_all (λ said. said) self.now }
    {
        self.left == 0
    }

    /// Whether all have said it, but for one, which may have said it or not.
    pub(crate) fn is_full_with(&self, one: u32) -> bool
        requires { one < length self.now }
        ensures { result ≡ list_all (λ said. said) (slice_set self.now one true) }
    {
        self.left == 0 || (self.left == 1 && !self.said[one as usize])
    }
}
