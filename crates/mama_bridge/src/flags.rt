ghost use Rattle.std.specs.Prelude.{◌≡◌, ◌<◌, ◌==◌, ◌||◌, ◌&&◌, not, false, true, length, replicate, slice_set, IfOk};
ghost use Rattle.mama_laws_bridge.specs.Table.{all_set};

use mama_memory::OutOfMemory;
use std::alloc::Global;
use std::marker::Model;

/// A flag for each number below a count, and how many are not set.
#[derive(Drop)]
pub(crate) struct Flags {
    flags: Vec<bool>,
    left: usize,
}

impl Model for Flags {
    ghost use Rattle.std.specs.Prelude.{List, Bool, ◌≡◌, not, count_by};

    ghost Value = { List Bool };

    ghost view = { λ f. f.flags.items };

    ghost invariant = { λ f. f.left ≡ count_by (λ flag. not flag) f.flags.items };
}

/// Whether no flag is left but this one, where it is not set.
fn none_but(left: usize, flag: bool) -> bool
    ensures { result ≡ ((left == 0) || ((left == 1) && not flag)) }
{
    left == 0 || (left == 1 && !flag)
}

impl Flags {
    /// No flag is set.
    pub(crate) fn new(alloc: Global, count: usize) -> Result<Flags, OutOfMemory>
        ensures { IfOk result (λ f. f ≡ replicate count false) }
    {
        let flags = vec![in alloc; false; count]?;
        Ok(Flags { flags, left: count })
    }

    /// Whether all flags are set.
    pub(crate) fn all(&self) -> bool
        ensures { result ≡ all_set self.now }
    {
        self.left == 0
    }

    /// Whether all flags would be set with this one.
    pub(crate) fn all_with(&self, i: usize) -> bool
        requires { i < length self.now }
        ensures { result ≡ all_set (slice_set self.now i true) }
    {
        let flag = self.flags[i];
        none_but(self.left, flag)
    }

    /// Sets a flag.
    pub(crate) fn set(&mut self, i: usize)
        requires { i < length self.old }
        ensures { self.new ≡ slice_set self.old i true }
    {
        if !self.flags[i] {
            self.flags[i] = true;
            self.left -= 1;
        }
    }
}
