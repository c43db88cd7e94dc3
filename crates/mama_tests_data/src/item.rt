//! What links carry in their tests. Definitions speak of it, so that it stands in each build.

use mama_link::Cuttable;
use mama_memory::{Duplicate, OutOfMemory};

/// A message of four bytes, of which the first `left` are left, 0 to 4.
#[derive(Clone, Copy, Drop)]
pub struct Item {
    /// Which message it is.
    pub number: u32,
    /// How many of its bytes no cut took.
    pub left: u32,
}

impl Duplicate for Item {
    fn try_clone(&self) -> Result<Item, OutOfMemory> {
        Ok(*self)
    }
}

impl Cuttable for Item {
    ghost use Rattle.mama_tests_data.specs.Item.{with_left};

    ghost cut_to = { with_left };

    fn cut(&mut self, keep: u32) {
        self.left = self.left.min(keep);
    }
}
