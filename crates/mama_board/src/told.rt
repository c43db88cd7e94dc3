ghost use Rattle.std.specs.Prelude.{◌≡◌};

use crate::rule::Place;
use std::marker::Model;

/// Names the sets of a board up to the one that was just shown, or all of them where it comes of a seal. A reader learns
/// it, in whatever thread.
///
/// In a clause a `Told` is a record of its queue, these sets in order, and whether they are all.
///
/// Until it is learnt or dropped it takes one of the board's 32 places.
#[derive(Drop)]
pub struct Told {
    pub(crate) queue: u32,
    pub(crate) version: u64,
    pub(crate) last: bool,
    pub(crate) place: Place,
}

impl Model for Told {
    ghost use Rattle.std.specs.Prelude.{◌≡◌, length};
    ghost use Rattle.left_right.specs.Sides.{view as known};
    ghost use Rattle.mama_board.specs.Values.{ToldValue};

    ghost Value = { ToldValue };

    ghost view = { λ t. record { queue = t.queue; sets = (known t.place.place).seen; last = t.last } };

    ghost invariant = { λ t. (t.version ≡ length (known t.place.place).seen) × (t.last ≡ (known t.place.place).sealed) };
}

impl Told {
    /// The number of the queue whose board told it.
    pub fn queue(&self) -> u32
        ensures { result ≡ self.now.queue }
    {
        self.queue
    }
}
