ghost use Rattle.std.specs.Prelude.{◌≡◌, ◌≤◌, length, IfOk, OnErr, OnOk};
ghost use Rattle.std.specs.Option.{option_map};
ghost use Rattle.mama_board.specs.Rows.{row};
ghost use Rattle.mama_board.specs.Values.{HasLooked, after_learn};

use crate::rule::Place;
use crate::steps::{look_head, look_image};
use crate::told::Told;
use core::mem::replace_with;
use mama_event::{ImageHead, SubId};
use mama_memory::OutOfMemory;
use mama_msg::Msg;
use std::marker::Model;

/// Reads the images of a board, in whatever thread, and never waits for its writer.
///
/// In a clause a reader is a record of its queue, the sets that it has seen in order, whether it learnt of the seal, and
/// `least`: no look answers of fewer sets. Sets of which it was not told are the board's own by the rule of the board, and
/// no clause says it.
///
/// No clause says that a look succeeds, nor that `least` is never above the number of sets that the board shows: in
/// fact it never is for a `Told` of the reader's own board. Where a reader learns the `Told` of another board with the
/// same queue number it may stay at its own, read the other from then on, or, at a seal of fewer sets than it saw, have
/// each look refused.
#[derive(Drop)]
pub struct ImageReader {
    pub(crate) queue: u32,
    pub(crate) version: u64,
    pub(crate) least: u64,
    pub(crate) sealed: bool,
    pub(crate) place: Place,
}

impl Model for ImageReader {
    ghost use Rattle.std.specs.Prelude.{◌≡◌, ◌≤◌, true, length, take};
    ghost use Rattle.left_right.specs.Sides.{view as known};
    ghost use Rattle.mama_board.specs.Values.{ReaderValue};

    ghost Value = { ReaderValue };

    ghost view = { λ r. record { queue = r.queue; seen = take r.version (known r.place.place).seen; sealed = r.sealed; least = r.least } };

    ghost invariant = { λ r. (r.version ≤ r.least) × (r.version ≤ length (known r.place.place).seen) × (r.sealed ≡ (known r.place.place).sealed) × (r.sealed ≡ true → r.version ≡ length (known r.place.place).seen) };
}

impl ImageReader {
    /// The number of the queue whose images it reads.
    pub fn queue(&self) -> u32
        ensures { result ≡ self.now.queue }
    {
        self.queue
    }

    /// From now on no look answers of fewer sets than `told` names, nor than were seen before; where it comes of a seal,
    /// each look answers of just the sets that it names. It takes no memory.
    pub fn learn(&mut self, told: Told)
        requires { told.queue ≡ self.old.queue }
        ensures learnt { self.new ≡ after_learn self.old told }
        ensures seen { length self.old.seen ≤ self.old.least }
    {
        let Told {
            queue: _,
            version,
            last,
            place,
        } = told;
        if last || (!self.sealed && self.least <= version) {
            self.version = version;
            self.place = place;
        }
        self.sealed = self.sealed || last;
        self.least = self.least.max(version);
    }

    /// The head of a subscription's image after the sets that are then seen; none where no set of these names it.
    ///
    /// The error is want of memory, whatever the cause: the board is gone, or shows fewer sets than `least`. The reader
    /// is then as before.
    pub fn fixed<Rt: Copy>(&mut self, _rt: Rt, sub: SubId) -> Result<Option<ImageHead>, OutOfMemory>
        ensures ok { IfOk result (λ head. head ≡ option_map (λ r. r.head) (row sub self.new.seen)) }
        ensures look { OnOk result (HasLooked self.old self.new) }
        ensures err { OnErr result (self.new ≡ self.old) }
    {
        if self.version < self.least {
            return Err(OutOfMemory);
        }
        let (version, head) = replace_with(&mut self.place, sub, look_head)?;
        self.version = version;
        self.least = version;
        Ok(head)
    }

    /// The head of a subscription's image and a copy of its body, after the sets that are then seen; none where no set of
    /// these names it.
    ///
    /// The error is want of memory, whatever the cause: there was none for the copy, the board is gone, or shows fewer
    /// sets than `least`. The reader is then as before.
    pub fn read<Rt: Copy>(
        &mut self,
        _rt: Rt,
        sub: SubId,
    ) -> Result<Option<(ImageHead, Msg)>, OutOfMemory>
        ensures ok { IfOk result (λ image. image ≡ option_map (λ r. (r.head, r.body)) (row sub self.new.seen)) }
        ensures look { OnOk result (HasLooked self.old self.new) }
        ensures err { OnErr result (self.new ≡ self.old) }
    {
        if self.version < self.least {
            return Err(OutOfMemory);
        }
        let (version, image) = replace_with(&mut self.place, sub, look_image)?;
        self.version = version;
        self.least = version;
        Ok(image)
    }
}
