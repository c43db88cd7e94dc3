ghost use Rattle.std.specs.Prelude.{◌≡◌, ◌⊎◌, false, IfOk, OnErr, OnOk};
ghost use Rattle.mama_board.specs.Changes.{after_shown, after_refused};
ghost use Rattle.mama_board.specs.Values.{new_board, new_reader, after_image, with_waiting, after_sealing, told_by};

use crate::change::Change;
use crate::image_reader::ImageReader;
use crate::image_set::ImageSet;
use crate::images::Images;
use crate::rule::Writer;
use crate::steps::{find_place, show, tell};
use crate::told::Told;
use mama_event::{ImageHead, SubId};
use mama_memory::OutOfMemory;
use mama_msg::Msg;
use std::alloc::Global;
use std::marker::Model;
use std::sync::Wait;

/// How many places a board has: one for its reader, and one for each [`Told`] that is neither learnt nor dropped.
pub const MOST_PLACES: usize = 32;

/// The writer's end of a board of images.
///
/// In a clause a board is a record of its queue, the sets that readers can see, in order, the sets that were refused and
/// wait to be shown with the next step, and whether it is sealed.
///
/// Its drop waits for readers that are looking. After it each look is refused, which no clause says.
pub struct Board<Rt: Wait + Drop> {
    queue: u32,
    writer: Writer,
    rt: Rt,
}

impl<Rt: Wait + Drop> Model for Board<Rt> {
    ghost use Rattle.std.specs.Prelude.{◌≡◌, drop, length};
    ghost use Rattle.left_right.specs.Sides.{view as known};
    ghost use Rattle.mama_board.specs.Images.{sets_in};
    ghost use Rattle.mama_board.specs.Values.{BoardValue};

    ghost Value = { BoardValue };

    ghost view = { λ b. record { queue = b.queue; sets = (known b.writer.desk.place).seen; waiting = sets_in (drop b.writer.behind b.writer.log.items); sealed = b.writer.desk.shown.value.sealed } };

    ghost invariant = { λ b. (length (known b.writer.desk.place).seen ≡ b.writer.desk.shown.value.version) × ((known b.writer.desk.place).sealed ≡ b.writer.desk.shown.value.sealed) };
}

impl<Rt: Wait + Drop> Drop for Board<Rt> {
    fn drop(self) {
        let Self {
            queue: _,
            writer,
            rt,
        } = self;
        drop(writer.take(&rt));
    }
}

/// The board of a queue, with no sets and not sealed, and its reader. The error is want of memory.
///
/// `queue` is the queue's number: a reader learns a [`Told`] of its own queue alone.
pub fn open_board<Rt: Wait + Copy + Drop>(
    rt: Rt,
    alloc: Global,
    queue: u32,
) -> Result<(Board<Rt>, ImageReader), OutOfMemory>
    ensures board { IfOk result (λ r. r.0 ≡ new_board queue) }
    ensures reader { IfOk result (λ r. r.1 ≡ new_reader queue) }
{
    let writer: Writer = Writer::new(alloc, Images::new(alloc), Images::new(alloc), MOST_PLACES)?;
    let board = Board { queue, writer, rt };
    let place = board.writer.factory().reader()?;
    let reader = ImageReader {
        queue,
        version: 0,
        least: 0,
        sealed: false,
        place,
    };
    Ok((board, reader))
}

impl<Rt: Wait + Drop> Board<Rt> {
    /// Replaces the image of a subscription, at one step, which shows the sets that wait too. The answer names all sets
    /// so far.
    ///
    /// The error is want of memory, whatever the cause: there was none for two copies of the body, all places are taken,
    /// or the board has 2^64 - 1 sets. Readers then see what they saw, and this set may wait to be shown with the next.
    /// So each call that is refused may leave one more set that waits, and only memory bounds how many do.
    pub fn set<R: Wait + Copy>(
        &mut self,
        rt: R,
        sub: SubId,
        head: ImageHead,
        body: &Msg,
    ) -> Result<Told, OutOfMemory>
        requires { self.old.sealed ≡ false }
        ensures ok { OnOk result (self.new ≡ after_image self.old (record { sub = sub; head = head; body = body.now })) }
        ensures told { IfOk result (λ told. told ≡ told_by self.new) }
        ensures err { OnErr result ((self.new ≡ self.old) ⊎ (self.new ≡ with_waiting self.old (record { sub = sub; head = head; body = body.now }))) }
    {
        let body = body.try_clone()?;
        self.show_change(&rt, Change::Set(ImageSet { sub, head, body }))
    }

    /// Says that no set follows, and shows the sets that wait, at one step. The answer names all sets.
    ///
    /// The error is want of memory, whatever the cause: there was none, or all places are taken. Readers then see what
    /// they saw, and the board is not sealed.
    pub fn seal<R: Wait + Copy>(&mut self, rt: R) -> Result<Told, OutOfMemory>
        requires { self.old.sealed ≡ false }
        ensures ok { OnOk result (self.new ≡ after_sealing self.old) }
        ensures told { IfOk result (λ told. told ≡ told_by self.new) }
        ensures err { OnErr result (self.new ≡ self.old) }
    {
        self.show_change(&rt, Change::Seal)
    }

    // Logs a change, and shows it at one step with the sets that wait.
    fn show_change<R: Wait>(&mut self, rt: &R, change: Change) -> Result<Told, OutOfMemory>
        requires { self.old.sealed ≡ false }
        ensures ok { OnOk result (self.new ≡ after_shown self.old change) }
        ensures told { IfOk result (λ told. told ≡ told_by self.new) }
        ensures err { OnErr result ((self.new ≡ self.old) ⊎ (self.new ≡ after_refused self.old change)) }
    {
        find_place(&self.writer)?;
        let Ok(()) = self.writer.append(change) else {
            return Err(OutOfMemory);
        };
        let Ok(()) = show(rt, &mut self.writer) else {
            return Err(OutOfMemory);
        };
        Ok(self.told(rt))
    }

    // What names the sets that readers can see.
    fn told<R: Wait>(&mut self, rt: &R) -> Told
        ensures same { self.new ≡ self.old }
        ensures told { result ≡ told_by self.old }
    {
        let place = tell(rt, &mut self.writer);
        let images = self.writer.published();
        Told {
            queue: self.queue,
            version: images.version(),
            last: images.is_sealed(),
            place,
        }
    }
}
