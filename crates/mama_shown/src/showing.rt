ghost use Rattle.std.specs.Prelude.{◌≡◌, ℕ, ◌+◌, ◌≤◌, false, true, List, length, Some, Ok, is_some, IfSome, OnOk, OnErr};
ghost use mathlib.Core.List.{IsPrefix};
ghost use Rattle.mama_event.specs.declared.to_queue.QueueNote.{QueueNote};
ghost use Rattle.mama_rules_rounds.specs.Client.{Planned};
ghost use Rattle.mama_board.specs.Values.{after_sealing, told_by};
ghost use Rattle.mama_shown.specs.Images.{shown_image, own_image, all_sets, AreShown};
ghost use Rattle.mama_crew.specs.Seat as crew;
ghost use Rattle.mama_crew.specs.Seat.{journal_in};

use crate::queries::{image_of, named_by};
use mama_board::{Board, Told};
use mama_carry::Listener;
use mama_crew::{Hall, Script, Seat};
use mama_event::{ImageHead, SubId};
use mama_grouped::journal_of;
use mama_memory::OutOfMemory;
use mama_msg::Msg;
use std::sync::Wait;

/// The board of a queue, how many entries of the queue's journal it shows, and what its seal told.
#[derive(Drop)]
pub struct Showing<Rt: Wait + Drop> {
    pub(crate) board: Board<Rt>,
    pub(crate) shown: usize,
    pub(crate) told: Option<Told>,
}

impl<Rt: Wait + Drop> Showing<Rt> {
    // Sets the image of a subscription, if it has one. The error is want of memory; then the image may be set with the next.
    fn set_image<R: Wait + Copy>(
        &mut self,
        rt: R,
        sub: SubId,
        image: Option<(ImageHead, Msg)>,
    ) -> Result<(), OutOfMemory>
        requires { self.old.board.sealed ≡ false }
        ensures shows { (objects : List Planned) (journal : List (ℕ × QueueNote)) (shown : ℕ) → image ≡ own_image objects journal sub → AreShown objects journal shown (all_sets self.old.board) → AreShown objects journal shown (all_sets self.new.board) }
        ensures set { OnOk result ((objects : List Planned) (journal : List (ℕ × QueueNote)) (shown : ℕ) → image ≡ own_image objects journal sub → AreShown objects journal shown (all_sets self.old.board) → shown_image sub (all_sets self.new.board) ≡ image) }
        ensures same { (self.new.shown ≡ self.old.shown) × (self.new.told ≡ self.old.told) }
        ensures board { (self.new.board.queue ≡ self.old.board.queue) × (self.new.board.sealed ≡ false) × IsPrefix self.old.board.sets self.new.board.sets }
    {
        match image {
            Some((head, body)) => {
                let Ok(_) = self.board.set(rt, sub, head, &body) else {
                    return Err(OutOfMemory);
                };
                Ok(())
            }
            None => Ok(()),
        }
    }

    // Sets the image of the subscription, if there is one, that the next entry names.
    fn show_named<L: Listener, R: Wait + Copy>(
        &mut self,
        rt: R,
        script: &Script,
        hall: &Hall<L>,
        seat: &Seat<L>,
        named: Option<SubId>,
    ) -> Result<(), OutOfMemory>
        requires sits { crew.IsSeatOf script.now hall.now seat.now }
        requires shows { AreShown hall.now.objects (journal_in seat.now) self.old.shown (all_sets self.old.board) }
        requires unsealed { self.old.board.sealed ≡ false }
        ensures shows { AreShown hall.now.objects (journal_in seat.now) self.new.shown (all_sets self.new.board) }
        ensures set { OnOk result (IfSome named (λ sub. shown_image sub (all_sets self.new.board) ≡ own_image hall.now.objects (journal_in seat.now) sub)) }
        ensures same { (self.new.shown ≡ self.old.shown) × (self.new.told ≡ self.old.told) }
        ensures board { (self.new.board.queue ≡ self.old.board.queue) × (self.new.board.sealed ≡ false) × IsPrefix self.old.board.sets self.new.board.sets }
    {
        match named {
            Some(sub) => {
                let image = image_of(script, hall, seat, sub)?;
                self.set_image(rt, sub, image)
            }
            None => Ok(()),
        }
    }

    /// Shows the next entry of the seat's journal, and says whether one was still to be shown. Script and hall say whose seat
    /// it is. The error is want of memory; then the entry is still to be shown.
    pub(crate) fn show_next<L: Listener, R: Wait + Copy>(
        &mut self,
        rt: R,
        script: &Script,
        hall: &Hall<L>,
        seat: &Seat<L>,
    ) -> Result<bool, OutOfMemory>
        requires sits { crew.IsSeatOf script.now hall.now seat.now }
        requires shows { AreShown hall.now.objects (journal_in seat.now) self.old.shown (all_sets self.old.board) }
        requires unsealed { self.old.board.sealed ≡ false }
        ensures shows { AreShown hall.now.objects (journal_in seat.now) self.new.shown (all_sets self.new.board) }
        ensures next { result ≡ Ok true → self.new.shown ≡ self.old.shown + 1 }
        ensures all { result ≡ Ok false → (self.new ≡ self.old) × (length (journal_in seat.now) ≡ self.old.shown) }
        ensures last { OnOk result (length (journal_in seat.now) ≤ self.old.shown + 1 → length (journal_in seat.now) ≡ self.new.shown) }
        ensures same { self.new.told ≡ self.old.told }
        ensures board { (self.new.board.queue ≡ self.old.board.queue) × (self.new.board.sealed ≡ false) × IsPrefix self.old.board.sets self.new.board.sets }
    {
        let journal = journal_of(seat);
        let next = self.shown;
        if next < journal.len() {
            let named = named_by(&journal[next].1);
            self.show_named(rt, script, hall, seat, named)?;
            self.shown = next + 1;
            return Ok(true);
        }
        Ok(false)
    }

    /// Seals the board. The error is want of memory; then nothing changed.
    pub(crate) fn seal<R: Wait + Copy>(&mut self, rt: R) -> Result<(), OutOfMemory>
        requires { self.old.board.sealed ≡ false }
        ensures ok { OnOk result ((self.new.board ≡ after_sealing self.old.board) × (self.new.told ≡ Some (told_by self.new.board))) }
        ensures err { OnErr result (self.new ≡ self.old) }
        ensures same { self.new.shown ≡ self.old.shown }
    {
        let Ok(told) = self.board.seal(rt) else {
            return Err(OutOfMemory);
        };
        self.told = Some(told);
        Ok(())
    }

    /// Whether the seal has told all sets.
    pub(crate) fn has_told(&self) -> bool
        ensures { result ≡ is_some self.now.told }
    {
        self.told.is_some()
    }
}
