ghost use Rattle.std.specs.Prelude.{◌≡◌, ℕ, true, List, [], ◌∷◌, ◌++◌, map, IfSome, IfOk, OnOk};
ghost use Rattle.std.specs.List.{All, flat_map};
ghost use Rattle.mama_event.specs.declared.to_queue.QueueNote.{QueueNote};
ghost use Rattle.mama_event.specs.Listener.{told};
ghost use Rattle.mama_group.specs.Listener as groups;
ghost use Rattle.mama_record.specs.RunView.{images_of};
ghost use Rattle.mama_rules_rounds.specs.Client.{Planned};
ghost use Rattle.mama_rules_rounds.specs.Sections.{setting_of};
ghost use Rattle.mama_rules_rounds.specs.Told.{last_image};
ghost use Rattle.mama_rules_legal.specs.Legal.{IsLegal};
ghost use Rattle.mama_crew.specs.Journals.{AreJournalsOf, events_in};
ghost use Rattle.mama_close.specs.Back.{AreBack};
ghost use Rattle.mama_grouped.specs.Back.{HaveHeard};
ghost use Rattle.mama_grouped.specs.Crew as bare;
ghost use Rattle.mama_grouped.specs.Seat as grouped;
ghost use Rattle.mama_shown.specs.Crew.{IsCrew};
ghost use Rattle.mama_shown.specs.Seat.{HasEnded};
ghost use Rattle.mama_shown.specs.Last.{TellsLast, HasLast, ReadsLast};

use crate::images::all_images;
use crate::seat::ShownSeat;
use crate::showing::Showing;
use mama_board::{Board, ImageReader, Told};
use mama_carry::Listener;
use mama_close::close_imaged;
use mama_crew::{Hall, Script};
use mama_event::{ImageHead, ObjectId, SubId};
use mama_grouped::{GroupListener, GroupedSeat, Heard, listeners_in_order};
use mama_memory::OutOfMemory;
use mama_msg::Msg;
use mama_record::RunRecord;
use std::alloc::Global;
use std::sync::Wait;
use std::vec::IntoIter;

/// Closes a crew of this script whose seats have all ended: the record of its run, the listeners of the objects, each with its
/// object, in the order of the objects, and those of the groups, each with its number, in the order of the groups.
///
/// The record has the journals of the seats, and is legal, whichever thread turned which seat when. Each object's listener comes
/// back once; it has counted the object's callbacks in the record, and what it has heard, where it tells that, is they. So it is
/// with each group's listener and what the group heard in the record.
///
/// The readers are those of the queues' boards, in the order of the queues. Each learns what the seal of its board told, and the
/// record's last images are what they then read, which no clause tells.
///
/// The error is want of memory; then the crew is dropped. It is also the answer where a reader is not of the queue of its place,
/// or where an object, its listener or that of a group did not come to the queue of its plan, which no crew has.
pub fn close_shown<L: Listener, H: GroupListener, Rt: Wait + Drop, R: Wait + Copy>(
    rt: R,
    alloc: Global,
    script: &Script,
    hall: Hall<L>,
    seats: Vec<ShownSeat<L, H, Rt>>,
    readers: Vec<ImageReader>,
) -> Result<(RunRecord, Vec<(ObjectId, L)>, Vec<(u32, H)>), OutOfMemory>
    requires crew { IsCrew script.now hall seats.items }
    requires ended { All HasEnded seats.items }
    ensures journals { IfOk result (λ r. AreJournalsOf (map (λ s. s.seat.seat) seats.items) r.0) }
    ensures legal { IfOk result (λ r. IsLegal script.now r.0) }
    ensures listeners { IfOk result (λ r. AreBack (told L.tagged L.calls L.heard L.given L.plan) r.0.calls r.1.items) }
    ensures groups { IfOk result (λ r. HaveHeard (groups.told H.tagged H.calls H.heard) r.0.groups r.2.items) }
{
    let Learnt {
        seats,
        mut readers,
        boards,
    } = Learnt::of(alloc, seats, readers)?;
    let images = all_images(rt, alloc, hall.plans(), &mut readers)?;
    // After a board's drop each look is refused.
    drop(boards);
    close_grouped(rt, alloc, script, hall, seats, images)
}

/// Closes a crew of this script whose seats have all ended, where these are the last images, which the journals of the queues give:
/// the record of its run, the listeners of the objects, each with its object, in the order of the objects, and those of the groups,
/// each with its number, in the order of the groups. No image is taken from the seats.
///
/// The record has the journals of the seats, and is legal, whichever thread turned which seat when. Each object's listener
/// comes back once; it has counted the object's callbacks in the record, and what it has heard, where it tells that, is they.
/// So it is with each group's listener and what the group heard in the record.
///
/// The error is want of memory; then the crew is dropped. It is also the answer where an object or its listener did not come to
/// its queue, or twice, or where a group's listener did not come, which no crew has.
pub fn close_grouped<L: Listener, H: GroupListener, R: Wait + Copy>(
    rt: R,
    alloc: Global,
    script: &Script,
    hall: Hall<L>,
    seats: Vec<GroupedSeat<L, H>>,
    images: Vec<(SubId, ImageHead, Msg)>,
) -> Result<(RunRecord, Vec<(ObjectId, L)>, Vec<(u32, H)>), OutOfMemory>
    requires crew { bare.IsCrew script.now hall seats.items }
    requires ended { All grouped.HasEnded seats.items }
    requires images { images_of images.items ≡ flat_map (last_image (setting_of script.now) (flat_map events_in (map (λ s. s.seat) seats.items))) (setting_of script.now).objects }
    ensures journals { IfOk result (λ r. AreJournalsOf (map (λ s. s.seat) seats.items) r.0) }
    ensures legal { IfOk result (λ r. IsLegal script.now r.0) }
    ensures images { IfOk result (λ r. r.0.images ≡ images_of images.items) }
    ensures listeners { IfOk result (λ r. AreBack (told L.tagged L.calls L.heard L.given L.plan) r.0.calls r.1.items) }
    ensures groups { IfOk result (λ r. HaveHeard (groups.told H.tagged H.calls H.heard) r.0.groups r.2.items) }
{
    // By this there are few groups.
    let _ = script.shape();
    let count = script.groups().len();
    let heard = Heard::of(alloc, count, seats)?;
    let Heard {
        seats,
        lists,
        listeners,
    } = heard;
    let listeners = listeners_in_order(alloc, listeners)?;
    let (run, back) = close_imaged(rt, alloc, script, hall, seats, lists, images)?;
    Ok((run, back, listeners))
}

// The seats without their boards, the boards, and their readers, which have learnt of the seals.
#[derive(Drop)]
struct Learnt<L: Listener, H: GroupListener, Rt: Wait + Drop> {
    seats: Vec<GroupedSeat<L, H>>,
    readers: Vec<ImageReader>,
    boards: Vec<Board<Rt>>,
}

impl<L: Listener, H: GroupListener, Rt: Wait + Drop> Learnt<L, H, Rt> {
    // Takes the boards from the seats, and lets the readers learn what their seals told.
    fn of(
        alloc: Global,
        seats: Vec<ShownSeat<L, H, Rt>>,
        readers: Vec<ImageReader>,
    ) -> Result<Learnt<L, H, Rt>, OutOfMemory>
        ensures seats { IfOk result (λ r. r.seats.items ≡ map (λ s. s.seat) seats.items) }
        ensures readers { IfOk result (λ r. (objects : List Planned) (journals : List (List (ℕ × QueueNote))) → All (HasLast objects journals) seats.items → All (ReadsLast objects journals) r.readers.items) }
    {
        let mut unlearnt = readers.into_iter();
        let alone = Vec::new(alloc);
        let readers = Vec::new(alloc);
        let boards = Vec::new(alloc);
        let mut learnt = Learnt {
            seats: alone,
            readers,
            boards,
        };
        for seat in seats {
            learnt.add(seat, &mut unlearnt)?;
        }
        Ok(learnt)
    }

    // Adds a seat, and if it has a board, that and the next reader, which learns of the seal.
    fn add(
        &mut self,
        seat: ShownSeat<L, H, Rt>,
        readers: &mut IntoIter<ImageReader>,
    ) -> Result<(), OutOfMemory>
        ensures seats { OnOk result (self.new.seats.items ≡ self.old.seats.items ++ seat.seat ∷ []) }
        ensures readers { OnOk result ((objects : List Planned) (journals : List (List (ℕ × QueueNote))) → HasLast objects journals seat → All (ReadsLast objects journals) self.old.readers.items → All (ReadsLast objects journals) self.new.readers.items) }
    {
        let ShownSeat { seat, showing } = seat;
        self.seats.push(seat)?;
        match showing {
            Some(showing) => self.add_board(showing, readers.next()),
            None => Ok(()),
        }
    }

    // Adds a board and its reader, which learns of the seal.
    fn add_board(
        &mut self,
        showing: Showing<Rt>,
        reader: Option<ImageReader>,
    ) -> Result<(), OutOfMemory>
        ensures seats { self.new.seats.items ≡ self.old.seats.items }
        ensures readers { OnOk result ((objects : List Planned) (journals : List (List (ℕ × QueueNote))) → IfSome showing.told (λ told. TellsLast objects journals told) → All (ReadsLast objects journals) self.old.readers.items → All (ReadsLast objects journals) self.new.readers.items) }
    {
        let Showing {
            board,
            shown: _,
            told,
        } = showing;
        self.boards.push(board)?;
        let reader = learnt_by(reader, told)?;
        self.readers.push(reader)?;
        Ok(())
    }
}

// The reader after it learnt what was told, if both are there and of one queue.
fn learnt_by(reader: Option<ImageReader>, told: Option<Told>) -> Result<ImageReader, OutOfMemory>
    ensures { IfOk result (λ r. (objects : List Planned) (journals : List (List (ℕ × QueueNote))) → IfSome told (λ t. TellsLast objects journals t) → ReadsLast objects journals r) }
{
    let Some(mut reader) = reader else {
        return Err(OutOfMemory);
    };
    let Some(told) = told else {
        return Err(OutOfMemory);
    };
    if !are_of_one_queue(&told, &reader) {
        return Err(OutOfMemory);
    }
    reader.learn(told);
    Ok(reader)
}

fn are_of_one_queue(told: &Told, reader: &ImageReader) -> bool
    ensures { result ≡ true → told.now.queue ≡ reader.now.queue }
{
    told.queue() == reader.queue()
}
