ghost use Rattle.std.specs.Prelude.{◌≡◌, [], ◌∷◌, ◌++◌, map, None, Ok, IfOk, OnOk};
ghost use Rattle.std.specs.List.{All, flat_map};
ghost use Rattle.mama_journal.specs.Journal.{numbers_below};
ghost use Rattle.mama_event.specs.Ports.{queues_of};
ghost use Rattle.mama_board.specs.Values.{new_board, new_reader};
ghost use Rattle.mama_grouped.specs.Crew as begun;
ghost use Rattle.mama_grouped.specs.Seat as grouped;
ghost use Rattle.mama_shown.specs.Crew.{IsCrew, HasDoneNothing};
ghost use Rattle.mama_shown.specs.New.{IsNewSeatOf, IsNewShowing, AddsSeat, AddsShown};
ghost use Rattle.mama_shown.specs.Seat.{actor_of, queue_in};

use crate::queries::queue_of;
use crate::seat::ShownSeat;
use crate::showing::Showing;
use mama_board::{ImageReader, open_board};
use mama_carry::{Listener, Maker};
use mama_crew::{Hall, Script};
use mama_grouped::{GroupListener, GroupMaker, GroupedCrew, GroupedSeat, open_grouped};
use mama_memory::OutOfMemory;
use std::alloc::Global;
use std::sync::Wait;

/// A crew whose queues tell their groups and show their images, and the readers of these.
#[derive(Drop)]
pub struct ShownCrew<L: Listener, H: GroupListener, Rt: Wait + Drop> {
    pub hall: Hall<L>,
    /// Clients, publishers, the bridge, the timer service and queues, each kind in the order of its numbers.
    pub seats: Vec<ShownSeat<L, H, Rt>>,
    /// The reader of each queue's board, in the order of the queues. That it reads the board of that queue's seat no clause says: a
    /// board is named by its queue's number.
    pub readers: Vec<ImageReader>,
}

/// Opens the crew of a script with its groups and a board for each queue. Nothing was done, told or shown yet. The makers make a
/// listener of each object, and then one of each group; in which order, no clause says. The error is want of memory.
pub fn open_shown<
    L: Listener,
    H: GroupListener,
    M: Maker<L>,
    N: GroupMaker<H>,
    Rt: Wait + Copy + Drop,
>(
    rt: Rt,
    alloc: Global,
    script: &Script,
    maker: &mut M,
    group_maker: &mut N,
) -> Result<ShownCrew<L, H, Rt>, OutOfMemory>
    ensures crew { IfOk result (λ c. IsCrew script.now c.hall c.seats.items) }
    ensures new { IfOk result (λ c. All HasDoneNothing c.seats.items) }
    ensures readers { IfOk result (λ c. c.readers.items ≡ map new_reader (numbers_below (queues_of script.now.shape))) }
{
    let GroupedCrew { hall, seats } = open_grouped(rt, alloc, script, maker, group_maker)?;
    let (seats, readers) = with_boards(rt, alloc, script, &hall, seats)?;
    Ok(ShownCrew {
        hall,
        seats,
        readers,
    })
}

// The seats of a crew that has done nothing yet, each queue's with a board, and the readers of these.
fn with_boards<L: Listener, H: GroupListener, Rt: Wait + Copy + Drop>(
    rt: Rt,
    alloc: Global,
    script: &Script,
    hall: &Hall<L>,
    seats: Vec<GroupedSeat<L, H>>,
) -> Result<(Vec<ShownSeat<L, H, Rt>>, Vec<ImageReader>), OutOfMemory>
    requires sits { All (grouped.IsSeatOf script.now hall.now) seats.items }
    requires new { All begun.HasDoneNothing seats.items }
    ensures actors { IfOk result (λ r. map actor_of r.0.items ≡ map grouped.actor_of seats.items) }
    ensures seats { IfOk result (λ r. All (IsNewSeatOf script.now hall.now) r.0.items) }
    ensures readers { IfOk result (λ r. r.1.items ≡ map new_reader (flat_map (λ s. queue_in (grouped.actor_of s)) seats.items)) }
{
    let mut shown = Vec::new(alloc);
    let mut readers = Vec::new(alloc);
    for seat in seats {
        add_seat(rt, alloc, script, hall, &mut shown, &mut readers, seat)?;
    }
    Ok((shown, readers))
}

// Adds a seat that has done nothing yet, with a board if it is a queue's, whose reader is added too.
fn add_seat<L: Listener, H: GroupListener, Rt: Wait + Copy + Drop>(
    rt: Rt,
    alloc: Global,
    _script: &Script,
    _hall: &Hall<L>,
    shown: &mut Vec<ShownSeat<L, H, Rt>>,
    readers: &mut Vec<ImageReader>,
    seat: GroupedSeat<L, H>,
) -> Result<(), OutOfMemory>
    requires sits { grouped.IsSeatOf _script.now _hall.now seat }
    requires new { begun.HasDoneNothing seat }
    ensures seats { OnOk result (AddsSeat _script.now _hall.now seat shown.old.items shown.new.items) }
    ensures readers { OnOk result (readers.new.items ≡ readers.old.items ++ map new_reader (queue_in (grouped.actor_of seat))) }
{
    let showing = showing_for(rt, alloc, &seat, readers);
    add_shown(shown, seat, showing)
}

// Adds a seat with its board. It is added without where that was not opened, which is said: so no seat is let go here.
fn add_shown<L: Listener, H: GroupListener, Rt: Wait + Drop>(
    shown: &mut Vec<ShownSeat<L, H, Rt>>,
    seat: GroupedSeat<L, H>,
    showing: Result<Option<Showing<Rt>>, OutOfMemory>,
) -> Result<(), OutOfMemory>
    ensures { OnOk result (AddsShown seat showing shown.old.items shown.new.items) }
{
    let opened = if_opened(showing);
    add(shown, beside(seat, opened.0))?;
    opened.1
}

// The board that was opened, or none, and whether it was.
fn if_opened<Rt: Wait + Drop>(
    showing: Result<Option<Showing<Rt>>, OutOfMemory>,
) -> (Option<Showing<Rt>>, Result<(), OutOfMemory>)
    ensures { OnOk result.1 (showing ≡ Ok result.0) }
{
    match showing {
        Ok(showing) => (showing, Ok(())),
        Err(OutOfMemory) => (None, Err(OutOfMemory)),
    }
}

// A seat with its board beside it.
fn beside<L: Listener, H: GroupListener, Rt: Wait + Drop>(
    seat: GroupedSeat<L, H>,
    showing: Option<Showing<Rt>>,
) -> ShownSeat<L, H, Rt>
    ensures { result ≡ record { seat = seat; showing = showing } }
{
    ShownSeat { seat, showing }
}

// Adds a seat.
fn add<L: Listener, H: GroupListener, Rt: Wait + Drop>(
    shown: &mut Vec<ShownSeat<L, H, Rt>>,
    seat: ShownSeat<L, H, Rt>,
) -> Result<(), OutOfMemory>
    ensures { OnOk result (shown.new.items ≡ shown.old.items ++ seat ∷ []) }
{
    shown.push(seat)?;
    Ok(())
}

// A board for a seat that is a queue's, whose reader is added, and none for another.
fn showing_for<L: Listener, H: GroupListener, Rt: Wait + Copy + Drop>(
    rt: Rt,
    alloc: Global,
    seat: &GroupedSeat<L, H>,
    readers: &mut Vec<ImageReader>,
) -> Result<Option<Showing<Rt>>, OutOfMemory>
    ensures showing { IfOk result (λ showing. IsNewShowing (queue_in (grouped.actor_of seat.now)) showing) }
    ensures readers { OnOk result (readers.new.items ≡ readers.old.items ++ map new_reader (queue_in (grouped.actor_of seat.now))) }
{
    match queue_of(seat.actor()) {
        Some(number) => {
            let showing = board_of(rt, alloc, number, readers)?;
            Ok(Some(showing))
        }
        None => Ok(None),
    }
}

// A board of the queue of this number on which nothing was set, whose reader is added.
fn board_of<Rt: Wait + Copy + Drop>(
    rt: Rt,
    alloc: Global,
    number: u32,
    readers: &mut Vec<ImageReader>,
) -> Result<Showing<Rt>, OutOfMemory>
    ensures board { IfOk result (λ s. s.board ≡ new_board number) }
    ensures new { IfOk result (λ s. (s.shown ≡ 0) × (s.told ≡ None)) }
    ensures readers { OnOk result (readers.new.items ≡ readers.old.items ++ new_reader number ∷ []) }
{
    let (board, reader) = open_board(rt, alloc, number)?;
    readers.push(reader)?;
    Ok(Showing {
        board,
        shown: 0,
        told: None,
    })
}
