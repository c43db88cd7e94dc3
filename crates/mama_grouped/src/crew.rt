ghost use Rattle.std.specs.Prelude.{◌≡◌, [], ◌∷◌, ◌++◌, map, Ok, IfOk, IfSome, OnOk};
ghost use Rattle.std.specs.List.{All};
ghost use Rattle.std.specs.Vec.Iter.{into_iter_items};
ghost use Rattle.mama_rules_rounds.specs.Sections.{setting_of};
ghost use Rattle.mama_crew.specs.Seat as crew;
ghost use Rattle.mama_crew.specs.New as begun;
ghost use Rattle.mama_group.specs.Listener.{told};
ghost use Rattle.mama_grouped.specs.Crew.{IsCrew, HasDoneNothing};
ghost use Rattle.mama_grouped.specs.New.{IsNewSeatOf, AreRowsOf, HasRows, TakesOwn, AddsSeat, AddsHeard};
ghost use Rattle.mama_grouped.specs.Opening.{rows_of_actor, rows_given, TakesRows, AreNew};
ghost use Rattle.mama_grouped.specs.Seat.{actor_of, Hears, IsHearing};

use crate::hearing::Hearing;
use crate::seat::GroupedSeat;
use mama_carry::{Listener, Maker};
use mama_crew::{Crew, Hall, Script, Seat, open_crew};
use mama_event::GroupRow;
use mama_group::{GroupListener, GroupMaker, GroupTable};
use mama_memory::OutOfMemory;
use mama_plans::groups_by_queue;
use std::alloc::Global;
use std::vec::IntoIter;

/// A crew whose queues tell their groups.
#[derive(Drop)]
pub struct GroupedCrew<L: Listener, H: GroupListener> {
    pub hall: Hall<L>,
    /// Clients, publishers, the bridge, the timer service and queues, each kind in the order of its numbers.
    pub seats: Vec<GroupedSeat<L, H>>,
}

/// Opens the crew of a script with its groups. Nothing was done or told yet. The makers make a listener of
/// each object, and then one of each group; in which order, no clause says. The error is want of memory.
pub fn open_grouped<L: Listener, H: GroupListener, M: Maker<L>, N: GroupMaker<H>, Rt: Copy>(
    rt: Rt,
    alloc: Global,
    script: &Script,
    maker: &mut M,
    group_maker: &mut N,
) -> Result<GroupedCrew<L, H>, OutOfMemory>
    ensures crew { IfOk result (λ c. IsCrew script.now c.hall c.seats.items) }
    ensures new { IfOk result (λ c. All HasDoneNothing c.seats.items) }
{
    let crew = open_crew(rt, alloc, script, maker)?;
    let Crew { hall, seats } = crew;
    let groups = groups_by_queue(alloc, script, hall.plans())?;
    let mut lists = groups.into_iter();
    let seats = with_groups(alloc, script, &hall, group_maker, &mut lists, seats)?;
    Ok(GroupedCrew { hall, seats })
}

// The seats of a crew that has done nothing yet, each queue's with its groups, which are the next of the lists.
fn with_groups<L: Listener, H: GroupListener, N: GroupMaker<H>>(
    alloc: Global,
    script: &Script,
    _hall: &Hall<L>,
    maker: &mut N,
    lists: &mut IntoIter<Vec<(u32, GroupRow)>>,
    seats: Vec<Seat<L>>,
) -> Result<Vec<GroupedSeat<L, H>>, OutOfMemory>
    requires sits { All (crew.IsSeatOf script.now _hall.now) seats.items }
    requires new { All begun.HasDoneNothing seats.items }
    requires groups { AreRowsOf script.now seats.items (map (λ list. list.items) (into_iter_items lists.old)) }
    ensures actors { IfOk result (λ r. map actor_of r.items ≡ map crew.actor_of seats.items) }
    ensures seats { IfOk result (λ r. All (IsNewSeatOf script.now _hall.now) r.items) }
{
    let mut grouped = Vec::new(alloc);
    for seat in seats {
        add_seat(alloc, script, _hall, maker, lists, &mut grouped, seat)?;
    }
    Ok(grouped)
}

// Adds a seat that has done nothing yet, with the groups of its queue if it is a queue's: the next of the lists.
fn add_seat<L: Listener, H: GroupListener, N: GroupMaker<H>>(
    alloc: Global,
    script: &Script,
    _hall: &Hall<L>,
    maker: &mut N,
    lists: &mut IntoIter<Vec<(u32, GroupRow)>>,
    grouped: &mut Vec<GroupedSeat<L, H>>,
    seat: Seat<L>,
) -> Result<(), OutOfMemory>
    requires sits { crew.IsSeatOf script.now _hall.now seat }
    requires new { begun.HasDoneNothing seat }
    requires rows { HasRows script.now seat (map (λ list. list.items) (into_iter_items lists.old)) }
    ensures rows { OnOk result (TakesOwn script.now seat (map (λ list. list.items) (into_iter_items lists.old)) (map (λ list. list.items) (into_iter_items lists.new))) }
    ensures seats { OnOk result (AddsSeat script.now _hall.now seat grouped.old.items grouped.new.items) }
{
    let hearing = next_hearing(alloc, script, _hall, maker, &seat, lists);
    add_heard(grouped, seat, hearing)
}

// Adds a seat with its groups. It is added without where these were not found, which is said: so no seat is let go here.
fn add_heard<L: Listener, H: GroupListener>(
    grouped: &mut Vec<GroupedSeat<L, H>>,
    seat: Seat<L>,
    hearing: Result<Option<Hearing<H>>, OutOfMemory>,
) -> Result<(), OutOfMemory>
    ensures { OnOk result (AddsHeard seat hearing grouped.old.items grouped.new.items) }
{
    let found = if_found(hearing);
    add(grouped, beside(seat, found.0))?;
    found.1
}

// What was found, or nothing, and whether it was found.
fn if_found<H: GroupListener>(
    hearing: Result<Option<Hearing<H>>, OutOfMemory>,
) -> (Option<Hearing<H>>, Result<(), OutOfMemory>)
    ensures { OnOk result.1 (hearing ≡ Ok result.0) }
{
    match hearing {
        Ok(hearing) => (hearing, Ok(())),
        Err(OutOfMemory) => (None, Err(OutOfMemory)),
    }
}

// A seat with its groups beside it.
fn beside<L: Listener, H: GroupListener>(
    seat: Seat<L>,
    hearing: Option<Hearing<H>>,
) -> GroupedSeat<L, H>
    ensures { result ≡ record { seat = seat; hearing = hearing } }
{
    GroupedSeat { seat, hearing }
}

// Adds a seat.
fn add<L: Listener, H: GroupListener>(
    grouped: &mut Vec<GroupedSeat<L, H>>,
    seat: GroupedSeat<L, H>,
) -> Result<(), OutOfMemory>
    ensures { OnOk result (grouped.new.items ≡ grouped.old.items ++ seat ∷ []) }
{
    grouped.push(seat)?;
    Ok(())
}

// What a seat that has done nothing yet has of its groups: the next of the lists where it is a queue's, and nothing where it is not.
fn next_hearing<L: Listener, H: GroupListener, N: GroupMaker<H>>(
    alloc: Global,
    script: &Script,
    _hall: &Hall<L>,
    maker: &mut N,
    seat: &Seat<L>,
    lists: &mut IntoIter<Vec<(u32, GroupRow)>>,
) -> Result<Option<Hearing<H>>, OutOfMemory>
    requires new { begun.HasDoneNothing seat.now }
    requires rows { HasRows script.now seat.now (map (λ list. list.items) (into_iter_items lists.old)) }
    ensures rows { OnOk result (TakesOwn script.now seat.now (map (λ list. list.items) (into_iter_items lists.old)) (map (λ list. list.items) (into_iter_items lists.new))) }
    ensures hears { IfOk result (λ hearing. Hears script.now _hall.now seat.now hearing) }
    ensures told { IfOk result (λ hearing. IfSome hearing (λ h. h.told ≡ 0)) }
{
    let rows = rows_for(seat, lists);
    hearing_for(alloc, script, _hall, maker, seat, rows)
}

// The groups of a seat's queue: the next of the lists. None where the seat is no queue's.
fn rows_for<L: Listener>(
    seat: &Seat<L>,
    lists: &mut IntoIter<Vec<(u32, GroupRow)>>,
) -> Option<Vec<(u32, GroupRow)>>
    ensures { TakesRows (crew.actor_of seat.now) (map (λ list. list.items) (into_iter_items lists.old)) (rows_given result) (map (λ list. list.items) (into_iter_items lists.new)) }
{
    match seat {
        Seat::Queue(_, _) => lists.next(),
        Seat::Client(_, _) => None,
        Seat::Publisher(_, _) => None,
        Seat::Bridge(_) => None,
        Seat::Timers(_) => None,
    }
}

// What a seat that has done nothing yet has of its groups: new listeners where it is a queue's, and nothing where it is not.
fn hearing_for<L: Listener, H: GroupListener, N: GroupMaker<H>>(
    alloc: Global,
    script: &Script,
    _hall: &Hall<L>,
    maker: &mut N,
    _seat: &Seat<L>,
    rows: Option<Vec<(u32, GroupRow)>>,
) -> Result<Option<Hearing<H>>, OutOfMemory>
    requires new { begun.HasDoneNothing _seat.now }
    requires rows { rows_given rows ≡ rows_of_actor (setting_of script.now).groups (crew.actor_of _seat.now) }
    ensures hears { IfOk result (λ hearing. Hears script.now _hall.now _seat.now hearing) }
    ensures told { IfOk result (λ hearing. IfSome hearing (λ h. h.told ≡ 0)) }
{
    match rows {
        Some(rows) => {
            let hearing = hearing_of(alloc, script, _hall, maker, _seat, rows)?;
            Ok(Some(hearing))
        }
        None => Ok(None),
    }
}

// Groups with new listeners, which were told nothing yet.
fn hearing_of<L: Listener, H: GroupListener, N: GroupMaker<H>>(
    alloc: Global,
    script: &Script,
    _hall: &Hall<L>,
    maker: &mut N,
    _seat: &Seat<L>,
    rows: Vec<(u32, GroupRow)>,
) -> Result<Hearing<H>, OutOfMemory>
    requires new { begun.HasDoneNothing _seat.now }
    requires rows { rows.items ∷ [] ≡ rows_of_actor (setting_of script.now).groups (crew.actor_of _seat.now) }
    ensures hears { IfOk result (λ hearing. IsHearing script.now _hall.now _seat.now hearing.groups hearing.told) }
    ensures told { IfOk result (λ hearing. hearing.told ≡ 0) }
{
    // By this each group has members, and no subscription is in two.
    let _ = script.shape();
    let listeners = listeners_for(alloc, maker, rows.as_slice())?;
    let groups = GroupTable::new(alloc, rows, listeners)?;
    Ok(Hearing { groups, told: 0 })
}

// A listener of each group.
fn listeners_for<H: GroupListener, N: GroupMaker<H>>(
    alloc: Global,
    maker: &mut N,
    rows: &[(u32, GroupRow)],
) -> Result<Vec<H>, OutOfMemory>
    ensures { IfOk result (λ listeners. AreNew rows.now (map (told H.tagged H.calls H.heard) listeners.items)) }
{
    let mut listeners = Vec::with_capacity(alloc, rows.len())?;
    for row in rows {
        let listener = maker.make_group(row.0)?;
        listeners.push(listener)?;
    }
    Ok(listeners)
}
