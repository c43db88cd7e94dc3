ghost use Rattle.std.specs.Prelude.{◌≡◌, ◌<◌, ◌≤◌, ◌++◌, ℕ, suc, true, List, [], length, map, Some, vec_len, vec_capacity, OnOk, IfOk};
ghost use Rattle.std.specs.List.{flat_map, AllByRecursion};
ghost use Rattle.indexmap.specs.IndexMap.{get};
ghost use Rattle.mama_event.specs.Object.{same_timer};
ghost use Rattle.mama_event.specs.declared.ids.ObjectId.{ObjectId};
ghost use Rattle.mama_event.specs.declared.ids.SubId.{SubId};
ghost use Rattle.mama_event.specs.declared.order.Order.{Order};
ghost use Rattle.mama_rules_queue.specs.Queue.{deeds};
ghost use Rattle.mama_rules_queue.specs.Watch.{is_missed, watch_note, wish_in};
ghost use Rattle.mama_dispatch.specs.Seats.{Fits};
ghost use Rattle.mama_timeout.specs.Kept.{watch_of};
ghost use Rattle.mama_timeout.specs.Table.{AreApart, TableData, next_notes, note_list, new_watch, part_of, ticked, tick_wishes, counted_at, count_wishes, wish_puts, event_puts, first_sub};

use indexmap::IndexMap;
use mama_dispatch::{Listener, ObjectId, ObjectState, Serving};
use mama_event::{SubId, TimerId, ToBridge, WatchNote, WatchRow};
use mama_memory::OutOfMemory;
use std::alloc::Global;
use std::marker::Model;

/// A watch of a table. It notes each tick that counts, up to one more than its retries.
#[derive(Drop)]
struct Watch {
    number: u32,
    row: WatchRow,
    notes: Vec<WatchNote>,
}

/// The watches of a queue. Each is found by its timer.
#[derive(Drop)]
pub struct WatchTable {
    watches: Vec<Watch>,
    places: IndexMap<TimerId, usize>,
    // The place of the watch whose room was used since the last `prepare`, if there is one.
    used: Option<usize>,
    // Nothing, with room for what each watch gives up.
    room: Vec<(u32, Vec<WatchNote>)>,
}

/// Whether a subscription is live on a queue, is not muted, and has no image.
fn is_missed_by<L: Listener>(serving: &Serving<L>, sub: SubId) -> bool
    ensures { (orders : ObjectId → ℕ → List Order) → Fits orders serving.now.seats → result ≡ is_missed sub serving.now.journal (deeds orders serving.now.journal) }
{
    serving.objects_live_by_callbacks();
    match serving.state(ObjectId::Sub(sub)) {
        ObjectState::Live => serving.row(sub).is_none(),
        ObjectState::Absent => false,
        ObjectState::Muted => false,
    }
}

/// The next note of a watch that has noted so many, if it makes one.
fn next_note(row: WatchRow, noted: usize, moment: u64) -> Option<WatchNote>
    ensures { note_list result ≡ watch_note row.retries (suc noted) moment }
{
    let noted = noted as u64;
    let retries = u64::from(row.retries);
    if noted < retries {
        Some(WatchNote::Retry {
            count: noted as u32 + 1,
            moment,
        })
    } else if noted == retries {
        Some(WatchNote::Timeout { moment })
    } else {
        None
    }
}

/// The wish of a note, if it has one: its subscription, and the sender.
fn wish_of(row: WatchRow, note: WatchNote) -> Option<(SubId, u32)>
    ensures { wish_puts result ≡ wish_in row note }
{
    match note {
        WatchNote::Retry {
            count: _,
            moment: _,
        } => {
            if row.sender > 0 {
                Some((row.sub, row.sender))
            } else {
                None
            }
        }
        WatchNote::Timeout { moment: _ } => None,
    }
}

/// A wish as an event.
fn wish_event<M>(wish: Option<(SubId, u32)>) -> Option<ToBridge<M>>
    ensures { (tagged : M → ObjectId) → event_puts tagged result ≡ wish_puts wish }
{
    match wish {
        Some((sub, sender)) => Some(ToBridge::RecapWish { sub, sender }),
        None => None,
    }
}

/// The place of the watch of a timer, if there is one.
fn place_of(places: &IndexMap<TimerId, usize>, timer: TimerId) -> Option<usize>
    ensures { result ≡ get same_timer places.now timer }
{
    match places.get(&timer) {
        Some(place) => Some(*place),
        None => None,
    }
}

impl Watch {
    /// Notes a tick that counts. There is room for it.
    fn tick(&mut self, moment: u64) -> Option<(SubId, u32)>
        requires { vec_len self.old.notes < vec_capacity self.old.notes }
        ensures watch { watch_of self.new ≡ record (watch_of self.old) { notes = self.old.notes.items ++ next_notes (watch_of self.old) moment } }
        ensures wish { wish_puts result ≡ flat_map (wish_in self.old.row) (next_notes (watch_of self.old) moment) }
    {
        match next_note(self.row, self.notes.len(), moment) {
            Some(note) => {
                self.notes.push_reserved(note);
                wish_of(self.row, note)
            }
            None => None,
        }
    }
}

/// The number of each watch, and what it noted. There is room for them.
fn notes_of(watches: Vec<Watch>, room: Vec<(u32, Vec<WatchNote>)>) -> Vec<(u32, Vec<WatchNote>)>
    requires none { room.items ≡ [] }
    requires enough { length watches.items ≤ vec_capacity room }
    ensures { map (λ w. (w.0, w.1.items)) result.items ≡ map part_of (map watch_of watches.items) }
{
    let mut notes = room;
    for watch in watches {
        let Watch {
            number,
            row: _,
            notes: noted,
        } = watch;
        notes.push_reserved((number, noted));
    }
    notes
}

impl Model for WatchTable {
    ghost use Rattle.mama_timeout.specs.Table.{TableData};

    ghost Value = { TableData };

    ghost use Rattle.mama_timeout.specs.Kept.{table_of, IsKept};

    ghost view = { λ t. table_of t.watches.items t.used };

    ghost invariant = { λ t. IsKept t.watches.items t.places t.used t.room };
}

impl WatchTable {
    /// Watches with these numbers, which have noted nothing yet. The error is want of memory.
    pub fn new(alloc: Global, rows: Vec<(u32, WatchRow)>) -> Result<WatchTable, OutOfMemory>
        requires { AreApart rows.items }
        ensures { IfOk result (λ table. table ≡ record { watches = map new_watch rows.items; ready = true }) }
    {
        let room = Vec::with_capacity(alloc, rows.len())?;
        let mut watches = Vec::with_capacity(alloc, rows.len())?;
        let mut places = IndexMap::new(alloc);
        for numbered in rows {
            let (number, row) = numbered;
            let place = watches.len();
            places.insert(row.timer, place)?;
            let notes = Vec::with_capacity(alloc, 1)?;
            watches.push(Watch { number, row, notes })?;
        }
        Ok(WatchTable {
            watches,
            places,
            used: None,
            room,
        })
    }

    /// Makes room for one note more of each watch. The error is want of memory; what was noted is as before. It costs one watch:
    /// there is room at each whose room was not used since the last call.
    pub fn prepare(&mut self) -> Result<(), OutOfMemory>
        ensures watches { self.new.watches ≡ self.old.watches }
        ensures ok { OnOk result (self.new.ready ≡ true) }
    {
        let Some(place) = self.used else {
            return Ok(());
        };
        let watch = &mut self.watches[place];
        watch.notes.reserve(1)?;
        self.used = None;
        Ok(())
    }

    /// The subscription that the watch of a timer is of, if there is one. No other watch is of that timer.
    pub fn sub_of(&self, timer: TimerId) -> Option<SubId>
        ensures first { result ≡ first_sub timer self.now.watches }
        ensures only { AllByRecursion (λ w. same_timer w.row.timer timer ≡ true → result ≡ Some w.row.sub) self.now.watches }
    {
        let Some(place) = place_of(&self.places, timer) else {
            return None;
        };
        let watch = &self.watches[place];
        Some(watch.row.sub)
    }

    /// Notes what a tick of a timer at a moment, in milliseconds, makes of its watch, if it has one: the queue has just served
    /// that tick and called it back.
    /// The answer is the wish that it puts, if it puts one. It takes no memory: there is room for the note.
    pub fn after<L: Listener, M>(
        &mut self,
        timer: TimerId,
        moment: u64,
        serving: &Serving<L>,
    ) -> Option<ToBridge<M>>
        requires { self.old.ready ≡ true }
        ensures notes { (orders : ObjectId → ℕ → List Order) → Fits orders serving.now.seats → self.new.watches ≡ map (ticked timer moment (λ s. is_missed s serving.now.journal (deeds orders serving.now.journal))) self.old.watches }
        ensures wish { (tagged : M → ObjectId) (orders : ObjectId → ℕ → List Order) → Fits orders serving.now.seats → event_puts tagged result ≡ flat_map (tick_wishes timer moment (λ s. is_missed s serving.now.journal (deeds orders serving.now.journal))) self.old.watches }
    {
        let Some(sub) = self.sub_of(timer) else {
            return None;
        };
        if !is_missed_by(serving, sub) {
            return None;
        }
        wish_event(self.count(timer, moment))
    }

    /// Notes a tick of a timer, at a moment in milliseconds, that counts for its watch, if it has one. The answer is the subscription that is wished for and
    /// the sender, if something is. It takes no memory: there is room for the note.
    pub fn count(&mut self, timer: TimerId, moment: u64) -> Option<(SubId, u32)>
        requires { self.old.ready ≡ true }
        ensures notes { self.new.watches ≡ map (counted_at timer moment) self.old.watches }
        ensures wish { wish_puts result ≡ flat_map (count_wishes timer moment) self.old.watches }
    {
        let Some(place) = place_of(&self.places, timer) else {
            return None;
        };
        self.used = Some(place);
        let watch = &mut self.watches[place];
        watch.tick(moment)
    }

    /// The number of each watch and what it noted, in the order of the watches. It takes no memory.
    pub fn into_notes(self) -> Vec<(u32, Vec<WatchNote>)>
        ensures { map (λ w. (w.0, w.1.items)) result.items ≡ map part_of self.watches }
    {
        let WatchTable {
            watches,
            places: _,
            used: _,
            room,
        } = self;
        notes_of(watches, room)
    }
}
