ghost use Rattle.std.specs.Prelude.{◌≡◌, ◌↔◌, ◌<◌, ◌+◌, ◌∷◌, ◌++◌, [], true, false, length, take, Ok, OnOk, OnErr};
ghost use Rattle.mama_crew.specs.Seat as crew;
ghost use Rattle.mama_crew.specs.Seat.{journal_in};
ghost use Rattle.mama_grouped.specs.Seat.{IsHearing};

use crate::queries::{called_by, journal_of, notes_of};
use mama_carry::Listener;
use mama_crew::{Hall, Script, Seat};
use mama_event::QueueNote;
use mama_group::{GroupListener, GroupTable};
use mama_memory::OutOfMemory;

/// The groups of a queue, and how many entries of the queue's journal they were told.
#[derive(Drop)]
pub struct Hearing<H: GroupListener> {
    pub(crate) groups: GroupTable<H>,
    pub(crate) told: usize,
}

impl<H: GroupListener> Hearing<H> {
    /// Tells what the next entry of the seat's journal called back, and says whether one was still to be told. At most one is.
    /// Script and hall say whose seat it is. The error is want of memory; then the entry is still to be told.
    pub(crate) fn tell_next<L: Listener>(
        &mut self,
        _script: &Script,
        _hall: &Hall<L>,
        seat: &Seat<L>,
    ) -> Result<bool, OutOfMemory>
        requires sits { crew.IsSeatOf _script.now _hall.now seat.now }
        requires hears { IsHearing _script.now _hall.now seat.now (self.old.groups) self.old.told }
        ensures hears { IsHearing _script.now _hall.now seat.now (self.new.groups) self.new.told }
        ensures next { result ≡ Ok true → self.new.told ≡ self.old.told + 1 }
        ensures all { result ≡ Ok false → (self.new ≡ self.old) × (length (journal_in seat.now) ≡ self.old.told) }
        ensures err { OnErr result ((self.new ≡ self.old) × (self.old.told < length (journal_in seat.now))) }
    {
        let journal = journal_of(seat);
        let told = self.told;
        if told >= journal.len() {
            return Ok(false);
        }
        let entry = &journal[told];
        tell_entry(&mut self.groups, _script, _hall, seat, told, entry)?;
        self.told = told + 1;
        Ok(true)
    }

    /// Whether all was told that the seat's journal says.
    pub(crate) fn is_told<L: Listener>(&self, seat: &Seat<L>) -> bool
        ensures { (result ≡ true) ↔ (length (journal_in seat.now) ≡ self.now.told) }
    {
        journal_of(seat).len() == self.told
    }
}

// Tells the groups what an entry of the seat's journal called back, after so many entries.
fn tell_entry<L: Listener, H: GroupListener>(
    groups: &mut GroupTable<H>,
    _script: &Script,
    _hall: &Hall<L>,
    seat: &Seat<L>,
    _told: usize,
    entry: &(u32, QueueNote),
) -> Result<(), OutOfMemory>
    requires sits { crew.IsSeatOf _script.now _hall.now seat.now }
    requires hears { IsHearing _script.now _hall.now seat.now groups.old _told }
    requires there { _told < length (journal_in seat.now) }
    requires next { take (_told + 1) (journal_in seat.now) ≡ take _told (journal_in seat.now) ++ entry.now ∷ [] }
    ensures ok { OnOk result (IsHearing _script.now _hall.now seat.now groups.new (_told + 1)) }
    ensures err { OnErr result (groups.new ≡ groups.old) }
{
    let Some(sub) = called_by(&entry.1) else {
        return Ok(());
    };
    let notes = notes_of(seat, sub);
    let heard = groups.heard(sub).min(notes.len());
    groups.after(sub, &notes[heard..])
}
