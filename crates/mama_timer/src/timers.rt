ghost use Rattle.std.specs.Prelude.{◌≡◌, ◌++◌, [], map, IfOk, IfErr, IsTrue, ◌↔◌, OnOk, OnErr, if◌then◌else◌};
ghost use Rattle.mama_event.specs.ToTimers.{note_of};
ghost use Rattle.mama_rules_services.specs.Timers.{timers_puts_at};
ghost use Rattle.mama_timer.specs.Service.{taken, is_last_bye};
ghost use Rattle.mama_timer.specs.Out.{out_note, listeners, puts_create, brought};

use crate::out::TimerOut;
use crate::table::Table;
use mama_event::{Shape, Tagged, TimersNote, ToTimers, Took};
use mama_memory::{OutOfMemory, Outbox};
use std::alloc::Global;
use std::marker::{Model, PhantomData};

/// The timer service: it keeps the greatest moment that was told, and lets the timers that are due tick. It is seen as
/// its shape and its journal.
#[derive(Drop)]
pub struct Timers<L> {
    table: Table,
    listeners: PhantomData<L>,
}

impl<L> Model for Timers<L> {
    ghost use Rattle.mama_timer.specs.Service.{Service};

    ghost Value = { Service };

    ghost view = { λ t. t.table };
}

impl<L> Timers<L> {
    /// A service of this shape that took nothing yet.
    pub fn new(alloc: Global, shape: &Shape) -> Result<Timers<L>, OutOfMemory>
        ensures { IfOk result (λ timers. timers ≡ record { shape = shape.now; journal = [] }) }
    {
        let table = Table::new(alloc, shape)?;
        Ok(Timers {
            table,
            listeners: PhantomData,
        })
    }

    /// The ports and the notes of all events that were taken, in order. It takes no memory.
    pub fn into_journal(self) -> Vec<(u32, TimersNote)>
        ensures { result.items ≡ self.journal }
    {
        let Timers { table, .. } = self;
        table.into_journal()
    }
}

impl<L: Tagged> Timers<L> {
    /// Takes the next event, and puts what follows from it at the end of `out`. Where no memory is found the event is
    /// given back, and nothing has changed. The 2^32nd live timer of one queue finds no slot, which counts as that.
    pub fn take(
        &mut self,
        port: u32,
        event: ToTimers<L>,
        out: &mut Outbox<TimerOut<L>>,
    ) -> Result<Took, ToTimers<L>>
        ensures journal { OnOk result (self.new ≡ taken self.old (port, note_of L.tagged event)) }
        ensures puts { OnOk result (map (out_note L.tagged) out.new.items ≡ map (out_note L.tagged) out.old.items ++ timers_puts_at self.old.shape self.old.journal (port, note_of L.tagged event)) }
        // A Create among them carries the listener that the event brought.
        ensures listener { OnOk result (listeners out.new.items ≡ listeners out.old.items ++ (if puts_create (timers_puts_at self.old.shape self.old.journal (port, note_of L.tagged event)) then brought event else [])) }
        ensures ended { IfOk result (λ took. (took ≡ Took.Ended) ↔ IsTrue (is_last_bye self.old (port, note_of L.tagged event))) }
        ensures back { IfErr result (λ given. given ≡ event) }
        ensures err { OnErr result (self.new ≡ self.old) }
        ensures out_err { OnErr result (out.new.items ≡ out.old.items) }
    {
        self.table.take(port, event, out)
    }
}
