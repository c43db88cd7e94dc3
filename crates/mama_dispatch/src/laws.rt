ghost use Rattle.mama_dispatch.specs.Standing.{StandsAtFirst, Standing};
ghost use Rattle.mama_dispatch.specs.SameNotes.{NotesCompareExactly};
ghost use Rattle.mama_dispatch.specs.Coming.{LawfulMayCome, LawfulAreTurns, TwoPortsSuffice};
ghost use Rattle.mama_dispatch.specs.Streams.{CallbacksAreStreams, SlotsAreKept, SlotsAreOfOne};

/// A law: no seats are those of an empty journal.
pub fn no_objects_at_first()
    ensures { StandsAtFirst }
{}

/// A law: where the seats are those of a journal, and an entry is served, they are those of the longer journal, and
/// what was put is what the rules say that the entry puts, but for the Byes. So it is for every orders that those given
/// in the callbacks fit.
pub fn serving_an_entry()
    ensures { Standing }
{}

/// A law: for any listeners and any list of turns, the callbacks of each object are `on_create`, then others, then
/// `on_destroy`, or a first part of these. Nothing follows `on_destroy`.
pub fn callbacks_are_streams()
    ensures { CallbacksAreStreams }
{}

/// A law: where each port puts what it may, what an event brings is of the object whose block its slot is in. What was
/// meant for a slot's former object never reaches its next.
pub fn slots_are_kept()
    ensures { SlotsAreKept }
{}

/// A law: where a port puts what it may, a slot is of one object at a time.
pub fn slots_are_of_one()
    ensures { SlotsAreOfOne }
{}

/// A law: where what came by each port is what it may put, each entry was one that may come. So a taker whose ports put
/// lawful lists meets the condition of a turn with whatever it takes.
pub fn lawful_may_come()
    ensures entry { LawfulMayCome }
    ensures journal { LawfulAreTurns }
{}

/// A law: where all came by port 0, the bridge's, or by port 1, the timer service's, it is enough that these two are
/// lawful.
pub fn two_ports_suffice()
    ensures { TwoPortsSuffice }
{}

/// A law: `==` of what two queues gave up holds where both are the same data, and nowhere else.
pub fn notes_are_compared_exactly()
    ensures { NotesCompareExactly }
{}
