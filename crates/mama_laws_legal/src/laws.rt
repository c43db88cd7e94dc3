ghost use Rattle.mama_laws_legal.specs.Laws.{RoundsAreWhole, RoundsAreShaped, RoundsTellCalls, RoundsGiveOneRecord, RoundsDoAllLines, SubsGetTheirStreams, InboxesGetTheirStreams, TimersGetTheirStreams, LegalRecordsHaveStreams, RoundsAreLegal, QueuesAreThere};

/// A law: in the record of a run in rounds every edge is whole: what each actor took by each port is all that was put
/// there, in order.
pub fn rounds_are_whole()
    ensures { RoundsAreWhole }
{}

/// A law: it has a journal of each publisher and queue, and of each client the moments that its lines ask for.
pub fn rounds_are_shaped()
    ensures { RoundsAreShaped }
{}

/// A law: its callbacks are those that the queues make by their journals, with the orders of the plans, and its images
/// those that the strategy leaves.
pub fn rounds_tell_calls()
    ensures { RoundsTellCalls }
{}

/// A law: a script and the moments that its clients read have one record, however many rounds and passes are counted.
pub fn one_record()
    ensures { RoundsGiveOneRecord }
{}

/// A law: each client read a moment for each of its lines that read the clock, and the journal of each publisher has
/// all its sends, one `Done` after the last of them, and `Settle` and `Fin` at its end.
pub fn rounds_do_all_lines()
    ensures { RoundsDoAllLines }
{}

/// A law of the bridge's rules alone, for every journal: of a subscription that was live and is so no more, all that goes
/// to its queue is its `Create`, what its link lets through of its window, and its `Gone`, in one slot.
pub fn subs_get_their_streams()
    ensures { SubsGetTheirStreams }
{}

/// A law of the bridge's rules alone, for every journal: of an inbox that was open and is so no more, all that goes to its
/// queue is its `Create`, what its link lets through of the replies put while it was open, and its `Gone`, in one slot.
pub fn inboxes_get_their_streams()
    ensures { InboxesGetTheirStreams }
{}

/// A law of the timer service's rules alone, for every journal: of a timer that was live and is so no more, all that goes
/// to its queue is its `Create`, its ticks, and its `Gone`, in one slot.
pub fn timers_get_their_streams()
    ensures { TimersGetTheirStreams }
{}

/// A law of every legal record, whichever thread ran what when: the journal of its queue has of each subscription, timer
/// and inbox of the script its stream, and by every port the last event was taken.
pub fn legal_records_have_streams()
    ensures { LegalRecordsHaveStreams }
{}

/// A law: the record of a run in rounds is legal for its script, for every script that is within its bounds and whose
/// shape counts what it has. `Script::shape` says so of every script that a text spells.
pub fn round_is_legal()
    ensures { RoundsAreLegal }
{}

/// A law: the queues on which the lines of a script put objects are there, for every script that is within its bounds.
pub fn queues_are_there()
    ensures { QueuesAreThere }
{}
