ghost use Rattle.mama_laws_lawful.specs.Laws.{TimelyStreamsAreLawful, LawfulClientsAreTimely, LawfulClientsGetLawfulStreams, TimersGetALawfulStream, SlotsAreLeast, FinsTellTheEnding, EachCreateHasItsGone};

/// A law: what the bridge puts to each queue, to each publisher and to the timers is a stream that they may be given, for
/// every shape and journal, as long as nothing is joined or opened after the ending.
pub fn timely_streams_are_lawful()
    ensures { TimelyStreamsAreLawful }
{}

/// A law: where what each client put is lawful, nothing is joined or opened after the ending, for no client puts anything
/// after its last word.
pub fn lawful_clients_are_timely()
    ensures { LawfulClientsAreTimely }
{}

/// A law: so what the bridge puts is lawful where what each client put is lawful, whatever the publishers and the queues
/// put, and in whatever order it is taken.
pub fn lawful_clients_get_lawful_streams()
    ensures { LawfulClientsGetLawfulStreams }
{}

/// A law: what the bridge puts to the timers is lawful by every journal.
pub fn timers_get_a_lawful_stream()
    ensures { TimersGetALawfulStream }
{}

/// A law: as long as nothing is joined or opened after the ending, each object is created in the least slot that no
/// object of the bridge has on that queue.
pub fn slots_are_least()
    ensures { SlotsAreLeast }
{}

/// A law: by every journal each queue, each publisher and the timers were told `Fin` exactly where the ending has come,
/// if there is a client or a publisher at all.
pub fn fins_tell_the_ending()
    ensures { FinsTellTheEnding }
{}

/// A law: as long as nothing is joined or opened after the ending, each queue is told once at most to create an object,
/// and it is told as often that the object is gone once the ending has come.
pub fn each_create_has_its_gone()
    ensures { EachCreateHasItsGone }
{}
