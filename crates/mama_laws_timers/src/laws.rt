ghost use Rattle.mama_laws_timers.specs.Laws.{TimelyStreamsAreLawful, LawfulClientsAreTimely, LawfulClientsGetLawfulStreams, SlotsAreLeast, FinsTellTheEnding, EachCreateHasItsGone};

/// A law: what the service puts to each queue is a stream that the queue may be given, for every shape and journal, as
/// long as no timer is armed after the ending.
pub fn timely_streams_are_lawful()
    ensures { TimelyStreamsAreLawful }
{}

/// A law: where what each client put is lawful, no timer is armed after the ending, for no client puts anything after its
/// last word.
pub fn lawful_clients_are_timely()
    ensures { LawfulClientsAreTimely }
{}

/// A law: so what the service puts to each queue is lawful where what each client put is lawful, whatever the queues and
/// the bridge put, and in whatever order it is taken.
pub fn lawful_clients_get_lawful_streams()
    ensures { LawfulClientsGetLawfulStreams }
{}

/// A law: as long as no timer is armed after the ending, each timer is created in the least slot that no timer of the
/// service has on that queue.
pub fn slots_are_least()
    ensures { SlotsAreLeast }
{}

/// A law: by every journal each queue was told `Fin` exactly where the ending has come.
pub fn fins_tell_the_ending()
    ensures { FinsTellTheEnding }
{}

/// A law: as long as no timer is armed after the ending, each queue is told once at most to create a timer, never more
/// often that it is gone, and as often once the ending has come.
pub fn each_create_has_its_gone()
    ensures { EachCreateHasItsGone }
{}
