ghost use Rattle.mama_laws_allowed.specs.Allowed.{ClientPutsAreLawful, ClientPutsAreItsOwn, QueuePutsAreLawful, PublisherPutsAreLawful, StoppedPublishersSentOut};

/// A law: what a client of a script puts by its lines may be put on the lanes of the bridge and of the timer service,
/// whatever moments it reads.
pub fn client_puts_are_lawful()
    ensures { ClientPutsAreLawful }
{}

/// A law: what a client of a script puts is what its own lines and its own moments make it put.
pub fn client_puts_are_its_own()
    ensures { ClientPutsAreItsOwn }
{}

/// A law: what a queue puts may be put on both lanes, whatever its listeners order, where what it took came by its two
/// ports, and of each is what the port may put.
pub fn queue_puts_are_lawful()
    ensures { QueuePutsAreLawful }
{}

/// A law: what a publisher puts may be put on the bridge's lane, where it took no more than `Fin` once it had settled.
pub fn publisher_puts_are_lawful()
    ensures { PublisherPutsAreLawful }
{}

/// A law: where every edge is whole and the ending came, a publisher that stops in time and made all its sends has a journal
/// as one has that sent all its lines.
pub fn stopped_publishers_sent_out()
    ensures { StoppedPublishersSentOut }
{}
