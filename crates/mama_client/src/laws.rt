ghost use Rattle.mama_client.specs.Calls.{CallsAreLawful};

/// A law: whatever calls a client answers one after another, what they put on each lane, in order, is what a client's port
/// may put there: it names topics and queues that are there, and nothing follows its last word. The clause `call` of each
/// call says that it is such a call.
pub fn calls_are_lawful()
    ensures { CallsAreLawful }
{}
