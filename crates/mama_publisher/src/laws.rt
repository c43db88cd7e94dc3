ghost use Rattle.mama_publisher.specs.Laws.{NewStandsAtStart, SendingUpdates, SendingRecaps, TakingEvents, TellingTheEnd};

/// A law: a new publisher holds what a journal with no entries says.
pub fn a_new_publisher_has_its_base()
    ensures { NewStandsAtStart }
{}

/// A law: where a publisher holds what its journal says and sends the script's next line, an update, it puts what the
/// journal puts there, and holds what the longer journal says.
pub fn sending_an_update()
    ensures { SendingUpdates }
{}

/// A law: likewise where the script's next line is a recap, and the publisher sends its record as one.
pub fn sending_a_recap()
    ensures { SendingRecaps }
{}

/// A law: likewise where a publisher takes an event and puts what its record and its number answer.
pub fn taking_an_event()
    ensures { TakingEvents }
{}

/// A law: likewise where a publisher tells that it has sent its last line.
pub fn telling_the_end_of_sends()
    ensures { TellingTheEnd }
{}
