ghost use Rattle.std.specs.Prelude.{◌≡◌, ◌↔◌, true};

use mama_event::Took;

/// Whether an actor takes no more events.
pub(crate) fn is_end(took: Took) -> bool
    ensures { (result ≡ true) ↔ (took ≡ Took.Ended) }
{
    match took {
        Took::Running => false,
        Took::Ended => true,
    }
}
