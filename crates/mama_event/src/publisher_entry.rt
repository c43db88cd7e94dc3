use crate::to_publisher::PublisherNote;

/// One entry of a publisher's journal.
#[derive(Clone, Copy, Debug)]
pub enum PublisherEntry {
    /// It sent its next update or recap.
    Send,
    /// It had nothing more to send, and said so.
    Done,
    /// It took an event.
    Took(PublisherNote),
}

impl PartialEq for PublisherEntry {
    ghost use Rattle.std.specs.Prelude.{◌≡◌};
    ghost use Rattle.std.specs.Cmp.{partial_equiv_from_equiv};
    ghost use Rattle.mama_event.specs.Equality.{same_publisher_entry};
    ghost use Rattle.mama_event.specs.EqualityLaws.{same_publisher_entry_equivalence};

    ghost eq = { same_publisher_entry };

    ghost laws = { partial_equiv_from_equiv same_publisher_entry_equivalence };

    fn eq(&self, other: &PublisherEntry) -> bool
        ensures { result ≡ same_publisher_entry self.now other.now }
    {
        match (self, other) {
            (PublisherEntry::Send, PublisherEntry::Send) => true,
            (PublisherEntry::Done, PublisherEntry::Done) => true,
            (PublisherEntry::Took(a), PublisherEntry::Took(b)) => a == b,
            _ => false,
        }
    }
}

impl Eq for PublisherEntry {
    ghost use Rattle.mama_event.specs.EqualityLaws.{same_publisher_entry_equivalence};

    ghost laws = { same_publisher_entry_equivalence };
}
