ghost use Rattle.std.specs.Prelude.{◌≡◌};

use crate::fids::Fids;
use crate::ids::{InboxId, SubId};
use crate::market::MsgKind;
use crate::stream::Stream;
use mama_memory::OutOfMemory;

/// What a publisher takes. The bridge alone puts it.
#[derive(Clone, Copy, Debug, PartialEq, Eq)]
pub enum ToPublisher {
    /// Send the whole record to a subscription, as an `Initial` or a `Recap`.
    Want { sub: SubId, kind: MsgKind },
    /// Send the fields with these fids to an inbox.
    Ask { inbox: InboxId, fids: Fids },
    /// All has been sent. Say that nothing more comes.
    Settle,
    /// The end. Nothing follows.
    Fin,
}

/// A `ToPublisher` as plain data.
#[derive(Clone, Copy, Debug)]
pub enum PublisherNote {
    Want { sub: SubId, kind: MsgKind },
    Ask { inbox: InboxId, fids: Fids },
    Settle,
    Fin,
}

impl PartialEq for PublisherNote {
    ghost use Rattle.std.specs.Prelude.{◌≡◌};
    ghost use Rattle.std.specs.Cmp.{partial_equiv_from_equiv};
    ghost use Rattle.mama_event.specs.Equality.{same_publisher_note};
    ghost use Rattle.mama_event.specs.EqualityLaws.{same_publisher_note_equivalence};

    ghost eq = { same_publisher_note };

    ghost laws = { partial_equiv_from_equiv same_publisher_note_equivalence };

    fn eq(&self, other: &PublisherNote) -> bool
        ensures { result ≡ same_publisher_note self.now other.now }
    {
        match (self, other) {
            (
                PublisherNote::Want { sub, kind },
                PublisherNote::Want {
                    sub: other_sub,
                    kind: other_kind,
                },
            ) => sub == other_sub && kind == other_kind,
            (
                PublisherNote::Ask { inbox, fids },
                PublisherNote::Ask {
                    inbox: other_inbox,
                    fids: other_fids,
                },
            ) => inbox == other_inbox && fids == other_fids,
            (PublisherNote::Settle, PublisherNote::Settle) => true,
            (PublisherNote::Fin, PublisherNote::Fin) => true,
            _ => false,
        }
    }
}

impl Eq for PublisherNote {
    ghost use Rattle.mama_event.specs.EqualityLaws.{same_publisher_note_equivalence};

    ghost laws = { same_publisher_note_equivalence };
}

impl Stream for ToPublisher {
    ghost use Rattle.mama_event.specs.Lawful.{IsLawful};
    ghost use Rattle.mama_event.specs.LawfulLaws.{IsLawful-start, IsLawful-prefix, IsLawful-end};
    ghost use Rattle.mama_event.specs.ToPublisher.{note_of, is_last, fits};

    type Note = PublisherNote;

    ghost noted = { note_of };

    ghost last = { is_last };

    ghost lawful = { λ bounds port. IsLawful is_last fits };

    ghost lawful_start = { λ bounds port. IsLawful-start is_last fits };

    ghost lawful_prefix = { λ bounds port. IsLawful-prefix is_last fits };

    ghost lawful_end = { λ bounds port. IsLawful-end is_last fits };

    fn note(&self) -> Result<PublisherNote, OutOfMemory>
        ensures { result ≡ Ok (note_of self.now) }
    {
        match self {
            ToPublisher::Want { sub, kind } => Ok(PublisherNote::Want {
                sub: *sub,
                kind: *kind,
            }),
            ToPublisher::Ask { inbox, fids } => Ok(PublisherNote::Ask {
                inbox: *inbox,
                fids: *fids,
            }),
            ToPublisher::Settle => Ok(PublisherNote::Settle),
            ToPublisher::Fin => Ok(PublisherNote::Fin),
        }
    }

    fn is_last(&self) -> bool {
        matches!(self, ToPublisher::Fin)
    }
}
