use crate::ids::{SubId, TimerId};

/// A subscription that is asked for again at the ticks of a timer while it has no image.
#[derive(Clone, Copy, Debug, PartialEq, Eq)]
pub struct WatchRow {
    pub sub: SubId,
    pub timer: TimerId,
    /// How many times it is asked for before a timeout is told; in scripts 0 to 1,000.
    pub retries: u32,
    /// The id of the first publisher of its topic, which is asked; 0 where there is none.
    pub sender: u32,
}

/// What a watch notes.
#[derive(Clone, Copy, Debug)]
pub enum WatchNote {
    /// The tick at this moment, in milliseconds, found no image: where the topic has a publisher, the subscription is asked for. The
    /// retries of a watch are counted from 1.
    Retry { count: u32, moment: u64 },
    /// The tick at this moment, in milliseconds, found none after the last retry.
    Timeout { moment: u64 },
}

impl PartialEq for WatchNote {
    ghost use Rattle.std.specs.Prelude.{◌≡◌};
    ghost use Rattle.std.specs.Cmp.{partial_equiv_from_equiv};
    ghost use Rattle.mama_event.specs.Equality.{same_watch_note};
    ghost use Rattle.mama_event.specs.EqualityLaws.{same_watch_note_equivalence};

    ghost eq = { same_watch_note };

    ghost laws = { partial_equiv_from_equiv same_watch_note_equivalence };

    fn eq(&self, other: &WatchNote) -> bool
        ensures { result ≡ same_watch_note self.now other.now }
    {
        match (self, other) {
            (
                WatchNote::Retry { count, moment },
                WatchNote::Retry {
                    count: other_count,
                    moment: other_moment,
                },
            ) => count == other_count && moment == other_moment,
            (
                WatchNote::Timeout { moment },
                WatchNote::Timeout {
                    moment: other_moment,
                },
            ) => moment == other_moment,
            _ => false,
        }
    }
}

impl Eq for WatchNote {
    ghost use Rattle.mama_event.specs.EqualityLaws.{same_watch_note_equivalence};

    ghost laws = { same_watch_note_equivalence };
}
