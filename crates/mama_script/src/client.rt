use crate::plan::Plan;
use mama_event::{Order, SubKind};
use mama_link::Faults;
use std::marker::Model;

/// The queue that a line names: a number, or `any`, which leaves the choice to the client's queue group.
#[derive(Clone, Copy, Debug, PartialEq, Eq)]
pub enum QueueWord {
    Number(u32),
    Any,
}

/// A line of a client: one step, with the fault and at lines that belong to it.
#[derive(Drop)]
pub enum ClientLine {
    /// Joins a topic. `cache` is 0 to 4,096 and `recaps` 0 to 1,000,000.
    Sub {
        topic: u32,
        kind: SubKind,
        queue: QueueWord,
        cache: u32,
        recaps: u32,
        faults: Faults,
        plan: Plan,
    },
    /// Arms a timer with an interval of at least 1.
    Timer {
        queue: QueueWord,
        interval: u32,
        plan: Plan,
    },
    /// Opens an inbox.
    Inbox {
        queue: QueueWord,
        faults: Faults,
        plan: Plan,
    },
    /// Gives an order.
    Order(Order),
    /// Tells the timers this moment, 0 to 2^63 - 1.
    Now(u64),
    /// Reads the clock and tells the timers what it says.
    NowClock,
    /// Does nothing for this many turns, 1 to 1,000,000.
    Pause(u32),
}

impl PartialEq for ClientLine {
    ghost use Rattle.std.specs.Prelude.{◌≡◌};
    ghost use Rattle.std.specs.Cmp.{partial_equiv_from_equiv};
    ghost use Rattle.mama_script.specs.Equality.{same_client_line};
    ghost use Rattle.mama_script.specs.EqualityLaws.{same_client_line_equivalence};

    ghost eq = { same_client_line };

    ghost laws = { partial_equiv_from_equiv same_client_line_equivalence };

    fn eq(&self, other: &ClientLine) -> bool
        ensures { result ≡ same_client_line self.now other.now }
    {
        match (self, other) {
            (
                ClientLine::Sub {
                    topic,
                    kind,
                    queue,
                    cache,
                    recaps,
                    faults,
                    plan,
                },
                ClientLine::Sub {
                    topic: other_topic,
                    kind: other_kind,
                    queue: other_queue,
                    cache: other_cache,
                    recaps: other_recaps,
                    faults: other_faults,
                    plan: other_plan,
                },
            ) => {
                topic == other_topic
                    && kind == other_kind
                    && queue == other_queue
                    && cache == other_cache
                    && recaps == other_recaps
                    && faults == other_faults
                    && plan == other_plan
            }
            (
                ClientLine::Timer {
                    queue,
                    interval,
                    plan,
                },
                ClientLine::Timer {
                    queue: other_queue,
                    interval: other_interval,
                    plan: other_plan,
                },
            ) => queue == other_queue && interval == other_interval && plan == other_plan,
            (
                ClientLine::Inbox {
                    queue,
                    faults,
                    plan,
                },
                ClientLine::Inbox {
                    queue: other_queue,
                    faults: other_faults,
                    plan: other_plan,
                },
            ) => { queue == other_queue && faults == other_faults && plan == other_plan }
            (ClientLine::Order(a), ClientLine::Order(b)) => a == b,
            (ClientLine::Now(a), ClientLine::Now(b)) => a == b,
            (ClientLine::NowClock, ClientLine::NowClock) => true,
            (ClientLine::Pause(a), ClientLine::Pause(b)) => a == b,
            _ => false,
        }
    }
}

impl Eq for ClientLine {
    ghost use Rattle.mama_script.specs.EqualityLaws.{same_client_line_equivalence};

    ghost laws = { same_client_line_equivalence };
}

/// The lines of a client in order.
#[derive(Drop)]
pub struct ClientLines {
    lines: Vec<ClientLine>,
}

impl Model for ClientLines {
    ghost use Rattle.std.specs.Prelude.{List};
    ghost use Rattle.mama_script.specs.declared.client.ClientLine.{ClientLine};

    ghost Value = { List ClientLine };

    ghost view = { λ c. c.lines.items };
}

impl PartialEq for ClientLines {
    ghost use Rattle.std.specs.Prelude.{◌≡◌};
    ghost use Rattle.std.specs.Cmp.{partial_equiv_from_equiv};
    ghost use Rattle.mama_script.specs.Equality.{same_client};
    ghost use Rattle.mama_script.specs.EqualityLaws.{same_client_equivalence};

    ghost eq = { same_client };

    ghost laws = { partial_equiv_from_equiv same_client_equivalence };

    fn eq(&self, other: &ClientLines) -> bool
        ensures { result ≡ same_client self.now other.now }
    {
        self.as_slice() == other.as_slice()
    }
}

impl Eq for ClientLines {
    ghost use Rattle.mama_script.specs.EqualityLaws.{same_client_equivalence};

    ghost laws = { same_client_equivalence };
}

impl ClientLines {
    ghost use Rattle.std.specs.Prelude.{◌≡◌};

    /// The list of these lines.
    pub fn new(lines: Vec<ClientLine>) -> ClientLines
        ensures { result ≡ lines.items }
    {
        ClientLines { lines }
    }

    /// The lines in order.
    pub fn as_slice(&self) -> &[ClientLine]
        ensures { result.now ≡ self.now }
    {
        self.lines.as_slice()
    }
}
