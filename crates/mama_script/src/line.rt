use mama_event::{Strategy, SubKind};
use mama_link::FaultRow;
use mama_msg::{Msg, TextValue};
use mama_words::{IdWord, OrderWord};
use std::marker::Model;

/// A queue as a line names it. The number may be none that the script declares.
#[derive(Clone, Copy, Debug, PartialEq, Eq)]
pub enum QueueName {
    Number(u64),
    Any,
}

/// The ids of a line, in order. They may name what no script has.
#[derive(Drop)]
pub struct IdWords {
    ids: Vec<IdWord>,
}

impl Model for IdWords {
    ghost use Rattle.std.specs.Prelude.{List};
    ghost use Rattle.mama_words.specs.declared.id.IdWord.{IdWord};

    ghost Value = { List IdWord };

    ghost view = { λ w. w.ids.items };
}

impl IdWords {
    ghost use Rattle.std.specs.Prelude.{◌≡◌};

    /// These ids. It takes no memory.
    pub fn new(ids: Vec<IdWord>) -> IdWords
        ensures { result ≡ ids.items }
    {
        IdWords { ids }
    }

    /// The ids in order.
    pub fn as_slice(&self) -> &[IdWord]
        ensures { result.now ≡ self.now }
    {
        self.ids.as_slice()
    }
}

/// A line of a script by its own form, apart from what other lines say.
#[derive(Drop)]
pub enum Line {
    Strategy(Strategy),
    Queues(u64),
    Topic(TextValue),
    Publisher {
        topic: u64,
        base: Msg,
    },
    Update(Msg),
    Recap,
    Pause(u32),
    Client,
    Sub {
        topic: u64,
        kind: SubKind,
        queue: QueueName,
        cache: u32,
        recaps: u32,
    },
    Timer {
        queue: QueueName,
        interval: u32,
    },
    Inbox {
        queue: QueueName,
    },
    Fault(FaultRow),
    At {
        call: u32,
        order: OrderWord,
    },
    Order(OrderWord),
    Now(u64),
    NowClock,
    Group(IdWords),
    Watch {
        sub: IdWord,
        timer: IdWord,
        retries: u32,
    },
}
