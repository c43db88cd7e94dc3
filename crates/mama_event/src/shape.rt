ghost use Rattle.std.specs.Prelude.{◌≡◌, ◌==◌, ◌<◌, length, slice_index};
ghost use Rattle.std.specs.Str.{bytes_eq};

use std::marker::Model;

/// How many topics and queues there are. A topic's number is below `topics` and a queue's below `queues`.
#[derive(Clone, Copy, Debug, PartialEq, Eq)]
pub struct Bounds {
    pub topics: u32,
    pub queues: u32,
}

/// The topic of each publisher, in order of the publishers' numbers.
#[derive(Debug, Drop)]
pub struct Topics {
    topics: Vec<u32>,
}

impl Model for Topics {
    ghost use Rattle.std.specs.Prelude.{List, ℕ};

    ghost Value = { List ℕ };

    ghost view = { λ t. t.topics.items };
}

impl PartialEq for Topics {
    ghost use Rattle.std.specs.Cmp.{partial_equiv_from_equiv};
    ghost use Rattle.std.specs.Cmp.Lexicographic.{nat_list_eq_equiv};

    ghost eq = { bytes_eq };

    ghost laws = { partial_equiv_from_equiv nat_list_eq_equiv };

    fn eq(&self, other: &Topics) -> bool
        ensures { result ≡ bytes_eq self.now other.now }
    {
        self.as_slice() == other.as_slice()
    }
}

impl Eq for Topics {
    ghost use Rattle.std.specs.Cmp.Lexicographic.{nat_list_eq_equiv};

    ghost laws = { nat_list_eq_equiv };
}

impl Topics {
    /// The topics of publishers 0, 1 and so on.
    pub fn new(topics: Vec<u32>) -> Topics
        ensures { result ≡ topics.items }
    {
        Topics { topics }
    }

    /// The number of publishers.
    pub fn len(&self) -> usize
        ensures { result ≡ length self.now }
    {
        self.topics.len()
    }

    /// Whether there is no publisher.
    pub fn is_empty(&self) -> bool
        ensures { result ≡ (length self.now == 0) }
    {
        self.topics.is_empty()
    }

    /// The topic of publisher `i`.
    pub fn at(&self, i: usize) -> u32
        requires { i < length self.now }
        ensures { result ≡ slice_index self.now i }
    {
        self.topics[i]
    }

    /// The topics in order.
    pub fn as_slice(&self) -> &[u32]
        ensures { result.now ≡ self.now }
    {
        self.topics.as_slice()
    }

    /// The list that this was made from.
    pub fn into_vec(self) -> Vec<u32>
        ensures { result.items ≡ self }
    {
        let Topics { topics } = self;
        topics
    }
}

/// What becomes of updates that come early or late to a market subscription.
#[derive(Clone, Copy, Debug, PartialEq, Eq)]
pub enum Strategy {
    /// The first image takes the updates that came before it, and late updates are passed over.
    One,
    /// The updates that came before the first image are kept until the first gap, and late updates are told.
    Two,
}

/// How many actors of each kind there are, which topic each publisher sends, and the strategy of all market
/// subscriptions. A publisher's number is below the length of `publisher_topics` and a client's below `clients`.
#[derive(Debug, Drop, PartialEq, Eq)]
pub struct Shape {
    pub clients: u32,
    pub publisher_topics: Topics,
    pub bounds: Bounds,
    pub strategy: Strategy,
}

/// What an actor that took an event answers.
#[derive(Clone, Copy, Debug, PartialEq, Eq)]
pub enum Took {
    /// It goes on taking.
    Running,
    /// That was the last event that it takes.
    Ended,
}
