ghost use Rattle.std.specs.Prelude.{◌≡◌, ◌==◌, ◌<◌, ◌++◌, [], ◌∷◌, List, ℕ, position, length, slice_index, IfOk, OnOk};
ghost use Rattle.mama_event.specs.Ports.{clients_of, queues_of};
ghost use Rattle.mama_bridge.specs.Chart.{AreFirsts};

use mama_event::{Shape, Strategy, Topics};
use mama_memory::OutOfMemory;
use std::alloc::Global;
use std::collections::BTreeMap;
use std::marker::Model;

/// A shape, with the first publisher of each topic at hand. It is seen as the shape.
#[derive(Drop)]
pub(crate) struct Chart {
    shape: Shape,
    firsts: BTreeMap<u32, usize>,
}

impl Model for Chart {
    ghost use Rattle.mama_event.specs.declared.shape.Shape.{Shape as Data};
    ghost use Rattle.mama_bridge.specs.Chart.{AreFirsts};

    ghost Value = { Data };

    ghost view = { λ c. c.shape };

    ghost invariant = { λ c. AreFirsts c.shape.publisher_topics c.firsts };
}

impl Chart {
    /// The chart of a copy of this shape.
    pub(crate) fn new(alloc: Global, shape: &Shape) -> Result<Chart, OutOfMemory>
        ensures { IfOk result (λ chart. chart ≡ shape.now) }
    {
        let topics = Vec::from_slice(alloc, shape.publisher_topics.as_slice())?;
        let firsts = firsts_of(alloc, shape.publisher_topics.as_slice())?;
        Ok(Chart {
            shape: Shape {
                clients: shape.clients,
                publisher_topics: Topics::new(topics),
                bounds: shape.bounds,
                strategy: shape.strategy,
            },
            firsts,
        })
    }

    /// The number of clients.
    pub(crate) fn clients(&self) -> u32
        ensures { result ≡ clients_of self.now }
    {
        self.shape.clients
    }

    /// The number of publishers.
    pub(crate) fn len(&self) -> usize
        ensures { result ≡ length self.now.publisher_topics }
    {
        self.shape.publisher_topics.len()
    }

    /// The number of queues.
    pub(crate) fn queues(&self) -> u32
        ensures { result ≡ queues_of self.now }
    {
        self.shape.bounds.queues
    }

    /// The strategy of all market subscriptions.
    pub(crate) fn strategy(&self) -> Strategy
        ensures { result ≡ self.now.strategy }
    {
        self.shape.strategy
    }

    /// The topic of publisher `i`.
    pub(crate) fn at(&self, i: usize) -> u32
        requires { i < length self.now.publisher_topics }
        ensures { result ≡ slice_index self.now.publisher_topics i }
    {
        self.shape.publisher_topics.at(i)
    }

    /// The publisher of a topic with the lowest number.
    pub(crate) fn first_publisher(&self, topic: u32) -> Option<usize>
        ensures { result ≡ position (λ t. t == topic) self.now.publisher_topics }
    {
        self.firsts.get(&topic).copied()
    }
}

/// The first publisher of each topic, where these are the topics of publishers 0, 1 and so on.
fn firsts_of(alloc: Global, topics: &[u32]) -> Result<BTreeMap<u32, usize>, OutOfMemory>
    ensures { IfOk result (λ firsts. AreFirsts topics.now firsts) }
{
    let mut firsts = BTreeMap::new(alloc);
    for (number, topic) in topics.iter().enumerate() {
        note_first(&mut firsts, *topic, number)?;
    }
    Ok(firsts)
}

/// Notes the topic of the next publisher, if it is the first that sends it.
fn note_first(
    firsts: &mut BTreeMap<u32, usize>,
    topic: u32,
    number: usize,
) -> Result<(), OutOfMemory>
    ensures { OnOk result ((topics : List ℕ) → number ≡ length topics → AreFirsts topics firsts.old → AreFirsts (topics ++ topic ∷ []) firsts.new) }
{
    if !firsts.contains_key(&topic) {
        firsts.insert(topic, number)?;
    }
    Ok(())
}
