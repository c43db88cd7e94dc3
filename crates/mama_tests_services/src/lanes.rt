//! What a service put, each event as the entry that its taker's journal gets.

use mama_bridge::BridgeOut;
use mama_event::{
    ObjectId, PublisherEntry, QueueNote, Shape, Stream, TimersNote, ToPublisher, ToQueue, ToTimers,
};
use mama_memory::OutOfMemory;
use mama_timer::TimerOut;
use std::alloc::Global;

/// The journals of publishers, of the timer service and of queues, so far.
#[derive(Drop)]
pub struct Lanes {
    pub publishers: Vec<Vec<PublisherEntry>>,
    pub timers: Vec<(u32, TimersNote)>,
    pub queues: Vec<Vec<(u32, QueueNote)>>,
    timers_port: u32,
}

fn note_of<E: Stream>(event: &E) -> Result<E::Note, OutOfMemory> {
    event.note()
}

fn empty<T: Drop>(alloc: Global, count: usize) -> Result<Vec<Vec<T>>, OutOfMemory> {
    let mut lists = Vec::new(alloc);
    for _ in 0..count {
        lists.push(Vec::new(alloc))?;
    }
    Ok(lists)
}

impl Lanes {
    /// Nothing was put yet.
    pub fn new(alloc: Global, shape: &Shape) -> Result<Lanes, OutOfMemory> {
        Ok(Lanes {
            publishers: empty(alloc, shape.publisher_topics.len())?,
            timers: Vec::new(alloc),
            queues: empty(alloc, shape.bounds.queues as usize)?,
            timers_port: shape.clients.saturating_add(shape.bounds.queues),
        })
    }

    fn to_publisher(&mut self, publisher: u32, event: ToPublisher) -> Result<(), OutOfMemory> {
        let note = note_of(&event)?;
        match self.publishers.get_mut(publisher as usize) {
            Some(journal) => Ok(journal.push(PublisherEntry::Took(note))?),
            None => Err(OutOfMemory),
        }
    }

    fn to_queue(
        &mut self,
        port: u32,
        queue: u32,
        event: ToQueue<ObjectId>,
    ) -> Result<(), OutOfMemory> {
        let note = note_of(&event)?;
        match self.queues.get_mut(queue as usize) {
            Some(journal) => Ok(journal.push((port, note))?),
            None => Err(OutOfMemory),
        }
    }

    fn to_timers(&mut self, event: ToTimers<ObjectId>) -> Result<(), OutOfMemory> {
        let note = note_of(&event)?;
        Ok(self.timers.push((self.timers_port, note))?)
    }

    /// What the bridge put.
    pub fn of_bridge(&mut self, out: BridgeOut<ObjectId>) -> Result<(), OutOfMemory> {
        match out {
            BridgeOut::Publisher(publisher, event) => self.to_publisher(publisher, event),
            BridgeOut::Queue(queue, event) => self.to_queue(0, queue, event),
            BridgeOut::Timers(event) => self.to_timers(event),
        }
    }

    /// What the timer service put.
    pub fn of_timers(&mut self, out: TimerOut<ObjectId>) -> Result<(), OutOfMemory> {
        self.to_queue(1, out.queue, out.event)
    }
}
