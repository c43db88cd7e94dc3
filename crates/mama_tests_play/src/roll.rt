//! A gate that notes for which actors it was called.

use mama_edge::{Gate, GateActor};
use std::sync::atomic::Ordering::SeqCst;
use std::sync::atomic::{AtomicBool, AtomicU64};

/// The actors that have had a turn: of each kind a bit for each number below 64.
#[derive(Drop)]
pub struct Roll {
    clients: AtomicU64,
    publishers: AtomicU64,
    queues: AtomicU64,
    bridge: AtomicBool,
    timers: AtomicBool,
}

// Notes a number below 64.
fn note(seen: &AtomicU64, number: u32) {
    if number < 64 {
        seen.fetch_or(1u64 << number, SeqCst);
    }
}

impl Roll {
    pub fn new() -> Roll {
        Roll {
            clients: AtomicU64::new(0),
            publishers: AtomicU64::new(0),
            queues: AtomicU64::new(0),
            bridge: AtomicBool::new(false),
            timers: AtomicBool::new(false),
        }
    }

    /// Whether both services had a turn, and just these of the others: a bit for each number.
    pub fn is_of(&self, clients: u64, publishers: u64, queues: u64) -> bool {
        self.clients.load(SeqCst) == clients
            && self.publishers.load(SeqCst) == publishers
            && self.queues.load(SeqCst) == queues
            && self.bridge.load(SeqCst)
            && self.timers.load(SeqCst)
    }
}

impl Gate for Roll {
    fn turn(&self, actor: GateActor) {
        match actor {
            GateActor::Client(number) => note(&self.clients, number),
            GateActor::Publisher(number) => note(&self.publishers, number),
            GateActor::Queue(number) => note(&self.queues, number),
            GateActor::Bridge => self.bridge.store(true, SeqCst),
            GateActor::Timers => self.timers.store(true, SeqCst),
        }
    }
}
