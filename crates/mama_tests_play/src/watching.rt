//! An observer that reads an image while the play goes on, and a gate that keeps the client until it has.
ghost use Rattle.std.specs.Prelude.{◌≡◌};

use mama_edge::{Gate, GateActor};
use mama_event::{Quality, SubId};
use mama_play::{ImageReader, Observer};
use std::sync::atomic::Ordering::SeqCst;
use std::sync::atomic::{AtomicBool, AtomicU64};
use std::thread;
use std::thread::Threads;

// After so many turns each loop ends.
const MOST_TURNS: u64 = 50_000_000;

const SUB: SubId = SubId {
    client: 0,
    number: 0,
};

/// Whether the image was seen, how many turns the client had, and whether its second waited until the image was seen; how often the
/// observer was called, and with how many readers.
#[derive(Drop)]
pub struct Watch {
    seen: AtomicBool,
    turns: AtomicU64,
    awaited: AtomicBool,
    looks: AtomicU64,
    readers: AtomicU64,
}

impl Watch {
    pub fn new() -> Watch {
        Watch {
            seen: AtomicBool::new(false),
            turns: AtomicU64::new(0),
            awaited: AtomicBool::new(false),
            looks: AtomicU64::new(0),
            readers: AtomicU64::new(0),
        }
    }

    /// Whether the observer saw the image, and the client's second turn waited for just that.
    pub fn is_kept(&self) -> bool {
        self.seen.load(SeqCst) && self.awaited.load(SeqCst)
    }

    /// How often the observer was called, and with how many readers.
    pub fn looks(&self) -> (u64, u64) {
        (self.looks.load(SeqCst), self.readers.load(SeqCst))
    }

    // Counts a call with so many readers.
    fn count_look(&self, readers: usize) {
        self.looks.fetch_add(1, SeqCst);
        self.readers.store(readers as u64, SeqCst);
    }

    // Waits until the image was seen, for so many turns.
    fn await_image(&self) {
        for _ in 0..MOST_TURNS {
            if self.seen.load(SeqCst) {
                self.awaited.store(true, SeqCst);
                return;
            }
            thread::yield_now();
        }
    }

    // Reads until there is an image, for so many turns.
    fn look_by<R: Copy>(&self, rt: R, reader: &mut ImageReader)
        ensures { reader.new.queue ≡ reader.old.queue }
    {
        for _ in 0..MOST_TURNS {
            if has_image(rt, reader) {
                self.seen.store(true, SeqCst);
                return;
            }
            thread::yield_now();
        }
    }
}

// Whether there is an image of the subscription, and it is ok and from publisher 1.
fn has_image<R: Copy>(rt: R, reader: &mut ImageReader) -> bool
    ensures { reader.new.queue ≡ reader.old.queue }
{
    match reader.fixed(rt, SUB) {
        Ok(Some(head)) => head.sender == 2 && head.quality == Quality::Ok,
        Ok(None) => false,
        Err(_) => false,
    }
}

// The client's second turn waits.
impl Gate for Watch {
    fn turn(&self, actor: GateActor) {
        if let GateActor::Client(_) = actor {
            if self.turns.fetch_add(1, SeqCst) == 1 {
                self.await_image();
            }
        }
    }
}

impl Observer for Watch {
    fn look<R: Threads + Copy>(&self, rt: R, readers: &mut [ImageReader]) {
        self.count_look(readers.len());
        if let Some(reader) = readers.first_mut() {
            self.look_by(rt, reader);
        }
    }
}
