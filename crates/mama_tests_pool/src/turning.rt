//! Seats that count down by a word that threads share, over one and over several groups.
ghost use Rattle.std.specs.Prelude.{⊤, ◌<◌, ◌≤◌};
ghost use Rattle.mama_edge.specs.declared.gate.GateActor.TheVariants.{Queue};

use mama_edge::{Gate, GateActor, MemoryClock, OpenGate};
use mama_memory::OutOfMemory;
use mama_work::{Seat, turn_groups};
use std::alloc::Global;
use std::sync::Wait;
use std::sync::atomic::Ordering::SeqCst;
use std::sync::atomic::{AtomicBool, AtomicU32};
use std::test::Fail;
use std::thread;
use std::thread::Threads;

// Has so many steps to make, each of which counts. It finds no memory where it has more than a hundred.
#[derive(Drop)]
struct Countdown {
    number: u32,
    left: u32,
}

impl Seat for Countdown {
    type Script = u32;

    type Hall = AtomicU32;

    ghost sits = { λ script hall seat. ⊤ };

    ghost acts = { λ seat. Queue seat.number };

    ghost is_over = { λ seat. ⊤ };

    fn actor(&self) -> GateActor {
        GateActor::Queue(self.number)
    }

    fn reads_clock(&self) -> bool {
        self.left == 1
    }

    fn ended(&self) -> bool {
        self.left == 0
    }

    fn turn<Rt: Wait + Copy>(
        &mut self,
        _rt: Rt,
        script: &u32,
        hall: &AtomicU32,
        moment: u64,
    ) -> Result<bool, OutOfMemory> {
        if self.left > 100 {
            return Err(OutOfMemory);
        }
        if self.left == 1 && moment != 7 {
            return Err(OutOfMemory);
        }
        hall.fetch_add(*script, SeqCst);
        self.left = self.left.saturating_sub(1);
        Ok(true)
    }
}

// So many seats, each with so many steps, the first of them with as many more.
fn seats_of(
    alloc: Global,
    seats: u32,
    steps: u32,
    more: u32,
) -> Result<Vec<Countdown>, OutOfMemory> {
    let mut made = Vec::new(alloc);
    for number in 0..seats {
        let left = if number == 0 {
            steps.saturating_add(more)
        } else {
            steps
        };
        made.push(Countdown { number, left })?;
    }
    Ok(made)
}

// Groups of so many seats, each with so many steps.
fn groups_of(
    alloc: Global,
    groups: u32,
    seats: u32,
    steps: u32,
) -> Result<Vec<Vec<Countdown>>, OutOfMemory> {
    let mut made = Vec::new(alloc);
    for _ in 0..groups {
        made.push(seats_of(alloc, seats, steps, 0)?)?;
    }
    Ok(made)
}

// What came back: how many seats of groups, whether all have ended, how many steps were counted, the numbers of the queues in
// ascending order, and how often a queue was taken from another thread's.
#[derive(Drop)]
struct Seen {
    back: usize,
    ended: bool,
    counted: u32,
    queues: Vec<u32>,
    stolen: usize,
}

// Turns groups of seats, and queues.
fn turned<G: Gate + Sync, R: Threads + Wait + Copy + Sync>(
    rt: &R,
    alloc: Global,
    gate: &G,
    workers: u32,
    groups: Vec<Vec<Countdown>>,
    queues: Vec<Countdown>,
) -> Result<Seen, OutOfMemory>
    requires { (0 < workers) × (workers ≤ 64) }
{
    let counted = AtomicU32::new(0);
    let mut clock = MemoryClock::new(Vec::from_slice(alloc, &[7u64])?);
    let turned = turn_groups(
        rt, alloc, &1, &counted, &mut clock, gate, workers, groups, queues,
    )?;
    let mut numbers = Vec::new(alloc);
    for seat in &turned.queues {
        numbers.push(seat.number)?;
    }
    numbers.sort_unstable();
    Ok(Seen {
        back: turned.seats.len(),
        ended: turned.ended,
        counted: counted.load(SeqCst),
        queues: numbers,
        stolen: turned.stolen,
    })
}

#[test]
fn all_seats_end_and_come_back(rt: HostRuntime) -> Result<(), Fail> {
    let alloc = rt.alloc();
    for (groups, seats, steps) in [(1, 1, 1), (4, 3, 5), (0, 3, 5), (3, 2, 0)] {
        let made = groups_of(alloc, groups, seats, steps)?;
        let seen = turned(&rt, alloc, &OpenGate, 1, made, Vec::new(alloc))?;
        let all = groups.wrapping_mul(seats);
        assert_eq!(rt; seen.back, all as usize);
        assert_eq!(rt; seen.counted, all.wrapping_mul(steps));
        assert!(rt; seen.ended && seen.queues.is_empty());
    }
    Ok(())
}

#[test]
fn each_queue_comes_back_once(rt: HostRuntime) -> Result<(), Fail> {
    let alloc = rt.alloc();
    for workers in [1, 3, 4, 7] {
        let groups = groups_of(alloc, 2, 2, 5)?;
        let queues = seats_of(alloc, 4, 90, 10)?;
        let seen = turned(&rt, alloc, &OpenGate, workers, groups, queues)?;
        assert_eq!(rt; seen.back, 4);
        assert!(rt; seen.ended);
        assert_eq!(rt; seen.counted, 390, "of {workers} workers");
        assert_eq!(rt; seen.queues.as_slice(), [0u32, 1, 2, 3].as_slice());
    }
    Ok(())
}

// The most looks for a turn of another queue.
const MOST_LOOKS: u32 = 1_000_000;

// Turns of queue 0 wait for one of queue 2.
#[derive(Drop)]
struct Waits {
    seen: AtomicBool,
    met: AtomicBool,
}

impl Gate for Waits {
    fn turn(&self, actor: GateActor) {
        match actor {
            GateActor::Queue(0) => {
                for _ in 0..MOST_LOOKS {
                    if self.seen.load(SeqCst) {
                        self.met.store(true, SeqCst);
                        return;
                    }
                    thread::yield_now();
                }
            }
            GateActor::Queue(2) => self.seen.store(true, SeqCst),
            _ => {}
        }
    }
}

// Queues 0 and 2 begin with one thread. While it waits in a turn of queue 0, the other takes queue 2.
#[test]
fn a_thread_without_queues_takes_those_of_another(rt: HostRuntime) -> Result<(), Fail> {
    let alloc = rt.alloc();
    let gate = Waits {
        seen: AtomicBool::new(false),
        met: AtomicBool::new(false),
    };
    let queues = seats_of(alloc, 4, 5, 0)?;
    let seen = turned(&rt, alloc, &gate, 2, Vec::new(alloc), queues)?;
    assert!(rt; seen.ended);
    assert_eq!(rt; seen.counted, 20);
    assert!(rt; 0 < seen.stolen && gate.met.load(SeqCst));
    let queues = seats_of(alloc, 4, 5, 0)?;
    let seen = turned(&rt, alloc, &OpenGate, 1, Vec::new(alloc), queues)?;
    assert_eq!(rt; seen.stolen, 0);
    Ok(())
}

#[test]
fn a_turn_that_finds_no_memory_stops_all(rt: HostRuntime) -> Result<(), Fail> {
    let alloc = rt.alloc();
    let groups = groups_of(alloc, 2, 2, 1000)?;
    let seen = turned(&rt, alloc, &OpenGate, 2, groups, Vec::new(alloc))?;
    assert!(rt; !seen.ended);
    let queues = seats_of(alloc, 3, 1000, 0)?;
    let seen = turned(&rt, alloc, &OpenGate, 2, Vec::new(alloc), queues)?;
    assert!(rt; !seen.ended);
    Ok(())
}
