//! Plays a script on threads, and prints while the run goes on how many images are ok and how many are stale.
//! The gate keeps publisher 1 back until the line before was printed: so each run prints the same, unless a loop gives up.
#![tactic(auto)]

ghost use Rattle.std.specs.Prelude.{◌≡◌};

use mama_carry::PlanMaker;
use mama_edge::MemoryClock;
use mama_event::{Quality, SubId};
use mama_play::{Gate, GateActor, ImageReader, Observer, SilentGroups, play_observed};
use mama_script::parse;
use std::sync::atomic::{AtomicU32, Ordering};
use std::thread::Threads;
use std::{io, thread};

// What is waited for before each line: at least so many images that are ok, and so many that are stale.
const STAGES: [(u32, u32); 3] = [(1, 0), (3, 0), (0, 1)];
// After so many turns each loop gives up.
const MOST_TURNS: u64 = 50_000_000;

/// How many lines were printed or given up, and how many turns publisher 1 had.
#[derive(Drop)]
struct Watch<P: Print + Drop> {
    printer: P,
    lines: AtomicU32,
    turns: AtomicU32,
}

// How many images are ok, and how many are stale, unless a look is refused. Each is read once, so that none counts as both.
fn count<R: Copy>(rt: R, reader: &mut ImageReader) -> Option<(u32, u32)>
    ensures { reader.new.queue ≡ reader.old.queue }
{
    let (mut ok, mut stale) = (0u32, 0u32);
    for number in 0..3 {
        if let Some(head) = reader.fixed(rt, SubId { client: 0, number }).ok()? {
            ok = ok.saturating_add(u32::from(head.quality == Quality::Ok));
            stale = stale.saturating_add(u32::from(head.quality == Quality::Stale));
        }
    }
    Some((ok, stale))
}

impl<P: Print + Drop> Watch<P> {
    fn print<R: Copy>(&self, rt: R, reader: &mut ImageReader) -> Option<()>
        ensures { reader.new.queue ≡ reader.old.queue }
    {
        for (least_ok, least_stale) in STAGES {
            for _ in 0..MOST_TURNS {
                let (ok, stale) = count(rt, reader)?;
                if ok >= least_ok && stale >= least_stale {
                    let _ = println!(self.printer; "{ok} ok, {stale} stale");
                    break;
                }
                thread::yield_now();
            }
            self.lines.fetch_add(1, Ordering::SeqCst);
        }
        Some(())
    }
}

impl<P: Print + Drop> Observer for Watch<P> {
    fn look<R: Threads + Copy>(&self, rt: R, readers: &mut [ImageReader]) {
        if let Some(reader) = readers.first_mut() {
            let _ = self.print(rt, reader);
        }
    }
}

// Publisher 1 answers its two subscriptions once the image of the third was printed, and goes on when all were.
impl<P: Print + Drop> Gate for Watch<P> {
    fn turn(&self, actor: GateActor) {
        if actor == GateActor::Publisher(1) {
            let lines = 1 + u32::from(self.turns.fetch_add(1, Ordering::SeqCst) > 1);
            for _ in 0..MOST_TURNS {
                if self.lines.load(Ordering::SeqCst) >= lines {
                    return;
                }
                thread::yield_now();
            }
            self.lines.store(2, Ordering::SeqCst);
        }
    }
}

fn main(rt: HostRuntime) -> anyhow::Result<()> {
    let alloc = rt.alloc();
    let script = parse(alloc, io::read_to_string(alloc, rt.stdin())?.as_bytes())?;
    let watch = &Watch {
        printer: rt,
        lines: AtomicU32::new(0),
        turns: AtomicU32::new(0),
    };
    let maker = &mut PlanMaker::new();
    let groups = &mut SilentGroups::new();
    let clock = &mut MemoryClock::new(Vec::new(alloc));
    let played = play_observed(&rt, alloc, &script, maker, groups, clock, watch, watch, 2)?;
    println!(rt; "{} last images", played.0.images().len())?;
    Ok(())
}
