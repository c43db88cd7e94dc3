use crate::lanes::Lanes;
use crate::rows::{is_log, names_in, parted, record_of, script_of, with_word, worded};
use mama_event::{ObjectId, Shape, TimersNote, ToTimers, Took};
use mama_log_line::{Names, timers_entry_in};
use mama_memory::{OutOfMemory, Outbox};
use mama_record::RunRecord;
use mama_timer::{TimerOut, Timers};
use std::alloc::Global;
use std::test::Fail;

// Each world has a script, the journal of the timer service, and what was put on the lanes of queues.

// A timer ticks at most once at a moment, and not at one that is earlier than the clock. It goes once.
const TICKS: &str = "mama script 1
queues 1
client
timer 0 10
#c0 arm t0.0
c0 now 10
c0 now 10
c0 now 7
c0 now 35
q0 disarm t0.0
q0 disarm t0.0
c0 done
b fin
q0 bye
#queue 0
t create 0 t0.0
t tick 0 t0.0 10
t tick 0 t0.0 35
t gone 0 t0.0
t fin
images
end
";

// Timers that are due at one moment tick in the order of their numbers, and the earlier due first. A slot that is free
// is given again, and at the ending timers go in the order of their numbers.
const ORDER: &str = "mama script 1
queues 1
client
timer 0 5
timer 0 4
timer 0 5
timer 0 1
#c0 arm t0.2
c0 arm t0.0
c0 arm t0.1
c0 now 6
c0 disarm t0.0
c0 arm t0.3
c0 done
b fin
#queue 0
t create 0 t0.2
t create 1 t0.0
t create 2 t0.1
t tick 2 t0.1 6
t tick 1 t0.0 6
t tick 0 t0.2 6
t gone 1 t0.0
t create 1 t0.3
t gone 2 t0.1
t gone 0 t0.2
t gone 1 t0.3
t fin
images
end
";

// The clock stands still at its last moment.
const LAST_MOMENT: &str = "mama script 1
queues 1
client
timer 0 1
#c0 arm t0.0
c0 now 18446744073709551615
c0 now 18446744073709551615
#queue 0
t create 0 t0.0
t tick 0 t0.0 9223372036854775807
images
end
";

// What a port never puts does nothing, and a timer comes once. The ending waits for the client and for the bridge, and
// each queue is told.
const PORTS: &str = "mama script 1
queues 2
client
timer 1 1
#c0 disarm t0.0
q0 arm t0.0
b arm t0.0
q0 now 5
c0 fin
c0 bye
b bye
b fin
c0 arm t0.0
c0 now 1
c0 arm t0.0
q0 done
c0 done
q1 bye
q0 bye
#queue 0
t fin
queue 1
t create 0 t0.0
t tick 0 t0.0 1
t gone 0 t0.0
t fin
images
end
";

// The event that has this note, with a listener of its tag.
fn event_of(note: TimersNote) -> ToTimers<ObjectId> {
    match note {
        TimersNote::Arm {
            timer,
            queue,
            interval,
            tag,
        } => ToTimers::Arm {
            timer,
            queue,
            interval,
            listener: tag,
        },
        TimersNote::Disarm { timer } => ToTimers::Disarm { timer },
        TimersNote::Now { moment } => ToTimers::Now { moment },
        TimersNote::ClientDone => ToTimers::ClientDone,
        TimersNote::Bye => ToTimers::Bye,
        TimersNote::Fin => ToTimers::Fin,
    }
}

type Entry = Option<(u32, TimersNote)>;

fn read(alloc: Global, names: &Names, line: &str) -> Result<Entry, OutOfMemory> {
    timers_entry_in(names, &mut Vec::new(alloc), line.as_bytes())
}

// The entry of a line with another first word.
fn entry_with(alloc: Global, names: &Names, word: &str, rest: &str) -> Result<Entry, Fail> {
    let line = with_word(alloc, word, rest)?;
    Ok(read(alloc, names, line.as_str())?)
}

// The port of a putter's word.
fn port_of(alloc: Global, names: &Names, word: &str) -> Result<u32, Fail> {
    for end in "done bye fin".split(' ') {
        if let Some((port, _)) = entry_with(alloc, names, word, end)? {
            return Ok(port);
        }
    }
    Err(Fail::new("no port"))
}

// The note of a line that another putter would put.
fn note_of(alloc: Global, names: &Names, rest: &str) -> Result<TimersNote, Fail> {
    for word in "c0 q0 b".split(' ') {
        if let Some((_, note)) = entry_with(alloc, names, word, rest)? {
            return Ok(note);
        }
    }
    Err(Fail::new("no entry"))
}

// The entry of a line that no log has, since its putter never puts the event.
fn strange(alloc: Global, names: &Names, line: &str) -> Result<(u32, TimersNote), Fail> {
    let (putter, rest) = worded(line);
    let port = port_of(alloc, names, putter)?;
    Ok((port, note_of(alloc, names, rest)?))
}

fn entry_of(alloc: Global, names: &Names, line: &str) -> Result<(u32, TimersNote), Fail> {
    match read(alloc, names, line)? {
        Some(entry) => Ok(entry),
        None => strange(alloc, names, line),
    }
}

// A timer service, the names that its lines are read by, and what it put.
#[derive(Drop)]
struct World {
    names: Names,
    timers: Timers<ObjectId>,
    lanes: Lanes,
}

fn new_timers(alloc: Global, shape: &Shape) -> Result<Timers<ObjectId>, OutOfMemory> {
    Timers::new(alloc, shape)
}

fn world_of(alloc: Global, text: &str, shape: &Shape) -> Result<World, Fail> {
    Ok(World {
        names: names_in(alloc, text)?,
        timers: new_timers(alloc, shape)?,
        lanes: Lanes::new(alloc, shape)?,
    })
}

type Out = Outbox<TimerOut<ObjectId>>;

fn offered(
    timers: &mut Timers<ObjectId>,
    port: u32,
    event: ToTimers<ObjectId>,
    out: &mut Out,
) -> Result<Took, ToTimers<ObjectId>> {
    timers.take(port, event, out)
}

// Takes an event. It tells whether that was the last.
fn take(
    timers: &mut Timers<ObjectId>,
    entry: (u32, TimersNote),
    out: &mut Out,
) -> Result<bool, OutOfMemory> {
    match offered(timers, entry.0, event_of(entry.1), out) {
        Ok(took) => Ok(took == Took::Ended),
        Err(_) => Err(OutOfMemory),
    }
}

// Deals what was put.
fn deal(lanes: &mut Lanes, out: &mut Out) -> Result<(), OutOfMemory> {
    for _ in 0..out.len() {
        if let Some(put) = out.take_first() {
            lanes.of_timers(put)?;
        }
    }
    Ok(())
}

fn take_line(alloc: Global, world: &mut World, line: &str) -> Result<bool, Fail> {
    let entry = entry_of(alloc, &world.names, line)?;
    let mut out = Outbox::new(alloc);
    let ended = take(&mut world.timers, entry, &mut out)?;
    deal(&mut world.lanes, &mut out)?;
    Ok(ended)
}

// Takes all lines, of which just a last one may be the last event.
fn take_all(alloc: Global, world: &mut World, lines: &str) -> Result<bool, Fail> {
    let mut ended = false;
    for line in lines.lines() {
        if ended {
            return Err(Fail::new("an event behind the last"));
        }
        ended = take_line(alloc, world, line)?;
    }
    Ok(ended == lines.ends_with("bye\n"))
}

fn journal_of(timers: Timers<ObjectId>) -> Vec<(u32, TimersNote)> {
    timers.into_journal()
}

fn run_of(alloc: Global, world: World) -> RunRecord {
    let lanes = world.lanes;
    let timers = journal_of(world.timers);
    record_of(
        alloc,
        Vec::new(alloc),
        Vec::new(alloc),
        timers,
        lanes.queues,
    )
}

// Whether the log of a timer service that takes these lines is this text.
fn puts(alloc: Global, text: &str, lines: &str, log: &str) -> Result<bool, Fail> {
    let script = script_of(alloc, text)?;
    let mut world = world_of(alloc, text, script.shape())?;
    if !take_all(alloc, &mut world, lines)? {
        return Ok(false);
    }
    let run = run_of(alloc, world);
    is_log(alloc, script.shape(), &run, log)
}

fn is_so(alloc: Global, world: &str) -> Result<bool, Fail> {
    let (text, rest) = parted(world);
    let (lines, queues) = parted(rest);
    let log = format!(in alloc; "mama log 1\nbridge\ntimers\n{lines}{queues}")?;
    puts(alloc, text, lines, log.as_str())
}

#[test]
fn a_timer_ticks_once_at_a_moment_and_goes_once(rt: HostRuntime) -> Result<(), Fail> {
    assert!(rt; is_so(rt.alloc(), TICKS)?);
    Ok(())
}

#[test]
fn timers_of_one_moment_tick_in_the_order_of_their_numbers(rt: HostRuntime) -> Result<(), Fail> {
    assert!(rt; is_so(rt.alloc(), ORDER)?);
    Ok(())
}

#[test]
fn the_clock_stands_still_at_its_last_moment(rt: HostRuntime) -> Result<(), Fail> {
    assert!(rt; is_so(rt.alloc(), LAST_MOMENT)?);
    Ok(())
}

#[test]
fn what_a_port_never_puts_to_the_timers_does_nothing(rt: HostRuntime) -> Result<(), Fail> {
    assert!(rt; is_so(rt.alloc(), PORTS)?);
    Ok(())
}
