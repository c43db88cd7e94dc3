use crate::lanes::Lanes;
use crate::rows::{is_log, names_in, parted, record_of, script_of, with_word, worded};
use mama_bridge::{Bridge, BridgeOut, MemoryBridge};
use mama_event::{BridgeNote, ObjectId, Packet, Shape, ToBridge, Took, WireMsg};
use mama_log_line::{Names, bridge_entry_in};
use mama_memory::{OutOfMemory, Outbox};
use mama_record::RunRecord;
use mama_script::Script;
use std::alloc::Global;
use std::test::Fail;

// Each world has a script in two parts, between which a line's names may have topics that the bridge does not know, the
// bridge's journal, and what was put: on the lanes of publishers, and on the others. Lines of a journal that the putter never
// puts have its word in front of what another putter would put.

// A queue and two clients end one subscription, and only the first of them does.
const LEAVES: &str = "mama script 1
queues 1
topic \"A\"
#publisher 0 1:a:u8:1
client
sub 0 market 0 10 1000
client
#c0 join s0.0
p0 image s0.0 initial 1 0 1:a:u8:1
c1 leave s0.0
q0 leave s0.0
p0 publish update 1 1 1:a:u8:2
c0 leave s0.0
q0 recap s0.0 1
c0 done
c1 done
p0 done
p0 settled
q0 bye
#publisher 0
want s0.0 initial
settle
fin
#timers
b fin
queue 0
b create 0 s0.0
b data 0 s0.0 initial 1 0 1:a:u8:1
b gone 0 s0.0
b fin
images
end
";

// The same, where the queue is the first, and an order comes before the subscription.
const LEAVES_OF_QUEUE: &str = "mama script 1
queues 1
topic \"A\"
#publisher 0 1:a:u8:1
client
sub 0 market 0 10 1000
client
#c1 leave s0.0
c0 join s0.0
p0 publish update 1 1 1:a:u8:2
q0 leave s0.0
c1 leave s0.0
c0 leave s0.0
p0 image s0.0 initial 1 1 1:a:u8:2
c0 join s0.0
#publisher 0
want s0.0 initial
#timers
queue 0
b create 0 s0.0
b data 0 s0.0 update 1 1 1:a:u8:2
b gone 0 s0.0
images
end
";

// The first publisher of a topic answers. A topic without a publisher has no answer, nor has one that is not declared.
const TOPICS: &str = "mama script 1
queues 1
topic \"A\"
#topic \"B\"
publisher 0 1:a:u8:1
publisher 0 1:a:u8:2
client
inbox 0
sub 1 market 0 10 1000
#c0 ask i0.0 0 1
c0 open i0.0
q0 ask i0.0 2 1
q0 ask i0.0 4 1
c0 ask i0.0 1 1
c0 ask i0.0 0 1 65535
p0 reply i0.0 1:a:u8:1
p0 reply i0.0
c0 join s0.0
p1 publish update 2 1 1:a:u8:3
#publisher 0
ask i0.0 1 65535
publisher 1
#timers
queue 0
b create 0 i0.0
b reply 0 i0.0 1:a:u8:1
b reply 0 i0.0
b create 1 s0.0
images
end
";

// Settling begins when all clients and all publishers are done: then no wish and no question goes on, but images, replies
// and messages still come. When all publishers have settled, subscriptions end before inboxes, and all are told.
const SETTLING: &str = "mama script 1
queues 2
topic \"A\"
#topic \"B\"
publisher 0 1:a:u8:1
publisher 1 1:b:u8:1
client
sub 0 market 0 10 1000
inbox 1
sub 1 market 1 10 1000
#c0 join s0.0
c0 open i0.0
c0 join s0.1
q0 recap s0.0 1
c0 ask i0.0 1 1
p0 done
c0 done
p1 done
q0 recap s0.0 1
q1 ask i0.0 0 1
p0 image s0.0 initial 1 0 1:a:u8:1
p1 reply i0.0 1:b:u8:2
p0 settled
p1 publish update 2 1 1:b:u8:3
p1 settled
q0 leave s0.0
q1 bye
q0 bye
#publisher 0
want s0.0 initial
want s0.0 recap
settle
fin
publisher 1
want s0.1 initial
ask i0.0 1
settle
fin
#timers
b fin
queue 0
b create 0 s0.0
b data 0 s0.0 initial 1 0 1:a:u8:1
b gone 0 s0.0
b fin
queue 1
b create 0 i0.0
b create 1 s0.1
b reply 0 i0.0 1:b:u8:2
b data 1 s0.1 update 2 1 1:b:u8:3
b gone 1 s0.1
b gone 0 i0.0
b fin
images
end
";

// The least slot that is free; each queue has slots of its own, for subscriptions and inboxes alike. An id comes once.
const SLOTS: &str = "mama script 1
queues 2
topic \"A\"
#publisher 0 1:a:u8:1
client
sub 0 basic 0 0 0
sub 0 basic 1 0 0
sub 0 snapshot 0 0 0
sub 0 basic 0 0 0
inbox 0
#c0 join s0.0
c0 open i0.0
c0 join s0.1
c0 join s0.2
q0 close i0.0
q1 close i0.0
c0 leave s0.0
c0 join s0.3
c0 join s0.0
c0 open i0.0
#publisher 0
want s0.2 initial
#timers
queue 0
b create 0 s0.0
b create 1 i0.0
b create 2 s0.2
b gone 1 i0.0
b gone 0 s0.0
b create 0 s0.3
queue 1
b create 0 s0.1
images
end
";

// What a link still holds comes before the notice, of an inbox too. A sender is a publisher's number plus one, and a
// wish goes on as often as the terms allow.
const LINKS: &str = "mama script 1
queues 1
topic \"A\"
#publisher 0 1:a:u8:1
client
sub 0 market 0 10 2
fault hold 2 5
fault lose 4
inbox 0
fault dup 1
fault hold 2 9
#c0 join s0.0
c0 open i0.0
p0 image s0.0 initial 1 0 1:a:u8:1
p0 publish update 1 1 1:a:u8:2
p0 publish update 1 2 1:a:u8:3
p0 publish update 1 3 1:a:u8:4
q0 recap s0.0 0
q0 recap s0.0 2
q0 recap s0.0 1
q0 recap s0.0 1
q0 recap s0.0 1
p0 reply i0.0 1:a:u8:1
p0 reply i0.0 1:a:u8:2
q0 leave s0.0
c0 close i0.0
p0 reply i0.0 1:a:u8:3
#publisher 0
want s0.0 initial
want s0.0 recap
want s0.0 recap
#timers
queue 0
b create 0 s0.0
b create 1 i0.0
b data 0 s0.0 initial 1 0 1:a:u8:1
b data 0 s0.0 update 1 2 1:a:u8:3
b reply 1 i0.0 1:a:u8:1
b reply 1 i0.0 1:a:u8:1
b data 0 s0.0 update 1 1 1:a:u8:2
b gone 0 s0.0
b reply 1 i0.0 1:a:u8:2
b gone 1 i0.0
images
end
";

// A link cuts what passes it, and a payload that is as long as the cut is whole. The payload of the first message is
// 01 01 07 0001 01 61 01.
const CUTS: &str = "mama script 1
queues 1
topic \"A\"
#publisher 0 1:a:u8:1
client
sub 0 market 0 10 2
fault cut 1 8
fault cut 2 7
fault hold 3 1
inbox 0
fault cut 1 0
fault dup 2
#c0 join s0.0
c0 open i0.0
p0 image s0.0 initial 1 0 1:a:u8:1
p0 publish update 1 1 1:a:u8:2
p0 publish update 1 2 1:a:u8:3
p0 publish update 1 3 1:a:u8:4
p0 reply i0.0 1:a:u8:1
p0 reply i0.0 1:a:u8:2
#publisher 0
want s0.0 initial
#timers
queue 0
b create 0 s0.0
b create 1 i0.0
b data 0 s0.0 initial 1 0 1:a:u8:1
b bad 0 s0.0 update 1 1 x01010700010161
b data 0 s0.0 update 1 3 1:a:u8:4
b data 0 s0.0 update 1 2 1:a:u8:3
b badreply 1 i0.0 x
b reply 1 i0.0 1:a:u8:2
b reply 1 i0.0 1:a:u8:2
images
end
";

// An event that its kind of port never puts does nothing, nor does a client's for an object of another.
const NO_EVENTS: &str = "mama script 1
queues 1
topic \"A\"
#publisher 0 1:a:u8:1
client
sub 0 basic 0 0 0
inbox 0
client
#p0 join s0.0
q0 join s0.0
c1 join s0.0
c1 open i0.0
q0 open i0.0
c0 join s0.0
c0 publish update 1 1 1:a:u8:2
q0 image s0.0 initial 1 0 1:a:u8:1
p0 leave s0.0
c0 recap s0.0 1
p0 bye
c0 bye
q0 done
q0 settled
c0 done
c1 done
p0 done
#publisher 0
settle
#timers
queue 0
b create 0 s0.0
images
end
";

// The event that has this note, with a listener of its tag.
fn event_of(alloc: Global, note: BridgeNote) -> Result<ToBridge<ObjectId>, Fail> {
    let event = match note {
        BridgeNote::Join { sub, terms, tag } => ToBridge::Join {
            sub,
            terms,
            listener: tag,
        },
        BridgeNote::OpenInbox { inbox, terms, tag } => ToBridge::OpenInbox {
            inbox,
            terms,
            listener: tag,
        },
        BridgeNote::Publish { msg } => ToBridge::Publish {
            msg: WireMsg::of(alloc, &msg)?,
        },
        BridgeNote::Image { sub, msg } => ToBridge::Image {
            sub,
            msg: WireMsg::of(alloc, &msg)?,
        },
        BridgeNote::Reply { inbox, body } => ToBridge::Reply {
            inbox,
            body: Packet::pack(alloc, &body)?,
        },
        BridgeNote::Leave { sub } => ToBridge::Leave { sub },
        BridgeNote::CloseInbox { inbox } => ToBridge::CloseInbox { inbox },
        BridgeNote::Ask { inbox, topic, fids } => ToBridge::Ask { inbox, topic, fids },
        BridgeNote::RecapWish { sub, sender } => ToBridge::RecapWish { sub, sender },
        BridgeNote::ClientDone => ToBridge::ClientDone,
        BridgeNote::SendsDone => ToBridge::SendsDone,
        BridgeNote::Settled => ToBridge::Settled,
        BridgeNote::Bye => ToBridge::Bye,
    };
    Ok(event)
}

type Entry = Option<(u32, BridgeNote)>;

fn read(alloc: Global, names: &Names, line: &str) -> Result<Entry, OutOfMemory> {
    bridge_entry_in(alloc, names, &mut Vec::new(alloc), line.as_bytes())
}

// The entry of a line with another first word.
fn entry_with(alloc: Global, names: &Names, word: &str, rest: &str) -> Result<Entry, Fail> {
    let line = with_word(alloc, word, rest)?;
    Ok(read(alloc, names, line.as_str())?)
}

// The port of a putter's word.
fn port_of(alloc: Global, names: &Names, word: &str) -> Result<u32, Fail> {
    for end in "done bye".split(' ') {
        if let Some((port, _)) = entry_with(alloc, names, word, end)? {
            return Ok(port);
        }
    }
    Err(Fail::new("no port"))
}

// The note of a line that another putter would put.
fn note_of(alloc: Global, names: &Names, rest: &str) -> Result<BridgeNote, Fail> {
    for word in "c0 p0 q0".split(' ') {
        if let Some((_, note)) = entry_with(alloc, names, word, rest)? {
            return Ok(note);
        }
    }
    Err(Fail::new("no entry"))
}

// The entry of a line that no log has, since its putter never puts the event.
fn strange(alloc: Global, names: &Names, line: &str) -> Result<(u32, BridgeNote), Fail> {
    let (putter, rest) = worded(line);
    let port = port_of(alloc, names, putter)?;
    Ok((port, note_of(alloc, names, rest)?))
}

fn entry_of(alloc: Global, names: &Names, line: &str) -> Result<(u32, BridgeNote), Fail> {
    match read(alloc, names, line)? {
        Some(entry) => Ok(entry),
        None => strange(alloc, names, line),
    }
}

// A bridge, the names that its lines are read by, and what it put.
#[derive(Drop)]
struct World {
    names: Names,
    bridge: MemoryBridge<ObjectId>,
    lanes: Lanes,
}

// The names of a script with three topics more between its parts.
fn names_of(alloc: Global, front: &str, rest: &str) -> Result<Names, Fail> {
    let topics = "topic \"N\"\ntopic \"N\"\ntopic \"N\"\n";
    let text = format!(in alloc; "{front}{topics}{rest}")?;
    names_in(alloc, text.as_str())
}

fn new_bridge(alloc: Global, shape: &Shape) -> Result<MemoryBridge<ObjectId>, OutOfMemory> {
    MemoryBridge::new(alloc, shape)
}

fn world_of(alloc: Global, names: Names, shape: &Shape) -> Result<World, Fail> {
    Ok(World {
        names,
        bridge: new_bridge(alloc, shape)?,
        lanes: Lanes::new(alloc, shape)?,
    })
}

type Out = Outbox<BridgeOut<ObjectId>>;

fn offered(
    bridge: &mut MemoryBridge<ObjectId>,
    port: u32,
    event: ToBridge<ObjectId>,
    out: &mut Out,
) -> Result<Took, ToBridge<ObjectId>> {
    bridge.take(port, event, out)
}

// Takes an event. It tells whether that was the last.
fn take(
    alloc: Global,
    bridge: &mut MemoryBridge<ObjectId>,
    entry: (u32, BridgeNote),
    out: &mut Out,
) -> Result<bool, Fail> {
    match offered(bridge, entry.0, event_of(alloc, entry.1)?, out) {
        Ok(took) => Ok(took == Took::Ended),
        Err(_) => Err(Fail::new("no memory")),
    }
}

// Deals what was put.
fn deal(lanes: &mut Lanes, out: &mut Out) -> Result<(), OutOfMemory> {
    for _ in 0..out.len() {
        if let Some(put) = out.take_first() {
            lanes.of_bridge(put)?;
        }
    }
    Ok(())
}

fn take_line(alloc: Global, world: &mut World, line: &str) -> Result<bool, Fail> {
    let entry = entry_of(alloc, &world.names, line)?;
    let mut out = Outbox::new(alloc);
    let ended = take(alloc, &mut world.bridge, entry, &mut out)?;
    deal(&mut world.lanes, &mut out)?;
    Ok(ended)
}

// Takes all lines, of which just a last one may be the last event.
fn take_all(alloc: Global, world: &mut World, lines: &str) -> Result<bool, Fail> {
    let mut ended = false;
    for line in lines.lines() {
        if ended {
            return Err(Fail::new("an event behind the last"));
        }
        ended = take_line(alloc, world, line)?;
    }
    Ok(ended == lines.ends_with("bye\n"))
}

fn journal_of(bridge: MemoryBridge<ObjectId>) -> Vec<(u32, BridgeNote)> {
    bridge.into_journal()
}

fn run_of(alloc: Global, world: World) -> RunRecord {
    let lanes = world.lanes;
    let bridge = journal_of(world.bridge);
    record_of(alloc, lanes.publishers, bridge, lanes.timers, lanes.queues)
}

// Whether the log of a bridge that takes these lines is this text.
fn puts(
    alloc: Global,
    script: &Script,
    names: Names,
    lines: &str,
    log: &str,
) -> Result<bool, Fail> {
    let mut world = world_of(alloc, names, script.shape())?;
    if !take_all(alloc, &mut world, lines)? {
        return Ok(false);
    }
    let run = run_of(alloc, world);
    is_log(alloc, script.shape(), &run, log)
}

fn is_so(alloc: Global, world: &str) -> Result<bool, Fail> {
    let (front, rest) = parted(world);
    let (end, rest) = parted(rest);
    let (lines, rest) = parted(rest);
    let script = joined(alloc, front, end)?;
    let names = names_of(alloc, front, end)?;
    let log = logged(alloc, lines, rest)?;
    puts(alloc, &script, names, lines, log.as_str())
}

fn joined(alloc: Global, front: &str, rest: &str) -> Result<Script, Fail> {
    let text = format!(in alloc; "{front}{rest}")?;
    script_of(alloc, text.as_str())
}

// The log in which the bridge has these lines, between what it put on the lanes of publishers and on the others.
fn logged(alloc: Global, lines: &str, rest: &str) -> Result<String, Fail> {
    let (publishers, others) = parted(rest);
    Ok(format!(in alloc; "mama log 1\n{publishers}bridge\n{lines}{others}")?)
}

#[test]
fn the_first_of_a_queue_and_two_clients_ends_a_subscription(rt: HostRuntime) -> Result<(), Fail> {
    assert!(rt; is_so(rt.alloc(), LEAVES)?);
    Ok(())
}

#[test]
fn an_order_before_its_subscription_ends_nothing(rt: HostRuntime) -> Result<(), Fail> {
    assert!(rt; is_so(rt.alloc(), LEAVES_OF_QUEUE)?);
    Ok(())
}

#[test]
fn questions_go_to_the_first_publisher_of_a_topic_that_is_there(
    rt: HostRuntime,
) -> Result<(), Fail> {
    assert!(rt; is_so(rt.alloc(), TOPICS)?);
    Ok(())
}

#[test]
fn settling_waits_for_all_that_are_done(rt: HostRuntime) -> Result<(), Fail> {
    assert!(rt; is_so(rt.alloc(), SETTLING)?);
    Ok(())
}

#[test]
fn the_least_slot_of_a_queue_is_given(rt: HostRuntime) -> Result<(), Fail> {
    assert!(rt; is_so(rt.alloc(), SLOTS)?);
    Ok(())
}

#[test]
fn what_a_link_holds_comes_before_the_notice(rt: HostRuntime) -> Result<(), Fail> {
    assert!(rt; is_so(rt.alloc(), LINKS)?);
    Ok(())
}

#[test]
fn a_link_cuts_what_passes_it(rt: HostRuntime) -> Result<(), Fail> {
    assert!(rt; is_so(rt.alloc(), CUTS)?);
    Ok(())
}

#[test]
fn what_a_port_never_puts_does_nothing(rt: HostRuntime) -> Result<(), Fail> {
    assert!(rt; is_so(rt.alloc(), NO_EVENTS)?);
    Ok(())
}
