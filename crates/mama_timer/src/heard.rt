ghost use Rattle.std.specs.Prelude.{◌≡◌};
ghost use Rattle.mama_rules_services.specs.Timers.{put_by, from_client, from_queue, from_bridge};
ghost use Rattle.mama_rules_services.specs.Ports.{timers_putter};
ghost use Rattle.mama_timer.specs.Heard.{event_of};

use mama_event::{ObjectId, Shape, TimerId, TimersNote};

/// A timer that a client arms, and its terms.
#[derive(Clone, Copy)]
pub(crate) struct Arming {
    pub(crate) timer: TimerId,
    pub(crate) queue: u32,
    pub(crate) interval: u32,
    pub(crate) tag: ObjectId,
}

/// What an event means by the port that it came by.
#[derive(Clone, Copy)]
pub(crate) enum Heard {
    Arms { arming: Arming },
    Disarms { timer: TimerId },
    Now { moment: u64 },
    ClientDone { client: u32 },
    Bye { queue: u32 },
    Fin,
    Nothing,
}

/// What a client puts.
fn from_client(client: u32, note: TimersNote) -> Heard
    ensures { event_of result ≡ from_client client note }
{
    match note {
        TimersNote::Arm {
            timer,
            queue,
            interval,
            tag,
        } if timer.client == client => Heard::Arms {
            arming: Arming {
                timer,
                queue,
                interval,
                tag,
            },
        },
        TimersNote::Disarm { timer } => Heard::Disarms { timer },
        TimersNote::Now { moment } => Heard::Now { moment },
        TimersNote::ClientDone => Heard::ClientDone { client },
        _ => Heard::Nothing,
    }
}

/// What a queue puts.
fn from_queue(queue: u32, note: TimersNote) -> Heard
    ensures { event_of result ≡ from_queue queue note }
{
    match note {
        TimersNote::Disarm { timer } => Heard::Disarms { timer },
        TimersNote::Bye => Heard::Bye { queue },
        _ => Heard::Nothing,
    }
}

/// What the bridge puts.
fn from_bridge(note: TimersNote) -> Heard
    ensures { event_of result ≡ from_bridge note }
{
    match note {
        TimersNote::Fin => Heard::Fin,
        _ => Heard::Nothing,
    }
}

/// What an event of this note means that came by this port.
pub(crate) fn hear(shape: &Shape, port: u32, note: TimersNote) -> Heard
    ensures { event_of result ≡ put_by (timers_putter shape.now port) note }
{
    if port < shape.clients {
        return from_client(port, note);
    }
    let past = port - shape.clients;
    if past < shape.bounds.queues {
        from_queue(past, note)
    } else if past == shape.bounds.queues {
        from_bridge(note)
    } else {
        Heard::Nothing
    }
}
