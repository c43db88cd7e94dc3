ghost use Rattle.std.specs.Prelude.{◌≡◌, [], map, true, false, None, OnOk};
ghost use Rattle.mama_event.specs.ToBridge.{note_of};
ghost use Rattle.mama_bridge.specs.Outs.{put_note};
ghost use Rattle.mama_timer.specs.Out.{out_note};
ghost use Rattle.mama_plans.specs.Put.{own_tag, notes_of};
ghost use Rattle.mama_drive.specs.Scene.{Scene};
ghost use Rattle.mama_seats.specs.Waiting.{waits};
ghost use Rattle.mama_drive.specs.Held.{lay_put, lay_tick, lay_event, lay_out, lay_wish, lay_untold, lay_all, seen};

use crate::system::System;
use mama_bridge::BridgeOut;
use mama_event::{ObjectId, ToBridge, ToService};
use mama_memory::OutOfMemory;
use mama_seats::Waiting;
use mama_timer::TimerOut;

/// What one actor put and what is not on its lanes yet: the bridge, the timer service, a publisher with its port, or a
/// client or a queue with its ports.
#[derive(Drop)]
pub(crate) enum Held {
    Nothing,
    Routed(Waiting<BridgeOut<ObjectId>>),
    Ticked(Waiting<TimerOut<ObjectId>>),
    Sent {
        port: u32,
        events: Waiting<ToBridge<ObjectId>>,
    },
    Given {
        bridge_port: u32,
        timers_port: u32,
        outs: Waiting<ToService<ObjectId>>,
    },
    // What a queue put by serving, and then the wish of a watch. Its groups are still to be told the turn where the mark is set.
    Served {
        queue: u32,
        bridge_port: u32,
        timers_port: u32,
        outs: Waiting<ToService<ObjectId>>,
        wish: Option<ToBridge<ObjectId>>,
        untold: bool,
    },
}

impl Held {
    /// Whether nothing is held.
    pub(crate) fn is_empty(&self) -> bool
        ensures { result ≡ true → (s : Scene) → seen self.now s ≡ s }
    {
        match self {
            Held::Nothing => true,
            Held::Routed(puts) => puts.is_empty(),
            Held::Ticked(ticks) => ticks.is_empty(),
            Held::Sent { port: _, events } => events.is_empty(),
            Held::Given {
                bridge_port: _,
                timers_port: _,
                outs,
            } => outs.is_empty(),
            Held::Served {
                queue: _,
                bridge_port: _,
                timers_port: _,
                outs,
                wish,
                untold,
            } => outs.is_empty() && wish.is_none() && !*untold,
        }
    }
}

/// Puts what is held on its lanes, in order. Where no memory is found for a lane, the rest is held as before.
pub(crate) fn settle(system: &mut System, held: &mut Held) -> Result<(), OutOfMemory>
    ensures same { seen held.new system.new ≡ seen held.old system.old }
    ensures clear { OnOk result ((s : Scene) → seen held.new s ≡ s) }
{
    match held {
        Held::Nothing => Ok(()),
        Held::Routed(puts) => settle_puts(system, puts),
        Held::Ticked(ticks) => settle_ticks(system, ticks),
        Held::Sent { port, events } => settle_events(system, *port, events),
        Held::Given {
            bridge_port,
            timers_port,
            outs,
        } => settle_outs(system, *bridge_port, *timers_port, outs),
        Held::Served {
            queue,
            bridge_port,
            timers_port,
            outs,
            wish,
            untold,
        } => settle_served(
            system,
            *queue,
            *bridge_port,
            *timers_port,
            outs,
            wish,
            untold,
        ),
    }
}

/// Puts the bridge's events on their lanes.
fn settle_puts(
    system: &mut System,
    puts: &mut Waiting<BridgeOut<ObjectId>>,
) -> Result<(), OutOfMemory>
    ensures same { lay_all lay_put (map (put_note own_tag) (waits puts.new)) system.new ≡ lay_all lay_put (map (put_note own_tag) (waits puts.old)) system.old }
    ensures clear { OnOk result (waits puts.new ≡ []) }
{
    while let Some(event) = puts.take_first() {
        if let Err(event) = system.put_one(event) {
            puts.put_back(event);
            return Err(OutOfMemory);
        }
    }
    Ok(())
}

/// Puts the timer service's events on the queues' lanes.
fn settle_ticks(
    system: &mut System,
    ticks: &mut Waiting<TimerOut<ObjectId>>,
) -> Result<(), OutOfMemory>
    ensures same { lay_all lay_tick (map (out_note own_tag) (waits ticks.new)) system.new ≡ lay_all lay_tick (map (out_note own_tag) (waits ticks.old)) system.old }
    ensures clear { OnOk result (waits ticks.new ≡ []) }
{
    while let Some(tick) = ticks.take_first() {
        if let Err(tick) = system.put_tick(tick) {
            ticks.put_back(tick);
            return Err(OutOfMemory);
        }
    }
    Ok(())
}

/// Puts events of a port on the bridge's lane.
fn settle_events(
    system: &mut System,
    port: u32,
    events: &mut Waiting<ToBridge<ObjectId>>,
) -> Result<(), OutOfMemory>
    ensures same { lay_all (lay_event port) (map (note_of own_tag) (waits events.new)) system.new ≡ lay_all (lay_event port) (map (note_of own_tag) (waits events.old)) system.old }
    ensures clear { OnOk result (waits events.new ≡ []) }
{
    while let Some(event) = events.take_first() {
        if let Err(event) = system.put_to_bridge(port, event) {
            events.put_back(event);
            return Err(OutOfMemory);
        }
    }
    Ok(())
}

/// Puts what a client or a queue puts on the lanes of the bridge and of the timer service, by its ports.
fn settle_outs(
    system: &mut System,
    bridge_port: u32,
    timers_port: u32,
    outs: &mut Waiting<ToService<ObjectId>>,
) -> Result<(), OutOfMemory>
    ensures same { lay_all (lay_out bridge_port timers_port) (notes_of (waits outs.new)) system.new ≡ lay_all (lay_out bridge_port timers_port) (notes_of (waits outs.old)) system.old }
    ensures clear { OnOk result (waits outs.new ≡ []) }
{
    while let Some(out) = outs.take_first() {
        if let Err(out) = system.put_out(bridge_port, timers_port, out) {
            outs.put_back(out);
            return Err(OutOfMemory);
        }
    }
    Ok(())
}

/// Puts what a queue put on its lanes, then the wish of a watch, and then its groups are told.
fn settle_served(
    system: &mut System,
    queue: u32,
    bridge_port: u32,
    timers_port: u32,
    outs: &mut Waiting<ToService<ObjectId>>,
    wish: &mut Option<ToBridge<ObjectId>>,
    untold: &mut bool,
) -> Result<(), OutOfMemory>
    ensures same { lay_untold untold.new queue (lay_wish bridge_port wish.new (lay_all (lay_out bridge_port timers_port) (notes_of (waits outs.new)) system.new)) ≡ lay_untold untold.old queue (lay_wish bridge_port wish.old (lay_all (lay_out bridge_port timers_port) (notes_of (waits outs.old)) system.old)) }
    ensures clear { OnOk result ((s : Scene) → lay_untold untold.new queue (lay_wish bridge_port wish.new (lay_all (lay_out bridge_port timers_port) (notes_of (waits outs.new)) s)) ≡ s) }
{
    settle_outs(system, bridge_port, timers_port, outs)?;
    settle_wish(system, bridge_port, wish)?;
    settle_untold(system, queue, untold)
}

/// Puts the wish of a watch, if there is one, on the bridge's lane.
fn settle_wish(
    system: &mut System,
    port: u32,
    wish: &mut Option<ToBridge<ObjectId>>,
) -> Result<(), OutOfMemory>
    ensures same { lay_wish port wish.new system.new ≡ lay_wish port wish.old system.old }
    ensures ok { OnOk result (wish.new ≡ None) }
{
    match wish.take() {
        None => Ok(()),
        Some(event) => match system.put_to_bridge(port, event) {
            Ok(()) => Ok(()),
            Err(event) => {
                *wish = Some(event);
                Err(OutOfMemory)
            }
        },
    }
}

/// The groups of a queue are told its last turn, if they are still to be told.
fn settle_untold(system: &mut System, queue: u32, untold: &mut bool) -> Result<(), OutOfMemory>
    ensures same { lay_untold untold.new queue system.new ≡ lay_untold untold.old queue system.old }
    ensures told { OnOk result (untold.new ≡ false) }
{
    if !*untold {
        return Ok(());
    }
    system.tell(queue)?;
    *untold = false;
    Ok(())
}
