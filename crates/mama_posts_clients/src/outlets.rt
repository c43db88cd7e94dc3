ghost use Rattle.std.specs.Prelude.{◌≡◌, [], ◌∷◌, ◌++◌, map, None, IsOk, OnOk, OnErr, IfOk, IfErr};
ghost use Rattle.mama_dispatch.specs.Turns.{put_note};
ghost use Rattle.mama_lane.specs.Values.{note_of_port};
ghost use Rattle.mama_seats.specs.Waiting.{waits};
ghost use Rattle.mama_timeout.specs.Table.{event_puts};
ghost use Rattle.mama_posts_clients.specs.Outlets.{after_puts, MayPut};

use mama_carry::{Carried, Listener, ToBridge, ToTimers};
use mama_ends::{Lane, Port, PutNote, Waiting};
use mama_event::ToService;
use mama_memory::OutOfMemory;
use std::marker::Model;
use std::sync::Wait;

/// The ports by which a client or a queue puts: on the lane of the bridge, and on that of the timer service.
#[derive(Drop)]
pub(crate) struct Outlets<L: Listener> {
    to_bridge: Port<ToBridge<Carried<L>>>,
    to_timers: Port<ToTimers<Carried<L>>>,
}

impl<L: Listener> Model for Outlets<L> {
    ghost use Rattle.mama_posts_clients.specs.Outlets.{OutletsValue};

    ghost Value = { OutletsValue };

    ghost view = { λ o. record { to_bridge = o.to_bridge; to_timers = o.to_timers } };
}

impl<L: Listener> Outlets<L> {
    /// These two ports.
    pub(crate) fn new(
        to_bridge: Port<ToBridge<Carried<L>>>,
        to_timers: Port<ToTimers<Carried<L>>>,
    ) -> Outlets<L>
        ensures { result ≡ record { to_bridge = to_bridge; to_timers = to_timers } }
    {
        Outlets {
            to_bridge,
            to_timers,
        }
    }

    /// Puts an event on its lane. Where no memory is found the event is given back, and all is as before.
    pub(crate) fn put<Rt: Wait + Copy>(
        &mut self,
        rt: Rt,
        bridge: &Lane<ToBridge<Carried<L>>>,
        timers: &Lane<ToTimers<Carried<L>>>,
        event: ToService<Carried<L>>,
    ) -> Result<(), ToService<Carried<L>>>
        requires bridge { self.old.to_bridge.lane ≡ bridge.now.id }
        requires timers { self.old.to_timers.lane ≡ timers.now.id }
        requires lawful { MayPut self.old (put_note (λ c. L.tagged c.listener) event ∷ []) }
        ensures ok { OnOk result (self.new ≡ after_puts self.old (put_note (λ c. L.tagged c.listener) event ∷ [])) }
        ensures err { OnErr result (self.new ≡ self.old) }
        ensures back { IfErr result (λ given. given ≡ event) }
    {
        match event {
            ToService::Bridge(event) => match self.to_bridge.put(rt, bridge, event) {
                Ok(()) => Ok(()),
                Err(event) => Err(ToService::Bridge(event)),
            },
            ToService::Timers(event) => match self.to_timers.put(rt, timers, event) {
                Ok(()) => Ok(()),
                Err(event) => Err(ToService::Timers(event)),
            },
        }
    }

    /// A note of what the port on the bridge's lane has put so far. It takes no memory, and always succeeds.
    pub(crate) fn tell_bridge<Rt: Copy>(
        &mut self,
        rt: Rt,
        lane: &Lane<ToBridge<Carried<L>>>,
    ) -> Result<PutNote<ToBridge<Carried<L>>>, OutOfMemory>
        requires { self.old.to_bridge.lane ≡ lane.now.id }
        ensures ok { IsOk result }
        ensures note { IfOk result (λ note. note ≡ note_of_port self.old.to_bridge) }
        ensures same { self.new ≡ self.old }
    {
        self.to_bridge.tell(rt, lane)
    }

    /// A note of what the port on the timer service's lane has put so far. It takes no memory, and always succeeds.
    pub(crate) fn tell_timers<Rt: Copy>(
        &mut self,
        rt: Rt,
        lane: &Lane<ToTimers<Carried<L>>>,
    ) -> Result<PutNote<ToTimers<Carried<L>>>, OutOfMemory>
        requires { self.old.to_timers.lane ≡ lane.now.id }
        ensures ok { IsOk result }
        ensures note { IfOk result (λ note. note ≡ note_of_port self.old.to_timers) }
        ensures same { self.new ≡ self.old }
    {
        self.to_timers.tell(rt, lane)
    }

    /// The port on the bridge's lane, and that on the timer service's.
    pub(crate) fn into_ports(self) -> (Port<ToBridge<Carried<L>>>, Port<ToTimers<Carried<L>>>)
        ensures { (result.0 ≡ self.to_bridge) × (result.1 ≡ self.to_timers) }
    {
        let Outlets {
            to_bridge,
            to_timers,
        } = self;
        (to_bridge, to_timers)
    }
}

/// Puts what is left, in order, each event on its lane. Where memory runs out the answer is the error, and what was not
/// put is still left.
pub(crate) fn flush_out<L: Listener, Rt: Wait + Copy>(
    rt: Rt,
    bridge: &Lane<ToBridge<Carried<L>>>,
    timers: &Lane<ToTimers<Carried<L>>>,
    ports: &mut Outlets<L>,
    left: &mut Waiting<ToService<Carried<L>>>,
) -> Result<(), OutOfMemory>
    requires bridge { ports.old.to_bridge.lane ≡ bridge.now.id }
    requires timers { ports.old.to_timers.lane ≡ timers.now.id }
    requires lawful { MayPut ports.old (map (put_note (λ c. L.tagged c.listener)) (waits left.old)) }
    ensures puts { after_puts ports.new (map (put_note (λ c. L.tagged c.listener)) (waits left.new)) ≡ after_puts ports.old (map (put_note (λ c. L.tagged c.listener)) (waits left.old)) }
    ensures clear { OnOk result (waits left.new ≡ []) }
    ensures stuck { OnErr result (waits left.new ≡ [] → ⊥) }
{
    while let Some(event) = left.take_first() {
        if let Err(event) = ports.put(rt, bridge, timers, event) {
            left.put_back(event);
            return Err(OutOfMemory);
        }
    }
    Ok(())
}

/// Puts the wish of a watch, if there is one, on the bridge's lane. Where memory runs out the answer is the error, and the wish is
/// still there.
pub(crate) fn put_wish<L: Listener, Rt: Wait + Copy>(
    rt: Rt,
    bridge: &Lane<ToBridge<Carried<L>>>,
    timers: &Lane<ToTimers<Carried<L>>>,
    ports: &mut Outlets<L>,
    wish: &mut Option<ToBridge<Carried<L>>>,
) -> Result<(), OutOfMemory>
    requires bridge { ports.old.to_bridge.lane ≡ bridge.now.id }
    requires timers { ports.old.to_timers.lane ≡ timers.now.id }
    requires lawful { MayPut ports.old (event_puts (λ c. L.tagged c.listener) wish.old) }
    ensures puts { after_puts ports.new (event_puts (λ c. L.tagged c.listener) wish.new) ≡ after_puts ports.old (event_puts (λ c. L.tagged c.listener) wish.old) }
    ensures clear { OnOk result (wish.new ≡ None) }
    ensures stuck { OnErr result (event_puts (λ c. L.tagged c.listener) wish.new ≡ [] → ⊥) }
{
    let Some(event) = wish.take() else {
        return Ok(());
    };
    match ports.put(rt, bridge, timers, ToService::Bridge(event)) {
        Ok(()) => Ok(()),
        Err(ToService::Bridge(event)) => {
            *wish = Some(event);
            Err(OutOfMemory)
        }
        Err(ToService::Timers(_)) => Err(OutOfMemory),
    }
}

/// Puts what is left, in order, and then the wish. Where memory runs out the answer is the error, and what was not put is still
/// left.
pub(crate) fn put_all<L: Listener, Rt: Wait + Copy>(
    rt: Rt,
    bridge: &Lane<ToBridge<Carried<L>>>,
    timers: &Lane<ToTimers<Carried<L>>>,
    ports: &mut Outlets<L>,
    left: &mut Waiting<ToService<Carried<L>>>,
    wish: &mut Option<ToBridge<Carried<L>>>,
) -> Result<(), OutOfMemory>
    requires bridge { ports.old.to_bridge.lane ≡ bridge.now.id }
    requires timers { ports.old.to_timers.lane ≡ timers.now.id }
    requires lawful { MayPut ports.old (map (put_note (λ c. L.tagged c.listener)) (waits left.old) ++ event_puts (λ c. L.tagged c.listener) wish.old) }
    ensures puts { after_puts ports.new (map (put_note (λ c. L.tagged c.listener)) (waits left.new) ++ event_puts (λ c. L.tagged c.listener) wish.new) ≡ after_puts ports.old (map (put_note (λ c. L.tagged c.listener)) (waits left.old) ++ event_puts (λ c. L.tagged c.listener) wish.old) }
    ensures clear { OnOk result (map (put_note (λ c. L.tagged c.listener)) (waits left.new) ++ event_puts (λ c. L.tagged c.listener) wish.new ≡ []) }
    ensures stuck { OnErr result (map (put_note (λ c. L.tagged c.listener)) (waits left.new) ++ event_puts (λ c. L.tagged c.listener) wish.new ≡ [] → ⊥) }
{
    flush_out(rt, bridge, timers, ports, left)?;
    put_wish(rt, bridge, timers, ports, wish)
}
