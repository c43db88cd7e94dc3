ghost use Rattle.std.specs.Prelude.{◌≡◌, [], ◌∷◌, ◌++◌, IfErr, OnOk, OnErr};
ghost use Rattle.mama_event.specs.ToBridge.{note_of};
ghost use Rattle.mama_event.specs.ToPublisher.{note_of as publisher_note_of};
ghost use Rattle.mama_event.specs.ToQueue.{note_of as queue_note_of};
ghost use Rattle.mama_event.specs.ToTimers.{note_of as timers_note_of};
ghost use Rattle.mama_event.specs.Ports.{timers_port_of_bridge};
ghost use Rattle.mama_bridge.specs.Outs.{put_note};
ghost use Rattle.mama_timer.specs.Out.{out_note};
ghost use Rattle.mama_plans.specs.Put.{own_tag, note_of as out_note_of};
ghost use Rattle.mama_drive.specs.Held.{changed_at, with_note, with_event, lay_put, lay_tick, lay_event, lay_out};

use crate::marks::mark;
use crate::system::System;
use mama_bridge::BridgeOut;
use mama_event::{ObjectId, ToBridge, ToPublisher, ToQueue, ToService, ToTimers};
use mama_timer::TimerOut;

impl<'a> System<'a> {
    /// Puts one of the bridge's events on its lane, or gives it back.
    pub(crate) fn put_one(&mut self, event: BridgeOut<ObjectId>) -> Result<(), BridgeOut<ObjectId>>
        ensures lane { OnOk result (self.new ≡ lay_put (put_note own_tag event) self.old) }
        ensures back { IfErr result (λ given. given ≡ event) }
        ensures err { OnErr result (self.new ≡ self.old) }
    {
        match event {
            BridgeOut::Publisher(number, event) => match self.put_to_publisher(number, event) {
                Ok(()) => Ok(()),
                Err(event) => Err(BridgeOut::Publisher(number, event)),
            },
            BridgeOut::Queue(number, event) => match self.put_to_queue(number, 0, event) {
                Ok(()) => Ok(()),
                Err(event) => Err(BridgeOut::Queue(number, event)),
            },
            BridgeOut::Timers(event) => {
                let port = self.timers_port();
                match self.put_to_timers(port, event) {
                    Ok(()) => Ok(()),
                    Err(event) => Err(BridgeOut::Timers(event)),
                }
            }
        }
    }

    /// Puts an event on the lane of the publisher of this number, if there is one.
    fn put_to_publisher(&mut self, number: u32, event: ToPublisher) -> Result<(), ToPublisher>
        ensures lane { OnOk result (self.new ≡ record self.old { senders = changed_at (with_note (publisher_note_of event)) number self.old.senders }) }
        ensures back { IfErr result (λ given. given ≡ event) }
        ensures err { OnErr result (self.new ≡ self.old) }
    {
        if (number as usize) >= self.publishers.len() {
            return Ok(());
        }
        let Ok(()) = mark(&mut self.marked_publishers, number) else {
            return Err(event);
        };
        let seat = &mut self.publishers[number as usize];
        seat.put(event)
    }

    /// Puts an event of this port on the lane of the queue of this number, if there is one.
    fn put_to_queue(
        &mut self,
        number: u32,
        port: u32,
        event: ToQueue<ObjectId>,
    ) -> Result<(), ToQueue<ObjectId>>
        ensures lane { OnOk result (self.new ≡ record self.old { servers = changed_at (with_event (port, queue_note_of own_tag event)) number self.old.servers }) }
        ensures back { IfErr result (λ given. given ≡ event) }
        ensures err { OnErr result (self.new ≡ self.old) }
    {
        if (number as usize) >= self.queues.len() {
            return Ok(());
        }
        let Ok(()) = mark(&mut self.marked_queues, number) else {
            return Err(event);
        };
        let seat = &mut self.queues[number as usize];
        seat.put(port, event)
    }

    /// The bridge's port of the timer service's lane.
    fn timers_port(&self) -> u32
        ensures { result ≡ timers_port_of_bridge self.now.shape }
    {
        self.shape.clients + self.shape.bounds.queues
    }

    /// Puts an event of a port on the timer service's lane, or gives it back.
    fn put_to_timers(
        &mut self,
        port: u32,
        event: ToTimers<ObjectId>,
    ) -> Result<(), ToTimers<ObjectId>>
        ensures lane { OnOk result (self.new ≡ record self.old { to_timers = self.old.to_timers ++ (port, timers_note_of own_tag event) ∷ [] }) }
        ensures back { IfErr result (λ given. given ≡ event) }
        ensures err { OnErr result (self.new ≡ self.old) }
    {
        self.timers.put(port, event)
    }

    /// Puts one of the timer service's events on its lane, or gives it back.
    pub(crate) fn put_tick(&mut self, out: TimerOut<ObjectId>) -> Result<(), TimerOut<ObjectId>>
        ensures lane { OnOk result (self.new ≡ lay_tick (out_note own_tag out) self.old) }
        ensures back { IfErr result (λ given. given ≡ out) }
        ensures err { OnErr result (self.new ≡ self.old) }
    {
        let TimerOut { queue, event } = out;
        match self.put_to_queue(queue, 1, event) {
            Ok(()) => Ok(()),
            Err(event) => Err(TimerOut { queue, event }),
        }
    }

    /// Puts an event of a port on the bridge's lane, or gives it back.
    pub(crate) fn put_to_bridge(
        &mut self,
        port: u32,
        event: ToBridge<ObjectId>,
    ) -> Result<(), ToBridge<ObjectId>>
        ensures lane { OnOk result (self.new ≡ lay_event port (note_of own_tag event) self.old) }
        ensures back { IfErr result (λ given. given ≡ event) }
        ensures err { OnErr result (self.new ≡ self.old) }
    {
        self.bridge.put(port, event)
    }

    /// Puts what a client or a queue puts on its lane, by its port of that lane, or gives it back.
    pub(crate) fn put_out(
        &mut self,
        bridge_port: u32,
        timers_port: u32,
        out: ToService<ObjectId>,
    ) -> Result<(), ToService<ObjectId>>
        ensures lane { OnOk result (self.new ≡ lay_out bridge_port timers_port (out_note_of out) self.old) }
        ensures back { IfErr result (λ given. given ≡ out) }
        ensures err { OnErr result (self.new ≡ self.old) }
    {
        match out {
            ToService::Bridge(event) => match self.put_to_bridge(bridge_port, event) {
                Ok(()) => Ok(()),
                Err(event) => Err(ToService::Bridge(event)),
            },
            ToService::Timers(event) => match self.put_to_timers(timers_port, event) {
                Ok(()) => Ok(()),
                Err(event) => Err(ToService::Timers(event)),
            },
        }
    }
}
