ghost use Rattle.std.specs.Prelude.{◌≡◌, ◌↔◌, ◌+◌, Bool, true, None, Some, IfOk, OnOk, OnErr, IsErr, Result};
ghost use Rattle.std.specs.Result.{result_err};
ghost use Rattle.mama_event.specs.declared.to_bridge.ToBridge.TheVariants as bridge;
ghost use Rattle.mama_event.specs.declared.to_timers.ToTimers.TheVariants as timers;
ghost use Rattle.mama_event.specs.declared.ids.ObjectId.{ObjectId};
ghost use Rattle.mama_event.specs.ToBridge.{note_of as bridge_note};
ghost use Rattle.mama_event.specs.ToTimers.{note_of as timers_note};
ghost use Rattle.mama_client.specs.Calls.{IsCall};
ghost use Rattle.mama_client.specs.Client.{sub_refusal, timer_refusal, inbox_refusal, ask_refusal};

use crate::fault::{AskFault, ClientFault, Closed};
use mama_event::{Bounds, Fids, InboxId, InboxTerms, SubId, SubTerms, TimerId, ToBridge, ToTimers};
use std::marker::Model;

/// A client. Each call makes an event, which the caller puts; none takes memory. The numbers of each kind of object
/// count from 0, and a number is spent even if its event is not put. After a refusal nothing has changed.
#[derive(Debug, Drop)]
pub struct Client {
    number: u32,
    topics: u32,
    queues: u32,
    subs: u32,
    timers: u32,
    inboxes: u32,
    done: bool,
}

impl Model for Client {
    ghost use Rattle.mama_client.specs.Standing.{ClientData};

    ghost Value = { ClientData };

    ghost view = { λ c. record { number = c.number; topics = c.topics; queues = c.queues; subs = c.subs; timers = c.timers; inboxes = c.inboxes; done = c.done } };
}

impl Client {
    /// The client of this number, within these bounds. It has done nothing yet.
    pub fn new(number: u32, bounds: Bounds) -> Client
        ensures { result ≡ record { number = number; topics = bounds.topics; queues = bounds.queues; subs = 0; timers = 0; inboxes = 0; done = Bool.false } }
    {
        Client {
            number,
            topics: bounds.topics,
            queues: bounds.queues,
            subs: 0,
            timers: 0,
            inboxes: 0,
            done: false,
        }
    }

    /// Makes a subscription.
    pub fn subscribe<L>(
        &mut self,
        terms: SubTerms,
        listener: L,
    ) -> Result<(SubId, ToBridge<L>), ClientFault<L>>
        ensures refused { result_err result ≡ sub_refusal self.old terms listener }
        ensures sub { IfOk result (λ made. made.0 ≡ record { client = self.old.number; number = self.old.subs }) }
        ensures event { IfOk result (λ made. made.1 ≡ bridge.Join made.0 terms listener) }
        ensures ok { OnOk result (self.new ≡ record self.old { subs = self.old.subs + 1 }) }
        ensures err { OnErr result (self.new ≡ self.old) }
        ensures call { IfOk result (λ made. (tagged : L → ObjectId) → IsCall self.old self.new (Some (bridge_note tagged made.1)) None) }
    {
        if self.done {
            return Err(ClientFault::Closed(listener));
        }
        if terms.topic >= self.topics {
            return Err(ClientFault::BadTopic(listener));
        }
        if terms.queue >= self.queues {
            return Err(ClientFault::BadQueue(listener));
        }
        if self.subs == u32::MAX {
            return Err(ClientFault::NumbersSpent(listener));
        }
        let sub = SubId {
            client: self.number,
            number: self.subs,
        };
        self.subs += 1;
        Ok((
            sub,
            ToBridge::Join {
                sub,
                terms,
                listener,
            },
        ))
    }

    /// Makes a timer. It ticks when its service hears of a moment that is `interval` milliseconds or more, at least 1,
    /// after what the service's clock told when it took this event, and then after what it told at the last tick: once,
    /// however many intervals went by.
    pub fn arm<L>(
        &mut self,
        queue: u32,
        interval: u32,
        listener: L,
    ) -> Result<(TimerId, ToTimers<L>), ClientFault<L>>
        ensures refused { result_err result ≡ timer_refusal self.old queue interval listener }
        ensures timer { IfOk result (λ made. made.0 ≡ record { client = self.old.number; number = self.old.timers }) }
        ensures event { IfOk result (λ made. made.1 ≡ timers.Arm made.0 queue interval listener) }
        ensures ok { OnOk result (self.new ≡ record self.old { timers = self.old.timers + 1 }) }
        ensures err { OnErr result (self.new ≡ self.old) }
        ensures call { IfOk result (λ made. (tagged : L → ObjectId) → IsCall self.old self.new None (Some (timers_note tagged made.1))) }
    {
        if self.done {
            return Err(ClientFault::Closed(listener));
        }
        if queue >= self.queues {
            return Err(ClientFault::BadQueue(listener));
        }
        if interval == 0 {
            return Err(ClientFault::ZeroInterval(listener));
        }
        if self.timers == u32::MAX {
            return Err(ClientFault::NumbersSpent(listener));
        }
        let timer = TimerId {
            client: self.number,
            number: self.timers,
        };
        self.timers += 1;
        Ok((
            timer,
            ToTimers::Arm {
                timer,
                queue,
                interval,
                listener,
            },
        ))
    }

    /// Makes an inbox.
    pub fn new_inbox<L>(
        &mut self,
        terms: InboxTerms,
        listener: L,
    ) -> Result<(InboxId, ToBridge<L>), ClientFault<L>>
        ensures refused { result_err result ≡ inbox_refusal self.old terms listener }
        ensures inbox { IfOk result (λ made. made.0 ≡ record { client = self.old.number; number = self.old.inboxes }) }
        ensures event { IfOk result (λ made. made.1 ≡ bridge.OpenInbox made.0 terms listener) }
        ensures ok { OnOk result (self.new ≡ record self.old { inboxes = self.old.inboxes + 1 }) }
        ensures err { OnErr result (self.new ≡ self.old) }
        ensures call { IfOk result (λ made. (tagged : L → ObjectId) → IsCall self.old self.new (Some (bridge_note tagged made.1)) None) }
    {
        if self.done {
            return Err(ClientFault::Closed(listener));
        }
        if terms.queue >= self.queues {
            return Err(ClientFault::BadQueue(listener));
        }
        if self.inboxes == u32::MAX {
            return Err(ClientFault::NumbersSpent(listener));
        }
        let inbox = InboxId {
            client: self.number,
            number: self.inboxes,
        };
        self.inboxes += 1;
        Ok((
            inbox,
            ToBridge::OpenInbox {
                inbox,
                terms,
                listener,
            },
        ))
    }

    /// Ends a subscription.
    pub fn destroy<L>(&mut self, sub: SubId) -> Result<ToBridge<L>, Closed>
        ensures refused { IsErr result ↔ (self.old.done ≡ true) }
        ensures event { IfOk result (λ event. event ≡ bridge.Leave sub) }
        ensures stays { self.new ≡ self.old }
        ensures call { IfOk result (λ event. (tagged : L → ObjectId) → IsCall self.old self.new (Some (bridge_note tagged event)) None) }
    {
        self.open()?;
        Ok(ToBridge::Leave { sub })
    }

    /// Ends a timer.
    pub fn disarm<L>(&mut self, timer: TimerId) -> Result<ToTimers<L>, Closed>
        ensures refused { IsErr result ↔ (self.old.done ≡ true) }
        ensures event { IfOk result (λ event. event ≡ timers.Disarm timer) }
        ensures stays { self.new ≡ self.old }
        ensures call { IfOk result (λ event. (tagged : L → ObjectId) → IsCall self.old self.new None (Some (timers_note tagged event))) }
    {
        self.open()?;
        Ok(ToTimers::Disarm { timer })
    }

    /// Closes an inbox.
    pub fn close_inbox<L>(&mut self, inbox: InboxId) -> Result<ToBridge<L>, Closed>
        ensures refused { IsErr result ↔ (self.old.done ≡ true) }
        ensures event { IfOk result (λ event. event ≡ bridge.CloseInbox inbox) }
        ensures stays { self.new ≡ self.old }
        ensures call { IfOk result (λ event. (tagged : L → ObjectId) → IsCall self.old self.new (Some (bridge_note tagged event)) None) }
    {
        self.open()?;
        Ok(ToBridge::CloseInbox { inbox })
    }

    /// Asks the first publisher of a topic for fields, to be sent to an inbox.
    pub fn ask<L>(
        &mut self,
        inbox: InboxId,
        topic: u32,
        fids: Fids,
    ) -> Result<ToBridge<L>, AskFault>
        ensures refused { result_err result ≡ ask_refusal self.old topic }
        ensures event { IfOk result (λ event. event ≡ bridge.Ask inbox topic fids) }
        ensures stays { self.new ≡ self.old }
        ensures call { IfOk result (λ event. (tagged : L → ObjectId) → IsCall self.old self.new (Some (bridge_note tagged event)) None) }
    {
        if self.done {
            return Err(AskFault::Closed);
        }
        if topic >= self.topics {
            return Err(AskFault::BadTopic);
        }
        Ok(ToBridge::Ask { inbox, topic, fids })
    }

    /// Tells the time, in milliseconds.
    pub fn now<L>(&mut self, moment: u64) -> Result<ToTimers<L>, Closed>
        ensures refused { IsErr result ↔ (self.old.done ≡ true) }
        ensures event { IfOk result (λ event. event ≡ timers.Now moment) }
        ensures stays { self.new ≡ self.old }
        ensures call { IfOk result (λ event. (tagged : L → ObjectId) → IsCall self.old self.new None (Some (timers_note tagged event))) }
    {
        self.open()?;
        Ok(ToTimers::Now { moment })
    }

    /// Says that the client is done: the last event on each of its lanes.
    pub fn done<L>(&mut self) -> Result<(ToTimers<L>, ToBridge<L>), Closed>
        ensures refused { IsErr result ↔ (self.old.done ≡ true) }
        ensures timers { IfOk result (λ last. last.0 ≡ timers.ClientDone) }
        ensures bridge { IfOk result (λ last. last.1 ≡ bridge.ClientDone) }
        ensures done { self.new ≡ record self.old { done = true } }
        ensures call { IfOk result (λ last. (tagged : L → ObjectId) → IsCall self.old self.new (Some (bridge_note tagged last.1)) (Some (timers_note tagged last.0))) }
    {
        self.open()?;
        self.done = true;
        Ok((ToTimers::ClientDone, ToBridge::ClientDone))
    }

    // Whether it is not done.
    fn open(&self) -> Result<(), Closed>
        ensures { IsErr result ↔ (self.now.done ≡ true) }
    {
        if self.done {
            return Err(Closed);
        }
        Ok(())
    }
}
