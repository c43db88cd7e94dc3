ghost use Rattle.std.specs.Prelude.{◌≡◌, length, ◌↔◌, ◌≤◌, ◌<◌, ◌++◌, OnOk, OnErr, IfOk, IfSome, IsNone};
ghost use Rattle.mama_event.specs.declared.market.SubKind.TheVariants as SubKind;
ghost use Rattle.mama_dq.specs.Cache.{emptied, from_bound};
ghost use Rattle.mama_dq.specs.Context.{new_context, quality_in, with_image};
ghost use Rattle.mama_dq.specs.Strategy.{updated, update_acted, handled, cached_above, step_by, started, healed, acted, with_image_of, turned_to, waiting_for, ok_with, settled, started_keeping, caught, after, callbacks_of};

use crate::cache::Cache;
use crate::callbacks::{
    late, ok_at, ok_msg, push_adopt, push_gap, push_switch, recap_of, stale_msg,
};
use crate::calls::Calls;
use crate::table::{Action, Phase, decide, is_update, relation_to};
use mama_event::{Callback, MarketMsg, MsgKind, Quality, Strategy, SubKind};
use mama_memory::OutOfMemory;
use mama_msg::Msg;
use std::alloc::Global;
use std::collections::{BTreeMap, VecDeque};
use std::marker::Model;
use std::ops::Bound;

/// What a subscription knows of its image, and what its next message means.
#[derive(Debug, Drop)]
pub struct DqContext {
    alloc: Global,
    strategy: Strategy,
    kind: SubKind,
    phase: Phase,
    sender: u32,
    last: u32,
    image: Msg,
    cache: Cache,
}

impl Model for DqContext {
    ghost use Rattle.mama_dq.specs.Context.{ContextData};

    ghost Value = { ContextData };

    ghost view = { λ c. record { strategy = c.strategy; kind = c.kind; phase = c.phase; sender = c.sender; last = c.last; image = c.image; cache = c.cache } };
}

// The phase of an image that is the sender's record, by the updates that are kept.
fn ok_phase(cache: &Cache) -> Phase
    ensures { result ≡ ok_with cache.now.updates }
{
    if cache.len() == 0 {
        Phase::LiveOk
    } else {
        Phase::LiveKept
    }
}

// The same message.
fn copy_of(msg: &MarketMsg) -> Result<MarketMsg, OutOfMemory>
    ensures { IfOk result (λ copy. copy ≡ msg.now) }
{
    let body = msg.body.try_clone()?;
    Ok(MarketMsg {
        kind: msg.kind,
        sender: msg.sender,
        seq: msg.seq,
        body,
    })
}

impl DqContext {
    /// The context of a new subscription with a cache of this size. It takes no memory.
    pub fn new(alloc: Global, kind: SubKind, cache: u32, strategy: Strategy) -> DqContext
        ensures { result ≡ new_context strategy kind cache }
    {
        DqContext {
            alloc,
            strategy,
            kind,
            phase: Phase::Await,
            sender: 0,
            last: 0,
            image: Msg::new(alloc),
            cache: Cache::new(alloc, cache),
        }
    }

    // The image is the sender's record from now on: cached updates up to its number are dropped, and the others are kept.
    fn settle(&mut self)
        ensures { self.new ≡ settled self.old }
    {
        self.cache.drop_to(self.last);
        self.phase = ok_phase(&self.cache);
    }

    // Applies the next update to an image that is the sender's record.
    fn apply_next(
        &mut self,
        msg: MarketMsg,
        queue: &mut VecDeque<Callback>,
    ) -> Result<(), OutOfMemory>
        ensures context { OnOk result (self.new ≡ (update_acted Action.Apply self.old msg).context) }
        ensures calls { OnOk result (queue.new.items ≡ queue.old.items ++ (update_acted Action.Apply self.old msg).calls) }
        ensures err { OnErr result (self.new ≡ self.old) }
        ensures calls_err { OnErr result (queue.new.items ≡ queue.old.items) }
    {
        queue.reserve(1)?;
        self.image.apply(&msg.body)?;
        self.last = msg.seq;
        self.settle();
        queue.push_back_reserved(ok_msg(msg));
        Ok(())
    }

    // Applies the next update to an image that may lack updates.
    fn apply_stale(
        &mut self,
        msg: MarketMsg,
        queue: &mut VecDeque<Callback>,
    ) -> Result<(), OutOfMemory>
        ensures context { OnOk result (self.new ≡ (update_acted Action.ApplyKeep self.old msg).context) }
        ensures calls { OnOk result (queue.new.items ≡ queue.old.items ++ (update_acted Action.ApplyKeep self.old msg).calls) }
        ensures err { OnErr result (self.new ≡ self.old) }
        ensures calls_err { OnErr result (queue.new.items ≡ queue.old.items) }
    {
        queue.reserve(1)?;
        self.cache.add_applied(msg.seq, &msg.body, &mut self.image)?;
        self.phase = Phase::LiveStale;
        self.last = msg.seq;
        queue.push_back_reserved(stale_msg(msg));
        Ok(())
    }

    // Applies an update before which some are missing.
    fn pass_gap(
        &mut self,
        msg: MarketMsg,
        queue: &mut VecDeque<Callback>,
    ) -> Result<(), OutOfMemory>
        requires { self.old.last < msg.seq }
        ensures context { OnOk result (self.new ≡ (update_acted Action.Gap self.old msg).context) }
        ensures calls { OnOk result (queue.new.items ≡ queue.old.items ++ (update_acted Action.Gap self.old msg).calls) }
        ensures err { OnErr result (self.new ≡ self.old) }
        ensures calls_err { OnErr result (queue.new.items ≡ queue.old.items) }
    {
        queue.reserve(4)?;
        self.cache.add_applied(msg.seq, &msg.body, &mut self.image)?;
        let last = self.last;
        let phase = self.phase;
        self.phase = Phase::LiveStale;
        self.last = msg.seq;
        push_gap(queue, phase, self.sender, last, msg);
        Ok(())
    }

    // Applies another sender's update, with which the cache begins anew.
    fn switch_to(
        &mut self,
        msg: MarketMsg,
        queue: &mut VecDeque<Callback>,
    ) -> Result<(), OutOfMemory>
        ensures context { OnOk result (self.new ≡ (update_acted Action.Switch self.old msg).context) }
        ensures calls { OnOk result (queue.new.items ≡ queue.old.items ++ (update_acted Action.Switch self.old msg).calls) }
        ensures err { OnErr result (self.new ≡ self.old) }
        ensures calls_err { OnErr result (queue.new.items ≡ queue.old.items) }
    {
        queue.reserve(3)?;
        let mut fresh = Cache::new(self.alloc, self.cache.size());
        fresh.add_applied(msg.seq, &msg.body, &mut self.image)?;
        let last = self.last;
        let phase = self.phase;
        self.cache = fresh;
        self.phase = Phase::LiveStale;
        self.sender = msg.sender;
        self.last = msg.seq;
        push_switch(queue, phase, last, msg);
        Ok(())
    }

    // Adds a late update to the cache, and tells of it.
    fn keep_late(
        &mut self,
        msg: MarketMsg,
        queue: &mut VecDeque<Callback>,
    ) -> Result<(), OutOfMemory>
        ensures context { OnOk result (self.new ≡ (update_acted Action.KeepLate self.old msg).context) }
        ensures calls { OnOk result (queue.new.items ≡ queue.old.items ++ (update_acted Action.KeepLate self.old msg).calls) }
        ensures err { OnErr result (self.new ≡ self.old) }
        ensures calls_err { OnErr result (queue.new.items ≡ queue.old.items) }
    {
        let call = late(&msg);
        queue.reserve(1)?;
        self.cache.add(msg.seq, msg.body)?;
        queue.push_back_reserved(call);
        Ok(())
    }

    // What one update does while there is an image.
    fn act_update(
        &mut self,
        action: Action,
        msg: MarketMsg,
        queue: &mut VecDeque<Callback>,
    ) -> Result<(), OutOfMemory>
        requires { action ≡ Action.Gap → self.old.last < msg.seq }
        ensures context { OnOk result (self.new ≡ (update_acted action self.old msg).context) }
        ensures calls { OnOk result (queue.new.items ≡ queue.old.items ++ (update_acted action self.old msg).calls) }
        ensures err { OnErr result (self.new ≡ self.old) }
        ensures calls_err { OnErr result (queue.new.items ≡ queue.old.items) }
    {
        match action {
            Action::Apply => self.apply_next(msg, queue),
            Action::ApplyKeep => self.apply_stale(msg, queue),
            Action::KeepOnly => self.cache.add(msg.seq, msg.body),
            Action::Gap => self.pass_gap(msg, queue),
            Action::Switch => self.switch_to(msg, queue),
            Action::Late => Ok(queue.push_back(late(&msg))?),
            Action::KeepLate => self.keep_late(msg, queue),
            _ => Ok(()),
        }
    }

    // Handles an update while there is an image.
    fn update(&mut self, msg: MarketMsg, queue: &mut VecDeque<Callback>) -> Result<(), OutOfMemory>
        ensures context { OnOk result (self.new ≡ (updated self.old msg).context) }
        ensures calls { OnOk result (queue.new.items ≡ queue.old.items ++ (updated self.old msg).calls) }
        ensures err { OnErr result (self.new ≡ self.old) }
        ensures calls_err { OnErr result (queue.new.items ≡ queue.old.items) }
    {
        let relation = relation_to(self.sender, self.last, &msg);
        let action = decide(self.strategy, self.phase, relation, true);
        self.act_update(action, msg, queue)
    }

    // Adds an update to the cache while there is no image.
    fn keep(&mut self, msg: &MarketMsg) -> Result<(), OutOfMemory>
        ensures context { OnOk result (self.new ≡ (acted Action.Keep self.old msg.now).context) }
        ensures err { OnErr result (self.new ≡ self.old) }
    {
        let body = msg.body.try_clone()?;
        if self.sender == msg.sender {
            return self.cache.add(msg.seq, body);
        }
        let mut cache = Cache::new(self.alloc, self.cache.size());
        cache.add(msg.seq, body)?;
        self.cache = cache;
        self.sender = msg.sender;
        Ok(())
    }

    // A context whose image is this message's, with an empty cache.
    fn with_first(&self, msg: &MarketMsg) -> Result<DqContext, OutOfMemory>
        ensures { IfOk result (λ next. next ≡ with_image_of msg.now (turned_to msg.now.sender self.now)) }
    {
        let image = msg.body.try_clone()?;
        Ok(DqContext {
            alloc: self.alloc,
            strategy: self.strategy,
            kind: self.kind,
            phase: Phase::LiveOk,
            sender: msg.sender,
            last: msg.seq,
            image,
            cache: Cache::new(self.alloc, self.cache.size()),
        })
    }

    // Handles cached updates from a bound on. After want of memory some of them may be handled.
    fn handle(
        &mut self,
        updates: &BTreeMap<u32, Msg>,
        from: Bound<u32>,
        queue: &mut VecDeque<Callback>,
    ) -> Result<(), OutOfMemory>
        ensures context { OnOk result (self.new ≡ (handled self.old (from_bound from updates.now.entries)).context) }
        ensures calls { OnOk result (queue.new.items ≡ queue.old.items ++ (handled self.old (from_bound from updates.now.entries)).calls) }
    {
        let sender = self.sender;
        for (seq, update) in updates.range((from, Bound::Unbounded)) {
            let msg = MarketMsg {
                kind: MsgKind::Update,
                sender,
                seq: *seq,
                body: update.try_clone()?,
            };
            self.update(msg, queue)?;
        }
        Ok(())
    }

    // Handles the cached updates of the message's sender that are numbered above it, if the cache has that sender's.
    fn handle_cached(
        &mut self,
        before: &DqContext,
        msg: &MarketMsg,
        queue: &mut VecDeque<Callback>,
    ) -> Result<(), OutOfMemory>
        ensures context { OnOk result (self.new ≡ (handled self.old (cached_above before.now msg.now)).context) }
        ensures calls { OnOk result (queue.new.items ≡ queue.old.items ++ (handled self.old (cached_above before.now msg.now)).calls) }
    {
        if before.sender != msg.sender {
            return Ok(());
        }
        self.handle(before.cache.updates(), Bound::Excluded(msg.seq), queue)
    }

    // Takes the first image.
    fn start(&mut self, msg: &MarketMsg, queue: &mut VecDeque<Callback>) -> Result<(), OutOfMemory>
        ensures context { OnOk result (self.new ≡ (started self.old msg.now).context) }
        ensures calls { OnOk result (queue.new.items ≡ queue.old.items ++ (started self.old msg.now).calls) }
        ensures err { OnErr result (self.new ≡ self.old) }
        ensures calls_err { OnErr result (queue.new.items ≡ queue.old.items) }
    {
        let mut made = VecDeque::new(self.alloc);
        made.push_back(ok_msg(copy_of(msg)?))?;
        let mut next = self.with_first(msg)?;
        next.handle_cached(self, msg, &mut made)?;
        queue.append(&mut made)?;
        *self = next;
        Ok(())
    }

    // While there is no image: drops cached updates of another sender.
    fn wait_for(&mut self, sender: u32)
        ensures { self.new ≡ waiting_for sender self.old }
    {
        if self.sender != sender {
            self.sender = sender;
            self.cache.clear();
        }
    }

    // Takes the first image, and keeps the cached updates above it.
    fn start_keeping(
        &mut self,
        msg: &MarketMsg,
        queue: &mut VecDeque<Callback>,
    ) -> Result<(), OutOfMemory>
        ensures context { OnOk result (self.new ≡ (started_keeping self.old msg.now).context) }
        ensures calls { OnOk result (queue.new.items ≡ queue.old.items ++ (started_keeping self.old msg.now).calls) }
        ensures err { OnErr result (self.new ≡ self.old) }
        ensures calls_err { OnErr result (queue.new.items ≡ queue.old.items) }
    {
        let call = copy_of(msg)?;
        let image = msg.body.try_clone()?;
        queue.push_back(ok_msg(call))?;
        self.wait_for(msg.sender);
        self.last = msg.seq;
        self.image = image;
        self.settle();
        Ok(())
    }

    // A copy of the context with an empty cache, and an image that is the sender's record.
    fn without_cache(&self) -> Result<DqContext, OutOfMemory>
        ensures { IfOk result (λ next. next ≡ record self.now { phase = Phase.LiveOk; cache = emptied self.now.cache }) }
    {
        let image = self.image.try_clone()?;
        Ok(DqContext {
            alloc: self.alloc,
            strategy: self.strategy,
            kind: self.kind,
            phase: Phase::LiveOk,
            sender: self.sender,
            last: self.last,
            image,
            cache: Cache::new(self.alloc, self.cache.size()),
        })
    }

    // The context in which the kept updates are handled, with the callbacks added.
    fn caught_up(&self, queue: &mut VecDeque<Callback>) -> Result<DqContext, OutOfMemory>
        ensures context { IfOk result (λ next. next ≡ (handled (record self.now { phase = Phase.LiveOk; cache = emptied self.now.cache }) self.now.cache.updates).context) }
        ensures calls { OnOk result (queue.new.items ≡ queue.old.items ++ (handled (record self.now { phase = Phase.LiveOk; cache = emptied self.now.cache }) self.now.cache.updates).calls) }
        ensures calls_err { OnErr result (queue.new.items ≡ queue.old.items) }
    {
        let mut made = VecDeque::new(self.alloc);
        let mut next = self.without_cache()?;
        next.handle(self.cache.updates(), Bound::Unbounded, &mut made)?;
        queue.append(&mut made)?;
        Ok(next)
    }

    // Handles the kept updates and one before which some are missing.
    fn catch_up(
        &mut self,
        msg: &MarketMsg,
        queue: &mut VecDeque<Callback>,
    ) -> Result<(), OutOfMemory>
        ensures context { OnOk result (self.new ≡ (caught self.old msg.now).context) }
        ensures calls { OnOk result (queue.new.items ≡ queue.old.items ++ (caught self.old msg.now).calls) }
        ensures err { OnErr result (self.new ≡ self.old) }
        ensures calls_err { OnErr result (queue.new.items ≡ queue.old.items) }
    {
        let fresh = self.cache.put(msg.seq, msg.body.try_clone()?)?;
        match self.caught_up(queue) {
            Ok(next) => {
                *self = next;
                Ok(())
            }
            Err(error) => {
                self.cache.take_back(msg.seq, fresh);
                Err(error)
            }
        }
    }

    // Replaces an image that is the sender's record.
    fn replace(
        &mut self,
        msg: &MarketMsg,
        queue: &mut VecDeque<Callback>,
    ) -> Result<(), OutOfMemory>
        ensures context { OnOk result (self.new ≡ (acted Action.Replace self.old msg.now).context) }
        ensures calls { OnOk result (queue.new.items ≡ queue.old.items ++ (acted Action.Replace self.old msg.now).calls) }
        ensures err { OnErr result (self.new ≡ self.old) }
        ensures calls_err { OnErr result (queue.new.items ≡ queue.old.items) }
    {
        let call = copy_of(msg)?;
        let image = msg.body.try_clone()?;
        queue.push_back(ok_msg(call))?;
        self.last = msg.seq;
        self.image = image;
        self.settle();
        Ok(())
    }

    // Takes an image of another sender.
    fn adopt(&mut self, msg: &MarketMsg, queue: &mut VecDeque<Callback>) -> Result<(), OutOfMemory>
        ensures context { OnOk result (self.new ≡ (acted Action.Adopt self.old msg.now).context) }
        ensures calls { OnOk result (queue.new.items ≡ queue.old.items ++ (acted Action.Adopt self.old msg.now).calls) }
        ensures err { OnErr result (self.new ≡ self.old) }
        ensures calls_err { OnErr result (queue.new.items ≡ queue.old.items) }
    {
        let call = copy_of(msg)?;
        let image = msg.body.try_clone()?;
        queue.reserve(2)?;
        push_adopt(queue, self.phase, call);
        self.phase = Phase::LiveOk;
        self.sender = msg.sender;
        self.last = msg.seq;
        self.image = image;
        self.cache.clear();
        Ok(())
    }

    // Takes an image that reaches the last number.
    fn take_healed(
        &mut self,
        msg: &MarketMsg,
        number: u32,
        image: Msg,
        queue: &mut VecDeque<Callback>,
    ) -> Result<(), OutOfMemory>
        requires { self.old.last ≤ number }
        ensures context { OnOk result (self.new ≡ (healed (record { number = number; body = image }) self.old msg.now).context) }
        ensures calls { OnOk result (queue.new.items ≡ queue.old.items ++ (healed (record { number = number; body = image }) self.old msg.now).calls) }
        ensures err { OnErr result (self.new ≡ self.old) }
        ensures calls_err { OnErr result (queue.new.items ≡ queue.old.items) }
    {
        queue.reserve(2)?;
        queue.push_back_reserved(ok_msg(copy_of(msg)?));
        queue.push_back_reserved(ok_at(number));
        self.phase = Phase::LiveOk;
        self.last = number;
        self.image = image;
        self.cache.clear();
        Ok(())
    }

    // Takes an image of the same sender in place of one that may lack updates, if it reaches the last number.
    fn heal(&mut self, msg: &MarketMsg, queue: &mut VecDeque<Callback>) -> Result<(), OutOfMemory>
        ensures context { OnOk result (self.new ≡ (acted Action.Heal self.old msg.now).context) }
        ensures calls { OnOk result (queue.new.items ≡ queue.old.items ++ (acted Action.Heal self.old msg.now).calls) }
        ensures err { OnErr result (self.new ≡ self.old) }
        ensures calls_err { OnErr result (queue.new.items ≡ queue.old.items) }
    {
        let mut image = msg.body.try_clone()?;
        let number = self.cache.follow(msg.seq, &mut image)?;
        if number < self.last {
            queue.push_back(recap_of(self.sender))?;
            return Ok(());
        }
        self.take_healed(msg, number, image, queue)
    }

    // What a message does in a market context.
    fn act(
        &mut self,
        action: Action,
        msg: &MarketMsg,
        queue: &mut VecDeque<Callback>,
    ) -> Result<(), OutOfMemory>
        requires { action ≡ Action.Gap → self.old.last < msg.now.seq }
        ensures context { OnOk result (self.new ≡ (acted action self.old msg.now).context) }
        ensures calls { OnOk result (queue.new.items ≡ queue.old.items ++ (acted action self.old msg.now).calls) }
        ensures err { OnErr result (self.new ≡ self.old) }
        ensures calls_err { OnErr result (queue.new.items ≡ queue.old.items) }
    {
        match action {
            Action::Keep => self.keep(msg),
            Action::Start => self.start(msg, queue),
            Action::StartKeep => self.start_keeping(msg, queue),
            Action::Catch => self.catch_up(msg, queue),
            Action::Replace => self.replace(msg, queue),
            Action::Heal => self.heal(msg, queue),
            Action::Adopt => self.adopt(msg, queue),
            Action::Ignore => Ok(()),
            _ => self.act_update(action, copy_of(msg)?, queue),
        }
    }

    // A step of a market context.
    fn step_market(
        &mut self,
        msg: &MarketMsg,
        queue: &mut VecDeque<Callback>,
    ) -> Result<(), OutOfMemory>
        ensures context { OnOk result (self.new ≡ (step_by SubKind.Market self.old msg.now).context) }
        ensures calls { OnOk result (queue.new.items ≡ queue.old.items ++ (step_by SubKind.Market self.old msg.now).calls) }
        ensures err { OnErr result (self.new ≡ self.old) }
        ensures calls_err { OnErr result (queue.new.items ≡ queue.old.items) }
    {
        let update = is_update(msg.kind);
        let relation = relation_to(self.sender, self.last, msg);
        let action = decide(self.strategy, self.phase, relation, update);
        self.act(action, msg, queue)
    }

    // A step of a snapshot context.
    fn step_snapshot(
        &mut self,
        msg: &MarketMsg,
        queue: &mut VecDeque<Callback>,
    ) -> Result<(), OutOfMemory>
        ensures context { OnOk result (self.new ≡ (step_by SubKind.Snapshot self.old msg.now).context) }
        ensures calls { OnOk result (queue.new.items ≡ queue.old.items ++ (step_by SubKind.Snapshot self.old msg.now).calls) }
        ensures err { OnErr result (self.new ≡ self.old) }
        ensures calls_err { OnErr result (queue.new.items ≡ queue.old.items) }
    {
        if self.phase != Phase::Await || is_update(msg.kind) {
            return Ok(());
        }
        let call = copy_of(msg)?;
        let next = self.with_first(msg)?;
        queue.push_back(ok_msg(call))?;
        *self = next;
        Ok(())
    }

    /// Takes a message: the context changes by the strategy, and the callbacks of the message are added. The context of
    /// a basic subscription never changes, so it never has an image.
    ///
    /// After want of memory the context and the callbacks are as before.
    pub fn step(&mut self, msg: &MarketMsg, calls: &mut Calls) -> Result<(), OutOfMemory>
        ensures context { OnOk result (self.new ≡ after self.old msg.now) }
        ensures calls { OnOk result (calls.new ≡ calls.old ++ callbacks_of self.old msg.now) }
        ensures basic { self.old.kind ≡ SubKind.Basic → self.new ≡ self.old }
        ensures err { OnErr result (self.new ≡ self.old) }
        ensures calls_err { OnErr result (calls.new ≡ calls.old) }
    {
        match self.kind {
            SubKind::Market => self.step_market(msg, &mut calls.queue),
            SubKind::Snapshot => self.step_snapshot(msg, &mut calls.queue),
            SubKind::Basic => {
                let msg = copy_of(msg)?;
                calls.queue.push_back(ok_msg(msg))?;
                Ok(())
            }
        }
    }

    /// The image. None until the first image came, and for a basic subscription.
    pub fn image(&self) -> Option<&Msg>
        ensures none { IsNone result ↔ (self.now.phase ≡ Phase.Await) }
        ensures image { IfSome result (λ image. image.now ≡ self.now.image) }
    {
        match self.phase {
            Phase::Await => None,
            Phase::LiveOk | Phase::LiveStale | Phase::LiveKept => Some(&self.image),
        }
    }

    /// The quality of the image. While there is none it is stale.
    pub fn quality(&self) -> Quality
        ensures { result ≡ quality_in self.now.phase }
    {
        match self.phase {
            Phase::LiveOk | Phase::LiveKept => Quality::Ok,
            Phase::Await | Phase::LiveStale => Quality::Stale,
        }
    }

    /// The number of the last update in the image. While there is no image it is 0.
    pub fn last(&self) -> u32
        ensures { result ≡ with_image self.now.phase self.now.last }
    {
        match self.phase {
            Phase::Await => 0,
            Phase::LiveOk | Phase::LiveStale | Phase::LiveKept => self.last,
        }
    }

    /// The sender of the image. While there is no image it is 0.
    pub fn sender(&self) -> u32
        ensures { result ≡ with_image self.now.phase self.now.sender }
    {
        match self.phase {
            Phase::Await => 0,
            Phase::LiveOk | Phase::LiveStale | Phase::LiveKept => self.sender,
        }
    }

    /// How many updates its cache holds.
    pub fn cached(&self) -> usize
        ensures { result ≡ length self.now.cache.updates }
    {
        self.cache.len()
    }
}
