//! What the lines before a line say about it.
ghost use Rattle.std.specs.Prelude.{◌≡◌, None, OnOk, IfErr};
ghost use Rattle.mama_script.specs.Seen.{seen};
ghost use Rattle.mama_script.specs.Before as before;
ghost use Rattle.mama_script.specs.Checked.{Refuses, Checks};

use crate::fault::{Flaw, Refused};
use crate::head::Place;
use crate::line::{Line, QueueName};
use mama_msg::Msg;
use mama_words::{OrderWord, Version};
use std::alloc::Global;
use std::collections::{BTreeMap, BTreeSet};

const MOST_QUEUES: u64 = 64;

const MOST_TOPICS: u64 = 1_024;

const MOST_PUBLISHERS: u64 = 1_024;

const MOST_CLIENTS: u64 = 64;

const MOST_SUBS: u64 = 10_000;

const MOST_OBJECTS: u64 = 1_024;

const MOST_FIELDS: usize = 64;

const MOST_WEIGHT: u64 = 2_000_000;

const RECAP_WEIGHT: u64 = 65;

const MOST_ORDERS: u8 = 8;

/// What was declared so far, and what the section and the object at hand have.
#[derive(Drop)]
pub struct Context {
    version: Version,
    place: Place,
    queues: u64,
    topics: u64,
    publishers: u64,
    clients: u64,
    subs: u64,
    // The timers and inboxes of the client at hand.
    objects: u64,
    // The record of the publisher at hand, and its topic.
    held: Msg,
    topic: u64,
    // For each topic, the weight of one subscription.
    weights: BTreeMap<u64, u64>,
    weight: u64,
    // The faults and the planned calls of the object at hand.
    indexes: BTreeSet<u32>,
    calls: BTreeMap<u32, u8>,
}

// A flaw where the test holds.
fn flaw_if(test: bool, flaw: Flaw) -> Result<(), Flaw>
    ensures { Checks (before.flaw_if test flaw None) result }
{
    if test { Err(flaw) } else { Ok(()) }
}

impl Context {
    /// Behind the first line of a version.
    pub fn new(alloc: Global, version: Version) -> Context
        ensures { seen result ≡ before.start version }
    {
        Context {
            version,
            place: Place::opening(version),
            queues: 0,
            topics: 0,
            publishers: 0,
            clients: 0,
            subs: 0,
            objects: 0,
            held: Msg::new(alloc),
            topic: 0,
            weights: BTreeMap::new(alloc),
            weight: 0,
            indexes: BTreeSet::new(alloc),
            calls: BTreeMap::new(alloc),
        }
    }

    /// The version of the text.
    pub fn version(&self) -> Version
        ensures { result ≡ self.now.version }
    {
        self.version
    }

    /// Where the next line stands.
    pub fn place(&self) -> Place
        ensures { result ≡ self.now.place }
    {
        self.place
    }

    /// Takes a line that has its form, if it fits those before it: the lowest of its faults from 9 on, and then the
    /// lowest limit that it passes, refuse it.
    pub fn admit(&mut self, line: &Line) -> Result<(), Refused>
        ensures ok { OnOk result (before.flaw (seen self.old) line.now ≡ None) }
        ensures after { OnOk result (seen self.new ≡ before.after (seen self.old) line.now) }
        ensures refused { IfErr result (Refuses (before.flaw (seen self.old) line.now)) }
    {
        match line {
            Line::Strategy(_) => self.admit_strategy(),
            Line::Queues(queues) => self.admit_queues(*queues),
            Line::Topic(_) => self.admit_topic(),
            Line::Publisher { topic, base } => self.admit_publisher(*topic, base),
            Line::Update(update) => self.admit_update(update),
            Line::Recap => self.admit_recap(),
            Line::Pause(_) | Line::Now(_) | Line::NowClock => self.admit_step(),
            Line::Client => self.admit_client(),
            Line::Sub {
                topic,
                kind: _,
                queue,
                cache: _,
                recaps: _,
            } => self.admit_sub(*topic, *queue),
            Line::Timer { queue, interval } => self.admit_timer(*queue, *interval),
            Line::Inbox { queue } => self.admit_inbox(*queue),
            Line::Fault(row) => self.admit_fault(row.index),
            Line::At { call, order } => self.admit_at(*call, order),
            Line::Order(order) => self.admit_order(order),
            Line::Group(_) => self.admit_group(),
            Line::Watch {
                sub: _,
                timer: _,
                retries: _,
            } => self.admit_watch(),
        }
    }

    fn admit_strategy(&mut self) -> Result<(), Refused>
        ensures after { OnOk result (seen self.new ≡ before.after_strategy (seen self.old)) }
        ensures refused { IfErr result (Refuses None) }
    {
        self.place = Place::Start;
        Ok(())
    }

    fn admit_queues(&mut self, queues: u64) -> Result<(), Refused>
        ensures ok { OnOk result (before.queues_flaw queues ≡ None) }
        ensures after { OnOk result (seen self.new ≡ before.after_queues queues (seen self.old)) }
        ensures refused { IfErr result (Refuses (before.queues_flaw queues)) }
    {
        flaw_if(queues > MOST_QUEUES, Flaw::Limit(2))?;
        self.queues = queues;
        self.place = Place::Topics;
        Ok(())
    }

    fn admit_topic(&mut self) -> Result<(), Refused>
        ensures ok { OnOk result (before.topics_flaw (seen self.old) ≡ None) }
        ensures after { OnOk result (seen self.new ≡ before.after_topic (seen self.old)) }
        ensures refused { IfErr result (Refuses (before.topics_flaw (seen self.old))) }
    {
        flaw_if(self.topics >= MOST_TOPICS, Flaw::Limit(3))?;
        self.topics += 1;
        Ok(())
    }

    fn check_topic(&self, topic: u64) -> Result<(), Flaw>
        ensures { Checks (before.topic_flaw topic (seen self.now)) result }
    {
        flaw_if(topic >= self.topics, Flaw::Fault(9))
    }

    fn check_publisher(&self, topic: u64, base: &Msg) -> Result<(), Flaw>
        ensures { Checks (before.publisher_flaw topic base.now (seen self.now)) result }
    {
        self.check_topic(topic)?;
        flaw_if(self.publishers >= MOST_PUBLISHERS, Flaw::Limit(4))?;
        flaw_if(base.len() > MOST_FIELDS, Flaw::Limit(8))
    }

    fn admit_publisher(&mut self, topic: u64, base: &Msg) -> Result<(), Refused>
        ensures ok { OnOk result (before.publisher_flaw topic base.now (seen self.old) ≡ None) }
        ensures after { OnOk result (seen self.new ≡ before.after_publisher topic base.now (seen self.old)) }
        ensures refused { IfErr result (Refuses (before.publisher_flaw topic base.now (seen self.old))) }
    {
        self.check_publisher(topic, base)?;
        let held = base.try_clone()?;
        self.held = held;
        self.topic = topic;
        self.publishers = self.publishers.saturating_add(1);
        self.place = Place::Publisher;
        Ok(())
    }

    fn check_update(&self, update: &Msg) -> Result<(), Flaw>
        ensures { Checks (before.update_flaw update.now (seen self.now)) result }
    {
        flaw_if(update.len() > MOST_FIELDS, Flaw::Limit(8))?;
        flaw_if(self.held.len_after(update) > MOST_FIELDS, Flaw::Limit(8))
    }

    fn admit_update(&mut self, update: &Msg) -> Result<(), Refused>
        ensures ok { OnOk result (before.update_flaw update.now (seen self.old) ≡ None) }
        ensures after { OnOk result (seen self.new ≡ before.after_update update.now (seen self.old)) }
        ensures refused { IfErr result (Refuses (before.update_flaw update.now (seen self.old))) }
    {
        self.check_update(update)?;
        self.held.apply(update)?;
        self.add_send((update.len() as u64).saturating_add(1))
    }

    fn admit_recap(&mut self) -> Result<(), Refused>
        ensures after { OnOk result (seen self.new ≡ before.with_send before.recap_weight (seen self.old)) }
        ensures refused { IfErr result (Refuses None) }
    {
        self.add_send(RECAP_WEIGHT)
    }

    fn weight_of(&self, topic: u64) -> u64
        ensures { result ≡ before.number_at topic self.now.weights.entries }
    {
        self.weights.get(&topic).copied().unwrap_or(0)
    }

    fn add_send(&mut self, more: u64) -> Result<(), Refused>
        ensures after { OnOk result (seen self.new ≡ before.with_send more (seen self.old)) }
        ensures refused { IfErr result (Refuses None) }
    {
        let so_far = self.weight_of(self.topic);
        self.weights
            .insert(self.topic, so_far.saturating_add(more))?;
        Ok(())
    }

    fn admit_client(&mut self) -> Result<(), Refused>
        ensures ok { OnOk result (before.client_flaw (seen self.old) ≡ None) }
        ensures after { OnOk result (seen self.new ≡ before.after_client (seen self.old)) }
        ensures refused { IfErr result (Refuses (before.client_flaw (seen self.old))) }
    {
        flaw_if(self.clients >= MOST_CLIENTS, Flaw::Limit(5))?;
        self.clients += 1;
        self.objects = 0;
        self.place = Place::Client;
        Ok(())
    }

    fn check_queue(&self, queue: QueueName) -> Result<(), Flaw>
        ensures { Checks (before.queue_flaw queue (seen self.now)) result }
    {
        match queue {
            QueueName::Number(queue) => flaw_if(queue >= self.queues, Flaw::Fault(9)),
            QueueName::Any => Ok(()),
        }
    }

    fn check_order(&self, order: &OrderWord) -> Result<(), Flaw>
        ensures { Checks (before.order_flaw order.now (seen self.now)) result }
    {
        match order {
            OrderWord::Stop(_) | OrderWord::Disarm(_) | OrderWord::Close(_) => Ok(()),
            OrderWord::Ask {
                inbox: _,
                topic,
                fids: _,
            } => self.check_topic(*topic),
        }
    }

    fn weight_with(&self, topic: u64) -> u64
        ensures { result ≡ before.weight_with topic (seen self.now) }
    {
        self.weight.saturating_add(self.weight_of(topic))
    }

    fn check_sub(&self, topic: u64, queue: QueueName) -> Result<(), Flaw>
        ensures { Checks (before.sub_flaw topic queue (seen self.now)) result }
    {
        self.check_topic(topic)?;
        self.check_queue(queue)?;
        flaw_if(self.subs >= MOST_SUBS, Flaw::Limit(6))?;
        flaw_if(self.weight_with(topic) > MOST_WEIGHT, Flaw::Limit(9))
    }

    fn begin_object(&mut self, place: Place)
        ensures { seen self.new ≡ before.with_object place (seen self.old) }
    {
        self.indexes.clear();
        self.calls.clear();
        self.place = place;
    }

    fn admit_sub(&mut self, topic: u64, queue: QueueName) -> Result<(), Refused>
        ensures ok { OnOk result (before.sub_flaw topic queue (seen self.old) ≡ None) }
        ensures after { OnOk result (seen self.new ≡ before.after_sub topic (seen self.old)) }
        ensures refused { IfErr result (Refuses (before.sub_flaw topic queue (seen self.old))) }
    {
        self.check_sub(topic, queue)?;
        self.weight = self.weight_with(topic);
        self.subs = self.subs.saturating_add(1);
        self.begin_object(Place::Linked);
        Ok(())
    }

    fn check_object(&self) -> Result<(), Flaw>
        ensures { Checks (before.object_flaw (seen self.now)) result }
    {
        flaw_if(self.objects >= MOST_OBJECTS, Flaw::Limit(7))
    }

    fn check_timer(&self, queue: QueueName, interval: u32) -> Result<(), Flaw>
        ensures { Checks (before.timer_flaw queue interval (seen self.now)) result }
    {
        self.check_queue(queue)?;
        flaw_if(interval == 0, Flaw::Fault(12))?;
        self.check_object()
    }

    fn admit_timer(&mut self, queue: QueueName, interval: u32) -> Result<(), Refused>
        ensures ok { OnOk result (before.timer_flaw queue interval (seen self.old) ≡ None) }
        ensures after { OnOk result (seen self.new ≡ before.after_timer (seen self.old)) }
        ensures refused { IfErr result (Refuses (before.timer_flaw queue interval (seen self.old))) }
    {
        self.check_timer(queue, interval)?;
        self.objects = self.objects.saturating_add(1);
        self.begin_object(Place::Planned);
        Ok(())
    }

    fn check_inbox(&self, queue: QueueName) -> Result<(), Flaw>
        ensures { Checks (before.inbox_flaw queue (seen self.now)) result }
    {
        self.check_queue(queue)?;
        self.check_object()
    }

    fn admit_inbox(&mut self, queue: QueueName) -> Result<(), Refused>
        ensures ok { OnOk result (before.inbox_flaw queue (seen self.old) ≡ None) }
        ensures after { OnOk result (seen self.new ≡ before.after_inbox (seen self.old)) }
        ensures refused { IfErr result (Refuses (before.inbox_flaw queue (seen self.old))) }
    {
        self.check_inbox(queue)?;
        self.objects = self.objects.saturating_add(1);
        self.begin_object(Place::Linked);
        Ok(())
    }

    fn admit_fault(&mut self, index: u32) -> Result<(), Refused>
        ensures ok { OnOk result (before.fault_flaw index (seen self.old) ≡ None) }
        ensures after { OnOk result (seen self.new ≡ before.after_fault index (seen self.old)) }
        ensures refused { IfErr result (Refuses (before.fault_flaw index (seen self.old))) }
    {
        flaw_if(self.indexes.contains(&index), Flaw::Fault(11))?;
        self.indexes.insert(index)?;
        Ok(())
    }

    fn planned(&self, call: u32) -> u8
        ensures { result ≡ before.number_at call self.now.calls.entries }
    {
        self.calls.get(&call).copied().unwrap_or(0)
    }

    fn check_at(&self, call: u32, order: &OrderWord) -> Result<(), Flaw>
        ensures { Checks (before.at_flaw call order.now (seen self.now)) result }
    {
        self.check_order(order)?;
        flaw_if(self.planned(call) >= MOST_ORDERS, Flaw::Fault(11))
    }

    fn admit_at(&mut self, call: u32, order: &OrderWord) -> Result<(), Refused>
        ensures ok { OnOk result (before.at_flaw call order.now (seen self.old) ≡ None) }
        ensures after { OnOk result (seen self.new ≡ before.after_at call (seen self.old)) }
        ensures refused { IfErr result (Refuses (before.at_flaw call order.now (seen self.old))) }
    {
        self.check_at(call, order)?;
        let planned = self.planned(call);
        self.calls.insert(call, planned.saturating_add(1))?;
        self.place = Place::Planned;
        Ok(())
    }

    fn beside(&self) -> Place
        ensures { result ≡ before.beside self.now.place }
    {
        match self.place {
            Place::Publisher => Place::Publisher,
            _ => Place::Client,
        }
    }

    fn admit_step(&mut self) -> Result<(), Refused>
        ensures after { OnOk result (seen self.new ≡ before.after_step (seen self.old)) }
        ensures refused { IfErr result (Refuses None) }
    {
        self.place = self.beside();
        Ok(())
    }

    fn admit_order(&mut self, order: &OrderWord) -> Result<(), Refused>
        ensures ok { OnOk result (before.order_flaw order.now (seen self.old) ≡ None) }
        ensures after { OnOk result (seen self.new ≡ before.after_step (seen self.old)) }
        ensures refused { IfErr result (Refuses (before.order_flaw order.now (seen self.old))) }
    {
        self.check_order(order)?;
        self.admit_step()
    }

    fn admit_group(&mut self) -> Result<(), Refused>
        ensures after { OnOk result (seen self.new ≡ before.after_group (seen self.old)) }
        ensures refused { IfErr result (Refuses None) }
    {
        self.place = Place::Groups;
        Ok(())
    }

    fn admit_watch(&mut self) -> Result<(), Refused>
        ensures after { OnOk result (seen self.new ≡ before.after_watch (seen self.old)) }
        ensures refused { IfErr result (Refuses None) }
    {
        self.place = Place::Watches;
        Ok(())
    }
}
