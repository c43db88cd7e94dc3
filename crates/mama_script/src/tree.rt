//! Lines to the sections of a script.
ghost use Rattle.std.specs.Prelude.{◌≡◌, ◌<◌, ◌^◌, ◌+◌, ◌∷◌, ◌++◌, [], length, map, None, IfOk, OnOk};
ghost use Rattle.std.specs.List.{flat_map, AllByRecursion};
ghost use Rattle.mama_journal.specs.Journal.{numbers_below};
ghost use Rattle.mama_event.specs.declared.watch.WatchRow.{WatchRow};
ghost use Rattle.mama_script.specs.declared.publisher.PublisherPart.{PublisherPart};
ghost use Rattle.mama_words.specs.Order.{word_of};
ghost use Rattle.mama_words.specs.Id.{sub_word, timer_word, inbox_word};
ghost use Rattle.mama_script.specs.Tree as tree;
ghost use Rattle.mama_script.specs.Taken as taken;
ghost use Rattle.mama_link.specs.Faults.{first_fault};
ghost use Rattle.mama_script.specs.Reading.{AreAccepted, version_of};
ghost use Rattle.mama_script.specs.Before.{opening};
ghost use Rattle.mama_script.specs.Standing as standing;

use crate::client::{ClientLine, ClientLines, QueueWord};
use crate::head::Place;
use crate::line::{IdWords, Line, QueueName};
use crate::plan::Plan;
use crate::publisher::{PublisherLine, PublisherLines, PublisherPart};
use mama_event::{
    Bounds, GroupRow, InboxId, Members, Order, PlanRow, Shape, Strategy, SubId, TimerId, Topics,
    WatchRow,
};
use mama_link::{FaultRow, Faults, FaultsFault};
use mama_memory::OutOfMemory;
use mama_msg::{Msg, TextValue};
use mama_words::{IdWord, OrderWord, Version};
use std::alloc::Global;
use std::collections::VecDeque;

/// The parts of a script.
#[derive(Drop)]
pub struct Parts {
    pub version: Version,
    pub shape: Shape,
    pub topics: Vec<TextValue>,
    pub publishers: Vec<PublisherPart>,
    pub clients: Vec<ClientLines>,
    pub groups: Vec<GroupRow>,
    pub watches: Vec<WatchRow>,
}

/// The parts of the script that has these lines.
#[tactic(auto, using(crate::proofs::Standing::accepted_stand))]
pub fn parts_of(alloc: Global, lines: Vec<Line>) -> Result<Parts, OutOfMemory>
    requires { AreAccepted lines.items }
    ensures lines { IfOk result (λ parts. taken.parts_lines parts ≡ lines.items) }
    ensures shaped { IfOk result (λ parts. tree.IsShaped (taken.script_of_parts parts)) }
{
    let mut lines = VecDeque::from(lines);
    let (version, strategy) = take_strategy(&mut lines);
    let queues = take_queues(&mut lines);
    let topics = take_topics(alloc, &mut lines)?;
    let publishers = take_publishers(alloc, &mut lines)?;
    let clients = take_clients(alloc, &mut lines)?;
    let groups = take_groups(alloc, &mut lines)?;
    let shape = shape_of(alloc, queues, strategy, &topics, &publishers, &clients)?;
    let senders = Senders::of(alloc, &topics, &publishers, &clients)?;
    let watches = take_watches(alloc, &senders, &mut lines)?;
    Ok(Parts {
        version,
        shape,
        topics,
        publishers,
        clients,
        groups,
        watches,
    })
}

fn shape_of(
    alloc: Global,
    queues: u32,
    strategy: Strategy,
    topics: &[TextValue],
    publishers: &[PublisherPart],
    clients: &[ClientLines],
) -> Result<Shape, OutOfMemory>
    requires few_topics { length topics.now < 2 ^ 32 }
    requires few_clients { length clients.now < 2 ^ 32 }
    ensures queues { IfOk result (λ shape. shape.bounds.queues ≡ queues) }
    ensures topics { IfOk result (λ shape. shape.bounds.topics ≡ length topics.now) }
    ensures publishers { IfOk result (λ shape. shape.publisher_topics ≡ map tree.topic_of_part publishers.now) }
    ensures clients { IfOk result (λ shape. shape.clients ≡ length clients.now) }
    ensures strategy { IfOk result (λ shape. shape.strategy ≡ strategy) }
{
    let publisher_topics = topics_of(alloc, publishers)?;
    Ok(Shape {
        clients: clients.len() as u32,
        publisher_topics: Topics::new(publisher_topics),
        bounds: Bounds {
            topics: topics.len() as u32,
            queues,
        },
        strategy,
    })
}

fn topics_of(alloc: Global, publishers: &[PublisherPart]) -> Result<Vec<u32>, OutOfMemory>
    ensures { IfOk result (λ topics. topics.items ≡ map tree.topic_of_part publishers.now) }
{
    let mut topics = Vec::new(alloc);
    for part in publishers {
        topics.push(part.topic)?;
    }
    Ok(topics)
}

// The version that has these lines, and its strategy.
fn take_strategy(lines: &mut VecDeque<Line>) -> (Version, Strategy)
    requires { standing.Stand (opening (version_of lines.now.items)) [] lines.now.items }
    ensures lines { lines.old.items ≡ tree.strategy_lines result.0 result.1 ++ lines.new.items }
    ensures strategy { tree.HasStrategy result.0 result.1 }
    ensures rest { standing.Stand Place.Start [] lines.new.items }
{
    match lines.front() {
        Some(Line::Strategy(strategy)) => {
            let strategy = *strategy;
            lines.pop_front();
            (Version::Two, strategy)
        }
        _ => (Version::One, Strategy::One),
    }
}

fn take_queues(lines: &mut VecDeque<Line>) -> u32
    requires { standing.Stand Place.Start [] lines.now.items }
    ensures lines { lines.old.items ≡ Line.Queues result ∷ lines.new.items }
    ensures rest { standing.Stand Place.Topics [] lines.new.items }
{
    match lines.pop_front() {
        Some(Line::Queues(queues)) => queues as u32,
        _ => unreachable!(),
    }
}

fn take_topics(alloc: Global, lines: &mut VecDeque<Line>) -> Result<Vec<TextValue>, OutOfMemory>
    requires { standing.Stand Place.Topics [] lines.now.items }
    ensures lines { IfOk result (λ topics. lines.old.items ≡ map tree.topic_line topics.items ++ lines.new.items) }
    ensures rest { OnOk result (standing.AreSections lines.new.items) }
{
    let mut topics = Vec::new(alloc);
    while let Some(line) = lines.pop_front() {
        match line {
            Line::Topic(name) => topics.push(name)?,
            other => {
                lines.push_front(other)?;
                return Ok(topics);
            }
        }
    }
    Ok(topics)
}

fn take_publishers(
    alloc: Global,
    lines: &mut VecDeque<Line>,
) -> Result<Vec<PublisherPart>, OutOfMemory>
    requires { standing.AreSections lines.now.items }
    ensures lines { IfOk result (λ parts. lines.old.items ≡ flat_map tree.publisher_lines parts.items ++ lines.new.items) }
    ensures rest { OnOk result (standing.AreClients lines.new.items) }
{
    let mut parts = Vec::new(alloc);
    while let Some(line) = lines.pop_front() {
        match line {
            Line::Publisher { topic, base } => {
                parts.push(take_publisher(alloc, topic, base, lines)?)?
            }
            other => {
                lines.push_front(other)?;
                return Ok(parts);
            }
        }
    }
    Ok(parts)
}

fn take_publisher(
    alloc: Global,
    topic: u64,
    base: Msg,
    lines: &mut VecDeque<Line>,
) -> Result<PublisherPart, OutOfMemory>
    requires small { topic < 2 ^ 32 }
    requires stand { standing.Stand Place.Publisher [] lines.now.items }
    ensures lines { IfOk result (λ part. Line.Publisher topic base ∷ lines.old.items ≡ tree.publisher_lines part ++ lines.new.items) }
    ensures rest { OnOk result (standing.AreSections lines.new.items) }
{
    let sends = take_sends(alloc, lines)?;
    Ok(PublisherPart {
        topic: topic as u32,
        base,
        lines: PublisherLines::new(sends),
    })
}

fn take_sends(alloc: Global, lines: &mut VecDeque<Line>) -> Result<Vec<PublisherLine>, OutOfMemory>
    requires { standing.Stand Place.Publisher [] lines.now.items }
    ensures lines { IfOk result (λ sends. lines.old.items ≡ map tree.publisher_line sends.items ++ lines.new.items) }
    ensures rest { OnOk result (standing.AreSections lines.new.items) }
{
    let mut sends = Vec::new(alloc);
    while let Some(line) = lines.pop_front() {
        match line {
            Line::Update(update) => sends.push(PublisherLine::Update(update))?,
            Line::Recap => sends.push(PublisherLine::Recap)?,
            Line::Pause(rounds) => sends.push(PublisherLine::Pause(rounds))?,
            other => {
                lines.push_front(other)?;
                return Ok(sends);
            }
        }
    }
    Ok(sends)
}

fn take_clients(alloc: Global, lines: &mut VecDeque<Line>) -> Result<Vec<ClientLines>, OutOfMemory>
    requires { standing.AreClients lines.now.items }
    ensures lines { IfOk result (λ clients. lines.old.items ≡ flat_map tree.client_lines clients.items ++ lines.new.items) }
    ensures rest { OnOk result (standing.AreGroups lines.new.items) }
{
    let mut clients = Vec::new(alloc);
    while let Some(line) = lines.pop_front() {
        match line {
            Line::Client => clients.push(ClientLines::new(take_steps(alloc, lines)?))?,
            other => {
                lines.push_front(other)?;
                return Ok(clients);
            }
        }
    }
    Ok(clients)
}

fn take_groups(alloc: Global, lines: &mut VecDeque<Line>) -> Result<Vec<GroupRow>, OutOfMemory>
    requires { standing.AreGroups lines.now.items }
    ensures lines { IfOk result (λ groups. lines.old.items ≡ map tree.group_line groups.items ++ lines.new.items) }
    ensures rest { OnOk result (standing.AreWatches lines.new.items) }
{
    let mut groups = Vec::new(alloc);
    while let Some(line) = lines.pop_front() {
        match line {
            Line::Group(ids) => groups.push(group_of(alloc, &ids)?)?,
            other => {
                lines.push_front(other)?;
                return Ok(groups);
            }
        }
    }
    Ok(groups)
}

fn group_of(alloc: Global, ids: &IdWords) -> Result<GroupRow, OutOfMemory>
    requires { AllByRecursion standing.IsSmallId ids.now }
    ensures { IfOk result (λ row. tree.group_line row ≡ Line.Group ids.now) }
{
    let mut members = Vec::with_capacity(alloc, ids.as_slice().len())?;
    for id in ids.as_slice() {
        members.push(sub_of(*id))?;
    }
    Ok(GroupRow {
        members: Members::new(members),
    })
}

// The first publisher's id of each topic, and the topic of each subscription, client by client.
#[derive(Drop)]
struct Senders {
    first: Vec<u32>,
    topics: Vec<Vec<u32>>,
}

impl Senders {
    fn of(
        alloc: Global,
        topics: &[TextValue],
        publishers: &[PublisherPart],
        clients: &[ClientLines],
    ) -> Result<Senders, OutOfMemory>
        requires few { length publishers.now + 1 < 2 ^ 32 }
        requires within { AllByRecursion (λ (part : PublisherPart). part.topic < length topics.now) publishers.now }
        ensures first { IfOk result (λ s. s.first.items ≡ map (λ t. tree.first_sender t 1 (map tree.topic_of_part publishers.now)) (numbers_below (length topics.now))) }
        ensures topics { IfOk result (λ s. map (λ v. v.items) s.topics.items ≡ map tree.topics_in clients.now) }
    {
        let first = first_senders(alloc, topics.len(), publishers)?;
        let mut topics = Vec::with_capacity(alloc, clients.len())?;
        for lines in clients {
            topics.push(topics_in(alloc, lines.as_slice())?)?;
        }
        Ok(Senders { first, topics })
    }

    // The id of the first publisher of a subscription's topic.
    fn sender(&self, sub: SubId) -> u32
        ensures { result ≡ taken.sender_in self.now.first.items (map (λ v. v.items) self.now.topics.items) sub }
    {
        match self.topics.get(sub.client as usize) {
            Some(topics) => match topics.get(sub.number as usize) {
                Some(topic) => self.first.get(*topic as usize).copied().unwrap_or(0),
                None => 0,
            },
            None => 0,
        }
    }
}

fn first_senders(
    alloc: Global,
    topics: usize,
    publishers: &[PublisherPart],
) -> Result<Vec<u32>, OutOfMemory>
    requires few { length publishers.now + 1 < 2 ^ 32 }
    requires within { AllByRecursion (λ (part : PublisherPart). part.topic < topics) publishers.now }
    ensures { IfOk result (λ first. first.items ≡ map (λ t. tree.first_sender t 1 (map tree.topic_of_part publishers.now)) (numbers_below topics)) }
{
    let mut first = vec![in alloc; 0u32; topics]?;
    for (number, part) in publishers.iter().enumerate() {
        note_sender(&mut first, part.topic as usize, number as u32 + 1);
    }
    Ok(first)
}

// The publisher with this id has this topic. It is the first if there was none.
fn note_sender(first: &mut Vec<u32>, topic: usize, id: u32)
    requires { topic < length first.now.items }
    ensures { first.new.items ≡ taken.with_sender topic id first.old.items }
{
    if first[topic] == 0 {
        first[topic] = id;
    }
}

fn topics_in(alloc: Global, lines: &[ClientLine]) -> Result<Vec<u32>, OutOfMemory>
    ensures { IfOk result (λ topics. topics.items ≡ tree.topics_in lines.now) }
{
    let mut topics = Vec::new(alloc);
    for line in lines {
        if let ClientLine::Sub { topic, .. } = line {
            topics.push(*topic)?;
        }
    }
    Ok(topics)
}

fn take_watches(
    alloc: Global,
    senders: &Senders,
    lines: &mut VecDeque<Line>,
) -> Result<Vec<WatchRow>, OutOfMemory>
    requires { standing.AreWatches lines.now.items }
    ensures lines { IfOk result (λ watches. lines.old.items ≡ map tree.watch_line watches.items) }
    ensures senders { IfOk result (λ watches. AllByRecursion (λ (row : WatchRow). row.sender ≡ taken.sender_in senders.now.first.items (map (λ v. v.items) senders.now.topics.items) row.sub) watches.items) }
{
    let mut watches = Vec::new(alloc);
    while let Some(line) = lines.pop_front() {
        match line {
            Line::Watch {
                sub,
                timer,
                retries,
            } => {
                let sub = sub_of(sub);
                watches.push(WatchRow {
                    sub,
                    timer: timer_of(timer),
                    retries,
                    sender: senders.sender(sub),
                })?;
            }
            _ => unreachable!(),
        }
    }
    Ok(watches)
}

// A step of a client, or a line that is none.
#[derive(Drop)]
enum Taken {
    Step(ClientLine),
    Other(Line),
}

fn take_steps(alloc: Global, lines: &mut VecDeque<Line>) -> Result<Vec<ClientLine>, OutOfMemory>
    requires { standing.Stand Place.Client [] lines.now.items }
    ensures lines { IfOk result (λ steps. lines.old.items ≡ flat_map tree.step_lines steps.items ++ lines.new.items) }
    ensures rest { OnOk result (standing.AreClients lines.new.items) }
{
    let mut steps = Vec::new(alloc);
    while let Some(line) = lines.pop_front() {
        match take_step(alloc, line, lines)? {
            Taken::Step(step) => steps.push(step)?,
            Taken::Other(other) => {
                lines.push_front(other)?;
                return Ok(steps);
            }
        }
    }
    Ok(steps)
}

#[tactic(auto, using(crate::proofs::Behind::groups_stand, crate::proofs::Behind::watches_stand))]
fn take_step(alloc: Global, line: Line, lines: &mut VecDeque<Line>) -> Result<Taken, OutOfMemory>
    requires { standing.Stand Place.Client [] (line ∷ lines.now.items) }
    ensures lines { IfOk result (λ t. line ∷ lines.old.items ≡ taken.taken_lines t ++ lines.new.items) }
    ensures rest { IfOk result (λ t. standing.StandBehind t lines.new.items) }
{
    match line {
        Line::Sub {
            topic,
            kind,
            queue,
            cache,
            recaps,
        } => {
            let faults = take_faults(alloc, lines)?;
            let plan = take_plan(alloc, lines)?;
            Ok(Taken::Step(ClientLine::Sub {
                topic: topic as u32,
                kind,
                queue: queue_of(queue),
                cache,
                recaps,
                faults,
                plan,
            }))
        }
        Line::Timer { queue, interval } => {
            let plan = take_plan(alloc, lines)?;
            Ok(Taken::Step(ClientLine::Timer {
                queue: queue_of(queue),
                interval,
                plan,
            }))
        }
        Line::Inbox { queue } => {
            let faults = take_faults(alloc, lines)?;
            let plan = take_plan(alloc, lines)?;
            Ok(Taken::Step(ClientLine::Inbox {
                queue: queue_of(queue),
                faults,
                plan,
            }))
        }
        Line::Order(order) => Ok(Taken::Step(ClientLine::Order(order_of(order)))),
        Line::Now(moment) => Ok(Taken::Step(ClientLine::Now(moment))),
        Line::NowClock => Ok(Taken::Step(ClientLine::NowClock)),
        Line::Pause(rounds) => Ok(Taken::Step(ClientLine::Pause(rounds))),
        Line::Client => Ok(Taken::Other(Line::Client)),
        Line::Group(ids) => Ok(Taken::Other(Line::Group(ids))),
        Line::Watch {
            sub,
            timer,
            retries,
        } => Ok(Taken::Other(Line::Watch {
            sub,
            timer,
            retries,
        })),
        _ => unreachable!(),
    }
}

fn take_faults(alloc: Global, lines: &mut VecDeque<Line>) -> Result<Faults, OutOfMemory>
    requires { standing.Stand Place.Linked [] lines.now.items }
    ensures lines { IfOk result (λ faults. lines.old.items ≡ map tree.fault_line faults ++ lines.new.items) }
    ensures rest { OnOk result (standing.Stand Place.Planned [] lines.new.items) }
{
    let mut rows = Vec::new(alloc);
    while let Some(line) = lines.pop_front() {
        match line {
            Line::Fault(row) => rows.push(row)?,
            other => {
                lines.push_front(other)?;
                break;
            }
        }
    }
    faults_of(alloc, rows)
}

fn faults_of(alloc: Global, rows: Vec<FaultRow>) -> Result<Faults, OutOfMemory>
    requires { first_fault rows.items ≡ None }
    ensures { IfOk result (λ faults. faults ≡ rows.items) }
{
    match Faults::new(alloc, rows) {
        Ok(faults) => Ok(faults),
        Err(FaultsFault::OutOfMemory) => Err(OutOfMemory),
        Err(_) => unreachable!(),
    }
}

fn take_plan(alloc: Global, lines: &mut VecDeque<Line>) -> Result<Plan, OutOfMemory>
    requires { standing.Stand Place.Planned [] lines.now.items }
    ensures lines { IfOk result (λ plan. lines.old.items ≡ map tree.plan_line plan ++ lines.new.items) }
    ensures rest { OnOk result (standing.Stand Place.Client [] lines.new.items) }
{
    let mut rows = Vec::new(alloc);
    while let Some(line) = lines.pop_front() {
        match line {
            Line::At { call, order } => rows.push(PlanRow {
                call,
                order: order_of(order),
            })?,
            other => {
                lines.push_front(other)?;
                break;
            }
        }
    }
    Ok(Plan::new(rows))
}

fn queue_of(queue: QueueName) -> QueueWord
    requires { standing.IsSmallQueue queue }
    ensures { tree.queue_name result ≡ queue }
{
    match queue {
        QueueName::Number(queue) => QueueWord::Number(queue as u32),
        QueueName::Any => QueueWord::Any,
    }
}

fn sub_of(id: IdWord) -> SubId
    requires { standing.IsSmallId id }
    ensures { sub_word result ≡ id }
{
    SubId {
        client: id.client as u32,
        number: id.number as u32,
    }
}

fn timer_of(id: IdWord) -> TimerId
    requires { standing.IsSmallId id }
    ensures { timer_word result ≡ id }
{
    TimerId {
        client: id.client as u32,
        number: id.number as u32,
    }
}

fn inbox_of(id: IdWord) -> InboxId
    requires { standing.IsSmallId id }
    ensures { inbox_word result ≡ id }
{
    InboxId {
        client: id.client as u32,
        number: id.number as u32,
    }
}

fn order_of(order: OrderWord) -> Order
    requires { standing.IsSmallOrder order }
    ensures { word_of result ≡ order }
{
    match order {
        OrderWord::Stop(id) => Order::Stop(sub_of(id)),
        OrderWord::Disarm(id) => Order::Disarm(timer_of(id)),
        OrderWord::Close(id) => Order::Close(inbox_of(id)),
        OrderWord::Ask { inbox, topic, fids } => Order::Ask {
            inbox: inbox_of(inbox),
            topic: topic as u32,
            fids,
        },
    }
}
