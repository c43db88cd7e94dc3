ghost use Rattle.std.specs.Prelude.{◌≡◌, ◌<◌, ◌≤◌, ◌+◌, ◌^◌, map, IfOk, OnOk};
ghost use Rattle.std.specs.Option.{option_map};
ghost use Rattle.mama_log_line.specs.Names as names;

use mama_event::{InboxId, InboxTerms, Make, ObjectId, Shape, SubId, SubTerms, TimerId, Topics};
use mama_memory::{Duplicate, OutOfMemory};
use mama_script::{ClientLine, ClientLines, QueueWord, Script};
use mama_words::Nums;
use std::alloc::Global;
use std::marker::Model;

/// What a client asks of a timer: the queue that gets its callbacks, and the milliseconds between its ticks.
#[derive(Clone, Copy, Debug, PartialEq, Eq)]
pub struct TimerTerms {
    pub queue: u32,
    pub interval: u32,
}

/// The terms of a client's subscriptions, timers and inboxes, each kind by number.
#[derive(Drop)]
pub struct ClientNames {
    subs: Vec<SubTerms>,
    timers: Vec<TimerTerms>,
    inboxes: Vec<InboxTerms>,
}

impl Model for ClientNames {
    ghost use Rattle.mama_log_line.specs.Names.{ClientData};

    ghost Value = { ClientData };

    ghost view = { λ c. record { subs = c.subs.items; timers = c.timers.items; inboxes = c.inboxes.items } };
}

/// The queue that a word names, where so many words before it took the next queue in turn.
#[tactic(auto, using(crate::proofs::Turns::turn_is_small))]
fn queue_at(queues: u32, turns: u64, word: QueueWord) -> u32
    requires { 1 ≤ queues }
    ensures { result ≡ names.queue_at queues turns word }
{
    match word {
        QueueWord::Number(queue) => queue,
        QueueWord::Any => (turns % u64::from(queues)) as u32,
    }
}

fn turns_with(turns: u64, word: QueueWord) -> u64
    requires { turns + 1 < 2 ^ 64 }
    ensures { result ≡ names.turns_with turns word }
{
    match word {
        QueueWord::Number(_) => turns,
        QueueWord::Any => turns + 1,
    }
}

/// How many words took the next queue in turn, with a line more.
fn turns_after(turns: u64, line: &ClientLine) -> u64
    requires { turns + 1 < 2 ^ 64 }
    ensures { result ≡ names.turns_after turns line.now }
{
    match line {
        ClientLine::Sub { queue, .. } => turns_with(turns, *queue),
        ClientLine::Timer { queue, .. } => turns_with(turns, *queue),
        ClientLine::Inbox { queue, .. } => turns_with(turns, *queue),
        ClientLine::Order(_) => turns,
        ClientLine::Now(_) => turns,
        ClientLine::NowClock => turns,
        ClientLine::Pause(_) => turns,
    }
}

impl ClientNames {
    ghost use Rattle.std.specs.Prelude.{slice_get};

    fn none(alloc: Global) -> ClientNames
        ensures { result ≡ names.no_data }
    {
        ClientNames {
            subs: Vec::new(alloc),
            timers: Vec::new(alloc),
            inboxes: Vec::new(alloc),
        }
    }

    /// Adds what a line declares.
    fn add(&mut self, queues: u32, turns: u64, line: &ClientLine) -> Result<(), OutOfMemory>
        requires { 1 ≤ queues }
        ensures { OnOk result (self.new ≡ names.data_with queues turns self.old line.now) }
    {
        match line {
            ClientLine::Sub {
                topic,
                kind,
                queue,
                cache,
                recaps,
                faults,
                plan: _,
            } => {
                let queue = queue_at(queues, turns, *queue);
                let faults = faults.try_clone()?;
                self.subs.push(SubTerms {
                    topic: *topic,
                    kind: *kind,
                    queue,
                    cache: *cache,
                    recaps: *recaps,
                    faults,
                })?;
                Ok(())
            }
            ClientLine::Timer {
                queue,
                interval,
                plan: _,
            } => {
                let queue = queue_at(queues, turns, *queue);
                self.timers.push(TimerTerms {
                    queue,
                    interval: *interval,
                })?;
                Ok(())
            }
            ClientLine::Inbox {
                queue,
                faults,
                plan: _,
            } => {
                let queue = queue_at(queues, turns, *queue);
                let faults = faults.try_clone()?;
                self.inboxes.push(InboxTerms { queue, faults })?;
                Ok(())
            }
            ClientLine::Order(_) => Ok(()),
            ClientLine::Now(_) => Ok(()),
            ClientLine::NowClock => Ok(()),
            ClientLine::Pause(_) => Ok(()),
        }
    }

    fn sub(&self, number: u32) -> Option<&SubTerms>
        ensures { option_map (λ t. t.now) result ≡ slice_get self.now.subs number }
    {
        self.subs.get(number as usize)
    }

    fn timer(&self, number: u32) -> Option<TimerTerms>
        ensures { result ≡ slice_get self.now.timers number }
    {
        self.timers.get(number as usize).copied()
    }

    fn inbox(&self, number: u32) -> Option<&InboxTerms>
        ensures { option_map (λ t. t.now) result ≡ slice_get self.now.inboxes number }
    {
        self.inboxes.get(number as usize)
    }
}

/// What the lines of a client declare.
#[tactic(auto, using(crate::proofs::Turns::few_after))]
fn client_names(
    alloc: Global,
    queues: u32,
    lines: &[ClientLine],
) -> Result<ClientNames, OutOfMemory>
    requires { 1 ≤ queues }
    ensures { IfOk result (λ c. c ≡ names.data_of queues lines.now) }
{
    let mut found = ClientNames::none(alloc);
    let mut turns = 0u64;
    for line in lines {
        found.add(queues, turns, line)?;
        turns = turns_after(turns, line);
    }
    Ok(found)
}

fn all_names(
    alloc: Global,
    queues: u32,
    clients: &[ClientLines],
) -> Result<Vec<ClientNames>, OutOfMemory>
    requires { 1 ≤ queues }
    ensures { IfOk result (λ all. all.items ≡ map (names.data_of queues) clients.now) }
{
    let mut all = Vec::new(alloc);
    for lines in clients {
        let client = client_names(alloc, queues, lines.as_slice())?;
        all.push(client)?;
    }
    Ok(all)
}

fn same_shape(alloc: Global, shape: &Shape) -> Result<Shape, OutOfMemory>
    ensures { IfOk result (λ same. same ≡ shape.now) }
{
    let mut topics = Vec::new(alloc);
    topics.extend_from_slice(shape.publisher_topics.as_slice())?;
    Ok(Shape {
        clients: shape.clients,
        publisher_topics: Topics::new(topics),
        bounds: shape.bounds,
        strategy: shape.strategy,
    })
}

/// What a log of a script may name: the counts of the script, whether its text knows lists of numbers, and the terms of
/// each of its objects.
#[derive(Drop)]
pub struct Names {
    nums: Nums,
    shape: Shape,
    clients: Vec<ClientNames>,
}

impl Model for Names {
    ghost use Rattle.mama_log_line.specs.Names.{NamesData};

    ghost Value = { NamesData };

    ghost view = { λ n. record { nums = n.nums; shape = n.shape; clients = n.clients.items } };
}

impl Names {
    /// The names of a script, in time and memory by the length of its lines.
    pub fn new(alloc: Global, script: &Script) -> Result<Names, OutOfMemory>
        ensures { IfOk result (λ n. n ≡ names.names_of script.now) }
    {
        let bounds = script.shape().bounds;
        let clients = all_names(alloc, bounds.queues, script.clients())?;
        let shape = same_shape(alloc, script.shape())?;
        Ok(Names {
            nums: Nums::of(script.version()),
            shape,
            clients,
        })
    }

    /// Whether the script's text knows lists of numbers. Its logs do where it does.
    pub fn nums(&self) -> Nums
        ensures { result ≡ self.now.nums }
    {
        self.nums
    }

    /// How many actors of each kind there are.
    pub fn shape(&self) -> &Shape
        ensures { result.now ≡ self.now.shape }
    {
        &self.shape
    }

    /// The terms of the subscription with an id, if the script declares it.
    pub fn terms(&self, id: SubId) -> Option<&SubTerms>
        ensures { option_map (λ t. t.now) result ≡ names.terms_of self.now id }
    {
        let client = self.clients.get(id.client as usize)?;
        client.sub(id.number)
    }

    /// The terms of the timer with an id, if the script declares it.
    pub fn timer_terms(&self, id: TimerId) -> Option<TimerTerms>
        ensures { result ≡ names.timer_terms_of self.now id }
    {
        let client = self.clients.get(id.client as usize)?;
        client.timer(id.number)
    }

    /// The terms of the inbox with an id, if the script declares it.
    pub fn inbox_terms(&self, id: InboxId) -> Option<&InboxTerms>
        ensures { option_map (λ t. t.now) result ≡ names.inbox_terms_of self.now id }
    {
        let client = self.clients.get(id.client as usize)?;
        client.inbox(id.number)
    }

    /// What the object with an id is made as, if the script declares it.
    pub fn make(&self, id: ObjectId) -> Option<Make>
        ensures { result ≡ names.make_of self.now id }
    {
        match id {
            ObjectId::Sub(sub) => self.sub_make(sub),
            ObjectId::Timer(timer) => self.timer_make(timer),
            ObjectId::Inbox(inbox) => self.inbox_make(inbox),
        }
    }

    fn sub_make(&self, id: SubId) -> Option<Make>
        ensures { result ≡ option_map (names.made_by self.now.shape.strategy) (names.terms_of self.now id) }
    {
        let terms = self.terms(id)?;
        Some(Make::Sub {
            kind: terms.kind,
            cache: terms.cache,
            strategy: self.shape.strategy,
        })
    }

    fn timer_make(&self, id: TimerId) -> Option<Make>
        ensures { result ≡ option_map (λ t. Make.Timer) (names.timer_terms_of self.now id) }
    {
        let _terms = self.timer_terms(id)?;
        Some(Make::Timer)
    }

    fn inbox_make(&self, id: InboxId) -> Option<Make>
        ensures { result ≡ option_map (λ t. Make.Inbox) (names.inbox_terms_of self.now id) }
    {
        let _terms = self.inbox_terms(id)?;
        Some(Make::Inbox)
    }
}
