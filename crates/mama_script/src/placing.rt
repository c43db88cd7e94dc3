//! The second look: whether the groups and watches of lines may be.
ghost use Rattle.std.specs.Prelude.{◌≡◌, ◌<◌, ◌+◌, ◌^◌, ◌∷◌, ◌++◌, [], length, IfOk, IfNone, OnOk};
ghost use Rattle.mama_script.specs.Placing as placing;
ghost use Rattle.mama_script.specs.Cast.{cast_in, placed_in, AreFewTurns};

use crate::line::{IdWords, Line, QueueName};
use indexmap::IndexSet;
use mama_event::SubKind;
use mama_memory::OutOfMemory;
use mama_words::{IdWord, OrderWord};
use std::alloc::Global;
use std::marker::Model;

/// What the lines of one client make: the kind and the queue of each subscription, the queue of each timer, and how many
/// queues were taken in turn.
#[derive(Drop)]
pub struct Roster {
    subs: Vec<(SubKind, u64)>,
    timers: Vec<u64>,
    turns: u64,
}

impl Model for Roster {
    ghost use Rattle.mama_script.specs.Placing.{Roster as RosterData};

    ghost Value = { RosterData };

    ghost view = { λ r. record { subs = r.subs.items; timers = r.timers.items; turns = r.turns } };
}

/// What the lines make: how many queues there are, the objects of each client, and the subscriptions that a plan stops.
#[derive(Drop)]
pub struct Cast {
    queues: u64,
    clients: Vec<Roster>,
    stops: IndexSet<IdWord>,
}

/// The members of all groups, and the subscriptions and timers of all watches so far.
#[derive(Drop)]
pub struct Placed {
    grouped: IndexSet<IdWord>,
    subs: IndexSet<IdWord>,
    timers: IndexSet<IdWord>,
}

/// The number of the first line whose group or watch may not be, and its fault, if there is one. The first of the lines has
/// the number 2.
pub fn first_misplaced(alloc: Global, lines: &[Line]) -> Result<Option<(u64, u8)>, OutOfMemory>
    requires { length lines.now + 2 < 2 ^ 64 }
    ensures { IfOk result (λ found. found ≡ placing.misplaced_from (placing.cast_of lines.now) placing.none_placed 2 lines.now) }
{
    let cast = cast_of(alloc, lines)?;
    let mut placed = Placed::none(alloc);
    for (i, line) in lines.iter().enumerate() {
        if let Some(fault) = place(&cast, &mut placed, line)? {
            return Ok(Some((i as u64 + 2, fault)));
        }
    }
    Ok(None)
}

fn cast_of(alloc: Global, lines: &[Line]) -> Result<Cast, OutOfMemory>
    requires { length lines.now + 2 < 2 ^ 64 }
    ensures { IfOk result (λ cast. cast_in cast ≡ placing.cast_of lines.now) }
{
    let mut cast = Cast {
        queues: 0,
        clients: Vec::new(alloc),
        stops: IndexSet::new(alloc),
    };
    for line in lines {
        cast.add(alloc, line)?;
    }
    Ok(cast)
}

/// The queue that a word names: its number, or the next in turn.
fn queue_named(queues: u64, turns: u64, word: QueueName) -> u64
    ensures { result ≡ placing.queue_named queues turns word }
{
    match word {
        QueueName::Number(queue) => queue,
        QueueName::Any => next_in_turn(queues, turns),
    }
}

fn next_in_turn(queues: u64, turns: u64) -> u64
    ensures { result ≡ placing.queue_named queues turns QueueName.Any }
{
    if queues == 0 { 0 } else { turns % queues }
}

fn turns_with(turns: u64, word: QueueName) -> u64
    requires { turns + 1 < 2 ^ 64 }
    ensures { result ≡ placing.turns_with turns word }
{
    match word {
        QueueName::Number(_) => turns,
        QueueName::Any => turns + 1,
    }
}

impl Roster {
    ghost use Rattle.std.specs.Prelude.{slice_get};

    fn none(alloc: Global) -> Roster
        ensures { result ≡ placing.no_roster }
    {
        Roster {
            subs: Vec::new(alloc),
            timers: Vec::new(alloc),
            turns: 0,
        }
    }

    fn add_sub(&mut self, queues: u64, kind: SubKind, word: QueueName) -> Result<(), OutOfMemory>
        requires { self.now.turns + 1 < 2 ^ 64 }
        ensures { OnOk result (self.new ≡ placing.with_sub queues kind word self.old) }
    {
        self.subs
            .push((kind, queue_named(queues, self.turns, word)))?;
        self.turns = turns_with(self.turns, word);
        Ok(())
    }

    fn add_timer(&mut self, queues: u64, word: QueueName) -> Result<(), OutOfMemory>
        requires { self.now.turns + 1 < 2 ^ 64 }
        ensures { OnOk result (self.new ≡ placing.with_timer queues word self.old) }
    {
        self.timers.push(queue_named(queues, self.turns, word))?;
        self.turns = turns_with(self.turns, word);
        Ok(())
    }

    fn add_inbox(&mut self, word: QueueName)
        requires { self.now.turns + 1 < 2 ^ 64 }
        ensures { self.new ≡ placing.with_inbox word self.old }
    {
        self.turns = turns_with(self.turns, word);
    }

    fn sub(&self, number: u64) -> Option<(SubKind, u64)>
        ensures { result ≡ slice_get self.now.subs number }
    {
        if number < self.subs.len() as u64 {
            Some(self.subs[number as usize])
        } else {
            None
        }
    }

    fn timer(&self, number: u64) -> Option<u64>
        ensures { result ≡ slice_get self.now.timers number }
    {
        if number < self.timers.len() as u64 {
            Some(self.timers[number as usize])
        } else {
            None
        }
    }
}

impl Cast {
    ghost use Rattle.std.specs.Prelude.{slice_get};
    ghost use Rattle.std.specs.Option.{option_map};

    /// What the lines make, with one more.
    fn add(&mut self, alloc: Global, line: &Line) -> Result<(), OutOfMemory>
        requires { AreFewTurns self.now }
        ensures { OnOk result (cast_in self.new ≡ placing.cast_with (cast_in self.old) line.now) }
    {
        match line {
            Line::Queues(queues) => {
                self.queues = *queues;
                Ok(())
            }
            Line::Client => Ok(self.clients.push(Roster::none(alloc))?),
            Line::Sub {
                topic: _,
                kind,
                queue,
                cache: _,
                recaps: _,
            } => self.add_sub(*kind, *queue),
            Line::Timer { queue, interval: _ } => self.add_timer(*queue),
            Line::Inbox { queue } => self.add_inbox(*queue),
            Line::At { call: _, order } => self.add_stop(order),
            _ => Ok(()),
        }
    }

    #[tactic(auto, using(crate::proofs::Rosters::at_last_push, crate::proofs::Rosters::few_popped))]
    fn add_sub(&mut self, kind: SubKind, word: QueueName) -> Result<(), OutOfMemory>
        requires { AreFewTurns self.now }
        ensures { OnOk result (cast_in self.new ≡ record (cast_in self.old) { clients = placing.at_last (placing.with_sub self.old.queues kind word) self.old.clients.items }) }
    {
        if let Some(mut client) = self.clients.pop() {
            client.add_sub(self.queues, kind, word)?;
            self.clients.push(client)?;
        }
        Ok(())
    }

    #[tactic(auto, using(crate::proofs::Rosters::at_last_push, crate::proofs::Rosters::few_popped))]
    fn add_timer(&mut self, word: QueueName) -> Result<(), OutOfMemory>
        requires { AreFewTurns self.now }
        ensures { OnOk result (cast_in self.new ≡ record (cast_in self.old) { clients = placing.at_last (placing.with_timer self.old.queues word) self.old.clients.items }) }
    {
        if let Some(mut client) = self.clients.pop() {
            client.add_timer(self.queues, word)?;
            self.clients.push(client)?;
        }
        Ok(())
    }

    #[tactic(auto, using(crate::proofs::Rosters::at_last_push, crate::proofs::Rosters::few_popped))]
    fn add_inbox(&mut self, word: QueueName) -> Result<(), OutOfMemory>
        requires { AreFewTurns self.now }
        ensures { OnOk result (cast_in self.new ≡ record (cast_in self.old) { clients = placing.at_last (placing.with_inbox word) self.old.clients.items }) }
    {
        if let Some(mut client) = self.clients.pop() {
            client.add_inbox(word);
            self.clients.push(client)?;
        }
        Ok(())
    }

    fn add_stop(&mut self, order: &OrderWord) -> Result<(), OutOfMemory>
        ensures { OnOk result (cast_in self.new ≡ placing.cast_with (cast_in self.old) (Line.At 1 order.now)) }
    {
        match order {
            OrderWord::Stop(id) => add_id(&mut self.stops, *id),
            _ => Ok(()),
        }
    }

    /// The kind and the queue of a subscription.
    fn sub(&self, id: IdWord) -> Option<(SubKind, u64)>
        ensures { result ≡ placing.sub_in (cast_in self.now) id }
    {
        if id.client < self.clients.len() as u64 {
            self.clients[id.client as usize].sub(id.number)
        } else {
            None
        }
    }

    /// The queue of a timer.
    fn timer(&self, id: IdWord) -> Option<u64>
        ensures { result ≡ placing.timer_in (cast_in self.now) id }
    {
        if id.client < self.clients.len() as u64 {
            self.clients[id.client as usize].timer(id.number)
        } else {
            None
        }
    }

    /// The queue of a group's first member.
    fn group_queue(&self, ids: &[IdWord]) -> u64
        ensures { result ≡ placing.group_queue (cast_in self.now) ids.now }
    {
        match ids {
            [] => 0,
            [first, ..] => queue_or_none(self.sub(*first)),
        }
    }

    /// Whether a subscription may be a member of a group of this queue, where these are grouped already.
    fn may_join(&self, queue: u64, grouped: &IndexSet<IdWord>, id: IdWord) -> bool
        ensures { result ≡ placing.may_join (cast_in self.now) queue grouped.now.keys id }
    {
        is_market_on(queue, self.sub(id)) && !has_id(grouped, id) && !has_id(&self.stops, id)
    }

    /// Whether a subscription may be watched by a timer.
    fn may_watch(&self, placed: &Placed, sub: IdWord, timer: IdWord) -> bool
        ensures { result ≡ placing.may_watch (cast_in self.now) (placed_in placed.now) sub timer }
    {
        are_beside(self.sub(sub), self.timer(timer))
            && !has_id(&placed.subs, sub)
            && !has_id(&placed.timers, timer)
    }
}

fn has_id(ids: &IndexSet<IdWord>, id: IdWord) -> bool
    ensures { result ≡ placing.has_id id ids.now.keys }
{
    ids.contains(&id)
}

/// Adds an id, if it is not there.
fn add_id(ids: &mut IndexSet<IdWord>, id: IdWord) -> Result<(), OutOfMemory>
    ensures { OnOk result (ids.new.keys ≡ placing.with_id id ids.old.keys) }
{
    ids.insert(id)?;
    Ok(())
}

fn queue_or_none(sub: Option<(SubKind, u64)>) -> u64
    ensures { result ≡ placing.queue_or_none sub }
{
    match sub {
        Some((_, queue)) => queue,
        None => 0,
    }
}

fn is_market_on(queue: u64, sub: Option<(SubKind, u64)>) -> bool
    ensures { result ≡ placing.is_market_on queue sub }
{
    match sub {
        Some((kind, on)) => is_market(kind) && on == queue,
        None => false,
    }
}

fn are_beside(sub: Option<(SubKind, u64)>, timer: Option<u64>) -> bool
    ensures { result ≡ placing.are_beside sub timer }
{
    match (sub, timer) {
        (Some((kind, on)), Some(queue)) => !is_basic(kind) && on == queue,
        _ => false,
    }
}

fn is_market(kind: SubKind) -> bool
    ensures { result ≡ placing.is_market kind }
{
    match kind {
        SubKind::Market => true,
        SubKind::Snapshot | SubKind::Basic => false,
    }
}

fn is_basic(kind: SubKind) -> bool
    ensures { result ≡ placing.is_basic kind }
{
    match kind {
        SubKind::Basic => true,
        SubKind::Market | SubKind::Snapshot => false,
    }
}

impl Placed {
    fn none(alloc: Global) -> Placed
        ensures { placed_in result ≡ placing.none_placed }
    {
        Placed {
            grouped: IndexSet::new(alloc),
            subs: IndexSet::new(alloc),
            timers: IndexSet::new(alloc),
        }
    }
}

/// Places the group or the watch of a line, if it has one, or gives its fault.
fn place(cast: &Cast, placed: &mut Placed, line: &Line) -> Result<Option<u8>, OutOfMemory>
    ensures fault { IfOk result (λ found. found ≡ placing.misplaced (cast_in cast.now) (placed_in placed.old) line.now) }
    ensures placed { IfOk result (λ found. IfNone found (placed_in placed.new ≡ placing.placed_with (placed_in placed.old) line.now)) }
{
    match line {
        Line::Group(ids) => place_group(cast, placed, ids),
        Line::Watch {
            sub,
            timer,
            retries: _,
        } => place_watch(cast, placed, *sub, *timer),
        _ => Ok(None),
    }
}

fn place_group(cast: &Cast, placed: &mut Placed, ids: &IdWords) -> Result<Option<u8>, OutOfMemory>
    ensures fault { IfOk result (λ found. found ≡ placing.misplaced (cast_in cast.now) (placed_in placed.old) (Line.Group ids.now)) }
    ensures placed { IfOk result (λ found. IfNone found (placed_in placed.new ≡ placing.placed_with (placed_in placed.old) (Line.Group ids.now))) }
{
    let queue = cast.group_queue(ids.as_slice());
    for id in ids.as_slice() {
        if !cast.may_join(queue, &placed.grouped, *id) {
            return Ok(Some(13));
        }
        add_id(&mut placed.grouped, *id)?;
    }
    Ok(None)
}

fn place_watch(
    cast: &Cast,
    placed: &mut Placed,
    sub: IdWord,
    timer: IdWord,
) -> Result<Option<u8>, OutOfMemory>
    ensures fault { IfOk result (λ found. found ≡ placing.fault_unless (placing.may_watch (cast_in cast.now) (placed_in placed.old) sub timer) 14) }
    ensures placed { IfOk result (λ found. IfNone found (placed_in placed.new ≡ record (placed_in placed.old) { subs = placed.old.subs.keys ++ sub ∷ []; timers = placed.old.timers.keys ++ timer ∷ [] })) }
{
    if !cast.may_watch(placed, sub, timer) {
        return Ok(Some(14));
    }
    add_id(&mut placed.subs, sub)?;
    add_id(&mut placed.timers, timer)?;
    Ok(None)
}
