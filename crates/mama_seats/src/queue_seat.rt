ghost use Rattle.std.specs.Prelude.{◌≡◌, ◌++◌, ◌∷◌, [], true, OnOk, OnErr, IfOk, IfErr, map, length};
ghost use Rattle.std.specs.Option.{option_map};
ghost use Rattle.std.specs.Arc.{arc_value};
ghost use Rattle.mama_event.specs.ToQueue.{note_of};
ghost use Rattle.mama_rules_queue.specs.Queue.{deeds, calls_of, queue_puts_at};
ghost use Rattle.mama_event.specs.declared.ids.ObjectId.{ObjectId};
ghost use Rattle.mama_dispatch.specs.Hearing.{ArePlanned};
ghost use Rattle.mama_dispatch.specs.Answering.{AnswersTo};
ghost use Rattle.mama_dispatch.specs.Seats.{Fits};
ghost use Rattle.mama_dispatch.specs.Callbacks.{calls_to};
ghost use Rattle.mama_dispatch.specs.Journals.{may_come};
ghost use Rattle.mama_rules_rounds.specs.World.{is_empty};
ghost use Rattle.mama_rules_rounds.specs.Told.{noted};
ghost use Rattle.mama_plans.specs.Put.{own_tag, notes_of};
ghost use Rattle.mama_seats.specs.Server.{first_may_come, served, served_puts, all_told};
ghost use Rattle.mama_seats.specs.Heard.{group_lists, watch_lists, heard_in, noted_in, IsGroupList};
ghost use Rattle.mama_seats.specs.Listening.{data_of};
ghost use Rattle.mama_seats.specs.Behind.{called_in};
ghost use Rattle.mama_timeout.specs.Table.{AreApart, event_puts};
ghost use Rattle.mama_plans.specs.Orders.{orders_in};
ghost use Rattle.mama_plans.specs.Image.{found_image, image_of};

use crate::listening::{with_plan, without_plan};
use crate::served_turn::{ServedTurn, calls_in, sub_for};
use mama_dispatch::{Callbacks, Serving, Turn};
use mama_event::{
    GroupNote, GroupRow, ImageHead, ObjectId, QueueNote, SubId, ToBridge, ToQueue, ToService,
    WatchNote, WatchRow,
};
use mama_group::{GroupMaker, GroupTable, SilentGroup, SilentGroups, groups_hear_turn_by_turn};
use mama_listener::PlanListener;
use mama_memory::{OutOfMemory, Outbox};
use mama_msg::Msg;
use mama_plans::Plans;
use mama_timeout::{WatchTable, tick_of, turns_are_watched};
use std::alloc::Global;
use std::collections::VecDeque;
use std::marker::Model;
use std::sync::Arc;

/// A queue with its journal, its groups and its watches, and what waits on its lane. It shares the plans of its script's objects.
#[derive(Drop)]
pub struct QueueSeat {
    alloc: Global,
    plans: Arc<Plans>,
    serving: Serving<PlanListener>,
    lane: VecDeque<(u32, ToQueue<ObjectId>)>,
    groups: GroupTable<SilentGroup>,
    watches: WatchTable,
    // A subscription with so many callbacks of the last entry, which its group was not told yet.
    untold: Option<(SubId, usize)>,
}

impl Model for QueueSeat {
    ghost use Rattle.std.specs.Prelude.{map};
    ghost use Rattle.std.specs.Arc.{arc_value};
    ghost use Rattle.mama_seats.specs.Server.{Server};

    ghost Value = { Server };

    ghost use Rattle.mama_dispatch.specs.Hearing.{ArePlanned};
    ghost use Rattle.mama_plans.specs.Orders.{orders_in};
    ghost use Rattle.mama_seats.specs.Lane.{lane_notes};
    ghost use Rattle.mama_seats.specs.Heard.{group_in, watch_in, heard_of, AreKept};

    ghost view = { λ s. record { objects = arc_value s.plans; groups = map group_in s.groups; watches = map watch_in s.watches.watches; journal = s.serving.journal; heard = heard_of s.untold s.serving.journal; lane = lane_notes s.lane.items } };

    ghost invariant = { λ s. ArePlanned (orders_in (arc_value s.plans)) s.serving.seats × AreKept (orders_in (arc_value s.plans)) s.serving.journal s.untold s.groups s.watches.watches };
}

impl QueueSeat {
    /// A queue with these groups and watches, each with its number, that has done nothing yet. The error is want of memory.
    pub fn new(
        alloc: Global,
        plans: Arc<Plans>,
        groups: Vec<(u32, GroupRow)>,
        watches: Vec<(u32, WatchRow)>,
    ) -> Result<QueueSeat, OutOfMemory>
        requires groups { IsGroupList groups.items }
        requires watches { AreApart watches.items }
        ensures { IfOk result (λ seat. seat ≡ record { objects = arc_value plans; groups = groups.items; watches = watches.items; journal = []; heard = []; lane = [] }) }
    {
        let listeners = listeners_of(alloc, &groups)?;
        Ok(QueueSeat {
            alloc,
            plans,
            serving: Serving::new(alloc, 0),
            lane: VecDeque::new(alloc),
            groups: GroupTable::new(alloc, groups, listeners)?,
            watches: WatchTable::new(alloc, watches)?,
            untold: None,
        })
    }

    /// Whether nothing waits on its lane.
    pub fn is_quiet(&self) -> bool
        ensures { result ≡ is_empty self.now.lane }
    {
        self.lane.is_empty()
    }

    /// Puts an event of a port at the end of the lane. Where no memory is found the event is given back, and all is as
    /// before.
    pub fn put(&mut self, port: u32, event: ToQueue<ObjectId>) -> Result<(), ToQueue<ObjectId>>
        ensures lane { OnOk result (self.new ≡ record self.old { lane = self.old.lane ++ (port, note_of own_tag event) ∷ [] }) }
        ensures objects { self.new.objects ≡ self.old.objects }
        ensures back { IfErr result (λ given. given ≡ event) }
        ensures err { OnErr result (self.new ≡ self.old) }
    {
        match self.lane.push_back((port, event)) {
            Ok(()) => Ok(()),
            Err(failed) => Err(failed.value.1),
        }
    }

    /// Takes the first event of the lane, if there is one, makes its callbacks, and gives what they put and what a watch wishes for
    /// then. The groups are told by [`QueueSeat::tell`]. Where no memory is found all is as before.
    pub fn turn(&mut self) -> Result<ServedTurn, OutOfMemory>
        requires comes { first_may_come self.old.journal self.old.lane ≡ true }
        requires told { self.old.heard ≡ self.old.journal }
        ensures seat { OnOk result (all_told self.new ≡ all_told (served self.old self.old.lane)) }
        ensures puts { IfOk result (λ turn. notes_of turn.outs.items ++ event_puts own_tag turn.wish ≡ served_puts self.old self.old.lane) }
        ensures objects { self.new.objects ≡ self.old.objects }
        ensures err { OnErr result (self.new ≡ self.old) }
    {
        self.watches.prepare()?;
        let Some((port, event)) = self.lane.pop_front() else {
            return Ok(ServedTurn::nothing(self.alloc));
        };
        let sub = sub_for(&event);
        let tick = tick_of(&event);
        match serve(self.alloc, &self.plans, &mut self.serving, port, event) {
            Ok((outs, turn)) => {
                groups_hear_turn_by_turn();
                turns_are_watched::<PlanListener>();
                let wish = self.watches.behind(tick, &turn, &self.serving);
                self.untold = untold_behind(sub, turn);
                Ok(ServedTurn { outs, wish })
            }
            Err(event) => {
                // There is room for it since it was taken.
                self.lane.push_front_reserved((port, event));
                Err(OutOfMemory)
            }
        }
    }

    /// Tells the groups what the last turn called back. Where no memory is found all is as before.
    pub fn tell(&mut self) -> Result<(), OutOfMemory>
        ensures ok { OnOk result (self.new ≡ all_told self.old) }
        ensures err { OnErr result (self.new ≡ self.old) }
    {
        let Some((sub, calls)) = self.untold else {
            return Ok(());
        };
        groups_hear_turn_by_turn();
        self.serving.planned_orders_fit();
        let notes = self.serving.notes(ObjectId::Sub(sub));
        let first = notes.len().saturating_sub(calls);
        self.groups.after(sub, &notes[first..])?;
        self.untold = None;
        Ok(())
    }

    /// The last image of a subscription.
    pub fn image(&self, sub: SubId) -> Result<Option<(ImageHead, Msg)>, OutOfMemory>
        ensures { IfOk result (λ found. found_image sub found ≡ image_of self.now.objects self.now.journal sub) }
    {
        self.serving.planned_orders_fit();
        self.serving.image_of(sub)
    }

    /// The journal, the callbacks of its objects, to be moved out object by object, and what each group heard and each watch
    /// noted. It takes no memory.
    pub fn into_parts(self) -> QueueParts
        ensures journal { result.journal.items ≡ self.journal }
        ensures calls { (o : ObjectId) → calls_to o result.calls ≡ map noted (calls_of o (deeds (orders_in self.objects) self.journal)) }
        ensures groups { map heard_in result.groups.items ≡ group_lists (orders_in self.objects) self.heard self.groups }
        ensures watches { map noted_in result.watches.items ≡ watch_lists (orders_in self.objects) self.journal self.watches }
    {
        self.serving.planned_orders_fit();
        let QueueSeat {
            alloc: _,
            plans: _,
            serving,
            lane: _,
            groups,
            watches,
            untold: _,
        } = self;
        let (journal, calls) = serving.into_callbacks();
        QueueParts {
            journal,
            calls,
            groups: groups.into_parts(),
            watches: watches.into_notes(),
        }
    }
}

/// What a queue leaves.
#[derive(Drop)]
pub struct QueueParts {
    pub journal: Vec<(u32, QueueNote)>,
    pub calls: Callbacks,
    pub groups: Vec<(u32, Vec<GroupNote>, SilentGroup)>,
    pub watches: Vec<(u32, Vec<WatchNote>)>,
}

/// A silent listener for each group.
fn listeners_of(alloc: Global, groups: &[(u32, GroupRow)]) -> Result<Vec<SilentGroup>, OutOfMemory>
    ensures { IfOk result (λ listeners. length groups.now ≡ length listeners.items) }
{
    let mut maker = SilentGroups::new();
    let mut listeners = Vec::with_capacity(alloc, groups.len())?;
    for (number, _) in groups {
        listeners.push(maker.make_group(*number)?)?;
    }
    Ok(listeners)
}

/// A subscription, if there is one, with so many callbacks.
fn with_calls(sub: Option<SubId>, calls: u64) -> Option<(SubId, usize)>
    ensures { result ≡ option_map (λ s. (s, calls)) sub }
{
    match sub {
        Some(sub) => Some((sub, calls as usize)),
        None => None,
    }
}

/// What the groups are still to be told of a turn with an event for this subscription, if it was for one.
fn untold_behind<L: Drop>(sub: Option<SubId>, turn: Turn<L>) -> Option<(SubId, usize)>
    ensures { result ≡ option_map (λ s. (s, called_in turn)) sub }
{
    with_calls(sub, calls_in(&turn))
}

/// Serves an event, and gives what its callbacks put. Else the event is given back, with a listener's tag in place of
/// the listener, and all is as before.
fn serve(
    alloc: Global,
    plans: &Plans,
    serving: &mut Serving<PlanListener>,
    port: u32,
    event: ToQueue<ObjectId>,
) -> Result<(Outbox<ToService<ObjectId>>, Turn<PlanListener>), ToQueue<ObjectId>>
    requires planned { ArePlanned (orders_in plans.now) serving.old.seats }
    requires comes { may_come serving.old.journal (note_of own_tag event) ≡ true }
    ensures journal { OnOk result (serving.new.journal ≡ serving.old.journal ++ (port, note_of own_tag event) ∷ []) }
    ensures planned { ArePlanned (orders_in plans.now) serving.new.seats }
    ensures puts { IfOk result (λ served. notes_of served.0.items ≡ queue_puts_at (orders_in plans.now) serving.old.journal (port, note_of own_tag event)) }
    ensures fits { OnOk result (Fits (orders_in plans.now) serving.new.seats) }
    ensures answer { IfOk result (λ served. AnswersTo data_of (orders_in plans.now) serving.old.seats serving.old.journal (deeds (orders_in plans.now) serving.old.journal) (note_of own_tag event) served.1) }
    ensures err { OnErr result (serving.new ≡ serving.old) }
    ensures back { IfErr result (λ given. note_of own_tag given ≡ note_of own_tag event) }
{
    let event = with_plan(alloc, plans, event)?;
    let mut out = Outbox::new(alloc);
    match serving.turn(port, event, &mut out) {
        Ok(turn) => {
            serving.planned_orders_fit();
            Ok((out, turn))
        }
        Err(event) => Err(without_plan(event)),
    }
}
