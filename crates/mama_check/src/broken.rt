ghost use Rattle.std.specs.Prelude.{◌≡◌, ℕ, ◌<◌, ◌^◌, [], length, map, Some, slice_get, IfOk, IfNone};
ghost use Rattle.mama_event.specs.declared.ids.ObjectId.{ObjectId};
ghost use Rattle.mama_rules_rounds.specs.Sections.{setting_of};
ghost use Rattle.mama_script.specs.Within.{IsWithin};
ghost use Rattle.mama_laws_legal.specs.Laws.{IsOrderly};
ghost use Rattle.mama_rules_legal.specs.Form.{IsCounted, IsFormed};
ghost use Rattle.mama_check.specs.All.{AreAllPuts};
ghost use Rattle.mama_check.specs.Puts.{AreServed};
ghost use Rattle.mama_check.specs.Causal.{all_needs};
ghost use Rattle.mama_check.specs.Verdict.{Finds, KeepAllLines, KeepEdges, KeepObjects, KeepLists, rule_of};

use crate::all::AllPuts;
use crate::edges::{add_bridge, add_clients, add_publishers, add_queues, add_timers};
use crate::images::first_of_images;
use crate::lines::{first_of_lines, first_of_moments};
use crate::lists::{first_of_groups, first_of_watches};
use crate::objects::first_of_calls;
use crate::verdict::Actor;
use mama_check_order::Need;
use mama_check_queue::ServedQueue;
use mama_event::ObjectId;
use mama_memory::OutOfMemory;
use mama_plans::Plans;
use mama_record::RunRecord;
use mama_script::Script;
use std::alloc::Global;

/// The client of a number.
fn client_of(number: usize) -> Actor
    requires { number < 2 ^ 32 }
    ensures { result ≡ Actor.Client number }
{
    Actor::Client(number as u32)
}

/// The publisher of a number.
fn publisher_of(number: usize) -> Actor
    requires { number < 2 ^ 32 }
    ensures { result ≡ Actor.Publisher number }
{
    Actor::Publisher(number as u32)
}

/// The queue of a number.
fn queue_of(number: usize) -> Actor
    requires { number < 2 ^ 32 }
    ensures { result ≡ Actor.Queue number }
{
    Actor::Queue(number as u32)
}

/// The group of a number.
fn group_of(number: usize) -> Actor
    requires { number < 2 ^ 32 }
    ensures { result ≡ Actor.Group number }
{
    Actor::Group(number as u32)
}

/// The watch of a number.
fn watch_of(number: usize) -> Actor
    requires { number < 2 ^ 32 }
    ensures { result ≡ Actor.Watch number }
{
    Actor::Watch(number as u32)
}

/// The number of the rule on the callbacks of an object.
fn rule_of(object: &ObjectId) -> u8
    ensures { result ≡ rule_of object.now }
{
    match object {
        ObjectId::Sub(_) => 5,
        ObjectId::Timer(_) => 6,
        ObjectId::Inbox(_) => 7,
    }
}

/// The object of a number, as the plans have them.
fn object_at(plans: &Plans, number: usize) -> ObjectId
    requires { number < length plans.now }
    ensures { slice_get (map (λ p. p.object) plans.now) number ≡ Some result }
{
    let objects = plans.objects();
    objects[number].object
}

/// The first rule on lines that is broken, and the first client or publisher that breaks it.
pub(crate) fn first_broken_line(script: &Script, run: &RunRecord) -> Option<(u8, Actor)>
    requires within { IsWithin script.now }
    requires counted { IsCounted script.now run.now }
    ensures { Finds script.now run.now (KeepAllLines script.now run.now) result }
{
    if let Some(c) = first_of_moments(script, run) {
        return Some((1, client_of(c)));
    }
    if let Some(p) = first_of_lines(script, run) {
        return Some((2, publisher_of(p)));
    }
    None
}

/// The first actor whose edges are not whole: publishers, the bridge, the timer service, and then queues. All lines were
/// done. Where there is none, what the entries of all actors need is added, in the order of the actors' numbers.
pub(crate) fn first_broken_edge(
    alloc: Global,
    script: &Script,
    run: &RunRecord,
    puts: &AllPuts,
    needs: &mut Vec<Vec<Option<Need>>>,
) -> Result<Option<(u8, Actor)>, OutOfMemory>
    requires orderly { IsOrderly script.now }
    requires counted { IsCounted script.now run.now }
    requires puts { AreAllPuts script.now run.now puts.now }
    requires lines { KeepAllLines script.now run.now }
    requires none { needs.old.items ≡ [] }
    ensures broken { IfOk result (Finds script.now run.now (KeepEdges script.now run.now)) }
    ensures needs { IfOk result (λ broken. IfNone broken (map (λ actor. actor.items) needs.new.items ≡ all_needs script.now run.now)) }
{
    add_clients(alloc, needs, script)?;
    if let Some(p) = add_publishers(alloc, needs, script, run, &puts.bridge)? {
        return Ok(Some((3, publisher_of(p))));
    }
    if !add_bridge(
        alloc,
        needs,
        script,
        run,
        &puts.clients,
        &puts.publishers,
        &puts.queues,
    )? {
        return Ok(Some((3, Actor::Bridge)));
    }
    if !add_timers(
        alloc,
        needs,
        script,
        run,
        &puts.clients,
        &puts.queues,
        &puts.bridge,
    )? {
        return Ok(Some((3, Actor::Timers)));
    }
    if let Some(q) = add_queues(alloc, needs, script, run, &puts.bridge, &puts.timers)? {
        return Ok(Some((3, queue_of(q))));
    }
    Ok(None)
}

/// The first object whose callbacks are not those that its queue makes, or else the first whose image is not the one that
/// its strategy leaves. All lines were done, and all edges are whole.
pub(crate) fn first_broken_object(
    script: &Script,
    run: &RunRecord,
    plans: &Plans,
    served: &[ServedQueue],
) -> Option<(u8, Actor)>
    requires formed { IsFormed script.now run.now }
    requires plans { plans.now ≡ (setting_of script.now).objects }
    requires served { AreServed script.now run.now served.now }
    requires lines { KeepAllLines script.now run.now }
    requires edges { KeepEdges script.now run.now }
    ensures { Finds script.now run.now (KeepObjects script.now run.now) result }
{
    if let Some(k) = first_of_calls(script, run, plans, served) {
        let object = object_at(plans, k);
        return Some((rule_of(&object), Actor::Object(object)));
    }
    if let Some(k) = first_of_images(script, run, plans, served) {
        return Some((8, Actor::Object(object_at(plans, k))));
    }
    None
}

/// The first rule on groups and watches that is broken, and the first group or watch that breaks it. All else is kept.
pub(crate) fn first_broken_list(
    alloc: Global,
    script: &Script,
    run: &RunRecord,
    plans: &Plans,
    served: &[ServedQueue],
) -> Result<Option<(u8, Actor)>, OutOfMemory>
    requires within { IsWithin script.now }
    requires formed { IsFormed script.now run.now }
    requires plans { plans.now ≡ (setting_of script.now).objects }
    requires served { AreServed script.now run.now served.now }
    requires lines { KeepAllLines script.now run.now }
    requires edges { KeepEdges script.now run.now }
    requires objects { KeepObjects script.now run.now }
    ensures { IfOk result (Finds script.now run.now (KeepLists script.now run.now)) }
{
    if let Some(g) = first_of_groups(alloc, script, run, plans, served)? {
        return Ok(Some((10, group_of(g))));
    }
    if let Some(w) = first_of_watches(alloc, script, run, plans, served)? {
        return Ok(Some((11, watch_of(w))));
    }
    Ok(None)
}
