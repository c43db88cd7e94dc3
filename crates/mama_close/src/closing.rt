ghost use Rattle.std.specs.Prelude.{◌≡◌, [], map, IfOk};
ghost use Rattle.std.specs.List.{All, flat_map};
ghost use Rattle.mama_event.specs.Listener.{told};
ghost use Rattle.mama_rules_legal.specs.Legal.{IsLegal};
ghost use Rattle.mama_laws_legal.specs.Laws.{IsOrderly};
ghost use Rattle.mama_laws_allowed.specs.Allowed.{ClientPutsAreItsOwn};
ghost use Rattle.mama_laws_gather.specs.Gathered.{GatheredIsLegal};
ghost use Rattle.mama_laws_gather.specs.Done.{GatheredDoLines};
ghost use Rattle.mama_posts_services.specs.Byes.{BridgesEndByByes, TimersEndByByes};
ghost use Rattle.mama_crew.specs.Crew.{IsCrew};
ghost use Rattle.mama_crew.specs.Seat.{HasEnded};
ghost use Rattle.mama_crew.specs.Journals.{AreJournalsOf, events_in};
ghost use Rattle.mama_close.specs.Back.{AreBack};
ghost use Rattle.mama_record.specs.RunView.{images_of, groups_of};
ghost use Rattle.mama_rules_rounds.specs.Sections.{setting_of};
ghost use Rattle.mama_rules_rounds.specs.Told.{group_told, last_image};
ghost use Rattle.mama_close.specs.Apart.{BelongTo};
ghost use Rattle.mama_gather.specs.Left.{events_by};
ghost use Rattle.mama_close.specs.Kinds.{AreKindsOf, record_of};
ghost use Rattle.mama_gather.specs.Places.{images_by};
ghost use Rattle.mama_close.specs.InKinds.{kinds_in};
ghost use Rattle.mama_close.specs.Made.{IsMade, IsClosed};

use crate::apart::{Apart, Gathered, close_lanes};
use crate::kinds::{SeatsByKind, by_kind};
use mama_carry::Listener;
use mama_crew::{Hall, HallParts, Script, Seat};
use mama_event::{GroupNote, ImageHead, ObjectId, SubId};
use mama_gather::{all_images, in_order};
use mama_laws_allowed::client_puts_are_its_own;
use mama_laws_gather::{gathered_do_lines, gathered_is_legal};
use mama_memory::OutOfMemory;
use mama_msg::Msg;
use mama_plans::Plans;
use mama_posts_services::{bridges_end_by_byes, timers_end_by_byes};
use mama_record::RunRecord;
use std::alloc::Global;
use std::sync::Wait;

/// Closes a crew of this script, which has no groups, whose seats have all ended: the record of its run, and the listeners, each
/// with its object, in the order of the objects.
///
/// The record has the journals of the seats, and is legal, whichever thread turned which seat when. Each object's listener
/// comes back once; it has counted the object's callbacks in the record, and what it has heard, where it tells that, is they.
///
/// The error is want of memory; then the crew is dropped. It is also the answer where an object or its listener did not come
/// to the queue of its plan, or twice, which no crew has: so nobody has to show that all came.
pub fn close_crew<L: Listener, Rt: Wait + Copy>(
    rt: Rt,
    alloc: Global,
    script: &Script,
    hall: Hall<L>,
    seats: Vec<Seat<L>>,
) -> Result<(RunRecord, Vec<(ObjectId, L)>), OutOfMemory>
    requires crew { IsCrew script.now hall seats.items }
    requires ended { All HasEnded seats.items }
    requires ungrouped { script.now.groups ≡ [] }
    ensures journals { IfOk result (λ r. AreJournalsOf seats.items r.0) }
    ensures legal { IfOk result (λ r. IsLegal script.now r.0) }
    ensures listeners { IfOk result (λ r. AreBack (told L.tagged L.calls L.heard L.given L.plan) r.0.calls r.1.items) }
{
    let seats = by_kind(alloc, script, &hall, seats)?;
    close_kinds(rt, alloc, script, hall, seats, Vec::new(alloc))
}

/// Closes a crew in the same way where each group heard this, and these are the last images: what the journals of the queues give.
/// No image is taken from the seats.
pub fn close_imaged<L: Listener, Rt: Wait + Copy>(
    rt: Rt,
    alloc: Global,
    script: &Script,
    hall: Hall<L>,
    seats: Vec<Seat<L>>,
    groups: Vec<(u32, Vec<GroupNote>)>,
    images: Vec<(SubId, ImageHead, Msg)>,
) -> Result<(RunRecord, Vec<(ObjectId, L)>), OutOfMemory>
    requires crew { IsCrew script.now hall seats.items }
    requires ended { All HasEnded seats.items }
    requires groups { groups_of groups.items ≡ map (group_told (setting_of script.now) (flat_map events_in seats.items)) (setting_of script.now).groups }
    requires images { images_of images.items ≡ flat_map (last_image (setting_of script.now) (flat_map events_in seats.items)) (setting_of script.now).objects }
    ensures journals { IfOk result (λ r. AreJournalsOf seats.items r.0) }
    ensures legal { IfOk result (λ r. IsLegal script.now r.0) }
    ensures groups { IfOk result (λ r. r.0.groups ≡ groups_of groups.items) }
    ensures images { IfOk result (λ r. r.0.images ≡ images_of images.items) }
    ensures listeners { IfOk result (λ r. AreBack (told L.tagged L.calls L.heard L.given L.plan) r.0.calls r.1.items) }
{
    let seats = by_kind(alloc, script, &hall, seats)?;
    let parts = hall.into_parts();
    close_parts(rt, alloc, script, parts, seats, images, groups)
}

// The same of the seats kind by kind.
fn close_kinds<L: Listener, Rt: Wait + Copy>(
    rt: Rt,
    alloc: Global,
    script: &Script,
    hall: Hall<L>,
    seats: SeatsByKind<L>,
    groups: Vec<(u32, Vec<GroupNote>)>,
) -> Result<(RunRecord, Vec<(ObjectId, L)>), OutOfMemory>
    requires kinds { AreKindsOf script.now hall (kinds_in seats) }
    requires groups { groups_of groups.items ≡ (record_of script.now (kinds_in seats)).groups }
    ensures record_is { IfOk result (λ r. r.0 ≡ record_of script.now (kinds_in seats)) }
    ensures legal { IfOk result (λ r. IsLegal script.now r.0) }
    ensures listeners { IfOk result (λ r. AreBack (told L.tagged L.calls L.heard L.given L.plan) r.0.calls r.1.items) }
{
    let parts = hall.into_parts();
    let images = all_images(alloc, &parts.plans, seats.queues.as_slice())?;
    close_parts(rt, alloc, script, parts, seats, images, groups)
}

// The same with the lanes and plans of the hall, and the last images of the queues.
fn close_parts<L: Listener, Rt: Wait + Copy>(
    rt: Rt,
    alloc: Global,
    script: &Script,
    parts: HallParts<L>,
    seats: SeatsByKind<L>,
    images: Vec<(SubId, ImageHead, Msg)>,
    groups: Vec<(u32, Vec<GroupNote>)>,
) -> Result<(RunRecord, Vec<(ObjectId, L)>), OutOfMemory>
    requires groups { groups_of groups.items ≡ (record_of script.now (kinds_in seats)).groups }
    requires crew { AreKindsOf script.now (record { objects = parts.plans; to_bridge = parts.to_bridge; to_timers = parts.to_timers; to_publishers = parts.to_publishers.items; to_queues = parts.to_queues.items }) (kinds_in seats) }
    requires images { images_of images.items ≡ flat_map (images_by parts.plans (map events_by seats.queues.items)) parts.plans }
    ensures record_is { IfOk result (λ r. r.0 ≡ record_of script.now (kinds_in seats)) }
    ensures legal { IfOk result (λ r. IsLegal script.now r.0) }
    ensures listeners { IfOk result (λ r. AreBack (told L.tagged L.calls L.heard L.given L.plan) r.0.calls r.1.items) }
{
    tell_laws(script);
    let watches = script.watches().len();
    let apart = Apart::of(alloc, &parts.plans, watches, seats)?;
    close_apart(rt, alloc, parts, apart, images, groups)
}

// Closes the lanes of a hall with the ends that are there, and makes the record of what the seats left.
fn close_apart<L: Listener, Rt: Wait + Copy>(
    rt: Rt,
    alloc: Global,
    parts: HallParts<L>,
    apart: Apart<L>,
    images: Vec<(SubId, ImageHead, Msg)>,
    groups: Vec<(u32, Vec<GroupNote>)>,
) -> Result<(RunRecord, Vec<(ObjectId, L)>), OutOfMemory>
    requires { BelongTo parts.to_bridge parts.to_timers parts.to_publishers.items parts.to_queues.items apart }
    ensures { IfOk result (λ r. IsClosed parts.plans apart images.items groups.items r.0 r.1.items) }
{
    let HallParts {
        plans,
        to_bridge,
        to_timers,
        to_publishers,
        to_queues,
    } = parts;
    let left = close_lanes(
        rt,
        alloc,
        to_bridge,
        to_timers,
        to_publishers,
        to_queues,
        apart,
    )?;
    in_record(alloc, &plans, left, images, groups)
}

// The record of what the seats leave, with these images and what these groups heard, and the listeners in the order of the objects.
fn in_record<L: Listener>(
    alloc: Global,
    plans: &Plans,
    left: Gathered<L>,
    images: Vec<(SubId, ImageHead, Msg)>,
    groups: Vec<(u32, Vec<GroupNote>)>,
) -> Result<(RunRecord, Vec<(ObjectId, L)>), OutOfMemory>
    ensures { IfOk result (λ r. IsMade plans.now left images.items groups.items r.0 r.1.items) }
{
    let Gathered {
        moments,
        entries,
        bridge,
        timers,
        events,
        calls,
        listeners,
        noted,
    } = left;
    let listeners = in_order(alloc, plans, listeners)?;
    let calls = in_order(alloc, plans, calls)?;
    let run = RunRecord::new(
        moments, entries, bridge, timers, events, calls, images, groups, noted,
    );
    Ok((run, listeners))
}

// The laws by which the record of a crew is legal, and that the script is orderly.
fn tell_laws(script: &Script)
    ensures orderly { IsOrderly script.now }
    ensures own { ClientPutsAreItsOwn }
    ensures bridges { BridgesEndByByes }
    ensures services { TimersEndByByes }
    ensures lines { GatheredDoLines }
    ensures legal { GatheredIsLegal }
{
    let _shape = script.shape();
    client_puts_are_its_own();
    bridges_end_by_byes();
    timers_end_by_byes();
    gathered_do_lines();
    gathered_is_legal();
}
