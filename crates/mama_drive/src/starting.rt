ghost use Rattle.std.specs.Prelude.{◌≡◌, ◌^◌, ◌<◌, ◌≤◌, length, map, IfOk};
ghost use Rattle.std.specs.Arc.{arc_value};
ghost use Rattle.std.specs.List.{AllByRecursion};
ghost use Rattle.mama_script.specs.declared.publisher.PublisherPart.{PublisherPart};
ghost use Rattle.mama_rules_rounds.specs.Sections.{setting_of};
ghost use Rattle.mama_seats.specs.Heard.{IsGroupList};
ghost use Rattle.mama_timeout.specs.Table.{AreApart};
ghost use Rattle.mama_drive.specs.Start.{stands_from, senders_from, new_servers, started};

use crate::bridge_seat::BridgeSeat;
use crate::held::Held;
use crate::run::Run;
use crate::system::System;
use crate::timers_seat::TimersSeat;
use mama_event::{GroupRow, WatchRow};
use mama_laws_allowed::{client_puts_are_its_own, client_puts_are_lawful};
use mama_memory::OutOfMemory;
use mama_plans::{Plans, groups_by_queue, plans_of, watches_by_queue};
use mama_script::{ClientLines, PublisherPart, Script};
use mama_seats::{ClientSeat, PublisherSeat, QueueSeat};
use std::alloc::Global;
use std::collections::BTreeSet;
use std::sync::Arc;

impl<'a> Run<'a> {
    /// The run of a script, in which nothing is done yet.
    pub fn new(alloc: Global, script: &'a Script) -> Result<Run<'a>, OutOfMemory>
        ensures { IfOk result (λ run. run ≡ started (setting_of script.now).objects script.now) }
    {
        let _shape = script.shape();
        client_puts_are_lawful();
        client_puts_are_its_own();
        let plans = plans_of(alloc, script)?;
        let shared = Arc::new(alloc, plans)?;
        let system = System::new(alloc, script, shared)?;
        Ok(Run {
            system,
            held: Held::Nothing,
        })
    }
}

impl<'a> System<'a> {
    /// All actors of a script, which have done nothing yet. These are the plans of its objects.
    fn new(alloc: Global, script: &'a Script, plans: Arc<Plans>) -> Result<System<'a>, OutOfMemory>
        requires { arc_value plans ≡ (setting_of script.now).objects }
        ensures { IfOk result (λ system. system ≡ started (arc_value plans) script.now) }
    {
        let shape = script.shape();
        let groups = groups_by_queue(alloc, script, &plans)?;
        let watches = watches_by_queue(alloc, script, &plans)?;
        let queues = queue_seats(alloc, &plans, groups, watches)?;
        let publishers = publisher_seats(alloc, script.publishers())?;
        let clients = client_seats(alloc, shape.bounds.queues, script.clients())?;
        let bridge = BridgeSeat::new(alloc, shape)?;
        let timers = TimersSeat::new(alloc, shape)?;
        Ok(System {
            alloc,
            shape,
            plans,
            clients,
            publishers,
            queues,
            bridge,
            timers,
            marked_publishers: BTreeSet::new(alloc),
            marked_queues: BTreeSet::new(alloc),
            script,
            ready: false,
        })
    }
}

/// A seat for each queue with its groups and watches; they share the plans.
fn queue_seats(
    alloc: Global,
    plans: &Arc<Plans>,
    groups: Vec<Vec<(u32, GroupRow)>>,
    watches: Vec<Vec<(u32, WatchRow)>>,
) -> Result<Vec<QueueSeat>, OutOfMemory>
    requires alike { length groups.items ≡ length watches.items }
    requires groups { AllByRecursion (λ list. IsGroupList list.items) groups.items }
    requires watches { AllByRecursion (λ list. AreApart list.items) watches.items }
    ensures { IfOk result (λ seats. seats.items ≡ new_servers (arc_value plans.now) (map (λ list. list.items) groups.items) (map (λ list. list.items) watches.items)) }
{
    let mut seats = Vec::new(alloc);
    let mut left = watches.into_iter();
    for list in groups {
        let Some(rows) = left.next() else {
            unreachable!()
        };
        let shared = Arc::try_clone(plans)?;
        let seat = QueueSeat::new(alloc, shared, list, rows)?;
        seats.push(seat)?;
    }
    Ok(seats)
}

/// A seat for each publisher.
fn publisher_seats<'a>(
    alloc: Global,
    parts: &'a [PublisherPart],
) -> Result<Vec<PublisherSeat<'a>>, OutOfMemory>
    requires count { length parts.now < 2 ^ 32 }
    requires within { AllByRecursion (λ (part : PublisherPart). length part.base ≤ 64) parts.now }
    ensures { IfOk result (λ seats. seats.items ≡ senders_from 0 parts.now) }
{
    let mut seats = Vec::new(alloc);
    for (number, part) in parts.iter().enumerate() {
        seats.push(PublisherSeat::new(alloc, number as u32, part)?)?;
    }
    Ok(seats)
}

/// A seat for each client.
fn client_seats<'a>(
    alloc: Global,
    queues: u32,
    sections: &'a [ClientLines],
) -> Result<Vec<ClientSeat<'a>>, OutOfMemory>
    requires { length sections.now < 2 ^ 32 }
    ensures { IfOk result (λ seats. seats.items ≡ stands_from queues 0 sections.now) }
{
    let mut seats = Vec::new(alloc);
    for (number, lines) in sections.iter().enumerate() {
        seats.push(ClientSeat::new(alloc, number as u32, queues, lines.as_slice()))?;
    }
    Ok(seats)
}
