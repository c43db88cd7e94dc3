ghost use Rattle.std.specs.Prelude.{◌≡◌, ◌<◌, ◌^◌, ◌++◌, ◌∷◌, [], List, ℕ, length, IfOk, OnOk};
ghost use Rattle.std.specs.List.{AllByRecursion};
ghost use Rattle.mama_event.specs.declared.market.SubKind.{SubKind};
ghost use Rattle.mama_link.specs.declared.faults.FaultRow.{FaultRow};
ghost use Rattle.mama_script.specs.declared.client.ClientLine.TheVariants as line;
ghost use Rattle.mama_rules_rounds.specs.Client.{Planned, objects_from, at_first};
ghost use Rattle.mama_rules_rounds.specs.Sections.{by_kind, objects_of, setting_of};
ghost use Rattle.mama_plans.specs.Plans.{planned_object, planned_objects};
ghost use Rattle.mama_plans.specs.Planning.{Makes, MakesOr};
ghost use Rattle.mama_plans.specs.Room.{HasRoom, MakesFew};

use crate::names::Names;
use crate::{PlannedObject, Plans};
use mama_event::{InboxId, ObjectId, PlanRow, SubId, TimerId};
use mama_memory::OutOfMemory;
use mama_script::{ClientLine, ClientLines, Plan, QueueWord, Script};
use std::alloc::Global;

/// The objects of a script with their plans: subscriptions, timers and inboxes, each by client and number.
pub fn plans_of(alloc: Global, script: &Script) -> Result<Plans, OutOfMemory>
    ensures { IfOk result (λ plans. plans ≡ (setting_of script.now).objects) }
{
    let queues = script.shape().bounds.queues;
    let objects = all_objects(alloc, queues, script.clients())?;
    Plans::new(alloc, by_kind(alloc, objects)?)
}

/// The subscriptions, then the timers, and then the inboxes of some objects.
fn by_kind(alloc: Global, objects: Vec<PlannedObject>) -> Result<Vec<PlannedObject>, OutOfMemory>
    ensures { IfOk result (λ sorted. planned_objects sorted.items ≡ by_kind (planned_objects objects.items)) }
{
    let mut subs = Vec::new(alloc);
    let mut timers = Vec::new(alloc);
    let mut inboxes = Vec::new(alloc);
    for planned in objects {
        match planned.object {
            ObjectId::Sub(_) => subs.push(planned)?,
            ObjectId::Timer(_) => timers.push(planned)?,
            ObjectId::Inbox(_) => inboxes.push(planned)?,
        }
    }
    subs.append(&mut timers)?;
    subs.append(&mut inboxes)?;
    Ok(subs)
}

/// The objects of all clients, in the order of their lines.
fn all_objects(
    alloc: Global,
    queues: u32,
    clients: &[ClientLines],
) -> Result<Vec<PlannedObject>, OutOfMemory>
    requires count { length clients.now < 2 ^ 32 }
    requires few { AllByRecursion MakesFew clients.now }
    ensures { IfOk result (λ objects. planned_objects objects.items ≡ objects_of queues 0 clients.now) }
{
    let mut objects = Vec::new(alloc);
    for (number, lines) in clients.iter().enumerate() {
        add_client(alloc, &mut objects, number as u32, queues, lines.as_slice())?;
    }
    Ok(objects)
}

/// Adds the objects of one client, in the order of its lines.
fn add_client(
    alloc: Global,
    objects: &mut Vec<PlannedObject>,
    number: u32,
    queues: u32,
    lines: &[ClientLine],
) -> Result<(), OutOfMemory>
    requires { MakesFew lines.now }
    ensures { OnOk result (planned_objects objects.new.items ≡ planned_objects objects.old.items ++ objects_from queues number (at_first []) lines.now) }
{
    let mut names = Names::none();
    for line in lines {
        names = add_line(alloc, objects, names, number, queues, line)?;
    }
    Ok(())
}

/// Adds the object of a line, if it makes one, and gives what the client has named then.
fn add_line(
    alloc: Global,
    objects: &mut Vec<PlannedObject>,
    names: Names,
    number: u32,
    queues: u32,
    line: &ClientLine,
) -> Result<Names, OutOfMemory>
    requires { HasRoom names }
    ensures { IfOk result (λ next. (made : List Planned) × Makes queues number names next line.now made × (planned_objects objects.new.items ≡ planned_objects objects.old.items ++ made)) }
{
    match object_of(alloc, names, number, queues, line)? {
        Some((planned, next)) => {
            objects.push(planned)?;
            Ok(next)
        }
        None => Ok(names),
    }
}

/// The object that a line of a client makes, if it makes one, and what the client has named then.
fn object_of(
    alloc: Global,
    names: Names,
    number: u32,
    queues: u32,
    line: &ClientLine,
) -> Result<Option<(PlannedObject, Names)>, OutOfMemory>
    requires { HasRoom names }
    ensures { IfOk result (λ found. MakesOr queues number names line.now found) }
{
    match line {
        ClientLine::Sub {
            topic: _,
            kind: _,
            queue,
            cache: _,
            recaps: _,
            faults: _,
            plan,
        } => Ok(Some(sub(alloc, names, number, queues, *queue, plan)?)),
        ClientLine::Timer {
            queue,
            interval: _,
            plan,
        } => Ok(Some(timer(alloc, names, number, queues, *queue, plan)?)),
        ClientLine::Inbox {
            queue,
            faults: _,
            plan,
        } => Ok(Some(inbox(alloc, names, number, queues, *queue, plan)?)),
        ClientLine::Order(_) | ClientLine::Now(_) | ClientLine::NowClock | ClientLine::Pause(_) => {
            Ok(None)
        }
    }
}

/// The subscription of this number.
fn sub(
    alloc: Global,
    names: Names,
    number: u32,
    queues: u32,
    word: QueueWord,
    plan: &Plan,
) -> Result<(PlannedObject, Names), OutOfMemory>
    requires { HasRoom names }
    ensures { IfOk result (λ made. (topic : ℕ) (kind : SubKind) (cache recaps : ℕ) (faults : List FaultRow) → Makes queues number names made.1 (line.Sub topic kind word cache recaps faults plan.now) (planned_object made.0 ∷ [])) }
{
    let object = ObjectId::Sub(SubId {
        client: number,
        number: names.subs,
    });
    let (queue, mut after) = names.queue_of(queues, word);
    after.subs = names.subs + 1;
    Ok((planned(alloc, object, queue, plan)?, after))
}

/// The timer of this number.
fn timer(
    alloc: Global,
    names: Names,
    number: u32,
    queues: u32,
    word: QueueWord,
    plan: &Plan,
) -> Result<(PlannedObject, Names), OutOfMemory>
    requires { HasRoom names }
    ensures { IfOk result (λ made. (interval : ℕ) → Makes queues number names made.1 (line.Timer word interval plan.now) (planned_object made.0 ∷ [])) }
{
    let object = ObjectId::Timer(TimerId {
        client: number,
        number: names.timers,
    });
    let (queue, mut after) = names.queue_of(queues, word);
    after.timers = names.timers + 1;
    Ok((planned(alloc, object, queue, plan)?, after))
}

/// The inbox of this number.
fn inbox(
    alloc: Global,
    names: Names,
    number: u32,
    queues: u32,
    word: QueueWord,
    plan: &Plan,
) -> Result<(PlannedObject, Names), OutOfMemory>
    requires { HasRoom names }
    ensures { IfOk result (λ made. (faults : List FaultRow) → Makes queues number names made.1 (line.Inbox word faults plan.now) (planned_object made.0 ∷ [])) }
{
    let object = ObjectId::Inbox(InboxId {
        client: number,
        number: names.inboxes,
    });
    let (queue, mut after) = names.queue_of(queues, word);
    after.inboxes = names.inboxes + 1;
    Ok((planned(alloc, object, queue, plan)?, after))
}

/// An object with its queue and a copy of its plan.
fn planned(
    alloc: Global,
    object: ObjectId,
    queue: u32,
    plan: &Plan,
) -> Result<PlannedObject, OutOfMemory>
    ensures { IfOk result (λ made. planned_object made ≡ record { object = object; queue = queue; plan = plan.now }) }
{
    let plan = Vec::from_slice(alloc, plan.rows())?;
    Ok(PlannedObject {
        object,
        queue,
        plan,
    })
}
