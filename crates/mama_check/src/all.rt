ghost use Rattle.std.specs.Prelude.{◌≡◌, map, IfOk};
ghost use Rattle.mama_event.specs.Ports.{queues_of};
ghost use Rattle.mama_plans.specs.Lists.{groups_on_each, watches_on_each};
ghost use Rattle.mama_rules_rounds.specs.Sections.{setting_of};
ghost use Rattle.mama_rules_legal.specs.Form.{IsCounted};
ghost use Rattle.mama_script.specs.Within.{IsWithin};
ghost use Rattle.mama_check.specs.All.{AreAllPuts};

use crate::puts::{puts_of_clients, puts_of_publishers, puts_of_the_bridge};
use mama_check_puts::{BridgePuts, ClientPuts, puts_of_timers};
use mama_check_queue::{ServedQueue, serve_all};
use mama_event::{BridgeNote, GroupRow, QueueNote, WatchRow};
use mama_memory::OutOfMemory;
use mama_plans::Plans;
use mama_record::RunRecord;
use mama_script::Script;
use std::alloc::Global;

/// What all actors put by a record.
#[derive(Drop)]
pub(crate) struct AllPuts<'a> {
    pub(crate) clients: Vec<ClientPuts>,
    pub(crate) publishers: Vec<Vec<(usize, BridgeNote)>>,
    pub(crate) bridge: BridgePuts,
    pub(crate) timers: Vec<Vec<(usize, QueueNote)>>,
    pub(crate) queues: Vec<ServedQueue<'a>>,
}

/// What all actors put, by the lines of the script, the plans of its objects and the journals of the record.
pub(crate) fn all_puts<'a>(
    alloc: Global,
    script: &Script,
    run: &'a RunRecord,
    plans: &'a Plans,
    groups: &'a [Vec<(u32, GroupRow)>],
    watches: &'a [Vec<(u32, WatchRow)>],
) -> Result<AllPuts<'a>, OutOfMemory>
    requires within { IsWithin script.now }
    requires counted { IsCounted script.now run.now }
    requires plans { plans.now ≡ (setting_of script.now).objects }
    requires groups { map (λ list. list.items) groups.now ≡ groups_on_each (queues_of script.now.shape) (setting_of script.now).groups }
    requires watches { map (λ list. list.items) watches.now ≡ watches_on_each (queues_of script.now.shape) (setting_of script.now).watches }
    ensures { IfOk result (λ puts. AreAllPuts script.now run.now puts) }
{
    let clients = puts_of_clients(alloc, script, run)?;
    let publishers = puts_of_publishers(alloc, script, run)?;
    let bridge = puts_of_the_bridge(alloc, script, run)?;
    let timers = puts_of_timers(alloc, script.shape(), run.timers())?;
    let queues = serve_all(alloc, plans, groups, watches, run.queues())?;
    Ok(AllPuts {
        clients,
        publishers,
        bridge,
        timers,
        queues,
    })
}
