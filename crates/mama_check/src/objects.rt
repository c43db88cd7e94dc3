ghost use Rattle.std.specs.Prelude.{◌≡◌, length, map};
ghost use Rattle.mama_rules_rounds.specs.Sections.{setting_of};
ghost use Rattle.mama_plans.specs.Plans.{planned_object};
ghost use Rattle.mama_check_queue.specs.Recorded.{AreOf, journals_of, calls_by};
ghost use Rattle.mama_check.specs.First.{IsFirst};
ghost use Rattle.mama_check.specs.Rules.{KeepsCalls};
ghost use Rattle.mama_check.specs.Puts.{AreServed};

use mama_check_order::are_same_calls;
use mama_check_queue::ServedQueue;
use mama_event::CallNote;
use mama_plans::{PlannedObject, Plans};
use mama_record::RunRecord;
use mama_script::Script;

/// The callbacks of an object on its queue. The queues follow these plans.
fn calls_on<'s>(plans: &Plans, served: &'s [ServedQueue], planned: &PlannedObject) -> &'s [CallNote]
    requires { AreOf plans.now served.now }
    ensures { result.now ≡ (calls_by plans.now (journals_of served.now) (planned_object planned.now)).calls }
{
    let queue = planned.queue as usize;
    if queue < served.len() {
        return served[queue].calls(&planned.object);
    }
    &[]
}

/// The first object whose callbacks are not those that its queue makes by its journal: subscriptions stand first, then
/// timers, and then inboxes. The plans are those of the script, the queues were served by their journals, and the record
/// has the objects of the script in order.
pub fn first_of_calls(
    script: &Script,
    run: &RunRecord,
    plans: &Plans,
    served: &[ServedQueue],
) -> Option<usize>
    requires plans { plans.now ≡ (setting_of script.now).objects }
    requires served { AreServed script.now run.now served.now }
    requires objects { map (λ c. c.object) run.now.calls ≡ map (λ p. p.object) (setting_of script.now).objects }
    ensures { IsFirst (KeepsCalls script.now run.now) (length (setting_of script.now).objects) result }
{
    let recorded = run.calls();
    let objects = plans.objects();
    for (k, planned) in objects.iter().enumerate() {
        let calls = calls_on(plans, served, planned);
        let entry = &recorded[k];
        if !are_same_calls(&entry.1, calls) {
            return Some(k);
        }
    }
    None
}
