ghost use Rattle.std.specs.Prelude.{◌≡◌, IfOk};
ghost use Rattle.mama_rules_legal.specs.Form.{IsFormed};
ghost use Rattle.mama_check.specs.Verdict.{Judges, IsTrue, OnLegal};

use crate::all::all_puts;
use crate::broken::{first_broken_edge, first_broken_line, first_broken_list, first_broken_object};
use crate::causal::is_causal;
use crate::laws::{kept_rules_are_legal, legal_records_are_true};
use crate::verdict::{Actor, Verdict};
use mama_memory::OutOfMemory;
use mama_plans::{groups_by_queue, plans_of, watches_by_queue};
use mama_record::RunRecord;
use mama_script::Script;
use std::alloc::Global;

/// The verdict on a record that breaks a rule.
fn not_legal(broken: (u8, Actor)) -> Verdict
    ensures { result ≡ Verdict.NotLegal broken.0 broken.1 }
{
    let (rule, actor) = broken;
    Verdict::NotLegal { rule, actor }
}

/// Judges the record of a run by its script: whether it is legal, and then whether it is causal; or else which rule is
/// broken first, and which actor breaks it first. The record has the form of the script's records, as one that was read
/// from a log has.
///
/// It takes time by the length of the script and of the record, but for logarithms, and for what a bridge costs for the
/// same entries: a publish, an image, a wish and a Leave cost the links of their topic. The error is want of memory, and
/// comes always where the bridge took a message of more than 64 fields, which no lane carries and no log tells.
pub fn check(alloc: Global, script: &Script, run: &RunRecord) -> Result<Verdict, OutOfMemory>
    requires { IsFormed script.now run.now }
    ensures exact { IfOk result (Judges script.now run.now) }
    ensures legal { IfOk result (λ verdict. OnLegal verdict (IsTrue script.now run.now)) }
{
    let _shape = script.shape();
    kept_rules_are_legal();
    legal_records_are_true();
    if let Some(broken) = first_broken_line(script, run) {
        return Ok(not_legal(broken));
    }
    let plans = plans_of(alloc, script)?;
    let groups = groups_by_queue(alloc, script, &plans)?;
    let watches = watches_by_queue(alloc, script, &plans)?;
    let puts = all_puts(alloc, script, run, &plans, &groups, &watches)?;
    let mut needs = Vec::new(alloc);
    if let Some(broken) = first_broken_edge(alloc, script, run, &puts, &mut needs)? {
        return Ok(not_legal(broken));
    }
    if let Some(broken) = first_broken_object(script, run, &plans, &puts.queues) {
        return Ok(not_legal(broken));
    }
    if let Some(broken) = first_broken_list(alloc, script, run, &plans, &puts.queues)? {
        return Ok(not_legal(broken));
    }
    let causal = is_causal(alloc, script, run, needs.as_slice())?;
    Ok(Verdict::Legal { causal })
}
