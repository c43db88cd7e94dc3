//! What is seen of a crew that was opened, turned on one thread and closed.
ghost use Rattle.std.specs.Prelude.{◌≡◌, [], true};
ghost use Rattle.mama_rules_legal.specs.Legal.{IsLegal};

use crate::turning::{first_paces, turn_out};
use mama_carry::{ObjectId, PlanListener, PlanMaker};
use mama_check::{Verdict, check, legal_records_are_formed};
use mama_close::close_crew;
use mama_crew::{Crew, OutOfMemory, Pace, Script, open_crew};
use mama_event::{CallNote, Listener, Tagged};
use mama_record::{RunRecord, print_log};
use mama_script::{ScriptFault, parse};
use std::alloc::Global;
use std::process::Abort;
use std::sync::Wait;
use std::test::Fail;

/// What the first turns came to, the record, and the listeners that came back.
#[derive(Drop)]
pub struct Played {
    pub first: [Pace; 4],
    pub run: RunRecord,
    pub back: Vec<(ObjectId, PlanListener)>,
}

// A call whose answer is handed on unopened, as no proof here needs a clause.
fn parsed(alloc: Global, text: &str) -> Result<Script, ScriptFault> {
    parse(alloc, text.as_bytes())
}

/// The script of a text.
pub fn script_of(alloc: Global, text: &str) -> Result<Script, Fail> {
    Ok(parsed(alloc, text)?)
}

// Whether a script has no groups.
fn is_ungrouped(script: &Script) -> bool
    ensures { result ≡ true → script.now.groups ≡ [] }
{
    script.groups().is_empty()
}

/// Opens the crew of a script without groups, turns the seats at these places in rotation until all have ended, and closes
/// the crew. Where that fails the test ends at once: so no proof is about letting a crew go.
pub fn play<Rt: Wait + Abort + Copy>(
    rt: Rt,
    alloc: Global,
    script: &Script,
    places: &[usize],
) -> Played
    ensures { IsLegal script.now result.run }
{
    assert!(rt; is_ungrouped(script), "a script has groups");
    let mut maker = PlanMaker::new();
    let crew = open_crew(rt, alloc, script, &mut maker);
    let Crew { hall, mut seats } = crew.expect(&rt, "a crew");
    let first = first_paces(rt, script, &hall, &mut seats).expect(&rt, "first turns");
    let ended = turn_out(rt, script, &hall, &mut seats, places).expect(&rt, "rounds");
    assert!(rt; ended, "the seats go on");
    let (run, back) = close_crew(rt, alloc, script, hall, seats).expect(&rt, "a record");
    Played { first, run, back }
}

/// The verdict on a legal record.
pub fn judged(alloc: Global, script: &Script, run: &RunRecord) -> Result<Verdict, OutOfMemory>
    requires { IsLegal script.now run.now }
{
    legal_records_are_formed();
    check(alloc, script, run)
}

fn printed(alloc: Global, script: &Script, run: &RunRecord) -> Result<Vec<u8>, OutOfMemory> {
    print_log(alloc, script.shape(), run, script.version())
}

/// Whether the log of a record ends in these lines.
pub fn ends_so(
    alloc: Global,
    script: &Script,
    run: &RunRecord,
    lines: &str,
) -> Result<bool, OutOfMemory> {
    Ok(printed(alloc, script, run)?.ends_with(lines.as_bytes()))
}

// Whether a listener has heard these callbacks.
fn has_heard(listener: &PlanListener, calls: &[CallNote]) -> bool {
    let Some(heard) = listener.heard() else {
        return false;
    };
    if heard.len() != calls.len() {
        return false;
    }
    for (call, note) in heard.iter().zip(calls.iter()) {
        if *call != note.call {
            return false;
        }
    }
    true
}

// Whether the listener of this object has its tag, and has counted and heard these callbacks.
fn is_back(object: ObjectId, listener: &PlanListener, calls: &[CallNote]) -> bool {
    listener.tag() == object && listener.count() == calls.len() as u64 && has_heard(listener, calls)
}

/// Whether the listeners of these objects came back, each with its callbacks in the record.
pub fn are_back(played: &Played, objects: &[ObjectId]) -> bool {
    let calls = played.run.calls();
    if calls.len() != objects.len() || played.back.len() != objects.len() {
        return false;
    }
    for i in 0..objects.len() {
        let (made, notes) = &calls[i];
        let (object, listener) = &played.back[i];
        if *made != objects[i] || *object != objects[i] {
            return false;
        }
        if !is_back(objects[i], listener, notes) {
            return false;
        }
    }
    true
}
