//! `play`, `play_groups` and `play_observed`, with two workers.

ghost use Rattle.std.specs.Prelude.{IfOk};
ghost use Rattle.mama_rules_legal.specs.Form.{IsFormed};

use crate::keeper::{Keeper, Keepers};
use crate::meeting::{Host, Meeting};
use crate::scripts::{FIRST, GROUPED, TWO_QUEUES, TWO_TOPICS};
use crate::watching::Watch;
use mama_carry::{Maker, PlanListener, PlanMaker};
use mama_check::{Verdict, check, legal_records_are_formed};
use mama_edge::{MemoryClock, OpenGate};
use mama_event::{CallNote, Listener, ObjectId, SubId};
use mama_memory::OutOfMemory;
use mama_msg::Name;
use mama_play::{GroupListener, GroupMaker, SilentGroups, play, play_groups, play_observed};
use mama_record::RunRecord;
use mama_script::{Script, ScriptFault, parse};
use std::alloc::Global;
use std::sync::{Arc, Wait};
use std::test::Fail;
use std::thread::Threads;

// Calls whose answers are handed on unopened, but that a record may be judged.
fn parsed(alloc: Global, text: &str) -> Result<Script, ScriptFault> {
    parse(alloc, text.as_bytes())
}

fn played<L: Listener + Send, M: Maker<L>, R: Threads + Wait + Copy + Drop + Send + Sync>(
    rt: &R,
    alloc: Global,
    script: &Script,
    maker: &mut M,
) -> Result<(RunRecord, Vec<(ObjectId, L)>), OutOfMemory>
    ensures { IfOk result (λ r. IsFormed script.now r.0) }
{
    legal_records_are_formed();
    let mut clock = MemoryClock::new(Vec::new(alloc));
    play(rt, alloc, script, maker, &mut clock, &OpenGate, 2)
}

fn played_in_groups<
    L: Listener + Send,
    H: GroupListener + Send,
    M: Maker<L>,
    N: GroupMaker<H>,
    R: Threads + Wait + Copy + Drop + Send + Sync,
>(
    rt: &R,
    alloc: Global,
    script: &Script,
    maker: &mut M,
    groups: &mut N,
) -> Result<(RunRecord, Vec<(ObjectId, L)>, Vec<(u32, H)>), OutOfMemory>
    ensures { IfOk result (λ r. IsFormed script.now r.0) }
{
    legal_records_are_formed();
    let mut clock = MemoryClock::new(Vec::new(alloc));
    play_groups(rt, alloc, script, maker, groups, &mut clock, &OpenGate, 2)
}

// Whether a record is found legal and causal.
fn is_causal(alloc: Global, script: &Script, run: &RunRecord) -> bool
    requires { IsFormed script.now run.now }
{
    match check(alloc, script, run) {
        Ok(verdict) => verdict == Verdict::Legal { causal: true },
        Err(_) => false,
    }
}

// Whether a listener has heard the callbacks of a record.
fn has_heard(listener: &PlanListener, notes: &[CallNote]) -> bool {
    let Some(heard) = listener.heard() else {
        return false;
    };
    heard.len() == notes.len()
        && heard
            .iter()
            .zip(notes.iter())
            .all(|(call, note)| *call == note.call)
}

const SUB: ObjectId = ObjectId::Sub(SubId {
    client: 0,
    number: 0,
});

// Whether the one listener of a run came back with its callbacks.
fn is_back(run: &RunRecord, listeners: &[(ObjectId, PlanListener)]) -> bool {
    match (run.calls(), listeners) {
        ([(object, notes)], [(back, listener)]) => {
            *object == SUB && *back == SUB && has_heard(listener, notes.as_slice())
        }
        _ => false,
    }
}

// Whether the one group's listener came back with what the group heard in the record: its member's create, first image and
// destroy, and two states, at least.
fn has_kept(run: &RunRecord, listeners: &[(u32, Keeper)]) -> bool {
    match (run.groups(), listeners) {
        ([(group, notes)], [(back, keeper)]) => {
            *group == 0 && *back == 0 && notes.len() >= 5 && keeper.has_kept(notes.as_slice())
        }
        _ => false,
    }
}

#[test]
fn the_listener_comes_back_with_its_callbacks(rt: HostRuntime) -> Result<(), Fail> {
    let script = parsed(rt.alloc(), FIRST)?;
    let mut maker = PlanMaker::new();
    let (run, listeners) = played(&rt, rt.alloc(), &script, &mut maker)?;
    assert!(rt; is_causal(rt.alloc(), &script, &run));
    assert!(rt; is_back(&run, &listeners));
    Ok(())
}

#[test]
fn a_group_hears_its_member_and_its_state(rt: HostRuntime) -> Result<(), Fail> {
    let script = parsed(rt.alloc(), GROUPED)?;
    let mut maker = PlanMaker::new();
    let mut keepers = Keepers { alloc: rt.alloc() };
    let (run, _listeners, groups) = played_in_groups(
        &rt,
        rt.alloc(),
        &script,
        &mut maker,
        &mut keepers,
    )?;
    assert!(rt; is_causal(rt.alloc(), &script, &run));
    assert!(rt; has_kept(&run, &groups));
    Ok(())
}

#[test]
fn callbacks_of_two_queues_run_at_the_same_time(rt: HostRuntime) -> Result<(), Fail> {
    let script = parsed(rt.alloc(), TWO_QUEUES)?;
    let meeting = Arc::new(rt.alloc(), Meeting::of(0, 1))?;
    let mut host = Host {
        meeting: Arc::try_clone(&meeting)?,
    };
    let (run, _listeners) = played(&rt, rt.alloc(), &script, &mut host)?;
    assert!(rt; is_causal(rt.alloc(), &script, &run));
    assert!(rt; meeting.is_held());
    Ok(())
}

// Plays with two workers, while an observer watches that is the gate too.
fn watched<R: Threads + Wait + Copy + Drop + Send + Sync>(
    rt: &R,
    alloc: Global,
    script: &Script,
    watch: &Watch,
) -> Result<RunRecord, OutOfMemory>
    ensures { IfOk result (λ run. IsFormed script.now run) }
{
    legal_records_are_formed();
    let mut maker = PlanMaker::new();
    let mut groups = SilentGroups::new();
    let mut clock = MemoryClock::new(Vec::new(alloc));
    let (run, _listeners, _groups) = play_observed(
        rt,
        alloc,
        script,
        &mut maker,
        &mut groups,
        &mut clock,
        watch,
        watch,
        2,
    )?;
    Ok(run)
}

// The number of the first field of the first image, or 0.
fn first_number(run: &RunRecord) -> u32 {
    match run.images().first() {
        Some((_, _, body)) => body.get_u32(&Name::default(), 22).unwrap_or(0),
        None => 0,
    }
}

#[test]
fn an_image_is_read_while_the_client_goes_on(rt: HostRuntime) -> Result<(), Fail> {
    let script = parsed(rt.alloc(), TWO_TOPICS)?;
    let watch = Watch::new();
    let run = watched(&rt, rt.alloc(), &script, &watch)?;
    assert!(rt; is_causal(rt.alloc(), &script, &run));
    assert!(rt; watch.is_kept());
    assert_eq!(rt; watch.looks(), (1, 2));
    assert_eq!(rt; (run.images().len(), first_number(&run)), (1, 200));
    Ok(())
}
