use crate::played::{are_back, ends_so, judged, play, script_of};
use crate::shown::play_shown;
use mama_carry::ObjectId;
use mama_check::Verdict;
use mama_crew::Pace;
use mama_event::{SubId, TimerId};
use std::test::Fail;

// A publisher and a subscription.
const ONE: &str = "mama script 1
queues 1
topic \"EQ.ABC\"
publisher 0 22:bid:u32:100
update 22:bid:u32:101
update 25:ask:u32:103
update 22:bid:u32:102
client
sub 0 market 0 10 1000
";

// Two queues, on each of which a client has an object.
const TWO: &str = "mama script 1
queues 2
topic \"EQ.ABC\"
publisher 0 22:bid:u32:100
update 22:bid:u32:101
update 25:ask:u32:103
update 22:bid:u32:102
client
sub 0 market 0 10 1000
timer 1 5
now clock
";

const SUB: ObjectId = ObjectId::Sub(SubId {
    client: 0,
    number: 0,
});

const TIMER: ObjectId = ObjectId::Timer(TimerId {
    client: 0,
    number: 0,
});

const FIRST: [Pace; 4] = [Pace::Waiting, Pace::Waiting, Pace::Moved, Pace::Moved];

#[test]
fn seats_are_turned_in_order(rt: HostRuntime) -> Result<(), Fail> {
    let alloc = rt.alloc();
    let script = script_of(alloc, ONE)?;
    let played = play(rt, alloc, &script, &[0, 1, 2, 3, 4]);
    assert_eq!(rt; played.first, FIRST);
    let verdict = judged(alloc, &script, &played.run)?;
    assert!(rt; matches!(verdict, Verdict::Legal { causal: true }));
    assert!(rt;
        ends_so(
            alloc,
            &script,
            &played.run,
            "images\ns0.0 ok 1 3 22:bid:u32:102 25:ask:u32:103\nend\n"
        )?
    );
    assert!(rt; are_back(&played, &[SUB]));
    Ok(())
}

#[test]
fn seats_are_turned_the_other_way(rt: HostRuntime) -> Result<(), Fail> {
    let alloc = rt.alloc();
    let script = script_of(alloc, TWO)?;
    let played = play(rt, alloc, &script, &[5, 4, 3, 2, 1, 0]);
    assert_eq!(rt; played.first, FIRST);
    let verdict = judged(alloc, &script, &played.run)?;
    assert!(rt; matches!(verdict, Verdict::Legal { causal: true }));
    assert!(rt; are_back(&played, &[SUB, TIMER]));
    Ok(())
}

#[test]
fn a_reader_sees_the_last_image(rt: HostRuntime) -> Result<(), Fail> {
    let alloc = rt.alloc();
    let script = script_of(alloc, ONE)?;
    let shown = play_shown(rt, alloc, &script, &[0, 1, 2, 3, 4]);
    assert_eq!(rt; shown.before, 0);
    assert_eq!(rt; shown.after, 3);
    assert!(rt;
        ends_so(
            alloc,
            &script,
            &shown.run,
            "images\ns0.0 ok 1 3 22:bid:u32:102 25:ask:u32:103\nend\n"
        )?
    );
    Ok(())
}
