//! Groups of a queue, told by hand what turns called back.

use mama_event::{
    CallNote, Callback, GivenOrders, GroupNote, GroupRow, GroupState, MarketMsg, Members, MsgKind,
    Quality, SubId,
};
use mama_group::{GroupListener, GroupTable, SilentGroup};
use mama_msg::Msg;
use std::alloc::Global;
use std::test::Fail;

const FIRST: SubId = SubId {
    client: 0,
    number: 0,
};

const SECOND: SubId = SubId {
    client: 0,
    number: 1,
};

const THIRD: SubId = SubId {
    client: 0,
    number: 2,
};

const LONE: SubId = SubId {
    client: 0,
    number: 3,
};

// Group 4 of the first two subscriptions, and group 7 of the third.
fn two_groups(alloc: Global) -> Result<GroupTable<SilentGroup>, Fail> {
    let pair = Members::new(vec![in alloc; FIRST, SECOND]?);
    let third = Members::new(vec![in alloc; THIRD]?);
    let pair = GroupRow { members: pair };
    let third = GroupRow { members: third };
    let rows = vec![in alloc; (4, pair), (7, third)]?;
    let listeners = vec![in alloc; SilentGroup::new(4), SilentGroup::new(7)]?;
    Ok(GroupTable::new(alloc, rows, listeners)?)
}

// A message with no fields, and the quality of the image after it.
fn message(alloc: Global, quality: Quality) -> Callback {
    let msg = MarketMsg {
        kind: MsgKind::Initial,
        sender: 1,
        seq: 0,
        body: Msg::new(alloc),
    };
    Callback::Msg { msg, quality }
}

fn quality(quality: Quality) -> Callback {
    Callback::Quality { quality, number: 0 }
}

fn told(table: &mut GroupTable<SilentGroup>, sub: SubId, notes: &[CallNote]) -> Result<(), Fail> {
    Ok(table.after(sub, notes)?)
}

// Tells a turn that called a subscription back so.
fn hear_all(
    alloc: Global,
    table: &mut GroupTable<SilentGroup>,
    sub: SubId,
    calls: Vec<Callback>,
) -> Result<(), Fail> {
    let mut notes = Vec::new(alloc);
    for call in calls {
        let orders = GivenOrders::none();
        notes.push(CallNote { call, orders })?;
    }
    told(table, sub, notes.as_slice())
}

// Tells a turn that called a subscription back once.
fn hear(
    alloc: Global,
    table: &mut GroupTable<SilentGroup>,
    sub: SubId,
    call: Callback,
) -> Result<(), Fail> {
    hear_all(alloc, table, sub, vec![in alloc; call]?)
}

// A note by the number of its subscription, or by its state.
fn letter(note: &GroupNote) -> char {
    match note {
        GroupNote::Call { sub, call: _ } => match sub.number {
            0 => '0',
            1 => '1',
            2 => '2',
            _ => '3',
        },
        GroupNote::State { state } => match state {
            GroupState::Waiting => 'w',
            GroupState::Fresh => 'f',
            GroupState::Stale => 's',
            GroupState::Ended => 'e',
        },
    }
}

// Whether these notes were heard, in order.
fn are_notes(notes: &[GroupNote], letters: &str) -> bool {
    notes.len() == letters.len() && notes.iter().map(letter).eq(letters.chars())
}

#[test]
fn a_member_that_ended_without_a_message_counts_as_ended(rt: HostRuntime) -> Result<(), Fail> {
    let alloc = rt.alloc();
    let mut table = two_groups(alloc)?;
    hear(alloc, &mut table, FIRST, Callback::Create)?;
    hear(alloc, &mut table, FIRST, Callback::Destroy)?;
    assert!(rt; table.state(4) == Some(GroupState::Waiting));
    hear(alloc, &mut table, SECOND, message(alloc, Quality::Ok))?;
    assert!(rt; table.state(4) == Some(GroupState::Fresh));
    hear(alloc, &mut table, SECOND, Callback::Destroy)?;
    assert!(rt; table.state(4) == Some(GroupState::Ended));
    Ok(())
}

#[test]
fn a_member_waits_for_its_first_message_and_for_nothing_else(rt: HostRuntime) -> Result<(), Fail> {
    let alloc = rt.alloc();
    let mut table = two_groups(alloc)?;
    assert!(rt; table.state(7) == Some(GroupState::Waiting));
    hear(alloc, &mut table, THIRD, Callback::Create)?;
    hear(alloc, &mut table, THIRD, Callback::Error { code: 1 })?;
    hear(alloc, &mut table, THIRD, quality(Quality::Ok))?;
    assert!(rt; table.state(7) == Some(GroupState::Waiting));
    hear(alloc, &mut table, THIRD, message(alloc, Quality::Ok))?;
    assert!(rt; table.state(7) == Some(GroupState::Fresh));
    Ok(())
}

#[test]
fn a_stale_member_that_ended_does_not_count(rt: HostRuntime) -> Result<(), Fail> {
    let alloc = rt.alloc();
    let mut table = two_groups(alloc)?;
    hear(alloc, &mut table, FIRST, message(alloc, Quality::Stale))?;
    assert!(rt; table.state(4) == Some(GroupState::Waiting));
    hear(alloc, &mut table, SECOND, message(alloc, Quality::Ok))?;
    assert!(rt; table.state(4) == Some(GroupState::Stale));
    hear(alloc, &mut table, FIRST, Callback::Destroy)?;
    assert!(rt; table.state(4) == Some(GroupState::Fresh));
    Ok(())
}

// A gap, which an update behind it leaves, and the recap that heals the image. Then a quality that goes and comes in one turn.
fn hear_turns(alloc: Global, table: &mut GroupTable<SilentGroup>) -> Result<(), Fail> {
    hear(alloc, table, THIRD, message(alloc, Quality::Ok))?;
    let gap = Callback::Gap { first: 2, to: 2 };
    let request = Callback::RecapRequest { sender: 1 };
    let update = message(alloc, Quality::Stale);
    let missed = vec![in alloc; gap, quality(Quality::Stale), request, update]?;
    hear_all(alloc, table, THIRD, missed)?;
    let recap = message(alloc, Quality::Ok);
    let healed = vec![in alloc; recap, quality(Quality::Ok)]?;
    hear_all(alloc, table, THIRD, healed)?;
    let both = vec![in alloc; quality(Quality::Stale), quality(Quality::Ok)]?;
    hear_all(alloc, table, THIRD, both)?;
    hear_all(alloc, table, THIRD, Vec::new(alloc))
}

// Whether the last group heard these notes, in order, and its listener so many callbacks.
fn is_last_told(parts: &[(u32, Vec<GroupNote>, SilentGroup)], letters: &str, count: u64) -> bool {
    match parts.last() {
        Some((_, notes, listener)) => {
            are_notes(notes.as_slice(), letters) && listener.count() == count
        }
        None => false,
    }
}

#[test]
fn a_state_follows_all_callbacks_of_its_turn(rt: HostRuntime) -> Result<(), Fail> {
    let mut table = two_groups(rt.alloc())?;
    let turns = hear_turns(rt.alloc(), &mut table);
    let heard = table.heard(THIRD);
    let parts = table.into_parts();
    turns?;
    assert_eq!(rt; heard, 9);
    assert!(rt; is_last_told(parts.as_slice(), "2f2222s22f22", 12));
    Ok(())
}

#[test]
fn a_group_is_stale_until_its_member_is_told_to_be_ok(rt: HostRuntime) -> Result<(), Fail> {
    let alloc = rt.alloc();
    let mut table = two_groups(alloc)?;
    hear(alloc, &mut table, THIRD, message(alloc, Quality::Stale))?;
    assert!(rt; table.state(7) == Some(GroupState::Stale));
    hear(alloc, &mut table, THIRD, quality(Quality::Ok))?;
    assert!(rt; table.state(7) == Some(GroupState::Fresh));
    hear(alloc, &mut table, THIRD, quality(Quality::Stale))?;
    assert!(rt; table.state(7) == Some(GroupState::Stale));
    Ok(())
}

#[test]
fn a_subscription_in_no_group_is_not_heard(rt: HostRuntime) -> Result<(), Fail> {
    let alloc = rt.alloc();
    let mut table = two_groups(alloc)?;
    hear(alloc, &mut table, LONE, message(alloc, Quality::Ok))?;
    assert!(rt; table.state(9).is_none());
    assert!(rt; table.state(4) == Some(GroupState::Waiting));
    assert!(rt; table.state(7) == Some(GroupState::Waiting));
    assert_eq!(rt; table.heard(LONE), 0);
    for (_, notes, listener) in table.into_parts() {
        assert!(rt; notes.is_empty());
        assert_eq!(rt; listener.count(), 0);
    }
    Ok(())
}

// A turn of each member, and two more of which the last ends the third.
fn hear_each(alloc: Global, table: &mut GroupTable<SilentGroup>) -> Result<(), Fail> {
    hear(alloc, table, SECOND, message(alloc, Quality::Ok))?;
    hear(alloc, table, THIRD, message(alloc, Quality::Ok))?;
    hear(alloc, table, FIRST, message(alloc, Quality::Stale))?;
    hear(alloc, table, SECOND, quality(Quality::Ok))?;
    hear(alloc, table, THIRD, Callback::Destroy)
}

#[test]
fn each_group_tells_its_own_listener(rt: HostRuntime) -> Result<(), Fail> {
    let mut table = two_groups(rt.alloc())?;
    let turns = hear_each(rt.alloc(), &mut table);
    let heard = table.heard(SECOND);
    let parts = table.into_parts();
    turns?;
    assert_eq!(rt; heard, 2);
    let wanted = [(4, 4, "10s1"), (7, 4, "2f2e")];
    assert_eq!(rt; parts.len(), 2);
    for ((number, notes, listener), (group, count, letters)) in parts.iter().zip(wanted.iter()) {
        assert_eq!(rt; *number, *group);
        assert_eq!(rt; listener.tag(), *group);
        assert_eq!(rt; listener.count(), *count);
        assert!(rt; are_notes(notes.as_slice(), letters));
    }
    Ok(())
}
