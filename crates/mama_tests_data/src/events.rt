use crate::rows::message;
use mama_event::{
    CallNote, Callback, Duplicate, Fids, GivenOrders, GroupNote, GroupState, InboxId, InboxTerms,
    MarketMsg, Members, MsgKind, ObjectId, Order, Orders, OrdersRoom, Packet, Piece, PieceMsg,
    PublisherNote, Quality, QueueNote, Stream, SubId, SubKind, SubTerms, Tagged, TimerId,
    TimersNote, ToBridge, ToPublisher, ToQueue, ToService, ToTimers, Topics,
};
use mama_link::{Fault, FaultRow, Faults};
use mama_memory::OutOfMemory;
use std::alloc::Global;
use std::test::Fail;

const SUB: SubId = SubId {
    client: 1,
    number: 2,
};

const TIMER: TimerId = TimerId {
    client: 1,
    number: 3,
};

const INBOX: InboxId = InboxId {
    client: 1,
    number: 4,
};

fn market(alloc: Global) -> Result<MarketMsg, Fail> {
    Ok(MarketMsg {
        kind: MsgKind::Recap,
        sender: 7,
        seq: 9,
        body: message(alloc, "22:bid:u32:100")?,
    })
}

fn faults(alloc: Global) -> Result<Faults, Fail> {
    let row = FaultRow {
        index: 3,
        fault: Fault::Hold(2),
    };
    Ok(Faults::new(alloc, [row].to_vec(alloc)?)?)
}

// Whether a copy is equal.
fn copies<T: Duplicate + PartialEq>(value: T) -> Result<bool, OutOfMemory> {
    Ok(value.try_clone()? == value)
}

#[test]
fn fids_at_their_limits(rt: HostRuntime) -> Result<(), Fail> {
    let all = [1, 2, 3, 4, 5, 6, 7, 65534, 65535];
    let fids = Fids::new(&all[1..]).ok_or("eight fids")?;
    assert_eq!(rt; fids.len(), 8);
    assert_eq!(rt; fids.at(7), 65535);
    assert_eq!(rt; fids.as_slice(), &all[1..]);
    assert!(rt; Fids::new(&all[..1]).is_some());
    for refused in [&all[..], &[], &[0, 1], &[2, 2], &[3, 2], &[65535, 0]] {
        assert!(rt; Fids::new(refused).is_none(), "{refused:?}");
    }
    Ok(())
}

// The end of a subscription, of a timer and of an inbox, and a question.
fn each_order() -> Result<[Order; 4], Fail> {
    Ok([
        Order::Stop(SUB),
        Order::Disarm(TIMER),
        Order::Close(INBOX),
        Order::Ask {
            inbox: INBOX,
            topic: 5,
            fids: Fids::new(&[22, 25]).ok_or("two fids")?,
        },
    ])
}

#[test]
fn a_ninth_order_is_given_back(rt: HostRuntime) -> Result<(), Fail> {
    let mut orders = Orders::new();
    assert!(rt; orders.is_empty());
    for order in each_order()? {
        orders.push(order)?;
        orders.push(order)?;
    }
    assert_eq!(rt; orders.len(), 8);
    assert_eq!(rt; orders.push(Order::Stop(SUB)), Err(Order::Stop(SUB)));
    assert_eq!(rt; orders.len(), 8);
    assert_eq!(rt; orders.as_slice().get(2), Some(&Order::Disarm(TIMER)));
    assert!(rt; orders.copied() == orders);
    assert!(rt; copies(orders)?);
    Ok(())
}

#[test]
fn given_orders_are_kept(rt: HostRuntime) -> Result<(), Fail> {
    let mut orders = Orders::new();
    assert!(rt; GivenOrders::new(rt.alloc(), &orders)? == GivenOrders::none());
    assert!(rt; GivenOrders::none().is_empty());
    for order in each_order()? {
        orders.push(order)?;
    }
    let given = GivenOrders::new(rt.alloc(), &orders)?;
    assert_eq!(rt; given.as_slice(), orders.as_slice());
    assert_eq!(rt; given.len(), 4);
    assert!(rt; copies(given)?);
    let room = OrdersRoom::new(rt.alloc())?;
    assert_eq!(rt;
        GivenOrders::in_room(room, &orders).as_slice(),
        orders.as_slice()
    );
    Ok(())
}

// What an order puts, in a letter, and the number of what it is about.
fn letter(put: &ToService<ObjectId>) -> (char, u32) {
    match put {
        ToService::Bridge(ToBridge::Leave { sub }) => ('l', sub.number),
        ToService::Bridge(ToBridge::CloseInbox { inbox }) => ('c', inbox.number),
        ToService::Bridge(ToBridge::Ask { inbox, .. }) => ('a', inbox.number),
        ToService::Timers(ToTimers::Disarm { timer }) => ('d', timer.number),
        _ => ('?', 0),
    }
}

#[test]
fn each_order_has_its_service(rt: HostRuntime) -> Result<(), Fail> {
    let orders = each_order()?;
    let wants = [('l', 2), ('d', 3), ('c', 4), ('a', 4)];
    for (order, want) in orders.iter().zip(wants.iter()) {
        assert_eq!(rt; letter(&ToService::of_order(order)), *want);
    }
    Ok(())
}

#[test]
fn terms_are_copied(rt: HostRuntime) -> Result<(), Fail> {
    let terms = SubTerms {
        topic: 5,
        kind: SubKind::Snapshot,
        queue: 6,
        cache: 10,
        recaps: 11,
        faults: faults(rt.alloc())?,
    };
    assert!(rt; copies(terms)?);
    let terms = InboxTerms {
        queue: 6,
        faults: faults(rt.alloc())?,
    };
    assert!(rt; copies(terms)?);
    Ok(())
}

fn told(alloc: Global) -> Result<Callback, Fail> {
    Ok(Callback::Msg {
        msg: market(alloc)?,
        quality: Quality::Stale,
    })
}

fn replied(alloc: Global) -> Result<Callback, Fail> {
    Ok(Callback::Reply {
        body: message(alloc, "22:bid:u32:100")?,
    })
}

#[test]
fn callbacks_are_copied(rt: HostRuntime) -> Result<(), Fail> {
    assert!(rt; copies(market(rt.alloc())?)?);
    assert!(rt; copies(told(rt.alloc())?)?);
    assert!(rt; copies(replied(rt.alloc())?)?);
    assert!(rt; told(rt.alloc())? != replied(rt.alloc())?);
    let note = CallNote {
        call: told(rt.alloc())?,
        orders: GivenOrders::none(),
    };
    assert!(rt; copies(note)?);
    Ok(())
}

#[test]
fn topics_of_publishers(rt: HostRuntime) -> Result<(), Fail> {
    let topics = Topics::new([4, 0, 4].to_vec(rt.alloc())?);
    assert_eq!(rt; topics.len(), 3);
    assert!(rt; !topics.is_empty());
    assert_eq!(rt; topics.as_slice(), [4, 0, 4].as_slice());
    assert_eq!(rt; topics.into_vec().as_slice(), [4, 0, 4].as_slice());
    Ok(())
}

fn note_and_end<E: Stream>(event: &E) -> Result<(E::Note, bool), OutOfMemory> {
    Ok((event.note()?, event.is_last()))
}

fn tag_of<T: Tagged>(value: &T) -> ObjectId {
    value.tag()
}

#[test]
fn events_of_publishers_have_notes(rt: HostRuntime) -> Result<(), Fail> {
    let want = ToPublisher::Want {
        sub: SUB,
        kind: MsgKind::Recap,
    };
    let wanted = PublisherNote::Want {
        sub: SUB,
        kind: MsgKind::Recap,
    };
    assert!(rt; note_and_end(&want)? == (wanted, false));
    assert!(rt; note_and_end(&ToPublisher::Settle)? == (PublisherNote::Settle, false));
    assert!(rt; note_and_end(&ToPublisher::Fin)? == (PublisherNote::Fin, true));
    Ok(())
}

#[test]
fn events_of_timers_have_notes(rt: HostRuntime) -> Result<(), Fail> {
    let tag = ObjectId::Timer(TIMER);
    assert_eq!(rt; tag_of(&tag), tag);
    let arm = ToTimers::Arm {
        timer: TIMER,
        queue: 6,
        interval: 50,
        listener: tag,
    };
    let armed = TimersNote::Arm {
        timer: TIMER,
        queue: 6,
        interval: 50,
        tag,
    };
    assert!(rt; note_and_end(&arm)? == (armed, false));
    let ends: [(ToTimers<ObjectId>, TimersNote); 3] = [
        (ToTimers::ClientDone, TimersNote::ClientDone),
        (ToTimers::Bye, TimersNote::Bye),
        (ToTimers::Fin, TimersNote::Fin),
    ];
    for (event, note) in &ends {
        assert!(rt; note_and_end(event)? == (*note, true));
    }
    Ok(())
}

// A reply to the inbox, and a message for the subscription, with these bytes.
fn reply_of(alloc: Global, bytes: &[u8]) -> Result<ToQueue<ObjectId>, OutOfMemory> {
    Ok(ToQueue::Reply {
        slot: 4,
        inbox: INBOX,
        body: Piece::of_bytes(alloc, bytes)?,
    })
}

fn deliver_of(alloc: Global, bytes: &[u8]) -> Result<ToQueue<ObjectId>, OutOfMemory> {
    let msg = PieceMsg {
        kind: MsgKind::Recap,
        sender: 7,
        seq: 9,
        body: Piece::of_bytes(alloc, bytes)?,
    };
    Ok(ToQueue::Deliver {
        slot: 3,
        sub: SUB,
        msg,
    })
}

// Whether an event has this note, is read as it with this code, and is not the last.
fn is_noted(event: &ToQueue<ObjectId>, note: QueueNote, code: u8) -> Result<bool, OutOfMemory> {
    let (read, told) = event.read()?;
    Ok(read == note && told == code && note_and_end(event)? == (note, false))
}

#[test]
fn events_of_queues_have_what_they_spell(rt: HostRuntime) -> Result<(), Fail> {
    let alloc = rt.alloc();
    let msg = market(alloc)?;
    let packet = Packet::pack(alloc, &msg.body)?;
    let reply = reply_of(alloc, packet.bytes())?;
    let deliver = deliver_of(alloc, packet.bytes())?;
    let replied = QueueNote::Reply {
        slot: 4,
        inbox: INBOX,
        body: message(alloc, "22:bid:u32:100")?,
    };
    assert!(rt; is_noted(&reply, replied, 0)?);
    let delivered = QueueNote::Deliver {
        slot: 3,
        sub: SUB,
        msg,
    };
    assert!(rt; is_noted(&deliver, delivered, 0)?);
    Ok(())
}

// Bytes behind which one stands too many.
const LONGER: &[u8] = &[1, 0, 0];

#[test]
fn events_of_queues_have_the_bytes_that_spell_nothing(rt: HostRuntime) -> Result<(), Fail> {
    let alloc = rt.alloc();
    let replied = QueueNote::BadReply {
        slot: 4,
        inbox: INBOX,
        bytes: Piece::of_bytes(alloc, LONGER)?,
    };
    assert!(rt; is_noted(&reply_of(alloc, LONGER)?, replied, 6)?);
    let delivered = QueueNote::Bad {
        slot: 3,
        sub: SUB,
        kind: MsgKind::Recap,
        sender: 7,
        seq: 9,
        bytes: Piece::of_bytes(alloc, LONGER)?,
    };
    assert!(rt; is_noted(&deliver_of(alloc, LONGER)?, delivered, 6)?);
    Ok(())
}

#[test]
fn members_and_notes_of_groups(rt: HostRuntime) -> Result<(), Fail> {
    let alloc = rt.alloc();
    let first = SubId {
        client: 0,
        number: 0,
    };
    let members = Members::new(vec![in alloc; first, SUB]?);
    assert_eq!(rt; members.len(), 2);
    assert!(rt; !members.is_empty());
    assert!(rt; members.at(1) == SUB);
    assert!(rt; members.as_slice() == [first, SUB].as_slice());
    assert!(rt; copies(members)?);
    let call = Callback::Gap { first: 2, to: 3 };
    assert!(rt; copies(GroupNote::Call { sub: SUB, call })?);
    let state = GroupState::Stale;
    assert!(rt; copies(GroupNote::State { state })?);
    Ok(())
}
