use mama_client::{AskFault, Client, ClientFault, QueueGroup};
use mama_event::{
    Bounds, Fids, InboxId, InboxTerms, ObjectId, SubId, SubKind, SubTerms, TimerId, ToBridge,
    ToTimers,
};
use mama_link::Faults;
use std::alloc::Global;
use std::test::Fail;

const SUB: SubId = SubId {
    client: 3,
    number: 0,
};

const TIMER: TimerId = TimerId {
    client: 3,
    number: 0,
};

const INBOX: InboxId = InboxId {
    client: 3,
    number: 0,
};

const LISTENER: ObjectId = ObjectId::Sub(SubId {
    client: 9,
    number: 9,
});

// A client of number 3, for one topic and one queue.
fn client() -> Client {
    Client::new(
        3,
        Bounds {
            topics: 1,
            queues: 1,
        },
    )
}

// What a client answers a subscription on this topic and queue: its number, or a letter.
fn subscribed(alloc: Global, client: &mut Client, topic: u32, queue: u32) -> (u32, char) {
    let terms = SubTerms {
        topic,
        kind: SubKind::Market,
        queue,
        cache: 10,
        recaps: 1000,
        faults: Faults::none(alloc),
    };
    match client.subscribe(terms, LISTENER) {
        Ok((sub, ToBridge::Join { listener, .. })) => told(sub.client, sub.number, listener),
        Ok(_) => (0, '?'),
        Err(fault) => refused(fault),
    }
}

fn told(client: u32, number: u32, listener: ObjectId) -> (u32, char) {
    let letter = if client == 3 && listener == LISTENER {
        'y'
    } else {
        '?'
    };
    (number, letter)
}

fn refused(fault: ClientFault<ObjectId>) -> (u32, char) {
    let (letter, back) = match fault {
        ClientFault::Closed(back) => ('c', back),
        ClientFault::BadTopic(back) => ('t', back),
        ClientFault::BadQueue(back) => ('q', back),
        ClientFault::ZeroInterval(back) => ('z', back),
        ClientFault::NumbersSpent(back) => ('n', back),
    };
    (0, if back == LISTENER { letter } else { '?' })
}

fn armed(client: &mut Client, queue: u32, interval: u32) -> (u32, char) {
    match client.arm(queue, interval, LISTENER) {
        Ok((timer, ToTimers::Arm { listener, .. })) => told(timer.client, timer.number, listener),
        Ok(_) => (0, '?'),
        Err(fault) => refused(fault),
    }
}

fn opened(alloc: Global, client: &mut Client, queue: u32) -> (u32, char) {
    let terms = InboxTerms {
        queue,
        faults: Faults::none(alloc),
    };
    match client.new_inbox(terms, LISTENER) {
        Ok((inbox, ToBridge::OpenInbox { listener, .. })) => {
            told(inbox.client, inbox.number, listener)
        }
        Ok(_) => (0, '?'),
        Err(fault) => refused(fault),
    }
}

#[test]
fn numbers_of_each_kind_count_from_0(rt: HostRuntime) -> Result<(), Fail> {
    let mut client = client();
    // Where both are wrong the topic is told.
    for (topic, queue, letter) in [(1, 0, 't'), (1, 1, 't'), (0, 1, 'q')] {
        assert_eq!(rt;
            subscribed(rt.alloc(), &mut client, topic, queue),
            (0, letter)
        );
    }
    for number in 0..3 {
        assert_eq!(rt; subscribed(rt.alloc(), &mut client, 0, 0), (number, 'y'));
    }
    assert_eq!(rt; armed(&mut client, 1, 10), (0, 'q'));
    assert_eq!(rt; armed(&mut client, 0, 0), (0, 'z'));
    assert_eq!(rt; armed(&mut client, 0, 10), (0, 'y'));
    assert_eq!(rt; opened(rt.alloc(), &mut client, 1), (0, 'q'));
    for number in 0..2 {
        assert_eq!(rt; opened(rt.alloc(), &mut client, 0), (number, 'y'));
    }
    Ok(())
}

// What a client answers to what makes nothing: the end of a subscription, of a timer and of an inbox, a moment, and a
// question.
fn answers(client: &mut Client) -> Result<[bool; 4], Fail> {
    Ok([
        client.destroy::<ObjectId>(SUB).is_ok(),
        client.disarm::<ObjectId>(TIMER).is_ok(),
        client.close_inbox::<ObjectId>(INBOX).is_ok(),
        client.now::<ObjectId>(7).is_ok(),
    ])
}

fn asked(client: &mut Client, topic: u32) -> Result<Option<AskFault>, Fail> {
    let fids = Fids::new(&[22]).ok_or("fids")?;
    Ok(client.ask::<ObjectId>(INBOX, topic, fids).err())
}

fn ends(client: &mut Client) -> bool {
    client.done::<ObjectId>().is_ok()
}

// Whether a client that is done refuses what makes nothing.
fn refuses_all(client: &mut Client) -> Result<bool, Fail> {
    Ok(answers(client)? == [false; 4] && asked(client, 1)? == Some(AskFault::Closed))
}

#[test]
fn a_client_that_is_done_refuses_all(rt: HostRuntime) -> Result<(), Fail> {
    let mut client = client();
    assert_eq!(rt; answers(&mut client)?, [true; 4]);
    assert!(rt; ends(&mut client));
    assert!(rt; !ends(&mut client));
    assert!(rt; refuses_all(&mut client)?);
    let made = [
        subscribed(rt.alloc(), &mut client, 1, 1),
        armed(&mut client, 7, 0),
        opened(rt.alloc(), &mut client, 0),
    ];
    assert_eq!(rt; made, [(0, 'c'); 3]);
    Ok(())
}

#[test]
fn a_question_names_a_topic(rt: HostRuntime) -> Result<(), Fail> {
    let mut client = client();
    assert_eq!(rt; asked(&mut client, 0)?, None);
    assert_eq!(rt; asked(&mut client, 1)?, Some(AskFault::BadTopic));
    Ok(())
}

#[test]
fn queues_come_in_turn(rt: HostRuntime) {
    let mut group = QueueGroup::new(3);
    for queue in [0, 1, 2, 0, 1, 2, 0] {
        assert_eq!(rt; group.next(), queue);
    }
    let mut one = QueueGroup::new(1);
    for _ in 0..3 {
        assert_eq!(rt; one.next(), 0);
    }
}
