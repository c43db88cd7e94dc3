//! Bytes that spell no message, told as the error that they are.

use crate::notes::take;
use crate::orderer::Orderer;
use mama_dispatch::{Callback, ImageHead, ObjectId, Order, Serving, ToQueue, ToService, Turn};
use mama_event::{InboxId, Make, MsgKind, Piece, PieceMsg, Quality, Strategy, SubId, SubKind};
use mama_memory::Outbox;
use std::alloc::Global;
use std::test::Fail;

const SUB: SubId = SubId {
    client: 0,
    number: 0,
};

const INBOX: InboxId = InboxId {
    client: 0,
    number: 0,
};

/// A queue that is served, and what it puts.
#[derive(Drop)]
struct Served {
    serving: Serving<Orderer>,
    out: Outbox<ToService<ObjectId>>,
}

// An object with a listener that orders nothing.
fn made(slot: u32, object: ObjectId, make: Make) -> ToQueue<Orderer> {
    ToQueue::Create {
        slot,
        object,
        make,
        listener: Orderer {
            tag: object,
            count: 0,
            order: Order::Stop(SUB),
            call: 0,
            times: 0,
            given: None,
        },
    }
}

const MARKET: Make = Make::Sub {
    kind: SubKind::Market,
    cache: 4,
    strategy: Strategy::One,
};

// Bytes that stand as decimals with a space between two; none are in an empty text.
fn piece_of(alloc: Global, text: &str) -> Result<Piece, Fail> {
    let mut bytes = Vec::new(alloc);
    for word in text.split(' ') {
        if let Ok(byte) = word.parse::<u8>() {
            bytes.push(byte)?;
        }
    }
    Ok(Piece::of_bytes(alloc, &bytes)?)
}

// A message for the subscription with these bytes.
fn deliver(alloc: Global, kind: MsgKind, seq: u32, text: &str) -> Result<ToQueue<Orderer>, Fail> {
    let msg = PieceMsg {
        kind,
        sender: 1,
        seq,
        body: piece_of(alloc, text)?,
    };
    Ok(ToQueue::Deliver {
        slot: 0,
        sub: SUB,
        msg,
    })
}

fn reply(alloc: Global, text: &str) -> Result<ToQueue<Orderer>, Fail> {
    Ok(ToQueue::Reply {
        slot: 1,
        inbox: INBOX,
        body: piece_of(alloc, text)?,
    })
}

// How many callbacks an event makes.
fn called(queue: &mut Served, event: ToQueue<Orderer>) -> Result<u64, Fail> {
    match take(&mut queue.serving, 0, event, &mut queue.out)? {
        Turn::Called { count } => Ok(count),
        _ => Err(Fail::new("not called")),
    }
}

// The message with one flag, whose fid is 7.
const FLAG: &str = "1 1 1 0 7 0 1";

// A queue with an inbox and a subscription whose image, at number 7, has the flag.
fn opened(alloc: Global) -> Result<Served, Fail> {
    let mut queue = Served {
        serving: Serving::new(alloc, 0),
        out: Outbox::new(alloc),
    };
    called(&mut queue, made(0, ObjectId::Sub(SUB), MARKET))?;
    called(&mut queue, made(1, ObjectId::Inbox(INBOX), Make::Inbox))?;
    called(&mut queue, deliver(alloc, MsgKind::Initial, 7, FLAG)?)?;
    Ok(queue)
}

// Whether the image is ok, at this number, and has the flag and no more.
fn has_flag_at(queue: &Served, last: u32) -> bool {
    let wanted = ImageHead {
        sender: 1,
        last,
        quality: Quality::Ok,
    };
    match queue.serving.row(SUB) {
        Some(image) => image.head == wanted && image.body.len() == 1,
        None => false,
    }
}

// Whether an object was told this error last, and nothing was ordered.
fn heard_error(queue: &Served, object: ObjectId, code: u8) -> Result<bool, Fail> {
    let calls = queue.serving.calls_of(&object)?;
    match calls.last() {
        Some(note) => Ok(note.call == Callback::Error { code } && note.orders.is_empty()),
        None => Ok(false),
    }
}

// The code of the first fault in some bytes, and the bytes: none at all; an end too early; a first byte and a letter that no
// message has; a key twice; too many fields; a byte too many; and the newer spelling of no list.
const BROKEN: &str = "1
1 1
1 1 1 1 0 7 0
2 3 0
3 1 1 1 0 7 1 33
4 1 2 1 0 0 2 112 120 1 1 0 0 2 112 120 2
5 1 65
6 1 0 0
7 2 0";

// Whether such bytes make one callback of each object, which tells the code, and leave the image as it was.
fn is_told(alloc: Global, queue: &mut Served, row: &str) -> Result<bool, Fail> {
    let (code, bytes) = row.split_once(' ').unwrap_or((row, ""));
    let code = code.parse::<u8>().unwrap_or(0);
    let delivered = called(queue, deliver(alloc, MsgKind::Update, 8, bytes)?)?;
    let replied = called(queue, reply(alloc, bytes)?)?;
    Ok(
        delivered == 1
            && replied == 1
            && heard_error(queue, ObjectId::Sub(SUB), code)?
            && heard_error(queue, ObjectId::Inbox(INBOX), code)?
            && has_flag_at(queue, 7),
    )
}

#[test]
fn bytes_that_spell_no_message_are_an_error_and_change_nothing(
    rt: HostRuntime,
) -> Result<(), Fail> {
    let mut queue = opened(rt.alloc())?;
    for row in BROKEN.lines() {
        assert!(rt; is_told(rt.alloc(), &mut queue, row)?, "{row}");
    }
    let next = deliver(rt.alloc(), MsgKind::Update, 8, FLAG)?;
    assert_eq!(rt; called(&mut queue, next)?, 1);
    assert!(rt; has_flag_at(&queue, 8));
    assert!(rt; queue.out.is_empty());
    Ok(())
}
