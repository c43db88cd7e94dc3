use crate::orderer::Orderer;
use mama_dispatch::{
    Listener, ObjectId, Order, QueueNote, Serving, ServingNotes, ToQueue, ToService, Turn,
};
use mama_event::{Make, MarketMsg, MsgKind, Strategy, SubId, SubKind, WireMsg};
use mama_memory::Outbox;
use mama_msg::Msg;
use std::alloc::Global;
use std::process::Abort;
use std::test::Fail;

fn sub(number: u32) -> SubId {
    SubId { client: 0, number }
}

// A subscription with a listener that orders nothing.
fn made(number: u32, kind: SubKind) -> ToQueue<Orderer> {
    ToQueue::Create {
        slot: number,
        object: ObjectId::Sub(sub(number)),
        make: Make::Sub {
            kind,
            cache: 4,
            strategy: Strategy::One,
        },
        listener: Orderer {
            tag: ObjectId::Sub(sub(number)),
            count: 0,
            order: Order::Stop(sub(number)),
            call: 0,
            times: 0,
            given: None,
        },
    }
}

// A message with no fields.
fn message<L>(alloc: Global, number: u32, kind: MsgKind, seq: u32) -> Result<ToQueue<L>, Fail> {
    let msg = MarketMsg {
        kind,
        sender: 1,
        seq,
        body: Msg::new(alloc),
    };
    Ok(ToQueue::Deliver {
        slot: number,
        sub: sub(number),
        msg: WireMsg::of(alloc, &msg)?.into_piece(),
    })
}

fn gone<L>(number: u32) -> ToQueue<L> {
    ToQueue::Gone {
        slot: number,
        object: ObjectId::Sub(sub(number)),
    }
}

// Takes an event if it may come.
fn take_once<L: Listener>(
    serving: &mut Serving<L>,
    port: u32,
    event: ToQueue<L>,
    out: &mut Outbox<ToService<ObjectId>>,
) -> Result<Turn<L>, ToQueue<L>> {
    if !serving.may_take(&event) {
        return Err(event);
    }
    serving.turn(port, event, out)
}

/// Takes an event that may come. Where no memory was found it comes back and all is as before, so it is taken again.
pub fn take<L: Listener>(
    serving: &mut Serving<L>,
    port: u32,
    event: ToQueue<L>,
    out: &mut Outbox<ToService<ObjectId>>,
) -> Result<Turn<L>, Fail> {
    let event = match take_once(serving, port, event, out) {
        Ok(turn) => return Ok(turn),
        Err(event) => event,
    };
    match take_once(serving, port, event, out) {
        Ok(turn) => Ok(turn),
        Err(_) => Err(Fail::new("a turn is refused twice")),
    }
}

// Takes an event from the port 1.
fn took(
    serving: &mut Serving<Orderer>,
    event: ToQueue<Orderer>,
    out: &mut Outbox<ToService<ObjectId>>,
) -> Result<(), Fail> {
    let _turn = take(serving, 1, event, out)?;
    Ok(())
}

// Serves four subscriptions. The first two go in the other order, and the first lacks an update before; the third is basic,
// and the fourth gets no message.
fn serve_four(alloc: Global, serving: &mut Serving<Orderer>) -> Result<(), Fail> {
    let mut out = Outbox::new(alloc);
    took(serving, made(0, SubKind::Market), &mut out)?;
    took(serving, made(1, SubKind::Market), &mut out)?;
    took(serving, made(2, SubKind::Basic), &mut out)?;
    took(serving, made(3, SubKind::Market), &mut out)?;
    for (number, seq) in [(0, 7), (1, 9), (2, 5)] {
        let image = message(alloc, number, MsgKind::Initial, seq)?;
        took(serving, image, &mut out)?;
    }
    let update = message(alloc, 0, MsgKind::Update, 9)?;
    took(serving, update, &mut out)?;
    for number in [1, 2, 0, 3] {
        took(serving, gone(number), &mut out)?;
    }
    Ok(())
}

// Whether the last that was taken is the Gone of the fourth.
fn ends_with_gone(notes: &ServingNotes) -> bool {
    match notes.taken.last() {
        Some((port, note)) => {
            let gone = QueueNote::Gone {
                slot: 3,
                object: ObjectId::Sub(sub(3)),
            };
            *port == 1 && *note == gone
        }
        None => false,
    }
}

// How many callbacks each object has, in order.
fn are_called(rt: &impl Abort, notes: &ServingNotes) {
    assert_eq!(rt; notes.calls.len(), 4);
    let wanted: [(u32, usize); 4] = [(0, 7), (1, 3), (2, 3), (3, 2)];
    for ((object, calls), (number, count)) in notes.calls.iter().zip(wanted.iter()) {
        assert!(rt; *object == ObjectId::Sub(sub(*number)));
        assert_eq!(rt; calls.len(), *count);
    }
}

// Whose image was left at which number, in order.
fn are_left(rt: &impl Abort, notes: &ServingNotes) {
    assert_eq!(rt; notes.images.len(), 2);
    let wanted: [(u32, u32); 2] = [(1, 9), (0, 9)];
    for ((from, head, _body), (number, last)) in notes.images.iter().zip(wanted.iter()) {
        assert!(rt; *from == sub(*number));
        assert_eq!(rt; head.last, *last);
    }
}

#[test]
fn notes_come_in_their_orders(rt: HostRuntime) -> Result<(), Fail> {
    let mut serving = Serving::new(rt.alloc(), 0);
    let served = serve_four(rt.alloc(), &mut serving);
    let notes = serving.into_notes();
    served?;
    assert_eq!(rt; notes.taken.len(), 12);
    assert!(rt; ends_with_gone(&notes));
    are_called(&rt, &notes);
    are_left(&rt, &notes);
    Ok(())
}

#[test]
fn a_queue_that_took_nothing_has_no_notes(rt: HostRuntime) -> Result<(), Fail> {
    let serving: Serving<Orderer> = Serving::new(rt.alloc(), 0);
    let notes = serving.into_notes();
    assert_eq!(rt; notes.taken.len(), 0);
    assert_eq!(rt; notes.calls.len(), 0);
    assert_eq!(rt; notes.images.len(), 0);
    Ok(())
}

#[test]
fn callbacks_are_taken_object_by_object(rt: HostRuntime) -> Result<(), Fail> {
    let mut serving = Serving::new(rt.alloc(), 0);
    let served = serve_four(rt.alloc(), &mut serving);
    let (taken, mut callbacks) = serving.into_callbacks();
    served?;
    assert_eq!(rt; taken.len(), 12);
    let wanted: [(u32, usize); 5] = [(2, 3), (0, 7), (3, 2), (4, 0), (1, 3)];
    for (number, count) in wanted {
        let object = ObjectId::Sub(sub(number));
        assert_eq!(rt; callbacks.take(&object).len(), count);
        assert_eq!(rt; callbacks.take(&object).len(), 0);
    }
    Ok(())
}
