use mama_event::{MsgKind, Order, SubId, TimerId};
use mama_listener::{
    Callback, Listener, MarketMsg, Msg, ObjectId, Orders, PlanListener, PlanRow, Quality, Tagged,
    has_few_rows, order_rows,
};
use std::alloc::Global;
use std::process::Abort;
use std::test::Fail;

const SUB: SubId = SubId {
    client: 0,
    number: 0,
};

const STOP: Order = Order::Stop(SUB);

fn disarm(number: u32) -> Order {
    Order::Disarm(TimerId { client: 0, number })
}

// A listener with these rows, of which at most 8 are for one call, as they are or in order.
fn planned(
    rt: &impl Abort,
    alloc: Global,
    rows: &[(u32, Order)],
    in_order: bool,
) -> Result<PlanListener, Fail> {
    let mut plan = Vec::new(alloc);
    for (call, order) in rows {
        plan.push(PlanRow {
            call: *call,
            order: *order,
        })?;
    }
    if in_order {
        assert!(rt; order_rows(&mut plan));
    }
    assert!(rt; has_few_rows(alloc, &plan)?);
    Ok(PlanListener::new(alloc, ObjectId::Sub(SUB), plan))
}

// A message with no fields.
fn message(alloc: Global) -> MarketMsg {
    MarketMsg {
        kind: MsgKind::Initial,
        sender: 1,
        seq: 0,
        body: Msg::new(alloc),
    }
}

// The callbacks that a listener got, through its bound alone.
fn count_of<L: Listener>(listener: &L) -> u64 {
    listener.count()
}

fn ordered(rt: &impl Abort, orders: &Orders, wanted: &[Order]) {
    assert_eq!(rt; orders.len(), wanted.len());
    for (i, order) in wanted.iter().enumerate() {
        if i < orders.len() {
            assert!(rt; orders.at(i) == order);
        }
    }
}

#[test]
fn orders_come_with_their_calls_in_order(rt: HostRuntime) -> Result<(), Fail> {
    // The rows of one call stand apart, and in the order in which they are to be given.
    let rows = [
        (3, disarm(2)),
        (2, STOP),
        (3, disarm(1)),
        (0, disarm(9)),
        (3, disarm(3)),
    ];
    for in_order in [false, true] {
        let mut listener = planned(&rt, rt.alloc(), &rows, in_order)?;
        let mut first = Orders::new();
        listener.on_create(&mut first);
        ordered(&rt, &first, &[]);
        let mut second = Orders::new();
        listener.on_msg(&message(rt.alloc()), Quality::Ok, &mut second);
        ordered(&rt, &second, &[STOP]);
        let mut third = Orders::new();
        listener.on_destroy(&mut third);
        ordered(&rt, &third, &[disarm(2), disarm(1), disarm(3)]);
        assert_eq!(rt; count_of(&listener), 3);
    }
    Ok(())
}

#[test]
fn one_call_can_have_eight_orders(rt: HostRuntime) -> Result<(), Fail> {
    let rows = [(1, STOP); 8];
    let mut listener = planned(&rt, rt.alloc(), &rows, true)?;
    let mut orders = Orders::new();
    listener.on_create(&mut orders);
    assert_eq!(rt; orders.len(), 8);
    assert!(rt; orders.push(STOP).is_err());
    Ok(())
}

#[test]
fn it_keeps_what_it_heard(rt: HostRuntime) -> Result<(), Fail> {
    let mut listener = planned(&rt, rt.alloc(), &[], false)?;
    assert_eq!(rt; listener.tag(), ObjectId::Sub(SUB));
    listener.on_create(&mut Orders::new());
    listener.on_gap(2, 3, &mut Orders::new());
    listener.on_quality(Quality::Stale, 1, &mut Orders::new());
    listener.on_recap_request(1, &mut Orders::new());
    listener.on_error(4, &mut Orders::new());
    listener.on_tick(5, &mut Orders::new());
    listener.on_reply(&Msg::new(rt.alloc()), &mut Orders::new());
    let wanted = [
        Callback::Create,
        Callback::Gap { first: 2, to: 3 },
        Callback::Quality {
            quality: Quality::Stale,
            number: 1,
        },
        Callback::RecapRequest { sender: 1 },
        Callback::Error { code: 4 },
        Callback::Tick { moment: 5 },
        Callback::Reply {
            body: Msg::new(rt.alloc()),
        },
    ];
    let heard = listener.heard().expect(&rt, "the callbacks");
    assert!(rt; heard == wanted.as_slice());
    Ok(())
}
