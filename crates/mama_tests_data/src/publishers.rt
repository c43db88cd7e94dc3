use crate::rows::{has_fields, message};
use mama_event::{MarketMsg, MsgKind, ObjectId, SubId, ToBridge, ToPublisher, Took};
use mama_memory::Outbox;
use mama_msg::{Field, Msg, Name, Value};
use mama_publisher::{Publisher, SendFault};
use std::alloc::Global;
use std::test::Fail;

// A message of this many fields, with the fids from 1 on.
fn wide(alloc: Global, count: u16) -> Result<Msg, Fail> {
    let mut msg = Msg::new(alloc);
    for before in 0..count {
        let fid = before.saturating_add(1);
        msg.add(Field::new(fid, Name::default(), Value::U16(fid)).ok_or("a field")?)?;
    }
    Ok(msg)
}

// Publisher 3 with this base.
fn publisher(alloc: Global, base: Msg) -> Result<Publisher, Fail> {
    Ok(
        Publisher::new(alloc, 3, base)
            .ok()
            .ok_or("at most 64 fields")?,
    )
}

#[test]
fn a_base_of_65_fields_is_given_back(rt: HostRuntime) -> Result<(), Fail> {
    let back = Publisher::new(rt.alloc(), 3, wide(rt.alloc(), 65)?).err();
    assert_eq!(rt; back.map(|base| base.len()), Some(65));
    Ok(())
}

// The fields of a record, an update, and how many fields the record then has, if those are not too many.
const SENT: [(u16, &str, Option<usize>); 4] = [
    (64, "64::u32:5 65::u32:6", None),
    (64, "64::u32:5", Some(64)),
    (63, "63::u32:5 64::u32:6", Some(64)),
    (0, "", Some(0)),
];

// Whether a message is the first update of publisher 3, with these fields.
fn is_first(sent: &MarketMsg, update: &Msg) -> bool {
    sent.kind == MsgKind::Update && sent.sender == 4 && sent.seq == 1 && sent.body == *update
}

// The number of the record's fields once an update is sent, which is the first message, if it is not refused.
fn len_after(publisher: &mut Publisher, update: &Msg) -> Result<Option<usize>, SendFault> {
    match publisher.send(update) {
        Ok(sent) => {
            if is_first(&sent, update) {
                Ok(Some(publisher.held().len()))
            } else {
                Ok(None)
            }
        }
        Err(SendFault::RecordFull) => Ok(None),
        Err(fault) => Err(fault),
    }
}

// Whether the record of so many fields then has these, and no number is given where it has not.
fn takes(alloc: Global, count: u16, text: &str, after: Option<usize>) -> Result<bool, Fail> {
    let mut publisher = publisher(alloc, wide(alloc, count)?)?;
    let update = message(alloc, text)?;
    let found = len_after(&mut publisher, &update)?;
    Ok(found == after && (publisher.seq() == 0) == after.is_none())
}

#[test]
fn a_record_takes_64_fields(rt: HostRuntime) -> Result<(), Fail> {
    for (count, text, after) in SENT {
        assert!(rt; takes(rt.alloc(), count, text, after)?, "{count}");
    }
    Ok(())
}

#[test]
fn a_refused_update_leaves_the_record(rt: HostRuntime) -> Result<(), Fail> {
    let mut publisher = publisher(rt.alloc(), wide(rt.alloc(), 64)?)?;
    let update = message(rt.alloc(), "64::u32:5 65::u32:6")?;
    assert_eq!(rt; len_after(&mut publisher, &update)?, None);
    let base = wide(rt.alloc(), 64)?;
    assert!(rt; *publisher.held() == base);
    Ok(())
}

#[test]
fn an_image_is_the_record_so_far(rt: HostRuntime) -> Result<(), Fail> {
    let mut publisher = publisher(rt.alloc(), message(rt.alloc(), "22:x:u32:100")?)?;
    let _sent = publisher.send(&message(rt.alloc(), "25:x:u32:103 22:x:u32:101")?)?;
    let image = publisher.image(MsgKind::Recap)?;
    assert_eq!(rt;
        (image.kind, image.sender, image.seq),
        (MsgKind::Recap, 4, 1)
    );
    assert!(rt; has_fields(rt.alloc(), &image.body, "22:x:u32:101 25:x:u32:103")?);
    Ok(())
}

// What a publisher puts, in a letter.
fn letter(put: ToBridge<ObjectId>) -> char {
    match put {
        ToBridge::Image { .. } => 'i',
        ToBridge::Reply { .. } => 'r',
        ToBridge::Settled => 's',
        _ => '?',
    }
}

#[test]
fn it_answers_settles_and_ends(rt: HostRuntime) -> Result<(), Fail> {
    let mut publisher = publisher(rt.alloc(), Msg::new(rt.alloc()))?;
    let mut out: Outbox<ToBridge<ObjectId>> = Outbox::new(rt.alloc());
    let sub = SubId {
        client: 0,
        number: 0,
    };
    let want = ToPublisher::Want {
        sub,
        kind: MsgKind::Recap,
    };
    assert_eq!(rt; publisher.take(want, &mut out), Ok(Took::Running));
    assert_eq!(rt;
        publisher.take(ToPublisher::Settle, &mut out),
        Ok(Took::Running)
    );
    assert_eq!(rt; publisher.take(ToPublisher::Fin, &mut out), Ok(Took::Ended));
    assert_eq!(rt; out.len(), 2);
    assert_eq!(rt; out.take_first().map(letter), Some('i'));
    assert_eq!(rt; out.take_first().map(letter), Some('s'));
    Ok(())
}
