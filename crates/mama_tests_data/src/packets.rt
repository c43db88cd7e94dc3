use crate::payloads::{bytes_of, flags};
use crate::rows::{message, numbered};
use mama_event::{MarketMsg, MsgKind, WireMsg, code_of, error_code};
use mama_link::Cuttable;
use mama_memory::{Duplicate, OutOfMemory};
use mama_packet::{Packet, Piece};
use mama_payload::{DecodeFault, EncodeFault};
use mama_publisher::{packed, packed_message, with_body};
use std::alloc::Global;
use std::test::Fail;

// The packet of the field below.
const BID: &[u8] = &[1, 1, 9, 0, 22, 3, b'b', b'i', b'd', 0, 0, 0, 101];

const FIELD: &str = "22:bid:u32:101";

fn copied<T: Duplicate>(value: &T) -> Result<T, OutOfMemory> {
    value.try_clone()
}

// What goes to another thread.
fn sent<T: Send>(value: T) -> T {
    value
}

// Whether a packet has the bytes of the field, and its piece too, and both are read as it.
fn is_bid(alloc: Global, packet: Packet) -> Result<bool, Fail> {
    let msg = message(alloc, FIELD)?;
    let again = packet.unpack()? == msg && copied(&packet)? == packet && packet.bytes() == BID;
    let piece = sent(packet).into_piece();
    Ok(again && piece == Piece::of_bytes(alloc, BID)? && piece.unpack()? == msg)
}

// Whether a piece of the field's bytes that is cut has so many of them, and is read so, while a copy keeps all.
fn is_cut(alloc: Global, keep: u32, len: usize, fault: Option<DecodeFault>) -> Result<bool, Fail> {
    let whole = sent(Piece::of_bytes(alloc, BID)?);
    let mut piece = copied(&whole)?;
    piece.cut(keep);
    let front = piece.bytes().len() == len && BID.starts_with(piece.bytes());
    Ok(front && piece.unpack().err() == fault && whole.bytes() == BID)
}

#[test]
fn packets_are_packed_cut_and_read(rt: HostRuntime) -> Result<(), Fail> {
    let alloc = rt.alloc();
    assert!(rt; is_bid(alloc, Packet::pack(alloc, &message(alloc, FIELD)?)?)?);
    assert!(rt; is_cut(alloc, 5, 5, Some(DecodeFault::Truncated { at: 5 }))?);
    assert!(rt; is_cut(alloc, 0, 0, Some(DecodeFault::Truncated { at: 0 }))?);
    assert!(rt; is_cut(alloc, 12, 12, Some(DecodeFault::Truncated { at: 12 }))?);
    assert!(rt; is_cut(alloc, 13, 13, None)?);
    assert!(rt; is_cut(alloc, u32::MAX, 13, None)?);
    let longer = Packet::pack(alloc, &flags(alloc, 65)?);
    assert_eq!(rt; longer.err(), Some(EncodeFault::TooMany));
    Ok(())
}

fn market(alloc: Global) -> Result<MarketMsg, Fail> {
    Ok(MarketMsg {
        kind: MsgKind::Recap,
        sender: 7,
        seq: 9,
        body: message(alloc, FIELD)?,
    })
}

// Whether a packed message has the bytes of the field and is read as this, and its copy, its piece and the piece's copy too.
fn is_packed(wire: WireMsg, msg: &MarketMsg) -> Result<bool, Fail> {
    let packet = wire.body.bytes() == BID && copied(&wire)? == wire && wire.into_market()? == *msg;
    let piece = sent(wire).into_piece();
    let bytes = piece.body.bytes() == BID && copied(&piece)? == piece;
    Ok(packet && bytes && piece.into_market()? == *msg)
}

// Whether a message that is cut has its head and this front, and is read as its fault.
fn is_cut_short(wire: WireMsg, keep: u32, front: &[u8]) -> bool {
    let mut piece = wire.into_piece();
    piece.cut(keep);
    let head = piece.kind == MsgKind::Recap && piece.sender == 7 && piece.seq == 9;
    let fault = DecodeFault::Truncated { at: front.len() };
    head && piece.body.bytes() == front && piece.into_market().err() == Some(fault)
}

#[test]
fn messages_are_packed_to_travel(rt: HostRuntime) -> Result<(), Fail> {
    let alloc = rt.alloc();
    let msg = market(alloc)?;
    assert!(rt; is_packed(WireMsg::of(alloc, &msg)?, &msg)?);
    assert!(rt; is_packed(packed_message(alloc, &msg)?, &msg)?);
    assert!(rt; is_packed(with_body(&msg, packed(alloc, &msg.body)?), &msg)?);
    assert!(rt; is_cut_short(WireMsg::of(alloc, &msg)?, 5, &[1, 1, 9, 0, 22]));
    Ok(())
}

#[test]
fn a_message_of_65_fields_is_not_packed(rt: HostRuntime) -> Result<(), Fail> {
    let alloc = rt.alloc();
    let mut msg = market(alloc)?;
    msg.body = flags(alloc, 64)?;
    assert!(rt; WireMsg::of(alloc, &msg)?.into_market()? == msg);
    msg.body = flags(alloc, 65)?;
    assert_eq!(rt; WireMsg::of(alloc, &msg).err(), Some(EncodeFault::TooMany));
    assert!(rt; packed_message(alloc, &msg).is_err());
    assert!(rt; packed(alloc, &msg.body).is_err());
    Ok(())
}

// The code of the first fault in some bytes, and 0 where they spell a message.
const CODES: &str = "0 0100
0 01010900160362696400000065
1
1 01
1 010109001603626964000000
2 0300
3 01010100070121
4 01020100000270780101000002707802
5 0141
6 010000
7 0200";

fn has_code(alloc: Global, code: u32, hex: &str) -> Result<bool, Fail> {
    let piece = Piece::of_bytes(alloc, &bytes_of(alloc, hex)?)?;
    let told = match piece.unpack() {
        Ok(_) => 0,
        Err(fault) => error_code(fault),
    };
    Ok(u32::from(told) == code && u32::from(code_of(&piece)?) == code)
}

#[test]
fn each_fault_has_its_code(rt: HostRuntime) -> Result<(), Fail> {
    for row in CODES.lines() {
        let (code, hex) = numbered(row);
        assert!(rt; has_code(rt.alloc(), code, hex)?, "{row}");
    }
    assert_eq!(rt; error_code(DecodeFault::OutOfMemory), 0);
    Ok(())
}
