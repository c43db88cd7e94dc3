use crate::rows::has_fields;
use crate::vectors::{CASES, NUMBERS, ROWS};
use mama_msg::{Field, Msg, Name, Value};
use mama_payload::{DecodeFault, EncodeFault, decode, encode};
use std::alloc::{AllocError, Global};
use std::test::Fail;

fn digit(letter: u8) -> u8 {
    if letter < b'a' {
        letter.wrapping_sub(b'0')
    } else {
        letter.wrapping_sub(b'a' - 10)
    }
}

/// A byte of two hexadecimal digits at a time.
pub fn bytes_of(alloc: Global, hex: &str) -> Result<Vec<u8>, AllocError> {
    let mut bytes = Vec::new(alloc);
    for pair in hex.as_bytes().chunks(2) {
        let high = digit(pair[0]);
        let low = digit(*pair.last().unwrap_or(&b'0'));
        bytes.push(low.wrapping_add(high.wrapping_mul(16)))?;
    }
    Ok(bytes)
}

fn word_of(fault: DecodeFault) -> (&'static str, usize) {
    match fault {
        DecodeFault::Truncated { at } => ("Truncated", at),
        DecodeFault::BadTag { at } => ("BadTag", at),
        DecodeFault::BadText { at } => ("BadText", at),
        DecodeFault::Repeated { at } => ("Repeated", at),
        DecodeFault::TooMany { at } => ("TooMany", at),
        DecodeFault::OldForm { at } => ("OldForm", at),
        DecodeFault::Trailing { at } => ("Trailing", at),
        DecodeFault::OutOfMemory => ("memory", 0),
    }
}

// Whether bytes are refused with this fault at this place.
fn is_refused(alloc: Global, hex: &str, fault: &str) -> Result<bool, Fail> {
    let (word, place) = fault.split_once(' ').unwrap_or((fault, ""));
    let place = place.parse::<usize>().unwrap_or(usize::MAX);
    let bytes = bytes_of(alloc, hex)?;
    match decode(alloc, &bytes) {
        Ok(_) => Ok(false),
        Err(fault) => Ok(word_of(fault) == (word, place)),
    }
}

// Whether bytes are read as these fields, which are written so.
fn is_read(alloc: Global, hex: &str, text: &str) -> Result<bool, Fail> {
    let bytes = bytes_of(alloc, hex)?;
    let msg = decode(alloc, &bytes)?;
    Ok(has_fields(alloc, &msg, text)? && encode(alloc, &msg)? == bytes)
}

fn is_so(alloc: Global, row: &str) -> Result<bool, Fail> {
    match row.split_once(" = ") {
        Some((hex, text)) => is_read(alloc, hex, text),
        None => {
            let (hex, fault) = row.split_once(" ! ").ok_or("no fault")?;
            is_refused(alloc, hex, fault)
        }
    }
}

#[test]
fn payloads_are_read_and_written(rt: HostRuntime) -> Result<(), Fail> {
    for (rows, count) in [(ROWS, 80), (CASES, 399), (NUMBERS, 28)] {
        for row in rows.lines() {
            assert!(rt; is_so(rt.alloc(), row)?, "{row}");
        }
        assert_eq!(rt; rows.lines().count(), count);
    }
    Ok(())
}

// A message of so many flags, with the fids from 1 on.
pub fn flags(alloc: Global, count: u16) -> Result<Msg, Fail> {
    let mut msg = Msg::new(alloc);
    for before in 0..count {
        let fid = before.saturating_add(1);
        msg.update(Field::new(fid, Name::default(), Value::Bool(true)).ok_or("a field")?)?;
    }
    Ok(msg)
}

#[test]
fn sixty_four_fields_are_written_and_no_more(rt: HostRuntime) -> Result<(), Fail> {
    let longest = flags(rt.alloc(), 64)?;
    assert_eq!(rt; longest.len(), 64);
    let bytes = encode(rt.alloc(), &longest)?;
    assert_eq!(rt; bytes.len(), 2 + 64 * 5);
    assert!(rt; decode(rt.alloc(), &bytes)? == longest);
    let longer = flags(rt.alloc(), 65)?;
    assert_eq!(rt; longer.len(), 65);
    assert_eq!(rt;
        encode(rt.alloc(), &longer).err(),
        Some(EncodeFault::TooMany)
    );
    Ok(())
}
