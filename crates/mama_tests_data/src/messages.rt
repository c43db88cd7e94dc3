use crate::rows::{has_fields, message};
use mama_memory::OutOfMemory;
use mama_msg::{
    AddFault, BytesValue, Duplicate, Field, GetFault, Msg, Name, NumbersValue, Price, TextValue,
    Value,
};
use std::alloc::Global;
use std::test::Fail;

// What an update makes of a record.
const APPLIED: &str = "1:a:i16:127 2:b:i16:128 + 2:b:u8:1 = 1:a:i16:127 2:b:u8:1
1:a:u8:1 + 2:b:u8:2 1:a:u8:3 = 1:a:u8:3 2:b:u8:2
1:a:u8:1 + 1:z:u8:2 = 1:z:u8:2
0:a:u8:1 0:b:u8:2 + 0:b:u8:3 7:a:u8:4 = 0:a:u8:1 0:b:u8:3 7:a:u8:4
 + 1:a:u8:1 = 1:a:u8:1
1:a:u8:1 +  = 1:a:u8:1";

#[test]
fn updates_are_applied(rt: HostRuntime) -> Result<(), Fail> {
    for row in APPLIED.lines() {
        let (record, rest) = row.split_once(" + ").unwrap_or((row, ""));
        let (update, want) = rest.split_once(" = ").unwrap_or((rest, ""));
        let mut msg = message(rt.alloc(), record)?;
        let update = message(rt.alloc(), update)?;
        let len = msg.len_after(&update);
        msg.apply(&update)?;
        assert!(rt; has_fields(rt.alloc(), &msg, want)?, "{row}");
        assert_eq!(rt; msg.len(), len, "{row}");
    }
    Ok(())
}

fn name(text: &[u8]) -> Result<Name, Fail> {
    Ok(Name::new(text).ok_or("a name")?)
}

fn field(fid: u16, text: &[u8], value: Value) -> Result<Field, Fail> {
    Ok(Field::new(fid, name(text)?, value).ok_or("a field")?)
}

fn copied<T: Duplicate>(value: &T) -> Result<T, OutOfMemory> {
    value.try_clone()
}

// Whether a field is given back as one with a key that is there, and the message stays as it was.
fn gives_back(msg: &mut Msg, field: Field, again: &Field) -> Result<bool, OutOfMemory> {
    let before = copied(msg)?;
    match msg.add(field) {
        Err(AddFault::Present(back)) => Ok(back == *again && *msg == before),
        _ => Ok(false),
    }
}

#[test]
fn a_key_is_there_once(rt: HostRuntime) -> Result<(), Fail> {
    let mut msg = message(rt.alloc(), "1:a:i16:127 3:c:text:\"x\"")?;
    msg.add(field(2, b"b", Value::I16(128))?)?;
    let other = field(1, b"other", Value::U8(9))?;
    let again = field(1, b"other", Value::U8(9))?;
    assert!(rt; gives_back(&mut msg, other, &again)?);
    assert!(rt; has_fields(rt.alloc(), &msg, "1:a:i16:127 3:c:text:\"x\" 2:b:i16:128")?);
    Ok(())
}

#[test]
fn a_field_is_found_by_its_name(rt: HostRuntime) -> Result<(), Fail> {
    let msg = message(rt.alloc(), "1:a:i16:127 2:b:i16:128")?;
    assert_eq!(rt; msg.find(&name(b"b")?, 0).map(Field::fid), Some(2));
    assert!(rt; msg.find(&name(b"c")?, 0).is_none());
    Ok(())
}

#[test]
fn names_at_their_limits(rt: HostRuntime) {
    assert!(rt; Name::new(b"").is_some());
    assert!(rt; Name::new(&[b'n'; 32]).is_some());
    assert!(rt; Name::new(&[b'n'; 33]).is_none());
    for byte in b"09AZ_az" {
        assert!(rt; Name::new(&[b'n', *byte]).is_some());
    }
    for byte in b"\x00 -/:@[^`{\x80\xff" {
        assert!(rt; Name::new(&[b'n', *byte]).is_none());
    }
}

#[test]
fn texts_at_their_limits(rt: HostRuntime) -> Result<(), Fail> {
    let alloc = rt.alloc();
    assert!(rt; TextValue::new(alloc, &[b't'; 255])?.is_some());
    assert!(rt; TextValue::new(alloc, &[b't'; 256])?.is_none());
    for (byte, is_text) in [(0x1f, false), (0x20, true), (0x7e, true), (0x7f, false)] {
        assert_eq!(rt; TextValue::new(alloc, &[b't', byte])?.is_some(), is_text);
    }
    Ok(())
}

#[test]
fn bytes_and_prices_at_their_limits(rt: HostRuntime) -> Result<(), Fail> {
    let alloc = rt.alloc();
    assert!(rt; BytesValue::new(alloc, &[0xff; 255])?.is_some());
    assert!(rt; BytesValue::new(alloc, &[0xff; 256])?.is_none());
    assert!(rt; Price::new(-1250, 18).is_some());
    assert!(rt; Price::new(-1250, 19).is_none());
    Ok(())
}

#[test]
fn numbers_at_their_limits(rt: HostRuntime) -> Result<(), Fail> {
    let alloc = rt.alloc();
    let most = NumbersValue::new(alloc, &[-1; 24])?.ok_or("a list of numbers")?;
    assert!(rt; most.numbers() == [-1; 24].as_slice());
    assert!(rt; most.try_clone()? == most);
    assert!(rt; NumbersValue::new(alloc, &[-1; 23])?.is_some_and(|fewer| fewer != most));
    assert!(rt; NumbersValue::new(alloc, &[])?.is_some());
    assert!(rt; NumbersValue::new(alloc, &[-1; 25])?.is_none());
    Ok(())
}

#[test]
fn a_field_has_a_fid_or_a_name(rt: HostRuntime) -> Result<(), Fail> {
    assert!(rt; Field::new(0, Name::default(), Value::U8(1)).is_none());
    assert!(rt; Field::new(0, name(b"n")?, Value::U8(1)).is_some());
    assert!(rt; Field::new(1, Name::default(), Value::U8(1)).is_some());
    Ok(())
}

// What a getter answers in a letter: `y` for the number that is wanted, `r` for one out of its range, `t` for a wrong
// type and `n` for no field.
fn letter(found: Result<i128, GetFault>, number: i128) -> char {
    match found {
        Ok(n) => if n == number { 'y' } else { '?' },
        Err(GetFault::OutOfRange) => 'r',
        Err(GetFault::WrongType) => 't',
        Err(GetFault::NotFound) => 'n',
    }
}

// What the getters of signed numbers answer of field 7.
fn signed(msg: &Msg, number: i128) -> [char; 4] {
    let none = Name::default();
    [
        letter(msg.get_i8(&none, 7).map(|n| n as i128), number),
        letter(msg.get_i16(&none, 7).map(|n| n as i128), number),
        letter(msg.get_i32(&none, 7).map(|n| n as i128), number),
        letter(msg.get_i64(&none, 7).map(|n| n as i128), number),
    ]
}

// What the getters of unsigned numbers answer of field 7.
fn unsigned(msg: &Msg, number: i128) -> [char; 4] {
    let none = Name::default();
    [
        letter(msg.get_u8(&none, 7).map(|n| n as i128), number),
        letter(msg.get_u16(&none, 7).map(|n| n as i128), number),
        letter(msg.get_u32(&none, 7).map(|n| n as i128), number),
        letter(msg.get_u64(&none, 7).map(|n| n as i128), number),
    ]
}

fn letters(alloc: Global, all: &[char]) -> Result<String, Fail> {
    let mut text = String::new(alloc);
    for one in all {
        text.push(*one)?;
    }
    Ok(text)
}

// What the getters of i8, i16, i32 and i64, and those of u8, u16, u32 and u64 answer of a number, which stands in a field
// of each type that holds it.
const NUMBERS: &str = "-9223372036854775808 rrry rrrr
-2147483649 rrry rrrr
-2147483648 rryy rrrr
-32769 rryy rrrr
-32768 ryyy rrrr
-129 ryyy rrrr
-128 yyyy rrrr
-1 yyyy rrrr
0 yyyy yyyy
127 yyyy yyyy
128 ryyy yyyy
255 ryyy yyyy
256 ryyy ryyy
32767 ryyy ryyy
32768 rryy ryyy
65535 rryy ryyy
65536 rryy rryy
2147483647 rryy rryy
2147483648 rrry rryy
4294967295 rrry rryy
4294967296 rrry rrry
9223372036854775807 rrry rrry
9223372036854775808 rrrr rrry
18446744073709551615 rrrr rrry";

const SIGNED: &str = "i8 i16 i32 i64";

const UNSIGNED: &str = "u8 u16 u32 u64";

// Whether the getters answer so of a number in each of these types that, by its letter, holds it.
fn reads(
    alloc: Global,
    word: &str,
    types: &str,
    holds: &str,
    want: (&str, &str),
) -> Result<bool, Fail> {
    let number = word.parse::<i128>().unwrap_or(0);
    for (kind, holds) in types.split(' ').zip(holds.chars()) {
        if holds == 'y' {
            let msg = message(alloc, format!(in alloc; "7:n:{kind}:{word}")?.as_str())?;
            let small = letters(alloc, &signed(&msg, number))?;
            let large = letters(alloc, &unsigned(&msg, number))?;
            if small.as_str() != want.0 || large.as_str() != want.1 {
                return Ok(false);
            }
        }
    }
    Ok(true)
}

#[test]
fn numbers_at_the_ends_of_the_types(rt: HostRuntime) -> Result<(), Fail> {
    for row in NUMBERS.lines() {
        let (word, rest) = row.split_once(' ').unwrap_or((row, ""));
        let want = rest.split_once(' ').unwrap_or((rest, ""));
        assert!(rt; reads(rt.alloc(), word, SIGNED, want.0, want)?, "{row}");
        assert!(rt; reads(rt.alloc(), word, UNSIGNED, want.1, want)?, "{row}");
    }
    Ok(())
}

// Which of the getters of a number, truth, text, price and a list of numbers do not answer that the type of field 7 is
// wrong.
fn readers(msg: &Msg) -> [char; 5] {
    let none = Name::default();
    let known = |is_wrong: bool| -> char { if is_wrong { 't' } else { 'y' } };
    [
        known(msg.get_u64(&none, 7) == Err(GetFault::WrongType)),
        known(msg.get_bool(&none, 7) == Err(GetFault::WrongType)),
        known(msg.get_text(&none, 7) == Err(GetFault::WrongType)),
        known(msg.get_price(&none, 7) == Err(GetFault::WrongType)),
        known(msg.get_numbers(&none, 7) == Err(GetFault::WrongType)),
    ]
}

const TYPES: &str = "ytttt 7:n:u8:1
ytttt 7:n:i64:1
tyttt 7:n:bool:true
ttttt 7:n:char:1
ttytt 7:n:text:\"1\"
ttttt 7:n:bytes:x00ff
tttyt 7:n:price:-1250/2
ttttt 7:n:moment:1
tttty 7:n:nums:[1]
yyyyy 8:n:u8:1";

#[test]
fn each_type_has_its_getter(rt: HostRuntime) -> Result<(), Fail> {
    for row in TYPES.lines() {
        let (want, text) = row.split_once(' ').unwrap_or((row, ""));
        let msg = message(rt.alloc(), text)?;
        assert_eq!(rt;
            letters(rt.alloc(), &readers(&msg))?.as_str(),
            want,
            "{row}"
        );
    }
    Ok(())
}

#[test]
fn getters_give_what_the_field_has(rt: HostRuntime) -> Result<(), Fail> {
    let none = Name::default();
    let msg = message(
        rt.alloc(),
        "1::bool:true 3::text:\"1\" 5::price:-1250/2 7::nums:[1,-2]",
    )?;
    assert_eq!(rt; msg.get_bool(&none, 1), Ok(true));
    assert!(rt; msg.get_text(&none, 3) == Ok(b"1".as_slice()));
    assert_eq!(rt;
        msg.get_price(&none, 5),
        Ok(Price::new(-1250, 2).ok_or("a price")?)
    );
    assert_eq!(rt; msg.get_price(&none, 2), Err(GetFault::NotFound));
    assert!(rt; msg.get_numbers(&none, 7) == Ok([1, -2].as_slice()));
    assert!(rt; msg.get_numbers(&none, 9) == Err(GetFault::NotFound));
    assert_eq!(rt; msg.get_i64(&none, 7), Err(GetFault::WrongType));
    Ok(())
}

#[test]
fn faults_in_words(rt: HostRuntime) -> Result<(), Fail> {
    let present = AddFault::Present(field(1, b"", Value::U8(1))?);
    let words = format!(in rt.alloc(); "{}, {present}", GetFault::NotFound)?;
    assert_eq!(rt;
        words.as_str(),
        "there is no such field, the message has a field with this key"
    );
    Ok(())
}
