ghost use Rattle.std.specs.Prelude.{◌≡◌, ◌^◌, ◌++◌, length, take, Some, IfOk, OnOk, OnErr};
ghost use Rattle.std.specs.Option.{option_map, option_and_then};
ghost use Rattle.mama_words.specs.Reading.{or_fault};
ghost use Rattle.mama_words.specs.Answer.{Gives};
ghost use Rattle.mama_words.specs.Parting as parts;
ghost use Rattle.mama_words.specs.Number as numbers;
ghost use Rattle.mama_words.specs.Value as values;

use crate::appending::all_or_nothing;
use crate::error::ReadError;
use crate::number::{read_below, read_int, read_number};
use crate::number_list::{put_numbers, read_numbers};
use crate::parting::cut_at;
use crate::quote::read_quoted_word;
use crate::value_type::ValueType;
use mama_edge::{print_i64, print_quoted, print_u64};
use mama_memory::OutOfMemory;
use mama_msg::{BytesValue, Price, TextValue, Value};
use std::alloc::Global;

fn read_bool(text: &[u8]) -> Option<bool>
    ensures { result ≡ values.bool_in text.now }
{
    if text == b"true".as_slice() {
        Some(true)
    } else if text == b"false".as_slice() {
        Some(false)
    } else {
        None
    }
}

fn read_u8(text: &[u8]) -> Option<u8>
    ensures { result ≡ numbers.below_in (2 ^ 8) text.now }
{
    let number = read_below(1 << 8, text)?;
    Some(number as u8)
}

fn read_u16(text: &[u8]) -> Option<u16>
    ensures { result ≡ numbers.below_in (2 ^ 16) text.now }
{
    let number = read_below(1 << 16, text)?;
    Some(number as u16)
}

fn read_u32(text: &[u8]) -> Option<u32>
    ensures { result ≡ numbers.below_in (2 ^ 32) text.now }
{
    let number = read_below(1 << 32, text)?;
    Some(number as u32)
}

fn read_i8(text: &[u8]) -> Option<i8>
    ensures { result ≡ numbers.int_in (2 ^ 7) text.now }
{
    let number = read_int(text)?;
    i8::try_from(number).ok()
}

fn read_i16(text: &[u8]) -> Option<i16>
    ensures { result ≡ numbers.int_in (2 ^ 15) text.now }
{
    let number = read_int(text)?;
    i16::try_from(number).ok()
}

fn read_i32(text: &[u8]) -> Option<i32>
    ensures { result ≡ numbers.int_in (2 ^ 31) text.now }
{
    let number = read_int(text)?;
    i32::try_from(number).ok()
}

// A text as a value, or this fault where it is too long or not printable.
fn text_value(alloc: Global, fault: u8, text: &[u8]) -> Result<TextValue, ReadError>
    ensures { Gives (λ x. x) result (or_fault fault (values.if_text (Some text.now))) }
{
    match TextValue::new(alloc, text)? {
        None => Err(ReadError::Fault(fault)),
        Some(value) => Ok(value),
    }
}

/// The text of 0 to 255 characters that stands between quotes, where the whole word is such a text. Otherwise this fault.
pub fn read_text(alloc: Global, fault: u8, word: &[u8]) -> Result<TextValue, ReadError>
    ensures { Gives (λ x. x) result (or_fault fault (values.text_in word.now)) }
{
    let text = read_quoted_word(alloc, word)?.ok_or(ReadError::Fault(fault))?;
    text_value(alloc, fault, &text)
}

fn read_digit(digit: u8) -> Option<u8>
    ensures { result ≡ values.digit_in digit }
{
    if digit < b'0' {
        None
    } else if digit < b'9' + 1 {
        Some(digit - b'0')
    } else if digit < b'a' {
        None
    } else if digit < b'f' + 1 {
        Some(digit - b'a' + 10)
    } else {
        None
    }
}

fn read_hex_pair(high: u8, low: u8) -> Option<u8>
    ensures { result ≡ values.pair_in high low }
{
    let high = read_digit(high)?;
    let low = read_digit(low)?;
    Some(16 * high + low)
}

fn read_hex(alloc: Global, text: &[u8]) -> Result<Option<Vec<u8>>, OutOfMemory>
    ensures { IfOk result (λ read. option_map (λ v. v.items) read ≡ values.hex_in text.now) }
{
    let mut bytes = Vec::new(alloc);
    let mut rest = text;
    while let [high, low, after @ ..] = rest {
        match read_hex_pair(*high, *low) {
            None => return Ok(None),
            Some(byte) => {
                bytes.push(byte)?;
                rest = after;
            }
        }
    }
    if !rest.is_empty() {
        return Ok(None);
    }
    Ok(Some(bytes))
}

// Bytes as a value, or fault 7 where there are too many.
fn bytes_value(alloc: Global, bytes: &[u8]) -> Result<BytesValue, ReadError>
    ensures { Gives (λ x. x) result (or_fault 7 (values.if_short (Some bytes.now))) }
{
    match BytesValue::new(alloc, bytes)? {
        None => Err(ReadError::Fault(7)),
        Some(value) => Ok(value),
    }
}

#[tactic(auto, unfolding(crate::specs::Value::bytes_in))]
fn read_bytes(alloc: Global, word: &[u8]) -> Result<BytesValue, ReadError>
    ensures { Gives (λ x. x) result (or_fault 7 (values.bytes_in word.now)) }
{
    match word {
        [b'x', rest @ ..] => {
            let bytes = read_hex(alloc, rest)?.ok_or(ReadError::Fault(7))?;
            bytes_value(alloc, &bytes)
        }
        _ => Err(ReadError::Fault(7)),
    }
}

/// Bytes of any number, as `x` and a pair of lower-case hexadecimal digits for each.
#[tactic(auto, unfolding(crate::specs::Value::block_in))]
pub fn read_block(alloc: Global, word: &[u8]) -> Result<Vec<u8>, ReadError>
    ensures { Gives (λ v. v.items) result (or_fault 7 (values.block_in word.now)) }
{
    match word {
        [b'x', rest @ ..] => read_hex(alloc, rest)?.ok_or(ReadError::Fault(7)),
        _ => Err(ReadError::Fault(7)),
    }
}

fn read_price(text: &[u8]) -> Option<Price>
    ensures { result ≡ values.price_in text.now }
{
    let (before, after) = cut_at(b'/', text)?;
    let mantissa = read_int(before)?;
    let decimals = read_below(19, after)?;
    Price::new(mantissa, decimals as u8)
}

/// The value of this type that a text spells. Fault 7 where there is none.
#[tactic(auto, unfolding(crate::specs::Value::value_in))]
pub fn read_value(alloc: Global, kind: ValueType, text: &[u8]) -> Result<Value, ReadError>
    ensures { Gives (λ x. x) result (or_fault 7 (values.value_in kind text.now)) }
{
    match kind {
        ValueType::Bool => Ok(Value::Bool(read_bool(text).ok_or(ReadError::Fault(7))?)),
        ValueType::Char => Ok(Value::Char(read_u8(text).ok_or(ReadError::Fault(7))?)),
        ValueType::I8 => Ok(Value::I8(read_i8(text).ok_or(ReadError::Fault(7))?)),
        ValueType::I16 => Ok(Value::I16(read_i16(text).ok_or(ReadError::Fault(7))?)),
        ValueType::I32 => Ok(Value::I32(read_i32(text).ok_or(ReadError::Fault(7))?)),
        ValueType::I64 => Ok(Value::I64(read_int(text).ok_or(ReadError::Fault(7))?)),
        ValueType::U8 => Ok(Value::U8(read_u8(text).ok_or(ReadError::Fault(7))?)),
        ValueType::U16 => Ok(Value::U16(read_u16(text).ok_or(ReadError::Fault(7))?)),
        ValueType::U32 => Ok(Value::U32(read_u32(text).ok_or(ReadError::Fault(7))?)),
        ValueType::U64 => Ok(Value::U64(read_number(text).ok_or(ReadError::Fault(7))?)),
        ValueType::Text => Ok(Value::Text(read_text(alloc, 7, text)?)),
        ValueType::Bytes => Ok(Value::Bytes(read_bytes(alloc, text)?)),
        ValueType::Price => Ok(Value::Price(read_price(text).ok_or(ReadError::Fault(7))?)),
        ValueType::Moment => Ok(Value::Moment(read_number(text).ok_or(ReadError::Fault(7))?)),
        ValueType::Numbers => Ok(Value::Numbers(read_numbers(alloc, text)?)),
    }
}

/// The type of a value.
pub fn type_of(value: &Value) -> ValueType
    ensures { result ≡ values.type_of value.now }
{
    match value {
        Value::Bool(_) => ValueType::Bool,
        Value::Char(_) => ValueType::Char,
        Value::I8(_) => ValueType::I8,
        Value::I16(_) => ValueType::I16,
        Value::I32(_) => ValueType::I32,
        Value::I64(_) => ValueType::I64,
        Value::U8(_) => ValueType::U8,
        Value::U16(_) => ValueType::U16,
        Value::U32(_) => ValueType::U32,
        Value::U64(_) => ValueType::U64,
        Value::Text(_) => ValueType::Text,
        Value::Bytes(_) => ValueType::Bytes,
        Value::Price(_) => ValueType::Price,
        Value::Moment(_) => ValueType::Moment,
        Value::Numbers(_) => ValueType::Numbers,
    }
}

fn hex_digit(number: u8) -> u8
    requires { number < 16 }
    ensures { result ≡ digit_glyph false number }
{
    if number < 10 {
        b'0' + number
    } else {
        b'a' - 10 + number
    }
}

ghost use Rattle.std.specs.Prelude.{◌<◌, false};
ghost use Rattle.std.specs.Fmt.{digit_glyph};

fn put_hex(bytes: &[u8], out: &mut Vec<u8>) -> Result<(), OutOfMemory>
    ensures ok { OnOk result (out.new.items ≡ out.old.items ++ flat_map values.hex_pair bytes.now) }
    ensures err { OnErr result (take (length out.old.items) out.new.items ≡ out.old.items) }
{
    for byte in bytes {
        out.push(hex_digit(*byte / 16))?;
        out.push(hex_digit(*byte % 16))?;
    }
    Ok(())
}

ghost use Rattle.std.specs.List.{flat_map};

fn put_bool(value: bool, out: &mut Vec<u8>) -> Result<(), OutOfMemory>
    ensures ok { OnOk result (out.new.items ≡ out.old.items ++ values.bool_text value) }
    ensures err { OnErr result (take (length out.old.items) out.new.items ≡ out.old.items) }
{
    if value {
        out.extend_from_slice(b"true")?;
    } else {
        out.extend_from_slice(b"false")?;
    }
    Ok(())
}

fn put_block(bytes: &[u8], out: &mut Vec<u8>) -> Result<(), OutOfMemory>
    ensures ok { OnOk result (out.new.items ≡ out.old.items ++ values.bytes_text bytes.now) }
    ensures err { OnErr result (take (length out.old.items) out.new.items ≡ out.old.items) }
{
    out.push(b'x')?;
    put_hex(bytes, out)
}

/// Appends bytes of any number, as `x` and a pair of hexadecimal digits for each. Where no memory is found, nothing is appended.
pub fn print_block(bytes: &[u8], out: &mut Vec<u8>) -> Result<(), OutOfMemory>
    ensures ok { OnOk result (out.new.items ≡ out.old.items ++ values.bytes_text bytes.now) }
    ensures err { OnErr result (out.new.items ≡ out.old.items) }
{
    let start = out.len();
    let printed = put_block(bytes, out);
    all_or_nothing(printed, start, out)
}

fn put_bytes(value: &BytesValue, out: &mut Vec<u8>) -> Result<(), OutOfMemory>
    ensures ok { OnOk result (out.new.items ≡ out.old.items ++ values.bytes_text value.now) }
    ensures err { OnErr result (take (length out.old.items) out.new.items ≡ out.old.items) }
{
    put_block(value.bytes(), out)
}

fn put_price(value: &Price, out: &mut Vec<u8>) -> Result<(), OutOfMemory>
    ensures ok { OnOk result (out.new.items ≡ out.old.items ++ values.price_text value.now) }
    ensures err { OnErr result (take (length out.old.items) out.new.items ≡ out.old.items) }
{
    print_i64(value.mantissa(), out)?;
    out.push(b'/')?;
    print_u64(u64::from(value.decimals()), out)
}

// Appends the spelling of a value.
pub(crate) fn put_value(value: &Value, out: &mut Vec<u8>) -> Result<(), OutOfMemory>
    ensures ok { OnOk result (out.new.items ≡ out.old.items ++ values.value_text value.now) }
    ensures err { OnErr result (take (length out.old.items) out.new.items ≡ out.old.items) }
{
    match value {
        Value::Bool(b) => put_bool(*b, out),
        Value::Char(n) => print_u64(u64::from(*n), out),
        Value::I8(z) => print_i64(i64::from(*z), out),
        Value::I16(z) => print_i64(i64::from(*z), out),
        Value::I32(z) => print_i64(i64::from(*z), out),
        Value::I64(z) => print_i64(*z, out),
        Value::U8(n) => print_u64(u64::from(*n), out),
        Value::U16(n) => print_u64(u64::from(*n), out),
        Value::U32(n) => print_u64(u64::from(*n), out),
        Value::U64(n) => print_u64(*n, out),
        Value::Text(text) => print_quoted(text.bytes(), out),
        Value::Bytes(bytes) => put_bytes(bytes, out),
        Value::Price(price) => put_price(price, out),
        Value::Moment(n) => print_u64(*n, out),
        Value::Numbers(numbers) => put_numbers(numbers, out),
    }
}
