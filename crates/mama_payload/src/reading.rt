//! The parts of a field, each from the front of the bytes.
ghost use Rattle.std.specs.Prelude.{◌≡◌, ◌≤◌, length, take, IfOk};
ghost use Rattle.std.specs.Int.{w8, w16, w32, w64};
ghost use Rattle.mama_msg.specs.Name.{IsNameText};
ghost use Rattle.mama_msg.specs.Field.{IsKeyed};
ghost use Rattle.mama_payload.specs.Giving.{Gives};
ghost use Rattle.mama_payload.specs.Reading.{byte_at, limited_at, number_at, signed_at, bytes_at, flag_at, text_at, block_at, price_at, numbers_at, list_at, value_at, kind_in, kind_at, name_at};

use crate::fault::{Rule, Stop};
use crate::kind::Kind;
use crate::letters::{Alphabet, letters_of};
use crate::version::Version;
use mama_msg::{BytesValue, NumbersValue, Price, TextValue, Value};
use std::alloc::Global;

/// The longest name.
const MAX_NAME: u8 = 32;

/// The longest list of numbers.
const MAX_NUMBERS: u8 = 24;

/// A byte, and the bytes after it.
pub fn byte_of(bytes: &[u8]) -> Result<(u8, &[u8]), Stop>
    ensures { Gives (λ x. (x.0, x.1.now)) result (byte_at bytes.now) }
{
    match bytes {
        [] => Err(Stop::at_end()),
        [byte, rest @ ..] => Ok((*byte, rest)),
    }
}

/// A byte that is at most `limit`.
pub fn limited_of(limit: u8, bytes: &[u8]) -> Result<(u8, &[u8]), Stop>
    ensures gives { Gives (λ x. (x.0, x.1.now)) result (limited_at limit bytes.now) }
    ensures within { IfOk result (λ x. x.0 ≤ limit) }
{
    let (n, rest) = byte_of(bytes)?;
    if n > limit {
        return Err(Stop::at(Rule::TooMany, bytes));
    }
    Ok((n, rest))
}

pub fn u16_of(bytes: &[u8]) -> Result<(u16, &[u8]), Stop>
    ensures { Gives (λ x. (x.0, x.1.now)) result (number_at w16 bytes.now) }
{
    if bytes.len() < 2 {
        return Err(Stop::at_end());
    }
    let (front, rest) = bytes.split_at(2);
    let number = u16::from_be_bytes([front[0], front[1]]);
    Ok((number, rest))
}

fn u32_of(bytes: &[u8]) -> Result<(u32, &[u8]), Stop>
    ensures { Gives (λ x. (x.0, x.1.now)) result (number_at w32 bytes.now) }
{
    if bytes.len() < 4 {
        return Err(Stop::at_end());
    }
    let (front, rest) = bytes.split_at(4);
    let number = u32::from_be_bytes([front[0], front[1], front[2], front[3]]);
    Ok((number, rest))
}

fn u64_of(bytes: &[u8]) -> Result<(u64, &[u8]), Stop>
    ensures { Gives (λ x. (x.0, x.1.now)) result (number_at w64 bytes.now) }
{
    if bytes.len() < 8 {
        return Err(Stop::at_end());
    }
    let (front, rest) = bytes.split_at(8);
    let number = u64::from_be_bytes([
        front[0], front[1], front[2], front[3], front[4], front[5], front[6], front[7],
    ]);
    Ok((number, rest))
}

fn i8_of(bytes: &[u8]) -> Result<(i8, &[u8]), Stop>
    ensures { Gives (λ x. (x.0, x.1.now)) result (signed_at w8 bytes.now) }
{
    let (number, rest) = byte_of(bytes)?;
    Ok((number.cast_signed(), rest))
}

fn i16_of(bytes: &[u8]) -> Result<(i16, &[u8]), Stop>
    ensures { Gives (λ x. (x.0, x.1.now)) result (signed_at w16 bytes.now) }
{
    let (number, rest) = u16_of(bytes)?;
    Ok((number.cast_signed(), rest))
}

fn i32_of(bytes: &[u8]) -> Result<(i32, &[u8]), Stop>
    ensures { Gives (λ x. (x.0, x.1.now)) result (signed_at w32 bytes.now) }
{
    let (number, rest) = u32_of(bytes)?;
    Ok((number.cast_signed(), rest))
}

fn i64_of(bytes: &[u8]) -> Result<(i64, &[u8]), Stop>
    ensures { Gives (λ x. (x.0, x.1.now)) result (signed_at w64 bytes.now) }
{
    let (number, rest) = u64_of(bytes)?;
    Ok((number.cast_signed(), rest))
}

fn bool_of(bytes: &[u8]) -> Result<(bool, &[u8]), Stop>
    ensures { Gives (λ x. (x.0, x.1.now)) result (flag_at bytes.now) }
{
    match bytes {
        [] => Err(Stop::at_end()),
        [0, rest @ ..] => Ok((false, rest)),
        [1, rest @ ..] => Ok((true, rest)),
        [_, ..] => Err(Stop::at(Rule::BadTag, bytes)),
    }
}

/// As many bytes as `count` says, and the bytes after them.
fn bytes_of(count: u8, bytes: &[u8]) -> Result<(&[u8], &[u8]), Stop>
    ensures gives { Gives (λ x. (x.0.now, x.1.now)) result (bytes_at count bytes.now) }
    ensures length { IfOk result (λ x. length x.0.now ≡ count) }
{
    let count = usize::from(count);
    if bytes.len() < count {
        return Err(Stop::at_end());
    }
    Ok(bytes.split_at(count))
}

#[tactic(auto, unfolding(crate::specs::Reading::text_at))]
fn text_of(alloc: Global, bytes: &[u8]) -> Result<(TextValue, &[u8]), Stop>
    ensures { Gives (λ x. (x.0, x.1.now)) result (text_at bytes.now) }
{
    let (count, rest) = byte_of(bytes)?;
    let (letters, rest) = letters_of(Alphabet::Text, count, rest)?;
    match TextValue::new(alloc, letters)? {
        Some(text) => Ok((text, rest)),
        None => unreachable!(),
    }
}

#[tactic(auto, unfolding(crate::specs::Reading::block_at))]
fn block_of(alloc: Global, bytes: &[u8]) -> Result<(BytesValue, &[u8]), Stop>
    ensures { Gives (λ x. (x.0, x.1.now)) result (block_at bytes.now) }
{
    let (count, rest) = byte_of(bytes)?;
    let (block, rest) = bytes_of(count, rest)?;
    match BytesValue::new(alloc, block)? {
        Some(block) => Ok((block, rest)),
        None => unreachable!(),
    }
}

#[tactic(auto, unfolding(crate::specs::Reading::price_at))]
fn price_of(bytes: &[u8]) -> Result<(Price, &[u8]), Stop>
    ensures { Gives (λ x. (x.0, x.1.now)) result (price_at bytes.now) }
{
    let (mantissa, rest) = i64_of(bytes)?;
    let (decimals, rest) = limited_of(Price::MAX_DECIMALS, rest)?;
    match Price::new(mantissa, decimals) {
        Some(price) => Ok((price, rest)),
        None => unreachable!(),
    }
}

/// As many numbers as `count` says, in front of an array, and the bytes after them.
fn numbers_of(count: u8, bytes: &[u8]) -> Result<([i64; NumbersValue::MAX_LEN], &[u8]), Stop>
    requires { count ≤ 24 }
    ensures { Gives (λ x. (take count x.0, x.1.now)) result (numbers_at count bytes.now) }
{
    let mut numbers = [0; NumbersValue::MAX_LEN];
    let mut rest = bytes;
    for i in 0..usize::from(count) {
        match i64_of(rest) {
            Ok((number, after)) => {
                numbers[i] = number;
                rest = after;
            }
            Err(stop) => return Err(stop),
        }
    }
    Ok((numbers, rest))
}

#[tactic(auto, unfolding(crate::specs::Reading::list_at))]
fn list_of(alloc: Global, bytes: &[u8]) -> Result<(NumbersValue, &[u8]), Stop>
    ensures { Gives (λ x. (x.0, x.1.now)) result (list_at bytes.now) }
{
    let (count, rest) = limited_of(MAX_NUMBERS, bytes)?;
    let (numbers, rest) = numbers_of(count, rest)?;
    match NumbersValue::new(alloc, &numbers[..usize::from(count)])? {
        Some(list) => Ok((list, rest)),
        None => unreachable!(),
    }
}

/// A value of this kind.
#[tactic(auto, unfolding(crate::specs::Reading::value_at))]
pub fn value_of(alloc: Global, kind: Kind, bytes: &[u8]) -> Result<(Value, &[u8]), Stop>
    ensures { Gives (λ x. (x.0, x.1.now)) result (value_at kind bytes.now) }
{
    match kind {
        Kind::Bool => {
            let (flag, rest) = bool_of(bytes)?;
            Ok((Value::Bool(flag), rest))
        }
        Kind::Char => {
            let (byte, rest) = byte_of(bytes)?;
            Ok((Value::Char(byte), rest))
        }
        Kind::I8 => {
            let (n, rest) = i8_of(bytes)?;
            Ok((Value::I8(n), rest))
        }
        Kind::I16 => {
            let (n, rest) = i16_of(bytes)?;
            Ok((Value::I16(n), rest))
        }
        Kind::I32 => {
            let (n, rest) = i32_of(bytes)?;
            Ok((Value::I32(n), rest))
        }
        Kind::I64 => {
            let (n, rest) = i64_of(bytes)?;
            Ok((Value::I64(n), rest))
        }
        Kind::U8 => {
            let (n, rest) = byte_of(bytes)?;
            Ok((Value::U8(n), rest))
        }
        Kind::U16 => {
            let (n, rest) = u16_of(bytes)?;
            Ok((Value::U16(n), rest))
        }
        Kind::U32 => {
            let (n, rest) = u32_of(bytes)?;
            Ok((Value::U32(n), rest))
        }
        Kind::U64 => {
            let (n, rest) = u64_of(bytes)?;
            Ok((Value::U64(n), rest))
        }
        Kind::Text => match text_of(alloc, bytes) {
            Ok((text, rest)) => Ok((Value::Text(text), rest)),
            Err(stop) => Err(stop),
        },
        Kind::Bytes => match block_of(alloc, bytes) {
            Ok((block, rest)) => Ok((Value::Bytes(block), rest)),
            Err(stop) => Err(stop),
        },
        Kind::Price => match price_of(bytes) {
            Ok((price, rest)) => Ok((Value::Price(price), rest)),
            Err(stop) => Err(stop),
        },
        Kind::Moment => {
            let (n, rest) = u64_of(bytes)?;
            Ok((Value::Moment(n), rest))
        }
        Kind::Numbers => match list_of(alloc, bytes) {
            Ok((list, rest)) => Ok((Value::Numbers(list), rest)),
            Err(stop) => Err(stop),
        },
    }
}

/// The kind of a version whose tag stands at the front.
#[tactic(auto, unfolding(crate::specs::Reading::kind_at))]
pub fn kind_of(version: Version, bytes: &[u8]) -> Result<(Kind, &[u8]), Stop>
    ensures { Gives (λ x. (x.0, x.1.now)) result (kind_at version bytes.now) }
{
    let (tag, rest) = byte_of(bytes)?;
    match Kind::in_version(version, tag) {
        Some(kind) => Ok((kind, rest)),
        None => Err(Stop::at(Rule::BadTag, bytes)),
    }
}

/// The text of the name of a field with this fid.
#[tactic(auto, unfolding(crate::specs::Reading::name_at))]
pub fn name_of(fid: u16, bytes: &[u8]) -> Result<(&[u8], &[u8]), Stop>
    ensures gives { Gives (λ x. (x.0.now, x.1.now)) result (name_at fid bytes.now) }
    ensures text { IfOk result (λ x. IsNameText x.0.now) }
    ensures keyed { IfOk result (λ x. IsKeyed fid x.0.now) }
{
    let (count, rest) = limited_of(MAX_NAME, bytes)?;
    if count == 0 && fid == 0 {
        return Err(Stop::at(Rule::BadText, bytes));
    }
    letters_of(Alphabet::Name, count, rest)
}
