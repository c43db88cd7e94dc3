//! Messages as bytes.
ghost use Rattle.std.specs.Prelude.{◌≡◌, ◌↔◌, ◌<◌, ◌≤◌, ◌∷◌, [], ◌++◌, length, IfOk, OnOk, Err};
ghost use Rattle.mama_payload.specs.Spelling.{counted, listed, value_bytes, field_bytes, spelling};
ghost use Rattle.mama_payload.specs.Spelled.{AreNumbers, IsInRange, IsField, HasSpelling};

use crate::fault::EncodeFault;
use crate::kind::Kind;
use crate::version::Version;
use mama_memory::OutOfMemory;
use mama_msg::{Field, Msg, Value};
use std::alloc::Global;

/// The most fields that a payload has.
pub const MAX_FIELDS: u8 = 64;

// Bytes that most fields need. Longer ones let the list grow.
const FIELD_ROOM: usize = 20;

/// Puts bytes behind their number.
fn put_counted(out: &mut Vec<u8>, bytes: &[u8]) -> Result<(), OutOfMemory>
    requires { length bytes.now ≤ 255 }
    ensures { OnOk result (out.new.items ≡ out.old.items ++ counted bytes.now) }
{
    out.push(bytes.len() as u8)?;
    out.extend_from_slice(bytes)?;
    Ok(())
}

/// Puts numbers behind their number.
fn put_numbers(out: &mut Vec<u8>, numbers: &[i64]) -> Result<(), OutOfMemory>
    requires { length numbers.now ≤ 24 }
    ensures bytes { OnOk result (out.new.items ≡ out.old.items ++ listed numbers.now) }
    ensures in_range { OnOk result (AreNumbers numbers.now) }
{
    out.push(numbers.len() as u8)?;
    for number in numbers {
        out.extend_from_slice(&number.cast_unsigned().to_be_bytes())?;
    }
    Ok(())
}

fn put_value(out: &mut Vec<u8>, value: &Value) -> Result<(), OutOfMemory>
    ensures bytes { OnOk result (out.new.items ≡ out.old.items ++ value_bytes value.now) }
    ensures in_range { OnOk result (IsInRange value.now) }
{
    match value {
        Value::Bool(flag) => out.push(u8::from(*flag))?,
        Value::Char(byte) => out.push(*byte)?,
        Value::I8(n) => out.push(n.cast_unsigned())?,
        Value::I16(n) => out.extend_from_slice(&n.cast_unsigned().to_be_bytes())?,
        Value::I32(n) => out.extend_from_slice(&n.cast_unsigned().to_be_bytes())?,
        Value::I64(n) => out.extend_from_slice(&n.cast_unsigned().to_be_bytes())?,
        Value::U8(n) => out.push(*n)?,
        Value::U16(n) => out.extend_from_slice(&n.to_be_bytes())?,
        Value::U32(n) => out.extend_from_slice(&n.to_be_bytes())?,
        Value::U64(n) => out.extend_from_slice(&n.to_be_bytes())?,
        Value::Text(text) => put_counted(out, text.bytes())?,
        Value::Bytes(bytes) => put_counted(out, bytes.bytes())?,
        Value::Price(price) => {
            out.extend_from_slice(&price.mantissa().cast_unsigned().to_be_bytes())?;
            out.push(price.decimals())?;
        }
        Value::Moment(n) => out.extend_from_slice(&n.to_be_bytes())?,
        Value::Numbers(numbers) => put_numbers(out, numbers.numbers())?,
    }
    Ok(())
}

fn put_field(out: &mut Vec<u8>, field: &Field) -> Result<(), OutOfMemory>
    ensures bytes { OnOk result (out.new.items ≡ out.old.items ++ field_bytes field.now) }
    ensures is_field { OnOk result (IsField field.now) }
{
    out.push(Kind::of(field.value()).tag())?;
    out.extend_from_slice(&field.fid().to_be_bytes())?;
    put_counted(out, field.name().bytes())?;
    put_value(out, field.value())
}

/// The spelling of a message that is short enough.
fn spelled(alloc: Global, msg: &Msg) -> Result<Vec<u8>, OutOfMemory>
    requires { length msg.now ≤ 64 }
    ensures { IfOk result (λ bytes. HasSpelling msg.now × (bytes.items ≡ spelling msg.now)) }
{
    let count = msg.len();
    let mut out = Vec::new(alloc);
    // One block at once in place of one for each growth.
    out.reserve_exact(FIELD_ROOM * count)?;
    out.push(Version::of(msg).byte())?;
    out.push(count as u8)?;
    for i in 0..count {
        put_field(&mut out, msg.at(i))?;
    }
    Ok(out)
}

/// The one spelling of a message.
pub fn encode(alloc: Global, msg: &Msg) -> Result<Vec<u8>, EncodeFault>
    ensures spelled { IfOk result (λ bytes. HasSpelling msg.now × (bytes.items ≡ spelling msg.now)) }
    ensures too_many { (result ≡ Err EncodeFault.TooMany) ↔ (64 < length msg.now) }
{
    if msg.len() > usize::from(MAX_FIELDS) {
        return Err(EncodeFault::TooMany);
    }
    match spelled(alloc, msg) {
        Ok(bytes) => Ok(bytes),
        Err(OutOfMemory) => Err(EncodeFault::OutOfMemory),
    }
}
