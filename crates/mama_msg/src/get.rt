//! Values read from a message.
ghost use Rattle.std.specs.Prelude.{◌≡◌, IfOk, IfErr};
ghost use Rattle.std.specs.Option.{option_copied};
ghost use Rattle.mama_msg.specs.Message.{asked_for};
ghost use Rattle.mama_msg.specs.Get as get;
ghost use Rattle.mama_msg.specs.Get.{answer_of, signed_answer, unsigned_answer};

use crate::field::Field;
use crate::msg::Msg;
use crate::name::Name;
use crate::price::Price;
use crate::value::Value;
use std::error::Error;
use std::fmt;

/// Why a message gave no value.
#[derive(Clone, Copy, Debug, PartialEq, Eq)]
pub enum GetFault {
    /// The message has no such field.
    NotFound,
    /// The field's value is of a type that is not asked for.
    WrongType,
    /// The field's number is outside the type that is asked for.
    OutOfRange,
}

impl fmt::Display for GetFault {
    fn fmt<W: fmt::Write>(&self, f: &mut fmt::Formatter<W>) -> fmt::Result {
        match self {
            GetFault::NotFound => write!(f, "there is no such field"),
            GetFault::WrongType => write!(f, "the field is of another type"),
            GetFault::OutOfRange => write!(f, "the number is outside the type"),
        }
    }
}

impl Error for GetFault {}

// The number of a value of an integer type. Each of them is within an `i128`.
fn number_of(value: &Value) -> Option<i128>
    ensures { result ≡ get.number_of value.now }
{
    match value {
        Value::I8(n) => Some(*n as i128),
        Value::I16(n) => Some(*n as i128),
        Value::I32(n) => Some(*n as i128),
        Value::I64(n) => Some(*n as i128),
        Value::U8(n) => Some(*n as i128),
        Value::U16(n) => Some(*n as i128),
        Value::U32(n) => Some(*n as i128),
        Value::U64(n) => Some(*n as i128),
        Value::Bool(_)
        | Value::Char(_)
        | Value::Text(_)
        | Value::Bytes(_)
        | Value::Price(_)
        | Value::Moment(_)
        | Value::Numbers(_) => None,
    }
}

// The number of the field that was asked for.
fn number(asked: Option<&Field>) -> Result<i128, GetFault>
    ensures { result ≡ answer_of get.number_of (option_copied asked.entry) }
{
    match asked {
        Some(field) => number_of(field.value()).ok_or(GetFault::WrongType),
        None => Err(GetFault::NotFound),
    }
}

// The number of the field that was asked for, if it is within a type.
macro_rules! number_within {
    ($asked:expr, $type:ty) => {
        match number($asked) {
            Ok(n) => {
                if n < <$type>::MIN as i128 || n > <$type>::MAX as i128 {
                    return Err(GetFault::OutOfRange);
                }
                Ok(n as $type)
            }
            Err(fault) => Err(fault),
        }
    };
}

// The truth of a value of that type.
fn truth_of(value: &Value) -> Option<bool>
    ensures { result ≡ get.truth_of value.now }
{
    match value {
        Value::Bool(truth) => Some(*truth),
        _ => None,
    }
}

// The text of a value of that type.
fn text_of(value: &Value) -> Option<&[u8]>
    ensures { option_copied result ≡ get.text_of value.now }
{
    match value {
        Value::Text(text) => Some(text.bytes()),
        _ => None,
    }
}

// The price of a value of that type.
fn price_of(value: &Value) -> Option<Price>
    ensures { result ≡ get.price_of value.now }
{
    match value {
        Value::Price(price) => Some(*price),
        _ => None,
    }
}

// The numbers of a value of that type.
fn numbers_of(value: &Value) -> Option<&[i64]>
    ensures { option_copied result ≡ get.numbers_of value.now }
{
    match value {
        Value::Numbers(numbers) => Some(numbers.numbers()),
        _ => None,
    }
}

/// A getter reads the field that [`Msg::find`] gives for a name and a fid. It answers `NotFound` where there is none,
/// and `WrongType` where the field is of a type that the getter does not accept. A getter of an integer type accepts
/// each of the eight integer types, and answers `OutOfRange` where the number is outside its own. The getters of truth,
/// text, price and a list of numbers accept their own type alone. None takes memory.
impl Msg {
    /// The number of a field of any integer type, as an `i8`.
    pub fn get_i8(&self, name: &Name, fid: u16) -> Result<i8, GetFault>
        ensures { result ≡ signed_answer i8.MIN i8.MAX (asked_for name.now fid self.now) }
    {
        number_within!(self.find(name, fid), i8)
    }

    /// The number of a field of any integer type, as an `i16`.
    pub fn get_i16(&self, name: &Name, fid: u16) -> Result<i16, GetFault>
        ensures { result ≡ signed_answer i16.MIN i16.MAX (asked_for name.now fid self.now) }
    {
        number_within!(self.find(name, fid), i16)
    }

    /// The number of a field of any integer type, as an `i32`.
    pub fn get_i32(&self, name: &Name, fid: u16) -> Result<i32, GetFault>
        ensures { result ≡ signed_answer i32.MIN i32.MAX (asked_for name.now fid self.now) }
    {
        number_within!(self.find(name, fid), i32)
    }

    /// The number of a field of any integer type, as an `i64`.
    pub fn get_i64(&self, name: &Name, fid: u16) -> Result<i64, GetFault>
        ensures { result ≡ signed_answer i64.MIN i64.MAX (asked_for name.now fid self.now) }
    {
        number_within!(self.find(name, fid), i64)
    }

    /// The number of a field of any integer type, as a `u8`.
    pub fn get_u8(&self, name: &Name, fid: u16) -> Result<u8, GetFault>
        ensures { result ≡ unsigned_answer u8.MAX (asked_for name.now fid self.now) }
    {
        number_within!(self.find(name, fid), u8)
    }

    /// The number of a field of any integer type, as a `u16`.
    pub fn get_u16(&self, name: &Name, fid: u16) -> Result<u16, GetFault>
        ensures { result ≡ unsigned_answer u16.MAX (asked_for name.now fid self.now) }
    {
        number_within!(self.find(name, fid), u16)
    }

    /// The number of a field of any integer type, as a `u32`.
    pub fn get_u32(&self, name: &Name, fid: u16) -> Result<u32, GetFault>
        ensures { result ≡ unsigned_answer u32.MAX (asked_for name.now fid self.now) }
    {
        number_within!(self.find(name, fid), u32)
    }

    /// The number of a field of any integer type, as a `u64`.
    pub fn get_u64(&self, name: &Name, fid: u16) -> Result<u64, GetFault>
        ensures { result ≡ unsigned_answer u64.MAX (asked_for name.now fid self.now) }
    {
        number_within!(self.find(name, fid), u64)
    }

    /// The truth of a field of type Bool.
    pub fn get_bool(&self, name: &Name, fid: u16) -> Result<bool, GetFault>
        ensures { result ≡ answer_of get.truth_of (asked_for name.now fid self.now) }
    {
        match self.find(name, fid) {
            Some(field) => truth_of(field.value()).ok_or(GetFault::WrongType),
            None => Err(GetFault::NotFound),
        }
    }

    /// The characters of a field of type Text.
    pub fn get_text(&self, name: &Name, fid: u16) -> Result<&[u8], GetFault>
        ensures ok { IfOk result (λ text. answer_of get.text_of (asked_for name.now fid self.now) ≡ Ok text.now) }
        ensures err { IfErr result (λ fault. answer_of get.text_of (asked_for name.now fid self.now) ≡ Err fault) }
    {
        match self.find(name, fid) {
            Some(field) => text_of(field.value()).ok_or(GetFault::WrongType),
            None => Err(GetFault::NotFound),
        }
    }

    /// The price of a field of type Price.
    pub fn get_price(&self, name: &Name, fid: u16) -> Result<Price, GetFault>
        ensures { result ≡ answer_of get.price_of (asked_for name.now fid self.now) }
    {
        match self.find(name, fid) {
            Some(field) => price_of(field.value()).ok_or(GetFault::WrongType),
            None => Err(GetFault::NotFound),
        }
    }

    /// The numbers of a field of type Numbers.
    pub fn get_numbers(&self, name: &Name, fid: u16) -> Result<&[i64], GetFault>
        ensures ok { IfOk result (λ numbers. answer_of get.numbers_of (asked_for name.now fid self.now) ≡ Ok numbers.now) }
        ensures err { IfErr result (λ fault. answer_of get.numbers_of (asked_for name.now fid self.now) ≡ Err fault) }
    {
        match self.find(name, fid) {
            Some(field) => numbers_of(field.value()).ok_or(GetFault::WrongType),
            None => Err(GetFault::NotFound),
        }
    }
}
