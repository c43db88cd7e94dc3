//! The value of a field.
ghost use Rattle.std.specs.Prelude.{◌≡◌, ◌↔◌, IsTrue, IfOk};
ghost use Rattle.std.specs.Cmp.{partial_equiv_from_equiv};

use crate::numbers::NumbersValue;
use crate::price::Price;
use crate::raw::BytesValue;
use crate::text::TextValue;
use mama_memory::OutOfMemory;

/// The value of a field, of one of fifteen types.
#[derive(Debug, Drop)]
pub enum Value {
    /// True or false.
    Bool(bool),
    /// One byte.
    Char(u8),
    /// A signed number of 8 bits.
    I8(i8),
    /// A signed number of 16 bits.
    I16(i16),
    /// A signed number of 32 bits.
    I32(i32),
    /// A signed number of 64 bits.
    I64(i64),
    /// An unsigned number of 8 bits.
    U8(u8),
    /// An unsigned number of 16 bits.
    U16(u16),
    /// An unsigned number of 32 bits.
    U32(u32),
    /// An unsigned number of 64 bits.
    U64(u64),
    /// Printable text.
    Text(TextValue),
    /// Raw bytes.
    Bytes(BytesValue),
    /// A decimal price.
    Price(Price),
    /// A moment in milliseconds; where time begins is left open.
    Moment(u64),
    /// A list of numbers.
    Numbers(NumbersValue),
}

impl Value {
    /// An equal value. Only a text, bytes and numbers take memory.
    pub fn try_clone(&self) -> Result<Value, OutOfMemory>
        ensures equal { IfOk result (λ copy. copy ≡ self.now) }
    {
        match self {
            Value::Bool(b) => Ok(Value::Bool(*b)),
            Value::Char(byte) => Ok(Value::Char(*byte)),
            Value::I8(n) => Ok(Value::I8(*n)),
            Value::I16(n) => Ok(Value::I16(*n)),
            Value::I32(n) => Ok(Value::I32(*n)),
            Value::I64(n) => Ok(Value::I64(*n)),
            Value::U8(n) => Ok(Value::U8(*n)),
            Value::U16(n) => Ok(Value::U16(*n)),
            Value::U32(n) => Ok(Value::U32(*n)),
            Value::U64(n) => Ok(Value::U64(*n)),
            Value::Text(text) => Ok(Value::Text(text.try_clone()?)),
            Value::Bytes(bytes) => Ok(Value::Bytes(bytes.try_clone()?)),
            Value::Price(price) => Ok(Value::Price(*price)),
            Value::Moment(at) => Ok(Value::Moment(*at)),
            Value::Numbers(numbers) => Ok(Value::Numbers(numbers.try_clone()?)),
        }
    }
}

impl PartialEq for Value {
    ghost use Rattle.mama_msg.specs.Equality.{same_value};
    ghost use Rattle.mama_msg.specs.EqualityLaws.{same_value_equivalence};

    ghost eq = { same_value };

    ghost laws = { partial_equiv_from_equiv same_value_equivalence };

    fn eq(&self, other: &Value) -> bool
        ensures value { result ≡ same_value self.now other.now }
        ensures exact { IsTrue result ↔ (self.now ≡ other.now) }
    {
        match (self, other) {
            (Value::Bool(a), Value::Bool(b)) => a == b,
            (Value::Char(a), Value::Char(b)) => a == b,
            (Value::I8(a), Value::I8(b)) => a == b,
            (Value::I16(a), Value::I16(b)) => a == b,
            (Value::I32(a), Value::I32(b)) => a == b,
            (Value::I64(a), Value::I64(b)) => a == b,
            (Value::U8(a), Value::U8(b)) => a == b,
            (Value::U16(a), Value::U16(b)) => a == b,
            (Value::U32(a), Value::U32(b)) => a == b,
            (Value::U64(a), Value::U64(b)) => a == b,
            (Value::Text(a), Value::Text(b)) => a == b,
            (Value::Bytes(a), Value::Bytes(b)) => a == b,
            (Value::Price(a), Value::Price(b)) => a == b,
            (Value::Moment(a), Value::Moment(b)) => a == b,
            (Value::Numbers(a), Value::Numbers(b)) => a == b,
            _ => false,
        }
    }
}

impl Eq for Value {
    ghost use Rattle.mama_msg.specs.EqualityLaws.{same_value_equivalence};

    ghost laws = { same_value_equivalence };
}
