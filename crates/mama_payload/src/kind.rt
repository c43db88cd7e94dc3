//! The kinds of values, and their tags.
ghost use Rattle.std.specs.Prelude.{◌≡◌};

use crate::version::Version;
use mama_msg::Value;

/// The kind of a value. Its number is its tag.
#[derive(Clone, Copy)]
pub enum Kind {
    Bool = 0x01,
    Char = 0x02,
    I8 = 0x03,
    I16 = 0x04,
    I32 = 0x05,
    I64 = 0x06,
    U8 = 0x07,
    U16 = 0x08,
    U32 = 0x09,
    U64 = 0x0a,
    Text = 0x0b,
    Bytes = 0x0c,
    Price = 0x0d,
    Moment = 0x0e,
    Numbers = 0x0f,
}

impl Kind {
    ghost use Rattle.mama_payload.specs.Spelling.{kind_of, tag_of, is_numbers};
    ghost use Rattle.mama_payload.specs.Reading.{kind_with_tag, is_kind_of, kind_in};

    /// The kind of a value.
    pub fn of(value: &Value) -> Kind
        ensures { result ≡ kind_of value.now }
    {
        match value {
            Value::Bool(_) => Kind::Bool,
            Value::Char(_) => Kind::Char,
            Value::I8(_) => Kind::I8,
            Value::I16(_) => Kind::I16,
            Value::I32(_) => Kind::I32,
            Value::I64(_) => Kind::I64,
            Value::U8(_) => Kind::U8,
            Value::U16(_) => Kind::U16,
            Value::U32(_) => Kind::U32,
            Value::U64(_) => Kind::U64,
            Value::Text(_) => Kind::Text,
            Value::Bytes(_) => Kind::Bytes,
            Value::Price(_) => Kind::Price,
            Value::Moment(_) => Kind::Moment,
            Value::Numbers(_) => Kind::Numbers,
        }
    }

    /// The tag byte.
    pub fn tag(self) -> u8
        ensures { result ≡ tag_of self }
    {
        self as u8
    }

    /// Whether it is the kind of lists of numbers.
    pub fn is_numbers(self) -> bool
        ensures { result ≡ is_numbers self }
    {
        matches!(self, Kind::Numbers)
    }

    /// Whether a version has it.
    fn is_of(self, version: Version) -> bool
        ensures { result ≡ is_kind_of version self }
    {
        match version {
            Version::One => !self.is_numbers(),
            Version::Two => true,
        }
    }

    /// The kind with this tag in a version, if there is one.
    pub fn in_version(version: Version, tag: u8) -> Option<Kind>
        ensures { result ≡ kind_in version tag }
    {
        let kind = Kind::with_tag(tag)?;
        if kind.is_of(version) {
            Some(kind)
        } else {
            None
        }
    }

    /// The kind with this tag, if there is one.
    fn with_tag(tag: u8) -> Option<Kind>
        ensures { result ≡ kind_with_tag tag }
    {
        match tag {
            0x01 => Some(Kind::Bool),
            0x02 => Some(Kind::Char),
            0x03 => Some(Kind::I8),
            0x04 => Some(Kind::I16),
            0x05 => Some(Kind::I32),
            0x06 => Some(Kind::I64),
            0x07 => Some(Kind::U8),
            0x08 => Some(Kind::U16),
            0x09 => Some(Kind::U32),
            0x0a => Some(Kind::U64),
            0x0b => Some(Kind::Text),
            0x0c => Some(Kind::Bytes),
            0x0d => Some(Kind::Price),
            0x0e => Some(Kind::Moment),
            0x0f => Some(Kind::Numbers),
            _ => None,
        }
    }
}
