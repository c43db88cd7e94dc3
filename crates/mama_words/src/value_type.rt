ghost use Rattle.std.specs.Prelude.{◌≡◌, ◌++◌, length, take, OnOk, OnErr};

use crate::nums::Nums;
use mama_memory::OutOfMemory;

/// The type of a value.
#[derive(Clone, Copy, Debug, PartialEq, Eq)]
pub enum ValueType {
    Bool,
    Char,
    I8,
    I16,
    I32,
    I64,
    U8,
    U16,
    U32,
    U64,
    Text,
    Bytes,
    Price,
    Moment,
    Numbers,
}

ghost use Rattle.mama_words.specs.Named.{named_in};
ghost use Rattle.mama_words.specs.Value.{any_type_in, type_in, type_text, is_known};

impl ValueType {
    const ALL: [ValueType; 15] = [
        ValueType::Bool,
        ValueType::Char,
        ValueType::I8,
        ValueType::I16,
        ValueType::I32,
        ValueType::I64,
        ValueType::U8,
        ValueType::U16,
        ValueType::U32,
        ValueType::U64,
        ValueType::Text,
        ValueType::Bytes,
        ValueType::Price,
        ValueType::Moment,
        ValueType::Numbers,
    ];

    // The word for a type.
    fn text(self) -> &'static [u8]
        ensures { result.now ≡ type_text self }
    {
        match self {
            ValueType::Bool => b"bool",
            ValueType::Char => b"char",
            ValueType::I8 => b"i8",
            ValueType::I16 => b"i16",
            ValueType::I32 => b"i32",
            ValueType::I64 => b"i64",
            ValueType::U8 => b"u8",
            ValueType::U16 => b"u16",
            ValueType::U32 => b"u32",
            ValueType::U64 => b"u64",
            ValueType::Text => b"text",
            ValueType::Bytes => b"bytes",
            ValueType::Price => b"price",
            ValueType::Moment => b"moment",
            ValueType::Numbers => b"nums",
        }
    }

    // Whether a text knows it.
    fn is_known(self, nums: Nums) -> bool
        ensures { result ≡ is_known nums self }
    {
        match (nums, self) {
            (Nums::Unknown, ValueType::Numbers) => false,
            _ => true,
        }
    }
}

// The first of these types whose word it is.
#[tactic(auto, using(crate::proofs::Named::named_more))]
fn named(word: &[u8], kinds: &[ValueType]) -> Option<ValueType>
    ensures { result ≡ named_in type_text word.now kinds.now }
{
    for kind in kinds {
        if word == kind.text() {
            return Some(*kind);
        }
    }
    None
}

// The type that a word names in some text.
#[tactic(auto, using(crate::proofs::KindLaws::type_named))]
fn read_any_type(word: &[u8]) -> Option<ValueType>
    ensures { result ≡ any_type_in word.now }
{
    named(word, &ValueType::ALL)
}

// The type that a word names.
pub(crate) fn read_type(nums: Nums, word: &[u8]) -> Option<ValueType>
    ensures { result ≡ type_in nums word.now }
{
    let kind = read_any_type(word)?;
    if kind.is_known(nums) {
        Some(kind)
    } else {
        None
    }
}

// Appends the word for a type.
pub(crate) fn put_type(kind: ValueType, out: &mut Vec<u8>) -> Result<(), OutOfMemory>
    ensures ok { OnOk result (out.new.items ≡ out.old.items ++ type_text kind) }
    ensures err { OnErr result (take (length out.old.items) out.new.items ≡ out.old.items) }
{
    Ok(out.extend_from_slice(kind.text())?)
}
