//! Text as a value.
ghost use Rattle.std.specs.Prelude.{◌≡◌, ◌↔◌, IsTrue, IfOk, IfSome};
ghost use Rattle.std.specs.Cmp.{partial_equiv_from_equiv};
ghost use Rattle.std.specs.Cmp.Lexicographic.{nat_list_eq_equiv};
ghost use Rattle.std.specs.List.{list_all};
ghost use Rattle.std.specs.Str.{bytes_eq};
ghost use Rattle.mama_msg.specs.Value.{is_printable, IsText};

use mama_memory::OutOfMemory;
use std::alloc::Global;
use std::marker::Model;

/// A text of 0 to 255 printable ASCII characters, bytes 0x20 to 0x7e.
#[derive(Debug, Drop)]
pub struct TextValue {
    bytes: Vec<u8>,
}

impl Model for TextValue {
    ghost use Rattle.std.specs.Prelude.{List, ℕ};

    ghost Value = { List ℕ };

    ghost use Rattle.mama_msg.specs.Value.{IsText};

    ghost view = { λ t. t.bytes.items };

    ghost invariant = { λ t. IsText t.bytes.items };
}

/// Whether a byte may stand in a text: 0x20 to 0x7e.
pub fn is_printable(byte: u8) -> bool
    ensures { result ≡ is_printable byte }
{
    (0x20..=0x7e).contains(&byte)
}

// Whether all the bytes may stand in a text.
fn are_printable(bytes: &[u8]) -> bool
    ensures { result ≡ list_all is_printable bytes.now }
{
    bytes.iter().all(|byte| is_printable(*byte))
}

// Whether the bytes are a text.
fn is_text(bytes: &[u8]) -> bool
    ensures { IsTrue result ↔ IsText bytes.now }
{
    bytes.len() <= TextValue::MAX_LEN && are_printable(bytes)
}

impl TextValue {
    /// The most bytes that a text has.
    pub const MAX_LEN: usize = 255;

    /// The value with this text. `None` where it is longer than 255 bytes, or has a byte outside 0x20 to 0x7e.
    /// To refuse a text takes no memory.
    pub fn new(alloc: Global, text: &[u8]) -> Result<Option<TextValue>, OutOfMemory>
        ensures value { IfOk result (λ found. IfSome found (λ value. (value ≡ text.now) × IsText value)) }
        ensures refused { (result ≡ Ok None) ↔ (¬ IsText text.now) }
    {
        if !is_text(text) {
            return Ok(None);
        }
        let bytes = Vec::from_slice(alloc, text)?;
        Ok(Some(TextValue { bytes }))
    }

    /// The text.
    pub fn bytes(&self) -> &[u8]
        ensures value { result.now ≡ self.now }
        ensures text { IsText self.now }
    {
        self.bytes.as_slice()
    }

    /// An equal text.
    pub fn try_clone(&self) -> Result<TextValue, OutOfMemory>
        ensures equal { IfOk result (λ copy. copy ≡ self.now) }
    {
        let bytes = self.bytes.clone()?;
        Ok(TextValue { bytes })
    }
}

impl PartialEq for TextValue {
    ghost eq = { bytes_eq };

    ghost laws = { partial_equiv_from_equiv nat_list_eq_equiv };

    fn eq(&self, other: &TextValue) -> bool
        ensures value { result ≡ bytes_eq self.now other.now }
        ensures exact { IsTrue result ↔ (self.now ≡ other.now) }
    {
        self.bytes() == other.bytes()
    }
}

impl Eq for TextValue {
    ghost laws = { nat_list_eq_equiv };
}
