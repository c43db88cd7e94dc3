//! Raw bytes as a value.
ghost use Rattle.std.specs.Prelude.{◌≡◌, ◌↔◌, ◌<◌, ◌≤◌, length, IsTrue, IfOk, IfSome};
ghost use Rattle.std.specs.Cmp.{partial_equiv_from_equiv};
ghost use Rattle.std.specs.Cmp.Lexicographic.{nat_list_eq_equiv};
ghost use Rattle.std.specs.Str.{bytes_eq};

use mama_memory::OutOfMemory;
use std::alloc::Global;
use std::marker::Model;

/// 0 to 255 bytes of any kind.
#[derive(Debug, Drop)]
pub struct BytesValue {
    bytes: Vec<u8>,
}

impl Model for BytesValue {
    ghost use Rattle.std.specs.Prelude.{List, ℕ, ◌≤◌, length};

    ghost Value = { List ℕ };

    ghost view = { λ b. b.bytes.items };

    ghost invariant = { λ b. length b.bytes.items ≤ 255 };
}

impl BytesValue {
    /// The most bytes that a value has.
    pub const MAX_LEN: usize = 255;

    /// The value with these bytes. `None` where there are more than 255. To refuse them takes no memory.
    pub fn new(alloc: Global, bytes: &[u8]) -> Result<Option<BytesValue>, OutOfMemory>
        ensures value { IfOk result (λ found. IfSome found (λ value. (value ≡ bytes.now) × (length value ≤ 255))) }
        ensures refused { (result ≡ Ok None) ↔ (255 < length bytes.now) }
    {
        if bytes.len() > BytesValue::MAX_LEN {
            return Ok(None);
        }
        let bytes = Vec::from_slice(alloc, bytes)?;
        Ok(Some(BytesValue { bytes }))
    }

    /// The bytes.
    pub fn bytes(&self) -> &[u8]
        ensures value { result.now ≡ self.now }
        ensures short { length self.now ≤ 255 }
    {
        self.bytes.as_slice()
    }

    /// An equal value.
    pub fn try_clone(&self) -> Result<BytesValue, OutOfMemory>
        ensures equal { IfOk result (λ copy. copy ≡ self.now) }
    {
        let bytes = self.bytes.clone()?;
        Ok(BytesValue { bytes })
    }
}

impl PartialEq for BytesValue {
    ghost eq = { bytes_eq };

    ghost laws = { partial_equiv_from_equiv nat_list_eq_equiv };

    fn eq(&self, other: &BytesValue) -> bool
        ensures value { result ≡ bytes_eq self.now other.now }
        ensures exact { IsTrue result ↔ (self.now ≡ other.now) }
    {
        self.bytes() == other.bytes()
    }
}

impl Eq for BytesValue {
    ghost laws = { nat_list_eq_equiv };
}
