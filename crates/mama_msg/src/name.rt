//! The name of a field.
ghost use Rattle.std.specs.Prelude.{◌≡◌, ◌↔◌, ◌-◌, ◌≤◌, ◌++◌, length, replicate, IsTrue, IsSome, IfSome};
ghost use Rattle.std.specs.Cmp.{partial_equiv_from_equiv};
ghost use Rattle.std.specs.Cmp.Lexicographic.{nat_list_eq_equiv};
ghost use Rattle.std.specs.Cmp.Rules.{hashing};
ghost use Rattle.std.specs.Hash as fed;
ghost use Rattle.std.specs.List.{list_all};
ghost use Rattle.std.specs.Str.{bytes_eq};
ghost use Rattle.std.proofs.Common.{rules};
ghost use Rattle.mama_msg.specs.Name as named;

use std::hash::{Hash, Hasher};
use std::marker::Model;

/// The name of a field: 0 to 32 letters, digits or underscores. It lies in the value itself.
#[derive(Clone, Copy, Debug)]
pub struct Name {
    length: u8,
    bytes: [u8; 32],
}

impl Model for Name {
    ghost use Rattle.std.specs.Prelude.{List, ℕ};

    ghost Value = { List ℕ };

    ghost use Rattle.mama_msg.specs.Padding.{text_of, IsPadded, inside_of, inside_of-text_of};

    ghost view = { text_of };

    ghost invariant = { IsPadded };

    ghost inverse = { inside_of };

    ghost inverse_ok = { inside_of-text_of };
}

/// Whether a byte may stand in a name: an ASCII letter, a digit or an underscore.
pub fn is_name_byte(byte: u8) -> bool
    ensures { result ≡ named.is_name_byte byte }
{
    byte.is_ascii_alphanumeric() || byte == b'_'
}

// Whether all the bytes may stand in a name.
fn are_name_bytes(bytes: &[u8]) -> bool
    ensures { result ≡ list_all named.is_name_byte bytes.now }
{
    bytes.iter().all(|byte| is_name_byte(*byte))
}

// Whether the bytes are the text of a name.
fn is_name_text(bytes: &[u8]) -> bool
    ensures { IsTrue result ↔ named.IsNameText bytes.now }
{
    bytes.len() <= Name::MAX_LEN && are_name_bytes(bytes)
}

// The bytes, and zeros up to 32.
fn padded(bytes: &[u8]) -> [u8; 32]
    requires { length bytes.now ≤ 32 }
    ensures { result ≡ bytes.now ++ replicate (32 - length bytes.now) 0 }
{
    let mut whole = [0; 32];
    whole[..bytes.len()].copy_from_slice(bytes);
    whole
}

impl Name {
    ghost use Rattle.mama_msg.specs.Name.{IsNameText};

    /// The most bytes that a name has.
    pub const MAX_LEN: usize = 32;

    /// The name with this text. `None` where the text is longer than 32 bytes, or has a byte that is no ASCII letter,
    /// digit or underscore. The empty text is a name.
    pub fn new(text: &[u8]) -> Option<Name>
        ensures found { IsSome result ↔ IsNameText text.now }
        ensures value { IfSome result (λ name. name ≡ text.now) }
    {
        if !is_name_text(text) {
            return None;
        }
        Some(Name {
            length: text.len() as u8,
            bytes: padded(text),
        })
    }

    /// The text of the name.
    pub fn bytes(&self) -> &[u8]
        ensures value { result.now ≡ self.now }
        ensures text { IsNameText self.now }
    {
        &self.bytes[..self.length as usize]
    }
}

impl PartialEq for Name {
    ghost eq = { bytes_eq };

    ghost laws = { partial_equiv_from_equiv nat_list_eq_equiv };

    fn eq(&self, other: &Name) -> bool
        ensures value { result ≡ bytes_eq self.now other.now }
        ensures exact { IsTrue result ↔ (self.now ≡ other.now) }
    {
        self.bytes() == other.bytes()
    }
}

impl Eq for Name {
    ghost laws = { nat_list_eq_equiv };
}

impl Hash for Name {
    ghost hash_input = { fed.slice fed.u8 };

    ghost respects_eq = { Prim.search (hashing, rules) };

    fn hash<H: Hasher>(&self, state: &mut H) {
        self.bytes().hash(state);
    }
}

/// The empty name.
impl Default for Name {
    ghost use Rattle.std.specs.Prelude.{◌≡◌, []};

    ghost is_default = { λ name. name ≡ [] };

    fn default() -> Name {
        Name {
            length: 0,
            bytes: [0; 32],
        }
    }
}
