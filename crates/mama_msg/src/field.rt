//! A field of a message, and its key.
ghost use Rattle.std.specs.Prelude.{◌≡◌, ◌↔◌, [], IsTrue, IsNone, IfOk, IfSome};

use crate::name::Name;
use crate::value::Value;
use mama_memory::OutOfMemory;
use std::marker::Model;

/// What tells the fields of a message apart: the fid, or the name where the fid is 0.
#[derive(Clone, Copy, Debug, Hash)]
pub enum Key {
    /// The fid of a field that has one.
    Numbered(u16),
    /// The name of a field whose fid is 0.
    Named(Name),
}

impl Key {
    ghost use Rattle.mama_msg.specs.Field.{key_from};

    /// The key of a field with this fid and this name: the fid, or the name where the fid is 0.
    pub fn new(fid: u16, name: Name) -> Key
        ensures { result ≡ key_from fid name }
    {
        if fid == 0 {
            Key::Named(name)
        } else {
            Key::Numbered(fid)
        }
    }
}

impl PartialEq for Key {
    ghost use Rattle.std.specs.Cmp.{partial_equiv_from_equiv};
    ghost use Rattle.mama_msg.specs.Field.{same_key};
    ghost use Rattle.mama_msg.specs.Keys.{same_key_equivalence};

    ghost eq = { same_key };

    ghost laws = { partial_equiv_from_equiv same_key_equivalence };

    fn eq(&self, other: &Key) -> bool
        ensures value { result ≡ same_key self.now other.now }
        ensures exact { IsTrue result ↔ (self.now ≡ other.now) }
    {
        match (self, other) {
            (Key::Numbered(a), Key::Numbered(b)) => a == b,
            (Key::Named(a), Key::Named(b)) => a == b,
            (Key::Numbered(_), Key::Named(_)) | (Key::Named(_), Key::Numbered(_)) => false,
        }
    }
}

impl Eq for Key {
    ghost use Rattle.mama_msg.specs.Keys.{same_key_equivalence};

    ghost laws = { same_key_equivalence };
}

/// One field of a message: a fid, 0 to 65,535, a name, and a value. Where the fid is 0 the name is not empty.
#[derive(Debug, Drop)]
pub struct Field {
    fid: u16,
    name: Name,
    value: Value,
}

impl Model for Field {
    ghost use Rattle.mama_msg.specs.Field.{FieldData};

    ghost Value = { FieldData };

    ghost use Rattle.mama_msg.specs.Field.{IsKeyed};

    ghost view = { λ f. record { fid = f.fid; name = f.name; value = f.value } };

    ghost invariant = { λ f. IsKeyed f.fid f.name };
}

impl Field {
    ghost use Rattle.mama_msg.specs.Field.{IsKeyed, key_of, same_key};

    /// The field with these parts. `None` where the fid is 0 and the name is empty; the value is dropped then.
    pub fn new(fid: u16, name: Name, value: Value) -> Option<Field>
        ensures none { IsNone result ↔ ((fid ≡ 0) × (name ≡ [])) }
        ensures value { IfSome result (λ field. field ≡ record { fid = fid; name = name; value = value }) }
        ensures keyed { IfSome result (λ field. IsKeyed field.fid field.name) }
    {
        if fid == 0 && name.bytes().is_empty() {
            return None;
        }
        Some(Field { fid, name, value })
    }

    /// The fid, 0 where the field has none.
    pub fn fid(&self) -> u16
        ensures value { result ≡ self.now.fid }
        ensures keyed { IsKeyed self.now.fid self.now.name }
    {
        self.fid
    }

    /// The name, which may be empty where the fid is not 0.
    pub fn name(&self) -> &Name
        ensures value { result.now ≡ self.now.name }
        ensures keyed { IsKeyed self.now.fid self.now.name }
    {
        &self.name
    }

    /// The value.
    pub fn value(&self) -> &Value
        ensures { result.now ≡ self.now.value }
    {
        &self.value
    }

    /// The key: the fid, or the name where the fid is 0.
    pub fn key(&self) -> Key
        ensures { result ≡ key_of self.now }
    {
        Key::new(self.fid, self.name)
    }

    /// Whether the key of the field is this one.
    pub(crate) fn is_at(&self, key: &Key) -> bool
        ensures { result ≡ same_key (key_of self.now) key.now }
    {
        match key {
            Key::Numbered(fid) => self.fid != 0 && self.fid == *fid,
            Key::Named(name) => self.fid == 0 && self.name == *name,
        }
    }

    /// The fid, the name and the value.
    pub fn into_parts(self) -> (u16, Name, Value)
        ensures value { result ≡ (self.fid, self.name, self.value) }
        ensures keyed { IsKeyed self.fid self.name }
    {
        let Field { fid, name, value } = self;
        (fid, name, value)
    }

    /// An equal field.
    pub fn try_clone(&self) -> Result<Field, OutOfMemory>
        ensures equal { IfOk result (λ copy. copy ≡ self.now) }
    {
        let value = self.value.try_clone()?;
        Ok(Field {
            fid: self.fid,
            name: self.name,
            value,
        })
    }
}

impl PartialEq for Field {
    ghost use Rattle.std.specs.Cmp.{partial_equiv_from_equiv};
    ghost use Rattle.mama_msg.specs.Equality.{same_field};
    ghost use Rattle.mama_msg.specs.EqualityLaws.{same_field_equivalence};

    ghost eq = { same_field };

    ghost laws = { partial_equiv_from_equiv same_field_equivalence };

    fn eq(&self, other: &Field) -> bool
        ensures value { result ≡ same_field self.now other.now }
        ensures exact { IsTrue result ↔ (self.now ≡ other.now) }
    {
        self.fid == other.fid && self.name == other.name && self.value == other.value
    }
}

impl Eq for Field {
    ghost use Rattle.mama_msg.specs.EqualityLaws.{same_field_equivalence};

    ghost laws = { same_field_equivalence };
}
