//! Messages.
ghost use Rattle.std.specs.Prelude.{◌≡◌, ◌<◌, ◌↔◌, true, [], ◌∷◌, ◌++◌, length, slice_get, IsTrue, IfOk, IfSome, OnOk, IfErr, OnErr, ◌⊎◌};
ghost use Rattle.std.specs.Cmp.{partial_equiv_from_equiv};
ghost use Rattle.std.specs.Option.{option_copied};
ghost use Rattle.mama_msg.specs.Field.{key_of, key_from};
ghost use Rattle.mama_msg.specs.Message.{has_key, updated, apply, asked_for, AreDistinct};

use crate::body::{Shared, fields, put_field, put_fields, same, shared};
use crate::distinct::are_distinct;
use crate::field::{Field, Key};
use crate::name::Name;
use crate::rows::copies_of;
use crate::scan::{first_named, has, new_keys, numbered};
use mama_memory::{Duplicate, OutOfMemory};
use std::alloc::Global;
use std::error::Error;
use std::fmt;
use std::marker::Model;

/// Why a field was not added. The field comes back.
#[derive(Debug, PartialEq, Eq, Drop)]
pub enum AddFault {
    /// The message has a field with this key.
    Present(Field),
    /// No memory was found.
    OutOfMemory(Field),
}

impl fmt::Display for AddFault {
    fn fmt<W: fmt::Write>(&self, f: &mut fmt::Formatter<W>) -> fmt::Result {
        match self {
            AddFault::Present(_) => write!(f, "the message has a field with this key"),
            AddFault::OutOfMemory(_) => write!(f, "out of memory"),
        }
    }
}

impl Error for AddFault {}

/// A message: a list of fields with distinct keys, with no limit of length of its own.
///
/// Copies share the fields: a copy takes no memory but 16 bytes in place, and no time by the fields, so a message is best
/// handed on by copies. The first change of one of them copies the fields, and later changes of that one are made in
/// place until it is copied again. A field is found by going through the fields, so messages are meant to be of some
/// tens of fields, or to be read once.
#[derive(Debug, Drop)]
pub struct Msg {
    alloc: Global,
    body: Shared,
}

impl Model for Msg {
    ghost use Rattle.std.specs.Prelude.{List};
    ghost use Rattle.mama_msg.specs.Field.{FieldData};

    ghost Value = { List FieldData };

    ghost use Rattle.mama_msg.specs.Message.{AreDistinct};
    ghost use Rattle.mama_msg.specs.Shared.{fields_of};

    ghost view = { λ m. fields_of m.body };

    ghost invariant = { λ m. AreDistinct (fields_of m.body) };
}

impl Msg {
    /// The message with no fields. It takes no memory.
    pub fn new(alloc: Global) -> Msg
        ensures { result ≡ [] }
    {
        Msg { alloc, body: None }
    }

    /// The message with these fields. `None` where two of them have one key; the fields are dropped then. It takes time
    /// in proportion to the fields.
    pub fn of(fields: Vec<Field>) -> Result<Option<Msg>, OutOfMemory>
        ensures some { IfOk result (λ found. IfSome found (λ msg. (msg ≡ fields.items) × AreDistinct fields.items)) }
        ensures none { (result ≡ Ok None) → ¬ AreDistinct fields.items }
    {
        let alloc = *fields.allocator();
        if !are_distinct(alloc, &fields)? {
            return Ok(None);
        }
        let body = shared(alloc, fields)?;
        Ok(Some(Msg { alloc, body }))
    }

    // The fields.
    fn fields(&self) -> &[Field]
        ensures value { result.now ≡ self.now }
        ensures distinct { AreDistinct self.now }
    {
        fields(&self.body)
    }

    /// The number of fields.
    pub fn len(&self) -> usize
        ensures value { result ≡ length self.now }
        ensures distinct { AreDistinct self.now }
    {
        self.fields().len()
    }

    /// Whether there are no fields.
    pub fn is_empty(&self) -> bool
        ensures { IsTrue result ↔ (self.now ≡ []) }
    {
        self.len() == 0
    }

    /// The field at a place, counted from 0.
    pub fn at(&self, i: usize) -> &Field
        requires { i < length self.now }
        ensures { slice_get self.now i ≡ Some result.now }
    {
        &self.fields()[i]
    }

    /// Whether there is a field with the key that a fid and a name make.
    pub fn has_key(&self, fid: u16, name: &Name) -> bool
        ensures { result ≡ has_key (key_from fid name.now) self.now }
    {
        has(self.fields(), &Key::new(fid, *name))
    }

    /// The field that a fid above 0 asks for: the one with that fid. With fid 0, the first field in order that has
    /// that name, whatever its fid.
    pub fn find(&self, name: &Name, fid: u16) -> Option<&Field>
        ensures { option_copied result ≡ asked_for name.now fid self.now }
    {
        if fid == 0 {
            first_named(self.fields(), name)
        } else {
            numbered(self.fields(), fid)
        }
    }

    /// Adds a field at the end. A field whose key is there comes back. It takes time by the fields of the message: many
    /// fields at once make a message by [`Msg::of`].
    pub fn add(&mut self, field: Field) -> Result<(), AddFault>
        ensures ok { OnOk result (self.new ≡ self.old ++ field ∷ []) }
        ensures present { (result ≡ Err (AddFault.Present field)) ↔ (has_key (key_of field) self.old ≡ true) }
        ensures err { OnErr result (self.new ≡ self.old) }
        ensures value_returned { IfErr result (λ fault. (fault ≡ AddFault.Present field) ⊎ (fault ≡ AddFault.OutOfMemory field)) }
    {
        if has(self.fields(), &field.key()) {
            return Err(AddFault::Present(field));
        }
        put_field(self.alloc, &mut self.body, field).map_err(AddFault::OutOfMemory)
    }

    /// Puts a field whole in the place of the one with its key, or last where there is none. It takes time by the fields
    /// of the message.
    pub fn update(&mut self, field: Field) -> Result<(), OutOfMemory>
        ensures ok { OnOk result (self.new ≡ updated self.old field) }
        ensures err { OnErr result (self.new ≡ self.old) }
    {
        match put_field(self.alloc, &mut self.body, field) {
            Ok(()) => Ok(()),
            Err(_) => Err(OutOfMemory),
        }
    }

    /// The number of fields that the message has once `other` is applied.
    pub fn len_after(&self, other: &Msg) -> usize
        ensures { result ≡ length (apply self.now other.now) }
    {
        self.len() + new_keys(self.fields(), other.fields())
    }

    // Puts in the fields of an update one after another.
    fn put(&mut self, update: &[Field]) -> Result<(), OutOfMemory>
        requires { AreDistinct update.now }
        ensures ok { OnOk result (self.new ≡ apply self.old update.now) }
        ensures err { OnErr result (self.new ≡ self.old) }
    {
        match update {
            [] => Ok(()),
            [only] => self.update(only.try_clone()?),
            _ => {
                let copies = copies_of(self.alloc, update, 0)?;
                put_fields(self.alloc, &mut self.body, copies)
            }
        }
    }

    /// Applies a message: each of its fields is put in the place of the field with its key, and those with new keys
    /// come last, in their order. Where the fields of `other` stand in the order of those of the message, it takes time
    /// by the fields of both together. The empty message comes to share the fields of `other`.
    pub fn apply(&mut self, other: &Msg) -> Result<(), OutOfMemory>
        ensures ok { OnOk result (self.new ≡ apply self.old other.now) }
        ensures err { OnErr result (self.new ≡ self.old) }
    {
        if self.is_empty() {
            *self = other.try_clone()?;
            return Ok(());
        }
        self.put(other.fields())
    }

    /// An equal message, which shares the fields. The error says that no more copies can be counted: it takes no memory.
    pub fn try_clone(&self) -> Result<Msg, OutOfMemory>
        ensures equal { IfOk result (λ copy. copy ≡ self.now) }
    {
        let body = same(&self.body)?;
        Ok(Msg {
            alloc: self.alloc,
            body,
        })
    }
}

impl Duplicate for Msg {
    fn try_clone(&self) -> Result<Msg, OutOfMemory> {
        Msg::try_clone(self)
    }
}

impl PartialEq for Msg {
    ghost use Rattle.mama_msg.specs.Equality.{same_message};
    ghost use Rattle.mama_msg.specs.EqualityLaws.{same_message_equivalence};

    ghost eq = { same_message };

    ghost laws = { partial_equiv_from_equiv same_message_equivalence };

    fn eq(&self, other: &Msg) -> bool
        ensures value { result ≡ same_message self.now other.now }
        ensures exact { IsTrue result ↔ (self.now ≡ other.now) }
    {
        self.fields() == other.fields()
    }
}

impl Eq for Msg {
    ghost use Rattle.mama_msg.specs.EqualityLaws.{same_message_equivalence};

    ghost laws = { same_message_equivalence };
}
