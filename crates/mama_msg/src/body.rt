//! The fields of a message as they lie in memory: in a block that its copies share. They are written in place where
//! the block has one owner, and else into a new block.
ghost use Rattle.std.specs.Prelude.{◌≡◌, ◌∷◌, [], IfOk, OnOk, IfErr, OnErr};
ghost use Rattle.std.specs.Arc.{arc_value};
ghost use Rattle.mama_msg.specs.Message.{updated, apply, AreDistinct};
ghost use Rattle.mama_msg.specs.Place.{is_alone};
ghost use Rattle.mama_msg.specs.Shared.{rows_in, fields_of};

use crate::field::{Field, Key};
use crate::rows::{copies_of, put, put_all};
use crate::scan::new_keys;
use mama_memory::OutOfMemory;
use std::alloc::Global;
use std::slice;
use std::sync::Arc;

/// The fields in a block: one, which lies in the block itself, or a list.
#[derive(Debug, Drop)]
pub(crate) enum Body {
    One(Field),
    Many(Vec<Field>),
}

/// What a message keeps: no block where it has no fields.
pub(crate) type Shared = Option<Arc<Body>>;

impl Body {
    fn rows(&self) -> &[Field]
        ensures { result.now ≡ rows_in self.now }
    {
        match self {
            Body::One(field) => slice::from_ref(field),
            Body::Many(fields) => fields.as_slice(),
        }
    }

    // Puts a field in. It comes back where there is no room for it.
    fn put(&mut self, field: Field) -> Result<(), Field>
        requires { AreDistinct (rows_in self.old) }
        ensures ok { OnOk result (rows_in self.new ≡ updated (rows_in self.old) field) }
        ensures err { OnErr result (rows_in self.new ≡ rows_in self.old) }
        ensures back { IfErr result (λ back. back ≡ field) }
    {
        match self {
            Body::One(own) => replace(own, field),
            Body::Many(rows) => put(rows, 0, field).map(|_| ()),
        }
    }

    // Puts fields in, all of them or none. They come back where there is no room for them.
    fn put_all(&mut self, others: Vec<Field>) -> Result<(), Vec<Field>>
        requires distinct { AreDistinct (rows_in self.old) }
        requires others_distinct { AreDistinct others.items }
        ensures ok { OnOk result (rows_in self.new ≡ apply (rows_in self.old) others.items) }
        ensures err { OnErr result (rows_in self.new ≡ rows_in self.old) }
        ensures back { IfErr result (λ back. back.items ≡ others.items) }
    {
        match self {
            Body::One(_) => Err(others),
            Body::Many(rows) => put_all(rows, others),
        }
    }
}

// Puts a field in the place of one with its key.
fn replace(own: &mut Field, field: Field) -> Result<(), Field>
    ensures ok { OnOk result (own.new ∷ [] ≡ updated (own.old ∷ []) field) }
    ensures err { OnErr result (own.new ≡ own.old) }
    ensures back { IfErr result (λ back. back ≡ field) }
{
    if own.is_at(&field.key()) {
        *own = field;
        Ok(())
    } else {
        Err(field)
    }
}

/// The fields of a message.
pub(crate) fn fields(body: &Shared) -> &[Field]
    ensures { result.now ≡ fields_of body.now }
{
    match body {
        None => &[],
        Some(block) => block.rows(),
    }
}

/// The same fields, in the same block.
pub(crate) fn same(body: &Shared) -> Result<Shared, OutOfMemory>
    ensures { IfOk result (λ copy. fields_of copy ≡ fields_of body.now) }
{
    match body {
        None => Ok(None),
        Some(block) => Ok(Some(Arc::try_clone(block)?)),
    }
}

// The fields, one of them in place.
fn body_of(fields: Vec<Field>) -> Body
    ensures { rows_in result ≡ fields.items }
{
    let mut fields = fields;
    if fields.len() == 1 {
        Body::One(fields.remove(0))
    } else {
        Body::Many(fields)
    }
}

/// The fields in a block of their own.
pub(crate) fn shared(alloc: Global, fields: Vec<Field>) -> Result<Shared, OutOfMemory>
    ensures { IfOk result (λ body. fields_of body ≡ fields.items) }
{
    if fields.is_empty() {
        return Ok(None);
    }
    let block = Arc::new(alloc, body_of(fields))?;
    Ok(Some(block))
}

// A field in a block of its own.
fn alone(alloc: Global, field: Field) -> Result<Arc<Body>, Field>
    ensures ok { IfOk result (λ block. rows_in (arc_value block) ≡ field ∷ []) }
    ensures back { IfErr result (λ back. back ≡ field) }
{
    match Arc::new(alloc, Body::One(field)) {
        Ok(block) => Ok(block),
        Err(failed) => match failed.value {
            Body::One(field) => Err(field),
            Body::Many(_) => unreachable!(),
        },
    }
}

// Copies of fields in a block of their own, with room for some more.
fn copied(alloc: Global, fields: &[Field], more: usize) -> Result<Arc<Body>, OutOfMemory>
    ensures { IfOk result (λ block. rows_in (arc_value block) ≡ fields.now) }
{
    let copies = copies_of(alloc, fields, more)?;
    Ok(Arc::new(alloc, Body::Many(copies))?)
}

// Puts a field into a block that has one owner. Else it comes back.
fn put_in_place(block: &mut Arc<Body>, field: Field) -> Result<(), Field>
    requires { AreDistinct (rows_in (arc_value block.old)) }
    ensures ok { OnOk result (rows_in (arc_value block.new) ≡ updated (rows_in (arc_value block.old)) field) }
    ensures err { OnErr result (rows_in (arc_value block.new) ≡ rows_in (arc_value block.old)) }
    ensures back { IfErr result (λ back. back ≡ field) }
{
    match Arc::get_mut(block) {
        Some(body) => body.put(field),
        None => Err(field),
    }
}

// Whether there is no field but one with this key.
fn is_alone(fields: &[Field], key: &Key) -> bool
    ensures { result ≡ is_alone key.now fields.now }
{
    match fields {
        [] => true,
        [own] => own.is_at(key),
        _ => false,
    }
}

// A block with these fields, and one more put in.
fn put_anew(alloc: Global, fields: &[Field], field: Field) -> Result<Arc<Body>, Field>
    requires { AreDistinct fields.now }
    ensures ok { IfOk result (λ block. rows_in (arc_value block) ≡ updated fields.now field) }
    ensures back { IfErr result (λ back. back ≡ field) }
{
    if is_alone(fields, &field.key()) {
        return alone(alloc, field);
    }
    match copied(alloc, fields, 1) {
        Ok(block) => {
            let mut block = block;
            put_in_place(&mut block, field)?;
            Ok(block)
        }
        Err(OutOfMemory) => Err(field),
    }
}

// Puts a field into a block.
fn put_in_block(alloc: Global, block: &mut Arc<Body>, field: Field) -> Result<(), Field>
    requires { AreDistinct (rows_in (arc_value block.old)) }
    ensures ok { OnOk result (rows_in (arc_value block.new) ≡ updated (rows_in (arc_value block.old)) field) }
    ensures err { OnErr result (rows_in (arc_value block.new) ≡ rows_in (arc_value block.old)) }
    ensures back { IfErr result (λ back. back ≡ field) }
{
    match put_in_place(block, field) {
        Ok(()) => Ok(()),
        Err(field) => {
            *block = put_anew(alloc, block.rows(), field)?;
            Ok(())
        }
    }
}

/// Puts a field in the place of the one with its key, or last where there is none. It comes back where no memory is
/// found.
pub(crate) fn put_field(alloc: Global, body: &mut Shared, field: Field) -> Result<(), Field>
    requires { AreDistinct (fields_of body.old) }
    ensures ok { OnOk result (fields_of body.new ≡ updated (fields_of body.old) field) }
    ensures err { OnErr result (fields_of body.new ≡ fields_of body.old) }
    ensures back { IfErr result (λ back. back ≡ field) }
{
    match body {
        Some(block) => put_in_block(alloc, block, field),
        None => {
            *body = Some(alone(alloc, field)?);
            Ok(())
        }
    }
}

// Puts fields into a block that has one owner, all of them or none. Else they come back.
fn put_all_in_place(block: &mut Arc<Body>, others: Vec<Field>) -> Result<(), Vec<Field>>
    requires distinct { AreDistinct (rows_in (arc_value block.old)) }
    requires others_distinct { AreDistinct others.items }
    ensures ok { OnOk result (rows_in (arc_value block.new) ≡ apply (rows_in (arc_value block.old)) others.items) }
    ensures err { OnErr result (rows_in (arc_value block.new) ≡ rows_in (arc_value block.old)) }
    ensures back { IfErr result (λ back. back.items ≡ others.items) }
{
    match Arc::get_mut(block) {
        Some(body) => body.put_all(others),
        None => Err(others),
    }
}

// A block with these fields, and others put in.
fn put_all_anew(
    alloc: Global,
    fields: &[Field],
    others: Vec<Field>,
) -> Result<Arc<Body>, OutOfMemory>
    requires distinct { AreDistinct fields.now }
    requires others_distinct { AreDistinct others.items }
    ensures { IfOk result (λ block. rows_in (arc_value block) ≡ apply fields.now others.items) }
{
    let mut block = copied(alloc, fields, new_keys(fields, &others))?;
    match put_all_in_place(&mut block, others) {
        Ok(()) => Ok(block),
        Err(_) => Err(OutOfMemory),
    }
}

// Puts fields into a block, all of them or none.
fn put_all_in_block(
    alloc: Global,
    block: &mut Arc<Body>,
    others: Vec<Field>,
) -> Result<(), OutOfMemory>
    requires distinct { AreDistinct (rows_in (arc_value block.old)) }
    requires others_distinct { AreDistinct others.items }
    ensures ok { OnOk result (rows_in (arc_value block.new) ≡ apply (rows_in (arc_value block.old)) others.items) }
    ensures err { OnErr result (rows_in (arc_value block.new) ≡ rows_in (arc_value block.old)) }
{
    match put_all_in_place(block, others) {
        Ok(()) => Ok(()),
        Err(others) => {
            *block = put_all_anew(alloc, block.rows(), others)?;
            Ok(())
        }
    }
}

/// Puts fields in one after another, all of them or none.
pub(crate) fn put_fields(
    alloc: Global,
    body: &mut Shared,
    others: Vec<Field>,
) -> Result<(), OutOfMemory>
    requires distinct { AreDistinct (fields_of body.old) }
    requires others_distinct { AreDistinct others.items }
    ensures ok { OnOk result (fields_of body.new ≡ apply (fields_of body.old) others.items) }
    ensures err { OnErr result (fields_of body.new ≡ fields_of body.old) }
{
    match body {
        Some(block) => put_all_in_block(alloc, block, others),
        None => {
            *body = shared(alloc, others)?;
            Ok(())
        }
    }
}
