//! Putting fields into a list, each in the place of the one with its key, or last where there is none.
ghost use Rattle.std.specs.Prelude.{◌≡◌, ◌<◌, ◌≤◌, false, length, IsOk, IfOk, OnOk, IfErr, OnErr, vec_len};
ghost use Rattle.std.specs.Vec.{vec_capacity};
ghost use Rattle.mama_msg.specs.Field.{key_of};
ghost use Rattle.mama_msg.specs.Message.{has_key, updated, apply, AreDistinct};

use crate::field::Field;
use crate::scan::{new_keys, place_of};
use mama_memory::OutOfMemory;
use std::alloc::Global;

/// Copies of fields, with room for some more.
pub(crate) fn copies_of(
    alloc: Global,
    fields: &[Field],
    more: usize,
) -> Result<Vec<Field>, OutOfMemory>
    ensures { IfOk result (λ copies. copies.items ≡ fields.now) }
{
    let mut copies = Vec::with_capacity(alloc, fields.len().saturating_add(more))?;
    for field in fields {
        copies.push(field.try_clone()?)?;
    }
    Ok(copies)
}

/// Puts a field in, whose key is looked for from a place on. The answer is the place behind it, or the field where no
/// memory is found for a new one.
pub(crate) fn put(rows: &mut Vec<Field>, from: usize, field: Field) -> Result<usize, Field>
    requires distinct { AreDistinct rows.old.items }
    requires within { from ≤ vec_len rows.old }
    ensures ok { OnOk result (rows.new.items ≡ updated rows.old.items field) }
    ensures next { IfOk result (λ next. next ≤ vec_len rows.new) }
    ensures err { OnErr result (rows.new.items ≡ rows.old.items) }
    ensures back { IfErr result (λ back. back ≡ field) }
    ensures room { (has_key (key_of field) rows.old.items ≡ false → vec_len rows.old < vec_capacity rows.old) → IsOk result }
    ensures capacity { vec_capacity rows.old ≤ vec_capacity rows.new }
{
    match place_of(rows, from, &field.key()) {
        Some(i) => {
            rows[i] = field;
            Ok(i + 1)
        }
        None => match rows.push(field) {
            Ok(()) => Ok(rows.len()),
            Err(failed) => Err(failed.value),
        },
    }
}

// Puts fields in one after another, where there is room for those with new keys.
fn put_reserved(rows: &mut Vec<Field>, others: Vec<Field>)
    requires distinct { AreDistinct rows.old.items }
    requires others_distinct { AreDistinct others.items }
    requires room { length (apply rows.old.items others.items) ≤ vec_capacity rows.old }
    ensures { rows.new.items ≡ apply rows.old.items others.items }
{
    let mut from = 0;
    for field in others {
        from = put(rows, from, field).unwrap();
    }
}

/// Puts fields in one after another, all of them or none. Where no memory is found they come back.
pub(crate) fn put_all(rows: &mut Vec<Field>, others: Vec<Field>) -> Result<(), Vec<Field>>
    requires distinct { AreDistinct rows.old.items }
    requires others_distinct { AreDistinct others.items }
    ensures ok { OnOk result (rows.new.items ≡ apply rows.old.items others.items) }
    ensures err { OnErr result (rows.new.items ≡ rows.old.items) }
    ensures back { IfErr result (λ back. back.items ≡ others.items) }
{
    if rows.reserve(new_keys(rows, &others)).is_err() {
        return Err(others);
    }
    put_reserved(rows, others);
    Ok(())
}
