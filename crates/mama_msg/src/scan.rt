//! Looking through the fields of a message.
ghost use Rattle.std.specs.Prelude.{◌≡◌, ◌≢◌, ◌^◌, ◌<◌, ◌≤◌, false, not, length, count_by, IfSome, IfNone};
ghost use Rattle.std.specs.Option.{option_copied};
ghost use Rattle.mama_msg.specs.Field.{key_of};
ghost use Rattle.mama_msg.specs.Message.{has_key, with_name, with_fid};
ghost use Rattle.mama_msg.specs.Place.{IsPlace};

use crate::field::{Field, Key};
use crate::name::Name;

/// Whether some field has this key.
pub(crate) fn has(fields: &[Field], key: &Key) -> bool
    ensures { result ≡ has_key key.now fields.now }
{
    fields.iter().any(|field| field.is_at(key))
}

/// The field with a fid above 0.
pub(crate) fn numbered(fields: &[Field], fid: u16) -> Option<&Field>
    ensures { option_copied result ≡ with_fid fid fields.now }
{
    fields.iter().find(|field| field.fid() == fid)
}

/// The first field in order with this name.
pub(crate) fn first_named<'a>(fields: &'a [Field], name: &Name) -> Option<&'a Field>
    ensures { option_copied result ≡ with_name name.now fields.now }
{
    fields.iter().find(|field| field.name() == name)
}

// The first place of a field with this key.
fn first_place(fields: &[Field], key: &Key) -> Option<usize>
    ensures some { IfSome result (λ i. IsPlace key.now fields.now i) }
    ensures none { IfNone result (has_key key.now fields.now ≡ false) }
{
    for i in 0..fields.len() {
        if fields[i].is_at(key) {
            return Some(i);
        }
    }
    None
}

/// A place of a field with this key. It is looked for from a place on, and then before it: where keys are asked for in
/// the order of the fields, each is found in a few steps.
pub(crate) fn place_of(fields: &[Field], from: usize, key: &Key) -> Option<usize>
    requires { from ≤ length fields.now }
    ensures some { IfSome result (λ i. IsPlace key.now fields.now i) }
    ensures none { IfNone result (has_key key.now fields.now ≡ false) }
{
    let (front, back) = fields.split_at(from);
    match first_place(back, key) {
        Some(i) => Some(from + i),
        None => first_place(front, key),
    }
}

/// How many fields of an update have keys that no field has.
pub(crate) fn new_keys(fields: &[Field], update: &[Field]) -> usize
    ensures value { result ≡ count_by (λ f. not (has_key (key_of f) fields.now)) update.now }
    ensures small { result ≤ length update.now }
{
    let mut from = 0;
    let mut new = 0;
    for field in update {
        match place_of(fields, from, &field.key()) {
            Some(i) => from = i + 1,
            None => new += 1,
        }
    }
    new
}
