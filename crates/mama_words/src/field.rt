ghost use Rattle.std.specs.Prelude.{◌≡◌, ◌++◌, length, take, map, OnOk, OnErr};
ghost use Rattle.mama_words.specs.Reading.{or_fault};
ghost use Rattle.mama_words.specs.Answer.{Gives};
ghost use Rattle.mama_words.specs.Field as fields;
ghost use Rattle.mama_words.specs.Lower.{lower};

use crate::appending::all_or_nothing;
use crate::error::ReadError;
use crate::number::read_below;
use crate::nums::Nums;
use crate::parting::cut_at;
use crate::value::{put_value, read_value, type_of};
use crate::value_type::{put_type, read_type};
use mama_edge::print_u64;
use mama_memory::OutOfMemory;
use mama_msg::{Field, Msg, Name};
use std::alloc::Global;

fn read_name(text: &[u8]) -> Option<Name>
    ensures { result ≡ fields.name_in text.now }
{
    Name::new(text)
}

/// The field that a word spells. Fault 6 where it has not three colons or its name is none, 7 where its fid, its type
/// or its value is none, and 8 where its fid is 0 and it has no name. The type `nums` is one where it is known.
#[tactic(auto, unfolding(crate::specs::Field::field_in))]
pub fn read_field(alloc: Global, nums: Nums, word: &[u8]) -> Result<Field, ReadError>
    ensures { Gives (λ x. x) result (fields.field_in nums word.now) }
{
    let (fid, rest) = cut_at(b':', word).ok_or(ReadError::Fault(6))?;
    let (name, rest) = cut_at(b':', rest).ok_or(ReadError::Fault(6))?;
    let (kind, value) = cut_at(b':', rest).ok_or(ReadError::Fault(6))?;
    let name = read_name(name).ok_or(ReadError::Fault(6))?;
    let fid = read_below(1 << 16, fid).ok_or(ReadError::Fault(7))?;
    let kind = read_type(nums, kind).ok_or(ReadError::Fault(7))?;
    let value = read_value(alloc, kind, value)?;
    Field::new(fid as u16, name, value).ok_or(ReadError::Fault(8))
}

// The lower of a fault that was met, if there was one, and another.
fn lower(least: Option<u8>, fault: u8) -> u8
    ensures { result ≡ lower least fault }
{
    match least {
        None => fault,
        Some(other) => other.min(fault),
    }
}

// The fields that the words spell, or the lowest fault of all the words.
fn read_field_list(alloc: Global, nums: Nums, words: &[&[u8]]) -> Result<Vec<Field>, ReadError>
    ensures { Gives (λ v. v.items) result (fields.fields_in nums (map (λ w. w.now) words.now)) }
{
    let mut found = Vec::with_capacity(alloc, words.len())?;
    let mut least = None;
    for word in words {
        match read_field(alloc, nums, word) {
            Ok(field) => found.push(field)?,
            Err(ReadError::Memory) => return Err(ReadError::Memory),
            Err(ReadError::Fault(fault)) => least = Some(lower(least, fault)),
        }
    }
    match least {
        None => Ok(found),
        Some(fault) => Err(ReadError::Fault(fault)),
    }
}

// The message of these fields. Fault 8 where two have one key.
#[tactic(auto, using(crate::proofs::Distinct::accepted, crate::proofs::Distinct::refused))]
fn message_of(found: Vec<Field>) -> Result<Msg, ReadError>
    ensures { Gives (λ m. m) result (fields.distinct_or_fault found.items) }
{
    match Msg::of(found)? {
        Some(msg) => Ok(msg),
        None => Err(ReadError::Fault(8)),
    }
}

/// The message that the words spell, a field for each. Otherwise the lowest fault of all the words, and fault 8 where
/// two fields have one key. A message of any number of fields is read.
pub fn read_message(alloc: Global, nums: Nums, words: &[&[u8]]) -> Result<Msg, ReadError>
    ensures { Gives (λ m. m) result (fields.message_in nums (map (λ w. w.now) words.now)) }
{
    let found = read_field_list(alloc, nums, words)?;
    message_of(found)
}

// Appends the spelling of a field.
fn put_field(field: &Field, out: &mut Vec<u8>) -> Result<(), OutOfMemory>
    ensures ok { OnOk result (out.new.items ≡ out.old.items ++ fields.field_text field.now) }
    ensures err { OnErr result (take (length out.old.items) out.new.items ≡ out.old.items) }
{
    print_u64(u64::from(field.fid()), out)?;
    out.push(b':')?;
    out.extend_from_slice(field.name().bytes())?;
    out.push(b':')?;
    put_type(type_of(field.value()), out)?;
    out.push(b':')?;
    put_value(field.value(), out)?;
    Ok(())
}

/// Appends the spelling of a field. Where no memory is found, nothing is appended.
pub fn print_field(field: &Field, out: &mut Vec<u8>) -> Result<(), OutOfMemory>
    ensures ok { OnOk result (out.new.items ≡ out.old.items ++ fields.field_text field.now) }
    ensures err { OnErr result (out.new.items ≡ out.old.items) }
{
    let start = out.len();
    let printed = put_field(field, out);
    all_or_nothing(printed, start, out)
}

// Appends a space and the spelling of each field.
fn put_fields(msg: &Msg, out: &mut Vec<u8>) -> Result<(), OutOfMemory>
    ensures ok { OnOk result (out.new.items ≡ out.old.items ++ fields.fields_text msg.now) }
    ensures err { OnErr result (take (length out.old.items) out.new.items ≡ out.old.items) }
{
    for i in 0..msg.len() {
        out.push(b' ')?;
        put_field(msg.at(i), out)?;
    }
    Ok(())
}

/// Appends the fields of a message, each behind a space. Where no memory is found, nothing is appended.
pub fn print_fields(msg: &Msg, out: &mut Vec<u8>) -> Result<(), OutOfMemory>
    ensures ok { OnOk result (out.new.items ≡ out.old.items ++ fields.fields_text msg.now) }
    ensures err { OnErr result (out.new.items ≡ out.old.items) }
{
    let start = out.len();
    let printed = put_fields(msg, out);
    all_or_nothing(printed, start, out)
}
