//! Bytes as messages.
ghost use Rattle.std.specs.Prelude.{◌≡◌, ◌⊎◌, false, List, [], ◌∷◌, ◌++◌, length, IfOk, OnOk, IfErr, Ok, Err};
ghost use Rattle.mama_msg.specs.Field.{FieldData, key_of};
ghost use Rattle.mama_msg.specs.Message.{has_key};
ghost use Rattle.mama_payload.specs.Giving.{Gives, IsWithin};
ghost use Rattle.mama_payload.specs.Spelling.{spelling};
ghost use Rattle.mama_payload.specs.Spelled.{HasSpelling};
ghost use Rattle.mama_payload.specs.Reading.{field_at, fields_at, version_at, message_at, whole, broken, stopped, decoded};

use crate::encoding::MAX_FIELDS;
use crate::fault::{DecodeFault, Fault, Rule, Stop};
use crate::reading::{byte_of, kind_of, limited_of, name_of, u16_of, value_of};
use crate::version::Version;
use mama_memory::OutOfMemory;
use mama_msg::{AddFault, Field, Msg, Name};
use std::alloc::Global;

/// A field behind those of a message. Whether they have its key is asked before its value is read.
#[tactic(auto, unfolding(crate::specs::Reading::field_at))]
fn field_of<'a>(
    alloc: Global,
    version: Version,
    before: &Msg,
    bytes: &'a [u8],
) -> Result<(Field, &'a [u8]), Stop>
    ensures gives { Gives (λ x. (x.0, x.1.now)) result (field_at version before.now bytes.now) }
    ensures new { IfOk result (λ x. has_key (key_of x.0) before.now ≡ false) }
{
    let (kind, rest) = kind_of(version, bytes)?;
    let (fid, rest) = u16_of(rest)?;
    let (name, rest) = name_of(fid, rest)?;
    let Some(name) = Name::new(name) else {
        unreachable!()
    };
    if before.has_key(fid, &name) {
        return Err(Stop::at(Rule::Repeated, bytes));
    }
    match value_of(alloc, kind, rest) {
        Ok((value, rest)) => match Field::new(fid, name, value) {
            Some(field) => Ok((field, rest)),
            None => unreachable!(),
        },
        Err(stop) => Err(stop),
    }
}

/// Adds a field whose key is new.
fn push(msg: &mut Msg, field: Field) -> Result<(), OutOfMemory>
    requires { has_key (key_of field) msg.old ≡ false }
    ensures { OnOk result (msg.new ≡ msg.old ++ field ∷ []) }
{
    match msg.add(field) {
        Ok(()) => Ok(()),
        Err(AddFault::OutOfMemory(_)) => Err(OutOfMemory),
        Err(AddFault::Present(_)) => unreachable!(),
    }
}

/// As many fields as `count` says.
fn fields_of(alloc: Global, version: Version, count: u8, bytes: &[u8]) -> Result<(Msg, &[u8]), Stop>
    ensures { Gives (λ x. (x.0, x.1.now)) result (fields_at version count [] bytes.now) }
{
    let mut msg = Msg::new(alloc);
    let mut rest = bytes;
    for _ in 0..count {
        match field_of(alloc, version, &msg, rest) {
            Ok((field, after)) => {
                push(&mut msg, field)?;
                rest = after;
            }
            Err(stop) => return Err(stop),
        }
    }
    Ok((msg, rest))
}

/// The version.
#[tactic(auto, unfolding(crate::specs::Reading::version_at))]
fn version_of(bytes: &[u8]) -> Result<(Version, &[u8]), Stop>
    ensures { Gives (λ x. (x.0, x.1.now)) result (version_at bytes.now) }
{
    let (byte, rest) = byte_of(bytes)?;
    match Version::with_byte(byte) {
        Some(version) => Ok((version, rest)),
        None => Err(Stop::at(Rule::BadTag, bytes)),
    }
}

/// A message, and the bytes after it.
#[tactic(auto, unfolding(crate::specs::Reading::message_at))]
fn message_of(alloc: Global, bytes: &[u8]) -> Result<(Msg, &[u8]), Stop>
    ensures { Gives (λ x. (x.0, x.1.now)) result (message_at bytes.now) }
{
    let (version, rest) = version_of(bytes)?;
    let (count, rest) = limited_of(MAX_FIELDS, rest)?;
    match fields_of(alloc, version, count, rest) {
        Ok((msg, rest)) => {
            if version.is_new_for(&msg) {
                return Err(Stop::at(Rule::OldForm, bytes));
            }
            Ok((msg, rest))
        }
        Err(stop) => Err(stop),
    }
}

/// A message, and nothing after it.
fn whole_of(alloc: Global, bytes: &[u8]) -> Result<Msg, Stop>
    ensures { Gives (λ m. m) result (whole bytes.now) }
{
    match message_of(alloc, bytes) {
        Ok((msg, rest)) => {
            if !rest.is_empty() {
                return Err(Stop::at(Rule::Trailing, rest));
            }
            Ok(msg)
        }
        Err(stop) => Err(stop),
    }
}

/// The answer to bytes of this size in which reading stopped.
fn answer(size: usize, stop: Stop) -> DecodeFault
    requires { IsWithin size stop }
    ensures { result ≡ stopped size stop }
{
    let Fault { rule, left } = match stop {
        Stop::OutOfMemory => return DecodeFault::OutOfMemory,
        Stop::Fault(fault) => fault,
    };
    let at = size - left;
    match rule {
        Rule::Truncated => DecodeFault::Truncated { at },
        Rule::BadTag => DecodeFault::BadTag { at },
        Rule::BadText => DecodeFault::BadText { at },
        Rule::Repeated => DecodeFault::Repeated { at },
        Rule::TooMany => DecodeFault::TooMany { at },
        Rule::OldForm => DecodeFault::OldForm { at },
        Rule::Trailing => DecodeFault::Trailing { at },
    }
}

/// What reading gives, unless memory runs out.
fn read(alloc: Global, bytes: &[u8]) -> Result<Msg, DecodeFault>
    ensures { (result ≡ Err DecodeFault.OutOfMemory) ⊎ (result ≡ decoded bytes.now) }
{
    match whole_of(alloc, bytes) {
        Ok(msg) => Ok(msg),
        Err(stop) => Err(answer(bytes.len(), stop)),
    }
}

/// The message that the bytes spell, all of them, or the first fault from the front, with its place.
///
/// It takes time in proportion to the bytes, and no memory but that of the message.
pub fn decode(alloc: Global, bytes: &[u8]) -> Result<Msg, DecodeFault>
    // What is read is spelled so, each byte of it.
    ensures found { IfOk result (λ msg. HasSpelling msg × (bytes.now ≡ spelling msg)) }
    // What is spelled so is read, unless memory runs out.
    ensures only { (fields : List FieldData) → HasSpelling fields → bytes.now ≡ spelling fields
        → (result ≡ Err DecodeFault.OutOfMemory) ⊎ (result ≡ Ok fields) }
    // Which fault it is, and where.
    ensures exact { (result ≡ Err DecodeFault.OutOfMemory) ⊎ (result ≡ decoded bytes.now) }
{
    read(alloc, bytes)
}
