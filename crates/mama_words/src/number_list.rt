//! Lists of numbers: between brackets, with one comma between two.
ghost use Rattle.std.specs.Prelude.{◌≡◌, ◌++◌, length, take, map, IfOk, OnOk, OnErr};
ghost use Rattle.std.specs.Option.{option_map};
ghost use Rattle.std.specs.List.{flat_map};
ghost use Rattle.mama_words.specs.Reading.{or_fault};
ghost use Rattle.mama_words.specs.Answer.{Gives};
ghost use Rattle.mama_words.specs.Parting.{pieces};
ghost use Rattle.mama_words.specs.NumberList as lists;

use crate::error::ReadError;
use crate::number::read_int;
use crate::parting::cut_at;
use mama_edge::print_i64;
use mama_memory::OutOfMemory;
use mama_msg::NumbersValue;
use std::alloc::Global;

// What stands between brackets, where the whole text does so.
fn read_bracketed(text: &[u8]) -> Option<&[u8]>
    ensures { option_map (λ x. x.now) result ≡ lists.bracketed_in text.now }
{
    match text {
        [b'[', rest @ ..] => {
            let (inside, after) = cut_at(b']', rest)?;
            if after.is_empty() { Some(inside) } else { None }
        }
        _ => None,
    }
}

// The numbers that the pieces between commas spell.
fn read_ints(alloc: Global, text: &[u8]) -> Result<Option<Vec<i64>>, OutOfMemory>
    ensures { IfOk result (λ read. option_map (λ v. v.items) read ≡ lists.ints_in (pieces 44 text.now)) }
{
    let mut numbers = Vec::new(alloc);
    let mut rest = text;
    while let Some((piece, after)) = cut_at(b',', rest) {
        match read_int(piece) {
            None => return Ok(None),
            Some(number) => {
                numbers.push(number)?;
                rest = after;
            }
        }
    }
    match read_int(rest) {
        None => Ok(None),
        Some(number) => {
            numbers.push(number)?;
            Ok(Some(numbers))
        }
    }
}

// The numbers that a text spells, none where it is empty.
fn read_list(alloc: Global, text: &[u8]) -> Result<Option<Vec<i64>>, OutOfMemory>
    ensures { IfOk result (λ read. option_map (λ v. v.items) read ≡ lists.list_in text.now) }
{
    if text.is_empty() {
        return Ok(Some(Vec::new(alloc)));
    }
    read_ints(alloc, text)
}

// Numbers as a value, or fault 7 where there are too many.
#[tactic(auto, using(crate::proofs::NumberLists::if_few_at, crate::proofs::NumberLists::if_few_not))]
fn numbers_value(alloc: Global, numbers: &[i64]) -> Result<NumbersValue, ReadError>
    ensures { Gives (λ x. x) result (or_fault 7 (lists.if_few (Some numbers.now))) }
{
    match NumbersValue::new(alloc, numbers)? {
        None => Err(ReadError::Fault(7)),
        Some(value) => Ok(value),
    }
}

#[tactic(auto, unfolding(crate::specs::NumberList::numbers_in))]
pub(crate) fn read_numbers(alloc: Global, word: &[u8]) -> Result<NumbersValue, ReadError>
    ensures { Gives (λ x. x) result (or_fault 7 (lists.numbers_in word.now)) }
{
    let inside = read_bracketed(word).ok_or(ReadError::Fault(7))?;
    let numbers = read_list(alloc, inside)?.ok_or(ReadError::Fault(7))?;
    numbers_value(alloc, &numbers)
}

fn put_after_commas(numbers: &[i64], out: &mut Vec<u8>) -> Result<(), OutOfMemory>
    ensures ok { OnOk result (out.new.items ≡ out.old.items ++ flat_map lists.after_comma numbers.now) }
    ensures err { OnErr result (take (length out.old.items) out.new.items ≡ out.old.items) }
{
    for number in numbers {
        out.push(b',')?;
        print_i64(*number, out)?;
    }
    Ok(())
}

fn put_list(numbers: &[i64], out: &mut Vec<u8>) -> Result<(), OutOfMemory>
    ensures ok { OnOk result (out.new.items ≡ out.old.items ++ lists.with_commas numbers.now) }
    ensures err { OnErr result (take (length out.old.items) out.new.items ≡ out.old.items) }
{
    match numbers {
        [] => Ok(()),
        [first, rest @ ..] => {
            print_i64(*first, out)?;
            put_after_commas(rest, out)
        }
    }
}

pub(crate) fn put_numbers(value: &NumbersValue, out: &mut Vec<u8>) -> Result<(), OutOfMemory>
    ensures ok { OnOk result (out.new.items ≡ out.old.items ++ lists.numbers_text value.now) }
    ensures err { OnErr result (take (length out.old.items) out.new.items ≡ out.old.items) }
{
    out.push(b'[')?;
    put_list(value.numbers(), out)?;
    out.push(b']')?;
    Ok(())
}
