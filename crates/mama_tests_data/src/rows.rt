//! What rows of tables stand for: numbers, and messages of fields as scripts write them.

use mama_msg::Msg;
use mama_words::{Nums, parted, print_fields, read_message};
use std::alloc::Global;
use std::test::Fail;

/// A word as a number, 0 where it is none.
pub fn number(word: &str) -> u32 {
    word.parse::<u32>().unwrap_or(0)
}

/// A row's first word as a number, and what stands behind the space.
pub fn numbered(row: &str) -> (u32, &str) {
    let (word, rest) = row.split_once(' ').unwrap_or((row, ""));
    (number(word), rest)
}

/// A message of these fields; none are in an empty text.
pub fn message(alloc: Global, text: &str) -> Result<Msg, Fail> {
    if text.is_empty() {
        return Ok(Msg::new(alloc));
    }
    let words = parted(alloc, text.as_bytes())?;
    Ok(read_message(alloc, Nums::Known, &words)?)
}

/// The fields of a message, each after a space.
pub fn fields(alloc: Global, msg: &Msg) -> Result<Vec<u8>, Fail> {
    let mut out = Vec::new(alloc);
    print_fields(msg, &mut out)?;
    Ok(out)
}

/// Whether a message has just these fields, in this order.
pub fn has_fields(alloc: Global, msg: &Msg, text: &str) -> Result<bool, Fail> {
    let out = fields(alloc, msg)?;
    match out.split_first() {
        Some((_, printed)) => Ok(printed == text.as_bytes()),
        None => Ok(text.is_empty()),
    }
}
