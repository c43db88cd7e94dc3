//! Rows of tables: a number in front, and lines with a bar at the end of each.

use std::alloc::{AllocError, Global};

/// A row's first word as a number, and what stands behind the space.
pub fn numbered(row: &str) -> (u64, &str) {
    match row.split_once(' ') {
        Some((number, rest)) => (number.parse::<u64>().unwrap_or(0), rest),
        None => (row.parse::<u64>().unwrap_or(0), ""),
    }
}

/// A text in one row, with a bar in place of each line's end.
pub fn text_of(alloc: Global, row: &str) -> Result<Vec<u8>, AllocError> {
    let mut text = Vec::new(alloc);
    for byte in row.bytes() {
        text.push(if byte == b'|' { b'\n' } else { byte })?;
    }
    Ok(text)
}
