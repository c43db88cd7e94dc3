ghost use Rattle.std.specs.Prelude.{◌≡◌, ℕ, List, true, false, ◌++◌, length, take, IfOk, IfSome, IfNone, OnOk, OnErr};
ghost use Rattle.std.specs.Option.{option_map};
ghost use Rattle.mama_edge.specs.Quoted.{IsPrintable, escaped, quoted};
ghost use Rattle.mama_edge.specs.Unquoting.{unquoted, Continues};

use mama_memory::OutOfMemory;
use std::alloc::Global;

/// The text that stands between these quotes, where the whole of it is the spelling of a quoted text of printable
/// characters. Quotes and backslashes in it stand behind a backslash, and nothing else does.
pub fn read_quoted(alloc: Global, text: &[u8]) -> Result<Option<Vec<u8>>, OutOfMemory>
    ensures found { IfOk result (λ answer. IfSome answer (λ read.
        (text.now ≡ quoted read.items) × IsPrintable read.items)) }
    ensures none { IfOk result (λ answer. IfNone answer
        ((t : List ℕ) → IsPrintable t → text.now ≡ quoted t → ⊥)) }
{
    if text.is_empty() {
        return Ok(None);
    }
    if text[0] != b'"' {
        return Ok(None);
    }
    read_to_quote(alloc, &text[1..])
}

/// The text in front of the quote that ends these bytes.
fn read_to_quote(alloc: Global, bytes: &[u8]) -> Result<Option<Vec<u8>>, OutOfMemory>
    ensures { IfOk result (λ answer. option_map (λ read. read.items) answer ≡ unquoted false bytes.now) }
{
    let mut text = Vec::new(alloc);
    let mut is_escaped = false;
    for (place, byte) in bytes.iter().enumerate() {
        match take_byte(&mut text, is_escaped, *byte)? {
            Taken::More(next) => is_escaped = next,
            Taken::Closed if place + 1 == bytes.len() => return Ok(Some(text)),
            Taken::Closed => return Ok(None),
            Taken::Bad => return Ok(None),
        }
    }
    Ok(None)
}

/// How a reader goes on after a byte.
#[derive(Clone, Copy)]
enum Taken {
    /// There is more to come, behind a backslash or not.
    More(bool),
    /// The text is closed.
    Closed,
    /// The byte may not stand there.
    Bad,
}

/// Takes a byte, which may stand behind a backslash, and appends it where it is a character of the text.
fn take_byte(text: &mut Vec<u8>, is_escaped: bool, byte: u8) -> Result<Taken, OutOfMemory>
    ensures { IfOk result (Continues text.old.items text.new.items is_escaped byte) }
{
    if is_escaped {
        take_escaped(text, byte)
    } else {
        take_plain(text, byte)
    }
}

/// Takes a byte behind a backslash.
fn take_escaped(text: &mut Vec<u8>, byte: u8) -> Result<Taken, OutOfMemory>
    ensures { IfOk result (Continues text.old.items text.new.items true byte) }
{
    match byte {
        b'"' | b'\\' => {
            text.push(byte)?;
            Ok(Taken::More(false))
        }
        _ => Ok(Taken::Bad),
    }
}

/// Takes a byte that stands behind no backslash.
fn take_plain(text: &mut Vec<u8>, byte: u8) -> Result<Taken, OutOfMemory>
    ensures { IfOk result (Continues text.old.items text.new.items false byte) }
{
    if byte == b'"' {
        return Ok(Taken::Closed);
    }
    if byte == b'\\' {
        return Ok(Taken::More(true));
    }
    if byte < 0x20 || byte > 0x7e {
        return Ok(Taken::Bad);
    }
    text.push(byte)?;
    Ok(Taken::More(false))
}

/// Appends the quoted spelling of the text. After want of memory `out` is as before.
pub fn print_quoted(text: &[u8], out: &mut Vec<u8>) -> Result<(), OutOfMemory>
    requires { IsPrintable text.now }
    ensures ok { OnOk result (out.new.items ≡ out.old.items ++ quoted text.now) }
    ensures err { OnErr result (out.new.items ≡ out.old.items) }
{
    let start = out.len();
    let printed = push_quoted(text, out);
    if printed.is_err() {
        out.truncate(start);
    }
    printed
}

/// Appends the quoted spelling of the text. After want of memory a part of it stands behind what stood in `out`.
fn push_quoted(text: &[u8], out: &mut Vec<u8>) -> Result<(), OutOfMemory>
    ensures ok { OnOk result (out.new.items ≡ out.old.items ++ quoted text.now) }
    ensures err { OnErr result (take (length out.old.items) out.new.items ≡ out.old.items) }
{
    out.push(b'"')?;
    for byte in text {
        push_escaped(*byte, out)?;
    }
    out.push(b'"')?;
    Ok(())
}

/// Appends a character as it stands between quotes. After want of memory `out` is as before.
fn push_escaped(byte: u8, out: &mut Vec<u8>) -> Result<(), OutOfMemory>
    ensures ok { OnOk result (out.new.items ≡ out.old.items ++ escaped byte) }
    ensures err { OnErr result (out.new.items ≡ out.old.items) }
{
    match byte {
        b'"' | b'\\' => out.extend_from_slice(&[b'\\', byte])?,
        _ => out.push(byte)?,
    }
    Ok(())
}

/// Two texts with one quoted spelling are one.
pub fn quoted_is_injective()
    ensures { (s t : List ℕ) → quoted s ≡ quoted t → s ≡ t }
{}

/// The quoted spelling of printable characters has printable characters alone, so no line ends in it.
pub fn quoted_is_printable()
    ensures { (t : List ℕ) → IsPrintable t → IsPrintable (quoted t) }
{}
