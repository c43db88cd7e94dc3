ghost use Rattle.std.specs.Prelude.{◌≡◌, map};
ghost use Rattle.std.specs.Option.{option_map};
ghost use Rattle.mama_words.specs.Reading.{or_fault};
ghost use Rattle.mama_words.specs.Answer.{Gives};
ghost use Rattle.mama_words.specs.Parting as parts;
ghost use Rattle.mama_words.specs.WithWord.{with_word};

use crate::error::ReadError;
use std::alloc::Global;

/// Where a byte of a line stands.
#[derive(Clone, Copy, Debug, PartialEq, Eq)]
pub enum Place {
    /// Outside quotes.
    Outside,
    /// Inside quotes.
    Inside,
    /// Inside quotes, after a backslash.
    Escaped,
}

impl Place {
    // The place after one more byte.
    fn next(self, byte: u8) -> Place
        ensures { result ≡ parts.next_place self byte }
    {
        match self {
            Place::Outside => {
                if byte == b'"' {
                    Place::Inside
                } else {
                    Place::Outside
                }
            }
            Place::Inside => {
                if byte == b'"' {
                    Place::Outside
                } else if byte == b'\\' {
                    Place::Escaped
                } else {
                    Place::Inside
                }
            }
            Place::Escaped => Place::Inside,
        }
    }

    fn is_outside(self) -> bool
        ensures { result ≡ parts.is_outside self }
    {
        match self {
            Place::Outside => true,
            Place::Inside => false,
            Place::Escaped => false,
        }
    }

    // Whether a byte here is a space that parts words.
    fn is_gap(self, byte: u8) -> bool
        ensures { result ≡ parts.is_gap self byte }
    {
        self.is_outside() && byte == b' '
    }
}

/// What stands before the first byte of this kind, and what stands after it. `None` where there is none.
pub fn cut_at(byte: u8, text: &[u8]) -> Option<(&[u8], &[u8])>
    ensures { option_map (λ x. (x.0.now, x.1.now)) result ≡ parts.cut_at byte text.now }
{
    for (i, b) in text.iter().enumerate() {
        if *b == byte {
            return Some((&text[..i], &text[i + 1..]));
        }
    }
    None
}

fn is_plain(byte: u8) -> bool
    ensures { result ≡ parts.is_plain byte }
{
    32 <= byte && byte <= 126
}

// One word more. Fault 2 where it is empty.
fn push_word<'a>(found: &mut Vec<&'a [u8]>, word: &'a [u8]) -> Result<(), ReadError>
    ensures { Gives (λ _. map (λ w. w.now) found.new.items) result (or_fault 2 (with_word (map (λ w. w.now) found.old.items) word.now)) }
{
    if word.is_empty() {
        return Err(ReadError::Fault(2));
    }
    found.push(word)?;
    Ok(())
}

/// The words of a line, as [`parted`] gives them, in place of what the list held. A reader of many lines keeps one list
/// for all of them. After an error the list has some of the words.
pub fn parted_into<'a>(found: &mut Vec<&'a [u8]>, line: &'a [u8]) -> Result<(), ReadError>
    ensures { Gives (λ _. map (λ w. w.now) found.new.items) result (or_fault 2 (parts.parted_in line.now)) }
{
    found.clear();
    let mut place = Place::Outside;
    let mut start = 0;
    for (i, byte) in line.iter().enumerate() {
        if !is_plain(*byte) {
            return Err(ReadError::Fault(2));
        }
        if place.is_gap(*byte) {
            push_word(found, &line[start..i])?;
            start = i + 1;
            continue;
        }
        place = place.next(*byte);
    }
    if !place.is_outside() {
        return Err(ReadError::Fault(2));
    }
    push_word(found, &line[start..])
}

/// The words of a line without its line feed: what stands between its spaces, where a space inside quotes does not
/// count. Fault 2 where it has a byte outside 0x20 to 0x7e, a quote that is not closed, or a word that is empty, as
/// before a space at its front, after one at its end, and between two.
pub fn parted(alloc: Global, line: &[u8]) -> Result<Vec<&[u8]>, ReadError>
    ensures { Gives (λ v. map (λ w. w.now) v.items) result (or_fault 2 (parts.parted_in line.now)) }
{
    let mut found = Vec::new(alloc);
    parted_into(&mut found, line)?;
    Ok(found)
}
