//! Names and texts, byte by byte.
ghost use Rattle.std.specs.Prelude.{◌≡◌, true, length, IfOk};
ghost use Rattle.std.specs.List.{list_all};
ghost use Rattle.mama_payload.specs.Giving.{Gives};
ghost use Rattle.mama_payload.specs.Reading.{allowed, letters_at};

use crate::fault::{Rule, Stop};
use mama_msg::{is_name_byte, is_printable};

/// Which bytes may stand in letters.
#[derive(Clone, Copy)]
pub enum Alphabet {
    /// Those of a name.
    Name,
    /// Those of a text.
    Text,
}

impl Alphabet {
    fn allows(self, byte: u8) -> bool
        ensures { result ≡ allowed self byte }
    {
        match self {
            Alphabet::Name => is_name_byte(byte),
            Alphabet::Text => is_printable(byte),
        }
    }
}

/// As many letters as `count` says, and the bytes after them. A letter that the alphabet lacks comes before the end.
pub fn letters_of(alphabet: Alphabet, count: u8, bytes: &[u8]) -> Result<(&[u8], &[u8]), Stop>
    ensures gives { Gives (λ x. (x.0.now, x.1.now)) result (letters_at (allowed alphabet) count bytes.now) }
    ensures length { IfOk result (λ x. length x.0.now ≡ count) }
    ensures letters { IfOk result (λ x. list_all (allowed alphabet) x.0.now ≡ true) }
{
    let count = usize::from(count);
    let within = count.min(bytes.len());
    for i in 0..within {
        if !alphabet.allows(bytes[i]) {
            return Err(Stop::at(Rule::BadText, &bytes[i..]));
        }
    }
    if bytes.len() < count {
        return Err(Stop::at_end());
    }
    Ok(bytes.split_at(count))
}
