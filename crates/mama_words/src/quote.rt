ghost use Rattle.std.specs.Prelude.{◌≡◌, IfOk};
ghost use Rattle.std.specs.Option.{option_map};
ghost use Rattle.mama_words.specs.Quote.{quoted_in};

use mama_edge::read_quoted;
use mama_memory::OutOfMemory;
use std::alloc::Global;

/// The text that stands between quotes, where the whole word is such a text. A quote and a backslash stand in it
/// behind a backslash, and all its characters are printable.
pub fn read_quoted_word(alloc: Global, word: &[u8]) -> Result<Option<Vec<u8>>, OutOfMemory>
    ensures { IfOk result (λ read. option_map (λ v. v.items) read ≡ quoted_in word.now) }
{
    read_quoted(alloc, word)
}
