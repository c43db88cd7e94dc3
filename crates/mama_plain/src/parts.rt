ghost use Rattle.std.specs.Prelude.{◌≡◌, ◌≤◌, length, option_map};
ghost use Rattle.mama_plain.specs.Parts as parts;

use mama_words::cut_at;

/// What stands before the first line of a text that is just `log`, and what stands behind that line. `None` where no such
/// line is ended by a line feed.
pub(crate) fn cut_at_log(text: &[u8]) -> Option<(&[u8], &[u8])>
    ensures { option_map (λ cut. (cut.0.now, cut.1.now)) result ≡ parts.cut_at_log text.now }
{
    let mut rest = text;
    while let Some((line, after)) = cut_at(b'\n', rest) {
        if line == b"log".as_slice() {
            return Some((&text[..text.len() - rest.len()], after));
        }
        rest = after;
    }
    None
}

/// How many lines of a text are ended.
pub(crate) fn line_count(text: &[u8]) -> u64
    ensures value { result ≡ parts.line_count text.now }
    ensures within { result ≤ length text.now }
{
    text.iter().filter(|byte| **byte == b'\n').count() as u64
}
