ghost use Rattle.std.specs.Prelude.{◌≡◌, ◌^◌, ◌≤◌};
ghost use Rattle.mama_words.specs.Number as numbers;

use mama_edge::{read_i64, read_u64};

/// The number with this decimal spelling, 0 to 2^64 - 1. The spelling has no sign and no leading zero.
pub fn read_number(text: &[u8]) -> Option<u64>
    ensures { result ≡ numbers.number_in text.now }
{
    read_u64(text)
}

/// The number with this decimal spelling, below the limit.
pub fn read_below(limit: u64, text: &[u8]) -> Option<u64>
    ensures { result ≡ numbers.below_in limit text.now }
{
    let number = read_number(text)?;
    if number < limit { Some(number) } else { None }
}

/// The number with this decimal spelling, from `low` to `high`.
pub fn read_between(low: u64, high: u64, text: &[u8]) -> Option<u64>
    ensures { result ≡ numbers.between_in low high text.now }
{
    let number = read_number(text)?;
    if number < low {
        None
    } else if number > high {
        None
    } else {
        Some(number)
    }
}

/// The signed number with this decimal spelling, -2^63 to 2^63 - 1. The spelling has no plus and no leading zero, and
/// zero has no minus.
pub fn read_int(text: &[u8]) -> Option<i64>
    ensures { result ≡ numbers.int_in (2 ^ 63) text.now }
{
    read_i64(text)
}
