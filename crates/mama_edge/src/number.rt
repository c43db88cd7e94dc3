ghost use Rattle.std.specs.Prelude.{◌≡◌, ℕ, ℤ, suc, ◌+◌, ◌*◌, ◌^◌, ◌<◌, ◌≤◌, ◌∷◌, ◌++◌, drop, length, slice_index, ◌↔◌, IsTrue, IfSome, IfNone, SomeIff, OnOk, OnErr, FitsSigned};
ghost use Rattle.std.specs.Char.{IsAsciiDigit, digit_value};
ghost use Rattle.std.specs.Int.{w64};
ghost use Rattle.std.specs.List.{AllByRecursion};
ghost use Rattle.std.specs.Str.Parse.{AllDigits, digits_value};
ghost use Rattle.mama_edge.specs.Decimal.{decimal, int_decimal};

use mama_memory::OutOfMemory;

/// The number that this text is the one decimal spelling of: no leading zero, no plus, nothing else beside the digits.
pub fn read_u64(text: &[u8]) -> Option<u64>
    ensures found { IfSome result (λ n. text.now ≡ decimal n) }
    ensures fits { IfSome result (λ n. n < 2 ^ 64) }
    ensures none { IfNone result ((n : ℕ) → n < 2 ^ 64 → text.now ≡ decimal n → ⊥) }
{
    if text.is_empty() {
        return None;
    }
    if has_spare_zero(text) {
        return None;
    }
    digits_number(text)
}

/// Whether a zero stands in front of more.
fn has_spare_zero(text: &[u8]) -> bool
    ensures { IsTrue result ↔ ((slice_index text.now 0 ≡ 48) × (1 < length text.now)) }
{
    text.len() > 1 && text[0] == b'0'
}

/// The number that these digits stand for, zeros in front or not.
fn digits_number(digits: &[u8]) -> Option<u64>
    ensures found { IfSome result (λ n. AllDigits 10 digits.now × (n ≡ digits_value 10 digits.now)) }
    ensures fits { IfSome result (λ n. n < 2 ^ 64) }
    ensures none { IfNone result (AllDigits 10 digits.now → 2 ^ 64 ≤ digits_value 10 digits.now) }
{
    let mut number = 0;
    for byte in digits {
        number = next_number(number, *byte)?;
    }
    Some(number)
}

/// The number with one digit more behind it.
fn next_number(number: u64, byte: u8) -> Option<u64>
    ensures { let next = number * 10 + digit_value byte in
        SomeIff result ((digit_value byte < 10) × (next < 2 ^ 64)) next }
{
    let digit = char::from(byte).to_digit(10)?;
    number.checked_mul(10)?.checked_add(u64::from(digit))
}

/// The signed number that this text is the one decimal spelling of: as [`read_u64`] says, with a minus sign in front of
/// a negative number, and not of 0.
pub fn read_i64(text: &[u8]) -> Option<i64>
    ensures found { IfSome result (λ n. text.now ≡ int_decimal n) }
    ensures fits { IfSome result (λ n. FitsSigned w64 n) }
    ensures none { IfNone result ((n : ℤ) → FitsSigned w64 n → text.now ≡ int_decimal n → ⊥) }
{
    if text.is_empty() {
        return None;
    }
    if text[0] == b'-' {
        read_negative(&text[1..])
    } else {
        read_non_negative(text)
    }
}

/// The negative number whose size has these digits.
fn read_negative(digits: &[u8]) -> Option<i64>
    ensures found { IfSome result (λ n. 45 ∷ digits.now ≡ int_decimal n) }
    ensures fits { IfSome result (λ n. FitsSigned w64 n) }
    ensures none { IfNone result ((n : ℕ) → n < 2 ^ 63 → digits.now ≡ decimal (suc n) → ⊥) }
{
    let size = read_u64(digits)?;
    let below = size.checked_sub(1)?;
    if below >= 1 << 63 {
        return None;
    }
    Some(-1 - (below as i64))
}

/// The number from 0 on that has these digits.
fn read_non_negative(digits: &[u8]) -> Option<i64>
    ensures found { IfSome result (λ n. digits.now ≡ int_decimal n) }
    ensures fits { IfSome result (λ n. FitsSigned w64 n) }
    ensures none { IfNone result ((n : ℕ) → n < 2 ^ 63 → digits.now ≡ decimal n → ⊥) }
{
    let size = read_u64(digits)?;
    if size >= 1 << 63 {
        return None;
    }
    Some(size as i64)
}

/// Appends the decimal spelling of the number. After want of memory the text is as before.
pub fn print_u64(n: u64, out: &mut Vec<u8>) -> Result<(), OutOfMemory>
    ensures ok { OnOk result (out.new.items ≡ out.old.items ++ decimal n) }
    ensures err { OnErr result (out.new.items ≡ out.old.items) }
{
    let mut buffer = [0; 21];
    let start = put_digits(n, &mut buffer);
    out.extend_from_slice(&buffer[start..])?;
    Ok(())
}

/// Appends the decimal spelling of the signed number. After want of memory the text is as before.
pub fn print_i64(n: i64, out: &mut Vec<u8>) -> Result<(), OutOfMemory>
    ensures ok { OnOk result (out.new.items ≡ out.old.items ++ int_decimal n) }
    ensures err { OnErr result (out.new.items ≡ out.old.items) }
{
    if n < 0 {
        print_negative(n.unsigned_abs(), out)
    } else {
        print_u64(n as u64, out)
    }
}

/// Appends a minus sign and the digits of the number. After want of memory the text is as before.
fn print_negative(size: u64, out: &mut Vec<u8>) -> Result<(), OutOfMemory>
    ensures ok { OnOk result (out.new.items ≡ out.old.items ++ 45 ∷ decimal size) }
    ensures err { OnErr result (out.new.items ≡ out.old.items) }
{
    let mut buffer = [0; 21];
    let mut start = put_digits(size, &mut buffer);
    start -= 1;
    buffer[start] = b'-';
    out.extend_from_slice(&buffer[start..])?;
    Ok(())
}

/// Puts the digits of the number at the end of the buffer, and answers where they begin.
fn put_digits(n: u64, buffer: &mut [u8; 21]) -> usize
    ensures room { 0 < result }
    ensures within { result < 21 }
    ensures digits { drop result buffer.new ≡ decimal n }
{
    let mut start = 20;
    let mut rest = n;
    while rest >= 10 {
        buffer[start] = b'0' + (rest % 10) as u8;
        rest /= 10;
        start -= 1;
    }
    buffer[start] = b'0' + rest as u8;
    start
}

/// Two numbers of 64 bits with one spelling are one.
pub fn decimal_is_injective()
    ensures { (m n : ℕ) → m < 2 ^ 64 → n < 2 ^ 64 → decimal m ≡ decimal n → m ≡ n }
{}

/// Two signed numbers of 64 bits with one spelling are one.
pub fn int_decimal_is_injective()
    ensures { (m n : ℤ) → FitsSigned w64 m → FitsSigned w64 n → int_decimal m ≡ int_decimal n → m ≡ n }
{}

/// The spelling of a number of 64 bits has 1 to 20 digits and nothing else.
pub fn decimal_has_digits_only()
    ensures digits { (n : ℕ) → n < 2 ^ 64 → AllByRecursion IsAsciiDigit (decimal n) }
    ensures some { (n : ℕ) → n < 2 ^ 64 → 0 < length (decimal n) }
    ensures at_most_20 { (n : ℕ) → n < 2 ^ 64 → length (decimal n) ≤ 20 }
{}
