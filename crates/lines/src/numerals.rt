//! The numbers of a line: decimals, signed decimals, and hexadecimals after `0x`.
#![tactic(auto, using(crate::proofs::Digits::narrow, std::proofs::lemmas::List::take_rest))]

ghost use Rattle.std.specs.Prelude.{◌≡◌, ◌^◌, ◌-◌, ◌<◌, ◌≤◌, MatchOption};
ghost use Rattle.lines.specs.Numerals.{digit_value, numeral, unsigned, short_unsigned, signed, after_0x, code_or};

/// What a byte is as a digit of a base.
fn digit(byte: u8, base: u32) -> Option<u32>
    requires least { 2 ≤ base }
    requires most { base ≤ 16 }
    ensures { MatchOption result (base ≤ digit_value byte) (λ d. (d ≡ digit_value byte) × (d < base)) }
{
    char::from(byte).to_digit(base)
}

/// The number of 64 bits that the digits of a text write in a base. (`u64::from_str_radix` takes a `+`, and no bytes.)
fn number(text: &[u8], base: u32) -> Option<u64>
    requires least { 2 ≤ base }
    requires most { base ≤ 16 }
    ensures { result ≡ numeral base (2 ^ 64 - 1) text.now }
{
    if text.is_empty() {
        return None;
    }
    let mut number = 0u64;
    for byte in text {
        let digit = digit(*byte, base)?;
        number = number
            .checked_mul(u64::from(base))?
            .checked_add(u64::from(digit))?;
    }
    Some(number)
}

/// A number of 64 bits, in decimal digits. Each numeral here is a line over `number`, with the type of its numbers.
pub(crate) fn decimal(text: &[u8]) -> Option<u64>
    ensures { result ≡ unsigned text.now }
{
    number(text, 10)
}

/// A number of 32 bits, in decimal digits.
pub(crate) fn short_decimal(text: &[u8]) -> Option<u32>
    ensures { result ≡ short_unsigned text.now }
{
    u32::try_from(number(text, 10)?).ok()
}

/// A signed number of 64 bits: decimal digits, after `-` where it is negative.
pub(crate) fn signed_decimal(text: &[u8]) -> Option<i64>
    ensures { result ≡ signed text.now }
{
    match text {
        [b'-', digits @ ..] => 0i64.checked_sub_unsigned(number(digits, 10)?),
        _ => i64::try_from(number(text, 10)?).ok(),
    }
}

/// A number of 32 bits: hexadecimal digits of either case, after `0x`.
pub(crate) fn hexadecimal(text: &[u8]) -> Option<u32>
    ensures { result ≡ after_0x text.now }
{
    match text {
        [b'0', b'x', digits @ ..] => u32::try_from(number(digits, 16)?).ok(),
        _ => None,
    }
}

/// A hexadecimal, or none where the text is `none`.
pub(crate) fn code_unless(text: &[u8], none: &[u8]) -> Option<Option<u32>>
    ensures { result ≡ code_or none.now text.now }
{
    if text == none {
        Some(None)
    } else {
        hexadecimal(text).map(Some)
    }
}
