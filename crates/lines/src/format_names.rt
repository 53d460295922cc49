//! The names of formats.
ghost use Rattle.std.specs.Prelude.{◌≡◌, position};
ghost use Rattle.lines.specs.FormatNames.{sizes_written, format_named};
ghost use Rattle.lines.specs.Texts.{dot};

use crate::numerals::decimal;

/// How many sign bits, integer bits and fractional bits fixed point has, in range or not: as they stand in the line.
#[derive(Clone, Copy)]
pub struct Sizes {
    pub sign: u64,
    pub integer: u64,
    pub fraction: u64,
}

/// A format by its name.
#[derive(Clone, Copy)]
pub enum FormatName {
    Fixed(Sizes),
}

/// Where the first dot of a text stands.
fn first_dot(text: &[u8]) -> Option<usize>
    ensures { result ≡ position dot text.now }
{
    text.iter().position(|b| *b == b'.')
}

/// The sizes after the letter of a name: the integer bits, a dot and the fractional bits.
fn read_sizes(sign: u64, bits: &[u8]) -> Option<Sizes>
    ensures { result ≡ sizes_written sign bits.now }
{
    let dot = first_dot(bits)?;
    let integer = decimal(&bits[..dot])?;
    let fraction = decimal(&bits[dot + 1..])?;
    Some(Sizes {
        sign,
        integer,
        fraction,
    })
}

/// The format of a name: `s` for one sign bit or `u` for none, and the other sizes, as in `s8.7`.
pub(crate) fn format(name: &[u8]) -> Option<FormatName>
    ensures { result ≡ format_named name.now }
{
    match name {
        [b's', bits @ ..] => read_sizes(1, bits).map(FormatName::Fixed),
        [b'u', bits @ ..] => read_sizes(0, bits).map(FormatName::Fixed),
        _ => None,
    }
}
