//! The number of bits of a draw, 1 to 32.
ghost use Rattle.std.specs.Prelude.{◌≡◌, ◌^◌, ◌≤◌, true, false, Some, Ok, Err};
ghost use Rattle.std.proofs.Common.{rules};
ghost use Rattle.draws.specs.DrawBits.{bits_in_range};
ghost use Rattle.draws.specs.Refusals.{draw_bits_refusal, refused_by};

use crate::refusal::Refusal;
use std::error::Error;
use std::fmt;

/// k, the number of bits of a draw. No value is out of range. It has no `impl Model`: with one, a struct that holds it, as the
/// settings of the rounding unit do, could not be copied by those who prove what they do with it.
#[derive(Clone, Copy, PartialEq, Eq, Debug)]
pub struct DrawBits {
    bits: u32,
    ghost low: { 1 ≤ bits },
    ghost high: { bits ≤ 32 },
}

impl DrawBits {
    /// Refuses a k that is not 1 to 32.
    pub fn new(k: u64) -> Result<DrawBits, DrawBitsFault>
        ensures { elim result [ Ok b ↦ (bits_in_range k ≡ true) × (b.bits ≡ k) | Err e ↦ (bits_in_range k ≡ false) × (draw_bits_refusal e ≡ 2) ] }
    {
        match u32::try_from(k) {
            Ok(bits @ 1..=32) => Ok(DrawBits { bits }),
            _ => Err(DrawBitsFault::OutOfRange),
        }
    }

    /// k itself.
    pub fn get(self) -> u32
        ensures value { result ≡ self.bits }
        ensures low { 1 ≤ result }
        ensures high { result ≤ 32 }
    {
        self.bits
    }

    /// How many draws there are: 2^k.
    pub fn draws(self) -> u64
        ensures { result ≡ 2 ^ self.bits }
    {
        1 << self.bits
    }
}

/// A number of draw bits that is not 1 to 32.
#[derive(Clone, Copy, PartialEq, Eq, Debug)]
pub enum DrawBitsFault {
    OutOfRange,
}

impl Refusal for DrawBitsFault {
    ghost refusal = { draw_bits_refusal };

    ghost known = { Prim.search rules };

    fn number(self) -> u32 {
        match self {
            DrawBitsFault::OutOfRange => 2,
        }
    }
}

impl fmt::Display for DrawBitsFault {
    ghost output = { λ fault. Some (refused_by (draw_bits_refusal fault)) };

    fn fmt<W: fmt::Write>(&self, f: &mut fmt::Formatter<W>) -> fmt::Result {
        f.write_str(self.text())
    }
}

impl Error for DrawBitsFault {}
