//! The sizes of a fixed-point format.
ghost use Rattle.std.specs.Prelude.{◌≡◌, ◌+◌, ◌^◌, ◌<◌, ◌≤◌, true, false, Ok, Err};
ghost use Rattle.fixed.specs.Refusals.{sizes_refusal};
ghost use Rattle.fixed.specs.Sizes.{sizes_in_range};
ghost use Rattle.fixed.specs.Fixed.{fixed};
ghost use Rattle.fixed.specs.Stated.{OneCode};

use crate::faults::SizesFault;

/// s sign bits (0 or 1), i integer bits and p fractional bits, 2 to 32 in all. No value is out of range.
#[derive(Clone, Copy, PartialEq, Eq, Debug)]
pub struct Fixed {
    sign: u32,
    integer: u32,
    fraction: u32,
    ghost signs: { sign ≤ 1 },
    ghost low: { 2 ≤ sign + integer + fraction },
    ghost high: { sign + integer + fraction ≤ 32 },
}

impl Fixed {
    /// Refuses sizes that are out of range. In every format that it makes, the result code of a number's value is its own code.
    pub fn new(s: u64, i: u64, p: u64) -> Result<Fixed, SizesFault>
        ensures answer { elim result [ Ok f ↦ (sizes_in_range s i p ≡ true) × (f.sign ≡ s) × (f.integer ≡ i) × (f.fraction ≡ p) | Err e ↦ (sizes_in_range s i p ≡ false) × (sizes_refusal e ≡ 1) ] }
        ensures own { OneCode (fixed s i p) }
    {
        let bits = s.saturating_add(i).saturating_add(p);
        if s > 1 || !(2..=32).contains(&bits) {
            return Err(SizesFault::OutOfRange);
        }
        // none is above 32 now
        Ok(Fixed {
            sign: s as u32,
            integer: i as u32,
            fraction: p as u32,
        })
    }

    /// How many units make one.
    pub(crate) fn units_in_one(self) -> u64
        ensures value { result ≡ 2 ^ self.fraction }
        ensures some { 0 < result }
        ensures small { result ≤ 2 ^ 32 }
    {
        1 << self.fraction
    }

    /// How many codes are numbers.
    pub(crate) fn codes(self) -> u64
        ensures value { result ≡ 2 ^ (self.sign + self.integer + self.fraction) }
        ensures high { result ≤ 2 ^ 32 }
    {
        1 << (self.sign + self.integer + self.fraction)
    }

    /// How many codes are numbers that are not negative: those below this one.
    #[tactic(auto, using(crate::specs::Ranges::most_codes))]
    pub(crate) fn non_negative_codes(self) -> u64
        ensures value { result ≡ 2 ^ (self.integer + self.fraction) }
        ensures low { 0 < result }
        ensures high { result ≤ 2 ^ (self.sign + self.integer + self.fraction) }
    {
        1 << (self.integer + self.fraction)
    }
}
