//! Fractions of units, and what lies above their whole part.
ghost use Rattle.std.specs.Prelude.{◌≡◌, ◌*◌, ◌/◌, ◌^◌, ◌<◌, ◌≤◌, unsigned_abs};
ghost use Rattle.whole.specs.Division.{Divided};
ghost use Rattle.formats.specs.Exact.{Exact};

use draws::DrawBits;
use std::marker::Model;

/// numerator / denominator units.
#[derive(Clone, Copy)]
pub(crate) struct Fraction {
    pub(crate) numerator: i128,
    pub(crate) denominator: u64,
}

/// It stands for the exact result that it is.
impl Model for Fraction {
    ghost Value = { Exact };

    ghost view = { λ x. record { numerator = x.numerator; denominator = x.denominator } };

    ghost invariant = { λ x. (unsigned_abs x.numerator < 2 ^ 64) × (0 < x.denominator) × (x.denominator ≤ 2 ^ 32) };

    ghost inverse = { λ x. record { numerator = x.numerator; denominator = x.denominator } };
}

/// `part` / `whole` of a unit, less than all of it.
#[derive(Clone, Copy)]
pub(crate) struct Part {
    pub(crate) part: u64,
    whole: u64,
    ghost below: { part < whole },
    ghost small: { whole ≤ 2 ^ 32 },
}

impl Fraction {
    /// Its floor, and the part of a unit that is left over.
    pub(crate) fn divided(self) -> (i128, Part)
        ensures whole { result.1.whole ≡ self.denominator }
        ensures divided { Divided self.numerator self.denominator result.0 result.1.part }
    {
        let whole = self.denominator;
        // each size is below 2^64, so that it is divided in 64 bits
        if self.numerator >= 0 {
            let size = self.numerator as u64;
            let part = size % whole;
            (i128::from(size / whole), Part { part, whole })
        } else {
            let size = (-1 - self.numerator) as u64;
            let part = whole - 1 - size % whole;
            (-1 - i128::from(size / whole), Part { part, whole })
        }
    }
}

impl Part {
    /// How many of the 2^k draws go up.
    pub(crate) fn share(self, k: DrawBits) -> u64
        ensures { result ≡ 2 ^ k.bits * self.part / self.whole }
    {
        (self.part << k.get()) / self.whole
    }
}
