//! Where an exact result lies among the numbers.
ghost use Rattle.std.specs.Prelude.{◌≡◌, ℤ};
ghost use Rattle.whole.specs.Division.{Divided};
ghost use Rattle.formats.specs.Splits.{Splits, clamped_at};
ghost use Rattle.fixed.specs.Sized.{format_of};

use crate::fraction::{Fraction, Part};
use crate::number::Number;
use crate::sizes::Fixed;
use draws::DrawBits;
use formats::Split;

/// The split of what is beyond an end of a format.
fn clamped_at(end: Number) -> Split
    ensures { result ≡ clamped_at (format_of end.format) end.value }
{
    let end = end.code();
    Split {
        parts: (end, end, 0),
        clamped: true,
    }
}

impl Number {
    /// The split of what lies a part of a unit above this number.
    #[inline(always)]
    fn split_above(self, above: Part, k: DrawBits) -> Split
        ensures { (n : ℤ) → Divided n above.whole self.value above.part → Splits (format_of self.format) k.bits (record { numerator = n; denominator = above.whole }) result }
    {
        let near = self.code();
        if above.part == 0 {
            return Split {
                parts: (near, near, 0),
                clamped: false,
            };
        }
        match self.moved_code(1) {
            Some(far) => Split {
                parts: (near, far, above.share(k)),
                clamped: false,
            },
            None => clamped_at(self),
        }
    }
}

impl Fixed {
    /// The split of a fraction of units. 0 is a number of every format, so the sign of a floor that is beyond an end tells which.
    #[inline(always)]
    pub(crate) fn place(self, k: DrawBits, x: Fraction) -> Split
        ensures { Splits (format_of self) k.bits x result }
    {
        let (floor, above) = x.divided();
        match self.number_at(floor) {
            Some(near) => near.split_above(above, k),
            None if floor < 0 => clamped_at(self.least_number()),
            None => clamped_at(self.greatest_number()),
        }
    }
}
