//! The exact results of the operations, as fractions of units.
ghost use Rattle.std.specs.Prelude.{◌≡◌, ◌^◌, ◌<◌, ◌==◌, true, false, pos, ◌*ℤ◌, Ok, Err, unsigned_abs};
ghost use Rattle.formats.specs.Exact.{of_values, signed_as};
ghost use Rattle.formats.specs.Questions.{divides_by_zero};
ghost use Rattle.formats.specs.Refusals.{format_refusal};
ghost use Rattle.formats.specs.declared.split.Operation.TheVariants.{Quotient};

use crate::fraction::Fraction;
use crate::number::Number;
use crate::sizes::Fixed;
use formats::{FormatFault, Operation};

/// n with the sign of w.
fn signed_as(n: i128, w: i128) -> i128
    requires { unsigned_abs n < 2 ^ 64 }
    ensures value { result ≡ signed_as w n }
    ensures fits { unsigned_abs result < 2 ^ 64 }
{
    if w < 0 { -n } else { n }
}

impl Fixed {
    /// The exact result for two numbers. Refuses a divisor of value 0.
    pub(crate) fn exact(
        self,
        operation: Operation,
        left: Number,
        right: Number,
    ) -> Result<Fraction, FormatFault>
        ensures { elim result [ Ok x ↦ (divides_by_zero operation right.value ≡ false) × (x ≡ of_values self.fraction operation left.value right.value) | Err e ↦ (divides_by_zero operation right.value ≡ true) × (format_refusal e ≡ 4) ] }
    {
        // an operation is a value that is read and compared, which no closure can be
        match operation {
            Operation::Sum => Ok(Fraction {
                numerator: left.units() + right.units(),
                denominator: 1,
            }),
            Operation::Difference => Ok(Fraction {
                numerator: left.units() - right.units(),
                denominator: 1,
            }),
            Operation::Product => Ok(Fraction {
                numerator: left.units() * right.units(),
                denominator: self.units_in_one(),
            }),
            Operation::Quotient => self.quotient(left, right),
        }
    }

    /// The value of a number, times as many units as make one.
    fn scaled(self, number: Number) -> i128
        ensures value { result ≡ number.value *ℤ pos (2 ^ self.fraction) }
        ensures fits { unsigned_abs result < 2 ^ 64 }
    {
        number.units() * i128::from(self.units_in_one())
    }

    /// left / right, with its sign in the numerator.
    fn quotient(self, left: Number, right: Number) -> Result<Fraction, FormatFault>
        ensures { elim result [ Ok x ↦ ((unsigned_abs right.value == 0) ≡ false) × (x ≡ of_values self.fraction Quotient left.value right.value) | Err e ↦ ((unsigned_abs right.value == 0) ≡ true) × (format_refusal e ≡ 4) ] }
    {
        let dividend = self.scaled(left);
        let divisor = right.units();
        if divisor == 0 {
            return Err(FormatFault::ZeroDivisor);
        }
        Ok(Fraction {
            numerator: signed_as(dividend, divisor),
            // below 2^32 as a value is
            denominator: divisor.unsigned_abs() as u64,
        })
    }
}
