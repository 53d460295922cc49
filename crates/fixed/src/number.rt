//! Numbers of a format: by code, by value, at the ends, and by their distance.
ghost use Rattle.std.specs.Prelude.{◌≡◌, ◌^◌, ◌<◌, ◌+ℤ◌, unsigned_abs};
ghost use Rattle.fixed.specs.Sized.{InsideOf, Reaches, greatest_value, least_value, format_of};

use crate::sizes::Fixed;
use formats::FormatFault;

/// A number of a format, by its value in units. No value is beyond an end.
#[derive(Clone, Copy)]
pub(crate) struct Number {
    pub(crate) format: Fixed,
    pub(crate) value: i128,
    ghost inside: { InsideOf format value },
}

impl Fixed {
    ghost use Rattle.fixed.specs.Numbers.{At, Numbered};

    /// The number that a code is. Refuses a code that is none.
    pub(crate) fn number(self, code: u32) -> Result<Number, FormatFault>
        ensures { Numbered self code result }
    {
        let code = u64::from(code);
        if code < self.non_negative_codes() {
            Ok(Number {
                format: self,
                value: i128::from(code),
            })
        } else if code < self.codes() {
            Ok(Number {
                format: self,
                value: i128::from(code) - i128::from(self.codes()),
            })
        } else {
            Err(FormatFault::NotANumber)
        }
    }

    /// The number of a value, unless that is beyond an end.
    pub(crate) fn number_at(self, value: i128) -> Option<Number>
        ensures { At self value result }
    {
        // a `Number` is made inside the test, since its invariant holds only there
        if (self.least_number().value..=self.greatest_number().value).contains(&value) {
            Some(Number {
                format: self,
                value,
            })
        } else {
            None
        }
    }

    /// The greatest number.
    pub(crate) fn greatest_number(self) -> Number
        ensures format { result.format ≡ self }
        ensures value { result.value ≡ greatest_value self }
    {
        Number {
            format: self,
            value: i128::from(self.non_negative_codes()) - 1,
        }
    }

    /// The least number.
    pub(crate) fn least_number(self) -> Number
        ensures format { result.format ≡ self }
        ensures value { result.value ≡ least_value self }
    {
        Number {
            format: self,
            value: i128::from(self.non_negative_codes()) - i128::from(self.codes()),
        }
    }
}

impl Number {
    /// Its value in units, with the bound that the arithmetic on it needs.
    pub(crate) fn units(self) -> i128
        ensures value { result ≡ self.value }
        ensures small { unsigned_abs result < 2 ^ 32 }
    {
        self.value
    }

    /// Its code.
    pub(crate) fn code(self) -> u32
        ensures { result ≡ (format_of self.format).result self.value }
    {
        // both fit, since the code of a number does
        if self.value >= 0 {
            self.value as u32
        } else {
            (self.value + i128::from(self.format.codes())) as u32
        }
    }

    /// The code of the number that is so many units away, unless that is beyond an end.
    pub(crate) fn moved_code(self, units: i128) -> Option<u32>
        requires { unsigned_abs units < 2 ^ 32 }
        ensures { Reaches self.format (self.value +ℤ units) result }
    {
        self.format.number_at(self.value + units).map(Number::code)
    }
}
