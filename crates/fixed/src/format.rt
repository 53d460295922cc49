//! Fixed point as a number format.
ghost use Rattle.fixed.specs.Sized.{format_of};
ghost use Rattle.fixed.specs.Stated.{IsGreatest, IsLeast};
ghost use Rattle.fixed.specs.Ranges.{fixed_lawful};

use crate::sizes::Fixed;
use draws::DrawBits;
use formats::{Calculation, Format, FormatFault, Split};

impl Fixed {
    /// The code of the greatest number.
    pub fn greatest(self) -> u32
        ensures { IsGreatest (format_of self) result }
    {
        self.greatest_number().code()
    }

    /// The code of the least number.
    pub fn least(self) -> u32
        ensures { IsLeast (format_of self) result }
    {
        self.least_number().code()
    }
}

impl Format for Fixed {
    ghost meaning = { format_of };

    ghost lawful = { λ f. fixed_lawful f.sign f.integer f.fraction f.high };

    fn is_number(&self, code: u32) -> bool {
        u64::from(code) < self.codes()
    }

    fn next_above(&self, code: u32) -> Result<Option<u32>, FormatFault> {
        Ok(self.number(code)?.moved_code(1))
    }

    fn next_below(&self, code: u32) -> Result<Option<u32>, FormatFault> {
        Ok(self.number(code)?.moved_code(-1))
    }

    #[inline(always)]
    fn split(&self, calculation: Calculation, k: u64) -> Result<Split, FormatFault> {
        let k = DrawBits::new(k)?;
        let left = self.number(calculation.left)?;
        let right = self.number(calculation.right)?;
        let exact = self.exact(calculation.operation, left, right)?;
        Ok(self.place(k, exact))
    }
}
