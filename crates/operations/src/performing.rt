//! The operations of one format.
ghost use Rattle.operations.specs.Laws.{OperationLaws};
ghost use Rattle.operations.specs.Rounding.{Performs, SplitsOnce};

use crate::faults::OperationFault;
use crate::rounding::{Rounded, round};
use draws::{DrawBits, Rule, Source};
use formats::{Calculation, Format, FormatFault, Split};

/// Stochastically rounded arithmetic: the format of its numbers, the rule that decides, and the number k of draw bits, which may
/// be any number. A format and a rule may be borrowed.
#[derive(Clone, Copy, Drop)]
pub struct Arithmetic<F, R> {
    pub format: F,
    pub rule: R,
    pub k: u64,
}

impl<F: Format, R: Rule> Arithmetic<F, R> {
    /// The format's split of the exact result. Its laws leave only one: that is proved here, since it did not prove in `perform`.
    #[inline(always)]
    #[tactic(auto, using(crate::proofs::Means::splits_once))]
    fn split(&self, calculation: Calculation) -> Result<Split, FormatFault>
        ensures { SplitsOnce (F.meaning self.now.format) calculation self.now.k result }
    {
        self.format.split(calculation, self.k)
    }

    /// One operation on two numbers of the format. It takes one word, also where the exact result is a number or beyond an end. Refuses
    /// a k that is not 1 to 32, a left and then a right code that is no number, a divisor of value 0, and a source with no word left.
    #[inline(always)]
    #[tactic(auto, using(crate::proofs::Means::operation_laws))]
    pub fn perform<S: Source>(
        &self,
        calculation: Calculation,
        source: &mut S,
    ) -> Result<Rounded, OperationFault>
        ensures answer { Performs S.coming (R.says self.now.rule) (F.meaning self.now.format) calculation self.now.k source.old source.new result }
        ensures laws { OperationLaws }
    {
        let split = self.split(calculation)?;
        let k = DrawBits::new(self.k)?;
        Ok(round(split, k, &self.rule, source)?)
    }
}
