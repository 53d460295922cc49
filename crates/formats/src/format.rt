//! The interface of number formats.
ghost use Rattle.std.specs.Prelude.{◌≡◌};
ghost use Rattle.formats.specs.Meaning.{Meaning, Lawful};
ghost use Rattle.formats.specs.Questions.{AnswersAbove, AnswersBelow, AnswersSplit};

use crate::faults::FormatFault;
use crate::split::{Calculation, Split};

/// A format by its meaning: which codes are numbers, their values, the result code of each value, and which of two neighbouring
/// numbers is near. It answers every question from that alone, and no question changes it: that is in `&self`, and the clauses
/// `unchanged` say it for a reader.
pub trait Format {
    ghost meaning: { Self → Meaning };

    /// Whether a code is a number.
    fn is_number(&self, code: u32) -> bool
        ensures answer { result ≡ (meaning self.now).number code }
        ensures unchanged { self.exit.now ≡ self.entry.now };

    /// The next number above a number, by its result code; absent where no number is larger.
    fn next_above(&self, code: u32) -> Result<Option<u32>, FormatFault>
        ensures answer { AnswersAbove (meaning self.now) code result }
        ensures unchanged { self.exit.now ≡ self.entry.now };

    /// The next number below a number; absent where no number is smaller. Two questions, as `f32` has `next_up` and `next_down`.
    fn next_below(&self, code: u32) -> Result<Option<u32>, FormatFault>
        ensures answer { AnswersBelow (meaning self.now) code result }
        ensures unchanged { self.exit.now ≡ self.entry.now };

    /// The split of the exact result of an operation, for draws of k bits. Refuses a bad k, then a left code and then a right code
    /// that is no number, then a divisor of value 0.
    fn split(&self, calculation: Calculation, k: u64) -> Result<Split, FormatFault>
        ensures answer { AnswersSplit (meaning self.now) calculation k result }
        ensures unchanged { self.exit.now ≡ self.entry.now };

    ghost lawful: { (s : Self) → Lawful (meaning s) };
}

/// A borrowed format is that format.
impl<F: Format> Format for &F {
    ghost meaning = { λ s. F.meaning s.now };

    ghost lawful = { λ s. F.lawful s.now };

    fn is_number(&self, code: u32) -> bool {
        F::is_number(*self, code)
    }

    fn next_above(&self, code: u32) -> Result<Option<u32>, FormatFault> {
        F::next_above(*self, code)
    }

    fn next_below(&self, code: u32) -> Result<Option<u32>, FormatFault> {
        F::next_below(*self, code)
    }

    #[inline(always)]
    fn split(&self, calculation: Calculation, k: u64) -> Result<Split, FormatFault> {
        F::split(*self, calculation, k)
    }
}
