//! Answers of formats.
ghost use Rattle.std.specs.Prelude.{◌≡◌};
ghost use Rattle.answers.specs.Answers.{told, operation_answer, split_answer, NextAnswer};

use crate::refused::Refused;
use draws::{Rule, WordList};
use formats::{Calculation, Format};
use lines::Answer;
use operations::Arithmetic;

/// CODE CLAMP of an operation, by a source of one word or of none.
pub(crate) fn operated<F: Format, R: Rule>(
    arithmetic: &Arithmetic<F, R>,
    calculation: Calculation,
    word: Option<u32>,
) -> Result<Answer, Refused>
    ensures { told result ≡ operation_answer (R.says arithmetic.now.rule) (F.meaning arithmetic.now.format) calculation arithmetic.now.k word }
{
    let mut source = WordList::new(word.as_slice());
    Ok(Answer::Rounded(arithmetic.perform(calculation, &mut source)?))
}

/// NEAR FAR R CLAMP of a split.
pub(crate) fn split<F: Format>(
    format: &F,
    k: u64,
    calculation: Calculation,
) -> Result<Answer, Refused>
    ensures { told result ≡ split_answer (F.meaning format.now) calculation k }
{
    Ok(Answer::Split(format.split(calculation, k)?))
}

/// ABOVE BELOW of a code.
pub(crate) fn neighbours<F: Format>(format: &F, code: u32) -> Result<Answer, Refused>
    ensures { NextAnswer (F.meaning format.now) code (told result) }
{
    let above = format.next_above(code)?;
    let below = format.next_below(code)?;
    Ok(Answer::Next { above, below })
}
