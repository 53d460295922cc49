//! Answers of the rounding unit and of the generator.
ghost use Rattle.std.specs.Prelude.{◌≡◌};
ghost use Rattle.unit.specs.Modes.{mode_number};
ghost use Rattle.unit.specs.Refusals.{settings_fault};
ghost use Rattle.answers.specs.Answers.{told, unit_answer, settings_answer, words_answer};

use crate::refused::Refused;
use draws::{Generator, WordList};
use lines::Answer;
use unit::{Mode, RoundingUnit, Settings};

/// ANSWER of the rounding unit.
pub(crate) fn unit_rounded(
    mode: Mode,
    n: u64,
    k: u64,
    x: i64,
    word: Option<u32>,
) -> Result<Answer, Refused>
    ensures { told result ≡ settings_answer (settings_fault (mode_number mode) n k) (unit_answer mode n k x word) }
{
    let unit = RoundingUnit::new(Settings::of(mode, n, k)?);
    let quotient = unit.round(x, &mut WordList::new(word.as_slice()))?;
    Ok(Answer::Quotient(i64::from(quotient)))
}

/// W W W W W W W W of the generator.
pub(crate) fn first_words(seed: u32) -> Answer
    ensures { result ≡ words_answer seed }
{
    let mut generator = Generator::new(seed);
    // with `array::from_fn` the goal stayed open
    let mut words = [0; 8];
    for word in &mut words {
        *word = generator.next_word();
    }
    Answer::Words(words)
}
