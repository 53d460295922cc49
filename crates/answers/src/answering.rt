//! The answer to a question.
ghost use Rattle.fixed.specs.Sized.{format_of};
ghost use Rattle.answers.specs.Answers.{told, Answers, EndsAnswer, Names, OneAnswer};

use crate::operated::{neighbours, operated, split};
use crate::refused::Refused;
use crate::unit_and_generator::{first_words, unit_rounded};
use draws::Rule;
use fixed::{Fixed, SizesFault};
use lines::{Answer, FormatName, Query};
use operations::Arithmetic;

/// The format of a name.
fn named(format: FormatName) -> Result<Fixed, SizesFault>
    ensures { Names format result }
{
    let FormatName::Fixed(sizes) = format;
    Fixed::new(sizes.sign, sizes.integer, sizes.fraction)
}

/// LEAST GREATEST of a format.
fn ends(format: Fixed) -> Answer
    ensures { EndsAnswer (format_of format) result }
{
    Answer::Ends {
        least: format.least(),
        greatest: format.greatest(),
    }
}

/// The right answer to a question, or its refusal.
fn answered(query: Query) -> Result<Answer, Refused>
    ensures { Answers query (told result) }
{
    // a question is a value that is read from a line
    match query {
        Query::Operate {
            format,
            k,
            rule,
            calculation,
            word,
        } => {
            let format = named(format)?;
            operated(&Arithmetic { format, rule, k }, calculation, word)
        }
        Query::Split {
            format,
            k,
            calculation,
        } => split(&named(format)?, k, calculation),
        Query::Next { format, code } => neighbours(&named(format)?, code),
        Query::Size(sizes) => Ok(ends(named(FormatName::Fixed(sizes))?)),
        Query::Rule {
            rule,
            k,
            count,
            draw,
        } => Ok(Answer::Said(rule.choose(k, count, draw))),
        Query::Unit {
            mode,
            n,
            k,
            x,
            word,
        } => unit_rounded(mode, n, k, x, word),
        Query::Generator { seed } => Ok(first_words(seed)),
    }
}

/// The right answer to a question, and no question has two.
pub fn answer(query: Query) -> Answer
    ensures right { Answers query result }
    ensures only { OneAnswer query }
{
    answered(query).unwrap_or_else(Answer::from)
}
