//! Reading what a line expects.
ghost use Rattle.std.specs.Prelude.{◌≡◌, codes};
ghost use Rattle.std.specs.Str.{bytes_eq};
ghost use Rattle.lines.specs.Answers.{rounded_answer, split_answer, next_answer, ends_answer, said_answer, quotient_answer, words_answer, refused_answer, answer_read, answer_fields};
ghost use Rattle.lines.specs.Fields.{first, Reads};

use crate::answer::Answer;
use crate::fields::Fields;
use crate::names::{clamped, neighbour};
use crate::numerals::{code_unless, decimal, hexadecimal, signed_decimal};
use crate::query::Query;
use formats::Split;
use operations::Rounded;

/// A result and whether it was clamped: `CODE CLAMP`.
fn rounded(line: &mut Fields) -> Option<Answer>
    ensures { Reads answer_fields rounded_answer line.old line.new result }
{
    let code = hexadecimal(line.next()?)?;
    let clamped = clamped(line.next()?)?;
    Some(Answer::Rounded(Rounded { code, clamped }))
}

/// A split: `NEAR FAR R CLAMP`.
fn split(line: &mut Fields) -> Option<Answer>
    ensures { Reads answer_fields split_answer line.old line.new result }
{
    let near = hexadecimal(line.next()?)?;
    let far = hexadecimal(line.next()?)?;
    let count = decimal(line.next()?)?;
    let clamped = clamped(line.next()?)?;
    Some(Answer::Split(Split {
        parts: (near, far, count),
        clamped,
    }))
}

/// The codes next to a code: `ABOVE BELOW`.
fn neighbours(line: &mut Fields) -> Option<Answer>
    ensures { Reads answer_fields next_answer line.old line.new result }
{
    let above = code_unless(line.next()?, b"absent")?;
    let below = code_unless(line.next()?, b"absent")?;
    Some(Answer::Next { above, below })
}

/// The ends of a format: `LEAST GREATEST`.
fn ends(line: &mut Fields) -> Option<Answer>
    ensures { Reads answer_fields ends_answer line.old line.new result }
{
    let least = hexadecimal(line.next()?)?;
    let greatest = hexadecimal(line.next()?)?;
    Some(Answer::Ends { least, greatest })
}

/// What a rule said: `near` or `far`.
fn said(line: &mut Fields) -> Option<Answer>
    ensures { Reads answer_fields said_answer line.old line.new result }
{
    let neighbour = neighbour(line.next()?)?;
    Some(Answer::Said(neighbour))
}

/// The quotient of the unit: `ANSWER`.
fn quotient(line: &mut Fields) -> Option<Answer>
    ensures { Reads answer_fields quotient_answer line.old line.new result }
{
    let quotient = signed_decimal(line.next()?)?;
    Some(Answer::Quotient(quotient))
}

/// Eight words of the generator: `W W W W W W W W`.
fn words(line: &mut Fields) -> Option<Answer>
    ensures { Reads answer_fields words_answer line.old line.new result }
{
    // what `array::try_from_fn` says of an early end does not tell which fields are left
    let mut words = [0; 8];
    for word in &mut words {
        *word = hexadecimal(line.next()?)?;
    }
    Some(Answer::Words(words))
}

/// A refusal: `refused N`.
fn refusal(line: &mut Fields) -> Option<Answer>
    ensures { Reads answer_fields refused_answer line.old line.new result }
{
    line.next()?;
    let number = decimal(line.next()?)?;
    Some(Answer::Refused(number))
}

/// Whether the next field is `refused`.
fn is_refused(line: &Fields) -> bool
    ensures { result ≡ bytes_eq (first line.now) (codes "refused") }
{
    matches!(line.peek(), Some(b"refused"))
}

/// What the next fields of a line answer to a query.
pub(crate) fn read_answer(query: Query, line: &mut Fields) -> Option<Answer>
    ensures { Reads answer_fields (answer_read query) line.old line.new result }
{
    // a question is a value that was read from the line
    match query {
        Query::Rule { .. } => said(line),
        Query::Generator { .. } => words(line),
        _ if is_refused(line) => refusal(line),
        Query::Operate { .. } => rounded(line),
        Query::Split { .. } => split(line),
        Query::Next { .. } => neighbours(line),
        Query::Size { .. } => ends(line),
        Query::Unit { .. } => quotient(line),
    }
}
