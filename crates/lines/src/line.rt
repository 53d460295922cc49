//! Reading one line.
ghost use Rattle.std.specs.Prelude.{◌≡◌};
ghost use Rattle.lines.specs.Fields.{Reads};
ghost use Rattle.lines.specs.Lines.{passed_over, question, question_fields, expectation, LineSays};

use crate::answer::Answer;
use crate::answer_fields::read_answer;
use crate::fields::Fields;
use crate::query::Query;
use crate::query_fields::read_query;
use crate::vector::{Malformed, Vector};

/// Whether a line says nothing: a comment, or blanks alone.
fn is_passed_over(line: &[u8]) -> bool
    ensures { result ≡ passed_over line.now }
{
    matches!(line, [b'#', ..]) || Fields::new(line).next().is_none()
}

/// The query, and `->` after it.
fn asked(line: &mut Fields) -> Option<Query>
    ensures { Reads question_fields question line.old line.new result }
{
    let query = read_query(line)?;
    matches!(line.next()?, b"->").then_some(query)
}

/// The answer to a query, and nothing after it.
fn expected(query: Query, line: &mut Fields) -> Option<Answer>
    ensures { result ≡ expectation query line.old }
{
    let answer = read_answer(query, line)?;
    line.next().is_none().then_some(answer)
}

/// The vector of a line, or none where the line says nothing.
pub fn parse_line(line: &[u8]) -> Result<Option<Vector>, Malformed>
    ensures { LineSays line.now result }
{
    if is_passed_over(line) {
        return Ok(None);
    }
    let mut fields = Fields::new(line);
    let query = asked(&mut fields).ok_or(Malformed::Question)?;
    let expected = expected(query, &mut fields).ok_or(Malformed::Expectation)?;
    Ok(Some(Vector { query, expected }))
}
