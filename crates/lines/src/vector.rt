//! One test vector, and what is wrong with a line that has none.
ghost use Rattle.std.specs.Prelude.{Some};
ghost use Rattle.lines.specs.Lines.{malformed_text};

use crate::answer::Answer;
use crate::query::Query;
use std::error::Error;
use std::fmt;

/// A question, and the answer that is expected.
#[derive(Clone, Copy)]
pub struct Vector {
    pub query: Query,
    pub expected: Answer,
}

/// What cannot be read: the question up to `->`, or the answer after it.
#[derive(Clone, Copy, PartialEq, Eq, Debug)]
pub enum Malformed {
    Question,
    Expectation,
}

impl fmt::Display for Malformed {
    ghost output = { λ malformed. Some (malformed_text malformed) };

    fn fmt<W: fmt::Write>(&self, f: &mut fmt::Formatter<W>) -> fmt::Result {
        match self {
            Malformed::Question => f.write_str("malformed question"),
            Malformed::Expectation => f.write_str("malformed expectation"),
        }
    }
}

impl Error for Malformed {}
