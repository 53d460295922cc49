//! Comparing the answer to a line's question with the answer that it expects.
ghost use Rattle.answers.specs.Comparing.{Compares};

use crate::answering::answer;
use lines::{Answer, Malformed, parse_line};

/// What became of a line: it says nothing, its expected answer is the right one, another answer is, or it cannot be read. A
/// report counts each of the four apart.
#[derive(Clone, Copy, PartialEq, Debug)]
pub enum Outcome {
    PassedOver,
    Agrees,
    Differs(Answer),
    Malformed(Malformed),
}

/// Whether a line expects the right answer.
pub fn compare(line: &[u8]) -> Outcome
    ensures { Compares line.now result }
{
    let vector = match parse_line(line) {
        Ok(Some(vector)) => vector,
        Ok(None) => return Outcome::PassedOver,
        Err(fault) => return Outcome::Malformed(fault),
    };
    let right = answer(vector.query);
    if right == vector.expected {
        Outcome::Agrees
    } else {
        Outcome::Differs(right)
    }
}
