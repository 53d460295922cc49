//! A question that is refused.
ghost use Rattle.std.specs.Prelude.{◌≡◌};
ghost use Rattle.lines.specs.declared.answer.Answer.TheVariants as A;

use draws::Refusal;
use lines::Answer;

/// The number that a question is refused by.
#[derive(Clone, Copy)]
pub(crate) struct Refused {
    pub(crate) number: u32,
}

/// A fault refuses by its number.
impl<F: Refusal> From<F> for Refused {
    ghost from_gives = { λ fault refused. refused.number ≡ F.refusal fault };

    fn from(fault: F) -> Refused {
        Refused {
            number: fault.number(),
        }
    }
}

/// A refusal is an answer too.
impl From<Refused> for Answer {
    ghost from_gives = { λ refused answer. answer ≡ A.Refused refused.number };

    fn from(refused: Refused) -> Answer {
        Answer::Refused(u64::from(refused.number))
    }
}
