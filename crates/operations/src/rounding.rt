//! The rounding step: a split becomes one of its two codes.
ghost use Rattle.operations.specs.Rounding.{Rounds};

use draws::{DrawBits, Neighbour, Rule, Source, SourceFault};
use formats::Split;

/// What an operation answers: the code of the result, and whether it was clamped, which the code alone does not tell.
#[derive(Clone, Copy, PartialEq, Eq, Debug)]
pub struct Rounded {
    pub code: u32,
    pub clamped: bool,
}

/// The far code where the rule says far of the next word, else the near code.
pub fn round<R: Rule, S: Source>(
    split: Split,
    k: DrawBits,
    rule: &R,
    source: &mut S,
) -> Result<Rounded, SourceFault>
    ensures { Rounds S.coming (R.says rule.now) k.bits split source.old source.new result }
{
    let (near, far, count) = split.parts;
    let code = match source.take()?.decide(rule, k, count) {
        Neighbour::Near => near,
        Neighbour::Far => far,
    };
    Ok(Rounded {
        code,
        clamped: split.clamped,
    })
}
