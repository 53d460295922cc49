//! Decision rules: whether a rounding goes to the near or the far neighbour.
ghost use Rattle.std.specs.Prelude.{◌≡◌, ◌^◌, ◌<◌, true, false, Some, None};
ghost use Rattle.draws.specs.Rules.{Says, is_far, neighbour_name, in_range, Fair, NearOutside, compares, carries};
ghost use Rattle.draws.specs.Fairness.{compares_fair, carries_fair};
ghost use Rattle.std.proofs.Common.{rules};

use crate::draw_bits::DrawBits;
use std::fmt;

/// One of the two numbers around an exact result.
#[derive(Clone, Copy, PartialEq, Eq, Debug)]
pub enum Neighbour {
    Near,
    Far,
}

impl fmt::Display for Neighbour {
    ghost output = { λ neighbour. Some (neighbour_name neighbour) };

    fn fmt<W: fmt::Write>(&self, f: &mut fmt::Formatter<W>) -> fmt::Result {
        f.write_str(match self {
            Neighbour::Near => "near",
            Neighbour::Far => "far",
        })
    }
}

/// A rule by what it says: far or not, for draws of k bits, a count and a draw. Exactly `count` of the 2^k draws say far,
/// and outside the ranges it says near.
pub trait Rule {
    ghost says: { Self → Says };

    /// Answers from its three numbers alone. They come apart: a caller has k and the count, and a word has the draw.
    fn choose(&self, k: u64, count: u64, draw: u64) -> Neighbour
        ensures { is_far result ≡ says self.now k count draw };

    ghost fair: { (s : Self) → Fair (says s) };

    ghost outside: { (s : Self) → NearOutside (says s) };
}

/// A borrowed rule says what the rule says.
impl<R: Rule> Rule for &R {
    ghost says = { λ s. R.says s.now };

    ghost fair = { λ s. R.fair s.now };

    ghost outside = { λ s. R.outside s.now };

    fn choose(&self, k: u64, count: u64, draw: u64) -> Neighbour {
        R::choose(*self, k, count, draw)
    }
}

/// 2^k, where k, count and draw are in range.
fn draws_in_range(k: u64, count: u64, draw: u64) -> Option<u64>
    ensures { elim result [ Some draws ↦ (in_range k count draw ≡ true) × (draws ≡ 2 ^ k) × (draws < 2 ^ 33) × (count < draws) × (draw < draws) | None ↦ in_range k count draw ≡ false ] }
{
    let draws = DrawBits::new(k).ok()?.draws();
    (count < draws && draw < draws).then_some(draws)
}

/// Far when the draw is below the count.
#[derive(Clone, Copy)]
pub struct Comparison;

impl Rule for Comparison {
    ghost says = { λ _. compares };

    ghost fair = { λ s. compares_fair };

    ghost outside = { Prim.search rules };

    fn choose(&self, k: u64, count: u64, draw: u64) -> Neighbour {
        match draws_in_range(k, count, draw) {
            Some(_) if draw < count => Neighbour::Far,
            _ => Neighbour::Near,
        }
    }
}

/// Far when draw and count add up to 2^k or more.
#[derive(Clone, Copy)]
pub struct Carry;

impl Rule for Carry {
    ghost says = { λ _. carries };

    ghost fair = { λ s. carries_fair };

    ghost outside = { Prim.search rules };

    fn choose(&self, k: u64, count: u64, draw: u64) -> Neighbour {
        match draws_in_range(k, count, draw) {
            Some(draws) if draw + count >= draws => Neighbour::Far,
            _ => Neighbour::Near,
        }
    }
}
