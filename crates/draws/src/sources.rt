//! Words, the sources they are taken from, and the step that spends one.
ghost use Rattle.std.specs.Prelude.{◌≡◌, Some};
ghost use Rattle.std.proofs.Common.{rules};
ghost use Rattle.draws.specs.Refusals.{source_refusal, refused_by};
ghost use Rattle.draws.specs.DrawBits.{draw};
ghost use Rattle.draws.specs.Rules.{is_far};
ghost use Rattle.draws.specs.Streams.{Stream, Listed};
ghost use Rattle.draws.specs.Taking.{Takes};

use crate::draw_bits::DrawBits;
use crate::refusal::Refusal;
use crate::rules::{Neighbour, Rule};
use std::error::Error;
use std::fmt;

/// A word that was taken for one rounding. It is no `Copy`, no `Clone` and no `Drop`: it has to be spent, once.
pub struct Word {
    bits: u32,
}

/// A source by the words that are still to come from it.
pub trait Source {
    ghost coming: { Self → Stream };

    /// The next word as a plain number, which no rounding accepts.
    fn advance(&mut self) -> Result<u32, SourceFault>
        ensures { Takes coming (λ w. w) self.old self.new result };

    /// Whether at least n words are left.
    fn has(&self, n: u64) -> bool
        ensures { result ≡ (coming self.now).left n };

    /// The next word, for one rounding.
    fn take(&mut self) -> Result<Word, SourceFault>
        ensures { Takes coming (λ w. w.bits) self.old self.new result }
    {
        let bits = self.advance()?;
        Ok(Word { bits })
    }

    ghost listed: { (s : Self) → Listed (coming s) };
}

impl Word {
    /// Spends the word: what the rule says of the count and the draw of this word.
    pub fn decide<R: Rule>(self, rule: &R, k: DrawBits, count: u64) -> Neighbour
        ensures { is_far result ≡ R.says rule.now k.bits count (draw k.bits self.bits) }
    {
        let Word { bits } = self;
        let k = k.get();
        rule.choose(u64::from(k), count, u64::from(bits) >> (32 - k))
    }
}

/// A source with fewer words left than were asked for.
#[derive(Clone, Copy, PartialEq, Eq, Debug)]
pub enum SourceFault {
    Exhausted,
}

impl Refusal for SourceFault {
    ghost refusal = { source_refusal };

    ghost known = { Prim.search rules };

    fn number(self) -> u32 {
        match self {
            SourceFault::Exhausted => 8,
        }
    }
}

impl fmt::Display for SourceFault {
    ghost output = { λ fault. Some (refused_by (source_refusal fault)) };

    fn fmt<W: fmt::Write>(&self, f: &mut fmt::Formatter<W>) -> fmt::Result {
        f.write_str(self.text())
    }
}

impl Error for SourceFault {}
