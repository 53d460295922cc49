//! The source that is a linear congruential generator.
ghost use Rattle.std.specs.Prelude.{◌≡◌, ℕ};
ghost use Rattle.draws.specs.Sequences.{stepped, generated, FirstWords};
ghost use Rattle.draws.specs.Lists.{generated_listed};

use crate::sources::{Source, SourceFault};
use std::marker::Model;

/// Each word is the state after one step; it never runs out.
#[derive(Drop)]
pub struct Generator {
    state: u32,
}

/// It stands for its state.
impl Model for Generator {
    ghost Value = { ℕ };

    ghost view = { λ g. g.state };
}

impl Generator {
    /// The first word is the state one step after the seed.
    pub fn new(seed: u32) -> Generator
        ensures state { result ≡ seed }
        ensures first { FirstWords }
    {
        Generator { state: seed }
    }

    /// The next word: there always is one.
    pub fn next_word(&mut self) -> u32
        ensures word { result ≡ stepped self.old }
        ensures state { self.new ≡ stepped self.old }
    {
        self.state = self.state.wrapping_mul(1664525).wrapping_add(1013904223);
        self.state
    }
}

impl Source for Generator {
    ghost coming = { λ s. generated s };

    ghost listed = { λ s. generated_listed s };

    fn advance(&mut self) -> Result<u32, SourceFault> {
        Ok(self.next_word())
    }

    fn has(&self, _n: u64) -> bool {
        true
    }
}
