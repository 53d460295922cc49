//! The source that is a handed list.
ghost use Rattle.std.specs.Prelude.{◌≡◌, ◌≤◌, length};
ghost use Rattle.draws.specs.Sequences.{listed};
ghost use Rattle.draws.specs.Lists.{list_listed};

use crate::sources::{Source, SourceFault};
use std::convert::AsSlice;

/// The words of a list that it owns or borrows, from the first to the last. Its place is that of the next word, as in a
/// `std::io::Cursor`.
#[derive(Drop)]
pub struct WordList<T: AsSlice<u32> = Vec<u32>> {
    words: T,
    at: usize,
    ghost inside: { at ≤ length (T.items words) },
}

impl<T: AsSlice<u32>> WordList<T> {
    /// All words of the list are still to come.
    pub fn new(words: T) -> WordList<T>
        ensures { listed (T.items result.words) result.at ≡ listed (T.items words) 0 }
    {
        WordList { words, at: 0 }
    }
}

impl<T: AsSlice<u32>> Source for WordList<T> {
    ghost coming = { λ s. listed (T.items s.words) s.at };

    ghost listed = { λ s. list_listed (T.items s.words) s.at s.inside };

    fn advance(&mut self) -> Result<u32, SourceFault> {
        let word = *self
            .words
            .as_slice()
            .get(self.at)
            .ok_or(SourceFault::Exhausted)?;
        self.at += 1;
        Ok(word)
    }

    fn has(&self, n: u64) -> bool {
        // Rust has no `From<usize>` for `u64`
        n <= (self.words.as_slice().len() - self.at) as u64
    }
}
