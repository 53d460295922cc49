//! The fields of a line: what stands between its blanks.
ghost use Rattle.std.specs.Prelude.{◌≡◌, ℕ, not, List, [], ◌∷◌, position, MatchOption};
ghost use Rattle.std.specs.Iterator.{YieldsFirstRef, item_count};
ghost use Rattle.lines.specs.Fields.{fields, others};
ghost use Rattle.lines.specs.Texts.{blank};

use std::marker::Model;

/// The fields that are still to be read, in their order. (`split` of std would give an empty field between two blanks.)
#[derive(Drop)]
pub(crate) struct Fields<'a> {
    rest: &'a [u8],
}

impl<'a> Model for Fields<'a> {
    ghost Value = { List (List ℕ) };

    ghost view = { λ line. fields line.rest.now };
}

/// Whether a byte stands between fields.
fn is_blank(byte: u8) -> bool
    ensures { result ≡ blank byte }
{
    matches!(byte, b' ' | b'\t' | b'\r')
}

/// Where the first field of a text begins.
fn field_start(text: &[u8]) -> Option<usize>
    ensures { result ≡ position (λ b. not (blank b)) text.now }
{
    text.iter().position(|b| !is_blank(*b))
}

/// Where the field ends that a text begins with, unless it ends with the text.
fn field_end(text: &[u8]) -> Option<usize>
    ensures { result ≡ position blank text.now }
{
    text.iter().position(|b| is_blank(*b))
}

impl<'a> Fields<'a> {
    /// All fields of a text.
    pub(crate) fn new(text: &'a [u8]) -> Fields<'a>
        ensures { result ≡ fields text.now }
    {
        Fields { rest: text }
    }

    /// The next field, which stays the next.
    pub(crate) fn peek(&self) -> Option<&'a [u8]>
        ensures { MatchOption result (self.now ≡ []) (λ field. self.now ≡ field.now ∷ others self.now) }
    {
        Fields { rest: self.rest }.next()
    }
}

/// The fields one after another.
impl<'a> Iterator for Fields<'a> {
    type Item = &'a [u8];

    ghost next_gives = { YieldsFirstRef (λ line. line) };

    ghost remaining = { item_count (λ line. line) };

    fn next(&mut self) -> Option<&'a [u8]> {
        let text = &self.rest[field_start(self.rest)?..];
        let (field, rest) = text.split_at(field_end(text).unwrap_or(text.len()));
        self.rest = rest;
        Some(field)
    }
}
