//! The questions that a line asks.
use crate::format_names::{FormatName, Sizes};
use crate::names::RuleName;
use formats::Calculation;
use unit::Mode;

/// One question: an operation of a format under a rule, its split, the numbers next to a code, the ends of a fixed-point
/// format, what a rule says, a rounding of the unit, or the first words of the generator. Neither it nor what it holds is compared
/// or shown, so that none of these types has an impl for that.
#[derive(Clone, Copy)]
pub enum Query {
    Operate {
        format: FormatName,
        k: u64,
        rule: RuleName,
        calculation: Calculation,
        word: Option<u32>,
    },
    Split {
        format: FormatName,
        k: u64,
        calculation: Calculation,
    },
    Next {
        format: FormatName,
        code: u32,
    },
    Size(Sizes),
    Rule {
        rule: RuleName,
        k: u64,
        count: u64,
        draw: u64,
    },
    /// n and k as they stand in the line, in range or not.
    Unit {
        mode: Mode,
        n: u64,
        k: u64,
        x: i64,
        word: Option<u32>,
    },
    Generator {
        seed: u32,
    },
}
