//! The names that stand in a line. They are read by functions: an `impl TryFrom<&[u8]>` may stand here for none of `Operation`,
//! `Mode` and `Neighbour`, which are types of other crates, and all names are read alike.
ghost use Rattle.std.specs.Prelude.{◌≡◌};
ghost use Rattle.std.proofs.Common.{rules};
ghost use Rattle.lines.specs.Names.{operation_named, rule_named, mode_named, neighbour_named, clamp_named, rule_says, rule_fair};

use draws::{Carry, Comparison, Neighbour, Rule};
use formats::Operation;
use unit::Mode;

/// A rule by its name.
#[derive(Clone, Copy)]
pub enum RuleName {
    Comparison,
    Carry,
}

/// It says what the rule of that name says.
impl Rule for RuleName {
    ghost says = { rule_says };

    ghost fair = { rule_fair };

    ghost outside = { Prim.search rules };

    fn choose(&self, k: u64, count: u64, draw: u64) -> Neighbour {
        match self {
            RuleName::Comparison => Comparison.choose(k, count, draw),
            RuleName::Carry => Carry.choose(k, count, draw),
        }
    }
}

/// The operation of a name.
pub(crate) fn operation(name: &[u8]) -> Option<Operation>
    ensures { result ≡ operation_named name.now }
{
    match name {
        b"add" => Some(Operation::Sum),
        b"sub" => Some(Operation::Difference),
        b"mul" => Some(Operation::Product),
        b"div" => Some(Operation::Quotient),
        _ => None,
    }
}

/// The rule of a name.
pub(crate) fn rule(name: &[u8]) -> Option<RuleName>
    ensures { result ≡ rule_named name.now }
{
    match name {
        b"comparison" => Some(RuleName::Comparison),
        b"carry" => Some(RuleName::Carry),
        _ => None,
    }
}

/// The mode of a name.
pub(crate) fn mode(name: &[u8]) -> Option<Mode>
    ensures { result ≡ mode_named name.now }
{
    match name {
        b"down" => Some(Mode::Down),
        b"nearest" => Some(Mode::Nearest),
        b"stochastic" => Some(Mode::Stochastic),
        _ => None,
    }
}

/// The neighbour of a name.
pub(crate) fn neighbour(name: &[u8]) -> Option<Neighbour>
    ensures { result ≡ neighbour_named name.now }
{
    match name {
        b"near" => Some(Neighbour::Near),
        b"far" => Some(Neighbour::Far),
        _ => None,
    }
}

/// Whether a result was clamped: 1 where it was, 0 where it was not.
pub(crate) fn clamped(name: &[u8]) -> Option<bool>
    ensures { result ≡ clamp_named name.now }
{
    match name {
        b"0" => Some(false),
        b"1" => Some(true),
        _ => None,
    }
}
