//! Reading what a line asks.
ghost use Rattle.std.specs.Prelude.{◌≡◌};
ghost use Rattle.lines.specs.Fields.{Reads};
ghost use Rattle.lines.specs.Queries.{kind_named, calculation_read, operate_query, split_query, next_query, size_query, rule_query, unit_query, generator_query, query_read, more_fields, query_fields};

use crate::fields::Fields;
use crate::format_names::{Sizes, format};
use crate::names::{mode, operation, rule};
use crate::numerals::{code_unless, decimal, hexadecimal, short_decimal, signed_decimal};
use crate::query::Query;
use formats::Calculation;

/// An operation and the codes that it is asked of: `OP A B`.
fn calculation(line: &mut Fields) -> Option<Calculation>
    ensures { Reads (λ _. 3) calculation_read line.old line.new result }
{
    let operation = operation(line.next()?)?;
    let left = hexadecimal(line.next()?)?;
    let right = hexadecimal(line.next()?)?;
    Some(operation.of(left, right))
}

/// An operation of the format of a name under a rule: `K RULE OP A B WORD`.
fn operate(name: &[u8], line: &mut Fields) -> Option<Query>
    ensures { Reads more_fields (operate_query name.now) line.old line.new result }
{
    let format = format(name)?;
    let k = decimal(line.next()?)?;
    let rule = rule(line.next()?)?;
    let calculation = calculation(line)?;
    let word = code_unless(line.next()?, b"-")?;
    Some(Query::Operate {
        format,
        k,
        rule,
        calculation,
        word,
    })
}

/// The split of the exact result of an operation: `FORMAT K OP A B`.
fn split(line: &mut Fields) -> Option<Query>
    ensures { Reads more_fields split_query line.old line.new result }
{
    let format = format(line.next()?)?;
    let k = decimal(line.next()?)?;
    let calculation = calculation(line)?;
    Some(Query::Split {
        format,
        k,
        calculation,
    })
}

/// The numbers next to a code: `FORMAT CODE`.
fn neighbours(line: &mut Fields) -> Option<Query>
    ensures { Reads more_fields next_query line.old line.new result }
{
    let format = format(line.next()?)?;
    let code = hexadecimal(line.next()?)?;
    Some(Query::Next { format, code })
}

/// The ends of a fixed-point format: `S I P`.
fn size(line: &mut Fields) -> Option<Query>
    ensures { Reads more_fields size_query line.old line.new result }
{
    let sign = decimal(line.next()?)?;
    let integer = decimal(line.next()?)?;
    let fraction = decimal(line.next()?)?;
    Some(Query::Size(Sizes {
        sign,
        integer,
        fraction,
    }))
}

/// What a rule says: `RULE K R DRAW`.
fn decision(line: &mut Fields) -> Option<Query>
    ensures { Reads more_fields rule_query line.old line.new result }
{
    let rule = rule(line.next()?)?;
    let k = decimal(line.next()?)?;
    let count = decimal(line.next()?)?;
    let draw = decimal(line.next()?)?;
    Some(Query::Rule {
        rule,
        k,
        count,
        draw,
    })
}

/// A rounding of the unit: `MODE N K X WORD`.
fn rounding(line: &mut Fields) -> Option<Query>
    ensures { Reads more_fields unit_query line.old line.new result }
{
    let mode = mode(line.next()?)?;
    let n = decimal(line.next()?)?;
    let k = decimal(line.next()?)?;
    let x = signed_decimal(line.next()?)?;
    let word = code_unless(line.next()?, b"-")?;
    Some(Query::Unit {
        mode,
        n,
        k,
        x,
        word,
    })
}

/// The first words of the generator: `SEED`.
fn generator(line: &mut Fields) -> Option<Query>
    ensures { Reads more_fields generator_query line.old line.new result }
{
    let seed = short_decimal(line.next()?)?;
    Some(Query::Generator { seed })
}

/// What a line asks, by its first field. It stands between the field and the readers, so that what is proved of reading has a
/// case for each kind, and not one for each byte of each word.
#[derive(Clone, Copy)]
enum Kind {
    Operate,
    Split,
    Next,
    Size,
    Rule,
    Unit,
    Generator,
}

/// What a first field asks: any other than these words is to be a format, in which an operation is asked.
fn kind_of(name: &[u8]) -> Kind
    ensures { result ≡ kind_named name.now }
{
    match name {
        b"split" => Kind::Split,
        b"next" => Kind::Next,
        b"size" => Kind::Size,
        b"rule" => Kind::Rule,
        b"unit" => Kind::Unit,
        b"lcg" => Kind::Generator,
        _ => Kind::Operate,
    }
}

/// What the next fields of a line ask, by the first of them.
pub(crate) fn read_query(line: &mut Fields) -> Option<Query>
    ensures { Reads query_fields query_read line.old line.new result }
{
    let name = line.next()?;
    match kind_of(name) {
        Kind::Operate => operate(name, line),
        Kind::Split => split(line),
        Kind::Next => neighbours(line),
        Kind::Size => size(line),
        Kind::Rule => decision(line),
        Kind::Unit => rounding(line),
        Kind::Generator => generator(line),
    }
}
