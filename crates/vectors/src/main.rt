//! Compares what formats, rules, the rounding unit and the generator answer with vector lines from standard input.
#![tactic(auto)]

use answers::{Outcome, compare};
use std::fmt;
use std::io::{BufRead, BufReader};

/// How many lines were compared, how many of them differ, and how many could not be read.
#[derive(Clone, Copy, Default)]
struct Tally {
    compared: u64,
    differ: u64,
    malformed: u64,
}

/// As it stands in the last line.
impl fmt::Display for Tally {
    fn fmt<W: fmt::Write>(&self, f: &mut fmt::Formatter<W>) -> fmt::Result {
        let Tally {
            compared,
            differ,
            malformed,
        } = self;
        write!(
            f,
            "{compared} compared, {differ} differ, {malformed} malformed"
        )
    }
}

/// Compares one line, and reports it where it differs or cannot be read.
fn check_line(
    rt: &(impl Alloc + Print),
    number: u64,
    line: &[u8],
    tally: &mut Tally,
) -> anyhow::Result<()> {
    match compare(line) {
        Outcome::PassedOver => {}
        Outcome::Agrees => tally.compared = tally.compared.saturating_add(1),
        Outcome::Differs(came) => {
            tally.compared = tally.compared.saturating_add(1);
            tally.differ = tally.differ.saturating_add(1);
            let text = String::from_utf8_lossy(rt.alloc(), line)?;
            println!(rt; "line {number}: {text}, came {came}")?;
        }
        Outcome::Malformed(fault) => {
            tally.malformed = tally.malformed.saturating_add(1);
            println!(rt; "line {number}: {fault}")?;
        }
    }
    Ok(())
}

/// Compares all lines, and prints how many there were.
fn run(rt: &(impl Alloc + Input + Print)) -> anyhow::Result<()> {
    let mut tally = Tally::default();
    let lines = BufReader::new(rt.alloc(), rt.reader())?.split(rt.alloc(), b'\n');
    for (line, number) in lines.zip(1u64..) {
        check_line(rt, number, &line?, &mut tally)?;
    }
    println!(rt; "{tally}")?;
    Ok(())
}

fn main(rt: HostRuntime) -> anyhow::Result<()> {
    run(&rt)
}
