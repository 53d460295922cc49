//! Prints where the harmonic series ends in s8.7 under two rounding modes.
#![tactic(auto)]

use draws::WordList;
use series::harmonic_sum;
use unit::{Mode, RoundingUnit, Settings};

/// Prints the last code in each of the two modes.
fn run(rt: &impl Print) -> anyhow::Result<()> {
    let mut unit = RoundingUnit::new(Settings::of(Mode::Down, 9, 32)?);
    let mut no_words = WordList::new([0u32; 0]);
    for mode in [Mode::Down, Mode::Nearest] {
        let code = harmonic_sum(&mut unit, mode, &mut no_words)?;
        println!(rt; "{mode} {code}")?;
    }
    Ok(())
}

fn main(rt: HostRuntime) -> anyhow::Result<()> {
    run(&rt)
}
