//! The harmonic series in s8.7, 16-bit fixed point with 7 fractional bits.
//!
//! `harmonic_sum` adds up 1 + 1/2 + .. + 1/1000, each term rounded by the rounding unit. Its contract gives the answer as a sum
//! over the terms in every mode, and its value rounded down and to nearest.
#![tactic(auto)]

ghost use Rattle.std.specs.Prelude.{◌≡◌, true};
ghost use Rattle.unit.specs.declared.modes.Mode.TheVariants.{Stochastic};
ghost use Rattle.series.specs.Harmonic.{Enough, Sums, SumsSurely, Values};

use draws::{Source, SourceFault};
use unit::{Mode, RoundingUnit, Settings, Stretch};

/// Refuses where the mode takes words and fewer than 999 are left.
fn check_words<S: Source>(mode: Mode, source: &S) -> Result<(), SourceFault>
    ensures { Enough S.coming mode source.now result }
{
    match mode {
        Mode::Stochastic if !source.has(999) => Err(SourceFault::Exhausted),
        _ => Ok(()),
    }
}

/// 1 and the rounded terms 1/2 to 1/1000.
fn rounded_terms<S: Source>(stretch: &Stretch<'_>, source: &mut S) -> Result<i32, SourceFault>
    requires { (stretch.now.unit.now.n ≡ 9) × (stretch.now.unit.now.mode ≡ Stochastic → (S.coming source.old).left 999 ≡ true) }
    ensures { SumsSurely S.coming stretch.now.unit.now.mode stretch.now.unit.now.k.bits source.old source.new result }
{
    let mut sum = 128;
    for i in 2..=1000u32 {
        sum += stretch.round(i64::from(65536 / i), source)?;
    }
    Ok(sum)
}

/// The code of 1 + 1/2 + .. + 1/1000 in s8.7, each term rounded by the unit in a stretch of this mode.
pub fn harmonic_sum<S: Source>(
    unit: &mut RoundingUnit,
    mode: Mode,
    source: &mut S,
) -> Result<i32, SourceFault>
    ensures answer { Sums S.coming mode unit.old.k.bits source.old source.new result }
    ensures restored { unit.new ≡ unit.old }
    ensures values { Values }
{
    check_words(mode, source)?;
    let k = unit.settings().draw_bits();
    // 9 and a k that was checked are in range, so no refusal is left to answer
    let Ok(settings) = Settings::of(mode, 9, u64::from(k.get())) else {
        unreachable()
    };
    let stretch = unit.stretch(settings);
    rounded_terms(&stretch, source)
}

/// The sum at random from the generator, and a list that is too short.
#[cfg(test)]
mod tests {
    use super::*;
    use draws::{Generator, WordList};
    use std::test::Fail;

    #[test]
    fn sums_at_random(rt: HostRuntime) -> Result<(), Fail> {
        let mut unit = RoundingUnit::new(Settings::of(Mode::Down, 1, 32)?);
        assert_eq!(rt;
            harmonic_sum(&mut unit, Mode::Stochastic, &mut Generator::new(0)),
            Ok(955)
        );
        assert_eq!(rt;
            harmonic_sum(&mut unit, Mode::Nearest, &mut Generator::new(0)),
            Ok(821)
        );
        Ok(())
    }

    #[test]
    fn a_short_list_is_refused_untouched(rt: HostRuntime) -> Result<(), Fail> {
        let mut unit = RoundingUnit::new(Settings::of(Mode::Down, 1, 32)?);
        let mut source = WordList::new([0u32; 998]);
        assert_eq!(rt;
            harmonic_sum(&mut unit, Mode::Stochastic, &mut source),
            Err(SourceFault::Exhausted)
        );
        assert!(rt; source.has(998));
        Ok(())
    }
}
