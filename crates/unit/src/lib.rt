//! The rounding unit: a signed 64-bit number divided by 2^n, rounded down, to nearest or at random, and clamped
//! to signed 32 bits.
//!
//! Its settings (mode, n and k) cannot be out of range. A `Stretch` replaces them for a while, and its end restores
//! the earlier ones. Only the stochastic mode takes a word; where nothing is clamped, its results over all 2^k draws
//! sum to 2^k times the exact quotient, but for the fraction that the count of far draws drops.
#![tactic(auto)]

mod division;
mod faults;
mod modes;
mod rounding;
mod settings;
mod stretch;

pub use faults::SettingsFault;
pub use modes::Mode;
pub use rounding::RoundingUnit;
pub use settings::Settings;
pub use stretch::Stretch;

/// Examples: each mode, both clamps, the ends of n and k, refusals, and the end of a stretch.
#[cfg(test)]
mod tests {
    use super::*;
    use draws::{Refusal, SourceFault, WordList};
    use std::test::Fail;

    /// x rounded by a unit with these settings, from a list of one word.
    fn rounded(mode: Mode, n: u64, k: u64, x: i64, word: u32) -> Result<i32, Fail> {
        let unit = RoundingUnit::new(Settings::of(mode, n, k)?);
        Ok(unit.round(x, &mut WordList::new([word]))?)
    }

    #[test]
    fn rounds_down_and_to_nearest(rt: HostRuntime) -> Result<(), Fail> {
        for (mode, n, x, answer) in [
            (Mode::Nearest, 8, 384, 2),
            (Mode::Nearest, 8, -384, -1),
            (Mode::Nearest, 8, 383, 1),
            (Mode::Nearest, 1, i64::MAX, 2147483647),
            (Mode::Nearest, 1, i64::MIN, -2147483648),
            (Mode::Nearest, 32, i64::MAX, 2147483647),
            (Mode::Nearest, 32, i64::MIN, -2147483648),
            (Mode::Down, 8, 511, 1),
            (Mode::Down, 8, -1, -1),
            (Mode::Down, 1, 4294967295, 2147483647),
            (Mode::Down, 1, 4294967296, 2147483647),
            (Mode::Down, 1, -4294967297, -2147483648),
            (Mode::Down, 32, i64::MIN, -2147483648),
        ] {
            assert_eq!(rt; rounded(mode, n, 8, x, 0)?, answer);
        }
        Ok(())
    }

    #[test]
    fn rounds_at_random(rt: HostRuntime) -> Result<(), Fail> {
        for (n, k, x, word, answer) in [
            (8, 8, -384, 0x7fff_ffff, -1),
            (8, 8, -384, 0x8000_0000, -2),
            (1, 1, 1, 0x7fff_ffff, 1),
            (1, 32, 1, 0x8000_0000, 0),
            (32, 1, 2147483647, 0, 0),
            (32, 32, 1, 0, 1),
            (32, 32, 1, 1, 0),
            (1, 8, 4294967295, 0, 2147483647),
            (1, 8, -4294967299, 0, -2147483648),
        ] {
            assert_eq!(rt; rounded(Mode::Stochastic, n, k, x, word)?, answer);
        }
        Ok(())
    }

    #[test]
    fn settings_are_refused_out_of_range(rt: HostRuntime) {
        for (mode, n, k, fault) in [
            (0, 0, 8, SettingsFault::ShiftOutOfRange),
            (0, 33, 8, SettingsFault::ShiftOutOfRange),
            (1, 8, 0, SettingsFault::DrawBitsOutOfRange),
            (2, u64::MAX, 33, SettingsFault::DrawBitsOutOfRange),
            (3, 1, 32, SettingsFault::ModeOutOfRange),
        ] {
            assert_eq!(rt; Settings::new(mode, n, k), Err(fault));
            assert_eq!(rt; fault.number(), 2);
        }
    }

    #[test]
    fn a_mode_has_a_number(rt: HostRuntime) {
        for (mode, number) in [(Mode::Down, 0), (Mode::Nearest, 1), (Mode::Stochastic, 2)] {
            assert_eq!(rt; Mode::try_from(number), Ok(mode));
            assert_eq!(rt; u64::from(mode), number);
            assert_eq!(rt; Settings::new(number, 8, 8), Settings::of(mode, 8, 8));
        }
        assert_eq!(rt; Mode::try_from(3), Err(SettingsFault::ModeOutOfRange));
    }

    #[test]
    fn a_stretch_ends_on_every_way_out(rt: HostRuntime) -> Result<(), Fail> {
        let down = Settings::of(Mode::Down, 8, 8)?;
        let stochastic = Settings::of(Mode::Stochastic, 1, 1)?;
        let mut unit = RoundingUnit::new(down);
        let mut source = WordList::new([0u32]);
        assert_eq!(rt; unit.round_under(stochastic, 1, &mut source), Ok(1));
        assert_eq!(rt; unit.settings(), down);
        assert_eq!(rt;
            unit.round_under(stochastic, 1, &mut source),
            Err(SourceFault::Exhausted)
        );
        assert_eq!(rt; unit.settings(), down);
        Ok(())
    }

    #[test]
    fn a_forgotten_stretch_does_not_end(rt: HostRuntime) -> Result<(), Fail> {
        let stochastic = Settings::of(Mode::Stochastic, 1, 1)?;
        let mut unit = RoundingUnit::new(Settings::of(Mode::Down, 8, 8)?);
        std::mem::forget(unit.stretch(stochastic));
        assert_eq!(rt; unit.settings(), stochastic);
        Ok(())
    }
}
