//! The rounding modes.
ghost use Rattle.std.specs.Prelude.{◌≡◌, ◌<◌, Some, Ok, Err};
ghost use Rattle.unit.specs.Modes.{mode_number, mode_name};
ghost use Rattle.unit.specs.declared.faults.SettingsFault.TheVariants.{ModeOutOfRange};

use crate::faults::SettingsFault;
use std::fmt;

/// How a quotient becomes a whole number: the floor, the nearest, or one of its two neighbours at random.
#[derive(Clone, Copy, PartialEq, Eq, Debug)]
pub enum Mode {
    Down,
    Nearest,
    Stochastic,
}

/// The mode that has this number, if one has.
impl TryFrom<u64> for Mode {
    type Error = SettingsFault;

    ghost try_from_gives = { λ number r. elim r [ Ok mode ↦ mode_number mode ≡ number | Err e ↦ (e ≡ ModeOutOfRange) × (2 < number) ] };

    fn try_from(number: u64) -> Result<Mode, SettingsFault> {
        match number {
            0 => Ok(Mode::Down),
            1 => Ok(Mode::Nearest),
            2 => Ok(Mode::Stochastic),
            _ => Err(SettingsFault::ModeOutOfRange),
        }
    }
}

/// The number of a mode: 0, 1 or 2.
impl From<Mode> for u64 {
    ghost from_gives = { λ mode number. number ≡ mode_number mode };

    fn from(mode: Mode) -> u64 {
        match mode {
            Mode::Down => 0,
            Mode::Nearest => 1,
            Mode::Stochastic => 2,
        }
    }
}

impl fmt::Display for Mode {
    ghost output = { λ mode. Some (mode_name mode) };

    fn fmt<W: fmt::Write>(&self, f: &mut fmt::Formatter<W>) -> fmt::Result {
        f.write_str(match self {
            Mode::Down => "down",
            Mode::Nearest => "nearest",
            Mode::Stochastic => "stochastic",
        })
    }
}
