//! What is refused here, and by which number.
ghost use Rattle.std.specs.Prelude.{◌≡◌, Some};
ghost use Rattle.std.proofs.Common.{rules};
ghost use Rattle.draws.specs.Refusals.{refused_by};
ghost use Rattle.unit.specs.Refusals.{settings_refusal};
ghost use Rattle.unit.specs.declared.faults.SettingsFault.TheVariants.{DrawBitsOutOfRange};

use draws::{DrawBitsFault, Refusal};
use std::error::Error;
use std::fmt;

/// Which of the three settings is out of range.
#[derive(Clone, Copy, PartialEq, Eq, Debug)]
pub enum SettingsFault {
    DrawBitsOutOfRange,
    ShiftOutOfRange,
    ModeOutOfRange,
}

impl Refusal for SettingsFault {
    ghost refusal = { settings_refusal };

    ghost known = { Prim.search rules };

    fn number(self) -> u32 {
        match self {
            SettingsFault::DrawBitsOutOfRange => 2,
            SettingsFault::ShiftOutOfRange => 2,
            SettingsFault::ModeOutOfRange => 2,
        }
    }
}

impl From<DrawBitsFault> for SettingsFault {
    ghost from_gives = { λ x r. r ≡ DrawBitsOutOfRange };

    fn from(fault: DrawBitsFault) -> SettingsFault {
        match fault {
            DrawBitsFault::OutOfRange => SettingsFault::DrawBitsOutOfRange,
        }
    }
}

impl fmt::Display for SettingsFault {
    ghost output = { λ fault. Some (refused_by (settings_refusal fault)) };

    fn fmt<W: fmt::Write>(&self, f: &mut fmt::Formatter<W>) -> fmt::Result {
        f.write_str(self.text())
    }
}

impl Error for SettingsFault {}
