//! What a format refuses, and by which number.
ghost use Rattle.std.specs.Prelude.{◌≡◌, Some};
ghost use Rattle.std.proofs.Common.{rules};
ghost use Rattle.draws.specs.Refusals.{refused_by};
ghost use Rattle.formats.specs.Refusals.{format_refusal};
ghost use Rattle.formats.specs.declared.faults.FormatFault.TheVariants.{DrawBitsOutOfRange};

use draws::{DrawBitsFault, Refusal};
use std::error::Error;
use std::fmt;

/// A number of draw bits that is not 1 to 32, a code that is no number, or a divisor of value 0.
#[derive(Clone, Copy, PartialEq, Eq, Debug)]
pub enum FormatFault {
    DrawBitsOutOfRange,
    NotANumber,
    ZeroDivisor,
}

impl Refusal for FormatFault {
    ghost refusal = { format_refusal };

    ghost known = { Prim.search rules };

    fn number(self) -> u32 {
        match self {
            FormatFault::DrawBitsOutOfRange => 2,
            FormatFault::NotANumber => 3,
            FormatFault::ZeroDivisor => 4,
        }
    }
}

impl From<DrawBitsFault> for FormatFault {
    ghost from_gives = { λ x r. r ≡ DrawBitsOutOfRange };

    fn from(fault: DrawBitsFault) -> FormatFault {
        match fault {
            DrawBitsFault::OutOfRange => FormatFault::DrawBitsOutOfRange,
        }
    }
}

impl fmt::Display for FormatFault {
    ghost output = { λ fault. Some (refused_by (format_refusal fault)) };

    fn fmt<W: fmt::Write>(&self, f: &mut fmt::Formatter<W>) -> fmt::Result {
        f.write_str(self.text())
    }
}

impl Error for FormatFault {}
