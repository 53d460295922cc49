//! What an operation refuses, and by which number.
ghost use Rattle.std.specs.Prelude.{◌≡◌, Some};
ghost use Rattle.std.proofs.Common.{rules};
ghost use Rattle.draws.specs.Refusals.{refused_by};
ghost use Rattle.formats.specs.declared.faults.FormatFault.TheVariants.{DrawBitsOutOfRange};
ghost use Rattle.operations.specs.Refusals.{operation_refusal};
ghost use Rattle.operations.specs.declared.faults.OperationFault.TheVariants.{Format, Source};

use draws::{DrawBitsFault, Refusal, SourceFault};
use formats::FormatFault;
use std::error::Error;
use std::fmt;

/// A fault of the format or of the source.
#[derive(Clone, Copy, PartialEq, Eq, Debug)]
pub enum OperationFault {
    Format(FormatFault),
    Source(SourceFault),
}

/// A fault has the number of its cause.
impl Refusal for OperationFault {
    ghost refusal = { operation_refusal };

    ghost known = { Prim.search rules };

    fn number(self) -> u32 {
        match self {
            OperationFault::Format(cause) => cause.number(),
            OperationFault::Source(cause) => cause.number(),
        }
    }
}

impl From<FormatFault> for OperationFault {
    ghost from_gives = { λ x r. r ≡ Format x };

    fn from(fault: FormatFault) -> OperationFault {
        OperationFault::Format(fault)
    }
}

impl From<SourceFault> for OperationFault {
    ghost from_gives = { λ x r. r ≡ Source x };

    fn from(fault: SourceFault) -> OperationFault {
        OperationFault::Source(fault)
    }
}

impl From<DrawBitsFault> for OperationFault {
    ghost from_gives = { λ x r. r ≡ Format DrawBitsOutOfRange };

    fn from(fault: DrawBitsFault) -> OperationFault {
        OperationFault::Format(FormatFault::from(fault))
    }
}

impl fmt::Display for OperationFault {
    ghost output = { λ fault. Some (refused_by (operation_refusal fault)) };

    fn fmt<W: fmt::Write>(&self, f: &mut fmt::Formatter<W>) -> fmt::Result {
        f.write_str(self.text())
    }
}

impl Error for OperationFault {}
