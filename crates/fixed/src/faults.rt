//! What is refused here, and by which number.
ghost use Rattle.std.specs.Prelude.{◌≡◌, Some};
ghost use Rattle.std.proofs.Common.{rules};
ghost use Rattle.draws.specs.Refusals.{refused_by};
ghost use Rattle.fixed.specs.Refusals.{sizes_refusal};

use draws::Refusal;
use std::error::Error;
use std::fmt;

/// Sizes that no fixed-point format has.
#[derive(Clone, Copy, PartialEq, Eq, Debug)]
pub enum SizesFault {
    OutOfRange,
}

impl Refusal for SizesFault {
    ghost refusal = { sizes_refusal };

    ghost known = { Prim.search rules };

    fn number(self) -> u32 {
        match self {
            SizesFault::OutOfRange => 1,
        }
    }
}

impl fmt::Display for SizesFault {
    ghost output = { λ fault. Some (refused_by (sizes_refusal fault)) };

    fn fmt<W: fmt::Write>(&self, f: &mut fmt::Formatter<W>) -> fmt::Result {
        f.write_str(self.text())
    }
}

impl Error for SizesFault {}
