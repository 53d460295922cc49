//! What is split, and what a split is.
ghost use Rattle.std.specs.Prelude.{◌≡◌};

/// The operations of one format on two of its numbers.
#[derive(Clone, Copy, PartialEq, Eq, Debug)]
pub enum Operation {
    Sum,
    Difference,
    Product,
    Quotient,
}

impl Operation {
    /// This operation on two codes.
    pub fn of(self, left: u32, right: u32) -> Calculation
        ensures { result ≡ record { operation = self; left = left; right = right } }
    {
        Calculation {
            operation: self,
            left,
            right,
        }
    }
}

/// An operation and the codes that it is asked of.
#[derive(Clone, Copy, PartialEq, Eq, Debug)]
pub struct Calculation {
    pub operation: Operation,
    pub left: u32,
    pub right: u32,
}

/// What a rounding starts from. `parts` are the near code, the far code and the count of draws that say far, in one tuple for
/// the rounding step. Where the exact result is beyond an end of the format, they are that end twice and 0, and the split is
/// `clamped`; they stand in either case, so the flag tells of them and hides none.
#[derive(Clone, Copy, PartialEq, Eq, Debug)]
pub struct Split {
    pub parts: (u32, u32, u64),
    pub clamped: bool,
}
