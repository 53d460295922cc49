//! What a number format is: codes that are numbers, their values, and the numbers around an exact result.
//!
//! `Format` is proved against by everything above it. A format has a meaning (which codes are numbers, the value of each, the
//! result code of each value, and which of two neighbouring numbers is near) and answers four questions from it: whether a
//! code is a number, the next number above and below, and the split of an exact result into near, far and the count.
#![tactic(auto)]

mod faults;
mod format;
mod split;

pub use faults::FormatFault;
pub use format::Format;
pub use split::{Calculation, Operation, Split};
