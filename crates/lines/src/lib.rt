//! Lines of test vectors, read from bytes.
//!
//! A line has a question, `->` and the answer that is expected. Its fields stand between spaces, tabs and carriage returns. No byte
//! is out of place: whatever a line holds, `parse_line` answers its vector, that it says nothing, or what of it cannot be read.
#![tactic(auto)]

mod answer;
mod answer_fields;
mod fields;
mod format_names;
mod line;
mod names;
mod numerals;
mod query;
mod query_fields;
mod vector;

pub use answer::Answer;
pub use format_names::{FormatName, Sizes};
pub use line::parse_line;
pub use names::RuleName;
pub use query::Query;
pub use vector::{Malformed, Vector};
