//! The mathematics that the other crates share: sums and counts over the numbers below a bound, and
//! division rounded down. It has definitions (specs/) and laws (proofs/), and no code.
#![tactic(auto)]
