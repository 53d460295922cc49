//! Worked examples of stochastic rounding, proved together as one statement about the meanings that the contracts of formats,
//! rules and operations cite.
#![tactic(auto)]

ghost use Rattle.examples.specs.Worked.{WorkedExamples};

/// The examples hold.
#[tactic(auto, using(crate::proofs::FixedExamples::fixed_examples))]
pub fn worked_examples()
    ensures { WorkedExamples }
{}
