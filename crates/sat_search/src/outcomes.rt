// Answers to a question.

use sat_kernel::{Literal, Premise};

/// The answer to a question under assumptions.
#[derive(Drop)]
pub enum SearchOutcome {
    /// A valuation that meets the clauses and the assumptions. `is_model` checks it.
    Satisfiable(Vec<bool>),
    /// No valuation meets the clauses and the assumptions.
    Unsatisfiable(Refutation),
    /// This literal and its negation are both assumed.
    Contradicting(Literal),
    /// The effort was used up, or memory ran out at an earlier call.
    Unknown,
}

/// A clause of negated assumptions that follows from the clauses. The kernel holds it under this premise.
#[derive(Drop)]
pub struct Refutation {
    pub clause: Vec<Literal>,
    pub premise: Premise,
}
