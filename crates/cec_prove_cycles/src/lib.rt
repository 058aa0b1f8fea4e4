//! Properties of constructive programs whose dependencies may have a cycle: from the bytes of a source to the
//! answer that an outgoing signal is never, or always, present, to a survey of all outgoing signals, and to the answer
//! that two sources do the same.
//!
//! A source whose dependencies have no cycle is answered by `cec_prove_sources`. For another one `cec_cycles` shows
//! that the program is constructive and makes a netlist that keeps what it means. Then the calls of
//! `cec_prove_sources` that ask for a netlist alone give the answer. If the program is not constructive, the error has
//! a trace that shows it.
#![tactic(auto)]

mod comparing;
mod refusal;
mod surveys;
mod verdicts;

pub use comparing::{constructive_comparison_of, constructive_made};
pub use refusal::CyclePairRefusal;
pub use surveys::constructive_survey_of;
pub use verdicts::constructive_verdict_of;
