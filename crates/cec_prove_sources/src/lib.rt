//! Properties of sources: from the bytes of a source to the answer that an outgoing signal is never, or always,
//! present, to a survey of all outgoing signals, and to the answer that two sources do the same.
//!
//! A source is compiled by `cec_compile`, and `net_search` decides whether the net of the signal, or its negation, is
//! ever true where the relations of the source are met. If that stays open, it is asked of the netlist that `net_opt`
//! makes of this one. Of two sources `net_pair` makes one netlist, whose one net is true where they differ.
//!
//! The modules whose names begin with `device` ask of a netlist whose inputs have relations, and `cec_prove_texts` asks
//! by them too. What the netlist keeps of the source carries an answer back to the reactions of the source.
#![tactic(auto)]

mod comparing;
mod device_comparisons;
mod device_findings;
mod device_surveys;
mod device_verdicts;
mod events;
mod findings;
mod interfaces;
mod places;
mod presences;
mod questions;
mod reading;
mod relations;
mod surveys;
mod traces;
mod verdicts;

pub use comparing::net_comparison;
pub use device_comparisons::device_comparison;
pub use device_findings::PlacedQuestion;
pub use device_surveys::small_survey;
pub use device_verdicts::made_verdict;
pub use findings::found;
pub use places::place_of;
pub use questions::{Claim, Comparison, Finding, Layout, Presence, Question, Survey, Verdict};
pub use reading::trace_of;
pub use relations::relation_clauses;
pub use surveys::{net_survey, survey_of};
pub use verdicts::{net_verdict, verdict_of};
