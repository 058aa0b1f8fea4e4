//! Properties of BLIF texts: from the bytes of a text to the answer that an output is never, or always, true, to a
//! survey of all outputs, and to the answer that two texts do the same.
//!
//! `cec_opt_texts` makes a netlist of a text's circuit, and `cec_prove_sources` answers about that netlist. Its inputs
//! have no relations. A circuit shows what its netlist shows, and so the answer is one about the text.
#![tactic(auto)]

mod comparing;
mod fault;
mod surveys;
mod verdicts;

pub use comparing::text_comparison_of;
pub use fault::PairFault;
pub use surveys::text_survey_of;
pub use verdicts::text_verdict_of;
