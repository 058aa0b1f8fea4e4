//! Embedded C of sources and of BLIF texts: from bytes to a header in which any number of instances can run.
//!
//! A source is compiled by `cec_cycles`, and a BLIF text is read and optimized by `cec_opt_texts`. The netlist gets the
//! name of the component (`csub_embed`), and its embedded text is written. Over calls on any number of instances, in
//! any order, an instance that is reset first shows what the program's reactions are, or what the BLIF text shows.
#![tactic(auto)]

mod naming;
mod sources;
mod texts;

pub use sources::{embedded_c_of, embedded_source_net};
pub use texts::{embedded_text_net, optimized_embedded};
