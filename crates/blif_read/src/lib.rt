//! The reader of BLIF texts.
//!
//! `read_blif` answers the circuit that a text describes, or the text's first fault, by the lines, the statements and
//! the rules on names that blif_text states.
#![tactic(auto)]

mod draft;
mod drivers;
mod fault;
mod lines;
mod reader;
mod statements;
mod words;

pub use fault::BlifFault;
pub use reader::read_blif;
