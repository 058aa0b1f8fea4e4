//! The reader of guarded texts.
//!
//! `read_guarded` answers the program that a text describes, or the text's first fault, by the tokens, the grammar and
//! the rules on names that csub_guard states.
#![tactic(auto)]

mod faults;
mod laws;
mod places;
mod reader;
mod refusal;
mod table;
mod text;
mod undeclared;
mod uses;
mod words;

pub use laws::described_texts_are_read;
pub use reader::read_guarded;
pub use refusal::GuardedFault;
