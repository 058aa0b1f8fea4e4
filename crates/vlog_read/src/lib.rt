//! The reader of structural Verilog.
//!
//! `read_verilog` answers the module that a text describes, or the text's first fault, by the tokens, the grammar and
//! the rules on names that vlog_text states.
#![tactic(auto)]

mod drivers;
mod faults;
mod kinds;
mod laws;
mod lexer;
mod marks;
mod modules;
mod ports;
mod reader;
mod refusal;
mod signs;
mod sources;
mod text;
mod tokens;
mod uses;

pub use laws::{described_texts_are_read, written_texts_are_read};
pub use reader::read_verilog;
pub use refusal::VlogFault;
