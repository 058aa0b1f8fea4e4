//! The reader of the C subset.
//!
//! `read_c` answers the program that a text describes, or the text's first fault, by the tokens, the grammar and
//! the rules on names that csub_text states.
#![tactic(auto)]

mod kinds;
mod laws;
mod lexer;
mod names;
mod reader;
mod refusal;
mod signs;
mod text;
mod tokens;

pub use laws::{described_texts_are_read, tokens_are_longest, written_texts_are_read};
pub use reader::read_c;
pub use refusal::CFault;
pub use text::{read_answer, read_assign, read_assigns, read_globals, read_locals, read_states};
pub use tokens::{Kind, Token};
