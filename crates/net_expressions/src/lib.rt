//! What texts of one-bit assignments share, whatever their language: tokens, expressions, and tables of names.
//!
//! An expression is made of names and constants by not, and, and or, with brackets. `specs/` says how expressions
//! are spelled by tokens of any kind, what they mean, and how a text is cut into tokens; a language gives its kinds
//! of tokens (`TokenKind`), and stands its own grammar on these. The reader of expressions is that of base_expressions.
#![tactic(auto)]

mod kinds;
mod lexing;
mod names;
mod reader;
mod steps;
mod tables;
mod trees;
mod writing;

pub use kinds::{Front, Lexical, Sign, Token, TokenKind};
pub use lexing::{begins_name, is_space, lex, name_len, place_at};
pub use names::names_in;
pub use reader::read_expr;
pub use steps::{after, copy_of, nothing_read, past, past_name, read_bit, refused_here};
pub use tables::{NameTable, name_set, name_table};
pub use trees::Expr;
pub use writing::{GateText, put_gate_name, put_net, put_op};
