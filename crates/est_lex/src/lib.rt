//! From the bytes of a program text to its tokens.
//!
//! `lex` answers the tokens of a text, or its first fault, by the token relation of est_ast. The
//! tokens are those of the concrete syntax that docs/language.md states, for the language of Berry,
//! "The Constructive Semantics of Pure Esterel".
#![tactic(auto)]

mod classes;
mod comments;
mod front;
mod lexer;
mod numerals;
mod refusal;
mod signs;
mod words;

pub use lexer::lex;
pub use refusal::LexError;
