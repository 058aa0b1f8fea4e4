//! The parser: from the tokens of a program text to its tree.
//!
//! `parse` reads the grammar of est_ast, the concrete syntax that docs/language.md states for the
//! language of Berry, "The Constructive Semantics of Pure Esterel". It answers the one program that
//! has exactly these tokens, or the least place that no program passes. The code is put together
//! from the rules of base_reader, and is proved equal to the reading function in `specs/Reading.antt`;
//! `proofs/ModuleLaws.antt` leads from there to the grammar.
#![tactic(auto)]

mod expressions;
mod heads;
mod laws;
mod modules;
mod names;
mod openings;
mod parser;
mod refusal;
mod signs;
mod statements;
mod tails;

pub use laws::{spellings_are_grammatical, spellings_are_read};
pub use parser::parse;
pub use refusal::ParseError;
