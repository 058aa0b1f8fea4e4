//! The source language as data: the tokens of a program text, source trees, flat trees, and which tokens and which
//! trees a text has.
//!
//! The language is the one of Berry, "The Constructive Semantics of Pure Esterel", in the concrete
//! syntax that docs/language.md states. `specs/Lexing.antt` says of every text either its one list
//! of tokens or its first fault.
#![tactic(auto)]

mod flat;
mod one_lexing;
mod tokens;
mod trees;

pub use flat::{Flat, FlatCase, FlatDelay, FlatExpr, FlatForm, FlatStmt};
pub use one_lexing::every_text_lexes_once;
pub use tokens::{Kind, Mark, Reserved, Token};
pub use trees::{
    Case, Decl, Delay, Form, Handle, Module, Name, Program, Relation, Rename, SigExpr, Stmt,
};
