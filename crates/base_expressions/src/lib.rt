//! Expressions by tiers, whatever their language: parts with or between them, of parts with and between them, of
//! negations, brackets and leaves.
//!
//! A language says which of its tokens are which, and makes the nodes of its trees (`ExprLanguage`). The reader goes
//! from the left with one token ahead, a function a tier, and recurses only as deep as negations and brackets stand one
//! in another. It is proved equal to the reading function of `specs/Reading.antt`; `proofs/Judgements.antt` leads from
//! there to a language's own grammar.
#![tactic(auto)]

mod language;
mod reader;

pub use language::{ExprLanguage, Joint, Opening};
pub use reader::{read_expr, read_part};
