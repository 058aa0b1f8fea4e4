//! From a program of modules to one body without `run`.
//!
//! `expand` puts the body of a module in the place of each `run` of it, and numbers in the place of the names
//! of signals and traps, or answers the first fault that it meets. The language is that of Berry, "The
//! Constructive Semantics of Pure Esterel", with the modules of Esterel V5, as docs/language.md states it;
//! `specs/Flattening.antt` has the flat form, one row a statement.
#![tactic(auto)]

mod binders;
mod expansion;
mod expressions;
mod forms;
mod interface;
mod laws;
mod met;
mod place;
mod refusal;
mod runs;
mod scope;
mod traps;
mod walk;

pub use expansion::expand;
pub use laws::{flat_forms_fit, renaming_changes_names_alone};
pub use refusal::{ExpandFault, ScopeFault};
