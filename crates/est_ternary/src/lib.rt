//! The three-valued walk of a term, and what it has to do with the term's potentials, step and reaction.
//!
//! One walk, by Kleene's three-valued tables, stands for the three kinds of potentials of Berry, "The Constructive
//! Semantics of Pure Esterel". The walk is in specs/; the laws that tie it to the tables of `est_kernel` are
//! contracts of this crate's functions.
#![tactic(auto)]

mod laws;

pub use laws::{
    settled_signals_are_solved, solved_signals_are_least, steps_are_known_walks,
    walks_are_monotone, walks_tell_potentials,
};
