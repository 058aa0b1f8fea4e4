//! A kit of reading rules: how a reader of a token list is stated, written and proved exact.
//!
//! A grammar is a relation on whole lists of tokens, stated with the words of `specs/Languages.antt`.
//! A reading function goes over the list from the left with one token ahead, and is put together
//! from the rules of `specs/Readings.antt` and `specs/Choice.antt`. Code is proved equal to its
//! reading function, and one judgement, `Reads` of `proofs/Readers.antt`, leads from the function to
//! the relation: what is accepted is a member, each member is accepted, and a fault is at the least
//! place that no member passes (`specs/Exact.antt`). The kit knows nothing of any one language;
//! `statements` is a worked example, a small reader whose last function carries that exactness as
//! its clause. Recursive descent
//! with one token ahead is described in Aho, Lam, Sethi and Ullman, "Compilers", section 4.4.
#![tactic(auto)]

mod cursor;
mod faults;
mod statements;

pub use cursor::{ended, first, inside, refused};
pub use faults::{Fault, ReadError};
