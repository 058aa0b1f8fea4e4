//! Facts on Booleans and on lists that the toolchain's library has not: each is said once, here, for all crates.
//!
//! This crate has lemmas alone.
#![tactic(auto)]
