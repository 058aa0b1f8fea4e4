//! Tests of crates below `cec_commands` through their public calls.
//!
//! They check what no contract says and no row of a test program can say. They are in a crate of their own, because a
//! crate with tests is proved twice, and below `cec_commands`, so that they do not wait for it. The expected values are
//! those of published examples, of another implementation, or worked by hand.
#![tactic(auto)]

#[cfg(test)]
mod digraphs;
#[cfg(test)]
mod outside;
#[cfg(test)]
mod pickers;
