//! Machines that items drive: the one notion of a run, and of one machine that follows another.
//!
//! A program, a graph, a netlist and each language of texts are machines: in each instant something is so, by the state
//! and the event, and after it is the next state; a reset puts the start back. A pass keeps the meaning where the
//! machine of its result follows that of what it was given, in lock step: a simulation after Milner, in the shape that
//! CompCert gives it. This crate has definitions and lemmas alone.
#![tactic(auto)]
