//! Netlists that do the same with fewer gates and latches.
//!
//! A pass runs the netlist on random inputs. From these runs it guesses which nets are equal or opposite in all
//! reachable instants (`simulating`, `classes`), and which values of latches exclude each other (`excluding`). It
//! merges these nets by an and-inverter graph (`graphs`, `building`, `telling`, `emitting`). Then `net_follow` checks
//! that the new netlist follows the given one. If a guess is not shown, its class is split and the check is repeated
//! (`trying`). Other passes order the graph (`copying`), balance it and rewrite its parts (`balancing`, `cuts`,
//! `plans`, `rewriting`). A mistake in the search can only cost time, because what it finds is checked.
#![tactic(auto)]

mod assembling;
mod balancing;
mod building;
mod classes;
mod collapsing;
mod copying;
mod cut_sets;
mod cuts;
mod diagrams;
mod edges;
mod emitting;
mod excluding;
mod few;
mod graphs;
mod keeping;
mod optimizing;
mod plans;
mod rewriting;
mod showing;
mod silencing;
mod simulating;
mod tables;
mod telling;
mod trying;

pub use optimizing::optimize;
