//! The regions of a graph: for each wire the wire that says whether the head of its region runs.
//!
//! Where a head does not run, each wire of its region is false, so the code that computes these wires can be skipped.
//! The head of a resumed statement is the branch of the innermost parallel around it, or the body where no parallel is
//! around it. The head of a started statement is the place where its start began. Potop-Butucaru, Edwards and Berry,
//! "Compiling Esterel", skip what no control reaches in the same way.
#![tactic(auto)]

mod heads;
mod region_list;

pub use region_list::regions;
