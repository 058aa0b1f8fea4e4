//! Laws of regions: in each instant the regions of a program's netlist whose heads do not run are at rest, so a guarded
//! text means the netlist over all items.
#![tactic(auto)]

mod laws;

pub use laws::{guarded_texts_run, netlists_rest};
