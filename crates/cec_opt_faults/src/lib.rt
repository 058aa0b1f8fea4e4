//! Why the optimizer makes no embedded C and no Verilog with a reset of a source, or of a BLIF text.
//!
//! Either there is no netlist, or the netlist has no such text. Both causes are of any types, so that sources, BLIF
//! texts and both kinds of written texts share this one.
#![tactic(auto)]

mod stops;
mod unmade;

pub use stops::no_source_net;
pub use unmade::Unmade;
