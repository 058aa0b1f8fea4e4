//! Small texts of sources: the compiler, and after it the optimizer of netlists.
//!
//! A source is compiled by `cec_compile`, its netlist is optimized by `net_opt`, and its BLIF text, its C text or its
//! structural Verilog is written. The compiler-correctness theorem holds of the text, as of those of `cec_compile`; the
//! wires of the graph have no names in it. `coded_net` gives the lighter one of the plain and the encoded netlist, or
//! the encoded one, both optimized by `net_relations` for events that meet the source's relations.
#![tactic(auto)]

mod light;
mod texts;

pub use light::{Coding, LATCH_WEIGHT, coded_net, light_of, related_small};
pub use texts::{SmallSource, small_blif_of, small_c_of, small_net, small_verilog_of};
