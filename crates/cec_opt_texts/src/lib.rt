//! Small texts of circuits: a BLIF text is read, its circuit becomes a netlist, which is optimized, and its BLIF text,
//! its C text or its structural Verilog is written.
//!
//! Over every list of items, resets included, the text that is written shows what the text shows that was read. Any
//! text of the profile of `blif_text` can be given whose names are those of a netlist's interface, as in the texts of
//! `cec`. Where relations of the inputs are given, the same is shown over the lists whose events meet them.
#![tactic(auto)]

mod relations;
mod texts;

pub use relations::GivenRelation;
pub use texts::{
    optimized_blif, optimized_c, optimized_net, optimized_under, optimized_verilog, text_net,
};
