//! From the bytes of a source to its graph, its netlist and its texts: the compiler, with the theorem.
//!
//! `blif_of` takes the bytes of a Pure Esterel source to a BLIF text (Berkeley), `c_of` to a text in a subset of C, and
//! `verilog_of` to a module of structural Verilog. Their contracts say that the text, by the meaning of BLIF, by the
//! machine of the subset or by the module's, does in every run what the constructive semantics (Berry, "The
//! Constructive Semantics of Pure Esterel") says of the source. `passes` calls the passes, in their order.
#![tactic(auto)]

mod compiler;
mod cycles;
mod forms;
mod graphs;
mod guarded_texts;
mod made;
mod passes;
mod refusal;
mod source_texts;
mod wire_texts;

pub use compiler::{blif_of, c_of, encoded_blif_of, verilog_of};
pub use cycles::Cycle;
pub use forms::TextForm;
pub use graphs::{built_graph, graph_of};
pub use guarded_texts::{GuardedMade, guarded_c_of, guarded_made, write_guarded_text};
pub use made::{Made, made_in, source_made};
pub use passes::{Compiled, Graphed, compile, compile_program, compile_unshared, source_graph};
pub use refusal::{Limit, Refusal};
pub use source_texts::write_source_text;
pub use wire_texts::joined_texts;
