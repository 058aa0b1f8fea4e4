//! The graph of a kernel program: its live instances, its wires and their equations.
//!
//! Each statement of a kernel body may be live in several layers of one instant: resumed, where it holds
//! control from the instant before, and started, once for each root that can start it. The graph has wires
//! for each such instance, and one equation a wire; to solve the equations is to walk the program. The graph
//! follows Potop-Butucaru, Edwards and Berry, "Compiling Esterel", and its instances are in full layers, so
//! that each occurrence of a local signal has a status of its own.
#![tactic(auto)]

mod code_tables;
mod formulas;
mod graph;
mod instances;
mod laws;
mod layout;
mod loops;
mod neighbours;
mod orders;
mod statements;
mod trees;
mod wire_names;
mod wires;

pub use code_tables::{codes_end, has_some_code, instance_codes, resumed_codes, started_codes};
pub use formulas::Formula;
pub use graph::Graph;
pub use instances::{Instance, Instances, Layer};
pub use laws::{
    enclosing_instances_are_live, instances_ascend, leaves_are_resumed_pauses,
    residual_has_resumed_codes,
};
pub use layout::{WireLayout, first_instances, wire_layout};
pub use loops::LoopBodies;
pub use neighbours::{Neighbours, layer_above};
pub use orders::{Edges, Order, Ranks};
pub use statements::{Binding, Entry, Statement, list_statements};
pub use trees::{SelForm, SelNode, SelTree};
pub use wire_names::{LayerName, Path, WireName};
pub use wires::{Node, Wire};
