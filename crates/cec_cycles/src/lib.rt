//! Programs whose dependencies have a cycle, compiled where they are constructive.
//!
//! `net_loops` makes a netlist of the program's graph, along a schedule in which the nodes of a circle occur several
//! times, and a check of it. The check has one output. It is true in an instant in which the schedule leaves something
//! unknown. `net_search` decides whether that ever happens while the events meet the program's relations. If not, the
//! program is constructive, and the netlist keeps what it means. If so, `grc_ternary_stops` runs the events by
//! three-valued reactions: either the program is not constructive there, or a longer schedule is tried.
#![tactic(auto)]

mod cycles;
mod deciding;
mod findings;
mod memory;
mod sources;
mod stopping;
mod texts;

pub use cycles::source_cycles;
pub use deciding::constructiveness_of;
pub use findings::{Constructiveness, CycleRefusal, Stuck};
pub use sources::{constructive_net, cyclic_made, cyclic_net};
pub use texts::{constructive_blif_of, constructive_c_of, constructive_verilog_of};
