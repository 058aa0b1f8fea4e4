//! Netlists of circuits that BLIF texts describe.
//!
//! A circuit of tables and latches is a netlist's, where its tables have no combinational cycle and its names are those
//! of a netlist's interface, with `_paused` as its last output. `net_of_circuit` makes the netlist: it puts the tables
//! into an order in which each one comes after those that it reads (`blif_run`), and makes gates of each one's rows,
//! after Berkeley's BLIF: a row is the conjunction of its cells, a table the disjunction of its rows.
#![tactic(auto)]

mod assembling;
mod conversion;
mod drawing;
mod gates;
mod interface;
mod sizes;
mod tables;

pub use conversion::net_of_circuit;
