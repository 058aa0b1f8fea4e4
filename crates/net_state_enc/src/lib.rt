//! The state of a netlist in fewer latches.
//!
//! The netlist of a program has a latch for each pause of its selection tree (Potop-Butucaru, Edwards and Berry,
//! "Compiling Esterel"). Pauses that exclude each other do not need one each: of several parts of which one alone is
//! active, a number says which (`specs/Widths`). `encode` makes a netlist whose latches hold such a code, with gates in
//! front that read it and gates after that write it. The code of a leaf is a list of literals, bits with values
//! (`codes`): a leaf is read as selected where they are met, and a bit is true where a selected leaf wants it so.
#![tactic(auto)]

mod codes;
mod encoding;
mod gates;
mod netlist;
mod trees;

pub use encoding::encode;
pub use netlist::TooManyNets;
