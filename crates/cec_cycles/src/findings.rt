// What is found of a program whose dependencies have a cycle.

ghost use Rattle.std.specs.Prelude.{◌≡◌, codes, map};
ghost use Rattle.grc_graph.specs.PlainWireNames.{wire_name_of};
ghost use Rattle.cec_compile.specs.WireTexts.{joined_texts};

use cec_compile::{Cycle, Refusal};
use grc_graph::WireName;
use net_ir::Net;
use thiserror::Error;

/// Events to which a program reacts, except to the last one.
#[derive(Debug, Drop)]
pub struct Stuck {
    /// The trace of the events.
    pub trace: Vec<u8>,
    /// The number of the last event, from 1.
    pub instant: usize,
    /// The names of the wires that are unknown there.
    pub wires: Vec<WireName>,
    /// The texts of the wires, joined by `, `.
    pub text: Vec<u8>,

    ghost is_text: { text.items ≡ joined_texts (codes ", ") (map wire_name_of wires.items) },
}

/// What is found of a program.
#[derive(Drop)]
pub enum Constructiveness {
    /// It is constructive, and the netlist keeps what it means.
    Constructive(Net),
    /// It is not constructive: it does not react to the last of these events.
    NotConstructive(Stuck),
    /// Neither was shown within the effort.
    Undecided,
    /// The netlist or its check would have more than 2^32 nets.
    TooManyNets,
}

/// Why a source has no constructive netlist.
#[derive(Debug, Drop, Error)]
pub enum CycleRefusal {
    /// The source is refused for another cause than a cycle.
    #[error("the source has no graph")]
    Source(Refusal),
    /// The program is not constructive.
    #[error("the program is not constructive")]
    NotConstructive(Stuck),
    /// The dependencies have this cycle, and it was not shown within the effort whether the program is constructive.
    #[error("the dependencies have a cycle, and the effort was used up")]
    Undecided(Cycle),
    /// The dependencies have this cycle, and the netlist or its check would have more than 2^32 nets.
    #[error("the dependencies have a cycle, and a netlist would be too large")]
    TooManyNets(Cycle),
}
