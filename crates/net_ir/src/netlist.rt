// Netlists and their gates.

ghost use Rattle.std.specs.Prelude.{◌≡◌, ◌+◌, ◌≤◌, ◌↔◌, length, take, IsTrue};
ghost use Rattle.net_ir.specs.Gates.{operand_end, ReadsLower, op_value, value_in, gate_values, Solves};
ghost use Rattle.net_ir.specs.Netlists.{IsNet, first_gate, net_count};

use base_types::{NetId, Text, WireId};

/// What a gate makes of the nets that it reads.
#[derive(Clone, Copy, PartialEq)]
pub enum Op {
    Const(bool),
    Copy(NetId),
    Not(NetId),
    And(NetId, NetId),
    Or(NetId, NetId),
}

/// A gate. It may carry a wire of the graph that the netlist was made from.
#[derive(Clone, Copy, PartialEq)]
pub struct Gate {
    pub op: Op,
    pub wire: Option<WireId>,
}

/// A latch. It has the value `init` in the first instant, and in each later one the value that the
/// net `from` had one instant before.
#[derive(Clone, Copy, PartialEq)]
pub struct Latch {
    pub init: bool,
    pub from: NetId,
}

/// An output, by its name and the net that it shows.
#[derive(Drop)]
pub struct NetOut {
    pub name: Text,
    pub net: NetId,
}

/// A netlist of at most 2^32 nets. There is one input for each given signal and one output for each
/// outgoing one, so the name of a signal that is both is in both lists. The nets are numbered from 0:
/// the inputs, then the latches, then the gates in order. The net `paused` tells whether the program is
/// still active after the instant.
#[derive(Drop)]
pub struct Net {
    pub name: Text,
    pub inputs: Vec<Text>,
    pub outputs: Vec<NetOut>,
    pub paused: NetId,
    pub latches: Vec<Latch>,
    pub gates: Vec<Gate>,

    // What every net keeps.
    ghost is_net: { IsNet (record {
      name = name;
      inputs = inputs.items;
      outputs = outputs.items;
      paused = paused.0;
      latches = latches.items;
      gates = gates.items;
    }) },
}

impl Net {
    ghost use Rattle.net_ir.specs.Runs.{netlist_of};

    /// Whether every gate's equation holds of these values, one for each net. It takes no memory.
    pub fn solves(&self, values: &[bool]) -> bool
        requires { length values.now ≡ net_count (netlist_of self.now) }
        ensures equations { IsTrue result ↔ Solves (first_gate (netlist_of self.now)) self.now.gates.items values.now }
        // The values of the inputs and of the latches settle the values of all nets.
        ensures settled { IsTrue result
            ↔ (values.now ≡ gate_values (take (first_gate (netlist_of self.now)) values.now) self.now.gates.items) }
    {
        equations_hold(self.inputs.len() + self.latches.len(), &self.gates, values)
    }
}

// Whether every gate's equation holds, where `first` is the number of the first gate.
fn equations_hold(first: usize, gates: &[Gate], values: &[bool]) -> bool
    requires one_value_per_net { length values.now ≡ first + length gates.now }
    requires reads_lower { ReadsLower first gates.now }
    ensures { IsTrue result ↔ Solves first gates.now values.now }
{
    for (k, gate) in gates.iter().enumerate() {
        if values[first + k] != op_value(values, gate.op) {
            return false;
        }
    }
    true
}

// What an operator makes of the values of the nets.
fn op_value(values: &[bool], op: Op) -> bool
    requires { operand_end op ≤ length values.now }
    ensures { result ≡ op_value (value_in values.now) op }
{
    match op {
        Op::Const(value) => value,
        Op::Copy(a) => values[a.0 as usize],
        Op::Not(a) => !values[a.0 as usize],
        Op::And(a, b) => values[a.0 as usize] && values[b.0 as usize],
        Op::Or(a, b) => values[a.0 as usize] || values[b.0 as usize],
    }
}
