// What a writer of texts must know of a net.

ghost use Rattle.std.specs.Prelude.{ℕ, ◌<◌, ◌^◌, IfSome, All};
ghost use Rattle.net_ir.specs.Runs.{netlist_of};
ghost use Rattle.net_ir.specs.Writing.{IsWritable};

use crate::netlist::{Gate, Net};

/// Looks at the wires that the gates of a net carry, each once: their numbers are those of their type. A proof knows
/// this of numbers that were looked at; no other code needs it.
pub fn look_at_wires(net: &Net)
    ensures { IsWritable (netlist_of net.now) }
{
    look_at_gates(&net.gates);
}

fn look_at_gates(gates: &[Gate])
    ensures { All (λ g. IfSome g.wire (λ w. w.0 < 2 ^ 32)) gates.now }
{
    for gate in gates {
        look_at_wire(*gate);
    }
}

fn look_at_wire(gate: Gate)
    ensures { IfSome gate.wire (λ w. w.0 < 2 ^ 32) }
{
    if let Some(wire) = gate.wire {
        let _number = wire.0;
    }
}
