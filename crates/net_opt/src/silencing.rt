// A netlist without the wires that its gates carry.

ghost use Rattle.std.specs.Prelude.{◌≡◌, map, IfOk};
ghost use Rattle.net_ir.specs.Runs.{netlist_of};
ghost use Rattle.net_opt.specs.Silencing.{silent_gate, silent_net, IsSilent};

use crate::assembling::{Parts, joined_net, names_of};
use base_types::{NetId, NoMemory};
use net_ir::{Gate, Net, NetOut};
use std::alloc::Global;

/// The netlist, with gates that carry no wires.
pub(crate) fn silent_copy(alloc: Global, net: &Net) -> Result<Net, NoMemory>
    ensures { IfOk result (λ new. netlist_of new ≡ silent_net (netlist_of net.now)) }
{
    let parts = silent_parts(alloc, net)?;
    let named = names_of(alloc, net, &parts.outputs)?;
    Ok(joined_net(net, named, parts))
}

// The parts of a netlist, without wires.
fn silent_parts(alloc: Global, net: &Net) -> Result<Parts, NoMemory>
    ensures { IfOk result (IsSilent (netlist_of net.now)) }
{
    let gates = silent_gates(alloc, &net.gates)?;
    let outputs = output_nets(alloc, &net.outputs)?;
    Ok(Parts {
        gates,
        latches: Vec::from_slice(alloc, &net.latches)?,
        outputs,
        paused: net.paused,
    })
}

fn silent_gates(alloc: Global, gates: &[Gate]) -> Result<Vec<Gate>, NoMemory>
    ensures { IfOk result (λ v. v.items ≡ map silent_gate gates.now) }
{
    let mut silent = Vec::new(alloc);
    for gate in gates {
        silent.push(Gate {
            op: gate.op,
            wire: None,
        })?;
    }
    Ok(silent)
}

fn output_nets(alloc: Global, outputs: &[NetOut]) -> Result<Vec<NetId>, NoMemory>
    ensures { IfOk result (λ v. v.items ≡ map (λ o. o.net) outputs.now) }
{
    let mut nets = Vec::new(alloc);
    for output in outputs {
        nets.push(output.net)?;
    }
    Ok(nets)
}
