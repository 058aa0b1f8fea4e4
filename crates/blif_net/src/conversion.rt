// The netlist of a circuit.

ghost use Rattle.std.specs.Prelude.{◌≤◌, ◌^◌, map, length, IfOk};
ghost use Rattle.base_types.specs.Stops.{IfFault};
ghost use Rattle.net_ir.specs.Runs.{netlist_of};
ghost use Rattle.blif_text.specs.Plain.{plain_circuit};
ghost use Rattle.blif_run.specs.Loops.{IsDescribed, equations_of};
ghost use Rattle.blif_run.specs.Plans.{given_names};
ghost use Rattle.run_steps.specs.Order.{IsEvaluationOrder};
ghost use Rattle.run_steps.specs.Solvers.{IsResolved, equation_edges};
ghost use Rattle.blif_net.specs.Conversions.{IsNetOf};
ghost use Rattle.blif_net.specs.Interfaces.{IsFit, IsCircuitFault};
ghost use Rattle.blif_net.specs.Sizes.{nets_at_most};

use crate::assembling::assembled_net;
use crate::drawing::drawn_tables;
use crate::interface::check_interface;
use crate::sizes::has_few_nets;
use base_types::{NoMemory, Stop};
use blif_read::BlifFault;
use blif_run::{Resolved, resolved_names, table_order};
use blif_text::Blif;
use net_ir::Net;
use std::alloc::Global;

/// The netlist of a circuit that some text describes, which shows over all items what the circuit shows. The fault is
/// the circuit's first one, in the order of `BlifFault`; the only other error is out of memory.
pub fn net_of_circuit(alloc: Global, blif: &Blif) -> Result<Net, Stop<BlifFault>>
    requires { IsDescribed (plain_circuit blif.now) }
    ensures net { IfOk result (λ net. IsNetOf (plain_circuit blif.now) (netlist_of net)) }
    ensures fault { IfFault result (IsCircuitFault (plain_circuit blif.now)) }
{
    let resolved = resolved_names(alloc, blif)?;
    check_interface(alloc, blif, &resolved.slots)?;
    let order = table_order(alloc, blif, &resolved)?;
    if !has_few_nets(blif) {
        return Err(Stop::Fault(BlifFault::TooManyNets));
    }
    Ok(made_net(alloc, blif, &resolved, &order)?)
}

// The netlist of a circuit whose tables are drawn in this order.
fn made_net(
    alloc: Global,
    blif: &Blif,
    resolved: &Resolved<'_>,
    order: &[usize],
) -> Result<Net, NoMemory>
    requires described { IsDescribed (plain_circuit blif.now) }
    requires fits { IsFit (plain_circuit blif.now) }
    requires resolved { IsResolved (given_names (plain_circuit blif.now)) (equations_of (plain_circuit blif.now))
        (map (λ w. w.now) resolved.now.names.items) (map (λ k. k.now) resolved.now.slots.keys) resolved.now.first
        (map (λ s. s.items) resolved.now.reads.items) }
    requires order { IsEvaluationOrder (length (equations_of (plain_circuit blif.now)))
        (equation_edges (given_names (plain_circuit blif.now)) (equations_of (plain_circuit blif.now))) order.now }
    requires few { nets_at_most (plain_circuit blif.now) ≤ 2 ^ 32 }
    ensures { IfOk result (λ net. IsNetOf (plain_circuit blif.now) (netlist_of net)) }
{
    let drawing = drawn_tables(alloc, blif, resolved, order)?;
    assembled_net(alloc, blif, &resolved.slots, drawing)
}
