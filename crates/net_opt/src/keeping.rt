// The marked part of a netlist.

ghost use Rattle.std.specs.Prelude.{◌≡◌, ◌+◌, ◌<◌, ◌≤◌, ◌^◌, length, map, IfOk, All};
ghost use Rattle.net_ir.specs.Gates.{ReadsLower};
ghost use Rattle.net_ir.specs.Netlists.{net_count};
ghost use Rattle.net_ir.specs.Runs.{netlist_of};
ghost use Rattle.net_simp.specs.Renaming.{stand_in, renamed_latch};
ghost use Rattle.net_simp.specs.Packing.{rank};
ghost use Rattle.net_opt.specs.Keeping.{kept, kept_gate, kept_output, AreRanked, HasKept, IsKept};
ghost use Rattle.net_opt.specs.Optimized.{Optimizes};

use crate::assembling::{Parts, joined_net, names_of};
use base_types::{NetId, NoMemory};
use net_ir::{Gate, Latch, Net, NetOut};
use net_simp::{renamed_op, stand_in};
use std::alloc::Global;

/// The netlist of the marked nets alone, numbered anew.
pub(crate) fn kept_net(alloc: Global, net: &Net, marks: &[bool]) -> Result<Net, NoMemory>
    requires { IsKept (netlist_of net.now) marks.now }
    ensures optimizes { IfOk result (λ new. Optimizes (netlist_of net.now) (netlist_of new)) }
    ensures count { IfOk result (λ new.
        net_count (netlist_of new) ≡ rank marks.now (net_count (netlist_of net.now))) }
{
    let names = kept_names(alloc, marks)?;
    let parts = kept_parts(alloc, net, marks, &names)?;
    let named = names_of(alloc, net, &parts.outputs)?;
    Ok(joined_net(net, named, parts))
}

// For each net how many marked ones stand before it.
fn kept_names(alloc: Global, marks: &[bool]) -> Result<Vec<NetId>, NoMemory>
    requires { length marks.now ≤ 2 ^ 32 }
    ensures { IfOk result (λ names. AreRanked marks.now names.items) }
{
    let mut names = Vec::new(alloc);
    let mut number: usize = 0;
    for place in 0..marks.len() {
        names.push(NetId(number as u32))?;
        if marks[place] {
            number += 1;
        }
    }
    Ok(names)
}

// The marked latches and gates, over the new numbers.
fn kept_parts(alloc: Global, net: &Net, marks: &[bool], names: &[NetId]) -> Result<Parts, NoMemory>
    requires kept { IsKept (netlist_of net.now) marks.now }
    requires ranked { AreRanked marks.now names.now }
    ensures { IfOk result (HasKept (netlist_of net.now) marks.now (stand_in names.now)) }
{
    let first = net.inputs.len() + net.latches.len();
    let gates = kept_gates(alloc, first, &net.gates, marks, names)?;
    let latches = kept_latches(alloc, net.inputs.len(), &net.latches, marks, names)?;
    let outputs = kept_outputs(alloc, &net.outputs, names)?;
    Ok(Parts {
        gates,
        latches,
        outputs,
        paused: stand_in(names, net.paused),
    })
}

fn kept_gates(
    alloc: Global,
    first: usize,
    gates: &[Gate],
    marks: &[bool],
    names: &[NetId],
) -> Result<Vec<Gate>, NoMemory>
    requires count { length marks.now ≡ first + length gates.now }
    requires named { length names.now ≡ first + length gates.now }
    requires reads_lower { ReadsLower first gates.now }
    ensures { IfOk result (λ v. v.items ≡ map (kept_gate (stand_in names.now)) (kept marks.now first gates.now)) }
{
    let mut left = Vec::new(alloc);
    for (k, gate) in gates.iter().enumerate() {
        if marks[first + k] {
            let op = renamed_op(names, gate.op);
            left.push(Gate { op, wire: None })?;
        }
    }
    Ok(left)
}

fn kept_latches(
    alloc: Global,
    first: usize,
    latches: &[Latch],
    marks: &[bool],
    names: &[NetId],
) -> Result<Vec<Latch>, NoMemory>
    requires count { first + length latches.now ≤ length marks.now }
    requires in_range { All (λ l. l.from.0 < length names.now) latches.now }
    ensures { IfOk result (λ v. v.items
        ≡ map (renamed_latch (stand_in names.now)) (kept marks.now first latches.now)) }
{
    let mut left = Vec::new(alloc);
    for (k, latch) in latches.iter().enumerate() {
        if marks[first + k] {
            let from = stand_in(names, latch.from);
            left.push(Latch {
                init: latch.init,
                from,
            })?;
        }
    }
    Ok(left)
}

fn kept_outputs(alloc: Global, outputs: &[NetOut], names: &[NetId]) -> Result<Vec<NetId>, NoMemory>
    requires { All (λ o. o.net.0 < length names.now) outputs.now }
    ensures { IfOk result (λ v. v.items ≡ map (kept_output (stand_in names.now)) outputs.now) }
{
    let mut nets = Vec::new(alloc);
    for output in outputs {
        nets.push(stand_in(names, output.net))?;
    }
    Ok(nets)
}
