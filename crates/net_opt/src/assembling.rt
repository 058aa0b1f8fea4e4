// A netlist of parts, with the names of a given one.

ghost use Rattle.std.specs.Prelude.{◌≡◌, ◌+◌, ◌<◌, ◌≤◌, ◌^◌, [], true, length, map, IfOk, IfSome, All};
ghost use Rattle.base_types.specs.declared.indices.NetId.{NetId};
ghost use Rattle.net_ir.specs.Gates.{ReadsLower, carried, operand_end};
ghost use Rattle.net_ir.specs.Netlists.{IsNet};
ghost use Rattle.net_ir.specs.Runs.{netlist_of};
ghost use Rattle.net_opt.specs.Optimized.{SameInterface};
ghost use Rattle.net_opt.specs.Assembling.{named_outputs, net_with, HasParts, Matching};

use base_types::{NetId, NoMemory, Text};
use net_ir::{Gate, Latch, Net, NetOut, Op};
use net_simp::copied_names;
use std::alloc::Global;

/// A netlist without its names: gates, latches, the nets of the outputs in order, and the net of `paused`.
#[derive(Drop)]
pub(crate) struct Parts {
    pub gates: Vec<Gate>,
    pub latches: Vec<Latch>,
    pub outputs: Vec<NetId>,
    pub paused: NetId,
}

/// The names of a netlist, and its outputs over other nets.
#[derive(Drop)]
pub(crate) struct Named {
    pub name: Text,
    pub inputs: Vec<Text>,
    pub outputs: Vec<NetOut>,
}

/// The netlist of these parts, with the names of the given one. None where they are not parts of a netlist of its
/// interface, or a gate carries a wire.
pub(crate) fn assembled_net(alloc: Global, net: &Net, parts: Parts) -> Result<Option<Net>, NoMemory>
    ensures { IfOk result (λ o. IfSome o (λ new. SameInterface (netlist_of net.now) (netlist_of new))) }
{
    if !are_parts(net, &parts) {
        return Ok(None);
    }
    let named = names_of(alloc, net, &parts.outputs)?;
    Ok(Some(joined_net(net, named, parts)))
}

// Whether these are parts of a netlist of the same interface, of whose gates none carries a wire.
fn are_parts(net: &Net, parts: &Parts) -> bool
    ensures { result ≡ true → HasParts (netlist_of net.now) parts.now }
{
    let first = net.inputs.len().saturating_add(parts.latches.len());
    let count = first.saturating_add(parts.gates.len());
    count <= 0x1_0000_0000
        && parts.outputs.len() == net.outputs.len()
        && (parts.paused.0 as usize) < count
        && are_below(&parts.outputs, count)
        && latches_are_below(&parts.latches, count)
        && read_lower(first, &parts.gates)
        && are_silent(&parts.gates)
}

fn are_below(nets: &[NetId], count: usize) -> bool
    ensures { result ≡ true → All (λ n. n.0 < count) nets.now }
{
    for net in nets {
        if net.0 as usize >= count {
            return false;
        }
    }
    true
}

fn latches_are_below(latches: &[Latch], count: usize) -> bool
    ensures { result ≡ true → All (λ l. l.from.0 < count) latches.now }
{
    for latch in latches {
        if latch.from.0 as usize >= count {
            return false;
        }
    }
    true
}

fn read_lower(first: usize, gates: &[Gate]) -> bool
    ensures { result ≡ true → ReadsLower first gates.now }
{
    for (k, gate) in gates.iter().enumerate() {
        if !reads_below(gate.op, first.saturating_add(k)) {
            return false;
        }
    }
    true
}

fn reads_below(op: Op, end: usize) -> bool
    ensures { result ≡ true → operand_end op ≤ end }
{
    match op {
        Op::Const(_) => true,
        Op::Copy(a) | Op::Not(a) => (a.0 as usize) < end,
        Op::And(a, b) | Op::Or(a, b) => (a.0 as usize) < end && (b.0 as usize) < end,
    }
}

fn are_silent(gates: &[Gate]) -> bool
    ensures { result ≡ true → carried gates.now ≡ [] }
{
    for gate in gates {
        if gate.wire.is_some() {
            return false;
        }
    }
    true
}

/// The names of a netlist, with outputs that show these nets.
pub(crate) fn names_of(alloc: Global, net: &Net, outputs: &[NetId]) -> Result<Named, NoMemory>
    requires { length outputs.now ≡ length net.now.outputs.items }
    ensures { IfOk result (Matching (netlist_of net.now) outputs.now) }
{
    let inputs = copied_names(alloc, &net.inputs)?;
    let outputs = named_outputs(alloc, &net.outputs, outputs)?;
    let name = Text::from_bytes(alloc, net.name.bytes())?;
    Ok(Named {
        name,
        inputs,
        outputs,
    })
}

fn named_outputs(alloc: Global, old: &[NetOut], nets: &[NetId]) -> Result<Vec<NetOut>, NoMemory>
    requires { length nets.now ≡ length old.now }
    ensures { IfOk result (λ v. v.items ≡ named_outputs old.now nets.now) }
{
    let mut outputs = Vec::new(alloc);
    for (k, output) in old.iter().enumerate() {
        let name = Text::from_bytes(alloc, output.name.bytes())?;
        outputs.push(NetOut { name, net: nets[k] })?;
    }
    Ok(outputs)
}

/// The netlist of names and parts.
pub(crate) fn joined_net(net: &Net, named: Named, parts: Parts) -> Net
    requires names { Matching (netlist_of net.now) parts.outputs.items named }
    requires parts { HasParts (netlist_of net.now) parts }
    ensures { netlist_of result ≡ net_with (netlist_of net.now) parts }
{
    let Named {
        name,
        inputs,
        outputs,
    } = named;
    let Parts {
        gates,
        latches,
        outputs: _,
        paused,
    } = parts;
    Net {
        name,
        inputs,
        outputs,
        paused,
        latches,
        gates,
    }
}
