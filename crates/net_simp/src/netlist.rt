// The netlist around the new gates.

ghost use Rattle.std.specs.Prelude.{◌≡◌, ℕ, ◌<◌, length, map, IfOk, All};
ghost use Rattle.net_ir.specs.Netlists.{IsNet, net_count};
ghost use Rattle.net_ir.specs.Runs.{netlist_of};
ghost use Rattle.net_simp.specs.Renaming.{stand_in, through, renamed_out, renamed_latch, renamed_net};
ghost use Rattle.net_simp.specs.SameRuns.{SameParts, SameInstants, SameRuns};
ghost use Rattle.net_simp.specs.Simplified.{Simplified};
ghost use Rattle.net_simp.specs.SimpleNets.{IsSimple};

use crate::folding::{Renumbered, folded_gates};
use crate::gates::stand_in;
use crate::needs::{first_marks, mark_needed};
use crate::packing::packed_gates;
use base_types::{NetId, NoMemory, Text};
use net_ir::{Gate, Latch, Net, NetOut};
use std::alloc::Global;

/// A netlist of the same runs, with no more gates. It keeps the name, the inputs, the names of the outputs, the
/// number and the initial values of the latches, and the carried wires, whose gates are in the same order.
/// Constants are folded, double negations and absorbed operands go, gates that compute the same are merged, and
/// gates that nothing needs are left out. Of the gates that carry no wire no two have the same operator over the
/// same operands, in either order. The rules simplify none of them further. None is a copy, and none reads a copy,
/// a constant, or the same net twice. Each is read. The time is linear in the gates, except for hashing. The only
/// error is out of memory.
///
/// Example: where one gate negates another that negates `a`, both go, and their readers read `a`.
pub fn simplify(alloc: Global, net: Net) -> Result<Net, NoMemory>
    ensures parts { IfOk result (λ new. SameParts (netlist_of net) (netlist_of new)) }
    ensures instants { IfOk result (λ new. SameInstants (netlist_of net) (netlist_of new)) }
    ensures runs { IfOk result (λ new. SameRuns (netlist_of net) (netlist_of new)) }
    ensures simple { IfOk result (λ new. IsSimple (netlist_of new)) }
{
    Ok(simplified_net(alloc, net)?)
}

// The passes, one after another.
fn simplified_net(alloc: Global, net: Net) -> Result<Net, NoMemory>
    ensures { IfOk result (λ new. Simplified (netlist_of net) (netlist_of new)) }
{
    let first = net.inputs.len() + net.latches.len();
    let draft = folded_gates(alloc, first, &net.gates)?;
    let mut marks = first_marks(alloc, first, &draft.gates)?;
    mark_needed(&net, first, &draft, &mut marks);
    let kept = packed_gates(alloc, first, &marks, &draft.gates)?;
    let Renumbered { names, gates } = kept;
    let made = renamed_net(alloc, net, &draft.names, &names, gates)?;
    Ok(made)
}

// The netlist of these gates, where `draft` and then `kept` tell what stands for a net.
fn renamed_net(
    alloc: Global,
    net: Net,
    draft: &[NetId],
    kept: &[NetId],
    gates: Vec<Gate>,
) -> Result<Net, NoMemory>
    requires old_in_range { (n : ℕ) → n < net_count (netlist_of net) → n < length draft.now }
    requires draft_in_range { (n : ℕ) → n < length draft.now → stand_in draft.now n < length kept.now }
    requires is_net { IsNet (renamed_net (netlist_of net) (through draft.now kept.now) gates.items) }
    ensures { IfOk result (λ new. netlist_of new
        ≡ renamed_net (netlist_of net) (through draft.now kept.now) gates.items) }
{
    let outputs = renamed_outputs(alloc, draft, kept, &net.outputs)?;
    let paused = stand_in(kept, stand_in(draft, net.paused));
    let latches = renamed_latches(alloc, draft, kept, &net.latches)?;
    Ok(Net {
        name: net.name,
        inputs: net.inputs,
        outputs,
        paused,
        latches,
        gates,
    })
}

/// Names once more.
pub fn copied_names(alloc: Global, names: &[Text]) -> Result<Vec<Text>, NoMemory>
    ensures { IfOk result (λ v. v.items ≡ names.now) }
{
    let mut copies = Vec::new(alloc);
    for name in names {
        copies.push(Text::from_bytes(alloc, name.bytes())?)?;
    }
    Ok(copies)
}

fn renamed_outputs(
    alloc: Global,
    draft: &[NetId],
    kept: &[NetId],
    outputs: &[NetOut],
) -> Result<Vec<NetOut>, NoMemory>
    requires outputs_in_range { All (λ o. o.net.0 < length draft.now) outputs.now }
    requires draft_in_range { (n : ℕ) → n < length draft.now → stand_in draft.now n < length kept.now }
    ensures { IfOk result (λ v. v.items ≡ map (renamed_out (through draft.now kept.now)) outputs.now) }
{
    let mut renamed = Vec::new(alloc);
    for output in outputs {
        let name = Text::from_bytes(alloc, output.name.bytes())?;
        let net = stand_in(kept, stand_in(draft, output.net));
        renamed.push(NetOut { name, net })?;
    }
    Ok(renamed)
}

fn renamed_latches(
    alloc: Global,
    draft: &[NetId],
    kept: &[NetId],
    latches: &[Latch],
) -> Result<Vec<Latch>, NoMemory>
    requires latches_in_range { All (λ l. l.from.0 < length draft.now) latches.now }
    requires draft_in_range { (n : ℕ) → n < length draft.now → stand_in draft.now n < length kept.now }
    ensures { IfOk result (λ v. v.items ≡ map (renamed_latch (through draft.now kept.now)) latches.now) }
{
    let mut renamed = Vec::new(alloc);
    for latch in latches {
        let from = stand_in(kept, stand_in(draft, latch.from));
        renamed.push(Latch {
            init: latch.init,
            from,
        })?;
    }
    Ok(renamed)
}
