// The netlist of a circuit, from the nets of its names.

ghost use Rattle.std.specs.Prelude.{◌≡◌, ◌+◌, ◌<◌, map, length, All, IsTrue, IfOk};
ghost use Rattle.base_types.specs.Names.{is_name};
ghost use Rattle.net_ir.specs.Runs.{netlist_of};
ghost use Rattle.blif_text.specs.OutputNames.{output_word};
ghost use Rattle.blif_text.specs.Plain.{plain_circuit, plain_latch};
ghost use Rattle.blif_text.specs.Runs.{driven_names};
ghost use Rattle.blif_run.specs.Loops.{IsDescribed};
ghost use Rattle.blif_run.specs.Plans.{given_names};
ghost use Rattle.run_steps.specs.Slots.{slot_in};
ghost use Rattle.blif_net.specs.Drawings.{IsDrawing};
ghost use Rattle.blif_net.specs.Interfaces.{HasName, IsFit};
ghost use Rattle.blif_net.specs.Tables.{IsAssembled, IsNamed, net_with, net_named, latch_named};

use crate::drawing::Drawing;
use crate::interface::output_name;
use base_types::{NetId, NoMemory, Text};
use blif_run::listed_count;
use blif_text::{Blif, BlifLatch};
use indexmap::IndexSet;
use net_ir::{Latch, Net, NetOut};
use net_simp::copied_names;
use run_steps::slot_of;
use std::alloc::Global;

/// The netlist of a circuit whose names have these nets.
pub(crate) fn assembled_net(
    alloc: Global,
    blif: &Blif,
    slots: &IndexSet<&[u8]>,
    drawing: Drawing,
) -> Result<Net, NoMemory>
    requires described { IsDescribed (plain_circuit blif.now) }
    requires fits { IsFit (plain_circuit blif.now) }
    requires slots { map (λ k. k.now) slots.now.keys ≡ driven_names (plain_circuit blif.now) }
    requires drawing { IsDrawing (length (given_names (plain_circuit blif.now))) drawing.gates.items }
    requires each_slot { length drawing.nets.items ≡ length (driven_names (plain_circuit blif.now)) }
    requires low { All (λ n. n.0 < length (given_names (plain_circuit blif.now)) + length drawing.gates.items)
        drawing.nets.items }
    ensures { IfOk result (λ net. IsAssembled (plain_circuit blif.now) drawing.gates.items drawing.nets.items
        (netlist_of net)) }
{
    let named = named_parts(alloc, blif, slots, &drawing.nets)?;
    Ok(joined_net(blif, named, drawing))
}

/// The names of a circuit and of its inputs.
#[derive(Drop)]
pub(crate) struct Names {
    pub name: Text,
    pub inputs: Vec<Text>,
}

/// The names of a circuit as those of a netlist, with the nets that they have.
#[derive(Drop)]
pub(crate) struct Named {
    pub names: Names,
    pub outputs: Vec<NetOut>,
    pub paused: NetId,
    pub latches: Vec<Latch>,
}

fn joined_net(blif: &Blif, named: Named, drawing: Drawing) -> Net
    requires described { IsDescribed (plain_circuit blif.now) }
    requires fits { IsFit (plain_circuit blif.now) }
    requires named { IsNamed (plain_circuit blif.now) drawing.nets.items named }
    requires drawing { IsDrawing (length (given_names (plain_circuit blif.now))) drawing.gates.items }
    requires each_slot { length drawing.nets.items ≡ length (driven_names (plain_circuit blif.now)) }
    requires low { All (λ n. n.0 < length (given_names (plain_circuit blif.now)) + length drawing.gates.items)
        drawing.nets.items }
    ensures { netlist_of result ≡ net_with named drawing.gates.items }
{
    let Drawing { gates, nets: _ } = drawing;
    let Named {
        names,
        outputs,
        paused,
        latches,
    } = named;
    let Names { name, inputs } = names;
    Net {
        name,
        inputs,
        outputs,
        paused,
        latches,
        gates,
    }
}

fn named_parts(
    alloc: Global,
    blif: &Blif,
    slots: &IndexSet<&[u8]>,
    nets: &[NetId],
) -> Result<Named, NoMemory>
    requires described { IsDescribed (plain_circuit blif.now) }
    requires fits { IsFit (plain_circuit blif.now) }
    requires slots { map (λ k. k.now) slots.now.keys ≡ driven_names (plain_circuit blif.now) }
    requires each_slot { length nets.now ≡ length (driven_names (plain_circuit blif.now)) }
    ensures { IfOk result (IsNamed (plain_circuit blif.now) nets.now) }
{
    let count = listed_count(&blif.outputs);
    let paused = nets[slot_of(slots, blif.outputs[count].bytes())];
    let names = copied_front(alloc, blif)?;
    let outputs = named_outputs(alloc, &blif.inputs, slots, nets, &blif.outputs[..count])?;
    let latches = named_latches(alloc, slots, nets, &blif.latches)?;
    Ok(Named {
        names,
        outputs,
        paused,
        latches,
    })
}

fn copied_front(alloc: Global, blif: &Blif) -> Result<Names, NoMemory>
    ensures name { IfOk result (λ n. n.name ≡ blif.now.name) }
    ensures inputs { IfOk result (λ n. n.inputs.items ≡ blif.now.inputs.items) }
{
    let name = Text::from_bytes(alloc, blif.name.bytes())?;
    let inputs = copied_names(alloc, &blif.inputs)?;
    Ok(Names { name, inputs })
}

// The outputs of these words, with their nets.
fn named_outputs(
    alloc: Global,
    inputs: &[Text],
    slots: &IndexSet<&[u8]>,
    nets: &[NetId],
    words: &[Text],
) -> Result<Vec<NetOut>, NoMemory>
    requires named { All (HasName inputs.now) words.now }
    requires low { All (λ word. slot_in (map (λ k. k.now) slots.now.keys) word < length nets.now) words.now }
    ensures fit { IfOk result (λ v. All (λ o. IsTrue (is_name o.name)) v.items) }
    ensures words { IfOk result (λ v. map (λ o. output_word inputs.now o.name) v.items ≡ words.now) }
    ensures nets { IfOk result (λ v. map (λ o. o.net) v.items
        ≡ map (net_named (map (λ k. k.now) slots.now.keys) nets.now) words.now) }
{
    let mut outputs = Vec::new(alloc);
    for word in words {
        let name = Text::from_bytes(alloc, output_name(inputs, word.bytes()))?;
        let net = nets[slot_of(slots, word.bytes())];
        outputs.push(NetOut { name, net })?;
    }
    Ok(outputs)
}

// The latches, with the nets of their sources.
fn named_latches(
    alloc: Global,
    slots: &IndexSet<&[u8]>,
    nets: &[NetId],
    latches: &[BlifLatch],
) -> Result<Vec<Latch>, NoMemory>
    requires { All (λ l. slot_in (map (λ k. k.now) slots.now.keys) l.source < length nets.now)
        (map plain_latch latches.now) }
    ensures { IfOk result (λ v. v.items
        ≡ map (latch_named (map (λ k. k.now) slots.now.keys) nets.now) (map plain_latch latches.now)) }
{
    let mut named = Vec::new(alloc);
    for latch in latches {
        named.push(Latch {
            init: latch.init,
            from: nets[slot_of(slots, latch.from.bytes())],
        })?;
    }
    Ok(named)
}
