// The BLIF text of a net, whole and piece by piece.

ghost use Rattle.std.specs.Prelude.{◌≡◌, ℕ, List, IfOk};
ghost use Rattle.std.specs.HashSet.{contains_by};
ghost use Rattle.base_types.specs.Names.{is_same_name};
ghost use Rattle.net_ir.specs.Runs.{netlist_of};
ghost use Rattle.net_ir.specs.NameLists.{is_among};
ghost use Rattle.blif_text.specs.Written.{given_outputs, written, Means};

use base_types::{NoMemory, Text};
use net_ir::Net;
use net_writer::write_net;
use std::alloc::Global;
use std::collections::HashSet;

/// What writes the BLIF text of a net, for `net_writer::net_pieces` piece by piece.
#[derive(Drop)]
pub struct BlifWriter {
    // For each output, whether its name is also that of an input.
    pub(crate) given: Vec<bool>,
}

/// The BLIF text of a net: one line feed after each line, and one space between words.
///
/// The net's inputs have their own names, and so do its outputs, but an output whose name is an input's
/// too is written `NAME.out`; the last output is `_paused`. Input J is also `_iJ`, latch J is `_sJ`, and
/// gate K is `_wN` where it carries wire N, else `_gK`. The lines are those of Berkeley's BLIF: the model,
/// the inputs, the outputs, the latches, and then a table for each input, each gate, each output and
/// `_paused`. The time and the memory that it takes are linear in the length of the text; out of memory
/// is its only error.
pub fn write_blif(alloc: Global, net: &Net) -> Result<Vec<u8>, NoMemory>
    ensures text { IfOk result (λ t. t.items ≡ written (netlist_of net.now)) }
    ensures means { IfOk result (λ t. Means t.items (netlist_of net.now)) }
{
    write_net::<BlifWriter>(alloc, net)
}

// For each output, whether its name is also that of an input.
pub(crate) fn given_outputs(alloc: Global, net: &Net) -> Result<Vec<bool>, NoMemory>
    ensures { IfOk result (λ given. given.items ≡ given_outputs (netlist_of net.now)) }
{
    let inputs = name_set(alloc, &net.inputs)?;
    let mut given = Vec::new(alloc);
    for output in &net.outputs {
        given.push(inputs.contains(output.name.bytes()))?;
    }
    Ok(given)
}

// The set of some names.
fn name_set<'a>(alloc: Global, names: &'a [Text]) -> Result<HashSet<&'a [u8]>, NoMemory>
    ensures { IfOk result
        (λ set. (name : List ℕ) → contains_by (λ k. is_same_name name k.now) set ≡ is_among name names.now) }
{
    let mut set = HashSet::new(alloc);
    for name in names {
        set.insert(name.bytes())?;
    }
    Ok(set)
}
