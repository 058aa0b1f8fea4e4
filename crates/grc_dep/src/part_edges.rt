// Edges between a statement and a part of it.

ghost use Rattle.std.specs.Prelude.{◌≡◌, ◌++◌, OnOk};
ghost use Rattle.base_types.specs.CodeSet.{members};
ghost use Rattle.base_types.specs.Codes.{except};
ghost use Rattle.est_kernel.specs.Plain.{term_of};
ghost use Rattle.est_kernel.specs.StaticCodes.{codes_if};
ghost use Rattle.grc_graph.specs.PlainInstances.{layer_of};
ghost use Rattle.grc_graph.specs.Wires.{instance_codes};
ghost use Rattle.grc_graph.specs.Edges.{go_to_ends, go_to_part, ends_to_ends, branch_to_ends, trapped_to_ends};
ghost use Rattle.grc_dep.specs.Found.{found_by};

use crate::linking::{
    push_branch_to_ends, push_edge_if, push_ends_to_ends, push_go_to_ends, push_trapped_to_ends,
};
use crate::lookups::Lookups;
use crate::names::NamedWire;
use crate::parts::Part;
use base_types::{CodeSet, NoMemory, WireId};
use grc_graph::Layer;

// From `go` to each end of the same instance.
pub fn push_own_ends(
    lookups: &Lookups,
    whole: &Part,
    layer: Layer,
    pairs: &mut Vec<(WireId, WireId)>,
) -> Result<(), NoMemory>
    ensures { OnOk result (pairs.new.items ≡ pairs.old.items
        ++ found_by lookups.now (go_to_ends (instance_codes (term_of whole.now.body.now) (layer_of layer))
        whole.now.path.0 (layer_of layer))) }
{
    let codes = whole.codes_in(layer);
    push_go_to_ends(lookups, codes, whole.in_layer(layer), pairs)
}

// From `go` to `go` of a part in the same layer.
pub fn push_go_to_part(
    lookups: &Lookups,
    whole: &Part,
    part: &Part,
    layer: Layer,
    pairs: &mut Vec<(WireId, WireId)>,
) -> Result<(), NoMemory>
    ensures { OnOk result (pairs.new.items ≡ pairs.old.items
        ++ found_by lookups.now (go_to_part (term_of part.now.body.now) whole.now.path.0 part.now.path.0
        (layer_of layer))) }
{
    let from = NamedWire::Go(whole.in_layer(layer));
    let to = NamedWire::Go(part.in_layer(layer));
    push_edge_if(lookups, part.runs_in(layer), from, to, pairs)
}

// From each end of a part, in this layer of its own, where a condition holds.
pub fn push_ends_if(
    lookups: &Lookups,
    holds: bool,
    part: &Part,
    own: Layer,
    whole: &Part,
    layer: Layer,
    pairs: &mut Vec<(WireId, WireId)>,
) -> Result<(), NoMemory>
    ensures { OnOk result (pairs.new.items ≡ pairs.old.items
        ++ found_by lookups.now (ends_to_ends
        (codes_if holds (instance_codes (term_of part.now.body.now) (layer_of own))) part.now.path.0 (layer_of own)
        whole.now.path.0 (layer_of layer))) }
{
    let codes = where_given(holds, part.codes_in(own));
    push_ends_to_ends(
        lookups,
        codes,
        part.in_layer(own),
        whole.in_layer(layer),
        pairs,
    )
}

// The same except for code 0.
pub fn push_later_ends_if(
    lookups: &Lookups,
    holds: bool,
    part: &Part,
    own: Layer,
    whole: &Part,
    layer: Layer,
    pairs: &mut Vec<(WireId, WireId)>,
) -> Result<(), NoMemory>
    ensures { OnOk result (pairs.new.items ≡ pairs.old.items
        ++ found_by lookups.now (ends_to_ends
        (codes_if holds (except 0 (instance_codes (term_of part.now.body.now) (layer_of own)))) part.now.path.0
        (layer_of own) whole.now.path.0 (layer_of layer))) }
{
    let codes = where_given(holds, part.codes_in(own).without(0));
    push_ends_to_ends(
        lookups,
        codes,
        part.in_layer(own),
        whole.in_layer(layer),
        pairs,
    )
}

// The set where the condition holds, else the empty set.
fn where_given(holds: bool, set: CodeSet) -> CodeSet
    ensures { members result ≡ codes_if holds (members set) }
{
    if holds { set } else { CodeSet::empty() }
}

// From each end of a trap's body to the trap's end.
pub fn push_trapped_ends(
    lookups: &Lookups,
    whole: &Part,
    part: &Part,
    layer: Layer,
    pairs: &mut Vec<(WireId, WireId)>,
) -> Result<(), NoMemory>
    ensures { OnOk result (pairs.new.items ≡ pairs.old.items
        ++ found_by lookups.now (trapped_to_ends (instance_codes (term_of part.now.body.now) (layer_of layer))
        part.now.path.0 whole.now.path.0 (layer_of layer))) }
{
    let codes = part.codes_in(layer);
    push_trapped_to_ends(
        lookups,
        codes,
        part.in_layer(layer),
        whole.in_layer(layer),
        pairs,
    )
}

// From each end of a branch to each end of its parallel with a code that is no less.
pub fn push_branch_ends(
    lookups: &Lookups,
    whole: &Part,
    part: &Part,
    layer: Layer,
    pairs: &mut Vec<(WireId, WireId)>,
) -> Result<(), NoMemory>
    ensures { OnOk result (pairs.new.items ≡ pairs.old.items
        ++ found_by lookups.now (branch_to_ends (instance_codes (term_of part.now.body.now) (layer_of layer))
        (instance_codes (term_of whole.now.body.now) (layer_of layer)) part.now.path.0 whole.now.path.0
        (layer_of layer))) }
{
    let codes = part.codes_in(layer);
    let whole_codes = whole.codes_in(layer);
    push_branch_to_ends(
        lookups,
        codes,
        whole_codes,
        part.in_layer(layer),
        whole.in_layer(layer),
        pairs,
    )
}
