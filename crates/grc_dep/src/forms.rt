// The edges at statements with parts, except for those that test signals.

ghost use Rattle.std.specs.Prelude.{◌≡◌, ℕ, ◌+◌, ◌++◌, OnOk};
ghost use Rattle.base_types.specs.declared.place.Span.{Span};
ghost use Rattle.est_kernel.specs.Plain.{term_of};
ghost use Rattle.est_kernel.specs.Preorder.{statement_count};
ghost use Rattle.est_kernel.specs.Terms.{Seq, Loop, Par, Trap, Local};
ghost use Rattle.grc_graph.specs.Layers.{Resumed, Started};
ghost use Rattle.grc_graph.specs.PlainInstances.{layer_of};
ghost use Rattle.grc_graph.specs.Scopes.{Scope};
ghost use Rattle.grc_graph.specs.Edges.{edges_at};
ghost use Rattle.grc_dep.specs.Found.{found_by};

use crate::linking::push_edge_if;
use crate::lookups::Lookups;
use crate::names::NamedWire;
use crate::part_edges::{
    push_branch_ends, push_ends_if, push_go_to_part, push_later_ends_if, push_own_ends,
    push_trapped_ends,
};
use crate::parts::Part;
use base_types::{NoMemory, PathId, WireId};
use grc_graph::{Instance, Layer};

// The edges at a trap.
pub fn push_trap(
    lookups: &Lookups,
    whole: &Part,
    part: &Part,
    layer: Layer,
    pairs: &mut Vec<(WireId, WireId)>,
) -> Result<(), NoMemory>
    requires { part.now.path.0 ≡ whole.now.path.0 + 1 }
    ensures { OnOk result ((B : Scope) → pairs.new.items ≡ pairs.old.items
        ++ found_by lookups.now (edges_at B (Trap (term_of part.now.body.now)) whole.now.path.0 (layer_of layer))) }
{
    push_go_to_part(lookups, whole, part, layer, pairs)?;
    push_trapped_ends(lookups, whole, part, layer, pairs)
}

// The edges at a Local.
pub fn push_local(
    lookups: &Lookups,
    whole: &Part,
    part: &Part,
    layer: Layer,
    pairs: &mut Vec<(WireId, WireId)>,
) -> Result<(), NoMemory>
    requires { part.now.path.0 ≡ whole.now.path.0 + 1 }
    ensures { OnOk result ((B : Scope) (s : ℕ) → pairs.new.items ≡ pairs.old.items
        ++ found_by lookups.now (edges_at B (Local s (term_of part.now.body.now)) whole.now.path.0 (layer_of layer))) }
{
    push_go_to_part(lookups, whole, part, layer, pairs)?;
    push_ends_if(lookups, true, part, layer, whole, layer, pairs)
}

// The edges at a loop.
pub fn push_loop(
    lookups: &Lookups,
    whole: &Part,
    part: &Part,
    layer: Layer,
    pairs: &mut Vec<(WireId, WireId)>,
) -> Result<(), NoMemory>
    requires { part.now.path.0 ≡ whole.now.path.0 + 1 }
    ensures { OnOk result ((B : Scope) (at : Span) → pairs.new.items ≡ pairs.old.items
        ++ found_by lookups.now (edges_at B (Loop at (term_of part.now.body.now)) whole.now.path.0 (layer_of layer))) }
{
    match layer {
        Layer::Resumed => push_resumed_loop(lookups, whole, part, pairs),
        Layer::Started(root) => push_started_loop(lookups, whole, part, root, pairs),
    }
}

// The edges at a resumed loop, whose body may be restarted at its own root.
fn push_resumed_loop(
    lookups: &Lookups,
    whole: &Part,
    part: &Part,
    pairs: &mut Vec<(WireId, WireId)>,
) -> Result<(), NoMemory>
    requires { part.now.path.0 ≡ whole.now.path.0 + 1 }
    ensures { OnOk result ((B : Scope) (at : Span) → pairs.new.items ≡ pairs.old.items
        ++ found_by lookups.now (edges_at B (Loop at (term_of part.now.body.now)) whole.now.path.0 Resumed)) }
{
    let layer = Layer::Resumed;
    let anew = Layer::Started(part.path);
    let again = part.passes_in(layer);
    let path = part.path;
    let end = NamedWire::End(Instance { path, layer }, 0);
    let entered = NamedWire::Go(Instance { path, layer: anew });
    push_go_to_part(lookups, whole, part, layer, pairs)?;
    push_edge_if(lookups, again, end, entered, pairs)?;
    push_later_ends_if(lookups, true, part, layer, whole, layer, pairs)?;
    push_later_ends_if(lookups, again, part, anew, whole, layer, pairs)
}

// The edges at a started loop.
fn push_started_loop(
    lookups: &Lookups,
    whole: &Part,
    part: &Part,
    root: PathId,
    pairs: &mut Vec<(WireId, WireId)>,
) -> Result<(), NoMemory>
    requires { part.now.path.0 ≡ whole.now.path.0 + 1 }
    ensures { OnOk result ((B : Scope) (at : Span) → pairs.new.items ≡ pairs.old.items
        ++ found_by lookups.now (edges_at B (Loop at (term_of part.now.body.now)) whole.now.path.0 (Started root.0))) }
{
    let layer = Layer::Started(root);
    push_go_to_part(lookups, whole, part, layer, pairs)?;
    push_later_ends_if(lookups, true, part, layer, whole, layer, pairs)
}

// The edges at a sequence.
pub fn push_seq(
    lookups: &Lookups,
    whole: &Part,
    first: &Part,
    second: &Part,
    layer: Layer,
    pairs: &mut Vec<(WireId, WireId)>,
) -> Result<(), NoMemory>
    requires first { first.now.path.0 ≡ whole.now.path.0 + 1 }
    requires second { second.now.path.0 ≡ whole.now.path.0 + 1 + statement_count (term_of first.now.body.now) }
    ensures { OnOk result ((B : Scope) → pairs.new.items ≡ pairs.old.items
        ++ found_by lookups.now (edges_at B (Seq (term_of first.now.body.now) (term_of second.now.body.now))
        whole.now.path.0 (layer_of layer))) }
{
    match layer {
        Layer::Resumed => push_resumed_seq(lookups, whole, first, second, pairs),
        Layer::Started(root) => push_started_seq(lookups, whole, first, second, root, pairs),
    }
}

// The edges at a resumed sequence, whose second part may be started at its own root.
fn push_resumed_seq(
    lookups: &Lookups,
    whole: &Part,
    first: &Part,
    second: &Part,
    pairs: &mut Vec<(WireId, WireId)>,
) -> Result<(), NoMemory>
    requires first { first.now.path.0 ≡ whole.now.path.0 + 1 }
    requires second { second.now.path.0 ≡ whole.now.path.0 + 1 + statement_count (term_of first.now.body.now) }
    ensures { OnOk result ((B : Scope) → pairs.new.items ≡ pairs.old.items
        ++ found_by lookups.now (edges_at B (Seq (term_of first.now.body.now) (term_of second.now.body.now))
        whole.now.path.0 Resumed)) }
{
    let layer = Layer::Resumed;
    let anew = Layer::Started(second.path);
    let goes = NamedWire::Go(Instance {
        path: whole.path,
        layer,
    });
    let resumes = NamedWire::Go(Instance {
        path: second.path,
        layer,
    });
    let end = NamedWire::End(
        Instance {
            path: first.path,
            layer,
        },
        0,
    );
    let starts = NamedWire::Go(Instance {
        path: second.path,
        layer: anew,
    });
    let hands_on = first.passes_in(layer);
    push_go_to_part(lookups, whole, first, layer, pairs)?;
    push_edge_if(lookups, second.resumes_after(first), goes, resumes, pairs)?;
    push_edge_if(lookups, hands_on, end, starts, pairs)?;
    push_later_ends_if(lookups, true, first, layer, whole, layer, pairs)?;
    push_ends_if(
        lookups,
        first.can_pass(),
        second,
        layer,
        whole,
        layer,
        pairs,
    )?;
    push_ends_if(lookups, hands_on, second, anew, whole, layer, pairs)
}

// The edges at a started sequence.
fn push_started_seq(
    lookups: &Lookups,
    whole: &Part,
    first: &Part,
    second: &Part,
    root: PathId,
    pairs: &mut Vec<(WireId, WireId)>,
) -> Result<(), NoMemory>
    requires first { first.now.path.0 ≡ whole.now.path.0 + 1 }
    requires second { second.now.path.0 ≡ whole.now.path.0 + 1 + statement_count (term_of first.now.body.now) }
    ensures { OnOk result ((B : Scope) → pairs.new.items ≡ pairs.old.items
        ++ found_by lookups.now (edges_at B (Seq (term_of first.now.body.now) (term_of second.now.body.now))
        whole.now.path.0 (Started root.0))) }
{
    let layer = Layer::Started(root);
    let end = NamedWire::End(
        Instance {
            path: first.path,
            layer,
        },
        0,
    );
    let starts = NamedWire::Go(Instance {
        path: second.path,
        layer,
    });
    let hands_on = first.passes_in(layer);
    push_go_to_part(lookups, whole, first, layer, pairs)?;
    push_edge_if(lookups, hands_on, end, starts, pairs)?;
    push_later_ends_if(lookups, true, first, layer, whole, layer, pairs)?;
    push_ends_if(lookups, hands_on, second, layer, whole, layer, pairs)
}

// The edges at a parallel.
pub fn push_par(
    lookups: &Lookups,
    whole: &Part,
    left: &Part,
    right: &Part,
    layer: Layer,
    pairs: &mut Vec<(WireId, WireId)>,
) -> Result<(), NoMemory>
    requires whole { term_of whole.now.body.now ≡ Par (term_of left.now.body.now) (term_of right.now.body.now) }
    requires first { left.now.path.0 ≡ whole.now.path.0 + 1 }
    requires second { right.now.path.0 ≡ whole.now.path.0 + 1 + statement_count (term_of left.now.body.now) }
    ensures { OnOk result ((B : Scope) → pairs.new.items ≡ pairs.old.items
        ++ found_by lookups.now (edges_at B (Par (term_of left.now.body.now) (term_of right.now.body.now))
        whole.now.path.0 (layer_of layer))) }
{
    match layer {
        Layer::Resumed => push_resumed_par(lookups, whole, left, right, pairs),
        Layer::Started(root) => push_started_par(lookups, whole, left, right, root, pairs),
    }
}

// The edges at a resumed parallel, which may be over in a branch.
fn push_resumed_par(
    lookups: &Lookups,
    whole: &Part,
    left: &Part,
    right: &Part,
    pairs: &mut Vec<(WireId, WireId)>,
) -> Result<(), NoMemory>
    requires whole { term_of whole.now.body.now ≡ Par (term_of left.now.body.now) (term_of right.now.body.now) }
    requires first { left.now.path.0 ≡ whole.now.path.0 + 1 }
    requires second { right.now.path.0 ≡ whole.now.path.0 + 1 + statement_count (term_of left.now.body.now) }
    ensures { OnOk result ((B : Scope) → pairs.new.items ≡ pairs.old.items
        ++ found_by lookups.now (edges_at B (Par (term_of left.now.body.now) (term_of right.now.body.now))
        whole.now.path.0 Resumed)) }
{
    let layer = Layer::Resumed;
    push_go_to_part(lookups, whole, left, layer, pairs)?;
    push_go_to_part(lookups, whole, right, layer, pairs)?;
    push_own_ends(lookups, whole, layer, pairs)?;
    push_branch_ends(lookups, whole, left, layer, pairs)?;
    push_branch_ends(lookups, whole, right, layer, pairs)
}

// The edges at a started parallel.
fn push_started_par(
    lookups: &Lookups,
    whole: &Part,
    left: &Part,
    right: &Part,
    root: PathId,
    pairs: &mut Vec<(WireId, WireId)>,
) -> Result<(), NoMemory>
    requires whole { term_of whole.now.body.now ≡ Par (term_of left.now.body.now) (term_of right.now.body.now) }
    requires first { left.now.path.0 ≡ whole.now.path.0 + 1 }
    requires second { right.now.path.0 ≡ whole.now.path.0 + 1 + statement_count (term_of left.now.body.now) }
    ensures { OnOk result ((B : Scope) → pairs.new.items ≡ pairs.old.items
        ++ found_by lookups.now (edges_at B (Par (term_of left.now.body.now) (term_of right.now.body.now))
        whole.now.path.0 (Started root.0))) }
{
    let layer = Layer::Started(root);
    push_go_to_part(lookups, whole, left, layer, pairs)?;
    push_go_to_part(lookups, whole, right, layer, pairs)?;
    push_branch_ends(lookups, whole, left, layer, pairs)?;
    push_branch_ends(lookups, whole, right, layer, pairs)
}
