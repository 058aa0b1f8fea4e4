// The edges at an instance.

ghost use Rattle.std.specs.Prelude.{◌≡◌, ◌++◌, map, OnOk};
ghost use Rattle.est_kernel.specs.Plain.{term_of};
ghost use Rattle.est_kernel.specs.Terms.{Emit};
ghost use Rattle.grc_graph.specs.PlainInstances.{layer_of};
ghost use Rattle.grc_graph.specs.Scopes.{Scope};
ghost use Rattle.grc_graph.specs.Statements.{signals_of};
ghost use Rattle.grc_graph.specs.StatementViews.{binding_of};
ghost use Rattle.grc_graph.specs.Edges.{edges_at};
ghost use Rattle.grc_dep.specs.PartCodes.{PartsHaveCodes, IsListed};
ghost use Rattle.grc_dep.specs.Found.{found_by};

use crate::forms::{push_local, push_loop, push_par, push_seq, push_trap};
use crate::lookups::Lookups;
use crate::names::NamedWire;
use crate::part_edges::push_own_ends;
use crate::parts::{Part, part_at};
use crate::statuses::{BoundTest, push_emission, status_name};
use crate::tested::{Branches, push_present, push_suspend};
use base_types::{NoMemory, SigId, WireId};
use est_kernel::{Codes, Kernel};
use grc_graph::{Binding, Instance, Layer, Statement};
use std::alloc::Global;

// The edges to the `go` of the parts of an instance and to its own ends; of an Emit, to the status wire.
pub fn push_edges_at(
    alloc: Global,
    lookups: &Lookups,
    codes: &Codes,
    statement: &Statement,
    at: Instance,
    pairs: &mut Vec<(WireId, WireId)>,
) -> Result<(), NoMemory>
    requires codes { PartsHaveCodes codes.now (term_of statement.now.body.now) at.path.0 }
    requires listed { IsListed statement.now at.path.0 }
    ensures { OnOk result ((B : Scope)
        → map binding_of statement.now.signals.items ≡ map B (signals_of (term_of statement.now.body.now))
        → pairs.new.items ≡ pairs.old.items
        ++ found_by lookups.now (edges_at B (term_of statement.now.body.now) at.path.0 (layer_of at.layer))) }
{
    let layer = at.layer;
    let bindings = statement.signals.as_slice();
    let whole = part_at(codes, statement.body, at.path.0);
    let next = at.path.0 + 1;
    let second = statement.second;
    match statement.body {
        Kernel::Nothing | Kernel::Pause | Kernel::Exit(_) => {
            push_own_ends(lookups, &whole, layer, pairs)
        }
        Kernel::Emit(signal) => push_emit(lookups, &whole, bindings[0], *signal, layer, pairs),
        Kernel::Present(test, yes, no) => {
            let yes = part_at(codes, yes, next);
            let no = part_at(codes, no, second);
            let test = BoundTest { test, bindings };
            let branches = Branches { yes, no };
            push_present(alloc, lookups, &whole, &test, &branches, layer, pairs)
        }
        Kernel::Suspend(test, part) => {
            let part = part_at(codes, part, next);
            let test = BoundTest { test, bindings };
            push_suspend(alloc, lookups, &whole, &test, &part, layer, pairs)
        }
        Kernel::Seq(left, right) => {
            let left = part_at(codes, left, next);
            let right = part_at(codes, right, second);
            push_seq(lookups, &whole, &left, &right, layer, pairs)
        }
        Kernel::Loop(_, part) => {
            let part = part_at(codes, part, next);
            push_loop(lookups, &whole, &part, layer, pairs)
        }
        Kernel::Par(left, right) => {
            let left = part_at(codes, left, next);
            let right = part_at(codes, right, second);
            push_par(lookups, &whole, &left, &right, layer, pairs)
        }
        Kernel::Trap(part) => {
            let part = part_at(codes, part, next);
            push_trap(lookups, &whole, &part, layer, pairs)
        }
        Kernel::Local(_, part) => {
            let part = part_at(codes, part, next);
            push_local(lookups, &whole, &part, layer, pairs)
        }
    }
}

// The edges at an Emit.
fn push_emit(
    lookups: &Lookups,
    whole: &Part,
    binding: Binding,
    signal: SigId,
    layer: Layer,
    pairs: &mut Vec<(WireId, WireId)>,
) -> Result<(), NoMemory>
    requires { term_of whole.now.body.now ≡ Emit signal.0 }
    ensures { OnOk result ((B : Scope) → binding_of binding ≡ B signal.0 → pairs.new.items ≡ pairs.old.items
        ++ found_by lookups.now (edges_at B (Emit signal.0) whole.now.path.0 (layer_of layer))) }
{
    let path = whole.path;
    push_own_ends(lookups, whole, layer, pairs)?;
    let status = status_name(binding, signal, layer);
    push_emission(
        lookups,
        NamedWire::Go(Instance { path, layer }),
        status,
        pairs,
    )
}
