// The edges at statements that test signals.

ghost use Rattle.std.specs.Prelude.{◌≡◌, ◌+◌, ◌++◌, length, map, OnOk};
ghost use Rattle.est_kernel.specs.Plain.{expression_of, term_of};
ghost use Rattle.est_kernel.specs.Preorder.{statement_count};
ghost use Rattle.est_kernel.specs.Terms.{Expression, Present, Suspend};
ghost use Rattle.grc_graph.specs.Layers.{Resumed, Started};
ghost use Rattle.grc_graph.specs.PlainInstances.{layer_of};
ghost use Rattle.grc_graph.specs.Scopes.{Scope};
ghost use Rattle.grc_graph.specs.Statements.{signals_in};
ghost use Rattle.grc_graph.specs.StatementViews.{binding_of};
ghost use Rattle.grc_graph.specs.Edges.{edges_at};
ghost use Rattle.grc_dep.specs.Found.{found_by};

use crate::linking::push_edge_if;
use crate::lookups::Lookups;
use crate::names::NamedWire;
use crate::part_edges::{push_ends_if, push_go_to_part};
use crate::parts::Part;
use crate::statuses::{BoundTest, push_test_if};
use base_types::{NoMemory, PathId, WireId};
use grc_graph::{Instance, Layer};
use std::alloc::Global;

// The branches of a test of signals.
#[derive(Clone, Copy)]
pub struct Branches<'a> {
    pub yes: Part<'a>,
    pub no: Part<'a>,
}

// The edges at a test of signals.
pub fn push_present(
    alloc: Global,
    lookups: &Lookups,
    whole: &Part,
    test: &BoundTest,
    branches: &Branches,
    layer: Layer,
    pairs: &mut Vec<(WireId, WireId)>,
) -> Result<(), NoMemory>
    requires bindings { length test.now.bindings.now ≡ length (signals_in (expression_of test.now.test.now)) }
    requires first { branches.now.yes.path.0 ≡ whole.now.path.0 + 1 }
    requires second { branches.now.no.path.0
        ≡ whole.now.path.0 + 1 + statement_count (term_of branches.now.yes.body.now) }
    ensures { OnOk result ((B : Scope)
        → map binding_of test.now.bindings.now ≡ map B (signals_in (expression_of test.now.test.now))
        → pairs.new.items ≡ pairs.old.items ++ found_by lookups.now
        (edges_at B (Present (expression_of test.now.test.now) (term_of branches.now.yes.body.now)
        (term_of branches.now.no.body.now)) whole.now.path.0 (layer_of layer))) }
{
    match layer {
        Layer::Resumed => push_resumed_present(lookups, whole, &branches.yes, &branches.no, pairs),
        Layer::Started(root) => {
            push_started_present(alloc, lookups, whole, test, branches, root, pairs)
        }
    }
}

// The edges at a resumed test, whose branches do not depend on the signals any more.
fn push_resumed_present(
    lookups: &Lookups,
    whole: &Part,
    yes: &Part,
    no: &Part,
    pairs: &mut Vec<(WireId, WireId)>,
) -> Result<(), NoMemory>
    requires first { yes.now.path.0 ≡ whole.now.path.0 + 1 }
    requires second { no.now.path.0 ≡ whole.now.path.0 + 1 + statement_count (term_of yes.now.body.now) }
    ensures { OnOk result ((B : Scope) (e : Expression) → pairs.new.items ≡ pairs.old.items ++ found_by lookups.now
        (edges_at B (Present e (term_of yes.now.body.now) (term_of no.now.body.now)) whole.now.path.0 Resumed)) }
{
    let layer = Layer::Resumed;
    push_go_to_part(lookups, whole, yes, layer, pairs)?;
    push_go_to_part(lookups, whole, no, layer, pairs)?;
    push_ends_if(lookups, true, yes, layer, whole, layer, pairs)?;
    push_ends_if(lookups, true, no, layer, whole, layer, pairs)
}

// The edges at a started test.
fn push_started_present(
    alloc: Global,
    lookups: &Lookups,
    whole: &Part,
    test: &BoundTest,
    branches: &Branches,
    root: PathId,
    pairs: &mut Vec<(WireId, WireId)>,
) -> Result<(), NoMemory>
    requires bindings { length test.now.bindings.now ≡ length (signals_in (expression_of test.now.test.now)) }
    requires first { branches.now.yes.path.0 ≡ whole.now.path.0 + 1 }
    requires second { branches.now.no.path.0
        ≡ whole.now.path.0 + 1 + statement_count (term_of branches.now.yes.body.now) }
    ensures { OnOk result ((B : Scope)
        → map binding_of test.now.bindings.now ≡ map B (signals_in (expression_of test.now.test.now))
        → pairs.new.items ≡ pairs.old.items ++ found_by lookups.now
        (edges_at B (Present (expression_of test.now.test.now) (term_of branches.now.yes.body.now)
        (term_of branches.now.no.body.now)) whole.now.path.0 (Started root.0))) }
{
    let layer = Layer::Started(root);
    let yes = &branches.yes;
    let no = &branches.no;
    let to_yes = NamedWire::Go(Instance {
        path: yes.path,
        layer,
    });
    let to_no = NamedWire::Go(Instance {
        path: no.path,
        layer,
    });
    push_go_to_part(lookups, whole, yes, layer, pairs)?;
    push_go_to_part(lookups, whole, no, layer, pairs)?;
    push_test_if(alloc, lookups, true, test, layer, to_yes, pairs)?;
    push_test_if(alloc, lookups, true, test, layer, to_no, pairs)?;
    push_ends_if(lookups, true, yes, layer, whole, layer, pairs)?;
    push_ends_if(lookups, true, no, layer, whole, layer, pairs)
}

// The edges at a suspension.
pub fn push_suspend(
    alloc: Global,
    lookups: &Lookups,
    whole: &Part,
    test: &BoundTest,
    part: &Part,
    layer: Layer,
    pairs: &mut Vec<(WireId, WireId)>,
) -> Result<(), NoMemory>
    requires whole { term_of whole.now.body.now
        ≡ Suspend (expression_of test.now.test.now) (term_of part.now.body.now) }
    requires bindings { length test.now.bindings.now ≡ length (signals_in (expression_of test.now.test.now)) }
    requires first { part.now.path.0 ≡ whole.now.path.0 + 1 }
    ensures { OnOk result ((B : Scope)
        → map binding_of test.now.bindings.now ≡ map B (signals_in (expression_of test.now.test.now))
        → pairs.new.items ≡ pairs.old.items ++ found_by lookups.now
        (edges_at B (Suspend (expression_of test.now.test.now) (term_of part.now.body.now)) whole.now.path.0
        (layer_of layer))) }
{
    match layer {
        Layer::Resumed => push_resumed_suspend(alloc, lookups, whole, test, part, pairs),
        Layer::Started(root) => push_started_suspend(lookups, whole, part, root, pairs),
    }
}

// The edges at a resumed suspension, whose test keeps its body from running.
fn push_resumed_suspend(
    alloc: Global,
    lookups: &Lookups,
    whole: &Part,
    test: &BoundTest,
    part: &Part,
    pairs: &mut Vec<(WireId, WireId)>,
) -> Result<(), NoMemory>
    requires whole { term_of whole.now.body.now
        ≡ Suspend (expression_of test.now.test.now) (term_of part.now.body.now) }
    requires bindings { length test.now.bindings.now ≡ length (signals_in (expression_of test.now.test.now)) }
    requires first { part.now.path.0 ≡ whole.now.path.0 + 1 }
    ensures { OnOk result ((B : Scope)
        → map binding_of test.now.bindings.now ≡ map B (signals_in (expression_of test.now.test.now))
        → pairs.new.items ≡ pairs.old.items ++ found_by lookups.now
        (edges_at B (Suspend (expression_of test.now.test.now) (term_of part.now.body.now)) whole.now.path.0 Resumed)) }
{
    let layer = Layer::Resumed;
    let at = Instance {
        path: whole.path,
        layer,
    };
    let end = NamedWire::End(at, 1);
    let go = NamedWire::Go(Instance {
        path: part.path,
        layer,
    });
    let pauses = whole.pauses_in(layer);
    let runs = part.runs_in(layer);
    push_go_to_part(lookups, whole, part, layer, pairs)?;
    push_edge_if(lookups, pauses, NamedWire::Go(at), end, pairs)?;
    push_test_if(alloc, lookups, runs, test, layer, go, pairs)?;
    push_test_if(alloc, lookups, pauses, test, layer, end, pairs)?;
    push_ends_if(lookups, true, part, layer, whole, layer, pairs)
}

// The edges at a started suspension, whose test does not count.
fn push_started_suspend(
    lookups: &Lookups,
    whole: &Part,
    part: &Part,
    root: PathId,
    pairs: &mut Vec<(WireId, WireId)>,
) -> Result<(), NoMemory>
    requires { part.now.path.0 ≡ whole.now.path.0 + 1 }
    ensures { OnOk result ((B : Scope) (e : Expression) → pairs.new.items ≡ pairs.old.items ++ found_by lookups.now
        (edges_at B (Suspend e (term_of part.now.body.now)) whole.now.path.0 (Started root.0))) }
{
    let layer = Layer::Started(root);
    push_go_to_part(lookups, whole, part, layer, pairs)?;
    push_ends_if(lookups, true, part, layer, whole, layer, pairs)
}
