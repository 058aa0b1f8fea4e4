// What lets an instance run.

ghost use Rattle.std.specs.Prelude.{if◌then◌else◌, IfOk};
ghost use Rattle.est_kernel.specs.Plain.{expression_of};
ghost use Rattle.grc_graph.specs.Formulas.{Negation};
ghost use Rattle.grc_graph.specs.PlainInstances.{layer_of};
ghost use Rattle.grc_graph.specs.Rows.{entry_formula};
ghost use Rattle.grc_graph.specs.Spots.{test_formula, body_entry, branch_entry, second_entry, loop_entry};
ghost use Rattle.grc_graph.specs.Wires.{Go};
ghost use Rattle.grc_build.specs.declared.tables.Tables.{Tables as tables_record};
ghost use Rattle.grc_build.specs.Tabled.{AreTables, IsLive, IsThere, MeansIn, row_in};
ghost use Rattle.grc_build.specs.Entering.{IsTestOf, FirstEnd, LoopStart, suspended_by, tested_by};

use crate::formulas::{both, both_of, negated, wire};
use crate::statuses::test_formula;
use crate::tables::Tables;
use base_types::{NoMemory, PathId};
use est_kernel::Test;
use grc_graph::{Entry, Formula, Layer};
use std::alloc::Global;

/// The formula of what lets an instance run.
pub(crate) fn entry(
    alloc: Global,
    tables: &Tables<'_>,
    path: u32,
    layer: Layer,
) -> Result<Formula, NoMemory>
    requires tables { AreTables tables.now }
    requires live { IsLive tables.now path (layer_of layer) }
    ensures { IfOk result (λ f. MeansIn tables.now f
        (entry_formula (row_in tables.now path).scope (row_in tables.now path).entry path (layer_of layer))) }
{
    match tables.statements[path as usize].control {
        Entry::Body => Ok(body_entry(layer)),
        Entry::Part(whole) => Ok(wire(tables.wires.find_go(whole, layer))),
        Entry::Branch(whole) => branch_entry(alloc, tables, whole, path, layer),
        Entry::Then(whole, test) => tested_entry(alloc, tables, whole, path, test, false, layer),
        Entry::Else(whole, test) => tested_entry(alloc, tables, whole, path, test, true, layer),
        Entry::Suspended(whole, test) => suspended_entry(alloc, tables, whole, test, layer),
        Entry::Second(whole) => second_entry(alloc, tables, whole, path, layer),
        Entry::Looped(whole) => Ok(loop_entry(tables, whole, layer)),
    }
}

// The body of a program.
fn body_entry(layer: Layer) -> Formula
    ensures { (tables : tables_record) → MeansIn tables result (body_entry (layer_of layer)) }
{
    match layer {
        Layer::Resumed => Formula::Selected(PathId(0)),
        Layer::Started(_) => Formula::Boot,
    }
}

// A part that is resumed only where it holds a selected pause.
fn branch_entry(
    alloc: Global,
    tables: &Tables<'_>,
    whole: u32,
    path: u32,
    layer: Layer,
) -> Result<Formula, NoMemory>
    requires { IsThere tables.now (Go whole (layer_of layer)) }
    ensures { IfOk result (λ f. MeansIn tables.now f (branch_entry whole path (layer_of layer))) }
{
    let go = wire(tables.wires.find_go(whole, layer));
    match layer {
        Layer::Resumed => both(alloc, go, Formula::Selected(PathId(path))),
        Layer::Started(_) => Ok(go),
    }
}

// A branch of a test, or of its negation.
fn tested_entry(
    alloc: Global,
    tables: &Tables<'_>,
    whole: u32,
    path: u32,
    test: &Test,
    negates: bool,
    layer: Layer,
) -> Result<Formula, NoMemory>
    requires { IsTestOf tables.now whole (expression_of test.now) (layer_of layer) }
    ensures { IfOk result (λ f. MeansIn tables.now f
        (tested_by (row_in tables.now whole).scope (expression_of test.now) negates whole path (layer_of layer))) }
{
    let go = wire(tables.wires.find_go(whole, layer));
    match layer {
        Layer::Resumed => both(alloc, go, Formula::Selected(PathId(path))),
        Layer::Started(_) => {
            let holds = signed_test(alloc, tables, whole, test, negates, layer);
            both_of(alloc, Ok(go), holds)
        }
    }
}

// The body of a suspension.
fn suspended_entry(
    alloc: Global,
    tables: &Tables<'_>,
    whole: u32,
    test: &Test,
    layer: Layer,
) -> Result<Formula, NoMemory>
    requires { IsTestOf tables.now whole (expression_of test.now) (layer_of layer) }
    ensures { IfOk result (λ f. MeansIn tables.now f
        (suspended_by (row_in tables.now whole).scope (expression_of test.now) whole (layer_of layer))) }
{
    let go = wire(tables.wires.find_go(whole, layer));
    match layer {
        Layer::Resumed => {
            let holds = signed_test(alloc, tables, whole, test, true, layer);
            both_of(alloc, Ok(go), holds)
        }
        Layer::Started(_) => Ok(go),
    }
}

// The formula of a statement's own test, or of its negation.
fn signed_test(
    alloc: Global,
    tables: &Tables<'_>,
    path: u32,
    test: &Test,
    negates: bool,
    layer: Layer,
) -> Result<Formula, NoMemory>
    requires { IsTestOf tables.now path (expression_of test.now) (layer_of layer) }
    ensures { IfOk result (λ f. MeansIn tables.now f
        (if negates
        then Negation (test_formula (row_in tables.now path).scope (expression_of test.now) (layer_of layer))
        else test_formula (row_in tables.now path).scope (expression_of test.now) (layer_of layer))) }
{
    let holds = own_test(alloc, tables, path, test, layer)?;
    if negates {
        negated(alloc, holds)
    } else {
        Ok(holds)
    }
}

// The second part of a sequence.
fn second_entry(
    alloc: Global,
    tables: &Tables<'_>,
    whole: u32,
    path: u32,
    layer: Layer,
) -> Result<Formula, NoMemory>
    requires { FirstEnd tables.now whole path (layer_of layer) }
    ensures { IfOk result (λ f. MeansIn tables.now f (second_entry whole path (layer_of layer))) }
{
    match layer {
        Layer::Resumed => {
            let go = wire(tables.wires.find_go(whole, layer));
            both(alloc, go, Formula::Selected(PathId(path)))
        }
        Layer::Started(root) => {
            let from = if root.0 == path {
                Layer::Resumed
            } else {
                layer
            };
            Ok(wire(tables.wires.find_end(whole + 1, from, 0)))
        }
    }
}

// The body of a loop.
fn loop_entry(tables: &Tables<'_>, whole: u32, layer: Layer) -> Formula
    requires { LoopStart tables.now whole (layer_of layer) }
    ensures { MeansIn tables.now result (loop_entry whole (layer_of layer)) }
{
    match layer {
        Layer::Resumed => wire(tables.wires.find_go(whole, layer)),
        Layer::Started(root) => {
            if root.0 == whole + 1 {
                wire(tables.wires.find_end(whole + 1, Layer::Resumed, 0))
            } else {
                wire(tables.wires.find_go(whole, layer))
            }
        }
    }
}

/// The formula of a statement's own test, as seen from its instance in this layer.
pub(crate) fn own_test(
    alloc: Global,
    tables: &Tables<'_>,
    path: u32,
    test: &Test,
    layer: Layer,
) -> Result<Formula, NoMemory>
    requires { IsTestOf tables.now path (expression_of test.now) (layer_of layer) }
    ensures { IfOk result (λ f. MeansIn tables.now f
        (test_formula (row_in tables.now path).scope (expression_of test.now) (layer_of layer))) }
{
    let mut at = 0;
    let bindings = tables.statements[path as usize].signals.as_slice();
    test_formula(alloc, tables, test, bindings, &mut at, layer)
}
