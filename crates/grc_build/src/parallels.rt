// With which codes parallels end.

ghost use Rattle.std.specs.Prelude.{◌≡◌, ◌==◌, Bool, ◌∷◌, [], ◌++◌, IfOk};
ghost use Rattle.grc_graph.specs.Equations.{branch_over};
ghost use Rattle.grc_graph.specs.Formulas.{Upto, Conjunction, any_of};
ghost use Rattle.grc_graph.specs.Layers.{Resumed};
ghost use Rattle.grc_graph.specs.PlainInstances.{layer_of};
ghost use Rattle.grc_graph.specs.Wires.{Go, End};
ghost use Rattle.grc_build.specs.Ending.{Tells, TellsLive, MeansIfIn, end_if, held_upto, held_end};
ghost use Rattle.grc_build.specs.Meanings.{formula_if};
ghost use Rattle.grc_build.specs.Tabled.{IsLive, IsThere, MeansIn};

use crate::ends::{Ending, part_end};
use crate::formulas::{any_more, any_more_of, any_with, both, both_of, negated, or_false, wire};
use crate::tables::Tables;
use base_types::{NoMemory, PathId};
use grc_graph::{Formula, Layer};
use std::alloc::Global;

/// A started parallel: both branches end with at most the code, and one of them with it.
pub(crate) fn started_parallel(
    alloc: Global,
    tables: &Tables<'_>,
    first: u32,
    second: u32,
    ending: Ending,
) -> Result<Formula, NoMemory>
    requires first { IsLive tables.now first (layer_of ending.layer) }
    requires second { IsLive tables.now second (layer_of ending.layer) }
    ensures { (b x : Bool) → Tells tables.now (End first (layer_of ending.layer) ending.code) b
        → Tells tables.now (End second (layer_of ending.layer) ending.code) x
        → IfOk result (λ f. MeansIn tables.now f
        (Conjunction (Upto first (layer_of ending.layer) ending.code)
        (Conjunction (Upto second (layer_of ending.layer) ending.code)
        (any_of (end_if b first (layer_of ending.layer) ending.code
        ++ end_if x second (layer_of ending.layer) ending.code))))) }
{
    let others = part_end(tables, second, ending);
    let found = any_more(alloc, part_end(tables, first, ending), others)?;
    let rest = both(alloc, upto(tables, second, ending), or_false(found))?;
    both(alloc, upto(tables, first, ending), rest)
}

// An instance ends with at most the code.
fn upto(tables: &Tables<'_>, path: u32, ending: Ending) -> Formula
    requires { IsLive tables.now path (layer_of ending.layer) }
    ensures { MeansIn tables.now result (Upto path (layer_of ending.layer) ending.code) }
{
    match tables.wires.find_instance(path, ending.layer) {
        Some(number) => Formula::Upto(number, ending.code),
        None => Formula::Const(false),
    }
}

/// A resumed parallel, whose branches may have ended before.
pub(crate) fn resumed_parallel(
    alloc: Global,
    tables: &Tables<'_>,
    first: u32,
    second: u32,
    ending: Ending,
) -> Result<Formula, NoMemory>
    requires { IsThere tables.now (Go ending.path Resumed) }
    ensures { (a c b x : Bool) → TellsLive tables.now first Resumed a → TellsLive tables.now second Resumed c
        → Tells tables.now (End first Resumed ending.code) b → Tells tables.now (End second Resumed ending.code) x
        → IfOk result (λ f. MeansIn tables.now f (Conjunction
        (any_of (formula_if a (held_upto first ending.code) ++ branch_over ending.path first ∷ []))
        (Conjunction (any_of (formula_if c (held_upto second ending.code) ++ branch_over ending.path second ∷ []))
        (any_of (formula_if b (held_end first ending.code)
        ++ (formula_if (ending.code == 0) (branch_over ending.path first)
        ++ (formula_if x (held_end second ending.code)
        ++ formula_if (ending.code == 0) (branch_over ending.path second)))))))) }
{
    let ends = resumed_ends(alloc, tables, first, second, ending);
    let rest = both_of(alloc, branch_upto(alloc, tables, second, ending), ends);
    both_of(alloc, branch_upto(alloc, tables, first, ending), rest)
}

// One of the branches ends with the code.
fn resumed_ends(
    alloc: Global,
    tables: &Tables<'_>,
    first: u32,
    second: u32,
    ending: Ending,
) -> Result<Formula, NoMemory>
    requires { IsThere tables.now (Go ending.path Resumed) }
    ensures { (b x : Bool) → Tells tables.now (End first Resumed ending.code) b
        → Tells tables.now (End second Resumed ending.code) x
        → IfOk result (λ f. MeansIn tables.now f
        (any_of (formula_if b (held_end first ending.code)
        ++ (formula_if (ending.code == 0) (branch_over ending.path first)
        ++ (formula_if x (held_end second ending.code)
        ++ formula_if (ending.code == 0) (branch_over ending.path second)))))) }
{
    let over = over_end(alloc, tables, second, ending);
    let found = any_more_of(alloc, held_end(alloc, tables, second, ending.code), over);
    let found = any_more_of(alloc, over_end(alloc, tables, first, ending), found);
    let all = any_more_of(alloc, held_end(alloc, tables, first, ending.code), found)?;
    Ok(or_false(all))
}

// A branch ends with at most the code, or has ended before.
fn branch_upto(
    alloc: Global,
    tables: &Tables<'_>,
    path: u32,
    ending: Ending,
) -> Result<Formula, NoMemory>
    requires { IsThere tables.now (Go ending.path Resumed) }
    ensures { (b : Bool) → TellsLive tables.now path Resumed b → IfOk result (λ f. MeansIn tables.now f
        (any_of (formula_if b (held_upto path ending.code) ++ branch_over ending.path path ∷ []))) }
{
    let over = branch_over(alloc, tables, path, ending.path);
    any_with(alloc, held_upto(alloc, tables, path, ending.code), over)
}

// A branch that holds a selected pause ends with at most the code.
fn held_upto(
    alloc: Global,
    tables: &Tables<'_>,
    path: u32,
    code: u8,
) -> Result<Option<Formula>, NoMemory>
    ensures { (b : Bool) → TellsLive tables.now path Resumed b →
        IfOk result (λ r. MeansIfIn tables.now r b (held_upto path code)) }
{
    match tables.wires.find_instance(path, Layer::Resumed) {
        None => Ok(None),
        Some(number) => {
            let formula = both(
                alloc,
                Formula::Selected(PathId(path)),
                Formula::Upto(number, code),
            )?;
            Ok(Some(formula))
        }
    }
}

// A branch that holds a selected pause ends with the code.
fn held_end(
    alloc: Global,
    tables: &Tables<'_>,
    path: u32,
    code: u8,
) -> Result<Option<Formula>, NoMemory>
    ensures { (b : Bool) → Tells tables.now (End path Resumed code) b
        → IfOk result (λ r. MeansIfIn tables.now r b (held_end path code)) }
{
    match tables.wires.find_end(path, Layer::Resumed, code) {
        None => Ok(None),
        Some(wire) => {
            let formula = both(alloc, Formula::Selected(PathId(path)), Formula::Wire(wire))?;
            Ok(Some(formula))
        }
    }
}

// A branch that has ended before counts as code 0.
fn over_end(
    alloc: Global,
    tables: &Tables<'_>,
    path: u32,
    ending: Ending,
) -> Result<Option<Formula>, NoMemory>
    requires { IsThere tables.now (Go ending.path Resumed) }
    ensures { IfOk result (λ r. MeansIfIn tables.now r (ending.code == 0) (branch_over ending.path path)) }
{
    if ending.code == 0 {
        let formula = branch_over(alloc, tables, path, ending.path)?;
        Ok(Some(formula))
    } else {
        Ok(None)
    }
}

// A branch of a resumed parallel holds no selected pause.
fn branch_over(
    alloc: Global,
    tables: &Tables<'_>,
    path: u32,
    whole: u32,
) -> Result<Formula, NoMemory>
    requires { IsThere tables.now (Go whole Resumed) }
    ensures { IfOk result (λ f. MeansIn tables.now f (branch_over whole path)) }
{
    let none = negated(alloc, Formula::Selected(PathId(path)))?;
    both(
        alloc,
        none,
        wire(tables.wires.find_go(whole, Layer::Resumed)),
    )
}
