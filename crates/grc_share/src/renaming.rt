// Formulas over shared instances and wires by number.

ghost use Rattle.std.specs.Prelude.{◌≡◌, ◌<◌, ℕ, List, length, All, IfOk, IsTrue};
ghost use Rattle.grc_graph.specs.Formulas.{Formula as plain, Negation, Conjunction, Disjunction};
ghost use Rattle.grc_graph.specs.GraphShapes.{formula_fits};
ghost use Rattle.grc_graph.specs.Instances.{Instance};
ghost use Rattle.grc_graph.specs.PlainGraphs.{formula_of};
ghost use Rattle.grc_graph.specs.Wires.{Wire};
ghost use Rattle.grc_share.specs.Renamings.{AreNumbers, StandsFor, renamed_wires};
ghost use Rattle.grc_share.specs.SharedGraphs.{renamed};
ghost use Rattle.grc_share.specs.SharedInstances.{Sharing};

use base_types::{InstId, NoMemory, WireId};
use grc_graph::Formula;
use std::alloc::Global;

/// The numbers of a graph's shared instances and wires.
#[derive(Clone, Copy)]
pub(crate) struct Numbers<'a> {
    /// For each instance of the graph the least member of its shared instance.
    pub least: &'a [InstId],
    /// For each instance of the graph the number of its shared instance.
    pub instances: &'a [InstId],
    /// For each wire of the graph the number of its shared wire.
    pub wires: &'a [u32],
}

/// A formula with the number of its shared one in the place of each instance and of each wire.
pub(crate) fn renamed(
    alloc: Global,
    formula: &Formula,
    numbers: &Numbers,
) -> Result<Formula, NoMemory>
    requires { IsTrue (formula_fits (length numbers.now.instances.now) (length numbers.now.wires.now) formula.now) }
    ensures { (K : Sharing) (insts : List Instance) (names : List Wire) (shared : List Instance) (wires : List Wire)
        → AreNumbers K insts names shared wires numbers.now.instances.now numbers.now.wires.now
        → IfOk result (StandsFor shared wires (renamed K (formula_of insts names formula.now))) }
{
    match formula {
        Formula::Const(value) => Ok(Formula::Const(*value)),
        Formula::Boot => Ok(Formula::Boot),
        Formula::Input(signal) => Ok(Formula::Input(*signal)),
        Formula::Wire(w) => Ok(Formula::Wire(WireId(numbers.wires[w.0 as usize]))),
        Formula::Selected(path) => Ok(Formula::Selected(*path)),
        Formula::Upto(i, code) => Ok(Formula::Upto(numbers.instances[i.0 as usize], *code)),
        Formula::Kept(i) => Ok(Formula::Kept(numbers.instances[i.0 as usize])),
        Formula::Held(i) => Ok(Formula::Held(numbers.instances[i.0 as usize])),
        Formula::Not(part) => {
            let inner = renamed(alloc, part, numbers)?;
            negated(alloc, inner)
        }
        Formula::And(left, right) => {
            let first = renamed(alloc, left, numbers)?;
            let second = renamed(alloc, right, numbers)?;
            both(alloc, first, second)
        }
        Formula::Or(left, right) => {
            let first = renamed(alloc, left, numbers)?;
            let second = renamed(alloc, right, numbers)?;
            either(alloc, first, second)
        }
        Formula::AnyOf(list) => {
            let wires = rename_wires(alloc, list, numbers.wires)?;
            Ok(Formula::AnyOf(wires))
        }
    }
}

// Wires by the numbers of their shared ones.
fn rename_wires(alloc: Global, list: &[WireId], numbers: &[u32]) -> Result<Vec<WireId>, NoMemory>
    requires { All (λ w. w.0 < length numbers.now) list.now }
    ensures { IfOk result (λ v. v.items ≡ renamed_wires numbers.now list.now) }
{
    let mut wires: Vec<WireId> = Vec::with_capacity(alloc, list.len())?;
    for w in list {
        wires.push(WireId(numbers[w.0 as usize]))?;
    }
    Ok(wires)
}

/// Both of two formulas.
pub(crate) fn both(alloc: Global, left: Formula, right: Formula) -> Result<Formula, NoMemory>
    ensures { IfOk result (λ f. (insts : List Instance) (names : List Wire) (a b : plain)
        → StandsFor insts names a left → StandsFor insts names b right → StandsFor insts names (Conjunction a b) f) }
{
    let left = Box::new(alloc, left)?;
    let right = Box::new(alloc, right)?;
    Ok(Formula::And(left, right))
}

/// Either of two formulas.
pub(crate) fn either(alloc: Global, left: Formula, right: Formula) -> Result<Formula, NoMemory>
    ensures { IfOk result (λ f. (insts : List Instance) (names : List Wire) (a b : plain)
        → StandsFor insts names a left → StandsFor insts names b right → StandsFor insts names (Disjunction a b) f) }
{
    let left = Box::new(alloc, left)?;
    let right = Box::new(alloc, right)?;
    Ok(Formula::Or(left, right))
}

// The negation of a formula.
fn negated(alloc: Global, formula: Formula) -> Result<Formula, NoMemory>
    ensures { IfOk result (λ f. (insts : List Instance) (names : List Wire) (a : plain)
        → StandsFor insts names a formula → StandsFor insts names (Negation a) f) }
{
    Ok(Formula::Not(Box::new(alloc, formula)?))
}
