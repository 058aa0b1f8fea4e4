// Formulas made of formulas.

ghost use Rattle.std.specs.Prelude.{◌≡◌, ◌↔◌, true, [], ◌∷◌, ◌++◌, List, Bool, Contains, IfOk, IsOk};
ghost use Rattle.grc_graph.specs.Instances.{Instance};
ghost use Rattle.grc_graph.specs.Wires.{Wire};
ghost use Rattle.grc_graph.specs.Formulas.{Formula as plain_formula, Value, Negation, Conjunction, Disjunction, any_of};
ghost use Rattle.grc_graph.specs.WireTables.{HasName};
ghost use Rattle.grc_build.specs.Meanings.{Means, MeansIf, MeansAny, formula_if};

use base_types::{NoMemory, WireId};
use grc_graph::Formula;
use std::alloc::Global;

/// Both of two formulas.
pub(crate) fn both(alloc: Global, left: Formula, right: Formula) -> Result<Formula, NoMemory>
    ensures { (insts : List Instance) (names : List Wire) (x y : plain_formula) → Means insts names left x
        → Means insts names right y → IfOk result (λ f. Means insts names f (Conjunction x y)) }
{
    let left = Box::new(alloc, left)?;
    let right = Box::new(alloc, right)?;
    Ok(Formula::And(left, right))
}

/// Either of two formulas.
pub(crate) fn either(alloc: Global, left: Formula, right: Formula) -> Result<Formula, NoMemory>
    ensures { (insts : List Instance) (names : List Wire) (x y : plain_formula) → Means insts names left x
        → Means insts names right y → IfOk result (λ f. Means insts names f (Disjunction x y)) }
{
    let left = Box::new(alloc, left)?;
    let right = Box::new(alloc, right)?;
    Ok(Formula::Or(left, right))
}

/// The negation of a formula.
pub(crate) fn negated(alloc: Global, formula: Formula) -> Result<Formula, NoMemory>
    ensures { (insts : List Instance) (names : List Wire) (x : plain_formula) → Means insts names formula x
        → IfOk result (λ f. Means insts names f (Negation x)) }
{
    Ok(Formula::Not(Box::new(alloc, formula)?))
}

/// The or of a formula that may be missing and of others; none where all are missing.
pub(crate) fn any_more(
    alloc: Global,
    first: Option<Formula>,
    rest: Option<Formula>,
) -> Result<Option<Formula>, NoMemory>
    ensures { (insts : List Instance) (names : List Wire) (b : Bool) (x : plain_formula) (xs : List plain_formula)
        → MeansIf insts names first b x → MeansAny insts names rest xs
        → IfOk result (λ r. MeansAny insts names r (formula_if b x ++ xs)) }
{
    match first {
        None => Ok(rest),
        Some(left) => match rest {
            None => Ok(Some(left)),
            Some(right) => {
                let formula = either(alloc, left, right)?;
                Ok(Some(formula))
            }
        },
    }
}

/// The same of two results. Results as arguments spare callers a `?` over owned formulas, which is dear to prove.
pub(crate) fn any_more_of(
    alloc: Global,
    first: Result<Option<Formula>, NoMemory>,
    rest: Result<Option<Formula>, NoMemory>,
) -> Result<Option<Formula>, NoMemory>
    ensures { (insts : List Instance) (names : List Wire) (b : Bool) (x : plain_formula) (xs : List plain_formula)
        → IfOk first (λ r. MeansIf insts names r b x) → IfOk rest (λ r. MeansAny insts names r xs)
        → IfOk result (λ r. MeansAny insts names r (formula_if b x ++ xs)) }
{
    let first = first?;
    any_more(alloc, first, rest?)
}

/// The disjunction of an optional formula and another, both results.
pub(crate) fn any_with(
    alloc: Global,
    first: Result<Option<Formula>, NoMemory>,
    last: Result<Formula, NoMemory>,
) -> Result<Formula, NoMemory>
    ensures { (insts : List Instance) (names : List Wire) (b : Bool) (x y : plain_formula)
        → IfOk first (λ r. MeansIf insts names r b x) → IfOk last (λ f. Means insts names f y)
        → IfOk result (λ f. Means insts names f (any_of (formula_if b x ++ y ∷ []))) }
{
    match (first, last) {
        (Ok(Some(first)), Ok(last)) => either(alloc, first, last),
        (Ok(None), last) => last,
        _ => Err(NoMemory),
    }
}

/// The conjunction of two formulas, both results.
pub(crate) fn both_of(
    alloc: Global,
    left: Result<Formula, NoMemory>,
    right: Result<Formula, NoMemory>,
) -> Result<Formula, NoMemory>
    ensures { (insts : List Instance) (names : List Wire) (x y : plain_formula)
        → IfOk left (λ f. Means insts names f x) → IfOk right (λ f. Means insts names f y)
        → IfOk result (λ f. Means insts names f (Conjunction x y)) }
{
    let left = left?;
    both(alloc, left, right?)
}

/// The conjunction of a formula and another, a result.
pub(crate) fn both_with(
    alloc: Global,
    left: Formula,
    right: Result<Formula, NoMemory>,
) -> Result<Formula, NoMemory>
    ensures means { (insts : List Instance) (names : List Wire) (x y : plain_formula) → Means insts names left x
        → IfOk right (λ f. Means insts names f y) → IfOk result (λ f. Means insts names f (Conjunction x y)) }
    ensures made { IfOk result (λ _. IsOk right) }
{
    both(alloc, left, right?)
}

/// The disjunction of a formula and another, a result.
pub(crate) fn either_with(
    alloc: Global,
    left: Formula,
    right: Result<Formula, NoMemory>,
) -> Result<Formula, NoMemory>
    ensures means { (insts : List Instance) (names : List Wire) (x y : plain_formula) → Means insts names left x
        → IfOk right (λ f. Means insts names f y) → IfOk result (λ f. Means insts names f (Disjunction x y)) }
    ensures made { IfOk result (λ _. IsOk right) }
{
    either(alloc, left, right?)
}

/// A formula, or the one that is false where it is missing.
pub(crate) fn or_false(found: Option<Formula>) -> Formula
    ensures { (insts : List Instance) (names : List Wire) (xs : List plain_formula)
        → MeansAny insts names found xs → Means insts names result (any_of xs) }
{
    match found {
        Some(formula) => formula,
        None => Formula::Const(false),
    }
}

/// The formula of a wire that is there.
pub(crate) fn wire(found: Option<WireId>) -> Formula
    ensures { (insts : List Instance) (names : List Wire) (u : Wire) → HasName names found u → Contains names u
        → Means insts names result (Value u) }
{
    match found {
        Some(wire) => Formula::Wire(wire),
        None => Formula::Const(false),
    }
}

/// The formula of a wire that may be there.
pub(crate) fn wire_if(found: Option<WireId>) -> Option<Formula>
    ensures { (insts : List Instance) (names : List Wire) (u : Wire) (b : Bool) → HasName names found u
        → (Contains names u ↔ (b ≡ true)) → MeansIf insts names result b (Value u) }
{
    match found {
        Some(wire) => Some(Formula::Wire(wire)),
        None => None,
    }
}
