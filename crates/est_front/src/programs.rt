// From the bytes of a source to its flat program, and to the kernel program that this is expanded into.

ghost use Rattle.std.specs.Prelude.{◌≡◌, ◌≤◌, ℕ, List, Option, Some, length, slice_get, IfOk, IfErr, option_map};
ghost use Rattle.base_types.specs.Stops.{FaultIs};
ghost use Rattle.est_ast.specs.FlatViews.{flat_of};
ghost use Rattle.est_ast.specs.FlatTrees.{Flat as PlainFlat};
ghost use Rattle.est_ast.specs.Trees.{SourceProgram as PlainProgram, Module as PlainModule};
ghost use Rattle.est_names.specs.Tables.{IsTableOf};
ghost use Rattle.est_expand.specs.Flattening.{flattened};
ghost use Rattle.est_ast.specs.Views.{program_of as source_of};
ghost use Rattle.est_names.specs.NameFaults.{IsFirst, name_faults};
ghost use Rattle.est_kernel.specs.Plain.{program_of};
ghost use Rattle.est_dismantle.specs.Faults.{FaultHasCause};
ghost use Rattle.est_dismantle.specs.Expansions.{expansion};
ghost use Rattle.est_expand.specs.Faults as flattening;
ghost use Rattle.est_expand.specs.Answers.{AnswersAsDefined, fault_of};
ghost use Rattle.est_front.specs.Sources.{SourceReadsAs, Flattens, Expands};
ghost use Rattle.est_front.specs.Lacks.{HasNoExpansion, HasNoFlat};
ghost use Rattle.est_front.specs.Refusals.{IsSourceRefused, Unflattened};

use crate::refusal::{Fault, Quantity, SourceRefusal};
use crate::sources::read_source;
use base_types::{Limits, Stop};
use est_ast::{Flat, Program};
use est_dismantle::{DismantleFault, dismantle};
use est_expand::{ExpandFault, expand};
use est_kernel::KernelProgram;
use est_names::{ModuleTable, NameFault, check_modules};
use std::alloc::Global;

/// The kernel program that a source is expanded into, whether or not it has an instantaneous loop. `main` is the name
/// of the main module; without it that is the first one. A source is refused for its first fault: of its tokens, its
/// tree, its names, its flat form, its counts, and for what passes its limit.
pub fn kernel_program(
    alloc: Global,
    text: &[u8],
    main: Option<&[u8]>,
) -> Result<KernelProgram, SourceRefusal>
    requires { length text.now ≤ Limits.SOURCE_BYTES }
    ensures program { IfOk result (λ p. Expands text.now (option_map (λ m. m.now) main.entry) (program_of p)) }
    ensures refusal { IfErr result (IsSourceRefused text.now (option_map (λ m. m.now) main.entry)) }
    ensures lacks { IfErr result (HasNoExpansion text.now (option_map (λ m. m.now) main.entry)) }
{
    let flat = match flat_program(alloc, text, main) {
        Ok(flat) => flat,
        Err(refusal) => return Err(refusal),
    };
    let flat = Box::new(alloc, flat)?;
    match dismantle(alloc, flat) {
        Ok(program) => Ok(program),
        Err(stop) => Err(expansion_refusal(stop)),
    }
}

/// The flat program of a source, in which each `run` is replaced by the body of its module.
/// Its errors are the first fault of the source in these passes, and out of memory.
pub fn flat_program(alloc: Global, text: &[u8], main: Option<&[u8]>) -> Result<Flat, SourceRefusal>
    requires { length text.now ≤ Limits.SOURCE_BYTES }
    ensures flat { IfOk result (λ flat. Flattens text.now (option_map (λ m. m.now) main.entry) (flat_of flat)) }
    ensures refusal { IfErr result (IsSourceRefused text.now (option_map (λ m. m.now) main.entry)) }
    ensures lacks { IfErr result (HasNoFlat text.now (option_map (λ m. m.now) main.entry)) }
{
    let tree = match read_source(alloc, text) {
        Ok(tree) => tree,
        Err(refusal) => return Err(refusal),
    };
    flat_tree(alloc, &tree, main)
}

// The flat program of a tree.
fn flat_tree(alloc: Global, tree: &Program, main: Option<&[u8]>) -> Result<Flat, SourceRefusal>
    ensures flat { (text : List ℕ) → SourceReadsAs text (source_of tree.now)
        → IfOk result (λ flat. Flattens text (option_map (λ m. m.now) main.entry) (flat_of flat)) }
    ensures refusal { (text : List ℕ) → SourceReadsAs text (source_of tree.now)
        → IfErr result (IsSourceRefused text (option_map (λ m. m.now) main.entry)) }
    ensures lacks { (text : List ℕ) → SourceReadsAs text (source_of tree.now)
        → IfErr result (HasNoFlat text (option_map (λ m. m.now) main.entry)) }
{
    let table = match check_modules(alloc, tree, main) {
        Ok(table) => table,
        Err(stop) => return Err(name_refusal(stop)),
    };
    match flat_form(alloc, tree, &table) {
        Ok(flat) => Ok(flat),
        Err(fault) => Err(flattening_refusal(fault)),
    }
}

// The flat program of a tree with its table of modules, which is lent for a shorter time than the tree that its names
// are of.
fn flat_form<'a, 't>(
    alloc: Global,
    tree: &'a Program,
    table: &'t ModuleTable<'a>,
) -> Result<Flat, ExpandFault>
    requires { IsTableOf (source_of tree.now) table.now }
    ensures { (main : PlainModule) → slice_get (source_of tree.now) table.now.main ≡ Some main
        → AnswersAsDefined flat_of result (flattened (source_of tree.now) main) }
{
    expand(alloc, &*tree, &*table)
}

// The refusal of a source for its names.
fn name_refusal(stop: Stop<NameFault>) -> SourceRefusal
    ensures refusal { (text : List ℕ) (main : Option (List ℕ)) (tree : PlainProgram) → SourceReadsAs text tree
        → FaultIs (IsFirst (name_faults main tree)) stop → IsSourceRefused text main result }
    ensures lacks { (text : List ℕ) (main : Option (List ℕ)) (tree : PlainProgram) → SourceReadsAs text tree
        → FaultIs (IsFirst (name_faults main tree)) stop → HasNoFlat text main result }
{
    match stop {
        Stop::Fault(fault) => SourceRefusal::Static(Fault::Name(fault)),
        Stop::NoMemory => SourceRefusal::NoMemory,
    }
}

// The refusal of a source that has no flat form.
fn flattening_refusal(fault: ExpandFault) -> SourceRefusal
    ensures refusal { (text : List ℕ) (main : Option (List ℕ))
        → ((plain : flattening.FlattenFault) → fault_of fault ≡ Some plain → Unflattened text main plain)
        → IsSourceRefused text main result }
    ensures lacks { (text : List ℕ) (main : Option (List ℕ))
        → ((plain : flattening.FlattenFault) → fault_of fault ≡ Some plain → Unflattened text main plain)
        → HasNoFlat text main result }
{
    match fault {
        ExpandFault::Scope(fault) => SourceRefusal::Static(Fault::Scope(fault)),
        ExpandFault::TooManyStatements => SourceRefusal::Limit(Quantity::Statements),
        ExpandFault::TooDeep => SourceRefusal::Limit(Quantity::Height),
        ExpandFault::TooManySignals => SourceRefusal::Limit(Quantity::Signals),
        ExpandFault::NoMemory => SourceRefusal::NoMemory,
    }
}

// The refusal of a flat program that has no kernel program.
fn expansion_refusal(stop: Stop<DismantleFault>) -> SourceRefusal
    ensures refusal { (text : List ℕ) (main : Option (List ℕ)) (flat : PlainFlat)
        → Flattens text main flat → FaultIs (FaultHasCause (expansion flat)) stop → IsSourceRefused text main result }
    ensures lacks { (text : List ℕ) (main : Option (List ℕ)) (flat : PlainFlat)
        → Flattens text main flat → FaultIs (FaultHasCause (expansion flat)) stop → HasNoExpansion text main result }
{
    match stop {
        Stop::Fault(fault) => fault_refusal(fault),
        Stop::NoMemory => SourceRefusal::NoMemory,
    }
}

// The refusal for a fault of the expansion.
fn fault_refusal(fault: DismantleFault) -> SourceRefusal
    ensures refusal { (text : List ℕ) (main : Option (List ℕ)) (flat : PlainFlat)
        → Flattens text main flat → FaultHasCause (expansion flat) fault → IsSourceRefused text main result }
    ensures lacks { (text : List ℕ) (main : Option (List ℕ)) (flat : PlainFlat)
        → Flattens text main flat → FaultHasCause (expansion flat) fault → HasNoExpansion text main result }
{
    match fault {
        DismantleFault::BadCount(place) => SourceRefusal::Static(Fault::BadCount(place)),
        DismantleFault::TooLarge => SourceRefusal::Limit(Quantity::Kernel),
        DismantleFault::TooHigh => SourceRefusal::Limit(Quantity::Height),
        DismantleFault::TooManyTraps => SourceRefusal::Limit(Quantity::Traps),
    }
}
