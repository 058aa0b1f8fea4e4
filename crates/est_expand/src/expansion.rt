// The flat program of a program.

ghost use Rattle.std.specs.Prelude.{◌≡◌, ◌≤◌, ◌++◌, map, flat_map, length, slice_get, Some, IfOk, OnOk};
ghost use Rattle.base_types.specs.Relations.{relation_of as input_relation};
ghost use Rattle.est_ast.specs.FlatViews.{flat_of, flat_stmt_of};
ghost use Rattle.est_ast.specs.Trees.{Module as PlainModule};
ghost use Rattle.est_ast.specs.Views.{program_of, module_of, decl_of, relation_of};
ghost use Rattle.est_names.specs.NameFaults.{module_names};
ghost use Rattle.est_names.specs.Tables.{IsTableOf};
ghost use Rattle.est_expand.specs.Answers.{AnswersAsDefined};
ghost use Rattle.est_ast.specs.FlatPrograms.{IsFlat, IsNamed};
ghost use Rattle.est_expand.specs.NamedModules.{IsNamedModule};
ghost use Rattle.est_expand.specs.Flattening.{related, relation_in, relations_in, main_flattening, flat_program};
ghost use Rattle.est_expand.specs.Flattening.{flattened};
ghost use Rattle.est_expand.specs.Scopes.{main_interface, main_signals, main_scope};
ghost use Rattle.est_expand.specs.MainHeads.{IsHeadOf};
ghost use Rattle.est_expand.specs.Views.{interface_of, met_of, Walks};

use crate::interface::{Interface, main_interface, main_names};
use crate::met::Met;
use crate::place::{Around, Source};
use crate::refusal::ExpandFault;
use crate::scope::Scope;
use crate::traps::Traps;
use crate::walk::walk;
use base_types::{InputRelation, Limits, NoMemory, SigId, Text};
use est_ast::{Decl, Flat, FlatStmt, Module, Name, Program, Relation};
use est_names::{ModuleTable, NameSet};
use std::alloc::Global;

/// The flat program of a program: the body of its main module, in which the body of a module stands for each
/// `run` of it, with numbers for the names of signals and traps.
///
/// Else the first fault of the walk. It begins at the body of the main module, takes parts in the order in
/// which they are written, and goes into the body of a module at its `run`. A statement that is met is
/// counted, then its depth is tested, then the signals that it adds are counted, and then its names and its
/// parts are taken. At a `run` the order is: the module; whether it leads back to itself; the renamings from
/// the left; the formals in the order of the text; the body.
///
/// A limit is answered where a count passes it, so nothing is built that does not fit. Names are found by their
/// hashes, so the time is linear in what is met and in the interfaces of the modules that are run.
///
/// Example: where M has the output O and the body `run N`, and N has the output O and the body `emit O`, the flat
/// program of M is `emit O`, with the O of M.
pub fn expand<'a>(
    alloc: Global,
    program: &'a Program,
    table: &'a ModuleTable<'a>,
) -> Result<Flat, ExpandFault>
    requires { IsTableOf (program_of program.now) table.now }
    ensures flattens { (main : PlainModule) → slice_get (program_of program.now) table.now.main ≡ Some main
        → AnswersAsDefined flat_of result (flattened (program_of program.now) main) }
    ensures fits { IfOk result (λ flat. IsFlat (flat_of flat)) }
    ensures named { (main : PlainModule) → slice_get (program_of program.now) table.now.main ≡ Some main
        → IsNamedModule main → IfOk result (λ flat. IsNamed (flat_of flat)) }
{
    let main = &program.modules[table.main()];
    flat_main(alloc, &program.modules, table, main)
}

// The flat program with this main module.
fn flat_main<'a>(
    alloc: Global,
    modules: &'a [Module],
    table: &'a ModuleTable<'a>,
    main: &'a Module,
) -> Result<Flat, ExpandFault>
    requires { table.now.names ≡ module_names (map module_of modules.now) }
    ensures { AnswersAsDefined flat_of result (flattened (map module_of modules.now) (module_of main.now)) }
{
    let shown = main_interface(alloc, main)?;
    let mut met = Met::nothing(alloc);
    met.meet_signals(alloc, &main_names(alloc, &shown)?)?;
    let head = main_head(alloc, main, &shown)?;
    let body = main_body(alloc, modules, table, main, &shown, &mut met)?;
    Ok(assembled(head, met, body))
}

// The body of the main module, once its signals are counted.
fn main_body<'a>(
    alloc: Global,
    modules: &'a [Module],
    table: &'a ModuleTable<'a>,
    main: &'a Module,
    shown: &Interface<'a>,
    met: &mut Met,
) -> Result<FlatStmt, ExpandFault>
    requires named { table.now.names ≡ module_names (map module_of modules.now) }
    requires shown { interface_of shown.now ≡ main_interface (module_of main.now) }
    requires few { length (main_signals (interface_of shown.now)) ≤ 4096 }
    ensures { Walks flat_stmt_of result met.old met.new
        (main_flattening (map module_of modules.now) (module_of main.now)) }
{
    let scope = main_scope(alloc, shown)?;
    let mut chain = NameSet::new(alloc);
    chain.insert(main.name.text.bytes())?;
    let traps = Traps::new(alloc);
    let mut around = Around {
        scope,
        traps,
        chain,
    };
    let source = Source {
        modules,
        table,
        inputs: shown.inputs.len() as u32,
        room: Limits::DEPTH as u32 + 1,
    };
    walk(alloc, &source, &mut around, met, &main.body)
}

// The scope of the main module's body.
fn main_scope<'a>(alloc: Global, shown: &Interface<'a>) -> Result<Scope<'a>, NoMemory>
    requires { length (main_signals (interface_of shown.now)) ≤ 4096 }
    ensures { IfOk result (λ scope. scope ≡ main_scope (interface_of shown.now)) }
{
    let mut scope = Scope::new(alloc);
    let both = shown.inputs.len();
    let outputs = both + shown.both.len();
    scope.bind_all(&shown.outputs, outputs as u32, false)?;
    scope.bind_all(&shown.both, both as u32, false)?;
    scope.bind_all(&shown.inputs, 0, true)?;
    Ok(scope)
}

// What a flat program has in addition to its signals and its body.
#[derive(Drop)]
struct MainHead {
    name: Text,
    inputs: u32,
    both: u32,
    outputs: u32,
    relations: Vec<InputRelation>,
}

// That of the main module.
fn main_head(alloc: Global, main: &Module, shown: &Interface) -> Result<MainHead, NoMemory>
    requires shown { interface_of shown.now ≡ main_interface (module_of main.now) }
    requires few { length (main_signals (interface_of shown.now)) ≤ 4096 }
    ensures { IfOk result (IsHeadOf (module_of main.now)) }
{
    let scope = main_scope(alloc, shown)?;
    let relations = flat_relations(alloc, &scope, &main.decls)?;
    let name = Text::from_bytes(alloc, main.name.text.bytes())?;
    Ok(MainHead {
        name,
        inputs: shown.inputs.len() as u32,
        both: shown.both.len() as u32,
        outputs: shown.outputs.len() as u32,
        relations,
    })
}

// The flat program of what the walk gave.
fn assembled(head: MainHead, met: Met, body: FlatStmt) -> Flat
    ensures { (main : PlainModule) → IsHeadOf main head
        → flat_of result ≡ flat_program main (flat_stmt_of body) (met_of met) }
{
    Flat {
        name: head.name,
        signals: met.signals,
        inputs: head.inputs,
        both: head.both,
        outputs: head.outputs,
        relations: head.relations,
        body,
    }
}

// The relations of the main module.
fn flat_relations(
    alloc: Global,
    scope: &Scope,
    decls: &[Decl],
) -> Result<Vec<InputRelation>, NoMemory>
    ensures { IfOk result (λ found. map input_relation found.items
        ≡ map (relation_in scope.now) (flat_map relations_in (map decl_of decls.now))) }
{
    let mut found = Vec::new(alloc);
    for decl in decls {
        if let Decl::Relation(relations) = decl {
            push_relations(alloc, scope, &mut found, relations)?;
        }
    }
    Ok(found)
}

// The relations of one declaration.
fn push_relations(
    alloc: Global,
    scope: &Scope,
    found: &mut Vec<InputRelation>,
    relations: &[Relation],
) -> Result<(), NoMemory>
    ensures { OnOk result (map input_relation found.new.items
        ≡ map input_relation found.old.items ++ map (relation_in scope.now) (map relation_of relations.now)) }
{
    for relation in relations {
        found.push(flat_relation(alloc, scope, relation)?)?;
    }
    Ok(())
}

// A relation.
fn flat_relation(
    alloc: Global,
    scope: &Scope,
    relation: &Relation,
) -> Result<InputRelation, NoMemory>
    ensures { IfOk result (λ r. input_relation r ≡ relation_in scope.now (relation_of relation.now)) }
{
    match relation {
        Relation::Implies(cause, effect) => {
            let cause = related(scope, cause);
            Ok(InputRelation::Implies(cause, related(scope, effect)))
        }
        Relation::Excludes(names) => {
            let found = all_related(alloc, scope, names)?;
            Ok(InputRelation::Excludes(found))
        }
    }
}

// The signals that names of a relation mean.
fn all_related(alloc: Global, scope: &Scope, names: &[Name]) -> Result<Vec<SigId>, NoMemory>
    ensures { IfOk result (λ found. map (λ s. s.0) found.items ≡ map (related scope.now) names.now) }
{
    let mut found = Vec::new(alloc);
    for name in names {
        found.push(related(scope, name))?;
    }
    Ok(found)
}

// The signal that a name of a relation means. The check of names has found that it means one.
fn related(scope: &Scope, name: &Name) -> SigId
    ensures { result.0 ≡ related scope.now name.now }
{
    match scope.find(name.text.bytes()) {
        Some(meaning) => SigId(meaning.signal),
        None => SigId(0),
    }
}
