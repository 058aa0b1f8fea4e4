// The checks of the names of a program, in the order in which they answer.

ghost use Rattle.std.specs.Prelude.{◌≡◌, ℕ, ◌<◌, ◌≤◌, List, [], ◌∷◌, ◌++◌, map, flat_map, length, IfOk, OnOk};
ghost use Rattle.std.specs.Prelude.{IfSome};
ghost use Rattle.std.specs.Option.{option_map};
ghost use Rattle.base_types.specs.Stops.{IfFault};
ghost use Rattle.est_ast.specs.Views.{program_of, module_of, decl_of, relation_of, stmt_of};
ghost use Rattle.est_names.specs.declared.refusal.NameFault.TheVariants as faults;
ghost use Rattle.est_names.specs.Names.{texts, is_among};
ghost use Rattle.est_names.specs.NameFaults.{again, given_in, names_of_relation, not_given, decl_faults};
ghost use Rattle.est_names.specs.NameFaults.{interface_faults, body_faults, module_faults, module_names, main_place};
ghost use Rattle.est_names.specs.NameFaults.{main_faults, name_faults, IsFirst};
ghost use Rattle.est_names.specs.Tables.{IsTable};

use crate::name_set::NameSet;
use crate::refusal::NameFault;
use crate::signal_lists::push_lists;
use crate::table::ModuleTable;
use base_types::{NoMemory, Stop};
use est_ast::{Decl, Module, Name, Program, Relation, Stmt};
use std::alloc::Global;

/// The table of a program's modules, where the names have no fault. The main module is the one of the given
/// name, or the first where no name is given.
///
/// Else the first fault, in this order:
///
/// - `DuplicateModule` at the first module name that an earlier module has.
/// - `NoMain` where no module has the given name.
/// - The first of the following in the order of the text:
///   `DuplicateSignal` at a name that is declared a second time in one interface or after one `signal`, or
///   `RelationName` at a name in a relation that its module does not declare as an input or an inputoutput.
///
/// Names are found by their hashes, so the time and the memory are linear in the program.
///
/// Example: in `module M: input A, A; nothing end module` the fault is `DuplicateSignal` at the second `A`.
pub fn check_modules<'a>(
    alloc: Global,
    program: &'a Program,
    main: Option<&[u8]>,
) -> Result<ModuleTable<'a>, Stop<NameFault>>
    ensures table { IfOk result (IsTable (option_map (λ m. m.now) main.entry) (program_of program.now)) }
    ensures fault { IfFault result
        (IsFirst (name_faults (option_map (λ m. m.now) main.entry) (program_of program.now))) }
{
    let modules = module_name_set(alloc, &program.modules)?;
    let main = main_module(&modules, main)?;
    check_all(alloc, &program.modules)?;
    Ok(ModuleTable { main, modules })
}

// The names of the modules, none of which has the name of another.
fn module_name_set<'a>(alloc: Global, modules: &'a [Module]) -> Result<NameSet<'a>, Stop<NameFault>>
    ensures names { IfOk result (λ names. names ≡ module_names (map module_of modules.now)) }
    ensures differ { OnOk result
        (again faults.DuplicateModule [] (map (λ m. m.name) (map module_of modules.now)) ≡ []) }
    ensures fault { IfFault result
        (IsFirst (again faults.DuplicateModule [] (map (λ m. m.name) (map module_of modules.now)))) }
{
    let mut names = NameSet::new(alloc);
    for module in modules {
        if !names.insert(module.name.text.bytes())? {
            return Err(Stop::Fault(NameFault::DuplicateModule(module.name.span)));
        }
    }
    Ok(names)
}

// The place of the main module.
fn main_module(modules: &NameSet, main: Option<&[u8]>) -> Result<usize, Stop<NameFault>>
    ensures place { IfOk result (λ m. main_place (option_map (λ m. m.now) main.entry) modules.now ≡ Some m) }
    ensures fault { IfFault result
        (IsFirst (main_faults (main_place (option_map (λ m. m.now) main.entry) modules.now))) }
{
    let place = match main {
        Some(name) => modules.place(name),
        None => first_place(modules),
    };
    match place {
        Some(place) => Ok(place),
        None => Err(Stop::Fault(NameFault::NoMain)),
    }
}

// The first place, where there is a name.
fn first_place(names: &NameSet) -> Option<usize>
    ensures place { result ≡ main_place None names.now }
    ensures within { IfSome result (λ place. place < length names.now) }
{
    if names.is_empty() { None } else { Some(0) }
}

// That the names of all modules have no fault.
#[tactic(auto, using(crate::proofs::FirstFaults::firsts))]
fn check_all(alloc: Global, modules: &[Module]) -> Result<(), Stop<NameFault>>
    ensures faultless { OnOk result (flat_map module_faults (map module_of modules.now) ≡ []) }
    ensures fault { IfFault result (IsFirst (flat_map module_faults (map module_of modules.now))) }
{
    for module in modules {
        check_module(alloc, module)?;
    }
    Ok(())
}

// That the names of a module have no fault.
#[tactic(auto, using(crate::proofs::FirstFaults::firsts))]
fn check_module(alloc: Global, module: &Module) -> Result<(), Stop<NameFault>>
    ensures faultless { OnOk result (module_faults (module_of module.now) ≡ []) }
    ensures fault { IfFault result (IsFirst (module_faults (module_of module.now))) }
{
    check_interface(alloc, &module.decls)?;
    check_body(alloc, &module.body)?;
    Ok(())
}

// That no name is declared twice, and that relations speak of what may be given.
fn check_interface(alloc: Global, decls: &[Decl]) -> Result<(), Stop<NameFault>>
    ensures faultless { OnOk result (interface_faults (map decl_of decls.now) ≡ []) }
    ensures fault { IfFault result (IsFirst (interface_faults (map decl_of decls.now))) }
{
    let given = given_names(alloc, decls)?;
    check_decls(alloc, &given, decls)
}

// That no name stands twice after one `signal`.
fn check_body(alloc: Global, body: &Stmt) -> Result<(), Stop<NameFault>>
    ensures faultless { OnOk result (body_faults (stmt_of body.now) ≡ []) }
    ensures fault { IfFault result (IsFirst (body_faults (stmt_of body.now))) }
{
    let mut lists = Vec::new(alloc);
    push_lists(&mut lists, body)?;
    check_lists(alloc, lists.as_slice())
}

// The names of the signals that the environment may give.
fn given_names<'a>(alloc: Global, decls: &'a [Decl]) -> Result<NameSet<'a>, NoMemory>
    ensures { IfOk result (λ given. (name : List ℕ)
        → is_among name given ≡ is_among name (texts (flat_map given_in (map decl_of decls.now)))) }
{
    let mut given = NameSet::new(alloc);
    for decl in decls {
        match decl {
            Decl::Input(names) => add_names(&mut given, names)?,
            Decl::InputOutput(names) => add_names(&mut given, names)?,
            Decl::Output(_) => {}
            Decl::Relation(_) => {}
        }
    }
    Ok(given)
}

// Puts names into a set.
fn add_names<'a>(set: &mut NameSet<'a>, names: &'a [Name]) -> Result<(), NoMemory>
    ensures { OnOk result ((name : List ℕ) → is_among name set.new ≡ is_among name (set.old ++ texts names.now)) }
{
    for name in names {
        set.insert(name.text.bytes())?;
    }
    Ok(())
}

// That no name is declared twice, and each that is related is one of those given.
fn check_decls(alloc: Global, given: &NameSet, decls: &[Decl]) -> Result<(), Stop<NameFault>>
    ensures faultless { OnOk result (decl_faults given.now [] (map decl_of decls.now) ≡ []) }
    ensures fault { IfFault result (IsFirst (decl_faults given.now [] (map decl_of decls.now))) }
{
    let mut seen = NameSet::new(alloc);
    for decl in decls {
        match decl {
            Decl::Input(names) => add_new_names(&mut seen, names)?,
            Decl::InputOutput(names) => add_new_names(&mut seen, names)?,
            Decl::Output(names) => add_new_names(&mut seen, names)?,
            Decl::Relation(relations) => check_relations(given, relations)?,
        }
    }
    Ok(())
}

// Puts names into a set, none of which is in it before.
fn add_new_names<'a>(set: &mut NameSet<'a>, names: &'a [Name]) -> Result<(), Stop<NameFault>>
    ensures names { OnOk result (set.new ≡ set.old ++ texts names.now) }
    ensures differ { OnOk result (again faults.DuplicateSignal set.old names.now ≡ []) }
    ensures fault { IfFault result (IsFirst (again faults.DuplicateSignal set.old names.now)) }
{
    for name in names {
        if !set.insert(name.text.bytes())? {
            return Err(Stop::Fault(NameFault::DuplicateSignal(name.span)));
        }
    }
    Ok(())
}

// That each name in relations is one of those given.
fn check_relations(given: &NameSet, relations: &[Relation]) -> Result<(), Stop<NameFault>>
    ensures faultless { OnOk result
        (not_given given.now (flat_map names_of_relation (map relation_of relations.now)) ≡ []) }
    ensures fault { IfFault result
        (IsFirst (not_given given.now (flat_map names_of_relation (map relation_of relations.now)))) }
{
    for relation in relations {
        match relation {
            Relation::Implies(cause, effect) => {
                check_given(given, cause)?;
                check_given(given, effect)?;
            }
            Relation::Excludes(names) => check_all_given(given, names)?,
        }
    }
    Ok(())
}

// That each name is one of those given.
fn check_all_given(given: &NameSet, names: &[Name]) -> Result<(), Stop<NameFault>>
    ensures faultless { OnOk result (not_given given.now names.now ≡ []) }
    ensures fault { IfFault result (IsFirst (not_given given.now names.now)) }
{
    for name in names {
        check_given(given, name)?;
    }
    Ok(())
}

// That a name is one of those given.
fn check_given(given: &NameSet, name: &Name) -> Result<(), Stop<NameFault>>
    ensures faultless { OnOk result (not_given given.now (name.now ∷ []) ≡ []) }
    ensures fault { IfFault result (IsFirst (not_given given.now (name.now ∷ []))) }
{
    if !given.contains(name.text.bytes()) {
        return Err(Stop::Fault(NameFault::RelationName(name.span)));
    }
    Ok(())
}

// That in no list a name stands twice.
fn check_lists(alloc: Global, lists: &[&[Name]]) -> Result<(), Stop<NameFault>>
    ensures faultless { OnOk result (flat_map (again faults.DuplicateSignal []) (map (λ l. l.now) lists.now) ≡ []) }
    ensures fault { IfFault result
        (IsFirst (flat_map (again faults.DuplicateSignal []) (map (λ l. l.now) lists.now))) }
{
    for names in lists {
        add_new_names(&mut NameSet::new(alloc), names)?;
    }
    Ok(())
}
