// What a `run` leads to, and what the names of the module that it runs mean there.

ghost use Rattle.std.specs.Prelude.{◌≡◌, ℕ, List, [], ◌∷◌, ◌++◌, map, Some, is_some, not, ◌&&◌, IfOk};
ghost use Rattle.std.specs.Option.{option_or};
ghost use Rattle.est_ast.specs.Views.{module_of};
ghost use Rattle.est_names.specs.Names.{is_among};
ghost use Rattle.est_expand.specs.Answers.{fault_of, AnswersAsDefined};
ghost use Rattle.est_expand.specs.Faults.{Recursive as recursion_fault, Unbound as unbound_fault};
ghost use Rattle.est_expand.specs.Runs.{module_named, chain_with, formal_names, renamed, opened};
ghost use Rattle.est_expand.specs.Scopes.{meaning, interface};
ghost use Rattle.est_expand.specs.Tests.{found_or};
ghost use Rattle.est_expand.specs.Views.{program_in, formal_of};
ghost use Rattle.est_expand.specs.Walks.{on_ok};

use crate::expressions::signal;
use crate::interface::{Formal, formals};
use crate::place::Source;
use crate::refusal::{ExpandFault, ScopeFault};
use crate::scope::{Meaning, Scope};
use base_types::{NoMemory, Span, Text};
use est_ast::{Module, Name, Rename};
use est_names::NameSet;
use std::alloc::Global;

/// The module of this name.
#[inline(never)]
pub fn module_named<'a>(source: &Source<'a>, name: &Name) -> Result<&'a Module, ExpandFault>
    ensures { AnswersAsDefined (λ m. module_of m.now) result (module_named (program_in source.now) name.now) }
{
    match source.table.find(name.text.bytes()) {
        Some(place) => Ok(&source.modules[place]),
        None => Err(ExpandFault::Scope(ScopeFault::UnknownModule(name.span))),
    }
}

/// Enters the module of this name, unless the place is in it already.
#[inline(never)]
pub fn enter<'a>(alloc: Global, chain: &mut NameSet<'a>, name: &'a Name) -> Result<(), ExpandFault>
    ensures { AnswersAsDefined (λ _. chain.new) result (chain_with chain.old name.now) }
{
    if chain.contains(name.text.bytes()) {
        return Err(recursion(alloc, chain, name)?);
    }
    chain.insert(name.text.bytes())?;
    Ok(())
}

// The fault of a module that leads back to one that it is in.
fn recursion(alloc: Global, chain: &NameSet, name: &Name) -> Result<ExpandFault, NoMemory>
    ensures { IfOk result (λ fault. fault_of fault
        ≡ Some (recursion_fault name.now.span (chain.now ++ name.now.text ∷ []))) }
{
    let mut names = chain.texts(alloc)?;
    names.push(Text::from_bytes(alloc, name.text.bytes())?)?;
    Ok(ExpandFault::Scope(ScopeFault::Recursive(name.span, names)))
}

/// The scope of the body of a module that is run with these renamings.
#[inline(never)]
pub fn module_scope<'a>(
    alloc: Global,
    scope: &Scope<'a>,
    name: &Name,
    module: &'a Module,
    renames: &'a [Rename],
) -> Result<Scope<'a>, ExpandFault>
    ensures { AnswersAsDefined (λ inner. inner) result
        (on_ok (renamed (interface (module_of module.now)) scope.now [] renames.now)
        (λ given. opened name.now.span scope.now given [] (interface (module_of module.now)))) }
{
    let formals = formals(alloc, module)?;
    let given = given_formals(alloc, scope, &formals, renames)?;
    opened(alloc, name.span, scope, &given, &formals)
}

// The formals that are renamed, with what their actuals mean.
fn given_formals<'a>(
    alloc: Global,
    scope: &Scope<'a>,
    formals: &[Formal<'a>],
    renames: &'a [Rename],
) -> Result<Scope<'a>, ExpandFault>
    ensures { AnswersAsDefined (λ given. given) result (renamed (map formal_of formals.now) scope.now [] renames.now) }
{
    let shown = shown_names(alloc, formals)?;
    let mut given = Scope::new(alloc);
    for rename in renames {
        let formal = rename.formal.text.bytes();
        if !is_free(&shown, &given, formal) {
            return Err(ExpandFault::Scope(ScopeFault::BadRename(rename.formal.span)));
        }
        let actual = signal(scope, &rename.actual)?;
        given.bind(formal, actual)?;
    }
    Ok(given)
}

// Whether a formal is shown, and not given yet.
fn is_free(shown: &NameSet, given: &Scope, formal: &[u8]) -> bool
    ensures { result ≡ (is_among formal.now shown.now && not (is_some (meaning given.now formal.now))) }
{
    shown.contains(formal) && given.find(formal).is_none()
}

// The names of formals.
fn shown_names<'a>(alloc: Global, formals: &[Formal<'a>]) -> Result<NameSet<'a>, NoMemory>
    ensures { IfOk result (λ shown. (name : List ℕ)
        → is_among name shown ≡ is_among name (formal_names (map formal_of formals.now))) }
{
    let mut shown = NameSet::new(alloc);
    for formal in formals {
        shown.insert(formal.name)?;
    }
    Ok(shown)
}

// The scope of a module's body, where these formals are renamed.
fn opened<'a>(
    alloc: Global,
    place: Span,
    scope: &Scope<'a>,
    given: &Scope<'a>,
    formals: &[Formal<'a>],
) -> Result<Scope<'a>, ExpandFault>
    ensures { AnswersAsDefined (λ inner. inner) result
        (opened place scope.now given.now [] (map formal_of formals.now)) }
{
    let mut inner = Scope::new(alloc);
    for formal in formals {
        let actual = actual(alloc, place, scope, given, formal.name)?;
        let signal = actual.signal;
        let input = formal.input;
        inner.bind(formal.name, Meaning { signal, input })?;
    }
    Ok(inner)
}

// What a formal means.
fn actual(
    alloc: Global,
    place: Span,
    scope: &Scope,
    given: &Scope,
    formal: &[u8],
) -> Result<Meaning, ExpandFault>
    ensures { AnswersAsDefined (λ actual. actual) result (found_or (unbound_fault place formal.now)
        (option_or (meaning given.now formal.now) (meaning scope.now formal.now))) }
{
    match given.find(formal).or(scope.find(formal)) {
        Some(actual) => Ok(actual),
        None => Err(ExpandFault::Scope(ScopeFault::Unbound(
            place,
            Text::from_bytes(alloc, formal)?,
        ))),
    }
}
