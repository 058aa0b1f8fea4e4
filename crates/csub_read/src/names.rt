// The rules on names.

ghost use Rattle.std.specs.Prelude.{◌≡◌, ◌++◌, ◌&&◌, ℕ, List, [], map, find, not, None, IfOk, OnOk};
ghost use Rattle.std.specs.HashSet.{contains_by};
ghost use Rattle.base_types.specs.Names.{is_same_name};
ghost use Rattle.base_types.specs.Stops.{IfFault};
ghost use Rattle.net_ir.specs.NameLists.{is_among, first_again};
ghost use Rattle.csub_text.specs.Names.{Taken, names_in, uses, unset, used_name};
ghost use Rattle.csub_text.specs.Names.{name_fault};
ghost use Rattle.csub_text.specs.Views.{expr_of, program_of};
ghost use Rattle.csub_read.specs.NameTests.{use_of, wrong_use, NamesFault, AgainFault, UseFault, UnsetFault};

use crate::refusal::CFault;
use base_types::{NoMemory, Stop, Text};
use csub_text::{CProgram, begins_input, declared_names};
use net_expressions::{Expr, names_in};
use std::alloc::Global;
use std::collections::HashSet;

// A name that is assigned, or one that is read.
#[derive(Clone, Copy)]
pub enum Use<'a> {
    Assigned(&'a [u8]),
    Taken(&'a [u8]),
}

// That a program keeps the rules on names.
pub fn check_names(alloc: Global, program: &CProgram) -> Result<(), Stop<CFault>>
    ensures fit { OnOk result (name_fault (program_of program.now) ≡ None) }
    ensures fault { IfFault result (NamesFault (program_of program.now)) }
{
    let declared = declared_names(alloc, program)?;
    let known = name_set(alloc, &declared)?;
    check_uses(alloc, &known, &uses(alloc, program)?)?;
    check_reads(alloc, program)
}

// The set of some names, where none stands twice.
fn name_set<'a>(alloc: Global, names: &[&'a [u8]]) -> Result<HashSet<&'a [u8]>, Stop<CFault>>
    ensures once { OnOk result (first_again [] (map (λ w. w.now) names.now) ≡ None) }
    ensures members { IfOk result
        (λ set. (name : List ℕ) → contains_by (λ k. is_same_name name k.now) set
        ≡ is_among name (map (λ w. w.now) names.now)) }
    ensures fault { IfFault result (AgainFault (map (λ w. w.now) names.now)) }
{
    let mut set = HashSet::new(alloc);
    for name in names {
        if !set.insert(*name)? {
            let copy = Text::from_bytes(alloc, name)?;
            return Err(Stop::Fault(CFault::Twice(copy)));
        }
    }
    Ok(set)
}

// That each name that is used is one of these, and no input is assigned.
fn check_uses(alloc: Global, known: &HashSet<&[u8]>, uses: &[Use<'_>]) -> Result<(), Stop<CFault>>
    ensures all { OnOk result
        (find (wrong_use (λ name. contains_by (λ k. is_same_name name k.now) known.now)) (map use_of uses.now) ≡ None) }
    ensures fault { IfFault result
        (UseFault (wrong_use (λ name. contains_by (λ k. is_same_name name k.now) known.now)) (map use_of uses.now)) }
{
    for place in uses {
        if is_wrong(known, *place) {
            let copy = Text::from_bytes(alloc, used_name(*place))?;
            return Err(Stop::Fault(CFault::Undeclared(copy)));
        }
    }
    Ok(())
}

// Whether a name is none of these, or an input that is assigned.
fn is_wrong(known: &HashSet<&[u8]>, place: Use<'_>) -> bool
    ensures { result ≡ wrong_use (λ name. contains_by (λ k. is_same_name name k.now) known.now) (use_of place.entry) }
{
    match place {
        Use::Assigned(name) => begins_input(name) || !known.contains(name),
        Use::Taken(name) => !known.contains(name),
    }
}

fn used_name<'a>(place: Use<'a>) -> &'a [u8]
    ensures { result.now ≡ used_name (use_of place.entry) }
{
    match place {
        Use::Assigned(name) => name,
        Use::Taken(name) => name,
    }
}

// The uses of names in a program, in the order of the text.
fn uses<'a>(alloc: Global, program: &'a CProgram) -> Result<Vec<Use<'a>>, NoMemory>
    ensures { IfOk result (λ v. map use_of v.items ≡ uses (program_of program.now)) }
{
    let mut uses = Vec::new(alloc);
    for assign in &program.body {
        uses.push(Use::Assigned(assign.to.bytes()))?;
        push_taken(alloc, &mut uses, &assign.value)?;
    }
    push_taken(alloc, &mut uses, &program.answer)?;
    Ok(uses)
}

// The names in an expression are read.
fn push_taken<'a>(alloc: Global, uses: &mut Vec<Use<'a>>, value: &'a Expr) -> Result<(), NoMemory>
    ensures { OnOk result (map use_of uses.new.items
        ≡ map use_of uses.old.items ++ map Taken (names_in (expr_of value.now))) }
{
    let names = names_in(alloc, value)?;
    for name in &names {
        uses.push(Use::Taken(*name))?;
    }
    Ok(())
}

// That no local is read before it is assigned.
fn check_reads(alloc: Global, program: &CProgram) -> Result<(), Stop<CFault>>
    ensures all { OnOk result (unset (program_of program.now) ≡ None) }
    ensures fault { IfFault result (UnsetFault (unset (program_of program.now))) }
{
    let locals = local_set(alloc, &program.locals)?;
    let mut assigned = HashSet::new(alloc);
    for assign in &program.body {
        check_set(alloc, &locals, &assigned, &assign.value)?;
        assigned.insert(assign.to.bytes())?;
    }
    check_set(alloc, &locals, &assigned, &program.answer)
}

fn local_set<'a>(alloc: Global, locals: &'a [Text]) -> Result<HashSet<&'a [u8]>, NoMemory>
    ensures { IfOk result
        (λ set. (name : List ℕ) → contains_by (λ k. is_same_name name k.now) set ≡ is_among name locals.now) }
{
    let mut set = HashSet::new(alloc);
    for name in locals {
        set.insert(name.bytes())?;
    }
    Ok(set)
}

// That an expression reads no local but those that are assigned.
fn check_set(
    alloc: Global,
    locals: &HashSet<&[u8]>,
    assigned: &HashSet<&[u8]>,
    value: &Expr,
) -> Result<(), Stop<CFault>>
    ensures all { OnOk result
        (find (λ name. contains_by (λ k. is_same_name name k.now) locals.now
        && not (contains_by (λ k. is_same_name name k.now) assigned.now)) (names_in (expr_of value.now)) ≡ None) }
    ensures fault { IfFault result
        (UnsetFault (find (λ name. contains_by (λ k. is_same_name name k.now) locals.now
        && not (contains_by (λ k. is_same_name name k.now) assigned.now)) (names_in (expr_of value.now)))) }
{
    let names = names_in(alloc, value)?;
    for name in &names {
        if locals.contains(*name) && !assigned.contains(*name) {
            let copy = Text::from_bytes(alloc, name)?;
            return Err(Stop::Fault(CFault::Unset(copy)));
        }
    }
    Ok(())
}
