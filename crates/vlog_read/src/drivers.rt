// Drivers: one `initial` and one `<=` for each reg, and one `assign` for each wire and each output.

ghost use Rattle.std.specs.Prelude.{◌≡◌, ℕ, List, [], map, find, not, IfOk};
ghost use Rattle.std.specs.HashSet.{contains_by};
ghost use Rattle.base_types.specs.Names.{is_same_name};
ghost use Rattle.net_ir.specs.NameLists.{is_among, first_again};
ghost use Rattle.net_expressions.specs.NameTables.{name_told};
ghost use Rattle.vlog_read.specs.Lexed.{plain_sort};
ghost use Rattle.vlog_text.specs.Names.{names_of, targets, driven_twice, undriven, declaration_found};
ghost use Rattle.vlog_text.specs.Views.{assign_of};
ghost use Rattle.vlog_read.specs.NameTests.{group_test};
ghost use Rattle.vlog_read.specs.NameTables.{AreDrivers, driven_in};
ghost use Rattle.vlog_read.specs.Sources.{declaration_of, initial_of, next_of, plain_source};

use crate::sources::{Declaration, Group, Initial, Next, Sort, Source, names_of};
use crate::uses::again_in;
use base_types::NoMemory;
use net_expressions::{name_set, name_table};
use std::alloc::Global;
use std::collections::HashSet;
use vlog_text::Assign;

// The first name that is driven a second time.
pub fn driven_twice<'a>(alloc: Global, source: &'a Source<'a>) -> Result<Option<&'a [u8]>, NoMemory>
    ensures { IfOk result (λ found. name_told found ≡ driven_twice (plain_source source.now)) }
{
    if let Some(name) = initial_again(alloc, &source.initials)? {
        return Ok(Some(name));
    }
    if let Some(name) = assigned_again(alloc, source)? {
        return Ok(Some(name));
    }
    next_again(alloc, &source.clocked.nexts)
}

// The first name that stands under `initial` a second time.
fn initial_again<'a>(alloc: Global, initials: &[Initial<'a>]) -> Result<Option<&'a [u8]>, NoMemory>
    ensures { IfOk result
        (λ found. name_told found ≡ first_again [] (map (λ i. i.name) (map initial_of initials.now))) }
{
    let names = initial_names(alloc, initials)?;
    again_in(alloc, &names)
}

// The first name under `assign` that is an input or a reg, or is there a second time.
fn assigned_again<'a>(alloc: Global, source: &'a Source<'a>) -> Result<Option<&'a [u8]>, NoMemory>
    ensures { IfOk result (λ found. name_told found
        ≡ first_again (names_of (group_test Group.Driven) (plain_source source.now).declarations)
        (targets (plain_source source.now).assigns)) }
{
    let driven = driven_names(alloc, &source.declarations)?;
    let names = targets(alloc, &source.assigns)?;
    let table = name_table(alloc, &driven, &names)?;
    Ok(table.again)
}

// The names that are driven without an `assign`.
fn driven_names<'a>(
    alloc: Global,
    declarations: &[Declaration<'a>],
) -> Result<HashSet<&'a [u8]>, NoMemory>
    ensures { IfOk result (λ s. (n : List ℕ) → contains_by (λ k. is_same_name n k.now) s
        ≡ is_among n (names_of (group_test Group.Driven) (map declaration_of declarations.now))) }
{
    let names = names_of(alloc, Group::Driven, declarations)?;
    name_set(alloc, &names)
}

// The first name that stands left of `<=` a second time.
fn next_again<'a>(alloc: Global, nexts: &[Next<'a>]) -> Result<Option<&'a [u8]>, NoMemory>
    ensures { IfOk result
        (λ found. name_told found ≡ first_again [] (map (λ n. n.target) (map next_of nexts.now))) }
{
    let names = next_names(alloc, nexts)?;
    again_in(alloc, &names)
}

// The names that have a driver of each kind.
#[derive(Drop)]
struct Drivers<'a> {
    initials: HashSet<&'a [u8]>,
    assigned: HashSet<&'a [u8]>,
    clocked: HashSet<&'a [u8]>,
}

// The first declared name without its drivers.
pub fn undriven<'a>(alloc: Global, source: &'a Source<'a>) -> Result<Option<&'a [u8]>, NoMemory>
    ensures { IfOk result (λ found. name_told found ≡ undriven (plain_source source.now)) }
{
    let drivers = drivers_in(alloc, source)?;
    Ok(first_undriven(&drivers, &source.declarations))
}

fn drivers_in<'a>(alloc: Global, source: &'a Source<'a>) -> Result<Drivers<'a>, NoMemory>
    ensures { IfOk result (AreDrivers (plain_source source.now)) }
{
    Ok(Drivers {
        initials: initial_set(alloc, &source.initials)?,
        assigned: target_set(alloc, &source.assigns)?,
        clocked: next_set(alloc, &source.clocked.nexts)?,
    })
}

fn initial_set<'a>(alloc: Global, initials: &[Initial<'a>]) -> Result<HashSet<&'a [u8]>, NoMemory>
    ensures { IfOk result (λ s. (n : List ℕ) → contains_by (λ k. is_same_name n k.now) s
        ≡ is_among n (map (λ i. i.name) (map initial_of initials.now))) }
{
    let names = initial_names(alloc, initials)?;
    name_set(alloc, &names)
}

fn target_set<'a>(alloc: Global, assigns: &'a [Assign]) -> Result<HashSet<&'a [u8]>, NoMemory>
    ensures { IfOk result (λ s. (n : List ℕ) → contains_by (λ k. is_same_name n k.now) s
        ≡ is_among n (targets (map assign_of assigns.now))) }
{
    let names = targets(alloc, assigns)?;
    name_set(alloc, &names)
}

fn next_set<'a>(alloc: Global, nexts: &[Next<'a>]) -> Result<HashSet<&'a [u8]>, NoMemory>
    ensures { IfOk result (λ s. (n : List ℕ) → contains_by (λ k. is_same_name n k.now) s
        ≡ is_among n (map (λ n. n.target) (map next_of nexts.now))) }
{
    let names = next_names(alloc, nexts)?;
    name_set(alloc, &names)
}

fn first_undriven<'a>(drivers: &Drivers<'_>, declarations: &[Declaration<'a>]) -> Option<&'a [u8]>
    ensures { name_told result ≡ declaration_found (find (λ d. not (driven_in drivers.now d.sort d.name))
        (map declaration_of declarations.now)) }
{
    for declaration in declarations {
        if !is_driven(drivers, *declaration) {
            return Some(declaration.name);
        }
    }
    None
}

// Whether a declared name has its drivers.
fn is_driven(drivers: &Drivers<'_>, declaration: Declaration<'_>) -> bool
    ensures { result ≡ driven_in drivers.now (plain_sort declaration.entry.sort) declaration.entry.name.now }
{
    let name = declaration.name;
    match declaration.sort {
        Sort::Input => true,
        Sort::Reg => drivers.initials.contains(name) && drivers.clocked.contains(name),
        Sort::Wire | Sort::Output => drivers.assigned.contains(name),
    }
}

// The names under `initial`.
fn initial_names<'a>(alloc: Global, initials: &[Initial<'a>]) -> Result<Vec<&'a [u8]>, NoMemory>
    ensures { IfOk result (λ v. map (λ w. w.now) v.items ≡ map (λ i. i.name) (map initial_of initials.now)) }
{
    let mut names = Vec::new(alloc);
    for initial in initials {
        names.push(initial.name)?;
    }
    Ok(names)
}

// The names under `assign`.
fn targets<'a>(alloc: Global, assigns: &'a [Assign]) -> Result<Vec<&'a [u8]>, NoMemory>
    ensures { IfOk result (λ v. map (λ w. w.now) v.items ≡ targets (map assign_of assigns.now)) }
{
    let mut names = Vec::new(alloc);
    for assign in assigns {
        names.push(assign.to.bytes())?;
    }
    Ok(names)
}

// The names left of `<=`.
fn next_names<'a>(alloc: Global, nexts: &[Next<'a>]) -> Result<Vec<&'a [u8]>, NoMemory>
    ensures { IfOk result (λ v. map (λ w. w.now) v.items ≡ map (λ n. n.target) (map next_of nexts.now)) }
{
    let mut names = Vec::new(alloc);
    for next in nexts {
        names.push(next.target)?;
    }
    Ok(names)
}
