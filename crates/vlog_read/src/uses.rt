// Names that are declared, and names that are used.

ghost use Rattle.std.specs.Prelude.{◌≡◌, ◌++◌, ℕ, List, [], map, flat_map, find, IfOk, OnOk};
ghost use Rattle.std.specs.HashSet.{contains_by};
ghost use Rattle.base_types.specs.Names.{is_same_name};
ghost use Rattle.net_ir.specs.NameLists.{is_among, first_again};
ghost use Rattle.net_expressions.specs.Names.{names_in};
ghost use Rattle.net_expressions.specs.NameTables.{name_told};
ghost use Rattle.net_expressions.specs.Views.{expr_of};
ghost use Rattle.vlog_text.specs.Names.{names_of, declared, declared_twice, undeclared, uses, used_name, use_found};
ghost use Rattle.vlog_text.specs.Names.{Kept, Taken, assign_uses, next_uses};
ghost use Rattle.vlog_text.specs.Views.{assign_of};
ghost use Rattle.vlog_read.specs.NameTables.{AreKnown, wrong_in};
ghost use Rattle.vlog_read.specs.NameTests.{group_test, is_told, use_of};
ghost use Rattle.vlog_read.specs.Sources.{declaration_of, initial_of, next_of, plain_source};

use crate::ports::first_input;
use crate::sources::{Declaration, Group, Initial, Next, Source, names_of};
use base_types::NoMemory;
use net_expressions::{Expr, name_set, name_table, names_in};
use std::alloc::Global;
use std::collections::HashSet;
use vlog_text::Assign;

// A reg under `initial` or left of `<=`, a name under `assign`, or a name whose value is taken.
#[derive(Clone, Copy)]
pub enum Use<'a> {
    Kept(&'a [u8]),
    Assigned(&'a [u8]),
    Taken(&'a [u8]),
}

// The first name that is declared a second time.
pub fn declared_twice<'a>(alloc: Global, source: &Source<'a>) -> Result<Option<&'a [u8]>, NoMemory>
    ensures { IfOk result (λ found. name_told found ≡ declared_twice (plain_source source.now)) }
{
    let names = declared_names(alloc, &source.declarations)?;
    again_in(alloc, &names)
}

// The first of some names that stands a second time.
pub fn again_in<'a>(alloc: Global, names: &[&'a [u8]]) -> Result<Option<&'a [u8]>, NoMemory>
    ensures { IfOk result (λ found. name_told found ≡ first_again [] (map (λ w. w.now) names.now)) }
{
    let none = HashSet::new(alloc);
    let table = name_table(alloc, &none, names)?;
    Ok(table.again)
}

// All declared names.
fn declared_names<'a>(
    alloc: Global,
    declarations: &[Declaration<'a>],
) -> Result<Vec<&'a [u8]>, NoMemory>
    ensures { IfOk result (λ v. map (λ w. w.now) v.items ≡ declared (map declaration_of declarations.now)) }
{
    let mut names = Vec::new(alloc);
    for declaration in declarations {
        names.push(declaration.name)?;
    }
    Ok(names)
}

// The names that are known: the regs, all that are declared, and the clock.
#[derive(Drop)]
pub struct Known<'a> {
    regs: HashSet<&'a [u8]>,
    declared: HashSet<&'a [u8]>,
    clock: Option<&'a [u8]>,
}

// The first name that is used and may not be so used.
pub fn undeclared<'a>(alloc: Global, source: &'a Source<'a>) -> Result<Option<&'a [u8]>, NoMemory>
    ensures { IfOk result (λ found. name_told found ≡ undeclared (plain_source source.now)) }
{
    let known = known_names(alloc, &source.declarations)?;
    let uses = uses(alloc, source)?;
    Ok(first_wrong(&known, &uses))
}

fn known_names<'a>(alloc: Global, declarations: &[Declaration<'a>]) -> Result<Known<'a>, NoMemory>
    ensures { IfOk result (AreKnown (map declaration_of declarations.now)) }
{
    Ok(Known {
        regs: reg_set(alloc, declarations)?,
        declared: declared_set(alloc, declarations)?,
        clock: first_input(declarations),
    })
}

fn reg_set<'a>(
    alloc: Global,
    declarations: &[Declaration<'a>],
) -> Result<HashSet<&'a [u8]>, NoMemory>
    ensures { IfOk result (λ s. (n : List ℕ) → contains_by (λ k. is_same_name n k.now) s
        ≡ is_among n (names_of (group_test Group.Regs) (map declaration_of declarations.now))) }
{
    let names = names_of(alloc, Group::Regs, declarations)?;
    name_set(alloc, &names)
}

fn declared_set<'a>(
    alloc: Global,
    declarations: &[Declaration<'a>],
) -> Result<HashSet<&'a [u8]>, NoMemory>
    ensures { IfOk result (λ s. (n : List ℕ) → contains_by (λ k. is_same_name n k.now) s
        ≡ is_among n (declared (map declaration_of declarations.now))) }
{
    let names = declared_names(alloc, declarations)?;
    name_set(alloc, &names)
}

// The name of the first use that is wrong.
fn first_wrong<'a>(known: &Known<'_>, uses: &[Use<'a>]) -> Option<&'a [u8]>
    ensures { name_told result ≡ use_found (find (wrong_in known.now) (map use_of uses.now)) }
{
    for place in uses {
        if is_wrong(known, *place) {
            return Some(used_name(*place));
        }
    }
    None
}

fn is_wrong(known: &Known<'_>, place: Use<'_>) -> bool
    ensures { result ≡ wrong_in known.now (use_of place.entry) }
{
    match place {
        Use::Kept(name) => !known.regs.contains(name),
        Use::Assigned(name) => !known.declared.contains(name),
        Use::Taken(name) => !known.declared.contains(name) || is_name_of(known.clock, name),
    }
}

// Whether a name is the one that there may be.
pub fn is_name_of(told: Option<&[u8]>, name: &[u8]) -> bool
    ensures { result ≡ is_told (name_told told.entry) name.now }
{
    match told {
        Some(one) => name == one,
        None => false,
    }
}

fn used_name<'a>(place: Use<'a>) -> &'a [u8]
    ensures { result.now ≡ used_name (use_of place.entry) }
{
    match place {
        Use::Kept(name) => name,
        Use::Assigned(name) => name,
        Use::Taken(name) => name,
    }
}

// The uses of names in a source, in the order of the text.
fn uses<'a>(alloc: Global, source: &'a Source<'a>) -> Result<Vec<Use<'a>>, NoMemory>
    ensures { IfOk result (λ v. map use_of v.items ≡ uses (plain_source source.now)) }
{
    let mut uses = Vec::new(alloc);
    push_kept(&mut uses, &source.initials)?;
    push_assigned(alloc, &mut uses, &source.assigns)?;
    push_clocked(&mut uses, &source.clocked.nexts)?;
    Ok(uses)
}

// The names under `initial` are kept.
fn push_kept<'a>(uses: &mut Vec<Use<'a>>, initials: &[Initial<'a>]) -> Result<(), NoMemory>
    ensures { OnOk result (map use_of uses.new.items
        ≡ map use_of uses.old.items ++ map (λ i. Kept i.name) (map initial_of initials.now)) }
{
    for initial in initials {
        uses.push(Use::Kept(initial.name))?;
    }
    Ok(())
}

// The names under `assign` are assigned, and the names in their expressions are taken.
fn push_assigned<'a>(
    alloc: Global,
    uses: &mut Vec<Use<'a>>,
    assigns: &'a [Assign],
) -> Result<(), NoMemory>
    ensures { OnOk result (map use_of uses.new.items
        ≡ map use_of uses.old.items ++ flat_map assign_uses (map assign_of assigns.now)) }
{
    for assign in assigns {
        uses.push(Use::Assigned(assign.to.bytes()))?;
        push_taken(alloc, uses, &assign.value)?;
    }
    Ok(())
}

// The names left of `<=` are kept, and those right of it are taken.
fn push_clocked<'a>(uses: &mut Vec<Use<'a>>, nexts: &[Next<'a>]) -> Result<(), NoMemory>
    ensures { OnOk result (map use_of uses.new.items
        ≡ map use_of uses.old.items ++ flat_map next_uses (map next_of nexts.now)) }
{
    for next in nexts {
        uses.push(Use::Kept(next.target))?;
        uses.push(Use::Taken(next.source))?;
    }
    Ok(())
}

// The names in an expression are taken.
fn push_taken<'a>(alloc: Global, uses: &mut Vec<Use<'a>>, value: &'a Expr) -> Result<(), NoMemory>
    ensures { OnOk result (map use_of uses.new.items
        ≡ map use_of uses.old.items ++ map Taken (names_in (expr_of value.now))) }
{
    let names = names_in(alloc, value)?;
    for name in &names {
        uses.push(Use::Taken(*name))?;
    }
    Ok(())
}
