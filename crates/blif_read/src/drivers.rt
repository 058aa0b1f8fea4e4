// Which names are driven and which are used.

ghost use Rattle.std.specs.Prelude.{◌≡◌, ℕ, List, [], ◌++◌, None, map, flat_map, find, not, IfOk, OnOk};
ghost use Rattle.std.specs.HashSet.{contains_by};
ghost use Rattle.base_types.specs.Names.{is_same_name};
ghost use Rattle.base_types.specs.Stops.{IfFault};
ghost use Rattle.net_ir.specs.NameLists.{is_among, first_again};
ghost use Rattle.blif_text.specs.Circuits.{driven_by, used_by, driven_again, not_driven};
ghost use Rattle.blif_read.specs.PlainStatements.{plain_statement, DriverFault, AgainFault, FoundFault};

use crate::fault::BlifFault;
use crate::statements::Statement;
use base_types::{NoMemory, Stop, Text};
use std::alloc::Global;
use std::collections::HashSet;

// That each name is driven once at most, and each one that is used is driven.
pub fn check_drivers(alloc: Global, statements: &[Statement]) -> Result<(), Stop<BlifFault>>
    ensures once { OnOk result (driven_again (map plain_statement statements.now) ≡ None) }
    ensures driven { OnOk result (not_driven (map plain_statement statements.now) ≡ None) }
    ensures fault { IfFault result (DriverFault (map plain_statement statements.now)) }
{
    let driven = driver_set(alloc, &driven_names(alloc, statements)?)?;
    check_used(alloc, &driven, &used_names(alloc, statements)?)
}

// The set of some names that are driven, where none stands twice.
fn driver_set<'a>(alloc: Global, names: &[&'a [u8]]) -> Result<HashSet<&'a [u8]>, Stop<BlifFault>>
    ensures once { OnOk result (first_again [] (map (λ w. w.now) names.now) ≡ None) }
    ensures members { IfOk result
        (λ set. (name : List ℕ) → contains_by (λ k. is_same_name name k.now) set
        ≡ is_among name (map (λ w. w.now) names.now)) }
    ensures fault { IfFault result (AgainFault (map (λ w. w.now) names.now)) }
{
    let mut set = HashSet::new(alloc);
    for name in names {
        if !set.insert(*name)? {
            let copy = Text::from_bytes(alloc, name)?;
            return Err(Stop::Fault(BlifFault::TwoDrivers(copy)));
        }
    }
    Ok(set)
}

// That each of some names is driven.
fn check_used(alloc: Global, driven: &HashSet<&[u8]>, used: &[&[u8]]) -> Result<(), Stop<BlifFault>>
    ensures all { OnOk result
        (find (λ name. not (contains_by (λ k. is_same_name name k.now) driven.now)) (map (λ w. w.now) used.now)
        ≡ None) }
    ensures fault { IfFault result
        (FoundFault (λ name. not (contains_by (λ k. is_same_name name k.now) driven.now))
        (map (λ w. w.now) used.now)) }
{
    for name in used {
        if !driven.contains(*name) {
            let copy = Text::from_bytes(alloc, name)?;
            return Err(Stop::Fault(BlifFault::NoDriver(copy)));
        }
    }
    Ok(())
}

// The names that statements drive, in the order of the text.
fn driven_names<'a>(alloc: Global, statements: &'a [Statement]) -> Result<Vec<&'a [u8]>, NoMemory>
    ensures { IfOk result (λ v. map (λ w. w.now) v.items ≡ flat_map driven_by (map plain_statement statements.now)) }
{
    let mut names = Vec::new(alloc);
    for statement in statements {
        match statement {
            Statement::Inputs(inputs) => push_names(&mut names, inputs)?,
            Statement::Latch(latch) => names.push(latch.to.bytes())?,
            Statement::Names(_, output) => names.push(output.bytes())?,
            _ => {}
        }
    }
    Ok(names)
}

// The names that statements use, in the order of the text.
fn used_names<'a>(alloc: Global, statements: &'a [Statement]) -> Result<Vec<&'a [u8]>, NoMemory>
    ensures { IfOk result (λ v. map (λ w. w.now) v.items ≡ flat_map used_by (map plain_statement statements.now)) }
{
    let mut names = Vec::new(alloc);
    for statement in statements {
        match statement {
            Statement::Outputs(outputs) => push_names(&mut names, outputs)?,
            Statement::Latch(latch) => names.push(latch.from.bytes())?,
            Statement::Names(inputs, _) => push_names(&mut names, inputs)?,
            _ => {}
        }
    }
    Ok(names)
}

fn push_names<'a>(names: &mut Vec<&'a [u8]>, more: &'a [Text]) -> Result<(), NoMemory>
    ensures { OnOk result (map (λ w. w.now) names.new.items ≡ map (λ w. w.now) names.old.items ++ more.now) }
{
    for name in more {
        names.push(name.bytes())?;
    }
    Ok(())
}
