// Places where locals are assigned, and where they are read.

ghost use Rattle.std.specs.Prelude.{◌≡◌, ℕ, List, [], ◌∷◌, None, map, IfOk, OnOk, IsTrue};
ghost use Rattle.std.specs.HashMap.{get_by};
ghost use Rattle.std.specs.HashSet.{contains_by};
ghost use Rattle.csub_guard.specs.Names.{assigned_again, unset, first_breaking};
ghost use Rattle.csub_guard.specs.Views.{program_of};
ghost use Rattle.base_types.specs.Names.{is_same_name};
ghost use Rattle.net_expressions.specs.NameTables.{name_told};
ghost use Rattle.csub_guard_read.specs.Uses.{use_of};
ghost use Rattle.csub_guard_read.specs.Tables.{puts_told, again_in, unset_in, noted, again_by, unset_by, first_of};

use crate::table::{Puts, clashes, is_outside, is_set, joined};
use crate::undeclared::local_set;
use crate::uses::{Order, Use, used_name, uses};
use base_types::NoMemory;
use csub_guard::GuardedProgram;
use std::alloc::Global;
use std::collections::{HashMap, HashSet};

// The first local that is assigned at a second place; where there is none, the first that is read too early.
#[derive(Clone, Copy)]
pub struct Misplaced<'a> {
    pub again: Option<&'a [u8]>,
    pub unset: Option<&'a [u8]>,
}

// The misplaced locals of a program.
pub fn misplaced_locals<'a>(
    alloc: Global,
    program: &'a GuardedProgram,
) -> Result<Misplaced<'a>, NoMemory>
    ensures again { IfOk result (λ m. name_told m.again ≡ assigned_again (program_of program.now)) }
    ensures unset { IfOk result (λ m. m.again ≡ None → name_told m.unset ≡ unset (program_of program.now)) }
{
    let locals = local_set(alloc, &program.locals)?;
    let uses = uses(alloc, Order::Made, program)?;
    misplaced_among(alloc, &locals, &uses)
}

// The misplaced ones of these locals.
fn misplaced_among<'a>(
    alloc: Global,
    locals: &HashSet<&[u8]>,
    uses: &[Use<'a>],
) -> Result<Misplaced<'a>, NoMemory>
    ensures again { IfOk result (λ m. name_told m.again
        ≡ first_breaking (again_by (λ n. contains_by (λ k. is_same_name n k.now) locals.now)) []
        (map use_of uses.now)) }
    ensures unset { IfOk result (λ m. m.again ≡ None → name_told m.unset
        ≡ first_breaking (unset_by (λ n. contains_by (λ k. is_same_name n k.now) locals.now)) []
        (map use_of uses.now)) }
{
    let mut puts = HashMap::new(alloc);
    let mut unset = None;
    for place in uses {
        if is_again(locals, &puts, *place) {
            return Ok(Misplaced {
                again: Some(used_name(*place)),
                unset: None,
            });
        }
        unset = first_of(unset, is_unset(locals, &puts, *place), *place);
        note(&mut puts, *place)?;
    }
    Ok(Misplaced { again: None, unset })
}

// The name that was found, or else that of this use if it is one.
fn first_of<'a>(found: Option<&'a [u8]>, is: bool, place: Use<'a>) -> Option<&'a [u8]>
    ensures { name_told result ≡ first_of (name_told found.entry) is (use_of place.entry) }
{
    match found {
        Some(name) => Some(name),
        None => { if is { Some(used_name(place)) } else { None } }
    }
}

// Whether a local is assigned at a second place.
fn is_again(locals: &HashSet<&[u8]>, puts: &HashMap<&[u8], Puts<'_>>, place: Use<'_>) -> bool
    ensures { result ≡ again_in (λ n. contains_by (λ k. is_same_name n k.now) locals.now)
        (λ n. puts_told (get_by (λ k. is_same_name n k.now) puts.now)) (use_of place.entry) }
{
    match place {
        Use::Put(name, at) => locals.contains(name) && clashes(puts.get(name).copied(), at),
        _ => false,
    }
}

// Whether a local is read or tested that was not assigned before.
fn is_unset(locals: &HashSet<&[u8]>, puts: &HashMap<&[u8], Puts<'_>>, place: Use<'_>) -> bool
    ensures { result ≡ unset_in (λ n. contains_by (λ k. is_same_name n k.now) locals.now)
        (λ n. puts_told (get_by (λ k. is_same_name n k.now) puts.now)) (use_of place.entry) }
{
    match place {
        Use::Put(_, _) => false,
        Use::Taken(name, at) => locals.contains(name) && !is_set(puts.get(name).copied(), at),
        Use::Tested(name) => !is_outside(puts.get(name).copied()),
    }
}

// The use is one of those before.
fn note<'a>(puts: &mut HashMap<&'a [u8], Puts<'a>>, place: Use<'a>) -> Result<(), NoMemory>
    ensures { OnOk result ((n : List ℕ) → puts_told (get_by (λ k. is_same_name n k.now) puts.new)
        ≡ noted (λ m. puts_told (get_by (λ k. is_same_name m k.now) puts.old)) (use_of place.entry) n) }
{
    if let Use::Put(name, at) = place {
        let now = joined(puts.get(name).copied(), at);
        puts.insert(name, now)?;
    }
    Ok(())
}
