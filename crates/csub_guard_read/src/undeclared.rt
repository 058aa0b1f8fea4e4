// Names that are declared, and names that are used and may not be so used.

ghost use Rattle.std.specs.Prelude.{◌≡◌, ℕ, List, [], map, find, IfOk};
ghost use Rattle.std.specs.HashSet.{contains_by};
ghost use Rattle.std.specs.Option.{option_map};
ghost use Rattle.csub_guard.specs.Names.{declared, undeclared};
ghost use Rattle.csub_guard.specs.Views.{program_of};
ghost use Rattle.base_types.specs.Names.{is_same_name};
ghost use Rattle.net_expressions.specs.NameTables.{name_told};
ghost use Rattle.csub_guard_read.specs.Uses.{use_of};
ghost use Rattle.csub_guard_read.specs.Undeclared.{AreKnown, wrong_in};
ghost use Rattle.net_ir.specs.NameLists.{is_among, first_again};

use crate::uses::{Order, Place, Use, used_name, uses};
use base_types::{NoMemory, Text};
use csub_guard::{GuardedProgram, declared_names};
use csub_text::{begins_input, variable_names};
use net_expressions::{name_set, name_table};
use std::alloc::Global;
use std::collections::HashSet;

// The first name that is declared a second time.
pub fn declared_twice<'a>(
    alloc: Global,
    program: &'a GuardedProgram,
) -> Result<Option<&'a [u8]>, NoMemory>
    ensures { IfOk result (λ found. name_told found ≡ first_again [] (declared (program_of program.now))) }
{
    let names = declared_names(alloc, program)?;
    let none = HashSet::new(alloc);
    let table = name_table(alloc, &none, &names)?;
    Ok(table.again)
}

// The names that are declared, and the locals among them.
#[derive(Drop)]
pub struct Known<'a> {
    declared: HashSet<&'a [u8]>,
    locals: HashSet<&'a [u8]>,
}

// The first name that is used and may not be so used.
pub fn undeclared<'a>(
    alloc: Global,
    program: &'a GuardedProgram,
) -> Result<Option<&'a [u8]>, NoMemory>
    ensures { IfOk result (λ found. name_told found ≡ undeclared (program_of program.now)) }
{
    let known = known_names(alloc, program)?;
    let uses = uses(alloc, Order::Written, program)?;
    match first_wrong(&known, &uses) {
        Some(place) => Ok(Some(used_name(place))),
        None => Ok(None),
    }
}

fn known_names<'a>(alloc: Global, program: &'a GuardedProgram) -> Result<Known<'a>, NoMemory>
    ensures { IfOk result (AreKnown (program_of program.now)) }
{
    Ok(Known {
        declared: declared_set(alloc, program)?,
        locals: local_set(alloc, &program.locals)?,
    })
}

fn declared_set<'a>(
    alloc: Global,
    program: &'a GuardedProgram,
) -> Result<HashSet<&'a [u8]>, NoMemory>
    ensures { IfOk result (λ s. (n : List ℕ) → contains_by (λ k. is_same_name n k.now) s
        ≡ is_among n (declared (program_of program.now))) }
{
    let names = declared_names(alloc, program)?;
    name_set(alloc, &names)
}

// The set of the locals.
pub fn local_set<'a>(alloc: Global, locals: &'a [Text]) -> Result<HashSet<&'a [u8]>, NoMemory>
    ensures { IfOk result
        (λ s. (n : List ℕ) → contains_by (λ k. is_same_name n k.now) s ≡ is_among n locals.now) }
{
    let names = variable_names(alloc, &[], &[], locals)?;
    name_set(alloc, &names)
}

// The first use that is wrong.
fn first_wrong<'a>(known: &Known<'_>, uses: &[Use<'a>]) -> Option<Use<'a>>
    ensures { option_map use_of result ≡ find (wrong_in known.now) (map use_of uses.now) }
{
    for place in uses {
        if is_wrong(known, *place) {
            return Some(*place);
        }
    }
    None
}

fn is_wrong(known: &Known<'_>, place: Use<'_>) -> bool
    ensures { result ≡ wrong_in known.now (use_of place.entry) }
{
    match place {
        Use::Put(name, Place::Outside) => begins_input(name) || !known.declared.contains(name),
        Use::Put(name, _) => !known.locals.contains(name),
        Use::Taken(name, _) => !known.declared.contains(name),
        Use::Tested(name) => !known.locals.contains(name),
    }
}
