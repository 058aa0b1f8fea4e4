// The ports: the declared inputs, of which the first is the clock, and then the declared outputs.

ghost use Rattle.std.specs.Prelude.{◌≡◌, if◌then◌else◌, Some, map, find, IfOk};
ghost use Rattle.std.specs.HashSet.{contains_by};
ghost use Rattle.base_types.specs.Names.{is_same_name};
ghost use Rattle.net_expressions.specs.NameTables.{name_told};
ghost use Rattle.vlog_read.specs.Lexed.{plain_sort};
ghost use Rattle.vlog_text.specs.Names.{interface_names, misplaced, portless, ill_named, other_clock, wrong_port};
ghost use Rattle.vlog_text.specs.Names.{is_output, names_of, has_sign, paused_name, declaration_found};
ghost use Rattle.vlog_read.specs.NameTests.{lacks_port, ill_by, first_of, last_of};
ghost use Rattle.vlog_read.specs.Sources.{declaration_of, plain_source};

use crate::sources::{Declaration, Group, Sort, Source, is_in, names_of};
use crate::uses::is_name_of;
use base_types::NoMemory;
use net_expressions::name_set;
use std::alloc::Global;
use std::collections::HashSet;

// The first port that is wrong.
pub fn wrong_port<'a>(alloc: Global, source: &Source<'a>) -> Result<Option<&'a [u8]>, NoMemory>
    ensures { IfOk result (λ found. name_told found ≡ wrong_port (plain_source source.now)) }
{
    let expected = interface_names(alloc, &source.declarations)?;
    if let Some(port) = misplaced(&source.head.ports, &expected) {
        return Ok(Some(port));
    }
    let ports = name_set(alloc, &source.head.ports)?;
    if let Some(name) = portless(&ports, &source.declarations) {
        return Ok(Some(name));
    }
    Ok(ill_named(&source.declarations).or(other_clock(source)))
}

// The names of the inputs, and then those of the outputs.
fn interface_names<'a>(
    alloc: Global,
    declarations: &[Declaration<'a>],
) -> Result<Vec<&'a [u8]>, NoMemory>
    ensures { IfOk result (λ v. map (λ w. w.now) v.items ≡ interface_names (map declaration_of declarations.now)) }
{
    let mut names = names_of(alloc, Group::Inputs, declarations)?;
    let outputs = names_of(alloc, Group::Outputs, declarations)?;
    names.extend_from_slice(&outputs)?;
    Ok(names)
}

// The first port that is not the declaration at its place.
fn misplaced<'a>(ports: &[&'a [u8]], expected: &[&[u8]]) -> Option<&'a [u8]>
    ensures { name_told result ≡ misplaced (map (λ w. w.now) ports.now) (map (λ w. w.now) expected.now) }
{
    for (at, port) in ports.iter().enumerate() {
        if at >= expected.len() || *port != expected[at] {
            return Some(*port);
        }
    }
    None
}

// The first declared input or output that is no port.
fn portless<'a>(ports: &HashSet<&[u8]>, declarations: &[Declaration<'a>]) -> Option<&'a [u8]>
    ensures { name_told result ≡ declaration_found
        (find (lacks_port (λ n. contains_by (λ k. is_same_name n k.now) ports.now))
        (map declaration_of declarations.now)) }
{
    for declaration in declarations {
        if is_in(Group::Interface, declaration.sort) && !ports.contains(declaration.name) {
            return Some(declaration.name);
        }
    }
    None
}

// The first declared input or output with a name that it may not have.
fn ill_named<'a>(declarations: &[Declaration<'a>]) -> Option<&'a [u8]>
    ensures { name_told result ≡ declaration_found
        (find (λ d. ill_by (first_of (map declaration_of declarations.now))
        (last_of (map declaration_of declarations.now)) d.sort d.name) (map declaration_of declarations.now)) }
{
    let clock = first_input(declarations);
    let last = last_output(declarations);
    for declaration in declarations {
        if is_ill_named(clock, last, *declaration) {
            return Some(declaration.name);
        }
    }
    None
}

// The first input, which is the clock.
pub fn first_input<'a>(declarations: &[Declaration<'a>]) -> Option<&'a [u8]>
    ensures { name_told result ≡ first_of (map declaration_of declarations.now) }
{
    for declaration in declarations {
        if is_in(Group::Inputs, declaration.sort) {
            return Some(declaration.name);
        }
    }
    None
}

// From the back.
fn last_output<'a>(declarations: &[Declaration<'a>]) -> Option<&'a [u8]>
    ensures { name_told result ≡ last_of (map declaration_of declarations.now) }
{
    let mut left = declarations.len();
    'outputs: while left > 0 {
        left -= 1;
        if is_in(Group::Outputs, declarations[left].sort) {
            return Some(declarations[left].name);
        }
    }
    None
}

// The first input is the clock and has any name; the others begin with `i_`, and the outputs with `o_`, but that the
// last one may be `paused`.
fn is_ill_named(clock: Option<&[u8]>, last: Option<&[u8]>, declaration: Declaration<'_>) -> bool
    ensures { result ≡ ill_by (name_told clock.entry) (name_told last.entry) (plain_sort declaration.entry.sort)
        declaration.entry.name.now }
{
    let name = declaration.name;
    match declaration.sort {
        Sort::Input => !is_name_of(clock, name) && !has_sign(b"i_", name),
        Sort::Output => !has_sign(b"o_", name) && !(is_name_of(last, name) && is_paused(name)),
        _ => false,
    }
}

// A name that begins with these two bytes and is longer.
fn has_sign(sign: &[u8], name: &[u8]) -> bool
    ensures { result ≡ has_sign sign.now name.now }
{
    2 < name.len() && &name[..2] == sign
}

fn is_paused(name: &[u8]) -> bool
    ensures { result ≡ is_same_name name.now paused_name }
{
    name == b"paused".as_slice()
}

// The name after `posedge`, if it is not the clock.
fn other_clock<'a>(source: &Source<'a>) -> Option<&'a [u8]>
    ensures { name_told result ≡ other_clock (plain_source source.now) }
{
    if is_name_of(first_input(&source.declarations), source.clocked.clock) {
        None
    } else {
        Some(source.clocked.clock)
    }
}
