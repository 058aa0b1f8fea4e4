// The module of a source that keeps the rules on names.

ghost use Rattle.std.specs.Prelude.{◌≡◌, ℕ, List, map, IfOk};
ghost use Rattle.std.specs.HashMap.{get_by};
ghost use Rattle.base_types.specs.Names.{is_same_name};
ghost use Rattle.vlog_text.specs.Texts.{initial_value, next_source, register_said, module_said};
ghost use Rattle.vlog_text.specs.Names.{is_reg, names_of};
ghost use Rattle.vlog_text.specs.Views.{register_of, module_of};
ghost use Rattle.vlog_read.specs.NameTests.{group_test};
ghost use Rattle.vlog_read.specs.Registers.{value_or, source_or, register_by, IsDeclared, IsOutside, IsWithin};
ghost use Rattle.vlog_read.specs.Sources.{declaration_of, initial_of, next_of, plain_source};

use crate::sources::{Declaration, Group, Initial, Next, Source, names_of};
use base_types::{NoMemory, Text};
use std::alloc::Global;
use std::collections::HashMap;
use vlog_text::{Module, Register};

// The module of a source. Its only error is out of memory.
pub fn module_of(alloc: Global, source: Source<'_>) -> Result<Module, NoMemory>
    ensures { IfOk result (λ m. module_of m ≡ module_said (plain_source source.entry)) }
{
    let Declared { outside, within } = declared_in(alloc, &source)?;
    Ok(Module {
        name: outside.name,
        inputs: outside.inputs,
        outputs: outside.outputs,
        registers: within.registers,
        wires: within.wires,
        assigns: source.assigns,
    })
}

// A module without its assignments.
#[derive(Drop)]
struct Declared {
    outside: Outside,
    within: Within,
}

// The name of a module, its inputs and its outputs.
#[derive(Drop)]
struct Outside {
    name: Text,
    inputs: Vec<Text>,
    outputs: Vec<Text>,
}

// The registers and the wires of a module.
#[derive(Drop)]
struct Within {
    registers: Vec<Register>,
    wires: Vec<Text>,
}

fn declared_in(alloc: Global, source: &Source<'_>) -> Result<Declared, NoMemory>
    ensures { IfOk result (IsDeclared (plain_source source.now)) }
{
    Ok(Declared {
        outside: outside_of(alloc, source)?,
        within: insides_of(alloc, source)?,
    })
}

fn outside_of(alloc: Global, source: &Source<'_>) -> Result<Outside, NoMemory>
    ensures { IfOk result (IsOutside (plain_source source.now)) }
{
    let name = Text::from_bytes(alloc, source.head.name)?;
    Ok(Outside {
        name,
        inputs: owned_names(alloc, Group::Inputs, &source.declarations)?,
        outputs: owned_names(alloc, Group::Outputs, &source.declarations)?,
    })
}

fn insides_of(alloc: Global, source: &Source<'_>) -> Result<Within, NoMemory>
    ensures { IfOk result (IsWithin (plain_source source.now)) }
{
    Ok(Within {
        registers: registers_of(alloc, source)?,
        wires: owned_names(alloc, Group::Wires, &source.declarations)?,
    })
}

// The declared names of a group, each in memory of its own.
fn owned_names(
    alloc: Global,
    group: Group,
    declarations: &[Declaration<'_>],
) -> Result<Vec<Text>, NoMemory>
    ensures { IfOk result (λ v. v.items ≡ names_of (group_test group) (map declaration_of declarations.now)) }
{
    let names = names_of(alloc, group, declarations)?;
    let mut owned = Vec::with_capacity(alloc, names.len())?;
    for name in &names {
        owned.push(Text::from_bytes(alloc, name)?)?;
    }
    Ok(owned)
}

// The registers, in the order of their declarations.
fn registers_of(alloc: Global, source: &Source<'_>) -> Result<Vec<Register>, NoMemory>
    ensures { IfOk result (λ v. map register_of v.items ≡ map (register_said (plain_source source.now))
        (names_of is_reg (plain_source source.now).declarations)) }
{
    let tables = tables_of(alloc, source)?;
    let names = names_of(alloc, Group::Regs, &source.declarations)?;
    registers_by(alloc, &tables, &names)
}

// What is said of registers, by their names.
#[derive(Drop)]
struct Tables<'a> {
    values: HashMap<&'a [u8], bool>,
    sources: HashMap<&'a [u8], &'a [u8]>,
}

fn tables_of<'a>(alloc: Global, source: &Source<'a>) -> Result<Tables<'a>, NoMemory>
    ensures { IfOk result (λ t. (n : List ℕ) → register_by t n ≡ register_said (plain_source source.now) n) }
{
    Ok(Tables {
        values: initial_values(alloc, &source.initials)?,
        sources: next_sources(alloc, &source.clocked.nexts)?,
    })
}

// The registers of these names.
fn registers_by(
    alloc: Global,
    tables: &Tables<'_>,
    names: &[&[u8]],
) -> Result<Vec<Register>, NoMemory>
    ensures { IfOk result
        (λ v. map register_of v.items ≡ map (register_by tables.now) (map (λ w. w.now) names.now)) }
{
    let mut registers = Vec::with_capacity(alloc, names.len())?;
    for name in names {
        registers.push(register(alloc, tables, name)?)?;
    }
    Ok(registers)
}

// The register of this name.
fn register(alloc: Global, tables: &Tables<'_>, name: &[u8]) -> Result<Register, NoMemory>
    ensures { IfOk result (λ r. register_of r ≡ register_by tables.now name.now) }
{
    let from = Text::from_bytes(alloc, source_of(&tables.sources, name))?;
    let own = Text::from_bytes(alloc, name)?;
    Ok(Register {
        name: own,
        init: value_of(&tables.values, name),
        from,
    })
}

// The values under `initial`, by the names of the regs. They are gone over from the last to the first, so that of
// several of one name the first one stays.
fn initial_values<'a>(
    alloc: Global,
    initials: &[Initial<'a>],
) -> Result<HashMap<&'a [u8], bool>, NoMemory>
    ensures { IfOk result (λ m. (n : List ℕ)
        → value_or (get_by (λ k. is_same_name n k.now) m) ≡ initial_value (map initial_of initials.now) n) }
{
    let mut values = HashMap::new(alloc);
    let mut left = initials.len();
    'initials: while left > 0 {
        left -= 1;
        values.insert(initials[left].name, initials[left].value)?;
    }
    Ok(values)
}

// The names right of `<=`, by the names of the regs, the same.
fn next_sources<'a>(
    alloc: Global,
    nexts: &[Next<'a>],
) -> Result<HashMap<&'a [u8], &'a [u8]>, NoMemory>
    ensures { IfOk result (λ m. (n : List ℕ)
        → source_or (get_by (λ k. is_same_name n k.now) m) ≡ next_source (map next_of nexts.now) n) }
{
    let mut sources = HashMap::new(alloc);
    let mut left = nexts.len();
    'nexts: while left > 0 {
        left -= 1;
        sources.insert(nexts[left].target, nexts[left].source)?;
    }
    Ok(sources)
}

// The value of a reg before the first event: each has one.
fn value_of(values: &HashMap<&[u8], bool>, name: &[u8]) -> bool
    ensures { result ≡ value_or (get_by (λ k. is_same_name name.now k.now) values.now) }
{
    match values.get(name) {
        Some(value) => *value,
        None => false,
    }
}

// The name whose value a reg gets: each has one.
fn source_of<'a>(sources: &HashMap<&[u8], &'a [u8]>, name: &[u8]) -> &'a [u8]
    ensures { result.now ≡ source_or (get_by (λ k. is_same_name name.now k.now) sources.now) }
{
    match sources.get(name) {
        Some(source) => source,
        None => b"",
    }
}
