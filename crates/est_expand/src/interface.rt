// What a module shows.

ghost use Rattle.std.specs.Prelude.{◌≡◌, ◌++◌, map, flat_map, IfOk, OnOk};
ghost use Rattle.est_ast.specs.Views.{decl_of, module_of};
ghost use Rattle.est_names.specs.Names.{texts};
ghost use Rattle.est_expand.specs.Scopes.{formals_of, interface, inputs_in, both_in, outputs_in};
ghost use Rattle.est_expand.specs.Scopes.{main_interface, main_signals};
ghost use Rattle.est_expand.specs.Views.{formal_of, interface_of};

use base_types::NoMemory;
use est_ast::{Decl, Module, Name};
use std::alloc::Global;

/// A signal of an interface.
#[derive(Clone, Copy)]
pub struct Formal<'a> {
    pub name: &'a [u8],
    pub input: bool,
}

/// The signals that a module shows, in the order of the text.
pub fn formals<'a>(alloc: Global, module: &'a Module) -> Result<Vec<Formal<'a>>, NoMemory>
    ensures { IfOk result (λ found. map formal_of found.items ≡ interface (module_of module.now)) }
{
    let mut found = Vec::new(alloc);
    for decl in &module.decls {
        match decl {
            Decl::Input(names) => push_formals(&mut found, names, true)?,
            Decl::InputOutput(names) => push_formals(&mut found, names, false)?,
            Decl::Output(names) => push_formals(&mut found, names, false)?,
            Decl::Relation(_) => {}
        }
    }
    Ok(found)
}

// Signals of one declaration.
fn push_formals<'a>(
    found: &mut Vec<Formal<'a>>,
    names: &'a [Name],
    input: bool,
) -> Result<(), NoMemory>
    ensures { OnOk result
        (map formal_of found.new.items ≡ map formal_of found.old.items ++ formals_of input (texts names.now)) }
{
    for name in names {
        let name = name.text.bytes();
        found.push(Formal { name, input })?;
    }
    Ok(())
}

/// Names without their places.
#[inline(never)]
pub fn text_list<'a>(alloc: Global, names: &'a [Name]) -> Result<Vec<&'a [u8]>, NoMemory>
    ensures { IfOk result (λ found. map (λ name. name.now) found.items ≡ texts names.now) }
{
    let mut found = Vec::new(alloc);
    push_texts(&mut found, names)?;
    Ok(found)
}

fn push_texts<'a>(found: &mut Vec<&'a [u8]>, names: &'a [Name]) -> Result<(), NoMemory>
    ensures { OnOk result (map (λ name. name.now) found.new.items
        ≡ map (λ name. name.now) found.old.items ++ texts names.now) }
{
    for name in names {
        found.push(name.text.bytes())?;
    }
    Ok(())
}

// The names of the inputs.
fn input_names<'a>(alloc: Global, decls: &'a [Decl]) -> Result<Vec<&'a [u8]>, NoMemory>
    ensures { IfOk result (λ found. map (λ name. name.now) found.items ≡ flat_map inputs_in (map decl_of decls.now)) }
{
    let mut found = Vec::new(alloc);
    for decl in decls {
        if let Decl::Input(names) = decl {
            push_texts(&mut found, names)?;
        }
    }
    Ok(found)
}

// The names of the signals that are input and output.
fn both_names<'a>(alloc: Global, decls: &'a [Decl]) -> Result<Vec<&'a [u8]>, NoMemory>
    ensures { IfOk result (λ found. map (λ name. name.now) found.items ≡ flat_map both_in (map decl_of decls.now)) }
{
    let mut found = Vec::new(alloc);
    for decl in decls {
        if let Decl::InputOutput(names) = decl {
            push_texts(&mut found, names)?;
        }
    }
    Ok(found)
}

// The names of the outputs.
fn output_names<'a>(alloc: Global, decls: &'a [Decl]) -> Result<Vec<&'a [u8]>, NoMemory>
    ensures { IfOk result (λ found. map (λ name. name.now) found.items ≡ flat_map outputs_in (map decl_of decls.now)) }
{
    let mut found = Vec::new(alloc);
    for decl in decls {
        if let Decl::Output(names) = decl {
            push_texts(&mut found, names)?;
        }
    }
    Ok(found)
}

/// The names of the main module's signals.
#[derive(Drop)]
pub struct Interface<'a> {
    pub inputs: Vec<&'a [u8]>,
    pub both: Vec<&'a [u8]>,
    pub outputs: Vec<&'a [u8]>,
}

/// Those that this module shows.
pub fn main_interface<'a>(alloc: Global, main: &'a Module) -> Result<Interface<'a>, NoMemory>
    ensures { IfOk result (λ shown. interface_of shown ≡ main_interface (module_of main.now)) }
{
    Ok(Interface {
        inputs: input_names(alloc, &main.decls)?,
        both: both_names(alloc, &main.decls)?,
        outputs: output_names(alloc, &main.decls)?,
    })
}

/// All of them, in the order of their numbers.
pub fn main_names<'a>(alloc: Global, shown: &Interface<'a>) -> Result<Vec<&'a [u8]>, NoMemory>
    ensures { IfOk result (λ names. map (λ name. name.now) names.items ≡ main_signals (interface_of shown.now)) }
{
    let mut names = Vec::from_slice(alloc, &shown.inputs)?;
    names.extend_from_slice(&shown.both)?;
    names.extend_from_slice(&shown.outputs)?;
    Ok(names)
}
