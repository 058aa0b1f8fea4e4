// What a text says, in its own order. A name is a part of the text.

ghost use Rattle.std.specs.Prelude.{◌≡◌, map, IfOk};
ghost use Rattle.vlog_read.specs.Lexed.{plain_sort};
ghost use Rattle.vlog_text.specs.Names.{names_of};
ghost use Rattle.vlog_read.specs.NameTests.{group_test};
ghost use Rattle.vlog_read.specs.Sources.{declaration_of};

use base_types::NoMemory;
use std::alloc::Global;
use vlog_text::Assign;

/// What a name is declared as.
#[derive(Clone, Copy)]
pub enum Sort {
    Input,
    Output,
    Wire,
    Reg,
}

#[derive(Clone, Copy)]
pub struct Declaration<'a> {
    pub sort: Sort,
    pub name: &'a [u8],
}

// The value of a reg before the first event.
#[derive(Clone, Copy)]
pub struct Initial<'a> {
    pub name: &'a [u8],
    pub value: bool,
}

// A reg that gets the value of a name at each event.
#[derive(Clone, Copy)]
pub struct Next<'a> {
    pub target: &'a [u8],
    pub source: &'a [u8],
}

// The name of the module, and its ports.
#[derive(Drop)]
pub struct Head<'a> {
    pub name: &'a [u8],
    pub ports: Vec<&'a [u8]>,
}

// What comes after `always`: the name of the clock, and the registers.
#[derive(Drop)]
pub struct Clocked<'a> {
    pub clock: &'a [u8],
    pub nexts: Vec<Next<'a>>,
}

// What a text says.
#[derive(Drop)]
pub struct Source<'a> {
    pub head: Head<'a>,
    pub declarations: Vec<Declaration<'a>>,
    pub initials: Vec<Initial<'a>>,
    pub assigns: Vec<Assign>,
    pub clocked: Clocked<'a>,
}

// Some sorts of names.
#[derive(Clone, Copy)]
pub enum Group {
    Inputs,
    Outputs,
    Wires,
    Regs,
    // Those that stand among the ports.
    Interface,
    // Those that no assignment drives.
    Driven,
}

// Whether a sort is one of a group.
pub fn is_in(group: Group, sort: Sort) -> bool
    ensures { result ≡ group_test group (plain_sort sort) }
{
    match group {
        Group::Inputs => matches!(sort, Sort::Input),
        Group::Outputs => matches!(sort, Sort::Output),
        Group::Wires => matches!(sort, Sort::Wire),
        Group::Regs => matches!(sort, Sort::Reg),
        Group::Interface => matches!(sort, Sort::Input | Sort::Output),
        Group::Driven => matches!(sort, Sort::Input | Sort::Reg),
    }
}

// The declared names of a group, in the order of their declarations.
pub fn names_of<'a>(
    alloc: Global,
    group: Group,
    declarations: &[Declaration<'a>],
) -> Result<Vec<&'a [u8]>, NoMemory>
    ensures { IfOk result
        (λ v. map (λ w. w.now) v.items ≡ names_of (group_test group) (map declaration_of declarations.now)) }
{
    let mut names = Vec::new(alloc);
    for declaration in declarations {
        if is_in(group, declaration.sort) {
            names.push(declaration.name)?;
        }
    }
    Ok(names)
}
