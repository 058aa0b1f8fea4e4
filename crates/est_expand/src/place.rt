// Where a walk is.

ghost use Rattle.std.specs.Prelude.{◌≡◌, map};
ghost use Rattle.est_ast.specs.Views.{module_of};
ghost use Rattle.est_names.specs.NameFaults.{module_names};

use crate::scope::Scope;
use crate::traps::Traps;
use base_types::Span;
use est_ast::Module;
use est_names::{ModuleTable, NameSet};

/// A program: its modules with their table, and the number of inputs of the main module, which have the
/// first numbers. At most `room` more statements may be nested.
#[derive(Clone, Copy)]
pub struct Source<'a> {
    pub modules: &'a [Module],
    pub table: &'a ModuleTable<'a>,
    pub inputs: u32,
    pub room: u32,
    ghost named: { table.now.names ≡ module_names (map module_of modules.now) },
}

/// A statement that is walked: the program, where this many more may be nested, and its place.
#[derive(Clone, Copy)]
pub struct Site<'a> {
    pub source: Source<'a>,
    pub span: Span,
}

/// What stands around a statement: what names mean there, the traps of its module, and the modules from the
/// main one to its own.
#[derive(Drop)]
pub struct Around<'a> {
    pub scope: Scope<'a>,
    pub traps: Traps<'a>,
    pub chain: NameSet<'a>,
}

impl<'a> Source<'a> {
    ghost use Rattle.std.specs.Prelude.{◌+◌, IfSome, IfNone};

    /// The same inside of a statement, where one more may be in another.
    pub fn inside(&self) -> Option<Source<'a>>
        ensures some { IfSome result (λ inner. (inner.modules ≡ self.now.modules) × (inner.table ≡ self.now.table)
            × (inner.inputs ≡ self.now.inputs) × (self.now.room ≡ inner.room + 1)) }
        ensures none { IfNone result (self.now.room ≡ 0) }
    {
        let room = self.room.checked_sub(1)?;
        Some(Source {
            modules: self.modules,
            table: self.table,
            inputs: self.inputs,
            room,
        })
    }
}
