// The table of a program's modules.

ghost use Rattle.std.specs.Prelude.{◌≡◌};
ghost use Rattle.est_names.specs.Names.{place_of};

use crate::name_set::NameSet;
use std::marker::Model;

/// The modules of a program by their names, and the main one among them. A contract sees the place of the
/// main module and the names in their order.
#[derive(Drop)]
pub struct ModuleTable<'a> {
    pub(crate) main: usize,
    pub(crate) modules: NameSet<'a>,
}

impl<'a> Model for ModuleTable<'a> {
    ghost use Rattle.est_names.specs.Tables.{Modules};

    ghost Value = { Modules };

    ghost view = { λ t. record { main = t.main; names = t.modules } };
}

impl<'a> ModuleTable<'a> {
    /// The place of the main module among the modules. It takes no memory.
    pub fn main(&self) -> usize
        ensures { result ≡ self.now.main }
    {
        self.main
    }

    /// The place of the module of this name, if there is one. It takes no memory.
    pub fn find(&self, name: &[u8]) -> Option<usize>
        ensures { result ≡ place_of name.now self.now.names }
    {
        self.modules.place(name)
    }
}
