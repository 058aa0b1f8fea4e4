//! The modules of a program, and whether its names are declared as they may be.
//!
//! `check_modules` answers the table of the modules, or the first fault of the names: a module with the
//! name of another, no main module, a signal declared twice in one place, or a relation of what is no
//! input. The rules are those that docs/language.md states; `specs/NameFaults.antt` lists the faults.
#![tactic(auto)]

mod checks;
mod name_set;
mod refusal;
mod signal_lists;
mod table;

pub use checks::check_modules;
pub use name_set::NameSet;
pub use refusal::NameFault;
pub use table::ModuleTable;
