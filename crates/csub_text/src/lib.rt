//! The C subset: what its texts mean, their trees, and the text of a net.
//!
//! A text declares variables that hold 0 or 1 and one function, `react`, whose assignments are run one after
//! another at each call. `specs/` says for every list of bytes which program it describes, or why it describes
//! none, and what the machine of a program does over calls and resets.
#![tactic(auto)]

mod names;
mod parts;
mod pieces;
mod trees;
mod writer;

pub use names::{begins_input, begins_output, declared_names, front_two, variable_names};
pub use net_expressions::Expr;
pub use parts::CSection;
pub use pieces::{CWriter, write_c};
pub use trees::{Assign, CProgram, State};
