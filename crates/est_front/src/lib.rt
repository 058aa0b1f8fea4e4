//! The front of the compiler: from the bytes of a source to its kernel program, or why it is refused.
//!
//! A source is cut into tokens, read as a tree, its names are checked, each `run` is replaced by the body of its
//! module, and each statement is expanded into the kernel of Berry, "The Constructive Semantics of Pure Esterel". A
//! program with a loop whose body can terminate in the instant in which it starts is refused, and `analyse` answers the
//! program with the static codes of its statements.
//! `specs/Sources.antt` says which kernel program the bytes stand for, `specs/Refusals.antt` why they are refused,
//! and `specs/Lines.antt` what is written about a fault.
#![tactic(auto)]

mod analysis;
mod laws;
mod lines;
mod position;
mod programs;
mod refusal;
mod sources;

pub use analysis::{Analysed, analyse, front};
pub use laws::{
    expanded_texts_are_well_formed, standing_texts_are_not_refused, texts_stand_for_one_program,
};
pub use lines::{Subject, put_fault};
pub use position::{Position, position_of};
pub use programs::{flat_program, kernel_program};
pub use refusal::{Fault, Quantity, SourceRefusal};
pub use sources::read_source;
