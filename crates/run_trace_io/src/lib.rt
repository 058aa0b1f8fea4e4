//! Traces of inputs, and lines of answers.
//!
//! A trace is a text of groups: an instant is the names of the inputs that are present, ended by `;`,
//! and a group of the one name `!reset` is a reset. `TraceReader` gives the items of a trace one after
//! another, up to the first fault, and tests in each instant what the environment keeps of the given
//! signals. `reaction_line` writes the outgoing signals that are present in an instant, and whether the
//! program is still active after it.
#![tactic(auto)]

mod faults;
mod groups;
mod lines;
mod places;
mod reader;
mod relations;
mod scan;

pub use faults::{TraceError, TraceFault};
pub use lines::{Word, reaction_line};
pub use reader::{Event, Item, TraceReader};
pub use relations::first_broken;
