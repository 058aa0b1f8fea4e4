//! Programs that show which of their points are reached.
//!
//! A point of a flat program is one of its emissions, pauses, waits or branches of a test. A covered program has a new
//! outgoing signal for each point of a portion, and emits it where a run reaches the point. `specs/Points.antt` lists
//! the points, and `specs/Covered.antt` defines the covered program.
#![tactic(auto)]

mod covering;
mod forms;
mod heads;
mod leaves;
mod marks;
mod moving;
mod names;
mod points;
mod portions;
mod programs;

pub use names::{is_named, new_names};
pub use points::{Point, PointKind};
pub use programs::{cover_program, program_points};
