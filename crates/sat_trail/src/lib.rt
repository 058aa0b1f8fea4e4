//! The state of a clause-learning search: the trail of assigned literals, the store of clauses with their watches, the
//! order of decisions, and unit propagation over them.
//!
//! The structures are those of Eén and Sörensson, "An Extensible SAT-solver": two watched literals a clause, a second
//! literal beside each watch that spares most visits, and decisions by activity. Nothing here is believed: a kernel
//! checks what a search derives. So every access tests its place, and every sum saturates.
#![tactic(auto)]

mod clauses;
mod literals;
mod order;
mod propagation;
mod trail;

pub use clauses::{Store, Stored, Watch};
pub use literals::{LiteralId, at, put, small};
pub use order::Order;
pub use propagation::propagate;
pub use trail::{Reason, Trail, Truth};
