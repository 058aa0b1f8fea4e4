//! BLIF texts: what they mean, their circuits, and the text of a net.
//!
//! The texts are those of Berkeley's BLIF (Berkeley Logic Interchange Format), cut down to one model
//! of latches with an initial value and tables of at most eight inputs. `specs/` says for every list of
//! bytes which circuit it describes, or why it describes none, and what the runs of a circuit are.
#![tactic(auto)]

mod circuit;
mod parts;
mod pieces;
mod writer;

pub use circuit::{Blif, BlifLatch, Cell, Row, Table};
pub use parts::BlifSection;
pub use pieces::{BlifWriter, write_blif};
