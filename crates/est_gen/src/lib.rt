//! Sources and events that are made at random from a start number.
//!
//! The draws are those of `base_types`. `generate_source` draws a Pure Esterel module of parallel branches, each of
//! which is one of four statements on one of eight inputs and outputs, and `next_event` draws an instant of its
//! inputs. The same start number gives the same source and the same events everywhere, so a load is named by a few
//! numbers.
#![tactic(auto)]

mod events;
mod sources;

pub use events::next_event;
pub use sources::{GenFault, Generated, generate_source};
