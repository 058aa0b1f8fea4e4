//! A runner of the circuits that BLIF texts describe.
//!
//! A circuit of tables and latches has a run over events and resets wherever no table needs its own output
//! in the same instant. `BlifRunner::new` looks for such a combinational cycle, and else makes a plan of
//! `run_steps` of the tables, each one after those that it reads. The runner is a machine that a trace drives:
//! `react` makes one reaction. What an instant and a run of a circuit are is in `blif_text`, after Berkeley's
//! BLIF. `BlifTexts` is BLIF as a language of texts that are run over traces.
#![tactic(auto)]

mod language;
mod plan;
mod runner;
mod slots;
mod truths;

pub use language::BlifTexts;
pub use plan::{resolved_names, table_order};
pub use run_steps::Resolved;
pub use runner::{BlifRunner, listed_count, tells_pause};
