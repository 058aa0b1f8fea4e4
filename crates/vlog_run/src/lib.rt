//! A runner of the modules that texts of structural Verilog describe.
//!
//! A module of assignments and registers has a run over events and resets wherever no assignment needs its own target
//! in the same instant. `VlogRunner::new` looks for such a combinational cycle, and else makes a plan of `run_steps`
//! of the assignments, each one after those that it reads. The runner is a machine that a trace drives: `react` makes
//! one reaction. What an instant and a run of a module are is in `vlog_text`. `VerilogTexts` says what a text of
//! structural Verilog means where it is run over a trace.
#![tactic(auto)]

mod language;
mod plan;
mod runner;
mod slots;

pub use language::VerilogTexts;
pub use runner::VlogRunner;
