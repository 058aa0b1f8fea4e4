//! What runs texts of equations and assignments: steps over slots, compiled once to records.
//!
//! A name has its place among the names as its slot (`slot_table`). A step gives one slot a value that is a function of
//! the values of all. `Plan` compiles tables and expressions to lookups: most are gates, records of two operands whose
//! truth table is a number, as in compiled simulation of logic circuits. Its one theorem is that a plan makes the
//! steps: after `Plan::run` the slots of the names have the values that the steps give them, one after another.
//! `evaluation_order` puts equations into an order in which each one comes after those that it reads, or finds a
//! combinational cycle; in such an order the steps solve the equations. `Registers` runs a plan from instant to
//! instant, and `Gates` a part of what is in several plans, of gates alone.
#![tactic(auto)]

mod expressions;
mod gate;
mod gate_list;
mod gates;
mod lookup;
mod order;
mod plan;
mod registers;
mod resolved;
mod slots;
mod term;

pub use expressions::{expr_term, push_expr};
pub use gates::Gates;
pub use order::evaluation_order;
pub use plan::Plan;
pub use registers::{Registers, take_values};
pub use resolved::Resolved;
pub use slots::{slot_of, slot_table, slots_of};
pub use term::{Junction, Term};
