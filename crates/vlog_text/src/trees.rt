// Modules as trees.

use base_types::Text;
use net_expressions::Expr;

/// A register, its value before the first event, and the name whose value it gets at each event.
#[derive(Drop)]
pub struct Register {
    pub name: Text,
    pub init: bool,
    pub from: Text,
}

/// The name `to` always has the value of the expression.
#[derive(Drop)]
pub struct Assign {
    pub to: Text,
    pub value: Expr,
}

/// A module. Inputs, of which the first is the clock, outputs, registers and wires are in the order of their
/// declarations, and the assignments in the order of the text.
#[derive(Drop)]
pub struct Module {
    pub name: Text,
    pub inputs: Vec<Text>,
    pub outputs: Vec<Text>,
    pub registers: Vec<Register>,
    pub wires: Vec<Text>,
    pub assigns: Vec<Assign>,
}
