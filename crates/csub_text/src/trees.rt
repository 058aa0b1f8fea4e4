// Programs of the C subset as trees.

use base_types::Text;
use net_expressions::Expr;

/// A variable that keeps its value from call to call, and its value before the first one.
#[derive(Drop)]
pub struct State {
    pub name: Text,
    pub init: bool,
}

/// The variable `to` gets the value of the expression.
#[derive(Drop)]
pub struct Assign {
    pub to: Text,
    pub value: Expr,
}

/// A program: states, inputs (`I_`) and outputs (`O_`) among the globals, locals, the assignments of `react` in
/// order, and the expression that it returns. Names are in the order of their declarations.
#[derive(Drop)]
pub struct CProgram {
    pub states: Vec<State>,
    pub globals: Vec<Text>,
    pub locals: Vec<Text>,
    pub body: Vec<Assign>,
    pub answer: Expr,
}
