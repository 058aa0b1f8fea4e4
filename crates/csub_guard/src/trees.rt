// Guarded programs as trees.

use base_types::Text;
use csub_text::{Assign, State};
use net_expressions::Expr;

/// What is in a body: an assignment, or a block, whose first assignments are run where the local of its test is 1,
/// and whose second ones are run where it is 0. The second list is empty without `else`.
#[derive(Drop)]
pub enum Piece {
    One(Assign),
    If(Text, Vec<Assign>, Vec<Assign>),
}

/// A guarded program: states, inputs (`I_`) and outputs (`O_`) among the globals, locals, the pieces of `react` in
/// order, and the expression that it returns. Names are in the order of their declarations.
#[derive(Drop)]
pub struct GuardedProgram {
    pub states: Vec<State>,
    pub globals: Vec<Text>,
    pub locals: Vec<Text>,
    pub body: Vec<Piece>,
    pub answer: Expr,
}
