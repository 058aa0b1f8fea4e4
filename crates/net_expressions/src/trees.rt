// Expressions as trees.

use base_types::Text;

/// An expression. `And` and `Or` have two parts or more: round brackets and a list of one part make no node.
#[derive(Drop)]
pub enum Expr {
    Name(Text),
    Const(bool),
    Not(Box<Expr>),
    And(Vec<Expr>),
    Or(Vec<Expr>),
}
