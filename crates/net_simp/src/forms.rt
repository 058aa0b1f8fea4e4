// Operators as keys of a table.

ghost use Rattle.std.specs.Prelude.{◌≡◌};
ghost use Rattle.net_ir.specs.declared.netlist.Op.TheVariants.{And, Or};
ghost use Rattle.net_simp.specs.Forms.{form_of};

use base_types::NetId;
use net_ir::Op;

/// An operator, by which gates that compute the same are found: the operands of an and, and of an or, are in
/// ascending order.
#[derive(Clone, Copy, PartialEq, Eq, Hash)]
pub(crate) enum Form {
    Const(bool),
    Copy(u32),
    Not(u32),
    And(u32, u32),
    Or(u32, u32),
}

/// The form of an operator.
pub(crate) fn form_of(op: Op) -> Form
    ensures { result ≡ form_of op }
{
    match op {
        Op::Const(value) => Form::Const(value),
        Op::Copy(a) => Form::Copy(a.0),
        Op::Not(a) => Form::Not(a.0),
        Op::And(a, b) => ordered_and(a, b),
        Op::Or(a, b) => ordered_or(a, b),
    }
}

fn ordered_and(a: NetId, b: NetId) -> Form
    ensures { result ≡ form_of (And a b) }
{
    if a.0 < b.0 {
        Form::And(a.0, b.0)
    } else {
        Form::And(b.0, a.0)
    }
}

fn ordered_or(a: NetId, b: NetId) -> Form
    ensures { result ≡ form_of (Or a b) }
{
    if a.0 < b.0 {
        Form::Or(a.0, b.0)
    } else {
        Form::Or(b.0, a.0)
    }
}
