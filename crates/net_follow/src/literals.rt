// Literals over the nets of two netlists in two instants, and what is said of them.

ghost use Rattle.std.specs.Prelude.{◌≡◌};
ghost use Rattle.net_follow.specs.Literals.{constant, opposite, moved, moved_equation};

/// Which netlist a net is of: the given one, the new one, or neither, and then it is the constant that is always true.
#[derive(Clone, Copy, PartialEq)]
pub enum Side {
    Always,
    Old,
    New,
}

/// A net, by its number in its netlist, or its negation, in an instant or in the next one.
#[derive(Clone, Copy)]
pub struct Literal {
    pub late: bool,
    pub side: Side,
    pub number: u32,
    pub positive: bool,
}

/// An equation: `out` is true just where `left` and `right` are.
#[derive(Clone, Copy)]
pub struct Equation {
    pub out: Literal,
    pub left: Literal,
    pub right: Literal,
}

/// A clause: one of the three literals is true.
#[derive(Clone, Copy)]
pub(crate) struct Clause {
    pub first: Literal,
    pub second: Literal,
    pub third: Literal,
}

/// The constant that is always true, or its negation.
pub(crate) fn constant(positive: bool) -> Literal
    ensures { result ≡ constant positive }
{
    Literal {
        late: false,
        side: Side::Always,
        number: 0,
        positive,
    }
}

/// The negation of a literal.
pub(crate) fn opposite(literal: Literal) -> Literal
    ensures { result ≡ opposite literal }
{
    Literal {
        positive: !literal.positive,
        ..literal
    }
}

// The literal, in the first of two instants or in the second one.
fn moved(literal: Literal, late: bool) -> Literal
    ensures { result ≡ moved late literal }
{
    Literal { late, ..literal }
}

/// The equation in the first of two instants, or in the second one.
pub(crate) fn moved_equation(equation: Equation, late: bool) -> Equation
    ensures { result ≡ moved_equation late equation }
{
    Equation {
        out: moved(equation.out, late),
        left: moved(equation.left, late),
        right: moved(equation.right, late),
    }
}
