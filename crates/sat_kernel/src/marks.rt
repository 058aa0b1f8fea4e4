// The partial assignment during a propagation.

ghost use Rattle.std.specs.Prelude.{◌≡◌};
ghost use Rattle.sat_kernel.specs.Propagation.{cleared, denied, is_false, mark_at, truth_mark, with_mark};

use crate::literals::Literal;

/// The assignment of one variable.
#[derive(Clone, Copy)]
pub(crate) enum Mark {
    Unknown,
    False,
    True,
}

// The mark of a variable. Past the end it is Unknown.
fn mark_at(marks: &[Mark], variable: u32) -> Mark
    ensures { result ≡ mark_at marks.now variable }
{
    let place = variable as usize;
    if place < marks.len() {
        marks[place]
    } else {
        Mark::Unknown
    }
}

/// Reports whether the marks make a literal false.
pub(crate) fn is_false(marks: &[Mark], literal: Literal) -> bool
    ensures { result ≡ is_false marks.now literal }
{
    match mark_at(marks, literal.variable) {
        Mark::Unknown => false,
        Mark::False => literal.positive,
        Mark::True => !literal.positive,
    }
}

// The mark of a variable that has this value.
fn truth_mark(value: bool) -> Mark
    ensures { result ≡ truth_mark value }
{
    if value { Mark::True } else { Mark::False }
}

// Sets the mark of a variable. Past the end nothing changes.
fn set_mark(marks: &mut [Mark], variable: u32, mark: Mark)
    ensures { marks.new ≡ with_mark marks.old variable mark }
{
    let place = variable as usize;
    if place < marks.len() {
        marks[place] = mark;
    }
}

/// Assigns true to a literal.
pub(crate) fn assert_literal(marks: &mut [Mark], literal: Literal)
    ensures { marks.new ≡ with_mark marks.old literal.variable (truth_mark literal.positive) }
{
    set_mark(marks, literal.variable, truth_mark(literal.positive));
}

/// Assigns false to each literal of a clause.
pub(crate) fn deny_clause(marks: &mut [Mark], clause: &[Literal])
    ensures { marks.new ≡ denied marks.old clause.now }
{
    for literal in clause {
        set_mark(marks, literal.variable, truth_mark(!literal.positive));
    }
}

/// Sets the marks of a clause's variables back to Unknown.
pub(crate) fn clear_clause(marks: &mut [Mark], clause: &[Literal])
    ensures { marks.new ≡ cleared marks.old clause.now }
{
    for literal in clause {
        set_mark(marks, literal.variable, Mark::Unknown);
    }
}
