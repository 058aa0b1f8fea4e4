// Unit propagation along hints.

ghost use Rattle.std.specs.Prelude.{◌≡◌, not, ◌||◌, find, length, replicate, None, slice_get, slice_index_or};
ghost use Rattle.std.specs.List.{list_all};
ghost use Rattle.std.specs.Option.{option_copied};
ghost use Rattle.sat_kernel.specs.Clauses.{plain_assumed, plain_derived};
ghost use Rattle.sat_kernel.specs.Propagation.{cited, denied, is_false, is_same};
ghost use Rattle.sat_kernel.specs.Propagation.{clause_state, cleared_along, propagated};
ghost use Rattle.sat_kernel.specs.declared.marks.Mark.TheVariants.{Unknown};

use crate::literals::{Clause, Literal, Premise};
use crate::marks::{Mark, assert_literal, clear_clause, deny_clause, is_false};

/// A clause under marks.
#[derive(Clone, Copy)]
pub(crate) enum ClauseState {
    /// All literals are false.
    Conflict,
    /// All literals except this one are false.
    Unit(Literal),
    /// At least two different literals are not false.
    Open,
}

// The first literal that is not false.
fn first_open(marks: &[Mark], clause: &[Literal]) -> Option<Literal>
    ensures { result ≡ find (λ l. not (is_false marks.now l)) clause.now }
{
    for literal in clause {
        if !is_false(marks, *literal) {
            return Some(*literal);
        }
    }
    None
}

// Reports whether two literals are the same.
fn is_same(left: Literal, right: Literal) -> bool
    ensures { result ≡ is_same left right }
{
    left.variable == right.variable && left.positive == right.positive
}

// Reports whether all literals except this one are false. A repeated literal counts once.
fn others_are_false(marks: &[Mark], clause: &[Literal], first: Literal) -> bool
    ensures { result ≡ list_all (λ l. is_false marks.now l || is_same first l) clause.now }
{
    for literal in clause {
        if !is_false(marks, *literal) && !is_same(first, *literal) {
            return false;
        }
    }
    true
}

// The state of a clause under marks.
fn clause_state(marks: &[Mark], clause: &[Literal]) -> ClauseState
    ensures { result ≡ clause_state marks.now clause.now }
{
    match first_open(marks, clause) {
        None => ClauseState::Conflict,
        Some(first) => {
            if others_are_false(marks, clause, first) {
                ClauseState::Unit(first)
            } else {
                ClauseState::Open
            }
        }
    }
}

// The assumed clause with this number, if any.
fn assumed_at(assumed: &[Clause], place: usize) -> Option<&[Literal]>
    ensures { option_copied result ≡ slice_get (plain_assumed assumed.now) place }
{
    if place < assumed.len() {
        Some(assumed[place].as_slice())
    } else {
        None
    }
}

// The derived clause with this number, if any. A forgotten one is none.
fn derived_at(derived: &[Option<Clause>], place: usize) -> Option<&[Literal]>
    ensures { option_copied result ≡ slice_index_or (plain_derived derived.now) place None }
{
    if place < derived.len() {
        match &derived[place] {
            Some(clause) => Some(clause.as_slice()),
            None => None,
        }
    } else {
        None
    }
}

// The cited clause, if any.
fn cited<'a>(
    assumed: &'a [Clause],
    derived: &'a [Option<Clause>],
    premise: Premise,
) -> Option<&'a [Literal]>
    ensures { option_copied result ≡ cited (plain_assumed assumed.now) (plain_derived derived.now) premise }
{
    match premise {
        Premise::Assumed(place) => assumed_at(assumed, place),
        Premise::Derived(place) => derived_at(derived, place),
    }
}

// Propagates the cited clauses in order, and reports whether all literals of one of them are false.
fn propagate(
    assumed: &[Clause],
    derived: &[Option<Clause>],
    marks: &mut [Mark],
    hints: &[Premise],
) -> bool
    ensures { record { conflict = result; marks = marks.new }
        ≡ propagated (cited (plain_assumed assumed.now) (plain_derived derived.now)) marks.old hints.now }
{
    for hint in hints {
        if let Some(clause) = cited(assumed, derived, *hint) {
            match clause_state(marks, clause) {
                ClauseState::Conflict => return true,
                ClauseState::Unit(literal) => assert_literal(marks, literal),
                ClauseState::Open => {}
            }
        }
    }
    false
}

// Sets the marks of all variables of the cited clauses back to Unknown. This needs no record of what was set.
fn clear_along(
    assumed: &[Clause],
    derived: &[Option<Clause>],
    marks: &mut [Mark],
    hints: &[Premise],
)
    ensures { marks.new
        ≡ cleared_along (cited (plain_assumed assumed.now) (plain_derived derived.now)) marks.old hints.now }
{
    for hint in hints {
        if let Some(clause) = cited(assumed, derived, *hint) {
            clear_clause(marks, clause);
        }
    }
}

/// Reports whether propagation along the hints shows a clause: all literals of a cited clause become false once the
/// literals of this clause are. The marks are Unknown again afterwards.
pub(crate) fn is_shown(
    assumed: &[Clause],
    derived: &[Option<Clause>],
    marks: &mut [Mark],
    clause: &[Literal],
    hints: &[Premise],
) -> bool
    requires { marks.old ≡ replicate (length marks.old) Unknown }
    ensures answer { result ≡ (propagated (cited (plain_assumed assumed.now) (plain_derived derived.now))
        (denied marks.old clause.now) hints.now).conflict }
    ensures same { marks.new ≡ marks.old }
{
    deny_clause(marks, clause);
    let answer = propagate(assumed, derived, marks, hints);
    clear_clause(marks, clause);
    clear_along(assumed, derived, marks, hints);
    answer
}
