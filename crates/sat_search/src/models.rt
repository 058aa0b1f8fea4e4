// The check of a valuation.

ghost use Rattle.std.specs.Prelude.{◌≡◌, false, slice_index_or};
ghost use Rattle.std.specs.List.{list_all};
ghost use Rattle.sat_kernel.specs.Clauses.{clause_value, literal_value, plain_assumed};

use sat_kernel::{Clause, Literal};

/// Reports whether a valuation meets each clause. Variables past its end are false.
pub fn is_model(values: &[bool], clauses: &[Clause]) -> bool
    ensures { result ≡ list_all (clause_value (λ n. slice_index_or values.now n false)) (plain_assumed clauses.now) }
{
    for clause in clauses {
        if !meets(values, clause) {
            return false;
        }
    }
    true
}

fn meets(values: &[bool], clause: &[Literal]) -> bool
    ensures { result ≡ clause_value (λ n. slice_index_or values.now n false) clause.now }
{
    for literal in clause {
        if is_met(values, *literal) {
            return true;
        }
    }
    false
}

fn is_met(values: &[bool], literal: Literal) -> bool
    ensures { result ≡ literal_value (λ n. slice_index_or values.now n false) literal }
{
    let place = literal.variable as usize;
    let value = if place < values.len() {
        values[place]
    } else {
        false
    };
    if literal.positive { value } else { !value }
}
