// Questions, and the lines of their answers.

use crate::literals::put_literal;
use crate::problems::Problem;
use base_types::NoMemory;
use sat_kernel::Literal;
use sat_search::{Refutation, SearchOutcome, is_model};
use sat_simplify::Simplified;

const EFFORT: u64 = 20_000_000_000;

/// Writes the answer to a question under assumptions, with the valuation where it is wanted.
pub(crate) fn put_answer(
    text: &mut String,
    problem: &mut Problem,
    assumptions: &[Literal],
    is_valuation_wanted: bool,
) -> Result<(), NoMemory> {
    let outcome = problem
        .search
        .solve(&mut problem.kernel, assumptions, EFFORT)?;
    match outcome {
        SearchOutcome::Satisfiable(values) => {
            put_satisfiable(text, problem, &values, is_valuation_wanted)?
        }
        SearchOutcome::Unsatisfiable(refutation) => put_refuted(
            text,
            problem,
            assumptions,
            refutation,
        )?,
        SearchOutcome::Contradicting(_) => text.push_str("contradicting")?,
        SearchOutcome::Unknown => text.push_str("unknown")?,
    }
    text.push_str("\n")?;
    Ok(())
}

/// Writes the answer to a question under no assumptions, where the search has simplified clauses.
pub(crate) fn put_answer_once(
    text: &mut String,
    problem: &mut Problem,
    left: &Simplified,
) -> Result<(), NoMemory> {
    let outcome = problem.search.solve(&mut problem.kernel, &[], EFFORT)?;
    match outcome {
        SearchOutcome::Satisfiable(values) => put_completed(text, problem, left, values)?,
        SearchOutcome::Unsatisfiable(_) => text.push_str("unsatisfiable")?,
        SearchOutcome::Contradicting(_) => text.push_str("contradicting")?,
        SearchOutcome::Unknown => text.push_str("unknown")?,
    }
    text.push_str("\n")?;
    Ok(())
}

fn put_completed(
    text: &mut String,
    problem: &Problem,
    left: &Simplified,
    values: Vec<bool>,
) -> Result<(), NoMemory> {
    let values = left.completed(values)?;
    put_satisfiable(text, problem, &values, false)
}

fn put_satisfiable(
    text: &mut String,
    problem: &Problem,
    values: &[bool],
    is_valuation_wanted: bool,
) -> Result<(), NoMemory> {
    if !is_model(values, &problem.clauses) {
        text.push_str("wrong")?;
        return Ok(());
    }
    text.push_str("satisfiable")?;
    if is_valuation_wanted {
        put_values(text, values)?;
    }
    Ok(())
}

fn put_values(text: &mut String, values: &[bool]) -> Result<(), NoMemory> {
    let mut variable: u32 = 0;
    for value in values {
        let positive = *value;
        put_literal(text, Literal { variable, positive })?;
        variable = variable.saturating_add(1);
    }
    Ok(())
}

// Writes the assumptions whose negations are in the clause, in their order, and lets the kernel forget the clause.
fn put_refuted(
    text: &mut String,
    problem: &mut Problem,
    assumptions: &[Literal],
    refutation: Refutation,
) -> Result<(), NoMemory> {
    text.push_str("unsatisfiable")?;
    for assumption in assumptions {
        if has(&refutation.clause, assumption.opposite()) {
            put_literal(text, *assumption)?;
        }
    }
    problem.search.release(&mut problem.kernel, refutation)
}

fn has(clause: &[Literal], literal: Literal) -> bool {
    for other in clause {
        if other.variable == literal.variable && other.positive == literal.positive {
            return true;
        }
    }
    false
}
