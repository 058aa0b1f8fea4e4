// Literals in DIMACS form: a variable's number from 1, negative for its negation.

use base_types::NoMemory;
use sat_kernel::{Clause, Literal};
use std::alloc::Global;

/// The literals of a line. Words that are no literals are skipped.
pub(crate) fn literals_of(alloc: Global, line: &str) -> Result<Clause, NoMemory> {
    let mut literals = Vec::new(alloc);
    for word in line.split_whitespace() {
        if let Some(literal) = literal_of(word) {
            literals.push(literal)?;
        }
    }
    Ok(literals)
}

fn literal_of(word: &str) -> Option<Literal> {
    let number = word.parse::<i32>().ok()?;
    let variable = number.unsigned_abs().checked_sub(1)?;
    Some(Literal {
        variable,
        positive: number > 0,
    })
}

/// Writes a literal after a blank.
pub(crate) fn put_literal(text: &mut String, literal: Literal) -> Result<(), NoMemory> {
    let sign = if literal.positive { "" } else { "-" };
    let number = (literal.variable as u64).saturating_add(1);
    write!(text, " {sign}{number}")?;
    Ok(())
}
