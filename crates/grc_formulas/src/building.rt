// A table of rows under construction.

ghost use Rattle.std.specs.Prelude.{◌≡◌, ◌++◌, ◌∷◌, [], IfOk};
ghost use Rattle.grc_formulas.specs.Building.{is_constant, new_source, with_both, both_source, with_either};
ghost use Rattle.grc_formulas.specs.Building.{either_source};
ghost use Rattle.grc_formulas.specs.declared.table.Row.TheVariants.{Not};

use crate::table::{Row, Source};
use base_types::NoMemory;

// One more row.
fn push_row(rows: &mut Vec<Row>, row: Row) -> Result<Source, NoMemory>
    ensures rows { IfOk result (λ s. rows.new.items ≡ rows.old.items ++ row ∷ []) }
    ensures source { IfOk result (λ s. s ≡ new_source rows.old.items) }
{
    let number = rows.len();
    rows.push(row)?;
    Ok(Source::Row(number))
}

// Whether a source is this constant.
fn is_constant(value: bool, source: Source) -> bool
    ensures { result ≡ is_constant value source }
{
    match source {
        Source::Const(own) => own == value,
        Source::Leaf(_) | Source::Input(_) | Source::Wire(_) | Source::Row(_) => false,
    }
}

/// The negation of a source.
pub(crate) fn negation(rows: &mut Vec<Row>, a: Source) -> Result<Source, NoMemory>
    ensures rows { IfOk result (λ s. rows.new.items ≡ rows.old.items ++ Not a ∷ []) }
    ensures source { IfOk result (λ s. s ≡ new_source rows.old.items) }
{
    push_row(rows, Row::Not(a))
}

/// The and of two sources.
pub(crate) fn both(rows: &mut Vec<Row>, a: Source, b: Source) -> Result<Source, NoMemory>
    ensures rows { IfOk result (λ s. rows.new.items ≡ with_both rows.old.items a b) }
    ensures source { IfOk result (λ s. s ≡ both_source rows.old.items a b) }
{
    if is_constant(true, a) {
        Ok(b)
    } else if is_constant(true, b) {
        Ok(a)
    } else if is_constant(false, b) {
        Ok(b)
    } else {
        push_row(rows, Row::And(a, b))
    }
}

/// The or of two sources.
pub(crate) fn either(rows: &mut Vec<Row>, a: Source, b: Source) -> Result<Source, NoMemory>
    ensures rows { IfOk result (λ s. rows.new.items ≡ with_either rows.old.items a b) }
    ensures source { IfOk result (λ s. s ≡ either_source rows.old.items a b) }
{
    if is_constant(false, a) {
        Ok(b)
    } else if is_constant(false, b) {
        Ok(a)
    } else {
        push_row(rows, Row::Or(a, b))
    }
}
