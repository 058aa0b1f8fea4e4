// From a text to the circuit that it describes.

ghost use Rattle.std.specs.Prelude.{◌≡◌, ℕ, ◌≤◌, List, [], ◌++◌, None, Some, length, map, filter_map, not, IfOk};
ghost use Rattle.std.specs.Prelude.{if◌then◌else◌};
ghost use Rattle.std.specs.Bool.{OnTrue};
ghost use Rattle.std.specs.Option.{option_copied, option_map, option_to_list};
ghost use Rattle.base_types.specs.Stops.{IfFault};
ghost use Rattle.blif_text.specs.Statements.{Said, said_in, is_end, is_refused, may_follow, first_refused};
ghost use Rattle.blif_text.specs.Statements.{refused_line};
ghost use Rattle.blif_text.specs.Circuits.{statements};
ghost use Rattle.blif_read.specs.PlainStatements.{plain_statement, last_of, LineFault};
ghost use Rattle.blif_read.specs.Rests.{plain_line};
ghost use Rattle.blif_read.specs.Reads.{ReadsAs, ReadsFault};

use crate::draft::circuit;
use crate::drivers::check_drivers;
use crate::fault::BlifFault;
use crate::lines::{Line, Rest, next_line};
use crate::statements::{Statement, line_statement};
use crate::words::{is_clean, words};
use base_types::{Limits, NoMemory, Stop};
use blif_text::Blif;
use std::alloc::Global;

/// The circuit that a BLIF text describes, or its first fault: a text that is too long, else the first line
/// that is not of the profile in its place, else the first name that is driven a second time, else the first
/// name that is used and not driven.
///
/// The profile is Berkeley's BLIF, cut down to one model of latches with an initial value and tables of at
/// most eight inputs. The time and the memory that it takes are linear in the length of the text.
///
/// Example: the lines `.model M`, `.inputs A`, `.outputs O`, `.names A O`, `1 1` and `.end` describe a circuit
/// whose output is its input.
pub fn read_blif(alloc: Global, text: &[u8]) -> Result<Blif, Stop<BlifFault>>
    ensures reads { IfOk result (ReadsAs text.now) }
    ensures refuses { IfFault result (ReadsFault text.now) }
{
    if Limits::TEXT_BYTES < text.len() as u64 {
        return Err(Stop::Fault(BlifFault::TooLong));
    }
    let statements = read_statements(alloc, text)?;
    check_drivers(alloc, &statements)?;
    Ok(circuit(alloc, statements)?)
}

// What the lines of a text say, one after another, where no line is refused.
fn read_statements(alloc: Global, text: &[u8]) -> Result<Vec<Statement>, Stop<BlifFault>>
    requires { length text.now ≤ Limits.TEXT_BYTES }
    ensures lines { IfOk result (λ all. refused_line text.now ≡ None) }
    ensures statements { IfOk result (λ all. statements text.now ≡ map plain_statement all.items) }
    ensures fault { IfFault result (LineFault text.now) }
{
    let mut statements = Vec::new(alloc);
    let mut rest = Rest {
        bytes: text,
        number: 1,
    };
    'lines: while let Some(line) = next_line(alloc, &mut rest)? {
        let taken = take_line(alloc, &line, &mut statements)?;
        if !taken {
            return Err(Stop::Fault(BlifFault::Line(line.number)));
        }
    }
    if is_ended(&statements) {
        Ok(statements)
    } else {
        Err(Stop::Fault(BlifFault::Line(rest.number)))
    }
}

// Adds what a line says to the statements before it. Says whether the line may be there.
fn take_line(
    alloc: Global,
    line: &Line<'_>,
    statements: &mut Vec<Statement>,
) -> Result<bool, NoMemory>
    ensures place { IfOk result
        (λ taken. (after : ℕ) (more : List Said) →
        first_refused after (last_of (map plain_statement statements.old.items))
        (said_in (plain_line line.now) ++ more)
        ≡ (if taken then first_refused after (last_of (map plain_statement statements.new.items)) more
        else Some line.now.number)) }
    ensures statements { IfOk result
        (λ taken. OnTrue taken
        (map plain_statement statements.new.items
        ≡ map plain_statement statements.old.items
        ++ filter_map (λ said. said.says) (said_in (plain_line line.now)))) }
{
    let bytes = line.bytes.as_slice();
    if !is_clean(bytes) {
        return Ok(false);
    }
    let words = words(alloc, bytes)?;
    if words.is_empty() {
        return Ok(true);
    }
    let said = line_statement(alloc, &words)?;
    Ok(put(statements, said)?)
}

// Adds what a line says, where it says something that may be there.
fn put(statements: &mut Vec<Statement>, said: Option<Statement>) -> Result<bool, NoMemory>
    ensures taken { IfOk result
        (λ taken. taken
        ≡ not (is_refused (last_of (map plain_statement statements.old.items)) (option_map plain_statement said))) }
    ensures more { IfOk result
        (λ taken. OnTrue taken
        (map plain_statement statements.new.items
        ≡ map plain_statement statements.old.items
        ++ option_to_list (option_map plain_statement said))) }
{
    let Some(next) = said else {
        return Ok(false);
    };
    if !may_follow(statements.last(), &next) {
        return Ok(false);
    }
    statements.push(next)?;
    Ok(true)
}

// Whether a statement may stand right after another, or first.
fn may_follow(above: Option<&Statement>, next: &Statement) -> bool
    ensures { result ≡ may_follow (option_map plain_statement (option_copied above.entry)) (plain_statement next.now) }
{
    match (above, next) {
        (None, Statement::Model(_)) => true,
        (None, _) => false,
        (Some(_), Statement::Model(_)) => false,
        (Some(Statement::Names(inputs, _)), Statement::Row(row)) => row.cells.len() == inputs.len(),
        (Some(Statement::Row(above)), Statement::Row(row)) => row.cells.len() == above.cells.len(),
        (Some(_), Statement::Row(_)) => false,
        (Some(above), _) => !is_end(above),
    }
}

fn is_end(statement: &Statement) -> bool
    ensures { result ≡ is_end (plain_statement statement.now) }
{
    match statement {
        Statement::End => true,
        _ => false,
    }
}

// Whether the last statement is the end.
fn is_ended(statements: &[Statement]) -> bool
    ensures { (after : ℕ) →
        first_refused after (last_of (map plain_statement statements.now)) [] ≡ (if result then None else Some after) }
{
    match statements.last() {
        Some(last) => is_end(last),
        None => false,
    }
}
