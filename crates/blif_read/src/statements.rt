// What the words of a line say.

ghost use Rattle.std.specs.Prelude.{◌≡◌, ◌<◌, ◌≤◌, ◌∷◌, length, map, IfOk};
ghost use Rattle.std.specs.Option.{option_map};
ghost use Rattle.blif_text.specs.Statements.{cell_of, cells_of, bit_of, model_of, latch_of, names_of, table_row};
ghost use Rattle.blif_text.specs.Statements.{statement_of};
ghost use Rattle.blif_read.specs.PlainStatements.{plain_statement};

use crate::words::is;
use base_types::{NoMemory, Text};
use blif_text::{BlifLatch, Cell, Row};
use std::alloc::Global;

// A statement of the profile: the kinds of its lines.
#[derive(Drop)]
pub enum Statement {
    Model(Text),
    Inputs(Vec<Text>),
    Outputs(Vec<Text>),
    Latch(BlifLatch),
    Names(Vec<Text>, Text),
    Row(Row),
    End,
}

// What a line of at least one word says, wherever it stands, or `None`.
pub fn line_statement(alloc: Global, words: &[&[u8]]) -> Result<Option<Statement>, NoMemory>
    requires { 0 < length words.now }
    ensures { IfOk result (λ s. option_map plain_statement s ≡ statement_of (map (λ w. w.now) words.now)) }
{
    let head = words[0];
    let rest = &words[1..];
    if is(head, b".model") {
        model(alloc, rest)
    } else if is(head, b".inputs") {
        Ok(Some(Statement::Inputs(texts(alloc, rest)?)))
    } else if is(head, b".outputs") {
        Ok(Some(Statement::Outputs(texts(alloc, rest)?)))
    } else if is(head, b".latch") {
        latch(alloc, rest)
    } else if is(head, b".names") {
        names(alloc, rest)
    } else if is(head, b".end") {
        Ok(if rest.is_empty() {
            Some(Statement::End)
        } else {
            None
        })
    } else {
        row(alloc, head, rest)
    }
}

// The words after `.model`: at most one name.
fn model(alloc: Global, words: &[&[u8]]) -> Result<Option<Statement>, NoMemory>
    ensures { IfOk result (λ s. option_map plain_statement s ≡ model_of (map (λ w. w.now) words.now)) }
{
    Ok(match words {
        [] => Some(Statement::Model(Text::from_bytes(alloc, b"")?)),
        [name] => Some(Statement::Model(Text::from_bytes(alloc, name)?)),
        _ => None,
    })
}

// The words after `.latch`: two names and the initial value.
fn latch(alloc: Global, words: &[&[u8]]) -> Result<Option<Statement>, NoMemory>
    ensures { IfOk result (λ s. option_map plain_statement s ≡ latch_of (map (λ w. w.now) words.now)) }
{
    let [from, to, init] = words else {
        return Ok(None);
    };
    let Some(init) = bit(init) else {
        return Ok(None);
    };
    Ok(Some(Statement::Latch(BlifLatch {
        from: Text::from_bytes(alloc, from)?,
        to: Text::from_bytes(alloc, to)?,
        init,
    })))
}

fn bit(word: &[u8]) -> Option<bool>
    ensures { result ≡ bit_of word.now }
{
    if is(word, b"0") {
        Some(false)
    } else if is(word, b"1") {
        Some(true)
    } else {
        None
    }
}

// The words after `.names`: at most eight names, and the output.
fn names(alloc: Global, words: &[&[u8]]) -> Result<Option<Statement>, NoMemory>
    ensures { IfOk result (λ s. option_map plain_statement s ≡ names_of (map (λ w. w.now) words.now)) }
{
    if words.is_empty() || 9 < words.len() {
        return Ok(None);
    }
    let last = words.len() - 1;
    let inputs = texts(alloc, &words[..last])?;
    let output = Text::from_bytes(alloc, words[last])?;
    Ok(Some(Statement::Names(inputs, output)))
}

// The words of a row: its cells and `1`, or `1` alone.
fn row(alloc: Global, word: &[u8], words: &[&[u8]]) -> Result<Option<Statement>, NoMemory>
    ensures { IfOk result (λ s. option_map plain_statement s ≡ table_row word.now (map (λ w. w.now) words.now)) }
{
    match words {
        [] if is(word, b"1") => Ok(Some(Statement::Row(Row {
            cells: Vec::new(alloc),
        }))),
        [value] if is(value, b"1") => {
            Ok(cells(alloc, word)?.map(|cells| Statement::Row(Row { cells })))
        }
        _ => Ok(None),
    }
}

// One cell for each byte, where each is that of a cell.
fn cells(alloc: Global, word: &[u8]) -> Result<Option<Vec<Cell>>, NoMemory>
    ensures { IfOk result (λ cells. option_map (λ v. v.items) cells ≡ cells_of word.now) }
{
    let mut cells = Vec::new(alloc);
    for byte in word {
        let Some(cell) = cell(*byte) else {
            return Ok(None);
        };
        cells.push(cell)?;
    }
    Ok(Some(cells))
}

fn cell(byte: u8) -> Option<Cell>
    ensures { result ≡ cell_of byte }
{
    match byte {
        b'0' => Some(Cell::Zero),
        b'1' => Some(Cell::One),
        b'-' => Some(Cell::Any),
        _ => None,
    }
}

fn texts(alloc: Global, words: &[&[u8]]) -> Result<Vec<Text>, NoMemory>
    ensures { IfOk result (λ texts. texts.items ≡ map (λ w. w.now) words.now) }
{
    let mut texts = Vec::new(alloc);
    for word in words {
        texts.push(Text::from_bytes(alloc, word)?)?;
    }
    Ok(texts)
}
