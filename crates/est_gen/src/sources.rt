// The generated source, put together line by line.

ghost use Rattle.std.specs.Prelude.{◌≡◌, ◌+◌, ◌*◌, ◌<◌, ◌⊎◌, ◌↔◌, ◌==◌, if◌then◌else◌, [], ◌++◌, decimal, Err, IfOk};
ghost use Rattle.std.specs.Prelude.{OnOk};
ghost use Rattle.base_types.specs.Draws.{first_state, state_after};
ghost use Rattle.est_gen.specs.Sources.{source_text, names_from, head_text, branch_text, branches_text, statement};
ghost use Rattle.est_gen.specs.Sources.{waited_name};

use base_types::{Draw, Limits, NoMemory, put};
use std::alloc::Global;
use thiserror::Error;

/// A generated source, and the draws that go on after it.
#[derive(Drop)]
pub struct Generated {
    pub source: Vec<u8>,
    pub rest: Draw,
}

/// Why no source is generated.
#[derive(Clone, Copy, Debug, Error, PartialEq)]
pub enum GenFault {
    /// No branch, or more than `Limits::BRANCHES`.
    #[error("the number of branches is not in range")]
    BadBranches,
    /// Memory was wanted and not found.
    #[error("no memory")]
    NoMemory,
}

/// The source of the module GEN with this many branches, made at random from a start number. It has the inputs
/// `I0` to `I7`, the outputs `O0` to `O7`, and a local signal for each branch.
/// Its errors are a number of branches that is not 1 to `Limits::BRANCHES`, and out of memory.
pub fn generate_source(alloc: Global, start: u64, branches: u32) -> Result<Generated, GenFault>
    ensures source { IfOk result (λ g. g.source.items ≡ source_text start branches) }
    ensures rest { IfOk result (λ g. g.rest ≡ state_after (3 * branches) (first_state start)) }
    ensures refused { (result ≡ Err GenFault.BadBranches) ↔ ((branches ≡ 0) ⊎ (Limits.BRANCHES < branches)) }
{
    if branches == 0 || u64::from(branches) > Limits::BRANCHES {
        return Err(GenFault::BadBranches);
    }
    match drawn_source(alloc, start, branches) {
        Ok((source, rest)) => Ok(Generated { source, rest }),
        Err(NoMemory) => Err(GenFault::NoMemory),
    }
}

fn drawn_source(alloc: Global, start: u64, branches: u32) -> Result<(Vec<u8>, Draw), NoMemory>
    requires { 0 < branches }
    ensures source { IfOk result (λ g. g.0.items ≡ source_text start branches) }
    ensures rest { IfOk result (λ g. g.1 ≡ state_after (3 * branches) (first_state start)) }
{
    let mut text = Vec::new(alloc);
    let mut draw = Draw::new(start);
    put_head(&mut text, branches)?;
    put_branches(&mut text, branches, &mut draw)?;
    put(&mut text, b"]\nend signal\nend module\n")?;
    Ok((text, draw))
}

// The lines before the branches.
fn put_head(text: &mut Vec<u8>, branches: u32) -> Result<(), NoMemory>
    ensures { OnOk result (text.new.items ≡ text.old.items ++ head_text branches) }
{
    put(text, b"module GEN:\ninput ")?;
    put_names(text, b"I", 8)?;
    put(text, b";\noutput ")?;
    put_names(text, b"O", 8)?;
    put(text, b";\nsignal ")?;
    put_names(text, b"S", branches)?;
    put(text, b" in\n[\n")
}

// The names of a mark and a number from 0 on, with a comma and a space between.
fn put_names(text: &mut Vec<u8>, mark: &[u8], count: u32) -> Result<(), NoMemory>
    ensures { OnOk result (text.new.items ≡ text.old.items ++ names_from mark.now 0 count) }
{
    for number in 0..count {
        put_between(text, b", ", number)?;
        put_number(text, mark, number)?;
    }
    Ok(())
}

// Each branch, with a line `||` between two.
fn put_branches(text: &mut Vec<u8>, branches: u32, draw: &mut Draw) -> Result<(), NoMemory>
    ensures text { OnOk result (text.new.items ≡ text.old.items ++ branches_text 0 branches draw.old) }
    ensures state { OnOk result (draw.new ≡ state_after (3 * branches) draw.old) }
{
    for number in 0..branches {
        put_between(text, b"||\n", number)?;
        put_branch(text, number, draw)?;
    }
    Ok(())
}

// The line of the branch with this number.
fn put_branch(text: &mut Vec<u8>, number: u32, draw: &mut Draw) -> Result<(), NoMemory>
    ensures text { OnOk result (text.new.items ≡ text.old.items ++ branch_text number draw.old) }
    ensures state { OnOk result (draw.new ≡ state_after 3 draw.old) }
{
    let shape = draw.next(4);
    let input = draw.next(8);
    let output = draw.next(8);
    match shape {
        0 => put_every(text, number, input, output),
        1 => put_await(text, number, input, output),
        2 => put_suspend(text, number, input, output),
        _ => put_abort(text, number, input, output),
    }
}

fn put_every(text: &mut Vec<u8>, number: u32, input: u32, output: u32) -> Result<(), NoMemory>
    ensures { OnOk result (text.new.items ≡ text.old.items ++ statement 0 number input output) }
{
    put_number(text, b"every I", input)?;
    put_number(text, b" do emit S", number)?;
    put_number(text, b"; emit O", output)?;
    put(text, b" end every\n")
}

fn put_await(text: &mut Vec<u8>, number: u32, input: u32, output: u32) -> Result<(), NoMemory>
    ensures { OnOk result (text.new.items ≡ text.old.items ++ statement 1 number input output) }
{
    put(text, b"loop await ")?;
    put_waited(text, number, output)?;
    put_number(text, b"; emit S", number)?;
    put_number(text, b"; present I", input)?;
    put_number(text, b" then emit O", output)?;
    put(text, b" end present end loop\n")
}

fn put_suspend(text: &mut Vec<u8>, number: u32, input: u32, output: u32) -> Result<(), NoMemory>
    ensures { OnOk result (text.new.items ≡ text.old.items ++ statement 2 number input output) }
{
    put(text, b"suspend loop present ")?;
    put_waited(text, number, output)?;
    put_number(text, b" then emit S", number)?;
    put_number(text, b" end present; pause; emit O", output)?;
    put_number(text, b"; pause end loop when I", input)?;
    put(text, b"\n")
}

fn put_abort(text: &mut Vec<u8>, number: u32, input: u32, output: u32) -> Result<(), NoMemory>
    ensures { OnOk result (text.new.items ≡ text.old.items ++ statement 3 number input output) }
{
    put_number(text, b"loop abort sustain S", number)?;
    put_number(text, b" when I", input)?;
    put(text, b"; await 2 ")?;
    put_waited(text, number, output)?;
    put_number(text, b"; emit O", output)?;
    put(text, b" end loop\n")
}

// The signal that a branch waits for: that of the branch before it, and for the first an input.
fn put_waited(text: &mut Vec<u8>, number: u32, output: u32) -> Result<(), NoMemory>
    ensures { OnOk result (text.new.items ≡ text.old.items ++ waited_name number output) }
{
    if number == 0 {
        put_number(text, b"I", output)
    } else {
        put_number(text, b"S", number - 1)
    }
}

// What stands before the item with this number and after the one before it.
fn put_between(text: &mut Vec<u8>, separator: &[u8], number: u32) -> Result<(), NoMemory>
    ensures { OnOk result (text.new.items ≡ text.old.items ++ (if number == 0 then [] else separator.now)) }
{
    put(text, if number == 0 { b"" } else { separator })
}

// Some bytes, and a decimal number after them.
fn put_number(text: &mut Vec<u8>, mark: &[u8], number: u32) -> Result<(), NoMemory>
    ensures { OnOk result (text.new.items ≡ text.old.items ++ (mark.now ++ decimal number)) }
{
    base_types::put_number(text, mark, number as usize)
}
