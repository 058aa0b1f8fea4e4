// What a call does, with the names resolved.

ghost use Rattle.std.specs.Prelude.{◌≡◌, ◌+◌, ◌<◌, ◌≤◌, ◌^◌, List, [], ◌∷◌, ◌++◌, map, length, IfOk, OnOk};
ghost use Rattle.csub_guard.specs.Machine.{inputs_of, outputs_of};
ghost use Rattle.csub_guard.specs.Names.{declared};
ghost use Rattle.csub_guard.specs.Trees.{Piece as PlainPiece};
ghost use Rattle.csub_guard.specs.Views.{piece_of, program_of};
ghost use Rattle.csub_text.specs.Views.{assign_of};
ghost use Rattle.csub_text.specs.Trees.{Assign as PlainAssign};
ghost use Rattle.csub_guard_run.specs.Plans.{AreLow, AllTargets, IsStretch, IsBody, IsPlan, IsEnd, PieceFits};
ghost use Rattle.csub_guard_run.specs.Plans.{first_values};
ghost use Rattle.csub_guard_run.specs.Runners.{KeepsNames};
ghost use Rattle.run_steps.specs.Expressions.{expr_value};
ghost use Rattle.run_steps.specs.Plans.{Compiles};
ghost use Rattle.run_steps.specs.Slots.{slot_in};

use crate::track::{Track, track_of};
use base_types::NoMemory;
use csub_guard::{GuardedProgram, Piece, declared_names};
use csub_run::{input_slots, output_slots, push_assign, push_assigns, variable_values};
use csub_text::{Assign, Expr};
use indexmap::IndexSet;
use run_steps::{Plan, Term, expr_term, slot_of, slot_table};
use std::alloc::Global;
use std::mem;

/// Assignments as steps, and how many there are.
#[derive(Drop)]
pub struct Stretch {
    pub plan: Plan,
    pub count: u64,
}

/// Assignments, and a block after them.
#[derive(Drop)]
pub struct Block {
    pub before: Stretch,
    pub test: usize,
    pub first: Stretch,
    pub second: Stretch,
}

/// Blocks, and the assignments after the last one.
#[derive(Drop)]
pub struct Body {
    pub blocks: Vec<Block>,
    pub last: Stretch,
}

/// The plan of a call. The variables have the slots that their places among the declared names are: states, globals,
/// locals.
#[derive(Drop)]
pub struct CallPlan {
    pub inputs: Vec<usize>,
    pub outputs: Vec<usize>,
    pub track: Track,
    // The value that is returned, after the body.
    pub answer: Term,
    // The values of the variables before the first call.
    pub initial: Vec<bool>,
}

// The plan of a program.
pub fn plan_of(alloc: Global, program: &GuardedProgram) -> Result<CallPlan, NoMemory>
    requires { KeepsNames (program_of program.now) }
    ensures { IfOk result (IsPlan (program_of program.now)) }
{
    let names = declared_names(alloc, program)?;
    let slots = slot_table(alloc, &names)?;
    let Places {
        inputs,
        outputs,
        initial,
    } = places_of(alloc, &slots, program)?;
    let End { body, answer } = end_of(alloc, &slots, program)?;
    let track = track_of(alloc, &body)?;
    Ok(CallPlan {
        inputs,
        outputs,
        track,
        answer,
        initial,
    })
}

// The slots of the inputs and outputs, and the values of the variables before the first call.
#[derive(Drop)]
struct Places {
    inputs: Vec<usize>,
    outputs: Vec<usize>,
    initial: Vec<bool>,
}

fn places_of(
    alloc: Global,
    slots: &IndexSet<&[u8]>,
    program: &GuardedProgram,
) -> Result<Places, NoMemory>
    ensures inputs { IfOk result (λ p. p.inputs.items
        ≡ map (slot_in (map (λ k. k.now) slots.now.keys)) (inputs_of (program_of program.now))) }
    ensures outputs { IfOk result (λ p. p.outputs.items
        ≡ map (slot_in (map (λ k. k.now) slots.now.keys)) (outputs_of (program_of program.now))) }
    ensures initial { IfOk result (λ p. p.initial.items ≡ first_values (program_of program.now)) }
{
    Ok(Places {
        inputs: input_slots(alloc, slots, &program.globals)?,
        outputs: output_slots(alloc, slots, &program.globals)?,
        initial: variable_values(alloc, &program.states, &program.globals, &program.locals)?,
    })
}

// A body, and the term of the value that is returned after it.
#[derive(Drop)]
struct End {
    body: Body,
    answer: Term,
}

fn end_of(alloc: Global, slots: &IndexSet<&[u8]>, program: &GuardedProgram) -> Result<End, NoMemory>
    requires names { KeepsNames (program_of program.now) }
    requires slots { map (λ k. k.now) slots.now.keys ≡ declared (program_of program.now) }
    ensures { IfOk result (λ e. IsEnd (program_of program.now) e.body e.answer) }
{
    let mut body = body_of(alloc, slots, &program.body)?;
    let answer = answer_of(&mut body.last, slots, &program.answer)?;
    Ok(End { body, answer })
}

// The term of an expression after a stretch.
fn answer_of(last: &mut Stretch, slots: &IndexSet<&[u8]>, value: &Expr) -> Result<Term, NoMemory>
    ensures term { IfOk result
        (λ t. Compiles (expr_value (map (λ k. k.now) slots.now.keys) value.now) last.old.plan t last.new.plan) }
    ensures named { OnOk result (last.new.plan.named < last.new.plan.slots) }
    ensures free { OnOk result (last.new.plan.free ≤ last.new.plan.slots) }
    ensures count { last.new.count ≡ last.old.count }
{
    let answer = expr_term(&mut last.plan, slots, value)?;
    last.plan.slots();
    Ok(answer)
}

// The plans of pieces.
fn body_of(alloc: Global, slots: &IndexSet<&[u8]>, pieces: &[Piece]) -> Result<Body, NoMemory>
    requires fits { AllTargets (map (λ k. k.now) slots.now.keys) (map piece_of pieces.now) }
    requires few { length pieces.now < 2 ^ 64 }
    ensures { IfOk result (λ b. IsBody (map (λ k. k.now) slots.now.keys) (map piece_of pieces.now) b) }
{
    let mut body = Body {
        blocks: Vec::new(alloc),
        last: no_steps(alloc, slots)?,
    };
    for piece in pieces {
        push_piece(alloc, &mut body, slots, piece)?;
    }
    Ok(body)
}

// One piece more.
fn push_piece(
    alloc: Global,
    body: &mut Body,
    slots: &IndexSet<&[u8]>,
    piece: &Piece,
) -> Result<(), NoMemory>
    requires fits { PieceFits (map (λ k. k.now) slots.now.keys) (piece_of piece.now) }
    requires named { body.old.last.plan.named ≡ length slots.now.keys }
    requires few { body.old.last.count + 1 < 2 ^ 64 }
    ensures { OnOk result ((pieces : List PlainPiece) → IsBody (map (λ k. k.now) slots.now.keys) pieces body.old
        → IsBody (map (λ k. k.now) slots.now.keys) (pieces ++ piece_of piece.now ∷ []) body.new) }
{
    match piece {
        Piece::One(assign) => push_one(&mut body.last, slots, assign),
        Piece::If(test, first, second) => {
            let next = no_steps(alloc, slots)?;
            let halves = halves_of(alloc, slots, first, second)?;
            let before = mem::replace(&mut body.last, next);
            let block = block_of(before, slot_of(slots, test.bytes()), halves);
            Ok(body.blocks.push(block)?)
        }
    }
}

// The steps of the halves of a block.
#[derive(Drop)]
struct Halves {
    first: Stretch,
    second: Stretch,
}

fn halves_of(
    alloc: Global,
    slots: &IndexSet<&[u8]>,
    first: &[Assign],
    second: &[Assign],
) -> Result<Halves, NoMemory>
    requires first { AreLow (map (λ k. k.now) slots.now.keys) (map assign_of first.now) }
    requires second { AreLow (map (λ k. k.now) slots.now.keys) (map assign_of second.now) }
    ensures first { IfOk result
        (λ h. IsStretch (map (λ k. k.now) slots.now.keys) (map assign_of first.now) h.first) }
    ensures second { IfOk result
        (λ h. IsStretch (map (λ k. k.now) slots.now.keys) (map assign_of second.now) h.second) }
{
    Ok(Halves {
        first: stretch_of(alloc, slots, first)?,
        second: stretch_of(alloc, slots, second)?,
    })
}

// A block after these assignments.
fn block_of(before: Stretch, test: usize, halves: Halves) -> Block
    ensures before { result.before ≡ before }
    ensures test { result.test ≡ test }
    ensures first { result.first ≡ halves.first }
    ensures second { result.second ≡ halves.second }
{
    Block {
        before,
        test,
        first: halves.first,
        second: halves.second,
    }
}

// The steps of assignments.
fn stretch_of(
    alloc: Global,
    slots: &IndexSet<&[u8]>,
    assigns: &[Assign],
) -> Result<Stretch, NoMemory>
    requires { AreLow (map (λ k. k.now) slots.now.keys) (map assign_of assigns.now) }
    ensures { IfOk result (IsStretch (map (λ k. k.now) slots.now.keys) (map assign_of assigns.now)) }
{
    let mut plan = Plan::new(alloc, slots.len())?;
    push_assigns(&mut plan, slots, assigns)?;
    Ok(Stretch {
        plan,
        count: assigns.len() as u64,
    })
}

// No steps.
fn no_steps(alloc: Global, slots: &IndexSet<&[u8]>) -> Result<Stretch, NoMemory>
    ensures { IfOk result (IsStretch (map (λ k. k.now) slots.now.keys) []) }
{
    let plan = Plan::new(alloc, slots.len())?;
    Ok(Stretch { plan, count: 0 })
}

// One step more.
fn push_one(stretch: &mut Stretch, slots: &IndexSet<&[u8]>, assign: &Assign) -> Result<(), NoMemory>
    requires low { slot_in (map (λ k. k.now) slots.now.keys) assign.now.to < length slots.now.keys }
    requires named { stretch.old.plan.named ≡ length slots.now.keys }
    requires few { stretch.old.count + 1 < 2 ^ 64 }
    ensures { OnOk result ((assigns : List PlainAssign)
        → IsStretch (map (λ k. k.now) slots.now.keys) assigns stretch.old
        → IsStretch (map (λ k. k.now) slots.now.keys) (assigns ++ assign_of assign.now ∷ []) stretch.new) }
{
    push_assign(&mut stretch.plan, slots, assign)?;
    stretch.count += 1;
    Ok(())
}
