// The uses of names in a program.

ghost use Rattle.std.specs.Prelude.{◌≡◌, ◌++◌, [], ◌∷◌, map, flat_map, IfOk, OnOk};
ghost use Rattle.csub_guard.specs.Names.{Taken, piece_uses, all_uses, used_name};
ghost use Rattle.csub_guard.specs.Views.{piece_of, program_of};
ghost use Rattle.csub_text.specs.Views.{assign_of, expr_of};
ghost use Rattle.net_expressions.specs.Names.{names_in};
ghost use Rattle.csub_guard_read.specs.Uses.{place_of, use_of, uses_by};

use base_types::NoMemory;
use csub_guard::{GuardedProgram, Piece};
use csub_text::{Assign, Expr};
use net_expressions::names_in;
use std::alloc::Global;

// Where a name is used: outside of blocks, or in the first or the second half of the block with this number and test.
#[derive(Clone, Copy)]
pub enum Place<'a> {
    Outside,
    First(usize, &'a [u8]),
    Second(usize, &'a [u8]),
}

// A name that is assigned, one that is read, or one that a block tests.
#[derive(Clone, Copy)]
pub enum Use<'a> {
    Put(&'a [u8], Place<'a>),
    Taken(&'a [u8], Place<'a>),
    Tested(&'a [u8]),
}

// Whether the name that is assigned stands before those that are read, as in the text, or after them.
#[derive(Clone, Copy)]
pub enum Order {
    Written,
    Made,
}

pub fn used_name<'a>(place: Use<'a>) -> &'a [u8]
    ensures { result.now ≡ used_name (use_of place.entry) }
{
    match place {
        Use::Put(name, _) => name,
        Use::Taken(name, _) => name,
        Use::Tested(name) => name,
    }
}

// The uses of names in a program.
pub fn uses<'a>(
    alloc: Global,
    order: Order,
    program: &'a GuardedProgram,
) -> Result<Vec<Use<'a>>, NoMemory>
    ensures { IfOk result (λ v. map use_of v.items ≡ all_uses (uses_by order) (program_of program.now)) }
{
    let mut uses = Vec::new(alloc);
    'pieces: for (k, piece) in program.body.iter().enumerate() {
        push_piece(alloc, &mut uses, order, k, piece)?;
    }
    push_taken(alloc, &mut uses, Place::Outside, &program.answer)?;
    Ok(uses)
}

// Those of a piece with this number.
fn push_piece<'a>(
    alloc: Global,
    uses: &mut Vec<Use<'a>>,
    order: Order,
    k: usize,
    piece: &'a Piece,
) -> Result<(), NoMemory>
    ensures { OnOk result (map use_of uses.new.items
        ≡ map use_of uses.old.items ++ piece_uses (uses_by order) k (piece_of piece.now ∷ [])) }
{
    match piece {
        Piece::One(assign) => push_assign(alloc, uses, order, Place::Outside, assign),
        Piece::If(test, first, second) => {
            let test = test.bytes();
            uses.push(Use::Tested(test))?;
            push_assigns(alloc, uses, order, Place::First(k, test), first)?;
            push_assigns(alloc, uses, order, Place::Second(k, test), second)
        }
    }
}

// Those of assignments at a place.
fn push_assigns<'a>(
    alloc: Global,
    uses: &mut Vec<Use<'a>>,
    order: Order,
    place: Place<'a>,
    assigns: &'a [Assign],
) -> Result<(), NoMemory>
    ensures { OnOk result (map use_of uses.new.items
        ≡ map use_of uses.old.items ++ flat_map (uses_by order (place_of place.entry)) (map assign_of assigns.now)) }
{
    for assign in assigns {
        push_assign(alloc, uses, order, place, assign)?;
    }
    Ok(())
}

// Those of an assignment at a place.
fn push_assign<'a>(
    alloc: Global,
    uses: &mut Vec<Use<'a>>,
    order: Order,
    place: Place<'a>,
    assign: &'a Assign,
) -> Result<(), NoMemory>
    ensures { OnOk result (map use_of uses.new.items
        ≡ map use_of uses.old.items ++ uses_by order (place_of place.entry) (assign_of assign.now)) }
{
    let target = Use::Put(assign.to.bytes(), place);
    match order {
        Order::Written => {
            uses.push(target)?;
            push_taken(alloc, uses, place, &assign.value)
        }
        Order::Made => {
            push_taken(alloc, uses, place, &assign.value)?;
            Ok(uses.push(target)?)
        }
    }
}

// The names in an expression are read.
fn push_taken<'a>(
    alloc: Global,
    uses: &mut Vec<Use<'a>>,
    place: Place<'a>,
    value: &'a Expr,
) -> Result<(), NoMemory>
    ensures { OnOk result (map use_of uses.new.items
        ≡ map use_of uses.old.items ++ map (λ n. Taken n (place_of place.entry)) (names_in (expr_of value.now))) }
{
    let names = names_in(alloc, value)?;
    for name in &names {
        uses.push(Use::Taken(*name, place))?;
    }
    Ok(())
}
