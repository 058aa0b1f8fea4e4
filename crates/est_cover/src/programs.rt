// Covered programs.

ghost use Rattle.std.specs.Prelude.{◌≡◌, ◌+◌, ◌≤◌, ◌++◌, ℕ, [], List, IfOk, OnOk, drop, length, map, take};
ghost use Rattle.est_ast.specs.FlatViews.{flat_of, flat_stmt_of};
ghost use Rattle.est_cover.specs.Covered.{covered, visible_count};
ghost use Rattle.est_ast.specs.FlatTrees.{Flat as PlainFlat};
ghost use Rattle.est_cover.specs.Heads.{IsHeadOf};
ghost use Rattle.est_cover.specs.Points.{points_of};

use crate::covering::cover;
use crate::heads::Head;
use crate::points::Point;
use crate::portions::Portion;
use base_types::{NoMemory, SignalInfo, Text, copy_relations};
use est_ast::{Flat, FlatStmt};
use std::alloc::Global;

/// The program with new outgoing signals of these names, one for each of as many points from the one with the number
/// `first` on. Where fewer points are left, the last of the new signals are never emitted.
/// It takes time and memory in proportion to the program. Out of memory is the only error.
///
/// Example: `emit O` has one point, and its covered program is `emit p0; emit O` with the outgoing signals `O` and
/// `p0`.
pub fn cover_program(
    alloc: Global,
    flat: &Flat,
    first: usize,
    names: &[SignalInfo],
) -> Result<Flat, NoMemory>
    requires interface { visible_count (flat_of flat.now) ≤ length flat.now.signals.items }
    requires room { length flat.now.signals.items + length names.now ≤ 4096 }
    ensures { IfOk result (λ c. flat_of c ≡ covered (flat_of flat.now) first (map (λ s. s.name) names.now)) }
{
    let count = names.len() as u32;
    let seen = flat.inputs + (flat.both + flat.outputs);
    let portion = Portion { seen, first, count };
    let head = Box::new(alloc, head_of(alloc, flat, names)?)?;
    let mut points = Vec::new(alloc);
    let body = cover(alloc, portion, &mut points, &flat.body)?;
    Ok(whole(Box::into_inner(head), body))
}

/// The points of a program, in order. Out of memory is the only error.
pub fn program_points(alloc: Global, flat: &Flat) -> Result<Vec<Point>, NoMemory>
    ensures { IfOk result (λ points. points.items ≡ points_of (flat_of flat.now)) }
{
    let (seen, first, count) = (0, 0, 0);
    let portion = Portion { seen, first, count };
    let mut points = Vec::new(alloc);
    let body = cover(alloc, portion, &mut points, &flat.body)?;
    drop(body);
    Ok(points)
}

// What a program with new outgoing signals of these names has, except for its body.
fn head_of(alloc: Global, flat: &Flat, names: &[SignalInfo]) -> Result<Head, NoMemory>
    requires interface { visible_count (flat_of flat.now) ≤ length flat.now.signals.items }
    requires room { length flat.now.signals.items + length names.now ≤ 4096 }
    ensures { IfOk result (IsHeadOf (flat_of flat.now) (map (λ s. s.name) names.now)) }
{
    let name = Text::from_bytes(alloc, flat.name.bytes())?;
    let seen = flat.inputs + (flat.both + flat.outputs);
    let signals = signals_with(alloc, flat.signals.as_slice(), seen as usize, names)?;
    let relations = copy_relations(alloc, flat.relations.as_slice())?;
    Ok(Head {
        name,
        signals,
        inputs: flat.inputs,
        both: flat.both,
        outputs: flat.outputs + names.len() as u32,
        relations,
    })
}

// The signals, with new ones after the first ones.
fn signals_with(
    alloc: Global,
    signals: &[SignalInfo],
    seen: usize,
    names: &[SignalInfo],
) -> Result<Vec<SignalInfo>, NoMemory>
    requires { seen ≤ length signals.now }
    ensures signals { IfOk result (λ v. map (λ s. s.name) v.items ≡ take seen (map (λ s. s.name) signals.now)
        ++ (map (λ s. s.name) names.now ++ drop seen (map (λ s. s.name) signals.now))) }
    ensures count { IfOk result (λ v. length v.items ≡ length signals.now + length names.now) }
{
    let mut all = Vec::new(alloc);
    push_signals(alloc, &mut all, &signals[..seen])?;
    push_signals(alloc, &mut all, names)?;
    push_signals(alloc, &mut all, &signals[seen..])?;
    Ok(all)
}

// Some more signals, in memory of their own.
fn push_signals(
    alloc: Global,
    all: &mut Vec<SignalInfo>,
    signals: &[SignalInfo],
) -> Result<(), NoMemory>
    ensures names { OnOk result (map (λ s. s.name) all.new.items
        ≡ map (λ s. s.name) all.old.items ++ map (λ s. s.name) signals.now) }
    ensures count { OnOk result (length all.new.items ≡ length all.old.items + length signals.now) }
{
    for signal in signals {
        let name = Text::from_bytes(alloc, signal.name.bytes())?;
        all.push(SignalInfo { name })?;
    }
    Ok(())
}

// The covered program of its parts.
fn whole(head: Head, body: FlatStmt) -> Flat
    ensures { (flat : PlainFlat) (first : ℕ) (names : List (List ℕ)) → IsHeadOf flat names head
        → flat_stmt_of body ≡ (covered flat first names).body → flat_of result ≡ covered flat first names }
{
    Flat {
        name: head.name,
        signals: head.signals,
        inputs: head.inputs,
        both: head.both,
        outputs: head.outputs,
        relations: head.relations,
        body,
    }
}
