// The nets that are needed.

ghost use Rattle.std.specs.Prelude.{◌≡◌, ℕ, true, is_some, ◌+◌, ◌<◌, ◌≤◌, ◌||◌, ◌==◌, [], ◌++◌, length, map, replicate};
ghost use Rattle.std.specs.Prelude.{IfOk, All};
ghost use Rattle.std.specs.List.{list_any};
ghost use Rattle.net_ir.specs.Gates.{operand_end, ReadsLower};
ghost use Rattle.net_simp.specs.Renaming.{stand_in};
ghost use Rattle.net_simp.specs.SimpleNets.{reads};
ghost use Rattle.net_ir.specs.Netlists.{first_gate, net_count};
ghost use Rattle.net_ir.specs.Runs.{netlist_of};
ghost use Rattle.net_simp.specs.Needs.{marked, NeedsMet, Needed};

use crate::folding::Renumbered;
use crate::gates::stand_in;
use base_types::{NetId, NoMemory};
use net_ir::{Gate, Latch, Net, NetOut, Op};
use std::alloc::Global;

/// One mark for each net: true for inputs, latches and gates that carry a wire.
pub(crate) fn first_marks(
    alloc: Global,
    first: usize,
    gates: &[Gate],
) -> Result<Vec<bool>, NoMemory>
    ensures { IfOk result (λ v. v.items ≡ replicate first true ++ map (λ g. is_some g.wire) gates.now) }
{
    let mut marks = vec![in alloc; true; first]?;
    for gate in gates {
        marks.push(gate.wire.is_some())?;
    }
    Ok(marks)
}

/// Marks what is needed: the nets that stand for what outputs, latches and `paused` show, and what marked gates
/// read.
pub(crate) fn mark_needed(net: &Net, first: usize, draft: &Renumbered, marks: &mut [bool])
    requires first { first ≡ first_gate (netlist_of net.now) }
    requires names { length draft.now.names.items ≡ net_count (netlist_of net.now) }
    requires names_in_range { (n : ℕ) → n < length draft.now.names.items
        → stand_in draft.now.names.items n < length marks.old }
    requires count { length marks.old ≡ first + length draft.now.gates.items }
    requires reads_lower { ReadsLower first draft.now.gates.items }
    ensures { Needed (netlist_of net.now) draft.now.names.items draft.now.gates.items marks.old marks.new }
{
    mark_outputs(&draft.names, &net.outputs, marks);
    mark_latches(&draft.names, &net.latches, marks);
    mark(stand_in(&draft.names, net.paused), marks);
    mark_reads(first, &draft.gates, marks);
}

// Marks the nets that stand for those of the outputs.
fn mark_outputs(names: &[NetId], outputs: &[NetOut], marks: &mut [bool])
    requires outputs_in_range { All (λ o. o.net.0 < length names.now) outputs.now }
    requires names_in_range { (n : ℕ) → n < length names.now → stand_in names.now n < length marks.old }
    ensures count { length marks.new ≡ length marks.old }
    ensures marks { (n : ℕ) → marked marks.new n
        ≡ (marked marks.old n || list_any (λ o. stand_in names.now o.net.0 == n) outputs.now) }
{
    for output in outputs {
        marks[stand_in(names, output.net).0 as usize] = true;
    }
}

// Marks the nets that stand for those that the latches read.
fn mark_latches(names: &[NetId], latches: &[Latch], marks: &mut [bool])
    requires latches_in_range { All (λ l. l.from.0 < length names.now) latches.now }
    requires names_in_range { (n : ℕ) → n < length names.now → stand_in names.now n < length marks.old }
    ensures count { length marks.new ≡ length marks.old }
    ensures marks { (n : ℕ) → marked marks.new n
        ≡ (marked marks.old n || list_any (λ l. stand_in names.now l.from.0 == n) latches.now) }
{
    for latch in latches {
        marks[stand_in(names, latch.from).0 as usize] = true;
    }
}

// Marks the nets that marked gates read, from the last gate to the first.
fn mark_reads(first: usize, gates: &[Gate], marks: &mut [bool])
    requires count { length marks.old ≡ first + length gates.now }
    requires reads_lower { ReadsLower first gates.now }
    ensures { NeedsMet first gates.now marks.old marks.new 0 }
{
    for k in (0..gates.len()).rev() {
        if marks[first + k] {
            mark_operands(gates[k].op, marks);
        }
    }
}

// Marks the nets that an operator reads.
fn mark_operands(op: Op, marks: &mut [bool])
    requires { operand_end op ≤ length marks.old }
    ensures count { length marks.new ≡ length marks.old }
    ensures marks { (n : ℕ) → marked marks.new n ≡ (marked marks.old n || reads op n) }
{
    match op {
        Op::Const(_) => {}
        Op::Copy(a) | Op::Not(a) => mark(a, marks),
        Op::And(a, b) | Op::Or(a, b) => {
            mark(a, marks);
            mark(b, marks);
        }
    }
}

// Marks a net.
fn mark(net: NetId, marks: &mut [bool])
    requires { net.0 < length marks.old }
    ensures count { length marks.new ≡ length marks.old }
    ensures marks { (n : ℕ) → marked marks.new n ≡ (marked marks.old n || net.0 == n) }
{
    marks[net.0 as usize] = true;
}
