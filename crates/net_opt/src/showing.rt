// What of a netlist something shows.

ghost use Rattle.std.specs.Prelude.{◌≡◌, ℕ, ◌<◌, ◌≤◌, Bool, true, false, length, replicate, IfOk, IfSome, IfNone};
ghost use Rattle.std.specs.Prelude.{OnOk, IsTrue};
ghost use Rattle.net_ir.specs.Gates.{operand_end};
ghost use Rattle.net_ir.specs.Netlists.{net_count};
ghost use Rattle.net_ir.specs.Runs.{netlist_of};
ghost use Rattle.net_opt.specs.Shown.{EachIsShown, IsClosed, IsRead};
ghost use Rattle.net_opt.specs.Showing.{marked, AllAre, Grows, IsPart, ReadsMarked};

use crate::keeping::kept_net;
use base_types::{NetId, NoMemory};
use net_ir::{Net, Op};
use std::alloc::Global;

/// The netlist without what nothing shows. None where something shows each latch and each gate.
pub(crate) fn shown_part(alloc: Global, net: &Net) -> Result<Option<Net>, NoMemory>
    ensures whole { IfOk result (λ o. IfNone o (EachIsShown (netlist_of net.now))) }
    ensures part { IfOk result (λ o. IfSome o (λ new. IsPart (netlist_of net.now) (netlist_of new))) }
{
    let mut marks = shown_marks(alloc, net)?;
    let inputs = net.inputs.len();
    if are_marked(&marks, inputs) {
        return Ok(None);
    }
    mark_first(&mut marks, inputs);
    Ok(Some(kept_net(alloc, net, &marks)?))
}

// Marks this many nets from the first on.
fn mark_first(marks: &mut Vec<bool>, count: usize)
    requires { count ≤ length marks.old.items }
    ensures count { length marks.new.items ≡ length marks.old.items }
    ensures first { (n : ℕ) → n < count → IsTrue (marked marks.new.items n) }
    ensures others { (n : ℕ) → count ≤ n → marked marks.new.items n ≡ marked marks.old.items n }
{
    for place in 0..count {
        marks[place] = true;
    }
}

// Marks what is shown: the nets of the outputs and of `paused`, and then what these read, and so on.
fn shown_marks(alloc: Global, net: &Net) -> Result<Vec<bool>, NoMemory>
    ensures count { IfOk result (λ marks. length marks.items ≡ net_count (netlist_of net.now)) }
    ensures shown { IfOk result (λ marks. (P : ℕ → Bool) → IsClosed (netlist_of net.now) P
        → (n : ℕ) → IsTrue (marked marks.items n) → IsTrue (P n)) }
    ensures closed { IfOk result (λ marks. IsClosed (netlist_of net.now) (marked marks.items)) }
{
    let count = net.inputs.len() + net.latches.len() + net.gates.len();
    let mut marks = no_marks(alloc, count)?;
    let mut found = Vec::new(alloc);
    reach(&mut marks, &mut found, net.paused)?;
    for output in &net.outputs {
        reach(&mut marks, &mut found, output.net)?;
    }
    for step in 0..usize::MAX {
        if step >= found.len() {
            break;
        }
        let next = found[step];
        reach_read(net, &mut marks, &mut found, next)?;
    }
    Ok(marks)
}

// Marks of this many nets, of which none is marked.
fn no_marks(alloc: Global, count: usize) -> Result<Vec<bool>, NoMemory>
    ensures { IfOk result (λ marks. marks.items ≡ replicate count false) }
{
    Ok(vec![in alloc; false; count]?)
}

// Marks the nets that a gate or a latch reads.
fn reach_read(
    net: &Net,
    marks: &mut Vec<bool>,
    found: &mut Vec<NetId>,
    reader: NetId,
) -> Result<(), NoMemory>
    requires { length marks.old.items ≡ net_count (netlist_of net.now) }
    ensures grows { OnOk result (Grows marks.old.items found.old.items marks.new.items found.new.items) }
    ensures read { OnOk result (ReadsMarked (netlist_of net.now) marks.new.items reader.0) }
    ensures shown { OnOk result ((P : ℕ → Bool) → IsClosed (netlist_of net.now) P → IsTrue (P reader.0)
        → AllAre P marks.old.items found.old.items → AllAre P marks.new.items found.new.items) }
{
    let place = reader.0 as usize;
    let first = net.inputs.len() + net.latches.len();
    if place < net.inputs.len() {
        return Ok(());
    }
    if place < first {
        let latch = net.latches[place - net.inputs.len()];
        return Ok(reach(marks, found, latch.from)?);
    }
    if place - first >= net.gates.len() {
        return Ok(());
    }
    let gate = net.gates[place - first];
    Ok(reach_operands(marks, found, gate.op)?)
}

// Marks the nets that an operator reads.
fn reach_operands(marks: &mut Vec<bool>, found: &mut Vec<NetId>, op: Op) -> Result<(), NoMemory>
    requires { operand_end op ≤ length marks.old.items }
    ensures grows { OnOk result (Grows marks.old.items found.old.items marks.new.items found.new.items) }
    ensures read { OnOk result (IsRead (marked marks.new.items) op) }
    ensures shown { OnOk result ((P : ℕ → Bool) → IsRead P op
        → AllAre P marks.old.items found.old.items → AllAre P marks.new.items found.new.items) }
{
    match op {
        Op::Const(_) => Ok(()),
        Op::Copy(a) | Op::Not(a) => Ok(reach(marks, found, a)?),
        Op::And(a, b) | Op::Or(a, b) => {
            reach(marks, found, a)?;
            Ok(reach(marks, found, b)?)
        }
    }
}

// Marks a net, and remembers it, unless it was marked.
fn reach(marks: &mut Vec<bool>, found: &mut Vec<NetId>, net: NetId) -> Result<(), NoMemory>
    requires { net.0 < length marks.old.items }
    ensures grows { OnOk result (Grows marks.old.items found.old.items marks.new.items found.new.items) }
    ensures marked { OnOk result (IsTrue (marked marks.new.items net.0)) }
    ensures shown { OnOk result ((P : ℕ → Bool) → IsTrue (P net.0)
        → AllAre P marks.old.items found.old.items → AllAre P marks.new.items found.new.items) }
{
    let place = net.0 as usize;
    if marks[place] {
        return Ok(());
    }
    marks[place] = true;
    Ok(found.push(net)?)
}

// Whether all from this place on are marked.
fn are_marked(marks: &[bool], first: usize) -> bool
    ensures all { result ≡ true → (n : ℕ) → first ≤ n → n < length marks.now → IsTrue (marked marks.now n) }
    ensures one { result ≡ false → (n : ℕ) × first ≤ n × n < length marks.now
        × marked marks.now n ≡ false }
{
    for place in first..marks.len() {
        if !marks[place] {
            return false;
        }
    }
    true
}
