// What holds of two netlists in an instant, in the first one, and in one after another, as equations.

ghost use Rattle.std.specs.Prelude.{◌≡◌, ◌+◌, ◌≤◌, ◌^◌, ◌++◌, length, map, OnOk};
ghost use Rattle.net_ir.specs.Numbered.{numbered};
ghost use Rattle.net_follow.specs.Literals.{moved_equation};
ghost use Rattle.net_follow.specs.Frames.{net_literal, copy_equation, gate_equation};
ghost use Rattle.net_follow.specs.Frames.{gate_equations, input_equations, init_equations, link_equations};
ghost use Rattle.net_follow.specs.Frames.{shows_equation, output_equations};

use crate::literals::{Equation, Literal, Side, constant, moved_equation, opposite};
use base_types::{NoMemory, Text};
use net_ir::{Gate, Latch, NetOut, Op};

/// A net of a netlist, in an instant or in the next one.
pub(crate) fn net_literal(late: bool, side: Side, number: u32) -> Literal
    ensures { result ≡ net_literal late side number }
{
    Literal {
        late,
        side,
        number,
        positive: true,
    }
}

// One net, or the negation of one, has the value of another in the same netlist.
fn copy_equation(out: Literal, from: Literal) -> Equation
    ensures { result ≡ copy_equation out from }
{
    Equation {
        out,
        left: from,
        right: constant(true),
    }
}

// What a gate computes.
fn gate_equation(late: bool, side: Side, number: u32, op: Op) -> Equation
    ensures { result ≡ gate_equation late side number op }
{
    let out = net_literal(late, side, number);
    match op {
        Op::Const(value) => {
            let out = if value { out } else { opposite(out) };
            copy_equation(out, constant(true))
        }
        Op::Copy(a) => copy_equation(out, net_literal(late, side, a.0)),
        Op::Not(a) => copy_equation(out, opposite(net_literal(late, side, a.0))),
        Op::And(a, b) => Equation {
            out,
            left: net_literal(late, side, a.0),
            right: net_literal(late, side, b.0),
        },
        Op::Or(a, b) => Equation {
            out: opposite(out),
            left: opposite(net_literal(late, side, a.0)),
            right: opposite(net_literal(late, side, b.0)),
        },
    }
}

/// What the gates of a netlist compute.
pub(crate) fn push_gates(
    list: &mut Vec<Equation>,
    late: bool,
    side: Side,
    first: usize,
    gates: &[Gate],
) -> Result<(), NoMemory>
    requires numbered { first + length gates.now ≤ 2 ^ 32 }
    ensures { OnOk result (list.new.items ≡ list.old.items ++ gate_equations late side first gates.now) }
{
    for (k, gate) in gates.iter().enumerate() {
        list.push(gate_equation(late, side, (first + k) as u32, gate.op))?;
    }
    Ok(())
}

/// The inputs of the two netlists have the same values.
pub(crate) fn push_inputs(
    list: &mut Vec<Equation>,
    late: bool,
    inputs: &[Text],
) -> Result<(), NoMemory>
    requires numbered { length inputs.now ≤ 2 ^ 32 }
    ensures { OnOk result (list.new.items ≡ list.old.items ++ input_equations late inputs.now) }
{
    for k in 0..inputs.len() {
        let number = k as u32;
        list.push(copy_equation(
            net_literal(late, Side::New, number),
            net_literal(late, Side::Old, number),
        ))?;
    }
    Ok(())
}

/// The latches of a netlist have their initial values.
pub(crate) fn push_inits(
    list: &mut Vec<Equation>,
    side: Side,
    first: usize,
    latches: &[Latch],
) -> Result<(), NoMemory>
    requires numbered { first + length latches.now ≤ 2 ^ 32 }
    ensures { OnOk result (list.new.items ≡ list.old.items ++ init_equations side first latches.now) }
{
    for (k, latch) in latches.iter().enumerate() {
        list.push(gate_equation(false, side, (first + k) as u32, Op::Const(latch.init)))?;
    }
    Ok(())
}

/// The latches of a netlist have the values that their nets had one instant before.
pub(crate) fn push_links(
    list: &mut Vec<Equation>,
    side: Side,
    first: usize,
    latches: &[Latch],
) -> Result<(), NoMemory>
    requires numbered { first + length latches.now ≤ 2 ^ 32 }
    ensures { OnOk result (list.new.items ≡ list.old.items ++ link_equations side first latches.now) }
{
    for (k, latch) in latches.iter().enumerate() {
        list.push(copy_equation(
            net_literal(true, side, (first + k) as u32),
            net_literal(false, side, latch.from.0),
        ))?;
    }
    Ok(())
}

/// The outputs of the two netlists show the same.
pub(crate) fn push_outputs(
    list: &mut Vec<Equation>,
    old: &[NetOut],
    new: &[NetOut],
) -> Result<(), NoMemory>
    requires same_count { length new.now ≡ length old.now }
    ensures { OnOk result (list.new.items ≡ list.old.items ++ output_equations old.now new.now) }
{
    for (k, out) in old.iter().enumerate() {
        list.push(shows_equation(new[k].net.0, out.net.0))?;
    }
    Ok(())
}

/// A net of the new netlist shows what one of the given netlist shows.
pub(crate) fn shows_equation(new: u32, old: u32) -> Equation
    ensures { result ≡ shows_equation new old }
{
    copy_equation(
        net_literal(false, Side::New, new),
        net_literal(false, Side::Old, old),
    )
}

/// The equations, in the first of two instants or in the second one.
pub(crate) fn push_moved(
    list: &mut Vec<Equation>,
    late: bool,
    equations: &[Equation],
) -> Result<(), NoMemory>
    ensures { OnOk result (list.new.items ≡ list.old.items ++ map (moved_equation late) equations.now) }
{
    for equation in equations {
        list.push(moved_equation(*equation, late))?;
    }
    Ok(())
}
