// Gates one after another, none of which carries a wire.

ghost use Rattle.std.specs.Prelude.{◌≡◌, ℕ, ◌+◌, ◌<◌, ◌≤◌, ◌^◌, true, false, not, ◌&&◌, ◌||◌, Option, Some, length};
ghost use Rattle.std.specs.Prelude.{IfOk, OnOk, slice_index_or};
ghost use Rattle.net_ir.specs.Gates.{op_value, operand_end, value_in};
ghost use Rattle.blif_net.specs.Depths.{joined_depth, op_depth};
ghost use Rattle.blif_net.specs.Drawings.{IsDrawing, Deepens, Draws, Joins, depth_at, is_low, said};

use base_types::{NetId, NoMemory};
use net_ir::{Gate, Op};

/// One more gate, and its net, where `first` is the number of the first gate.
pub(crate) fn push_gate(first: usize, gates: &mut Vec<Gate>, op: Op) -> Result<NetId, NoMemory>
    requires drawing { IsDrawing first gates.old.items }
    requires low { operand_end op ≤ first + length gates.old.items }
    requires room { first + length gates.old.items < 2 ^ 32 }
    ensures draws { IfOk result (λ n. Draws first gates.old.items gates.new.items (Some n) false
        (λ values. op_value (value_in values) op)) }
    ensures deep { IfOk result (λ n. Deepens first gates.old.items gates.new.items (Some n)
        (λ depths. Some (op_depth (λ k. slice_index_or depths k 0) op))) }
    ensures one { OnOk result (length gates.new.items ≡ length gates.old.items + 1) }
{
    let number = first + gates.len();
    gates.push(Gate { op, wire: None })?;
    Ok(NetId(number as u32))
}

/// The conjunction of what there is so far and one more net.
pub(crate) fn both(
    first: usize,
    gates: &mut Vec<Gate>,
    all: Option<NetId>,
    net: NetId,
) -> Result<NetId, NoMemory>
    requires drawing { IsDrawing first gates.old.items }
    requires all { is_low (first + length gates.old.items) all }
    requires net { is_low (first + length gates.old.items) (Some net) }
    requires room { first + length gates.old.items < 2 ^ 32 }
    ensures draws { IfOk result (λ n. Draws first gates.old.items gates.new.items (Some n) true
        (λ values. said true all values && said true (Some net) values)) }
    ensures deep { IfOk result (λ n. Deepens first gates.old.items gates.new.items (Some n)
        (λ depths. joined_depth (depth_at all depths) (slice_index_or depths net.0 0))) }
    ensures joins { IfOk result (λ n. (before parts : ℕ) → Joins before (length gates.old.items) all parts
        → Joins before (length gates.new.items) (Some n) (parts + 1)) }
    ensures few { OnOk result (length gates.new.items ≤ length gates.old.items + 1) }
{
    match all {
        Some(others) => push_gate(first, gates, Op::And(others, net)),
        None => Ok(net),
    }
}

/// The disjunction of what there is so far and one more net.
pub(crate) fn either(
    first: usize,
    gates: &mut Vec<Gate>,
    any: Option<NetId>,
    net: NetId,
) -> Result<NetId, NoMemory>
    requires drawing { IsDrawing first gates.old.items }
    requires any { is_low (first + length gates.old.items) any }
    requires net { is_low (first + length gates.old.items) (Some net) }
    requires room { first + length gates.old.items < 2 ^ 32 }
    ensures draws { IfOk result (λ n. Draws first gates.old.items gates.new.items (Some n) false
        (λ values. said false any values || said false (Some net) values)) }
    ensures deep { IfOk result (λ n. Deepens first gates.old.items gates.new.items (Some n)
        (λ depths. joined_depth (depth_at any depths) (slice_index_or depths net.0 0))) }
    ensures joins { IfOk result (λ n. (before parts : ℕ) → Joins before (length gates.old.items) any parts
        → Joins before (length gates.new.items) (Some n) (parts + 1)) }
    ensures few { OnOk result (length gates.new.items ≤ length gates.old.items + 1) }
{
    match any {
        Some(others) => push_gate(first, gates, Op::Or(others, net)),
        None => Ok(net),
    }
}
