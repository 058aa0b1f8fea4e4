// The names of a net's parts, and what gates make of them, written. Running out of memory is the only error.

ghost use Rattle.std.specs.Prelude.{◌≡◌, ◌+◌, ◌<◌, ◌≤◌, ◌++◌, OnOk};
ghost use Rattle.net_ir.specs.Gates.{operand_end};
ghost use Rattle.net_ir.specs.Netlists.{net_count};
ghost use Rattle.net_ir.specs.Runs.{netlist_of};
ghost use Rattle.net_expressions.specs.NetNames.{gate_name, name_of_net};
ghost use Rattle.net_expressions.specs.Operators.{op_expr};
ghost use Rattle.net_expressions.specs.Texts.{text_of};

use base_types::{NetId, NoMemory, put, put_number};
use net_ir::{Gate, Net, Op};
use net_writer::{Driver, driver_of};

/// How a language writes what gates make of the nets that they read: `input` are the names of a net's inputs, by their
/// numbers, `negation` is the sign of not, and `bit` are the constants.
pub trait GateText {
    ghost use Rattle.std.specs.Prelude.{◌≡◌, ◌<◌, ℕ, Bool, List, ◌++◌, length, OnOk};
    ghost use Rattle.net_ir.specs.Netlists.{Netlist};
    ghost use Rattle.net_ir.specs.Runs.{netlist_of};

    ghost input: { Netlist → ℕ → List ℕ };

    ghost negation: { List ℕ };

    ghost bit: { Bool → List ℕ };

    /// Writes the name of an input.
    fn put_input(text: &mut Vec<u8>, net: &Net, n: usize) -> Result<(), NoMemory>
        requires { n < length net.now.inputs.items }
        ensures { OnOk result (text.new.items ≡ text.old.items ++ input (netlist_of net.now) n) };

    /// The sign of not.
    fn negation() -> &'static [u8]
        ensures { result.now ≡ negation };

    /// A constant.
    fn bit(value: bool) -> &'static [u8]
        ensures { result.now ≡ bit value };
}

/// Writes what a gate makes of the nets that it reads.
pub fn put_op<T: GateText>(text: &mut Vec<u8>, net: &Net, op: Op) -> Result<(), NoMemory>
    requires { operand_end op ≤ net_count (netlist_of net.now) }
    ensures { OnOk result (text.new.items ≡ text.old.items ++ text_of T.negation T.bit
        (op_expr (name_of_net (T.input (netlist_of net.now)) (netlist_of net.now)) op)) }
{
    match op {
        Op::Const(value) => put(text, T::bit(value)),
        Op::Copy(a) => put_net::<T>(text, net, a),
        Op::Not(a) => {
            put(text, T::negation())?;
            put_net::<T>(text, net, a)
        }
        Op::And(a, b) => put_pair::<T>(text, net, a, b" & ", b),
        Op::Or(a, b) => put_pair::<T>(text, net, a, b" | ", b),
    }
}

// Two nets with a mark between them.
fn put_pair<T: GateText>(
    text: &mut Vec<u8>,
    net: &Net,
    a: NetId,
    mark: &[u8],
    b: NetId,
) -> Result<(), NoMemory>
    requires first { a.0 < net_count (netlist_of net.now) }
    requires second { b.0 < net_count (netlist_of net.now) }
    ensures { OnOk result (text.new.items ≡ text.old.items
        ++ (name_of_net (T.input (netlist_of net.now)) (netlist_of net.now) a.0
        ++ (mark.now ++ name_of_net (T.input (netlist_of net.now)) (netlist_of net.now) b.0))) }
{
    put_net::<T>(text, net, a)?;
    put(text, mark)?;
    put_net::<T>(text, net, b)
}

/// Writes the name of a net.
pub fn put_net<T: GateText>(text: &mut Vec<u8>, net: &Net, from: NetId) -> Result<(), NoMemory>
    requires { from.0 < net_count (netlist_of net.now) }
    ensures { OnOk result (text.new.items
        ≡ text.old.items ++ name_of_net (T.input (netlist_of net.now)) (netlist_of net.now) from.0) }
{
    match driver_of(net, from) {
        Driver::Input(j) => T::put_input(text, net, j),
        Driver::Latch(j) => put_number(text, b"s", j),
        Driver::Gate(k) => put_gate_name(text, k, net.gates[k]),
    }
}

/// Writes the name of a gate.
pub fn put_gate_name(text: &mut Vec<u8>, k: usize, gate: Gate) -> Result<(), NoMemory>
    ensures { OnOk result (text.new.items ≡ text.old.items ++ gate_name k gate.wire) }
{
    match gate.wire {
        Some(wire) => put_number(text, b"w", wire.0 as usize),
        None => put_number(text, b"g", k),
    }
}
