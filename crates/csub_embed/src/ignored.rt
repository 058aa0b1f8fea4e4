// Whether something reads an input of a net.

ghost use Rattle.std.specs.Prelude.{◌≡◌, nat_lt};
ghost use Rattle.std.specs.List.{list_any};
ghost use Rattle.net_ir.specs.Runs.{netlist_of};
ghost use Rattle.csub_embed.specs.Written.{op_below, reads_input};

use base_types::NetId;
use net_ir::{Gate, Latch, Net, NetOut, Op};

// Whether something reads an input.
pub fn reads_input(net: &Net) -> bool
    ensures { result ≡ reads_input (netlist_of net.now) }
{
    let end = net.inputs.len();
    gates_below(end, &net.gates)
        || latches_below(end, &net.latches)
        || outputs_below(end, &net.outputs)
        || is_below(end, net.paused)
}

fn gates_below(end: usize, gates: &[Gate]) -> bool
    ensures { result ≡ list_any (λ g. op_below end g.op) gates.now }
{
    gates.iter().any(|gate| op_below(end, gate.op))
}

fn latches_below(end: usize, latches: &[Latch]) -> bool
    ensures { result ≡ list_any (λ l. nat_lt l.from.0 end) latches.now }
{
    latches.iter().any(|latch| is_below(end, latch.from))
}

fn outputs_below(end: usize, outputs: &[NetOut]) -> bool
    ensures { result ≡ list_any (λ o. nat_lt o.net.0 end) outputs.now }
{
    outputs.iter().any(|output| is_below(end, output.net))
}

// Whether an operator reads a net below this number.
fn op_below(end: usize, op: Op) -> bool
    ensures { result ≡ op_below end op }
{
    match op {
        Op::Const(_) => false,
        Op::Copy(a) | Op::Not(a) => is_below(end, a),
        Op::And(a, b) | Op::Or(a, b) => is_below(end, a) || is_below(end, b),
    }
}

fn is_below(end: usize, net: NetId) -> bool
    ensures { result ≡ nat_lt net.0 end }
{
    (net.0 as usize) < end
}
