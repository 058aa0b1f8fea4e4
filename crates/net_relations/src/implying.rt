// Which signed net is true whenever another one is, where implications of the inputs hold.

ghost use Rattle.std.specs.Prelude.{◌≡◌, ◌<◌, ◌≤◌, false, true, not, All, IsTrue, IfNone, IfSome, length, slice_get};
ghost use Rattle.std.specs.Prelude.{◌+◌, Bool, List};
ghost use Rattle.net_ir.specs.Gates.{operand_end, op_value, value_in};
ghost use Rattle.net_ir.specs.Netlists.{first_gate, net_count};
ghost use Rattle.net_ir.specs.Runs.{netlist_of};
ghost use Rattle.net_relations.specs.Implications.{Entails, Holds, IsBelow, IsGateOf, IsView, StandsForNet};

use crate::implications::{Implication, Signed, opposite};
use base_types::NetId;
use net_ir::{Net, Op};

// What makes a signed net true.
#[derive(Clone, Copy)]
enum View {
    // It is an input, a latch or a constant.
    Leaf,
    // Both of two signed nets.
    Both(Signed, Signed),
    // One of two signed nets.
    Either(Signed, Signed),
}

// The operator of a net's gate. None where the net is an input or a latch.
fn op_of(net: &Net, id: NetId) -> Option<Op>
    requires { id.0 < net_count (netlist_of net.now) }
    ensures { IfSome result (IsGateOf (netlist_of net.now) id.0) }
{
    let first = net.inputs.len() + net.latches.len();
    let number = id.0 as usize;
    if number < first {
        None
    } else {
        Some(net.gates[number - first].op)
    }
}

/// A net or its negation, read through a gate that copies or negates.
pub(crate) fn signed(net: &Net, id: NetId, negated: bool) -> Signed
    requires { id.0 < net_count (netlist_of net.now) }
    ensures { StandsForNet (netlist_of net.now) id.0 negated result }
{
    match op_of(net, id) {
        Some(Op::Not(a)) => Signed {
            net: a,
            negated: !negated,
        },
        Some(Op::Copy(a)) => Signed { net: a, negated },
        _ => Signed { net: id, negated },
    }
}

fn view_of(net: &Net, whole: Signed) -> View
    requires { whole.net.0 < net_count (netlist_of net.now) }
    ensures { IsView (netlist_of net.now) whole result }
{
    match op_of(net, whole.net) {
        Some(Op::And(a, b)) => {
            let left = signed(net, a, whole.negated);
            let right = signed(net, b, whole.negated);
            joined(whole.negated, left, right)
        }
        Some(Op::Or(a, b)) => {
            let left = signed(net, a, whole.negated);
            let right = signed(net, b, whole.negated);
            joined(!whole.negated, left, right)
        }
        _ => View::Leaf,
    }
}

fn joined(either: bool, left: Signed, right: Signed) -> View
    ensures both { either ≡ false → result ≡ View.Both left right }
    ensures either { either ≡ true → result ≡ View.Either left right }
{
    if either {
        View::Either(left, right)
    } else {
        View::Both(left, right)
    }
}

// Whether one of the implications says this, or its contrapositive.
fn is_known(known: &[Implication], asked: Implication) -> bool
    ensures { IsTrue result → (values : List Bool) → All (Holds values) known.now → Holds values asked }
{
    let turned = Implication {
        cause: opposite(asked.effect),
        effect: opposite(asked.cause),
    };
    for implication in known {
        if *implication == asked || *implication == turned {
            return true;
        }
    }
    false
}

/// Whether an implication follows from the gates and the known implications, as far as a search of this depth sees.
#[cycle(following)]
pub(crate) fn follows(net: &Net, known: &[Implication], depth: u32, asked: Implication) -> bool
    requires { IsBelow (net_count (netlist_of net.now)) asked }
    ensures { IsTrue result → Entails (netlist_of net.now) known.now asked }
{
    if asked.cause == asked.effect || is_known(known, asked) {
        return true;
    }
    depth > 0
        && (follows_from_cause(net, known, depth - 1, asked)
            || follows_to_effect(net, known, depth - 1, asked))
}

// The same by what makes the cause true.
#[cycle(following)]
fn follows_from_cause(net: &Net, known: &[Implication], depth: u32, asked: Implication) -> bool
    requires { IsBelow (net_count (netlist_of net.now)) asked }
    ensures { IsTrue result → Entails (netlist_of net.now) known.now asked }
{
    let effect = asked.effect;
    match view_of(net, asked.cause) {
        View::Leaf => false,
        View::Both(a, b) => {
            follows(net, known, depth, Implication { cause: a, effect })
                || follows(net, known, depth, Implication { cause: b, effect })
        }
        View::Either(a, b) => {
            follows(net, known, depth, Implication { cause: a, effect })
                && follows(net, known, depth, Implication { cause: b, effect })
        }
    }
}

// The same by what makes the effect true.
#[cycle(following)]
fn follows_to_effect(net: &Net, known: &[Implication], depth: u32, asked: Implication) -> bool
    requires { IsBelow (net_count (netlist_of net.now)) asked }
    ensures { IsTrue result → Entails (netlist_of net.now) known.now asked }
{
    let cause = asked.cause;
    match view_of(net, asked.effect) {
        View::Leaf => false,
        View::Both(a, b) => {
            follows(net, known, depth, Implication { cause, effect: a })
                && follows(net, known, depth, Implication { cause, effect: b })
        }
        View::Either(a, b) => {
            follows(net, known, depth, Implication { cause, effect: a })
                || follows(net, known, depth, Implication { cause, effect: b })
        }
    }
}
