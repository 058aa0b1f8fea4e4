// Gates: terms whose value a slot gets.

ghost use Rattle.std.specs.Prelude.{◌≡◌, length, map, slice_set, All, IfSome};
ghost use Rattle.run_steps.specs.Plans.{number_of};
ghost use Rattle.run_steps.specs.Records.{GateFits, gate_value, gates_made, term_truth, widened};

use crate::term::Term;

#[derive(Clone, Copy)]
pub struct Gate {
    pub output: usize,
    pub left: usize,
    pub right: usize,
    // The values of its term are the binary digits, the lowest first: so a gate does not branch on values.
    pub truth: u32,
}

// A gate of slots whose numbers have 32 bits, as a record of 16 bytes.
#[derive(Clone, Copy)]
pub struct NarrowGate {
    pub output: u32,
    pub left: u32,
    pub right: u32,
    pub truth: u32,
}

// The gate that gives this slot the value of a term.
pub fn gate_of(output: usize, term: &Term) -> Gate
    ensures output { result.output ≡ output }
    ensures left { result.left ≡ term.now.left }
    ensures right { result.right ≡ term.now.right }
    ensures truth { result.truth ≡ number_of (term_truth term.now) }
{
    let neither = u32::from(term.neither);
    let first = u32::from(term.first);
    let second = u32::from(term.second);
    let both = u32::from(term.both);
    Gate {
        output,
        left: term.left,
        right: term.right,
        truth: neither + 2 * (first + 2 * (second + 2 * both)),
    }
}

// The gate in 16 bytes, where its slots fit.
pub fn narrowed(gate: &Gate) -> Option<NarrowGate>
    ensures { IfSome result (λ narrow. widened narrow ≡ gate.now) }
{
    match (
        u32::try_from(gate.output),
        u32::try_from(gate.left),
        u32::try_from(gate.right),
    ) {
        (Ok(output), Ok(left), Ok(right)) => Some(NarrowGate {
            output,
            left,
            right,
            truth: gate.truth,
        }),
        _ => None,
    }
}

pub fn widened(gate: &NarrowGate) -> Gate
    ensures { result ≡ widened gate.now }
{
    Gate {
        output: gate.output as usize,
        left: gate.left as usize,
        right: gate.right as usize,
        truth: gate.truth,
    }
}

// Makes the gates one after another.
pub fn make_gates(gates: &[Gate], values: &mut [bool])
    requires { All (GateFits (length values.old)) gates.now }
    ensures { values.new ≡ gates_made gates.now values.old }
{
    for gate in gates {
        make_gate(gate, values);
    }
}

// The same of gates in 16 bytes.
pub fn make_narrow_gates(gates: &[NarrowGate], values: &mut [bool])
    requires { All (λ narrow. GateFits (length values.old) (widened narrow)) gates.now }
    ensures { values.new ≡ gates_made (map widened gates.now) values.old }
{
    for gate in gates {
        make_gate(&widened(gate), values);
    }
}

fn make_gate(gate: &Gate, values: &mut [bool])
    requires { GateFits (length values.old) gate.now }
    ensures { values.new ≡ slice_set values.old gate.now.output (gate_value gate.now values.old) }
{
    let value = gate_value(gate, values);
    values[gate.output] = value;
}

fn gate_value(gate: &Gate, values: &[bool]) -> bool
    requires { GateFits (length values.now) gate.now }
    ensures { result ≡ gate_value gate.now values.now }
{
    let left = u32::from(values[gate.left]);
    let right = u32::from(values[gate.right]);
    (gate.truth >> (left + 2 * right)) % 2 == 1
}
