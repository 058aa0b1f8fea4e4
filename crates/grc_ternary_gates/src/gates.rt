// Gates and systems of them.

ghost use Rattle.std.specs.Prelude.{◌≡◌, length, All, IsTrue, IfOk};
ghost use Rattle.est_kernel.specs.Statuses.{conjunction, disjunction, known, opposite};
ghost use Rattle.grc_ternary_gates.specs.Systems.{gate_fits, gate_status, operand, status_of, statuses_of, is_unknown};
ghost use Rattle.grc_ternary_gates.specs.declared.gates.Side.{Side};
ghost use Rattle.grc_ternary_gates.specs.declared.gates.Side.TheVariants.{First, Second};
ghost use Rattle.grc_ternary_gates.specs.Linking.{AreLinks, OperandsFit};

use crate::links::{Links, link};
use base_types::NoMemory;
use std::alloc::Global;

/// What is known of a node.
#[derive(Clone, Copy)]
pub enum Value {
    Unknown,
    False,
    True,
}

impl Value {
    pub(crate) fn is_unknown(self) -> bool
        ensures { result ≡ is_unknown self }
    {
        matches!(self, Value::Unknown)
    }
}

/// A gate over nodes, which go by their numbers.
#[derive(Clone, Copy)]
pub enum Gate {
    /// The source with this number: what an instant brings, true or false.
    Source(usize),
    /// The same as the node.
    Same(usize),
    Not(usize),
    And(usize, usize),
    Or(usize, usize),
}

/// Which operand of a gate is meant.
#[derive(Clone, Copy)]
pub enum Side {
    First,
    Second,
}

/// A system of gates, one a node, with the gates that read each node.
#[derive(Drop)]
pub struct System {
    /// The gate of each node.
    pub gates: Vec<Gate>,
    /// The number of sources.
    pub sources: usize,
    /// Which gates have each node as their first operand.
    pub first: Links,
    /// Which gates have each node as their second operand.
    pub second: Links,
    ghost fit: { All (λ g. IsTrue (gate_fits (length gates.items) sources g)) gates.items },
    ghost firsts: { AreLinks First gates.items first.last.items first.earlier.items },
    ghost seconds: { AreLinks Second gates.items second.last.items second.earlier.items },
}

impl System {
    // The links of the gates by one of their operands. It takes no memory.
    pub(crate) fn links(&self, side: Side) -> &Links
        ensures { AreLinks side self.now.gates.items result.now.last.items result.now.earlier.items }
    {
        match side {
            Side::First => &self.first,
            Side::Second => &self.second,
        }
    }

    /// The system of these gates. The time is linear in them. Its only error is out of memory.
    pub fn new(alloc: Global, gates: Vec<Gate>, sources: usize) -> Result<System, NoMemory>
        requires fit { All (λ g. IsTrue (gate_fits (length gates.items) sources g)) gates.items }
        ensures gates { IfOk result (λ s. s.gates.items ≡ gates.items) }
        ensures sources { IfOk result (λ s. s.sources ≡ sources) }
    {
        let first = link(alloc, &gates, Side::First)?;
        let second = link(alloc, &gates, Side::Second)?;
        Ok(System {
            gates,
            sources,
            first,
            second,
        })
    }
}

// An operand of a gate.
pub(crate) fn operand(gate: Gate, side: Side) -> Option<usize>
    ensures { result ≡ operand side gate }
{
    match side {
        Side::First => first_operand(gate),
        Side::Second => second_operand(gate),
    }
}

fn first_operand(gate: Gate) -> Option<usize>
    ensures { result ≡ operand Side.First gate }
{
    match gate {
        Gate::Source(_) => None,
        Gate::Same(a) | Gate::Not(a) | Gate::And(a, _) | Gate::Or(a, _) => Some(a),
    }
}

fn second_operand(gate: Gate) -> Option<usize>
    ensures { result ≡ operand Side.Second gate }
{
    match gate {
        Gate::Source(_) | Gate::Same(_) | Gate::Not(_) => None,
        Gate::And(_, b) | Gate::Or(_, b) => Some(b),
    }
}

fn known(truth: bool) -> Value
    ensures { status_of result ≡ known truth }
{
    if truth { Value::True } else { Value::False }
}

fn opposite(value: Value) -> Value
    ensures { status_of result ≡ opposite (status_of value) }
{
    match value {
        Value::Unknown => Value::Unknown,
        Value::False => Value::True,
        Value::True => Value::False,
    }
}

fn conjunction(left: Value, right: Value) -> Value
    ensures { status_of result ≡ conjunction (status_of left) (status_of right) }
{
    match left {
        Value::False => Value::False,
        Value::True => right,
        Value::Unknown => match right {
            Value::False => Value::False,
            Value::True | Value::Unknown => Value::Unknown,
        },
    }
}

fn disjunction(left: Value, right: Value) -> Value
    ensures { status_of result ≡ disjunction (status_of left) (status_of right) }
{
    match left {
        Value::True => Value::True,
        Value::False => right,
        Value::Unknown => match right {
            Value::True => Value::True,
            Value::False | Value::Unknown => Value::Unknown,
        },
    }
}

/// The value of a gate, where the nodes have these values.
pub(crate) fn gate_value(gate: Gate, sources: &[bool], values: &[Value]) -> Value
    requires { IsTrue (gate_fits (length values.now) (length sources.now) gate) }
    ensures { status_of result ≡ gate_status sources.now (statuses_of values.now) gate }
{
    match gate {
        Gate::Source(k) => known(sources[k]),
        Gate::Same(a) => values[a],
        Gate::Not(a) => opposite(values[a]),
        Gate::And(a, b) => conjunction(values[a], values[b]),
        Gate::Or(a, b) => disjunction(values[a], values[b]),
    }
}
