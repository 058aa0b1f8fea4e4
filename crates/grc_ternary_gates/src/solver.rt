// The least solution of a system, by a list of decided nodes whose readers are still to be looked at.

ghost use Rattle.std.specs.Prelude.{◌≡◌, ℕ, ◌<◌, ◌≤◌, Bool, length, IfOk};
ghost use Rattle.est_kernel.specs.Statuses.{Unknown};
ghost use Rattle.grc_ternary_gates.specs.Systems.{IsLeastSolution, statuses_of};
ghost use Rattle.grc_ternary_gates.specs.Solving.{Decides, Fits, IsUnderway, Pops, with_readers, without, work_of};

use crate::gates::{Side, System, Value, gate_value};
use base_types::NoMemory;
use std::alloc::Global;

/// What is known of each node of a system, and a list of decided nodes whose readers are still to be
/// looked at: the front of `stack`, of this many nodes.
#[derive(Drop)]
pub struct Solver {
    pub values: Vec<Value>,
    pub stack: Vec<usize>,
    pub height: usize,
}

impl Solver {
    /// Room for this many nodes. Its only error is out of memory.
    pub fn new(alloc: Global, nodes: usize) -> Result<Solver, NoMemory>
        ensures { IfOk result (λ s. Fits nodes s) }
    {
        Ok(Solver {
            values: vec![in alloc; Value::Unknown; nodes]?,
            stack: vec![in alloc; 0usize; nodes]?,
            height: 0,
        })
    }

    /// Finds the least solution of the system, where the sources have these values. The time is linear in the
    /// gates. It takes no memory.
    pub fn settle(&mut self, system: &System, sources: &[bool])
        requires fits { Fits (length system.now.gates.items) self.old }
        requires sources { length sources.now ≡ system.now.sources }
        ensures fits { Fits (length system.now.gates.items) self.new }
        ensures solved { IsLeastSolution system.now.gates.items sources.now (statuses_of self.new.values.items) }
    {
        self.clear();
        for node in 0..system.gates.len() {
            self.look_at(system, sources, node);
            self.empty_stack(system, sources);
        }
    }

    // Forgets everything.
    fn clear(&mut self)
        requires { length self.old.stack.items ≡ length self.old.values.items }
        ensures fits { Fits (length self.old.values.items) self.new }
        ensures height { self.new.height ≡ 0 }
        ensures unknown { (n : ℕ) → statuses_of self.new.values.items n ≡ Unknown }
    {
        self.values.as_mut_slice().fill(Value::Unknown);
        self.height = 0;
    }

    // Looks at the readers of decided nodes until none is left.
    fn empty_stack(&mut self, system: &System, sources: &[bool])
        requires fits { Fits (length system.now.gates.items) self.old }
        requires sources { length sources.now ≡ system.now.sources }
        ensures fits { Fits (length system.now.gates.items) self.new }
        ensures empty { self.new.height ≡ 0 }
        ensures goes_on { (todo : ℕ → Bool) → IsUnderway system.now.gates.items sources.now self.old todo
            → IsUnderway system.now.gates.items sources.now self.new todo }
    {
        while self.height > 0 {
            self.take_up(system, sources);
        }
    }

    // Takes the last node of the list and looks at its readers.
    fn take_up(&mut self, system: &System, sources: &[bool])
        requires fits { Fits (length system.now.gates.items) self.old }
        requires sources { length sources.now ≡ system.now.sources }
        requires some { 0 < self.old.height }
        ensures fits { Fits (length system.now.gates.items) self.new }
        ensures less { work_of self.new < work_of self.old }
        ensures goes_on { (todo : ℕ → Bool) → IsUnderway system.now.gates.items sources.now self.old todo
            → IsUnderway system.now.gates.items sources.now self.new todo }
    {
        let node = self.pop();
        self.look_at_readers(system, sources, node, Side::First);
        self.look_at_readers(system, sources, node, Side::Second);
    }

    // Takes the last node of the list.
    fn pop(&mut self) -> usize
        requires some { 0 < self.old.height }
        requires listed { self.old.height ≤ length self.old.stack.items }
        ensures { Pops self.old self.new result }
    {
        self.height -= 1;
        self.stack[self.height]
    }

    // Looks at each gate that has the node as this operand.
    fn look_at_readers(&mut self, system: &System, sources: &[bool], node: usize, side: Side)
        requires fits { Fits (length system.now.gates.items) self.old }
        requires sources { length sources.now ≡ system.now.sources }
        requires node { node < length system.now.gates.items }
        ensures fits { Fits (length system.now.gates.items) self.new }
        ensures same { work_of self.new ≡ work_of self.old }
        ensures goes_on { (todo : ℕ → Bool)
            → IsUnderway system.now.gates.items sources.now self.old
            (with_readers system.now.gates.items side node todo)
            → IsUnderway system.now.gates.items sources.now self.new todo }
    {
        let links = system.links(side);
        let mut rest = links.last[node];
        while rest > 0 {
            self.look_at(system, sources, rest - 1);
            rest = links.earlier[rest - 1];
        }
    }

    // Decides a node, where its gate has a value.
    fn look_at(&mut self, system: &System, sources: &[bool], node: usize)
        requires fits { Fits (length system.now.gates.items) self.old }
        requires sources { length sources.now ≡ system.now.sources }
        requires node { node < length system.now.gates.items }
        ensures fits { Fits (length system.now.gates.items) self.new }
        ensures same { work_of self.new ≡ work_of self.old }
        ensures goes_on { (todo : ℕ → Bool) → IsUnderway system.now.gates.items sources.now self.old todo
            → IsUnderway system.now.gates.items sources.now self.new (without node todo) }
    {
        if self.values[node].is_unknown() {
            let value = gate_value(system.gates[node], sources, &self.values);
            if !value.is_unknown() {
                self.decide(node, value);
            }
        }
    }

    // Gives a node its value, and puts it on the list.
    fn decide(&mut self, node: usize, value: Value)
        requires node { node < length self.old.values.items }
        requires room { self.old.height < length self.old.stack.items }
        ensures { Decides self.old self.new node value }
    {
        self.values[node] = value;
        self.stack[self.height] = node;
        self.height += 1;
    }
}
