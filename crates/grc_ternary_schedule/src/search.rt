// The components of a system's nodes, and an order of the nodes.

ghost use Rattle.std.specs.Prelude.{◌≡◌, ℕ, ◌<◌, length, IfOk, OnOk, IsTrue, All};
ghost use Rattle.grc_ternary_gates.specs.Systems.{gate_fits};
ghost use Rattle.grc_ternary_schedule.specs.Searches.{IsNode, IsSearch};

use base_types::NoMemory;
use grc_ternary_gates::Gate;
use std::alloc::Global;

/// Which operand of a node on the path is looked at next.
#[derive(Clone, Copy)]
pub enum Look {
    First,
    Second,
    Done,
}

/// A node on the path.
#[derive(Clone, Copy)]
pub struct Place {
    pub node: usize,
    pub look: Look,
}

/// How far a depth-first search from nodes to their operands has come.
#[derive(Drop)]
pub struct Search {
    /// When a node was met, from 1; 0 where it was not.
    pub met: Vec<usize>,
    /// The least such number that is reached from the node.
    pub low: Vec<usize>,
    /// The component of a node that is no longer open.
    pub part: Vec<usize>,
    /// How long the path was when the node was met.
    pub depth: Vec<usize>,
    pub stacked: Vec<bool>,
    pub stack: Vec<usize>,
    pub path: Vec<Place>,
    /// The nodes that were left, in that order.
    pub order: Vec<usize>,
    pub count: usize,
    pub parts: usize,
}

fn first_operand(gate: Gate) -> Option<usize>
    ensures { (nodes sources : ℕ) → IsTrue (gate_fits nodes sources gate) → IsNode nodes result }
{
    match gate {
        Gate::Source(_) => None,
        Gate::Same(a) | Gate::Not(a) | Gate::And(a, _) | Gate::Or(a, _) => Some(a),
    }
}

fn second_operand(gate: Gate) -> Option<usize>
    ensures { (nodes sources : ℕ) → IsTrue (gate_fits nodes sources gate) → IsNode nodes result }
{
    match gate {
        Gate::Source(_) | Gate::Same(_) | Gate::Not(_) => None,
        Gate::And(_, b) | Gate::Or(_, b) => Some(b),
    }
}

impl Search {
    fn new(alloc: Global, nodes: usize) -> Result<Search, NoMemory>
        ensures { IfOk result (IsSearch nodes) }
    {
        Ok(Search {
            met: vec![in alloc; 0usize; nodes]?,
            low: vec![in alloc; 0usize; nodes]?,
            part: vec![in alloc; 0usize; nodes]?,
            depth: vec![in alloc; 0usize; nodes]?,
            stacked: vec![in alloc; false; nodes]?,
            stack: Vec::new(alloc),
            path: Vec::new(alloc),
            order: Vec::new(alloc),
            count: 0,
            parts: 0,
        })
    }

    // A node is met.
    fn enter(&mut self, node: usize) -> Result<(), NoMemory>
        requires node { node < length self.old.met.items }
        requires search { IsSearch (length self.old.met.items) self.old }
        ensures { OnOk result (IsSearch (length self.old.met.items) self.new) }
    {
        self.count = self.count.wrapping_add(1);
        self.met[node] = self.count;
        self.low[node] = self.count;
        self.stacked[node] = true;
        self.stack.push(node)?;
        self.path.push(Place {
            node,
            look: Look::First,
        })?;
        self.depth[node] = self.path.len();
        Ok(())
    }

    // An operand of the last node of the path is looked at.
    fn look_at(&mut self, node: usize, operand: Option<usize>) -> Result<(), NoMemory>
        requires node { node < length self.old.met.items }
        requires operand { IsNode (length self.old.met.items) operand }
        requires search { IsSearch (length self.old.met.items) self.old }
        ensures { OnOk result (IsSearch (length self.old.met.items) self.new) }
    {
        match operand {
            None => Ok(()),
            Some(a) => {
                if self.met[a] == 0 {
                    self.enter(a)?;
                } else if self.stacked[a] {
                    self.low[node] = self.low[node].min(self.met[a]);
                }
                Ok(())
            }
        }
    }

    // A component is taken from the stack, down to its first node.
    fn close(&mut self, node: usize)
        requires search { IsSearch (length self.old.met.items) self.old }
        ensures same { length self.new.met.items ≡ length self.old.met.items }
        ensures search { IsSearch (length self.old.met.items) self.new }
    {
        let number = self.parts;
        for _ in 0..u64::MAX {
            match self.stack.pop() {
                None => return,
                Some(other) => {
                    self.stacked[other] = false;
                    self.part[other] = number;
                    if other == node {
                        return;
                    }
                }
            }
        }
    }

    // The last node of the path was looked at as a whole.
    fn leave(&mut self, node: usize) -> Result<(), NoMemory>
        requires node { node < length self.old.met.items }
        requires search { IsSearch (length self.old.met.items) self.old }
        ensures { OnOk result (IsSearch (length self.old.met.items) self.new) }
    {
        self.order.push(node)?;
        if self.low[node] == self.met[node] {
            self.close(node);
            self.parts = self.parts.wrapping_add(1);
        }
        if let Some(place) = self.path.last() {
            let above = place.node;
            self.low[above] = self.low[above].min(self.low[node]);
        }
        Ok(())
    }

    // One step of the search.
    fn step(&mut self, gates: &[Gate], sources: usize) -> Result<(), NoMemory>
        requires fit { All (λ g. IsTrue (gate_fits (length gates.now) sources g)) gates.now }
        requires search { IsSearch (length gates.now) self.old }
        ensures { OnOk result (IsSearch (length gates.now) self.new) }
    {
        let Some(place) = self.path.pop() else {
            return Ok(());
        };
        let node = place.node;
        match place.look {
            Look::First => {
                self.path.push(Place {
                    node,
                    look: Look::Second,
                })?;
                self.look_at(node, first_operand(gates[node]))?;
            }
            Look::Second => {
                self.path.push(Place {
                    node,
                    look: Look::Done,
                })?;
                self.look_at(node, second_operand(gates[node]))?;
            }
            Look::Done => {
                self.leave(node)?;
            }
        }
        Ok(())
    }

    // Goes on until the path is empty.
    fn finish(&mut self, gates: &[Gate], sources: usize) -> Result<(), NoMemory>
        requires fit { All (λ g. IsTrue (gate_fits (length gates.now) sources g)) gates.now }
        requires search { IsSearch (length gates.now) self.old }
        ensures { OnOk result (IsSearch (length gates.now) self.new) }
    {
        for _ in 0..u64::MAX {
            if self.path.is_empty() {
                return Ok(());
            }
            self.step(gates, sources)?;
        }
        Ok(())
    }
}

// Visits a node, and all that is reached from it, if it was not met before.
fn visit(found: &mut Search, gates: &[Gate], sources: usize, root: usize) -> Result<(), NoMemory>
    requires fit { All (λ g. IsTrue (gate_fits (length gates.now) sources g)) gates.now }
    requires search { IsSearch (length gates.now) found.old }
    ensures { OnOk result (IsSearch (length gates.now) found.new) }
{
    if root < gates.len() && found.met[root] == 0 {
        found.enter(root)?;
        found.finish(gates, sources)?;
    }
    Ok(())
}

/// The components of a system's nodes, numbered so that a node reads components of at most its own number, and an
/// order of the nodes. The search begins at the roots, in their order.
pub fn find_parts(
    alloc: Global,
    gates: &[Gate],
    sources: usize,
    roots: &[usize],
) -> Result<Search, NoMemory>
    requires fit { All (λ g. IsTrue (gate_fits (length gates.now) sources g)) gates.now }
    ensures { IfOk result (IsSearch (length gates.now)) }
{
    let mut found = Search::new(alloc, gates.len())?;
    for root in roots {
        visit(&mut found, gates, sources, *root)?;
    }
    for root in 0..gates.len() {
        visit(&mut found, gates, sources, root)?;
    }
    Ok(found)
}
