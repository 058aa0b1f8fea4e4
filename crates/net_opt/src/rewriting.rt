// Graphs in which parts are replaced by smaller ones that compute the same.

use crate::building::{Built, reader_counts};
use crate::cut_sets::{CutSets, cut_of_set};
use crate::cuts::{Cut, Style, cut_of};
use crate::edges::{
    Edge, TRUE, UNKNOWN, edge_at, is_marked, named, negated_if, number_at, straight,
};
use crate::excluding::Exclusions;
use crate::few::Few;
use crate::graphs::Graph;
use crate::plans::{Plan, Plans, VARIABLES};
use base_types::NoMemory;
use net_ir::Net;
use std::alloc::Global;

// A new graph, with the edge of each node of the old one. `uses` counts what needs a node of the new graph: nodes that
// are needed themselves, and nodes of the old graph and roots that are still to come. `fans` counts what needs a node
// of the old one.
#[derive(Drop)]
struct Rewriter {
    graph: Graph,
    edges: Vec<Edge>,
    fans: Vec<usize>,
    uses: Vec<usize>,
    sets: CutSets,
    changes: bool,
    plans: Plans,
    // Working lists.
    stack: Vec<usize>,
    names: Vec<Edge>,
}

// A graph that may stand for a pair, by the place of its plan, what its variables are, and how many nodes it spares.
#[derive(Clone, Copy)]
struct Offer {
    plan: usize,
    inputs: [Edge; VARIABLES + 1],
    gain: usize,
}

// How cuts are grown.
const STYLES: usize = 3;

fn style_of(number: usize) -> Style {
    match number {
        0 => Style {
            leaves: VARIABLES,
            own_first: false,
        },
        1 => Style {
            leaves: VARIABLES,
            own_first: true,
        },
        _ => Style {
            leaves: 4,
            own_first: false,
        },
    }
}

// The one that spares more, the first where both spare as much.
fn better(best: Option<Offer>, offer: Option<Offer>) -> Option<Offer> {
    match best {
        None => offer,
        Some(old) => match offer {
            None => Some(old),
            Some(new) => Some(if new.gain > old.gain { new } else { old }),
        },
    }
}

/// The graph of a netlist, where each marked pair is made anew: as it was, or as a graph of a cut says it that is
/// smaller, or, where `changes` asks for it, as small.
pub(crate) fn rewritten(
    alloc: Global,
    net: &Net,
    built: &Built,
    marks: &[bool],
    exclusions: &Exclusions,
    changes: bool,
    turn: usize,
) -> Result<Built, NoMemory> {
    let count = built.graph.count();
    let mut rewriter = Rewriter {
        graph: Graph::new(alloc, built.graph.leaves, count)?,
        edges: Vec::new(alloc),
        fans: reader_counts(alloc, net, built, marks)?,
        uses: Vec::new(alloc),
        sets: CutSets::new(alloc),
        changes,
        plans: Plans::new(alloc, turn)?,
        stack: Vec::new(alloc),
        names: Vec::new(alloc),
    };
    rewriter.note_new(alloc)?;
    for node in 0..count {
        let edge = if !built.graph.is_pair(node) {
            let fans = number_at(&rewriter.fans, node);
            rewriter.take(straight(node), fans)?;
            straight(node)
        } else if is_marked(marks, node) {
            rewriter.pair_edge(alloc, &built.graph, exclusions, node)?
        } else {
            UNKNOWN
        };
        rewriter.edges.push(edge)?;
    }
    let mut edges = Vec::new(alloc);
    for edge in &built.edges {
        edges.push(rewriter.image(*edge))?;
    }
    let Rewriter {
        graph,
        edges: _,
        fans: _,
        uses: _,
        sets: _,
        changes: _,
        plans: _,
        stack: _,
        names: _,
    } = rewriter;
    Ok(Built { graph, edges })
}

impl Rewriter {
    // What stands for an edge: nothing, where its node is not made anew.
    fn image(&self, edge: Edge) -> Edge {
        named(&self.edges, edge)
    }

    // What stands for a pair: the smallest graph of its cuts, if that spares nodes.
    fn pair_edge(
        &mut self,
        alloc: Global,
        old: &Graph,
        exclusions: &Exclusions,
        node: usize,
    ) -> Result<Edge, NoMemory> {
        let pair = old.pair(node);
        let left = self.image(pair.left);
        let right = self.image(pair.right);
        let fans = number_at(&self.fans, node);
        self.plans.tidy();
        let plain = self.graph.both(left, right)?;
        self.note_new(alloc)?;
        self.take(plain, fans)?;
        self.release(left, 1)?;
        self.release(right, 1)?;
        if number_at(&self.uses, plain.node) != fans {
            return Ok(plain);
        }
        let Some(offer) = self.best_offer(alloc, exclusions, plain)? else {
            return Ok(plain);
        };
        let made = negated_if(self.placed(alloc, &offer)?, plain.negative);
        self.note_new(alloc)?;
        self.take(made, fans)?;
        self.release(plain, fans)?;
        Ok(made)
    }

    // Counts and cut sets of the nodes that are new in the graph.
    fn note_new(&mut self, alloc: Global) -> Result<(), NoMemory> {
        for node in self.uses.len()..self.graph.count() {
            self.uses.push(0)?;
            self.sets.add_node(alloc, &self.graph, node)?;
        }
        Ok(())
    }

    // A node is needed this many times more.
    fn take(&mut self, edge: Edge, times: usize) -> Result<(), NoMemory> {
        let mut times = times;
        self.stack.clear();
        self.stack.push(edge.node)?;
        for _step in 0..usize::MAX {
            let Some(node) = self.stack.pop() else {
                return Ok(());
            };
            if node < self.uses.len() && times > 0 {
                let before = self.uses[node];
                self.uses[node] = before.saturating_add(times);
                if before == 0 {
                    self.push_parts(node)?;
                }
            }
            times = 1;
        }
        Ok(())
    }

    // A node is needed this many times less.
    fn release(&mut self, edge: Edge, times: usize) -> Result<(), NoMemory> {
        let mut times = times;
        self.stack.clear();
        self.stack.push(edge.node)?;
        for _step in 0..usize::MAX {
            let Some(node) = self.stack.pop() else {
                return Ok(());
            };
            if node < self.uses.len() && self.uses[node] > 0 {
                self.uses[node] = self.uses[node].saturating_sub(times);
                if self.uses[node] == 0 {
                    self.push_parts(node)?;
                }
            }
            times = 1;
        }
        Ok(())
    }

    fn push_parts(&mut self, node: usize) -> Result<(), NoMemory> {
        if self.graph.is_pair(node) {
            let pair = self.graph.pair(node);
            self.stack.push(pair.left.node)?;
            self.stack.push(pair.right.node)?;
        }
        Ok(())
    }

    // The offer that spares most.
    fn best_offer(
        &mut self,
        alloc: Global,
        exclusions: &Exclusions,
        edge: Edge,
    ) -> Result<Option<Offer>, NoMemory> {
        let mut best: Option<Offer> = None;
        let node = edge.node;
        if !self.graph.is_pair(node) {
            return Ok(None);
        }
        for number in 0..STYLES {
            let cut = cut_of(&self.graph, node, &self.uses, style_of(number));
            if cut.inside.len() > 1 {
                best = better(best, self.offer(alloc, exclusions, &cut)?);
            }
        }
        for place in 0..self.sets.of(node).len() {
            let set = self.sets.at(node, place);
            if let Some(cut) = cut_of_set(&self.graph, node, set) {
                if cut.inside.len() > 1 {
                    best = better(best, self.offer(alloc, exclusions, &cut)?);
                }
            }
        }
        Ok(best)
    }

    // The graph that a cut's function has, if it spares nodes, or, where changes are asked for, takes no more.
    fn offer(
        &mut self,
        alloc: Global,
        exclusions: &Exclusions,
        cut: &Cut,
    ) -> Result<Option<Offer>, NoMemory> {
        let functions = cut.functions(&self.graph, exclusions);
        let plan = self.plans.place_of(alloc, functions)?;
        let spared = cut.spared(&self.graph, &self.uses);
        let inputs = inputs_of(&cut.leaves);
        let cost = self.cost(plan, &inputs, &spared)?;
        if cost < spared.len() || (self.changes && cost == spared.len()) {
            let gain = spared.len().saturating_sub(cost);
            return Ok(Some(Offer { plan, inputs, gain }));
        }
        Ok(None)
    }

    fn cost(&mut self, plan: usize, inputs: &[Edge], freed: &Few) -> Result<usize, NoMemory> {
        match self.plans.at(plan) {
            Some(plan) => cost_of(
                &self.graph,
                &self.uses,
                &mut self.names,
                plan,
                inputs,
                freed,
            ),
            None => Ok(usize::MAX),
        }
    }

    // The edge of a plan that is carried out.
    fn placed(&mut self, alloc: Global, offer: &Offer) -> Result<Edge, NoMemory> {
        let Some(plan) = self.plans.at(offer.plan) else {
            return Ok(UNKNOWN);
        };
        placed(alloc, &mut self.graph, plan, &offer.inputs)
    }
}

// How many nodes a plan adds, or keeps of those that would be freed. It is not counted beyond those.
fn cost_of(
    graph: &Graph,
    uses: &[usize],
    names: &mut Vec<Edge>,
    plan: &Plan,
    inputs: &[Edge],
    freed: &Few,
) -> Result<usize, NoMemory> {
    names.clear();
    names.extend_from_slice(inputs)?;
    let mut count: usize = 0;
    for k in 0..plan.lefts.len() {
        let there = there(graph, names, plan, k);
        if there == UNKNOWN || is_spared(graph, uses, freed, there.node) {
            count = count.saturating_add(1);
            if count > freed.len() {
                return Ok(count);
            }
        }
        names.push(there)?;
    }
    Ok(count)
}

// The edge of a plan's node that a graph has, where it has one.
fn there(graph: &Graph, names: &[Edge], plan: &Plan, place: usize) -> Edge {
    let left = named(names, edge_at(&plan.lefts, place));
    let right = named(names, edge_at(&plan.rights, place));
    if left == UNKNOWN || right == UNKNOWN {
        return UNKNOWN;
    }
    graph.found(left, right).unwrap_or(UNKNOWN)
}

// Reports whether a pair is not needed, or would not be.
fn is_spared(graph: &Graph, uses: &[usize], freed: &Few, node: usize) -> bool {
    graph.is_pair(node) && (number_at(uses, node) == 0 || freed.has(node))
}

// The edge of a plan over these edges in a graph.
fn placed(
    alloc: Global,
    graph: &mut Graph,
    plan: &Plan,
    inputs: &[Edge],
) -> Result<Edge, NoMemory> {
    let mut names = Vec::from_slice(alloc, inputs)?;
    for k in 0..plan.lefts.len() {
        let left = named(&names, edge_at(&plan.lefts, k));
        let right = named(&names, edge_at(&plan.rights, k));
        let edge = graph.both(left, right)?;
        names.push(edge)?;
    }
    Ok(named(&names, plan.root))
}

// The edges of a plan's variables, after what is always true.
fn inputs_of(leaves: &Few) -> [Edge; VARIABLES + 1] {
    let mut inputs = [TRUE; VARIABLES + 1];
    for k in 0..VARIABLES {
        if k < leaves.len() {
            inputs[k + 1] = straight(leaves.at(k));
        }
    }
    inputs
}
