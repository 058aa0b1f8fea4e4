// Graphs that are made anew of the functions of the roots alone.

use crate::building::{Built, place_of};
use crate::diagrams::{ALWAYS, Diagram, Function, NEVER};
use crate::edges::{Edge, TRUE, UNKNOWN, edge_at, is_marked, mark, negated, negated_if, straight};
use crate::graphs::Graph;
use base_types::NoMemory;
use net_ir::Net;
use std::alloc::Global;

// Of how many inputs and latches a netlist is made anew.
const LEAVES: usize = 32;

// How many orders of variables are tried.
const TRIALS: usize = 240;

// How many nodes of diagrams all trials may make.
const WORK: usize = 300_000;

/// The graph of a netlist, made anew of the diagrams of its roots over the inputs and latches, in a good order. None
/// where there are too many inputs and latches, or the diagrams are too large.
pub(crate) fn collapsed(
    alloc: Global,
    net: &Net,
    built: &Built,
    marks: &[bool],
) -> Result<Option<Built>, NoMemory> {
    if built.graph.leaves > LEAVES {
        return Ok(None);
    }
    let roots = roots_of(alloc, net, built)?;
    let mut order = first_order(alloc, built, &roots)?;
    let Some(mut best) = diagrams_of(alloc, built, marks, &order, &roots)? else {
        return Ok(None);
    };
    let mut work = best.diagram.count();
    let mut seed: u64 = 0x2545_f491_4f6c_dd1d;
    for trial in 0..TRIALS {
        if work > WORK {
            break;
        }
        let other = moved_order(alloc, &order, trial, &mut seed)?;
        match diagrams_of(alloc, built, marks, &other, &roots)? {
            Some(next) => {
                work = work.saturating_add(next.diagram.count());
                if next.size <= best.size {
                    best = next;
                    order = other;
                }
            }
            None => work = work.saturating_add(40_000),
        }
    }
    Ok(Some(graph_of(alloc, built, &order, &best, &roots)?))
}

// The functions of the nodes of a graph, and how many nodes of the diagram the roots need.
#[derive(Drop)]
struct Diagrams {
    diagram: Diagram,
    functions: Vec<Function>,
    size: usize,
}

fn roots_of(alloc: Global, net: &Net, built: &Built) -> Result<Vec<Edge>, NoMemory> {
    let mut roots = Vec::new(alloc);
    roots.push(built.edge(net.paused))?;
    for output in &net.outputs {
        roots.push(built.edge(output.net))?;
    }
    for latch in &net.latches {
        roots.push(built.edge(latch.from))?;
    }
    Ok(roots)
}

// The leaves in the order in which the roots need them: the level of each leaf.
fn first_order(alloc: Global, built: &Built, roots: &[Edge]) -> Result<Vec<u32>, NoMemory> {
    let count = built.graph.leaves.saturating_add(1);
    let mut levels = vec![in alloc; u32::MAX; count]?;
    let mut seen = vec![in alloc; false; built.graph.count()]?;
    let mut next: u32 = 0;
    let mut stack = Vec::new(alloc);
    for root in roots.iter().rev() {
        stack.push(root.node)?;
    }
    for _step in 0..usize::MAX {
        let Some(node) = stack.pop() else {
            break;
        };
        if !is_marked(&seen, node) {
            mark(&mut seen, node);
            if built.graph.is_pair(node) {
                let pair = built.graph.pair(node);
                stack.push(pair.right.node)?;
                stack.push(pair.left.node)?;
            } else if node > 0 && node < levels.len() {
                levels[node] = next;
                next = next.saturating_add(1);
            }
        }
    }
    for node in 1..levels.len() {
        if levels[node] == u32::MAX {
            levels[node] = next;
            next = next.saturating_add(1);
        }
    }
    Ok(levels)
}

// An order in which one leaf has moved.
fn moved_order(
    alloc: Global,
    levels: &[u32],
    trial: usize,
    seed: &mut u64,
) -> Result<Vec<u32>, NoMemory> {
    let mut moved = Vec::from_slice(alloc, levels)?;
    let count = levels.len().saturating_sub(1);
    let from = random_level(seed, count);
    let to = if trial % 3 == 0 {
        small((from as usize).saturating_add(1) % count.max(1))
    } else {
        random_level(seed, count)
    };
    for node in 1..moved.len() {
        let level = moved[node];
        moved[node] = if level == from {
            to
        } else if from < to && level > from && level <= to {
            level - 1
        } else if to < from && level >= to && level < from {
            level + 1
        } else {
            level
        };
    }
    Ok(moved)
}

// A random number below this one. Marsaglia, "Xorshift RNGs", 2003.
fn random_level(seed: &mut u64, count: usize) -> u32 {
    let mut word = *seed;
    word ^= word << 13;
    word ^= word >> 7;
    word ^= word << 17;
    *seed = word;
    small((word >> 11) as usize % count.max(1))
}

// The diagrams of all marked nodes.
fn diagrams_of(
    alloc: Global,
    built: &Built,
    marks: &[bool],
    levels: &[u32],
    roots: &[Edge],
) -> Result<Option<Diagrams>, NoMemory> {
    let depth = small(levels.len());
    let mut diagram = Diagram::new(alloc, depth)?;
    let mut functions = Vec::new(alloc);
    for node in 0..built.graph.count() {
        let function = if node == 0 {
            ALWAYS
        } else if !built.graph.is_pair(node) {
            let level = if node < levels.len() { levels[node] } else { 0 };
            diagram.variable(level)?
        } else if is_marked(marks, node) {
            let pair = built.graph.pair(node);
            let left = function_of(&functions, pair.left);
            let right = function_of(&functions, pair.right);
            diagram.both(left, right, depth.saturating_add(1))?
        } else {
            NEVER
        };
        if diagram.is_full {
            return Ok(None);
        }
        functions.push(function)?;
    }
    let size = size_of(alloc, &diagram, &functions, roots)?;
    Ok(Some(Diagrams {
        diagram,
        functions,
        size,
    }))
}

fn function_of(functions: &[Function], edge: Edge) -> Function {
    let function = if edge.node < functions.len() {
        functions[edge.node]
    } else {
        NEVER
    };
    if edge.negative {
        function.negated()
    } else {
        function
    }
}

fn small(number: usize) -> u32 {
    if number < 0xffff_ffff {
        number as u32
    } else {
        0
    }
}

// How many nodes of the diagram the roots need.
fn size_of(
    alloc: Global,
    diagram: &Diagram,
    functions: &[Function],
    roots: &[Edge],
) -> Result<usize, NoMemory> {
    let mut seen = vec![in alloc; false; diagram.count()]?;
    let mut stack = Vec::new(alloc);
    let mut size: usize = 0;
    for root in roots {
        stack.push(function_of(functions, *root).node())?;
    }
    for _step in 0..usize::MAX {
        let Some(node) = stack.pop() else {
            return Ok(size);
        };
        if node > 0 && !is_marked(&seen, node) {
            mark(&mut seen, node);
            let branch = diagram.branch(node);
            let plain = branch.low.node() == 0 || branch.high.node() == 0;
            size = size.saturating_add(if plain { 1 } else { 3 });
            stack.push(branch.high.node())?;
            stack.push(branch.low.node())?;
        }
    }
    Ok(size)
}

// The graph of the diagrams of the roots. A net that has a function of the graph has its edge, so that more can be
// claimed.
fn graph_of(
    alloc: Global,
    built: &Built,
    levels: &[u32],
    diagrams: &Diagrams,
    roots: &[Edge],
) -> Result<Built, NoMemory> {
    let mut graph = Graph::new(alloc, built.graph.leaves, built.graph.count())?;
    let mut leaves = vec![in alloc; TRUE; levels.len().saturating_add(1)]?;
    for node in 1..levels.len() {
        let level = levels[node] as usize;
        if level < leaves.len() {
            leaves[level] = straight(node);
        }
    }
    let mut names = vec![in alloc; UNKNOWN; diagrams.diagram.count()]?;
    set(&mut names, 0, TRUE);
    for root in roots {
        let node = function_of(&diagrams.functions, *root).node();
        add_nodes(
            alloc,
            &mut graph,
            &mut names,
            &leaves,
            &diagrams.diagram,
            node,
        )?;
    }
    let mut edges = Vec::new(alloc);
    for edge in &built.edges {
        let function = function_of(&diagrams.functions, *edge);
        let name = edge_of(&names, function);
        edges.push(if built.graph.is_pair(edge.node) {
            name
        } else {
            *edge
        })?;
    }
    Ok(Built { graph, edges })
}

fn set(names: &mut Vec<Edge>, place: usize, edge: Edge) {
    if place < names.len() {
        names[place] = edge;
    }
}

fn edge_of(names: &[Edge], function: Function) -> Edge {
    let edge = edge_at(names, function.node());
    if edge == UNKNOWN {
        UNKNOWN
    } else {
        negated_if(edge, function.is_negated())
    }
}

// Makes a node of the diagram, after those that it needs.
fn add_nodes(
    alloc: Global,
    graph: &mut Graph,
    names: &mut Vec<Edge>,
    leaves: &[Edge],
    diagram: &Diagram,
    root: usize,
) -> Result<(), NoMemory> {
    let mut stack = Vec::new(alloc);
    stack.push(root)?;
    for _step in 0..usize::MAX {
        let Some(node) = stack.pop() else {
            return Ok(());
        };
        if edge_at(names, node) == UNKNOWN {
            let branch = diagram.branch(node);
            let high = edge_of(names, branch.high);
            let low = edge_of(names, branch.low);
            if high == UNKNOWN || low == UNKNOWN {
                stack.push(node)?;
                stack.push(branch.high.node())?;
                stack.push(branch.low.node())?;
            } else {
                let edge = choice(graph, edge_at(leaves, branch.level as usize), high, low)?;
                set(names, node, edge);
            }
        }
    }
    Ok(())
}

fn choice(graph: &mut Graph, literal: Edge, high: Edge, low: Edge) -> Result<Edge, NoMemory> {
    let one = graph.both(literal, high)?;
    let other = graph.both(negated(literal), low)?;
    if high == TRUE {
        return graph.either(literal, low);
    }
    if low == TRUE {
        return graph.either(negated(literal), high);
    }
    graph.either(one, other)
}
