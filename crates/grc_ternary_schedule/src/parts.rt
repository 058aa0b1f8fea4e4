// A schedule: component by component, each node of a circle several times.

ghost use Rattle.std.specs.Prelude.{◌<◌, length, IfOk, OnOk, IsTrue, All};
ghost use Rattle.grc_ternary_gates.specs.Systems.{gate_fits};
ghost use Rattle.grc_ternary_schedule.specs.Searches.{AreMarks};

use crate::search::{Search, find_parts};
use base_types::NoMemory;
use grc_ternary_gates::Gate;
use std::alloc::Global;

// The nodes by their components, in each in this order.
fn by_parts(alloc: Global, found: &Search, order: &[usize]) -> Result<Vec<Vec<usize>>, NoMemory> {
    let mut lists: Vec<Vec<usize>> = Vec::new(alloc);
    for _ in 0..found.parts {
        lists.push(Vec::new(alloc))?;
    }
    for node in order {
        if *node < found.part.len() {
            let part = found.part[*node];
            if part < lists.len() {
                lists[part].push(*node)?;
            }
        }
    }
    Ok(lists)
}

// A node of a component that was met on the longest path.
fn deepest(found: &Search, list: &[usize]) -> usize {
    let mut best = usize::MAX;
    let mut longest = 0usize;
    for node in list {
        if *node < found.depth.len() && found.depth[*node] >= longest {
            longest = found.depth[*node];
            best = *node;
        }
    }
    best
}

// The nodes by their components, in an order that leads through each of them from its other end.
fn turned_parts(
    alloc: Global,
    gates: &[Gate],
    sources: usize,
    found: &Search,
    lists: &[Vec<usize>],
) -> Result<Vec<Vec<usize>>, NoMemory>
    requires { All (λ g. IsTrue (gate_fits (length gates.now) sources g)) gates.now }
{
    let mut roots = Vec::new(alloc);
    for list in lists {
        roots.push(deepest(found, list.as_slice()))?;
    }
    let turned = find_parts(alloc, gates, sources, roots.as_slice())?;
    by_parts(alloc, found, turned.order.as_slice())
}

/// The place of each node among all, and which nodes are read before their place.
#[derive(Drop)]
struct Marks {
    place: Vec<usize>,
    cut: Vec<bool>,
}

// The place of each node in the order.
fn make_marks(alloc: Global, found: &Search) -> Result<Marks, NoMemory>
    ensures { IfOk result (AreMarks (length found.now.part.items)) }
{
    let nodes = found.part.len();
    let mut place = vec![in alloc; 0usize; nodes]?;
    let cut = vec![in alloc; false; nodes]?;
    for (k, node) in found.order.iter().enumerate() {
        if *node < nodes {
            place[*node] = k;
        }
    }
    Ok(Marks { place, cut })
}

// Marks a node that another one of its component reads before its place, and tells whether it was not marked.
fn mark(found: &Search, marks: &mut Marks, reader: usize, operand: usize) -> bool
    requires { AreMarks (length found.now.part.items) marks.old }
    ensures { AreMarks (length found.now.part.items) marks.new }
{
    let nodes = found.part.len();
    if reader >= nodes || operand >= nodes || marks.cut[operand] {
        return false;
    }
    if found.part[reader] != found.part[operand] || marks.place[operand] < marks.place[reader] {
        return false;
    }
    marks.cut[operand] = true;
    true
}

// How many nodes of a component are read before their place.
fn count_cuts(found: &Search, marks: &mut Marks, gates: &[Gate], list: &[usize]) -> usize
    requires { AreMarks (length found.now.part.items) marks.old }
    ensures { AreMarks (length found.now.part.items) marks.new }
{
    let mut count = 0usize;
    for node in list {
        if *node < gates.len() {
            let (first, second) = operands(gates[*node]);
            if mark(found, marks, *node, first) {
                count = count.wrapping_add(1);
            }
            if mark(found, marks, *node, second) {
                count = count.wrapping_add(1);
            }
        }
    }
    count
}

// The operands of a gate; where there are fewer than two, a number that no node has.
fn operands(gate: Gate) -> (usize, usize) {
    match gate {
        Gate::Source(_) => (usize::MAX, usize::MAX),
        Gate::Same(a) | Gate::Not(a) => (a, usize::MAX),
        Gate::And(a, b) | Gate::Or(a, b) => (a, b),
    }
}

// Whether a pass takes the nodes in the order from the other end: the third one, and then every second one.
fn is_turned(pass: usize) -> bool {
    pass >= 2 && pass % 2 == 0
}

// The nodes of a component, pass by pass, in one order or in the other one.
fn repeat(
    schedule: &mut Vec<usize>,
    list: &[usize],
    turned: &[usize],
    passes: usize,
    nodes: usize,
) -> Result<(), NoMemory>
    requires { All (λ n. n < nodes) schedule.old.items }
    ensures { OnOk result (All (λ n. n < nodes) schedule.new.items) }
{
    for pass in 0..passes {
        let order = if is_turned(pass) { turned } else { list };
        for node in order {
            if *node < nodes {
                schedule.push(*node)?;
            }
        }
    }
    Ok(())
}

// In how many passes the nodes of a component with this number of cuts are known, if every second pass has the order
// of the cuts.
fn passes_for(cuts: usize) -> usize {
    cuts.saturating_mul(2).max(1)
}

/// A schedule of a system's nodes: component by component, so that what is read comes before its readers, except in
/// a circle. The nodes of a circle with `m` nodes that are read before their place occur `2 * m` times, and at most
/// `most` times. The first two passes, and then every second one, have the same order. The others lead through the
/// circle from its other end, so that what goes back and forth on a line needs few passes. The error is out of
/// memory.
///
/// Example: of the two nodes of `a = not b`, `b = not a` one is read before its place. With `most` 2 both occur twice.
pub fn find_schedule(
    alloc: Global,
    gates: &[Gate],
    sources: usize,
    most: usize,
) -> Result<Vec<usize>, NoMemory>
    requires fit { All (λ g. IsTrue (gate_fits (length gates.now) sources g)) gates.now }
    ensures { IfOk result (λ s. All (λ n. n < length gates.now) s.items) }
{
    let found = find_parts(alloc, gates, sources, &[])?;
    let lists = by_parts(alloc, &found, found.order.as_slice())?;
    let turned = turned_parts(alloc, gates, sources, &found, lists.as_slice())?;
    let mut seen = make_marks(alloc, &found)?;
    let mut schedule = Vec::new(alloc);
    for (list, other) in lists.iter().zip(turned.iter()) {
        let cuts = count_cuts(&found, &mut seen, gates, list.as_slice());
        let passes = passes_for(cuts).min(most);
        repeat(
            &mut schedule,
            list.as_slice(),
            other.as_slice(),
            passes,
            gates.len(),
        )?;
    }
    Ok(schedule)
}
