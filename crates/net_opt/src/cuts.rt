// Cuts: few nodes that settle another one.

use crate::edges::{Edge, negated, number_at, straight, word_at};
use crate::excluding::Exclusions;
use crate::few::Few;
use crate::graphs::Graph;
use crate::tables::{Between, variable_table};

// How many nodes may lie between a cut and its node.
const INSIDE: usize = 24;

/// At most six leaves, and the nodes that they settle, from a node down: it stands first.
#[derive(Clone, Copy)]
pub(crate) struct Cut {
    pub leaves: Few,
    pub inside: Few,
}

/// How a cut is grown: up to this many leaves, and whether by leaves first that nothing else needs.
#[derive(Clone, Copy)]
pub(crate) struct Style {
    pub leaves: usize,
    pub own_first: bool,
}

/// A cut of a pair, where `fans` counts what needs a node. It grows by the leaf that has the fewest new parts.
pub(crate) fn cut_of(graph: &Graph, node: usize, fans: &[usize], style: Style) -> Cut {
    let mut cut = Cut {
        leaves: Few::new(),
        inside: Few::new(),
    };
    cut.leaves.push(node);
    for _step in 0..INSIDE {
        let leaf = cut.cheapest_leaf(graph, fans, style);
        if leaf == usize::MAX {
            break;
        }
        cut.expand(graph, leaf);
    }
    cut
}

impl Cut {
    // The leaf that has the fewest new parts, where there is room for them; of those that have as few the highest.
    fn cheapest_leaf(&self, graph: &Graph, fans: &[usize], style: Style) -> usize {
        let mut best = usize::MAX;
        let mut fewest = usize::MAX;
        for k in 0..self.leaves.len() {
            let leaf = self.leaves.at(k);
            if graph.is_pair(leaf) {
                let new = self.new_parts(graph, leaf);
                let fits = self.leaves.len().saturating_add(new) <= style.leaves.saturating_add(1);
                let late = style.own_first && number_at(fans, leaf) != 1;
                let cost = if late { new.saturating_add(3) } else { new };
                if fits && (cost < fewest || (cost == fewest && leaf > best)) {
                    best = leaf;
                    fewest = cost;
                }
            }
        }
        best
    }

    fn new_parts(&self, graph: &Graph, leaf: usize) -> usize {
        let pair = graph.pair(leaf);
        let left: usize = if self.leaves.has(pair.left.node) {
            0
        } else {
            1
        };
        let right: usize = if self.leaves.has(pair.right.node) {
            0
        } else {
            1
        };
        left.saturating_add(right)
    }

    // Puts the parts of a leaf in its place.
    fn expand(&mut self, graph: &Graph, leaf: usize) {
        self.leaves.remove(leaf);
        self.inside.push(leaf);
        let pair = graph.pair(leaf);
        if !self.leaves.has(pair.left.node) {
            self.leaves.push(pair.left.node);
        }
        if !self.leaves.has(pair.right.node) {
            self.leaves.push(pair.right.node);
        }
    }

    /// The functions that the node may have, with the leaves as variables: free where leaves exclude each other.
    pub fn functions(&self, graph: &Graph, exclusions: &Exclusions) -> Between {
        let table = self.table(graph);
        let free = self.excluded(exclusions);
        Between {
            low: table & !free,
            high: table | free,
        }
    }

    // Where the leaves have values that exclude each other.
    fn excluded(&self, exclusions: &Exclusions) -> u64 {
        let mut table: u64 = 0;
        if exclusions.are_none() {
            return table;
        }
        for k in 0..self.leaves.len() {
            for j in 0..k {
                table |= self.excluded_by(exclusions, k, j);
            }
        }
        table
    }

    // Where the leaves at two places have values that exclude each other.
    fn excluded_by(&self, exclusions: &Exclusions, one: usize, other: usize) -> u64 {
        let left = straight(self.leaves.at(one));
        let right = straight(self.leaves.at(other));
        excluded_at(exclusions, left, one, right, other)
            | excluded_at(exclusions, negated(left), one, right, other)
            | excluded_at(exclusions, left, one, negated(right), other)
            | excluded_at(exclusions, negated(left), one, negated(right), other)
    }

    // The function of the node, with the leaves as variables.
    fn table(&self, graph: &Graph) -> u64 {
        let mut tables = Tables {
            nodes: Few::new(),
            tables: [0; 48],
        };
        for k in 0..self.leaves.len() {
            tables.push(self.leaves.at(k), variable_table(k));
        }
        let sorted = self.inside.sorted();
        let mut last: u64 = 0;
        for k in 0..sorted.len() {
            let node = sorted.at(k);
            let pair = graph.pair(node);
            last = tables.of(pair.left) & tables.of(pair.right);
            tables.push(node, last);
        }
        last
    }

    /// The nodes inside that are needed for the cut's node alone, where `fans` counts what needs a node.
    pub fn spared(&self, graph: &Graph, fans: &[usize]) -> Few {
        let sorted = self.inside.sorted();
        let mut spared = Few::new();
        let top = self.inside.at(0);
        for k in (0..sorted.len()).rev() {
            let node = sorted.at(k);
            if node == top || used_by(graph, &spared, node) == number_at(fans, node) {
                spared.push(node);
            }
        }
        spared
    }
}

// Nodes with their functions.
#[derive(Clone, Copy)]
struct Tables {
    nodes: Few,
    tables: [u64; 48],
}

impl Tables {
    // Adds a node with its function.
    fn push(&mut self, node: usize, table: u64) {
        let place = self.nodes.len();
        if place < 48 {
            self.tables[place] = table;
        }
        self.nodes.push(node);
    }

    // The function of an edge.
    fn of(&self, edge: Edge) -> u64 {
        let table = if edge.node == 0 {
            u64::MAX
        } else {
            word_at(&self.tables, self.nodes.place(edge.node))
        };
        if edge.negative { !table } else { table }
    }
}

// Where two literals of variables are true, if they exclude each other.
fn excluded_at(exclusions: &Exclusions, left: Edge, one: usize, right: Edge, other: usize) -> u64 {
    if exclusions.excludes(left, right) {
        signed_table(one, left.negative) & signed_table(other, right.negative)
    } else {
        0
    }
}

fn signed_table(variable: usize, negative: bool) -> u64 {
    let table = variable_table(variable);
    if negative { !table } else { table }
}

// How often these nodes hold a node.
fn used_by(graph: &Graph, nodes: &Few, node: usize) -> usize {
    let mut count: usize = 0;
    for k in 0..nodes.len() {
        let pair = graph.pair(nodes.at(k));
        if pair.left.node == node || pair.right.node == node {
            count = count.saturating_add(1);
        }
    }
    count
}
