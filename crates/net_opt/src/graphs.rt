// And-inverter graphs with one node for each pair of edges.

use crate::edges::{Edge, TRUE, edge_at, negated, number_at, straight};
use base_types::NoMemory;
use std::alloc::Global;

// How often a pair is made shorter before it is taken as it is.
const REDUCTIONS: usize = 6;

/// A graph of nodes that are true just where both their edges are. The node 0 is always true, and the leaves follow it;
/// nodes have edges to lower ones alone. The nodes of a pair are found by a hash of it.
#[derive(Drop)]
pub(crate) struct Graph {
    pub leaves: usize,
    lefts: Vec<Edge>,
    rights: Vec<Edge>,
    heads: Vec<usize>,
    chain: Vec<usize>,
}

/// The edges of a node.
#[derive(Clone, Copy)]
pub(crate) struct Pair {
    pub left: Edge,
    pub right: Edge,
}

impl Graph {
    /// The leaves alone, with room for this many pairs.
    pub fn new(alloc: Global, leaves: usize, pairs: usize) -> Result<Graph, NoMemory> {
        let ends = leaves.saturating_add(1);
        Ok(Graph {
            leaves,
            lefts: vec![in alloc; TRUE; ends]?,
            rights: vec![in alloc; TRUE; ends]?,
            heads: vec![in alloc; usize::MAX; pairs.saturating_add(16)]?,
            chain: vec![in alloc; usize::MAX; ends]?,
        })
    }

    /// How many nodes there are.
    pub fn count(&self) -> usize {
        self.lefts.len()
    }

    /// Whether a node has edges.
    pub fn is_pair(&self, node: usize) -> bool {
        node > self.leaves
    }

    /// The edges of a node.
    pub fn pair(&self, node: usize) -> Pair {
        Pair {
            left: edge_at(&self.lefts, node),
            right: edge_at(&self.rights, node),
        }
    }

    /// An edge that is true just where both are.
    pub fn both(&mut self, left: Edge, right: Edge) -> Result<Edge, NoMemory> {
        let mut pair = ordered(left, right);
        for _step in 0..REDUCTIONS {
            if let Some(edge) = self.outright(pair.left, pair.right) {
                return Ok(edge);
            }
            pair = self.reduced(pair);
        }
        self.hashed(pair)
    }

    /// The edge that `both` would give, where it needs no node more.
    pub fn found(&self, left: Edge, right: Edge) -> Option<Edge> {
        let mut pair = ordered(left, right);
        for _step in 0..REDUCTIONS {
            if let Some(edge) = self.outright(pair.left, pair.right) {
                return Some(edge);
            }
            pair = self.reduced(pair);
        }
        self.there(pair)
    }

    /// An edge that is true just where one of them is.
    pub fn either(&mut self, left: Edge, right: Edge) -> Result<Edge, NoMemory> {
        Ok(negated(self.both(negated(left), negated(right))?))
    }

    // What both say together, where one edge says it.
    fn outright(&self, left: Edge, right: Edge) -> Option<Edge> {
        if left == right || right == TRUE {
            return Some(left);
        }
        if left == TRUE {
            return Some(right);
        }
        if left.node == right.node || left.node == 0 || right.node == 0 {
            return Some(negated(TRUE));
        }
        if self.excludes(left, right) || self.excludes(right, left) {
            return Some(negated(TRUE));
        }
        if self.contains(left, right) || self.spares(right, left) {
            return Some(left);
        }
        if self.contains(right, left) || self.spares(left, right) {
            return Some(right);
        }
        None
    }

    // Whether an edge is a pair that holds the other edge.
    fn contains(&self, edge: Edge, part: Edge) -> bool {
        if edge.negative || !self.is_pair(edge.node) {
            return false;
        }
        let pair = self.pair(edge.node);
        pair.left == part || pair.right == part
    }

    // Whether an edge is a pair that holds the negation of the other edge, or of one of its parts.
    fn excludes(&self, edge: Edge, other: Edge) -> bool {
        if edge.negative || !self.is_pair(edge.node) {
            return false;
        }
        let pair = self.pair(edge.node);
        pair.left == negated(other)
            || pair.right == negated(other)
            || self.contains(other, negated(pair.left))
            || self.contains(other, negated(pair.right))
    }

    // Whether an edge is the negation of a pair that holds the negation of the other edge, or of one of its parts, so
    // that it is true where the other is.
    fn spares(&self, edge: Edge, other: Edge) -> bool {
        edge.negative && self.excludes(negated(edge), other)
    }

    // A pair that says the same, of shorter parts: of `a` and `not (a and b)` the second is `not b`.
    fn reduced(&self, pair: Pair) -> Pair {
        match self.rest_of(pair.left, pair.right) {
            Some(rest) => ordered(pair.left, rest),
            None => match self.rest_of(pair.right, pair.left) {
                Some(rest) => ordered(rest, pair.right),
                None => pair,
            },
        }
    }

    // Where the other edge is the negation of a pair of which one part holds where the edge does: the negation of the
    // other part.
    fn rest_of(&self, edge: Edge, other: Edge) -> Option<Edge> {
        if !other.negative || !self.is_pair(other.node) {
            return None;
        }
        let pair = self.pair(other.node);
        if pair.left == edge || self.contains(edge, pair.left) {
            return Some(negated(pair.right));
        }
        if pair.right == edge || self.contains(edge, pair.right) {
            return Some(negated(pair.left));
        }
        None
    }

    // The node of a pair: the one that there is, or one more.
    fn hashed(&mut self, pair: Pair) -> Result<Edge, NoMemory> {
        match self.there(pair) {
            Some(edge) => Ok(edge),
            None => self.push(self.bucket(pair), pair),
        }
    }

    // The node of a pair, if there is one.
    fn there(&self, pair: Pair) -> Option<Edge> {
        let mut node = number_at(&self.heads, self.bucket(pair));
        for _step in 0..self.count() {
            if node >= self.count() {
                return None;
            }
            let other = self.pair(node);
            if other.left == pair.left && other.right == pair.right {
                return Some(straight(node));
            }
            node = number_at(&self.chain, node);
        }
        None
    }

    // One node more.
    fn push(&mut self, place: usize, pair: Pair) -> Result<Edge, NoMemory> {
        let node = self.count();
        self.chain.push(number_at(&self.heads, place))?;
        self.lefts.push(pair.left)?;
        self.rights.push(pair.right)?;
        if place < self.heads.len() {
            self.heads[place] = node;
        }
        Ok(straight(node))
    }

    // Where the chain of a pair begins.
    fn bucket(&self, pair: Pair) -> usize {
        let hash = hash_of(pair);
        let size = self.heads.len();
        if size == 0 { 0 } else { hash % size }
    }
}

// The edges, the one of the lower node first.
fn ordered(left: Edge, right: Edge) -> Pair {
    if right.node < left.node {
        Pair {
            left: right,
            right: left,
        }
    } else {
        Pair { left, right }
    }
}

fn hash_of(pair: Pair) -> usize {
    let left = code_of(pair.left).wrapping_mul(0x9e37_79b9_7f4a_7c15);
    let right = code_of(pair.right).wrapping_mul(0xc2b2_ae3d_27d4_eb4f);
    let mixed = left ^ right;
    (mixed ^ (mixed >> 31)) as usize
}

fn code_of(edge: Edge) -> u64 {
    let sign: u64 = if edge.negative { 1 } else { 0 };
    (edge.node as u64).wrapping_mul(2) ^ sign
}
