// And-inverter graphs.

use base_types::NoMemory;
use sat_trail::{LiteralId, at, put, small};
use std::alloc::Global;

/// The edge that is always true.
pub const TRUE: LiteralId = LiteralId(0);

/// The edge that is always false.
pub const FALSE: LiteralId = LiteralId(1);

// A place of the table that has no node.
const NOWHERE: u32 = u32::MAX;

// The places of the first table.
const PLACES: usize = 1_024;

// Graphs have fewer nodes than this, so that the number of an edge fits.
const NODES: usize = 0x4000_0000;

/// A node. An edge is a node or its negation, as a `LiteralId`.
#[derive(Clone, Copy)]
pub enum AndNode {
    True,
    Free,
    And(LiteralId, LiteralId),
}

/// An and-inverter graph. Operands have lower numbers than the node that reads them, and no two nodes have the same
/// operands. Node 0 is true.
#[derive(Drop)]
pub struct AndGraph {
    nodes: Vec<AndNode>,
    // The numbers of the nodes with operands, by a hash of the operands.
    table: Vec<u32>,
    hashed: usize,
}

impl AndGraph {
    /// A graph with the true node alone.
    pub fn new(alloc: Global) -> Result<AndGraph, NoMemory> {
        Ok(AndGraph {
            nodes: vec![in alloc; AndNode::True; 1]?,
            table: vec![in alloc; NOWHERE; PLACES]?,
            hashed: 0,
        })
    }

    /// The number of nodes.
    pub fn len(&self) -> usize {
        self.nodes.len()
    }

    /// The node with a number. Past the end it is free.
    #[inline(always)]
    pub fn node(&self, place: usize) -> AndNode {
        at(&self.nodes, place, AndNode::Free)
    }

    /// Adds a node that may have any value.
    pub fn free(&mut self) -> Result<LiteralId, NoMemory> {
        self.push(AndNode::Free)
    }

    fn push(&mut self, node: AndNode) -> Result<LiteralId, NoMemory> {
        let place = self.nodes.len();
        self.nodes.push(node)?;
        Ok(LiteralId::signed(small(place), true))
    }

    /// The edge that is true where both edges are.
    pub fn and(
        &mut self,
        alloc: Global,
        left: LiteralId,
        right: LiteralId,
    ) -> Result<LiteralId, NoMemory> {
        if left.0 > right.0 {
            return self.and_in_order(alloc, right, left);
        }
        self.and_in_order(alloc, left, right)
    }

    /// The edge that is true where one of the edges is.
    pub fn or(
        &mut self,
        alloc: Global,
        left: LiteralId,
        right: LiteralId,
    ) -> Result<LiteralId, NoMemory> {
        let neither = self.and(alloc, left.opposite(), right.opposite())?;
        Ok(neither.opposite())
    }

    fn and_in_order(
        &mut self,
        alloc: Global,
        left: LiteralId,
        right: LiteralId,
    ) -> Result<LiteralId, NoMemory> {
        if let Some(edge) = simple_and(left, right) {
            return Ok(edge);
        }
        if let Some(edge) = self.absorbed(left, right) {
            return Ok(edge);
        }
        if let Some(edge) = self.absorbed(right, left) {
            return Ok(edge);
        }
        self.hashed_and(alloc, left, right)
    }

    // The edge that is true where both are, if the second is a node of the first or its negation.
    fn absorbed(&self, edge: LiteralId, other: LiteralId) -> Option<LiteralId> {
        let AndNode::And(a, b) = self.node(other.variable()) else {
            return None;
        };
        if edge.opposite().0 == a.0 || edge.opposite().0 == b.0 {
            Some(if other.is_positive() { FALSE } else { edge })
        } else if other.is_positive() && (edge.0 == a.0 || edge.0 == b.0) {
            Some(other)
        } else {
            None
        }
    }

    // The node with these operands, which is added where there is none.
    fn hashed_and(
        &mut self,
        alloc: Global,
        left: LiteralId,
        right: LiteralId,
    ) -> Result<LiteralId, NoMemory> {
        let place = self.place_of(left, right);
        let known = at(&self.table, place, NOWHERE);
        if known != NOWHERE {
            return Ok(LiteralId::signed(known, true));
        }
        if self.nodes.len() >= NODES {
            return self.free();
        }
        put(&mut self.table, place, small(self.nodes.len()));
        self.hashed = self.hashed.saturating_add(1);
        let edge = self.push(AndNode::And(left, right))?;
        if self.hashed.saturating_mul(2) > self.table.len() {
            self.spread(alloc)?;
        }
        Ok(edge)
    }

    // The place of the table that has the node with these operands, or else a free one for it.
    fn place_of(&self, left: LiteralId, right: LiteralId) -> usize {
        let size = self.table.len().max(1);
        let start = hash_of(left, right) % size;
        for step in 0..size {
            let place = start.saturating_add(step) % size;
            let known = at(&self.table, place, NOWHERE);
            if known == NOWHERE || self.has_operands(known, left, right) {
                return place;
            }
        }
        size
    }

    fn has_operands(&self, place: u32, left: LiteralId, right: LiteralId) -> bool {
        match self.node(place as usize) {
            AndNode::And(a, b) => a.0 == left.0 && b.0 == right.0,
            AndNode::True | AndNode::Free => false,
        }
    }

    // Doubles the table.
    fn spread(&mut self, alloc: Global) -> Result<(), NoMemory> {
        let size = self.table.len().saturating_mul(2);
        self.table = vec![in alloc; NOWHERE; size]?;
        for number in 0..self.nodes.len() {
            if let AndNode::And(left, right) = self.node(number) {
                let place = self.place_of(left, right);
                put(&mut self.table, place, small(number));
            }
        }
        Ok(())
    }
}

fn hash_of(left: LiteralId, right: LiteralId) -> usize {
    let mixed = (left.0 as u64)
        .wrapping_mul(0x9e37_79b9_7f4a_7c15)
        .wrapping_add((right.0 as u64).wrapping_mul(0xc2b2_ae3d_27d4_eb4f));
    ((mixed ^ (mixed >> 29)) >> 3) as usize
}

// The edge that is true where both are, in order, if one is constant or both are one node.
fn simple_and(left: LiteralId, right: LiteralId) -> Option<LiteralId> {
    if left.0 == FALSE.0 || left.0 == right.opposite().0 {
        Some(FALSE)
    } else if left.0 == TRUE.0 || left.0 == right.0 {
        Some(right)
    } else {
        None
    }
}
