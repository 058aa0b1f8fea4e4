// Pairs of latches that never have certain values in the same instant.

use crate::classes::literal;
use crate::edges::{Edge, TRUE, is_marked, mark, negated};
use crate::simulating::unseen_pairs;
use crate::telling::latch_node;
use base_types::NoMemory;
use net_follow::{Equation, Instant, Literal, Side, inductive_claims};
use net_ir::Net;
use std::alloc::Global;

// How many latches are looked at in pairs, in netlists of how many gates.
const LATCHES: usize = 64;

const GATES: usize = 4_000;

// How many rounds of induction are tried before all pairs are given up.
const ROUNDS: usize = 40;

/// Pairs of literals of latches that are never both true: as claims that what both say together is false, and by the
/// numbers of both literals.
#[derive(Drop)]
pub(crate) struct Exclusions {
    pub claims: Vec<Equation>,
    marks: Vec<bool>,
    first: usize,
    count: usize,
}

/// No pairs.
pub(crate) fn no_exclusions(alloc: Global) -> Exclusions {
    Exclusions {
        claims: Vec::new(alloc),
        marks: Vec::new(alloc),
        first: 0,
        count: 0,
    }
}

/// The pairs that are never seen in drawn runs, as far as they hold by induction over instants; none where there are
/// many latches or gates.
pub(crate) fn exclusions_of(alloc: Global, net: &Net) -> Result<Exclusions, NoMemory> {
    if net.latches.len() > LATCHES || net.gates.len() > GATES {
        return Ok(no_exclusions(alloc));
    }
    let first = latch_node(net, 0);
    let count = net.latches.len().saturating_mul(2);
    let mut guesses = Vec::new(alloc);
    for pair in &unseen_pairs(alloc, net)? {
        guesses.push(exclusion(
            literal_edge(first, pair.left),
            literal_edge(first, pair.right),
        ))?;
    }
    let claims = inductive_part(alloc, net, guesses)?;
    let mut marks = vec![in alloc; false; count.saturating_mul(count)]?;
    for claim in &claims {
        let left = literal_number(first, claim.left);
        let right = literal_number(first, claim.right);
        mark(&mut marks, left.saturating_mul(count).saturating_add(right));
        mark(&mut marks, right.saturating_mul(count).saturating_add(left));
    }
    Ok(Exclusions {
        claims,
        marks,
        first,
        count,
    })
}

impl Exclusions {
    /// Whether they may be of a netlist of as many inputs and latches.
    pub fn are_of(&self, net: &Net) -> bool {
        self.first == latch_node(net, 0) && self.count == net.latches.len().saturating_mul(2)
    }

    /// Whether there are none.
    pub fn are_none(&self) -> bool {
        self.claims.is_empty()
    }

    /// Whether two edges are known never to be true together.
    pub fn excludes(&self, left: Edge, right: Edge) -> bool {
        if left.node < self.first || right.node < self.first {
            return false;
        }
        let one = edge_number(self.first, left);
        let other = edge_number(self.first, right);
        one < self.count
            && other < self.count
            && is_marked(
                &self.marks,
                one.saturating_mul(self.count).saturating_add(other),
            )
    }
}

// What is left of claims where each holds in the first instant, and in any other where all do one before.
fn inductive_part(
    alloc: Global,
    net: &Net,
    given: Vec<Equation>,
) -> Result<Vec<Equation>, NoMemory> {
    let mut claims = given;
    for _round in 0..ROUNDS {
        let later = inductive_claims(alloc, net, &[], &claims, Instant::Later)?;
        let first = inductive_claims(alloc, net, &[], &later.claims, Instant::First)?;
        claims = first.claims;
        if later.unshown.is_empty() && first.unshown.is_empty() {
            return Ok(claims);
        }
    }
    Ok(Vec::new(alloc))
}

// Two literals are never true together.
fn exclusion(left: Edge, right: Edge) -> Equation {
    Equation {
        out: literal(Side::Always, negated(TRUE)),
        left: literal(Side::Old, left),
        right: literal(Side::Old, right),
    }
}

// The literals of the latches, by their numbers: each latch, and its negation.
fn literal_edge(first: usize, number: usize) -> Edge {
    Edge {
        node: first.saturating_add(number / 2),
        negative: number % 2 == 1,
    }
}

fn edge_number(first: usize, edge: Edge) -> usize {
    let sign: usize = if edge.negative { 1 } else { 0 };
    edge.node
        .saturating_sub(first)
        .saturating_mul(2)
        .saturating_add(sign)
}

fn literal_number(first: usize, literal: Literal) -> usize {
    edge_number(
        first,
        Edge {
            node: literal.number as usize + 1,
            negative: !literal.positive,
        },
    )
}
