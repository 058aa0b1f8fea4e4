// Which nets are taken to be equal or opposite.

use crate::edges::{Edge, TRUE, edge_at, is_marked, number_at, straight};
use crate::simulating::NetHistories;
use base_types::NoMemory;
use net_follow::{Equation, Literal, Side};
use net_ir::Net;
use std::alloc::Global;

/// For each place its representative: itself, or a lower place that represents itself.
#[derive(Drop)]
pub(crate) struct Classes {
    pub stand_ins: Vec<Edge>,
}

/// Each net represents the later nets that have its history, or the opposite one.
pub(crate) fn first_classes(alloc: Global, histories: &NetHistories) -> Result<Classes, NoMemory> {
    let count = histories.marks.len();
    let mut heads = vec![in alloc; usize::MAX; count.saturating_add(1)]?;
    let mut chain = Vec::new(alloc);
    let mut stand_ins = Vec::new(alloc);
    for place in 0..count {
        let bucket = bucket_of(histories, place, heads.len());
        let other = same_history(histories, &chain, number_at(&heads, bucket), place);
        stand_ins.push(stand_in(histories, other, place))?;
        chain.push(number_at(&heads, bucket))?;
        if other >= place && bucket < heads.len() {
            heads[bucket] = place;
        }
    }
    Ok(Classes { stand_ins })
}

/// Each net represents itself.
pub(crate) fn own_classes(alloc: Global, net: &Net) -> Result<Classes, NoMemory> {
    let count = net
        .inputs
        .len()
        .saturating_add(net.latches.len())
        .saturating_add(net.gates.len())
        .saturating_add(1);
    let mut stand_ins = Vec::new(alloc);
    for place in 0..count {
        stand_ins.push(straight(place))?;
    }
    Ok(Classes { stand_ins })
}

fn bucket_of(histories: &NetHistories, place: usize, size: usize) -> usize {
    if place < histories.marks.len() && size > 0 {
        histories.marks[place] as usize % size
    } else {
        0
    }
}

// The place from here on in its chain that has this place's history.
fn same_history(histories: &NetHistories, chain: &[usize], from: usize, place: usize) -> usize {
    let mut at = from;
    for _step in 0..chain.len() {
        if at >= histories.marks.len() || place >= histories.marks.len() {
            return usize::MAX;
        }
        if histories.marks[at] == histories.marks[place] {
            return at;
        }
        at = number_at(chain, at);
    }
    usize::MAX
}

fn stand_in(histories: &NetHistories, other: usize, place: usize) -> Edge {
    if other >= place {
        straight(place)
    } else {
        Edge {
            node: other,
            negative: is_marked(&histories.signs, other) != is_marked(&histories.signs, place),
        }
    }
}

impl Classes {
    /// Whether another place represents one of these.
    pub fn joins_some(&self, places: &[bool]) -> bool {
        for place in 0..self.stand_ins.len() {
            if is_marked(places, place) && self.joins(place) {
                return true;
            }
        }
        false
    }

    /// Whether another place represents this one.
    pub fn joins(&self, place: usize) -> bool {
        edge_at(&self.stand_ins, place).node != place
    }

    /// Makes each marked place represent itself.
    pub fn part(&mut self, places: &[bool]) {
        for place in 0..self.stand_ins.len() {
            if is_marked(places, place) {
                set(&mut self.stand_ins, place, straight(place));
            }
        }
    }

    /// What the classes say: a net has the value of the net that represents it, or the negated value.
    pub fn claims(&self, alloc: Global) -> Result<Vec<Equation>, NoMemory> {
        let mut claims = Vec::new(alloc);
        for place in 0..self.stand_ins.len() {
            let edge = edge_at(&self.stand_ins, place);
            if edge.node != place {
                claims.push(equation(place, edge))?;
            }
        }
        Ok(claims)
    }

    /// Takes up what claims say of nets in place of what the classes said.
    pub fn take_up(&mut self, claims: &[Equation]) {
        let mut next: usize = 0;
        for place in 0..self.stand_ins.len() {
            let mut edge = straight(place);
            if next < claims.len() && place_of(claims[next].out) == place {
                edge = edge_of(claims[next].left);
                next = next.saturating_add(1);
            }
            set(&mut self.stand_ins, place, edge);
        }
    }
}

fn set(list: &mut [Edge], place: usize, edge: Edge) {
    if place < list.len() {
        list[place] = edge;
    }
}

/// A net has the value of another one of the netlist, or of its negation.
pub(crate) fn equation(place: usize, edge: Edge) -> Equation {
    Equation {
        out: literal(Side::Old, straight(place)),
        left: literal(Side::Old, edge),
        right: literal(Side::Always, TRUE),
    }
}

/// An edge as a literal of a netlist.
pub(crate) fn literal(side: Side, edge: Edge) -> Literal {
    let number = edge.node.saturating_sub(1);
    Literal {
        late: false,
        side: if edge.node == 0 { Side::Always } else { side },
        number: if number < 0x1_0000_0000 {
            number as u32
        } else {
            0
        },
        positive: !edge.negative,
    }
}

fn edge_of(literal: Literal) -> Edge {
    Edge {
        node: place_of(literal),
        negative: !literal.positive,
    }
}

fn place_of(literal: Literal) -> usize {
    if literal.side == Side::Always {
        0
    } else {
        literal.number as usize + 1
    }
}
