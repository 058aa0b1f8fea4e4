// Claims about the nets of one netlist, split by counterexamples.

use crate::literals::{Equation, Literal, Side, opposite};
use crate::replaying::Replay;
use base_types::NoMemory;
use net_ir::Net;
use std::alloc::Global;

// There is no head here.
const NONE: usize = usize::MAX;

// How many instants are run from a counterexample, and how many without a split before that ends.
const INSTANTS: usize = 2_048;

const QUIET: usize = 12;

/// Claims that each say that a net has the value of another one, or that something is always false. A counterexample
/// splits all of them at once: nets that were claimed equal, and still have the same values, are claimed equal to the
/// first of them.
#[derive(Drop)]
pub(crate) struct Parting {
    replay: Replay,
    claims: Vec<Option<Equation>>,
    is_whole: Vec<bool>,
    // By net, after what is always true: the first of the heads that were split from it.
    firsts: Vec<usize>,
    heads: Vec<Head>,
}

// A net that was split from another one, with its values.
#[derive(Clone, Copy)]
struct Head {
    word: u64,
    literal: Literal,
    from: usize,
    next: usize,
}

impl Parting {
    /// These claims, about the nets of a netlist, are whole.
    pub fn new(
        alloc: Global,
        net: &Net,
        late: bool,
        claims: &[Equation],
    ) -> Result<Parting, NoMemory> {
        let nets = net
            .inputs
            .len()
            .saturating_add(net.latches.len())
            .saturating_add(net.gates.len());
        let mut parting = Parting {
            replay: Replay::new(alloc, net, late)?,
            claims: Vec::new(alloc),
            is_whole: vec![in alloc; true; claims.len()]?,
            firsts: vec![in alloc; NONE; nets.saturating_add(1)]?,
            heads: Vec::new(alloc),
        };
        for claim in claims {
            parting.claims.push(Some(*claim))?;
        }
        Ok(parting)
    }

    /// The claim of a place, as it is now.
    pub fn claim(&self, place: usize) -> Option<Equation> {
        if place < self.claims.len() {
            self.claims[place]
        } else {
            None
        }
    }

    /// Reports whether the claim of a place is as it was given.
    pub fn is_whole(&self, place: usize) -> bool {
        place < self.is_whole.len() && self.is_whole[place]
    }

    fn change(&mut self, place: usize, claim: Option<Equation>) {
        if place < self.claims.len() && place < self.is_whole.len() {
            self.claims[place] = claim;
            self.is_whole[place] = false;
        }
    }

    /// The claims that are left, in their order.
    pub fn left(&self, alloc: Global) -> Result<Vec<Equation>, NoMemory> {
        let mut left = Vec::new(alloc);
        for claim in &self.claims {
            if let Some(equation) = claim {
                left.push(*equation)?;
            }
        }
        Ok(left)
    }

    /// Drops the claim of a place.
    pub fn drop_claim(&mut self, place: usize) {
        self.change(place, None);
    }

    /// Splits the claims by a counterexample to that of a place, and by the instants that can follow it. What is true
    /// in all instants that are reached, and where the claims that hold there were assumed, is true there too. Where
    /// there is no counterexample, the claim of the place is dropped.
    pub fn split(&mut self, net: &Net, values: &[bool], place: usize) -> Result<(), NoMemory> {
        if values.is_empty() {
            self.change(place, None);
            return Ok(());
        }
        self.replay.begin(net, values);
        let mut quiet: usize = 0;
        for _ in 0..INSTANTS {
            if self.splits_some()? {
                quiet = 0;
            } else {
                quiet = quiet.saturating_add(1);
            }
            if quiet >= QUIET {
                return Ok(());
            }
            self.replay.step(net);
        }
        Ok(())
    }

    // Splits the claims by the values of an instant, and reports whether that changes any.
    fn splits_some(&mut self) -> Result<bool, NoMemory> {
        let mut is_changed = false;
        for place in 0..self.claims.len() {
            if let Some(claim) = self.claim(place) {
                let out = self.replay.word(claim.out);
                if out != self.replay.word(claim.left) & self.replay.word(claim.right) {
                    let heir = self.heir(claim, out)?;
                    self.change(place, heir);
                    is_changed = true;
                }
            }
        }
        self.clear_heads();
        Ok(is_changed)
    }

    // The claim that a net has the value of the first net that was split from the same with the same values. None for
    // the first such net.
    fn heir(&mut self, claim: Equation, out: u64) -> Result<Option<Equation>, NoMemory> {
        if claim.out.side == Side::Always {
            return Ok(None);
        }
        let positive = claim.left.positive;
        let from = place_of(claim.left);
        let word = if positive { out } else { !out };
        if let Some(head) = self.head(from, word) {
            let left = if positive { head } else { opposite(head) };
            return Ok(Some(Equation { left, ..claim }));
        }
        let literal = if positive {
            claim.out
        } else {
            opposite(claim.out)
        };
        self.add_head(from, word, literal)?;
        Ok(None)
    }

    fn head(&self, from: usize, word: u64) -> Option<Literal> {
        let mut place = self.first(from);
        for _ in 0..self.heads.len() {
            if place >= self.heads.len() {
                return None;
            }
            let head = self.heads[place];
            if head.word == word {
                return Some(head.literal);
            }
            place = head.next;
        }
        None
    }

    fn first(&self, from: usize) -> usize {
        if from < self.firsts.len() {
            self.firsts[from]
        } else {
            NONE
        }
    }

    fn add_head(&mut self, from: usize, word: u64, literal: Literal) -> Result<(), NoMemory> {
        let next = self.first(from);
        let place = self.heads.len();
        self.heads.push(Head {
            word,
            literal,
            from,
            next,
        })?;
        set_first(&mut self.firsts, from, place);
        Ok(())
    }

    fn clear_heads(&mut self) {
        for head in &self.heads {
            set_first(&mut self.firsts, head.from, NONE);
        }
        self.heads.clear();
    }
}

fn set_first(firsts: &mut [usize], from: usize, place: usize) {
    if from < firsts.len() {
        firsts[from] = place;
    }
}

// The place of a net after what is always true.
fn place_of(literal: Literal) -> usize {
    match literal.side {
        Side::Always => 0,
        Side::Old | Side::New => (literal.number as usize).saturating_add(1),
    }
}
