// Binary decision diagrams with negated edges (Bryant, "Graph-Based Algorithms for Boolean Function Manipulation",
// 1986; Brace, Rudell and Bryant, "Efficient Implementation of a BDD Package", 1990).

use base_types::NoMemory;
use std::alloc::Global;

// How many nodes a diagram has at most.
const NODES: usize = 40_000;

// A place that nothing has.
const NONE: u32 = u32::MAX;

/// A function: twice the number of its node, and one more where it is negated. The node 0 is always true.
#[derive(Clone, Copy, PartialEq)]
pub(crate) struct Function(pub u32);

pub(crate) const ALWAYS: Function = Function(0);

pub(crate) const NEVER: Function = Function(1);

impl Function {
    pub fn negated(self) -> Function {
        Function(self.0 ^ 1)
    }

    pub fn node(self) -> usize {
        (self.0 >> 1) as usize
    }

    pub fn is_negated(self) -> bool {
        self.0 & 1 == 1
    }

    fn negated_if(self, negative: bool) -> Function {
        if negative { self.negated() } else { self }
    }
}

/// A node: the function where the variable of its level is true, which is never negated, and where it is false.
#[derive(Clone, Copy)]
pub(crate) struct Branch {
    pub level: u32,
    pub high: Function,
    pub low: Function,
    next: u32,
}

#[derive(Clone, Copy)]
struct Entry {
    left: Function,
    right: Function,
    both: Function,
}

#[derive(Drop)]
pub(crate) struct Diagram {
    branches: Vec<Branch>,
    heads: Vec<u32>,
    entries: Vec<Entry>,
    levels: u32,
    // Whether there were too many nodes: functions may be wrong then.
    pub is_full: bool,
}

impl Diagram {
    pub fn new(alloc: Global, levels: u32) -> Result<Diagram, NoMemory> {
        let none = Entry {
            left: Function(NONE),
            right: Function(NONE),
            both: NEVER,
        };
        let mut branches = Vec::new(alloc);
        branches.push(Branch {
            level: levels,
            high: ALWAYS,
            low: ALWAYS,
            next: NONE,
        })?;
        Ok(Diagram {
            branches,
            heads: vec![in alloc; NONE; 16_384]?,
            entries: vec![in alloc; none; 16_384]?,
            levels,
            is_full: false,
        })
    }

    /// The variable of a level.
    pub fn variable(&mut self, level: u32) -> Result<Function, NoMemory> {
        self.made(level, ALWAYS, NEVER)
    }

    pub fn branch(&self, node: usize) -> Branch {
        if node < self.branches.len() {
            self.branches[node]
        } else {
            Branch {
                level: self.levels,
                high: ALWAYS,
                low: ALWAYS,
                next: NONE,
            }
        }
    }

    pub fn count(&self) -> usize {
        self.branches.len()
    }

    // The function that is one where a level's variable is true, and the other where it is false.
    fn made(&mut self, level: u32, high: Function, low: Function) -> Result<Function, NoMemory> {
        if high == low {
            return Ok(high);
        }
        let negative = high.is_negated();
        let high = high.negated_if(negative);
        let low = low.negated_if(negative);
        let bucket = mixed(level, high, low) & 16_383;
        let mut place = number_in(&self.heads, bucket);
        for _ in 0..self.branches.len() {
            if place == NONE {
                break;
            }
            let branch = self.branch(place as usize);
            if branch.level == level && branch.high == high && branch.low == low {
                return Ok(Function(place.wrapping_mul(2)).negated_if(negative));
            }
            place = branch.next;
        }
        let node = self.branches.len();
        if node >= NODES {
            self.is_full = true;
            return Ok(NEVER);
        }
        let next = number_in(&self.heads, bucket);
        self.branches.push(Branch {
            level,
            high,
            low,
            next,
        })?;
        if bucket < self.heads.len() {
            self.heads[bucket] = node as u32;
        }
        Ok(Function((node as u32).wrapping_mul(2)).negated_if(negative))
    }

    /// What both functions say together, over at most this many levels.
    pub fn both(
        &mut self,
        left: Function,
        right: Function,
        depth: u32,
    ) -> Result<Function, NoMemory> {
        if let Some(plain) = plain_both(left, right) {
            return Ok(plain);
        }
        if depth == 0 || self.is_full {
            self.is_full = true;
            return Ok(NEVER);
        }
        let (left, right) = if left.0 < right.0 {
            (left, right)
        } else {
            (right, left)
        };
        let place = mixed(7, left, right) & 16_383;
        if place < self.entries.len() {
            let entry = self.entries[place];
            if entry.left == left && entry.right == right {
                return Ok(entry.both);
            }
        }
        let level = self
            .branch(left.node())
            .level
            .min(self.branch(right.node()).level);
        let high = self.both(
            self.part(left, level, true),
            self.part(right, level, true),
            depth - 1,
        )?;
        let low = self.both(
            self.part(left, level, false),
            self.part(right, level, false),
            depth - 1,
        )?;
        let both = self.made(level, high, low)?;
        if place < self.entries.len() {
            self.entries[place] = Entry { left, right, both };
        }
        Ok(both)
    }

    // The function where a level's variable has a value.
    fn part(&self, function: Function, level: u32, value: bool) -> Function {
        let branch = self.branch(function.node());
        if branch.level != level {
            return function;
        }
        let part = if value { branch.high } else { branch.low };
        part.negated_if(function.is_negated())
    }
}

fn plain_both(left: Function, right: Function) -> Option<Function> {
    if left == right || right == ALWAYS {
        return Some(left);
    }
    if left == ALWAYS {
        return Some(right);
    }
    if left == NEVER || right == NEVER || left == right.negated() {
        return Some(NEVER);
    }
    None
}

fn mixed(level: u32, left: Function, right: Function) -> usize {
    let mut word = (level as u64).wrapping_mul(0x9e37_79b9_7f4a_7c15);
    word = (word ^ left.0 as u64).wrapping_mul(0xbf58_476d_1ce4_e5b9);
    word = (word ^ (word >> 29) ^ right.0 as u64).wrapping_mul(0x94d0_49bb_1331_11eb);
    ((word >> 32) & 0xffff_ffff) as usize
}

fn number_in(list: &[u32], place: usize) -> u32 {
    if place < list.len() {
        list[place]
    } else {
        NONE
    }
}
