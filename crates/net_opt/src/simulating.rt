// Values of a netlist over instants with random inputs, 64 runs at a time.

use crate::edges::word_at;
use base_types::{NetId, NoMemory};
use net_ir::{Net, Op};
use std::alloc::Global;

// How many instants are run: enough for this number of values, within bounds.
const VALUES: usize = 20_000_000;

const FEWEST: usize = 256;

const MOST: usize = 4_096;

// In how many instants pairs of latches are looked at.
const PAIRED: usize = 1_024;

// For how many instants the inputs keep their densities; and for how many such stretches in the runs that are steady,
// one of eight, in which an input of a choice keeps its value too.
const STRETCH: usize = 64;

const STRETCHES: usize = 6;

const STEADY: u64 = 0x8080_8080_8080_8080;

/// What is remembered of the values of each net, first of what is always true: a mark that equal nets share, as
/// opposite nets do, and whether a net is true in the first instant of the first run.
#[derive(Drop)]
pub(crate) struct NetHistories {
    pub marks: Vec<u64>,
    pub signs: Vec<bool>,
}

/// NetHistories of the nets.
pub(crate) fn histories(alloc: Global, net: &Net) -> Result<NetHistories, NoMemory> {
    let mut runs = Runs::new(alloc, net)?;
    let mut signs = Vec::new(alloc);
    let mut flips = Vec::new(alloc);
    for value in &runs.values {
        signs.push(*value & 1 == 1)?;
        flips.push(flip(*value))?;
    }
    let mut marks = vec![in alloc; 0; runs.values.len()]?;
    mix(&mut marks, &flips, &runs.values);
    for _instant in 0..instants(runs.values.len()) {
        runs.step(net);
        mix(&mut marks, &flips, &runs.values);
    }
    Ok(NetHistories { marks, signs })
}

/// Two literals of latches, by their numbers: latch `k`, counted from 0, has the number `2 * k`, and its negation the
/// next one.
#[derive(Clone, Copy)]
pub(crate) struct Literals {
    pub left: usize,
    pub right: usize,
}

/// The pairs of literals of different latches that are true together in no instant that is run.
pub(crate) fn unseen_pairs(alloc: Global, net: &Net) -> Result<Vec<Literals>, NoMemory> {
    let mut runs = Runs::new(alloc, net)?;
    let count = net.latches.len().saturating_mul(2);
    let mut words = vec![in alloc; 0; count]?;
    let mut unseen = Vec::new(alloc);
    for right in 0..count {
        for left in 0..right / 2 * 2 {
            unseen.push(Literals { left, right })?;
        }
    }
    for _instant in 0..PAIRED {
        for (k, latch) in runs.latches.iter().enumerate() {
            put(&mut words, k.saturating_mul(2), *latch);
            put(&mut words, k.saturating_mul(2).saturating_add(1), !*latch);
        }
        keep_unseen(&mut unseen, &words);
        runs.step(net);
    }
    Ok(unseen)
}

// Keeps the pairs of which both are true in none of these runs.
fn keep_unseen(pairs: &mut Vec<Literals>, words: &[u64]) {
    let mut kept: usize = 0;
    for at in 0..pairs.len() {
        let pair = pairs[at];
        if word_at(words, pair.left) & word_at(words, pair.right) == 0 && kept < pairs.len() {
            pairs[kept] = pair;
            kept = kept.saturating_add(1);
        }
    }
    pairs.truncate(kept);
}

// Sixty-four runs of a netlist: the values of the latches, and those of what is always true and of all nets, in an
// instant.
#[derive(Drop)]
struct Runs {
    steps: Vec<Step>,
    latches: Vec<u64>,
    choices: Vec<u64>,
    values: Vec<u64>,
    seed: u64,
    instant: usize,
}

impl Runs {
    // The first instant.
    fn new(alloc: Global, net: &Net) -> Result<Runs, NoMemory> {
        let mut steps = Vec::new(alloc);
        for gate in &net.gates {
            steps.push(step_of(gate.op))?;
        }
        let mut latches = Vec::new(alloc);
        for latch in &net.latches {
            latches.push(if latch.init { u64::MAX } else { 0 })?;
        }
        let count = net
            .inputs
            .len()
            .saturating_add(net.latches.len())
            .saturating_add(net.gates.len())
            .saturating_add(1);
        let mut runs = Runs {
            steps,
            latches,
            choices: vec![in alloc; 0; net.inputs.len()]?,
            values: vec![in alloc; 0; count]?,
            seed: 0x2545_f491_4f6c_dd1d,
            instant: 0,
        };
        draw_choices(&mut runs.choices, &mut runs.seed, true);
        runs.run();
        Ok(runs)
    }

    // The next instant.
    fn step(&mut self, net: &Net) {
        let instant = self.instant;
        if instant % STRETCH == 0 {
            let all = instant % (STRETCH * STRETCHES) == 0;
            draw_choices(&mut self.choices, &mut self.seed, all);
        }
        go_on(net, &self.values, &mut self.latches);
        if instant % STRETCH == 0 {
            let runs = restarted(instant, &mut self.seed);
            restart(net, &mut self.latches, runs);
        }
        self.run();
        self.instant = self.instant.saturating_add(1);
    }

    fn run(&mut self) {
        run_instant(
            &self.steps,
            &self.latches,
            &self.choices,
            &mut self.seed,
            &mut self.values,
        );
    }
}

// How a gate's value comes of two others: each may be taken negated, and so may what is true where both are. The
// places of the two stand before a bit that says so.
#[derive(Clone, Copy)]
struct Step {
    left: u64,
    right: u64,
    flipped: u64,
}

fn step_of(op: Op) -> Step {
    match op {
        Op::Const(value) => of_one(0, !value),
        Op::Copy(a) => of_one(read(a), false),
        Op::Not(a) => of_one(read(a), true),
        Op::And(a, b) => Step {
            left: read(a),
            right: read(b),
            flipped: 0,
        },
        Op::Or(a, b) => Step {
            left: read(a) | 1,
            right: read(b) | 1,
            flipped: u64::MAX,
        },
    }
}

// A net as it is read: what is always true stands before all nets.
fn read(net: NetId) -> u64 {
    (net.0 as u64 + 1) * 2
}

fn of_one(read: u64, negated: bool) -> Step {
    Step {
        left: read,
        right: read,
        flipped: if negated { u64::MAX } else { 0 },
    }
}

// A word without ones, or of ones alone where the last bit of a number is one.
fn flip(number: u64) -> u64 {
    (number & 1).wrapping_neg()
}

// The value that is read.
fn value_at(values: &[u64], read: u64) -> u64 {
    word_at(values, (read / 2) as usize) ^ flip(read)
}

// The values of what is always true and of all nets, with drawn inputs.
fn run_instant(
    steps: &[Step],
    latches: &[u64],
    choices: &[u64],
    seed: &mut u64,
    values: &mut [u64],
) {
    let first_latch = choices.len().saturating_add(1);
    let first_gate = first_latch.saturating_add(latches.len());
    put(values, 0, u64::MAX);
    for (k, choice) in choices.iter().enumerate() {
        put(values, k.saturating_add(1), drawn_input(seed, *choice));
    }
    for (k, latch) in latches.iter().enumerate() {
        put(values, first_latch.saturating_add(k), *latch);
    }
    for (k, step) in steps.iter().enumerate() {
        let value = (value_at(values, step.left) & value_at(values, step.right)) ^ step.flipped;
        put(values, first_gate.saturating_add(k), value);
    }
}

fn put(values: &mut [u64], place: usize, value: u64) {
    if place < values.len() {
        values[place] = value;
    }
}

// The values of the latches in the next instant.
fn go_on(net: &Net, values: &[u64], latches: &mut Vec<u64>) {
    for (k, latch) in net.latches.iter().enumerate() {
        if k < latches.len() {
            latches[k] = word_at(values, latch.from.0 as usize + 1);
        }
    }
}

// Lets the latches begin anew in these runs.
fn restart(net: &Net, latches: &mut Vec<u64>, runs: u64) {
    for (k, latch) in net.latches.iter().enumerate() {
        if k < latches.len() {
            let begun = if latch.init { u64::MAX } else { 0 };
            latches[k] = (latches[k] & !runs) | (begun & runs);
        }
    }
}

// In which runs the latches begin anew: in some, and in all steady ones where their inputs are drawn anew.
fn restarted(instant: usize, seed: &mut u64) -> u64 {
    let some = drawn_word(seed) & !STEADY;
    if instant % (STRETCH * STRETCHES) == 0 {
        some | STEADY
    } else {
        some
    }
}

// Takes the values of an instant into the marks, flipped where they were true at first.
fn mix(marks: &mut Vec<u64>, flips: &[u64], values: &[u64]) {
    for (mark, (value, flip)) in marks.iter_mut().zip(values.iter().zip(flips)) {
        let mixed = (*mark ^ *value ^ *flip).wrapping_mul(0x9e37_79b9_7f4a_7c15);
        *mark = mixed ^ (mixed >> 29);
    }
}

// How many instants are run of this many nets.
fn instants(nets: usize) -> usize {
    if nets == 0 {
        FEWEST
    } else {
        (VALUES / nets).max(FEWEST).min(MOST)
    }
}

// Draws anew in which runs an input is rare: in the steady ones too, or not.
fn draw_choices(choices: &mut Vec<u64>, seed: &mut u64, all: bool) {
    for k in 0..choices.len() {
        let drawn = drawn_word(seed);
        choices[k] = if all {
            drawn
        } else {
            (drawn & !STEADY) | (choices[k] & STEADY)
        };
    }
}

// Random values of an input. In runs outside its choice it is true in about half of the instants. In runs of its choice
// it is true in about one instant of sixteen, and never if the run is steady. The last quarter of the runs inverts the
// values of the choice: almost always true, or always if the run is steady.
fn drawn_input(seed: &mut u64, choice: u64) -> u64 {
    let plain = drawn_word(seed);
    let rare = plain & drawn_word(seed) & drawn_word(seed) & drawn_word(seed) & !STEADY;
    let turned = choice & 0xffff_0000_0000_0000;
    ((plain & !choice) | (rare & choice)) ^ turned
}

// The next word of a pseudorandom sequence (Marsaglia, "Xorshift RNGs", 2003).
fn drawn_word(seed: &mut u64) -> u64 {
    let mut word = *seed;
    word ^= word << 13;
    word ^= word >> 7;
    word ^= word << 17;
    *seed = word;
    word
}
