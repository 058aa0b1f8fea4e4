// Values of the nets of a netlist in 64 runs of one instant, the first of which is a counterexample.

use crate::literals::{Literal, Side};
use base_types::{NetId, NoMemory};
use net_ir::{Net, Op};
use std::alloc::Global;

/// A word for each net, with one bit for each run.
#[derive(Drop)]
pub(crate) struct Replay {
    words: Vec<u64>,
    // By latch: its values in the next instant.
    next: Vec<u64>,
    // By input: the runs in which it keeps one value, those in which it is rarely true, and the kept values.
    kept: Vec<u64>,
    rare: Vec<u64>,
    values: Vec<u64>,
    seed: u64,
    late: bool,
}

impl Replay {
    /// No run of this netlist yet. The counterexamples are about the later of two instants, or about the first one.
    pub fn new(alloc: Global, net: &Net, late: bool) -> Result<Replay, NoMemory> {
        let inputs = net.inputs.len();
        let first_gate = inputs.saturating_add(net.latches.len());
        Ok(Replay {
            words: vec![in alloc; 0; first_gate.saturating_add(net.gates.len())]?,
            next: vec![in alloc; 0; net.latches.len()]?,
            kept: vec![in alloc; 0; inputs]?,
            rare: vec![in alloc; 0; inputs]?,
            values: vec![in alloc; 0; inputs]?,
            seed: 0x2545_f491_4f6c_dd1d,
            late,
        })
    }

    /// Runs the instant of a counterexample. All runs have its latches, as the nets before them give them. The first
    /// has its inputs, and the inputs of the others are random, so that one counterexample refutes many claims.
    pub fn begin(&mut self, net: &Net, values: &[bool]) {
        self.choose_inputs();
        self.draw_inputs();
        let inputs = net.inputs.len();
        for place in 0..inputs {
            let given: u64 = if value(values, place, self.late) {
                1
            } else {
                0
            };
            let word = word_at(&self.words, place) & !1;
            put(&mut self.words, place, word | given);
        }
        for (k, latch) in net.latches.iter().enumerate() {
            let place = inputs.saturating_add(k);
            let is_true = if self.late {
                value(values, latch.from.0 as usize, false)
            } else {
                value(values, place, false)
            };
            put(&mut self.words, place, if is_true { u64::MAX } else { 0 });
        }
        self.run_gates(net);
    }

    /// Runs one instant more.
    pub fn step(&mut self, net: &Net) {
        for (k, latch) in net.latches.iter().enumerate() {
            put(&mut self.next, k, net_word(&self.words, latch.from));
        }
        for k in 0..net.latches.len() {
            let place = net.inputs.len().saturating_add(k);
            put(&mut self.words, place, word_at(&self.next, k));
        }
        self.draw_inputs();
        self.run_gates(net);
    }

    fn run_gates(&mut self, net: &Net) {
        let first_gate = net.inputs.len().saturating_add(net.latches.len());
        for (k, gate) in net.gates.iter().enumerate() {
            let word = op_word(&self.words, gate.op);
            put(&mut self.words, first_gate.saturating_add(k), word);
        }
    }

    /// The values of a literal.
    pub fn word(&self, literal: Literal) -> u64 {
        let word = match literal.side {
            Side::Always => u64::MAX,
            Side::Old | Side::New => word_at(&self.words, literal.number as usize),
        };
        if literal.positive { word } else { !word }
    }

    // Chooses how often each input is true in which runs: a quarter of the runs keeps one value, an eighth of the
    // instants of another quarter has it, and half of those of the rest.
    fn choose_inputs(&mut self) {
        for place in 0..self.kept.len() {
            let one = self.random_word();
            let other = self.random_word();
            let values = self.random_word();
            put(&mut self.kept, place, one & other);
            put(&mut self.rare, place, one & !other);
            put(&mut self.values, place, values);
        }
    }

    fn draw_inputs(&mut self) {
        for place in 0..self.kept.len() {
            let plain = self.random_word();
            let rare = plain & self.random_word() & self.random_word();
            let kept = word_at(&self.kept, place);
            let seldom = word_at(&self.rare, place);
            let steady = word_at(&self.values, place);
            let word = (steady & kept) | (rare & seldom) | (plain & !kept & !seldom);
            put(&mut self.words, place, word);
        }
    }

    // Marsaglia, "Xorshift RNGs", 2003.
    fn random_word(&mut self) -> u64 {
        let mut word = self.seed;
        word ^= word << 13;
        word ^= word >> 7;
        word ^= word << 17;
        self.seed = word;
        word
    }
}

// The value of a net in a counterexample, in the first of two instants or in the second one.
fn value(values: &[bool], place: usize, late: bool) -> bool {
    let variable = place
        .saturating_mul(4)
        .saturating_add(if late { 1 } else { 0 });
    variable < values.len() && values[variable]
}

fn op_word(words: &[u64], op: Op) -> u64 {
    match op {
        Op::Const(value) => { if value { u64::MAX } else { 0 } }
        Op::Copy(a) => net_word(words, a),
        Op::Not(a) => !net_word(words, a),
        Op::And(a, b) => net_word(words, a) & net_word(words, b),
        Op::Or(a, b) => net_word(words, a) | net_word(words, b),
    }
}

fn net_word(words: &[u64], net: NetId) -> u64 {
    word_at(words, net.0 as usize)
}

fn word_at(words: &[u64], place: usize) -> u64 {
    if place < words.len() { words[place] } else { 0 }
}

fn put(words: &mut [u64], place: usize, word: u64) {
    if place < words.len() {
        words[place] = word;
    }
}
