// The draws.

use std::marker::Model;

/// A linear congruential generator, that of ISO C's example of `rand`. A contract sees it as its state.
#[derive(Drop)]
pub struct Draw {
    state: u32,
}

impl Model for Draw {
    ghost use Rattle.std.specs.Prelude.{ℕ};

    ghost Value = { ℕ };

    ghost view = { λ d. d.state };
}

impl Draw {
    ghost use Rattle.std.specs.Prelude.{◌≡◌, ◌≤◌};
    ghost use Rattle.base_types.specs.Draws.{first_state, next_state, high_bits, drawn};

    /// The draws from a start number, of which the lowest 31 bits count. It takes no memory.
    pub fn new(start: u64) -> Draw
        ensures { result ≡ first_state start }
    {
        Draw {
            state: (start % STATES) as u32,
        }
    }

    /// The next draw, a number below `m`. It takes no memory.
    pub fn next(&mut self, m: u32) -> u32
        requires { 1 ≤ m }
        ensures state { self.new ≡ next_state self.old }
        ensures draw { result ≡ drawn self.new m }
    {
        self.next_bits() % m
    }

    /// The next draw as it is, before a remainder bounds it. It takes no memory.
    pub fn next_bits(&mut self) -> u32
        ensures state { self.new ≡ next_state self.old }
        ensures bits { result ≡ high_bits self.new }
    {
        self.state = ((u64::from(self.state) * FACTOR + STEP) % STATES) as u32;
        self.state / LOW
    }
}

const FACTOR: u64 = 1_103_515_245;

const STEP: u64 = 12_345;

// States have 31 bits.
const STATES: u64 = 2_147_483_648;

// The low 16 bits of a state are not used.
const LOW: u32 = 65_536;
