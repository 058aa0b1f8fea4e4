// Pickers: which of the ready wires is placed next.

ghost use Rattle.std.specs.Prelude.{◌≡◌, ◌-◌, ◌<◌, length};
ghost use Rattle.base_types.specs.Draws.{next_state, drawn};

use base_types::{Draw, WireId};

/// Chooses among the wires that can be placed next. What it answers is free: a number that is no place of the
/// list counts as its remainder by the list's length.
pub trait Picker {
    /// The place of the chosen wire. The ready wires are in no stated order.
    fn pick(&mut self, ready: &[WireId]) -> usize
        requires { 0 < length ready.now };
}

/// Chooses the first ready wire.
#[derive(Clone, Copy)]
pub struct First;

impl Picker for First {
    fn pick(&mut self, _ready: &[WireId]) -> usize
        ensures { result ≡ 0 }
    {
        0
    }
}

/// Chooses the last ready wire.
#[derive(Clone, Copy)]
pub struct Last;

impl Picker for Last {
    fn pick(&mut self, ready: &[WireId]) -> usize
        requires { 0 < length ready.now }
        ensures { result ≡ length ready.now - 1 }
    {
        ready.len() - 1
    }
}

/// Draws the place below the number of ready wires.
#[derive(Drop)]
pub struct Drawn(pub Draw);

impl Picker for Drawn {
    fn pick(&mut self, ready: &[WireId]) -> usize
        requires { 0 < length ready.now }
        ensures drawn { result ≡ drawn self.new.0 (length ready.now) }
        ensures state { self.new.0 ≡ next_state self.old.0 }
    {
        self.0.next_bits() as usize % ready.len()
    }
}
