// Lists of gates.

ghost use Rattle.std.specs.Prelude.{◌≡◌, ◌≤◌, ℕ, [], ◌∷◌, ◌++◌, length, map, slice_range, All, OnErr, OnOk};
ghost use Rattle.run_steps.specs.Records.{GateFits, gates_made, widened};

use crate::gate::{Gate, NarrowGate, make_gates, make_narrow_gates, narrowed, widened};
use base_types::NoMemory;
use std::alloc::Global;
use std::marker::Model;

/// Gates. Those before the first one whose slots have more than 32 bits take 16 bytes each, the others 32. A contract
/// sees them as one list.
#[derive(Drop)]
pub struct GateList {
    narrow: Vec<NarrowGate>,
    wide: Vec<Gate>,
}

impl Model for GateList {
    ghost use Rattle.std.specs.Prelude.{List};
    ghost use Rattle.run_steps.specs.declared.gate.Gate.{Gate};

    ghost Value = { List Gate };

    ghost use Rattle.run_steps.specs.GateLists.{list_of};

    ghost view = { list_of };
}

impl GateList {
    pub fn new(alloc: Global) -> GateList
        ensures { result ≡ [] }
    {
        GateList {
            narrow: Vec::new(alloc),
            wide: Vec::new(alloc),
        }
    }

    pub fn len(&self) -> usize
        ensures { result ≡ length self.now }
    {
        self.narrow.len() + self.wide.len()
    }

    /// Adds a gate. Its only error is out of memory, after which the list is as it was.
    pub fn push(&mut self, gate: Gate) -> Result<(), NoMemory>
        ensures more { OnOk result (self.new ≡ self.old ++ gate ∷ []) }
        ensures kept { OnErr result (self.new ≡ self.old) }
    {
        if self.wide.is_empty() {
            if let Some(narrow) = narrowed(&gate) {
                return Ok(self.narrow.push(narrow)?);
            }
        }
        Ok(self.wide.push(gate)?)
    }

    /// Adds the gates of a list. Its only error is out of memory, after which there are some of them.
    pub fn append(&mut self, others: &GateList) -> Result<(), NoMemory>
        ensures more { OnOk result (self.new ≡ self.old ++ others.now) }
        ensures fits { (slots : ℕ) → All (GateFits slots) self.old → All (GateFits slots) others.now
            → All (GateFits slots) self.new }
    {
        self.push_narrow(&others.narrow)?;
        self.push_wide(&others.wide)
    }

    fn push_narrow(&mut self, gates: &[NarrowGate]) -> Result<(), NoMemory>
        ensures more { OnOk result (self.new ≡ self.old ++ map widened gates.now) }
        ensures fits { (slots : ℕ) → All (GateFits slots) self.old → All (GateFits slots) (map widened gates.now)
            → All (GateFits slots) self.new }
    {
        for gate in gates {
            self.push(widened(gate))?;
        }
        Ok(())
    }

    fn push_wide(&mut self, gates: &[Gate]) -> Result<(), NoMemory>
        ensures more { OnOk result (self.new ≡ self.old ++ gates.now) }
        ensures fits { (slots : ℕ) → All (GateFits slots) self.old → All (GateFits slots) gates.now
            → All (GateFits slots) self.new }
    {
        for gate in gates {
            self.push(*gate)?;
        }
        Ok(())
    }

    /// Makes the gates one after another. It takes no memory.
    pub fn make_all(&self, values: &mut [bool])
        requires { All (GateFits (length values.old)) self.now }
        ensures { values.new ≡ gates_made self.now values.old }
    {
        make_narrow_gates(&self.narrow, values);
        make_gates(&self.wide, values);
    }

    /// Makes those from one place on up to another. It takes no memory.
    pub fn make_part(&self, from: usize, to: usize, values: &mut [bool])
        requires order { from ≤ to }
        requires within { to ≤ length self.now }
        requires fits { All (GateFits (length values.old)) self.now }
        ensures { values.new ≡ gates_made (slice_range self.now from to) values.old }
    {
        let narrow = self.narrow.len();
        if to <= narrow {
            make_narrow_gates(&self.narrow[from..to], values);
        } else if narrow <= from {
            make_gates(&self.wide[from - narrow..to - narrow], values);
        } else {
            make_narrow_gates(&self.narrow[from..], values);
            make_gates(&self.wide[..to - narrow], values);
        }
    }
}
