// Gates of plans, one plan after another, of which a part is made.

ghost use Rattle.std.specs.Prelude.{◌≡◌, ◌≤◌, [], ◌++◌, length, max, slice_range, OnOk};
ghost use Rattle.run_steps.specs.Plans.{made};

use crate::gate_list::GateList;
use crate::plan::Plan;
use base_types::NoMemory;
use std::alloc::Global;
use std::marker::Model;

/// The gates of plans, one plan after another. A contract sees them as the list of their lookups, with how many slots
/// there are (`Listed`).
#[derive(Drop)]
pub struct Gates {
    slots: usize,
    gates: GateList,
}

impl Model for Gates {
    ghost use Rattle.run_steps.specs.Plans.{Listed};

    ghost Value = { Listed };

    ghost use Rattle.run_steps.specs.Records.{gates_of, AreFitting};

    ghost view = { gates_of };

    ghost invariant = { AreFitting };
}

impl Gates {
    /// No gates.
    pub fn new(alloc: Global) -> Gates
        ensures slots { result.slots ≡ 0 }
        ensures lookups { result.lookups ≡ [] }
    {
        Gates {
            slots: 0,
            gates: GateList::new(alloc),
        }
    }

    /// Adds the gates of a plan that has no tables beside them. Its only error is out of memory.
    pub fn push_plan(&mut self, plan: &Plan) -> Result<(), NoMemory>
        requires { plan.now.tables ≡ 0 }
        ensures slots { OnOk result (self.new.slots ≡ max self.old.slots plan.now.slots) }
        ensures lookups { OnOk result (self.new.lookups ≡ self.old.lookups ++ plan.now.lookups) }
    {
        self.slots = self.slots.max(plan.slots());
        self.gates.append(plan.gates())?;
        Ok(())
    }

    /// How many slots there are, each for one value of a run.
    pub fn slots(&self) -> usize
        ensures { result ≡ self.now.slots }
    {
        self.slots
    }

    /// How many gates there are.
    pub fn len(&self) -> usize
        ensures { result ≡ length self.now.lookups }
    {
        self.gates.len()
    }

    /// Makes the gates from one place on up to another, one after another. It takes no memory.
    pub fn run(&self, from: usize, to: usize, values: &mut [bool])
        requires order { from ≤ to }
        requires within { to ≤ length self.now.lookups }
        requires fits { self.now.slots ≤ length values.old }
        ensures { values.new ≡ made (slice_range self.now.lookups from to) values.old }
    {
        self.gates.make_part(from, to, values);
    }
}
