// Machines that are run over a trace.

use run_trace_io::Word;

/// A machine that items drive: an event is one reaction, with an answer, and a reset puts it back to its start.
///
/// `shows` says which answers a machine of the type gives to items, from its present state on. It is the meaning of
/// what the machine runs, and so to be believed of each implementation; a reaction and a reset keep it. `becomes` says
/// which machine it may be after items, as far as a caller asks.
pub trait Runner {
    ghost use Rattle.std.specs.Prelude.{◌≡◌, ℕ, Bool, List, [], length};
    ghost use Rattle.base_types.specs.Items.{Item, Event, Reset};
    ghost use Rattle.run_over_traces.specs.Becoming.{Passes};
    ghost use Rattle.run_over_traces.specs.Machines.{ShownAnswer, Answered, PutBack};

    ghost input_count: { Self → ℕ };

    ghost output_count: { Self → ℕ };

    ghost present: { Self → List Bool };

    ghost shows: { Self → List Item → List ShownAnswer → Type 0 };

    ghost becomes: { Self → List Item → Self → Type 0 };

    /// One reaction to these values of the inputs. It answers what is said of the program after it.
    fn react(&mut self, inputs: &[bool]) -> Word
        requires { length inputs.now ≡ input_count self.old }
        ensures answered { Answered shows self.old inputs.now (record { present = present self.new; word = result })
            self.new }
        ensures passes { Passes becomes (Event inputs.now) self.old self.new }
        ensures shown { length (present self.new) ≡ output_count self.new }
        ensures inputs_stay { input_count self.new ≡ input_count self.old }
        ensures outputs_stay { output_count self.new ≡ output_count self.old };

    /// For each outgoing signal whether it was present in the last reaction.
    fn outputs(&self) -> &[bool]
        ensures { result.now ≡ present self.now };

    /// Puts the machine back to its start.
    fn reset(&mut self)
        ensures put_back { PutBack shows self.old self.new }
        ensures passes { Passes becomes Reset self.old self.new }
        ensures inputs_stay { input_count self.new ≡ input_count self.old }
        ensures outputs_stay { output_count self.new ≡ output_count self.old };

    ghost ends: { (r : Self) → shows r [] [] };

    ghost stays: { (r : Self) → becomes r [] r };
}
