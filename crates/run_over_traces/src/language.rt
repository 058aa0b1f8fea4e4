// Languages of texts that are run over traces.

use crate::machine::Runner;
use crate::running::Interface;
use base_types::{Limits, NoMemory, Stop};
use net_ir::Net;
use std::alloc::Global;

/// A language of texts: which texts are of it, what each shows over items, and its first fault else.
///
/// `Plain` is the type of its programs as plain values. `reads` says that a text has a reading, and which one; `given`
/// and `outgoing` are the names of its signals, `shows` is its meaning, and `faulty` says of a text which fault is its
/// first. These, and `means`, which says that a text is what is written of a netlist, must be believed of each
/// language; `plain` is what a machine of it runs.
pub trait Language {
    ghost use Rattle.std.specs.Prelude.{◌≡◌, ℕ, ◌≤◌, List, [], length, IfOk, IsTrue};
    ghost use Rattle.base_types.specs.Distinct.{all_differ};
    ghost use Rattle.base_types.specs.Items.{Item};
    ghost use Rattle.base_types.specs.Names.{is_same_name};
    ghost use Rattle.base_types.specs.Stops.{IfFault};
    ghost use Rattle.net_ir.specs.Netlists.{Netlist};
    ghost use Rattle.net_ir.specs.Runs.{netlist_of};
    ghost use Rattle.run_over_traces.specs.Machines.{ShownAnswer};
    ghost use Rattle.run_over_traces.specs.Languages.{IsOfNet, IsOfProgram};

    /// The faults of texts.
    type Fault: Drop;
    /// The machines that run its programs.
    type Machine: Runner + Drop;

    ghost Plain: { Type 0 };

    ghost reads: { List ℕ → Plain → Type 0 };

    ghost given: { Plain → List (List ℕ) };

    ghost outgoing: { Plain → List (List ℕ) };

    ghost shows: { Plain → List Item → List ShownAnswer → Type 0 };

    ghost faulty: { List ℕ → Self.Fault → Type 0 };

    ghost means: { List ℕ → Netlist → Type 0 };

    ghost plain: { Self.Machine → Plain };

    /// The machine of a text, at its start. Its errors are the first fault of the text, and out of memory.
    fn read(alloc: Global, text: &[u8]) -> Result<Self::Machine, Stop<Self::Fault>>
        requires { length text.now ≤ Limits.TEXT_BYTES }
        ensures reads { IfOk result (λ m. reads text.now (plain m)) }
        ensures shows { IfOk result (λ m. IsOfProgram Self.Machine.shows shows m (plain m)) }
        ensures fault { IfFault result (faulty text.now) };

    /// The interface of the text itself, without relations. Its only error is out of memory.
    fn interface(alloc: Global, machine: &Self::Machine) -> Result<Interface, NoMemory>
        ensures given { IfOk result (λ i. i.given.items ≡ given (plain machine.now)) }
        ensures outgoing { IfOk result (λ i. i.outgoing.items ≡ outgoing (plain machine.now)) }
        ensures relations { IfOk result (λ i. i.relations.items ≡ []) }
        ensures differ { IfOk result (λ i. IsTrue (all_differ is_same_name i.given.items)) }
        ensures each_input { IfOk result (λ i. length i.given.items ≡ Self.Machine.input_count machine.now) }
        ensures each_output { IfOk result (λ i. length i.outgoing.items ≡ Self.Machine.output_count machine.now) };

    /// The machine of the text that is written of a net, at its start: it shows what the net shows. The only error is
    /// out of memory.
    fn read_back(alloc: Global, net: &Net, text: &[u8]) -> Result<Self::Machine, NoMemory>
        requires means { means text.now (netlist_of net.now) }
        requires fits { length text.now ≤ Limits.TEXT_BYTES }
        ensures each_input { IfOk result (λ m. Self.Machine.input_count m ≡ length net.now.inputs.items) }
        ensures each_output { IfOk result (λ m. Self.Machine.output_count m ≡ length net.now.outputs.items) }
        ensures shows { IfOk result (λ m. IsOfNet Self.Machine.shows m (netlist_of net.now)) };
}
