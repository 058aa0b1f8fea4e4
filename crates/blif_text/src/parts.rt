// The parts of the BLIF text of a net, section by section.

ghost use Rattle.std.specs.Prelude.{◌≡◌, ◌<◌, ◌++◌, [], length, slice_index_or, OnOk};
ghost use Rattle.net_ir.specs.Runs.{netlist_of};
ghost use Rattle.blif_text.specs.Parts.{parts_in};

use crate::pieces::{BlifWriter, given_outputs};
use crate::writer::{
    put_first_lines, put_gate, put_input, put_input_name, put_inputs_end, put_last_lines,
    put_latch, put_output, put_output_word, put_outputs_end,
};
use base_types::NoMemory;
use net_ir::{Net, look_at_wires};
use net_writer::NetText;
use std::alloc::Global;

/// The sections of a BLIF text: the lines of the model, the inputs and the outputs, of which a name is a part, then the
/// latches and the tables.
#[derive(Clone, Copy)]
pub enum BlifSection {
    FirstLines,
    InputNames,
    InputsEnd,
    OutputNames,
    OutputsEnd,
    Latches,
    Inputs,
    Gates,
    Outputs,
    LastLines,
}

static SECTIONS: [BlifSection; 10] = [
    BlifSection::FirstLines,
    BlifSection::InputNames,
    BlifSection::InputsEnd,
    BlifSection::OutputNames,
    BlifSection::OutputsEnd,
    BlifSection::Latches,
    BlifSection::Inputs,
    BlifSection::Gates,
    BlifSection::Outputs,
    BlifSection::LastLines,
];

impl NetText for BlifWriter {
    ghost use Rattle.std.specs.Prelude.{◌≡◌};
    ghost use Rattle.blif_text.specs.Parts.{parts_in};
    ghost use Rattle.blif_text.specs.Written.{given_outputs, written, Means};
    ghost use Rattle.blif_text.specs.declared.parts.TheConstants.{SECTIONS};

    type Section = BlifSection;

    ghost sections = { SECTIONS };

    ghost parts_in = { parts_in };

    ghost written = { written };

    ghost means = { Means };

    ghost is_of = { λ w net. w.given.items ≡ given_outputs net };

    fn of(alloc: Global, net: &Net) -> Result<BlifWriter, NoMemory> {
        Ok(BlifWriter {
            given: given_outputs(alloc, net)?,
        })
    }

    fn sections() -> &'static [BlifSection] {
        &SECTIONS
    }

    #[tactic(auto, using(net_writer::proofs::Exports::section_parts))]
    fn count(net: &Net, section: BlifSection) -> usize {
        match section {
            BlifSection::InputNames | BlifSection::Inputs => net.inputs.len(),
            BlifSection::OutputNames | BlifSection::Outputs => net.outputs.len(),
            BlifSection::Latches => net.latches.len(),
            BlifSection::Gates => net.gates.len(),
            BlifSection::FirstLines
            | BlifSection::InputsEnd
            | BlifSection::OutputsEnd
            | BlifSection::LastLines => 1,
        }
    }

    #[tactic(auto, using(net_writer::proofs::Exports::section_parts))]
    fn put_in(
        &self,
        text: &mut Vec<u8>,
        net: &Net,
        section: BlifSection,
        k: usize,
    ) -> Result<(), NoMemory> {
        match section {
            BlifSection::FirstLines => put_first_lines(text, net),
            BlifSection::InputNames => put_input_name(text, &net.inputs[k]),
            BlifSection::InputsEnd => put_inputs_end(text, &net.inputs),
            BlifSection::OutputNames => put_output_word(text, &net.outputs[k], self.given[k]),
            BlifSection::OutputsEnd => put_outputs_end(text),
            BlifSection::Latches => put_latch(text, net, k, net.latches[k]),
            BlifSection::Inputs => put_input(text, k, &net.inputs[k]),
            BlifSection::Gates => put_gate(text, net, k, net.gates[k]),
            BlifSection::Outputs => put_output(text, net, &net.outputs[k], self.given[k]),
            BlifSection::LastLines => put_last_lines(text, net),
        }
    }

    fn look_at(net: &Net) {
        look_at_wires(net);
    }
}
