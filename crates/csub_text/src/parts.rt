// The parts of the C text of a net, section by section.

ghost use Rattle.std.specs.Prelude.{◌≡◌, ◌<◌, ◌++◌, [], length, slice_index_or, OnOk};
ghost use Rattle.net_ir.specs.Runs.{netlist_of};
ghost use Rattle.csub_text.specs.Parts.{parts_in};

use crate::pieces::CWriter;
use crate::writer::{
    put_answer_assign, put_answer_local, put_gate, put_gate_local, put_head, put_input,
    put_input_assign, put_input_local, put_last_lines, put_next_assign, put_next_local, put_output,
    put_output_assign, put_state, put_state_assign,
};
use base_types::NoMemory;
use net_ir::{Net, look_at_wires};
use net_writer::NetText;
use std::alloc::Global;

/// The sections of a C text: the declarations, and in the function the locals and the assignments.
#[derive(Clone, Copy)]
pub enum CSection {
    States,
    Inputs,
    Outputs,
    Head,
    InputLocals,
    GateLocals,
    NextLocals,
    AnswerLocal,
    InputAssigns,
    GateAssigns,
    NextAssigns,
    OutputAssigns,
    AnswerAssign,
    StateAssigns,
    LastLines,
}

static SECTIONS: [CSection; 15] = [
    CSection::States,
    CSection::Inputs,
    CSection::Outputs,
    CSection::Head,
    CSection::InputLocals,
    CSection::GateLocals,
    CSection::NextLocals,
    CSection::AnswerLocal,
    CSection::InputAssigns,
    CSection::GateAssigns,
    CSection::NextAssigns,
    CSection::OutputAssigns,
    CSection::AnswerAssign,
    CSection::StateAssigns,
    CSection::LastLines,
];

impl NetText for CWriter {
    ghost use Rattle.csub_text.specs.Parts.{parts_in};
    ghost use Rattle.csub_text.specs.Written.{written, Means};
    ghost use Rattle.csub_text.specs.declared.parts.TheConstants.{SECTIONS};

    type Section = CSection;

    ghost sections = { SECTIONS };

    ghost parts_in = { parts_in };

    ghost written = { written };

    ghost means = { Means };

    ghost is_of = { λ _ _. Unit {0} };

    fn of(_alloc: Global, _net: &Net) -> Result<CWriter, NoMemory> {
        Ok(CWriter {})
    }

    fn sections() -> &'static [CSection] {
        &SECTIONS
    }

    #[tactic(auto, using(net_writer::proofs::Exports::section_parts))]
    fn count(net: &Net, section: CSection) -> usize {
        match section {
            CSection::Inputs | CSection::InputLocals | CSection::InputAssigns => net.inputs.len(),
            CSection::Outputs | CSection::OutputAssigns => net.outputs.len(),
            CSection::GateLocals | CSection::GateAssigns => net.gates.len(),
            CSection::Head | CSection::AnswerLocal | CSection::AnswerAssign | CSection::LastLines =>
                1,
            CSection::States
            | CSection::NextLocals
            | CSection::NextAssigns
            | CSection::StateAssigns => net.latches.len(),
        }
    }

    #[tactic(auto, using(net_writer::proofs::Exports::section_parts))]
    fn put_in(
        &self,
        text: &mut Vec<u8>,
        net: &Net,
        section: CSection,
        k: usize,
    ) -> Result<(), NoMemory> {
        match section {
            CSection::States => put_state(text, k, net.latches[k]),
            CSection::Inputs => put_input(text, &net.inputs[k]),
            CSection::Outputs => put_output(text, &net.outputs[k]),
            CSection::Head => put_head(text),
            CSection::InputLocals => put_input_local(text, k),
            CSection::GateLocals => put_gate_local(text, k, net.gates[k]),
            CSection::NextLocals => put_next_local(text, k),
            CSection::AnswerLocal => put_answer_local(text),
            CSection::InputAssigns => put_input_assign(text, k, &net.inputs[k]),
            CSection::GateAssigns => put_gate(text, net, k, net.gates[k]),
            CSection::NextAssigns => put_next_assign(text, net, k, net.latches[k]),
            CSection::OutputAssigns => put_output_assign(text, net, &net.outputs[k]),
            CSection::AnswerAssign => put_answer_assign(text, net),
            CSection::StateAssigns => put_state_assign(text, k, net.latches[k]),
            CSection::LastLines => put_last_lines(text),
        }
    }

    fn look_at(net: &Net) {
        look_at_wires(net);
    }
}
