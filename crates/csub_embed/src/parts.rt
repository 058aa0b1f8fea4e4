// The parts of the embedded text of a net, section by section.

ghost use Rattle.std.specs.Prelude.{◌≡◌, ◌<◌, ◌++◌, [], length, slice_index_or, OnOk};
ghost use Rattle.net_ir.specs.Runs.{netlist_of};
ghost use Rattle.csub_embed.specs.Parts.{parts_in, sections_of};

use crate::ends::{
    put_first_text, put_inputs_end, put_lines_after, put_open, put_outputs_end, put_prototypes,
    put_react_text, put_reset_text, put_return, put_states_end,
};
use crate::ignored::reads_input;
use crate::layout::{EmbedFile, FixedLayout};
use crate::pieces::EmbedWriter;
use crate::writer::{
    put_first, put_gate, put_kept, put_member, put_next, put_running, put_shown, put_state_member,
};
use base_types::NoMemory;
use net_ir::{Net, look_at_wires};
use net_writer::NetText;
use std::alloc::Global;
use std::marker::PhantomData;

/// The sections of embedded texts: the structures, the prototypes, the reset, and those of the reaction.
#[derive(Clone, Copy)]
pub enum EmbedSection {
    FirstLines,
    StatesHead,
    States,
    StatesEnd,
    Inputs,
    InputsEnd,
    Outputs,
    OutputsEnd,
    Prototypes,
    ResetHead,
    Resets,
    ReactHead,
    Gates,
    Nexts,
    Running,
    Shown,
    Kept,
    Return,
    LastLines,
}

static HEADER: [EmbedSection; 18] = [
    EmbedSection::FirstLines,
    EmbedSection::StatesHead,
    EmbedSection::States,
    EmbedSection::StatesEnd,
    EmbedSection::Inputs,
    EmbedSection::InputsEnd,
    EmbedSection::Outputs,
    EmbedSection::OutputsEnd,
    EmbedSection::ResetHead,
    EmbedSection::Resets,
    EmbedSection::ReactHead,
    EmbedSection::Gates,
    EmbedSection::Nexts,
    EmbedSection::Running,
    EmbedSection::Shown,
    EmbedSection::Kept,
    EmbedSection::Return,
    EmbedSection::LastLines,
];

static DECLARATIONS: [EmbedSection; 10] = [
    EmbedSection::FirstLines,
    EmbedSection::StatesHead,
    EmbedSection::States,
    EmbedSection::StatesEnd,
    EmbedSection::Inputs,
    EmbedSection::InputsEnd,
    EmbedSection::Outputs,
    EmbedSection::OutputsEnd,
    EmbedSection::Prototypes,
    EmbedSection::LastLines,
];

static DEFINITIONS: [EmbedSection; 11] = [
    EmbedSection::FirstLines,
    EmbedSection::ResetHead,
    EmbedSection::Resets,
    EmbedSection::ReactHead,
    EmbedSection::Gates,
    EmbedSection::Nexts,
    EmbedSection::Running,
    EmbedSection::Shown,
    EmbedSection::Kept,
    EmbedSection::Return,
    EmbedSection::LastLines,
];

// The sections of a file.
fn sections_of(file: EmbedFile) -> &'static [EmbedSection]
    ensures { result.now ≡ sections_of file }
{
    match file {
        EmbedFile::Header => &HEADER,
        EmbedFile::Declarations => &DECLARATIONS,
        EmbedFile::Definitions => &DEFINITIONS,
    }
}

impl<L: FixedLayout> NetText for EmbedWriter<L> {
    ghost use Rattle.std.specs.Prelude.{◌≡◌};
    ghost use Rattle.csub_embed.specs.Faults.{IsEmbeddable};
    ghost use Rattle.csub_embed.specs.Parts.{parts_in, sections_of};
    ghost use Rattle.csub_embed.specs.Written.{files_with, written, reads_input, Means};

    type Section = EmbedSection;

    ghost sections = { sections_of L.layout.file };

    ghost parts_in = { parts_in L.layout };

    ghost written = { written L.layout };

    ghost means = { λ text net. IsEmbeddable net → Means L.layout.packed (files_with L.layout text net) net };

    ghost is_of = { λ form net. form.reads_input ≡ reads_input net };

    fn of(_alloc: Global, net: &Net) -> Result<EmbedWriter<L>, NoMemory> {
        Ok(EmbedWriter {
            reads_input: reads_input(net),
            layout: PhantomData,
        })
    }

    fn sections() -> &'static [EmbedSection] {
        sections_of(L::layout().file)
    }

    #[tactic(auto, using(net_writer::proofs::Exports::section_parts))]
    fn count(net: &Net, section: EmbedSection) -> usize {
        match section {
            EmbedSection::Inputs => net.inputs.len(),
            EmbedSection::Outputs | EmbedSection::Shown => net.outputs.len(),
            EmbedSection::Gates => net.gates.len(),
            EmbedSection::States
            | EmbedSection::Resets
            | EmbedSection::Nexts
            | EmbedSection::Kept => net.latches.len(),
            EmbedSection::FirstLines
            | EmbedSection::StatesHead
            | EmbedSection::StatesEnd
            | EmbedSection::InputsEnd
            | EmbedSection::OutputsEnd
            | EmbedSection::Prototypes
            | EmbedSection::ResetHead
            | EmbedSection::ReactHead
            | EmbedSection::Running
            | EmbedSection::Return
            | EmbedSection::LastLines => 1,
        }
    }

    #[tactic(auto, using(net_writer::proofs::Exports::section_parts))]
    fn put_in(
        &self,
        text: &mut Vec<u8>,
        net: &Net,
        section: EmbedSection,
        k: usize,
    ) -> Result<(), NoMemory> {
        let layout = L::layout();
        match section {
            EmbedSection::FirstLines => put_first_text(text, layout.file, net.name.bytes()),
            EmbedSection::StatesHead => put_open(text),
            EmbedSection::States => put_state_member(text, layout.packed, k),
            EmbedSection::StatesEnd => put_states_end(text, net),
            EmbedSection::Inputs => put_member(text, &net.inputs[k]),
            EmbedSection::InputsEnd => put_inputs_end(text, net),
            EmbedSection::Outputs => put_member(text, &net.outputs[k].name),
            EmbedSection::OutputsEnd => put_outputs_end(text, net),
            EmbedSection::Prototypes => put_prototypes(text, net.name.bytes()),
            EmbedSection::ResetHead => put_reset_text(text, layout.file, net.name.bytes()),
            EmbedSection::Resets => put_first(text, k, net.latches[k]),
            EmbedSection::ReactHead => put_react_text(text, layout.file, net, self.reads_input),
            EmbedSection::Gates => put_gate(text, net, k, net.gates[k]),
            EmbedSection::Nexts => put_next(text, net, k, net.latches[k]),
            EmbedSection::Running => put_running(text, net),
            EmbedSection::Shown => put_shown(text, net, &net.outputs[k]),
            EmbedSection::Kept => put_kept(text, k, net.latches[k]),
            EmbedSection::Return => put_return(text),
            EmbedSection::LastLines => put_lines_after(text, layout.file),
        }
    }

    fn look_at(net: &Net) {
        look_at_wires(net);
    }
}
