// The parts of the Verilog text of a net, section by section.

ghost use Rattle.std.specs.Prelude.{◌≡◌, ◌<◌, ◌++◌, [], length, slice_index_or, OnOk};
ghost use Rattle.net_ir.specs.Runs.{netlist_of};
ghost use Rattle.vlog_text.specs.Parts.{parts_in};

use crate::pieces::VlogWriter;
use crate::writer::{
    put_clock_port, put_gate, put_head_end, put_initial, put_input, put_input_port, put_last_lines,
    put_next, put_output, put_output_assign, put_output_port, put_paused, put_paused_assign,
    put_reg, put_wire,
};
use base_types::NoMemory;
use net_ir::{Net, look_at_wires};
use net_writer::NetText;
use std::alloc::Global;

/// The sections of a Verilog text: the ports, the declarations, the first values, the assignments, and what the
/// registers get.
#[derive(Clone, Copy)]
pub enum VerilogSection {
    ClockPort,
    InputPorts,
    OutputPorts,
    HeadEnd,
    Inputs,
    Outputs,
    Paused,
    Regs,
    Wires,
    Initials,
    GateAssigns,
    OutputAssigns,
    PausedAssign,
    Nexts,
    LastLines,
}

static SECTIONS: [VerilogSection; 15] = [
    VerilogSection::ClockPort,
    VerilogSection::InputPorts,
    VerilogSection::OutputPorts,
    VerilogSection::HeadEnd,
    VerilogSection::Inputs,
    VerilogSection::Outputs,
    VerilogSection::Paused,
    VerilogSection::Regs,
    VerilogSection::Wires,
    VerilogSection::Initials,
    VerilogSection::GateAssigns,
    VerilogSection::OutputAssigns,
    VerilogSection::PausedAssign,
    VerilogSection::Nexts,
    VerilogSection::LastLines,
];

impl NetText for VlogWriter {
    ghost use Rattle.vlog_text.specs.Parts.{parts_in};
    ghost use Rattle.vlog_text.specs.Written.{written, Means};
    ghost use Rattle.vlog_text.specs.declared.parts.TheConstants.{SECTIONS};

    type Section = VerilogSection;

    ghost sections = { SECTIONS };

    ghost parts_in = { parts_in };

    ghost written = { written };

    ghost means = { Means };

    ghost is_of = { λ _ _. Unit {0} };

    fn of(_alloc: Global, _net: &Net) -> Result<VlogWriter, NoMemory> {
        Ok(VlogWriter {})
    }

    fn sections() -> &'static [VerilogSection] {
        &SECTIONS
    }

    #[tactic(auto, using(net_writer::proofs::Exports::section_parts))]
    fn count(net: &Net, section: VerilogSection) -> usize {
        match section {
            VerilogSection::InputPorts | VerilogSection::Inputs => net.inputs.len(),
            VerilogSection::OutputPorts | VerilogSection::Outputs | VerilogSection::OutputAssigns =>
                { net.outputs.len() }
            VerilogSection::Regs | VerilogSection::Initials | VerilogSection::Nexts => net
                .latches
                .len(),
            VerilogSection::Wires | VerilogSection::GateAssigns => net.gates.len(),
            VerilogSection::ClockPort
            | VerilogSection::HeadEnd
            | VerilogSection::Paused
            | VerilogSection::PausedAssign
            | VerilogSection::LastLines => 1,
        }
    }

    #[tactic(auto, using(net_writer::proofs::Exports::section_parts))]
    fn put_in(
        &self,
        text: &mut Vec<u8>,
        net: &Net,
        section: VerilogSection,
        k: usize,
    ) -> Result<(), NoMemory> {
        match section {
            VerilogSection::ClockPort => put_clock_port(text, &net.name),
            VerilogSection::InputPorts => put_input_port(text, &net.inputs[k]),
            VerilogSection::OutputPorts => put_output_port(text, &net.outputs[k]),
            VerilogSection::HeadEnd => put_head_end(text),
            VerilogSection::Inputs => put_input(text, &net.inputs[k]),
            VerilogSection::Outputs => put_output(text, &net.outputs[k]),
            VerilogSection::Paused => put_paused(text),
            VerilogSection::Regs => put_reg(text, k),
            VerilogSection::Wires => put_wire(text, k, net.gates[k]),
            VerilogSection::Initials => put_initial(text, k, net.latches[k]),
            VerilogSection::GateAssigns => put_gate(text, net, k, net.gates[k]),
            VerilogSection::OutputAssigns => put_output_assign(text, net, &net.outputs[k]),
            VerilogSection::PausedAssign => put_paused_assign(text, net),
            VerilogSection::Nexts => put_next(text, net, k, net.latches[k]),
            VerilogSection::LastLines => put_last_lines(text),
        }
    }

    fn look_at(net: &Net) {
        look_at_wires(net);
    }
}
