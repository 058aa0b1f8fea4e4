// The parts of the text of a net with a reset, section by section.

ghost use Rattle.std.specs.Prelude.{◌≡◌, ◌<◌, ◌++◌, [], length, slice_index_or, OnOk};
ghost use Rattle.net_ir.specs.Runs.{netlist_of};
ghost use Rattle.vlog_reset.specs.Parts.{parts_in};
ghost use Rattle.vlog_reset.specs.Views.{options_of};

use crate::ends::{put_else, put_end, put_front, put_ports_end, put_reset_head};
use crate::options::ResetOptions;
use crate::writer::{
    put_first_value, put_gate, put_initial, put_input_port, put_next, put_output_assign,
    put_output_port, put_reg, put_wire,
};
use base_types::NoMemory;
use net_ir::Net;

/// The sections of a text with a reset: the ports, the declarations, the values at power-up, the assignments, and what
/// the registers get.
#[derive(Clone, Copy)]
pub enum ResetSection {
    Head,
    Inputs,
    Outputs,
    PortsEnd,
    Registers,
    Wires,
    Initials,
    Gates,
    OutputAssigns,
    ResetHead,
    FirstValues,
    Else,
    Nexts,
    LastLines,
}

pub static SECTIONS: [ResetSection; 14] = [
    ResetSection::Head,
    ResetSection::Inputs,
    ResetSection::Outputs,
    ResetSection::PortsEnd,
    ResetSection::Registers,
    ResetSection::Wires,
    ResetSection::Initials,
    ResetSection::Gates,
    ResetSection::OutputAssigns,
    ResetSection::ResetHead,
    ResetSection::FirstValues,
    ResetSection::Else,
    ResetSection::Nexts,
    ResetSection::LastLines,
];

// How many parts a section has.
#[tactic(auto, using(net_writer::proofs::Exports::section_parts))]
pub fn part_count(net: &Net, options: ResetOptions<'_>, section: ResetSection) -> usize
    ensures { result ≡ length (parts_in (options_of options.entry) (netlist_of net.now) section) }
{
    match section {
        ResetSection::Inputs => net.inputs.len(),
        ResetSection::Outputs | ResetSection::OutputAssigns => net.outputs.len(),
        ResetSection::Wires | ResetSection::Gates => net.gates.len(),
        ResetSection::Registers | ResetSection::FirstValues | ResetSection::Nexts => net
            .latches
            .len(),
        ResetSection::Initials => {
            if options.manner.is_initialized {
                net.latches.len()
            } else {
                0
            }
        }
        ResetSection::Head
        | ResetSection::PortsEnd
        | ResetSection::ResetHead
        | ResetSection::Else
        | ResetSection::LastLines => 1,
    }
}

// Puts the part of a section with this number after a text.
#[tactic(auto, using(net_writer::proofs::Exports::section_parts))]
pub fn put_in(
    text: &mut Vec<u8>,
    net: &Net,
    options: ResetOptions<'_>,
    section: ResetSection,
    k: usize,
) -> Result<(), NoMemory>
    requires { k < length (parts_in (options_of options) (netlist_of net.now) section) }
    ensures { OnOk result (text.new.items ≡ text.old.items
        ++ slice_index_or (parts_in (options_of options.entry) (netlist_of net.now) section) k []) }
{
    match section {
        ResetSection::Head => put_front(text, net, options),
        ResetSection::Inputs => put_input_port(text, &net.inputs[k], options),
        ResetSection::Outputs => put_output_port(text, &net.outputs[k], options),
        ResetSection::PortsEnd => put_ports_end(text),
        ResetSection::Registers => put_reg(text, k),
        ResetSection::Wires => put_wire(text, k),
        ResetSection::Initials => put_initial(text, k, net.latches[k]),
        ResetSection::Gates => put_gate(text, net, k, net.gates[k], options),
        ResetSection::OutputAssigns => put_output_assign(text, net, &net.outputs[k], options),
        ResetSection::ResetHead => put_reset_head(text, net, options),
        ResetSection::FirstValues => put_first_value(text, k, net.latches[k]),
        ResetSection::Else => put_else(text, net),
        ResetSection::Nexts => put_next(text, net, k, net.latches[k], options),
        ResetSection::LastLines => put_end(text, net),
    }
}
