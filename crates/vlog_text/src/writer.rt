// The Verilog text of a net, line by line. Running out of memory is the only error.

ghost use Rattle.std.specs.Prelude.{◌≡◌, ◌+◌, ◌<◌, ◌≤◌, ◌++◌, OnOk};
ghost use Rattle.net_ir.specs.Gates.{operand_end};
ghost use Rattle.net_ir.specs.Netlists.{net_count};
ghost use Rattle.net_ir.specs.Runs.{netlist_of};
ghost use Rattle.net_expressions.specs.NetNames.{state_name, gate_name};
ghost use Rattle.net_expressions.specs.Operators.{op_expr};
ghost use Rattle.vlog_text.specs.Trees.{Input, Output, Reg, Wire};
ghost use Rattle.vlog_text.specs.Names.{paused_name};
ghost use Rattle.vlog_text.specs.Written.{module_name, clock_name, input_name, output_name, net_name, declares};
ghost use Rattle.vlog_text.specs.Written.{gate_assign, output_assign, paused_assign, latch_initial, latch_next};
ghost use Rattle.vlog_text.specs.Written.{expr_text, next_port, head_front, head_end, declaration_line, initial_line};
ghost use Rattle.vlog_text.specs.Written.{assign_line, clock_line, next_line, last_lines};

use crate::pieces::VlogWriter;
use base_types::{NoMemory, Text, put, put_number};
use net_expressions::{GateText, put_gate_name, put_net, put_op};
use net_ir::{Gate, Latch, Net, NetOut};
use net_writer::put_named;

impl GateText for VlogWriter {
    ghost use Rattle.std.specs.Prelude.{codes, slice_get};
    ghost use Rattle.vlog_text.specs.Written.{name_at, bit_text};

    ghost input = { λ net n. name_at (slice_get net.inputs n) };

    ghost negation = { codes "~" };

    ghost bit = { bit_text };

    fn put_input(text: &mut Vec<u8>, net: &Net, n: usize) -> Result<(), NoMemory> {
        put_named(text, b"i_", net.inputs[n].bytes(), b"")
    }

    fn negation() -> &'static [u8] {
        b"~"
    }

    fn bit(value: bool) -> &'static [u8] {
        if value { b"1'b1" } else { b"1'b0" }
    }
}

// The name of the module, and the clock among its ports.
pub fn put_clock_port(text: &mut Vec<u8>, name: &Text) -> Result<(), NoMemory>
    ensures { OnOk result (text.new.items
        ≡ text.old.items ++ (head_front (module_name name.now) ++ clock_name)) }
{
    put_named(text, b"module m_", name.bytes(), b"(clk")
}

// The port of an input.
pub fn put_input_port(text: &mut Vec<u8>, name: &Text) -> Result<(), NoMemory>
    ensures { OnOk result (text.new.items ≡ text.old.items ++ next_port (input_name name.now)) }
{
    put(text, b", i_")?;
    put(text, name.bytes())
}

// The port of an output.
pub fn put_output_port(text: &mut Vec<u8>, output: &NetOut) -> Result<(), NoMemory>
    ensures { OnOk result (text.new.items ≡ text.old.items ++ next_port (output_name output.now)) }
{
    put(text, b", o_")?;
    put(text, output.name.bytes())
}

// The port `paused`, the end of the ports, and the declaration of the clock.
pub fn put_head_end(text: &mut Vec<u8>) -> Result<(), NoMemory>
    ensures { OnOk result (text.new.items ≡ text.old.items
        ++ (next_port paused_name ++ (head_end ++ declaration_line (declares Input clock_name)))) }
{
    put(text, b", paused);\ninput clk;\n")
}

// The declaration of an input.
pub fn put_input(text: &mut Vec<u8>, name: &Text) -> Result<(), NoMemory>
    ensures { OnOk result (text.new.items ≡ text.old.items
        ++ declaration_line (declares Input (input_name name.now))) }
{
    put_named(text, b"input i_", name.bytes(), b";\n")
}

// The declaration of an output.
pub fn put_output(text: &mut Vec<u8>, output: &NetOut) -> Result<(), NoMemory>
    ensures { OnOk result (text.new.items ≡ text.old.items
        ++ declaration_line (declares Output (output_name output.now))) }
{
    put_named(text, b"output o_", output.name.bytes(), b";\n")
}

// The declaration of `paused`.
pub fn put_paused(text: &mut Vec<u8>) -> Result<(), NoMemory>
    ensures { OnOk result (text.new.items ≡ text.old.items ++ declaration_line (declares Output paused_name)) }
{
    put(text, b"output paused;\n")
}

// The declaration of a latch.
pub fn put_reg(text: &mut Vec<u8>, j: usize) -> Result<(), NoMemory>
    ensures { OnOk result (text.new.items ≡ text.old.items ++ declaration_line (declares Reg (state_name j))) }
{
    put_number(text, b"reg s", j)?;
    put(text, b";\n")
}

// The declaration of a gate.
pub fn put_wire(text: &mut Vec<u8>, k: usize, gate: Gate) -> Result<(), NoMemory>
    ensures { OnOk result (text.new.items ≡ text.old.items
        ++ declaration_line (declares Wire (gate_name k gate.wire))) }
{
    put(text, b"wire ")?;
    put_gate_name(text, k, gate)?;
    put(text, b";\n")
}

// The first value of a latch.
pub fn put_initial(text: &mut Vec<u8>, j: usize, latch: Latch) -> Result<(), NoMemory>
    ensures { OnOk result (text.new.items ≡ text.old.items ++ initial_line (latch_initial j latch)) }
{
    put_number(text, b"initial s", j)?;
    if latch.init {
        put(text, b" = 1'b1;\n")
    } else {
        put(text, b" = 1'b0;\n")
    }
}

// A gate is assigned.
pub fn put_gate(text: &mut Vec<u8>, net: &Net, k: usize, gate: Gate) -> Result<(), NoMemory>
    requires { operand_end gate.op ≤ net_count (netlist_of net.now) }
    ensures { OnOk result (text.new.items ≡ text.old.items
        ++ assign_line (gate_assign (netlist_of net.now) k gate)) }
{
    put(text, b"assign ")?;
    put_gate_name(text, k, gate)?;
    put(text, b" = ")?;
    put_op::<VlogWriter>(text, net, gate.op)?;
    put(text, b";\n")
}

// An output is assigned.
pub fn put_output_assign(text: &mut Vec<u8>, net: &Net, output: &NetOut) -> Result<(), NoMemory>
    requires { output.now.net.0 < net_count (netlist_of net.now) }
    ensures { OnOk result (text.new.items ≡ text.old.items
        ++ assign_line (output_assign (netlist_of net.now) output.now)) }
{
    put_named(text, b"assign o_", output.name.bytes(), b" = ")?;
    put_net::<VlogWriter>(text, net, output.net)?;
    put(text, b";\n")
}

// Whether the program is still active, and the line that begins the registers.
pub fn put_paused_assign(text: &mut Vec<u8>, net: &Net) -> Result<(), NoMemory>
    ensures { OnOk result (text.new.items
        ≡ text.old.items ++ (assign_line (paused_assign (netlist_of net.now)) ++ clock_line clock_name)) }
{
    put(text, b"assign paused = ")?;
    put_net::<VlogWriter>(text, net, net.paused)?;
    put(text, b";\nalways @(posedge clk) begin\n")
}

// A latch gets its next value.
pub fn put_next(text: &mut Vec<u8>, net: &Net, j: usize, latch: Latch) -> Result<(), NoMemory>
    requires { latch.from.0 < net_count (netlist_of net.now) }
    ensures { OnOk result (text.new.items ≡ text.old.items
        ++ next_line (latch_next (netlist_of net.now) j latch)) }
{
    put_number(text, b"s", j)?;
    put(text, b" <= ")?;
    put_net::<VlogWriter>(text, net, latch.from)?;
    put(text, b";\n")
}

// The end of the registers and of the module.
pub fn put_last_lines(text: &mut Vec<u8>) -> Result<(), NoMemory>
    ensures { OnOk result (text.new.items ≡ text.old.items ++ last_lines) }
{
    put(text, b"end\nendmodule\n")
}
