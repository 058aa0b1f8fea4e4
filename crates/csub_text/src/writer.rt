// The C text of a net, line by line. Running out of memory is the only error.

ghost use Rattle.std.specs.Prelude.{◌≡◌, ◌+◌, ◌<◌, ◌≤◌, ◌++◌, OnOk};
ghost use Rattle.net_ir.specs.Gates.{operand_end};
ghost use Rattle.net_ir.specs.Netlists.{net_count};
ghost use Rattle.net_ir.specs.Runs.{netlist_of};
ghost use Rattle.csub_text.specs.Written.{input_name, gate_name, next_name, answer_name, net_name, input_variable};
ghost use Rattle.csub_text.specs.Written.{output_variable, net_state, input_assign, gate_assign, next_assign};
ghost use Rattle.csub_text.specs.Written.{output_assign, answer_assign, state_assign, op_expr, expr_text, state_line};
ghost use Rattle.csub_text.specs.Written.{declaration, assign_line, head_line, last_lines};
ghost use Rattle.csub_text.specs.Trees.{Name};

use crate::pieces::CWriter;
use base_types::{NoMemory, Text, put, put_number};
use net_expressions::{GateText, put_gate_name, put_net, put_op};
use net_ir::{Gate, Latch, Net, NetOut};
use net_writer::put_named;

impl GateText for CWriter {
    ghost use Rattle.std.specs.Prelude.{codes};
    ghost use Rattle.csub_text.specs.Written.{input_name, bit_text};

    ghost input = { λ _ j. input_name j };

    ghost negation = { codes "!" };

    ghost bit = { bit_text };

    fn put_input(text: &mut Vec<u8>, _net: &Net, n: usize) -> Result<(), NoMemory> {
        put_number(text, b"i", n)
    }

    fn negation() -> &'static [u8] {
        b"!"
    }

    fn bit(value: bool) -> &'static [u8] {
        if value { b"1" } else { b"0" }
    }
}

// The declaration of a latch.
pub fn put_state(text: &mut Vec<u8>, j: usize, latch: Latch) -> Result<(), NoMemory>
    ensures { OnOk result (text.new.items ≡ text.old.items ++ state_line (net_state j latch)) }
{
    put_number(text, b"static int s", j)?;
    if latch.init {
        put(text, b" = 1;\n")
    } else {
        put(text, b" = 0;\n")
    }
}

// The declaration of an input.
pub fn put_input(text: &mut Vec<u8>, name: &Text) -> Result<(), NoMemory>
    ensures { OnOk result (text.new.items ≡ text.old.items ++ declaration (input_variable name.now)) }
{
    put_named(text, b"int I_", name.bytes(), b";\n")
}

// The declaration of an output.
pub fn put_output(text: &mut Vec<u8>, output: &NetOut) -> Result<(), NoMemory>
    ensures { OnOk result (text.new.items ≡ text.old.items ++ declaration (output_variable output.now)) }
{
    put_named(text, b"int O_", output.name.bytes(), b";\n")
}

// The line that begins the function.
pub fn put_head(text: &mut Vec<u8>) -> Result<(), NoMemory>
    ensures { OnOk result (text.new.items ≡ text.old.items ++ head_line) }
{
    put(text, b"int react(void) {\n")
}

// The declaration of an input's local.
pub fn put_input_local(text: &mut Vec<u8>, j: usize) -> Result<(), NoMemory>
    ensures { OnOk result (text.new.items ≡ text.old.items ++ declaration (input_name j)) }
{
    put_number(text, b"int i", j)?;
    put(text, b";\n")
}

// The declaration of a gate's local.
pub fn put_gate_local(text: &mut Vec<u8>, k: usize, gate: Gate) -> Result<(), NoMemory>
    ensures { OnOk result (text.new.items ≡ text.old.items ++ declaration (gate_name k gate.wire)) }
{
    put(text, b"int ")?;
    put_gate_name(text, k, gate)?;
    put(text, b";\n")
}

// The declaration of a latch's next value.
pub fn put_next_local(text: &mut Vec<u8>, j: usize) -> Result<(), NoMemory>
    ensures { OnOk result (text.new.items ≡ text.old.items ++ declaration (next_name j)) }
{
    put_number(text, b"int t", j)?;
    put(text, b";\n")
}

// The declaration of the answer.
pub fn put_answer_local(text: &mut Vec<u8>) -> Result<(), NoMemory>
    ensures { OnOk result (text.new.items ≡ text.old.items ++ declaration answer_name) }
{
    put(text, b"int r;\n")
}

// An input is copied into its local.
pub fn put_input_assign(text: &mut Vec<u8>, j: usize, name: &Text) -> Result<(), NoMemory>
    ensures { OnOk result (text.new.items ≡ text.old.items ++ assign_line (input_assign j name.now)) }
{
    put_number(text, b"i", j)?;
    put_named(text, b" = I_", name.bytes(), b";\n")
}

// A gate is computed.
pub fn put_gate(text: &mut Vec<u8>, net: &Net, k: usize, gate: Gate) -> Result<(), NoMemory>
    requires { operand_end gate.op ≤ net_count (netlist_of net.now) }
    ensures { OnOk result (text.new.items ≡ text.old.items
        ++ assign_line (gate_assign (netlist_of net.now) k gate)) }
{
    put_gate_name(text, k, gate)?;
    put(text, b" = ")?;
    put_op::<CWriter>(text, net, gate.op)?;
    put(text, b";\n")
}

// The next value of a latch is computed.
pub fn put_next_assign(
    text: &mut Vec<u8>,
    net: &Net,
    j: usize,
    latch: Latch,
) -> Result<(), NoMemory>
    requires { latch.from.0 < net_count (netlist_of net.now) }
    ensures { OnOk result (text.new.items ≡ text.old.items
        ++ assign_line (next_assign (netlist_of net.now) j latch)) }
{
    put_number(text, b"t", j)?;
    put(text, b" = ")?;
    put_net::<CWriter>(text, net, latch.from)?;
    put(text, b";\n")
}

// An output gets its value.
pub fn put_output_assign(text: &mut Vec<u8>, net: &Net, output: &NetOut) -> Result<(), NoMemory>
    requires { output.now.net.0 < net_count (netlist_of net.now) }
    ensures { OnOk result (text.new.items ≡ text.old.items
        ++ assign_line (output_assign (netlist_of net.now) output.now)) }
{
    put_named(text, b"O_", output.name.bytes(), b" = ")?;
    put_net::<CWriter>(text, net, output.net)?;
    put(text, b";\n")
}

// Whether the program is still active.
pub fn put_answer_assign(text: &mut Vec<u8>, net: &Net) -> Result<(), NoMemory>
    ensures { OnOk result (text.new.items ≡ text.old.items ++ assign_line (answer_assign (netlist_of net.now))) }
{
    put(text, b"r = ")?;
    put_net::<CWriter>(text, net, net.paused)?;
    put(text, b";\n")
}

// A latch gets its next value.
pub fn put_state_assign(text: &mut Vec<u8>, j: usize, latch: Latch) -> Result<(), NoMemory>
    ensures { OnOk result (text.new.items ≡ text.old.items ++ assign_line (state_assign j latch)) }
{
    put_number(text, b"s", j)?;
    put_number(text, b" = t", j)?;
    put(text, b";\n")
}

// The answer and the end.
pub fn put_last_lines(text: &mut Vec<u8>) -> Result<(), NoMemory>
    ensures { OnOk result (text.new.items ≡ text.old.items ++ last_lines (Name answer_name)) }
{
    put(text, b"return r;\n}\n")
}
