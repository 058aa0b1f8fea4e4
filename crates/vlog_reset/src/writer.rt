// The text of a net with a reset, line by line. Running out of memory is the only error.

ghost use Rattle.std.specs.Prelude.{◌≡◌, ◌+◌, ◌<◌, ◌≤◌, ◌++◌, codes, OnOk};
ghost use Rattle.net_ir.specs.Gates.{operand_end};
ghost use Rattle.net_ir.specs.Netlists.{net_count};
ghost use Rattle.net_ir.specs.Runs.{netlist_of};
ghost use Rattle.net_expressions.specs.Operators.{op_expr};
ghost use Rattle.vlog_text.specs.Written.{bit_text, expr_text, line_end};
ghost use Rattle.vlog_reset.specs.Views.{options_of};
ghost use Rattle.vlog_reset.specs.Written.{input_name, output_name, state_word, gate_word, net_word};
ghost use Rattle.vlog_reset.specs.Written.{gate_assign, output_assign, input_port, output_port, reg_line};
ghost use Rattle.vlog_reset.specs.Written.{initial_line, assign_line, first_value_line, next_line, wire_declaration};

use crate::options::ResetOptions;
use base_types::{NetId, NoMemory, Text, put, put_number};
use net_ir::{Gate, Latch, Net, NetOut, Op};
use net_writer::{Driver, driver_of};

// ---- names

// The name of an input.
pub fn put_input_name(
    text: &mut Vec<u8>,
    name: &Text,
    options: ResetOptions<'_>,
) -> Result<(), NoMemory>
    ensures { OnOk result (text.new.items ≡ text.old.items ++ input_name (options_of options.entry) name.now) }
{
    if options.has_prefixes {
        put(text, b"i_")?;
    }
    put(text, name.bytes())
}

// The name of an output.
pub fn put_output_name(
    text: &mut Vec<u8>,
    output: &NetOut,
    options: ResetOptions<'_>,
) -> Result<(), NoMemory>
    ensures { OnOk result (text.new.items ≡ text.old.items ++ output_name (options_of options.entry) output.now) }
{
    if options.has_prefixes {
        put(text, b"o_")?;
    }
    put(text, output.name.bytes())
}

// The name of a net.
#[tactic(auto, using(crate::proofs::NetWords::word_rules))]
pub fn put_net_name(
    text: &mut Vec<u8>,
    net: &Net,
    from: NetId,
    options: ResetOptions<'_>,
) -> Result<(), NoMemory>
    requires { from.0 < net_count (netlist_of net.now) }
    ensures { OnOk result (text.new.items
        ≡ text.old.items ++ net_word (options_of options.entry) (netlist_of net.now) from.0) }
{
    match driver_of(net, from) {
        Driver::Input(j) => put_input_name(text, &net.inputs[j], options),
        Driver::Latch(j) => put_number(text, b"state", j),
        Driver::Gate(k) => put_number(text, b"gate", k),
    }
}

// What an operator makes of the nets that it reads.
fn put_op(text: &mut Vec<u8>, net: &Net, op: Op, options: ResetOptions<'_>) -> Result<(), NoMemory>
    requires { operand_end op ≤ net_count (netlist_of net.now) }
    ensures { OnOk result (text.new.items ≡ text.old.items
        ++ expr_text (op_expr (net_word (options_of options.entry) (netlist_of net.now)) op)) }
{
    match op {
        Op::Const(value) => put_bit(text, value),
        Op::Copy(a) => put_net_name(text, net, a, options),
        Op::Not(a) => {
            put(text, b"~")?;
            put_net_name(text, net, a, options)
        }
        Op::And(a, b) => put_pair(text, net, a, b" & ", b, options),
        Op::Or(a, b) => put_pair(text, net, a, b" | ", b, options),
    }
}

// Two nets with a mark between them.
fn put_pair(
    text: &mut Vec<u8>,
    net: &Net,
    a: NetId,
    mark: &[u8],
    b: NetId,
    options: ResetOptions<'_>,
) -> Result<(), NoMemory>
    requires first { a.0 < net_count (netlist_of net.now) }
    requires second { b.0 < net_count (netlist_of net.now) }
    ensures { OnOk result (text.new.items ≡ text.old.items
        ++ (net_word (options_of options.entry) (netlist_of net.now) a.0
        ++ (mark.now ++ net_word (options_of options.entry) (netlist_of net.now) b.0))) }
{
    put_net_name(text, net, a, options)?;
    put(text, mark)?;
    put_net_name(text, net, b, options)
}

// A constant.
fn put_bit(text: &mut Vec<u8>, value: bool) -> Result<(), NoMemory>
    ensures { OnOk result (text.new.items ≡ text.old.items ++ bit_text value) }
{
    if value {
        put(text, b"1'b1")
    } else {
        put(text, b"1'b0")
    }
}

// ---- ports and declarations

// The port of an input.
pub fn put_input_port(
    text: &mut Vec<u8>,
    name: &Text,
    options: ResetOptions<'_>,
) -> Result<(), NoMemory>
    ensures { OnOk result (text.new.items
        ≡ text.old.items ++ input_port (input_name (options_of options.entry) name.now)) }
{
    put(text, b",\n    input wire ")?;
    put_input_name(text, name, options)
}

// The port of an output.
pub fn put_output_port(
    text: &mut Vec<u8>,
    output: &NetOut,
    options: ResetOptions<'_>,
) -> Result<(), NoMemory>
    ensures { OnOk result (text.new.items
        ≡ text.old.items ++ output_port (output_name (options_of options.entry) output.now)) }
{
    put(text, b",\n    output wire ")?;
    put_output_name(text, output, options)
}

// The declaration of a register.
pub fn put_reg(text: &mut Vec<u8>, j: usize) -> Result<(), NoMemory>
    ensures { OnOk result (text.new.items ≡ text.old.items ++ reg_line (state_word j)) }
{
    put_number(text, b"    reg state", j)?;
    put(text, b";\n")
}

// The declaration of a gate.
pub fn put_wire(text: &mut Vec<u8>, k: usize) -> Result<(), NoMemory>
    ensures { OnOk result (text.new.items ≡ text.old.items ++ wire_declaration (gate_word k)) }
{
    put_number(text, b"    wire gate", k)?;
    put(text, b";\n")
}

// ---- values

// The value of a register at power-up.
pub fn put_initial(text: &mut Vec<u8>, j: usize, latch: Latch) -> Result<(), NoMemory>
    ensures { OnOk result (text.new.items ≡ text.old.items ++ initial_line (state_word j) latch.init) }
{
    put_number(text, b"    initial state", j)?;
    put(text, b" = ")?;
    put_bit_end(text, latch.init)
}

// The value of a register where the reset is active.
pub fn put_first_value(text: &mut Vec<u8>, j: usize, latch: Latch) -> Result<(), NoMemory>
    ensures { OnOk result (text.new.items ≡ text.old.items ++ first_value_line (state_word j) latch.init) }
{
    put_number(text, b"            state", j)?;
    put(text, b" <= ")?;
    put_bit_end(text, latch.init)
}

// A constant at the end of a line.
fn put_bit_end(text: &mut Vec<u8>, value: bool) -> Result<(), NoMemory>
    ensures { OnOk result (text.new.items ≡ text.old.items ++ (bit_text value ++ line_end)) }
{
    put_bit(text, value)?;
    put(text, b";\n")
}

// A gate is assigned.
pub fn put_gate(
    text: &mut Vec<u8>,
    net: &Net,
    k: usize,
    gate: Gate,
    options: ResetOptions<'_>,
) -> Result<(), NoMemory>
    requires { operand_end gate.op ≤ net_count (netlist_of net.now) }
    ensures { OnOk result (text.new.items ≡ text.old.items
        ++ assign_line (gate_assign (options_of options.entry) (netlist_of net.now) k gate)) }
{
    put_number(text, b"    assign gate", k)?;
    put(text, b" = ")?;
    put_op(text, net, gate.op, options)?;
    put(text, b";\n")
}

// An output is assigned.
pub fn put_output_assign(
    text: &mut Vec<u8>,
    net: &Net,
    output: &NetOut,
    options: ResetOptions<'_>,
) -> Result<(), NoMemory>
    requires { output.now.net.0 < net_count (netlist_of net.now) }
    ensures { OnOk result (text.new.items ≡ text.old.items
        ++ assign_line (output_assign (options_of options.entry) (netlist_of net.now) output.now)) }
{
    put(text, b"    assign ")?;
    put_output_name(text, output, options)?;
    put_source(text, net, output.net, options)
}

// The net whose value something gets, at the end of a line.
pub fn put_source(
    text: &mut Vec<u8>,
    net: &Net,
    from: NetId,
    options: ResetOptions<'_>,
) -> Result<(), NoMemory>
    requires { from.0 < net_count (netlist_of net.now) }
    ensures { OnOk result (text.new.items ≡ text.old.items
        ++ (codes " = " ++ (net_word (options_of options.entry) (netlist_of net.now) from.0 ++ line_end))) }
{
    put(text, b" = ")?;
    put_net_name(text, net, from, options)?;
    put(text, b";\n")
}

// A register gets its next value.
pub fn put_next(
    text: &mut Vec<u8>,
    net: &Net,
    j: usize,
    latch: Latch,
    options: ResetOptions<'_>,
) -> Result<(), NoMemory>
    requires { latch.from.0 < net_count (netlist_of net.now) }
    ensures { OnOk result (text.new.items ≡ text.old.items
        ++ next_line (state_word j) (net_word (options_of options.entry) (netlist_of net.now) latch.from.0)) }
{
    put_number(text, b"            state", j)?;
    put(text, b" <= ")?;
    put_net_name(text, net, latch.from, options)?;
    put(text, b";\n")
}
