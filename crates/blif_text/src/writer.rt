// The BLIF text of a net, line by line. Running out of memory is the only error.

ghost use Rattle.std.specs.Prelude.{◌≡◌, ℕ, ◌+◌, ◌<◌, ◌≤◌, List, [], ◌∷◌, ◌++◌};
ghost use Rattle.std.specs.Prelude.{map, flat_map, codes, OnOk, if◌then◌else◌};
ghost use Rattle.net_ir.specs.Gates.{operand_end};
ghost use Rattle.net_ir.specs.Netlists.{net_count};
ghost use Rattle.net_ir.specs.Runs.{netlist_of};
ghost use Rattle.blif_text.specs.Statements.{Model, Row};
ghost use Rattle.net_ir.specs.NameLists.{is_among};
ghost use Rattle.blif_text.specs.Spelled.{text_of};
ghost use Rattle.blif_text.specs.Written.{gate_word, net_word, operands, op_rows, copy_table, paused_word};
ghost use Rattle.blif_text.specs.Written.{input_table, gate_table, output_table, net_latch};
ghost use Rattle.blif_text.specs.Parts.{inputs_start, inputs_end, outputs_end, first_lines, last_lines};
ghost use Rattle.blif_text.specs.Parts.{latch_text, table_text};

use base_types::{NetId, NoMemory, Text, put, put_number};
use net_ir::{Gate, Latch, Net, NetOut, Op};
use net_writer::{Driver, driver_of};

// The line of the model, and the beginning of that of the inputs, where there are any.
pub fn put_first_lines(text: &mut Vec<u8>, net: &Net) -> Result<(), NoMemory>
    ensures { OnOk result (text.new.items ≡ text.old.items ++ first_lines (netlist_of net.now)) }
{
    put_model(text, net.name.bytes())?;
    put_inputs_start(text, &net.inputs)
}

fn put_model(text: &mut Vec<u8>, name: &[u8]) -> Result<(), NoMemory>
    ensures { OnOk result (text.new.items ≡ text.old.items ++ text_of (Model name.now ∷ [])) }
{
    put(text, b".model")?;
    put_spaced(text, name)?;
    put(text, b"\n")
}

fn put_inputs_start(text: &mut Vec<u8>, inputs: &[Text]) -> Result<(), NoMemory>
    ensures { OnOk result (text.new.items ≡ text.old.items ++ inputs_start inputs.now) }
{
    if inputs.is_empty() {
        return Ok(());
    }
    put(text, b".inputs")
}

// A space and the name of an input.
pub fn put_input_name(text: &mut Vec<u8>, name: &Text) -> Result<(), NoMemory>
    ensures { OnOk result (text.new.items ≡ text.old.items ++ 32 ∷ name.now) }
{
    put_spaced(text, name.bytes())
}

// The end of the line of the inputs, where there are any, and the beginning of that of the outputs.
pub fn put_inputs_end(text: &mut Vec<u8>, inputs: &[Text]) -> Result<(), NoMemory>
    ensures { OnOk result (text.new.items ≡ text.old.items ++ inputs_end inputs.now) }
{
    if inputs.is_empty() {
        return put(text, b".outputs");
    }
    put(text, b"\n.outputs")
}

// A space and the name of an output, where `given` says whether it is also that of an input.
pub fn put_output_word(text: &mut Vec<u8>, output: &NetOut, given: bool) -> Result<(), NoMemory>
    ensures { OnOk result (text.new.items ≡ text.old.items
        ++ 32 ∷ (if given then output.now.name ++ codes ".out" else output.now.name)) }
{
    put_spaced(text, output.name.bytes())?;
    put(text, if given { b".out" } else { b"" })
}

// The last output, which tells whether the program is still active, and the end of the line.
pub fn put_outputs_end(text: &mut Vec<u8>) -> Result<(), NoMemory>
    ensures { OnOk result (text.new.items ≡ text.old.items ++ outputs_end) }
{
    put(text, b" _paused\n")
}

// The line of a latch.
pub fn put_latch(text: &mut Vec<u8>, net: &Net, j: usize, latch: Latch) -> Result<(), NoMemory>
    requires { latch.from.0 < net_count (netlist_of net.now) }
    ensures { OnOk result (text.new.items ≡ text.old.items
        ++ latch_text (net_latch (netlist_of net.now) j latch)) }
{
    put(text, b".latch ")?;
    put_net(text, net, latch.from)?;
    put_number(text, b" _s", j)?;
    put(text, if latch.init { b" 1\n" } else { b" 0\n" })
}

// The table of an input, which gives it its name among the nets.
pub fn put_input(text: &mut Vec<u8>, j: usize, name: &Text) -> Result<(), NoMemory>
    ensures { OnOk result (text.new.items ≡ text.old.items ++ table_text (input_table j name.now)) }
{
    put(text, b".names ")?;
    put(text, name.bytes())?;
    put_number(text, b" _i", j)?;
    put(text, b"\n1 1\n")
}

// The table of a gate.
pub fn put_gate(text: &mut Vec<u8>, net: &Net, k: usize, gate: Gate) -> Result<(), NoMemory>
    requires { operand_end gate.op ≤ net_count (netlist_of net.now) }
    ensures { OnOk result (text.new.items ≡ text.old.items
        ++ table_text (gate_table (netlist_of net.now) k gate)) }
{
    put(text, b".names")?;
    put_operands(text, net, gate.op)?;
    put(text, b" ")?;
    put_gate_word(text, k, gate)?;
    put(text, rows(gate.op))
}

// The names of the nets that a gate reads, each after a space.
fn put_operands(text: &mut Vec<u8>, net: &Net, op: Op) -> Result<(), NoMemory>
    requires { operand_end op ≤ net_count (netlist_of net.now) }
    ensures { OnOk result (text.new.items ≡ text.old.items
        ++ flat_map (λ w. 32 ∷ w) (map (net_word (netlist_of net.now)) (operands op))) }
{
    match op {
        Op::Const(_) => Ok(()),
        Op::Copy(a) => put_operand(text, net, a),
        Op::Not(a) => put_operand(text, net, a),
        Op::And(a, b) => {
            put_operand(text, net, a)?;
            put_operand(text, net, b)
        }
        Op::Or(a, b) => {
            put_operand(text, net, a)?;
            put_operand(text, net, b)
        }
    }
}

// The line feed after a gate's names, and the rows of its table.
fn rows(op: Op) -> &'static [u8]
    ensures { result.now ≡ 10 ∷ text_of (map Row (op_rows op)) }
{
    match op {
        Op::Const(false) => b"\n",
        Op::Const(true) => b"\n1\n",
        Op::Copy(_) => b"\n1 1\n",
        Op::Not(_) => b"\n0 1\n",
        Op::And(_, _) => b"\n11 1\n",
        Op::Or(_, _) => b"\n1- 1\n-1 1\n",
    }
}

// The table of an output, where `given` says whether its name is also that of an input.
pub fn put_output(
    text: &mut Vec<u8>,
    net: &Net,
    output: &NetOut,
    given: bool,
) -> Result<(), NoMemory>
    requires in_range { output.now.net.0 < net_count (netlist_of net.now) }
    requires given { given ≡ is_among output.now.name net.now.inputs.items }
    ensures { OnOk result (text.new.items ≡ text.old.items
        ++ table_text (output_table (netlist_of net.now) output.now)) }
{
    put(text, b".names ")?;
    put_net(text, net, output.net)?;
    put_output_word(text, output, given)?;
    put(text, b"\n1 1\n")
}

// The table of `_paused`, and the end.
pub fn put_last_lines(text: &mut Vec<u8>, net: &Net) -> Result<(), NoMemory>
    ensures { OnOk result (text.new.items ≡ text.old.items
        ++ last_lines (netlist_of net.now)) }
{
    put(text, b".names ")?;
    put_net(text, net, net.paused)?;
    put(text, b" _paused\n1 1\n.end\n")
}

// A space and the name of a net.
fn put_operand(text: &mut Vec<u8>, net: &Net, from: NetId) -> Result<(), NoMemory>
    requires { from.0 < net_count (netlist_of net.now) }
    ensures { OnOk result (text.new.items ≡ text.old.items ++ 32 ∷ net_word (netlist_of net.now) from.0) }
{
    put(text, b" ")?;
    put_net(text, net, from)
}

// The name of a net.
fn put_net(text: &mut Vec<u8>, net: &Net, from: NetId) -> Result<(), NoMemory>
    requires { from.0 < net_count (netlist_of net.now) }
    ensures { OnOk result (text.new.items ≡ text.old.items ++ net_word (netlist_of net.now) from.0) }
{
    match driver_of(net, from) {
        Driver::Input(j) => put_number(text, b"_i", j),
        Driver::Latch(j) => put_number(text, b"_s", j),
        Driver::Gate(k) => put_gate_word(text, k, net.gates[k]),
    }
}

// The name of a gate.
fn put_gate_word(text: &mut Vec<u8>, k: usize, gate: Gate) -> Result<(), NoMemory>
    ensures { OnOk result (text.new.items ≡ text.old.items ++ gate_word k gate.wire) }
{
    match gate.wire {
        Some(wire) => put_number(text, b"_w", wire.0 as usize),
        None => put_number(text, b"_g", k),
    }
}

// A space and a word.
fn put_spaced(text: &mut Vec<u8>, word: &[u8]) -> Result<(), NoMemory>
    ensures { OnOk result (text.new.items ≡ text.old.items ++ 32 ∷ word.now) }
{
    put(text, b" ")?;
    put(text, word)
}
