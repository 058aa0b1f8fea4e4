// The embedded text of a net, line by line. Running out of memory is the only error.

ghost use Rattle.std.specs.Prelude.{◌≡◌, ◌+◌, ◌<◌, ◌≤◌, ◌++◌, false, OnOk};
ghost use Rattle.net_ir.specs.Gates.{operand_end};
ghost use Rattle.net_ir.specs.Netlists.{net_count};
ghost use Rattle.net_ir.specs.Runs.{netlist_of};
ghost use Rattle.csub_embed.specs.Grammar.{self_word, out_word};
ghost use Rattle.csub_embed.specs.Written.{state_word, net_state, place_of, op_value_of, gate_local, next_local};
ghost use Rattle.csub_embed.specs.Written.{running_local, output_store, state_store, written_place, value_text};
ghost use Rattle.csub_embed.specs.Written.{member_line, first_line, local_line, store_line};

use base_types::{NetId, NoMemory, Text, put, put_number};
use net_ir::{Gate, Latch, Net, NetOut, Op};
use net_writer::{Driver, driver_of, put_named};

// A latch among the members of the state.
pub fn put_state_member(text: &mut Vec<u8>, packed: bool, j: usize) -> Result<(), NoMemory>
    ensures { OnOk result (text.new.items ≡ text.old.items ++ member_line packed (state_word j)) }
{
    put_number(text, b"    bool state", j)?;
    if packed {
        put(text, b" : 1;\n")
    } else {
        put(text, b";\n")
    }
}

// A signal among the members of the inputs or of the outputs.
pub fn put_member(text: &mut Vec<u8>, name: &Text) -> Result<(), NoMemory>
    ensures { OnOk result (text.new.items ≡ text.old.items ++ member_line false name.now) }
{
    put_named(text, b"    bool ", name.bytes(), b";\n")
}

// A latch gets its first value.
pub fn put_first(text: &mut Vec<u8>, j: usize, latch: Latch) -> Result<(), NoMemory>
    ensures { OnOk result (text.new.items ≡ text.old.items ++ first_line (net_state j latch)) }
{
    put_number(text, b"    self->state", j)?;
    if latch.init {
        put(text, b" = true;\n")
    } else {
        put(text, b" = false;\n")
    }
}

// A gate is computed.
pub fn put_gate(text: &mut Vec<u8>, net: &Net, k: usize, gate: Gate) -> Result<(), NoMemory>
    requires { operand_end gate.op ≤ net_count (netlist_of net.now) }
    ensures { OnOk result (text.new.items ≡ text.old.items
        ++ local_line (gate_local (netlist_of net.now) k gate)) }
{
    put_number(text, b"    const bool g", k)?;
    put(text, b" = ")?;
    put_value(text, net, gate.op)?;
    put(text, b";\n")
}

// What an operator makes of the nets that it reads.
fn put_value(text: &mut Vec<u8>, net: &Net, op: Op) -> Result<(), NoMemory>
    requires { operand_end op ≤ net_count (netlist_of net.now) }
    ensures { OnOk result (text.new.items ≡ text.old.items
        ++ value_text (op_value_of (place_of (netlist_of net.now)) op)) }
{
    match op {
        Op::Const(true) => put(text, b"true"),
        Op::Const(false) => put(text, b"false"),
        Op::Copy(a) => put_place(text, net, a),
        Op::Not(a) => {
            put(text, b"!")?;
            put_place(text, net, a)
        }
        Op::And(a, b) => put_pair(text, net, a, b" & ", b),
        Op::Or(a, b) => put_pair(text, net, a, b" | ", b),
    }
}

// Two nets with a mark between them.
fn put_pair(text: &mut Vec<u8>, net: &Net, a: NetId, mark: &[u8], b: NetId) -> Result<(), NoMemory>
    requires first { a.0 < net_count (netlist_of net.now) }
    requires second { b.0 < net_count (netlist_of net.now) }
    ensures { OnOk result (text.new.items ≡ text.old.items
        ++ (written_place (place_of (netlist_of net.now) a.0)
        ++ (mark.now ++ written_place (place_of (netlist_of net.now) b.0)))) }
{
    put_place(text, net, a)?;
    put(text, mark)?;
    put_place(text, net, b)
}

// The place of a net.
fn put_place(text: &mut Vec<u8>, net: &Net, from: NetId) -> Result<(), NoMemory>
    requires { from.0 < net_count (netlist_of net.now) }
    ensures { OnOk result (text.new.items ≡ text.old.items ++ written_place (place_of (netlist_of net.now) from.0)) }
{
    match driver_of(net, from) {
        Driver::Input(j) => {
            put(text, b"in->")?;
            put(text, net.inputs[j].bytes())
        }
        Driver::Latch(j) => put_number(text, b"self->state", j),
        Driver::Gate(k) => put_number(text, b"g", k),
    }
}

// The next value of a latch is computed.
pub fn put_next(text: &mut Vec<u8>, net: &Net, j: usize, latch: Latch) -> Result<(), NoMemory>
    requires { latch.from.0 < net_count (netlist_of net.now) }
    ensures { OnOk result (text.new.items ≡ text.old.items
        ++ local_line (next_local (netlist_of net.now) j latch)) }
{
    put_number(text, b"    const bool next", j)?;
    put(text, b" = ")?;
    put_place(text, net, latch.from)?;
    put(text, b";\n")
}

// Whether the program is still active.
pub fn put_running(text: &mut Vec<u8>, net: &Net) -> Result<(), NoMemory>
    ensures { OnOk result (text.new.items ≡ text.old.items
        ++ local_line (running_local (netlist_of net.now))) }
{
    put(text, b"    const bool running = ")?;
    put_place(text, net, net.paused)?;
    put(text, b";\n")
}

// An output gets its value.
pub fn put_shown(text: &mut Vec<u8>, net: &Net, output: &NetOut) -> Result<(), NoMemory>
    requires { output.now.net.0 < net_count (netlist_of net.now) }
    ensures { OnOk result (text.new.items ≡ text.old.items
        ++ store_line out_word (output_store (netlist_of net.now) output.now)) }
{
    put_named(text, b"    out->", output.name.bytes(), b" = ")?;
    put_place(text, net, output.net)?;
    put(text, b";\n")
}

// A latch gets its next value.
pub fn put_kept(text: &mut Vec<u8>, j: usize, latch: Latch) -> Result<(), NoMemory>
    ensures { OnOk result (text.new.items ≡ text.old.items ++ store_line self_word (state_store j latch)) }
{
    put_number(text, b"    self->state", j)?;
    put_number(text, b" = next", j)?;
    put(text, b";\n")
}
