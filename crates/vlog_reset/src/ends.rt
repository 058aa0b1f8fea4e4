// What is between the lists of a text with a reset. Running out of memory is the only error.

ghost use Rattle.std.specs.Prelude.{◌≡◌, ◌++◌, [], codes, OnOk, if◌then◌else◌};
ghost use Rattle.net_ir.specs.Runs.{netlist_of};
ghost use Rattle.vlog_text.specs.Written.{clock_name};
ghost use Rattle.vlog_reset.specs.Grammar.{edge_word, where_some};
ghost use Rattle.vlog_reset.specs.Options.{ModuleOptions};
ghost use Rattle.vlog_reset.specs.Parts.{front_text, reset_head, end_text};
ghost use Rattle.vlog_reset.specs.Texts.{first_line};
ghost use Rattle.vlog_reset.specs.Views.{options_of};
ghost use Rattle.vlog_reset.specs.Written.{module_name, comments, lint_lines, module_head, output_port, ports_end};
ghost use Rattle.vlog_reset.specs.Written.{level_word, time_words, reset_tail, name_tail, clock_lines, edge_text};
ghost use Rattle.vlog_reset.specs.Written.{test_text, else_line, end_line};
ghost use Rattle.vlog_text.specs.Names.{paused_name};

use crate::options::{Manner, ResetOptions};
use crate::writer::put_source;
use base_types::{NoMemory, put};
use net_ir::Net;
use net_writer::put_named;

// The name of the module.
pub fn name_of<'a>(net: &'a Net, options: ResetOptions<'a>) -> &'a [u8]
    ensures { result.now ≡ module_name (options_of options.entry) (netlist_of net.now) }
{
    match options.name {
        Some(name) => name,
        None => net.name.bytes(),
    }
}

// All before the inputs.
pub fn put_front(text: &mut Vec<u8>, net: &Net, options: ResetOptions<'_>) -> Result<(), NoMemory>
    ensures { OnOk result (text.new.items
        ≡ text.old.items ++ front_text (options_of options.entry) (netlist_of net.now)) }
{
    let name = name_of(net, options);
    put(text, b"`default_nettype none\n")?;
    put_comments(text, name, options.reset, options.manner)?;
    put_head(text, name, options.reset)
}

// The comments, those for tools among them.
fn put_comments(
    text: &mut Vec<u8>,
    name: &[u8],
    reset: &[u8],
    manner: Manner,
) -> Result<(), NoMemory>
    ensures { OnOk result (text.new.items
        ≡ text.old.items ++ (comments name.now clock_name reset.now manner ++ lint_lines)) }
{
    put_name_line(text, name)?;
    put_reset_words(text, reset, manner)?;
    put(
        text,
        b"; paused is whether the program is still running.
// verilator lint_off UNUSED
// verilator lint_off SYMRSVDWORD
",
    )
}

// The first comment.
fn put_name_line(text: &mut Vec<u8>, name: &[u8]) -> Result<(), NoMemory>
    ensures { OnOk result (text.new.items
        ≡ text.old.items ++ (codes "// " ++ (name.now ++ (name_tail ++ (clock_name ++ codes ".\n"))))) }
{
    put_named(
        text,
        b"// ",
        name,
        b", by cec-opt 0.1.0: cec-opt verilog --reset. An instant is a rising edge of clk.\n",
    )
}

// What the reset does.
fn put_reset_words(text: &mut Vec<u8>, reset: &[u8], manner: Manner) -> Result<(), NoMemory>
    ensures { OnOk result (text.new.items ≡ text.old.items ++ (codes "// " ++ (reset.now
        ++ (codes " resets it while it is " ++ (level_word manner.is_active_low
        ++ time_words manner.is_asynchronous))))) }
{
    put_named(text, b"// ", reset, b" resets it while it is ")?;
    put_either(text, manner.is_active_low, b"low", b"high")?;
    put_either(
        text,
        manner.is_asynchronous,
        b", at once",
        b" at such an edge",
    )
}

// One of two pieces.
fn put_either(
    text: &mut Vec<u8>,
    is_first: bool,
    first: &[u8],
    second: &[u8],
) -> Result<(), NoMemory>
    ensures { OnOk result (text.new.items ≡ text.old.items ++ (if is_first then first.now else second.now)) }
{
    put(text, if is_first { first } else { second })
}

// The name of the module, the clock and the reset.
fn put_head(text: &mut Vec<u8>, name: &[u8], reset: &[u8]) -> Result<(), NoMemory>
    ensures { OnOk result (text.new.items ≡ text.old.items ++ module_head name.now clock_name reset.now) }
{
    put_named(
        text,
        b"module ",
        name,
        b" (\n    input wire clk,\n    input wire ",
    )?;
    put(text, reset)
}

// The port `paused`, and the end of the ports.
pub fn put_ports_end(text: &mut Vec<u8>) -> Result<(), NoMemory>
    ensures { OnOk result (text.new.items ≡ text.old.items ++ (output_port paused_name ++ ports_end)) }
{
    put(text, b",\n    output wire paused\n);\n")
}

// The assignment of `paused`, and how the registers' part begins.
pub fn put_reset_head(
    text: &mut Vec<u8>,
    net: &Net,
    options: ResetOptions<'_>,
) -> Result<(), NoMemory>
    ensures { OnOk result (text.new.items
        ≡ text.old.items ++ reset_head (options_of options.entry) (netlist_of net.now)) }
{
    put(text, b"    assign paused")?;
    put_source(text, net, net.paused, options)?;
    put_clock_of(text, net, options.reset, options.manner)
}

// The lines that begin the registers' part, where there is one.
fn put_clock_of(text: &mut Vec<u8>, net: &Net, reset: &[u8], manner: Manner) -> Result<(), NoMemory>
    ensures { OnOk result (text.new.items ≡ text.old.items
        ++ where_some net.now.latches.items (clock_lines manner clock_name reset.now)) }
{
    if net.latches.is_empty() {
        Ok(())
    } else {
        put_clock(text, reset, manner)
    }
}

fn put_clock(text: &mut Vec<u8>, reset: &[u8], manner: Manner) -> Result<(), NoMemory>
    ensures { OnOk result (text.new.items ≡ text.old.items ++ clock_lines manner clock_name reset.now) }
{
    put(text, b"    always @(posedge clk")?;
    put_edge(text, reset, manner)?;
    put_test(text, reset, manner)
}

// The edge of an asynchronous reset.
fn put_edge(text: &mut Vec<u8>, reset: &[u8], manner: Manner) -> Result<(), NoMemory>
    ensures { OnOk result (text.new.items ≡ text.old.items ++ edge_text manner reset.now) }
{
    if !manner.is_asynchronous {
        return Ok(());
    }
    put(text, b" or ")?;
    put_either(text, manner.is_active_low, b"negedge", b"posedge")?;
    put(text, b" ")?;
    put(text, reset)
}

// Whether the reset is active.
fn put_test(text: &mut Vec<u8>, reset: &[u8], manner: Manner) -> Result<(), NoMemory>
    ensures { OnOk result (text.new.items ≡ text.old.items
        ++ (codes ")\n        if (" ++ (test_text manner reset.now ++ codes ") begin\n"))) }
{
    put_either(
        text,
        manner.is_active_low,
        b")\n        if (!",
        b")\n        if (",
    )?;
    put(text, reset)?;
    put(text, b") begin\n")
}

// What is between the first values of the registers and their next ones.
pub fn put_else(text: &mut Vec<u8>, net: &Net) -> Result<(), NoMemory>
    ensures { OnOk result (text.new.items ≡ text.old.items ++ where_some net.now.latches.items else_line) }
{
    if net.latches.is_empty() {
        Ok(())
    } else {
        put(text, b"        end else begin\n")
    }
}

// All after the next values of the registers.
pub fn put_end(text: &mut Vec<u8>, net: &Net) -> Result<(), NoMemory>
    ensures { OnOk result (text.new.items ≡ text.old.items ++ end_text (netlist_of net.now)) }
{
    put_end_line(text, net)?;
    put(text, b"endmodule\n\n`default_nettype wire\n")
}

// The end of the registers' part.
fn put_end_line(text: &mut Vec<u8>, net: &Net) -> Result<(), NoMemory>
    ensures { OnOk result (text.new.items ≡ text.old.items ++ where_some net.now.latches.items end_line) }
{
    if net.latches.is_empty() {
        Ok(())
    } else {
        put(text, b"        end\n")
    }
}
