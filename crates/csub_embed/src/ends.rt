// What is between the lists of an embedded text. Running out of memory is the only error.

ghost use Rattle.std.specs.Prelude.{◌≡◌, [], ◌++◌, codes, flat_map, OnOk, if◌then◌else◌};
ghost use Rattle.net_ir.specs.Runs.{netlist_of};
ghost use Rattle.csub_embed.specs.Parts.{first_text, states_end, inputs_end, outputs_end, reset_text, react_text};
ghost use Rattle.csub_embed.specs.Parts.{unread_line, unshown_line};
ghost use Rattle.csub_embed.specs.Texts.{first_lines, include_line, shared_lines, lines_before, lines_after};
ghost use Rattle.csub_embed.specs.Trees.{Local};
ghost use Rattle.csub_embed.specs.Written.{reads_input as reads_input_of, comment, open_text, react_head, reset_head};
ghost use Rattle.csub_embed.specs.Written.{ignored_line, net_ignored, untouched_line, body_start};
ghost use Rattle.csub_embed.specs.Written.{linkage_text, prototype_text, return_lines, running_word};

use crate::layout::EmbedFile;
use base_types::{NoMemory, put};
use net_ir::Net;
use net_writer::put_named;

// All before the structures, or before the functions.
pub fn put_first_text(text: &mut Vec<u8>, file: EmbedFile, name: &[u8]) -> Result<(), NoMemory>
    ensures { OnOk result (text.new.items ≡ text.old.items ++ first_text file name.now) }
{
    put_lines_before(text, file, name)?;
    put_comment(text, name)
}

// The comment about the text.
fn put_comment(text: &mut Vec<u8>, name: &[u8]) -> Result<(), NoMemory>
    ensures { OnOk result (text.new.items ≡ text.old.items ++ comment name.now) }
{
    put_named(
        text,
        b"\n/* ",
        name,
        b", by cec-opt 0.1.0: cec-opt c --embed. Any number of instances.
 * Reset an instance before its first call of react; react returns whether it is still running. */
",
    )
}

// The lines for the preprocessor before the text.
fn put_lines_before(text: &mut Vec<u8>, file: EmbedFile, name: &[u8]) -> Result<(), NoMemory>
    ensures { OnOk result (text.new.items ≡ text.old.items ++ lines_before file name.now) }
{
    match file {
        EmbedFile::Header => put_first_lines(text, name),
        EmbedFile::Declarations => put_shared_lines(text, name),
        EmbedFile::Definitions => put_named(text, b"#include \"", name, b".h\"\n"),
    }
}

fn put_first_lines(text: &mut Vec<u8>, name: &[u8]) -> Result<(), NoMemory>
    ensures { OnOk result (text.new.items ≡ text.old.items ++ first_lines name.now) }
{
    put_named(text, b"#ifndef ", name, b"_H\n#define ")?;
    put(text, name)?;
    put(text, b"_H\n\n#include <stdbool.h>\n#include <stdint.h>\n")
}

fn put_shared_lines(text: &mut Vec<u8>, name: &[u8]) -> Result<(), NoMemory>
    ensures { OnOk result (text.new.items ≡ text.old.items ++ (first_lines name.now ++ shared_lines)) }
{
    put_first_lines(text, name)?;
    put(text, b"\n#ifdef __cplusplus\nextern \"C\" {\n#endif\n")
}

// The lines for the preprocessor after the text.
pub fn put_lines_after(text: &mut Vec<u8>, file: EmbedFile) -> Result<(), NoMemory>
    ensures { OnOk result (text.new.items ≡ text.old.items ++ lines_after file) }
{
    match file {
        EmbedFile::Header => put(text, b"\n#endif\n"),
        EmbedFile::Declarations => put(text, b"\n#ifdef __cplusplus\n}\n#endif\n\n#endif\n"),
        EmbedFile::Definitions => put(text, b""),
    }
}

// How the first structure begins.
pub fn put_open(text: &mut Vec<u8>) -> Result<(), NoMemory>
    ensures { OnOk result (text.new.items ≡ text.old.items ++ open_text) }
{
    put(text, b"\ntypedef struct {\n")
}

// The end of the state.
pub fn put_states_end(text: &mut Vec<u8>, net: &Net) -> Result<(), NoMemory>
    ensures { OnOk result (text.new.items ≡ text.old.items ++ states_end (netlist_of net.now)) }
{
    put_unused(text, net.latches.is_empty())?;
    put_named(text, b"} ", net.name.bytes(), b"_t;\n\ntypedef struct {\n")
}

// The end of the inputs.
pub fn put_inputs_end(text: &mut Vec<u8>, net: &Net) -> Result<(), NoMemory>
    ensures { OnOk result (text.new.items ≡ text.old.items ++ inputs_end (netlist_of net.now)) }
{
    put_unused(text, net.inputs.is_empty())?;
    put_named(
        text,
        b"} ",
        net.name.bytes(),
        b"_inputs_t;\n\ntypedef struct {\n",
    )
}

// The end of the outputs.
pub fn put_outputs_end(text: &mut Vec<u8>, net: &Net) -> Result<(), NoMemory>
    ensures { OnOk result (text.new.items ≡ text.old.items ++ outputs_end (netlist_of net.now)) }
{
    put_unused(text, net.outputs.is_empty())?;
    put_named(text, b"} ", net.name.bytes(), b"_outputs_t;\n")
}

// The member of a structure that has no others.
fn put_unused(text: &mut Vec<u8>, is_empty: bool) -> Result<(), NoMemory>
    ensures { OnOk result (text.new.items ≡ text.old.items
        ++ (if is_empty then codes "    uint8_t unused;\n" else [])) }
{
    if is_empty {
        put(text, b"    uint8_t unused;\n")
    } else {
        Ok(())
    }
}

// The prototypes of the functions.
pub fn put_prototypes(text: &mut Vec<u8>, name: &[u8]) -> Result<(), NoMemory>
    ensures { OnOk result (text.new.items ≡ text.old.items ++ prototype_text name.now) }
{
    put(text, b"\n")?;
    put_reset_head(text, EmbedFile::Declarations, name)?;
    put(text, b";\n")?;
    put_react_head(text, EmbedFile::Declarations, name)?;
    put(text, b";\n")
}

// How the reset begins.
pub fn put_reset_text(text: &mut Vec<u8>, file: EmbedFile, name: &[u8]) -> Result<(), NoMemory>
    ensures { OnOk result (text.new.items ≡ text.old.items ++ reset_text file name.now) }
{
    put(text, b"\n")?;
    put_reset_head(text, file, name)?;
    put(text, b"\n{\n")
}

// The end of the reset, and how the reaction begins.
pub fn put_react_text(
    text: &mut Vec<u8>,
    file: EmbedFile,
    net: &Net,
    reads_input: bool,
) -> Result<(), NoMemory>
    requires { reads_input ≡ reads_input_of (netlist_of net.now) }
    ensures { OnOk result (text.new.items ≡ text.old.items ++ react_text file (netlist_of net.now)) }
{
    put_untouched(text, net)?;
    put_react_start(text, file, net.name.bytes())?;
    put_ignored_lines(text, net, reads_input)
}

fn put_react_start(text: &mut Vec<u8>, file: EmbedFile, name: &[u8]) -> Result<(), NoMemory>
    ensures { OnOk result (text.new.items ≡ text.old.items
        ++ (codes "}\n\n" ++ (react_head file name.now ++ body_start))) }
{
    put(text, b"}\n\n")?;
    put_react_head(text, file, name)?;
    put(text, b"\n{\n")
}

// The parameter of the reset, where it sets nothing.
fn put_untouched(text: &mut Vec<u8>, net: &Net) -> Result<(), NoMemory>
    ensures { OnOk result (text.new.items ≡ text.old.items ++ untouched_line net.now.latches.items) }
{
    put_ignored(text, net.latches.is_empty(), b"    (void)self;\n")
}

// The parameters of the reaction that nothing uses.
fn put_ignored_lines(text: &mut Vec<u8>, net: &Net, reads_input: bool) -> Result<(), NoMemory>
    requires { reads_input ≡ reads_input_of (netlist_of net.now) }
    ensures { OnOk result (text.new.items ≡ text.old.items
        ++ flat_map ignored_line (net_ignored (netlist_of net.now))) }
{
    put_untouched(text, net)?;
    put_unread(text, reads_input)?;
    put_unshown(text, net)
}

// The inputs, where nothing reads one.
fn put_unread(text: &mut Vec<u8>, reads_input: bool) -> Result<(), NoMemory>
    ensures { OnOk result (text.new.items ≡ text.old.items ++ unread_line reads_input) }
{
    if reads_input {
        Ok(())
    } else {
        put(text, b"    (void)in;\n")
    }
}

// The outputs, where there are none.
fn put_unshown(text: &mut Vec<u8>, net: &Net) -> Result<(), NoMemory>
    ensures { OnOk result (text.new.items ≡ text.old.items ++ unshown_line net.now.outputs.items) }
{
    put_ignored(text, net.outputs.is_empty(), b"    (void)out;\n")
}

// The functions of a header are static and inline.
fn linkage(file: EmbedFile) -> &'static [u8]
    ensures { result.now ≡ linkage_text file }
{
    match file {
        EmbedFile::Header => b"static inline ",
        EmbedFile::Declarations | EmbedFile::Definitions => b"",
    }
}

// The reset, without its end.
fn put_reset_head(text: &mut Vec<u8>, file: EmbedFile, name: &[u8]) -> Result<(), NoMemory>
    ensures { OnOk result (text.new.items ≡ text.old.items ++ reset_head file name.now) }
{
    put(text, linkage(file))?;
    put_named(text, b"void ", name, b"_reset(")?;
    put_named(text, name, b"_t", b" *self)")
}

// The reaction, without its end.
fn put_react_head(text: &mut Vec<u8>, file: EmbedFile, name: &[u8]) -> Result<(), NoMemory>
    ensures { OnOk result (text.new.items ≡ text.old.items ++ react_head file name.now) }
{
    put(text, linkage(file))?;
    put_named(text, b"bool ", name, b"_react(")?;
    put_named(text, name, b"_t *self, const ", name)?;
    put_named(text, b"_inputs_t *in, ", name, b"_outputs_t *out)")
}

// A line, where there is nothing to use.
fn put_ignored(text: &mut Vec<u8>, is_unused: bool, line: &[u8]) -> Result<(), NoMemory>
    ensures { OnOk result (text.new.items ≡ text.old.items ++ (if is_unused then line.now else [])) }
{
    if is_unused { put(text, line) } else { Ok(()) }
}

// What the reaction returns.
pub fn put_return(text: &mut Vec<u8>) -> Result<(), NoMemory>
    ensures { OnOk result (text.new.items ≡ text.old.items ++ return_lines (Local running_word)) }
{
    put(text, b"    return running;\n}\n")
}
