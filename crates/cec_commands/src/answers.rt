// What is reported of a source's graph.

ghost use Rattle.std.specs.Prelude.{◌≡◌, ◌≤◌, length, Ok, IfOk, IfErr, option_map};
ghost use Rattle.est_kernel.specs.Plain.{program_of};
ghost use Rattle.cec_commands.specs.Answers.{StandsForListing, StandsForCounts, counts_line};
ghost use Rattle.cec_compile.specs.Compiling.{IsGraphed};
ghost use Rattle.cec_compile.specs.Refusals.{IsRefused};

use base_types::{Limits, NoMemory};
use cec_compile::{Graphed, Refusal, source_graph};
use cec_text_io::joined;
use est_kernel::size;
use grc_list::list;
use itoa::Buffer;
use std::alloc::Global;

/// The listing of a source's graph.
pub(crate) fn listing(alloc: Global, source: &[u8], main: Option<&[u8]>) -> Result<Vec<u8>, Refusal>
    requires { length source.now ≤ Limits.SOURCE_BYTES }
    ensures text { IfOk result (λ text. StandsForListing source.now (option_map (λ m. m.now) main.entry) text.items) }
    ensures refuses { IfErr result (IsRefused source.now (option_map (λ m. m.now) main.entry)) }
{
    match source_graph(alloc, source, main) {
        Ok(found) => text_made(list(alloc, &found.graph)),
        Err(refusal) => Err(refusal),
    }
}

/// A text that is made of a source once the source is not refused: what is left to refuse is memory.
pub(crate) fn text_made(text: Result<Vec<u8>, NoMemory>) -> Result<Vec<u8>, Refusal>
    ensures text { IfOk result (λ made. text ≡ Ok made) }
    ensures refuses { IfErr result (λ refusal. refusal ≡ Refusal.NoMemory) }
{
    match text {
        Ok(text) => Ok(text),
        Err(NoMemory) => Err(Refusal::NoMemory),
    }
}

/// A line of counts of a source's graph.
pub(crate) fn counts(alloc: Global, source: &[u8], main: Option<&[u8]>) -> Result<Vec<u8>, Refusal>
    requires { length source.now ≤ Limits.SOURCE_BYTES }
    ensures text { IfOk result (λ text. StandsForCounts source.now (option_map (λ m. m.now) main.entry) text.items) }
    ensures refuses { IfErr result (IsRefused source.now (option_map (λ m. m.now) main.entry)) }
{
    match source_graph(alloc, source, main) {
        Ok(found) => text_made(counts_line(alloc, &found)),
        Err(refusal) => Err(refusal),
    }
}

// The line of counts of a graph.
fn counts_line(alloc: Global, found: &Graphed) -> Result<Vec<u8>, NoMemory>
    requires { IsGraphed found.now (program_of found.now.graph.program) }
    ensures { IfOk result (λ text. text.items ≡ counts_line (program_of found.now.graph.program)) }
{
    let program = &found.graph.program;
    let mut nodes = Buffer::new();
    let mut pauses = Buffer::new();
    let mut instances = Buffer::new();
    let mut wires = Buffer::new();
    let text = joined(
        alloc,
        &[
            program.name.bytes(),
            b": ",
            nodes.format(size(&program.body)).as_bytes(),
            b" nodes, ",
            pauses.format(found.graph.tree.leaves).as_bytes(),
            b" pauses, ",
            instances
                .format(found.graph.instances.list.len())
                .as_bytes(),
            b" instances, ",
            wires.format(found.graph.wires.len()).as_bytes(),
            b" wires\n",
        ],
    )?;
    Ok(text)
}
