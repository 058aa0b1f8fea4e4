// What is reported of a text's circuit, or of a source's, and of its optimized one.

ghost use Rattle.std.specs.Prelude.{◌≡◌, ◌≤◌, ◌++◌, length, map, IfErr, IfOk, option_map};
ghost use Rattle.base_types.specs.Stops.{IfFault};
ghost use Rattle.est_kernel.specs.Plain.{Program};
ghost use Rattle.net_ir.specs.Netlists.{Netlist};
ghost use Rattle.net_ir.specs.Runs.{netlist_of};
ghost use Rattle.cec_compile.specs.Compiling.{IsCompiled};
ghost use Rattle.cec_compile.specs.Following.{FollowsGraph};
ghost use Rattle.cec_compile.specs.Graphs.{IsRefusedGraph};
ghost use Rattle.cec_compile.specs.Refusals.{IsRefused};
ghost use Rattle.cec_cycles.specs.Constructive.{HasCycle, IsRefusedConstructive};
ghost use Rattle.cec_opt_sources.specs.LightNets.{IsLightOf};
ghost use Rattle.cec_opt_texts.specs.Faults.{IsGivenFault, IsNoInput};
ghost use Rattle.cec_opt_texts.specs.Related.{named_relation, numbered_relations};
ghost use Rattle.cec_opt_commands.specs.Answers.{TellsAny, TellsNets, TellsSource, TellsText};
ghost use Rattle.cec_opt_commands.specs.Answers.{IsCyclicLines, constructive_lines, counts_line};

use crate::depths::depth_of;
use base_types::{Limits, NoMemory, Stop};
use blif_read::BlifFault;
use cec_compile::{Compiled, Cycle, Refusal, compile};
use cec_cycles::{CycleRefusal, cyclic_net, source_cycles};
use cec_opt_sources::light_of;
use cec_opt_texts::{GivenRelation, optimized_under, text_net};
use cec_text_io::joined;
use grc_cycles::CycleCounts;
use grc_order::First;
use itoa::Buffer;
use net_ir::Net;
use std::alloc::Global;

/// A line of counts of a text's circuit, and one of what it becomes where its inputs meet the relations.
pub(crate) fn text_counts(
    alloc: Global,
    text: &[u8],
    given: &[GivenRelation<'_>],
) -> Result<Vec<u8>, Stop<BlifFault>>
    requires { length text.now ≤ Limits.TEXT_BYTES }
    ensures lines { IfOk result (λ lines. TellsText text.now (map named_relation given.now) lines.items) }
    ensures fault { IfFault result (IsGivenFault text.now (map named_relation given.now)) }
{
    match text_net(alloc, text) {
        Ok(net) => both_lines(alloc, &net, given),
        Err(stop) => Err(stop),
    }
}

// The same of a netlist.
fn both_lines(
    alloc: Global,
    net: &Net,
    given: &[GivenRelation<'_>],
) -> Result<Vec<u8>, Stop<BlifFault>>
    ensures lines { IfOk result
        (λ lines. TellsNets (map named_relation given.now) (netlist_of net.now) lines.items) }
    ensures fault { IfFault result
        (IsNoInput (numbered_relations (netlist_of net.now).inputs (map named_relation given.now))) }
{
    match optimized_under(alloc, net, given) {
        Ok(small) => Ok(two_lines(alloc, net, &small)?),
        Err(stop) => Err(stop),
    }
}

// The lines of two netlists.
fn two_lines(alloc: Global, net: &Net, small: &Net) -> Result<Vec<u8>, NoMemory>
    ensures { IfOk result
        (λ lines. lines.items ≡ counts_line (netlist_of net.now) ++ counts_line (netlist_of small.now)) }
{
    let before = counts_line(alloc, net)?;
    let after = counts_line(alloc, small)?;
    let lines = joined(alloc, &[&before, &after])?;
    Ok(lines)
}

/// A line of counts of the netlist of a compiled source, and one of what it becomes.
pub(crate) fn source_counts(
    alloc: Global,
    source: &[u8],
    main: Option<&[u8]>,
) -> Result<Vec<u8>, Refusal>
    requires { length source.now ≤ Limits.SOURCE_BYTES }
    ensures lines { IfOk result (λ lines. TellsSource source.now (option_map (λ m. m.now) main.entry) lines.items) }
    ensures refuses { IfErr result (IsRefused source.now (option_map (λ m. m.now) main.entry)) }
{
    let compiled = compile(alloc, source, main, &mut First)?;
    let lines = light_lines(alloc, compiled)?;
    Ok(lines)
}

/// The same of a source whose dependencies may have a cycle. Where they have one, the first line says that the program
/// is constructive, and the second has the counts of its netlist.
pub(crate) fn all_counts(
    alloc: Global,
    source: &[u8],
    main: Option<&[u8]>,
    effort: u64,
) -> Result<Vec<u8>, CycleRefusal>
    requires { length source.now ≤ Limits.SOURCE_BYTES }
    ensures lines { IfOk result (λ lines. TellsAny source.now (option_map (λ m. m.now) main.entry) lines.items) }
    ensures refuses { IfErr result (IsRefusedConstructive source.now (option_map (λ m. m.now) main.entry)) }
{
    match source_counts(alloc, source, main) {
        Ok(lines) => Ok(lines),
        Err(Refusal::Cyclic(cycle)) => cyclic_counts(alloc, source, main, cycle, effort),
        Err(Refusal::Static(fault)) => Err(CycleRefusal::Source(Refusal::Static(fault))),
        Err(Refusal::Limit(limit)) => Err(CycleRefusal::Source(Refusal::Limit(limit))),
        Err(Refusal::NoMemory) => Err(CycleRefusal::Source(Refusal::NoMemory)),
    }
}

// The lines of a constructive source whose dependencies have a cycle.
fn cyclic_counts(
    alloc: Global,
    source: &[u8],
    main: Option<&[u8]>,
    cycle: Cycle,
    effort: u64,
) -> Result<Vec<u8>, CycleRefusal>
    requires short { length source.now ≤ Limits.SOURCE_BYTES }
    requires cyclic { HasCycle source.now (option_map (λ m. m.now) main) cycle }
    ensures lines { IfOk result (λ lines. TellsAny source.now (option_map (λ m. m.now) main.entry) lines.items) }
    ensures refuses { IfErr result (IsRefusedConstructive source.now (option_map (λ m. m.now) main.entry)) }
{
    let net = cyclic_net(alloc, source, main, cycle, effort)?;
    match cyclic_lines(alloc, source, main, &net) {
        Ok(lines) => Ok(lines),
        Err(refusal) => Err(CycleRefusal::Source(refusal)),
    }
}

// The lines of the netlist of a constructive source with a cycle.
fn cyclic_lines(
    alloc: Global,
    source: &[u8],
    main: Option<&[u8]>,
    net: &Net,
) -> Result<Vec<u8>, Refusal>
    requires { length source.now ≤ Limits.SOURCE_BYTES }
    ensures lines { IfOk result (λ lines. IsCyclicLines source.now (option_map (λ m. m.now) main.entry)
        (netlist_of net.now) lines.items) }
    ensures refuses { IfErr result (IsRefusedGraph source.now (option_map (λ m. m.now) main.entry)) }
{
    let counts = source_cycles(alloc, source, main)?;
    let lines = constructive_lines(alloc, counts, net)?;
    Ok(lines)
}

// The same with what is counted.
fn constructive_lines(alloc: Global, counts: CycleCounts, net: &Net) -> Result<Vec<u8>, NoMemory>
    ensures { IfOk result (λ lines. lines.items
        ≡ constructive_lines counts.components counts.cuts (netlist_of net.now)) }
{
    let line = counts_line(alloc, net)?;
    let mut components = Buffer::new();
    let mut cuts = Buffer::new();
    let lines = joined(
        alloc,
        &[
            net.name.bytes(),
            b": constructive, ",
            components.format(counts.components).as_bytes(),
            b" components, ",
            cuts.format(counts.cuts).as_bytes(),
            b" cuts\n",
            &line,
        ],
    )?;
    Ok(lines)
}

// The same of a compiled source.
fn light_lines(alloc: Global, compiled: Compiled) -> Result<Vec<u8>, NoMemory>
    requires stands { (p : Program) × IsCompiled compiled p }
    requires follows { FollowsGraph compiled }
    ensures { IfOk result (λ lines. (p : Program) → IsCompiled compiled p → (net : Netlist) × IsLightOf compiled p net
        × (lines.items ≡ counts_line (netlist_of compiled.net) ++ counts_line net)) }
{
    let before = counts_line(alloc, &compiled.net)?;
    let after = light_line(alloc, compiled)?;
    let lines = joined(alloc, &[&before, &after])?;
    Ok(lines)
}

// The line of counts of what a compiled source becomes.
fn light_line(alloc: Global, compiled: Compiled) -> Result<Vec<u8>, NoMemory>
    requires stands { (p : Program) × IsCompiled compiled p }
    requires follows { FollowsGraph compiled }
    ensures { IfOk result (λ line. (p : Program) → IsCompiled compiled p
        → (net : Netlist) × IsLightOf compiled p net × (line.items ≡ counts_line net)) }
{
    let net = light_of(alloc, compiled)?;
    let line = counts_line(alloc, &net)?;
    Ok(line)
}

// The line of counts of a netlist. Its outputs are those of its texts, so `_paused` is one of them.
fn counts_line(alloc: Global, net: &Net) -> Result<Vec<u8>, NoMemory>
    ensures { IfOk result (λ line. line.items ≡ counts_line (netlist_of net.now)) }
{
    let depth = depth_of(alloc, net)?;
    let mut inputs = Buffer::new();
    let mut outputs = Buffer::new();
    let mut latches = Buffer::new();
    let mut gates = Buffer::new();
    let mut shown = Buffer::new();
    let line = joined(
        alloc,
        &[
            net.name.bytes(),
            b": ",
            inputs.format(net.inputs.len()).as_bytes(),
            b" inputs, ",
            outputs.format(net.outputs.len() + 1).as_bytes(),
            b" outputs, ",
            latches.format(net.latches.len()).as_bytes(),
            b" latches, ",
            gates.format(net.gates.len()).as_bytes(),
            b" gates, depth ",
            shown.format(depth).as_bytes(),
            b"\n",
        ],
    )?;
    Ok(line)
}
