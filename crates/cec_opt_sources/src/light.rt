// The small netlists of a source, and the lighter one of them.

ghost use Rattle.std.specs.Prelude.{◌≡◌, ◌≤◌, length, IfOk, IfErr, option_map};
ghost use Rattle.est_kernel.specs.Plain.{Program, program_of};
ghost use Rattle.net_ir.specs.Runs.{netlist_of};
ghost use Rattle.cec_compile.specs.Compiling.{IsCompiled};
ghost use Rattle.cec_compile.specs.Following.{FollowsGraph};
ghost use Rattle.cec_compile.specs.Refusals.{IsRefused};
ghost use Rattle.cec_opt_sources.specs.LightNets.{IsCodedNetOf, IsEncodedNetOf, IsEncodedSmall, IsLightNetOf};
ghost use Rattle.cec_opt_sources.specs.LightNets.{IsLightOf, IsSmall, lighter, weight};
ghost use Rattle.cec_opt_sources.specs.SmallTexts.{StandsForSmallNet};

use base_types::{Limits, NoMemory};
use cec_compile::{Compiled, Refusal, TextForm, compile, made_in};
use est_kernel::KernelProgram;
use grc_order::Picker;
use net_ir::Net;
use net_relations::optimize_under;
use std::alloc::Global;

/// How many gates a latch weighs as much as.
pub const LATCH_WEIGHT: usize = 4;

/// Which of the two small netlists of a source is taken.
#[derive(Clone, Copy)]
pub enum Coding {
    /// The lighter one. A netlist weighs its gates and four times its latches; where both weigh the same, it is the
    /// plain one.
    Lighter,
    /// The one whose latches hold the state in a code.
    Encoded,
}

/// One of the two small netlists of a source: its netlist, optimized, or the netlist whose latches hold the state in a
/// code, optimized (`IsCodedNetOf`). Both are optimized for events that meet the source's relations. It keeps what the
/// source's program means (`NetKeeps`). It refuses what `compile` refuses.
pub fn coded_net<P: Picker>(
    alloc: Global,
    text: &[u8],
    main: Option<&[u8]>,
    picker: &mut P,
    coding: Coding,
) -> Result<Net, Refusal>
    requires { length text.now ≤ Limits.SOURCE_BYTES }
    ensures compiles { IfOk result (λ net. StandsForSmallNet text.now
        (option_map (λ m. m.now) main.entry) (netlist_of net)) }
    ensures coded { IfOk result (λ net. IsCodedNetOf coding text.now
        (option_map (λ m. m.now) main.entry) (netlist_of net)) }
    ensures refuses { IfErr result (IsRefused text.now (option_map (λ m. m.now) main.entry)) }
{
    match coding {
        Coding::Lighter => light_net(alloc, text, main, picker),
        Coding::Encoded => encoded_net(alloc, text, main, picker),
    }
}

// The lighter one of the two (`IsLightOf`).
fn light_net<P: Picker>(
    alloc: Global,
    text: &[u8],
    main: Option<&[u8]>,
    picker: &mut P,
) -> Result<Net, Refusal>
    requires { length text.now ≤ Limits.SOURCE_BYTES }
    ensures compiles { IfOk result (λ net. StandsForSmallNet text.now
        (option_map (λ m. m.now) main.entry) (netlist_of net)) }
    ensures light { IfOk result (λ net. IsLightNetOf text.now
        (option_map (λ m. m.now) main.entry) (netlist_of net)) }
    ensures refuses { IfErr result (IsRefused text.now (option_map (λ m. m.now) main.entry)) }
{
    let compiled = compile(alloc, text, main, picker)?;
    let net = light_of(alloc, compiled)?;
    Ok(net)
}

// The one whose latches hold the state in a code.
fn encoded_net<P: Picker>(
    alloc: Global,
    text: &[u8],
    main: Option<&[u8]>,
    picker: &mut P,
) -> Result<Net, Refusal>
    requires { length text.now ≤ Limits.SOURCE_BYTES }
    ensures compiles { IfOk result (λ net. StandsForSmallNet text.now
        (option_map (λ m. m.now) main.entry) (netlist_of net)) }
    ensures encoded { IfOk result (λ net. IsEncodedNetOf text.now
        (option_map (λ m. m.now) main.entry) (netlist_of net)) }
    ensures refuses { IfErr result (IsRefused text.now (option_map (λ m. m.now) main.entry)) }
{
    let compiled = compile(alloc, text, main, picker)?;
    let net = encoded_small(alloc, compiled)?;
    Ok(net)
}

/// The lighter one of the two small netlists of a compiled source.
pub fn light_of(alloc: Global, compiled: Compiled) -> Result<Net, NoMemory>
    requires stands { (p : Program) × IsCompiled compiled p }
    requires follows { FollowsGraph compiled }
    ensures { IfOk result (λ net. (p : Program) → IsCompiled compiled p → IsLightOf compiled p (netlist_of net)) }
{
    let plain = plain_small(alloc, &compiled)?;
    let encoded = encoded_small(alloc, compiled)?;
    Ok(lighter(plain, encoded))
}

// The netlist of a compiled source, optimized.
fn plain_small(alloc: Global, compiled: &Compiled) -> Result<Net, NoMemory>
    ensures { IfOk result (λ net. IsSmall (program_of compiled.now.graph.program).relations
        (netlist_of compiled.now.net) (netlist_of net)) }
{
    related_small(alloc, &compiled.graph.program, &compiled.net)
}

/// A netlist, optimized over events that meet the relations of a program (`IsSmall`). The only error is out of memory.
pub fn related_small(alloc: Global, program: &KernelProgram, net: &Net) -> Result<Net, NoMemory>
    ensures { IfOk result (λ new. IsSmall (program_of program.now).relations
        (netlist_of net.now) (netlist_of new)) }
{
    optimize_under(alloc, net, &program.relations)
}

// The netlist of a compiled source whose latches hold the state in a code, optimized.
fn encoded_small(alloc: Global, compiled: Compiled) -> Result<Net, NoMemory>
    requires stands { (p : Program) × IsCompiled compiled p }
    requires follows { FollowsGraph compiled }
    ensures { IfOk result (λ net. (p : Program) → IsCompiled compiled p → IsEncodedSmall compiled p (netlist_of net)) }
{
    let made = made_in(alloc, TextForm::EncodedBlif, compiled)?;
    let net = related_small(alloc, &made.program, &made.net)?;
    Ok(net)
}

// The lighter one of two netlists, the first one where they weigh the same.
fn lighter(plain: Net, encoded: Net) -> Net
    ensures { netlist_of result ≡ lighter (netlist_of plain) (netlist_of encoded) }
{
    if weight(&encoded) < weight(&plain) {
        encoded
    } else {
        plain
    }
}

// The weight of a netlist: its gates, and each latch as much as four of them.
fn weight(net: &Net) -> usize
    ensures { result ≡ weight (netlist_of net.now) }
{
    net.gates.len() + LATCH_WEIGHT * net.latches.len()
}
