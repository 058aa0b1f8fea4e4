// The netlist of a source that a text of a form is written of.

ghost use Rattle.std.specs.Prelude.{◌≡◌, ◌+◌, ◌*◌, ◌≤◌, ◌^◌, true, false, ◌∷◌, length, replicate, IfOk, IfErr};
ghost use Rattle.std.specs.Prelude.{option_map};
ghost use Rattle.est_kernel.specs.Plain.{Program, program_of};
ghost use Rattle.est_kernel.specs.Terms.{Term};
ghost use Rattle.net_ir.specs.Runs.{netlist_of, initial_latches};
ghost use Rattle.net_simp.specs.SimpleNets.{IsSimple};
ghost use Rattle.net_state_enc.specs.Encodings.{IsTreeOf, Encodes};
ghost use Rattle.cec_compile.specs.Compiling.{IsCompiled, StandsForNet};
ghost use Rattle.cec_compile.specs.Following.{FollowsGraph};
ghost use Rattle.cec_compile.specs.MadeNets.{IsMade, IsNetIn, IsSharedIn};
ghost use Rattle.cec_compile.specs.Refusals.{IsRefused};
ghost use Rattle.cec_compile.specs.WireGroups.{is_shared};

use crate::forms::TextForm;
use crate::passes::{Compiled, compile, compile_unshared};
use crate::refusal::Refusal;
use base_types::{Limits, NoMemory, Stop};
use est_kernel::KernelProgram;
use grc_graph::{Graph, SelTree};
use grc_order::Picker;
use net_ir::Net;
use net_simp::simplify;
use net_state_enc::encode;
use std::alloc::Global;

/// A kernel program, and the netlist that its text is written of.
#[derive(Drop)]
pub struct Made {
    pub program: KernelProgram,
    pub net: Net,
}

/// What a text of a form is written of, of a source. The errors are those of `blif_of`.
pub fn source_made<P: Picker>(
    alloc: Global,
    form: TextForm,
    source: &[u8],
    main: Option<&[u8]>,
    picker: &mut P,
) -> Result<Made, Refusal>
    requires { length source.now ≤ Limits.SOURCE_BYTES }
    ensures made { IfOk result (IsMade form source.now (option_map (λ m. m.now) main.entry)) }
    ensures refuses { IfErr result (IsRefused source.now (option_map (λ m. m.now) main.entry)) }
{
    let compiled = compiled_for(alloc, form, source, main, picker)?;
    let made = made_in(alloc, form, compiled)?;
    Ok(made)
}

// A source compiled for a text of a form. The blocks of a guarded text come from the program's own graph, so its wires
// are not shared.
fn compiled_for<P: Picker>(
    alloc: Global,
    form: TextForm,
    source: &[u8],
    main: Option<&[u8]>,
    picker: &mut P,
) -> Result<Compiled, Refusal>
    requires { length source.now ≤ Limits.SOURCE_BYTES }
    ensures compiles { IfOk result (StandsForNet source.now (option_map (λ m. m.now) main.entry)) }
    ensures shares { IfOk result (λ c. IsSharedIn form (program_of c.graph.program) (is_shared c.graph)) }
    ensures follows { IfOk result FollowsGraph }
    ensures refuses { IfErr result (IsRefused source.now (option_map (λ m. m.now) main.entry)) }
{
    match form {
        TextForm::Guarded => compile_unshared(alloc, source, main, picker),
        TextForm::Blif | TextForm::EncodedBlif | TextForm::C | TextForm::Verilog => {
            compile(alloc, source, main, picker)
        }
    }
}

/// What a text of a form is written of, of a compiled program.
pub fn made_in(alloc: Global, form: TextForm, compiled: Compiled) -> Result<Made, NoMemory>
    requires stands { (p : Program) × IsCompiled compiled p }
    requires follows { FollowsGraph compiled }
    ensures program { IfOk result (λ made. made.program ≡ compiled.graph.program) }
    ensures net { IfOk result (λ made. (p : Program) → IsCompiled compiled p
        → IsNetIn form compiled p (netlist_of made.net)) }
{
    let Compiled { graph, net, .. } = compiled;
    let Graph { program, tree, .. } = graph;
    match form {
        TextForm::EncodedBlif => {
            let net = encoded_net(alloc, &net, &tree)?;
            Ok(Made { program, net })
        }
        TextForm::Blif | TextForm::C | TextForm::Guarded | TextForm::Verilog => {
            Ok(Made { program, net })
        }
    }
}

// A netlist whose latches hold the state of a program in a code. What reads the code, and what writes it, is simplified
// together with the rest.
fn encoded_net(alloc: Global, net: &Net, tree: &SelTree) -> Result<Net, NoMemory>
    requires tree { (body : Term) × IsTreeOf tree.now body }
    requires latches { initial_latches (netlist_of net.now) ≡ true ∷ replicate tree.now.leaves false }
    requires few { length net.now.inputs.items + length net.now.gates.items ≤ 2 ^ 31 }
    ensures encodes { IfOk result (λ new. (body : Term) → IsTreeOf tree.now body
        → Encodes (netlist_of net.now) (netlist_of new) body) }
    ensures size { IfOk result (λ new. length new.gates.items ≤ length net.now.gates.items
        + 64 * (length tree.now.nodes.items * length new.latches.items)) }
    ensures simple { IfOk result (λ new. IsSimple (netlist_of new)) }
{
    let coded = coded_net(alloc, net, tree)?;
    let made = simplify(alloc, coded)?;
    Ok(made)
}

// The same before it is simplified. The limit on wires keeps the netlist's gates few.
fn coded_net(alloc: Global, net: &Net, tree: &SelTree) -> Result<Net, NoMemory>
    requires tree { (body : Term) × IsTreeOf tree.now body }
    requires latches { initial_latches (netlist_of net.now) ≡ true ∷ replicate tree.now.leaves false }
    requires few { length net.now.inputs.items + length net.now.gates.items ≤ 2 ^ 31 }
    ensures encodes { IfOk result (λ new. (body : Term) → IsTreeOf tree.now body
        → Encodes (netlist_of net.now) (netlist_of new) body) }
    ensures size { IfOk result (λ new. length new.gates.items ≤ length net.now.gates.items
        + 64 * (length tree.now.nodes.items * length new.latches.items)) }
{
    match encode(alloc, net, tree) {
        Ok(coded) => Ok(coded),
        Err(Stop::Fault(_)) => unreachable!(),
        Err(Stop::NoMemory) => Err(NoMemory),
    }
}
