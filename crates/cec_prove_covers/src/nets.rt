// Covered programs, and netlists of them.

ghost use Rattle.std.specs.Prelude.{◌≡◌, ◌+◌, ◌≤◌, IfOk, IfSome, length, map, take};
ghost use Rattle.est_ast.specs.FlatTrees.{Flat as PlainFlat};
ghost use Rattle.base_types.specs.declared.bounds.TheConstants.Limits.{SIGNALS};
ghost use Rattle.est_ast.specs.FlatPrograms.{IsFlat, IsNamed};
ghost use Rattle.est_ast.specs.FlatViews.{flat_of};
ghost use Rattle.est_ast.specs.NewSignals.{new_in};
ghost use Rattle.est_cover.specs.Covered.{covered, visible_count};
ghost use Rattle.est_cover.specs.NewNames.{AreNew};
ghost use Rattle.est_kernel.specs.CodeLists.{AreCodesOf};
ghost use Rattle.est_kernel.specs.Plain.{Program as PlainProgram, program_of, term_of};
ghost use Rattle.est_kernel.specs.StaticCodes.{NoInstantLoop};
ghost use Rattle.est_kernel.specs.WellFormed.{HasNames, IsWellFormed};
ghost use Rattle.cec_compile.specs.Compiling.{IsCompiled};
ghost use Rattle.cec_prove_covers.specs.Stages.{IsAnalysedCover, IsCoveredNet, IsCoveredProgram};

use crate::cycles::constructive_net;
use base_types::{Limits, NoMemory, SignalInfo, Stop};
use cec_compile::{Compiled, Made, Refusal, compile_program};
use est_ast::Flat;
use est_codes::{CodeFault, codes};
use est_cover::{cover_program, is_named};
use est_dismantle::dismantle;
use est_front::Analysed;
use est_kernel::KernelProgram;
use grc_graph::Graph;
use grc_order::Picker;
use net_opt::optimize;
use std::alloc::Global;

/// The program of a flat program with new outgoing signals of these names for the points from this one on, and its
/// netlist. None where that program passes a limit, or where its dependencies have a cycle and it was not shown within
/// the effort that it is constructive.
pub(crate) fn covered_net<P: Picker>(
    alloc: Global,
    flat: &Flat,
    first: usize,
    names: &[SignalInfo],
    picker: &mut P,
    effort: u64,
) -> Result<Option<Made>, NoMemory>
    requires flat { IsFlat (flat_of flat.now) }
    requires room { length flat.now.signals.items + length names.now ≤ 4096 }
    requires new { AreNew (take (visible_count (flat_of flat.now)) (flat_of flat.now).signals)
        (map (λ s. s.name) names.now) }
    ensures { IfOk result (λ o. IfSome o (IsCoveredNet
        (covered (flat_of flat.now) first (map (λ s. s.name) names.now)))) }
{
    if !is_named(flat) {
        return Ok(None);
    }
    match acyclic_net(alloc, flat, first, names, picker)? {
        None => cyclic_net(alloc, flat, first, names, effort),
        Some(net) => Ok(Some(net)),
    }
}

// The same where the dependencies have no cycle, else None.
fn acyclic_net<P: Picker>(
    alloc: Global,
    flat: &Flat,
    first: usize,
    names: &[SignalInfo],
    picker: &mut P,
) -> Result<Option<Made>, NoMemory>
    requires flat { IsFlat (flat_of flat.now) }
    requires named { IsNamed (flat_of flat.now) }
    requires room { length flat.now.signals.items + length names.now ≤ 4096 }
    requires new { AreNew (take (visible_count (flat_of flat.now)) (flat_of flat.now).signals)
        (map (λ s. s.name) names.now) }
    ensures { IfOk result (λ o. IfSome o (IsCoveredNet
        (covered (flat_of flat.now) first (map (λ s. s.name) names.now)))) }
{
    match analysed_cover(alloc, flat, first, names)? {
        None => Ok(None),
        Some(analysed) => compiled_net(alloc, analysed, picker),
    }
}

// The same where the dependencies may have a cycle.
fn cyclic_net(
    alloc: Global,
    flat: &Flat,
    first: usize,
    names: &[SignalInfo],
    effort: u64,
) -> Result<Option<Made>, NoMemory>
    requires flat { IsFlat (flat_of flat.now) }
    requires named { IsNamed (flat_of flat.now) }
    requires room { length flat.now.signals.items + length names.now ≤ 4096 }
    requires new { AreNew (take (visible_count (flat_of flat.now)) (flat_of flat.now).signals)
        (map (λ s. s.name) names.now) }
    ensures { IfOk result (λ o. IfSome o (IsCoveredNet
        (covered (flat_of flat.now) first (map (λ s. s.name) names.now)))) }
{
    match analysed_cover(alloc, flat, first, names)? {
        None => Ok(None),
        Some(analysed) => constructive_net(alloc, analysed, effort),
    }
}

// The program of a covered one with its static codes, where it keeps the limits and has no instantaneous loop.
fn analysed_cover(
    alloc: Global,
    flat: &Flat,
    first: usize,
    names: &[SignalInfo],
) -> Result<Option<Analysed>, NoMemory>
    requires flat { IsFlat (flat_of flat.now) }
    requires named { IsNamed (flat_of flat.now) }
    requires room { length flat.now.signals.items + length names.now ≤ 4096 }
    requires new { AreNew (take (visible_count (flat_of flat.now)) (flat_of flat.now).signals)
        (map (λ s. s.name) names.now) }
    ensures { IfOk result (λ o. IfSome o (IsAnalysedCover
        (covered (flat_of flat.now) first (map (λ s. s.name) names.now)))) }
{
    match covered_program(alloc, flat, first, names)? {
        None => Ok(None),
        Some(program) => analysed_program(alloc, program),
    }
}

// The program of a covered one, where it keeps the limits.
fn covered_program(
    alloc: Global,
    flat: &Flat,
    first: usize,
    names: &[SignalInfo],
) -> Result<Option<KernelProgram>, NoMemory>
    requires flat { IsFlat (flat_of flat.now) }
    requires named { IsNamed (flat_of flat.now) }
    requires room { length flat.now.signals.items + length names.now ≤ 4096 }
    requires new { AreNew (take (visible_count (flat_of flat.now)) (flat_of flat.now).signals)
        (map (λ s. s.name) names.now) }
    ensures { IfOk result (λ o. IfSome o (λ p. IsCoveredProgram
        (covered (flat_of flat.now) first (map (λ s. s.name) names.now)) (program_of p))) }
{
    let made = cover_program(alloc, flat, first, names)?;
    kernel_of(alloc, made)
}

// The program of a flat one, where it keeps the limits.
fn kernel_of(alloc: Global, flat: Flat) -> Result<Option<KernelProgram>, NoMemory>
    requires flat { length (flat_of flat).signals + new_in (flat_of flat).body ≤ SIGNALS → IsFlat (flat_of flat) }
    requires named { IsNamed (flat_of flat) }
    ensures { IfOk result (λ o. IfSome o (λ p. IsCoveredProgram (flat_of flat) (program_of p))) }
{
    let flat = Box::new(alloc, flat)?;
    match dismantle(alloc, flat) {
        Ok(program) => {
            if program.signals.len() as u64 <= Limits::SIGNALS {
                Ok(Some(program))
            } else {
                Ok(None)
            }
        }
        Err(Stop::Fault(_)) => Ok(None),
        Err(Stop::NoMemory) => Err(NoMemory),
    }
}

// A program with its static codes, where it has no instantaneous loop.
fn analysed_program(alloc: Global, program: KernelProgram) -> Result<Option<Analysed>, NoMemory>
    requires { IsWellFormed (program_of program) }
    ensures { (flat : PlainFlat) → IsCoveredProgram flat (program_of program)
        → IfOk result (λ o. IfSome o (IsAnalysedCover flat)) }
{
    match codes(alloc, &program.body) {
        Ok(codes) => Ok(Some(Analysed { program, codes })),
        Err(CodeFault::InstantLoop(_)) => Ok(None),
        Err(CodeFault::NoMemory) => Err(NoMemory),
    }
}

// The netlist of a program whose dependencies have no cycle.
fn compiled_net<P: Picker>(
    alloc: Global,
    analysed: Analysed,
    picker: &mut P,
) -> Result<Option<Made>, NoMemory>
    requires formed { IsWellFormed (program_of analysed.program) }
    requires names { HasNames (program_of analysed.program) }
    requires no_loop { NoInstantLoop (term_of analysed.program.body) }
    requires codes { AreCodesOf analysed.codes (term_of analysed.program.body) }
    ensures { (flat : PlainFlat) → IsCoveredProgram flat (program_of analysed.program)
        → IfOk result (λ o. IfSome o (IsCoveredNet flat)) }
{
    match compile_program(alloc, analysed, picker) {
        Ok(compiled) => Ok(Some(optimized(alloc, compiled)?)),
        Err(Refusal::NoMemory) => Err(NoMemory),
        Err(_) => Ok(None),
    }
}

// A compiled program with its optimized netlist.
fn optimized(alloc: Global, compiled: Compiled) -> Result<Made, NoMemory>
    ensures { (flat : PlainFlat) (p : PlainProgram) → IsCompiled compiled p → IsCoveredProgram flat p
        → IfOk result (IsCoveredNet flat) }
{
    let given = program_and_net(compiled);
    let net = optimize(alloc, &given.net)?;
    let Made { program, .. } = given;
    Ok(Made { program, net })
}

// The program of a compiled program and its netlist, as it was compiled.
fn program_and_net(compiled: Compiled) -> Made
    ensures program { result.program ≡ compiled.graph.program }
    ensures net { result.net ≡ compiled.net }
{
    let Compiled { graph, net, .. } = compiled;
    let Graph { program, .. } = graph;
    Made { program, net }
}
