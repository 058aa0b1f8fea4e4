// The graphs of sources, whose dependencies may have a cycle.

ghost use Rattle.std.specs.Prelude.{◌≡◌, ◌≤◌, length, IfOk, IfErr, option_map};
ghost use Rattle.est_kernel.specs.CodeLists.{AreCodesOf};
ghost use Rattle.est_kernel.specs.Plain.{program_of, term_of};
ghost use Rattle.est_kernel.specs.StaticCodes.{NoInstantLoop};
ghost use Rattle.est_kernel.specs.WellFormed.{IsWellFormed, HasNames};
ghost use Rattle.cec_compile.specs.Graphs.{IsBuilt, StandsForBuilt, HasNoGraph, IsRefusedGraph};

use crate::refusal::Refusal;
use base_types::Limits;
use est_front::{Analysed, analyse};
use grc_build::build;
use grc_graph::Graph;
use grc_layout::{copies, select};
use std::alloc::Global;

/// The graph of a source, which has at most 1 MiB. `main` is the name of the main module; without it that is the first
/// one. The errors are those of `blif_of`, but a source is not refused for a cycle of the graph's dependencies.
pub fn graph_of(alloc: Global, text: &[u8], main: Option<&[u8]>) -> Result<Graph, Refusal>
    requires { length text.now ≤ Limits.SOURCE_BYTES }
    ensures built { IfOk result (StandsForBuilt text.now (option_map (λ m. m.now) main.entry)) }
    ensures refuses { IfErr result (IsRefusedGraph text.now (option_map (λ m. m.now) main.entry)) }
{
    let analysed = analyse(alloc, text, main)?;
    built_graph(alloc, analysed)
}

/// The graph of a kernel program with its static codes, whose dependencies may have a cycle. It is refused where it has
/// no graph: a limit is passed, or memory runs out.
pub fn built_graph(alloc: Global, analysed: Analysed) -> Result<Graph, Refusal>
    requires formed { IsWellFormed (program_of analysed.program) }
    requires names { HasNames (program_of analysed.program) }
    requires no_loop { NoInstantLoop (term_of analysed.program.body) }
    requires codes { AreCodesOf analysed.codes (term_of analysed.program.body) }
    ensures built { IfOk result (λ g. IsBuilt g (program_of analysed.program)) }
    ensures refuses { IfErr result (HasNoGraph (program_of analysed.program)) }
{
    let Analysed { program, codes } = analysed;
    let live = copies(alloc, &program.body, &codes)?;
    let tree = select(alloc, &program.body, &codes)?;
    let graph = build(alloc, program, codes, live, tree)?;
    Ok(graph)
}
