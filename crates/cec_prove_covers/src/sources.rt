// What a covering needs of a source.

ghost use Rattle.std.specs.Prelude.{◌≡◌, ◌≤◌, None, length, option_map, IfErr, IfOk, IfSome};
ghost use Rattle.est_ast.specs.FlatViews.{flat_of};
ghost use Rattle.est_ast.specs.FlatPrograms.{IsFlat};
ghost use Rattle.est_front.specs.Sources.{Flattens};
ghost use Rattle.est_kernel.specs.Plain.{program_of};
ghost use Rattle.net_ir.specs.Runs.{netlist_of};
ghost use Rattle.cec_compile.specs.NetMeaning.{NetKeeps};
ghost use Rattle.cec_cycles.specs.Constructive.{IsOtherRefusal, IsRefusedConstructive};
ghost use Rattle.cec_prove_sources.specs.Verdicts.{IsNone};
ghost use Rattle.cec_prove_covers.specs.Stages.{HasRoom};

use base_types::Limits;
use cec_compile::Refusal;
use cec_cycles::CycleRefusal;
use cec_prove_cycles::constructive_made;
use cec_prove_sources::place_of;
use est_ast::Flat;
use est_front::flat_program;
use est_kernel::KernelProgram;
use grc_order::Picker;
use net_ir::Net;
use std::alloc::Global;

/// How many more signals there is room for in the program of a source. None where no outgoing signal has the name that
/// is assumed. It refuses what `cec_prove_cycles::constructive_verdict_of` refuses.
pub(crate) fn room_of<P: Picker>(
    alloc: Global,
    text: &[u8],
    main: Option<&[u8]>,
    picker: &mut P,
    assumed: Option<&[u8]>,
    effort: u64,
) -> Result<Option<usize>, CycleRefusal>
    requires { length text.now ≤ Limits.SOURCE_BYTES }
    ensures room { IfOk result (HasRoom text.now (option_map (λ m. m.now) main.entry)
        (option_map (λ n. n.now) assumed.entry)) }
    ensures few { IfOk result (λ o. IfSome o (λ room. room ≤ 4096)) }
    ensures refuses { IfErr result (IsRefusedConstructive text.now (option_map (λ m. m.now) main.entry)) }
{
    let made = constructive_made(alloc, text, main, picker, effort)?;
    let room = room_beside(&made.program, &made.net, assumed);
    Ok(room)
}

// The same of a program with its netlist.
fn room_beside(program: &KernelProgram, net: &Net, assumed: Option<&[u8]>) -> Option<usize>
    requires keeps { NetKeeps (netlist_of net.now) (program_of program.now) }
    ensures none { result ≡ None → IsNone (program_of program.now) (option_map (λ n. n.now) assumed.entry) }
    ensures few { IfSome result (λ room. room ≤ 4096) }
{
    let room = 4096 - program.signals.len().min(4096);
    let Some(name) = assumed else {
        return Some(room);
    };
    match place_of(program, net, name) {
        None => None,
        Some(_) => Some(room),
    }
}

/// The flat program of a source. It refuses what `cec_compile::compile` refuses at this stage, so never a cycle.
pub(crate) fn source_flat(alloc: Global, text: &[u8], main: Option<&[u8]>) -> Result<Flat, Refusal>
    requires { length text.now ≤ Limits.SOURCE_BYTES }
    ensures flattens { IfOk result (λ f. Flattens text.now (option_map (λ m. m.now) main.entry) (flat_of f)) }
    ensures flat { IfOk result (λ f. IsFlat (flat_of f)) }
    ensures refuses { IfErr result (IsOtherRefusal text.now (option_map (λ m. m.now) main.entry)) }
{
    let flat = flat_program(alloc, text, main)?;
    Ok(flat)
}
