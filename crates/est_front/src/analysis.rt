// From the bytes of a source to its kernel program with the static codes of its statements.

ghost use Rattle.std.specs.Prelude.{◌≤◌, ℕ, List, Option, length, IfOk, IfErr, option_map};
ghost use Rattle.est_kernel.specs.CodeLists.{AreCodesOf};
ghost use Rattle.est_kernel.specs.Plain.{Program as PlainProgram, program_of, term_of};
ghost use Rattle.est_kernel.specs.StaticCodes.{instant_loops};
ghost use Rattle.est_kernel.specs.WellFormed.{IsWellFormed, HasNames};
ghost use Rattle.est_codes.specs.Faults.{FaultHasCause};
ghost use Rattle.est_front.specs.Sources.{Expands, StandsFor};
ghost use Rattle.est_front.specs.Refusals.{IsSourceRefused};

use crate::programs::kernel_program;
use crate::refusal::{Fault, SourceRefusal};
use base_types::Limits;
use est_codes::{CodeFault, codes};
use est_kernel::{Codes, KernelProgram};
use std::alloc::Global;

/// A kernel program with the static codes of its statements.
#[derive(Drop)]
pub struct Analysed {
    pub program: KernelProgram,
    pub codes: Codes,
}

/// The kernel program of a source, with the static codes of its statements. `main` is the name of the main module;
/// without it that is the first one. A source is refused for its first fault: of its tokens, its tree, its names, its
/// flat form, its counts, for what passes its limit, and at last for an instantaneous loop.
///
/// Example: `module M: output O; loop emit O end end module` is refused for its loop. With `emit O; pause` in the
/// loop it has a program.
pub fn analyse(alloc: Global, text: &[u8], main: Option<&[u8]>) -> Result<Analysed, SourceRefusal>
    requires { length text.now ≤ Limits.SOURCE_BYTES }
    ensures program { IfOk result (λ a.
        StandsFor text.now (option_map (λ m. m.now) main.entry) (program_of a.program)) }
    ensures formed { IfOk result (λ a. IsWellFormed (program_of a.program)) }
    ensures names { IfOk result (λ a. HasNames (program_of a.program)) }
    ensures codes { IfOk result (λ a. AreCodesOf a.codes (term_of a.program.body)) }
    ensures refusal { IfErr result (IsSourceRefused text.now (option_map (λ m. m.now) main.entry)) }
{
    let program = kernel_program(alloc, text, main)?;
    match codes(alloc, &program.body) {
        Ok(codes) => Ok(Analysed { program, codes }),
        Err(fault) => Err(loop_refusal(fault)),
    }
}

/// The kernel program of a source, as `analyse` answers it. Its errors are those of `analyse`.
pub fn front(
    alloc: Global,
    text: &[u8],
    main: Option<&[u8]>,
) -> Result<KernelProgram, SourceRefusal>
    requires { length text.now ≤ Limits.SOURCE_BYTES }
    ensures program { IfOk result (λ p. StandsFor text.now (option_map (λ m. m.now) main.entry) (program_of p)) }
    ensures formed { IfOk result (λ p. IsWellFormed (program_of p)) }
    ensures names { IfOk result (λ p. HasNames (program_of p)) }
    ensures refusal { IfErr result (IsSourceRefused text.now (option_map (λ m. m.now) main.entry)) }
{
    let analysed = analyse(alloc, text, main)?;
    Ok(analysed.program)
}

// The refusal of a source whose kernel program has no static codes.
fn loop_refusal(fault: CodeFault) -> SourceRefusal
    ensures { (text : List ℕ) (main : Option (List ℕ)) (p : PlainProgram)
        → Expands text main p → FaultHasCause (instant_loops p.body) fault → IsSourceRefused text main result }
{
    match fault {
        CodeFault::InstantLoop(place) => SourceRefusal::Static(Fault::InstantLoop(place)),
        CodeFault::NoMemory => SourceRefusal::NoMemory,
    }
}
