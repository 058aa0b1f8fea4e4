// The guarded C texts of sources.

ghost use Rattle.std.specs.Prelude.{◌≤◌, [], Some, length, IfOk, IfErr, MatchResult, option_map};
ghost use Rattle.base_types.specs.SinkChanges.{change};
ghost use Rattle.base_types.specs.Writing.{Appends};
ghost use Rattle.est_kernel.specs.Plain.{Program, program_of};
ghost use Rattle.grc_graph.specs.BuiltGraphs.{IsGraphOf};
ghost use Rattle.cec_text_io.specs.Writings.{LeavesPieces};
ghost use Rattle.cec_compile.specs.Compiling.{IsCompiled};
ghost use Rattle.cec_compile.specs.Following.{FollowsGraph};
ghost use Rattle.cec_compile.specs.GuardedTexts.{IsGuardedOf, StandsForGuarded};
ghost use Rattle.cec_compile.specs.MadeGuarded.{IsGuardedBy, IsMadeGuarded};
ghost use Rattle.cec_compile.specs.Refusals.{IsRefused};
ghost use Rattle.cec_compile.specs.SourceTexts.{IsSourceText};
ghost use Rattle.cec_compile.specs.Sources.{IsSource};
ghost use Rattle.cec_compile.specs.declared.forms.TextForm.TheVariants.{Guarded};

use crate::forms::TextForm;
use crate::made::{Made, made_in};
use crate::passes::{Compiled, compile_unshared};
use crate::refusal::Refusal;
use base_types::{Limits, NoMemory, Sink};
use cec_text_io::{Written, write_in_pieces};
use csub_guard_writer::{guarded_pieces, write_guarded};
use grc_order::Picker;
use grc_regions::regions;
use std::alloc::Global;

/// A kernel program with the netlist that its guarded text is written of, and the text.
#[derive(Drop)]
pub struct GuardedMade {
    pub made: Made,
    pub text: Vec<u8>,
}

/// The guarded C text of a source. It is the C text of the program's own graph, whose wires are not shared, except that
/// consecutive gates of one head form a block. A call skips the block when the head does not run. The theorem holds of
/// the text with the machine of guarded programs (`GuardedTextKeeps`). A call runs the assignments of that C text,
/// except for the gates that it skips (`IsGuardedOf`). It refuses what `blif_of` refuses.
pub fn guarded_c_of<P: Picker>(
    alloc: Global,
    text: &[u8],
    main: Option<&[u8]>,
    picker: &mut P,
) -> Result<Vec<u8>, Refusal>
    requires { length text.now ≤ Limits.SOURCE_BYTES }
    ensures compiles { IfOk result (λ written. StandsForGuarded text.now
        (option_map (λ m. m.now) main.entry) written.items) }
    ensures made { IfOk result (λ written. IsGuardedOf text.now (option_map (λ m. m.now) main.entry) written.items) }
    ensures refuses { IfErr result (IsRefused text.now (option_map (λ m. m.now) main.entry)) }
{
    let GuardedMade { text: written, .. } = guarded_made(alloc, text, main, picker)?;
    Ok(written)
}

/// The guarded C text of a source, with what it is written of. The errors are those of `blif_of`.
pub fn guarded_made<P: Picker>(
    alloc: Global,
    source: &[u8],
    main: Option<&[u8]>,
    picker: &mut P,
) -> Result<GuardedMade, Refusal>
    requires { length source.now ≤ Limits.SOURCE_BYTES }
    ensures made { IfOk result (IsMadeGuarded source.now (option_map (λ m. m.now) main.entry)) }
    ensures text { IfOk result (λ g. IsSourceText Guarded (option_map (λ m. m.now) main.entry)
        source.now g.text.items) }
    ensures refuses { IfErr result (IsRefused source.now (option_map (λ m. m.now) main.entry)) }
{
    let compiled = compile_unshared(alloc, source, main, picker)?;
    let text = guarded_text(alloc, &compiled)?;
    let made = made_in(alloc, TextForm::Guarded, compiled)?;
    Ok(GuardedMade { made, text })
}

// The guarded text of a compiled program.
fn guarded_text(alloc: Global, compiled: &Compiled) -> Result<Vec<u8>, NoMemory>
    requires follows { FollowsGraph compiled.now }
    requires built { IsGraphOf compiled.now.graph (program_of compiled.now.graph.program) }
    ensures { IfOk result (λ text. (p : Program) → IsCompiled compiled.now p → IsGuardedBy compiled.now text.items) }
{
    let regions = regions(alloc, &compiled.graph)?;
    let text = write_guarded(alloc, &compiled.net, &regions)?;
    Ok(text)
}

/// Compiles a source and writes its guarded C text to `out`, piece by piece, and says how the writing ended. The errors
/// are those of `blif_of`; nothing is written then.
pub fn write_guarded_text<P: Picker, O: Sink>(
    alloc: Global,
    source: &[u8],
    main: Option<&[u8]>,
    picker: &mut P,
    out: &mut O,
) -> Result<Written, Refusal>
    requires { length source.now ≤ Limits.SOURCE_BYTES }
    ensures compiles { IfOk result (λ _. IsSource (option_map (λ m. m.now) main.entry) source.now) }
    ensures out { MatchResult result
        (λ ended. LeavesPieces (IsSourceText Guarded (option_map (λ m. m.now) main.entry) source.now)
        (change O.told O.faults out.old out.new) (Some ended))
        (λ _. Appends (O.told out.old) (O.told out.new) (O.faults out.old) (O.faults out.new) []) }
    ensures refuses { IfErr result (IsRefused source.now (option_map (λ m. m.now) main.entry)) }
{
    match compile_unshared(alloc, source, main, picker) {
        Ok(compiled) => Ok(write_compiled(alloc, &compiled, out)),
        Err(refusal) => Err(refusal),
    }
}

// Writes the guarded text of a compiled program, piece by piece.
fn write_compiled<O: Sink>(alloc: Global, compiled: &Compiled, out: &mut O) -> Written
    requires follows { FollowsGraph compiled.now }
    requires built { IsGraphOf compiled.now.graph (program_of compiled.now.graph.program) }
    ensures { LeavesPieces (λ text. (p : Program) → IsCompiled compiled.now p → IsGuardedBy compiled.now text)
        (change O.told O.faults out.old out.new) (Some result) }
{
    let Ok(regions) = regions(alloc, &compiled.graph) else {
        return Written::NoMemory;
    };
    let Ok(mut pieces) = guarded_pieces(alloc, &compiled.net, &regions) else {
        return Written::NoMemory;
    };
    write_in_pieces(alloc, &mut pieces, out)
}
