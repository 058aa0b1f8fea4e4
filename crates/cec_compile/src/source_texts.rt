// The texts of sources, in each language that netlists are written in.

ghost use Rattle.std.specs.Prelude.{◌≤◌, [], Some, length, IfOk, IfErr, MatchResult, option_map};
ghost use Rattle.base_types.specs.SinkChanges.{change};
ghost use Rattle.base_types.specs.Writing.{Appends};
ghost use Rattle.cec_text_io.specs.NetWriting.{IsWrittenIn};
ghost use Rattle.cec_text_io.specs.Writings.{LeavesPieces};
ghost use Rattle.cec_compile.specs.MadeNets.{IsWrittenOf};
ghost use Rattle.cec_compile.specs.Refusals.{IsRefused};
ghost use Rattle.cec_compile.specs.Sources.{IsSource};

use crate::forms::TextForm;
use crate::made::source_made;
use crate::refusal::Refusal;
use base_types::{Limits, Sink};
use cec_text_io::{Written, write_net_in_pieces};
use grc_order::Picker;
use net_writer::{NetText, write_net};
use std::alloc::Global;

/// Compiles a source and writes its text of a form, in a language, to `out`, piece by piece, and says how the writing
/// ended. The errors are those of `blif_of`; nothing is written then.
pub fn write_source_text<T: NetText + Drop, P: Picker, O: Sink>(
    alloc: Global,
    form: TextForm,
    source: &[u8],
    main: Option<&[u8]>,
    picker: &mut P,
    out: &mut O,
) -> Result<Written, Refusal>
    requires { length source.now ≤ Limits.SOURCE_BYTES }
    ensures compiles { IfOk result (λ _. IsSource (option_map (λ m. m.now) main.entry) source.now) }
    ensures out { MatchResult result
        (λ ended. LeavesPieces (IsWrittenOf form (IsWrittenIn T.written T.means) source.now
        (option_map (λ m. m.now) main.entry)) (change O.told O.faults out.old out.new) (Some ended))
        (λ _. Appends (O.told out.old) (O.told out.new) (O.faults out.old) (O.faults out.new) []) }
    ensures refuses { IfErr result (IsRefused source.now (option_map (λ m. m.now) main.entry)) }
{
    match source_made(alloc, form, source, main, picker) {
        Ok(made) => Ok(write_net_in_pieces::<T, O>(alloc, &made.net, out)),
        Err(refusal) => Err(refusal),
    }
}

/// The text of a source of a form, in a language: what `write_source_text` writes, in one piece.
pub(crate) fn text_of<T: NetText + Drop, P: Picker>(
    alloc: Global,
    form: TextForm,
    source: &[u8],
    main: Option<&[u8]>,
    picker: &mut P,
) -> Result<Vec<u8>, Refusal>
    requires { length source.now ≤ Limits.SOURCE_BYTES }
    ensures written { IfOk result (λ text. IsWrittenOf form (IsWrittenIn T.written T.means) source.now
        (option_map (λ m. m.now) main.entry) text.items) }
    ensures refuses { IfErr result (IsRefused source.now (option_map (λ m. m.now) main.entry)) }
{
    let made = source_made(alloc, form, source, main, picker)?;
    let text = write_net::<T>(alloc, &made.net)?;
    Ok(text)
}
