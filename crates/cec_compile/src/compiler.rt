// The compiler: from the bytes of a source to its texts.

ghost use Rattle.std.specs.Prelude.{◌≤◌, Option, length, IfOk, IfErr, option_map};
ghost use Rattle.cec_compile.specs.Compiling.{IsBlifOf, IsCOf, IsVerilogOf};
ghost use Rattle.cec_compile.specs.Compiling.{StandsForC, StandsForText, StandsForVerilog};
ghost use Rattle.cec_compile.specs.EncodedTexts.{StandsForEncoded, IsEncodedBlifOf};
ghost use Rattle.cec_compile.specs.Refusals.{IsRefused};

use crate::forms::TextForm;
use crate::refusal::Refusal;
use crate::source_texts::text_of;
use base_types::Limits;
use blif_text::BlifWriter;
use csub_text::CWriter;
use grc_order::Picker;
use std::alloc::Global;
use vlog_text::VlogWriter;

/// The BLIF text of a source, which has at most 1 MiB: the compiler, from bytes to bytes. `main` is the name of the
/// main module; without it that is the first one. The picker chooses in which order gates are in the text; whether
/// the source is refused, and what the text means, do not depend on it.
///
/// The compiler-correctness theorem holds of the text (`TextKeeps`): it has a reading by the BLIF profile. Over every
/// list of events that meet the source's relations, each reaction of the source is constructive, and the text has a
/// run. Any two runs agree, and the outputs and `_paused` are those of the reactions.
///
/// A source is refused for its first fault or the first limit that it passes, and as cyclic exactly where there is none
/// and its dependency relation has a cycle; one is shown. Running out of memory is an error of its own.
pub fn blif_of<P: Picker>(
    alloc: Global,
    text: &[u8],
    main: Option<&[u8]>,
    picker: &mut P,
) -> Result<Vec<u8>, Refusal>
    requires { length text.now ≤ Limits.SOURCE_BYTES }
    ensures compiles { IfOk result (λ written. StandsForText text.now
        (option_map (λ m. m.now) main.entry) written.items) }
    ensures made { IfOk result (λ written. IsBlifOf text.now (option_map (λ m. m.now) main.entry) written.items) }
    ensures refuses { IfErr result (IsRefused text.now (option_map (λ m. m.now) main.entry)) }
{
    text_of::<BlifWriter, P>(alloc, TextForm::Blif, text, main, picker)
}

/// The BLIF text of a source, with latches that hold the state in a code: pauses that can never be selected together
/// share latches. It has exactly the latches that the selection tree needs (`encoded_count`), and never more than the
/// text of `blif_of`. What is promised of that text holds of this one, except for the numbers of latches and tables. In
/// addition to the tables of the compiled program's netlist it may have 64 for each pair of a node of the selection
/// tree and a latch (`IsEncoded`). It refuses what `blif_of` refuses.
pub fn encoded_blif_of<P: Picker>(
    alloc: Global,
    text: &[u8],
    main: Option<&[u8]>,
    picker: &mut P,
) -> Result<Vec<u8>, Refusal>
    requires { length text.now ≤ Limits.SOURCE_BYTES }
    ensures compiles { IfOk result (λ written. StandsForEncoded text.now
        (option_map (λ m. m.now) main.entry) written.items) }
    ensures made { IfOk result (λ written. IsEncodedBlifOf text.now
        (option_map (λ m. m.now) main.entry) written.items) }
    ensures refuses { IfErr result (IsRefused text.now (option_map (λ m. m.now) main.entry)) }
{
    text_of::<BlifWriter, P>(alloc, TextForm::EncodedBlif, text, main, picker)
}

/// The C text of a source, in the same way (`CTextKeeps`). The text is in the C subset, with one variable for each
/// given and each outgoing signal. Over every list of events that meet the source's relations, each reaction of the
/// source is constructive. The machine's outputs and the value that it returns are those of the reactions. It refuses
/// what `blif_of` refuses.
pub fn c_of<P: Picker>(
    alloc: Global,
    text: &[u8],
    main: Option<&[u8]>,
    picker: &mut P,
) -> Result<Vec<u8>, Refusal>
    requires { length text.now ≤ Limits.SOURCE_BYTES }
    ensures compiles { IfOk result (λ written. StandsForC text.now (option_map (λ m. m.now) main.entry) written.items) }
    ensures made { IfOk result (λ written. IsCOf text.now (option_map (λ m. m.now) main.entry) written.items) }
    ensures refuses { IfErr result (IsRefused text.now (option_map (λ m. m.now) main.entry)) }
{
    text_of::<CWriter, P>(alloc, TextForm::C, text, main, picker)
}

/// The Verilog text of a source, in the same way (`VerilogTextKeeps`). The text describes a module `m_NAME` with the
/// clock `clk`, an input for each given signal, an output for each outgoing signal, and `paused`. Over every list of
/// events that meet the source's relations, each reaction of the source is constructive, and the module has a run. Any
/// two runs agree, and the outputs and `paused` are those of the reactions. It refuses what `blif_of` refuses.
pub fn verilog_of<P: Picker>(
    alloc: Global,
    text: &[u8],
    main: Option<&[u8]>,
    picker: &mut P,
) -> Result<Vec<u8>, Refusal>
    requires { length text.now ≤ Limits.SOURCE_BYTES }
    ensures compiles { IfOk result (λ written. StandsForVerilog text.now
        (option_map (λ m. m.now) main.entry) written.items) }
    ensures made { IfOk result (λ written. IsVerilogOf text.now (option_map (λ m. m.now) main.entry) written.items) }
    ensures refuses { IfErr result (IsRefused text.now (option_map (λ m. m.now) main.entry)) }
{
    text_of::<VlogWriter, P>(alloc, TextForm::Verilog, text, main, picker)
}
