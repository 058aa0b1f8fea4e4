// The texts of constructive netlists of sources.

ghost use Rattle.std.specs.Prelude.{◌≤◌, length, IfErr, IfOk, option_map};
ghost use Rattle.cec_cycles.specs.Constructive.{IsRefusedConstructive, StandsForConstructiveBlif};
ghost use Rattle.cec_cycles.specs.Constructive.{StandsForConstructiveC, StandsForConstructiveVerilog};

use crate::findings::CycleRefusal;
use crate::sources::constructive_net;
use base_types::{Limits, NoMemory};
use blif_text::write_blif;
use cec_compile::Refusal;
use cec_opt_sources::Coding;
use csub_text::write_c;
use grc_order::Picker;
use std::alloc::Global;
use vlog_text::write_verilog;

/// The BLIF text of a source whose dependencies may have a cycle, where its program is constructive over every
/// list of events that meet its relations, and resets. The compiler-correctness theorem holds of the text
/// (`TextKeeps`), word for word as of that of `cec_compile::blif_of`: it has a reading by the BLIF profile, and over
/// every such list each reaction of the source is constructive, the text has a run, any two runs agree, and the outputs
/// and `_paused` are those of the reactions. The effort is one of `net_search`.
///
/// It refuses what `blif_of` refuses, except for a cycle. For that it has three causes. The program is not
/// constructive: there is a trace, its events meet the relations, and the program does not react to the last one. It
/// was not shown within the effort whether it is. The netlist would be too large. With each of them a cycle is shown,
/// so a source without one never has them.
///
/// Example: of `present A then emit B end || present B then emit A end` there is none, at the first event.
pub fn constructive_blif_of<P: Picker>(
    alloc: Global,
    text: &[u8],
    main: Option<&[u8]>,
    picker: &mut P,
    effort: u64,
) -> Result<Vec<u8>, CycleRefusal>
    requires { length text.now ≤ Limits.SOURCE_BYTES }
    ensures compiles { IfOk result (λ written. StandsForConstructiveBlif text.now
        (option_map (λ m. m.now) main.entry) written.items) }
    ensures refuses { IfErr result (IsRefusedConstructive text.now (option_map (λ m. m.now) main.entry)) }
{
    let net = constructive_net(alloc, text, main, picker, Coding::Lighter, effort)?;
    match write_blif(alloc, &net) {
        Ok(written) => Ok(written),
        Err(NoMemory) => Err(CycleRefusal::Source(Refusal::NoMemory)),
    }
}

/// The C text of such a source, the same (`CTextKeeps`).
pub fn constructive_c_of<P: Picker>(
    alloc: Global,
    text: &[u8],
    main: Option<&[u8]>,
    picker: &mut P,
    effort: u64,
) -> Result<Vec<u8>, CycleRefusal>
    requires { length text.now ≤ Limits.SOURCE_BYTES }
    ensures compiles { IfOk result (λ written. StandsForConstructiveC text.now
        (option_map (λ m. m.now) main.entry) written.items) }
    ensures refuses { IfErr result (IsRefusedConstructive text.now (option_map (λ m. m.now) main.entry)) }
{
    let net = constructive_net(alloc, text, main, picker, Coding::Lighter, effort)?;
    match write_c(alloc, &net) {
        Ok(written) => Ok(written),
        Err(NoMemory) => Err(CycleRefusal::Source(Refusal::NoMemory)),
    }
}

/// The structural Verilog of such a source, the same (`VerilogTextKeeps`).
pub fn constructive_verilog_of<P: Picker>(
    alloc: Global,
    text: &[u8],
    main: Option<&[u8]>,
    picker: &mut P,
    effort: u64,
) -> Result<Vec<u8>, CycleRefusal>
    requires { length text.now ≤ Limits.SOURCE_BYTES }
    ensures compiles { IfOk result (λ written. StandsForConstructiveVerilog text.now
        (option_map (λ m. m.now) main.entry) written.items) }
    ensures refuses { IfErr result (IsRefusedConstructive text.now (option_map (λ m. m.now) main.entry)) }
{
    let net = constructive_net(alloc, text, main, picker, Coding::Lighter, effort)?;
    match write_verilog(alloc, &net) {
        Ok(written) => Ok(written),
        Err(NoMemory) => Err(CycleRefusal::Source(Refusal::NoMemory)),
    }
}
