// The Verilog with a reset of a source.

ghost use Rattle.std.specs.Prelude.{◌≤◌, length, IfOk, option_map};
ghost use Rattle.base_types.specs.Stops.{IfFault};
ghost use Rattle.vlog_reset.specs.Views.{options_of};
ghost use Rattle.cec_opt_reset.specs.Faults.{IsSourceResetFault};
ghost use Rattle.cec_opt_reset.specs.Sources.{StandsForReset};

use crate::net_texts::net_text;
use base_types::{Limits, Stop};
use cec_cycles::{CycleRefusal, constructive_net};
use cec_opt_faults::{Unmade, no_source_net};
use cec_opt_sources::Coding;
use grc_order::Picker;
use std::alloc::Global;
use vlog_reset::{ResetFault, ResetOptions};

/// The Verilog text with a reset of a source, whose dependencies may have a cycle. The compiler-correctness theorem
/// holds of the text (`ResetTextKeeps`). It describes a module with the names and the reset that are asked for, with an
/// input for each given and an output for each outgoing signal. Take any edges of the clock and of the reset, and any
/// values of the registers to begin with. If they begin with a reset, and the events after it meet the source's
/// relations, the module shows at each edge without a reset what the reaction is. Each of these reactions is
/// constructive.
///
/// The coding says which netlist of a source without a cycle it is: the lighter one, or the one whose latches hold the
/// state in a code. The effort is one of `net_search`, for dependencies with a cycle. The fault is that of the source,
/// as `cec_cycles::constructive_net` says it, and where it has none, the first one of the names (`IsResetFault`).
/// Running out of memory is the only other error.
///
/// Example: of `module M: output O; emit O end module`, the text declares a module M with the outputs O and paused.
pub fn reset_verilog_of<P: Picker>(
    alloc: Global,
    text: &[u8],
    main: Option<&[u8]>,
    picker: &mut P,
    coding: Coding,
    effort: u64,
    options: ResetOptions<'_>,
) -> Result<Vec<u8>, Stop<Unmade<CycleRefusal, ResetFault>>>
    requires { length text.now ≤ Limits.SOURCE_BYTES }
    ensures compiles { IfOk result (λ written. StandsForReset text.now
        (option_map (λ m. m.now) main.entry) coding (options_of options.entry) written.items) }
    ensures fault { IfFault result (IsSourceResetFault text.now
        (option_map (λ m. m.now) main.entry) coding (options_of options.entry)) }
{
    match constructive_net(alloc, text, main, picker, coding, effort) {
        Ok(net) => net_text(alloc, &net, options),
        Err(refusal) => Err(no_source_net(refusal)),
    }
}
