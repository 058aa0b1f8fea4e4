// The Verilog with a reset of a BLIF text.

ghost use Rattle.std.specs.Prelude.{◌≤◌, length, map, IfOk};
ghost use Rattle.base_types.specs.Stops.{IfFault};
ghost use Rattle.vlog_reset.specs.Views.{options_of};
ghost use Rattle.cec_opt_texts.specs.Related.{named_relation};
ghost use Rattle.cec_opt_reset.specs.Faults.{IsTextResetFault};
ghost use Rattle.cec_opt_reset.specs.Texts.{ResetKeeps};

use crate::net_texts::net_text;
use base_types::{Limits, Stop};
use blif_read::BlifFault;
use cec_opt_faults::Unmade;
use cec_opt_texts::{GivenRelation, optimized_net};
use std::alloc::Global;
use vlog_reset::{ResetFault, ResetOptions};

/// The Verilog text with a reset of the optimized netlist of a BLIF text. It describes a module with the names and the
/// reset that are asked for, with an input for each input and an output for each output of the BLIF text
/// (`ResetKeeps`). Take any edges of the clock and of the reset, and any values of the registers to begin with. If they
/// begin with a reset, and the events after it meet the given relations, the module shows at each edge without a reset
/// what the BLIF text shows.
///
/// The fault is the BLIF text's first one, or the first name of a relation that is none of its inputs. Where there is
/// none, the fault is the first one of the names (`IsResetFault`). Running out of memory is the only other error.
///
/// Example: the text with an input `wire` has none, unless the names of signals get prefixes.
pub fn optimized_reset(
    alloc: Global,
    text: &[u8],
    given: &[GivenRelation<'_>],
    options: ResetOptions<'_>,
) -> Result<Vec<u8>, Stop<Unmade<BlifFault, ResetFault>>>
    requires { length text.now ≤ Limits.TEXT_BYTES }
    ensures keeps { IfOk result
        (λ written. ResetKeeps text.now (map named_relation given.now) (options_of options.entry) written.items) }
    ensures fault { IfFault result
        (IsTextResetFault text.now (map named_relation given.now) (options_of options.entry)) }
{
    match optimized_net(alloc, text, given) {
        Ok(net) => net_text(alloc, &net, options),
        Err(Stop::Fault(fault)) => Err(Stop::Fault(Unmade::NoNet(fault))),
        Err(Stop::NoMemory) => Err(Stop::NoMemory),
    }
}
