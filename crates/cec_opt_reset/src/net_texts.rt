// The Verilog with a reset of a netlist.

ghost use Rattle.std.specs.Prelude.{◌≡◌, IfOk};
ghost use Rattle.base_types.specs.Stops.{IfFault};
ghost use Rattle.net_ir.specs.Runs.{netlist_of};
ghost use Rattle.vlog_reset.specs.Faults.{IsResetFault};
ghost use Rattle.vlog_reset.specs.Views.{options_of};
ghost use Rattle.vlog_reset.specs.Written.{written, Means};
ghost use Rattle.cec_opt_faults.specs.Causes.{IsUnmade};

use base_types::Stop;
use cec_opt_faults::Unmade;
use net_ir::Net;
use std::alloc::Global;
use vlog_reset::{ResetFault, ResetOptions, reset_text};

/// The text of a netlist. The netlist is there, so the fault is one of the names.
pub(crate) fn net_text<C>(
    alloc: Global,
    net: &Net,
    options: ResetOptions<'_>,
) -> Result<Vec<u8>, Stop<Unmade<C, ResetFault>>>
    ensures text { IfOk result (λ t. t.items ≡ written (options_of options.entry) (netlist_of net.now)) }
    ensures means { IfOk result (λ t. Means t.items (netlist_of net.now) (options_of options.entry)) }
    ensures fault { IfFault result
        (IsUnmade (λ cause. ⊥) (IsResetFault (options_of options.entry) (netlist_of net.now))) }
{
    match reset_text(alloc, net, options) {
        Ok(text) => Ok(text),
        Err(Stop::Fault(fault)) => Err(Stop::Fault(Unmade::NoText(fault))),
        Err(Stop::NoMemory) => Err(Stop::NoMemory),
    }
}
