// A netlist under the name of its component.

ghost use Rattle.std.specs.Prelude.{◌≡◌, IfOk};
ghost use Rattle.base_types.specs.Stops.{IfFault};
ghost use Rattle.net_ir.specs.Runs.{netlist_of};
ghost use Rattle.csub_embed.specs.Faults.{signals, under_name, IsEmbeddable, IsEmbedFault};
ghost use Rattle.cec_opt_faults.specs.Causes.{IsUnmade};

use base_types::Stop;
use cec_opt_faults::Unmade;
use csub_embed::{EmbedFault, embedded_net};
use net_ir::Net;
use std::alloc::Global;

/// The netlist under the name of its component. It is there, so the fault is one of the name or of a signal.
pub(crate) fn named_net<C>(
    alloc: Global,
    net: Net,
    name: &[u8],
) -> Result<Net, Stop<Unmade<C, EmbedFault>>>
    ensures named { IfOk result (λ n. netlist_of n ≡ under_name name.now (netlist_of net)) }
    ensures fits { IfOk result (λ n. IsEmbeddable (netlist_of n)) }
    ensures fault { IfFault result (IsUnmade (λ cause. ⊥) (IsEmbedFault name.now (signals (netlist_of net)))) }
{
    match embedded_net(alloc, net, name) {
        Ok(named) => Ok(named),
        Err(Stop::Fault(fault)) => Err(Stop::Fault(Unmade::NoText(fault))),
        Err(Stop::NoMemory) => Err(Stop::NoMemory),
    }
}
