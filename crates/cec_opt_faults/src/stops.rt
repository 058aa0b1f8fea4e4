// The stop of a call that makes a text of a source.

ghost use Rattle.std.specs.Prelude.{◌≡◌};
ghost use Rattle.cec_opt_faults.specs.Stops.{no_source_net};

use crate::unmade::Unmade;
use base_types::Stop;
use cec_compile::Refusal;
use cec_cycles::CycleRefusal;

/// A source has no netlist, for this cause. Running out of memory is no cause.
pub fn no_source_net<F>(refusal: CycleRefusal) -> Stop<Unmade<CycleRefusal, F>>
    ensures { result ≡ no_source_net refusal }
{
    match refusal {
        CycleRefusal::Source(Refusal::NoMemory) => Stop::NoMemory,
        others => Stop::Fault(Unmade::NoNet(others)),
    }
}
