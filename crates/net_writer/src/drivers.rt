// What drives the nets of a net.

ghost use Rattle.std.specs.Prelude.{◌<◌};
ghost use Rattle.net_ir.specs.Netlists.{net_count};
ghost use Rattle.net_ir.specs.Runs.{netlist_of};
ghost use Rattle.net_writer.specs.Drivers.{Drives};

use base_types::NetId;
use net_ir::Net;

/// What drives a net: an input, a latch or a gate, by its number among those.
#[derive(Clone, Copy)]
pub enum Driver {
    Input(usize),
    Latch(usize),
    Gate(usize),
}

/// What drives a net.
pub fn driver_of(net: &Net, from: NetId) -> Driver
    requires { from.0 < net_count (netlist_of net.now) }
    ensures { Drives (netlist_of net.now) from.0 result }
{
    let n = from.0 as usize;
    let first_latch = net.inputs.len();
    let first_gate = first_latch + net.latches.len();
    if n < first_latch {
        Driver::Input(n)
    } else if n < first_gate {
        Driver::Latch(n - first_latch)
    } else {
        Driver::Gate(n - first_gate)
    }
}
