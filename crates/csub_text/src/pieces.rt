// The C text of a net, whole and piece by piece.

ghost use Rattle.std.specs.Prelude.{◌≡◌, IfOk};
ghost use Rattle.net_ir.specs.Runs.{netlist_of};
ghost use Rattle.csub_text.specs.Written.{written, Means};

use base_types::NoMemory;
use net_ir::Net;
use net_writer::write_net;
use std::alloc::Global;

/// What writes the C text of a net, for `net_writer::net_pieces` piece by piece.
#[derive(Drop)]
pub struct CWriter {}

/// The C text of a net: one line feed after each line.
///
/// Input J of the net is the variable `I_NAME` and the local `iJ`, latch J is the state `sJ`, gate K is the
/// local `wN` where it carries wire N, else `gK`, and an output is the variable `O_NAME`. Each call computes the
/// gates in order, the next value of latch J into `tJ`, and whether the program is still active into `r`. The
/// time and the memory that it takes are linear in the length of the text; out of memory is its only error.
pub fn write_c(alloc: Global, net: &Net) -> Result<Vec<u8>, NoMemory>
    ensures text { IfOk result (λ t. t.items ≡ written (netlist_of net.now)) }
    ensures means { IfOk result (λ t. Means t.items (netlist_of net.now)) }
{
    write_net::<CWriter>(alloc, net)
}
