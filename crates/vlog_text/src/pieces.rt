// The Verilog text of a net, whole and piece by piece.

ghost use Rattle.std.specs.Prelude.{◌≡◌, IfOk};
ghost use Rattle.net_ir.specs.Runs.{netlist_of};
ghost use Rattle.vlog_text.specs.Written.{written, Means};

use base_types::NoMemory;
use net_ir::Net;
use net_writer::write_net;
use std::alloc::Global;

/// What writes the Verilog text of a net, for `net_writer::net_pieces` piece by piece.
#[derive(Drop)]
pub struct VlogWriter {}

/// The Verilog text of a net: one line feed after each line.
///
/// The module has the name `m_NAME` and the clock `clk`. Input X of the net is the input `i_X`, output X the output
/// `o_X`, and whether the program is still active the output `paused`. Latch J is the reg `sJ`, and gate K the wire
/// `wN` where it carries wire N, else `gK`. The time and the memory that it takes are linear in the length of the
/// text; out of memory is its only error.
pub fn write_verilog(alloc: Global, net: &Net) -> Result<Vec<u8>, NoMemory>
    ensures text { IfOk result (λ t. t.items ≡ written (netlist_of net.now)) }
    ensures means { IfOk result (λ t. Means t.items (netlist_of net.now)) }
{
    write_net::<VlogWriter>(alloc, net)
}
