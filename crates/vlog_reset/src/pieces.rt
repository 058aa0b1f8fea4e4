// The text of a net with a reset, whole and piece by piece.

ghost use Rattle.std.specs.Prelude.{◌≡◌, IfOk, OnOk};
ghost use Rattle.base_types.specs.Stops.{IfFault};
ghost use Rattle.net_ir.specs.Runs.{netlist_of};
ghost use Rattle.vlog_reset.specs.Faults.{IsResettable, IsResetFault};
ghost use Rattle.vlog_reset.specs.Views.{options_of};
ghost use Rattle.vlog_reset.specs.Written.{written, Means};

use crate::fault::ResetFault;
use crate::naming::reset_fault;
use crate::options::ResetOptions;
use crate::parts::{SECTIONS, part_count, put_in};
use base_types::{NoMemory, Stop};
use net_ir::{Net, look_at_wires};
use net_writer::{Pieces, Places};
use std::alloc::Global;

// A place of a text is the number of a section, and after it that of a part, as digits to this base.
const PLACES: u128 = 1 << 64;

/// What writes the text of a net with a reset, for `net_writer::Pieces` piece by piece.
#[derive(Drop)]
pub struct ResetWriter<'a> {
    net: &'a Net,
    options: ResetOptions<'a>,
}

impl<'a> Places for ResetWriter<'a> {
    ghost use Rattle.net_ir.specs.Runs.{netlist_of};
    ghost use Rattle.vlog_reset.specs.Parts.{text_from};
    ghost use Rattle.vlog_reset.specs.Views.{options_of};
    ghost use Rattle.vlog_reset.specs.declared.pieces.TheConstants.{PLACES};

    ghost text_from = { λ w place. text_from PLACES (options_of w.options) (netlist_of w.net.now) place };

    ghost is_sound = { λ _. Unit {0} };

    fn put_place(&self, text: &mut Vec<u8>, place: u128) -> Result<Option<u128>, NoMemory> {
        let number = place / PLACES;
        if number >= 14 {
            return Ok(None);
        }
        let section = SECTIONS[number as usize];
        let k = place % PLACES;
        if k < part_count(self.net, self.options, section) as u128 {
            put_in(text, self.net, self.options, section, k as usize)?;
            Ok(Some(place + 1))
        } else {
            Ok(Some((number + 1) * PLACES))
        }
    }
}

/// The text of a net with a reset, piece by piece.
pub type ResetPieces<'a> = Pieces<ResetWriter<'a>>;

/// All pieces of the text of a net that has one (`reset_fault`), which is that of `write_reset`. It takes no memory.
pub fn reset_pieces<'a>(alloc: Global, net: &'a Net, options: ResetOptions<'a>) -> ResetPieces<'a>
    requires { IsResettable (options_of options) (netlist_of net.now) }
    ensures text { result ≡ written (options_of options.entry) (netlist_of net.now) }
    ensures means { Means result (netlist_of net.now) (options_of options.entry) }
{
    look_at_wires(net);
    Pieces::new(alloc, ResetWriter { net, options })
}

/// The text of a net that has one: a module of Verilog (IEEE 1364) with a clock and a reset.
///
/// The module has the name that is asked for, else the net's. Its inputs are the clock `clk`, the reset, and the net's
/// inputs; its outputs are the net's, and `paused`, which says whether the program is still running. Latch J is the
/// register `stateJ`, and gate K the wire `gateK`. The time and the memory that it takes are linear in the length of
/// the text; out of memory is its only error.
pub fn write_reset(alloc: Global, net: &Net, options: ResetOptions<'_>) -> Result<Vec<u8>, NoMemory>
    requires { IsResettable (options_of options) (netlist_of net.now) }
    ensures text { IfOk result (λ t. t.items ≡ written (options_of options.entry) (netlist_of net.now)) }
    ensures means { IfOk result (λ t. Means t.items (netlist_of net.now) (options_of options.entry)) }
{
    reset_pieces(alloc, net, options).all(alloc)
}

/// The text of a net with a reset, where it has one; else the first fault. Running out of memory is the only other
/// error.
pub fn reset_text(
    alloc: Global,
    net: &Net,
    options: ResetOptions<'_>,
) -> Result<Vec<u8>, Stop<ResetFault>>
    ensures text { IfOk result (λ t. t.items ≡ written (options_of options.entry) (netlist_of net.now)) }
    ensures means { IfOk result (λ t. Means t.items (netlist_of net.now) (options_of options.entry)) }
    ensures fault { IfFault result (IsResetFault (options_of options.entry) (netlist_of net.now)) }
{
    if let Some(fault) = reset_fault(alloc, net, options)? {
        return Err(Stop::Fault(fault));
    }
    let text = write_reset(alloc, net, options)?;
    Ok(text)
}
