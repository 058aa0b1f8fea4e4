// The embedded text of a BLIF text.

ghost use Rattle.std.specs.Prelude.{◌≤◌, length, map, IfOk};
ghost use Rattle.base_types.specs.Stops.{IfFault};
ghost use Rattle.net_ir.specs.Runs.{netlist_of};
ghost use Rattle.csub_embed.specs.Faults.{IsEmbeddable};
ghost use Rattle.cec_opt_texts.specs.Related.{named_relation};
ghost use Rattle.cec_opt_embed.specs.Faults.{IsTextEmbedFault};
ghost use Rattle.cec_opt_embed.specs.Texts.{EmbedKeeps, IsSmallComponent};

use crate::naming::named_net;
use base_types::{Limits, Stop};
use blif_read::BlifFault;
use cec_opt_faults::Unmade;
use cec_opt_texts::{GivenRelation, optimized_net};
use csub_embed::{EmbedFault, EmbedLayout, write_embedded};
use net_ir::Net;
use std::alloc::Global;

/// The embedded C text of the optimized netlist of a BLIF text, under the name of its component and in this layout. It
/// describes a component with this name, with a member for each input and each output of the BLIF text; one of two
/// files does so with the other one of the same netlist (`EmbedKeeps`). Take any calls on any number of instances, in
/// any order. An instance whose first call is a reset, and whose events meet the given relations, shows at each call
/// what the BLIF text shows. Calls on one instance change no other one.
///
/// The fault is the BLIF text's first one, or the first name of a relation that is none of its inputs. Where there is
/// none, the fault is the first one of the name and of the signals (`IsEmbedFault`). Running out of memory is the only
/// other error.
///
/// Example: the text with an input `int` has none.
pub fn optimized_embedded(
    alloc: Global,
    text: &[u8],
    given: &[GivenRelation<'_>],
    name: &[u8],
    layout: EmbedLayout,
) -> Result<Vec<u8>, Stop<Unmade<BlifFault, EmbedFault>>>
    requires { length text.now ≤ Limits.TEXT_BYTES }
    ensures keeps { IfOk result
        (λ written. EmbedKeeps text.now (map named_relation given.now) name.now layout written.items) }
    ensures fault { IfFault result (IsTextEmbedFault text.now (map named_relation given.now) name.now) }
{
    let net = embedded_text_net(alloc, text, given, name)?;
    let written = write_embedded(alloc, &net, layout)?;
    Ok(written)
}

/// The optimized netlist of a BLIF text under the name of its component, for callers who write its embedded text piece
/// by piece. It is refused as `optimized_embedded` refuses the text.
pub fn embedded_text_net(
    alloc: Global,
    text: &[u8],
    given: &[GivenRelation<'_>],
    name: &[u8],
) -> Result<Net, Stop<Unmade<BlifFault, EmbedFault>>>
    requires { length text.now ≤ Limits.TEXT_BYTES }
    ensures small { IfOk result
        (λ net. IsSmallComponent text.now (map named_relation given.now) name.now (netlist_of net)) }
    ensures fits { IfOk result (λ net. IsEmbeddable (netlist_of net)) }
    ensures fault { IfFault result (IsTextEmbedFault text.now (map named_relation given.now) name.now) }
{
    match optimized_net(alloc, text, given) {
        Ok(net) => named_net(alloc, net, name),
        Err(Stop::Fault(fault)) => Err(Stop::Fault(Unmade::NoNet(fault))),
        Err(Stop::NoMemory) => Err(Stop::NoMemory),
    }
}
