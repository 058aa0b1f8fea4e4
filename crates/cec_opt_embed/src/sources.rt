// The embedded text of a source.

ghost use Rattle.std.specs.Prelude.{◌≤◌, length, IfOk, option_map};
ghost use Rattle.base_types.specs.Stops.{IfFault};
ghost use Rattle.net_ir.specs.Runs.{netlist_of};
ghost use Rattle.csub_embed.specs.Faults.{IsEmbeddable};
ghost use Rattle.cec_opt_embed.specs.Faults.{IsSourceEmbedFault};
ghost use Rattle.cec_opt_embed.specs.Sources.{IsComponentNetOf, StandsForEmbedded};

use crate::naming::named_net;
use base_types::{Limits, Stop};
use cec_cycles::{CycleRefusal, constructive_net};
use cec_opt_faults::{Unmade, no_source_net};
use cec_opt_sources::Coding;
use csub_embed::{EmbedFault, EmbedLayout, write_embedded};
use grc_order::Picker;
use net_ir::Net;
use std::alloc::Global;

/// The embedded C text of a source, whose dependencies may have a cycle, under the name of its component and in this
/// layout. The compiler-correctness theorem holds of the text, or of one of two files with the other one of the same
/// netlist (`EmbeddedTextKeeps`). It describes a component with this name, with a member for each given and each
/// outgoing signal. Take any calls on any number of instances, in any order. An instance whose first call is a reset,
/// and whose events meet the source's relations, shows at each call what the reaction is, and each of these reactions
/// is constructive. Calls on one instance change no other one.
///
/// The effort is one of `net_search`, for dependencies with a cycle. The fault is that of the source, as
/// `cec_cycles::constructive_net` says it, and where it has none, the first one of the name and of the signals
/// (`IsEmbedFault`). Running out of memory is the only other error.
///
/// Example: of `module M: output O; emit O end module` and the name `lamp`, the text declares `lamp_t`.
pub fn embedded_c_of<P: Picker>(
    alloc: Global,
    text: &[u8],
    main: Option<&[u8]>,
    picker: &mut P,
    effort: u64,
    name: &[u8],
    layout: EmbedLayout,
) -> Result<Vec<u8>, Stop<Unmade<CycleRefusal, EmbedFault>>>
    requires { length text.now ≤ Limits.SOURCE_BYTES }
    ensures compiles { IfOk result (λ written. StandsForEmbedded text.now
        (option_map (λ m. m.now) main.entry) name.now layout written.items) }
    ensures fault { IfFault result (IsSourceEmbedFault text.now (option_map (λ m. m.now) main.entry) name.now) }
{
    let net = embedded_source_net(alloc, text, main, picker, effort, name)?;
    let written = write_embedded(alloc, &net, layout)?;
    Ok(written)
}

/// The netlist of a source under the name of its component, for callers who write its embedded text piece by piece:
/// that of `cec_cycles::constructive_net`, under this name. It is refused as `embedded_c_of` refuses the text.
pub fn embedded_source_net<P: Picker>(
    alloc: Global,
    text: &[u8],
    main: Option<&[u8]>,
    picker: &mut P,
    effort: u64,
    name: &[u8],
) -> Result<Net, Stop<Unmade<CycleRefusal, EmbedFault>>>
    requires { length text.now ≤ Limits.SOURCE_BYTES }
    ensures compiles { IfOk result (λ net. IsComponentNetOf text.now
        (option_map (λ m. m.now) main.entry) name.now (netlist_of net)) }
    ensures fits { IfOk result (λ net. IsEmbeddable (netlist_of net)) }
    ensures fault { IfFault result (IsSourceEmbedFault text.now (option_map (λ m. m.now) main.entry) name.now) }
{
    match constructive_net(alloc, text, main, picker, Coding::Lighter, effort) {
        Ok(net) => named_net(alloc, net, name),
        Err(refusal) => Err(no_source_net(refusal)),
    }
}
