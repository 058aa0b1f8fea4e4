// The embedded text of a net, whole and piece by piece.

ghost use Rattle.std.specs.Prelude.{◌≡◌, IfOk};
ghost use Rattle.net_ir.specs.Runs.{netlist_of};
ghost use Rattle.base_types.specs.Stops.{IfFault};
ghost use Rattle.csub_embed.specs.Faults.{signals, under_name, IsEmbeddable, IsEmbedFault};
ghost use Rattle.csub_embed.specs.Written.{files_with, written, Means};

use crate::fault::EmbedFault;
use crate::layout::{
    DeclarationsLayout, DefinitionsLayout, EmbedFile, EmbedLayout, FixedLayout, HeaderLayout,
};
use crate::naming::embedded_net;
use base_types::{NoMemory, Stop};
use net_ir::Net;
use net_writer::write_net;
use std::alloc::Global;
use std::marker::PhantomData;

/// What writes the embedded text of a net in a layout, for `net_writer::net_pieces` piece by piece.
#[derive(Drop)]
pub struct EmbedWriter<L: FixedLayout> {
    // Whether something reads an input.
    pub reads_input: bool,
    pub layout: PhantomData<L>,
}

/// The embedded text of a net that has one under its name (`embedded_net`), in this layout.
///
/// It is a header of C99 that is C++ too, or one of two files. With NAME for the net's name, `NAME_t` is the state of
/// an instance. `NAME_inputs_t` and `NAME_outputs_t` have a member for each signal. `NAME_reset` puts an instance to
/// its start. `NAME_react` runs one instant of it, and returns whether it is still active. One of two files has this
/// meaning together with the other one of the same net (`files_with`). The time and the memory that it takes are
/// linear in the length of the text; out of memory is its only error.
pub fn write_embedded(alloc: Global, net: &Net, layout: EmbedLayout) -> Result<Vec<u8>, NoMemory>
    requires { IsEmbeddable (netlist_of net.now) }
    ensures text { IfOk result (λ t. t.items ≡ written layout (netlist_of net.now)) }
    ensures means { IfOk result (λ t. Means layout.packed
        (files_with layout t.items (netlist_of net.now)) (netlist_of net.now)) }
{
    if layout.packed {
        write_file::<true>(alloc, net, layout.file)
    } else {
        write_file::<false>(alloc, net, layout.file)
    }
}

// The same of a file.
fn write_file<const PACKED: bool>(
    alloc: Global,
    net: &Net,
    file: EmbedFile,
) -> Result<Vec<u8>, NoMemory>
    requires { IsEmbeddable (netlist_of net.now) }
    ensures text { IfOk result (λ t. t.items
        ≡ written (record { packed = PACKED; file = file }) (netlist_of net.now)) }
    ensures means { IfOk result (λ t. Means PACKED
        (files_with (record { packed = PACKED; file = file }) t.items (netlist_of net.now)) (netlist_of net.now)) }
{
    match file {
        EmbedFile::Header => write_net::<EmbedWriter<HeaderLayout<PACKED>>>(alloc, net),
        EmbedFile::Declarations => write_net::<EmbedWriter<DeclarationsLayout<PACKED>>>(alloc, net),
        EmbedFile::Definitions => write_net::<EmbedWriter<DefinitionsLayout<PACKED>>>(alloc, net),
    }
}

/// The embedded text of a net under a name, in this layout, where it has one; else the first fault. Running out of
/// memory is the only other error.
pub fn embedded_text(
    alloc: Global,
    net: Net,
    name: &[u8],
    layout: EmbedLayout,
) -> Result<Vec<u8>, Stop<EmbedFault>>
    ensures text { IfOk result (λ t. t.items ≡ written layout (under_name name.now (netlist_of net))) }
    ensures means { IfOk result (λ t. Means layout.packed
        (files_with layout t.items (under_name name.now (netlist_of net))) (under_name name.now (netlist_of net))) }
    ensures fault { IfFault result (IsEmbedFault name.now (signals (netlist_of net))) }
{
    let named = embedded_net(alloc, net, name)?;
    let text = write_embedded(alloc, &named, layout)?;
    Ok(text)
}
