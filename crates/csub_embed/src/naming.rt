// A net under the name of its component.

ghost use Rattle.std.specs.Prelude.{◌≡◌, true, map, option_map, find, IfOk};
ghost use Rattle.std.specs.List.{list_all};
ghost use Rattle.base_types.specs.Names.{is_name, is_name_byte};
ghost use Rattle.base_types.specs.Stops.{IfFault};
ghost use Rattle.net_ir.specs.Runs.{netlist_of};
ghost use Rattle.csub_embed.specs.Names.{is_reserved};
ghost use Rattle.csub_embed.specs.Faults.{signals, under_name, IsEmbeddable, IsEmbedFault};

use crate::fault::EmbedFault;
use crate::words::{is_reserved, is_type};
use base_types::{Stop, Text, is_letter, is_name_byte};
use net_ir::{Net, NetOut};
use std::alloc::Global;

/// The net under the name of its component, where it has an embedded text; else the first fault. Running out of memory
/// is the only other error.
///
/// Example: the net with an input `int` has none.
pub fn embedded_net(alloc: Global, net: Net, name: &[u8]) -> Result<Net, Stop<EmbedFault>>
    ensures named { IfOk result (λ n. netlist_of n ≡ under_name name.now (netlist_of net)) }
    ensures fits { IfOk result (λ n. IsEmbeddable (netlist_of n)) }
    ensures fault { IfFault result (IsEmbedFault name.now (signals (netlist_of net))) }
{
    if !is_name(name) {
        return Err(Stop::Fault(EmbedFault::NoName));
    }
    if is_type(name) {
        return Err(Stop::Fault(EmbedFault::TypeTaken));
    }
    if let Some(word) = reserved_signal(&net) {
        let word = Text::from_bytes(alloc, word)?;
        return Err(Stop::Fault(EmbedFault::Reserved(word)));
    }
    let name = Text::from_bytes(alloc, name)?;
    Ok(renamed(net, name))
}

// Whether this is a letter, followed by letters, digits and `_`.
fn is_name(name: &[u8]) -> bool
    ensures { result ≡ is_name name.now }
{
    match name {
        [] => false,
        [first, rest @ ..] => is_letter(*first) && are_name_bytes(rest),
    }
}

fn are_name_bytes(bytes: &[u8]) -> bool
    ensures { result ≡ list_all is_name_byte bytes.now }
{
    bytes.iter().all(|byte| is_name_byte(*byte))
}

// The first signal that is a word of C or of C++.
fn reserved_signal(net: &Net) -> Option<&[u8]>
    ensures { option_map (λ w. w.now) result ≡ find is_reserved (signals (netlist_of net.now)) }
{
    match reserved_input(&net.inputs) {
        Some(word) => Some(word),
        None => reserved_output(&net.outputs),
    }
}

fn reserved_input(inputs: &[Text]) -> Option<&[u8]>
    ensures { option_map (λ w. w.now) result ≡ find is_reserved inputs.now }
{
    for name in inputs {
        if is_reserved(name.bytes()) {
            return Some(name.bytes());
        }
    }
    None
}

fn reserved_output(outputs: &[NetOut]) -> Option<&[u8]>
    ensures { option_map (λ w. w.now) result ≡ find is_reserved (map (λ o. o.name) outputs.now) }
{
    for output in outputs {
        if is_reserved(output.name.bytes()) {
            return Some(output.name.bytes());
        }
    }
    None
}

// The net under another name.
fn renamed(net: Net, name: Text) -> Net
    requires { is_name name ≡ true }
    ensures { netlist_of result ≡ under_name name (netlist_of net) }
{
    let Net {
        name: _,
        inputs,
        outputs,
        paused,
        latches,
        gates,
    } = net;
    Net {
        name,
        inputs,
        outputs,
        paused,
        latches,
        gates,
    }
}
