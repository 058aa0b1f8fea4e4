// The places of outgoing signals, and their nets.

ghost use Rattle.std.specs.Prelude.{◌≡◌, map, None, false, IfSome};
ghost use Rattle.est_kernel.specs.Plain.{outgoing_names, program_of};
ghost use Rattle.net_ir.specs.NameLists.{is_among};
ghost use Rattle.net_ir.specs.Netlists.{output_names};
ghost use Rattle.net_ir.specs.Runs.{netlist_of};
ghost use Rattle.cec_compile.specs.NetMeaning.{NetKeeps};
ghost use Rattle.cec_prove_sources.specs.NetClaims.{output_net};
ghost use Rattle.cec_prove_sources.specs.Verdicts.{HasPlace};

use est_kernel::KernelProgram;
use net_ir::{Net, NetOut};

/// The place of an outgoing signal by its name.
pub fn place_of(program: &KernelProgram, net: &Net, name: &[u8]) -> Option<usize>
    requires keeps { NetKeeps (netlist_of net.now) (program_of program.now) }
    ensures found { IfSome result (HasPlace (outgoing_names (program_of program.now)) name.now) }
    ensures none { result ≡ None → is_among name.now (outgoing_names (program_of program.now)) ≡ false }
{
    output_place(net, name)
}

/// The place of an output of a netlist by its name.
pub(crate) fn output_place(net: &Net, name: &[u8]) -> Option<usize>
    ensures found { IfSome result (HasPlace (output_names (netlist_of net.now)) name.now) }
    ensures none { result ≡ None → is_among name.now (output_names (netlist_of net.now)) ≡ false }
{
    place_among(&net.outputs, name)
}

// The place of the output of this name.
fn place_among(outputs: &[NetOut], name: &[u8]) -> Option<usize>
    ensures found { IfSome result (HasPlace (map (λ o. o.name) outputs.now) name.now) }
    ensures none { result ≡ None → is_among name.now (map (λ o. o.name) outputs.now) ≡ false }
{
    for (k, output) in outputs.iter().enumerate() {
        if name == output.name.bytes() {
            return Some(k);
        }
    }
    None
}

/// The net of the output with this place.
pub(crate) fn output_net(outputs: &[NetOut], place: usize) -> u32
    ensures { result ≡ output_net outputs.now place }
{
    if place < outputs.len() {
        outputs[place].net.0
    } else {
        0
    }
}
