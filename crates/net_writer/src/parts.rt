// The parts of texts of nets, by their numbers.

ghost use Rattle.std.specs.Prelude.{◌≡◌, ◌+◌, ◌<◌, ◌^◌, true, flat_map, IfOk};
ghost use Rattle.net_ir.specs.Runs.{netlist_of};
ghost use Rattle.net_writer.specs.Parts.{PutsPart};

use crate::texts::NetText;
use base_types::NoMemory;
use net_ir::Net;

/// Puts the part with this number, counted through all sections, after a text; false if there is none. As far as a
/// proof knows, the lists of a net may have more elements together than a `usize` counts. The only error is out of
/// memory.
pub fn put_part<T: NetText>(
    form: &T,
    text: &mut Vec<u8>,
    net: &Net,
    k: u128,
) -> Result<bool, NoMemory>
    requires { T.is_of form.now (netlist_of net.now) }
    ensures puts { IfOk result
        (PutsPart (flat_map (T.parts_in (netlist_of net.now)) T.sections) k text.old.items text.new.items) }
    ensures few { IfOk result (λ more. more ≡ true → k + 1 < 2 ^ 128) }
{
    let mut place = k;
    for section in T::sections() {
        let count = T::count(net, *section) as u128;
        if place < count {
            form.put_in(text, net, *section, place as usize)?;
            return Ok(true);
        }
        place -= count;
    }
    Ok(false)
}
