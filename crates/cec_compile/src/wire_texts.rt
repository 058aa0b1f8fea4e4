// The texts of some wires in a line.

ghost use Rattle.std.specs.Prelude.{◌≡◌, ◌++◌, flat_map, map, IfOk, OnOk};
ghost use Rattle.grc_graph.specs.PlainWireNames.{wire_name_of};
ghost use Rattle.grc_list.specs.Listings.{wire_text};
ghost use Rattle.cec_compile.specs.WireTexts.{joined_texts};

use base_types::NoMemory;
use grc_graph::WireName;
use grc_list::wire_text;
use std::alloc::Global;

/// The texts of wires, with this text between each and the next.
pub fn joined_texts(alloc: Global, wires: &[WireName], between: &[u8]) -> Result<Vec<u8>, NoMemory>
    ensures { IfOk result (λ text. text.items ≡ joined_texts between.now (map wire_name_of wires.now)) }
{
    match wires.split_first() {
        Some((first, others)) => {
            let mut text = wire_text(alloc, first)?;
            put_others(alloc, &mut text, others, between)?;
            Ok(text)
        }
        None => Ok(Vec::new(alloc)),
    }
}

// The texts of more wires, each after this text.
fn put_others(
    alloc: Global,
    text: &mut Vec<u8>,
    wires: &[WireName],
    between: &[u8],
) -> Result<(), NoMemory>
    ensures { OnOk result (text.new.items
        ≡ text.old.items ++ flat_map (λ w. between.now ++ wire_text (wire_name_of w)) wires.now) }
{
    for wire in wires {
        text.extend_from_slice(between)?;
        text.extend_from_slice(&wire_text(alloc, wire)?)?;
    }
    Ok(())
}
