// The regions of gates, by those of the wires that they carry.

ghost use Rattle.std.specs.Prelude.{◌≡◌, ℕ, ◌<◌, length, IfOk, Some, None, if◌then◌else◌};
ghost use Rattle.std.specs.Prelude.{option_and_then, slice_get, slice_index_or};
ghost use Rattle.net_ir.specs.Runs.{netlist_of};
ghost use Rattle.csub_guard_blocks.specs.Usages.{region_in};
ghost use Rattle.csub_guard_writer.specs.Regions.{carrier, if_head, is_wire, region_by};

use base_types::{NoMemory, WireId};
use net_ir::Net;
use std::alloc::Global;

/// For each gate the place of the gate that carries the wire of its region's head. Its only error is out of memory.
pub fn gate_regions(
    alloc: Global,
    net: &Net,
    regions: &[Option<WireId>],
) -> Result<Vec<Option<usize>>, NoMemory>
    ensures count { IfOk result (λ r. length r.items ≡ length net.now.gates.items) }
    ensures are { IfOk result (λ r. (k : ℕ) → k < length net.now.gates.items
        → region_in r.items k ≡ region_by (netlist_of net.now) regions.now k) }
{
    let places = wire_places(alloc, net, regions.len())?;
    let mut found = Vec::new(alloc);
    for k in 0..net.gates.len() {
        found.push(head_place(regions, &places, net.gates[k].wire))?;
    }
    Ok(found)
}

// For each of this many wires the place of the first gate that carries it.
fn wire_places(alloc: Global, net: &Net, count: usize) -> Result<Vec<Option<usize>>, NoMemory>
    ensures count { IfOk result (λ places. length places.items ≡ count) }
    ensures are { IfOk result (λ places. (w : ℕ) → w < count
        → slice_index_or places.items w None ≡ carrier 0 net.now.gates.items w) }
{
    let mut places = vec![in alloc; None; count]?;
    for k in (0..net.gates.len()).rev() {
        note_place(&mut places, net.gates[k].wire, k);
    }
    Ok(places)
}

// The wire is carried by the gate at this place.
fn note_place(places: &mut [Option<usize>], wire: Option<WireId>, k: usize)
    ensures count { length places.new ≡ length places.old }
    ensures are { (w : ℕ) → w < length places.old → slice_index_or places.new w None
        ≡ (if is_wire w wire then Some k else slice_index_or places.old w None) }
{
    if let Some(w) = wire {
        if (w.0 as usize) < places.len() {
            places[w.0 as usize] = Some(k);
        }
    }
}

// The place of the gate that carries the wire of the head of this wire's region.
fn head_place(
    regions: &[Option<WireId>],
    places: &[Option<usize>],
    wire: Option<WireId>,
) -> Option<usize>
    requires { length places.now ≡ length regions.now }
    ensures { result ≡ option_and_then (λ v. option_and_then
        (λ h. if_head (slice_get regions.now h.0) (slice_index_or places.now h.0 None))
        (slice_index_or regions.now v.0 None)) wire }
{
    match wire {
        None => None,
        Some(own) => match region_of(regions, own) {
            None => None,
            Some(head) => place_of(regions, places, head),
        },
    }
}

// The region of a wire; none where it has no entry.
fn region_of(regions: &[Option<WireId>], wire: WireId) -> Option<WireId>
    ensures { result ≡ slice_index_or regions.now wire.0 None }
{
    let w = wire.0 as usize;
    if w < regions.len() { regions[w] } else { None }
}

// The place of the gate that carries the wire of a head, which lies in no region itself.
fn place_of(regions: &[Option<WireId>], places: &[Option<usize>], head: WireId) -> Option<usize>
    requires { length places.now ≡ length regions.now }
    ensures { result ≡ if_head (slice_get regions.now head.0) (slice_index_or places.now head.0 None) }
{
    let h = head.0 as usize;
    if h < regions.len() && regions[h].is_none() {
        places[h]
    } else {
        None
    }
}
