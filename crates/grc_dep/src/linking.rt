// Edges that are appended by the numbers of their wires.

ghost use Rattle.std.specs.Prelude.{◌≡◌, ◌&&◌, ◌∷◌, ◌++◌, [], nat_le, OnOk};
ghost use Rattle.base_types.specs.CodeSet.{members};
ghost use Rattle.est_kernel.specs.Steps.{trap_code};
ghost use Rattle.grc_graph.specs.PlainInstances.{instance_of};
ghost use Rattle.grc_graph.specs.Wires.{Wire, End};
ghost use Rattle.grc_graph.specs.Edges.{edge, edges_if, go_to_ends, ends_to_ends, branch_to_ends, trapped_to_ends};
ghost use Rattle.grc_dep.specs.Names.{wire_named};
ghost use Rattle.grc_dep.specs.Families.{to_ends_above};
ghost use Rattle.grc_dep.specs.Found.{found_by};

use crate::lookups::Lookups;
use crate::names::NamedWire;
use base_types::{CodeSet, NoMemory, WireId};
use grc_graph::{Instance, codes_end};

// The edge between two wires, where the graph has both.
pub fn push_edge(
    lookups: &Lookups,
    from: NamedWire,
    to: NamedWire,
    pairs: &mut Vec<(WireId, WireId)>,
) -> Result<(), NoMemory>
    ensures { OnOk result (pairs.new.items ≡ pairs.old.items
        ++ found_by lookups.now (edge (wire_named from) (wire_named to) ∷ [])) }
{
    match lookups.find(from) {
        None => Ok(()),
        Some(from) => match lookups.find(to) {
            None => Ok(()),
            Some(to) => {
                pairs.push((from, to))?;
                Ok(())
            }
        },
    }
}

// The edge between two wires, where a condition holds and the graph has both.
pub fn push_edge_if(
    lookups: &Lookups,
    holds: bool,
    from: NamedWire,
    to: NamedWire,
    pairs: &mut Vec<(WireId, WireId)>,
) -> Result<(), NoMemory>
    ensures { OnOk result (pairs.new.items ≡ pairs.old.items
        ++ found_by lookups.now (edges_if holds (edge (wire_named from) (wire_named to) ∷ []))) }
{
    if holds {
        return push_edge(lookups, from, to, pairs);
    }
    Ok(())
}

// From the `go` of an instance to each of its ends.
pub fn push_go_to_ends(
    lookups: &Lookups,
    codes: CodeSet,
    at: Instance,
    pairs: &mut Vec<(WireId, WireId)>,
) -> Result<(), NoMemory>
    ensures { OnOk result (pairs.new.items ≡ pairs.old.items
        ++ found_by lookups.now (go_to_ends (members codes) (instance_of at).path (instance_of at).layer)) }
{
    for code in 0..codes_end(codes) {
        let holds = codes.has(code);
        push_edge_if(
            lookups,
            holds,
            NamedWire::Go(at),
            NamedWire::End(at, code),
            pairs,
        )?;
    }
    Ok(())
}

// From each end of a part to the end of its whole with the same code.
pub fn push_ends_to_ends(
    lookups: &Lookups,
    codes: CodeSet,
    part: Instance,
    whole: Instance,
    pairs: &mut Vec<(WireId, WireId)>,
) -> Result<(), NoMemory>
    ensures { OnOk result (pairs.new.items ≡ pairs.old.items
        ++ found_by lookups.now (ends_to_ends (members codes) (instance_of part).path (instance_of part).layer
        (instance_of whole).path (instance_of whole).layer)) }
{
    for code in 0..codes_end(codes) {
        let holds = codes.has(code);
        let to = NamedWire::End(whole, code);
        push_edge_if(lookups, holds, NamedWire::End(part, code), to, pairs)?;
    }
    Ok(())
}

// From each end of a trap's body to the trap's end.
pub fn push_trapped_to_ends(
    lookups: &Lookups,
    codes: CodeSet,
    part: Instance,
    whole: Instance,
    pairs: &mut Vec<(WireId, WireId)>,
) -> Result<(), NoMemory>
    requires { (instance_of part).layer ≡ (instance_of whole).layer }
    ensures { OnOk result (pairs.new.items ≡ pairs.old.items
        ++ found_by lookups.now (trapped_to_ends (members codes) (instance_of part).path (instance_of whole).path
        (instance_of whole).layer)) }
{
    for code in 0..codes_end(codes) {
        let holds = codes.has(code);
        let to = NamedWire::End(whole, trap_code(code));
        push_edge_if(lookups, holds, NamedWire::End(part, code), to, pairs)?;
    }
    Ok(())
}

// The code of a trap whose body ends with this code.
fn trap_code(code: u8) -> u8
    ensures { result ≡ trap_code code }
{
    match code {
        0 | 2 => 0,
        1 => 1,
        _ => code - 1,
    }
}

// From each end of a branch to each end of its parallel with a code that is no less.
pub fn push_branch_to_ends(
    lookups: &Lookups,
    codes: CodeSet,
    whole_codes: CodeSet,
    part: Instance,
    whole: Instance,
    pairs: &mut Vec<(WireId, WireId)>,
) -> Result<(), NoMemory>
    requires { (instance_of part).layer ≡ (instance_of whole).layer }
    ensures { OnOk result (pairs.new.items ≡ pairs.old.items
        ++ found_by lookups.now (branch_to_ends (members codes) (members whole_codes) (instance_of part).path
        (instance_of whole).path (instance_of whole).layer)) }
{
    for code in 0..codes_end(codes) {
        let holds = codes.has(code);
        push_to_ends_above(lookups, holds, whole_codes, part, code, whole, pairs)?;
    }
    Ok(())
}

// From an end of a branch to each end of its parallel with a code that is no less, where a condition holds.
fn push_to_ends_above(
    lookups: &Lookups,
    holds: bool,
    whole_codes: CodeSet,
    part: Instance,
    code: u8,
    whole: Instance,
    pairs: &mut Vec<(WireId, WireId)>,
) -> Result<(), NoMemory>
    ensures { OnOk result (pairs.new.items ≡ pairs.old.items ++ found_by lookups.now
        (edges_if holds (to_ends_above (members whole_codes) (wire_named (NamedWire.End part code)) code
        (instance_of whole).path (instance_of whole).layer))) }
{
    if !holds {
        return Ok(());
    }
    for above in 0..codes_end(whole_codes) {
        let holds = has_above(whole_codes, code, above);
        let to = NamedWire::End(whole, above);
        push_edge_if(lookups, holds, NamedWire::End(part, code), to, pairs)?;
    }
    Ok(())
}

// Whether a set has a code, which is no less than another.
fn has_above(codes: CodeSet, least: u8, code: u8) -> bool
    ensures { result ≡ (nat_le least code && members codes code) }
{
    least <= code && codes.has(code)
}
