// Whether one netlist follows another.

ghost use Rattle.std.specs.Prelude.{◌≡◌, [], ◌++◌, true, false, length, map, IfOk, OnOk};
ghost use Rattle.net_ir.specs.Runs.{netlist_of};
ghost use Rattle.net_follow.specs.Literals.{moved_equation};
ghost use Rattle.net_follow.specs.Frames.{all_claims, first_equations, step_equations};
ghost use Rattle.net_follow.specs.Frames.{instant_equations, net_equations};
ghost use Rattle.net_follow.specs.Proving.{Entails};
ghost use Rattle.net_follow.specs.Matching.{AreShown};
ghost use Rattle.net_follow.specs.Following.{IsFollowed};

use crate::frames::{
    push_gates, push_inits, push_inputs, push_links, push_moved, push_outputs, shows_equation,
};
use crate::literals::{Equation, Side};
use crate::proving::unshown_claims;
use base_types::NoMemory;
use net_ir::Net;
use std::alloc::Global;

/// The places of the claims that are not shown of an instant where all hold one instant before, or, where there is
/// none, of the first instant. A claim is shown by those before it, whether these were shown or not. Claimed is what
/// the caller claims of the nets in one instant, and then, which may rest on it, that each output, in order, and then
/// `paused` is the same in both netlists. Where the result is empty, the new netlist follows the given one: over every
/// list of items both show the same. Netlists that have not as many inputs and outputs are not compared, and the result
/// has an element.
pub fn unshown_places(
    alloc: Global,
    old: &Net,
    new: &Net,
    claims: &[Equation],
) -> Result<Vec<usize>, NoMemory>
    ensures { IfOk result (λ places. places.items ≡ []
        → IsFollowed (netlist_of old.now) (netlist_of new.now)) }
{
    if old.inputs.len() != new.inputs.len() {
        return Ok(vec![in alloc; 0; 1]?);
    }
    if old.outputs.len() != new.outputs.len() {
        return Ok(vec![in alloc; 0; 1]?);
    }
    let facts = all_claims(alloc, old, new, claims)?;
    Ok(unshown_facts(alloc, old, new, &facts)?)
}

// The facts that are not shown: of later instants, and where there is none, of the first one.
fn unshown_facts(
    alloc: Global,
    old: &Net,
    new: &Net,
    facts: &[Equation],
) -> Result<Vec<usize>, NoMemory>
    ensures { IfOk result (λ places. places.items ≡ []
        → AreShown (netlist_of old.now) (netlist_of new.now) facts.now) }
{
    let later = unshown_later(alloc, old, new, facts)?;
    if !later.is_empty() {
        return Ok(later);
    }
    unshown_at_first(alloc, old, new, facts)
}

// All that is claimed.
fn all_claims(
    alloc: Global,
    old: &Net,
    new: &Net,
    claims: &[Equation],
) -> Result<Vec<Equation>, NoMemory>
    requires { length new.now.outputs.items ≡ length old.now.outputs.items }
    ensures { IfOk result (λ v. v.items ≡ all_claims (netlist_of old.now) (netlist_of new.now) claims.now) }
{
    let mut list = Vec::from_slice(alloc, claims)?;
    push_outputs(&mut list, &old.outputs, &new.outputs)?;
    list.push(shows_equation(new.paused.0, old.paused.0))?;
    Ok(list)
}

// The claims that are not shown of the first instant.
fn unshown_at_first(
    alloc: Global,
    old: &Net,
    new: &Net,
    facts: &[Equation],
) -> Result<Vec<usize>, NoMemory>
    ensures { IfOk result (λ places. places.items ≡ []
        → Entails (first_equations (netlist_of old.now) (netlist_of new.now)) (map (moved_equation false) facts.now)) }
{
    let mut assumed = Vec::new(alloc);
    push_instant(&mut assumed, false, old, new)?;
    push_inits(&mut assumed, Side::Old, old.inputs.len(), &old.latches)?;
    push_inits(&mut assumed, Side::New, new.inputs.len(), &new.latches)?;
    let mut claims = Vec::new(alloc);
    push_moved(&mut claims, false, facts)?;
    unshown_claims(alloc, greatest_count(old, new), &assumed, &claims)
}

// The claims that are not shown of an instant, where all of them hold one instant before.
fn unshown_later(
    alloc: Global,
    old: &Net,
    new: &Net,
    facts: &[Equation],
) -> Result<Vec<usize>, NoMemory>
    ensures { IfOk result (λ places. places.items ≡ []
        → Entails (step_equations (netlist_of old.now) (netlist_of new.now) facts.now)
        (map (moved_equation true) facts.now)) }
{
    let mut assumed = Vec::new(alloc);
    push_instant(&mut assumed, false, old, new)?;
    push_moved(&mut assumed, false, facts)?;
    push_instant(&mut assumed, true, old, new)?;
    push_links(&mut assumed, Side::Old, old.inputs.len(), &old.latches)?;
    push_links(&mut assumed, Side::New, new.inputs.len(), &new.latches)?;
    let mut claims = Vec::new(alloc);
    push_moved(&mut claims, true, facts)?;
    unshown_claims(alloc, greatest_count(old, new), &assumed, &claims)
}

// What holds of both netlists in every instant.
fn push_instant(list: &mut Vec<Equation>, late: bool, old: &Net, new: &Net) -> Result<(), NoMemory>
    ensures { OnOk result (list.new.items ≡ list.old.items
        ++ instant_equations late (netlist_of old.now) (netlist_of new.now)) }
{
    push_inputs(list, late, &old.inputs)?;
    push_side(list, late, Side::Old, old)?;
    push_side(list, late, Side::New, new)
}

// What the gates of one netlist compute.
fn push_side(list: &mut Vec<Equation>, late: bool, side: Side, net: &Net) -> Result<(), NoMemory>
    ensures { OnOk result (list.new.items ≡ list.old.items ++ net_equations late side (netlist_of net.now)) }
{
    push_gates(
        list,
        late,
        side,
        net.inputs.len() + net.latches.len(),
        &net.gates,
    )
}

// The number of nets of the netlist that has more.
fn greatest_count(old: &Net, new: &Net) -> usize {
    net_count(old).max(net_count(new))
}

fn net_count(net: &Net) -> usize {
    net.inputs.len() + net.latches.len() + net.gates.len()
}
