// A smaller netlist, and the check that it follows the given one.

ghost use Rattle.std.specs.Prelude.{◌≡◌, true, IfOk, IfSome};
ghost use Rattle.net_ir.specs.Runs.{netlist_of};
ghost use Rattle.net_follow.specs.Following.{IsFollowed};
ghost use Rattle.net_opt.specs.Optimized.{Replaces, SameInterface};

use crate::assembling::assembled_net;
use crate::balancing::balanced;
use crate::building::{Built, built_graph, marked_nodes};
use crate::classes::{Classes, equation, literal};
use crate::collapsing::collapsed;
use crate::copying::{in_order_of_need, places_in_order, without_told};
use crate::edges::{Edge, TRUE, edge_at, is_marked, mark, negated_if, number_at, straight};
use crate::emitting::{Emitted, emitted_parts, parts_of};
use crate::excluding::Exclusions;
use crate::rewriting::rewritten;
use crate::telling::{Told, told_latches, untold};
use base_types::NoMemory;
use net_follow::{Equation, Side, unshown_places};
use net_ir::Net;
use std::alloc::Global;

// How often a netlist is checked, each time with fewer claims.
const CHECKS: usize = 100;

// A graph of more nodes than this is not rewritten any more where it was no smaller that many times.
const LARGE: usize = 500;

const VAIN: usize = 2;

/// A netlist that shows what the given one shows, or else the places of the given one's nets of which the claims were
/// not shown.
#[derive(Drop)]
pub(crate) struct Trial {
    pub new: Option<Net>,
    pub failing: Vec<bool>,
    /// Whether a latch is removed because a gate determines its value.
    pub tells: bool,
}

// Claims, and the place of the net that each is of.
#[derive(Drop)]
struct Claims {
    equations: Vec<Equation>,
    places: Vec<usize>,
}

/// How the graph of a netlist is changed.
#[derive(Clone, Copy)]
pub(crate) enum Change {
    // not at all
    Keep,
    // latches whose values gates determine are removed, if that needs at most this many more pairs than go with them
    Tell(usize),
    // nodes are put in the order in which they are needed
    Order,
    // chains are balanced by depth
    Balance,
    // parts are rewritten this many times
    Rewrite(usize),
    // the functions of the roots are built anew
    Collapse,
}

/// The netlist in which the classes' nets are one, changed so, if it can be shown to follow.
pub(crate) fn tried_classes(
    alloc: Global,
    net: &Net,
    classes: &Classes,
    exclusions: &Exclusions,
    change: Change,
) -> Result<Trial, NoMemory>
    ensures { IfOk result (λ t. IfSome t.new (λ new. Replaces (netlist_of net.now) (netlist_of new))) }
{
    let mut plain = built_graph(alloc, net, &classes.stand_ins)?;
    let told = match change {
        Change::Tell(worth) => told_latches(alloc, net, classes, &mut plain, worth)?,
        _ => untold(alloc, net)?,
    };
    let begun = without_told(alloc, net, plain, &told)?;
    let mut failing = vec![in alloc; false; classes.stand_ins.len()]?;
    let Some(built) = changed(alloc, net, begun, exclusions, change)? else {
        return Ok(Trial {
            new: None,
            failing,
            tells: false,
        });
    };
    let order = places_in_order(alloc, net, &told)?;
    let marks = marked_nodes(alloc, net, &built)?;
    let emitted = emitted_parts(alloc, net, &built, &marks)?;
    let claims = claimed(alloc, classes, exclusions, &built, &order, &marks, &emitted)?;
    let new = match assembled_net(alloc, net, parts_of(emitted))? {
        Some(made) => followed_net(alloc, net, made, claims, classes, &mut failing)?,
        None => None,
    };
    Ok(Trial {
        new,
        failing,
        tells: tells_some(&told),
    })
}

fn tells_some(told: &Told) -> bool {
    for gate in &told.gates {
        if *gate != usize::MAX {
            return true;
        }
    }
    false
}

// The graph, changed so. None where the functions of the roots are too large.
fn changed(
    alloc: Global,
    net: &Net,
    built: Built,
    exclusions: &Exclusions,
    change: Change,
) -> Result<Option<Built>, NoMemory> {
    match change {
        Change::Keep | Change::Tell(_) => Ok(Some(built)),
        Change::Order => Ok(Some(in_order_of_need(alloc, net, &built)?)),
        Change::Balance => {
            let marks = marked_nodes(alloc, net, &built)?;
            Ok(Some(balanced(alloc, net, &built, &marks)?))
        }
        Change::Rewrite(times) => Ok(Some(remade(alloc, net, built, exclusions, times)?)),
        Change::Collapse => {
            let marks = marked_nodes(alloc, net, &built)?;
            collapsed(alloc, net, &built, &marks)
        }
    }
}

// The graph, rewritten at most this many times; after the first time what only changes is taken too. A large graph that
// stays as large for some times is left as it is.
fn remade(
    alloc: Global,
    net: &Net,
    built: Built,
    exclusions: &Exclusions,
    times: usize,
) -> Result<Built, NoMemory> {
    let mut now = built;
    let mut least = usize::MAX;
    let mut vain: usize = 0;
    for pass in 0..times {
        let marks = marked_nodes(alloc, net, &now)?;
        let count = true_count(&marks);
        vain = if count < least {
            0
        } else {
            vain.saturating_add(1)
        };
        least = least.min(count);
        if vain >= VAIN && count > LARGE {
            break;
        }
        now = rewritten(alloc, net, &now, &marks, exclusions, pass > 0, pass)?;
        let marks = marked_nodes(alloc, net, &now)?;
        now = balanced(alloc, net, &now, &marks)?;
    }
    Ok(now)
}

fn true_count(marks: &[bool]) -> usize {
    let mut count: usize = 0;
    for mark in marks {
        if *mark {
            count = count.saturating_add(1);
        }
    }
    count
}

// What is claimed: what is excluded, what the classes say, and that each net, in this order, has the value of what
// becomes of it.
fn claimed(
    alloc: Global,
    classes: &Classes,
    exclusions: &Exclusions,
    built: &Built,
    order: &[usize],
    marks: &[bool],
    emitted: &Emitted,
) -> Result<Claims, NoMemory> {
    let mut claims = Claims {
        equations: Vec::new(alloc),
        places: Vec::new(alloc),
    };
    for claim in &exclusions.claims {
        claims.equations.push(*claim)?;
        claims.places.push(0)?;
    }
    for place in 1..built.edges.len() {
        if classes.joins(place) {
            claims
                .equations
                .push(equation(place, edge_at(&classes.stand_ins, place)))?;
            claims.places.push(place)?;
        }
    }
    for place in order {
        let edge = edge_at(&built.edges, *place);
        if *place > 0 && (edge.node == 0 || is_marked(marks, edge.node)) {
            let name = emitted.name(edge);
            claims.equations.push(claim(*place - 1, name))?;
            claims.places.push(*place)?;
        }
    }
    Ok(claims)
}

// A net of the given netlist has the value of a net of the new one, or of its negation.
fn claim(number: usize, name: Edge) -> Equation {
    let old = straight(number.saturating_add(1));
    if name.node == 0 {
        Equation {
            out: literal(Side::Old, old),
            left: literal(Side::Always, name),
            right: literal(Side::Always, TRUE),
        }
    } else {
        Equation {
            out: literal(Side::New, straight(name.node)),
            left: literal(Side::Old, negated_if(old, name.negative)),
            right: literal(Side::Always, TRUE),
        }
    }
}

// The netlist, if it is shown to follow; else the places of the claims that are not shown are marked. What is excluded
// is claimed only where the other claims need it: it takes most of the time to show.
fn followed_net(
    alloc: Global,
    net: &Net,
    new: Net,
    claims: Claims,
    classes: &Classes,
    failing: &mut Vec<bool>,
) -> Result<Option<Net>, NoMemory>
    requires { SameInterface (netlist_of net.now) (netlist_of new) }
    ensures { IfOk result (λ o. IfSome o (λ made. Replaces (netlist_of net.now) (netlist_of made))) }
{
    if follows_plainly(alloc, net, &new, &claims)? {
        return Ok(Some(new));
    }
    followed_by_all(alloc, net, new, claims, classes, failing)
}

// Whether the netlist is shown to follow by the claims of nets alone, where something is excluded too.
fn follows_plainly(alloc: Global, net: &Net, new: &Net, claims: &Claims) -> Result<bool, NoMemory>
    ensures { IfOk result (λ follows. follows ≡ true
        → IsFollowed (netlist_of net.now) (netlist_of new.now)) }
{
    if number_at(&claims.places, 0) != 0 {
        return Ok(false);
    }
    let plain = fewer_claims(alloc, claims, &[true])?;
    let unshown = unshown_places(alloc, net, new, &plain.equations)?;
    Ok(unshown.is_empty())
}

// The netlist, if all claims show that it follows; else the places of those that are not shown are marked. If none of
// them is of a net that another one stands for, they are not claimed any more, and the netlist is checked again.
fn followed_by_all(
    alloc: Global,
    net: &Net,
    new: Net,
    claims: Claims,
    classes: &Classes,
    failing: &mut Vec<bool>,
) -> Result<Option<Net>, NoMemory>
    requires { SameInterface (netlist_of net.now) (netlist_of new) }
    ensures { IfOk result (λ o. IfSome o (λ made. Replaces (netlist_of net.now) (netlist_of made))) }
{
    let mut claims = claims;
    for _check in 0..CHECKS {
        let unshown = unshown_places(alloc, net, &new, &claims.equations)?;
        if unshown.is_empty() {
            return Ok(Some(new));
        }
        for place in &unshown {
            mark(failing, number_at(&claims.places, *place));
        }
        if classes.joins_some(failing) {
            return Ok(None);
        }
        let fewer = fewer_claims(alloc, &claims, failing)?;
        if fewer.places.len() == claims.places.len() {
            return Ok(None);
        }
        claims = fewer;
    }
    Ok(None)
}

// The claims that are not of these places.
fn fewer_claims(alloc: Global, claims: &Claims, places: &[bool]) -> Result<Claims, NoMemory> {
    let mut fewer = Claims {
        equations: Vec::new(alloc),
        places: Vec::new(alloc),
    };
    for (k, equation) in claims.equations.iter().enumerate() {
        let place = number_at(&claims.places, k);
        if !is_marked(places, place) {
            fewer.equations.push(*equation)?;
            fewer.places.push(place)?;
        }
    }
    Ok(fewer)
}
