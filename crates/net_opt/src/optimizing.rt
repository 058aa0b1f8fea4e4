// The passes, one after another.

ghost use Rattle.std.specs.Prelude.{IfOk, IfSome};
ghost use Rattle.net_ir.specs.Netlists.{Netlist};
ghost use Rattle.net_ir.specs.Runs.{netlist_of};
ghost use Rattle.net_simp.specs.SimpleNets.{IsSimple};
ghost use Rattle.net_opt.specs.Optimized.{Optimizes, Replaces};
ghost use Rattle.net_opt.specs.Shown.{EachIsShown};

use crate::classes::{Classes, first_classes, own_classes};
use crate::excluding::{Exclusions, exclusions_of, no_exclusions};
use crate::showing::shown_part;
use crate::silencing::silent_copy;
use crate::simulating::histories;
use crate::trying::{Change, Trial, tried_classes};
use base_types::NoMemory;
use net_follow::{Instant, inductive_claims};
use net_ir::{Net, Op};
use net_simp::simplify;
use std::alloc::Global;

// How often classes are split, and how often they are tried, before a pass gives up.
const ROUNDS: usize = 100;

const TRIALS: usize = 20;

// The same for netlists of more gates than this.
const LARGE_TRIALS: usize = 4;

const LARGE: usize = 5_000;

// How often a pass that rewrites does so.
const REWRITES: usize = 12;

// How many more pairs it may cost to replace a latch by a gate that determines its value.
const WORTH: usize = 0;

const LATCH_WEIGHT: usize = 10;

// What a gate of two nets weighs; a negation weighs one.
const PAIR_WEIGHT: usize = 4;

/// A netlist that does what the given one does, with no more gates and no more latches: the same inputs and outputs, in
/// the same order, and over every list of items, resets included, the same outputs and `paused`. Latches and gates go
/// that are found to be constant, or equal or opposite to others, in every instant that the netlist reaches. Each latch
/// and each gate that stays is read on a way to an output or `paused`. Which wires the gates carry is forgotten, and
/// nothing is left to simplify (`net_simp`). The only error is out of memory.
pub fn optimize(alloc: Global, net: &Net) -> Result<Net, NoMemory>
    ensures optimizes { IfOk result (λ new. Optimizes (netlist_of net.now) (netlist_of new)) }
    ensures simple { IfOk result (λ new. IsSimple (netlist_of new)) }
    ensures shown { IfOk result (λ new. EachIsShown (netlist_of new)) }
{
    let mut best = searched_net(alloc, net)?;
    'rounds: loop {
        let simple = simplify(alloc, best)?;
        match shown_part(alloc, &simple)? {
            Some(part) => best = part,
            None => return Ok(simple),
        }
    }
}

// The lightest that the passes find, where it is not larger.
fn searched_net(alloc: Global, net: &Net) -> Result<Net, NoMemory>
    ensures { IfOk result (λ new. Optimizes (netlist_of net.now) (netlist_of new)) }
{
    let begun = begun_net(alloc, net)?;
    let found = found_net(alloc, net)?;
    Ok(lighter(net, begun, found))
}

// What the passes find: nets are made one, then the graph is rewritten.
fn found_net(alloc: Global, net: &Net) -> Result<Net, NoMemory>
    ensures { IfOk result (λ new. Replaces (netlist_of net.now) (netlist_of new)) }
{
    let ordered = ordered_net(alloc, net)?;
    let exclusions = exclusions_of(alloc, &ordered)?;
    let mut later = no_exclusions(alloc);
    let merged = passed_net(alloc, ordered, &MERGING, &exclusions, &mut later)?;
    let best = rewritten_net(alloc, merged, &exclusions, &mut later)?;
    Ok(passed_net(alloc, best, &FINISHING, &exclusions, &mut later)?)
}

// A netlist that is rewritten as it is, or, where there are few inputs and latches, as the functions of its roots make
// it, if that is lighter.
fn rewritten_net(
    alloc: Global,
    merged: Net,
    exclusions: &Exclusions,
    later: &mut Exclusions,
) -> Result<Net, NoMemory>
    ensures { IfOk result (λ new. (given : Netlist) → Replaces given (netlist_of merged)
        → Replaces given (netlist_of new)) }
{
    let made = changed_net(alloc, &merged, Change::Collapse, exclusions)?;
    let plain = passed_net(alloc, merged, &REWRITING, exclusions, later)?;
    match made {
        Some(other) => {
            let remade = passed_net(alloc, other, &REWRITING, exclusions, later)?;
            Ok(lighter_of(plain, remade))
        }
        None => Ok(plain),
    }
}

const MERGING: [Pass; 2] = [Pass::Merge, Pass::Merge];

const REWRITING: [Pass; 4] = [Pass::Balance, Pass::Rewrite, Pass::Balance, Pass::Rewrite];

const FINISHING: [Pass; 3] = [Pass::Merge, Pass::Balance, Pass::Rewrite];

// The netlist that weighs less.
fn lighter_of(one: Net, other: Net) -> Net
    ensures { (given : Netlist) → Replaces given (netlist_of one) → Replaces given (netlist_of other)
        → Replaces given (netlist_of result) }
{
    if weight(&other) < weight(&one) {
        other
    } else {
        one
    }
}

// The other netlist where it weighs less, and has no more gates and no more latches than the given one. A latch weighs
// as much as some gates.
fn lighter(net: &Net, best: Net, other: Net) -> Net
    requires { Replaces (netlist_of net.now) (netlist_of other) }
    ensures { Optimizes (netlist_of net.now) (netlist_of best) → Optimizes (netlist_of net.now) (netlist_of result) }
{
    if other.gates.len() > net.gates.len() {
        return best;
    }
    if other.latches.len() > net.latches.len() {
        return best;
    }
    if weight(&other) < weight(&best) {
        other
    } else {
        best
    }
}

fn weight(net: &Net) -> usize {
    let mut weight = net.latches.len().saturating_mul(LATCH_WEIGHT * PAIR_WEIGHT);
    for gate in &net.gates {
        weight = weight.saturating_add(gate_weight(gate.op));
    }
    weight
}

fn gate_weight(op: Op) -> usize {
    match op {
        Op::Const(_) => 0,
        Op::Copy(_) | Op::Not(_) => 1,
        Op::And(_, _) | Op::Or(_, _) => PAIR_WEIGHT,
    }
}

// What the passes make of a netlist, each a lighter one or none. What is excluded is known of the given one, and later
// of one with fewer latches.
fn passed_net(
    alloc: Global,
    start: Net,
    passes: &[Pass],
    exclusions: &Exclusions,
    later: &mut Exclusions,
) -> Result<Net, NoMemory>
    ensures { IfOk result (λ new. (given : Netlist) → Replaces given (netlist_of start)
        → Replaces given (netlist_of new)) }
{
    let mut best = start;
    'passes: for pass in passes {
        let new = improved_at(alloc, &best, *pass, exclusions, later)?;
        best = chosen(best, new);
    }
    Ok(best)
}

// The netlist that the passes begin with: its gates are in the order in which they are needed.
fn ordered_net(alloc: Global, net: &Net) -> Result<Net, NoMemory>
    ensures { IfOk result (λ new. Replaces (netlist_of net.now) (netlist_of new)) }
{
    let begun = begun_net(alloc, net)?;
    match changed_net(alloc, &begun, Change::Order, &no_exclusions(alloc))? {
        Some(new) => Ok(new),
        None => Ok(begun),
    }
}

// The netlist, of which no gate carries a wire, without what nothing shows.
fn begun_net(alloc: Global, net: &Net) -> Result<Net, NoMemory>
    ensures { IfOk result (λ new. Optimizes (netlist_of net.now) (netlist_of new)) }
{
    let silent = silent_copy(alloc, net)?;
    match shown_part(alloc, &silent)? {
        Some(part) => Ok(part),
        None => Ok(silent),
    }
}

// What a pass does.
#[derive(Clone, Copy)]
enum Pass {
    // Nets that are equal or opposite are merged, and latches whose values gates determine are removed.
    Merge,
    // What many nets say together is balanced by depth.
    Balance,
    // Parts are replaced by smaller ones that compute the same.
    Rewrite,
}

// The new netlist, if there is one.
fn chosen(best: Net, new: Option<Net>) -> Net
    requires { IfSome new (λ n. Replaces (netlist_of best) (netlist_of n)) }
    ensures { (given : Netlist) → Replaces given (netlist_of best) → Replaces given (netlist_of result) }
{
    match new {
        Some(net) => net,
        None => best,
    }
}

// What the pass of a place makes of a netlist. What is excluded is known of as many latches as there were at first, or
// last; else it is found anew.
fn improved_at(
    alloc: Global,
    net: &Net,
    pass: Pass,
    first: &Exclusions,
    last: &mut Exclusions,
) -> Result<Option<Net>, NoMemory>
    ensures { IfOk result (λ o. IfSome o (λ new. Replaces (netlist_of net.now) (netlist_of new))) }
{
    if let Pass::Balance = pass {
        return improved(alloc, net, pass, &no_exclusions(alloc));
    }
    if first.are_of(net) {
        return improved(alloc, net, pass, first);
    }
    if !last.are_of(net) {
        *last = exclusions_of(alloc, net)?;
    }
    improved(alloc, net, pass, last)
}

// What a pass makes of a netlist, where that weighs no more.
fn improved(
    alloc: Global,
    net: &Net,
    pass: Pass,
    exclusions: &Exclusions,
) -> Result<Option<Net>, NoMemory>
    ensures { IfOk result (λ o. IfSome o (λ new. Replaces (netlist_of net.now) (netlist_of new))) }
{
    let Some(new) = passed(alloc, net, pass, exclusions)? else {
        return Ok(None);
    };
    if weight(&new) > weight(net) {
        return Ok(None);
    }
    Ok(Some(new))
}

// What a pass makes of a netlist, if it is shown to follow it.
fn passed(
    alloc: Global,
    net: &Net,
    pass: Pass,
    exclusions: &Exclusions,
) -> Result<Option<Net>, NoMemory>
    ensures { IfOk result (λ o. IfSome o (λ new. Replaces (netlist_of net.now) (netlist_of new))) }
{
    match pass {
        Pass::Merge => merged_net(alloc, net, WORTH, exclusions),
        Pass::Balance => changed_net(alloc, net, Change::Balance, exclusions),
        Pass::Rewrite => changed_net(alloc, net, Change::Rewrite(REWRITES), exclusions),
    }
}

// A netlist in which nets are one that are constant, or equal or opposite to others, in every instant that the given
// one reaches.
fn merged_net(
    alloc: Global,
    net: &Net,
    worth: usize,
    exclusions: &Exclusions,
) -> Result<Option<Net>, NoMemory>
    ensures { IfOk result (λ o. IfSome o (λ new. Replaces (netlist_of net.now) (netlist_of new))) }
{
    let mut classes = first_classes(alloc, &histories(alloc, net)?)?;
    for _trial in 0..trials(net) {
        part_classes(alloc, net, exclusions, &mut classes)?;
        let trial = tried_merge(alloc, net, &classes, worth, exclusions)?;
        if trial.new.is_some() {
            return Ok(trial.new);
        }
        if !classes.joins_some(&trial.failing) {
            return Ok(None);
        }
        classes.part(&trial.failing);
    }
    Ok(None)
}

// How often classes are tried: seldom where a check takes long.
fn trials(net: &Net) -> usize {
    if net.gates.len() > LARGE {
        LARGE_TRIALS
    } else {
        TRIALS
    }
}

// The netlist in which the nets of each class are merged, without the latches whose values gates determine, or with
// them if that is smaller.
fn tried_merge(
    alloc: Global,
    net: &Net,
    classes: &Classes,
    worth: usize,
    exclusions: &Exclusions,
) -> Result<Trial, NoMemory>
    ensures { IfOk result (λ t. IfSome t.new (λ new. Replaces (netlist_of net.now) (netlist_of new))) }
{
    let telling = tried_classes(alloc, net, classes, exclusions, Change::Tell(worth))?;
    if !telling.tells || is_no_larger(&telling.new, net) {
        return Ok(telling);
    }
    tried_classes(alloc, net, classes, exclusions, Change::Keep)
}

// Whether there is a netlist, of no more gates and no more latches.
fn is_no_larger(new: &Option<Net>, net: &Net) -> bool {
    match new {
        Some(new) => new.gates.len() <= net.gates.len() && new.latches.len() <= net.latches.len(),
        None => false,
    }
}

// Splits the classes until they hold by induction over instants.
fn part_classes(
    alloc: Global,
    net: &Net,
    exclusions: &Exclusions,
    classes: &mut Classes,
) -> Result<(), NoMemory> {
    for _round in 0..ROUNDS {
        if !parts(alloc, net, exclusions, classes, Instant::Later)? {
            if !parts(alloc, net, exclusions, classes, Instant::First)? {
                return Ok(());
            }
        }
    }
    Ok(())
}

// Splits the classes that do not hold in an instant, and returns whether there are any.
fn parts(
    alloc: Global,
    net: &Net,
    exclusions: &Exclusions,
    classes: &mut Classes,
    instant: Instant,
) -> Result<bool, NoMemory> {
    let claims = classes.claims(alloc)?;
    let parted = inductive_claims(alloc, net, &exclusions.claims, &claims, instant)?;
    classes.take_up(&parted.claims);
    Ok(!parted.unshown.is_empty())
}

// A netlist that computes the same by another graph: balanced by depth, or of smaller parts.
fn changed_net(
    alloc: Global,
    net: &Net,
    change: Change,
    exclusions: &Exclusions,
) -> Result<Option<Net>, NoMemory>
    ensures { IfOk result (λ o. IfSome o (λ new. Replaces (netlist_of net.now) (netlist_of new))) }
{
    let classes = own_classes(alloc, net)?;
    let trial = tried_classes(alloc, net, &classes, exclusions, change)?;
    Ok(trial.new)
}
