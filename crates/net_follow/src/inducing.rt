// Equations between the nets of one netlist, by induction over instants.

ghost use Rattle.std.specs.Prelude.{◌≡◌, [], map, IfOk, OnOk};
ghost use Rattle.net_ir.specs.Runs.{netlist_of};
ghost use Rattle.net_follow.specs.Literals.{moved_equation};
ghost use Rattle.net_follow.specs.Proving.{Entails, Noted};
ghost use Rattle.net_follow.specs.Inducing.{own_equations, is_late};

use crate::frames::{push_gates, push_inits, push_links, push_moved};
use crate::literals::{Equation, Side};
use crate::parting::Parting;
use crate::proving::{Prover, assuming};
use base_types::NoMemory;
use net_ir::Net;
use std::alloc::Global;

// How often what a claim was split to is claimed.
const TRIES: usize = 16;

/// Which instant equations are to hold in.
#[derive(Clone, Copy)]
pub enum Instant {
    // the first one
    First,
    // one before which there is one in which all of them hold
    Later,
}

/// What is left of claims: those that no counterexample refutes, and in place of one that is refuted there may be one
/// for a net that was split from the same before it. `unshown` has the places of the claims that were not shown.
#[derive(Drop)]
pub struct Parted {
    pub claims: Vec<Equation>,
    pub unshown: Vec<usize>,
}

/// What is left of the claims of a netlist's classes. Each claim says that a net, `out`, has the value of `left`: a net
/// of a lower number, or the constant that is always true, or the negation of either. Claims are in the order of their
/// nets. If none is unshown, all of them hold in the instant. That is the first instant, or one that follows an instant
/// in which they hold. This assumes that the known equations hold in both.
pub fn inductive_claims(
    alloc: Global,
    net: &Net,
    known: &[Equation],
    claims: &[Equation],
    instant: Instant,
) -> Result<Parted, NoMemory>
    ensures holds { IfOk result (λ p. p.unshown.items ≡ []
        → Entails (own_equations instant (netlist_of net.now) known.now claims.now)
        (map (moved_equation (is_late instant)) claims.now)) }
{
    let late = is_late(instant);
    let assumed = known_equations(alloc, net, known, claims, instant)?;
    let mut moved = Vec::new(alloc);
    push_moved(&mut moved, late, claims)?;
    parted_claims(alloc, net, late, &assumed, &moved)
}

fn is_late(instant: Instant) -> bool
    ensures { result ≡ is_late instant }
{
    match instant {
        Instant::First => false,
        Instant::Later => true,
    }
}

// What holds in the instant, and in the one before it.
fn known_equations(
    alloc: Global,
    net: &Net,
    known: &[Equation],
    claims: &[Equation],
    instant: Instant,
) -> Result<Vec<Equation>, NoMemory>
    ensures { IfOk result (λ v. v.items ≡ own_equations instant (netlist_of net.now) known.now claims.now) }
{
    let mut list = Vec::new(alloc);
    let first = net.inputs.len() + net.latches.len();
    push_gates(&mut list, false, Side::Old, first, &net.gates)?;
    push_moved(&mut list, false, known)?;
    match instant {
        Instant::First => {
            push_inits(&mut list, Side::Old, net.inputs.len(), &net.latches)?;
        }
        Instant::Later => {
            push_moved(&mut list, false, claims)?;
            push_gates(&mut list, true, Side::Old, first, &net.gates)?;
            push_moved(&mut list, true, known)?;
            push_links(&mut list, Side::Old, net.inputs.len(), &net.latches)?;
        }
    }
    Ok(list)
}

fn net_count(net: &Net) -> usize {
    net.inputs.len() + net.latches.len() + net.gates.len()
}

// What is left of the claims, where these equations are known.
fn parted_claims(
    alloc: Global,
    net: &Net,
    late: bool,
    known: &[Equation],
    claims: &[Equation],
) -> Result<Parted, NoMemory>
    ensures { IfOk result (λ p. p.unshown.items ≡ [] → Entails known.now claims.now) }
{
    let nets = net_count(net);
    let mut prover = assuming(alloc, nets, known, true)?;
    let mut parting = Parting::new(alloc, net, late, claims)?;
    let mut unshown = Vec::new(alloc);
    for (k, claim) in claims.iter().enumerate() {
        part_at(net, &mut parting, &mut prover, &mut unshown, k, *claim)?;
    }
    let left = parting.left(alloc)?;
    Ok(Parted {
        claims: left,
        unshown,
    })
}

// Claims an equation. Where it is not shown, or was split before, its place is noted, and what it was split to is
// claimed.
fn part_at(
    net: &Net,
    parting: &mut Parting,
    prover: &mut Prover,
    unshown: &mut Vec<usize>,
    place: usize,
    claim: Equation,
) -> Result<(), NoMemory>
    ensures { OnOk result (Noted claim place unshown.old.items unshown.new.items prover.old prover.new) }
{
    if parting.is_whole(place) {
        if prover.follows(claim)? {
            return Ok(());
        }
        parting.split(net, &prover.values, place)?;
    }
    unshown.push(place)?;
    rejoin(net, parting, prover, place)?;
    Ok(())
}

// Claims what a claim was split to, and splits it again where that is not shown.
fn rejoin(
    net: &Net,
    parting: &mut Parting,
    prover: &mut Prover,
    place: usize,
) -> Result<(), NoMemory> {
    for _ in 0..TRIES {
        let Some(now) = parting.claim(place) else {
            return Ok(());
        };
        if prover.follows(now)? {
            return Ok(());
        }
        parting.split(net, &prover.values, place)?;
    }
    parting.drop_claim(place);
    Ok(())
}
