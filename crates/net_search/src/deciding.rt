// The decision of a question.

ghost use Rattle.std.specs.Prelude.{IfOk};
ghost use Rattle.net_ir.specs.Runs.{netlist_of};
ghost use Rattle.sat_kernel.specs.Clauses.{plain_assumed};
ghost use Rattle.net_search.specs.Decisions.{IsDecision};

use crate::candidates::Candidates;
use crate::decisions::Decision;
use crate::reaching::{Progress, Reaching};
use base_types::NoMemory;
use net_frames::{Reply, TransitionSystem, Unrolling};
use net_ir::Net;
use net_never::{is_never, is_reached};
use sat_kernel::{Clause, Literal};
use std::alloc::Global;

// The effort of the first turn of each search. Each later turn has twice as much.
const TURN: u64 = 20_000;

// What a search found, before it is checked.
#[derive(Drop)]
enum Finding {
    Invariant(Vec<Clause>),
    Trace(Vec<Vec<bool>>),
    Nothing,
}

// A finding, and the number of instants in which nothing bad can be.
#[derive(Drop)]
struct Found {
    finding: Finding,
    clear: usize,
}

/// Decides whether a literal over the nets of a netlist is ever true, where these clauses over its nets are met in each
/// instant. The effort counts what `sat_search` does. The only error is running out of memory.
pub fn decide(
    alloc: Global,
    net: &Net,
    allowed: &[Clause],
    bad: Literal,
    effort: u64,
) -> Result<Decision, NoMemory>
    ensures { IfOk result (IsDecision (netlist_of net.now) (plain_assumed allowed.now) bad) }
{
    let kept = effort / 4;
    let mut left = effort.saturating_sub(kept);
    let found = searched(alloc, net, allowed, bad, &mut left)?;
    let rest = left.saturating_add(kept);
    confirmed(alloc, net, allowed, bad, found, rest)
}

// Checks what was found.
fn confirmed(
    alloc: Global,
    net: &Net,
    allowed: &[Clause],
    bad: Literal,
    found: Found,
    effort: u64,
) -> Result<Decision, NoMemory>
    ensures { IfOk result (IsDecision (netlist_of net.now) (plain_assumed allowed.now) bad) }
{
    let clear = found.clear;
    match found.finding {
        Finding::Invariant(clauses) => {
            if is_never(alloc, net, allowed, &clauses, bad, effort)? {
                Ok(Decision::Never)
            } else {
                Ok(Decision::Unknown(clear))
            }
        }
        Finding::Trace(events) => {
            if is_reached(alloc, net, allowed, bad, &events)? {
                Ok(Decision::Reached(events))
            } else {
                Ok(Decision::Unknown(clear))
            }
        }
        Finding::Nothing => Ok(Decision::Unknown(clear)),
    }
}

fn searched(
    alloc: Global,
    net: &Net,
    allowed: &[Clause],
    bad: Literal,
    effort: &mut u64,
) -> Result<Found, NoMemory> {
    let system = TransitionSystem::new(alloc, net, allowed, bad)?;
    found_in(alloc, &system, effort)
}

fn found_in(alloc: Global, system: &TransitionSystem, effort: &mut u64) -> Result<Found, NoMemory> {
    let mut unrolling = Unrolling::new(alloc, system)?;
    let finding = found_by(alloc, system, &mut unrolling, effort)?;
    Ok(Found {
        finding,
        clear: unrolling.clear(),
    })
}

fn found_by(
    alloc: Global,
    system: &TransitionSystem,
    unrolling: &mut Unrolling,
    effort: &mut u64,
) -> Result<Finding, NoMemory> {
    if is_found_in_turn(system, unrolling, TURN.saturating_mul(8), effort)? {
        return Ok(Finding::Trace(unrolling.trace(system)?));
    }
    found_or_blocked(alloc, system, unrolling, effort)
}

fn found_or_blocked(
    alloc: Global,
    system: &TransitionSystem,
    unrolling: &mut Unrolling,
    effort: &mut u64,
) -> Result<Finding, NoMemory> {
    let mut reaching = Reaching::new(alloc, system)?;
    block_candidates(alloc, system, &mut reaching, effort)?;
    found_in_turns(system, unrolling, &mut reaching, effort)
}

// Blocks the pairs of literals that are an invariant.
fn block_candidates(
    alloc: Global,
    system: &TransitionSystem,
    reaching: &mut Reaching,
    effort: &mut u64,
) -> Result<(), NoMemory> {
    let mut candidates = Candidates::new(alloc);
    let mut share = *effort / 3;
    *effort = effort.saturating_sub(share);
    candidates.find(system, &mut share)?;
    *effort = effort.saturating_add(share);
    reaching.block_pairs(&candidates.pairs)
}

// Looks for a trace, with a part of the effort.
fn is_found_in_turn(
    system: &TransitionSystem,
    unrolling: &mut Unrolling,
    turn: u64,
    effort: &mut u64,
) -> Result<bool, NoMemory> {
    let mut share = turn.min(*effort);
    *effort = effort.saturating_sub(share);
    let is_found = is_found(system, unrolling, usize::MAX, &mut share)?;
    *effort = effort.saturating_add(share);
    Ok(is_found)
}

// Looks for a trace and for an invariant in turn.
fn found_in_turns(
    system: &TransitionSystem,
    unrolling: &mut Unrolling,
    reaching: &mut Reaching,
    effort: &mut u64,
) -> Result<Finding, NoMemory> {
    let mut turn = TURN;
    for _ in 0..64 {
        if is_found_in_turn(system, unrolling, turn, effort)? {
            return Ok(Finding::Trace(unrolling.trace(system)?));
        }
        let mut share = turn.saturating_mul(2).min(*effort);
        *effort = effort.saturating_sub(share);
        let progress = reaching.run(system, &mut share)?;
        *effort = effort.saturating_add(share);
        match progress {
            Progress::Closed(level) => {
                return Ok(Finding::Invariant(reaching.frames.invariant(system, level)?));
            }
            Progress::Reached(number) => {
                let events = reaching.obligations.trace(system, number)?;
                return shortest(system, unrolling, events, effort);
            }
            Progress::Open | Progress::Stopped => {}
        }
        turn = turn.saturating_mul(2);
        if *effort == 0 {
            break;
        }
    }
    Ok(Finding::Nothing)
}

// Looks for traces that are shorter than this one.
fn shortest(
    system: &TransitionSystem,
    unrolling: &mut Unrolling,
    events: Vec<Vec<bool>>,
    effort: &mut u64,
) -> Result<Finding, NoMemory> {
    if is_found(system, unrolling, events.len().saturating_sub(1), effort)? {
        Ok(Finding::Trace(unrolling.trace(system)?))
    } else {
        Ok(Finding::Trace(events))
    }
}

// Looks for a trace of at most this length.
fn is_found(
    system: &TransitionSystem,
    unrolling: &mut Unrolling,
    longest: usize,
    effort: &mut u64,
) -> Result<bool, NoMemory> {
    for _ in 0..u64::MAX {
        if unrolling.clear() >= longest {
            return Ok(false);
        }
        match unrolling.look(system, effort)? {
            Reply::Possible => return Ok(true),
            Reply::Unknown => return Ok(false),
            Reply::Impossible => {}
        }
        if *effort == 0 {
            return Ok(false);
        }
    }
    Ok(false)
}
