// The values of a netlist's nets over events.

ghost use Rattle.std.specs.Prelude.{◌≡◌, ◌+◌, ◌≤◌, Bool, false, length, map, nat_eq, IfOk, OnOk};
ghost use Rattle.std.specs.List.{list_all, list_any};
ghost use Rattle.net_ir.specs.Gates.{gate_values, op_value, value_in};
ghost use Rattle.net_ir.specs.Runs.{initial_latches, net_values, netlist_of, next_latches};
ghost use Rattle.sat_kernel.specs.Clauses.{clause_value, literal_value, plain_assumed};
ghost use Rattle.net_never.specs.Reached.{are_met, events_of, is_reached};

use base_types::{NetId, NoMemory};
use net_ir::{Gate, Latch, Net, Op};
use sat_kernel::{Clause, Literal};
use std::alloc::Global;

// The value of a net. What is no net is false.
fn value_at(values: &[bool], net: NetId) -> bool
    ensures { result ≡ value_in values.now net.0 }
{
    let place = net.0 as usize;
    if place < values.len() {
        values[place]
    } else {
        false
    }
}

// What an operator makes of the values of the nets.
fn op_value(values: &[bool], op: Op) -> bool
    ensures { result ≡ op_value (value_in values.now) op }
{
    match op {
        Op::Const(value) => value,
        Op::Copy(a) => value_at(values, a),
        Op::Not(a) => !value_at(values, a),
        Op::And(a, b) => value_at(values, a) && value_at(values, b),
        Op::Or(a, b) => value_at(values, a) || value_at(values, b),
    }
}

// The values of gates, after those that are given.
fn push_gate_values(values: &mut Vec<bool>, gates: &[Gate]) -> Result<(), NoMemory>
    ensures { OnOk result (values.new.items ≡ gate_values values.old.items gates.now) }
{
    for gate in gates {
        let value = op_value(values, gate.op);
        values.push(value)?;
    }
    Ok(())
}

// The values of all nets in an instant.
fn instant_values(
    alloc: Global,
    net: &Net,
    latches: &[bool],
    inputs: &[bool],
) -> Result<Vec<bool>, NoMemory>
    ensures { IfOk result (λ v. v.items ≡ net_values (netlist_of net.now) latches.now inputs.now) }
{
    let mut values = Vec::with_capacity(alloc, inputs.len())?;
    values.extend_from_slice(inputs)?;
    values.extend_from_slice(latches)?;
    push_gate_values(&mut values, &net.gates)?;
    Ok(values)
}

// The values of the latches in the first instant.
fn initial_latches(alloc: Global, net: &Net) -> Result<Vec<bool>, NoMemory>
    ensures { IfOk result (λ v. v.items ≡ initial_latches (netlist_of net.now)) }
{
    Ok(net.latches.iter().map(|latch| latch.init).collect(alloc)?)
}

// The values of the latches after an instant.
fn next_latches(alloc: Global, net: &Net, values: &[bool]) -> Result<Vec<bool>, NoMemory>
    ensures { IfOk result (λ v. v.items ≡ next_latches (netlist_of net.now) values.now) }
{
    let mut next = Vec::with_capacity(alloc, net.latches.len())?;
    for latch in &net.latches {
        next.push(value_at(values, latch.from))?;
    }
    Ok(next)
}

// Reports whether a net, or its negation, is true.
fn holds(values: &[bool], literal: Literal) -> bool
    ensures { result ≡ literal_value (value_in values.now) literal }
{
    value_at(values, NetId(literal.variable)) == literal.positive
}

// Reports whether a clause over nets is true.
fn is_true(values: &[bool], clause: &[Literal]) -> bool
    ensures { result ≡ clause_value (value_in values.now) clause.now }
{
    for literal in clause {
        if holds(values, *literal) {
            return true;
        }
    }
    false
}

// Reports whether all clauses over nets are true.
fn are_met(values: &[bool], clauses: &[Clause]) -> bool
    ensures { result ≡ are_met (plain_assumed clauses.now) values.now }
{
    for clause in clauses {
        if !is_true(values, clause) {
            return false;
        }
    }
    true
}

// Reports whether each event has one value for each input.
fn are_wide(net: &Net, events: &[Vec<bool>]) -> bool
    ensures { result ≡ list_all (λ event. nat_eq (length event) (length net.now.inputs.items)) (events_of events.now) }
{
    for event in events {
        if event.len() != net.inputs.len() {
            return false;
        }
    }
    true
}

/// Reports whether a net, or its negation, is true in the last instant of a run over these events, where each of them
/// has one value for each input and the clauses over nets are met in each instant. Without events it is not. The only
/// error is running out of memory.
pub fn is_reached(
    alloc: Global,
    net: &Net,
    allowed: &[Clause],
    bad: Literal,
    events: &[Vec<bool>],
) -> Result<bool, NoMemory>
    ensures { IfOk result (λ yes. yes
        ≡ is_reached (netlist_of net.now) (plain_assumed allowed.now) bad (events_of events.now)) }
{
    if !are_wide(net, events) {
        return Ok(false);
    }
    let mut latches = initial_latches(alloc, net)?;
    let mut last = false;
    for event in events {
        let values = instant_values(alloc, net, &latches, event)?;
        if !are_met(&values, allowed) {
            return Ok(false);
        }
        last = holds(&values, bad);
        latches = next_latches(alloc, net, &values)?;
    }
    Ok(last)
}
