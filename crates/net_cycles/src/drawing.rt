// The circuit of a graph along a schedule of its system.

ghost use Rattle.std.specs.Prelude.{◌≡◌, ◌≤◌, length, take, IfOk};
ghost use Rattle.net_cycles.specs.Drawings.{CanDraw, IsDrawn};

use crate::base::{Base, Beginning, Nets, begin};
use crate::following::{next_nets, source_nets};
use crate::laws::{schedules_find_least, source_nets_are_sources};
use crate::rows::add_rows;
use base_types::NetId;
use grc_formulas::Words;
use grc_graph::Graph;
use grc_ternary_gates::System;
use net_unroll::{GrowFault, Growing, unroll};
use std::alloc::Global;

/// A circuit: its gates, and the nets of the system's sources, of the wires, of the rows and of the next state.
#[derive(Drop)]
pub struct Drawn {
    pub base: Base,
    pub gates: Growing,
    pub sources: Vec<NetId>,
    pub copies: Vec<NetId>,
    pub rows: Vec<NetId>,
    pub next: Vec<NetId>,
}

// The first of some nets.
fn first_nets(alloc: Global, nets: &[NetId], count: usize) -> Result<Vec<NetId>, GrowFault>
    requires { count ≤ length nets.now }
    ensures { IfOk result (λ made. made.items ≡ take count nets.now) }
{
    let mut made = Vec::new(alloc);
    for net in &nets[..count] {
        made.push(*net)?;
    }
    Ok(made)
}

/// Draws the circuit of a graph: the early rows, the nodes of the system along the schedule, the other rows, and the
/// next formulas.
pub fn draw(
    alloc: Global,
    graph: &Graph,
    words: &Words,
    system: &System,
    schedule: &[usize],
) -> Result<Drawn, GrowFault>
    requires { CanDraw graph.now words.now system.now schedule.now }
    ensures { IfOk result (IsDrawn graph.now words.now system.now schedule.now) }
{
    schedules_find_least();
    source_nets_are_sources();
    let Beginning { base, mut gates } = begin(alloc, graph)?;
    let none: Vec<NetId> = Vec::new(alloc);
    let mut rows = Vec::new(alloc);
    let early = words.early;
    add_rows(
        &mut gates,
        base,
        graph,
        words,
        none.as_slice(),
        &mut rows,
        early,
    )?;
    let sources = source_nets(alloc, base, words, rows.as_slice())?;
    let nodes = unroll(
        alloc,
        &mut gates,
        system.gates.as_slice(),
        sources.as_slice(),
        base.no,
        schedule,
    )?;
    let copies = first_nets(alloc, nodes.as_slice(), graph.wires().len())?;
    let all = words.rows.len();
    add_rows(
        &mut gates,
        base,
        graph,
        words,
        copies.as_slice(),
        &mut rows,
        all,
    )?;
    let nets = Nets {
        graph,
        words,
        base,
        wires: copies.as_slice(),
        rows: rows.as_slice(),
    };
    let next = next_nets(alloc, &mut gates, &nets)?;
    Ok(Drawn {
        base,
        gates,
        sources,
        copies,
        rows,
        next,
    })
}
