// Wires placed one by one, each when all wires that have an edge to it are placed.

ghost use Rattle.std.specs.Prelude.{◌≡◌, ℕ, ◌+◌, ◌<◌, [], ◌∷◌, ◌++◌, length, slice_index, IfOk, OnOk};
ghost use Rattle.std.specs.List.Sorted.{IsPermutation};
ghost use Rattle.grc_order.specs.Runs.{AreBegins};
ghost use Rattle.grc_order.specs.Schedules.{IsScheduleOf, IsReadyOf, arrivals, edges_from};

use crate::edge_runs::edges_between;
use crate::picking::Picker;
use base_types::{NoMemory, WireId};
use grc_graph::Edges;
use std::alloc::{AllocError, Global};

#[derive(Drop)]
pub struct Schedule {
    // For each wire, how many edges lead to it from wires that are not placed.
    pub waiting: Vec<usize>,
    // The wires that are not placed and wait for none.
    pub ready: Vec<WireId>,
    pub placed: Vec<WireId>,
}

impl Schedule {
    // A schedule in which no wire is placed.
    pub fn new(alloc: Global, edges: &Edges) -> Result<Schedule, NoMemory>
        ensures schedule { IfOk result (λ s. IsScheduleOf edges.now [] s) }
        ensures empty { IfOk result (λ s. s.placed.items ≡ []) }
    {
        let waiting = arrival_counts(alloc, edges)?;
        let ready = wires_that_wait_for_none(alloc, edges.count, &waiting)?;
        let placed = Vec::with_capacity(alloc, edges.count as usize)?;
        Ok(Schedule {
            waiting,
            ready,
            placed,
        })
    }

    // Places the ready wire that the picker chooses. It is known where the edges from each wire begin.
    pub fn place_next<P: Picker>(
        &mut self,
        edges: &Edges,
        begins: &[usize],
        picker: &mut P,
    ) -> Result<(), AllocError>
        requires schedule { IsScheduleOf edges.now [] self.old }
        requires begins { AreBegins edges.now.count edges.now.pairs.items begins.now }
        requires some_ready { 0 < length self.old.ready.items }
        ensures schedule { OnOk result (IsScheduleOf edges.now [] self.new) }
        ensures longer { OnOk result (length self.new.placed.items ≡ length self.old.placed.items + 1) }
    {
        let place = picker.pick(&self.ready) % self.ready.len();
        let wire = self.ready.swap_remove(place);
        self.placed.push(wire)?;
        self.release(edges, begins, wire)
    }

    // Takes the edges from a wire, which is placed, off those that other wires wait for.
    fn release(&mut self, edges: &Edges, begins: &[usize], wire: WireId) -> Result<(), AllocError>
        requires schedule { IsScheduleOf edges.now (edges_from wire.0 edges.now.pairs.items) self.old }
        requires begins { AreBegins edges.now.count edges.now.pairs.items begins.now }
        requires low { wire.0 < edges.now.count }
        ensures schedule { OnOk result (IsScheduleOf edges.now [] self.new) }
        ensures placed { OnOk result (self.new.placed.items ≡ self.old.placed.items) }
    {
        for edge in edges_between(edges, begins, wire) {
            let to = edge.1;
            let left = self.waiting[to.0 as usize] - 1;
            self.waiting[to.0 as usize] = left;
            if left == 0 {
                put_in_front(&mut self.ready, to)?;
            }
        }
        Ok(())
    }
}

// Puts a wire in front of ready ones; the one that stood there goes to the end. So the first ready wire is always the
// one that became ready last, and what belongs together stands together in the order that `First` makes.
fn put_in_front(ready: &mut Vec<WireId>, wire: WireId) -> Result<(), AllocError>
    ensures { OnOk result (IsPermutation (ready.old.items ++ wire ∷ []) ready.new.items) }
{
    let end = ready.len();
    ready.push(wire)?;
    ready.swap(0, end);
    Ok(())
}

// How many edges lead to each wire.
fn arrival_counts(alloc: Global, edges: &Edges) -> Result<Vec<usize>, AllocError>
    ensures each { IfOk result (λ counts. length counts.items ≡ edges.now.count) }
    ensures counts { IfOk result (λ counts. (w : ℕ) → w < edges.now.count
        → slice_index counts.items w ≡ arrivals edges.now.pairs.items w) }
{
    let mut counts = vec![in alloc; 0usize; edges.count as usize]?;
    for edge in &edges.pairs {
        counts[edge.1.0 as usize] += 1;
    }
    Ok(counts)
}

// The wires that wait for none.
fn wires_that_wait_for_none(
    alloc: Global,
    count: u32,
    waiting: &[usize],
) -> Result<Vec<WireId>, AllocError>
    requires { length waiting.now ≡ count }
    ensures { IfOk result (λ ready. IsReadyOf waiting.now ready.items) }
{
    let mut ready = Vec::new(alloc);
    for wire in 0..count {
        if waiting[wire as usize] == 0 {
            ready.push(WireId(wire))?;
        }
    }
    Ok(ready)
}
