// The depth-first search: from a node back along the edges into it.

ghost use Rattle.std.specs.Prelude.{◌≡◌, ◌-◌, ◌<◌, ◌≤◌, [], length, drop, slice_index, reverse, IfOk, OnOk};
ghost use Rattle.std.specs.Prelude.{MatchOption};
ghost use Rattle.base_digraph.specs.Walks.{JoinsNodes, IsClosedWalk};
ghost use Rattle.base_digraph.specs.Searches.{AreEarlier, IsFresh, IsSearchOf, Enters, Leaves, StepsOn, EndsSearch};

use std::alloc::{AllocError, Global};

// How far the search has come with a node.
#[derive(Clone, Copy)]
pub enum State {
    New,
    // It stands at this place of the path.
    OnPath(usize),
    // Each node that has an edge to it is ranked before it.
    Ranked(usize),
}

impl State {
    ghost use Rattle.base_digraph.specs.Searches.{is_new};

    fn is_new(self) -> bool
        ensures { result ≡ is_new self }
    {
        matches!(self, State::New)
    }
}

#[derive(Drop)]
pub struct Search {
    pub states: Vec<State>,
    // The last edge into each node whose beginning may not be ranked yet, in the terms of `Links`.
    pub rest: Vec<usize>,
    // A walk against the edges: each node has an edge to the one before it.
    pub path: Vec<usize>,
    // The ranked nodes in the order of their ranks.
    pub order: Vec<usize>,
}

impl Search {
    // A search that has met no node.
    pub fn new(alloc: Global, count: usize, last: Vec<usize>) -> Result<Search, AllocError>
        ensures { IfOk result (λ s. IsFresh count last.items s) }
    {
        Ok(Search {
            states: vec![in alloc; State::New; count]?,
            rest: last,
            path: Vec::new(alloc),
            order: Vec::with_capacity(alloc, count)?,
        })
    }

    // Ranks the node and all nodes from which walks lead to it, or answers a closed walk.
    pub fn rank_back_from(
        &mut self,
        alloc: Global,
        edges: &[(usize, usize)],
        earlier: &[usize],
        root: usize,
    ) -> Result<Option<Vec<usize>>, AllocError>
        requires nodes { JoinsNodes (length self.old.states.items) edges.now }
        requires links { AreEarlier edges.now earlier.now }
        requires places { length earlier.now ≡ length edges.now }
        requires search { IsSearchOf (length self.old.states.items) edges.now self.old }
        requires between { self.old.path.items ≡ [] }
        requires is_node { root < length self.old.states.items }
        ensures { IfOk result (λ w. MatchOption w (EndsSearch edges.now self.old self.new root)
            (λ walk. IsClosedWalk edges.now walk.items)) }
    {
        if !self.states[root].is_new() {
            return Ok(None);
        }
        self.enter(root)?;
        while let Some(node) = self.path.last().copied() {
            if let Some(walk) = self.step(alloc, edges, earlier, node)? {
                return Ok(Some(walk));
            }
        }
        Ok(None)
    }

    // Looks at the last edge into the last node of the path whose beginning may not be ranked yet.
    // The answer is a closed walk, where one is found.
    fn step(
        &mut self,
        alloc: Global,
        edges: &[(usize, usize)],
        earlier: &[usize],
        node: usize,
    ) -> Result<Option<Vec<usize>>, AllocError>
        requires nodes { JoinsNodes (length self.old.states.items) edges.now }
        requires links { AreEarlier edges.now earlier.now }
        requires places { length earlier.now ≡ length edges.now }
        requires search { IsSearchOf (length self.old.states.items) edges.now self.old }
        requires on_path { 0 < length self.old.path.items }
        requires last { slice_index self.old.path.items (length self.old.path.items - 1) ≡ node }
        ensures { IfOk result (λ w. MatchOption w (StepsOn edges.now self.old self.new)
            (λ walk. IsClosedWalk edges.now walk.items)) }
    {
        let rest = self.rest[node];
        if rest == 0 {
            self.leave(node)?;
            return Ok(None);
        }
        let source = edges[rest - 1].0;
        match self.states[source] {
            State::New => {
                self.enter(source)?;
                Ok(None)
            }
            State::OnPath(place) => {
                let walk = closed_walk(alloc, &self.path, place)?;
                Ok(Some(walk))
            }
            State::Ranked(_) => {
                self.rest[node] = earlier[rest - 1];
                Ok(None)
            }
        }
    }

    // Puts a new node at the end of the path.
    fn enter(&mut self, node: usize) -> Result<(), AllocError>
        requires is_node { node < length self.old.states.items }
        ensures { OnOk result (Enters self.old self.new node) }
    {
        self.states[node] = State::OnPath(self.path.len());
        self.path.push(node)?;
        Ok(())
    }

    // Takes the last node of the path from there and ranks it.
    fn leave(&mut self, node: usize) -> Result<(), AllocError>
        requires is_node { node < length self.old.states.items }
        ensures { OnOk result (Leaves self.old self.new node) }
    {
        self.states[node] = State::Ranked(self.order.len());
        self.order.push(node)?;
        self.path.pop();
        Ok(())
    }
}

// The walk along the edges that a path against the edges makes from this place on.
fn closed_walk(alloc: Global, path: &[usize], place: usize) -> Result<Vec<usize>, AllocError>
    requires { place ≤ length path.now }
    ensures { IfOk result (λ w. w.items ≡ reverse (drop place path.now)) }
{
    let mut walk = Vec::from_slice(alloc, &path[place..])?;
    walk.reverse();
    Ok(walk)
}
