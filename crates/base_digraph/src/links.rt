// For each edge, where the edges into the same node stand before it.

ghost use Rattle.std.specs.Prelude.{IfOk};
ghost use Rattle.base_digraph.specs.Walks.{JoinsNodes};
ghost use Rattle.base_digraph.specs.Searches.{AreLinks};

use std::alloc::{AllocError, Global};

// How the edges into each node follow one another, from the last one back. An edge is meant by the
// number of edges up to it, itself counted, so that 0 means that there is none.
#[derive(Drop)]
pub struct Links {
    // The last edge into each node.
    pub last: Vec<usize>,
    // For each edge, the last one before it into the same node.
    pub earlier: Vec<usize>,
}

pub fn edge_links(
    alloc: Global,
    count: usize,
    edges: &[(usize, usize)],
) -> Result<Links, AllocError>
    requires { JoinsNodes count edges.now }
    ensures { IfOk result (λ l. AreLinks count edges.now l.last.items l.earlier.items) }
{
    let mut last = vec![in alloc; 0usize; count]?;
    let mut earlier = Vec::with_capacity(alloc, edges.len())?;
    for (k, edge) in edges.iter().enumerate() {
        let to = edge.1;
        earlier.push(last[to])?;
        last[to] = k + 1;
    }
    Ok(Links { last, earlier })
}
