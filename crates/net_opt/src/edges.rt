// Edges of an and-inverter graph, and lists that have a value at every place.

/// A node of a graph, or its negation. The node 0 is always true.
#[derive(Clone, Copy, PartialEq)]
pub(crate) struct Edge {
    pub node: usize,
    pub negative: bool,
}

/// What is always true.
pub(crate) const TRUE: Edge = Edge {
    node: 0,
    negative: false,
};

/// What stands for a node that is not there.
pub(crate) const UNKNOWN: Edge = Edge {
    node: usize::MAX,
    negative: false,
};

/// A node itself.
pub(crate) fn straight(node: usize) -> Edge {
    Edge {
        node,
        negative: false,
    }
}

/// The negation of an edge.
pub(crate) fn negated(edge: Edge) -> Edge {
    Edge {
        node: edge.node,
        negative: !edge.negative,
    }
}

/// The edge, or its negation.
pub(crate) fn negated_if(edge: Edge, negative: bool) -> Edge {
    if negative { negated(edge) } else { edge }
}

/// The edge at a place, and what is always true where there is none.
pub(crate) fn edge_at(list: &[Edge], place: usize) -> Edge {
    if place < list.len() {
        list[place]
    } else {
        TRUE
    }
}

/// The word at a place, and 0 where there is none.
pub(crate) fn word_at(list: &[u64], place: usize) -> u64 {
    if place < list.len() { list[place] } else { 0 }
}

/// The number at a place, and the greatest where there is none.
pub(crate) fn number_at(list: &[usize], place: usize) -> usize {
    if place < list.len() {
        list[place]
    } else {
        usize::MAX
    }
}

/// Whether a place is marked.
pub(crate) fn is_marked(list: &[bool], place: usize) -> bool {
    place < list.len() && list[place]
}

/// Marks a place.
pub(crate) fn mark(list: &mut [bool], place: usize) {
    if place < list.len() {
        list[place] = true;
    }
}

/// The edge that names have for a node, or its negation: `UNKNOWN` where there is none.
pub(crate) fn named(names: &[Edge], edge: Edge) -> Edge {
    if edge.node >= names.len() {
        return UNKNOWN;
    }
    let name = names[edge.node];
    if name.node == usize::MAX {
        UNKNOWN
    } else {
        negated_if(name, edge.negative)
    }
}
