// Selection trees.

ghost use Rattle.std.specs.Prelude.{◌≤◌, length};
ghost use Rattle.base_types.specs.declared.bounds.TheConstants.Limits.{KERNEL_NODES};
ghost use Rattle.grc_graph.specs.TreeForms.{SubtreesNest, LeavesAscend};

use base_types::PathId;

/// What a node of a selection tree says of the parts of its statement.
#[derive(Clone, Copy)]
pub enum SelForm {
    /// A pause. Leaves are numbered in order, from 0.
    Leaf(u32),
    /// At most one of the parts holds control.
    Excl,
    /// Both parts hold control. A branch is marked where it can be over while the other goes on.
    Par(bool, bool),
    /// The part holds control.
    Pass,
}

/// A node of a selection tree.
#[derive(Clone, Copy)]
pub struct SelNode {
    /// The node's statement.
    pub path: PathId,
    /// The place in the list of the first node after its subtree.
    pub after: u32,
    pub form: SelForm,
}

/// The selection tree of a body: a node for each statement whose resumed instance is live, in
/// preorder. The subtrees nest, and the leaves are numbered in order.
#[derive(Drop)]
pub struct SelTree {
    pub nodes: Vec<SelNode>,
    /// The number of leaves.
    pub leaves: u32,
    ghost nested: { SubtreesNest nodes.items },
    ghost numbered: { LeavesAscend nodes.items leaves },
    ghost few: { length nodes.items ≤ KERNEL_NODES },
}
