// Selection trees with the widths of their codes.

ghost use Rattle.std.specs.Prelude.{◌≡◌, ◌==◌, ◌+◌, ◌-◌, ◌<◌, ◌≤◌, ◌^◌, ◌&&◌, ◌||◌, length, map, max, IfOk, OnOk};
ghost use Rattle.std.specs.Prelude.{if◌then◌else◌};
ghost use Rattle.est_kernel.specs.Terms.{Term};
ghost use Rattle.grc_graph.specs.declared.trees.SelNode.{SelNode};
ghost use Rattle.grc_graph.specs.SelectionTrees.{Exclusive, Parallel, body_tree, resumes};
ghost use Rattle.grc_graph.specs.TreeForms.{tree_node, form_of, end_of};
ghost use Rattle.net_state_enc.specs.Shapes.{Shape, NoLeaf, joined_shape, shape_of, widths_of};
ghost use Rattle.net_state_enc.specs.TreeWalks.{Folds, second_place};
ghost use Rattle.net_state_enc.specs.Widths.{number_width, branch_width, all_marked, several_parts, exclusive_widths};
ghost use Rattle.net_state_enc.specs.Widths.{parallel_widths};
ghost use Rattle.net_state_enc.specs.CodeTrees.{shape_in, widths_in, IsSized};
ghost use Rattle.net_state_enc.specs.Extents.{AreNarrow, AreSlight};

use base_types::NoMemory;
use grc_graph::{SelForm, SelNode, SelTree};
use std::alloc::Global;

/// The widths of a subtree.
#[derive(Clone, Copy)]
pub(crate) struct Sizes {
    /// Its parts, of which one alone holds a selected leaf.
    pub parts: u32,
    /// The greatest width of a part that holds a selected leaf.
    pub greatest: u32,
    /// The width where it holds a selected leaf.
    pub full: u32,
    /// The width where it may hold none.
    pub loose: u32,
}

/// A selection tree without the nodes that pass a selection on: no node; a leaf with its number; an exclusive node; a
/// parallel, with the marks of its branches.
#[derive(Drop)]
pub(crate) enum CodeTree {
    NoLeaf,
    OneLeaf(u32),
    OneOf(Sizes, Box<CodeTree>, Box<CodeTree>),
    AllOf(Sizes, bool, bool, Box<CodeTree>, Box<CodeTree>),
}

// The least width in which this many numbers differ.
pub(crate) fn number_width(count: u32) -> u32
    ensures width { result ≡ number_width count }
    ensures short { result ≤ 32 }
{
    let mut width = 0;
    let mut power: u64 = 1;
    while power < u64::from(count) {
        power *= 2;
        width += 1;
    }
    width
}

/// The widths of a tree.
pub(crate) fn sizes_of(tree: &CodeTree) -> Sizes
    requires { IsSized tree.now }
    ensures sizes { widths_in result ≡ widths_of (shape_in tree.now) }
    ensures few { result.parts + 1 < 2 ^ 32 }
{
    match tree {
        CodeTree::NoLeaf => one_size(0, 0, 0),
        CodeTree::OneLeaf(_) => one_size(1, 0, 1),
        CodeTree::OneOf(sizes, _, _) => *sizes,
        CodeTree::AllOf(sizes, _, _, _, _) => *sizes,
    }
}

fn one_size(parts: u32, full: u32, loose: u32) -> Sizes
    ensures { widths_in result ≡ record { parts = parts; greatest = full; full = full; loose = loose } }
{
    Sizes {
        parts,
        greatest: full,
        full,
        loose,
    }
}

// The widths of several parts.
fn several_sizes(a: Sizes, b: Sizes) -> Sizes
    requires first { AreSlight (widths_in a) }
    requires second { AreSlight (widths_in b) }
    ensures sizes { widths_in result ≡ several_parts (widths_in a) (widths_in b) }
    ensures few { result.parts + 1 < 2 ^ 32 }
{
    let parts = a.parts + b.parts;
    let more = parts + 1;
    let greatest = a.greatest.max(b.greatest);
    let full = number_width(parts) + greatest;
    let loose = number_width(more) + greatest;
    Sizes {
        parts,
        greatest,
        full,
        loose,
    }
}

// The widths of an exclusive node.
fn exclusive_sizes(a: Sizes, b: Sizes) -> Sizes
    requires first { AreSlight (widths_in a) }
    requires second { AreSlight (widths_in b) }
    ensures sizes { widths_in result ≡ exclusive_widths (widths_in a) (widths_in b) }
    ensures few { result.parts + 1 < 2 ^ 32 }
{
    if a.parts == 0 {
        b
    } else if b.parts == 0 {
        a
    } else {
        several_sizes(a, b)
    }
}

/// The bits of a branch of a parallel.
pub(crate) fn branch_width(marked: bool, a: Sizes) -> u32
    ensures { result ≡ branch_width marked (widths_in a) }
{
    if marked { a.loose } else { a.full }
}

/// Whether each branch of a parallel that is a node is marked.
pub(crate) fn all_marked(x: bool, y: bool, a: Sizes, b: Sizes) -> bool
    ensures { result ≡ all_marked x y (widths_in a) (widths_in b) }
{
    (a.parts == 0 || x) && (b.parts == 0 || y)
}

// The widths of a parallel.
fn parallel_sizes(x: bool, y: bool, a: Sizes, b: Sizes) -> Sizes
    requires first { AreSlight (widths_in a) }
    requires second { AreSlight (widths_in b) }
    ensures sizes { widths_in result ≡ parallel_widths x y (widths_in a) (widths_in b) }
    ensures few { result.parts + 1 < 2 ^ 32 }
{
    let full = branch_width(x, a) + branch_width(y, b);
    let more = full + 1;
    let loose = if all_marked(x, y, a, b) { full } else { more };
    one_size(1, full, loose)
}

// The tree of an exclusive node.
fn exclusive_tree(alloc: Global, first: CodeTree, second: CodeTree) -> Result<CodeTree, NoMemory>
    requires first { IsSized first }
    requires second { IsSized second }
    requires first_slight { AreSlight (widths_of (shape_in first)) }
    requires second_slight { AreSlight (widths_of (shape_in second)) }
    ensures shape { IfOk result (λ t. shape_in t ≡ joined_shape Exclusive (shape_in first) (shape_in second)) }
    ensures sized { IfOk result IsSized }
{
    let sizes = exclusive_sizes(sizes_of(&first), sizes_of(&second));
    let first = Box::new(alloc, first)?;
    let second = Box::new(alloc, second)?;
    Ok(CodeTree::OneOf(sizes, first, second))
}

// The tree of a parallel.
fn parallel_tree(
    alloc: Global,
    x: bool,
    y: bool,
    first: CodeTree,
    second: CodeTree,
) -> Result<CodeTree, NoMemory>
    requires first { IsSized first }
    requires second { IsSized second }
    requires first_slight { AreSlight (widths_of (shape_in first)) }
    requires second_slight { AreSlight (widths_of (shape_in second)) }
    ensures shape { IfOk result (λ t. shape_in t ≡ joined_shape (Parallel x y) (shape_in first) (shape_in second)) }
    ensures sized { IfOk result IsSized }
{
    let sizes = parallel_sizes(x, y, sizes_of(&first), sizes_of(&second));
    let first = Box::new(alloc, first)?;
    let second = Box::new(alloc, second)?;
    Ok(CodeTree::AllOf(sizes, x, y, first, second))
}

// The tree of a node, from those of its parts.
fn joined_tree(
    alloc: Global,
    form: SelForm,
    first: CodeTree,
    second: CodeTree,
) -> Result<CodeTree, NoMemory>
    requires first { IsSized first }
    requires second { IsSized second }
    requires first_slight { AreSlight (widths_of (shape_in first)) }
    requires second_slight { AreSlight (widths_of (shape_in second)) }
    ensures shape { IfOk result (λ t. shape_in t ≡ joined_shape (form_of form) (shape_in first) (shape_in second)) }
    ensures sized { IfOk result IsSized }
{
    match form {
        SelForm::Leaf(k) => Ok(CodeTree::OneLeaf(k)),
        SelForm::Excl => Ok(exclusive_tree(alloc, first, second)?),
        SelForm::Par(x, y) => Ok(parallel_tree(alloc, x, y, first, second)?),
        SelForm::Pass => Ok(first),
    }
}

// The tree of the nodes that stand from one place up to another; there may be none.
#[cycle(subtrees)]
fn tree_between(alloc: Global, tree: &SelTree, from: usize, to: usize) -> Result<CodeTree, NoMemory>
    requires within { to ≤ length tree.now.nodes.items }
    requires whole { (d : SelNode) → from < to → end_of tree.now.nodes.items from d ≤ to }
    ensures shape { IfOk result (λ t. Folds NoLeaf joined_shape tree.now.nodes.items from to (shape_in t)) }
    ensures sized { IfOk result IsSized }
    ensures narrow { IfOk result (λ t. AreNarrow (widths_of (shape_in t)) (to - from)) }
{
    if from < to {
        let made = tree_at(alloc, tree, from)?;
        Ok(made)
    } else {
        Ok(CodeTree::NoLeaf)
    }
}

// The tree of the node at a place and of those in its subtree.
#[cycle(subtrees)]
fn tree_at(alloc: Global, tree: &SelTree, at: usize) -> Result<CodeTree, NoMemory>
    requires within { at < length tree.now.nodes.items }
    ensures shape { IfOk result (λ t. (d : SelNode) → Folds NoLeaf joined_shape tree.now.nodes.items at
        (end_of tree.now.nodes.items at d) (shape_in t)) }
    ensures sized { IfOk result IsSized }
    ensures narrow { IfOk result (λ t. (d : SelNode)
        → AreNarrow (widths_of (shape_in t)) (end_of tree.now.nodes.items at d - at)) }
{
    let node = tree.nodes[at];
    let middle = second_part(tree, at);
    let first = tree_between(alloc, tree, at + 1, middle)?;
    let second = tree_between(alloc, tree, middle, node.after as usize)?;
    let made = joined_tree(alloc, node.form, first, second)?;
    Ok(made)
}

// Where the subtree of the second part of a node begins.
fn second_part(tree: &SelTree, at: usize) -> usize
    requires { at < length tree.now.nodes.items }
    ensures place { (d : SelNode) → result ≡ second_place tree.now.nodes.items at d }
    ensures after { at < result }
    ensures within { (d : SelNode) → result ≤ end_of tree.now.nodes.items at d }
{
    let node = tree.nodes[at];
    let next = at + 1;
    if next < node.after as usize && is_next(node, tree.nodes[next]) {
        tree.nodes[next].after as usize
    } else {
        next
    }
}

// Whether a node's statement has the number after that of another.
fn is_next(node: SelNode, other: SelNode) -> bool
    ensures { result ≡ (other.path.0 == node.path.0 + 1) }
{
    u64::from(other.path.0) == u64::from(node.path.0) + 1
}

/// The tree of a selection tree, with its widths.
pub(crate) fn code_tree(alloc: Global, tree: &SelTree) -> Result<CodeTree, NoMemory>
    ensures shape { IfOk result (λ t. (body : Term) → map tree_node tree.now.nodes.items ≡ body_tree body
        → shape_in t ≡ shape_of (resumes body) body 0 0) }
    ensures sized { IfOk result IsSized }
{
    let made = tree_between(alloc, tree, 0, tree.nodes.len())?;
    Ok(made)
}
