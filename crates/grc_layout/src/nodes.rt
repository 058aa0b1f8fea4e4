// The selection tree that the walk over a body grows.

ghost use Rattle.std.specs.Prelude.{◌≡◌, ◌+◌, ◌<◌, ◌≤◌, ◌^◌, ◌++◌, ◌∷◌, [], length, map, slice_set, if◌then◌else◌};
ghost use Rattle.std.specs.Prelude.{IsTrue, IfOk};
ghost use Rattle.grc_layout.specs.Growing.{opened, closed, leaf_of};

use base_types::{NoMemory, PathId};
use grc_graph::{SelForm, SelNode};

/// A selection tree under construction: the nodes so far, and how many of them are leaves.
#[derive(Drop)]
pub(crate) struct TreeDraft {
    pub nodes: Vec<SelNode>,
    pub leaves: u32,
}

/// A statement of the body by its number, and whether its resumed instance is live.
#[derive(Clone, Copy)]
pub(crate) struct Part {
    pub path: u32,
    pub live: bool,
}

/// Appends the node of a statement, where it has one, with an end that is not known yet; answers its
/// place.
pub(crate) fn open_node(draft: &mut TreeDraft, part: Part, form: SelForm) -> Result<usize, NoMemory>
    ensures place { IfOk result (λ place. place ≡ length draft.old.nodes.items) }
    ensures nodes { IfOk result (λ place. draft.new.nodes.items ≡ draft.old.nodes.items ++ opened part form) }
    ensures leaves { draft.new.leaves ≡ draft.old.leaves }
    ensures few { IfOk result (λ place. length draft.new.nodes.items ≤ place + 1) }
    ensures kept { IfOk result (λ place. place ≤ length draft.new.nodes.items) }
    ensures within { IfOk result (λ place. IsTrue part.live → place < length draft.new.nodes.items) }
{
    let place = draft.nodes.len();
    if part.live {
        draft.nodes.push(unfinished_node(part, form))?;
    }
    Ok(place)
}

// A node whose end is not known yet.
fn unfinished_node(part: Part, form: SelForm) -> SelNode
    ensures { result ≡ record { path = record { 0 = part.path }; after = 0; form = form } }
{
    SelNode {
        path: PathId(part.path),
        after: 0,
        form,
    }
}

/// Ends the subtree of the node at a place, where the statement has one.
pub(crate) fn close_node(draft: &mut TreeDraft, place: usize, part: Part, form: SelForm)
    requires within { IsTrue part.live → place < length draft.old.nodes.items }
    requires fits { length draft.old.nodes.items < 2 ^ 32 }
    ensures nodes { draft.new.nodes.items ≡ closed draft.old.nodes.items place part form }
    ensures leaves { draft.new.leaves ≡ draft.old.leaves }
    ensures length { length draft.new.nodes.items ≡ length draft.old.nodes.items }
{
    if part.live {
        let after = draft.nodes.len() as u32;
        draft.nodes[place] = SelNode {
            path: PathId(part.path),
            after,
            form,
        };
    }
}

/// Appends the leaf of a pause, where it has one.
pub(crate) fn push_leaf(draft: &mut TreeDraft, part: Part) -> Result<(), NoMemory>
    requires places { length draft.old.nodes.items + 1 < 2 ^ 32 }
    requires leaves { draft.old.leaves + 1 < 2 ^ 32 }
    ensures nodes { IfOk result (λ u. draft.new.nodes.items ≡ draft.old.nodes.items
        ++ leaf_of part (length draft.old.nodes.items) draft.old.leaves) }
    ensures leaves { IfOk result (λ u. draft.new.leaves ≡ draft.old.leaves + (if part.live then 1 else 0)) }
{
    if part.live {
        let after = draft.nodes.len() as u32 + 1;
        let path = PathId(part.path);
        let form = SelForm::Leaf(draft.leaves);
        draft.nodes.push(SelNode { path, after, form })?;
        draft.leaves += 1;
    }
    Ok(())
}
