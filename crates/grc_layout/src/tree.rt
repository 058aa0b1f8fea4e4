// The walk over a body that lists the nodes of its selection tree.

ghost use Rattle.std.specs.Prelude.{◌≡◌, ◌+◌, ◌<◌, ◌≤◌, ◌^◌, ◌&&◌, ◌||◌, length, map, IfOk};
ghost use Rattle.est_kernel.specs.CodeLists.{AreCodesOf};
ghost use Rattle.est_kernel.specs.Plain.{term_of};
ghost use Rattle.est_kernel.specs.Preorder.{statement_count};
ghost use Rattle.est_kernel.specs.StaticCodes.{has_code};
ghost use Rattle.est_kernel.specs.Terms.{Tick, Present, Seq, Par, Trap};
ghost use Rattle.est_kernel.specs.WellFormed.{KeepsLimits};
ghost use Rattle.grc_graph.specs.CodeTables.{CodesFrom, set_at};
ghost use Rattle.grc_graph.specs.SelectionTrees.{body_tree, body_leaves};
ghost use Rattle.grc_graph.specs.TreeForms.{tree_node};
ghost use Rattle.grc_layout.specs.Growing.{Grows};

use crate::nodes::{Part, TreeDraft, close_node, open_node, push_leaf};
use base_types::NoMemory;
use est_kernel::{Codes, Kernel};
use grc_graph::{SelForm, SelTree, has_some_code, resumed_codes, started_codes};
use std::alloc::Global;

/// The selection tree of the body; `codes` are the body's static codes. Its only error is out of memory.
pub fn select(alloc: Global, body: &Kernel, codes: &Codes) -> Result<SelTree, NoMemory>
    requires limits { KeepsLimits (term_of body.now) }
    requires codes { AreCodesOf codes.now (term_of body.now) }
    ensures nodes { IfOk result (λ tree. map tree_node tree.nodes.items ≡ body_tree (term_of body.now)) }
    ensures leaves { IfOk result (λ tree. tree.leaves ≡ length (body_leaves (term_of body.now))) }
{
    let mut draft = TreeDraft {
        nodes: Vec::new(alloc),
        leaves: 0,
    };
    let live = has_some_code(resumed_codes(codes, 0));
    let _ = select_part(body, Part { path: 0, live }, codes, &mut draft)?;
    Ok(SelTree {
        nodes: draft.nodes,
        leaves: draft.leaves,
    })
}

// Appends the nodes of the statement and of all in it, and answers the number after them.
#[cycle(selecting)]
fn select_part(
    body: &Kernel,
    whole: Part,
    codes: &Codes,
    draft: &mut TreeDraft,
) -> Result<u32, NoMemory>
    requires codes { CodesFrom codes.now (term_of body.now) whole.path }
    requires paths { whole.path + statement_count (term_of body.now) < 2 ^ 32 }
    requires places { length draft.old.nodes.items + statement_count (term_of body.now) < 2 ^ 32 }
    requires leaves { draft.old.leaves + statement_count (term_of body.now) < 2 ^ 32 }
    ensures after { IfOk result (λ after. after ≡ whole.path + statement_count (term_of body.now)) }
    ensures grown { IfOk result (λ after. Grows draft.old draft.new whole.live (term_of body.now) whole.path) }
    ensures few { IfOk result (λ after. length draft.new.nodes.items
        ≤ length draft.old.nodes.items + statement_count (term_of body.now)) }
    ensures few_leaves { IfOk result (λ after.
        draft.new.leaves ≤ draft.old.leaves + statement_count (term_of body.now)) }
    ensures kept { IfOk result (λ after. length draft.old.nodes.items ≤ length draft.new.nodes.items) }
{
    match body {
        Kernel::Nothing => Ok(whole.path + 1),
        Kernel::Emit(_) => Ok(whole.path + 1),
        Kernel::Exit(_) => Ok(whole.path + 1),
        Kernel::Pause => {
            push_leaf(draft, whole)?;
            Ok(whole.path + 1)
        }
        Kernel::Present(_, yes, no) => Ok(select_test(yes, no, whole, codes, draft)?),
        Kernel::Suspend(_, part) => Ok(select_passing(part, whole, codes, draft)?),
        Kernel::Seq(first, second) => Ok(select_sequence(first, second, whole, codes, draft)?),
        Kernel::Loop(_, part) => Ok(select_passing(part, whole, codes, draft)?),
        Kernel::Par(left, right) => Ok(select_parallel(left, right, whole, codes, draft)?),
        Kernel::Trap(part) => Ok(select_passing(part, whole, codes, draft)?),
        Kernel::Local(_, part) => Ok(select_passing(part, whole, codes, draft)?),
    }
}

// The same for a test of a signal, whatever the signal.
#[cycle(selecting)]
fn select_test(
    yes: &Kernel,
    no: &Kernel,
    whole: Part,
    codes: &Codes,
    draft: &mut TreeDraft,
) -> Result<u32, NoMemory>
    requires codes { CodesFrom codes.now (Present Tick (term_of yes.now) (term_of no.now)) whole.path }
    requires paths { whole.path + statement_count (Present Tick (term_of yes.now) (term_of no.now)) < 2 ^ 32 }
    requires places { length draft.old.nodes.items
        + statement_count (Present Tick (term_of yes.now) (term_of no.now)) < 2 ^ 32 }
    requires leaves { draft.old.leaves + statement_count (Present Tick (term_of yes.now) (term_of no.now)) < 2 ^ 32 }
    ensures after { IfOk result (λ after. after
        ≡ whole.path + statement_count (Present Tick (term_of yes.now) (term_of no.now))) }
    ensures grown { IfOk result (λ after. Grows draft.old draft.new whole.live
        (Present Tick (term_of yes.now) (term_of no.now)) whole.path) }
    ensures few { IfOk result (λ after. length draft.new.nodes.items
        ≤ length draft.old.nodes.items + statement_count (Present Tick (term_of yes.now) (term_of no.now))) }
    ensures few_leaves { IfOk result (λ after. draft.new.leaves
        ≤ draft.old.leaves + statement_count (Present Tick (term_of yes.now) (term_of no.now))) }
    ensures kept { IfOk result (λ after. length draft.old.nodes.items ≤ length draft.new.nodes.items) }
{
    let place = open_node(draft, whole, SelForm::Excl)?;
    let next = select_part(yes, part_at(whole, whole.path + 1, codes), codes, draft)?;
    let after = select_part(no, part_at(whole, next, codes), codes, draft)?;
    close_node(draft, place, whole, SelForm::Excl);
    Ok(after)
}

// The same for a sequence.
#[cycle(selecting)]
fn select_sequence(
    first: &Kernel,
    second: &Kernel,
    whole: Part,
    codes: &Codes,
    draft: &mut TreeDraft,
) -> Result<u32, NoMemory>
    requires codes { CodesFrom codes.now (Seq (term_of first.now) (term_of second.now)) whole.path }
    requires paths { whole.path + statement_count (Seq (term_of first.now) (term_of second.now)) < 2 ^ 32 }
    requires places { length draft.old.nodes.items
        + statement_count (Seq (term_of first.now) (term_of second.now)) < 2 ^ 32 }
    requires leaves { draft.old.leaves + statement_count (Seq (term_of first.now) (term_of second.now)) < 2 ^ 32 }
    ensures after { IfOk result (λ after. after
        ≡ whole.path + statement_count (Seq (term_of first.now) (term_of second.now))) }
    ensures grown { IfOk result (λ after. Grows draft.old draft.new whole.live
        (Seq (term_of first.now) (term_of second.now)) whole.path) }
    ensures few { IfOk result (λ after. length draft.new.nodes.items
        ≤ length draft.old.nodes.items + statement_count (Seq (term_of first.now) (term_of second.now))) }
    ensures few_leaves { IfOk result (λ after. draft.new.leaves
        ≤ draft.old.leaves + statement_count (Seq (term_of first.now) (term_of second.now))) }
    ensures kept { IfOk result (λ after. length draft.old.nodes.items ≤ length draft.new.nodes.items) }
{
    let place = open_node(draft, whole, SelForm::Excl)?;
    let next = select_part(first, part_at(whole, whole.path + 1, codes), codes, draft)?;
    let after = select_part(second, second_part(whole, next, codes), codes, draft)?;
    close_node(draft, place, whole, SelForm::Excl);
    Ok(after)
}

// The same for a parallel.
#[cycle(selecting)]
fn select_parallel(
    left: &Kernel,
    right: &Kernel,
    whole: Part,
    codes: &Codes,
    draft: &mut TreeDraft,
) -> Result<u32, NoMemory>
    requires codes { CodesFrom codes.now (Par (term_of left.now) (term_of right.now)) whole.path }
    requires paths { whole.path + statement_count (Par (term_of left.now) (term_of right.now)) < 2 ^ 32 }
    requires places { length draft.old.nodes.items
        + statement_count (Par (term_of left.now) (term_of right.now)) < 2 ^ 32 }
    requires leaves { draft.old.leaves + statement_count (Par (term_of left.now) (term_of right.now)) < 2 ^ 32 }
    ensures after { IfOk result (λ after. after
        ≡ whole.path + statement_count (Par (term_of left.now) (term_of right.now))) }
    ensures grown { IfOk result (λ after. Grows draft.old draft.new whole.live
        (Par (term_of left.now) (term_of right.now)) whole.path) }
    ensures few { IfOk result (λ after. length draft.new.nodes.items
        ≤ length draft.old.nodes.items + statement_count (Par (term_of left.now) (term_of right.now))) }
    ensures few_leaves { IfOk result (λ after. draft.new.leaves
        ≤ draft.old.leaves + statement_count (Par (term_of left.now) (term_of right.now))) }
    ensures kept { IfOk result (λ after. length draft.old.nodes.items ≤ length draft.new.nodes.items) }
{
    let over = can_pass(codes, whole.path + 1);
    let place = open_node(draft, whole, SelForm::Par(false, false))?;
    let next = select_part(left, part_at(whole, whole.path + 1, codes), codes, draft)?;
    let after = select_part(right, part_at(whole, next, codes), codes, draft)?;
    close_node(
        draft,
        place,
        whole,
        SelForm::Par(over, can_pass(codes, next)),
    );
    Ok(after)
}

// The same for a statement over one part alone, whose node passes the part's selection on: its tree is a trap's.
#[cycle(selecting)]
fn select_passing(
    part: &Kernel,
    whole: Part,
    codes: &Codes,
    draft: &mut TreeDraft,
) -> Result<u32, NoMemory>
    requires codes { CodesFrom codes.now (term_of part.now) (whole.path + 1) }
    requires paths { whole.path + (1 + statement_count (term_of part.now)) < 2 ^ 32 }
    requires places { length draft.old.nodes.items + (1 + statement_count (term_of part.now)) < 2 ^ 32 }
    requires leaves { draft.old.leaves + (1 + statement_count (term_of part.now)) < 2 ^ 32 }
    ensures after { IfOk result (λ after. after ≡ whole.path + (1 + statement_count (term_of part.now))) }
    ensures grown { IfOk result (λ after. Grows draft.old draft.new whole.live (Trap (term_of part.now)) whole.path) }
    ensures few { IfOk result (λ after. length draft.new.nodes.items
        ≤ length draft.old.nodes.items + (1 + statement_count (term_of part.now))) }
    ensures few_leaves { IfOk result (λ after.
        draft.new.leaves ≤ draft.old.leaves + (1 + statement_count (term_of part.now))) }
    ensures kept { IfOk result (λ after. length draft.old.nodes.items ≤ length draft.new.nodes.items) }
{
    let place = open_node(draft, whole, SelForm::Pass)?;
    let after = select_part(part, part_at(whole, whole.path + 1, codes), codes, draft)?;
    close_node(draft, place, whole, SelForm::Pass);
    Ok(after)
}

// Whether the statement with this number can ever terminate.
fn can_pass(codes: &Codes, path: u32) -> bool
    requires started { path < length codes.now.started.items }
    requires resumed { path < length codes.now.resumed.items }
    ensures { result ≡ (set_at codes.now.started.items path 0 || set_at codes.now.resumed.items path 0) }
{
    started_codes(codes, path)
        .union(resumed_codes(codes, path))
        .has(0)
}

// A part with this number.
fn part_at(whole: Part, path: u32, codes: &Codes) -> Part
    requires { path < length codes.now.resumed.items }
    ensures path { result.path ≡ path }
    ensures live { result.live ≡ (whole.live && has_code (set_at codes.now.resumed.items path)) }
{
    let live = whole.live && has_some_code(resumed_codes(codes, path));
    Part { path, live }
}

// The second part of a sequence, with this number.
fn second_part(whole: Part, path: u32, codes: &Codes) -> Part
    requires fits { whole.path + 1 < 2 ^ 32 }
    requires first_started { whole.path + 1 < length codes.now.started.items }
    requires first_resumed { whole.path + 1 < length codes.now.resumed.items }
    requires second_resumed { path < length codes.now.resumed.items }
    ensures path { result.path ≡ path }
    ensures live { result.live ≡ (whole.live
        && ((set_at codes.now.started.items (whole.path + 1) 0 || set_at codes.now.resumed.items (whole.path + 1) 0)
        && has_code (set_at codes.now.resumed.items path))) }
{
    let passes = can_pass(codes, whole.path + 1);
    let resumes = has_some_code(resumed_codes(codes, path));
    let live = whole.live && passes && resumes;
    Part { path, live }
}
