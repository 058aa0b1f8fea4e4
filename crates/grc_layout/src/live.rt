// The walk over a body that lists its live instances.

ghost use Rattle.std.specs.Prelude.{◌≡◌, ◌+◌, ◌<◌, ◌≤◌, ◌^◌, ◌&&◌, ◌||◌, if◌then◌else◌, length, map, IfOk, IfErr};
ghost use Rattle.base_types.specs.declared.bounds.TheConstants.Limits.{INSTANCES};
ghost use Rattle.est_kernel.specs.CodeLists.{AreCodesOf};
ghost use Rattle.est_kernel.specs.Plain.{term_of};
ghost use Rattle.est_kernel.specs.Preorder.{statement_count};
ghost use Rattle.est_kernel.specs.StaticCodes.{has_code};
ghost use Rattle.est_kernel.specs.WellFormed.{KeepsLimits};
ghost use Rattle.grc_graph.specs.CodeTables.{CodesFrom, set_at};
ghost use Rattle.grc_graph.specs.Instances.{instances, body_instances};
ghost use Rattle.grc_graph.specs.PlainInstances.{instance_of};
ghost use Rattle.grc_layout.specs.Copying.{liveness_of, part_instances, Gains, IsTooMany};
ghost use Rattle.grc_layout.specs.Faults.{FaultHasCause};

use crate::lists::{Lists, Position, copy_instances, push_root, second_base};
use crate::refusal::CopyFault;
use est_kernel::{Codes, Kernel};
use grc_graph::{Instances, has_some_code, resumed_codes, started_codes};
use smallvec::SmallVec;
use std::alloc::Global;

/// The live instances of the body, in the order of the graph; `codes` are the body's static codes.
/// Its errors are too many of them, and out of memory.
pub fn copies(alloc: Global, body: &Kernel, codes: &Codes) -> Result<Instances, CopyFault>
    requires limits { KeepsLimits (term_of body.now) }
    requires codes { AreCodesOf codes.now (term_of body.now) }
    ensures live { IfOk result (λ live. map instance_of live.list.items ≡ body_instances (term_of body.now)) }
    ensures few { IfOk result (λ live. length (body_instances (term_of body.now)) ≤ INSTANCES) }
    ensures fault { IfErr result (λ fault. FaultHasCause (term_of body.now) fault) }
{
    let mut lists = Lists {
        live: Vec::new(alloc),
        roots: SmallVec::new(alloc),
    };
    push_root(&mut lists.roots, true, 0)?;
    let at = Position {
        path: 0,
        resumed: has_some_code(resumed_codes(codes, 0)),
        base: 0,
    };
    copy_part(body, at, codes, &mut lists)?;
    Ok(Instances { list: lists.live })
}

// Appends the instances of the statement and of all in it, and answers the number after them. The
// roots are as before where it succeeds.
#[cycle(copy_part)]
fn copy_part(
    body: &Kernel,
    at: Position,
    codes: &Codes,
    lists: &mut Lists,
) -> Result<u32, CopyFault>
    requires codes { CodesFrom codes.now (term_of body.now) at.path }
    requires fits { at.path + statement_count (term_of body.now) < 2 ^ 32 }
    requires base { at.base ≤ length lists.old.roots.items }
    ensures after { IfOk result (λ after. after ≡ at.path + statement_count (term_of body.now)) }
    ensures roots { IfOk result (λ after. lists.new.roots.items ≡ lists.old.roots.items) }
    ensures live { IfOk result (λ after. Gains lists.old.live.items lists.new.live.items
        (instances (liveness_of at lists.old.roots.items) (term_of body.now) at.path)) }
    ensures many { IfErr result (IsTooMany lists.old.live.items
        (instances (liveness_of at lists.old.roots.items) (term_of body.now) at.path)) }
{
    copy_instances(lists, at)?;
    match body {
        Kernel::Nothing | Kernel::Pause | Kernel::Emit(_) | Kernel::Exit(_) => Ok(at.path + 1),
        Kernel::Present(_, first, second) | Kernel::Par(first, second) => {
            let next = copy_within(first, at, at.path + 1, codes, lists)?;
            copy_within(second, at, next, codes, lists)
        }
        Kernel::Suspend(_, part) | Kernel::Trap(part) | Kernel::Local(_, part) => {
            copy_within(part, at, at.path + 1, codes, lists)
        }
        Kernel::Seq(first, second) => {
            let next = copy_within(first, at, at.path + 1, codes, lists)?;
            let kept = lists.roots.len();
            let position = second_position(at, next, kept, codes);
            push_root(&mut lists.roots, restarts(at, at.path + 1, codes), next)?;
            let after = copy_part(second, position, codes, lists)?;
            lists.roots.truncate(kept);
            Ok(after)
        }
        Kernel::Loop(_, part) => {
            let kept = lists.roots.len();
            let next = at.path + 1;
            push_root(&mut lists.roots, restarts(at, next, codes), next)?;
            let after = copy_within(part, at, next, codes, lists)?;
            lists.roots.truncate(kept);
            Ok(after)
        }
    }
}

// The same for a part that is live where its whole is.
#[cycle(copy_part)]
fn copy_within(
    part: &Kernel,
    whole: Position,
    path: u32,
    codes: &Codes,
    lists: &mut Lists,
) -> Result<u32, CopyFault>
    requires codes { CodesFrom codes.now (term_of part.now) path }
    requires fits { path + statement_count (term_of part.now) < 2 ^ 32 }
    requires base { whole.base ≤ length lists.old.roots.items }
    ensures after { IfOk result (λ after. after ≡ path + statement_count (term_of part.now)) }
    ensures roots { IfOk result (λ after. lists.new.roots.items ≡ lists.old.roots.items) }
    ensures live { IfOk result (λ after. Gains lists.old.live.items lists.new.live.items
        (part_instances (liveness_of whole lists.old.roots.items) (term_of part.now) path)) }
    ensures many { IfErr result (IsTooMany lists.old.live.items
        (part_instances (liveness_of whole lists.old.roots.items) (term_of part.now) path)) }
{
    let at = part_position(whole, path, codes);
    copy_part(part, at, codes, lists)
}

// Whether the statement is live resumed and its part with this number can terminate when resumed.
fn restarts(whole: Position, path: u32, codes: &Codes) -> bool
    requires { path < length codes.now.resumed.items }
    ensures { result ≡ (whole.resumed && set_at codes.now.resumed.items path 0) }
{
    whole.resumed && resumed_codes(codes, path).has(0)
}

// Where a part with this number is live.
fn part_position(whole: Position, path: u32, codes: &Codes) -> Position
    requires { path < length codes.now.resumed.items }
    ensures path { result.path ≡ path }
    ensures base { result.base ≡ whole.base }
    ensures resumed { result.resumed ≡ (whole.resumed && has_code (set_at codes.now.resumed.items path)) }
{
    Position {
        path,
        resumed: whole.resumed && has_some_code(resumed_codes(codes, path)),
        base: whole.base,
    }
}

// Where the second part of a sequence is live; `end` is the number of roots.
fn second_position(whole: Position, path: u32, end: usize, codes: &Codes) -> Position
    requires fits { whole.path + 1 < 2 ^ 32 }
    requires first_started { whole.path + 1 < length codes.now.started.items }
    requires first_resumed { whole.path + 1 < length codes.now.resumed.items }
    requires second_resumed { path < length codes.now.resumed.items }
    ensures path { result.path ≡ path }
    ensures base { result.base ≡ (if set_at codes.now.started.items (whole.path + 1) 0 then whole.base else end) }
    ensures resumed { result.resumed ≡ (whole.resumed
        && ((set_at codes.now.started.items (whole.path + 1) 0 || set_at codes.now.resumed.items (whole.path + 1) 0)
        && has_code (set_at codes.now.resumed.items path))) }
{
    let started = started_codes(codes, whole.path + 1);
    let can_pass = started.union(resumed_codes(codes, whole.path + 1)).has(0);
    let resumes = has_some_code(resumed_codes(codes, path));
    Position {
        path,
        resumed: whole.resumed && can_pass && resumes,
        base: second_base(started.has(0), whole.base, end),
    }
}
