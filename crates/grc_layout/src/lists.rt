// The lists that the walk over a body keeps.

ghost use Rattle.std.specs.Prelude.{◌≡◌, ◌+◌, ◌<◌, ◌≤◌, ◌++◌, ◌∷◌, [], length, map, drop, if◌then◌else◌, IfOk, IfErr};
ghost use Rattle.base_types.specs.declared.bounds.TheConstants.Limits.{INSTANCES};
ghost use Rattle.grc_graph.specs.Layers.{root_if};
ghost use Rattle.grc_graph.specs.Instances.{instances_at};
ghost use Rattle.grc_graph.specs.PlainInstances.{instance_of};
ghost use Rattle.grc_layout.specs.Copying.{starts, resumed_instances, liveness_of, Gains, IsTooMany};

use crate::refusal::CopyFault;
use base_types::{Limits, NoMemory, PathId};
use grc_graph::{Instance, Layer};
use smallvec::SmallVec;

/// The roots of starts. A statement has few: most are in the value itself, and need no memory.
pub(crate) type Roots = SmallVec<u32, 8>;

/// The live instances so far, and the roots of the starts of the statement at hand and of those
/// around it, the outermost first.
#[derive(Drop)]
pub(crate) struct Lists {
    pub live: Vec<Instance>,
    pub roots: Roots,
}

/// Where the walk stands: at the statement with this number, which is live resumed or not, and is
/// started at the roots from `base` on.
#[derive(Clone, Copy)]
pub(crate) struct Position {
    pub path: u32,
    pub resumed: bool,
    pub base: usize,
}

/// Appends the instances of the statement itself.
pub(crate) fn copy_instances(lists: &mut Lists, at: Position) -> Result<(), CopyFault>
    requires { at.base ≤ length lists.old.roots.items }
    ensures roots { lists.new.roots ≡ lists.old.roots }
    ensures live { IfOk result (λ u. Gains lists.old.live.items lists.new.live.items
        (instances_at (liveness_of at lists.old.roots.items) at.path)) }
    ensures many { IfErr result (IsTooMany lists.old.live.items
        (instances_at (liveness_of at lists.old.roots.items) at.path)) }
{
    push_resumed(&mut lists.live, at.path, at.resumed)?;
    push_starts(&mut lists.live, at.path, roots_from(&lists.roots, at.base))?;
    Ok(())
}

// The roots from this place on.
fn roots_from(roots: &[u32], base: usize) -> &[u32]
    requires { base ≤ length roots.now }
    ensures { result.now ≡ drop base roots.now }
{
    &roots[base..]
}

// Appends the resumed instance of a statement, where it is live.
fn push_resumed(live: &mut Vec<Instance>, path: u32, resumed: bool) -> Result<(), CopyFault>
    ensures live { IfOk result (λ u. Gains live.old.items live.new.items (resumed_instances path resumed)) }
    ensures many { IfErr result (IsTooMany live.old.items (resumed_instances path resumed)) }
{
    if resumed {
        let path = PathId(path);
        let layer = Layer::Resumed;
        push_instance(live, Instance { path, layer })?;
    }
    Ok(())
}

// Appends the started instances of a statement.
fn push_starts(live: &mut Vec<Instance>, path: u32, roots: &[u32]) -> Result<(), CopyFault>
    ensures live { IfOk result (λ u. Gains live.old.items live.new.items (starts path roots.now)) }
    ensures many { IfErr result (IsTooMany live.old.items (starts path roots.now)) }
{
    for root in roots {
        let layer = Layer::Started(PathId(*root));
        let path = PathId(path);
        push_instance(live, Instance { path, layer })?;
    }
    Ok(())
}

// Appends an instance, where the limit allows it.
fn push_instance(live: &mut Vec<Instance>, instance: Instance) -> Result<(), CopyFault>
    ensures live { IfOk result (λ u. Gains live.old.items live.new.items (instance_of instance ∷ [])) }
    ensures many { IfErr result (IsTooMany live.old.items (instance_of instance ∷ [])) }
{
    if live.len() as u64 >= Limits::INSTANCES {
        return Err(CopyFault::TooManyInstances);
    }
    live.push(instance)?;
    Ok(())
}

/// Appends the root where the condition holds.
pub(crate) fn push_root(roots: &mut Roots, holds: bool, root: u32) -> Result<(), NoMemory>
    ensures { IfOk result (λ u. roots.new.items ≡ roots.old.items ++ root_if holds root) }
{
    if holds {
        roots.push(root)?;
    }
    Ok(())
}

/// From where on the roots of a second part stand: where those of the sequence do, if the first part
/// can terminate at its start; else after them all.
pub(crate) fn second_base(ends: bool, base: usize, end: usize) -> usize
    ensures { result ≡ (if ends then base else end) }
{
    if ends { base } else { end }
}
