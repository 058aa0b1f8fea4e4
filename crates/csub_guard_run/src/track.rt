// A body on one track: the gates of all its parts one after another, and its blocks as places among them.

ghost use Rattle.std.specs.Prelude.{◌≡◌, ◌≤◌, ◌++◌, length, IfOk, OnOk};
ghost use Rattle.csub_guard_run.specs.Runs.{BlockFits};
ghost use Rattle.csub_guard_run.specs.Tracks.{BlockGates, BodyGates, IsTrack, block_lookups, jump_at};

use crate::plan::{Block, Body};
use base_types::NoMemory;
use run_steps::Gates;
use std::alloc::Global;

/// A block as places among gates: those of its second half begin at `second` and those of its first half at `first`,
/// and `next` is the place after them. Those before `second` are before the block.
#[derive(Drop)]
pub struct Jump {
    pub test: usize,
    pub second: usize,
    pub first: usize,
    pub next: usize,
    // How many assignments are before the block, and in each half.
    pub before_count: u64,
    pub first_count: u64,
    pub second_count: u64,
}

/// The gates of a body, and its blocks. The first half of a block is in front of what is after the block, so that
/// both are one part where the block is not skipped.
#[derive(Drop)]
pub struct Track {
    pub gates: Gates,
    pub jumps: Vec<Jump>,
    // The number of assignments after the last block.
    pub behind: u64,
}

// The track of a body.
pub fn track_of(alloc: Global, body: &Body) -> Result<Track, NoMemory>
    requires { BodyGates body.now }
    ensures { IfOk result (IsTrack body.now) }
{
    let mut gates = Gates::new(alloc);
    let mut jumps = Vec::new(alloc);
    for block in &body.blocks {
        let jump = push_block(&mut gates, block)?;
        jumps.push(jump)?;
    }
    gates.push_plan(&body.last.plan)?;
    Ok(Track {
        gates,
        jumps,
        behind: body.last.count,
    })
}

// The gates of one block more.
fn push_block(gates: &mut Gates, block: &Block) -> Result<Jump, NoMemory>
    requires { BlockGates block.now }
    ensures lookups { OnOk result (gates.new.lookups ≡ gates.old.lookups ++ block_lookups block.now) }
    ensures more { OnOk result (gates.old.slots ≤ gates.new.slots) }
    ensures fits { OnOk result (BlockFits gates.new.slots block.now) }
    ensures jump { IfOk result (λ j. j ≡ jump_at (length gates.old.lookups) block.now) }
{
    gates.push_plan(&block.before.plan)?;
    let second = gates.len();
    gates.push_plan(&block.second.plan)?;
    let first = gates.len();
    gates.push_plan(&block.first.plan)?;
    Ok(Jump {
        test: block.test,
        second,
        first,
        next: gates.len(),
        before_count: block.before.count,
        first_count: block.first.count,
        second_count: block.second.count,
    })
}
