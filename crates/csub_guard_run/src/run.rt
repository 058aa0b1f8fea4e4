// Runs of bodies.

ghost use Rattle.std.specs.Prelude.{◌≡◌, ◌+◌, ◌≤◌, ◌<◌, ◌^◌, length, All};
ghost use Rattle.csub_guard_run.specs.Tracks.{AreInOrder, IsInOrder};
ghost use Rattle.csub_guard_run.specs.Tracks.{jump_made, jump_place, jump_count, track_made, track_count};

use crate::track::{Jump, Track};
use run_steps::Gates;

// The place among gates up to which they were made, and the number of the assignments that were run.
#[derive(Clone, Copy)]
struct Reached {
    place: usize,
    count: u128,
}

// Runs a body, one half of each block: the number of the assignments that were run. It takes no memory.
pub fn run_track(track: &Track, values: &mut [bool]) -> u128
    requires fits { track.now.gates.slots ≤ length values.old }
    requires order { AreInOrder (length track.now.gates.lookups) 0 track.now.jumps.items }
    requires tests { All (λ j. j.test < length values.old) track.now.jumps.items }
    ensures values { values.new ≡ track_made track.now values.old }
    ensures count { result ≡ track_count track.now values.old }
{
    let mut reached = Reached { place: 0, count: 0 };
    for jump in &track.jumps {
        reached = run_jump(&track.gates, jump, reached, values);
    }
    track.gates.run(reached.place, track.gates.len(), values);
    reached.count + u128::from(track.behind)
}

// Makes the gates up to a block, and those of its second half where the first is skipped. Else the first half must be
// made, with what is after it.
fn run_jump(gates: &Gates, jump: &Jump, reached: Reached, values: &mut [bool]) -> Reached
    requires order { IsInOrder (length gates.now.lookups) reached.place jump.now }
    requires fits { gates.now.slots ≤ length values.old }
    requires test { jump.now.test < length values.old }
    requires few { reached.count + 2 ^ 65 ≤ 2 ^ 128 }
    ensures values { values.new ≡ jump_made gates.now.lookups reached.place jump.now values.old }
    ensures place { result.place ≡ jump_place gates.now.lookups reached.place jump.now values.old }
    ensures count { result.count
        ≡ reached.count + jump_count gates.now.lookups reached.place jump.now values.old }
    ensures most { result.count ≤ reached.count + 2 ^ 65 }
{
    gates.run(reached.place, jump.second, values);
    let before = reached.count + u128::from(jump.before_count);
    if values[jump.test] {
        Reached {
            place: jump.first,
            count: before + u128::from(jump.first_count),
        }
    } else {
        gates.run(jump.second, jump.first, values);
        Reached {
            place: jump.next,
            count: before + u128::from(jump.second_count),
        }
    }
}
