// The covering of a source.

ghost use Rattle.std.specs.Prelude.{◌≤◌, length, option_map, IfErr, IfOk};
ghost use Rattle.cec_cycles.specs.Constructive.{IsOtherRefusal, IsRefusedConstructive};
ghost use Rattle.cec_prove_covers.specs.Coverings.{HasCovering, IsCovering};
ghost use Rattle.cec_prove_covers.specs.Stages.{IsWritten};

use crate::portions::{Lines, covering_lines};
use crate::sources::{room_of, source_flat};
use base_types::Limits;
use cec_compile::Refusal;
use cec_cycles::CycleRefusal;
use grc_order::Picker;
use std::alloc::Global;

/// The lines of all points of a source.
#[derive(Drop)]
pub enum Covering {
    /// Each point is reached by a trace, or by none.
    Whole(Vec<u8>),
    /// The same, where at least one point is undecided.
    Partly(Vec<u8>),
    /// The program has no outgoing signal of the name that is assumed.
    NoAssumed,
}

/// The covering of the points of a source: for each emission, pause, wait and branch, in the order in which they are
/// written, the place, and a trace whose last reaction starts what is there, or `never`. `never` is proved: no reaction
/// to events that meet the source's relations starts it, where the signal that is assumed is present in each reaction.
/// Each point has the effort, which is one of `net_search`. A module that is run several times has the lines of its
/// points once for each run. The dependencies of the source may have a cycle. Then each schedule by which the
/// program may be shown to be constructive has the effort too, and so has each of those of a program with new signals.
///
/// It refuses what `cec_prove_cycles::constructive_verdict_of` refuses.
pub fn covering_of<P: Picker>(
    alloc: Global,
    text: &[u8],
    main: Option<&[u8]>,
    picker: &mut P,
    assumed: Option<&[u8]>,
    effort: u64,
) -> Result<Covering, CycleRefusal>
    requires { length text.now ≤ Limits.SOURCE_BYTES }
    ensures covers { IfOk result (HasCovering text.now (option_map (λ m. m.now) main.entry)
        (option_map (λ n. n.now) assumed.entry)) }
    ensures refuses { IfErr result (IsRefusedConstructive text.now (option_map (λ m. m.now) main.entry)) }
{
    let room = match room_of(alloc, text, main, picker, assumed, effort)? {
        None => return Ok(Covering::NoAssumed),
        Some(room) => room,
    };
    match source_lines(alloc, text, main, picker, assumed, effort, room) {
        Ok(lines) => Ok(whole_or_partly(lines)),
        Err(refusal) => Err(CycleRefusal::Source(refusal)),
    }
}

// The lines of all points of a source, with at most this many new signals at a time.
fn source_lines<P: Picker>(
    alloc: Global,
    text: &[u8],
    main: Option<&[u8]>,
    picker: &mut P,
    assumed: Option<&[u8]>,
    effort: u64,
    room: usize,
) -> Result<Lines, Refusal>
    requires short { length text.now ≤ Limits.SOURCE_BYTES }
    requires room { room ≤ 4096 }
    ensures lines { IfOk result (λ l. IsCovering text.now (option_map (λ m. m.now) main.entry)
        (option_map (λ n. n.now) assumed.entry) l.text.items l.whole) }
    ensures refuses { IfErr result (IsOtherRefusal text.now (option_map (λ m. m.now) main.entry)) }
{
    let flat = source_flat(alloc, text, main)?;
    let lines = covering_lines(alloc, text, &flat, picker, assumed, effort, room)?;
    Ok(lines)
}

// What the lines say.
fn whole_or_partly(lines: Lines) -> Covering
    ensures { IsWritten lines.text.items lines.whole result }
{
    if lines.whole {
        Covering::Whole(lines.text)
    } else {
        Covering::Partly(lines.text)
    }
}
