// One group of a trace.

ghost use Rattle.std.specs.Prelude.{◌≡◌, ◌≤◌, ◌^◌, length, IsTrue, MatchResult};
ghost use Rattle.base_types.specs.Names.{is_same_name};
ghost use Rattle.base_types.specs.Distinct.{all_differ};
ghost use Rattle.run_trace_io.specs.Reads.{stage_of, IsMet, IsEnd, IsRead, group_of};
ghost use Rattle.run_trace_io.specs.Traces.{is_misplaced, has_resets, met_name, closed_group, ended, group_from};

use crate::faults::{TraceError, TraceFault};
use crate::places::{Places, place_of};
use crate::scan::{Found, next_token};
use base_types::{NoMemory, Text};
use std::alloc::Global;

// What was in the group so far.
#[derive(Clone, Copy)]
pub enum Stage {
    Fresh,
    Named,
    Resetting,
}

// A group that is read, with the place after it.
#[derive(Drop)]
pub enum Read {
    End,
    Reset(usize),
    Instant(Vec<bool>, usize),
}

// What the names of a group are read by.
#[derive(Clone, Copy)]
pub struct Names<'a> {
    pub inputs: &'a [Text],
    pub places: &'a Places,
    // Whether `!reset` is a reset.
    pub resets: bool,
    pub instant: u32,
}

const RESET: &[u8] = b"!reset";

// Whether no input has the name of a reset.
pub fn has_resets(inputs: &[Text]) -> bool
    ensures { result ≡ has_resets inputs.now }
{
    for input in inputs {
        if RESET == input.bytes() {
            return false;
        }
    }
    true
}

// The group from a place on.
pub fn read_group(
    alloc: Global,
    text: &[u8],
    at: usize,
    names: Names<'_>,
) -> Result<Read, TraceError>
    requires within { at ≤ length text.now }
    requires short { length text.now ≤ 2 ^ 24 }
    requires differ { IsTrue (all_differ is_same_name names.inputs.now) }
    requires resets { names.resets ≡ has_resets names.inputs.now }
    ensures { IsRead text.now at (group_from names.entry.inputs.now names.entry.instant text.now at) result }
{
    let mut stage = Stage::Fresh;
    let mut event = match vec![in alloc; false; names.inputs.len()] {
        Ok(event) => event,
        Err(_) => return Err(TraceError::NoMemory),
    };
    let mut from = at;
    loop {
        match next_token(text, from) {
            Found::End => return end_of(stage, names.instant),
            Found::Bad(place) => return Err(TraceError::Fault(TraceFault::BadByte(place as u32))),
            Found::Semicolon(behind) => return Ok(closed_group(stage, event, behind)),
            Found::Name(start, end) => {
                stage = stage_after(alloc, names, stage, &mut event, &text[start..end])?;
                from = end;
            }
        }
    }
}

// What the end of the text is, by what was in the group.
fn end_of(stage: Stage, instant: u32) -> Result<Read, TraceError>
    ensures { IsEnd (ended instant (stage_of stage)) result }
{
    match stage {
        Stage::Fresh => Ok(Read::End),
        Stage::Named | Stage::Resetting => Err(TraceError::Fault(TraceFault::OpenInstant(instant))),
    }
}

// The group that a `;` closes.
fn closed_group(stage: Stage, event: Vec<bool>, behind: usize) -> Read
    ensures { group_of result ≡ closed_group (stage_of stage) event.items behind }
{
    match stage {
        Stage::Fresh | Stage::Named => Read::Instant(event, behind),
        Stage::Resetting => Read::Reset(behind),
    }
}

// What is in the group after one name more.
fn stage_after(
    alloc: Global,
    names: Names<'_>,
    stage: Stage,
    event: &mut [bool],
    name: &[u8],
) -> Result<Stage, TraceError>
    requires each_input { length event.old ≡ length names.inputs.now }
    requires differ { IsTrue (all_differ is_same_name names.inputs.now) }
    requires resets { names.resets ≡ has_resets names.inputs.now }
    ensures { IsMet event.new
        (met_name names.entry.inputs.now names.entry.instant (stage_of stage) event.old name.now) result }
{
    if names.resets && is_misplaced(stage, name) {
        return Err(TraceError::Fault(TraceFault::BadReset(names.instant)));
    }
    if names.resets && RESET == name {
        return Ok(Stage::Resetting);
    }
    let Some(place) = place_of(names.places, names.inputs, name) else {
        let name = copied_name(alloc, name)?;
        return Err(TraceError::Fault(TraceFault::UnknownInput(names.instant, name)));
    };
    if event[place] {
        let name = copied_name(alloc, name)?;
        return Err(TraceError::Fault(TraceFault::Repeated(names.instant, name)));
    }
    event[place] = true;
    Ok(Stage::Named)
}

// A name in memory of its own.
fn copied_name(alloc: Global, name: &[u8]) -> Result<Text, TraceError>
    ensures { MatchResult result (λ t. t ≡ name.now) (λ e. e ≡ TraceError.NoMemory) }
{
    match Text::from_bytes(alloc, name) {
        Ok(text) => Ok(text),
        Err(NoMemory) => Err(TraceError::NoMemory),
    }
}

// Whether a name comes after a reset, or a reset after a name.
fn is_misplaced(stage: Stage, name: &[u8]) -> bool
    ensures { result ≡ is_misplaced (stage_of stage) name.now }
{
    match stage {
        Stage::Fresh => false,
        Stage::Named => RESET == name,
        Stage::Resetting => true,
    }
}
