// The lines of all points, portion by portion.

ghost use Rattle.std.specs.Prelude.{◌≡◌, ◌+◌, ◌-◌, ◌≤◌, ◌<◌, ◌&&◌, ◌^◌, IfOk, OnOk, length, map, option_map};
ghost use Rattle.std.specs.Prelude.{slice_index_or, take};
ghost use Rattle.est_ast.specs.FlatPrograms.{IsFlat};
ghost use Rattle.est_ast.specs.FlatViews.{flat_of};
ghost use Rattle.est_cover.specs.Covered.{covered};
ghost use Rattle.cec_prove_covers.specs.Coverings.{IsCoveringText, IsReach};
ghost use Rattle.cec_prove_covers.specs.Findings.{reach_of};
ghost use Rattle.cec_prove_covers.specs.Portions.{HasLines, IsAsked};
ghost use Rattle.cec_prove_covers.specs.Stages.{IsCoveredNet};

use crate::lines::{is_decided, push_point};
use crate::nets::covered_net;
use crate::reaching::signal_reach;
use base_types::{NoMemory, SignalInfo};
use cec_compile::Made;
use cec_prove_sources::Finding;
use est_ast::Flat;
use est_cover::{Point, new_names, program_points};
use grc_order::Picker;
use std::alloc::Global;

/// The lines of points, and whether each of them is decided.
#[derive(Drop)]
pub(crate) struct Lines {
    pub(crate) text: Vec<u8>,
    pub(crate) whole: bool,
}

/// What is asked of each point of a source, and the names for the signals of a portion.
#[derive(Clone, Copy)]
pub(crate) struct Asked<'a> {
    pub(crate) source: &'a [u8],
    pub(crate) flat: &'a Flat,
    pub(crate) points: &'a [Point],
    pub(crate) names: &'a [SignalInfo],
    pub(crate) assumed: Option<&'a [u8]>,
    pub(crate) effort: u64,
}

/// The lines of all points of a flat program, with at most this many new signals at a time.
pub(crate) fn covering_lines<P: Picker>(
    alloc: Global,
    source: &[u8],
    flat: &Flat,
    picker: &mut P,
    assumed: Option<&[u8]>,
    effort: u64,
    room: usize,
) -> Result<Lines, NoMemory>
    requires short { length source.now < 2 ^ 32 - 1 }
    requires flat { IsFlat (flat_of flat.now) }
    requires room { room ≤ 4096 }
    ensures { IfOk result (λ l. IsCoveringText source.now (flat_of flat.now) (option_map (λ n. n.now) assumed.entry)
        l.text.items l.whole) }
{
    let points = program_points(alloc, flat)?;
    let names = new_names(alloc, flat, room.min(4096 - flat.signals.len()))?;
    let asked = Asked {
        source,
        flat,
        points: &points,
        names: &names,
        assumed,
        effort,
    };
    all_lines(alloc, &asked, picker)
}

// The same with these names.
fn all_lines<P: Picker>(alloc: Global, asked: &Asked<'_>, picker: &mut P) -> Result<Lines, NoMemory>
    requires { IsAsked asked.now }
    ensures { IfOk result (HasLines asked.now (length asked.now.points.now)) }
{
    let mut lines = Lines {
        text: Vec::new(alloc),
        whole: true,
    };
    let mut number = 0;
    while number < asked.points.len() {
        let end = portion_end(number, asked.names.len(), asked.points.len());
        push_portion(alloc, asked, picker, number, end, &mut lines)?;
        number = end;
    }
    Ok(lines)
}

// The number after the last point of the portion that begins at this point.
fn portion_end(number: usize, step: usize, total: usize) -> usize
    requires { number < total }
    ensures after { number < result }
    ensures within { result ≤ total }
{
    number + (total - number).min(step.max(1))
}

// The lines of a portion.
fn push_portion<P: Picker>(
    alloc: Global,
    asked: &Asked<'_>,
    picker: &mut P,
    first: usize,
    end: usize,
    lines: &mut Lines,
) -> Result<(), NoMemory>
    requires asked { IsAsked asked.now }
    requires some { first ≤ end }
    requires within { end ≤ length asked.now.points.now }
    ensures { HasLines asked.now first lines.old → OnOk result (HasLines asked.now end lines.new) }
{
    match covered_net(alloc, asked.flat, first, asked.names, picker, asked.effort)? {
        None => push_unknown(asked, first, end, lines),
        Some(net) => push_reaches(alloc, asked, &net, first, end, lines),
    }
}

// The lines of points of which nothing is known.
fn push_unknown(
    asked: &Asked<'_>,
    first: usize,
    end: usize,
    lines: &mut Lines,
) -> Result<(), NoMemory>
    requires asked { IsAsked asked.now }
    requires some { first ≤ end }
    requires within { end ≤ length asked.now.points.now }
    ensures { HasLines asked.now first lines.old → OnOk result (HasLines asked.now end lines.new) }
{
    for number in first..end {
        let unknown = Finding::Open(0);
        push_finding(asked, number, &unknown, lines)?;
    }
    Ok(())
}

// The lines of the points of a covered program.
fn push_reaches(
    alloc: Global,
    asked: &Asked<'_>,
    net: &Made,
    first: usize,
    end: usize,
    lines: &mut Lines,
) -> Result<(), NoMemory>
    requires asked { IsAsked asked.now }
    requires net { IsCoveredNet (covered (flat_of asked.now.flat.now) first
        (map (λ s. s.name) asked.now.names.now)) net.now }
    requires some { first ≤ end }
    requires within { end ≤ length asked.now.points.now }
    ensures { HasLines asked.now first lines.old → OnOk result (HasLines asked.now end lines.new) }
{
    for number in first..end {
        let finding = point_reach(alloc, asked, net, first, number)?;
        push_finding(asked, number, &finding, lines)?;
    }
    Ok(())
}

// The line of a point.
fn push_finding(
    asked: &Asked<'_>,
    number: usize,
    finding: &Finding,
    lines: &mut Lines,
) -> Result<(), NoMemory>
    requires asked { IsAsked asked.now }
    requires within { number < length asked.now.points.now }
    requires reach { IsReach (flat_of asked.now.flat.now) (option_map (λ n. n.now) asked.now.assumed) number
        (reach_of finding.now) }
    ensures { HasLines asked.now number lines.old → OnOk result (HasLines asked.now (number + 1) lines.new) }
{
    let point = point_at(asked.points, number);
    push_point(&mut lines.text, asked.source, point, finding)?;
    lines.whole = both(lines.whole, is_decided(finding));
    Ok(())
}

// The point with this number.
fn point_at(points: &[Point], number: usize) -> Point
    requires { number < length points.now }
    ensures { result ≡ slice_index_or points.now number result }
{
    points[number]
}

// Whether both are so.
fn both(left: bool, right: bool) -> bool
    ensures { result ≡ (left && right) }
{
    left && right
}

// What is known of a point, by a covered program with new signals from another point on.
fn point_reach(
    alloc: Global,
    asked: &Asked<'_>,
    net: &Made,
    first: usize,
    number: usize,
) -> Result<Finding, NoMemory>
    requires net { IsCoveredNet (covered (flat_of asked.now.flat.now) first
        (map (λ s. s.name) asked.now.names.now)) net.now }
    requires from { first ≤ number }
    ensures { IfOk result (λ f. IsReach (flat_of asked.now.flat.now) (option_map (λ n. n.now) asked.now.assumed) number
        (reach_of f)) }
{
    let place = number - first;
    if place >= asked.names.len() {
        return Ok(Finding::Open(0));
    }
    let signal = asked.names[place].name.bytes();
    signal_reach(
        alloc,
        &net.program,
        &net.net,
        signal,
        asked.assumed,
        asked.effort,
    )
}
