// The extents of derived statements, by those of their parts.

ghost use Rattle.est_ast.specs.FlatViews.{flat_delay_of};
ghost use Rattle.est_dismantle.specs.Extents.{IsExtent};
ghost use Rattle.est_dismantle.specs.Measures.{Measures, watched, awaited, awaited_delay, aborted, aborted_counted};
ghost use Rattle.est_dismantle.specs.Measures.{aborted_later, tested_first, abortion_measures, handled_measures};
ghost use Rattle.est_dismantle.specs.Measures.{each_measures, each_later_measures, weakly_measures, joined};
ghost use Rattle.est_dismantle.specs.Measures.{suspension_measures};

use crate::extent::Extent;
use crate::measured_events::event_extent;
use est_ast::FlatDelay;

/// That of `await e`.
pub(crate) fn awaited(event: Extent) -> Extent
    ensures { (e : Measures) → IsExtent event e → IsExtent result (awaited e) }
{
    watched(event).trapped()
}

// That of the loop that leaves a trap where the event is there.
fn watched(event: Extent) -> Extent
    ensures { (e : Measures) → IsExtent event e → IsExtent result (watched e) }
{
    let leaving = event.tested(Extent::leaf(), Extent::leaf());
    Extent::leaf().joined(leaving).over()
}

/// That of `await d`.
#[tactic(auto, unfolding(crate::specs::FlatNodes::event_measures))]
pub(crate) fn awaited_delay(delay: &FlatDelay) -> Extent
    ensures { IsExtent result (awaited_delay (flat_delay_of delay.now)) }
{
    match delay {
        FlatDelay::Plain(event) => awaited(event_extent(event)),
        FlatDelay::Immediate(event) => {
            let leaving = event_extent(event).tested(Extent::leaf(), Extent::leaf());
            leaving.joined(Extent::leaf()).over().trapped()
        }
        FlatDelay::Count(count, _, event) => awaited(event_extent(event)).copied(*count),
    }
}

/// That of the body of an abortion, in parallel with what watches for the event.
pub(crate) fn aborted(event: Extent, body: Extent) -> Extent
    ensures { (e p : Measures) → IsExtent event e → IsExtent body p → IsExtent result (aborted e p) }
{
    let ended = event.suspended(body).joined(Extent::leaf());
    ended.joined(watched(event))
}

// The same for an abortion by a count of 2 or more.
fn aborted_counted(count: u128, event: Extent, body: Extent) -> Extent
    ensures { (e p : Measures) → IsExtent event e → IsExtent body p
        → IsExtent result (aborted_counted count e p) }
{
    let ended = Extent::leaf().suspended(body).joined(Extent::leaf());
    let leaving = Extent::leaf().joined(Extent::leaf());
    let waits = awaited(event).copied(count).joined(leaving);
    ended.joined(waits).over()
}

// The same for an abortion by a delay, without the test at its start.
#[tactic(auto, unfolding(crate::specs::FlatNodes::event_measures))]
fn aborted_later(delay: &FlatDelay, body: Extent) -> Extent
    ensures { (p : Measures) → IsExtent body p → IsExtent result (aborted_later (flat_delay_of delay.now) p) }
{
    match delay {
        FlatDelay::Plain(event) => aborted(event_extent(event), body),
        FlatDelay::Immediate(event) => aborted(event_extent(event), body),
        FlatDelay::Count(count, _, event) => {
            if *count <= 1 {
                aborted(event_extent(event), body)
            } else {
                aborted_counted(*count, event_extent(event), body)
            }
        }
    }
}

// That of the test at the start, of an immediate delay only.
#[tactic(auto, unfolding(crate::specs::FlatNodes::event_measures))]
fn tested_first(delay: &FlatDelay, rest: Extent) -> Extent
    ensures { (p : Measures) → IsExtent rest p → IsExtent result (tested_first (flat_delay_of delay.now) p) }
{
    match delay {
        FlatDelay::Plain(_) => rest,
        FlatDelay::Immediate(event) => event_extent(event).tested(Extent::leaf(), rest),
        FlatDelay::Count(_, _, _) => rest,
    }
}

/// That of `abort p when d`.
pub(crate) fn abortion(delay: &FlatDelay, body: Extent) -> Extent
    ensures { (p : Measures) → IsExtent body p
        → IsExtent result (abortion_measures (flat_delay_of delay.now) p) }
{
    tested_first(delay, aborted_later(delay, body).trapped())
}

/// That of `abort p when d do q end`.
pub(crate) fn handled_abortion(delay: &FlatDelay, body: Extent, rest: Extent) -> Extent
    ensures { (p q : Measures) → IsExtent body p → IsExtent rest q → IsExtent result (handled_measures
        (tested_first (flat_delay_of delay.now) (aborted_later (flat_delay_of delay.now) p)) q) }
{
    handled(tested_first(delay, aborted_later(delay, body)), rest)
}

/// That of two traps, the inner one around this body and the outer one around the rest too.
pub(crate) fn handled(body: Extent, rest: Extent) -> Extent
    ensures { (p q : Measures) → IsExtent body p → IsExtent rest q → IsExtent result (handled_measures p q) }
{
    body.trapped().joined(rest).trapped()
}

/// That of `loop p each d`.
pub(crate) fn each(delay: &FlatDelay, body: Extent) -> Extent
    ensures { (p : Measures) → IsExtent body p → IsExtent result (each_measures (flat_delay_of delay.now) p) }
{
    let halting = Extent::leaf().over();
    abortion(delay, body.joined(halting)).over()
}

/// That of `every d do p end`.
pub(crate) fn every(delay: &FlatDelay, body: Extent) -> Extent
    ensures { (p : Measures) → IsExtent body p
        → IsExtent result (joined (awaited_delay (flat_delay_of delay.now))
        (each_later_measures (flat_delay_of delay.now) p)) }
{
    awaited_delay(delay).joined(each_later(delay, body))
}

// That of the loop in `every d do p end`.
fn each_later(delay: &FlatDelay, body: Extent) -> Extent
    ensures { (p : Measures) → IsExtent body p
        → IsExtent result (each_later_measures (flat_delay_of delay.now) p) }
{
    let halting = Extent::leaf().over();
    aborted_later(delay, body.joined(halting)).trapped().over()
}

/// That of `weak abort p when d`.
pub(crate) fn aborted_weakly(delay: &FlatDelay, body: Extent) -> Extent
    ensures { (p : Measures) → IsExtent body p
        → IsExtent result (weakly_measures (flat_delay_of delay.now) p) }
{
    let ended = body.joined(Extent::leaf());
    let waits = awaited_delay(delay).joined(Extent::leaf());
    ended.joined(waits).trapped()
}

/// That of `suspend p when d`.
#[tactic(auto, unfolding(crate::specs::FlatNodes::event_measures))]
pub(crate) fn suspension(delay: &FlatDelay, body: Extent) -> Extent
    ensures { (p : Measures) → IsExtent body p
        → IsExtent result (suspension_measures (flat_delay_of delay.now) p) }
{
    match delay {
        FlatDelay::Plain(event) => event_extent(event).suspended(body),
        FlatDelay::Immediate(event) => {
            let test = event_extent(event);
            let wait = test.tested(Extent::leaf(), Extent::leaf());
            wait.over().trapped().joined(test.suspended(body))
        }
        FlatDelay::Count(_, _, event) => event_extent(event).suspended(body),
    }
}
