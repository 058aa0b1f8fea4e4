// The extents of tests.

ghost use Rattle.est_dismantle.specs.Extents.{IsExtent};
ghost use Rattle.est_dismantle.specs.FlatNodes.{event_measures, events_measures, case_events_measures};

use crate::extent::Extent;
use est_ast::{FlatCase, FlatExpr};

/// That of the test that stands for this one.
#[cycle(event_extents)]
#[tactic(auto, using(crate::proofs::MeasuredNodes::event_extents))]
pub(crate) fn event_extent(event: &FlatExpr) -> Extent
    ensures { IsExtent result (event_measures event.now) }
{
    match event {
        FlatExpr::Tick(_) => Extent::leaf(),
        FlatExpr::Sig(_) => Extent::leaf(),
        FlatExpr::Not(part) => event_extent(part).over(),
        FlatExpr::And(parts) => events_extent(parts.as_slice()),
        FlatExpr::Or(parts) => events_extent(parts.as_slice()),
    }
}

// That of these tests, nested to the right.
#[cycle(event_extents)]
fn events_extent(parts: &[FlatExpr]) -> Extent
    ensures { IsExtent result (events_measures parts.now) }
{
    let count = parts.len();
    if count == 0 {
        return Extent::leaf();
    }
    let mut whole = event_extent(&parts[count - 1]);
    for behind in 1..count {
        whole = event_extent(&parts[count - 1 - behind]).joined(whole);
    }
    whole
}

/// That of the test whether any event of these cases is there.
pub(crate) fn any_event_extent(cases: &[FlatCase]) -> Extent
    ensures { IsExtent result (case_events_measures cases.now) }
{
    let count = cases.len();
    if count == 0 {
        return Extent::leaf();
    }
    let mut whole = event_extent(&cases[count - 1].event);
    for behind in 1..count {
        whole = event_extent(&cases[count - 1 - behind].event).joined(whole);
    }
    whole
}
