// Whether events meet relations.

ghost use Rattle.std.specs.Prelude.{map, IsTrue};
ghost use Rattle.base_types.specs.Items.{EachEvent};
ghost use Rattle.base_types.specs.Relations.{relation_of};
ghost use Rattle.net_never.specs.Reached.{events_of, items_of};
ghost use Rattle.cec_prove_sources.specs.Devices.{IsEventOver};

use base_types::InputRelation;
use run_trace_io::first_broken;

// Reports whether an event has this number of values and meets the relations.
fn is_event(relations: &[InputRelation], width: usize, event: &[bool]) -> bool
    ensures { IsTrue result → IsEventOver width (map relation_of relations.now) event.now }
{
    event.len() == width && first_broken(relations, event).is_none()
}

/// Reports whether each of these is an event of this number of values that meets the relations.
pub(crate) fn are_events(relations: &[InputRelation], width: usize, events: &[Vec<bool>]) -> bool
    ensures { IsTrue result → EachEvent (IsEventOver width (map relation_of relations.now))
        (items_of (events_of events.now)) }
{
    for event in events {
        if !is_event(relations, width, event) {
            return false;
        }
    }
    true
}
