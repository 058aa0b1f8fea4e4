// The events of a generated source.

ghost use Rattle.std.specs.Prelude.{◌≡◌, length};
ghost use Rattle.base_types.specs.Draws.{state_after};
ghost use Rattle.est_gen.specs.Events.{event_from};

use base_types::Draw;

/// An instant of the eight inputs of a generated source: each is present where a draw below 4 is 0.
/// It takes no memory.
pub fn next_event(draw: &mut Draw) -> [bool; 8]
    ensures event { result ≡ event_from 8 draw.old }
    ensures state { draw.new ≡ state_after 8 draw.old }
{
    let mut event = [false; 8];
    fill_event(draw, &mut event);
    event
}

// Draws each truth value of an event in turn.
fn fill_event(draw: &mut Draw, event: &mut [bool])
    ensures event { event.new ≡ event_from (length event.old) draw.old }
    ensures state { draw.new ≡ state_after (length event.old) draw.old }
{
    for present in event.iter_mut() {
        *present = draw.next(4) == 0;
    }
}
