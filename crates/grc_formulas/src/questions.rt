// What a formula asks of a table of words.

ghost use Rattle.std.specs.Prelude.{◌≡◌, ◌<◌, length};
ghost use Rattle.grc_formulas.specs.WordLaws.{selected_source, is_end_upto};

use crate::table::{Source, Words};
use base_types::{InstId, PathId};
use grc_graph::Wire;

/// What says that a statement holds a selected pause. No statement has a number after the last one's. It takes
/// no memory.
pub fn selected_source(words: &Words, path: PathId) -> Source
    requires { 0 < length words.now.selected.items }
    ensures { result ≡ selected_source words.now path.0 }
{
    let last = words.selected.len() - 1;
    let place = (path.0 as usize).min(last);
    words.selected[place]
}

/// Whether a wire is an end of the instance with at most this code. It takes no memory.
pub fn is_end_upto(wire: Wire, instance: InstId, code: u8) -> bool
    ensures { result ≡ is_end_upto instance.0 code wire }
{
    match wire {
        Wire::End(of, own) => of.0 == instance.0 && own <= code,
        Wire::Go(_) | Wire::Local(_) | Wire::Out(_) => false,
    }
}
