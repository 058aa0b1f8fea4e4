// Places of loops, and the least of them.

ghost use Rattle.std.specs.Prelude.{◌≡◌, List, ◌++◌};
ghost use Rattle.base_types.specs.declared.place.Span.{Span};
ghost use Rattle.est_codes.specs.Faults.{IsLeastSpan};

use base_types::Span;

/// The lesser of two places, where each is the least of its own.
pub(crate) fn lesser(left: Option<Span>, right: Option<Span>) -> Option<Span>
    ensures { (a b : List Span) → IsLeastSpan left a → IsLeastSpan right b → IsLeastSpan result (a ++ b) }
{
    match (left, right) {
        (None, _) => right,
        (Some(_), None) => left,
        (Some(one), Some(other)) => {
            if one.start < other.start || one.start == other.start && one.end <= other.end {
                left
            } else {
                right
            }
        }
    }
}
