// The lines of points.

ghost use Rattle.std.specs.Prelude.{◌≡◌, ◌-◌, ◌++◌, ◌<◌, ◌^◌, OnOk, length};
ghost use Rattle.est_front.specs.Positions.{position};
ghost use Rattle.cec_prove_covers.specs.Findings.{reach_of};
ghost use Rattle.cec_prove_covers.specs.Lines.{is_decided, kind_word, place_text, point_text, reach_text};

use base_types::{NoMemory, put, put_number};
use cec_prove_sources::Finding;
use est_cover::{Point, PointKind};
use est_front::position_of;

/// The line of a point.
pub(crate) fn push_point(
    text: &mut Vec<u8>,
    source: &[u8],
    point: Point,
    finding: &Finding,
) -> Result<(), NoMemory>
    requires { length source.now < 2 ^ 32 - 1 }
    ensures { OnOk result (text.new.items ≡ text.old.items ++ point_text source.now point (reach_of finding.now)) }
{
    push_place(text, source, point.span.start)?;
    put(text, b": ")?;
    put(text, kind_word(point.kind))?;
    push_reach(text, finding)
}

// The line and the column of a place.
fn push_place(text: &mut Vec<u8>, source: &[u8], place: u32) -> Result<(), NoMemory>
    requires { length source.now < 2 ^ 32 - 1 }
    ensures { OnOk result (text.new.items ≡ text.old.items ++ place_text (position source.now place)) }
{
    let position = position_of(source, place);
    put_number(text, b"", position.line as usize)?;
    put_number(text, b":", position.column as usize)
}

// The word for what starts at a point.
fn kind_word(kind: PointKind) -> &'static [u8]
    ensures { result.now ≡ kind_word kind }
{
    match kind {
        PointKind::Emit => b"emit",
        PointKind::Sustain => b"sustain",
        PointKind::Pause => b"pause",
        PointKind::Halt => b"halt",
        PointKind::Await => b"await",
        PointKind::Then => b"then",
        PointKind::Else => b"else",
        PointKind::Case => b"case",
        PointKind::Do => b"do",
        PointKind::Handle => b"handle",
    }
}

// What is known of a point.
fn push_reach(text: &mut Vec<u8>, finding: &Finding) -> Result<(), NoMemory>
    ensures { OnOk result (text.new.items ≡ text.old.items ++ reach_text (reach_of finding.now)) }
{
    match finding {
        Finding::Holds => put(text, b" never\n"),
        Finding::Broken(trace) => {
            put(text, b" reached:")?;
            put(text, trace)?;
            put(text, b"\n")
        }
        Finding::Open(_) => put(text, b" undecided\n"),
    }
}

/// Whether a point is decided.
pub(crate) fn is_decided(finding: &Finding) -> bool
    ensures { result ≡ is_decided (reach_of finding.now) }
{
    match finding {
        Finding::Holds | Finding::Broken(_) => true,
        Finding::Open(_) => false,
    }
}
