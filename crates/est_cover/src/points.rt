// Places of a program that a run can reach.

use base_types::Span;

/// What starts at a point.
#[derive(Clone, Copy)]
pub enum PointKind {
    Emit,
    Sustain,
    Pause,
    Halt,
    /// A wait, `await`.
    Await,
    /// What a test does where it is true.
    Then,
    /// What a test, or a test of cases, does where nothing else is chosen.
    Else,
    /// What a case does.
    Case,
    /// What comes after a wait or an abortion, by `do`.
    Do,
    /// The handler of a trap.
    Handle,
}

/// A point, and the place of the source statement that starts there. A branch that is not written has the place of the
/// whole test.
#[derive(Clone, Copy)]
pub struct Point {
    pub kind: PointKind,
    pub span: Span,
}
