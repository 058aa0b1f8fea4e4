// Points that follow one another.

ghost use Rattle.std.specs.Prelude.{◌+◌, ◌≤◌};

/// The number of its first point, and how many points it has at most, in a program of which the environment sees this
/// many signals.
#[derive(Clone, Copy)]
pub(crate) struct Portion {
    pub(crate) seen: u32,
    pub(crate) first: usize,
    pub(crate) count: u32,
    ghost room: { seen + count ≤ 8192 },
}
