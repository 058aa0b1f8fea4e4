// Places in a source text.

/// A piece of a source: the bytes from `start` up to `end`, which is not included. Both are byte
/// places, counted from 0.
#[derive(Clone, Copy, Debug, PartialEq)]
pub struct Span {
    pub start: u32,
    pub end: u32,
}
