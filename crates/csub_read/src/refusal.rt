// The faults of a text of the C subset.

use base_types::Text;
use thiserror::Error;

/// Why a text of the C subset is not taken: the first of its faults, in the order in which they are looked for.
#[derive(Debug, Drop, Error)]
pub enum CFault {
    /// The text is longer than 256 MiB.
    #[error("text is too long")]
    TooLong,
    /// At this byte stands the first token that no text of the subset passes, or here the text ends too early.
    #[error("byte {0} cannot stand here")]
    Syntax(u32),
    /// The first name that is declared a second time.
    #[error("a name is declared twice")]
    Twice(Text),
    /// The first name that is used and not declared, or is assigned and is an input.
    #[error("a name is not declared")]
    Undeclared(Text),
    /// The first local that is read before it is assigned.
    #[error("a local is read before it is assigned")]
    Unset(Text),
}
