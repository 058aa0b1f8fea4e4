// Why a text is not read.

use base_types::Text;
use thiserror::Error;

/// Why `read_guarded` gives no program. Of several faults the first of this list is reported.
#[derive(Debug, Drop, Error)]
pub enum GuardedFault {
    /// The text is longer than 256 MiB.
    #[error("text is too long")]
    TooLong,
    /// At this byte stands the first token that no guarded text passes, or here the text ends too early.
    #[error("byte {0} cannot stand here")]
    Syntax(u32),
    /// The first name that is declared a second time.
    #[error("a name is declared twice")]
    Twice(Text),
    /// The first name that is used and not declared, that is assigned and is an input, or that a block assigns or tests
    /// and is no local.
    #[error("a name is not declared")]
    Undeclared(Text),
    /// The first local that is assigned at a second place which is not the other half of the same block.
    #[error("a local is assigned twice")]
    Again(Text),
    /// The first local that is read before it is assigned where this is, or that a block tests and that was not
    /// assigned outside of blocks before.
    #[error("a local is read before it is assigned")]
    Unset(Text),
}
