// Why a net has no embedded text under a name.

use base_types::Text;
use thiserror::Error;

/// Why a net has no embedded text under a name, the first cause in this order.
#[derive(Debug, Drop, Error)]
pub enum EmbedFault {
    /// The name is not a letter, followed by letters, digits and `_`.
    #[error("the name is not a letter followed by letters, digits and _")]
    NoName,
    /// The name followed by `_t` is a type of the library of C, of POSIX or of C++.
    #[error("the name followed by _t is a type of the library")]
    TypeTaken,
    /// The first signal that is a word of C or of C++, of the inputs and then the outputs.
    #[error("a signal is a word of C or C++")]
    Reserved(Text),
}
