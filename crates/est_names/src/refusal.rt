// Why names are refused.

use base_types::Span;
use thiserror::Error;

/// Why `check_modules` gives no table, where it does not lack memory.
#[derive(Clone, Copy, Debug, Error)]
pub enum NameFault {
    /// The first module name in the text that an earlier module has.
    #[error("the module at byte {} has the name of an earlier one", .0.start)]
    DuplicateModule(Span),
    /// No module has the name that is given for the main one.
    #[error("no module has the name of the main one")]
    NoMain,
    /// A name that is declared a second time in one interface or after one `signal`.
    #[error("the signal at byte {} is declared a second time", .0.start)]
    DuplicateSignal(Span),
    /// A name in a relation that its module declares neither as an input nor as an inputoutput.
    #[error("the name at byte {} is no input of its module", .0.start)]
    RelationName(Span),
}
