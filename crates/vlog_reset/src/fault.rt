// Why a net has no text with a reset.

use base_types::Text;
use thiserror::Error;

/// Why a net has no text with a reset, the first cause in this order.
#[derive(Debug, Drop, Error)]
pub enum ResetFault {
    /// The name of the module is not a letter, followed by letters, digits and `_`.
    #[error("the name of the module is not a letter followed by letters, digits and _")]
    NoModule,
    /// The name of the reset is not a letter, followed by letters, digits and `_`.
    #[error("the name of the reset is not a letter followed by letters, digits and _")]
    NoReset,
    /// The first name that is a word of Verilog, of the module, the reset, the inputs and then the outputs.
    #[error("a name is a word of Verilog")]
    Reserved(Text),
    /// The first of these names that is `clk`, `paused`, one of a register or a wire, or one of those before it.
    #[error("a name is given twice")]
    Twice(Text),
}
