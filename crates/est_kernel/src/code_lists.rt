// The static completion codes of a body.

use base_types::CodeSet;

/// The completion codes that each statement of a body may have, by its number in preorder: in the
/// instant in which it is started, and in later instants in which it is resumed.
#[derive(Drop)]
pub struct Codes {
    pub started: Vec<CodeSet>,
    pub resumed: Vec<CodeSet>,
}
