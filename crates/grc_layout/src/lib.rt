//! From a kernel body to what its graph is laid out over: its live instances and its selection tree.
//!
//! Both are grc_graph's definitions, after Potop-Butucaru, Edwards and Berry, "Compiling Esterel". `copies` lists the
//! instances of a body that are live: each statement resumed, where it can hold control, and started, once for each
//! root that can start it, since the graph has a copy of each statement for each way in which it can run in one
//! instant. `select` gives the tree of the statements that can hold control from one instant to the next: the pauses
//! are its leaves, of the parts of a sequence or of a test at most one holds control, and the branches of a parallel
//! hold it together.
#![tactic(auto)]

mod lists;
mod live;
mod nodes;
mod refusal;
mod tree;

pub use live::copies;
pub use refusal::CopyFault;
pub use tree::select;
