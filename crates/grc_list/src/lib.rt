//! The listing of a graph, and the names of its wires.
//!
//! A wire's name says what the wire is without the numbers of a graph: the path of its statement, the layer, and the
//! completion code or the signal. The listing is a text of lines: the nodes of the selection tree, and the wires by
//! number. The graph follows Potop-Butucaru, Edwards and Berry, "Compiling Esterel".
#![tactic(auto)]

mod listing;
mod names;
mod places;
mod texts;

pub use listing::list;
pub use names::{name_of, names_of};
pub use texts::wire_text;
