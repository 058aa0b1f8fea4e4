//! Texts of nets, whatever their language: part by part, and piece by piece.
//!
//! The text of a net is the flat map of its parts, and a part is what is written at once: a line, or a word of one. A
//! language says what the parts of a net are, section by section, and puts them (`NetText`); then `net_pieces` gives
//! the text away in pieces of at most 65,536 bytes, and `write_net` collects them. So does `Pieces` with any text that
//! is put place by place (`Places`).
#![tactic(auto)]

mod drivers;
mod parts;
mod pieces;
mod places;
mod texts;
mod writing;

pub use drivers::{Driver, driver_of};
pub use parts::put_part;
pub use pieces::Pieces;
pub use places::{NetPieces, NetPlaces, Places, net_pieces, write_net};
pub use texts::NetText;
pub use writing::put_named;
