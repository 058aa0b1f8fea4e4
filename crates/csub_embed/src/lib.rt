//! Embedded C: a text with a structure for the state of an instance, one for the inputs and one for the outputs of a
//! call, and two functions, of which one resets an instance and one runs an instant of it.
//!
//! A text is a header with all of it, or one of two files: the declarations, and the definitions. In a packed text each
//! latch takes one bit of the state.
//!
//! `specs/` says which component the files of a text describe, what calls do on any number of instances of it, and what
//! it means that they do what a net does. `embedded_net` gives a net the name of its component, or says why it has
//! none; `write_embedded` writes the text of such a net in a layout, and `embedded_text` does both.
#![tactic(auto)]

mod ends;
mod fault;
mod ignored;
mod layout;
mod naming;
mod parts;
mod pieces;
mod words;
mod writer;

pub use fault::EmbedFault;
pub use layout::{
    DeclarationsLayout, DefinitionsLayout, EmbedFile, EmbedLayout, FixedLayout, HeaderLayout,
};
pub use naming::embedded_net;
pub use parts::EmbedSection;
pub use pieces::{EmbedWriter, embedded_text, write_embedded};
