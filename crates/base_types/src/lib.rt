//! The ground of the compiler: what every pass shares.
//!
//! - Places in a source (`Span`), typed indices, and names as bytes (`Text`).
//! - Sets of completion codes (`CodeSet`). The codes are those of Berry, "The Constructive Semantics of Pure Esterel":
//!   0 is termination, 1 a pause, and k of at least 2 leaves the trap that is k - 2 traps further out.
//! - What a program says of its signals (`SignalInfo`, `InputRelation`).
//! - The stated limits (`Limits`), out of memory (`NoMemory`) and other early ends (`Stop`).
//! - Draws from a start number (`Draw`).
//! - What is read and written: `Files` and `Sink`, over the disk and standard output, and in memory. `put` adds bytes
//!   to the end of a text.
#![tactic(auto)]

mod bounds;
mod code_set;
mod draws;
mod files;
mod indices;
mod interface;
mod memory;
mod names;
mod place;
mod putting;
mod sinks;
mod stop;
mod texts;

pub use bounds::{Limits, limits_are_as_stated};
pub use code_set::CodeSet;
pub use draws::Draw;
pub use files::{DiskFiles, FileEntry, FileFault, Files, MapFiles, SteadyFiles};
pub use indices::{InstId, NetId, PathId, SigId, WireId};
pub use interface::{InputRelation, SignalInfo, copy_relations};
pub use memory::NoMemory;
pub use names::{is_digit, is_letter, is_name_byte};
pub use place::Span;
pub use putting::{put, put_number};
pub use sinks::{ListSink, Sink, SinkFault, SteadySink, WriterSink, write_pieces, write_text};
pub use stop::Stop;
pub use texts::Text;
