// Where bytes are written to.

mod kept;
mod list;
mod pieces;
mod steady;
mod writer;
mod writing;

pub use list::ListSink;
pub use pieces::{write_pieces, write_text};
pub use steady::SteadySink;
pub use writer::WriterSink;
pub use writing::{Sink, SinkFault};
