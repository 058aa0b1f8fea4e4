// Files from outside, read by name.

mod disk;
mod entry;
mod map;
mod reading;
mod steady;

pub use disk::DiskFiles;
pub use entry::FileEntry;
pub use map::MapFiles;
pub use reading::{FileFault, Files};
pub use steady::SteadyFiles;
