//! The doors of the house: where bytes come from, where they go and where files stand, as traits that say what is
//! left, what was written and how often a call failed. There are forms in memory, whose failures can be planned,
//! and forms over files and the standard streams, which are the trusted edge.
#![tactic(auto)]

mod disk;
mod faults;
mod holding;
mod laws;
mod plan;
mod refused;
mod sends;
mod shelf;
mod sink;
mod source;
mod supply;

pub use disk::file::FileDisk;
pub use disk::memory::MemDisk;
pub use disk::{Area, Disk};
pub use laws::{crashes_leave_images, faults_are_counted_by_name, unfailing_stays};
pub use refused::{DiskHeld, DiskRefused, Failed, OutRefused};
pub use shelf::Shelf;
pub use shelf::file::{FileShelf, Locks};
pub use shelf::memory::{MemFile, MemShelf};
pub use sink::memory::MemSink;
pub use sink::stdout::KeptStdout;
pub use sink::stream::StdSink;
pub use sink::{Sink, WritesAlike};
pub use source::file::FileSource;
pub use source::memory::MemSource;
pub use source::{ReadsAlike, Source};
pub use supply::Supply;
