//! The outside as a program sees it: sources, sinks and disks that count their faults, real ones, and small ones in memory.
#![tactic(auto)]

mod copying;
mod disk;
mod disk_event;
mod faults;
mod file_disk;
mod mem_disk;
mod mem_streams;
mod reading;
mod real_streams;
mod streams;
mod writing;

pub use disk::Disk;
pub use disk_event::{DiskAct, DiskEvent};
pub use faults::Failed;
pub use file_disk::FileDisk;
pub use mem_disk::MemDisk;
pub use mem_streams::{MemSink, MemSource};
pub use reading::{ReadEnd, read_all};
pub use real_streams::{FileSource, StdSink, StdSource};
pub use streams::{Sink, Source};
pub use writing::write_all;
