//! Record files: lists of records on a disk that may fail at any call and lose power at any moment.
//!
//! A layer above sees a record file as a list of records. `append` adds one at its end; after `Ok` every crash leaves it,
//! and a crash at any moment of the call leaves the records from before, with the new one or without. `open` gives just
//! those records. A file that the disk failed under is stopped until it is opened again. `migrate` puts the records of a
//! file into a new one of version 2.
//!
//! The crate touches disks through the trait `Disk` alone: `MemDisk` is one in memory that can be told to stop at a
//! call, `FaultDisk` is any disk of which one call fails, and `FileDisk` is one over a file of the operating system. The
//! bytes are those of docs/FORMATS.md, "Record file".
#![tactic(auto)]

mod buffer;
mod device;
mod fault;
mod fault_disk;
mod file;
mod flat;
mod history;
mod image;
mod laws;
mod memory;
mod migration;
mod opening;
mod real;
mod scan;
mod text;
mod undo;
mod writing;

pub use device::{Disk, DiskFault};
pub use fault::FileFault;
pub use fault_disk::FaultDisk;
pub use file::RecordFile;
pub use laws::files_have_letters;
pub use memory::{MemDisk, Stop};
pub use migration::migrate;
pub use real::FileDisk;
