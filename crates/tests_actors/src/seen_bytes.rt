//! The bytes that are seen of an actor, before a step and after it.
use disk::{Disk, MemDisk, RecordFile};
use std::alloc::{AllocError, Global};

/// The bytes of its file of records.
pub fn bytes_of(alloc: Global, file: &RecordFile<MemDisk>) -> Result<Vec<u8>, AllocError> {
    let disk = file.copy_disk(alloc)?;
    let bytes = disk.read(alloc);
    drop(disk);
    bytes
}

/// Whether there are the same bytes both times.
pub fn are_same(before: Result<Vec<u8>, AllocError>, after: Result<Vec<u8>, AllocError>) -> bool {
    match (before, after) {
        (Ok(one), Ok(other)) => one.as_slice() == other.as_slice(),
        _ => false,
    }
}
