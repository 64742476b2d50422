//! Disks of files with an actor's records, spelled by hand.
use block_types::Record;
use bytes::Bytes;
use disk::{MemDisk, RecordFile};
use std::alloc::Global;

fn adds(alloc: Global, file: &mut RecordFile<MemDisk>, text: &[u8]) -> bool {
    if text.len() > 64 || file.is_stopped() {
        return false;
    }
    let Ok(text) = Bytes::copy_from_slice(alloc, text) else {
        return false;
    };
    file.append(alloc, &Record::Manage { text }).is_ok()
}

/// The disk of a file with a record of each of these texts, which have at most 64 bytes.
pub fn disk_of(alloc: Global, texts: &[&[u8]]) -> Option<MemDisk> {
    let Ok(mut file) = RecordFile::format(MemDisk::new(alloc)) else {
        return None;
    };
    for text in texts {
        if !adds(alloc, &mut file, text) {
            return None;
        }
    }
    Some(file.into_disk())
}
