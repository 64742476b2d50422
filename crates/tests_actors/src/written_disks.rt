//! Disks of files whose records are spelled by hand, byte by byte (docs/FORMATS.md).
use disk::{Disk, DiskFault, MemDisk};
use std::alloc::{AllocError, Global};

/// A record's body in parts, each with how often it stands there.
pub type Parts = &'static [(&'static [u8], usize)];

fn joined(alloc: Global, parts: Parts) -> Result<Vec<u8>, AllocError> {
    let mut body = Vec::new(alloc);
    for (part, times) in parts {
        for _ in 0..*times {
            body.extend_from_slice(part)?;
        }
    }
    Ok(body)
}

/// Adds an open gate, the length of the body, and the body.
fn add(file: &mut Vec<u8>, body: &[u8]) -> Result<(), AllocError> {
    let length = (body.len() as u64).to_be_bytes();
    file.push(1)?;
    file.extend_from_slice(&length[4..])?;
    file.extend_from_slice(body)
}

fn add_joined(alloc: Global, file: &mut Vec<u8>, parts: Parts) -> Result<(), AllocError> {
    let body = joined(alloc, parts)?;
    add(file, &body)
}

/// The disk with these bytes.
pub fn disk_with(alloc: Global, bytes: &[u8]) -> Result<MemDisk, DiskFault> {
    let mut disk = MemDisk::new(alloc);
    disk.write_at(0, bytes)?;
    disk.sync()?;
    Ok(disk)
}

/// The disk of a file of version 1 with records of these bodies.
pub fn disk_of(alloc: Global, records: &[&[u8]]) -> Result<MemDisk, DiskFault> {
    disk_of_letters(alloc, b"XRF1", records)
}

/// The disk of a file that begins with these letters, with records of these bodies.
pub fn disk_of_letters(
    alloc: Global,
    letters: &[u8],
    records: &[&[u8]],
) -> Result<MemDisk, DiskFault> {
    let mut file = letters.to_vec(alloc)?;
    for record in records {
        add(&mut file, record)?;
    }
    file.push(0)?;
    disk_with(alloc, &file)
}

/// The same, of bodies in parts.
pub fn disk_of_parts(alloc: Global, records: &[Parts]) -> Result<MemDisk, DiskFault> {
    let mut file = b"XRF1".to_vec(alloc)?;
    for record in records {
        add_joined(alloc, &mut file, record)?;
    }
    file.push(0)?;
    disk_with(alloc, &file)
}
