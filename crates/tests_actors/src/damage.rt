//! Files of records from which an actor does not start, each beside one from which it does: each record has to fit what those before it
//! leave. Nor does an actor start from bytes that are no file of records.
mod longest;
mod of_nodes;
mod of_the_manager;
mod of_the_map;

use crate::written_disks::{disk_of, disk_with};
use disk::{Disk, DiskFault, FileFault, MemDisk, files_have_letters};
use enode::{Node, NodeFault};
use manager::Manager;
use pmap::PartitionMap;
use std::alloc::Global;

/// An actor that is started.
#[derive(Clone, Copy)]
pub enum Who {
    /// The node of this number.
    Node(u8),
    Manager,
    Map,
}

/// What a case shows, who starts, the bodies of records that fit, and those of others of which one does not.
type Case = (
    &'static str,
    Who,
    &'static [&'static [u8]],
    &'static [&'static [u8]],
);

/// Of a node: extent 1 is made with fence 1, at nodes 1, 2 and 3.
const MAKE: &[u8] = b"\x01\0\0\0\0\0\0\0\x01\0\0\0\0\0\0\0\x01\0\0\x10\0\x01\x02\x03";

/// Of the manager: it has four nodes.
pub const FIRST: &[u8] = b"\x07\x01\x04\0\0\x10\0";

/// Of the map: range 1 goes to server 2, up to moment 50.
pub const ASSIGN: &[u8] = b"\x07\x10\0\0\0\0\0\0\0\x01\x02\0\0\0\0\0\0\0\x32";

/// Of none.
const UNKNOWN: &[u8] = b"\x07\x63\0\0\0\0\0\0\0\x01";

/// Bytes that are no file of records: fewer than five, or other letters at the front.
const NO_FILES: &[&[u8]] = &[b"", b"XRF", b"XRF1", b"XRG1\0", b"YRF1\0", b"XRF3\0"];

const ALL: &[Who] = &[Who::Node(1), Who::Manager, Who::Map];

// These calls pass no contract on, so that a test is proved from what it reads alone. Each answers why no actor starts: whether the bytes
// are damaged, and how many of them the disk that is handed back has.
fn node_fault(alloc: Global, number: u8, disk: MemDisk) -> Option<(bool, usize)> {
    match Node::restart(alloc, number, disk) {
        Ok(_node) => None,
        Err((fault, disk)) => Some((fault == NodeFault::Damaged, disk.len())),
    }
}

fn manager_fault(alloc: Global, disk: MemDisk) -> Option<(bool, usize)> {
    match Manager::restart(alloc, disk) {
        Ok(_manager) => None,
        Err((fault, disk)) => Some((fault == FileFault::Damaged, disk.len())),
    }
}

fn map_fault(alloc: Global, disk: MemDisk) -> Option<(bool, usize)> {
    match PartitionMap::restart(alloc, disk) {
        Ok(_map) => None,
        Err((fault, disk)) => Some((fault == FileFault::Damaged, disk.len())),
    }
}

fn fault_of(alloc: Global, who: Who, disk: MemDisk) -> Option<(bool, usize)> {
    match who {
        Who::Node(number) => node_fault(alloc, number, disk),
        Who::Manager => manager_fault(alloc, disk),
        Who::Map => map_fault(alloc, disk),
    }
}

/// Whether an actor starts from a disk, if that can be made. Where it does not, its bytes are damaged, and they are all handed back.
pub fn starts(alloc: Global, who: Who, disk: Result<MemDisk, DiskFault>) -> Option<bool> {
    let Ok(disk) = disk else {
        return None;
    };
    let length = disk.len();
    match fault_of(alloc, who, disk) {
        None => Some(true),
        Some(told) => if told == (true, length) {
            Some(false)
        } else {
            None
        },
    }
}

fn starts_from(alloc: Global, who: Who, records: &[&[u8]]) -> Option<bool> {
    starts(alloc, who, disk_of(alloc, records))
}

/// Whether an actor starts from the first records, and not from the others.
fn is_told_apart(alloc: Global, who: Who, fit: &[&[u8]], unfit: &[&[u8]]) -> bool {
    starts_from(alloc, who, fit) == Some(true) && starts_from(alloc, who, unfit) == Some(false)
}

#[test]
fn no_actor_starts_from_other_bytes(rt: HostRuntime) {
    files_have_letters();
    for bytes in NO_FILES {
        for who in ALL {
            let disk = disk_with(rt.alloc(), bytes);
            assert!(rt;
                starts(rt.alloc(), *who, disk) == Some(false),
                "from {bytes:?}"
            );
        }
    }
}
