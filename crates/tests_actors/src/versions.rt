//! Node, manager and map over files of each version: an actor starts from one, and writes its next record in the file's own version.
use crate::damage::{ASSIGN, FIRST, Who, starts};
use crate::managers::create_of;
use crate::nodes::{MADE, append_of};
use crate::seen_bytes::are_same;
use crate::written_disks::disk_of_letters;
use disk::{Disk, MemDisk};
use enode::Node;
use manager::Manager;
use pmap::PartitionMap;
use std::alloc::Global;
use wire::{Packet, RangeId, ServerNo};

/// The letters of a file, who starts from it, its records, and those of the file after the next one.
type Case = (
    &'static [u8],
    Who,
    &'static [&'static [u8]],
    &'static [&'static [u8]],
);

/// Of a node, in version 1: "abc" in extent 1.
const ABC: &[u8] = b"\x02\0\0\0\0\0\0\0\x01\0\0\0\0\x01\0\0\0\x03abc";

/// The same in version 2, with the digest of FIPS 180-4.
const ABC_AND_DIGEST: &[u8] = b"\x02\0\0\0\0\0\0\0\x01\0\0\0\0\x01\0\0\0\x03abc\
    \xba\x78\x16\xbf\x8f\x01\xcf\xea\x41\x41\x40\xde\x5d\xae\x22\x23\
    \xb0\x03\x61\xa3\x96\x17\x7a\x9c\xb4\x10\xff\x61\xf2\x00\x15\xad";

/// Of the manager: the stream of row data of range 0, with fence 0.
const CREATED: &[u8] = b"\x07\x02\0\0\0\0\0\0\0\0\x02\0\0\0\0\0\0\0\0";

const CASES: &[Case] = &[
    (b"XRF1", Who::Node(1), &[MADE], &[MADE, ABC]),
    (b"XRF2", Who::Node(1), &[MADE], &[MADE, ABC_AND_DIGEST]),
    (b"XRF1", Who::Manager, &[FIRST], &[FIRST, CREATED]),
    (b"XRF2", Who::Manager, &[FIRST], &[FIRST, CREATED]),
    (b"XRF1", Who::Map, &[], &[ASSIGN]),
    (b"XRF2", Who::Map, &[], &[ASSIGN]),
];

// Actors and packets are handed over whole: a local that lives on is dropped at each exit, and each costs the proof.
fn appended(alloc: Global, node: Node<MemDisk>, packet: Packet) -> Option<MemDisk> {
    let mut node = node;
    match node.handle(alloc, &packet) {
        Ok(_step) => Some(node.into_disk()),
        Err(_fault) => None,
    }
}

fn created(alloc: Global, manager: Manager<MemDisk>, packet: Packet) -> Option<MemDisk> {
    let mut manager = manager;
    match manager.handle(alloc, &packet) {
        Ok(_step) => Some(manager.into_disk()),
        Err(_fault) => None,
    }
}

fn assigned(alloc: Global, map: PartitionMap<MemDisk>) -> Option<MemDisk> {
    let mut map = map;
    if map.is_stopped() {
        return None;
    }
    match map.assign(alloc, RangeId(1), ServerNo(2), 0, 50) {
        Ok(_step) => Some(map.into_disk()),
        Err(_fault) => None,
    }
}

/// The disk after the next record of an actor that starts from it.
fn written(alloc: Global, who: Who, disk: MemDisk) -> Option<MemDisk> {
    match who {
        Who::Node(number) => match Node::restart(alloc, number, disk) {
            Ok(node) => appended(alloc, node, append_of(alloc)?),
            Err(_refused) => None,
        },
        Who::Manager => match Manager::restart(alloc, disk) {
            Ok(manager) => created(alloc, manager, create_of(alloc)),
            Err(_refused) => None,
        },
        Who::Map => match PartitionMap::restart(alloc, disk) {
            Ok(map) => assigned(alloc, map),
            Err(_refused) => None,
        },
    }
}

/// Whether two disks have the same bytes.
fn have_the_same(alloc: Global, one: Option<MemDisk>, other: Option<MemDisk>) -> bool {
    match (one, other) {
        (Some(one), Some(other)) => are_same(one.read(alloc), other.read(alloc)),
        _ => false,
    }
}

/// Whether an actor writes its next record in the version of its file, and one starts from that file then.
fn keeps_the_version(alloc: Global, case: &Case) -> bool {
    let (letters, who, before, after) = *case;
    let Ok(disk) = disk_of_letters(alloc, letters, before) else {
        return false;
    };
    let wanted = disk_of_letters(alloc, letters, after).ok();
    have_the_same(alloc, written(alloc, who, disk), wanted)
        && starts(alloc, who, disk_of_letters(alloc, letters, after)) == Some(true)
}

#[test]
fn an_actor_writes_in_the_version_of_its_file(rt: HostRuntime) {
    for case in CASES {
        assert!(rt;
            keeps_the_version(rt.alloc(), case),
            "{:?} {:?}",
            case.0,
            case.2
        );
    }
}

/// The disk of a manager that is new.
fn begun(alloc: Global) -> Option<MemDisk> {
    match Manager::create(alloc, 4, 4096, MemDisk::new(alloc)) {
        Ok(manager) => Some(manager.into_disk()),
        Err((_fault, _disk)) => None,
    }
}

#[test]
fn a_new_manager_has_a_file_of_version_2(rt: HostRuntime) {
    let wanted = disk_of_letters(rt.alloc(), b"XRF2", &[FIRST]).ok();
    assert!(rt; have_the_same(rt.alloc(), begun(rt.alloc()), wanted));
}
