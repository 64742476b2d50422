//! Node, manager and map over a disk that refuses room once: nothing has changed then, and the next call goes as if nothing had been.
use crate::nodes::{MADE, append_of};
use crate::written_disks::disk_of;
use disk::{Disk, DiskFault, MemDisk};
use enode::{Node, NodeFault};
use manager::Manager;
use pmap::{MapFault, PartitionMap};
use std::alloc::{AllocError, Global};
use wire::{RangeId, ServerNo};

/// A disk of which one call of `reserve` is refused.
#[derive(Drop)]
struct FullDisk {
    disk: MemDisk,
    // so many of these calls there are up to the one that is refused, which counts too; 0 once it was
    left: u64,
}

impl Disk for FullDisk {
    ghost use Rattle.disk.specs.Memory.{memory_state};
    ghost use Rattle.std.proofs.Common.{inl, inr, refl};
    ghost use Rattle.disk.specs.Laws.{memory_counts_now, memory_only_now};

    ghost state = { λ f. memory_state f.disk };

    ghost counts_now = { λ f. memory_counts_now f.disk };

    ghost only_now = { λ f. memory_only_now f.disk };

    ghost seen_is_there = { λ f. inl refl };

    ghost synced_is_there = { λ f n keep told. inr refl };

    fn len(&self) -> usize {
        self.disk.len()
    }

    fn read(&self, alloc: Global) -> Result<Vec<u8>, AllocError> {
        self.disk.read(alloc)
    }

    fn reserve(&mut self, end: usize) -> Result<(), AllocError> {
        if self.left == 1 {
            self.left = 0;
            return Err(AllocError);
        }
        self.left = self.left.saturating_sub(1);
        self.disk.reserve(end)
    }

    fn write_at(&mut self, at: usize, bytes: &[u8]) -> Result<(), DiskFault> {
        self.disk.write_at(at, bytes)
    }

    fn sync(&mut self) -> Result<(), DiskFault> {
        self.disk.sync()
    }
}

/// How many records a node's file has.
fn records(alloc: Global, node: &Node<FullDisk>) -> Option<usize> {
    match node.file().records(alloc) {
        Ok(records) => Some(records.len()),
        Err(_fault) => None,
    }
}

/// Whether an append to a node has this fault, or is done, and leaves so many records in its file.
fn appends(
    alloc: Global,
    node: &mut Node<FullDisk>,
    wanted: Option<NodeFault>,
    count: usize,
) -> bool {
    let Some(packet) = append_of(alloc) else {
        return false;
    };
    let fault = node.handle(alloc, &packet).err();
    fault == wanted && !node.is_stopped() && records(alloc, node) == Some(count)
}

fn appends_again(alloc: Global, node: Node<FullDisk>) -> bool {
    let mut node = node;
    appends(alloc, &mut node, Some(NodeFault::Memory), 1) && appends(alloc, &mut node, None, 2)
}

fn is_node_well(alloc: Global) -> bool {
    let Ok(disk) = disk_of(alloc, &[MADE]) else {
        return false;
    };
    match Node::restart(alloc, 1, FullDisk { disk, left: 1 }) {
        Ok(node) => appends_again(alloc, node),
        Err(_) => false,
    }
}

/// Whether a manager for which there is no room is not made, and leaves its disk empty.
fn is_disk_empty(alloc: Global) -> bool {
    let disk = FullDisk {
        disk: MemDisk::new(alloc),
        left: 1,
    };
    match Manager::create(alloc, 4, 4096, disk) {
        Err((DiskFault::Memory, disk)) => disk.len() == 0,
        _ => false,
    }
}

/// The generation of the only range.
fn generation(map: &PartitionMap<FullDisk>) -> Option<u64> {
    match map.ranges() {
        [range] => Some(range.generation.0),
        _ => None,
    }
}

/// Whether an assignment has this fault, or is done, and leaves the range with this generation.
fn assigns(
    alloc: Global,
    map: &mut PartitionMap<FullDisk>,
    wanted: Option<MapFault>,
    left: u64,
) -> bool {
    if map.is_stopped() {
        return false;
    }
    let fault = map.assign(alloc, RangeId(1), ServerNo(2), 0, 50).err();
    fault == wanted && generation(map) == Some(left)
}

fn assigns_again(alloc: Global, map: PartitionMap<FullDisk>) -> bool {
    let mut map = map;
    assigns(alloc, &mut map, Some(MapFault::Memory), 0) && assigns(alloc, &mut map, None, 1)
}

fn is_map_well(alloc: Global) -> bool {
    let Ok(disk) = disk_of(alloc, &[]) else {
        return false;
    };
    match PartitionMap::restart(alloc, FullDisk { disk, left: 1 }) {
        Ok(map) => assigns_again(alloc, map),
        Err(_) => false,
    }
}

#[test]
fn actors_without_room_go_on(rt: HostRuntime) {
    assert!(rt; is_node_well(rt.alloc()));
    assert!(rt; is_disk_empty(rt.alloc()));
    assert!(rt; is_map_well(rt.alloc()));
}
