//! A node over a disk of which one call fails.
use super::{MADE, append_of, length, started};
use crate::answers::{Answer, comes_to};
use crate::written_disks::disk_of;
use disk::{FaultDisk, MemDisk};
use enode::{Node, NodeFault};
use std::alloc::Global;
use wire::Step;

type Failing = Node<FaultDisk<MemDisk>>;

/// What comes of an append.
#[derive(Clone, Copy, Debug, PartialEq, Eq)]
enum Outcome {
    /// No node starts from the disk, which fails.
    NoStart,
    /// The disk fails, and the node stops. The one that starts from its disk has so many records, and a replica of this length.
    Stops(usize, u32),
    /// It is done. The node that starts from its disk has so many records, and a replica of this length.
    IsDone(usize, u32),
}

/// The call that fails, whether the bytes of a write that fails are kept, and what comes of an append to a node that has one record.
const CASES: &[(u64, bool, Outcome)] = &[
    (1, false, Outcome::NoStart),
    (1, true, Outcome::NoStart),
    (2, false, Outcome::Stops(1, 0)),
    (2, true, Outcome::Stops(1, 0)),
    (3, false, Outcome::Stops(1, 0)),
    (3, true, Outcome::Stops(1, 0)),
    (4, false, Outcome::Stops(1, 0)),
    (4, true, Outcome::Stops(2, 3)),
    (5, false, Outcome::Stops(2, 3)),
    (5, true, Outcome::Stops(2, 3)),
    (6, false, Outcome::IsDone(2, 3)),
    (6, true, Outcome::IsDone(2, 3)),
];

fn appended(alloc: Global, node: &mut Failing) -> Result<Step, NodeFault> {
    match append_of(alloc) {
        Some(packet) => node.handle(alloc, &packet),
        None => Err(NodeFault::Memory),
    }
}

/// The records, and the length of the replica, of a node that starts from a disk.
fn found(alloc: Global, disk: MemDisk) -> Option<(usize, u32)> {
    let node = started(alloc, 1, disk)?;
    let Ok(records) = node.file().records(alloc) else {
        return None;
    };
    Some((records.len(), length(&node)?))
}

/// Whether the node has stopped, and nothing comes of what it is asked then.
fn has_stopped(alloc: Global, node: &mut Failing) -> bool {
    node.is_stopped() && comes_to(appended(alloc, node), Answer::Sends(0, 0))
}

fn outcome_of(alloc: Global, node: Failing) -> Option<Outcome> {
    let mut node = node;
    let fault = appended(alloc, &mut node).err();
    let stopped = has_stopped(alloc, &mut node);
    let (records, length) = found(alloc, node.into_disk().into_disk())?;
    match (fault, stopped) {
        (None, false) => Some(Outcome::IsDone(records, length)),
        (Some(NodeFault::Failed), true) => Some(Outcome::Stops(records, length)),
        _ => None,
    }
}

fn outcome_at(alloc: Global, call: u64, keep: bool) -> Option<Outcome> {
    let Ok(disk) = disk_of(alloc, &[MADE]) else {
        return None;
    };
    if call == 0 {
        return None;
    }
    match Node::restart(alloc, 1, FaultDisk::new(disk, call, keep)) {
        Ok(node) => outcome_of(alloc, node),
        Err((NodeFault::Failed, _disk)) => Some(Outcome::NoStart),
        Err(_) => None,
    }
}

#[test]
fn an_append_fails_at_each_call(rt: HostRuntime) {
    for (call, keep, wanted) in CASES {
        let came = outcome_at(rt.alloc(), *call, *keep);
        assert!(rt; came == Some(*wanted), "call {call}, {keep}: {came:?}");
    }
}
