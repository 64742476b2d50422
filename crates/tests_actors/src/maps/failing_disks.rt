//! A map over a disk of which one call fails.
use super::{started, told};
use crate::written_disks::disk_of;
use disk::{FaultDisk, FileFault, MemDisk};
use pmap::{MapFault, PartitionMap};
use std::alloc::Global;
use wire::{RangeId, ServerNo};

type Failing = PartitionMap<FaultDisk<MemDisk>>;

/// What comes of an assignment.
#[derive(Clone, Copy, Debug, PartialEq, Eq)]
enum Outcome {
    /// No map starts from the disk, which fails.
    NoStart,
    /// The disk fails, and the map stops. The one that starts from its disk assigns this generation next.
    Stops(u64),
    /// It is done. The map that starts from its disk assigns this generation next.
    IsDone(u64),
}

/// The call that fails, whether the bytes of a write that fails are kept, and what comes of the first assignment.
const CASES: &[(u64, bool, Outcome)] = &[
    (1, false, Outcome::NoStart),
    (1, true, Outcome::NoStart),
    (2, false, Outcome::Stops(1)),
    (2, true, Outcome::Stops(1)),
    (3, false, Outcome::Stops(1)),
    (3, true, Outcome::Stops(1)),
    (4, false, Outcome::Stops(1)),
    (4, true, Outcome::Stops(2)),
    (5, false, Outcome::Stops(2)),
    (5, true, Outcome::Stops(2)),
    (6, false, Outcome::IsDone(2)),
];

/// The fault of an assignment, if it is not done.
fn fault(alloc: Global, map: &mut Failing) -> Option<MapFault> {
    if map.is_stopped() {
        return None;
    }
    match map.assign(alloc, RangeId(1), ServerNo(2), 0, 50) {
        Ok(_step) => None,
        Err(fault) => Some(fault),
    }
}

/// The generation that a map which starts from a disk assigns.
fn next(alloc: Global, disk: MemDisk) -> Option<u64> {
    let mut map = started(alloc, disk)?;
    if map.is_stopped() {
        return None;
    }
    match map.assign(alloc, RangeId(1), ServerNo(2), 0, 50) {
        Ok(step) => told(&step).map(|(_, generation, _)| generation),
        Err(_fault) => None,
    }
}

fn outcome_of(alloc: Global, map: Failing) -> Option<Outcome> {
    let mut map = map;
    let fault = fault(alloc, &mut map);
    let stopped = map.is_stopped();
    let generation = next(alloc, map.into_disk().into_disk())?;
    match (fault, stopped) {
        (None, false) => Some(Outcome::IsDone(generation)),
        (Some(MapFault::DiskFailed), true) => Some(Outcome::Stops(generation)),
        _ => None,
    }
}

fn outcome_at(alloc: Global, call: u64, keep: bool) -> Option<Outcome> {
    let Ok(disk) = disk_of(alloc, &[]) else {
        return None;
    };
    if call == 0 {
        return None;
    }
    match PartitionMap::restart(alloc, FaultDisk::new(disk, call, keep)) {
        Ok(map) => outcome_of(alloc, map),
        Err((FileFault::Failed, _disk)) => Some(Outcome::NoStart),
        Err(_) => None,
    }
}

#[test]
fn an_assignment_fails_at_each_call(rt: HostRuntime) {
    for (call, keep, wanted) in CASES {
        let came = outcome_at(rt.alloc(), *call, *keep);
        assert!(rt; came == Some(*wanted), "call {call}, {keep}: {came:?}");
    }
}
