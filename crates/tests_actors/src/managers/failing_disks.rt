//! A manager that is made on a disk of which one call fails.
use disk::{DiskFault, FaultDisk, FileFault, MemDisk};
use manager::Manager;
use std::alloc::Global;

/// The call that fails, whether the bytes of a write that fails are kept, and whether a manager is made, and one starts from the disk.
const CASES: &[(u64, bool, (bool, bool))] = &[
    (1, false, (false, false)),
    (1, true, (false, false)),
    (2, false, (false, false)),
    (2, true, (false, false)),
    (3, false, (false, false)),
    (3, true, (false, false)),
    (4, false, (false, false)),
    (4, true, (false, false)),
    (5, false, (false, false)),
    (5, true, (false, true)),
    (6, false, (false, true)),
    (6, true, (false, true)),
    (7, false, (true, true)),
];

/// Whether a manager is made, and its disk, also where it is not.
fn made(alloc: Global, call: u64, keep: bool) -> Option<(bool, MemDisk)> {
    if call == 0 {
        return None;
    }
    let disk = FaultDisk::new(MemDisk::new(alloc), call, keep);
    match Manager::create(alloc, 4, 4096, disk) {
        Ok(manager) => Some((true, manager.into_disk().into_disk())),
        Err((DiskFault::Failed, disk)) => Some((false, disk.into_disk())),
        Err(_) => None,
    }
}

/// Whether a manager starts from a disk. Where none does, the bytes are damaged.
fn starts(alloc: Global, disk: MemDisk) -> Option<bool> {
    match Manager::restart(alloc, disk) {
        Ok(manager) => Some(manager.table().nodes() == 4),
        Err((FileFault::Damaged, _disk)) => Some(false),
        Err(_) => None,
    }
}

fn outcome(alloc: Global, call: u64, keep: bool) -> Option<(bool, bool)> {
    let (is_made, disk) = made(alloc, call, keep)?;
    Some((is_made, starts(alloc, disk)?))
}

#[test]
fn a_manager_is_made_but_for_each_call(rt: HostRuntime) {
    for (call, keep, wanted) in CASES {
        let came = outcome(rt.alloc(), *call, *keep);
        assert!(rt; came == Some(*wanted), "call {call}, {keep}: {came:?}");
    }
}
