//! A disk of which one call fails.
ghost use Rattle.std.specs.Prelude.{◌≡◌, ◌≤◌, true, length};
ghost use Rattle.disk.specs.Disk.{Writes};
ghost use Rattle.disk.specs.Faulting.{fault_state, FaultsWrite};

use crate::device::{Disk, DiskFault};
use std::alloc::{AllocError, Global};

/// Another disk, of which one of the next `write_at` and `sync` fails and is counted; all others are passed on. A `sync`
/// that fails does nothing, nor does a `write_at` whose bytes are not kept. Where they are kept it writes all of them, and
/// they stay as those of any write do: until a sync a crash may lose them.
///
/// A `MemDisk` that was told to stop differs: in the call that fails it goes back to what its last sync has made sure of,
/// unless the bytes are kept. So at the fourth call of an append without them a `MemDisk` takes back the write of the third,
/// which the disk in this one still has.
pub struct FaultDisk<D: Disk> {
    disk: D,
    // so many calls there are up to the one that fails, which counts too; 0 once it has failed
    left: u64,
    keep: bool,
}

// Written out, so that a crate above that lets one go has no proof of what is in it.
impl<D: Disk + Drop> Drop for FaultDisk<D> {
    fn drop(self) {
        let FaultDisk {
            disk: _,
            left: _,
            keep: _,
        } = self;
    }
}

impl<D: Disk> FaultDisk<D> {
    /// A disk whose `calls`-th `write_at` or `sync` from now on fails; `keep` says whether the bytes of a `write_at` that fails
    /// are written all the same. A call without memory (22) does not fail the disk: the next one does.
    pub fn new(disk: D, calls: u64, keep: bool) -> FaultDisk<D>
        requires counted { 1 ≤ calls }
        ensures { result ≡ record { disk = disk; left = calls; keep = keep } }
    {
        FaultDisk {
            disk,
            left: calls,
            keep,
        }
    }

    /// The disk in it, as the calls left it.
    pub fn into_disk(self) -> D
        ensures { result ≡ self.disk }
    {
        let FaultDisk {
            disk,
            left: _,
            keep: _,
        } = self;
        disk
    }

    // The write that fails, whose bytes are kept.
    #[tactic(auto, using(crate::proofs::Faulting::kept_write))]
    fn write_and_fail(&mut self, at: usize, bytes: &[u8]) -> Result<(), DiskFault>
        requires within { at ≤ length (D.state self.old.disk).seen }
        requires due { self.old.left ≡ 1 }
        requires keep { self.old.keep ≡ true }
        ensures writes { Writes (fault_state D.state self.old) (fault_state D.state self.new) at bytes.now result }
        ensures faults { FaultsWrite D.state self.old self.new at bytes.now result }
    {
        match self.disk.write_at(at, bytes) {
            Err(DiskFault::Memory) => Err(DiskFault::Memory),
            _ => {
                self.left = 0;
                Err(DiskFault::Failed)
            }
        }
    }
}

impl<D: Disk> Disk for FaultDisk<D> {
    ghost use Rattle.disk.specs.Disk.{Syncs};
    ghost use Rattle.disk.specs.Faulting.{FaultsSync};

    ghost state = { fault_state D.state };

    ghost counts_now = { λ f. D.counts_now f.disk };

    ghost only_now = { λ f. D.only_now f.disk };

    ghost seen_is_there = { λ f. D.seen_is_there f.disk };

    ghost synced_is_there = { λ f n keep told. absurd cc };

    fn len(&self) -> usize {
        self.disk.len()
    }

    fn read(&self, alloc: Global) -> Result<Vec<u8>, AllocError> {
        self.disk.read(alloc)
    }

    fn reserve(&mut self, end: usize) -> Result<(), AllocError> {
        self.disk.reserve(end)
    }

    #[tactic(auto, using(crate::proofs::Faulting::lost_write))]
    fn write_at(&mut self, at: usize, bytes: &[u8]) -> Result<(), DiskFault>
        requires { at ≤ length (fault_state D.state self.old).seen }
        ensures writes { Writes (fault_state D.state self.old) (fault_state D.state self.new) at bytes.now result }
        ensures faults { FaultsWrite D.state self.old self.new at bytes.now result }
    {
        if self.left != 1 {
            self.left = self.left.saturating_sub(1);
            return self.disk.write_at(at, bytes);
        }
        if self.keep {
            return self.write_and_fail(at, bytes);
        }
        self.left = 0;
        Err(DiskFault::Failed)
    }

    #[tactic(auto, using(crate::proofs::Faulting::lost_sync))]
    fn sync(&mut self) -> Result<(), DiskFault>
        ensures syncs { Syncs (fault_state D.state self.old) (fault_state D.state self.new) result }
        ensures faults { FaultsSync D.state self.old self.new result }
    {
        if self.left != 1 {
            self.left = self.left.saturating_sub(1);
            return self.disk.sync();
        }
        self.left = 0;
        Err(DiskFault::Failed)
    }
}
