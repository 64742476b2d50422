//! A disk: what a read gives, and what a crash may leave.
ghost use Rattle.std.specs.Prelude.{◌≡◌, ◌≤◌, ◌<◌, ◌^◌, length, IfOk};
ghost use Rattle.disk.specs.declared.device.DiskFault.TheVariants as faults;
ghost use Rattle.disk.specs.Disk.{DiskState, Reserves, Writes, Syncs, CountsNow, OnlyNow, SeenIsThere, SyncedIsThere};

use blocks::Woven;
use std::alloc::{AllocError, AllocFailed, Global};
use thiserror::Error;

/// Why a call of a disk, or of a record file that writes, did not do its work.
#[derive(Clone, Copy, Debug, PartialEq, Eq, Error)]
pub enum DiskFault {
    /// 20: the device failed in this call, and counts it.
    #[error("the disk failed")]
    Failed,
    /// 22: no memory was left.
    #[error("no memory was left")]
    Memory,
}

impl From<AllocError> for DiskFault {
    ghost from_gives = { λ _ e. e ≡ faults.Memory };

    fn from(_: AllocError) -> Self {
        DiskFault::Memory
    }
}

impl<T: Drop> From<AllocFailed<T>> for DiskFault {
    ghost from_gives = { λ _ e. e ≡ faults.Memory };

    fn from(_: AllocFailed<T>) -> Self {
        DiskFault::Memory
    }
}

impl From<block_types::Memory> for DiskFault {
    ghost from_gives = { λ _ e. e ≡ faults.Memory };

    fn from(_: block_types::Memory) -> Self {
        DiskFault::Memory
    }
}

/// One file of bytes on a device that may fail, and that may lose power at any moment. Offsets and lengths count bytes,
/// from 0. What a call may do is said of the disk's `state`, of which no program sees more than a read gives: what a
/// crash may leave now and might have left since an earlier moment, how often the device has failed, and for how many
/// calls there is room. `Failed` (20) comes only from a call in which that count rose. After Calder et al., SOSP 2011,
/// section 4.
pub trait Disk {
    ghost state: { Self → DiskState };

    /// How many bytes a read gives, below 2^63.
    fn len(&self) -> usize
        ensures value { result ≡ length (state self.now).seen }
        ensures bound { result < 2 ^ 63 };

    /// All the bytes. It is no call of the device. An error is out of memory (22).
    fn read(&self, alloc: Global) -> Result<Vec<u8>, AllocError>
        ensures { IfOk result (λ bytes. bytes.items ≡ (state self.now).seen) };

    /// Makes room, so that the next six writes and syncs, the writes ending at `end` or before, take no memory. It is no
    /// call of the device, and without memory it changes nothing.
    fn reserve(&mut self, end: usize) -> Result<(), AllocError>
        ensures { Reserves (state self.old) (state self.new) end result };

    /// Writes over what is there, and past the end. Until a sync a crash may leave any bytes in the range written. So it
    /// may after `Failed` (20) and after `Memory` (22), which comes only without room.
    fn write_at(&mut self, at: usize, bytes: &[u8]) -> Result<(), DiskFault>
        requires { at ≤ length (state self.old).seen }
        ensures { Writes (state self.old) (state self.new) at bytes.now result };

    /// As `write_at` of these bytes, which the disk may take over. What the value holds afterwards means nothing.
    fn write_woven(&mut self, at: usize, bytes: &mut Woven) -> Result<(), DiskFault>
        requires { at ≤ length (state self.old).seen }
        ensures { Writes (state self.old) (state self.new) at bytes.old.bytes result }
    {
        bytes.join();
        self.write_at(at, bytes.joined())
    }

    /// After it a crash leaves what a read gives, and nothing else. After `Failed` (20), and after `Memory` (22), which
    /// comes only without room, it may leave what it might have left before.
    fn sync(&mut self) -> Result<(), DiskFault>
        ensures { Syncs (state self.old) (state self.new) result };

    /// This moment is one of those since an earlier one.
    ghost counts_now: { (disk : Self) → CountsNow (state disk) };

    /// A crash may leave what a read gives.
    ghost seen_is_there: { (disk : Self) → SeenIsThere (state disk) };

    /// A disk that was told to stop may be left as the last sync made sure of it.
    ghost synced_is_there: { (disk : Self) → SyncedIsThere (state disk) };

    /// Since this moment there is no other.
    ghost only_now: { (disk : Self) → OnlyNow (state disk) };
}
