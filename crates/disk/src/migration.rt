//! The records of a file in a file of another version.
ghost use Rattle.std.specs.Prelude.{◌≡◌, ◌≢◌, ◌<◌, ◌≤◌, [], IfOk, IfErr, MatchResult, false};
ghost use Rattle.std.specs.List.{AllByRecursion};
ghost use Rattle.blocks.specs.Record.{Fits};
ghost use Rattle.disk.specs.Disk.{LeavesOnly, IsUntouched, IsSteady, Only};
ghost use Rattle.disk.specs.File.{IsNoneOrAll};

use crate::device::{Disk, DiskFault};
use crate::file::RecordFile;
use block_types::{BlockFault, Record, Version};
use std::alloc::Global;

/// Makes a file of version 2 with the records of another, of either version, on an empty disk. The other is only read: `fits_all`
/// of the crate `blocks` says which records of version 1 fit version 2. A refusal hands the new disk back. `Failed` (20) comes only
/// where the new disk's count of failures rose, and leaves no record there or all of them; `Memory` (22) leaves it untouched.
pub fn migrate<O: Disk, N: Disk>(
    alloc: Global,
    old: &RecordFile<O>,
    new: N,
) -> Result<RecordFile<N>, (DiskFault, N)>
    requires empty { (N.state new).seen ≡ [] }
    requires durable { Only (N.state new).seen (N.state new).may_leave }
    requires fit { AllByRecursion (Fits Version.V2) old.now.records }
    ensures ok { IfOk result (λ file. (file.stopped ≡ false) × (file.version ≡ Version.V2) × (file.records ≡ old.now.records)
        × Only (N.state file.disk).seen (N.state file.disk).may_leave) }
    ensures steady { IsSteady (N.state new) → MatchResult result
        (λ file. IsSteady (N.state file.disk))
        (λ e. (e.0 ≢ DiskFault.Failed) × IsSteady (N.state e.1)) }
    // A crash at any moment of the call leaves no record on the new disk, or all of them.
    ensures any_moment { MatchResult result
        (λ file. LeavesOnly (N.state new) (N.state file.disk) (IsNoneOrAll Version.V2 old.now.records))
        (λ e. LeavesOnly (N.state new) (N.state e.1) (IsNoneOrAll Version.V2 old.now.records)) }
    ensures memory { IfErr result (λ e. e.0 ≡ DiskFault.Memory → IsUntouched (N.state new) (N.state e.1)) }
    ensures failed { MatchResult result
        (λ file. (N.state new).failures ≤ (N.state file.disk).failures)
        (λ e. e.0 ≡ DiskFault.Failed → (N.state new).failures < (N.state e.1).failures) }
{
    match old.records(alloc) {
        Ok(records) => RecordFile::with_records_as(alloc, Version::V2, new, &records),
        Err(BlockFault::Memory) => Err((DiskFault::Memory, new)),
        Err(BlockFault::Damaged) => unreachable!(),
    }
}
