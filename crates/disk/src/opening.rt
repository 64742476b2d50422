//! Finding the records and the last gate of a file, before it is a record file.
ghost use Rattle.std.specs.Prelude.{◌≡◌, ◌≢◌, ◌<◌, ◌≤◌, List, IsErrOf, OnOk, IfOk, MatchResult};
ghost use Rattle.disk.specs.Disk.{LeavesOnly, IsSteady};
ghost use Rattle.disk.specs.File.{records_in, IsFileOf, IsOpen};

use crate::device::Disk;
use crate::fault::FileFault;
use crate::scan::read_file;
use block_types::{Record, Version};
use std::alloc::Global;

/// The version of the file on a disk, the place of its last gate, and its records. It syncs first.
pub(crate) fn find<D: Disk>(
    alloc: Global,
    disk: &mut D,
) -> Result<(Version, usize, Vec<Record>), FileFault>
    ensures ok { IfOk result (λ x. IsOpen (D.state disk.new) x.0 x.1 (records_in x.0 (D.state disk.new).seen)) }
    ensures only { (v : Version) (rs : List Record) → IsFileOf v rs (D.state disk.old).seen
        → MatchResult result (λ x. (x.0 ≡ v) × (records_in x.0 (D.state disk.new).seen ≡ rs)) (λ e. e ≢ FileFault.Damaged) }
    ensures records { IfOk result (λ x. x.2.items ≡ records_in x.0 (D.state disk.new).seen) }
    ensures seen { OnOk result ((D.state disk.new).seen ≡ (D.state disk.old).seen) }
    ensures any_moment { LeavesOnly (D.state disk.old) (D.state disk.new) (D.state disk.old).may_leave }
    ensures failed { IsErrOf result FileFault.Failed → (D.state disk.old).failures < (D.state disk.new).failures }
    ensures later { (D.state disk.old).failures ≤ (D.state disk.new).failures }
    ensures steady { IsSteady (D.state disk.old) → (IsErrOf result FileFault.Failed → ⊥) × IsSteady (D.state disk.new) }
{
    disk.sync()?;
    let bytes = disk.read(alloc)?;
    let (version, records, end) = read_file(alloc, bytes)?;
    Ok((version, end, records))
}
