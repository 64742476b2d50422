//! What is written to a disk that is, or becomes, a record file. All room is made before the first write.
ghost use Rattle.std.specs.Prelude.{◌≡◌, ◌+◌, ◌<◌, ◌≤◌, ◌++◌, ◌^◌, [], ◌∷◌, length, IsErrOf, OnOk, IfOk};
ghost use Rattle.std.specs.List.{AllByRecursion};
ghost use Rattle.blocks.specs.Record.{Fits};
ghost use Rattle.disk.specs.Behind.{HasRoom, PutsBytes};
ghost use Rattle.disk.specs.Disk.{LeavesOnly, IsUntouched, IsSteady, Only};
ghost use Rattle.disk.specs.File.{header, IsOpen, IsNoneOrAll, HasNoRecord};

use crate::device::{Disk, DiskFault};
use crate::text::opened_text;
use block_types::{Record, Version};
use blocks::Woven;
use std::alloc::Global;

fn empty_file(version: Version) -> [u8; 5]
    ensures { result ≡ header version ++ 0 ∷ [] }
{
    match version {
        Version::V1 => [b'X', b'R', b'F', b'1', 0],
        Version::V2 => [b'X', b'R', b'F', b'2', 0],
    }
}

// Puts a file with no record on an empty disk, in two device calls for which there is room.
fn put_header<D: Disk>(version: Version, disk: &mut D) -> Result<(), DiskFault>
    requires empty { (D.state disk.old).seen ≡ [] }
    requires durable { Only (D.state disk.old).seen (D.state disk.old).may_leave }
    requires room { HasRoom (D.state disk.old) 2 5 }
    ensures ok { OnOk result (IsOpen (D.state disk.new) version 4 []) }
    ensures steady { IsSteady (D.state disk.old) → (IsErrOf result DiskFault.Failed → ⊥) × IsSteady (D.state disk.new) }
    ensures any_moment { LeavesOnly (D.state disk.old) (D.state disk.new) HasNoRecord }
    ensures memory { IsErrOf result DiskFault.Memory → ⊥ }
    ensures failed { IsErrOf result DiskFault.Failed → (D.state disk.old).failures < (D.state disk.new).failures }
    ensures later { (D.state disk.old).failures ≤ (D.state disk.new).failures }
    ensures spent { OnOk result (((D.state disk.old).room ≤ (D.state disk.new).room + 2)
        × ((D.state disk.old).reserved ≤ (D.state disk.new).reserved)) }
{
    let bytes = empty_file(version);
    disk.write_at(0, &bytes)?;
    disk.sync()
}

/// Puts a file with no record on an empty disk.
pub(crate) fn write_header<D: Disk>(version: Version, disk: &mut D) -> Result<(), DiskFault>
    requires empty { (D.state disk.old).seen ≡ [] }
    requires durable { Only (D.state disk.old).seen (D.state disk.old).may_leave }
    ensures ok { OnOk result (IsOpen (D.state disk.new) version 4 []) }
    ensures steady { IsSteady (D.state disk.old) → (IsErrOf result DiskFault.Failed → ⊥) × IsSteady (D.state disk.new) }
    ensures any_moment { LeavesOnly (D.state disk.old) (D.state disk.new) HasNoRecord }
    ensures memory { IsErrOf result DiskFault.Memory → IsUntouched (D.state disk.old) (D.state disk.new) }
    ensures failed { IsErrOf result DiskFault.Failed → (D.state disk.old).failures < (D.state disk.new).failures }
    ensures later { (D.state disk.old).failures ≤ (D.state disk.new).failures }
{
    disk.reserve(5)?;
    put_header(version, disk)
}

/// Puts the text of records behind the last gate of a file, syncs, opens that gate, and syncs: four device calls for which
/// there is room.
pub(crate) fn put_records<D: Disk>(end: usize, text: &[u8], disk: &mut D) -> Result<(), DiskFault>
    requires within { end < length (D.state disk.old).seen }
    requires bound { end < 2 ^ 63 }
    requires room { HasRoom (D.state disk.old) 4 (end + 1 + length text.now) }
    ensures { PutsBytes (D.state disk.old) (D.state disk.new) end text.now result }
{
    disk.write_at(end + 1, text)?;
    disk.sync()?;
    disk.write_at(end, &[1])?;
    disk.sync()
}

/// As `put_records` of the same bytes, which the disk may take over.
pub(crate) fn put_woven<D: Disk>(
    end: usize,
    text: &mut Woven,
    disk: &mut D,
) -> Result<(), DiskFault>
    requires within { end < length (D.state disk.old).seen }
    requires bound { end < 2 ^ 63 }
    requires room { HasRoom (D.state disk.old) 4 (end + 1 + length text.old.bytes) }
    ensures { PutsBytes (D.state disk.old) (D.state disk.new) end text.old.bytes result }
{
    disk.write_woven(end + 1, text)?;
    disk.sync()?;
    disk.write_at(end, &[1])?;
    disk.sync()
}

/// Puts a file of these records on an empty disk, and answers the place of its last gate.
pub(crate) fn write_file<D: Disk>(
    alloc: Global,
    version: Version,
    records: &[Record],
    disk: &mut D,
) -> Result<usize, DiskFault>
    requires empty { (D.state disk.old).seen ≡ [] }
    requires durable { Only (D.state disk.old).seen (D.state disk.old).may_leave }
    requires fit { AllByRecursion (Fits version) records.now }
    ensures ok { IfOk result (λ end. IsOpen (D.state disk.new) version end records.now) }
    ensures steady { IsSteady (D.state disk.old) → (IsErrOf result DiskFault.Failed → ⊥) × IsSteady (D.state disk.new) }
    ensures any_moment { LeavesOnly (D.state disk.old) (D.state disk.new) (IsNoneOrAll version records.now) }
    ensures memory { IsErrOf result DiskFault.Memory → IsUntouched (D.state disk.old) (D.state disk.new) }
    ensures failed { IsErrOf result DiskFault.Failed → (D.state disk.old).failures < (D.state disk.new).failures }
    ensures later { (D.state disk.old).failures ≤ (D.state disk.new).failures }
{
    let text = opened_text(alloc, version, records)?;
    let end = 3 + text.len();
    disk.reserve(end + 1)?;
    put_header(version, disk)?;
    if records.is_empty() {
        return Ok(end);
    }
    put_records(4, &text[1..], disk)?;
    Ok(end)
}
