//! Record files of version 1, which keep their version, and what `migrate` makes of them.
ghost use Rattle.std.specs.Prelude.{◌≡◌, [], IsTrue, false, IfOk};
ghost use Rattle.std.specs.List.{AllByRecursion};
ghost use Rattle.blocks.specs.Record.{Fits};
ghost use Rattle.disk.specs.Disk.{Only};
ghost use Rattle.disk.specs.Memory.{memory_state};
ghost use Rattle.block_types.specs.declared.record.Version.{Version};
ghost use Rattle.block_types.specs.declared.record.Version.TheVariants.{V2};

use crate::groups::group_of;
use crate::record_files::{append, are_the_two, disk_of, found_in, has_bytes, make, reopened};
use block_types::Record;
use blocks::all_fit;
use disk::{Disk, DiskFault, FileDisk, MemDisk, RecordFile, migrate};
use std::alloc::Global;
use std::fs;
use std::test::Fail;

// Make(1, 1, 4096; 1, 2, 3) and Append(1, 0, `abc`) in version 1.
const OLD: [u8; 60] = *b"XRF1\
    \x01\0\0\0\x18\x01\0\0\0\0\0\0\0\x01\0\0\0\0\0\0\0\x01\0\0\x10\0\x01\x02\x03\
    \x01\0\0\0\x15\x02\0\0\0\0\0\0\0\x01\0\0\0\0\x01\0\0\0\x03abc\
    \0";

// The same in version 2, with the digest of FIPS 180-4.
const NEW: [u8; 92] = *b"XRF2\
    \x01\0\0\0\x18\x01\0\0\0\0\0\0\0\x01\0\0\0\0\0\0\0\x01\0\0\x10\0\x01\x02\x03\
    \x01\0\0\0\x35\x02\0\0\0\0\0\0\0\x01\0\0\0\0\x01\0\0\0\x03abc\
    \xba\x78\x16\xbf\x8f\x01\xcf\xea\x41\x41\x40\xde\x5d\xae\x22\x23\
    \xb0\x03\x61\xa3\x96\x17\x7a\x9c\xb4\x10\xff\x61\xf2\x00\x15\xad\
    \0";

/// The bytes of a file with no record, and those of the file once it took the two.
const TAKEN: &[(&[u8], &[u8])] = &[(b"XRF1\0", &OLD), (b"XRF2\0", &NEW)];

fn abc(alloc: Global) -> Result<Record, Fail>
    ensures { IfOk result (λ r. (v : Version) → Fits v r) }
{
    let group = group_of(alloc, &[b"abc"])?;
    // Asked for, so that the proof knows that it is a group.
    let _blocks = group.blocks();
    Ok(Record::Append {
        extent: 1,
        offset: 0,
        group,
    })
}

fn append_two<D: Disk>(alloc: Global, file: &mut RecordFile<D>) -> Result<(), Fail>
    requires { file.old.stopped ≡ false }
{
    append(alloc, file, make())?;
    Ok(append(alloc, file, abc(alloc)?)?)
}

/// Whether a file with no record has the other bytes once it took the two.
fn takes_two(alloc: Global, empty: &[u8], wanted: &[u8]) -> Result<bool, Fail> {
    let mut file = reopened(alloc, disk_of(alloc, empty)?)?;
    append_two(alloc, &mut file)?;
    Ok(has_bytes(alloc, &file.into_disk(), wanted)?)
}

#[test]
fn a_file_takes_records_in_its_own_version(rt: HostRuntime) -> Result<(), Fail> {
    for (empty, wanted) in TAKEN {
        assert!(rt; takes_two(rt.alloc(), empty, wanted)?, "{empty:?}");
    }
    Ok(())
}

/// The file of these bytes, each record of which fits the file's version.
fn opened(alloc: Global, bytes: &[u8]) -> Result<RecordFile<MemDisk>, Fail>
    ensures { IfOk result (λ file. AllByRecursion (Fits file.version) file.records) }
{
    match RecordFile::open(alloc, disk_of(alloc, bytes)?) {
        Ok(file) => Ok(file),
        Err((fault, _disk)) => Err(Fail::from(fault)),
    }
}

/// Whether the records of a file fit version 2 too.
fn fits_new(alloc: Global, file: &RecordFile<MemDisk>) -> Result<bool, Fail>
    requires { AllByRecursion (Fits file.now.version) file.now.records }
    ensures { IfOk result (λ fits. IsTrue fits → AllByRecursion (Fits V2) file.now.records) }
{
    let records = file.records(alloc)?;
    Ok(all_fit(&records))
}

/// What becomes of the records of the old file on an empty disk, if they fit version 2, and if the old file is as it was then.
fn moved<D: Disk + Drop>(
    alloc: Global,
    new: D,
) -> Result<Result<RecordFile<D>, (DiskFault, D)>, Fail>
    requires empty { (D.state new).seen ≡ [] }
    requires durable { Only (D.state new).seen (D.state new).may_leave }
{
    let old = opened(alloc, &OLD)?;
    if !fits_new(alloc, &old)? {
        return Err(Fail::new("they fit version 2"));
    }
    let made = migrate(alloc, &old, new);
    if !has_bytes(alloc, &old.into_disk(), &OLD)? {
        return Err(Fail::new("the old file is as it was"));
    }
    Ok(made)
}

/// An empty disk that is told to stop at a call.
fn told(alloc: Global, calls: u64, keep: bool) -> MemDisk
    ensures empty { (memory_state result).seen ≡ [] }
    ensures durable { Only (memory_state result).seen (memory_state result).may_leave }
{
    let mut disk = MemDisk::new(alloc);
    disk.stop_at(calls, keep);
    disk
}

/// A stop at each of the six device calls of `migrate`, and whether the bytes are kept: how many records are found on the new disk,
/// if it is a file at all. The seventh call is the sync of who opens that file.
const STOPS: &[(u64, bool, Option<usize>)] = &[
    (1, false, None),
    (1, true, Some(0)),
    (2, false, None),
    (2, true, Some(0)),
    (3, false, Some(0)),
    (3, true, Some(0)),
    (4, false, Some(0)),
    (4, true, Some(0)),
    (5, false, Some(0)),
    (5, true, Some(2)),
    (6, false, Some(0)),
    (6, true, Some(2)),
    (8, false, Some(2)),
];

/// The disk of a file that was made, or not, and whether it was.
fn disk_after(
    made: Result<RecordFile<MemDisk>, (DiskFault, MemDisk)>,
) -> Result<(bool, MemDisk), Fail> {
    match made {
        Ok(file) => Ok((true, file.into_disk())),
        Err((DiskFault::Failed, disk)) => Ok((false, disk)),
        Err((fault, _disk)) => Err(Fail::from(fault)),
    }
}

/// How many records are found in the file on a disk, if it is one. Where all are, it has just the bytes of version 2.
fn found(alloc: Global, disk: MemDisk) -> Result<Option<usize>, Fail> {
    let len = disk.len();
    let is_whole = has_bytes(alloc, &disk, &NEW)?;
    let found = found_in(alloc, RecordFile::open(alloc, disk), len)?;
    if found == Some(2) && !is_whole {
        return Err(Fail::new("the bytes of version 2"));
    }
    Ok(found)
}

fn stopped(alloc: Global, calls: u64, keep: bool) -> Result<(bool, Option<usize>), Fail> {
    let (is_made, disk) = disk_after(moved(alloc, told(alloc, calls, keep))?)?;
    Ok((is_made, found(alloc, disk)?))
}

#[test]
fn a_stop_at_each_call_of_migrate(rt: HostRuntime) -> Result<(), Fail> {
    for (calls, keep, wanted) in STOPS {
        assert!(rt;
            stopped(rt.alloc(), *calls, *keep)? == (*calls > 6, *wanted),
            "{calls} {keep}"
        );
    }
    Ok(())
}

const PATH: &str = "versions_test.records";

/// Whether the two records are in a new file of the operating system.
fn are_moved_there(rt: &HostRuntime) -> Result<bool, Fail> {
    match moved(rt.alloc(), FileDisk::create(rt, PATH)?)? {
        Ok(file) => Ok(are_the_two(file.records(rt.alloc())?.as_slice())),
        Err((fault, _disk)) => Err(Fail::from(fault)),
    }
}

#[test]
fn a_real_file_of_version_2_ends_after_its_last_gate(rt: HostRuntime) -> Result<(), Fail> {
    let _ = fs::remove_file(&rt, PATH);
    assert!(rt; are_moved_there(&rt)?);
    assert!(rt; fs::read(&rt, PATH)?.as_slice() == NEW.as_slice());
    assert!(rt;
        FileDisk::create(&rt, PATH).is_err(),
        "there is one already"
    );
    fs::remove_file(&rt, PATH)?;
    Ok(())
}
