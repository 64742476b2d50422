//! Record files on a disk in memory and on a real one.
ghost use Rattle.std.specs.Prelude.{◌≡◌, false, IfOk};
ghost use Rattle.blocks.specs.Record.{Fits};
ghost use Rattle.disk.specs.Appends.{Appends};
ghost use Rattle.block_types.specs.declared.record.Version.{Version};
ghost use Rattle.block_types.specs.declared.record.Version.TheVariants.{V2};

use crate::groups::group_of;
use block_types::{BlockFault, Nodes, Record};
use disk::{Disk, DiskFault, FileDisk, FileFault, MemDisk, RecordFile};
use std::alloc::{AllocError, Global};
use std::fs;
use std::test::Fail;

// Make(1, 1, 4096; 1, 2, 3) and Append(1, 0, `abc` `de`) in version 1: the header, two open gates with their records,
// and a closed gate.
const OLD_RECORDS: [u8; 66] = *b"XRF1\
    \x01\0\0\0\x18\x01\0\0\0\0\0\0\0\x01\0\0\0\0\0\0\0\x01\0\0\x10\0\x01\x02\x03\
    \x01\0\0\0\x1b\x02\0\0\0\0\0\0\0\x01\0\0\0\0\x02\0\0\0\x03abc\0\0\0\x02de\
    \0";

// The same in version 2: after each block stands its SHA-256 digest.
const TWO_RECORDS: [u8; 130] = *b"XRF2\
    \x01\0\0\0\x18\x01\0\0\0\0\0\0\0\x01\0\0\0\0\0\0\0\x01\0\0\x10\0\x01\x02\x03\
    \x01\0\0\0\x5b\x02\0\0\0\0\0\0\0\x01\0\0\0\0\x02\0\0\0\x03abc\
    \xba\x78\x16\xbf\x8f\x01\xcf\xea\x41\x41\x40\xde\x5d\xae\x22\x23\
    \xb0\x03\x61\xa3\x96\x17\x7a\x9c\xb4\x10\xff\x61\xf2\x00\x15\xad\
    \0\0\0\x02de\
    \x95\x9a\x45\xd4\x4e\x6f\xcf\x58\x36\x1e\xd0\x04\x68\x15\x56\xfe\
    \x50\x12\x9f\x21\x09\xe8\x17\xde\xc0\x98\xc0\x0c\x9e\x5d\x25\x78\
    \0";

pub(crate) fn make() -> Record
    ensures first { Fits V2 result }
    ensures any { (v : Version) → Fits v result }
{
    Record::Make {
        extent: 1,
        fence: 1,
        target: 4096,
        nodes: Nodes {
            primary: 1,
            second: 2,
            third: 3,
        },
    }
}

fn abc_de(alloc: Global) -> Result<Record, Fail>
    ensures { IfOk result (Fits V2) }
{
    let group = group_of(alloc, &[b"abc", b"de"])?;
    // Its clause says that the group has at most 4,194,304 bytes.
    let _size = group.size();
    Ok(Record::Append {
        extent: 1,
        offset: 0,
        group,
    })
}

// Records, files and disks are handed over whole: a local that lives on is dropped at each exit, and each costs the proof.
pub(crate) fn append<D: Disk>(
    alloc: Global,
    file: &mut RecordFile<D>,
    added: Record,
) -> Result<(), DiskFault>
    requires running { file.old.stopped ≡ false }
    requires fits { Fits file.old.version added }
    ensures { Appends D.state file.old file.new added result }
{
    file.append(alloc, &added)
}

fn append_two<D: Disk>(alloc: Global, file: &mut RecordFile<D>) -> Result<(), Fail>
    requires running { file.old.stopped ≡ false }
    requires version { file.old.version ≡ V2 }
{
    append(alloc, file, make())?;
    Ok(append(alloc, file, abc_de(alloc)?)?)
}

fn empty(alloc: Global) -> Result<RecordFile<MemDisk>, Fail>
    ensures running { IfOk result (λ file. file.stopped ≡ false) }
    ensures version { IfOk result (λ file. file.version ≡ V2) }
{
    let file = RecordFile::format(MemDisk::new(alloc));
    Ok(file.ok().ok_or("formatted")?)
}

pub(crate) fn reopened<D: Disk + Drop>(alloc: Global, disk: D) -> Result<RecordFile<D>, Fail>
    ensures { IfOk result (λ file. file.stopped ≡ false) }
{
    Ok(RecordFile::open(alloc, disk).ok().ok_or("opened")?)
}

fn count(alloc: Global, file: &RecordFile<MemDisk>) -> Result<usize, BlockFault> {
    Ok(file.records(alloc)?.len())
}

fn two_written(alloc: Global) -> Result<MemDisk, Fail> {
    let mut file = empty(alloc)?;
    append_two(alloc, &mut file)?;
    Ok(file.into_disk())
}

pub(crate) fn has_bytes(alloc: Global, disk: &MemDisk, wanted: &[u8]) -> Result<bool, AllocError> {
    Ok(disk.read(alloc)?.as_slice() == wanted)
}

pub(crate) fn are_the_two(records: &[Record]) -> bool {
    matches!(
        records,
        [
            Record::Make { target: 4096, .. },
            Record::Append {
                extent: 1,
                offset: 0,
                ..
            }
        ]
    )
}

/// Whether a file has the two records, and takes none once it is halted.
fn has_the_two(alloc: Global, file: RecordFile<MemDisk>) -> Result<bool, BlockFault> {
    let mut file = file;
    let records = file.records(alloc)?;
    file.halt();
    Ok(are_the_two(records.as_slice()) && file.is_stopped())
}

#[test]
fn a_file_of_two_records(rt: HostRuntime) -> Result<(), Fail> {
    let disk = two_written(rt.alloc())?;
    assert!(rt; has_bytes(rt.alloc(), &disk, &TWO_RECORDS)?);
    assert!(rt; has_the_two(rt.alloc(), reopened(rt.alloc(), disk)?)?);
    Ok(())
}

/// How many records a file of two has once it is opened again, before it takes one more.
fn opened_again(alloc: Global, halts: bool) -> Result<usize, Fail> {
    let mut file = empty(alloc)?;
    append_two(alloc, &mut file)?;
    if halts {
        file.halt();
    }
    match file.reopened(alloc) {
        Ok(again) => one_more_in(alloc, again),
        Err((fault, _disk)) => Err(Fail::from(fault)),
    }
}

fn one_more_in(alloc: Global, file: RecordFile<MemDisk>) -> Result<usize, Fail>
    requires { file.stopped ≡ false }
{
    let mut file = file;
    one_more_record(alloc, &mut file)
}

#[test]
fn a_file_is_opened_again_whether_it_has_stopped_or_not(rt: HostRuntime) -> Result<(), Fail> {
    assert!(rt; opened_again(rt.alloc(), false)? == 2);
    assert!(rt; opened_again(rt.alloc(), true)? == 2);
    Ok(())
}

/// Where the second gate is.
const SECOND_GATE: usize = 33;

/// A file, a byte of it that is changed, and how many records are found then: none where the file is damaged.
const CHANGED_FILES: &[(&[u8], usize, u8, Option<usize>)] = &[
    (&OLD_RECORDS, 0, b'X', Some(2)),
    (&OLD_RECORDS, SECOND_GATE, 0, Some(1)),
    (&OLD_RECORDS, SECOND_GATE, 7, Some(1)),
    (&OLD_RECORDS, 37, 0xff, None),
    (&OLD_RECORDS, 58, b'd', Some(2)),
    (&OLD_RECORDS, 65, 1, None),
    (&OLD_RECORDS, 0, b'Y', None),
    (&OLD_RECORDS, 3, b'2', None),
    (&OLD_RECORDS, 3, b'3', None),
    (&TWO_RECORDS, 0, b'X', Some(2)),
    (&TWO_RECORDS, SECOND_GATE, 0, Some(1)),
    (&TWO_RECORDS, SECOND_GATE, 7, Some(1)),
    (&TWO_RECORDS, 37, 0xff, None),
    // A byte of a block, the first one and the last one of a digest.
    (&TWO_RECORDS, 58, b'd', None),
    (&TWO_RECORDS, 59, 0, None),
    (&TWO_RECORDS, 128, 0, None),
    (&TWO_RECORDS, 129, 1, None),
    (&TWO_RECORDS, 3, b'1', None),
];

pub(crate) fn disk_of(alloc: Global, bytes: &[u8]) -> Result<MemDisk, DiskFault> {
    let mut disk = MemDisk::new(alloc);
    disk.write_at(0, bytes)?;
    disk.sync()?;
    Ok(disk)
}

pub(crate) fn found_in(
    alloc: Global,
    opened: Result<RecordFile<MemDisk>, (FileFault, MemDisk)>,
    len: usize,
) -> Result<Option<usize>, FileFault> {
    match opened {
        Ok(file) => Ok(Some(count(alloc, &file)?)),
        Err((fault, disk)) => {
            let is_whole = disk.len() == len;
            drop(disk);
            if is_whole && fault == FileFault::Damaged {
                Ok(None)
            } else {
                Err(fault)
            }
        }
    }
}

/// How many records are found in the first bytes of a file, of which one is changed.
fn found(
    alloc: Global,
    file: &[u8],
    at: usize,
    byte: u8,
    len: usize,
) -> Result<Option<usize>, FileFault> {
    let mut bytes = file.to_vec(alloc)?;
    if let Some(changed) = bytes.get_mut(at) {
        *changed = byte;
    }
    let kept = &bytes[..len.min(file.len())];
    found_in(
        alloc,
        RecordFile::open(alloc, disk_of(alloc, kept)?),
        kept.len(),
    )
}

#[test]
fn what_is_found_in_changed_files(rt: HostRuntime) {
    for (file, at, byte, wanted) in CHANGED_FILES {
        assert!(rt;
            found(rt.alloc(), file, *at, *byte, file.len()) == Ok(*wanted),
            "{at} {byte} of {file:?}"
        );
    }
}

/// A file that ends before its last gate, while the gates before it are open, is damaged. Behind a closed one nothing is read.
#[test]
fn what_is_found_in_files_cut_short(rt: HostRuntime) {
    for len in 0..130 {
        assert!(rt;
            found(rt.alloc(), &TWO_RECORDS, SECOND_GATE, 1, len) == Ok(None),
            "{len} bytes"
        );
    }
    for len in 0..66 {
        assert!(rt;
            found(rt.alloc(), &OLD_RECORDS, SECOND_GATE, 1, len) == Ok(None),
            "{len} bytes of version 1"
        );
    }
    for len in 0..131 {
        let wanted = if len <= SECOND_GATE { None } else { Some(1) };
        assert!(rt;
            found(rt.alloc(), &TWO_RECORDS, SECOND_GATE, 0, len) == Ok(wanted),
            "{len} bytes, the second gate closed"
        );
    }
}

/// A stop at each device call, and whether the bytes are kept: how many records stand.
const STOPS: &[(u64, bool, usize)] = &[
    (1, false, 1),
    (1, true, 1),
    (2, false, 1),
    (2, true, 1),
    (3, false, 1),
    (3, true, 2),
    (4, false, 1),
    (4, true, 2),
    (5, false, 2),
];

/// Whether a second append fails in the stop.
fn fails_in_a_stop(
    alloc: Global,
    file: &mut RecordFile<MemDisk>,
    calls: u64,
    keep: bool,
) -> Result<bool, DiskFault>
    requires running { file.old.stopped ≡ false }
    requires version { file.old.version ≡ V2 }
{
    append(alloc, file, make())?;
    file.stop_at(calls, keep);
    Ok(append(alloc, file, make()) == Err(DiskFault::Failed))
}

/// Whether an append failed just where its disk was told to stop in one of the four calls. A stop after them is put off.
fn stopped_there(file: &mut RecordFile<MemDisk>, calls: u64, failed: bool) -> bool {
    if !failed {
        file.stop_at(9, false);
    }
    failed == (calls <= 4) && failed == file.is_stopped()
}

fn stopped(alloc: Global, calls: u64, keep: bool) -> Result<usize, Fail> {
    let mut file = empty(alloc)?;
    let failed = fails_in_a_stop(alloc, &mut file, calls, keep)?;
    if !stopped_there(&mut file, calls, failed) {
        return Err(Fail::new("stopped at another call"));
    }
    Ok(count(alloc, &reopened(alloc, file.into_disk())?)?)
}

#[test]
fn a_stop_at_each_call(rt: HostRuntime) -> Result<(), Fail> {
    for (calls, keep, wanted) in STOPS {
        assert!(rt;
            stopped(rt.alloc(), *calls, *keep)? == *wanted,
            "{calls} {keep}"
        );
    }
    Ok(())
}

const PATH: &str = "disk_test.records";

fn two_real_records(rt: &HostRuntime) -> Result<(), Fail> {
    let mut disk = FileDisk::open(rt, PATH)?;
    disk.sync()?;
    if disk.len() > 0 {
        return Err(Fail::new("it is not empty"));
    }
    let mut file = RecordFile::format(disk).ok().ok_or("formatted")?;
    append_two(rt.alloc(), &mut file)
}

// It answers how many records were found before.
fn one_more_record<D: Disk>(alloc: Global, file: &mut RecordFile<D>) -> Result<usize, Fail>
    requires { file.old.stopped ≡ false }
{
    let count = file.records(alloc)?.len();
    append(alloc, file, make())?;
    Ok(count)
}

// Opens the file again, and appends a record to it.
fn one_more_real_record(rt: &HostRuntime) -> Result<usize, Fail> {
    let mut file = reopened(rt.alloc(), FileDisk::open(rt, PATH)?)?;
    one_more_record(rt.alloc(), &mut file)
}

/// Whether these parts are the bytes, with zeros after them.
fn are_parts(bytes: &[u8], parts: &[&[u8]]) -> bool {
    let mut rest = bytes;
    for part in parts {
        rest = match rest.strip_prefix(*part) {
            Some(behind) => behind,
            None => return false,
        };
    }
    for byte in rest {
        if *byte != 0 {
            return false;
        }
    }
    true
}

fn is_file(rt: &HostRuntime, path: &str, len: usize, parts: &[&[u8]]) -> Result<bool, Fail> {
    let bytes = fs::read(rt, path)?;
    Ok(bytes.len() == len && are_parts(bytes.as_slice(), parts))
}

#[test]
fn a_real_file(rt: HostRuntime) -> Result<(), Fail> {
    let _ = fs::remove_file(&rt, PATH);
    two_real_records(&rt)?;
    assert!(rt; is_file(&rt, PATH, 65_536, &[&TWO_RECORDS])?);
    assert!(rt; one_more_real_record(&rt)? == 2);
    let three_records = [&TWO_RECORDS[..129], &TWO_RECORDS[4..33]];
    assert!(rt; is_file(&rt, PATH, 65_536, &three_records)?);
    assert!(rt; one_more_real_record(&rt)? == 3);
    fs::remove_file(&rt, PATH)?;
    Ok(())
}

const OTHER_PATH: &str = "disk_test.bytes";

static SEVENS: [u8; 70_000] = [7; 70_000];

// Whether neither a write nor a sync is taken.
fn takes_nothing(disk: &mut FileDisk) -> bool {
    let failed = Err(DiskFault::Failed);
    disk.write_at(0, b"abc") == failed && disk.sync() == failed
}

// Whether a file that is open for reading alone takes nothing, and then has these bytes.
fn is_unwritten(rt: &HostRuntime, wanted: &[u8]) -> Result<bool, Fail> {
    let file = fs::open(rt, OTHER_PATH)?;
    let mut disk = FileDisk::new(rt.alloc(), file)?;
    let took_nothing = takes_nothing(&mut disk);
    let bytes = disk.read(rt.alloc());
    drop(disk.into_file());
    Ok(took_nothing && bytes?.as_slice() == wanted)
}

fn is_damaged(rt: &HostRuntime, len: usize) -> Result<bool, Fail> {
    match RecordFile::open(rt.alloc(), FileDisk::open(rt, OTHER_PATH)?) {
        Err((FileFault::Damaged, disk)) => Ok(disk.len() == len),
        _ => Ok(false),
    }
}

// It grows over the next multiple of 65,536, from no multiple on.
fn grows(disk: &mut FileDisk) -> bool {
    disk.len() == 3 && disk.write_at(3, &SEVENS).is_ok() && disk.len() == 70_003
}

fn is_grown(rt: &HostRuntime) -> Result<bool, Fail> {
    let mut disk = FileDisk::open(rt, OTHER_PATH)?;
    Ok(grows(&mut disk))
}

#[test]
fn other_real_files(rt: HostRuntime) -> Result<(), Fail> {
    fs::write(&rt, OTHER_PATH, b"XRF".as_slice())?;
    assert!(rt; is_unwritten(&rt, b"XRF")?);
    assert!(rt; is_damaged(&rt, 3)?);
    assert!(rt; is_grown(&rt)?);
    assert!(rt; is_file(&rt, OTHER_PATH, 131_072, &[b"XRF", &SEVENS])?);
    fs::remove_file(&rt, OTHER_PATH)?;
    Ok(())
}
