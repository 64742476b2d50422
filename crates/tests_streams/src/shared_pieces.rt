//! A disk that shares long pieces beside one that is flat from the start: both have the same bytes after each call, and after a stop in
//! any of them.
ghost use Rattle.std.specs.Prelude.{◌≡◌, ◌≤◌, length, false, IfOk, OnOk};
ghost use Rattle.block_types.specs.declared.record.Version.TheVariants.{V2};
ghost use Rattle.blocks.specs.Record.{Fits};
ghost use Rattle.disk.specs.Memory.{memory_state};

use crate::groups::group_of;
use block_types::{Record, Version};
use blocks::{Woven, encode_as};
use bytes::Bytes;
use disk::{Disk, MemDisk, RecordFile};
use std::alloc::{AllocError, Global};
use std::test::Fail;

/// What is asked of both disks.
#[derive(Clone, Copy)]
enum Call {
    /// A text with two long pieces is put at the end.
    Long,
    /// These bytes are put at the place, or at the end where the disk ends before it.
    Put(usize, &'static [u8]),
    Sync,
}

// The longest text has 612 bytes of `a` and 713 of `b` in it, which are shared.
const FIRST: [u8; 612] = [b'a'; 612];

const SECOND: [u8; 713] = [b'b'; 713];

const LONG_FILL: [u8; 900] = [b'c'; 900];

const END: usize = 1_000_000;

/// A file of records as it grows; then writes at a piece, in it and across two of them, after which it grows again.
const CALLS: &[Call] = &[
    Call::Put(END, b"XRF1\0"),
    Call::Sync,
    Call::Long,
    Call::Sync,
    Call::Put(4, b"\x01"),
    Call::Sync,
    Call::Long,
    Call::Sync,
    Call::Put(1_335, b"\x01"),
    Call::Sync,
    Call::Put(END, b"short"),
    Call::Sync,
    Call::Long,
    Call::Long,
    Call::Sync,
    Call::Put(9, b"at a piece"),
    Call::Long,
    Call::Put(100, b"in a piece"),
    Call::Sync,
    Call::Long,
    Call::Sync,
    Call::Put(300, &LONG_FILL),
    Call::Long,
    Call::Put(END, b""),
    Call::Sync,
    Call::Put(0, b"XRF2"),
];

// A text of four bytes, a long piece, one byte, another long piece, and a closed gate.
fn long_text(alloc: Global) -> Result<Woven, Fail> {
    let mut text = Woven::new(alloc);
    text.put(b"head")?;
    text.share(&Bytes::copy_from_slice(alloc, &FIRST)?)?;
    text.put(b"m")?;
    text.share(&Bytes::copy_from_slice(alloc, &SECOND)?)?;
    text.put(&[0])?;
    Ok(text)
}

fn text_of(alloc: Global, call: Call) -> Result<Woven, Fail> {
    match call {
        Call::Long => long_text(alloc),
        Call::Put(_, bytes) => {
            let mut text = Woven::new(alloc);
            text.put(bytes)?;
            Ok(text)
        }
        Call::Sync => Ok(Woven::new(alloc)),
    }
}

fn place_of(call: Call, end: usize) -> usize
    ensures { result ≤ end }
{
    match call {
        Call::Put(place, _) => place.min(end),
        _ => end,
    }
}

// Whether the disk has the bytes that it was given.
fn is_written(disk: &mut MemDisk, at: usize, text: &mut Woven, shares: bool) -> bool
    requires { at ≤ length (memory_state disk.old).seen }
{
    if shares {
        return disk.write_woven(at, text) == Ok(());
    }
    text.join();
    disk.write_at(at, text.joined()) == Ok(())
}

fn is_done(alloc: Global, disk: &mut MemDisk, call: Call, shares: bool) -> Result<bool, Fail> {
    if let Call::Sync = call {
        return Ok(disk.sync() == Ok(()));
    }
    let mut text = text_of(alloc, call)?;
    let at = place_of(call, disk.len());
    Ok(is_written(disk, at, &mut text, shares))
}

fn are_same(alloc: Global, one: &MemDisk, other: &MemDisk) -> Result<bool, AllocError> {
    Ok(one.read(alloc)?.as_slice() == other.read(alloc)?.as_slice())
}

fn stays_same(
    alloc: Global,
    shared: &mut MemDisk,
    flat: &mut MemDisk,
    call: Call,
) -> Result<bool, Fail> {
    if is_done(alloc, shared, call, true)? != is_done(alloc, flat, call, false)? {
        return Ok(false);
    }
    Ok(are_same(alloc, shared, flat)?)
}

// Whether both have the same bytes after each call, where they stop at one of them.
fn stop_alike(alloc: Global, stops: u64, keep: bool) -> Result<bool, Fail> {
    let mut shared = MemDisk::new(alloc);
    let mut flat = MemDisk::new(alloc);
    shared.stop_at(stops, keep);
    flat.stop_at(stops, keep);
    for call in CALLS {
        if !stays_same(alloc, &mut shared, &mut flat, *call)? {
            return Ok(false);
        }
    }
    Ok(true)
}

#[test]
fn a_disk_that_shares_and_a_flat_one(rt: HostRuntime) -> Result<(), Fail> {
    for stops in 1..28 {
        assert!(rt; stop_alike(rt.alloc(), stops, true)?);
        assert!(rt; stop_alike(rt.alloc(), stops, false)?);
    }
    Ok(())
}

fn appended(alloc: Global, offset: u32) -> Result<Record, Fail>
    ensures { IfOk result (Fits V2) }
{
    let group = group_of(alloc, &[&FIRST, b"short", &SECOND])?;
    // Its clause says that the group has at most 4,194,304 bytes.
    let _size = group.size();
    Ok(Record::Append {
        extent: 1,
        offset,
        group,
    })
}

// As the file is spelled with so many of these records.
fn spelled_file(alloc: Global, count: u32) -> Result<Vec<u8>, Fail> {
    let mut text = b"XRF2".to_vec(alloc)?;
    for offset in 0..count {
        text.push(1)?;
        encode_as(Version::V2, &appended(alloc, offset)?, &mut text)?;
    }
    text.push(0)?;
    Ok(text)
}

fn append_one(alloc: Global, file: &mut RecordFile<MemDisk>, offset: u32) -> Result<(), Fail>
    requires running { file.old.stopped ≡ false }
    requires version { file.old.version ≡ V2 }
    ensures running { OnOk result (file.new.stopped ≡ false) }
    ensures version { OnOk result (file.new.version ≡ V2) }
{
    file.append(alloc, &appended(alloc, offset)?)?;
    Ok(())
}

fn formatted(alloc: Global) -> Result<RecordFile<MemDisk>, Fail>
    ensures running { IfOk result (λ file. file.stopped ≡ false) }
    ensures version { IfOk result (λ file. file.version ≡ V2) }
{
    Ok(
        RecordFile::format(MemDisk::new(alloc))
            .ok()
            .ok_or("formatted")?,
    )
}

fn has_records(alloc: Global, disk: MemDisk, count: usize) -> Result<bool, Fail> {
    let mut disk = disk;
    // Where it was told to stop at a later call, it goes on.
    disk.cancel_stop();
    let file = RecordFile::open(alloc, disk).ok().ok_or("opened")?;
    Ok(file.records(alloc)?.len() == count)
}

fn is_spelled(alloc: Global, disk: &MemDisk, count: u32) -> Result<bool, Fail> {
    Ok(disk.read(alloc)?.as_slice() == spelled_file(alloc, count)?.as_slice())
}

// Appends one record to a file, and one more in which its disk stops.
fn two_appended(alloc: Global, stops: u64, keep: bool) -> Result<MemDisk, Fail> {
    let mut file = formatted(alloc)?;
    append_one(alloc, &mut file, 0)?;
    file.stop_at(stops, keep);
    let _ = file.append(alloc, &appended(alloc, 1)?);
    Ok(file.into_disk())
}

// Whether the file has so many records after a stop in a call of the second append.
fn stops_with(alloc: Global, stops: u64, keep: bool, count: usize) -> Result<bool, Fail> {
    has_records(alloc, two_appended(alloc, stops, keep)?, count)
}

#[test]
fn a_file_of_long_records(rt: HostRuntime) -> Result<(), Fail> {
    for stops in 1..5 {
        assert!(rt; stops_with(rt.alloc(), stops, false, 1)?);
    }
    assert!(rt; stops_with(rt.alloc(), 2, true, 1)?);
    assert!(rt; stops_with(rt.alloc(), 3, true, 2)?);
    assert!(rt; stops_with(rt.alloc(), 4, true, 2)?);
    assert!(rt; stops_with(rt.alloc(), 5, true, 2)?);
    assert!(rt; is_spelled(rt.alloc(), &two_appended(rt.alloc(), 5, true)?, 2)?);
    Ok(())
}
