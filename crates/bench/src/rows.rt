//! Two rows that no script reaches: what replay takes of records that repeat, and the records of files that are cut or damaged.
//! bench/refuse.py refuses each of their requests for memory in turn, as it does those of scripts.
use crate::error::Failure;
use block_types::Group;
use commitlog::{Replay, cells, decode};
use disk::{FileFault, MemDisk, RecordFile};
use memtable::MemTable;
use std::alloc::{AllocError, Global};
use wire::ExtentId;

/// The numbers of records as they come, each of one transaction.
const NUMBERS: [u8; 5] = [1, 2, 2, 1, 3];

/// The group of a record of one transaction with this number, which puts `x` at this key.
fn group_of(alloc: Global, number: u8, key: u8) -> Result<Group, Failure> {
    let mut text = b"\0\0\0\x18\0\0\0\0\0\0\0".to_vec(alloc)?;
    text.push(number)?;
    text.extend_from_slice(b"\0\x01\x01\0\x01")?;
    text.push(key)?;
    text.extend_from_slice(b"\x01\0\0\0\x01x")?;
    let mut texts = Vec::new(alloc);
    texts.push(text)?;
    Ok(Group::new(alloc, texts)?)
}

/// Takes a record of this number into a table where it is new, and answers whether it is.
fn take(
    alloc: Global,
    replay: &mut Replay,
    table: &mut MemTable,
    number: u8,
) -> Result<bool, Failure> {
    let group = group_of(alloc, number, b'a')?;
    let read = decode(alloc, &group)?;
    // says that the group's places fit
    let _size = group.size();
    let is_new = replay.take(read.first)?;
    if is_new {
        table.apply(alloc, cells(alloc, &read, ExtentId(1), 0)?)?;
    }
    Ok(is_new)
}

/// Prints what replay takes of records 1, 2, 2, 1 and 3, and how it refuses record 5 then.
pub fn replay<R: AllocGlobal + Print>(rt: &R) -> Result<(), Failure> {
    let mut replay = Replay::new(1);
    let mut table = MemTable::new(rt.alloc());
    for number in NUMBERS {
        if take(rt.alloc(), &mut replay, &mut table, number)? {
            rt.println(format_args!("taken {number}"))?;
        }
    }
    rt.println(format_args!("next {}", replay.next()))?;
    take(rt.alloc(), &mut replay, &mut table, 5)?;
    Ok(())
}

/// A node's file: extent 1 is made, and a group of `abc` and `de` is appended, up to the gate of that record.
const FIRST: &[u8] =
    b"XRF1\x01\0\0\0\x18\x01\0\0\0\0\0\0\0\x01\0\0\0\0\0\0\0\x01\0\0\x10\0\x01\x02\x03";

const SECOND: &[u8] = b"\x02\0\0\0\0\0\0\0\x01\0\0\0\0\x02\0\0\0\x03abc\0\0\0\x02de";

/// How the second record stands in a file.
#[derive(Clone, Copy)]
struct Case {
    gate: u8,
    /// The length that is told, of which the last byte alone is not 0.
    length: u8,
    /// So many bytes of it are there.
    bytes: usize,
    /// Whether a closed gate comes after these.
    is_whole: bool,
}

const CASES: [Case; 4] = [
    Case {
        gate: 1,
        length: 27,
        bytes: 27,
        is_whole: true,
    },
    Case {
        gate: 0,
        length: 27,
        bytes: 12,
        is_whole: false,
    },
    Case {
        gate: 7,
        length: 27,
        bytes: 27,
        is_whole: true,
    },
    Case {
        gate: 1,
        length: 255,
        bytes: 27,
        is_whole: true,
    },
];

/// The bytes of a file.
fn bytes_of(alloc: Global, case: Case) -> Result<Vec<u8>, AllocError> {
    let mut text = FIRST.to_vec(alloc)?;
    text.extend_from_slice(&[case.gate, 0, 0, 0, case.length])?;
    text.extend_from_slice(SECOND.get(..case.bytes).unwrap_or_default())?;
    if case.is_whole {
        text.push(0)?;
    }
    Ok(text)
}

/// How many records a file has, if it is not damaged.
fn count(alloc: Global, case: Case) -> Result<Option<usize>, Failure> {
    let disk = MemDisk::from_bytes(alloc, bytes_of(alloc, case)?);
    match RecordFile::open(alloc, disk) {
        Ok(file) => Ok(Some(file.records(alloc)?.len())),
        Err((FileFault::Damaged, _disk)) => Ok(None),
        Err((FileFault::Memory, _disk)) => Err(Failure::Memory),
        Err((FileFault::Failed, _disk)) => Err(Failure::Step),
    }
}

/// Prints how many records a whole file has, one that is cut, one with another gate, and one that tells another length.
pub fn records<R: AllocGlobal + Print>(rt: &R) -> Result<(), Failure> {
    for case in CASES {
        match count(rt.alloc(), case)? {
            Some(records) => rt.println(format_args!("records {records}"))?,
            None => rt.println("damaged")?,
        }
    }
    Ok(())
}
