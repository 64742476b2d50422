//! Appends to a record file over a file of the system, against plain writes of the same bytes.
use crate::checking::group_of;
use crate::error::Failure;
use block_types::{Group, Record};
use blocks::encode;
use disk::{Disk, FileDisk, RecordFile};
use std::alloc::Global;
use std::os::unix::fs::FileExt;
use std::rt::{Clock, Files};
use std::time::Instant;
use std::{fs, io};

/// So many times appends and plain writes follow each other.
const TURNS: u64 = 10;

/// A new file of records over a file of the system that is empty.
fn empty_records<R: AllocGlobal + Files<File = fs::File>>(
    rt: &R,
    path: &str,
) -> Result<RecordFile<FileDisk>, Failure> {
    let mut disk = FileDisk::open(rt, path)?;
    disk.sync()?;
    if disk.len() > 0 {
        return Err(Failure::Words);
    }
    let Ok(file) = RecordFile::format(disk) else {
        return Err(Failure::Step);
    };
    Ok(file)
}

/// Appends so many records of the group.
fn append_records(
    alloc: Global,
    group: &Group,
    count: u64,
    file: &mut RecordFile<FileDisk>,
) -> Result<(), Failure> {
    for _ in 0..count {
        if file.is_stopped() {
            return Err(Failure::Step);
        }
        // says that the group fits a record
        let _blocks = group.blocks();
        let added = Record::Append {
            extent: 1,
            offset: 0,
            group: group.copy()?,
        };
        file.append(alloc, &added)?;
    }
    Ok(())
}

/// The bytes that an append of the record writes.
fn text_of(alloc: Global, group: &Group) -> Result<Vec<u8>, Failure> {
    // as above
    let _blocks = group.blocks();
    let added = Record::Append {
        extent: 1,
        offset: 0,
        group: group.copy()?,
    };
    let mut text = Vec::new(alloc);
    encode(&added, &mut text)?;
    text.push(1)?;
    Ok(text)
}

/// Writes as many times the same bytes one after another, from the `from`-th on, with two syncs after each.
fn write_plainly(file: &fs::File, text: &[u8], from: u64, count: u64) -> io::Result<()> {
    let size = text.len() as u64;
    for at in 0..count {
        file.write_all_at(text, from.wrapping_add(at).wrapping_mul(size))?;
        file.sync_data()?;
        file.sync_data()?;
    }
    Ok(())
}

/// Appends and writes plainly by turns, so many of each a turn; the microseconds of all appends, and of all plain writes.
fn by_turns<R: AllocGlobal + Clock>(
    rt: &R,
    records: &mut RecordFile<FileDisk>,
    plain: &fs::File,
    group: &Group,
    turn: u64,
) -> Result<(u128, u128), Failure> {
    let text = text_of(rt.alloc(), group)?;
    let mut appends = 0u128;
    let mut writes = 0u128;
    for done in 0..TURNS {
        let start = Instant::now(rt)?;
        append_records(rt.alloc(), group, turn, records)?;
        appends = appends.saturating_add(start.elapsed(rt)?.as_micros());
        let start = Instant::now(rt)?;
        write_plainly(plain, &text, done.wrapping_mul(turn), turn)?;
        writes = writes.saturating_add(start.elapsed(rt)?.as_micros());
    }
    Ok((appends, writes))
}

/// Appends and writes plainly by turns, a tenth of the count each, so that both meet the same device. Prints how long the
/// appends took in all, and the plain writes.
pub fn measure<R: AllocGlobal + Clock + Files<File = fs::File> + Print>(
    rt: &R,
    count: u64,
    path: &str,
) -> Result<(), Failure> {
    let mut records = empty_records(rt, path)?;
    let group = group_of(rt.alloc())?;
    let plain = fs::create(rt, &format!(in rt.alloc(); "{path}.plain")?)?;
    let turn = count / TURNS;
    let (appends, writes) = by_turns(rt, &mut records, &plain, &group, turn)?;
    rt.println(format_args!("appends {appends} plain {writes}"))?;
    Ok(())
}
