//! What no clause says: that calls succeed where there is memory, and a log and a record of metadata read by hand.
use crate::cases::{Case, Tested, holds};
use crate::records::{GAP, KEYS, groups};
use bytes::Bytes;
use memtable::{Cell, Key, MemTable, Place};
use metadata::{KeyRange, Metadata, Region, copied_regions};
use range_replay::{folded, open_region, replayed};
use std::alloc::Global;
use std::test::Fail;
use wire::ExtentId;

/// A record of two transactions: of number 1, which puts `x` at `a`, and of number 2, which puts a large value at `b`.
const LOG: &[u8] = &[
    0, 0, 0, 34, // its length
    0, 0, 0, 0, 0, 0, 0, 1, // the first number
    0, 2, // two transactions
    1, 0, 1, b'a', 1, 0, 0, 0, 1, b'x', // a value beside its key
    1, 0, 1, b'b', 2, 0, 0, 0, 19, 136, // a value of 5,000 bytes in the first block after
];

/// What is done with a log, or what is known of what was read of it.
pub(crate) enum Step {
    /// A group with this record, and with a block of each of these sizes after it, is read as the first of the extent 7.
    Reads(&'static [u8], &'static [usize]),
    /// A group with this record alone is damage.
    Refuses(&'static [u8]),
    /// The number of the next transaction.
    Next(u64),
    /// The offset and the length of the value at `b`.
    IsPlaced(u32, u32),
    /// How many keys the table has.
    Keys(usize),
}

const CASES: &[Case<Step>] = &[
    (
        "a log is read once",
        &[&[
            Step::Reads(LOG, &[5_000]),
            Step::Next(3),
            Step::Reads(LOG, &[5_000]),
            Step::Next(3),
        ]],
    ),
    (
        "a large value is kept by its place",
        &[&[
            Step::Reads(LOG, &[5_000]),
            Step::IsPlaced(34, 5_000),
            Step::Keys(2),
        ]],
    ),
    ("a gap is damage", &[&[Step::Refuses(GAP), Step::Next(1)]]),
];

/// What a load has read of a log.
#[derive(Drop)]
struct Log {
    regions: Vec<Region>,
    table: MemTable,
}

/// The regions of a log of which no group was read, with all keys.
fn first_regions(alloc: Global) -> Result<Vec<Region>, Fail> {
    let first = Metadata::first(alloc)?;
    let regions = copied_regions(alloc, &first.regions.items);
    drop(first);
    Ok(regions?)
}

fn begun(alloc: Global) -> Result<Log, Fail> {
    Ok(Log {
        regions: first_regions(alloc)?,
        table: MemTable::new(alloc),
    })
}

fn all_keys() -> KeyRange {
    KeyRange {
        low: Bytes::new(),
        high: None,
    }
}

/// Whether the group was taken.
fn reads(alloc: Global, log: &mut Log, text: &[u8], sizes: &[usize]) -> Result<bool, Fail> {
    let groups = groups(alloc, text, sizes)?;
    let read = replayed(alloc, &log.regions, &all_keys(), ExtentId(7), 0, &groups);
    drop(groups);
    match read {
        Ok((regions, changes)) => {
            log.regions = regions;
            log.table.apply(alloc, changes)?;
            Ok(true)
        }
        Err(_fault) => Ok(false),
    }
}

fn has_next(log: &Log, next: u64) -> bool {
    match open_region(&log.regions) {
        None => false,
        Some(region) => region.next == next,
    }
}

fn is_placed(log: &Log, offset: u32, length: u32) -> bool {
    let wanted = Place {
        extent: ExtentId(7),
        offset,
        length,
    };
    match log.table.get(&Key::of(Bytes::from_static(b"b"))) {
        Some(Cell::Placed(place)) => *place == wanted,
        _ => false,
    }
}

impl Tested for Log {
    type Step = Step;

    fn takes(&mut self, alloc: Global, step: &Step) -> Result<bool, Fail> {
        match step {
            Step::Reads(text, sizes) => reads(alloc, self, text, sizes),
            Step::Refuses(text) => Ok(!reads(alloc, self, text, &[])?),
            Step::Next(next) => Ok(has_next(self, *next)),
            Step::IsPlaced(offset, length) => Ok(is_placed(self, *offset, *length)),
            Step::Keys(count) => Ok(self.table.live().len() == *count),
        }
    }
}

#[test]
fn logs_go_as_their_cases_say(rt: HostRuntime) -> Result<(), Fail> {
    for (name, parts) in CASES {
        let log = begun(rt.alloc())?;
        assert!(rt; holds(rt.alloc(), log, *parts)?, "{name}");
    }
    Ok(())
}

/// The number of the next record of the metadata, once this one is read.
fn next_record(alloc: Global, text: &[u8]) -> Result<u64, Fail> {
    let groups = groups(alloc, text, &[])?;
    let first = Metadata::first(alloc)?;
    let said = folded(alloc, &first, &groups);
    drop(first);
    drop(groups);
    let said = said?;
    let next = said.next;
    drop(said);
    Ok(next)
}

#[test]
fn metadata_is_folded(rt: HostRuntime) -> Result<(), Fail> {
    assert!(rt; next_record(rt.alloc(), KEYS)? == 2);
    Ok(())
}
