//! One stream of many extents.
use crate::error::Failure;
use std::alloc::Global;
use std::collections::BTreeMap;
use std::rt::Clock;
use std::time::Instant;
use streams::{Position, StreamTable};
use wire::{ExtentId, Fence, RangeId, StreamKind, StreamName};

/// A stream of some thousand extents is made in less than a millisecond, so that each measurement makes so many.
const TABLES: u64 = 100;

fn log() -> StreamName {
    StreamName {
        range: RangeId(1),
        kind: StreamKind::Log,
    }
}

/// A stream of so many extents, each sealed before the next is added.
fn extended(alloc: Global, count: u64) -> Result<StreamTable, Failure> {
    let mut table = StreamTable::new(alloc);
    let mut sealed = BTreeMap::new(alloc);
    let name = log();
    table.create(&name, Fence(1))?;
    for number in 0..count {
        let last = if number == 0 {
            None
        } else {
            Some(ExtentId(number))
        };
        let extent = ExtentId(number.saturating_add(1));
        table.extend(&name, Fence(1), last, &sealed, extent)?;
        sealed.insert(extent, 4096)?;
    }
    Ok(table)
}

/// How many places of the stream are found, of so many.
fn located(table: &StreamTable, count: u64) -> u64 {
    let name = log();
    let mut found = 0u64;
    for index in 0..count {
        if table.locate(&name, Position { index, offset: 7 }).is_some() {
            found = found.saturating_add(1);
        }
    }
    found
}

/// Makes streams of so many extents, finds each extent, and prints how long both took.
pub fn measure<R: AllocGlobal + Clock + Print>(rt: &R, count: u64) -> Result<(), Failure> {
    let start = Instant::now(rt)?;
    let mut found = 0u64;
    for _table in 0..TABLES {
        let table = extended(rt.alloc(), count)?;
        found = found.saturating_add(located(&table, count));
    }
    let micros = start.elapsed(rt)?.as_micros();
    rt.println(format_args!("found {found} micros {micros}"))?;
    Ok(())
}
