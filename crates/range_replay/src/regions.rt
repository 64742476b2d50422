//! What the regions of a log take of its groups.
ghost use Rattle.std.specs.Prelude.{◌≡◌, ◌+◌, ◌-◌, ◌<◌, ◌≤◌, ◌^◌, ◌++◌, List, Some, None, Err, length, min, filter, option_map, IfOk, OnOk, OnErr};
ghost use Rattle.std.specs.List.{AllByRecursion};
ghost use Rattle.block_types.specs.declared.fault.BlockFault.TheVariants as faults;
ghost use Rattle.block_types.specs.Limits.{group_size};
ghost use Rattle.memtable.specs.Cell.{IsEntry};
ghost use Rattle.commitlog.specs.Reading.{each_of};
ghost use Rattle.commitlog.specs.Record.{Fits, spelling};
ghost use Rattle.memtable.specs.Entries.{Entries, put_all};
ghost use Rattle.model_partition.specs.Loading as specs;
ghost use Rattle.range_replay.specs.Reload.{is_of};

use block_types::BlockFault;
use bytes::Bytes;
use commitlog::{LogRecord, Replay, cells_from};
use memtable::Cell;
use metadata::{KeyRange, Region};
use std::alloc::{AllocError, Global};
use streams::Position;
use wire::ExtentId;

fn is_before(a: &Position, b: &Position) -> bool
    ensures { result ≡ specs.is_before a.now b.now }
{
    a.index < b.index || (a.index == b.index && a.offset < b.offset)
}

/// Whether what stands at the position is of the region.
fn holds(region: &Region, at: &Position) -> bool
    ensures { result ≡ specs.holds region.now at.now }
{
    if is_before(at, &region.start) {
        return false;
    }
    match region.end {
        None => true,
        Some(end) => at.index < end,
    }
}

/// Adds the cells whose keys are of both.
fn add_cells(
    changes: &mut Vec<(Bytes, Cell)>,
    cells: Vec<(Bytes, Cell)>,
    keys: &KeyRange,
    own: &KeyRange,
) -> Result<(), AllocError>
    requires entries { AllByRecursion (λ e. IsEntry e.0 e.1) cells.items }
    requires before { AllByRecursion (λ e. IsEntry e.0 e.1) changes.old.items }
    ensures ok { OnOk result (changes.new.items ≡ changes.old.items ++ filter (is_of keys.now own.now) cells.items) }
    ensures entries { OnOk result (AllByRecursion (λ e. IsEntry e.0 e.1) changes.new.items) }
{
    let mut cells = cells;
    cells.retain(|change| keys.contains(change.0.as_slice()) && own.contains(change.0.as_slice()));
    changes.append(&mut cells)?;
    Ok(())
}

/// How many transactions a record has.
fn count_of(written: &LogRecord) -> u64
    ensures { result ≡ length written.now.transactions }
{
    written.transactions.items.len() as u64
}

/// Takes the numbers of a record's transactions, one by one: how many of them, at its front, were taken before. The others are
/// new. It is refused `Damaged` (21) where the first is above the next number; what is left then is of no use.
fn take_numbers(replay: &mut Replay, written: &LogRecord) -> Result<usize, BlockFault>
    requires { Fits written.now }
    ensures reached { OnOk result (written.now.first ≤ replay.old) }
    ensures old { IfOk result (λ old. old ≡ min (replay.old - written.now.first) (length written.now.transactions)) }
    ensures next { IfOk result (λ old. replay.new ≡ replay.old + (length written.now.transactions - old)) }
    ensures damaged { OnErr result (replay.old < written.now.first) }
{
    let mut old = 0;
    for number in written.first..written.first + count_of(written) {
        if !replay.take(number)? {
            old += 1;
        }
    }
    Ok(old)
}

/// What a region takes of a record whose group stands at the position: its changes go after the others, and the region comes
/// back with its new next number. What an error leaves of the changes is of no use.
fn take_region(
    alloc: Global,
    region: Region,
    keys: &KeyRange,
    at: &Position,
    extent: ExtentId,
    written: &LogRecord,
    changes: &mut Vec<(Bytes, Cell)>,
) -> Result<Region, BlockFault>
    requires fits { Fits written.now }
    requires room { at.now.offset + group_size (spelling written.now) < 2 ^ 32 }
    requires before { AllByRecursion (λ e. IsEntry e.0 e.1) changes.old.items }
    ensures ok { IfOk result (λ taken. (layer : Entries) → specs.region_takes keys.now at.now extent written.now (put_all layer changes.old.items) region
        ≡ Some (taken, put_all layer changes.new.items)) }
    ensures damaged { result ≡ Err faults.Damaged
        → (layer : Entries) → specs.region_takes keys.now at.now extent written.now layer region ≡ None }
    ensures entries { OnOk result (AllByRecursion (λ e. IsEntry e.0 e.1) changes.new.items) }
{
    let mut region = region;
    if !holds(&region, at) {
        return Ok(region);
    }
    let mut replay = Replay::new(region.next);
    let old = take_numbers(&mut replay, written)?;
    let cells = cells_from(alloc, written, old, extent, at.offset)?;
    add_cells(changes, cells, keys, &region.keys)?;
    region.next = replay.next();
    Ok(region)
}

/// What all regions take of a record, from left to right.
pub(crate) fn take_regions(
    alloc: Global,
    regions: Vec<Region>,
    keys: &KeyRange,
    at: &Position,
    extent: ExtentId,
    written: &LogRecord,
    changes: &mut Vec<(Bytes, Cell)>,
) -> Result<Vec<Region>, BlockFault>
    requires fits { Fits written.now }
    requires room { at.now.offset + group_size (spelling written.now) < 2 ^ 32 }
    requires before { AllByRecursion (λ e. IsEntry e.0 e.1) changes.old.items }
    ensures ok { IfOk result (λ taken. (layer : Entries) → each_of (specs.region_takes keys.now at.now extent written.now) (put_all layer changes.old.items) regions.items
        ≡ Some (taken.items, put_all layer changes.new.items)) }
    ensures damaged { result ≡ Err faults.Damaged
        → (layer : Entries) → each_of (specs.region_takes keys.now at.now extent written.now) (put_all layer changes.old.items) regions.items ≡ None }
    ensures entries { OnOk result (AllByRecursion (λ e. IsEntry e.0 e.1) changes.new.items) }
{
    let mut all = Vec::with_capacity(alloc, regions.len())?;
    for region in regions {
        let taken = take_region(alloc, region, keys, at, extent, written, changes)?;
        all.push(taken)?;
    }
    Ok(all)
}

/// The region without end, if it stands last.
pub fn open_region(regions: &[Region]) -> Option<&Region>
    ensures { option_map (λ region. region.now) result ≡ specs.open_region regions.now }
{
    match regions {
        [] => None,
        [.., last] => { if last.end.is_some() { None } else { Some(last) } }
    }
}
