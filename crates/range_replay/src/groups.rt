//! The groups of an extent of the log, replayed.
ghost use Rattle.std.specs.Prelude.{◌≡◌, ◌+◌, ◌<◌, ◌^◌, ◌++◌, ◌∷◌, ℕ, List, Some, None, Err, IfOk, OnOk};
ghost use Rattle.std.specs.List.{AllByRecursion};
ghost use Rattle.block_types.specs.declared.fault.BlockFault.TheVariants as faults;
ghost use Rattle.block_types.specs.Limits.{IsBlock, group_size};
ghost use Rattle.blocks.specs.Format.{Gives};
ghost use Rattle.commitlog.specs.Reading.{record_at};
ghost use Rattle.commitlog.specs.Record.{Fits, spelling};
ghost use Rattle.memtable.specs.Cell.{IsEntry};
ghost use Rattle.memtable.specs.Entries.{Entries, put_all};
ghost use Rattle.model_partition.specs.Loading.{replayed};
ghost use Rattle.range_replay.specs.Reload.{group_takes};

use crate::regions::take_regions;
use block_types::{Block, BlockFault, Group};
use bytes::Bytes;
use commitlog::{LogReader, LogRecord};
use memtable::Cell;
use metadata::{KeyRange, Region, copied_regions};
use std::alloc::{AllocError, Global};
use streams::Position;
use wire::ExtentId;

/// Feeds the blocks to the reader, in order.
fn feed_all(reader: &mut LogReader, blocks: &[Bytes]) -> Result<(), AllocError>
    requires { AllByRecursion IsBlock blocks.now }
    ensures { OnOk result (reader.new ≡ reader.old ++ blocks.now) }
{
    for block in blocks {
        reader.feed(&Block::of(block.clone()?))?;
    }
    Ok(())
}

/// The record that a group is, read block by block.
fn record_of(alloc: Global, group: &Group) -> Result<LogRecord, BlockFault>
    ensures found { IfOk result (λ r. Fits r × (spelling r ≡ group.now)) }
    ensures read { Gives (λ r. r) result (record_at group.now) }
{
    let blocks = group.blocks();
    let mut reader = LogReader::new(alloc);
    feed_all(&mut reader, blocks)?;
    reader.end(alloc)
}

/// What the regions take of the group at the position.
fn take_group(
    alloc: Global,
    regions: Vec<Region>,
    keys: &KeyRange,
    at: &Position,
    extent: ExtentId,
    group: &Group,
    changes: &mut Vec<(Bytes, Cell)>,
) -> Result<Vec<Region>, BlockFault>
    requires room { at.now.offset + group_size group.now < 2 ^ 32 }
    requires before { AllByRecursion (λ e. IsEntry e.0 e.1) changes.old.items }
    ensures ok { IfOk result (λ taken. (layer : Entries)
        → group_takes keys.now at.now extent (regions.items, put_all layer changes.old.items) group.now
        ≡ Some (taken.items, put_all layer changes.new.items)) }
    ensures damaged { result ≡ Err faults.Damaged → (layer : Entries)
        → group_takes keys.now at.now extent (regions.items, put_all layer changes.old.items) group.now ≡ None }
    ensures entries { OnOk result (AllByRecursion (λ e. IsEntry e.0 e.1) changes.new.items) }
{
    let written = record_of(alloc, group)?;
    match take_regions(alloc, regions, keys, at, extent, &written, changes) {
        Ok(taken) => Ok(taken),
        Err(fault) => Err(fault),
    }
}

/// The same, and the position after the group.
fn take_next(
    alloc: Global,
    regions: Vec<Region>,
    keys: &KeyRange,
    at: Position,
    extent: ExtentId,
    group: &Group,
    changes: &mut Vec<(Bytes, Cell)>,
) -> Result<(Vec<Region>, Position), BlockFault>
    requires before { AllByRecursion (λ e. IsEntry e.0 e.1) changes.old.items }
    ensures ok { IfOk result (λ next. (layer : Entries) (groups : List (List (List ℕ)))
        → replayed keys.now extent at (regions.items, put_all layer changes.old.items) (group.now ∷ groups)
        ≡ replayed keys.now extent next.1 (next.0.items, put_all layer changes.new.items) groups) }
    ensures damaged { result ≡ Err faults.Damaged → (layer : Entries) (groups : List (List (List ℕ)))
        → replayed keys.now extent at (regions.items, put_all layer changes.old.items) (group.now ∷ groups) ≡ None }
    ensures entries { OnOk result (AllByRecursion (λ e. IsEntry e.0 e.1) changes.new.items) }
{
    match at.offset.checked_add(group.size()) {
        None => Err(BlockFault::Damaged),
        Some(end) => {
            let next = Position {
                index: at.index,
                offset: end,
            };
            match take_group(alloc, regions, keys, &at, extent, group, changes) {
                Ok(taken) => Ok((taken, next)),
                Err(fault) => Err(fault),
            }
        }
    }
}

/// What the regions take of the groups of an extent, from a position on: their changes go after the others. What an error
/// leaves of the changes is of no use.
fn take_groups(
    alloc: Global,
    regions: Vec<Region>,
    keys: &KeyRange,
    start: Position,
    extent: ExtentId,
    groups: &[Group],
    changes: &mut Vec<(Bytes, Cell)>,
) -> Result<Vec<Region>, BlockFault>
    requires before { AllByRecursion (λ e. IsEntry e.0 e.1) changes.old.items }
    ensures ok { IfOk result (λ taken. (layer : Entries)
        → replayed keys.now extent start (regions.items, put_all layer changes.old.items) groups.now
        ≡ Some (taken.items, put_all layer changes.new.items)) }
    ensures damaged { result ≡ Err faults.Damaged → (layer : Entries)
        → replayed keys.now extent start (regions.items, put_all layer changes.old.items) groups.now ≡ None }
    ensures entries { OnOk result (AllByRecursion (λ e. IsEntry e.0 e.1) changes.new.items) }
{
    let mut all = regions;
    let mut at = start;
    for group in groups {
        let (taken, next) = take_next(alloc, all, keys, at, extent, group, changes)?;
        all = taken;
        at = next;
    }
    Ok(all)
}

/// What the regions of a log become by the groups of an extent, from its first byte on, and the changes that they take of it,
/// in order; `index` is that of the extent in the log. It is refused `Damaged` (21) where a group is no record, begins above
/// the next number of a region that holds it, or ends above 2^32 - 1. `Memory` (22) says nothing of the groups.
pub fn replayed(
    alloc: Global,
    regions: &[Region],
    keys: &KeyRange,
    extent: ExtentId,
    index: u64,
    groups: &[Group],
) -> Result<(Vec<Region>, Vec<(Bytes, Cell)>), BlockFault>
    ensures ok { IfOk result (λ read. (layer : Entries)
        → replayed keys.now extent (record { index = index; offset = 0 }) (regions.now, layer) groups.now
        ≡ Some (read.0.items, put_all layer read.1.items)) }
    ensures damaged { result ≡ Err faults.Damaged → (layer : Entries)
        → replayed keys.now extent (record { index = index; offset = 0 }) (regions.now, layer) groups.now ≡ None }
    ensures entries { IfOk result (λ read. AllByRecursion (λ e. IsEntry e.0 e.1) read.1.items) }
{
    let old = copied_regions(alloc, regions)?;
    let mut changes = Vec::new(alloc);
    let start = Position { index, offset: 0 };
    match take_groups(alloc, old, keys, start, extent, groups, &mut changes) {
        Ok(taken) => Ok((taken, changes)),
        Err(fault) => Err(fault),
    }
}
