//! Reading a record from bytes. Each reader is the function on lists of specs/Reading.antt that its clause cites.
ghost use Rattle.std.specs.Prelude.{◌≡◌, ◌≤◌, ◌∷◌, [], length, IfOk, MatchResult};
ghost use Rattle.blocks.specs.Format.{Gives, many_at};
ghost use Rattle.metadata.specs.Record.{spelling, Fits};
ghost use Rattle.metadata.specs.Reading.{text_at, high_behind, high_at, keys_at, place_at, position_at, flag_at, next_at, index_at, end_behind, end_at, region_at, counted_at, ranges_at, checkpoint_at, regions_at, status_at, item_at, record_at, group_at};
ghost use Rattle.metadata.specs.declared.record.MetaRecord.{MetaRecord};

use crate::lists::{IndexRanges, Regions};
use crate::record::{IndexRange, KeyRange, MetaItem, MetaRecord, Region};
use block_types::{BlockFault, Group};
use blocks::reader::{bytes_of, ended, u8_at, u16_at, u32_at, u64_at};
use bytes::Bytes;
use memtable::{MAX_KEY, Place};
use std::alloc::Global;
use streams::Position;
use wire::{ExtentId, RangeId};

/// A key of at least `low` bytes.
#[tactic(auto, unfolding(crate::specs::Reading::text_at))]
fn text_of(alloc: Global, low: usize, bytes: &[u8]) -> Result<(Bytes, &[u8]), BlockFault>
    ensures { Gives (λ x. (x.0, x.1.now)) result (text_at low bytes.now) }
{
    let Ok((len, rest)) = u16_at(bytes) else {
        return Err(BlockFault::Damaged);
    };
    let len = len as usize;
    if len < low || len > MAX_KEY {
        return Err(BlockFault::Damaged);
    }
    let Ok((key, rest)) = bytes_of(len, rest) else {
        return Err(BlockFault::Damaged);
    };
    match Bytes::copy_from_slice(alloc, key) {
        Ok(copy) => Ok((copy, rest)),
        Err(_full) => Err(BlockFault::Memory),
    }
}

#[tactic(auto, unfolding(crate::specs::Reading::high_at, crate::specs::Reading::high_behind))]
fn high_of(alloc: Global, bytes: &[u8]) -> Result<(Option<Bytes>, &[u8]), BlockFault>
    ensures { Gives (λ x. (x.0, x.1.now)) result (high_at bytes.now) }
{
    let Ok((flag, rest)) = u8_at(bytes) else {
        return Err(BlockFault::Damaged);
    };
    match flag {
        0 => {
            let Ok((len, rest)) = u16_at(rest) else {
                return Err(BlockFault::Damaged);
            };
            if len > 0 {
                return Err(BlockFault::Damaged);
            }
            Ok((None, rest))
        }
        1 => {
            let (key, rest) = text_of(alloc, 1, rest)?;
            Ok((Some(key), rest))
        }
        _ => Err(BlockFault::Damaged),
    }
}

#[tactic(auto, unfolding(crate::specs::Reading::keys_at))]
fn keys_of(alloc: Global, bytes: &[u8]) -> Result<(KeyRange, &[u8]), BlockFault>
    ensures { Gives (λ x. (x.0, x.1.now)) result (keys_at bytes.now) }
{
    let (low, rest) = text_of(alloc, 0, bytes)?;
    let (high, rest) = high_of(alloc, rest)?;
    Ok((KeyRange { low, high }, rest))
}

/// The extent, offset and length of a place.
#[tactic(auto, unfolding(crate::specs::Reading::place_at))]
fn place_of(bytes: &[u8]) -> Result<((u64, u32, u32), &[u8]), BlockFault>
    ensures { Gives (λ x. (record { extent = x.0.0; offset = x.0.1; length = x.0.2 }, x.1.now)) result (place_at bytes.now) }
{
    let Ok((extent, rest)) = u64_at(bytes) else {
        return Err(BlockFault::Damaged);
    };
    let Ok((offset, rest)) = u32_at(rest) else {
        return Err(BlockFault::Damaged);
    };
    let Ok((length, rest)) = u32_at(rest) else {
        return Err(BlockFault::Damaged);
    };
    Ok(((extent, offset, length), rest))
}

fn placed(extent: u64, offset: u32, length: u32) -> Place
    ensures { result ≡ record { extent = extent; offset = offset; length = length } }
{
    Place {
        extent: ExtentId(extent),
        offset,
        length,
    }
}

#[tactic(auto, unfolding(crate::specs::Reading::position_at))]
fn position_of(bytes: &[u8]) -> Result<(Position, &[u8]), BlockFault>
    ensures { Gives (λ x. (x.0, x.1.now)) result (position_at bytes.now) }
{
    let Ok((index, rest)) = u64_at(bytes) else {
        return Err(BlockFault::Damaged);
    };
    let Ok((offset, rest)) = u32_at(rest) else {
        return Err(BlockFault::Damaged);
    };
    Ok((Position { index, offset }, rest))
}

/// Reads a flag, a byte that is 0 or 1, and answers it with the bytes after it. It is refused `Damaged` (21) where there is
/// none. It takes no memory.
#[tactic(auto, unfolding(crate::specs::Reading::flag_at))]
pub fn flag_of(bytes: &[u8]) -> Result<(bool, &[u8]), BlockFault>
    ensures { Gives (λ x. (x.0, x.1.now)) result (flag_at bytes.now) }
{
    let Ok((flag, rest)) = u8_at(bytes) else {
        return Err(BlockFault::Damaged);
    };
    if flag > 1 {
        return Err(BlockFault::Damaged);
    }
    Ok((flag == 1, rest))
}

#[tactic(auto, unfolding(crate::specs::Reading::next_at))]
fn next_of(bytes: &[u8]) -> Result<(u64, &[u8]), BlockFault>
    ensures { Gives (λ x. (x.0, x.1.now)) result (next_at bytes.now) }
{
    let Ok((next, rest)) = u64_at(bytes) else {
        return Err(BlockFault::Damaged);
    };
    if next < 1 {
        return Err(BlockFault::Damaged);
    }
    Ok((next, rest))
}

#[tactic(auto, unfolding(crate::specs::Reading::index_at))]
fn index_of(alloc: Global, bytes: &[u8]) -> Result<(IndexRange, &[u8]), BlockFault>
    ensures { Gives (λ x. (x.0, x.1.now)) result (index_at bytes.now) }
{
    let ((extent, offset, length), rest) = place_of(bytes)?;
    let (keys, rest) = keys_of(alloc, rest)?;
    let place = placed(extent, offset, length);
    Ok((IndexRange { place, keys }, rest))
}

#[tactic(auto, unfolding(crate::specs::Reading::end_at, crate::specs::Reading::end_behind))]
fn end_of(bytes: &[u8]) -> Result<(Option<u64>, &[u8]), BlockFault>
    ensures { Gives (λ x. (x.0, x.1.now)) result (end_at bytes.now) }
{
    let Ok((flag, rest)) = u8_at(bytes) else {
        return Err(BlockFault::Damaged);
    };
    match flag {
        0 => {
            let Ok((upto, rest)) = u64_at(rest) else {
                return Err(BlockFault::Damaged);
            };
            if upto > 0 {
                return Err(BlockFault::Damaged);
            }
            Ok((None, rest))
        }
        1 => {
            let Ok((upto, rest)) = u64_at(rest) else {
                return Err(BlockFault::Damaged);
            };
            Ok((Some(upto), rest))
        }
        _ => Err(BlockFault::Damaged),
    }
}

#[tactic(auto, unfolding(crate::specs::Reading::region_at))]
fn region_of(alloc: Global, bytes: &[u8]) -> Result<(Region, &[u8]), BlockFault>
    ensures { Gives (λ x. (x.0, x.1.now)) result (region_at bytes.now) }
{
    let (start, rest) = position_of(bytes)?;
    let (end, rest) = end_of(rest)?;
    let (next, rest) = next_of(rest)?;
    let (keys, rest) = keys_of(alloc, rest)?;
    Ok((
        Region {
            start,
            end,
            next,
            keys,
        },
        rest,
    ))
}

fn all_indexes_of(
    alloc: Global,
    count: u8,
    bytes: &[u8],
) -> Result<(Vec<IndexRange>, &[u8]), BlockFault>
    ensures { Gives (λ x. (x.0.items, x.1.now)) result (many_at index_at count bytes.now) }
{
    let mut read = Vec::new(alloc);
    let mut rest = bytes;
    for _ in 0..count {
        let (index, after) = index_of(alloc, rest)?;
        read.push(index)?;
        rest = after;
    }
    Ok((read, rest))
}

fn all_regions_of(
    alloc: Global,
    count: u8,
    bytes: &[u8],
) -> Result<(Vec<Region>, &[u8]), BlockFault>
    ensures { Gives (λ x. (x.0.items, x.1.now)) result (many_at region_at count bytes.now) }
{
    let mut read = Vec::new(alloc);
    let mut rest = bytes;
    for _ in 0..count {
        let (region, after) = region_of(alloc, rest)?;
        read.push(region)?;
        rest = after;
    }
    Ok((read, rest))
}

#[tactic(auto, unfolding(crate::specs::Reading::counted_at))]
fn indexes_of(alloc: Global, bytes: &[u8]) -> Result<(IndexRanges, &[u8]), BlockFault>
    ensures { Gives (λ x. (x.0, x.1.now)) result (counted_at index_at bytes.now) }
{
    let Ok((count, rest)) = u8_at(bytes) else {
        return Err(BlockFault::Damaged);
    };
    let (items, rest) = all_indexes_of(alloc, count, rest)?;
    Ok((IndexRanges { items }, rest))
}

#[tactic(auto, unfolding(crate::specs::Reading::counted_at))]
fn regions_of(alloc: Global, bytes: &[u8]) -> Result<(Regions, &[u8]), BlockFault>
    ensures { Gives (λ x. (x.0, x.1.now)) result (counted_at region_at bytes.now) }
{
    let Ok((count, rest)) = u8_at(bytes) else {
        return Err(BlockFault::Damaged);
    };
    let (items, rest) = all_regions_of(alloc, count, rest)?;
    Ok((Regions { items }, rest))
}

#[tactic(auto, unfolding(crate::specs::Reading::ranges_at))]
fn ranges_item(alloc: Global, fields: &[u8]) -> Result<MetaItem, BlockFault>
    ensures { Gives (λ r. r) result (ranges_at fields.now) }
{
    let (keys, rest) = keys_of(alloc, fields)?;
    ended(MetaItem::Ranges { keys }, rest)
}

#[tactic(auto, unfolding(crate::specs::Reading::checkpoint_at))]
fn checkpoint_item(fields: &[u8]) -> Result<MetaItem, BlockFault>
    ensures { Gives (λ r. r) result (checkpoint_at fields.now) }
{
    let (combine, rest) = flag_of(fields)?;
    let ((extent, offset, length), rest) = place_of(rest)?;
    let (position, rest) = position_of(rest)?;
    let (next, rest) = next_of(rest)?;
    let index = placed(extent, offset, length);
    let read = MetaItem::Checkpoint {
        combine,
        index,
        position,
        next,
    };
    ended(read, rest)
}

#[tactic(auto, unfolding(crate::specs::Reading::regions_at))]
fn regions_item(alloc: Global, fields: &[u8]) -> Result<MetaItem, BlockFault>
    ensures { Gives (λ r. r) result (regions_at fields.now) }
{
    let (indexes, rest) = indexes_of(alloc, fields)?;
    let (regions, rest) = regions_of(alloc, rest)?;
    ended(MetaItem::Regions { indexes, regions }, rest)
}

#[tactic(auto, unfolding(crate::specs::Reading::status_at))]
fn status_item(alloc: Global, fields: &[u8]) -> Result<MetaItem, BlockFault>
    ensures { Gives (λ r. r) result (status_at fields.now) }
{
    let Ok((low, rest)) = u64_at(fields) else {
        return Err(BlockFault::Damaged);
    };
    let Ok((high, rest)) = u64_at(rest) else {
        return Err(BlockFault::Damaged);
    };
    let (key, rest) = text_of(alloc, 1, rest)?;
    let low = RangeId(low);
    let high = RangeId(high);
    ended(MetaItem::SplitStatus { low, high, key }, rest)
}

#[tactic(auto, unfolding(crate::specs::Reading::item_at))]
fn item_of(alloc: Global, kind: u8, fields: &[u8]) -> Result<MetaItem, BlockFault>
    ensures { Gives (λ r. r) result (item_at kind fields.now) }
{
    match kind {
        1 => ranges_item(alloc, fields),
        2 => checkpoint_item(fields),
        3 => regions_item(alloc, fields),
        4 => status_item(alloc, fields),
        _ => Err(BlockFault::Damaged),
    }
}

#[tactic(auto, unfolding(crate::specs::Reading::record_at))]
fn record_of(alloc: Global, bytes: &[u8]) -> Result<MetaRecord, BlockFault>
    ensures { Gives (λ r. r) result (record_at bytes.now) }
{
    let (number, rest) = next_of(bytes)?;
    let Ok((kind, rest)) = u8_at(rest) else {
        return Err(BlockFault::Damaged);
    };
    let item = item_of(alloc, kind, rest)?;
    Ok(MetaRecord { number, item })
}

/// The record that these bytes, of one block, are the spelling of.
///
/// It is refused `Damaged` (21) only where they are the spelling of none: cut short, bytes left over, an unknown kind, a
/// field out of range, a flag that is neither 0 nor 1. `Memory` (22) says nothing of the bytes.
fn decode_block(alloc: Global, bytes: &[u8]) -> Result<MetaRecord, BlockFault>
    requires { length bytes.now ≤ 65536 }
    ensures read { Gives (λ r. r) result (record_at bytes.now) }
    ensures found { IfOk result (λ r. Fits r × (spelling r ≡ bytes.now)) }
    ensures only { (r : MetaRecord) → Fits r → spelling r ≡ bytes.now → MatchResult result (λ x. x ≡ r) (λ e. e ≡ BlockFault.Memory) }
{
    record_of(alloc, bytes)
}

/// The record that a group is the spelling of. It copies the keys.
///
/// It is refused `Damaged` (21) only where the group is the spelling of none: more than one block, one cut short, bytes left
/// over, an unknown kind, a field out of range, a flag that is neither 0 nor 1. `Memory` (22) says nothing of the group.
pub fn decode(alloc: Global, group: &Group) -> Result<MetaRecord, BlockFault>
    ensures found { IfOk result (λ r. Fits r × (group.now ≡ spelling r ∷ [])) }

    // So it is what reading from left to right gives.
    ensures read { Gives (λ r. r) result (group_at group.now) }

    // Where a group is the spelling of a record, that record is found, unless memory ran out.
    ensures only { (r : MetaRecord) → Fits r → group.now ≡ spelling r ∷ []
        → MatchResult result (λ x. x ≡ r) (λ e. e ≡ BlockFault.Memory) }
{
    match group.blocks() {
        [only] => decode_block(alloc, only.as_slice()),
        _ => Err(BlockFault::Damaged),
    }
}

/// A law, which does nothing when it runs: no two records have one spelling.
pub fn one_spelling()
    ensures { (a b : MetaRecord) → Fits a → Fits b → spelling a ≡ spelling b → a ≡ b }
{}
