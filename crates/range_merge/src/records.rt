//! The records of the new range: its keys, and then its indexes and regions.
ghost use Rattle.std.specs.Prelude.{◌≡◌, ◌∷◌, [], true, false, IfOk, IfSome, IfNone};
ghost use Rattle.std.specs.List.{list_all};
ghost use Rattle.metadata.specs.declared.record.MetaItem.TheVariants.{Ranges, Regions as RegionsItem};
ghost use Rattle.metadata.specs.Record.{Fits, IsKeyRange, spelling};
ghost use Rattle.model_partition.specs.JoinedRanges as specs;
ghost use Rattle.model_partition.specs.Merges as rules;

use crate::joined::{closed_regions, cut_indexes, log_end};
use crate::key_ranges::{are_record_keys, joined_keys};
use client::Appending;
use metadata::{IndexRange, IndexRanges, KeyRange, MetaItem, MetaRecord, Region, Regions, encode};
use model_partition::MergeRecord;
use range_checkpoint::appending_of;
use range_core::RangeState;
use std::alloc::{AllocError, Global};
use streams::Position;

/// How many indexes a record has at most, so that it is one block.
const MOST_INDEXES: usize = 80;

/// How many regions a record has at most.
const MOST_REGIONS: usize = 32;

fn is_record_index(index: &IndexRange) -> bool
    ensures { result ≡ specs.is_record_index index.now }
{
    // For the clause: the numbers of its place have their bytes.
    let _extent = index.place.extent.0;
    let _offset = index.place.offset;
    let _length = index.place.length;
    are_record_keys(&index.keys)
}

fn is_record_region(region: &Region) -> bool
    ensures { result ≡ specs.is_record_region region.now }
{
    // For the clause: the numbers of its position and of its end have their bytes.
    let _index = region.start.index;
    let _offset = region.start.offset;
    let _upto = region.end.unwrap_or(0);
    1 <= region.next && are_record_keys(&region.keys)
}

fn are_record_indexes(indexes: &[IndexRange]) -> bool
    ensures { result ≡ list_all specs.is_record_index indexes.now }
{
    indexes.iter().all(|index| is_record_index(index))
}

fn are_record_regions(regions: &[Region]) -> bool
    ensures { result ≡ list_all specs.is_record_region regions.now }
{
    regions.iter().all(|region| is_record_region(region))
}

/// Whether these are so few that all of them are one block.
fn are_few(indexes: &[IndexRange], regions: &[Region]) -> bool
    ensures { result ≡ specs.are_few indexes.now regions.now }
{
    indexes.len() <= MOST_INDEXES && regions.len() <= MOST_REGIONS
}

/// Whether these indexes and regions are one record.
fn are_record_parts(indexes: &[IndexRange], regions: &[Region]) -> bool
    ensures { result ≡ specs.are_record_parts indexes.now regions.now }
{
    are_few(indexes, regions) && (are_record_indexes(indexes) && are_record_regions(regions))
}

/// A record that is one block, ready to be appended.
fn ready(alloc: Global, written: &MetaRecord) -> Result<Appending, AllocError>
    requires { Fits written.now }
    ensures { IfOk result (λ blocks. blocks ≡ spelling written.now ∷ []) }
{
    match encode(alloc, written) {
        Ok(group) => appending_of(&group),
        Err(_full) => Err(AllocError),
    }
}

/// The record of some keys.
fn keys_append(alloc: Global, keys: KeyRange) -> Result<Appending, AllocError>
    requires { IsKeyRange keys }
    ensures { IfOk result (λ blocks. blocks ≡ spelling (record { number = 1; item = Ranges keys }) ∷ []) }
{
    let record = MetaRecord {
        number: 1,
        item: MetaItem::Ranges { keys },
    };
    ready(alloc, &record)
}

/// The record of some indexes and regions.
fn regions_append(
    alloc: Global,
    indexes: Vec<IndexRange>,
    regions: Vec<Region>,
) -> Result<Appending, AllocError>
    requires { specs.are_record_parts indexes.items regions.items ≡ true }
    ensures { IfOk result (λ blocks. blocks ≡ spelling (record { number = 2; item = RegionsItem indexes.items regions.items }) ∷ []) }
{
    let record = MetaRecord {
        number: 2,
        item: MetaItem::Regions {
            indexes: IndexRanges { items: indexes },
            regions: Regions { items: regions },
        },
    };
    ready(alloc, &record)
}

/// The record of the new range's keys, if it can be written.
fn keys_record(
    alloc: Global,
    left: &RangeState,
    right: &RangeState,
) -> Result<Option<Appending>, AllocError>
    ensures some { IfOk result (λ made. IfSome made (λ blocks. (specs.may_say_keys left.now right.now ≡ true) × (blocks ≡ spelling (specs.keys_record left.now right.now) ∷ []))) }
    ensures none { IfOk result (λ made. IfNone made (specs.may_say_keys left.now right.now ≡ false)) }
{
    let keys = joined_keys(&left.content.said.keys, &right.content.said.keys)?;
    if !are_record_keys(&keys) {
        return Ok(None);
    }
    Ok(Some(keys_append(alloc, keys)?))
}

/// The region of the new range itself, which begins at this index.
fn open_region(index: u64, left: &KeyRange, right: &KeyRange) -> Result<Region, AllocError>
    ensures { IfOk result (λ made. made ≡ record { start = record { index = index; offset = 0 }; end = None; next = 1; keys = record { low = left.now.low; high = right.now.high } }) }
{
    Ok(Region {
        start: Position { index, offset: 0 },
        end: None,
        next: 1,
        keys: joined_keys(left, right)?,
    })
}

/// The indexes of the left range, and then those of the right one, the oldest of each first. An error is out of memory (22).
fn joined_indexes(
    alloc: Global,
    left: &RangeState,
    right: &RangeState,
) -> Result<Vec<IndexRange>, AllocError>
    ensures { IfOk result (λ made. made.items ≡ specs.joined_indexes left.now right.now) }
{
    let mut made = cut_indexes(alloc, &left.content.said)?;
    let mut others = cut_indexes(alloc, &right.content.said)?;
    made.append(&mut others)?;
    Ok(made)
}

/// The left regions, the right ones behind them, and the open one, if all their indexes have 64 bits. An error is out of memory (22).
fn joined_regions(
    alloc: Global,
    left: &RangeState,
    right: &RangeState,
) -> Result<Option<Vec<Region>>, AllocError>
    ensures some { IfOk result (λ made. IfSome made (λ x. x.items ≡ specs.joined_regions left.now right.now)) }
    ensures none { IfOk result (λ made. IfNone made (list_all specs.is_record_region (specs.joined_regions left.now right.now) ≡ false)) }
{
    let said = &right.content.said;
    let log = &right.content.log;
    let Some(first) = log_end(&left.content.log) else {
        return Ok(None);
    };
    let Some(end) = first.checked_add(log.extents.len() as u64) else {
        return Ok(None);
    };
    let base = left.content.log.base;
    let Some(mut made) = closed_regions(alloc, &left.content.said, &left.content.log, base)? else {
        return Ok(None);
    };
    let Some(mut others) = closed_regions(alloc, said, log, first)? else {
        return Ok(None);
    };
    made.append(&mut others)?;
    made.push(open_region(end, &left.content.said.keys, &said.keys)?)?;
    Ok(Some(made))
}

/// The record of the new range's indexes and regions, if it can be written.
fn regions_record(
    alloc: Global,
    left: &RangeState,
    right: &RangeState,
) -> Result<Option<Appending>, AllocError>
    ensures some { IfOk result (λ made. IfSome made (λ blocks. (specs.may_say_regions left.now right.now ≡ true) × (blocks ≡ spelling (specs.regions_record left.now right.now) ∷ []))) }
    ensures none { IfOk result (λ made. IfNone made (specs.may_say_regions left.now right.now ≡ false)) }
{
    let indexes = joined_indexes(alloc, left, right)?;
    let Some(regions) = joined_regions(alloc, left, right)? else {
        return Ok(None);
    };
    if !are_record_parts(&indexes, &regions) {
        return Ok(None);
    }
    Ok(Some(regions_append(alloc, indexes, regions)?))
}

/// A record of the new range, ready to be appended, if it can be written. An error is out of memory (22).
pub(crate) fn record_of(
    alloc: Global,
    left: &RangeState,
    right: &RangeState,
    what: MergeRecord,
) -> Result<Option<Appending>, AllocError>
    ensures some { IfOk result (λ made. IfSome made (λ blocks. (rules.may_write left.now right.now what ≡ true) × (blocks ≡ spelling (rules.record_of left.now right.now what) ∷ []))) }
    ensures none { IfOk result (λ made. IfNone made (rules.may_write left.now right.now what ≡ false)) }
{
    match what {
        MergeRecord::Keys => keys_record(alloc, left, right),
        MergeRecord::Regions => regions_record(alloc, left, right),
    }
}
