//! The indexes and the regions of two ranges that are merged.
ghost use Rattle.std.specs.Prelude.{◌≡◌, ◌^◌, false, map, nat_lt, IfOk, IfSome, IfNone};
ghost use Rattle.std.specs.List.{list_all};
ghost use Rattle.model_partition.specs.JoinedRanges as specs;

use crate::key_ranges::meet;
use client::StreamClient;
use metadata::{IndexRange, KeyRange, Metadata, Region};
use std::alloc::{AllocError, Global};
use streams::Position;

fn cut_index(keys: &KeyRange, index: &IndexRange) -> Result<IndexRange, AllocError>
    ensures { IfOk result (λ made. made ≡ specs.cut_index keys.now index.now) }
{
    Ok(IndexRange {
        place: index.place,
        keys: meet(&index.keys, keys)?,
    })
}

fn all_cut(
    alloc: Global,
    keys: &KeyRange,
    all: &[IndexRange],
) -> Result<Vec<IndexRange>, AllocError>
    ensures { IfOk result (λ made. made.items ≡ map (specs.cut_index keys.now) all.now) }
{
    let mut made = Vec::with_capacity(alloc, all.len())?;
    for one in all {
        made.push(cut_index(keys, one)?)?;
    }
    Ok(made)
}

/// The indexes of a range, the oldest first, each with what its keys have in common with the range's. An error is out of memory (22).
pub(crate) fn cut_indexes(alloc: Global, said: &Metadata) -> Result<Vec<IndexRange>, AllocError>
    ensures { IfOk result (λ made. made.items ≡ specs.cut_indexes said.now) }
{
    let mut made = all_cut(alloc, &said.keys, &said.indexes.items)?;
    made.reverse();
    Ok(made)
}

/// The index behind the last extent of a log, if it has 64 bits.
pub(crate) fn log_end(log: &StreamClient) -> Option<u64>
    ensures some { IfSome result (λ end. end ≡ specs.log_end log.now) }
    ensures none { IfNone result (nat_lt (specs.log_end log.now) (2 ^ 64) ≡ false) }
{
    log.base.checked_add(log.extents.len() as u64)
}

/// The index that an extent gets where those of its log begin at `first`, if it has 64 bits.
fn moved(log: &StreamClient, first: u64, index: u64) -> Option<u64>
    ensures some { IfSome result (λ to. to ≡ specs.moved log.now first index) }
    ensures none { IfNone result (nat_lt (specs.moved log.now first index) (2 ^ 64) ≡ false) }
{
    first.checked_add(index.saturating_sub(log.base))
}

/// The same of a region's end, which is the log's where it has none.
fn moved_end(log: &StreamClient, first: u64, end: &Option<u64>) -> Option<u64>
    ensures some { IfSome result (λ to. to ≡ specs.moved log.now first (specs.closed_end log.now end.now)) }
    ensures none { IfNone result (nat_lt (specs.moved log.now first (specs.closed_end log.now end.now)) (2 ^ 64) ≡ false) }
{
    match end {
        None => first.checked_add(log.extents.len() as u64),
        Some(upto) => moved(log, first, *upto),
    }
}

/// A region of a log whose extents begin at `first`, closed, if its indexes have 64 bits.
fn closed_region(
    keys: &KeyRange,
    log: &StreamClient,
    first: u64,
    region: &Region,
) -> Result<Option<Region>, AllocError>
    ensures some { IfOk result (λ made. IfSome made (λ x. x ≡ specs.closed_region keys.now log.now first region.now)) }
    ensures none { IfOk result (λ made. IfNone made (specs.is_record_region (specs.closed_region keys.now log.now first region.now) ≡ false)) }
{
    let Some(index) = moved(log, first, region.start.index) else {
        return Ok(None);
    };
    let Some(end) = moved_end(log, first, &region.end) else {
        return Ok(None);
    };
    Ok(Some(Region {
        start: Position {
            index,
            offset: region.start.offset,
        },
        end: Some(end),
        next: region.next,
        keys: meet(&region.keys, keys)?,
    }))
}

fn all_closed(
    alloc: Global,
    keys: &KeyRange,
    log: &StreamClient,
    first: u64,
    all: &[Region],
) -> Result<Option<Vec<Region>>, AllocError>
    ensures some { IfOk result (λ made. IfSome made (λ x. x.items ≡ map (specs.closed_region keys.now log.now first) all.now)) }
    ensures none { IfOk result (λ made. IfNone made (list_all specs.is_record_region (map (specs.closed_region keys.now log.now first) all.now) ≡ false)) }
{
    let mut made = Vec::with_capacity(alloc, all.len())?;
    for one in all {
        match closed_region(keys, log, first, one)? {
            None => return Ok(None),
            Some(region) => made.push(region)?,
        }
    }
    Ok(Some(made))
}

/// The regions of a range, closed, whose log begins at `first`, if their indexes have 64 bits. An error is out of memory (22).
pub(crate) fn closed_regions(
    alloc: Global,
    said: &Metadata,
    log: &StreamClient,
    first: u64,
) -> Result<Option<Vec<Region>>, AllocError>
    ensures some { IfOk result (λ made. IfSome made (λ x. x.items ≡ specs.closed_regions said.now log.now first)) }
    ensures none { IfOk result (λ made. IfNone made (list_all specs.is_record_region (specs.closed_regions said.now log.now first) ≡ false)) }
{
    all_closed(alloc, &said.keys, log, first, &said.regions.items)
}
