//! What no clause says: that calls succeed where there is memory, the bytes of a record of each kind, and what is damage.
ghost use Rattle.std.specs.Prelude.{IfOk};
ghost use Rattle.metadata.specs.Record.{Fits};

use crate::groups::{group_of, has_blocks};
use block_types::BlockFault;
use bytes::Bytes;
use memtable::Place;
use metadata::{
    IndexRange, IndexRanges, KeyRange, MetaItem, MetaRecord, Metadata, Region, Regions, decode,
    encode,
};
use std::alloc::Global;
use std::test::Fail;
use streams::Position;
use wire::ExtentId;

/// The range of all keys, by the record of number 1.
const ALL_KEYS: &[u8] = &[0, 0, 0, 0, 0, 0, 0, 1, 1, 0, 0, 0, 0, 0];

/// A checkpoint that takes the place of those before it, by the record of number 2.
const CHECKPOINT: &[u8] = &[
    0, 0, 0, 0, 0, 0, 0, 2, 2, 1, 0, 0, 0, 0, 0, 0, 0, 3, 0, 0, 0, 11, 0, 0, 0, 28, 0, 0, 0, 0, 0,
    0, 0, 2, 0, 0, 0, 24, 0, 0, 0, 0, 0, 0, 0, 3,
];

const SPELLED: Result<bool, BlockFault> = Ok(true);

const DAMAGED: Result<bool, BlockFault> = Err(BlockFault::Damaged);

/// A record of each kind: two of keys, a checkpoint, one of regions with their indexes, and a split. Then none: as `ALL_KEYS`,
/// with number 0, a byte left over, no such kind, and a last key that is told to be absent.
const READINGS: &[(&[u8], Result<bool, BlockFault>)] = &[
    (ALL_KEYS, SPELLED),
    (&[0, 0, 0, 0, 0, 0, 0, 1, 1, 0, 0, 1, 0, 1, b'm'], SPELLED),
    (CHECKPOINT, SPELLED),
    (
        &[
            0, 0, 0, 0, 0, 0, 0, 3, 3, 1, 0, 0, 0, 0, 0, 0, 0, 3, 0, 0, 0, 11, 0, 0, 0, 28, 0, 0,
            1, 0, 1, b'm', 1, 0, 0, 0, 0, 0, 0, 0, 1, 0, 0, 0, 2, 1, 0, 0, 0, 0, 0, 0, 0, 5, 0, 0,
            0, 0, 0, 0, 0, 4, 0, 1, b'm', 0, 0, 0,
        ],
        SPELLED,
    ),
    (
        &[
            0, 0, 0, 0, 0, 0, 0, 4, 4, 0, 0, 0, 0, 0, 0, 0, 2, 0, 0, 0, 0, 0, 0, 0, 3, 0, 1, b'm',
        ],
        SPELLED,
    ),
    (&[0, 0, 0, 0, 0, 0, 0, 0, 1, 0, 0, 0, 0, 0], DAMAGED),
    (&[0, 0, 0, 0, 0, 0, 0, 1, 1, 0, 0, 0, 0, 0, 7], DAMAGED),
    (&[0, 0, 0, 0, 0, 0, 0, 1, 5, 0, 0, 0, 0, 0], DAMAGED),
    (&[0, 0, 0, 0, 0, 0, 0, 1, 1, 0, 0, 0, 0, 1, b'm'], DAMAGED),
];

// Here and below much is let go by a call: at the end of its block a value is let go part by part, and each part costs the proof.
fn read(alloc: Global, bytes: &[u8]) -> Result<MetaRecord, BlockFault>
    ensures { IfOk result Fits }
{
    let group = group_of(alloc, &[bytes])?;
    let read = decode(alloc, &group);
    drop(group);
    read
}

/// Whether the record of these bytes is spelled as they are.
fn is_spelled_again(alloc: Global, bytes: &[u8]) -> Result<bool, BlockFault> {
    let record = read(alloc, bytes)?;
    let spelled = encode(alloc, &record);
    drop(record);
    match spelled {
        Ok(group) => Ok(has_blocks(group, &[bytes])),
        Err(_full) => Err(BlockFault::Memory),
    }
}

#[test]
fn each_kind_is_spelled_and_damage_is_refused(rt: HostRuntime) {
    for (bytes, expected) in READINGS {
        assert!(rt; is_spelled_again(rt.alloc(), *bytes) == *expected);
    }
}

fn index() -> Place {
    Place {
        extent: ExtentId(3),
        offset: 11,
        length: 28,
    }
}

fn at(index: u64, offset: u32) -> Position {
    Position { index, offset }
}

fn is_the_checkpoint(record: &MetaRecord) -> bool {
    match &record.item {
        MetaItem::Checkpoint {
            combine,
            index: place,
            position,
            next,
        } => {
            record.number == 2
                && *combine
                && *place == index()
                && *position == at(2, 24)
                && *next == 3
        }
        _ => false,
    }
}

#[test]
fn a_checkpoint_is_read(rt: HostRuntime) -> Result<(), Fail> {
    let record = read(rt.alloc(), CHECKPOINT)?;
    let told = is_the_checkpoint(&record);
    drop(record);
    assert!(rt; told);
    Ok(())
}

/// Whether a record is new, none where it is refused.
fn folds(alloc: Global, metadata: &mut Metadata, number: u64, item: MetaItem) -> Option<bool> {
    metadata.fold(alloc, MetaRecord { number, item }).ok()
}

fn checkpoint(combine: bool, next: u64) -> MetaItem {
    MetaItem::Checkpoint {
        combine,
        index: index(),
        position: at(next, 0),
        next,
    }
}

/// Checkpoints as they come: the record's number, whether it takes the place of those before it, and the next number of the
/// log. Then whether it is new, none where it is refused, and how many indexes are kept.
const FOLDS: [(u64, bool, u64, Option<bool>, usize); 5] = [
    (2, false, 5, None, 0),
    (1, false, 5, Some(true), 1),
    (1, true, 7, Some(false), 1),
    (2, false, 9, Some(true), 2),
    (3, true, 11, Some(true), 1),
];

fn folds_in_order(alloc: Global, metadata: &mut Metadata) -> bool {
    for (number, combine, next, is_new, indexes) in FOLDS {
        if folds(alloc, metadata, number, checkpoint(combine, next)) != is_new
            || metadata.indexes.items.len() != indexes
        {
            return false;
        }
    }
    metadata.next == 4
}

#[test]
fn records_are_folded_in_order(rt: HostRuntime) -> Result<(), Fail> {
    let mut metadata = Metadata::first(rt.alloc())?;
    let told = folds_in_order(rt.alloc(), &mut metadata);
    drop(metadata);
    assert!(rt; told);
    Ok(())
}

fn upto_m() -> KeyRange {
    KeyRange {
        low: Bytes::from_static(b""),
        high: Some(Bytes::from_static(b"m")),
    }
}

fn from_m() -> KeyRange {
    KeyRange {
        low: Bytes::from_static(b"m"),
        high: None,
    }
}

fn one_of_each(alloc: Global) -> Result<MetaItem, Fail> {
    let mut indexes = Vec::new(alloc);
    indexes.push(IndexRange {
        place: index(),
        keys: upto_m(),
    })?;
    let mut regions = Vec::new(alloc);
    regions.push(Region {
        start: at(1, 2),
        end: Some(5),
        next: 4,
        keys: from_m(),
    })?;
    Ok(MetaItem::Regions {
        indexes: IndexRanges { items: indexes },
        regions: Regions { items: regions },
    })
}

fn takes_over(alloc: Global, metadata: &mut Metadata, regions: MetaItem) -> bool {
    folds(alloc, metadata, 1, regions) == Some(true)
        && folds(alloc, metadata, 2, MetaItem::Ranges { keys: from_m() }) == Some(true)
        && metadata.keys.low.as_slice() == b"m".as_slice()
        && metadata.regions.items.len() == 1
}

#[test]
fn regions_and_keys_are_taken_over(rt: HostRuntime) -> Result<(), Fail> {
    let regions = one_of_each(rt.alloc())?;
    let mut metadata = Metadata::first(rt.alloc())?;
    let told = takes_over(rt.alloc(), &mut metadata, regions);
    drop(metadata);
    assert!(rt; told);
    Ok(())
}
