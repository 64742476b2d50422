//! Writing a record as bytes. Each writer appends what its clause says; where one runs out of memory, a part of it
//! may stand in the buffer, so `encode` writes into a buffer of its own.
ghost use Rattle.std.specs.Prelude.{◌≡◌, ◌∷◌, [], ◌++◌, ◌<◌, ◌^◌, ◌≤◌, length, IfOk, OnOk};
ghost use Rattle.blocks.specs.Record.{number};
ghost use Rattle.metadata.specs.Record.{text, high, keys, place, position, flag, index, end, region, counted, item, spelling, IsHigh, IsKeyRange, IsIndex, IsRegion, IsItem, Fits};
ghost use Rattle.std.specs.List.{AllByRecursion};

use crate::record::{IndexRange, KeyRange, MetaItem, MetaRecord, Region};
use block_types::{Group, Memory};
use blocks::writer::{put_bytes, put_u8, put_u16, put_u32, put_u64};
use bytes::Bytes;
use memtable::Place;
use std::alloc::{AllocError, Global};
use streams::Position;

fn put_text(out: &mut Vec<u8>, key: &[u8]) -> Result<(), AllocError>
    requires { length key.now ≤ 256 }
    ensures { OnOk result (out.new.items ≡ out.old.items ++ text key.now) }
{
    put_u16(out, key.len() as u16)?;
    put_bytes(out, key)
}

fn put_high(out: &mut Vec<u8>, last: &Option<Bytes>) -> Result<(), AllocError>
    requires { IsHigh last.now }
    ensures { OnOk result (out.new.items ≡ out.old.items ++ high last.now) }
{
    match last {
        None => {
            put_u8(out, 0)?;
            put_u16(out, 0)
        }
        Some(key) => {
            put_u8(out, 1)?;
            put_text(out, key.as_slice())
        }
    }
}

fn put_keys(out: &mut Vec<u8>, range: &KeyRange) -> Result<(), AllocError>
    requires { IsKeyRange range.now }
    ensures { OnOk result (out.new.items ≡ out.old.items ++ keys range.now) }
{
    put_text(out, range.low.as_slice())?;
    put_high(out, &range.high)
}

fn put_place(out: &mut Vec<u8>, at: &Place) -> Result<(), AllocError>
    ensures { OnOk result (out.new.items ≡ out.old.items ++ place at.now) }
{
    put_u64(out, at.extent.0)?;
    put_u32(out, at.offset)?;
    put_u32(out, at.length)
}

fn put_position(out: &mut Vec<u8>, at: &Position) -> Result<(), AllocError>
    ensures { OnOk result (out.new.items ≡ out.old.items ++ position at.now) }
{
    put_u64(out, at.index)?;
    put_u32(out, at.offset)
}

fn put_flag(out: &mut Vec<u8>, is: bool) -> Result<(), AllocError>
    ensures { OnOk result (out.new.items ≡ out.old.items ++ flag is) }
{
    if is { put_u8(out, 1) } else { put_u8(out, 0) }
}

fn put_index(out: &mut Vec<u8>, written: &IndexRange) -> Result<(), AllocError>
    requires { IsIndex written.now }
    ensures { OnOk result (out.new.items ≡ out.old.items ++ index written.now) }
{
    put_place(out, &written.place)?;
    put_keys(out, &written.keys)
}

fn put_end(out: &mut Vec<u8>, upto: &Option<u64>) -> Result<(), AllocError>
    ensures { OnOk result (out.new.items ≡ out.old.items ++ end upto.now) }
{
    match upto {
        None => {
            put_u8(out, 0)?;
            put_u64(out, 0)
        }
        Some(index) => {
            put_u8(out, 1)?;
            put_u64(out, *index)
        }
    }
}

fn put_region(out: &mut Vec<u8>, written: &Region) -> Result<(), AllocError>
    requires { IsRegion written.now }
    ensures { OnOk result (out.new.items ≡ out.old.items ++ region written.now) }
{
    put_position(out, &written.start)?;
    put_end(out, &written.end)?;
    put_u64(out, written.next)?;
    put_keys(out, &written.keys)
}

fn put_indexes(out: &mut Vec<u8>, all: &[IndexRange]) -> Result<(), AllocError>
    requires few { length all.now < 2 ^ 8 }
    requires fit { AllByRecursion IsIndex all.now }
    ensures { OnOk result (out.new.items ≡ out.old.items ++ counted index all.now) }
{
    put_u8(out, all.len() as u8)?;
    for one in all {
        put_index(out, one)?;
    }
    Ok(())
}

fn put_regions(out: &mut Vec<u8>, all: &[Region]) -> Result<(), AllocError>
    requires few { length all.now < 2 ^ 8 }
    requires fit { AllByRecursion IsRegion all.now }
    ensures { OnOk result (out.new.items ≡ out.old.items ++ counted region all.now) }
{
    put_u8(out, all.len() as u8)?;
    for one in all {
        put_region(out, one)?;
    }
    Ok(())
}

fn put_item(out: &mut Vec<u8>, written: &MetaItem) -> Result<(), AllocError>
    requires { IsItem written.now }
    ensures { OnOk result (out.new.items ≡ out.old.items ++ item written.now) }
{
    match written {
        MetaItem::Ranges { keys } => {
            put_u8(out, 1)?;
            put_keys(out, keys)
        }
        MetaItem::Checkpoint {
            combine,
            index,
            position,
            next,
        } => {
            put_u8(out, 2)?;
            put_flag(out, *combine)?;
            put_place(out, index)?;
            put_position(out, position)?;
            put_u64(out, *next)
        }
        MetaItem::Regions { indexes, regions } => {
            put_u8(out, 3)?;
            put_indexes(out, &indexes.items)?;
            put_regions(out, &regions.items)
        }
        MetaItem::SplitStatus { low, high, key } => {
            put_u8(out, 4)?;
            put_u64(out, low.0)?;
            put_u64(out, high.0)?;
            put_text(out, key.as_slice())
        }
    }
}

/// The one spelling of a record, as a group of one block. An error is out of memory (22).
///
/// That the record fits is the caller's condition: its fields are in range, and its spelling is no longer than a block.
pub fn encode(alloc: Global, written: &MetaRecord) -> Result<Group, Memory>
    requires { Fits written.now }
    ensures { IfOk result (λ group. group ≡ spelling written.now ∷ []) }
{
    let mut bytes = Vec::new(alloc);
    put_u64(&mut bytes, written.number)?;
    put_item(&mut bytes, &written.item)?;
    let mut blocks = Vec::new(alloc);
    blocks.push(Bytes::from_vec(bytes)?)?;
    Ok(Group::of(blocks)?)
}
