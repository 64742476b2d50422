//! The records of the map, as bytes (docs/FORMATS.md).
ghost use Rattle.std.specs.Prelude.{◌≡◌, ◌≤◌, ◌∷◌, ◌++◌, length, IfOk, OnOk};
ghost use Rattle.blocks.specs.Format.{Gives};
ghost use Rattle.blocks.specs.Record.{number};
ghost use Rattle.commitlog.specs.Reading.{counted_at};
ghost use Rattle.commitlog.specs.Record.{key_bytes};
ghost use Rattle.block_types.specs.Limits.{is_within};
ghost use Rattle.model_partition.specs.RecordBytes.{HasShortKey, spelled, assign_at, renew_at, begin_split_at, complete_split_at, begin_merge_at, complete_merge_at, split_fields_at, merge_fields_at, fields_at, record_of};

use block_types::BlockFault;
use blocks::reader::{bytes_of, ended, u8_at, u16_at, u64_at};
use blocks::writer::{put_bytes, put_u8, put_u16, put_u64};
use bytes::Bytes;
use memtable::MAX_KEY;
use model_partition::MapRecord;
use std::alloc::{AllocError, Global};
use wire::{RangeId, ServerNo};

// ---- writing

fn put_assign(out: &mut Vec<u8>, range: u64, server: u8, until: u64) -> Result<(), AllocError>
    ensures { OnOk result (out.new.items ≡ out.old.items ++ 16 ∷ (number 8 range ++ server ∷ number 8 until)) }
{
    put_u8(out, 16)?;
    put_u64(out, range)?;
    put_u8(out, server)?;
    put_u64(out, until)
}

fn put_renew(out: &mut Vec<u8>, range: u64, until: u64) -> Result<(), AllocError>
    ensures { OnOk result (out.new.items ≡ out.old.items ++ 17 ∷ (number 8 range ++ number 8 until)) }
{
    put_u8(out, 17)?;
    put_u64(out, range)?;
    put_u64(out, until)
}

fn put_begin_split(out: &mut Vec<u8>, range: u64, key: &[u8]) -> Result<(), AllocError>
    requires { length key.now ≤ 256 }
    ensures { OnOk result (out.new.items ≡ out.old.items ++ 18 ∷ (number 8 range ++ key_bytes key.now)) }
{
    put_u8(out, 18)?;
    put_u64(out, range)?;
    put_u16(out, key.len() as u16)?;
    put_bytes(out, key)
}

fn put_complete_split(out: &mut Vec<u8>, range: u64) -> Result<(), AllocError>
    ensures { OnOk result (out.new.items ≡ out.old.items ++ 19 ∷ number 8 range) }
{
    put_u8(out, 19)?;
    put_u64(out, range)
}

/// A record of two ranges.
fn put_pair(out: &mut Vec<u8>, kind: u8, left: u64, right: u64) -> Result<(), AllocError>
    ensures { OnOk result (out.new.items ≡ out.old.items ++ kind ∷ (number 8 left ++ number 8 right)) }
{
    put_u8(out, kind)?;
    put_u64(out, left)?;
    put_u64(out, right)
}

/// The bytes of a record, at most 267 of them (docs/FORMATS.md). An error is out of memory.
pub fn encode(alloc: Global, new_record: &MapRecord) -> Result<Bytes, AllocError>
    requires { HasShortKey new_record.now }
    ensures { IfOk result (λ bytes. bytes ≡ spelled new_record.now) }
{
    let mut out = Vec::new(alloc);
    match new_record {
        MapRecord::Assign {
            range,
            server,
            until,
        } => put_assign(&mut out, range.0, server.0, *until)?,
        MapRecord::Renew { range, until } => put_renew(&mut out, range.0, *until)?,
        MapRecord::BeginSplit { range, key } => put_begin_split(&mut out, range.0, key)?,
        MapRecord::CompleteSplit { range } => put_complete_split(&mut out, range.0)?,
        MapRecord::BeginMerge { left, right } => put_pair(&mut out, 20, left.0, right.0)?,
        MapRecord::CompleteMerge { left, right } => put_pair(&mut out, 21, left.0, right.0)?,
    }
    Ok(Bytes::from_vec(out)?)
}

// ---- reading

/// The record of kind 16 in its fields.
#[tactic(auto, unfolding(model_partition::specs::RecordBytes::assign_at))]
fn assign_at(fields: &[u8]) -> Result<MapRecord, BlockFault>
    ensures { Gives (λ r. r) result (assign_at fields.now) }
{
    let (range, rest) = u64_at(fields)?;
    let (server, rest) = u8_at(rest)?;
    let (until, rest) = u64_at(rest)?;
    let read = MapRecord::Assign {
        range: RangeId(range),
        server: ServerNo(server),
        until,
    };
    ended(read, rest)
}

/// The record of kind 17 in its fields.
#[tactic(auto, unfolding(model_partition::specs::RecordBytes::renew_at))]
fn renew_at(fields: &[u8]) -> Result<MapRecord, BlockFault>
    ensures { Gives (λ r. r) result (renew_at fields.now) }
{
    let (range, rest) = u64_at(fields)?;
    let (until, rest) = u64_at(rest)?;
    let read = MapRecord::Renew {
        range: RangeId(range),
        until,
    };
    ended(read, rest)
}

/// A key behind its length, and the bytes after it.
#[tactic(auto, unfolding(commitlog::specs::Reading::counted_at))]
fn key_of(bytes: &[u8]) -> Result<(&[u8], &[u8]), BlockFault>
    ensures { Gives (λ x. (x.0.now, x.1.now)) result (counted_at 2 (is_within 1 256) bytes.now) }
{
    let Ok((len, rest)) = u16_at(bytes) else {
        return Err(BlockFault::Damaged);
    };
    if !(1..=MAX_KEY).contains(&(len as usize)) {
        return Err(BlockFault::Damaged);
    }
    bytes_of(len as usize, rest)
}

/// The record of kind 18 in its fields. The key is copied.
#[tactic(auto, unfolding(model_partition::specs::RecordBytes::begin_split_at))]
fn begin_split_at(alloc: Global, fields: &[u8]) -> Result<MapRecord, BlockFault>
    ensures { Gives (λ r. r) result (begin_split_at fields.now) }
{
    let (range, rest) = u64_at(fields)?;
    let (key, rest) = key_of(rest)?;
    if !rest.is_empty() {
        return Err(BlockFault::Damaged);
    }
    Ok(MapRecord::BeginSplit {
        range: RangeId(range),
        key: Bytes::copy_from_slice(alloc, key)?,
    })
}

/// The record of kind 19 in its fields.
#[tactic(auto, unfolding(model_partition::specs::RecordBytes::complete_split_at))]
fn complete_split_at(fields: &[u8]) -> Result<MapRecord, BlockFault>
    ensures { Gives (λ r. r) result (complete_split_at fields.now) }
{
    let (range, rest) = u64_at(fields)?;
    let read = MapRecord::CompleteSplit {
        range: RangeId(range),
    };
    ended(read, rest)
}

/// The record of kind 20 in its fields.
#[tactic(auto, unfolding(model_partition::specs::RecordBytes::begin_merge_at))]
fn begin_merge_at(fields: &[u8]) -> Result<MapRecord, BlockFault>
    ensures { Gives (λ r. r) result (begin_merge_at fields.now) }
{
    let (left, rest) = u64_at(fields)?;
    let (right, rest) = u64_at(rest)?;
    let read = MapRecord::BeginMerge {
        left: RangeId(left),
        right: RangeId(right),
    };
    ended(read, rest)
}

/// The record of kind 21 in its fields.
#[tactic(auto, unfolding(model_partition::specs::RecordBytes::complete_merge_at))]
fn complete_merge_at(fields: &[u8]) -> Result<MapRecord, BlockFault>
    ensures { Gives (λ r. r) result (complete_merge_at fields.now) }
{
    let (left, rest) = u64_at(fields)?;
    let (right, rest) = u64_at(rest)?;
    let read = MapRecord::CompleteMerge {
        left: RangeId(left),
        right: RangeId(right),
    };
    ended(read, rest)
}

#[tactic(auto, unfolding(model_partition::specs::RecordBytes::split_fields_at))]
fn split_fields_at(alloc: Global, kind: u8, fields: &[u8]) -> Result<MapRecord, BlockFault>
    ensures { Gives (λ r. r) result (split_fields_at kind fields.now) }
{
    match kind {
        18 => begin_split_at(alloc, fields),
        19 => complete_split_at(fields),
        _ => Err(BlockFault::Damaged),
    }
}

#[tactic(auto, unfolding(model_partition::specs::RecordBytes::merge_fields_at))]
fn merge_fields_at(alloc: Global, kind: u8, fields: &[u8]) -> Result<MapRecord, BlockFault>
    ensures { Gives (λ r. r) result (merge_fields_at kind fields.now) }
{
    match kind {
        20 => begin_merge_at(fields),
        21 => complete_merge_at(fields),
        _ => split_fields_at(alloc, kind, fields),
    }
}

#[tactic(auto, unfolding(model_partition::specs::RecordBytes::fields_at))]
fn fields_at(alloc: Global, kind: u8, fields: &[u8]) -> Result<MapRecord, BlockFault>
    ensures { Gives (λ r. r) result (fields_at kind fields.now) }
{
    match kind {
        16 => assign_at(fields),
        17 => renew_at(fields),
        _ => merge_fields_at(alloc, kind, fields),
    }
}

/// The record that bytes spell.
#[tactic(auto, unfolding(model_partition::specs::RecordBytes::record_of))]
pub(crate) fn decode(alloc: Global, text: &[u8]) -> Result<MapRecord, BlockFault>
    ensures { Gives (λ r. r) result (record_of text.now) }
{
    match text {
        [] => Err(BlockFault::Damaged),
        [kind, fields @ ..] => fields_at(alloc, *kind, fields),
    }
}
