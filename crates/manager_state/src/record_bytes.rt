//! The records of the manager, as bytes (docs/FORMATS.md).
ghost use Rattle.std.specs.Prelude.{◌≡◌, ◌∷◌, ◌++◌, IfOk, OnOk};
ghost use Rattle.blocks.specs.Format.{Gives};
ghost use Rattle.blocks.specs.Reading.{nodes_at};
ghost use Rattle.blocks.specs.Record.{number, nodes};
ghost use Rattle.manager_state.specs.RecordBytes.{CanSpell};
ghost use Rattle.model_streams.specs.RecordBytes.{spelled, stream_name, flag, record_of, kind_number, kind_at, first_at, create_at, open_at, extend_at, seal_at, flag_at, trim_at, fields_at};

use crate::modify_bytes::{multi_modify_at, put_multi_modify};
use block_types::{BlockFault, MAX_NODE, MAX_TARGET, MIN_TARGET, Nodes};
use blocks::reader::{ended, u8_at, u32_at, u64_at};
use blocks::writer::{put_u8, put_u32, put_u64};
use bytes::Bytes;
use model_streams::ManagerRecord;
use std::alloc::{AllocError, Global};
use wire::{ExtentId, Fence, RangeId, StreamKind, StreamName};

// ---- writing

fn number_of(kind: StreamKind) -> u8
    ensures { result ≡ kind_number kind }
{
    match kind {
        StreamKind::Metadata => 0,
        StreamKind::Log => 1,
        StreamKind::RowData => 2,
        StreamKind::BlobData => 3,
    }
}

pub(crate) fn put_stream(out: &mut Vec<u8>, stream: &StreamName) -> Result<(), AllocError>
    ensures { OnOk result (out.new.items ≡ out.old.items ++ stream_name stream.now) }
{
    put_u64(out, stream.range.0)?;
    put_u8(out, number_of(stream.kind))
}

fn put_nodes(out: &mut Vec<u8>, places: &Nodes) -> Result<(), AllocError>
    ensures { OnOk result (out.new.items ≡ out.old.items ++ nodes places.now) }
{
    put_u8(out, places.primary)?;
    put_u8(out, places.second)?;
    put_u8(out, places.third)
}

fn put_first(out: &mut Vec<u8>, nodes: u8, target: u32) -> Result<(), AllocError>
    ensures { OnOk result (out.new.items ≡ out.old.items ++ 1 ∷ nodes ∷ number 4 target) }
{
    put_u8(out, 1)?;
    put_u8(out, nodes)?;
    put_u32(out, target)
}

fn put_create(out: &mut Vec<u8>, stream: &StreamName, fence: u64) -> Result<(), AllocError>
    ensures { OnOk result (out.new.items ≡ out.old.items ++ 2 ∷ (stream_name stream.now ++ number 8 fence)) }
{
    put_u8(out, 2)?;
    put_stream(out, stream)?;
    put_u64(out, fence)
}

fn put_open(out: &mut Vec<u8>, range: u64, generation: u64) -> Result<(), AllocError>
    ensures { OnOk result (out.new.items ≡ out.old.items ++ 3 ∷ (number 8 range ++ number 8 generation)) }
{
    put_u8(out, 3)?;
    put_u64(out, range)?;
    put_u64(out, generation)
}

fn put_extend(
    out: &mut Vec<u8>,
    stream: &StreamName,
    generation: u64,
    pick: &Nodes,
) -> Result<(), AllocError>
    ensures { OnOk result (out.new.items ≡ out.old.items ++ 4 ∷ (stream_name stream.now ++ (number 8 generation ++ nodes pick.now))) }
{
    put_u8(out, 4)?;
    put_stream(out, stream)?;
    put_u64(out, generation)?;
    put_nodes(out, pick)
}

fn put_seal(out: &mut Vec<u8>, extent: u64, length: u32) -> Result<(), AllocError>
    ensures { OnOk result (out.new.items ≡ out.old.items ++ 5 ∷ (number 8 extent ++ number 4 length)) }
{
    put_u8(out, 5)?;
    put_u64(out, extent)?;
    put_u32(out, length)
}

fn put_flag(out: &mut Vec<u8>, is_set: bool) -> Result<(), AllocError>
    ensures { OnOk result (out.new.items ≡ out.old.items ++ flag is_set) }
{
    put_u8(out, if is_set { 1 } else { 0 })
}

fn put_trim(out: &mut Vec<u8>, range: u64, before: u64, to_blob: bool) -> Result<(), AllocError>
    ensures { OnOk result (out.new.items ≡ out.old.items ++ 6 ∷ (number 8 range ++ (number 8 before ++ flag to_blob))) }
{
    put_u8(out, 6)?;
    put_u64(out, range)?;
    put_u64(out, before)?;
    put_flag(out, to_blob)
}

/// The bytes of a record (docs/FORMATS.md). An error is out of memory.
pub fn encode(alloc: Global, new_record: &ManagerRecord) -> Result<Bytes, AllocError>
    requires { CanSpell new_record.now }
    ensures { IfOk result (λ bytes. bytes ≡ spelled new_record.now) }
{
    let mut out = Vec::new(alloc);
    match new_record {
        ManagerRecord::First { nodes, target } => put_first(&mut out, *nodes, *target)?,
        ManagerRecord::CreateStream { stream, fence } => { put_create(&mut out, stream, fence.0)? }
        ManagerRecord::OpenStreams { range, generation } => {
            put_open(&mut out, range.0, generation.0)?
        }
        ManagerRecord::Extend {
            stream,
            generation,
            pick,
        } => put_extend(&mut out, stream, generation.0, pick)?,
        ManagerRecord::Seal { extent, length } => put_seal(&mut out, extent.0, *length)?,
        ManagerRecord::Trim {
            range,
            before,
            to_blob,
        } => put_trim(&mut out, range.0, *before, *to_blob)?,
        ManagerRecord::MultiModify { list } => put_multi_modify(&mut out, &list.items)?,
    }
    Ok(Bytes::from_vec(out)?)
}

// ---- reading

pub(crate) fn kind_at(bytes: &[u8]) -> Result<(StreamKind, &[u8]), BlockFault>
    ensures { Gives (λ x. (x.0, x.1.now)) result (kind_at bytes.now) }
{
    match bytes {
        [] => Err(BlockFault::Damaged),
        [byte, rest @ ..] => match *byte {
            0 => Ok((StreamKind::Metadata, rest)),
            1 => Ok((StreamKind::Log, rest)),
            2 => Ok((StreamKind::RowData, rest)),
            3 => Ok((StreamKind::BlobData, rest)),
            _ => Err(BlockFault::Damaged),
        },
    }
}

pub(crate) fn named(range: u64, kind: StreamKind) -> StreamName
    ensures { result ≡ record { range = range; kind = kind } }
{
    StreamName {
        range: RangeId(range),
        kind,
    }
}

#[tactic(auto, unfolding(blocks::specs::Reading::nodes_at))]
fn nodes_at(bytes: &[u8]) -> Result<(Nodes, &[u8]), BlockFault>
    ensures { Gives (λ x. (x.0, x.1.now)) result (nodes_at bytes.now) }
{
    match bytes {
        [primary, second, third, rest @ ..] => {
            let nodes = Nodes {
                primary: *primary,
                second: *second,
                third: *third,
            };
            if nodes.are_distinct_nodes() {
                Ok((nodes, rest))
            } else {
                Err(BlockFault::Damaged)
            }
        }
        _ => Err(BlockFault::Damaged),
    }
}

/// The record of kind 1 in its fields.
#[tactic(auto, unfolding(model_streams::specs::RecordBytes::first_at))]
fn first_at(fields: &[u8]) -> Result<ManagerRecord, BlockFault>
    ensures { Gives (λ r. r) result (first_at fields.now) }
{
    let (nodes, rest) = u8_at(fields)?;
    if !(3..=MAX_NODE).contains(&nodes) {
        return Err(BlockFault::Damaged);
    }
    let (target, rest) = u32_at(rest)?;
    if !(MIN_TARGET..=MAX_TARGET).contains(&target) {
        return Err(BlockFault::Damaged);
    }
    ended(ManagerRecord::First { nodes, target }, rest)
}

#[tactic(auto, unfolding(model_streams::specs::RecordBytes::create_at, model_streams::specs::RecordBytes::stream_at))]
fn create_at(fields: &[u8]) -> Result<ManagerRecord, BlockFault>
    ensures { Gives (λ r. r) result (create_at fields.now) }
{
    let (range, rest) = u64_at(fields)?;
    let (kind, rest) = kind_at(rest)?;
    let (fence, rest) = u64_at(rest)?;
    let read = ManagerRecord::CreateStream {
        stream: named(range, kind),
        fence: Fence(fence),
    };
    ended(read, rest)
}

#[tactic(auto, unfolding(model_streams::specs::RecordBytes::open_at))]
fn open_at(fields: &[u8]) -> Result<ManagerRecord, BlockFault>
    ensures { Gives (λ r. r) result (open_at fields.now) }
{
    let (range, rest) = u64_at(fields)?;
    let (generation, rest) = u64_at(rest)?;
    let read = ManagerRecord::OpenStreams {
        range: RangeId(range),
        generation: Fence(generation),
    };
    ended(read, rest)
}

#[tactic(auto, unfolding(model_streams::specs::RecordBytes::extend_at, model_streams::specs::RecordBytes::stream_at))]
fn extend_at(fields: &[u8]) -> Result<ManagerRecord, BlockFault>
    ensures { Gives (λ r. r) result (extend_at fields.now) }
{
    let (range, rest) = u64_at(fields)?;
    let (kind, rest) = kind_at(rest)?;
    let (generation, rest) = u64_at(rest)?;
    let (pick, rest) = nodes_at(rest)?;
    let read = ManagerRecord::Extend {
        stream: named(range, kind),
        generation: Fence(generation),
        pick,
    };
    ended(read, rest)
}

#[tactic(auto, unfolding(model_streams::specs::RecordBytes::seal_at))]
fn seal_at(fields: &[u8]) -> Result<ManagerRecord, BlockFault>
    ensures { Gives (λ r. r) result (seal_at fields.now) }
{
    let (extent, rest) = u64_at(fields)?;
    let (length, rest) = u32_at(rest)?;
    let read = ManagerRecord::Seal {
        extent: ExtentId(extent),
        length,
    };
    ended(read, rest)
}

fn flag_at(bytes: &[u8]) -> Result<(bool, &[u8]), BlockFault>
    ensures { Gives (λ x. (x.0, x.1.now)) result (flag_at bytes.now) }
{
    match bytes {
        [] => Err(BlockFault::Damaged),
        [byte, rest @ ..] => match *byte {
            0 => Ok((false, rest)),
            1 => Ok((true, rest)),
            _ => Err(BlockFault::Damaged),
        },
    }
}

#[tactic(auto, unfolding(model_streams::specs::RecordBytes::trim_at))]
fn trim_at(fields: &[u8]) -> Result<ManagerRecord, BlockFault>
    ensures { Gives (λ r. r) result (trim_at fields.now) }
{
    let (range, rest) = u64_at(fields)?;
    let (before, rest) = u64_at(rest)?;
    let (to_blob, rest) = flag_at(rest)?;
    let read = ManagerRecord::Trim {
        range: RangeId(range),
        before,
        to_blob,
    };
    ended(read, rest)
}

#[tactic(auto, unfolding(model_streams::specs::RecordBytes::fields_at))]
fn fields_at(alloc: Global, kind: u8, fields: &[u8]) -> Result<ManagerRecord, BlockFault>
    ensures { Gives (λ r. r) result (fields_at kind fields.now) }
{
    match kind {
        1 => first_at(fields),
        2 => create_at(fields),
        3 => open_at(fields),
        4 => extend_at(fields),
        5 => seal_at(fields),
        6 => trim_at(fields),
        7 => multi_modify_at(alloc, fields),
        _ => Err(BlockFault::Damaged),
    }
}

/// The record that bytes spell.
#[tactic(auto, unfolding(model_streams::specs::RecordBytes::record_of))]
pub(crate) fn decode(alloc: Global, text: &[u8]) -> Result<ManagerRecord, BlockFault>
    ensures { Gives (λ r. r) result (record_of text.now) }
{
    match text {
        [] => Err(BlockFault::Damaged),
        [kind, fields @ ..] => fields_at(alloc, *kind, fields),
    }
}
