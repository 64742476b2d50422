//! The answers to the read of an index.
ghost use Rattle.std.specs.Prelude.{◌≡◌, true, IfOk, OnErr, option_map};
ghost use Rattle.client.specs.Load.{is_open};
ghost use Rattle.checkpoint_format.specs.Index.{index_at};
ghost use Rattle.model_partition.specs.PlaceReads as reads;
ghost use Rattle.model_partition.specs.Loading as rows;
ghost use Rattle.model_partition.specs.Answering as answers;
ghost use Rattle.model_partition.specs.RangeSteps.{RangePerforms};

use crate::index_reading::{index_named, reads_index_behind};
use block_types::BlockFault;
use bytes::Bytes;
use checkpoint::InstalledIndex;
use checkpoint_format::decode;
use memtable::Place;
use metadata::{IndexRange, KeyRange, copied_keys};
use model_partition::{PlaceRead, Progress, RangeContent, ServerContext, Stage, is_at};
use std::alloc::{AllocError, Global};
use wire::{AppendBody, Body, ExtentId, Packet, ReadBody, Refusal, ReqNo};

/// Whether the read of an index is out under this number.
pub fn reads_under(reading: &Option<PlaceRead>, number: &ReqNo) -> bool
    ensures { result ≡ reads.reads_under reading.now number.now }
{
    match reading {
        None => false,
        Some(read) => read.request == *number,
    }
}

/// Where the index at a position stands, and the keys within which it counts.
fn name_of(indexes: &[IndexRange], position: u64) -> Result<Option<(Place, KeyRange)>, AllocError>
    ensures { IfOk result (λ name. name ≡ option_map (λ index. (index.place, index.keys)) (rows.index_named indexes.now position)) }
{
    match index_named(indexes, position) {
        None => Ok(None),
        Some(index) => Ok(Some((index.place, copied_keys(&index.keys)?))),
    }
}

/// The bytes of the index at the position have come.
fn index_read(
    content: &mut RangeContent,
    alloc: Global,
    context: &ServerContext,
    position: u64,
    bytes: &[u8],
) -> Result<Progress, AllocError>
    requires { is_open content.old.load.phase ≡ true }
    ensures ok { IfOk result (λ p. RangePerforms context.now
        (λ r. rows.installs context.now r position (rows.index_named r.said.indexes position) (index_at bytes.now)) content.old content.new p) }
    ensures err { OnErr result (content.new ≡ content.old) }
{
    let Some((place, keys)) = name_of(&content.said.indexes.items, position)? else {
        return Ok(Progress::Dropped);
    };
    match decode(alloc, bytes) {
        Ok(index) => {
            content
                .indexes
                .install(InstalledIndex { place, keys, index })?;
            Ok(reads_index_behind(content, context, position))
        }
        Err(BlockFault::Damaged) => Ok(Progress::Dropped),
        Err(_full) => Err(AllocError),
    }
}

/// Bytes have come for the read of an index. Those of another place are not what was asked for.
fn index_bytes(
    content: &mut RangeContent,
    alloc: Global,
    context: &ServerContext,
    extent: ExtentId,
    offset: u32,
    bytes: &Bytes,
) -> Result<Progress, AllocError>
    ensures ok { IfOk result (λ p. RangePerforms context.now
        (λ r. rows.index_bytes context.now r r.reading (reads.place_of extent offset bytes.now) bytes.now) content.old content.new p) }
    ensures err { OnErr result (content.new ≡ content.old) }
{
    let Some(read) = content.reading else {
        return Ok(Progress::Rests);
    };
    if !is_at(&read.place, extent, offset, bytes) {
        return Ok(Progress::Rests);
    }
    let stage = content.stage;
    match stage {
        Stage::Indexing { position } => index_read(content, alloc, context, position, bytes),
        _ => Ok(Progress::Rests),
    }
}

/// The answer to the read of an index: the index counts from now on within the keys under which the metadata names it, and
/// the next is read, or the generation is to be confirmed. Bytes of another place change nothing. The range is dropped where
/// the bytes spell no index, or its generation is old (3); another refusal changes nothing. Where memory runs out (22) nothing
/// has changed.
pub fn index_reply(
    content: &mut RangeContent,
    alloc: Global,
    context: &ServerContext,
    packet: &Packet,
) -> Result<Progress, AllocError>
    ensures ok { IfOk result (λ p. RangePerforms context.now (λ r. answers.index_reply context.now r packet.now.body) content.old content.new p) }
    ensures err { OnErr result (content.new ≡ content.old) }
{
    match &packet.body {
        Body::Read(
            ReadBody::Bytes {
                extent,
                offset,
                bytes,
                ..
            },
        ) => index_bytes(content, alloc, context, *extent, *offset, bytes),
        Body::Append(
            AppendBody::Refused {
                refusal: Refusal::Stale,
                ..
            },
        ) => Ok(Progress::Dropped),
        _ => Ok(Progress::Rests),
    }
}
