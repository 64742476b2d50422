//! All is read: the generation is confirmed, and the range is served.
ghost use Rattle.std.specs.Prelude.{◌≡◌, ◌+◌, ◌<◌, ◌^◌, length, true, None, IfOk, OnErr};
ghost use Rattle.client.specs.declared.load.LoadPhase.TheVariants as phases;
ghost use Rattle.client.specs.Client.{last_extent};
ghost use Rattle.client.specs.Load.{is_open, reply_phase};
ghost use Rattle.model_partition.specs.declared.table_note.TableNote.TheVariants as notes;
ghost use Rattle.model_partition.specs.declared.server_context.ServerContext.{ServerContext};
ghost use Rattle.model_partition.specs.Range.{position_le};
ghost use Rattle.model_partition.specs.Loading as rows;
ghost use Rattle.model_partition.specs.RangeSteps.{RangePerforms};

use crate::copying::{copied_installed, live_entries};
use client::StreamClient;
use metadata::copied_keys;
use model_partition::{
    Progress, RangeContent, ServerContext, Service, ShownTable, Stage, TableNote, next_request,
};
use range_replay::open_region;
use std::alloc::{AllocError, Global};
use streams::Position;
use wire::Packet;

fn is_not_behind(one: &Position, other: &Position) -> bool
    ensures { result ≡ position_le one.now other.now }
{
    one.index < other.index || (one.index == other.index && one.offset <= other.offset)
}

/// The end of an extent that is sealed or was checked.
fn end_of(sealed: Option<u32>, checked: Option<u32>) -> u32
    ensures { result ≡ rows.length_or sealed checked }
{
    match sealed {
        Some(length) => length,
        None => checked.unwrap_or(0),
    }
}

/// The end of what was read of the log, from the start of its last region on.
fn log_end(log: &StreamClient, start: &Position) -> Position
    requires { rows.are_counted log.now ≡ true }
    ensures { result ≡ rows.log_end log.now (last_extent log.now.extents) start.now }
{
    match log.last_extent() {
        None => *start,
        Some(extent) => {
            let offset = end_of(extent.length, log.checked);
            let index = log.base + log.extents.len() as u64 - 1;
            let end = Position { index, offset };
            if is_not_behind(&end, start) {
                *start
            } else {
                end
            }
        }
    }
}

/// Whether the indexes of a stream's extents fit 64 bits.
fn are_counted(log: &StreamClient) -> bool
    ensures { result ≡ rows.are_counted log.now }
{
    log.base.checked_add(log.extents.len() as u64).is_some()
}

/// Whether the end of the log is a position.
fn has_position(log: &StreamClient) -> bool
    ensures { result ≡ rows.has_position log.now }
{
    // For the clause: the end of the last extent, if there is one, has 32 bits.
    let _end = log
        .last_extent()
        .map(|extent| end_of(extent.length, log.checked));
    are_counted(log)
}

/// The manager is asked whether the generation is still the fence.
pub(crate) fn confirms(content: &mut RangeContent, context: &ServerContext) -> Progress
    requires { is_open content.old.load.phase ≡ true }
    ensures { RangePerforms context.now (λ r. rows.confirms context.now (record r { reading = None })) content.old content.new result }
{
    let packet = content.load.confirm(&next_request(context));
    content.stage = Stage::Confirming;
    content.reading = None;
    Progress::Goes(packet)
}

/// What is shown of the range once it is served.
fn loaded(content: &RangeContent, alloc: Global, next: u64) -> Result<TableNote, AllocError>
    ensures { IfOk result (λ note. note ≡ notes.Loaded content.now.load.range content.now.load.generation (record { live = content.now.table.live; indexes = content.now.indexes; keys = content.now.said.keys }) next) }
{
    let table = ShownTable {
        live: live_entries(alloc, &content.table)?,
        indexes: copied_installed(alloc, &content.indexes)?,
        keys: copied_keys(&content.said.keys)?,
    };
    Ok(TableNote::Loaded {
        range: content.load.range,
        generation: content.load.generation,
        table,
        next,
    })
}

/// The generation is confirmed by this packet: the range is served.
pub(crate) fn serves(
    content: &mut RangeContent,
    alloc: Global,
    packet: &Packet,
) -> Result<Progress, AllocError>
    requires { reply_phase packet.now.body content.old.load.phase ≡ phases.Confirmed }
    ensures ok { IfOk result (λ p. (d : ServerContext) → RangePerforms d (λ r. rows.serves d r) content.old content.new p) }
    ensures err { OnErr result (content.new ≡ content.old) }
{
    if !has_position(&content.log) {
        return Ok(Progress::Dropped);
    }
    let (next, start) = match open_region(&content.regions) {
        None => return Ok(Progress::Dropped),
        Some(region) => (region.next, region.start),
    };
    if next == 0 {
        return Ok(Progress::Dropped);
    }
    let note = loaded(content, alloc, next)?;
    let position = log_end(&content.log, &start);
    content.load.on_reply(packet);
    content.stage = Stage::Serving;
    Ok(Progress::Serves(Service {
        next,
        position,
        note,
    }))
}
