//! What the manager does with calls for streams and extents.
ghost use Rattle.std.specs.Prelude.{◌≡◌, true};
ghost use Rattle.streams.specs.Streams.{stream_of, create_fault, open_fault, extending};
ghost use Rattle.model_streams.specs.Actors.{generation_of};
ghost use Rattle.model_streams.specs.Maps.{entry_at};
ghost use Rattle.model_streams.specs.Manager.{is_pick};
ghost use Rattle.manager_state.specs.Table.{plain, sealed_at};
ghost use Rattle.manager_rules.specs.Plan.{Plans, create, create_in, open_streams, open_in, confirm, extend, extend_answered, last_told, picked, made, range_body, stream_body};

use crate::actors::{generation_of, is_foreign, is_user};
use crate::modifying::multi_modify;
use crate::plan::{Change, Plan};
use crate::sending::{
    confirmed, created, deny, extended, makes, one, opened, send, silent, tell, with_change,
};
use crate::trimming::{TrimCall, trim};
use block_types::Nodes;
use manager_state::ManagerTable;
use model_streams::ManagerRecord;
use std::alloc::{AllocError, Global};
use wire::{
    ExtentId, Fence, OpenedStreams, Packet, RangeId, Refusal, ReqNo, StreamBody, StreamName,
};

/// What it does with a call for streams.
pub(crate) fn stream_body(
    alloc: Global,
    table: &ManagerTable,
    packet: &Packet,
    body: &StreamBody,
) -> Result<Plan, AllocError>
    ensures { Plans (stream_body (plain table.now) packet.now body.now) result }
{
    match body {
        StreamBody::CreateStream {
            stream,
            fence,
            request,
        } => create(alloc, table, packet, stream, *fence, *request),
        StreamBody::Extend {
            stream,
            generation,
            last,
            pick,
            request,
        } => extend(
            alloc,
            table,
            packet,
            stream,
            *generation,
            *last,
            *pick,
            *request,
        ),
        _ => range_body(alloc, table, packet, body),
    }
}

/// What it does with a call for several streams, which no user makes.
fn range_body(
    alloc: Global,
    table: &ManagerTable,
    packet: &Packet,
    body: &StreamBody,
) -> Result<Plan, AllocError>
    ensures { Plans (range_body (plain table.now) packet.now body.now) result }
{
    match body {
        StreamBody::OpenStreams {
            range,
            generation,
            request,
        } => open_streams(alloc, table, packet, *range, *generation, *request),
        StreamBody::Confirm {
            range,
            generation,
            request,
        } => confirm(alloc, table, packet, *range, *generation, *request),
        StreamBody::Trim {
            range,
            generation,
            before,
            to_blob,
            request,
        } => {
            let call = TrimCall {
                range: *range,
                generation: *generation,
                before: *before,
                to_blob: *to_blob,
                request: *request,
            };
            trim(alloc, table, packet, &call)
        }
        StreamBody::MultiModify { list, request } => {
            multi_modify(alloc, table, packet, &list.items, *request)
        }
        _ => Ok(silent(alloc)),
    }
}

fn create(
    alloc: Global,
    table: &ManagerTable,
    packet: &Packet,
    stream: &StreamName,
    fence: Fence,
    request: ReqNo,
) -> Result<Plan, AllocError>
    ensures { Plans (create (plain table.now) packet.now stream.now (generation_of packet.now.from fence) request) result }
{
    if is_foreign(packet.from, stream.range) {
        deny(alloc, packet, request, Refusal::Stale)
    } else {
        let fence = generation_of(packet.from, fence);
        create_in(alloc, table, packet, stream, fence, request)
    }
}

#[tactic(auto, using(manager_state::proofs::Spelling::create_again))]
fn create_in(
    alloc: Global,
    table: &ManagerTable,
    packet: &Packet,
    stream: &StreamName,
    fence: Fence,
    request: ReqNo,
) -> Result<Plan, AllocError>
    ensures { Plans (create_in packet.now stream.now fence request (create_fault (plain table.now).streams stream.now)) result }
{
    match table.streams().stream(stream) {
        None => {
            let new_record = ManagerRecord::CreateStream {
                stream: *stream,
                fence,
            };
            // Read for their ranges: within those a record's bytes are read as they were written.
            let _range = stream.range.0;
            let _fence = fence.0;
            let packets = one(alloc, packet.from, created(request))?;
            Ok(with_change(alloc, packets, Change::Write(new_record)))
        }
        Some(_) => deny(alloc, packet, request, Refusal::NameTaken),
    }
}

fn open_streams(
    alloc: Global,
    table: &ManagerTable,
    packet: &Packet,
    range: RangeId,
    generation: Fence,
    request: ReqNo,
) -> Result<Plan, AllocError>
    ensures { Plans (open_streams (plain table.now) packet.now range generation request) result }
{
    if is_user(packet.from) {
        deny(alloc, packet, request, Refusal::Stale)
    } else {
        open_in(alloc, table, packet, range, generation, request)
    }
}

/// The fences of the four streams become the generation, and their extents are told.
#[tactic(auto, using(manager_state::proofs::Spelling::open_again))]
fn open_in(
    alloc: Global,
    table: &ManagerTable,
    packet: &Packet,
    range: RangeId,
    generation: Fence,
    request: ReqNo,
) -> Result<Plan, AllocError>
    ensures { Plans (open_in (plain table.now) packet.now range generation request (open_fault (plain table.now).streams range generation)) result }
{
    match table.streams().opening(range, generation) {
        Err(fault) => deny(alloc, packet, request, Refusal::from(fault)),
        Ok(()) => {
            let new_record = ManagerRecord::OpenStreams { range, generation };
            // Read for their ranges: within those a record's bytes are read as they were written.
            let _range = range.0;
            let _generation = generation.0;
            let streams = OpenedStreams::of(alloc, table.tell_streams(alloc, range)?)?;
            let packets = one(alloc, packet.from, opened(request, streams))?;
            Ok(with_change(alloc, packets, Change::Write(new_record)))
        }
    }
}

fn confirm(
    alloc: Global,
    table: &ManagerTable,
    packet: &Packet,
    range: RangeId,
    generation: Fence,
    request: ReqNo,
) -> Result<Plan, AllocError>
    ensures { Plans (confirm (plain table.now) packet.now range generation request) result }
{
    if is_user(packet.from) {
        return deny(alloc, packet, request, Refusal::Stale);
    }
    match table.streams().confirm(range, generation) {
        Err(fault) => deny(alloc, packet, request, Refusal::from(fault)),
        Ok(()) => tell(alloc, packet.from, confirmed(request)),
    }
}

fn extend(
    alloc: Global,
    table: &ManagerTable,
    packet: &Packet,
    stream: &StreamName,
    generation: Fence,
    last: Option<ExtentId>,
    pick: Nodes,
    request: ReqNo,
) -> Result<Plan, AllocError>
    ensures { Plans (extend (plain table.now) packet.now stream.now (generation_of packet.now.from generation) last pick request) result }
{
    if is_foreign(packet.from, stream.range) {
        deny(alloc, packet, request, Refusal::Stale)
    } else {
        let generation = generation_of(packet.from, generation);
        extend_in(
            alloc, table, packet, stream, generation, last, pick, request,
        )
    }
}

fn extend_in(
    alloc: Global,
    table: &ManagerTable,
    packet: &Packet,
    stream: &StreamName,
    generation: Fence,
    last: Option<ExtentId>,
    pick: Nodes,
    request: ReqNo,
) -> Result<Plan, AllocError>
    ensures { Plans (extend_answered (plain table.now) packet.now stream.now generation pick request
        (extending (sealed_at table.now.extents) (stream_of (plain table.now).streams stream.now) generation last)) result }
{
    let lengths = table.lengths();
    match table.streams().extending(stream, generation, last, lengths) {
        Err(fault) => deny(alloc, packet, request, Refusal::from(fault)),
        Ok(None) => picked(alloc, table, packet, stream, generation, pick, request),
        Ok(Some(extent)) => last_told(alloc, table, packet, extent, request),
    }
}

/// The last extent is named to those who took another for it.
fn last_told(
    alloc: Global,
    table: &ManagerTable,
    packet: &Packet,
    extent: ExtentId,
    request: ReqNo,
) -> Result<Plan, AllocError>
    ensures { Plans (last_told packet.now extent (entry_at table.now.extents extent) request) result }
{
    let number = extent.0;
    match table.entry(number) {
        None => Ok(silent(alloc)),
        Some(entry) => tell(alloc, packet.from, extended(request, number, entry.places)),
    }
}

fn picked(
    alloc: Global,
    table: &ManagerTable,
    packet: &Packet,
    stream: &StreamName,
    fence: Fence,
    pick: Nodes,
    request: ReqNo,
) -> Result<Plan, AllocError>
    ensures { Plans (picked (plain table.now) packet.now stream.now fence pick request) result }
{
    if table.is_pick(&pick) {
        made(alloc, table, packet, stream, fence, pick, request)
    } else {
        deny(alloc, packet, request, Refusal::BadPick)
    }
}

/// One more extent at the end of a stream, and a replica of it at each place.
#[tactic(auto, using(manager_state::proofs::Spelling::extend_again))]
fn made(
    alloc: Global,
    table: &ManagerTable,
    packet: &Packet,
    stream: &StreamName,
    fence: Fence,
    pick: Nodes,
    request: ReqNo,
) -> Result<Plan, AllocError>
    requires { is_pick table.now.nodes pick ≡ true }
    ensures { Plans (made (plain table.now) packet.now stream.now fence pick request) result }
{
    let new_record = ManagerRecord::Extend {
        stream: *stream,
        generation: fence,
        pick,
    };
    // Read for their ranges: within those a record's bytes are read as they were written.
    let _range = stream.range.0;
    let _fence = fence.0;
    let extent = table.next();
    let mut packets = makes(alloc, extent, fence, table.target(), pick)?;
    packets.push(send(packet.from, extended(request, extent, pick)))?;
    Ok(with_change(alloc, packets, Change::Write(new_record)))
}
