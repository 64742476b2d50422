//! A load begins, and its streams are opened.
ghost use Rattle.std.specs.Prelude.{◌≡◌, [], ℕ, IfOk, OnErr};
ghost use Rattle.wire.specs.declared.streams.StreamKind.TheVariants as kinds;
ghost use Rattle.client.specs.declared.load.LoadPhase.TheVariants as phases;
ghost use Rattle.client.specs.Client.{new_client, last_extent};
ghost use Rattle.client.specs.Load.{open_packet, opening, reply_phase};
ghost use Rattle.metadata.specs.Fold.{first_metadata};
ghost use Rattle.model_partition.specs.Range.{request};
ghost use Rattle.model_partition.specs.Loading as rows;
ghost use Rattle.model_partition.specs.Server.{new_range};
ghost use Rattle.model_partition.specs.RangeSteps.{put, RangePerforms};

use crate::copying::{copied_list, no_list};
use crate::metadata_reading::begins_metadata;
use checkpoint::InstalledIndexes;
use client::{RangeLoad, StreamClient};
use memtable::MemTable;
use metadata::{Metadata, Region, copied_regions};
use model_partition::{Progress, RangeContent, ServerContext, Stage, next_request};
use std::alloc::{AllocError, Global};
use wire::{Fence, Packet, RangeId, StreamKind, StreamList, StreamLists, StreamName};

/// The client of a stream of a range, with nothing out.
fn client_of(
    alloc: Global,
    context: &ServerContext,
    kind: StreamKind,
    load: &RangeLoad,
    list: &StreamList,
) -> Result<StreamClient, AllocError>
    ensures { IfOk result (λ c. c ≡ new_client context.now.server (record { range = load.now.range; kind = kind }) load.now.generation list.now context.now.pick) }
{
    let stream = StreamName {
        range: load.range,
        kind,
    };
    StreamClient::new(
        alloc,
        context.server,
        stream,
        load.generation,
        list,
        context.pick,
    )
}

/// The clients of the metadata, of the log and of the row data.
#[derive(Drop)]
struct Clients {
    metadata: StreamClient,
    log: StreamClient,
    rows: StreamClient,
}

/// These clients, with nothing out.
fn clients_of(
    alloc: Global,
    context: &ServerContext,
    load: &RangeLoad,
    metadata: &StreamList,
    log: &StreamList,
    rows: &StreamList,
) -> Result<Clients, AllocError>
    ensures metadata { IfOk result (λ clients. clients.metadata ≡ new_client context.now.server (record { range = load.now.range; kind = kinds.Metadata }) load.now.generation metadata.now context.now.pick) }
    ensures log { IfOk result (λ clients. clients.log ≡ new_client context.now.server (record { range = load.now.range; kind = kinds.Log }) load.now.generation log.now context.now.pick) }
    ensures rows { IfOk result (λ clients. clients.rows ≡ new_client context.now.server (record { range = load.now.range; kind = kinds.RowData }) load.now.generation rows.now context.now.pick) }
{
    Ok(Clients {
        metadata: client_of(alloc, context, StreamKind::Metadata, load, metadata)?,
        log: client_of(alloc, context, StreamKind::Log, load, log)?,
        rows: client_of(alloc, context, StreamKind::RowData, load, rows)?,
    })
}

/// The same of streams that are not opened yet.
fn first_clients(
    alloc: Global,
    context: &ServerContext,
    load: &RangeLoad,
) -> Result<Clients, AllocError>
    ensures metadata { IfOk result (λ clients. clients.metadata ≡ new_client context.now.server (record { range = load.now.range; kind = kinds.Metadata }) load.now.generation (record { base = 0; extents = [] }) context.now.pick) }
    ensures log { IfOk result (λ clients. clients.log ≡ new_client context.now.server (record { range = load.now.range; kind = kinds.Log }) load.now.generation (record { base = 0; extents = [] }) context.now.pick) }
    ensures rows { IfOk result (λ clients. clients.rows ≡ new_client context.now.server (record { range = load.now.range; kind = kinds.RowData }) load.now.generation (record { base = 0; extents = [] }) context.now.pick) }
{
    let none = no_list(alloc);
    let clients = clients_of(alloc, context, load, &none, &none, &none);
    drop(none);
    clients
}

/// What is known before any metadata is read, and a copy of its regions.
fn first_said(alloc: Global) -> Result<(Metadata, Vec<Region>), AllocError>
    ensures said { IfOk result (λ both. both.0 ≡ first_metadata) }
    ensures regions { IfOk result (λ both. both.1.items ≡ first_metadata.regions) }
{
    let said = Metadata::first(alloc)?;
    match copied_regions(alloc, &said.regions.items) {
        Ok(regions) => Ok((said, regions)),
        Err(full) => {
            drop(said);
            Err(full)
        }
    }
}

/// What is known of a range whose load has just begun.
fn begun(
    alloc: Global,
    context: &ServerContext,
    load: RangeLoad,
) -> Result<RangeContent, AllocError>
    ensures { IfOk result (λ x. (range generation until : ℕ) → load ≡ opening context.now.server range generation (request context.now) → put x (new_range context.now range generation until) ≡ new_range context.now range generation until) }
{
    let said = Metadata::first(alloc)?;
    match first_clients(alloc, context, &load) {
        Ok(clients) => Ok(RangeContent {
            load,
            stage: Stage::Opening,
            metadata: clients.metadata,
            log: clients.log,
            rows: clients.rows,
            blob_data: no_list(alloc),
            said,
            regions: Vec::new(alloc),
            table: MemTable::new(alloc),
            indexes: InstalledIndexes::of(Vec::new(alloc)),
            reading: None,
            control: None,
        }),
        Err(full) => {
            drop(said);
            Err(full)
        }
    }
}

/// A load of a range under a generation, of which nothing is known, and the packet, to the manager, that opens its streams
/// under the next number. An error is out of memory (22).
pub fn begin_load(
    alloc: Global,
    context: &ServerContext,
    range: RangeId,
    generation: Fence,
) -> Result<(RangeContent, Packet), AllocError>
    ensures content { IfOk result (λ x. (until : ℕ) → put x.0 (new_range context.now range generation until) ≡ new_range context.now range generation until) }
    ensures packet { IfOk result (λ x. x.1 ≡ open_packet context.now.server range generation (request context.now)) }
{
    let (load, packet) = StreamClient::open_for_load(
        context.server,
        range,
        generation,
        &next_request(context),
    );
    match begun(alloc, context, load) {
        Ok(content) => Ok((content, packet)),
        Err(full) => {
            drop(packet);
            Err(full)
        }
    }
}

/// The streams are opened by this packet, which tells them, and nothing is read yet.
pub(crate) fn opens(
    content: &mut RangeContent,
    alloc: Global,
    context: &ServerContext,
    packet: &Packet,
    lists: &StreamLists,
) -> Result<Progress, AllocError>
    requires { reply_phase packet.now.body content.old.load.phase ≡ phases.Opened }
    ensures ok { IfOk result (λ p. RangePerforms context.now (λ r. rows.opens context.now r lists.now) content.old content.new p) }
    ensures err { OnErr result (content.new ≡ content.old) }
{
    let clients = clients_of(
        alloc,
        context,
        &content.load,
        &lists.metadata,
        &lists.log,
        &lists.row_data,
    )?;
    match copied_list(alloc, &lists.blob_data) {
        Ok(blobs) => opens_with(content, alloc, context, packet, clients, blobs),
        Err(full) => {
            drop(clients);
            Err(full)
        }
    }
}

/// The same with these clients, and this stream of the blobs.
fn opens_with(
    content: &mut RangeContent,
    alloc: Global,
    context: &ServerContext,
    packet: &Packet,
    clients: Clients,
    blobs: StreamList,
) -> Result<Progress, AllocError>
    requires { reply_phase packet.now.body content.old.load.phase ≡ phases.Opened }
    ensures ok { IfOk result (λ p. RangePerforms context.now (λ r. rows.begins_metadata context.now (record r {
      load = record r.load { phase = phases.Opened };
      metadata = clients.metadata;
      log = clients.log;
      rows = clients.rows;
      blob_data = blobs;
      said = first_metadata;
    }) (last_extent clients.metadata.extents)) content.old content.new p) }
    ensures err { OnErr result (content.new ≡ content.old) }
{
    match first_said(alloc) {
        Ok((said, regions)) => {
            content.load.on_reply(packet);
            content.metadata = clients.metadata;
            content.log = clients.log;
            content.rows = clients.rows;
            content.blob_data = blobs;
            content.said = said;
            Ok(begins_metadata(content, context, regions))
        }
        Err(full) => {
            drop(clients);
            drop(blobs);
            Err(full)
        }
    }
}
