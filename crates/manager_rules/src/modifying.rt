//! What the manager does with a call that builds streams from the lists of others.
ghost use Rattle.std.specs.Prelude.{◌≡◌, ◌<◌, ◌^◌, IfOk};
ghost use Rattle.std.specs.List.{All};
ghost use Rattle.streams.specs.Streams.{modify_fault};
ghost use Rattle.manager_state.specs.RecordBytes.{IsSourceInRange, IsModifyInRange, IsListInRange};
ghost use Rattle.manager_state.specs.Table.{plain, sealed_at};
ghost use Rattle.manager_rules.specs.Plan.{Plans, multi_modify, modify_in, modify_taken};

use crate::actors::is_user;
use crate::plan::{Change, Plan};
use crate::sending::{deny, modified, one, with_change};
use manager_state::ManagerTable;
use model_streams::ManagerRecord;
use std::alloc::{AllocError, Global};
use streams::StreamFault;
use wire::{Modifies, Modify, Packet, Refusal, ReqNo, Source, Sources, StreamName};

fn copied_sources(alloc: Global, sources: &[Source]) -> Result<Sources, AllocError>
    ensures { IfOk result (λ copies. copies ≡ sources.now) }
{
    let mut items = Vec::new(alloc);
    items.extend_from_slice(sources)?;
    Ok(Sources { items })
}

/// The same list again. An error is out of memory.
fn copied_list(alloc: Global, list: &[Modify]) -> Result<Modifies, AllocError>
    ensures { IfOk result (λ copies. copies ≡ list.now) }
{
    let mut items = Vec::with_capacity(alloc, list.len())?;
    for m in list {
        items.push(Modify {
            stream: m.stream,
            sources: copied_sources(alloc, &m.sources.items)?,
        })?;
    }
    Ok(Modifies { items })
}

// What follows reads the numbers of a list for their ranges: within those a record's bytes are read as they were written.

fn read_name(stream: &StreamName)
    ensures { stream.now.range < 2 ^ 64 }
{
    let _range = stream.range.0;
}

fn read_source(source: &Source)
    ensures { IsSourceInRange source.now }
{
    read_name(&source.stream);
    let _generation = source.generation.0;
}

fn read_sources(sources: &[Source])
    ensures { All IsSourceInRange sources.now }
{
    for source in sources {
        read_source(source);
    }
}

fn read_modify(m: &Modify)
    ensures { IsModifyInRange m.now }
{
    read_name(&m.stream);
    read_sources(&m.sources.items);
}

fn read_list(list: &[Modify])
    ensures { IsListInRange list.now }
{
    for m in list {
        read_modify(m);
    }
}

pub(crate) fn multi_modify(
    alloc: Global,
    table: &ManagerTable,
    packet: &Packet,
    list: &[Modify],
    request: ReqNo,
) -> Result<Plan, AllocError>
    ensures { Plans (multi_modify (plain table.now) packet.now list.now request) result }
{
    if is_user(packet.from) {
        deny(alloc, packet, request, Refusal::Stale)
    } else {
        modify_in(alloc, table, packet, list, request)
    }
}

fn modify_in(
    alloc: Global,
    table: &ManagerTable,
    packet: &Packet,
    list: &[Modify],
    request: ReqNo,
) -> Result<Plan, AllocError>
    ensures { Plans (modify_in packet.now list.now request (modify_fault (sealed_at table.now.extents) (plain table.now).streams list.now)) result }
{
    read_list(list);
    match table.streams().modifying(list, table.lengths()) {
        Ok(_built) => taken(alloc, packet, list, request),
        Err(StreamFault::Memory) => Err(AllocError),
        Err(fault) => deny(alloc, packet, request, Refusal::from(fault)),
    }
}

/// The streams are built once the record stands.
fn taken(
    alloc: Global,
    packet: &Packet,
    list: &[Modify],
    request: ReqNo,
) -> Result<Plan, AllocError>
    ensures { IfOk result (λ plan. plan ≡ modify_taken packet.now list.now request) }
{
    let list = copied_list(alloc, list)?;
    let packets = one(alloc, packet.from, modified(request))?;
    let change = Change::Write(ManagerRecord::MultiModify { list });
    Ok(with_change(alloc, packets, change))
}
