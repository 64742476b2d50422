//! How extents are sealed: what places tell, who asks, and the decision.
ghost use Rattle.std.specs.Prelude.{◌≡◌};
ghost use Rattle.model_streams.specs.Maps.{entry_at};
ghost use Rattle.manager_state.specs.Table.{plain};
ghost use Rattle.manager_rules.specs.Plan.{Plans, seal_body, seal_extent, seal_asked, frozen, is_sealed, short, asks_tail, decide, decided, noted};

use crate::plan::{Change, Plan};
use crate::sending::{deny, remind, silent, tell, tell_asker, tell_sealed, with_change};
use manager_state::{ManagerTable, first_sealed, least_told, place_of, with_frozen, with_sealed};
use model_streams::{Asker, Extent, ManagerRecord};
use std::alloc::{AllocError, Global};
use wire::{ActorId, Body, ExtentId, Note, Packet, Refusal, ReqNo, SealBody};

/// The change to what a place told, if it is a place.
fn note(alloc: Global, extent: u64, entry: Option<Extent>) -> Plan
    ensures { result ≡ noted extent entry }
{
    let mut plan = silent(alloc);
    if let Some(entry) = entry {
        plan.change = Change::Replace { extent, entry };
    }
    plan
}

/// A place that lacks something is given it by one that is sealed.
fn ask_tail(
    alloc: Global,
    extent: u64,
    from: u32,
    to: Option<u8>,
    at: Option<u8>,
) -> Result<Plan, AllocError>
    ensures { Plans (asks_tail extent from to at) result }
{
    match (to, at) {
        (Some(to), Some(at)) => {
            let body = Body::Seal(SealBody::SendTail {
                extent: ExtentId(extent),
                from,
                to,
            });
            tell(alloc, ActorId::Node(at), body)
        }
        _ => Ok(silent(alloc)),
    }
}

/// What it does with a packet of the sealing of an extent.
pub(crate) fn seal_body(
    alloc: Global,
    table: &ManagerTable,
    packet: &Packet,
    body: &SealBody,
) -> Result<Plan, AllocError>
    ensures { Plans (seal_body (plain table.now) packet.now body.now) result }
{
    match body {
        SealBody::SealExtent { extent, request } => {
            seal_extent(alloc, table, packet, extent.0, *request)
        }
        SealBody::Frozen { extent, length } => {
            Ok(frozen(alloc, table, packet, extent.0, *length))
        }
        SealBody::IsSealed { extent } => Ok(is_sealed(alloc, table, packet, extent.0)),
        SealBody::Short { extent, length } => { short(alloc, table, packet, extent.0, *length) }
        _ => Ok(silent(alloc)),
    }
}

fn seal_extent(
    alloc: Global,
    table: &ManagerTable,
    packet: &Packet,
    extent: u64,
    request: ReqNo,
) -> Result<Plan, AllocError>
    ensures { Plans (seal_extent table.now.target packet.now extent request (entry_at table.now.extents extent)) result }
{
    match table.entry(extent) {
        None => deny(alloc, packet, request, Refusal::NoSuchExtent),
        Some(entry) => seal_asked(alloc, table, packet, extent, request, &entry),
    }
}

/// Its places are told to close it. Who asks is told the length, or is noted.
fn seal_asked(
    alloc: Global,
    table: &ManagerTable,
    packet: &Packet,
    extent: u64,
    request: ReqNo,
    entry: &Extent,
) -> Result<Plan, AllocError>
    ensures { Plans (seal_asked table.now.target packet.now extent request entry.now entry.now.sealed) result }
{
    let mut packets = remind(alloc, table.target(), extent, entry)?;
    match entry.sealed {
        None => {
            let mut asked = *entry;
            asked.asker = Some(Asker {
                who: packet.from,
                request,
            });
            let change = Change::Replace {
                extent,
                entry: asked,
            };
            Ok(with_change(alloc, packets, change))
        }
        Some(length) => {
            tell_sealed(&mut packets, packet.from, request, extent, length)?;
            Ok(with_change(alloc, packets, Change::Nothing))
        }
    }
}

fn frozen(alloc: Global, table: &ManagerTable, packet: &Packet, extent: u64, length: u32) -> Plan
    ensures { result ≡ frozen packet.now extent length (entry_at table.now.extents extent) }
{
    match table.entry(extent) {
        None => silent(alloc),
        Some(entry) => {
            if entry.sealed.is_some() {
                silent(alloc)
            } else {
                note(alloc, extent, with_frozen(&entry, &packet.from, length))
            }
        }
    }
}

fn is_sealed(alloc: Global, table: &ManagerTable, packet: &Packet, extent: u64) -> Plan
    ensures { result ≡ is_sealed packet.now extent (entry_at table.now.extents extent) }
{
    match table.entry(extent) {
        None => silent(alloc),
        Some(entry) => note(alloc, extent, with_sealed(&entry, &packet.from)),
    }
}

fn short(
    alloc: Global,
    table: &ManagerTable,
    packet: &Packet,
    extent: u64,
    length: u32,
) -> Result<Plan, AllocError>
    ensures { Plans (short packet.now extent length (entry_at table.now.extents extent)) result }
{
    match table.entry(extent) {
        None => Ok(silent(alloc)),
        Some(entry) => {
            if entry.sealed.is_some() {
                let place = place_of(&entry.places, &packet.from);
                ask_tail(alloc, extent, length, place, first_sealed(&entry))
            } else {
                Ok(silent(alloc))
            }
        }
    }
}

/// What the manager does to have an extent sealed: a sealed one stays so, and its places are told again; another is sealed at
/// the least length that was told. An error is out of memory.
pub fn decide(alloc: Global, table: &ManagerTable, extent: u64) -> Result<Plan, AllocError>
    ensures { Plans (decide table.now.target extent (entry_at table.now.extents extent)) result }
{
    match table.entry(extent) {
        None => Ok(silent(alloc)),
        Some(entry) => {
            if entry.sealed.is_some() {
                let packets = remind(alloc, table.target(), extent, &entry)?;
                return Ok(with_change(alloc, packets, Change::Nothing));
            }
            match least_told(&entry) {
                None => Ok(silent(alloc)),
                Some(length) => decided(alloc, table, extent, &entry, length),
            }
        }
    }
}

#[tactic(auto, using(manager_state::proofs::Spelling::seal_again))]
fn decided(
    alloc: Global,
    table: &ManagerTable,
    extent: u64,
    entry: &Extent,
    length: u32,
) -> Result<Plan, AllocError>
    ensures { Plans (decided table.now.target extent entry.now length) result }
{
    let new_record = ManagerRecord::Seal {
        extent: ExtentId(extent),
        length,
    };
    let mut sealed = *entry;
    sealed.sealed = Some(length);
    sealed.asker = None;
    let mut packets = remind(alloc, table.target(), extent, &sealed)?;
    tell_asker(&mut packets, extent, length, entry.asker)?;
    let mut plan = with_change(alloc, packets, Change::Write(new_record));
    let extent = ExtentId(extent);
    plan.step.notes.push(Note::SealedAt { extent, length })?;
    Ok(plan)
}
