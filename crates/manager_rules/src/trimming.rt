//! What the manager does with a call that trims the log of a range.
ghost use Rattle.std.specs.Prelude.{◌≡◌};
ghost use Rattle.streams.specs.Streams.{trimming};
ghost use Rattle.manager_state.specs.Table.{plain};
ghost use Rattle.manager_rules.specs.Plan.{Plans, trim, trim_in, trim_taken};

use crate::actors::is_user;
use crate::plan::{Change, Plan};
use crate::sending::{deny, one, tell, trimmed, with_change};
use manager_state::ManagerTable;
use model_streams::ManagerRecord;
use std::alloc::{AllocError, Global};
use wire::{Fence, Packet, RangeId, Refusal, ReqNo};

/// A generation wants the extents of a range's log below an index to leave it, for the blob stream or for good.
#[derive(Clone, Copy)]
pub(crate) struct TrimCall {
    pub(crate) range: RangeId,
    pub(crate) generation: Fence,
    pub(crate) before: u64,
    pub(crate) to_blob: bool,
    pub(crate) request: ReqNo,
}

pub(crate) fn trim(
    alloc: Global,
    table: &ManagerTable,
    packet: &Packet,
    call: &TrimCall,
) -> Result<Plan, AllocError>
    ensures { Plans (trim (plain table.now) packet.now call.now.range call.now.generation call.now.before call.now.to_blob call.now.request) result }
{
    if is_user(packet.from) {
        deny(alloc, packet, call.request, Refusal::Stale)
    } else {
        trim_in(alloc, table, packet, call)
    }
}

fn trim_in(
    alloc: Global,
    table: &ManagerTable,
    packet: &Packet,
    call: &TrimCall,
) -> Result<Plan, AllocError>
    ensures { Plans (trim_in packet.now call.now.range call.now.before call.now.to_blob call.now.request
        (trimming (plain table.now).streams call.now.range call.now.generation call.now.before)) result }
{
    match table
        .streams()
        .trimming(call.range, call.generation, call.before)
    {
        Err(fault) => deny(alloc, packet, call.request, Refusal::from(fault)),
        Ok(false) => tell(alloc, packet.from, trimmed(call.request)),
        Ok(true) => taken(
            alloc,
            packet,
            call.range,
            call.before,
            call.to_blob,
            call.request,
        ),
    }
}

/// The extents leave once the record stands.
#[tactic(auto, using(manager_state::proofs::Spelling::trim_again))]
fn taken(
    alloc: Global,
    packet: &Packet,
    range: RangeId,
    before: u64,
    to_blob: bool,
    request: ReqNo,
) -> Result<Plan, AllocError>
    ensures { Plans (trim_taken packet.now range before to_blob request) result }
{
    let new_record = ManagerRecord::Trim {
        range,
        before,
        to_blob,
    };
    // Read for its range: within it a record's bytes are read as they were written.
    let _range = range.0;
    let packets = one(alloc, packet.from, trimmed(request))?;
    Ok(with_change(alloc, packets, Change::Write(new_record)))
}
