//! What a step is about to do: what it sends and shows, and the one change that comes with it.
ghost use Rattle.manager_state.specs.Table.{plain};
ghost use Rattle.manager_rules.specs.Plan.{Plans, planned};

use crate::calls::stream_body;
use crate::sealing::seal_body;
use crate::sending::silent;
use manager_state::ManagerTable;
use model_streams::{Extent, ManagerRecord};
use std::alloc::{AllocError, Global};
use wire::{Body, Packet, Step};

/// A change of the table.
#[derive(Drop)]
pub enum Change {
    /// None.
    Nothing,
    /// What a record makes of it, which is written first.
    Write(ManagerRecord),
    /// Another extent of this number, which differs only in what a stop drops.
    Replace { extent: u64, entry: Extent },
}

/// What a step sends and shows, once its change is done.
#[derive(Drop)]
pub struct Plan {
    pub step: Step,
    pub change: Change,
}

/// What the manager does with a packet: the rule of its table. An error is out of memory.
pub fn plan_for(alloc: Global, table: &ManagerTable, packet: &Packet) -> Result<Plan, AllocError>
    ensures { Plans (planned (plain table.now) packet.now packet.now.body) result }
{
    match &packet.body {
        Body::Stream(body) => stream_body(alloc, table, packet, body),
        Body::Seal(body) => seal_body(alloc, table, packet, body),
        _ => Ok(silent(alloc)),
    }
}
