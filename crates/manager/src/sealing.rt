//! Decisions: at which length an extent would be sealed, why it cannot be, and the answer of a call.
ghost use Rattle.std.specs.Prelude.{◌≡◌, ◌≢◌, Some, IfErr, option_map};
ghost use Rattle.model_streams.specs.Manager.{decide_refusal};
ghost use Rattle.model_streams.specs.Maps.{entry_at};
ghost use Rattle.manager.specs.Performs.{as_rule, fault_of, sealing_at};

use crate::fault::ManagerFault;
use disk::DiskFault;
use manager_state::{ManagerTable, least_told};
use model_streams::Extent;
use wire::Step;

/// The length at which a decision would seal an extent.
pub(crate) fn sealing_of(entry: &Extent) -> Option<u32>
    ensures { result ≡ sealing_at (Some entry.now) }
{
    if entry.sealed.is_some() {
        None
    } else {
        least_told(entry)
    }
}

/// Why an extent cannot be sealed.
pub(crate) fn refusal(table: &ManagerTable, extent: u64) -> Option<ManagerFault>
    ensures { result ≡ option_map fault_of (decide_refusal (entry_at table.now.extents extent)) }
{
    match table.entry(extent) {
        None => Some(ManagerFault::NoSuchExtent),
        Some(entry) => {
            if entry.sealed.is_some() || least_told(&entry).is_some() {
                None
            } else {
                Some(ManagerFault::NoReply)
            }
        }
    }
}

/// The answer of a decision that was not refused.
pub(crate) fn answer(done: Result<Step, DiskFault>) -> Result<Step, ManagerFault>
    ensures rule { as_rule result ≡ done }
    ensures taken { IfErr result (λ e. (e ≢ ManagerFault.NoSuchExtent) × (e ≢ ManagerFault.NoReply)) }
{
    match done {
        Ok(step) => Ok(step),
        Err(DiskFault::Failed) => Err(ManagerFault::DiskFailed),
        Err(DiskFault::Memory) => Err(ManagerFault::Memory),
    }
}
