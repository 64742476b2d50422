//! Why a node did not come back, or did not take a packet.
ghost use Rattle.std.specs.Prelude.{◌≡◌, IsErrOf};
ghost use Rattle.enode_rules.specs.KeptStep.{told};
ghost use Rattle.enode.specs.Faults.{as_rule, of_file, refusal_of};
ghost use Rattle.wire.specs.declared.packet.Step.{Step};

use disk::{DiskFault, FileFault};
use thiserror::Error;
use wire::Refusal;

/// Why a node did not come back from its disk, or did not take a packet.
#[derive(Clone, Copy, Debug, PartialEq, Eq, Error)]
pub enum NodeFault {
    /// 20: the device failed in this call, and the node is stopped until it is restarted.
    #[error("the disk failed")]
    Failed,
    /// 21: the bytes are no file of records, or a record does not fit what those before it leave. It comes at a restart
    /// alone.
    #[error("the bytes are no file of records that fit")]
    Damaged,
    /// 22: no memory was left. Nothing has changed.
    #[error("no memory was left")]
    Memory,
}

impl From<FileFault> for NodeFault {
    ghost from_gives = { λ x e. e ≡ of_file x };

    fn from(fault: FileFault) -> NodeFault {
        match fault {
            FileFault::Failed => NodeFault::Failed,
            FileFault::Damaged => NodeFault::Damaged,
            FileFault::Memory => NodeFault::Memory,
        }
    }
}

impl From<NodeFault> for Refusal {
    ghost from_gives = { λ fault refusal. refusal ≡ refusal_of fault };

    fn from(fault: NodeFault) -> Refusal {
        match fault {
            NodeFault::Failed => Refusal::DiskFailed,
            NodeFault::Damaged => Refusal::Damaged,
            NodeFault::Memory => Refusal::Memory,
        }
    }
}

/// The answer of a rule of the node's table, which finds no damage.
pub(crate) fn answer(done: Result<(), DiskFault>) -> Result<(), NodeFault>
    ensures rule { (step : Step) → as_rule (told result step) ≡ told done step }
    ensures undamaged { IsErrOf result NodeFault.Damaged → ⊥ }
{
    match done {
        Ok(()) => Ok(()),
        Err(DiskFault::Failed) => Err(NodeFault::Failed),
        Err(DiskFault::Memory) => Err(NodeFault::Memory),
    }
}
