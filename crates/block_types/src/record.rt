//! Records: what an actor keeps of an event, as a value (docs/FORMATS.md).
ghost use Rattle.std.specs.Prelude.{◌≡◌, ◌↔◌, IsTrue};
ghost use Rattle.block_types.specs.Limits.{are_nodes, AreNodes};

use crate::group::{Group, Groups};
use crate::limits::MAX_NODE;
use bytes::Bytes;

/// The nodes of an extent's three replicas. Places 1, 2 and 3 are its fields in order; each is a node's number, from 1 to
/// 12, and no two are one (`AreNodes`, which a value need not meet).
#[derive(Clone, Copy, PartialEq, Eq)]
pub struct Nodes {
    /// Place 1, whose node orders the appends.
    pub primary: u8,
    /// Place 2.
    pub second: u8,
    /// Place 3.
    pub third: u8,
}

impl Nodes {
    /// Whether these are three different nodes, each from 1 to 12.
    #[tactic(auto, unfolding(crate::specs::Limits::are_nodes))]
    pub fn are_distinct_nodes(&self) -> bool
        ensures value { result ≡ are_nodes self.now }
        ensures nodes { IsTrue result ↔ AreNodes self.now }
    {
        (1..=MAX_NODE).contains(&self.primary)
            && (1..=MAX_NODE).contains(&self.second)
            && (1..=MAX_NODE).contains(&self.third)
            && self.primary != self.second
            && self.primary != self.third
            && self.second != self.third
    }
}

/// How a record is spelled: each version has one spelling of each record that fits it (`Fits`).
#[derive(Clone, Copy, PartialEq, Eq)]
pub enum Version {
    /// A block is its size and its bytes.
    V1,
    /// As version 1, with the SHA-256 digest of its bytes after each block.
    V2,
}

/// One entry of a record file (docs/FORMATS.md). Extents, fences and generations are raw numbers of 64 bits; offsets,
/// lengths and targets count bytes.
///
/// A value may be out of range: the crate `blocks` says what a field may hold (`IsInRange`) and what has a spelling (`Fits`).
#[derive(Drop)]
pub enum Record {
    /// Kind 1: the extent is made at this node.
    Make {
        extent: u64,
        /// The generation below which an append is stale.
        fence: u64,
        /// An append is taken while the length is below it; from 4,096 to 16,777,216.
        target: u32,
        nodes: Nodes,
    },
    /// Kind 2: the group stands in the extent, from the offset on.
    Append {
        extent: u64,
        offset: u32,
        group: Group,
    },
    /// Kind 3: the extent's fence is raised to the generation.
    Fence {
        extent: u64,
        generation: u64,
    },
    /// Kind 4: the replica takes no more appends.
    Freeze {
        extent: u64,
    },
    /// Kind 5: the extent ends at the length.
    Seal {
        extent: u64,
        length: u32,
    },
    /// Kind 6: the groups stand from `from` on, and the extent ends at the length. There is at least one, and their
    /// sizes add up to `length` minus `from`.
    Fill {
        extent: u64,
        from: u32,
        length: u32,
        groups: Groups,
    },
    /// Kind 7: what the manager or the partition map keeps, in a form of its own.
    Manage {
        text: Bytes,
    },
}
