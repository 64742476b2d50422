//! A line of a script, as a value.
use crate::boxed_event::BoxedEvent;
use block_types::Nodes;
use bytes::Bytes;
use wire::{ActorId, Blocks, Changes, ServerNo, StreamKind};

/// What a user asks for.
#[derive(Drop)]
pub enum Request {
    /// That the manager makes a stream of this kind.
    Create {
        kind: StreamKind,
    },
    /// One more extent of a stream, after its last one if it has any, on these three nodes.
    Extend {
        kind: StreamKind,
        last: Option<u64>,
        pick: Nodes,
    },
    /// That a node, the primary, adds these blocks to an extent.
    Append {
        node: u8,
        extent: u64,
        blocks: Blocks,
    },
    /// So many bytes of a replica, from an offset on.
    Read {
        node: u8,
        extent: u64,
        offset: u32,
        length: u32,
    },
    /// The content of a sealed replica, up to a length.
    Content {
        node: u8,
        extent: u64,
        upto: u32,
    },
    /// That the manager seals an extent.
    Seal {
        extent: u64,
    },
    /// That a server applies these changes to a range, all or none.
    Transact {
        server: ServerNo,
        range: u64,
        changes: Changes,
    },
    /// What a range has under a key.
    Get {
        server: ServerNo,
        range: u64,
        key: Bytes,
    },
    /// Which range has a key, and which server holds that range: asked of the map.
    Route {
        key: Bytes,
    },
}

/// A line of a script.
#[derive(Drop)]
pub enum Line {
    /// A user sends a packet.
    Submit { user: u64, request: Request },
    /// Delivers the packet of this number.
    Deliver(u64),
    /// Delivers the packet that was sent last.
    DeliverLast,
    /// Delivers what was never delivered, the lowest number first.
    Settle,
    /// From here on a settle passes over packets to this actor.
    Cut(ActorId),
    /// And from here on it does not.
    Heal(ActorId),
    /// Shows the replica of an extent at a node.
    Show { node: u8, extent: u64 },
    /// An actor stops or comes back, the operator has something done, or the clock shows a moment.
    Happens(BoxedEvent),
}
