//! Events: what may happen next in a run.
use block_types::Nodes;
use bytes::Bytes;
use wire::{ActorId, Body, ExtentId, RangeId, ServerNo};

/// What happens next. An event that does not fit (no such packet, a body that no user asks, a stopped actor) changes
/// nothing.
#[derive(Drop)]
pub enum Event {
    /// A user sends a request: an append, a read, a call for a stream, an extent, a route or a table.
    Submit {
        /// The user's number.
        user: u64,
        /// Who is asked.
        to: ActorId,
        /// The request, with its number.
        body: Body,
    },
    /// A packet comes to its addressee. It may come again, and in any order.
    Deliver {
        /// How many packets were sent before it.
        number: usize,
    },
    /// An actor stops: at once where `call` is 0, else in its `call`-th device call from now. It sends nothing for that
    /// event, and the record that it writes stands only if that call is the third or the fourth of its append, and
    /// `keep` is set. It replaces a stop that has not come yet.
    Stop {
        actor: ActorId,
        call: u64,
        keep: bool,
    },
    /// A stopped actor comes back with nothing but its records.
    Restart {
        actor: ActorId,
    },
    /// The operator has the manager seal an extent, at the least length that its places have told.
    Decide {
        extent: ExtentId,
    },
    /// The operator has a server give up on the answers that a range waits for: it asks again, or has an extent sealed that
    /// does not answer. New extents are made on these nodes from now on. Nodes and the manager do nothing with it.
    GiveUp {
        server: ServerNo,
        range: RangeId,
        pick: Nodes,
    },
    /// The operator has the map assign a range to a server, with a lease up to this moment. Nodes and the manager do nothing
    /// with it.
    Assign {
        range: RangeId,
        server: ServerNo,
        until: u64,
    },
    /// The operator has the map renew the lease of a range that a server holds, up to this moment or to the end that it has,
    /// whichever is later. Nodes and the manager do nothing with it.
    Renew {
        range: RangeId,
        server: ServerNo,
        until: u64,
    },
    /// The clock of leases shows this, to the map and to all servers at once. Nodes and the manager do nothing with it.
    Moment {
        now: u64,
    },
    /// The operator has a server write down what a range keeps in memory, as a checkpoint; `combine` asks that its indexes be
    /// combined into one.
    Checkpoint {
        server: ServerNo,
        range: RangeId,
        combine: bool,
    },
    /// The operator has a server split a range at a key.
    Split {
        server: ServerNo,
        range: RangeId,
        key: Bytes,
    },
    /// The operator has a server merge two ranges that lie side by side.
    Merge {
        server: ServerNo,
        left: RangeId,
        right: RangeId,
    },
}
