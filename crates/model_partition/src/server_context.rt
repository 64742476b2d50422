//! What all ranges of a server share.
use block_types::Nodes;
use wire::ServerNo;

/// A server, as each of its ranges sees it.
#[derive(Clone, Copy)]
pub struct ServerContext {
    pub server: ServerNo,
    /// Which start of the server this is. No two have one number.
    pub session: u64,
    /// The moment that it was told last, in ticks.
    pub moment: u64,
    /// The nodes that new extents are made on, the primary first.
    pub pick: Nodes,
    /// How many transactions a group may hold, 1 to 1,024.
    pub batch: u16,
    /// The number of its next request.
    pub count: u64,
}
