//! Who takes and sends packets, and which request an answer belongs to.
use crate::server_number::ServerNo;

/// Somebody who takes packets and sends them.
#[derive(Clone, Copy, PartialEq, Eq)]
pub enum ActorId {
    /// An extent node, from 1 to 12.
    Node(u8),
    /// The stream manager.
    Manager,
    /// The partition map, which also keeps the leases.
    Map,
    /// A partition server.
    Server(ServerNo),
    /// Somebody outside.
    User(u64),
}

/// The number of a request, which its answer repeats.
#[derive(Clone, Copy, PartialEq, Eq)]
pub enum ReqNo {
    /// The count-th request of a server since it began this session.
    Server {
        server: ServerNo,
        session: u64,
        count: u64,
    },
    /// A user's request of this ticket.
    User {
        user: u64,
        ticket: u64,
    },
    /// The packet that is answered has no request number.
    NoRequest,
}
