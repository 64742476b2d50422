//! What a client waits for, and what an answer brings.
use block_types::Nodes;
use wire::{ExtentId, Packet, ReqNo};

/// A place of an extent, in the order in which replicas are read.
#[derive(Clone, Copy)]
pub enum Place {
    First,
    Second,
    Third,
}

/// What a client waits for. Each request that is out has its number.
#[derive(Clone, Copy)]
pub enum Job {
    /// Nothing is out.
    Idle,
    /// An append is out.
    Sent {
        extent: ExtentId,
        request: ReqNo,
    },
    /// The extent that did not answer the append, or is full or closed, is to be sealed.
    Closing {
        extent: ExtentId,
        request: ReqNo,
    },
    /// Another extent is asked for after this one, for the append.
    Growing {
        last: Option<ExtentId>,
        request: ReqNo,
    },
    /// The length of the last extent is being checked.
    Checking {
        extent: ExtentId,
        request: ReqNo,
    },
    /// The last extent is to be sealed, since it could not be checked.
    Shutting {
        extent: ExtentId,
        request: ReqNo,
    },
    /// The groups of an extent up to this length, in bytes, are asked for at a place: of a sealed replica, or of the primary's
    /// open one.
    Reading {
        extent: ExtentId,
        places: Nodes,
        upto: u32,
        sealed: bool,
        place: Place,
        request: ReqNo,
    },
}

/// What an answer brought to an end.
#[derive(Clone, Copy, PartialEq, Eq)]
pub enum News {
    /// The group stands at this offset of the extent, in bytes, on all three places.
    Appended { extent: ExtentId, offset: u32 },
    /// All three places of the open extent have just this length, in bytes, and take no append of a lower generation.
    Checked { extent: ExtentId, length: u32 },
    /// The extent is sealed at this length, in bytes.
    Sealed { extent: ExtentId, length: u32 },
    /// The answer has the groups of the extent up to this length, in bytes.
    Content { extent: ExtentId, upto: u32 },
    /// A higher generation has opened the streams. Nothing is waited for any more.
    Fenced,
}

/// What a step sends and brings.
#[derive(Drop)]
pub struct Reaction {
    pub packet: Option<Packet>,
    pub news: Option<News>,
}
