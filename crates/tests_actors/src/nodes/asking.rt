//! What the cases ask of a node. Where no extent is said, it is extent 1.
use block_types::{Group, Groups, Nodes};
use bytes::Bytes;
use disk::DiskFault;
use std::alloc::Global;
use wire::{
    AppendBody, Blocks, Body, CheckBody, ExtentId, Fence, ReadBody, ReqNo, SealBody, ServerNo,
};

/// A packet to a node, but for who sends it.
#[derive(Clone, Copy)]
pub enum Ask {
    /// The fence and the target of a replica, whose places are nodes 1, 2 and 3.
    Make(u64, u32),
    /// The extent, the generation and the blocks.
    Append(u64, u64, &'static [&'static str]),
    /// The offset, and the one block of the group.
    Put(u32, &'static str),
    /// The length.
    Have(u32),
    /// The offset and the length.
    ReadAt(u32, u32),
    /// Up to where, and whether the replica must be sealed.
    ReadGroups(u32, bool),
    /// The extent.
    Freeze(u64),
    /// The length.
    Seal(u32),
    /// From where; to node 3.
    SendTail(u32),
    /// The offset of the group "ghi".
    Tail(u32),
    /// The extent and the generation.
    Check(u64, u64),
    /// The generation.
    Probe(u64),
    /// The generation and the length.
    Probed(u64, u32),
}

const PLACES: Nodes = Nodes {
    primary: 1,
    second: 2,
    third: 3,
};

fn user_request(ticket: u64) -> ReqNo {
    ReqNo::User { user: 7, ticket }
}

fn append(alloc: Global, extent: u64, generation: u64, words: &[&str]) -> Result<Body, DiskFault> {
    let mut blocks = Vec::new(alloc);
    for word in words {
        blocks.push(Bytes::copy_from_slice(alloc, word.as_bytes())?)?;
    }
    Ok(Body::Append(AppendBody::Append {
        extent: ExtentId(extent),
        generation: Fence(generation),
        blocks: Blocks::of(blocks)?,
        request: user_request(0),
    }))
}

// The words of the cases make groups, so that memory alone can be wanting.
fn group(alloc: Global, word: &str) -> Result<Group, DiskFault> {
    let mut texts = Vec::new(alloc);
    texts.push(word.as_bytes().to_vec(alloc)?)?;
    match Group::new(alloc, texts) {
        Ok(group) => Ok(group),
        Err(_fault) => Err(DiskFault::Memory),
    }
}

fn put(alloc: Global, offset: u32, word: &str) -> Result<Body, DiskFault> {
    Ok(Body::Append(AppendBody::Put {
        extent: ExtentId(1),
        offset,
        group: group(alloc, word)?,
    }))
}

fn tail(alloc: Global, from: u32) -> Result<Body, DiskFault> {
    let mut groups = Vec::new(alloc);
    groups.push(group(alloc, "ghi")?)?;
    Ok(Body::Seal(SealBody::Tail {
        extent: ExtentId(1),
        from,
        length: 9,
        groups: Groups { items: groups },
    }))
}

fn make(fence: u64, target: u32) -> SealBody {
    SealBody::Make {
        extent: ExtentId(1),
        fence: Fence(fence),
        target,
        places: PLACES,
    }
}

fn check(extent: u64, generation: u64) -> CheckBody {
    CheckBody::Check {
        extent: ExtentId(extent),
        generation: Fence(generation),
        request: ReqNo::Server {
            server: ServerNo(2),
            session: 1,
            count: 3,
        },
    }
}

fn read_at(offset: u32, length: u32) -> ReadBody {
    ReadBody::ReadAt {
        extent: ExtentId(1),
        offset,
        length,
        request: user_request(1),
    }
}

fn read_groups(upto: u32, sealed: bool) -> ReadBody {
    ReadBody::ReadGroups {
        extent: ExtentId(1),
        upto,
        sealed,
        request: user_request(1),
    }
}

/// A probe by the primary, or a secondary's answer to it where there is a length.
fn probe(generation: u64, length: Option<u32>) -> CheckBody {
    let extent = ExtentId(1);
    let generation = Fence(generation);
    match length {
        Some(length) => CheckBody::Probed {
            extent,
            generation,
            length,
        },
        None => CheckBody::Probe { extent, generation },
    }
}

pub fn body_of(alloc: Global, ask: Ask) -> Result<Body, DiskFault> {
    let extent = ExtentId(1);
    match ask {
        Ask::Append(extent, generation, words) => append(alloc, extent, generation, words),
        Ask::Put(offset, word) => put(alloc, offset, word),
        Ask::Have(length) => Ok(Body::Append(AppendBody::Have { extent, length })),
        Ask::ReadAt(offset, length) => Ok(Body::Read(read_at(offset, length))),
        Ask::ReadGroups(upto, sealed) => Ok(Body::Read(read_groups(upto, sealed))),
        Ask::Make(fence, target) => Ok(Body::Seal(make(fence, target))),
        Ask::Freeze(extent) => Ok(Body::Seal(SealBody::Freeze {
            extent: ExtentId(extent),
        })),
        Ask::Seal(length) => Ok(Body::Seal(SealBody::Seal { extent, length })),
        Ask::SendTail(from) => Ok(Body::Seal(SealBody::SendTail {
            extent,
            from,
            to: 3,
        })),
        Ask::Tail(from) => tail(alloc, from),
        Ask::Check(extent, generation) => Ok(Body::Check(check(extent, generation))),
        Ask::Probe(generation) => Ok(Body::Check(probe(generation, None))),
        Ask::Probed(generation, length) => Ok(Body::Check(probe(generation, Some(length)))),
    }
}
