//! The server that a range is of, the numbers of its requests, and what users ask it for.
ghost use Rattle.std.specs.Prelude.{◌≡◌};

use block_types::Nodes;
use bytes::Bytes;
use model_partition::ServerContext;
use std::alloc::Global;
use std::test::Fail;
use wire::{ActorId, Body, Change, Changes, ExtentId, Packet, ReqNo, ServerNo, StreamExtent};

pub(crate) const PLACES: Nodes = Nodes {
    primary: 1,
    second: 2,
    third: 3,
};

/// The server, whose groups have two transactions at most and whose next request has this number, at a moment.
pub(crate) fn context(count: u32, moment: u64) -> ServerContext
    ensures { result.count ≡ count }
{
    ServerContext {
        server: ServerNo(1),
        session: 1,
        moment,
        pick: PLACES,
        batch: 2,
        count: u64::from(count),
    }
}

/// A request of the server.
pub(crate) fn number(count: u64) -> ReqNo {
    ReqNo::Server {
        server: ServerNo(1),
        session: 1,
        count,
    }
}

/// What the server is answered.
pub(crate) fn answer_of(body: Body) -> Packet
    ensures { result.body ≡ body }
{
    Packet {
        from: ActorId::Manager,
        to: ActorId::Server(ServerNo(1)),
        body,
    }
}

/// The extent 7, of this length where it is sealed.
pub(crate) fn extent(length: Option<u32>) -> StreamExtent {
    StreamExtent {
        extent: ExtentId(7),
        places: PLACES,
        length,
    }
}

fn put(alloc: Global, key: &'static [u8], length: usize) -> Result<Change, Fail> {
    let value = Bytes::from_vec(vec![in alloc; b'x'; length]?)?;
    Ok(Change {
        key: Bytes::from_static(key),
        value: Some(value),
    })
}

/// As many changes, each of which puts a value of this length at the key.
pub(crate) fn puts(
    alloc: Global,
    key: &'static [u8],
    length: usize,
    count: usize,
) -> Result<Changes, Fail> {
    let mut changes = Vec::new(alloc);
    for _ in 0..count {
        changes.push(put(alloc, key, length)?)?;
    }
    Ok(Changes::of(changes)?)
}
