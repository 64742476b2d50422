//! The requests of users: whom they ask, and what.
ghost use Rattle.std.specs.Prelude.{◌≡◌};
ghost use Rattle.script_lines.specs.Asking.{IsCall, asked, stream_of};
ghost use Rattle.script_lines.specs.declared.line.Request.TheVariants as requests;

use crate::line::Request;
use block_types::Nodes;
use bytes::Bytes;
use model_streams::Event;
use wire::{
    ActorId, AppendBody, Blocks, Body, Changes, ExtentId, Fence, MapBody, RangeId, ReadBody, ReqNo,
    SealBody, ServerNo, StreamBody, StreamKind, StreamName, TableBody,
};

/// A stream that users work on.
fn stream_of(kind: StreamKind) -> StreamName
    ensures { result ≡ stream_of kind }
{
    StreamName {
        range: RangeId(0),
        kind,
    }
}

/// The extent that a word of a script numbers.
fn extent_of(number: Option<u64>) -> Option<ExtentId>
    ensures { result ≡ number }
{
    match number {
        Some(number) => Some(ExtentId(number)),
        None => None,
    }
}

/// The making of a stream.
fn create(number: ReqNo, kind: StreamKind) -> (ActorId, Body)
    ensures { IsCall number (requests.Create kind) result }
{
    let body = StreamBody::CreateStream {
        stream: stream_of(kind),
        fence: Fence(0),
        request: number,
    };
    (ActorId::Manager, Body::Stream(body))
}

/// One more extent of a stream.
fn extend(number: ReqNo, kind: StreamKind, last: Option<u64>, pick: Nodes) -> (ActorId, Body)
    ensures { IsCall number (requests.Extend kind last pick) result }
{
    let body = StreamBody::Extend {
        stream: stream_of(kind),
        generation: Fence(0),
        last: extent_of(last),
        pick,
        request: number,
    };
    (ActorId::Manager, Body::Stream(body))
}

/// The seal of an extent.
fn seal(number: ReqNo, extent: u64) -> (ActorId, Body)
    ensures { IsCall number (requests.Seal extent) result }
{
    let body = SealBody::SealExtent {
        extent: ExtentId(extent),
        request: number,
    };
    (ActorId::Manager, Body::Seal(body))
}

/// An append at a primary.
fn append(number: ReqNo, node: u8, extent: u64, blocks: Blocks) -> (ActorId, Body)
    ensures { IsCall number (requests.Append node extent blocks) result }
{
    let body = AppendBody::Append {
        extent: ExtentId(extent),
        generation: Fence(0),
        blocks,
        request: number,
    };
    (ActorId::Node(node), Body::Append(body))
}

/// A read of bytes of a replica.
fn bytes_at(number: ReqNo, node: u8, extent: u64, offset: u32, length: u32) -> (ActorId, Body)
    ensures { IsCall number (requests.Read node extent offset length) result }
{
    let body = ReadBody::ReadAt {
        extent: ExtentId(extent),
        offset,
        length,
        request: number,
    };
    (ActorId::Node(node), Body::Read(body))
}

/// A read of the content of a sealed replica.
fn content(number: ReqNo, node: u8, extent: u64, upto: u32) -> (ActorId, Body)
    ensures { IsCall number (requests.Content node extent upto) result }
{
    let body = ReadBody::ReadGroups {
        extent: ExtentId(extent),
        upto,
        sealed: true,
        request: number,
    };
    (ActorId::Node(node), Body::Read(body))
}

/// A transaction.
fn transact(number: ReqNo, server: ServerNo, range: u64, changes: Changes) -> (ActorId, Body)
    ensures { IsCall number (requests.Transact server range changes) result }
{
    let body = TableBody::Transact {
        range: RangeId(range),
        changes,
        request: number,
    };
    (ActorId::Server(server), Body::Table(body))
}

/// A look at a key.
fn get(number: ReqNo, server: ServerNo, range: u64, key: Bytes) -> (ActorId, Body)
    ensures { IsCall number (requests.Get server range key) result }
{
    let body = TableBody::Get {
        range: RangeId(range),
        key,
        request: number,
    };
    (ActorId::Server(server), Body::Table(body))
}

/// The question of which range has a key.
fn route(number: ReqNo, key: Bytes) -> (ActorId, Body)
    ensures { IsCall number (requests.Route key) result }
{
    let body = MapBody::Route {
        key,
        request: number,
    };
    (ActorId::Map, Body::Map(body))
}

/// Whom a user's request, which has this number, asks, and what: it is the same for every user.
pub fn call_of(number: ReqNo, task: Request) -> (ActorId, Body)
    ensures { IsCall number task result }
{
    match task {
        Request::Create { kind } => create(number, kind),
        Request::Extend { kind, last, pick } => extend(number, kind, last, pick),
        Request::Append {
            node,
            extent,
            blocks,
        } => append(number, node, extent, blocks),
        Request::Read {
            node,
            extent,
            offset,
            length,
        } => bytes_at(number, node, extent, offset, length),
        Request::Content { node, extent, upto } => content(number, node, extent, upto),
        Request::Transact {
            server,
            range,
            changes,
        } => transact(number, server, range, changes),
        Request::Get { server, range, key } => get(number, server, range, key),
        Request::Route { key } => route(number, key),
        Request::Seal { extent } => seal(number, extent),
    }
}

/// The event of a user's request, which has this number: who is asked what.
pub fn event_of(user: u64, number: ReqNo, task: Request) -> Event
    ensures { result ≡ asked user number task }
{
    let (to, body) = call_of(number, task);
    Event::Submit { user, to, body }
}
