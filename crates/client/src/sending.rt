//! What a server sends for a stream.
ghost use Rattle.std.specs.Prelude.{◌≡◌};
ghost use Rattle.wire.specs.declared.actor.ActorId.TheVariants.{Node, Manager};
ghost use Rattle.wire.specs.declared.body.AppendBody.TheVariants as appends;
ghost use Rattle.wire.specs.declared.body.CheckBody.TheVariants as checks;
ghost use Rattle.wire.specs.declared.body.SealBody.TheVariants as seals;
ghost use Rattle.wire.specs.declared.body.ReadBody.TheVariants as reads;
ghost use Rattle.wire.specs.declared.body.StreamBody.TheVariants as streams;
ghost use Rattle.wire.specs.declared.body.Body.TheVariants as bodies;
ghost use Rattle.client.specs.Client.{node_at, next_place};
ghost use Rattle.client.specs.Requests.{from_server};

use crate::job::Place;
use block_types::Nodes;
use wire::{
    ActorId, AppendBody, Blocks, Body, CheckBody, ExtentId, Fence, Packet, ReadBody, ReqNo,
    SealBody, ServerNo, StreamBody, StreamName,
};

/// A packet of a server.
pub(crate) fn sent(server: ServerNo, to: ActorId, body: Body) -> Packet
    ensures { result ≡ from_server server to body }
{
    Packet {
        from: ActorId::Server(server),
        to,
        body,
    }
}

/// An append of these blocks to the primary.
pub(crate) fn sent_append(
    server: ServerNo,
    primary: u8,
    extent: ExtentId,
    generation: Fence,
    blocks: Blocks,
    request: &ReqNo,
) -> Packet
    ensures { result ≡ from_server server (Node primary) (bodies.Append (appends.Append extent generation blocks request.now)) }
{
    let body = Body::Append(AppendBody::Append {
        extent,
        generation,
        blocks,
        request: *request,
    });
    sent(server, ActorId::Node(primary), body)
}

/// The check of an extent's length, to its primary.
pub(crate) fn check_packet(
    server: ServerNo,
    primary: u8,
    extent: ExtentId,
    generation: Fence,
    request: &ReqNo,
) -> Packet
    ensures { result ≡ from_server server (Node primary) (bodies.Check (checks.Check extent generation request.now)) }
{
    let body = Body::Check(CheckBody::Check {
        extent,
        generation,
        request: *request,
    });
    sent(server, ActorId::Node(primary), body)
}

/// To the manager: seal the extent.
pub(crate) fn seal_packet(server: ServerNo, extent: ExtentId, request: &ReqNo) -> Packet
    ensures { result ≡ from_server server Manager (bodies.Seal (seals.SealExtent extent request.now)) }
{
    let body = Body::Seal(SealBody::SealExtent {
        extent,
        request: *request,
    });
    sent(server, ActorId::Manager, body)
}

/// To the manager: another extent after this one.
pub(crate) fn extend_packet(
    server: ServerNo,
    stream: StreamName,
    generation: Fence,
    last: &Option<ExtentId>,
    pick: &Nodes,
    request: &ReqNo,
) -> Packet
    ensures { result ≡ from_server server Manager (bodies.Stream (streams.Extend stream generation last.now pick.now request.now)) }
{
    let body = Body::Stream(StreamBody::Extend {
        stream,
        generation,
        last: *last,
        pick: *pick,
        request: *request,
    });
    sent(server, ActorId::Manager, body)
}

/// The node at a place.
pub(crate) fn node_at(places: &Nodes, place: Place) -> u8
    ensures { result ≡ node_at places.now place }
{
    match place {
        Place::First => places.primary,
        Place::Second => places.second,
        Place::Third => places.third,
    }
}

/// The place after this one; after the third the first.
pub(crate) fn next_place(place: Place) -> Place
    ensures { result ≡ next_place place }
{
    match place {
        Place::First => Place::Second,
        Place::Second => Place::Third,
        Place::Third => Place::First,
    }
}

/// A read of the groups up to a length, at a node.
pub(crate) fn read_packet(
    server: ServerNo,
    node: u8,
    extent: ExtentId,
    upto: u32,
    sealed: bool,
    request: &ReqNo,
) -> Packet
    ensures { result ≡ from_server server (Node node) (bodies.Read (reads.ReadGroups extent upto sealed request.now)) }
{
    let body = Body::Read(ReadBody::ReadGroups {
        extent,
        upto,
        sealed,
        request: *request,
    });
    sent(server, ActorId::Node(node), body)
}
