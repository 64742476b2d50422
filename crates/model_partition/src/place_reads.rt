//! Reads of what stands at a place, and whose answer a packet is.
ghost use Rattle.std.specs.Prelude.{◌≡◌, ◌++◌};
ghost use Rattle.client.specs.Client.{node_at as node_of, next_place as place_behind};
ghost use Rattle.model_partition.specs.PlaceReads as specs;

use crate::server_context::ServerContext;
use crate::waiting::PlaceRead;
use block_types::Nodes;
use client::Place as Replica;
use memtable::Place;
use wire::{ActorId, Body, ExtentId, Packet, ReadBody, StreamExtent};

/// Whether the read that is out is that of a page, which a checkpoint merges, and not that of an index.
pub fn reads_page(reading: &Option<PlaceRead>) -> bool
    ensures { result ≡ specs.reads_page reading.now }
{
    match reading {
        None => false,
        Some(read) => read.page,
    }
}

/// Whether bytes that stand at an offset of an extent are those of the place.
pub fn is_at(place: &Place, extent: ExtentId, offset: u32, bytes: &[u8]) -> bool
    ensures { result ≡ specs.is_place place.now (specs.place_of extent offset bytes.now) }
{
    place.extent.0 == extent.0 && place.offset == offset && place.length as usize == bytes.len()
}

/// The node at a place.
fn node_at(places: &Nodes, replica: Replica) -> u8
    ensures { result ≡ node_of places.now replica }
{
    match replica {
        Replica::First => places.primary,
        Replica::Second => places.second,
        Replica::Third => places.third,
    }
}

/// The place after this one; after the third the first.
fn next_place(replica: Replica) -> Replica
    ensures { result ≡ place_behind replica }
{
    match replica {
        Replica::First => Replica::Second,
        Replica::Second => Replica::Third,
        Replica::Third => Replica::First,
    }
}

/// The replicas of an extent that is in this list.
fn places_in(extents: &[StreamExtent], extent: ExtentId) -> Option<Nodes>
    ensures { result ≡ specs.places_in extents.now extent }
{
    for known in extents {
        if known.extent.0 == extent.0 {
            return Some(known.places);
        }
    }
    None
}

/// The replicas of an extent that is in one of a range's streams: the log, the blob stream, row data.
pub fn places_of(
    log: &[StreamExtent],
    blob: &[StreamExtent],
    rows: &[StreamExtent],
    extent: ExtentId,
) -> Option<Nodes>
    ensures { result ≡ specs.places_in (log.now ++ (blob.now ++ rows.now)) extent }
{
    match places_in(log, extent) {
        Some(places) => Some(places),
        None => match places_in(blob, extent) {
            Some(places) => Some(places),
            None => places_in(rows, extent),
        },
    }
}

/// The packet of a read, to the replica that it is for.
pub fn reads_place(context: &ServerContext, places: &Nodes, read: &PlaceRead) -> Packet
    ensures { result ≡ specs.reads_place context.now places.now read.now }
{
    Packet {
        from: ActorId::Server(context.server),
        to: ActorId::Node(node_at(places, read.replica)),
        body: Body::Read(ReadBody::ReadAt {
            extent: read.place.extent,
            offset: read.place.offset,
            length: read.place.length,
            request: read.request,
        }),
    }
}

/// The same read at the next replica; after the third comes the first.
pub fn moved_on(read: &PlaceRead) -> PlaceRead
    ensures { result ≡ specs.moved_on read.now }
{
    PlaceRead {
        request: read.request,
        place: read.place,
        page: read.page,
        replica: next_place(read.replica),
    }
}
