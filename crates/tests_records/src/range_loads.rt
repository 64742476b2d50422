//! The opening of a range by its server.
use crate::clients::{number, number_in, refused};
use client::{LoadPhase, RangeLoad, StreamClient};
use std::alloc::{AllocError, Global};
use wire::{
    ActorId, Body, Fence, OpenedStreams, Packet, RangeId, Refusal, ServerNo, StreamBody,
    StreamExtents, StreamList, StreamLists,
};

fn no_extents(alloc: Global) -> StreamList {
    StreamList {
        base: 0,
        extents: StreamExtents {
            items: Vec::new(alloc),
        },
    }
}

fn opened(alloc: Global, session: u64) -> Result<Body, AllocError> {
    let lists = StreamLists {
        metadata: no_extents(alloc),
        log: no_extents(alloc),
        row_data: no_extents(alloc),
        blob_data: no_extents(alloc),
    };
    Ok(Body::Stream(StreamBody::Opened {
        request: number_in(session, 1),
        streams: OpenedStreams::of(alloc, lists)?,
    }))
}

fn confirmed() -> Body {
    Body::Stream(StreamBody::Confirmed { request: number(2) })
}

/// How far the load is once this has come.
fn told(load: &mut RangeLoad, body: Body) -> LoadPhase {
    let packet = Packet {
        from: ActorId::Manager,
        to: ActorId::Server(ServerNo(1)),
        body,
    };
    let phase = load.on_reply(&packet);
    drop(packet);
    phase
}

/// How far the load is once the streams are opened in a session; nothing where memory ran out.
fn told_opened(load: &mut RangeLoad, alloc: Global, session: u64) -> Option<LoadPhase> {
    match opened(alloc, session) {
        Ok(body) => Some(told(load, body)),
        Err(_full) => None,
    }
}

/// What a load asks for.
enum Asked {
    Nothing,
    /// That the streams be opened, under the first number.
    Open,
    /// That the generation be confirmed, under the second number.
    Confirm,
}

fn is_of_load(range: RangeId, generation: Fence) -> bool {
    range.0 == 1 && generation.0 == 2
}

fn is_request(packet: &Packet, asked: &Asked) -> bool {
    match (&packet.body, asked) {
        (
            Body::Stream(
                StreamBody::OpenStreams {
                    range,
                    generation,
                    request,
                },
            ),
            Asked::Open,
        ) => is_of_load(*range, *generation) && *request == number(1),
        (
            Body::Stream(
                StreamBody::Confirm {
                    range,
                    generation,
                    request,
                },
            ),
            Asked::Confirm,
        ) => is_of_load(*range, *generation) && *request == number(2),
        _ => false,
    }
}

/// Whether a load sends just this. The packet is let go by a call: at the end of its block it is let go part by part, and each
/// part costs the proof.
fn asks(sent: Option<Packet>, asked: &Asked) -> bool {
    let told = match (&sent, asked) {
        (Some(packet), _) => is_request(packet, asked),
        (None, Asked::Nothing) => true,
        (None, _) => false,
    };
    drop(sent);
    told
}

/// A load that has just begun, and whether it asks for its streams.
fn begun() -> (RangeLoad, bool) {
    let (load, packet) = StreamClient::open_for_load(ServerNo(1), RangeId(1), Fence(2), &number(1));
    (load, asks(Some(packet), &Asked::Open))
}

fn opens_other(load: &mut RangeLoad, alloc: Global) -> bool {
    asks(load.confirm(&number(2)), &Asked::Nothing)
        && told_opened(load, alloc, 2) == Some(LoadPhase::Opening { request: number(1) })
        && load.awaits(&number(1))
        && is_of_load(load.range, load.generation)
        && asks(load.give_up(), &Asked::Open)
}

fn opens_own(load: &mut RangeLoad, alloc: Global) -> bool {
    told_opened(load, alloc, 1) == Some(LoadPhase::Opened) && asks(load.give_up(), &Asked::Nothing)
}

fn is_confirmed(load: &mut RangeLoad) -> bool {
    asks(load.confirm(&number(2)), &Asked::Confirm)
        && asks(load.give_up(), &Asked::Confirm)
        && load.phase() == LoadPhase::Confirming { request: number(2) }
        && told(load, confirmed()) == LoadPhase::Confirmed
        && load.phase() == LoadPhase::Confirmed
}

fn counts(load: &mut RangeLoad, alloc: Global) -> bool {
    opens_other(load, alloc) && opens_own(load, alloc) && is_confirmed(load)
}

#[test]
fn counts_once_confirmed(rt: HostRuntime) {
    let (mut load, begins) = begun();
    assert!(rt; begins && counts(&mut load, rt.alloc()));
}

fn is_fenced(load: &mut RangeLoad, alloc: Global) -> bool {
    told_opened(load, alloc, 1) == Some(LoadPhase::Opened)
        && asks(load.confirm(&number(2)), &Asked::Confirm)
        && told(load, refused(2, Refusal::Stale)) == LoadPhase::Fenced
        && told(load, confirmed()) == LoadPhase::Fenced
        && load.phase() == LoadPhase::Fenced
}

#[test]
fn never_counts_once_fenced(rt: HostRuntime) {
    let (mut load, begins) = begun();
    assert!(rt; begins && is_fenced(&mut load, rt.alloc()));
}
