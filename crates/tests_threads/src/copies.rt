//! A packet with a list of lists, an answer with four, and events with a payload.
use bytes::Bytes;
use model_streams::Event;
use std::alloc::{AllocError, Global};
use std::test::Fail;
use wire::{
    ActorId, Body, Fence, MapBody, Modifies, Modify, OpenedStreams, Packet, RangeId, ReqNo,
    ServerNo, Source, Sources, StreamBody, StreamExtents, StreamKind, StreamList, StreamLists,
    StreamName,
};
use world_copies::{event, packet};

const LOG: StreamName = StreamName {
    range: RangeId(1),
    kind: StreamKind::Log,
};

fn building(alloc: Global) -> Result<Body, AllocError> {
    let source = Source {
        stream: LOG,
        generation: Fence(3),
    };
    let mut items = Vec::new(alloc);
    items.push(Modify {
        stream: LOG,
        sources: Sources {
            items: [source, source].to_vec(alloc)?,
        },
    })?;
    Ok(Body::Stream(StreamBody::MultiModify {
        list: Modifies { items },
        request: ReqNo::NoRequest,
    }))
}

fn list(alloc: Global, base: u64) -> StreamList {
    let items = Vec::new(alloc);
    StreamList {
        base,
        extents: StreamExtents { items },
    }
}

fn telling(alloc: Global) -> Result<Body, AllocError> {
    let lists = StreamLists {
        metadata: list(alloc, 5),
        log: list(alloc, 6),
        row_data: list(alloc, 7),
        blob_data: list(alloc, 8),
    };
    Ok(Body::Stream(StreamBody::Opened {
        request: ReqNo::NoRequest,
        streams: OpenedStreams::of(alloc, lists)?,
    }))
}

#[test]
fn packets_with_lists(rt: HostRuntime) -> Result<(), Fail> {
    for body in [building(rt.alloc())?, telling(rt.alloc())?] {
        let sent = Packet {
            from: ActorId::Server(ServerNo(2)),
            to: ActorId::Manager,
            body,
        };
        let copy = packet(rt.alloc(), &sent)?;
        assert!(rt; copy.from == sent.from && copy.to == sent.to);
        match &copy.body {
            Body::Stream(StreamBody::MultiModify { list, .. }) => {
                assert!(rt; matches!(list.items.as_slice(), [one] if one.sources.items.len() == 2));
            }
            Body::Stream(StreamBody::Opened { streams, .. }) => {
                assert_eq!(rt; streams.lists().row_data.base, 7);
            }
            _ => assert!(rt; false, "another body"),
        }
    }
    Ok(())
}

#[test]
fn events_with_payload(rt: HostRuntime) -> Result<(), Fail> {
    let route = Event::Submit {
        user: 7,
        to: ActorId::Map,
        body: Body::Map(MapBody::Route {
            key: Bytes::from_static(b"m"),
            request: ReqNo::NoRequest,
        }),
    };
    let split = Event::Split {
        server: ServerNo(2),
        range: RangeId(1),
        key: Bytes::from_static(b"m"),
    };
    for happened in [route, split] {
        match &event(rt.alloc(), &happened)? {
            Event::Submit { body, .. } => match body {
                Body::Map(MapBody::Route { key, .. }) => assert_eq!(rt;
                    *key.as_slice(),
                    *b"m".as_slice()
                ),
                _ => assert!(rt; false, "another body"),
            },
            Event::Split { key, .. } => assert_eq!(rt; *key.as_slice(), *b"m".as_slice()),
            _ => assert!(rt; false, "another event"),
        }
    }
    Ok(())
}
