//! Clients of servers, over real nodes and the real manager.
use crate::requests::{PLACES, abc};
use crate::runs::{Run, decides, settles, started};
use Step::{Appends, Checks, Confirms, GivesUp, HasExtents, HearsOfSeal, Opens};
use Told::{Appended, Checked, Fenced, Nothing};
use client::{Appending, ClientFault, LoadPhase, News, RangeLoad, Reaction, StreamClient};
use std::alloc::{AllocError, Global};
use wire::{
    ActorId, Body, ExtentId, Fence, Packet, RangeId, ReqNo, ServerNo, StreamBody, StreamKind,
    StreamList, StreamName,
};
use world_streams::StreamLayer;

/// What a client is told once nothing more follows.
enum Told {
    Nothing,
    /// The append stands at this extent and offset.
    Appended(u64, u32),
    /// The extent has this length.
    Checked(u64, u32),
    Fenced,
}

/// What a server does, and what comes of it. All that is sent comes, but for what is sent to nodes that are cut off.
enum Step {
    /// It has this number, opens the streams of range 1 for the generation of the same number, and has the log.
    Opens(u8),
    /// It asks whether its load counts: it does, or is fenced.
    Confirms(bool),
    /// It appends "abc" to the log, while these nodes are cut off.
    Appends(&'static [u8], Told),
    /// It checks the length of the last extent of the log.
    Checks(Told),
    /// It gives up on what it waits for.
    GivesUp(Told),
    /// The manager seals extent 1, and answers it.
    HearsOfSeal(Told),
    /// It knows so many extents of the log.
    HasExtents(usize),
}

/// The servers of the cases, by their position among those that opened the streams.
const FIRST: usize = 0;

const SECOND: usize = 1;

/// What a case shows, and its steps.
type Case = (&'static str, &'static [(usize, Step)]);

const CASES: &[Case] = &[
    (
        "a client appends across a seal",
        &[
            (FIRST, Opens(1)),
            (FIRST, Confirms(true)),
            (FIRST, Appends(&[], Appended(1, 0))),
            (FIRST, Appends(&[3], Nothing)),
            (FIRST, GivesUp(Nothing)),
            (FIRST, HearsOfSeal(Appended(2, 0))),
            (FIRST, HasExtents(2)),
        ],
    ),
    (
        "a second generation fences the first",
        &[
            (FIRST, Opens(1)),
            (FIRST, Confirms(true)),
            (FIRST, Appends(&[], Appended(1, 0))),
            (SECOND, Opens(2)),
            (SECOND, Checks(Checked(1, 3))),
            (SECOND, Confirms(true)),
            (FIRST, Appends(&[], Fenced)),
            (SECOND, Appends(&[], Appended(1, 3))),
        ],
    ),
    (
        "an old load never counts",
        &[
            (FIRST, Opens(1)),
            (SECOND, Opens(2)),
            (FIRST, Confirms(false)),
            (SECOND, Confirms(true)),
        ],
    ),
];

/// A server that opened the streams of range 1.
#[derive(Drop)]
struct Server {
    number: u8,
    load: RangeLoad,
    log: StreamClient,
}

fn number(server: u8, count: u64) -> ReqNo {
    ReqNo::Server {
        server: ServerNo(server),
        session: 1,
        count,
    }
}

/// Whether a server sends what its client says, and all comes but for what is sent to these nodes.
fn asks(alloc: Global, run: &mut Run, server: u8, packet: Packet, cut: &[u8]) -> bool {
    let Packet { from: _, to, body } = packet;
    match run.stream_layer.ask(ServerNo(server), to, body) {
        Ok(()) => settles(alloc, run, cut),
        Err(_fault) => false,
    }
}

/// The first packet to a server from this one on.
fn answer(stream_layer: &StreamLayer, server: u8, from: usize) -> Option<&Packet> {
    let to = ActorId::Server(ServerNo(server));
    stream_layer
        .sent()
        .iter()
        .skip(from)
        .find(|packet| packet.to == to)
}

fn log_of(alloc: Global, server: u8, list: &StreamList) -> Result<StreamClient, AllocError> {
    let log = StreamName {
        range: RangeId(1),
        kind: StreamKind::Log,
    };
    StreamClient::new(
        alloc,
        ServerNo(server),
        log,
        Fence(server as u64),
        list,
        PLACES,
    )
}

/// The log that an answer tells, if the streams are opened by it.
fn opened(
    alloc: Global,
    load: &mut RangeLoad,
    number: u8,
    answer: &Packet,
) -> Option<StreamClient> {
    if load.on_reply(answer) != LoadPhase::Opened {
        return None;
    }
    match &answer.body {
        Body::Stream(StreamBody::Opened { streams, .. }) => {
            log_of(alloc, number, &streams.lists().log).ok()
        }
        _ => None,
    }
}

fn opens(alloc: Global, run: &mut Run, server: u8) -> Option<Server> {
    let (load, packet) = StreamClient::open_for_load(
        ServerNo(server),
        RangeId(1),
        Fence(server as u64),
        &number(server, 1),
    );
    let mut load = load;
    let before = run.next;
    if !asks(alloc, run, server, packet, &[]) {
        return None;
    }
    let log = opened(
        alloc,
        &mut load,
        server,
        answer(&run.stream_layer, server, before)?,
    )?;
    Some(Server {
        number: server,
        load,
        log,
    })
}

/// Whether a load in this phase counts, or is fenced.
fn is_ruled(phase: LoadPhase, counts: bool) -> bool {
    match phase {
        LoadPhase::Confirmed => counts,
        LoadPhase::Fenced => !counts,
        _ => false,
    }
}

/// The phase that a load is in once it was asked whether it counts.
fn confirms(alloc: Global, run: &mut Run, server: &mut Server) -> Option<LoadPhase> {
    let before = run.next;
    let packet = server.load.confirm(&number(server.number, 2))?;
    if !asks(alloc, run, server.number, packet, &[]) {
        return None;
    }
    let answer = answer(&run.stream_layer, server.number, before)?;
    Some(server.load.on_reply(answer))
}

/// What an answer from this packet on has a client do: nothing where none comes.
fn hears(
    alloc: Global,
    run: &Run,
    server: &mut Server,
    count: u64,
    from: usize,
) -> Option<Reaction> {
    let request = number(server.number, count);
    match answer(&run.stream_layer, server.number, from) {
        Some(packet) => server.log.on_reply(alloc, &request, packet).ok(),
        None => Some(Reaction {
            packet: None,
            news: None,
        }),
    }
}

/// One request, and what its answer has the client do.
fn turn(
    alloc: Global,
    run: &mut Run,
    server: &mut Server,
    count: u64,
    packet: Packet,
    cut: &[u8],
) -> Option<Reaction> {
    let before = run.next;
    if asks(alloc, run, server.number, packet, cut) {
        hears(alloc, run, server, count, before)
    } else {
        None
    }
}

fn news_of(told: &Told) -> Option<News> {
    match told {
        Nothing => None,
        Appended(extent, offset) => Some(News::Appended {
            extent: ExtentId(*extent),
            offset: *offset,
        }),
        Checked(extent, length) => Some(News::Checked {
            extent: ExtentId(*extent),
            length: *length,
        }),
        Fenced => Some(News::Fenced),
    }
}

/// Goes on with what a client has to do until nothing more follows: whether it is told this then.
fn goes_on(
    alloc: Global,
    run: &mut Run,
    server: &mut Server,
    begun: Option<Reaction>,
    cut: &[u8],
    told: &Told,
) -> bool {
    let mut next = begun;
    for count in 100..110 {
        next = match next {
            None => return false,
            Some(Reaction { packet: None, news }) => return news == news_of(told),
            Some(
                Reaction {
                    packet: Some(packet),
                    ..
                },
            ) => turn(alloc, run, server, count, packet, cut),
        };
    }
    false
}

fn sends(packet: Option<Packet>) -> Option<Reaction> {
    match packet {
        Some(packet) => Some(Reaction {
            packet: Some(packet),
            news: None,
        }),
        None => None,
    }
}

fn begun(sent: Result<Packet, ClientFault>) -> Option<Reaction> {
    sends(sent.ok())
}

/// An append of "abc".
fn appending(alloc: Global) -> Result<Appending, AllocError> {
    let blocks = abc(alloc)?;
    let made = Appending::of(&blocks);
    drop(blocks);
    made
}

fn appends(alloc: Global, server: &mut Server) -> Option<Reaction> {
    match appending(alloc) {
        Ok(appending) => begun(server.log.append(&number(server.number, 10), appending)),
        Err(_full) => None,
    }
}

/// What the answer of the manager has a client do once extent 1 is sealed.
fn hears_of_seal(alloc: Global, run: &mut Run, server: &mut Server) -> Option<Reaction> {
    let before = run.next;
    if decides(alloc, run, 1, None) && settles(alloc, run, &[]) {
        hears(alloc, run, server, 12, before)
    } else {
        None
    }
}

fn takes(alloc: Global, run: &mut Run, server: &mut Server, step: &Step) -> bool {
    match step {
        Opens(_) => false,
        Confirms(counts) => match confirms(alloc, run, server) {
            Some(phase) => is_ruled(phase, *counts),
            None => false,
        },
        Appends(cut, told) => {
            let begun = appends(alloc, server);
            goes_on(alloc, run, server, begun, cut, told)
        }
        Checks(told) => {
            let begun = begun(server.log.check_length(&number(server.number, 20)));
            goes_on(alloc, run, server, begun, &[], told)
        }
        GivesUp(told) => {
            let begun = sends(server.log.give_up(&number(server.number, 11), &PLACES));
            goes_on(alloc, run, server, begun, &[], told)
        }
        HearsOfSeal(told) => {
            let begun = hears_of_seal(alloc, run, server);
            goes_on(alloc, run, server, begun, &[], told)
        }
        HasExtents(count) => server.log.extents.len() == *count,
    }
}

fn opens_as_next(alloc: Global, run: &mut Run, servers: &mut Vec<Server>, number: u8) -> bool {
    match opens(alloc, run, number) {
        Some(server) => servers.push(server).is_ok(),
        None => false,
    }
}

fn takes_at(
    alloc: Global,
    run: &mut Run,
    servers: &mut Vec<Server>,
    position: usize,
    step: &Step,
) -> bool {
    match servers.get_mut(position) {
        Some(server) => takes(alloc, run, server, step),
        None => false,
    }
}

fn takes_all(
    alloc: Global,
    run: &mut Run,
    servers: &mut Vec<Server>,
    steps: &[(usize, Step)],
) -> bool {
    for (position, step) in steps {
        let taken = match step {
            Opens(number) => opens_as_next(alloc, run, servers, *number),
            _ => takes_at(alloc, run, servers, *position, step),
        };
        if !taken {
            return false;
        }
    }
    true
}

/// Whether the steps of a case go as it says, over a new stream layer.
fn holds(alloc: Global, steps: &[(usize, Step)]) -> bool {
    match started(alloc) {
        Some(run) => {
            let mut run = run;
            let mut servers = Vec::new(alloc);
            takes_all(alloc, &mut run, &mut servers, steps)
        }
        None => false,
    }
}

#[test]
fn each_step_goes_as_it_should(rt: HostRuntime) {
    for (shows, steps) in CASES {
        assert!(rt; holds(rt.alloc(), steps), "{shows}");
    }
}
